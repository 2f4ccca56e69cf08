//! Whether a fact may stand after those before it.
ghost use Rattle.std.specs.Prelude.{◌≡◌, List};
ghost use Rattle.mdcc_node_boot.specs.Admission.{is_admitted, is_admitted_kind, is_next_epoch};
ghost use Rattle.mdcc_def_ledger.specs.AllowedFacts.{is_booted};
ghost use Rattle.mdcc_def_messages.specs.declared.facts.Fact.{Fact as AFact};

use crate::facts_belong::fact_belongs;
use crate::news::is_news;
use crate::promises::is_allowed_promise;
use crate::votes::is_allowed_vote;
use mdcc_def_messages::Fact;
use mdcc_facts::FactStore;
use mdcc_option::Cluster;

fn is_booted(fact: &Fact) -> bool
    ensures { result ≡ is_booted fact.now }
{
    match fact {
        Fact::Booted(_) => true,
        _ => false,
    }
}

// Whether the epoch is the next one.
fn is_next_epoch<S: FactStore>(store: &S, epoch: u32) -> bool
    ensures { (facts : List AFact) → S.stands store.now facts → result ≡ is_next_epoch facts epoch }
{
    u64::from(epoch) == u64::from(store.epoch()) + 1
}

// Whether the condition of its kind of facts is met.
fn is_admitted_kind<S: FactStore>(store: &S, cluster: &Cluster, fact: &Fact) -> bool
    ensures { (facts : List AFact) → S.stands store.now facts → result ≡ is_admitted_kind cluster.now facts fact.now }
{
    match fact {
        Fact::Booted(epoch) => is_next_epoch(store, *epoch),
        Fact::Promised {
            key,
            low,
            high,
            ballot,
        } => is_allowed_promise(store, key, *low, *high, ballot),
        Fact::Voted {
            key,
            version,
            ballot,
            options,
            offered,
        } => is_allowed_vote(store, cluster, key, *version, ballot, options, offered),
        Fact::Heard { tx, outcome: _ } => !store.is_settled(*tx),
        Fact::Adopted {
            key,
            version,
            item: _,
            adds,
        } => is_news(store, key, *version, adds.as_slice()),
        Fact::Floor { .. } => false,
    }
}

/// Whether the fact may stand after those of the store, but for whether it leaves more than 64
/// deltas on a version: `FactStore::add` refuses it as crowded where it does. It takes no memory.
pub fn is_admitted<S: FactStore>(store: &S, cluster: &Cluster, fact: &Fact) -> bool
    ensures { (facts : List AFact) → S.stands store.now facts → result ≡ is_admitted cluster.now facts fact.now }
{
    fact_belongs(cluster, fact)
        && (is_booted(fact) || 0 < store.epoch())
        && is_admitted_kind(store, cluster, fact)
}
