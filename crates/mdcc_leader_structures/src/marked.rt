//! Structures with claims marked in them.
ghost use Rattle.std.specs.Prelude.{◌≡◌, IfOk, List, OnOk, fold};
ghost use Rattle.std.specs.Option.{IfSome, option_copied};
ghost use Rattle.mdcc_def_messages.specs.declared.facts.Fact.{Fact as AFact};
ghost use Rattle.mdcc_option.specs.declared.choices.Mark.{Mark as AMark};
ghost use Rattle.mdcc_def_protocol.specs.Structures.{with_claim};
ghost use Rattle.mdcc_struct.specs.Maps.{TxMap, inserted};
ghost use Rattle.mdcc_escrow.specs.Sums.{IsBoundedLoad};
ghost use Rattle.mdcc_leader_structures.specs.Live.{IsWeighed};

use crate::Claims;
use crate::live::{has_delta, load_at_leader, with_update};
use crate::marking::{is_left_out, mark_beside};
use mdcc_base::{Key, Memory, TxId};
use mdcc_escrow::Load;
use mdcc_facts::FactStore;
use mdcc_option::{Choice, Cluster, Mark};
use mdcc_struct::Options;

/// Marks claims in a structure, in order.
pub(crate) fn with_claims<S: FactStore>(
    store: &S,
    cluster: &Cluster,
    key: &Key,
    version: u64,
    options: &mut Options,
    claims: &Claims,
) -> Result<(), Memory>
    ensures { (facts : List AFact) → S.stands store.now facts
        → OnOk result (options.new ≡ fold (with_claim cluster.now facts key.now version) options.old claims.now) }
{
    let mut load = load_at_leader(store, key, options);
    for place in 0..claims.len() {
        let claim = claims.at(place);
        load = with_claim(store, cluster, key, version, options, load, claim)?;
    }
    Ok(())
}

// Marks a claim in a structure of which this is the load, and gives the load that it has then. A
// claim that is in it stays as it is marked, and one whose transaction was heard or is finished is
// left out: all centres may have forgotten its mark.
fn with_claim<S: FactStore>(
    store: &S,
    cluster: &Cluster,
    key: &Key,
    version: u64,
    options: &mut Options,
    load: Load,
    claim: (TxId, Option<&Choice>),
) -> Result<Load, Memory>
    requires bounded { IsBoundedLoad load }
    requires weighed { (facts : List AFact) → S.stands store.now facts → IsWeighed facts key.now options.old load }
    ensures value { (facts : List AFact) → S.stands store.now facts
        → OnOk result (options.new ≡ with_claim cluster.now facts key.now version options.old (claim.entry.0, option_copied claim.entry.1)) }
    ensures weighed { (facts : List AFact) → S.stands store.now facts → IfOk result (λ load. IsWeighed facts key.now options.new load) }
    ensures bounded { IfOk result (λ load. IsBoundedLoad load) }
{
    let (tx, choice) = claim;
    if options.mark_of(tx).is_some() || store.is_settled(tx) {
        return Ok(load);
    }
    let mark = mark_beside(store, cluster, key, version, options, &load, choice);
    if is_left_out(options, &mark) {
        return Ok(load);
    }
    let known = load_with(store, key, load, tx, &mark);
    options.insert(tx, mark)?;
    Ok(load_or_anew(store, key, options, known))
}

// The load once a transaction that had no mark has this one. It is not known where its choice is
// accepted beside its executed delta, which counts no more then.
fn load_with<S: FactStore>(store: &S, key: &Key, load: Load, tx: TxId, mark: &Mark) -> Option<Load>
    requires { IsBoundedLoad load }
    ensures value { (facts : List AFact) (before : TxMap AMark) → S.stands store.now facts → IsWeighed facts key.now before load
        → IfSome result (λ load. IsWeighed facts key.now (inserted before (tx, mark.now)) load) }
    ensures bounded { IfSome result (λ load. IsBoundedLoad load) }
{
    match mark {
        Mark::Accept(choice) => {
            if has_delta(store, key, tx) {
                None
            } else {
                Some(with_update(store, load, tx, &choice.update))
            }
        }
        Mark::Reject => Some(load),
    }
}

// The load where it is known, and else summed anew.
fn load_or_anew<S: FactStore>(store: &S, key: &Key, options: &Options, known: Option<Load>) -> Load
    requires weighed { (facts : List AFact) → S.stands store.now facts → IfSome known (λ load. IsWeighed facts key.now options.now load) }
    requires bounded { IfSome known (λ load. IsBoundedLoad load) }
    ensures value { (facts : List AFact) → S.stands store.now facts → IsWeighed facts key.now options.now result }
    ensures bounded { IsBoundedLoad result }
{
    match known {
        Some(load) => load,
        None => load_at_leader(store, key, options),
    }
}
