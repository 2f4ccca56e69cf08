//! Votes that may stand after the facts before them.
ghost use Rattle.std.specs.Prelude.{◌≡◌, ◌&&◌, List, is_some, length, nat_le, nat_lt, not};
ghost use Rattle.mdcc_node_boot.specs.Admission.{are_new, is_allowed_single, is_allowed_vote};
ghost use Rattle.mdcc_def_ledger.specs.BootTest.{is_allowed_classic_vote, is_allowed_fast_vote, is_allowed_mark, is_answer};
ghost use Rattle.mdcc_def_protocol.specs.Facts.{current_of};
ghost use Rattle.mdcc_def_messages.specs.declared.facts.Fact.{Fact as AFact};

use mdcc_acceptor::on_propose;
use mdcc_base::{Ballot, Key, TxId};
use mdcc_def_protocol::ProposeAnswer;
use mdcc_facts::FactStore;
use mdcc_option::{Choice, Cluster, Mark};
use mdcc_struct::Options;

// ---- at the fast ballot

// Whether the acceptor answers with a vote of this mark.
fn is_answer(mark: &Mark, answer: &ProposeAnswer) -> bool
    ensures { result ≡ is_answer mark.now answer.now }
{
    match answer {
        ProposeAnswer::Vote(other) => mark.is(other),
        _ => false,
    }
}

// Whether the mark is the acceptor's own of this choice.
#[tactic(auto, using(crate::proofs::Single::answered))]
fn is_allowed_mark<S: FactStore>(
    store: &S,
    cluster: &Cluster,
    key: &Key,
    version: u64,
    tx: &TxId,
    mark: &Mark,
    choice: &Choice,
) -> bool
    ensures { (facts : List AFact) → S.stands store.now facts
        → result ≡ is_allowed_mark cluster.now facts key.now version tx.now mark.now choice.now }
{
    choice.tx.is(tx)
        && choice.version == version
        && choice.key.is(key)
        && is_answer(mark, &on_propose(store, cluster, choice))
}

// Whether the one mark of a vote is, with the choice offered exactly where it is a rejection.
fn is_allowed_single<S: FactStore>(
    store: &S,
    cluster: &Cluster,
    key: &Key,
    version: u64,
    tx: &TxId,
    mark: &Mark,
    offered: &Option<Choice>,
) -> bool
    ensures { (facts : List AFact) → S.stands store.now facts
        → result ≡ is_allowed_single cluster.now facts key.now version tx.now mark.now offered.now }
{
    match mark {
        Mark::Accept(choice) => match offered {
            Some(_) => false,
            None => is_allowed_mark(store, cluster, key, version, tx, mark, choice),
        },
        Mark::Reject => match offered {
            Some(choice) => is_allowed_mark(store, cluster, key, version, tx, mark, choice),
            None => false,
        },
    }
}

// Whether a vote at the fast ballot may. (Fast Paxos; MDCC.)
#[tactic(auto, using(crate::proofs::Single::one_mark, crate::proofs::Single::other_marks))]
fn is_allowed_fast_vote<S: FactStore>(
    store: &S,
    cluster: &Cluster,
    key: &Key,
    version: u64,
    options: &Options,
    offered: &Option<Choice>,
) -> bool
    ensures { (facts : List AFact) → S.stands store.now facts
        → result ≡ is_allowed_fast_vote cluster.now facts key.now version options.now offered.now }
{
    if options.len() == 1 {
        let (tx, mark) = options.at(0);
        is_allowed_single(store, cluster, key, version, &tx, mark, offered)
    } else {
        false
    }
}

// ---- at a classic ballot

// Whether no mark of the structure was voted at the ballot, and none is of a finished transaction.
#[tactic(auto, using(crate::proofs::Marks::none_voted))]
fn are_new<S: FactStore>(
    store: &S,
    key: &Key,
    version: u64,
    ballot: Ballot,
    options: &Options,
) -> bool
    ensures { (facts : List AFact) → S.stands store.now facts → result ≡ are_new facts key.now version ballot options.now }
{
    store.count_past(key, version, ballot, options) == 0
}

// Whether a vote at a classic ballot may, where it is not below the promise.
fn is_new_vote<S: FactStore>(
    store: &S,
    key: &Key,
    version: u64,
    ballot: &Ballot,
    options: &Options,
    offered: &Option<Choice>,
) -> bool
    ensures { (facts : List AFact) → S.stands store.now facts
        → result ≡ (nat_le version (current_of facts key.now) && nat_lt 0 (length options.now)
        && are_new facts key.now version ballot.now options.now && not (is_some offered.now)) }
{
    version <= store.current(key)
        && 0 < options.len()
        && are_new(store, key, version, *ballot, options)
        && offered.is_none()
}

// Whether a vote at a classic ballot may. (Generalized Paxos.)
#[tactic(auto, using(crate::proofs::Several::classic_vote, crate::proofs::Several::no_vote))]
fn is_allowed_classic_vote<S: FactStore>(
    store: &S,
    key: &Key,
    version: u64,
    ballot: &Ballot,
    options: &Options,
    offered: &Option<Choice>,
) -> bool
    ensures { (facts : List AFact) → S.stands store.now facts
        → result ≡ is_allowed_classic_vote facts key.now version ballot.now options.now offered.now }
{
    let _count = options.len();
    if ballot.is_below(&store.promise(key, version)) {
        return false;
    }
    is_new_vote(store, key, version, ballot, options, offered)
}

/// Whether a vote may.
pub(crate) fn is_allowed_vote<S: FactStore>(
    store: &S,
    cluster: &Cluster,
    key: &Key,
    version: u64,
    ballot: &Ballot,
    options: &Options,
    offered: &Option<Choice>,
) -> bool
    ensures { (facts : List AFact) → S.stands store.now facts
        → result ≡ is_allowed_vote cluster.now facts key.now version ballot.now options.now offered.now }
{
    if ballot.is(&Ballot::FAST) {
        is_allowed_fast_vote(store, cluster, key, version, options, offered)
    } else {
        is_allowed_classic_vote(store, key, version, ballot, options, offered)
    }
}
