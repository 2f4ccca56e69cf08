//! What an acceptor answers to a leader that asks for its promise. (Fast Paxos.)
ghost use Rattle.std.specs.Prelude.{◌≡◌, List};
ghost use Rattle.mdcc_def_messages.specs.declared.facts.Fact.{Fact as AFact};
ghost use Rattle.mdcc_def_protocol.specs.Acceptor.{on_prepare, promise_answer, range_end};

use mdcc_base::{Ballot, Key};
use mdcc_def_protocol::PrepareAnswer;
use mdcc_facts::FactStore;

// The end of the range: a centre that holds a later version promises the asked one alone.
fn range_end<S: FactStore>(store: &S, key: &Key, version: u64, through: u64) -> u64
    ensures { (facts : List AFact) → S.stands store.now facts → result ≡ range_end facts key.now version through }
{
    if store.current(key) <= version {
        through
    } else {
        version
    }
}

// A promise that was made before, or a new one.
fn promise_answer(before: Option<u64>, new: u64) -> PrepareAnswer
    ensures { result ≡ promise_answer before new }
{
    match before {
        Some(high) => PrepareAnswer::Again(high),
        None => PrepareAnswer::Promise(new),
    }
}

/// What an acceptor answers to a leader that asks for its promise, from a version through another
/// one. It adds no fact: whoever sends a promise adds it first.
pub fn on_prepare<S: FactStore>(
    store: &S,
    key: &Key,
    version: u64,
    through: u64,
    ballot: Ballot,
) -> PrepareAnswer
    ensures { (facts : List AFact) → S.stands store.now facts → result ≡ on_prepare facts key.now version through ballot }
{
    let promise = store.promise(key, version);
    if ballot.is_below(&promise) {
        return PrepareAnswer::Refused(promise);
    }
    let before = store.promised(key, version, ballot);
    promise_answer(before, range_end(store, key, version, through))
}
