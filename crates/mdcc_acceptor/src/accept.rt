//! What an acceptor answers to a leader's structure. (Generalized Paxos.)
ghost use Rattle.std.specs.Prelude.{◌≡◌, List};
ghost use Rattle.mdcc_def_messages.specs.declared.facts.Fact.{Fact as AFact};
ghost use Rattle.mdcc_def_protocol.specs.Acceptor.{answer_to_marks, new_marks, on_accept};

use mdcc_base::{Ballot, Key};
use mdcc_def_protocol::AcceptAnswer;
use mdcc_facts::FactStore;
use mdcc_struct::Options;

// A vote, where a mark's transaction is not finished and was not voted at the ballot.
#[tactic(auto, using(crate::proofs::NewMarks::none_new, crate::proofs::NewMarks::one_new))]
fn answer_to_marks<S: FactStore>(
    store: &S,
    key: &Key,
    version: u64,
    ballot: Ballot,
    options: &Options,
) -> AcceptAnswer
    ensures { (facts : List AFact) → S.stands store.now facts → result ≡ answer_to_marks (new_marks facts key.now version ballot options.now) }
{
    if store.count_past(key, version, ballot, options) == options.len() {
        AcceptAnswer::Older
    } else {
        AcceptAnswer::Vote
    }
}

/// What an acceptor answers to a leader's structure. It adds no fact: whoever votes adds it first.
pub fn on_accept<S: FactStore>(
    store: &S,
    key: &Key,
    version: u64,
    ballot: Ballot,
    options: &Options,
) -> AcceptAnswer
    ensures { (facts : List AFact) → S.stands store.now facts → result ≡ on_accept facts key.now version ballot options.now }
{
    let promise = store.promise(key, version);
    if ballot.is_below(&promise) {
        return AcceptAnswer::Refused(promise);
    }
    let current = store.current(key);
    if current < version {
        return AcceptAnswer::Behind(current);
    }
    answer_to_marks(store, key, version, ballot, options)
}
