//! What an acceptor answers to a proposal at the fast ballot. (Fast Paxos; MDCC.)
ghost use Rattle.std.specs.Prelude.{◌≡◌, ◌≤◌, IfSome, List, None};
ghost use Rattle.mdcc_def_messages.specs.declared.facts.Fact.{Fact as AFact};
ghost use Rattle.mdcc_def_protocol.specs.Acceptor.{answer_after, answer_by_promise, answer_by_vote, answer_to_new, fit_of, on_propose, vote_by_fit, vote_on, vote_to_accept, vote_to_reject};
ghost use Rattle.mdcc_def_protocol.specs.Facts.{current_of, outcome_kept, vote_of};
ghost use Rattle.mdcc_def_protocol.specs.Marks.{seen_in};
ghost use Rattle.mdcc_def_protocol.specs.declared.acceptor.ProposeAnswer.{ProposeAnswer as AProposeAnswer};

use crate::bounded::is_bounded;
use mdcc_base::{Ballot, Plain, TxId};
use mdcc_def_protocol::ProposeAnswer;
use mdcc_escrow::laws::capped_loads_are_bounded;
use mdcc_escrow::{Fit, accept_room, fast_fit, reject_room};
use mdcc_facts::FactStore;
use mdcc_option::{Cause, Choice, Cluster, Mark, Update};

// The transactions that a write saw; an add has none.
fn seen_in(update: &Update) -> &[TxId]
    ensures { result.now ≡ seen_in update.now }
{
    match update {
        Update::Write(_, seen) => seen.as_slice(),
        Update::Add(_) => &[],
    }
}

// How a choice fits beside the live choices of its instance, where that is not below the version held.
fn fit_of<S: FactStore>(store: &S, cluster: &Cluster, choice: &Choice) -> Fit
    ensures { (facts : List AFact) → S.stands store.now facts → current_of facts choice.now.key ≤ choice.now.version → result ≡ fit_of cluster.now facts choice.now }
{
    capped_loads_are_bounded();
    let base = store.base(&choice.key);
    let load = store.load(&choice.key, choice.version, seen_in(&choice.update));
    // Each load that a store answers is bounded.
    if is_bounded(&load) {
        fast_fit(cluster, base.as_ref(), &load, choice)
    } else {
        Fit::Conflict
    }
}

// A vote that accepts, or Full where the instance has no room for one more such mark.
fn vote_to_accept<S: FactStore>(store: &S, choice: &Choice, answer: &mut ProposeAnswer)
    ensures { (facts : List AFact) → S.stands store.now facts → answer.new ≡ vote_to_accept facts choice.now }
{
    let (accepts, _) = store.entries(&choice.key, choice.version);
    if accepts < accept_room(&choice.update) {
        *answer = ProposeAnswer::Vote(Mark::Accept(choice.copy()));
    } else {
        *answer = ProposeAnswer::Escalate(Cause::Full);
    }
}

// A vote that rejects, or Full where the instance has no room for one more such mark.
fn vote_to_reject<S: FactStore>(store: &S, choice: &Choice, answer: &mut ProposeAnswer)
    ensures { (facts : List AFact) → S.stands store.now facts → answer.new ≡ vote_to_reject facts choice.now }
{
    let (_, rejects) = store.entries(&choice.key, choice.version);
    if rejects < reject_room() {
        *answer = ProposeAnswer::Vote(Mark::Reject);
    } else {
        *answer = ProposeAnswer::Escalate(Cause::Full);
    }
}

// What a fit gives: past the share of one acceptor there is no vote.
fn vote_by_fit<S: FactStore>(store: &S, choice: &Choice, fit: Fit, answer: &mut ProposeAnswer)
    ensures { (facts : List AFact) → S.stands store.now facts → answer.new ≡ vote_by_fit facts choice.now fit }
{
    match fit {
        Fit::Fits => vote_to_accept(store, choice, answer),
        Fit::Conflict => vote_to_reject(store, choice, answer),
        Fit::Limit(quantity) => *answer = ProposeAnswer::Escalate(Cause::Limit(quantity)),
        Fit::Breaks(_) => vote_to_reject(store, choice, answer),
    }
}

// The vote on a choice at or below the version held, in an instance without a classic promise.
fn vote_on<S: FactStore>(store: &S, cluster: &Cluster, choice: &Choice, answer: &mut ProposeAnswer)
    ensures { (facts : List AFact) → S.stands store.now facts → answer.new ≡ vote_on cluster.now facts choice.now }
{
    if choice.version < store.current(&choice.key) {
        vote_to_reject(store, choice, answer);
    } else {
        vote_by_fit(store, choice, fit_of(store, cluster, choice), answer);
    }
}

// The answer by the promise of the instance.
fn answer_by_promise<S: FactStore>(
    store: &S,
    cluster: &Cluster,
    choice: &Choice,
    promise: Ballot,
    answer: &mut ProposeAnswer,
)
    ensures { (facts : List AFact) → S.stands store.now facts → answer.new ≡ answer_by_promise cluster.now facts choice.now promise }
{
    if promise.is(&Ballot::FAST) {
        vote_on(store, cluster, choice, answer);
    } else {
        *answer = ProposeAnswer::Escalate(Cause::Classic(promise));
    }
}

// The answer to a proposal whose transaction was neither heard nor voted here.
fn answer_to_new<S: FactStore>(
    store: &S,
    cluster: &Cluster,
    choice: &Choice,
    answer: &mut ProposeAnswer,
)
    ensures { (facts : List AFact) → S.stands store.now facts → answer.new ≡ answer_to_new cluster.now facts choice.now }
{
    if store.current(&choice.key) < choice.version {
        *answer = ProposeAnswer::Escalate(Cause::Behind);
    } else {
        let promise = store.promise(&choice.key, choice.version);
        answer_by_promise(store, cluster, choice, promise, answer);
    }
}

// The answer by what was voted on the transaction in the instance.
fn answer_by_vote<S: FactStore>(
    store: &S,
    cluster: &Cluster,
    choice: &Choice,
    answer: &mut ProposeAnswer,
)
    ensures { (facts : List AFact) → S.stands store.now facts
        → answer.new ≡ answer_by_vote cluster.now facts choice.now (vote_of facts choice.now.key choice.now.version choice.now.tx) }
{
    match store.vote_of(&choice.key, choice.version, choice.tx) {
        Some((ballot, mark)) => *answer = ProposeAnswer::Again(ballot, mark),
        None => answer_to_new(store, cluster, choice, answer),
    }
}

// The answer where no outcome is kept: whether the transaction is finished, and then by its vote.
fn answer_to_unkept<S: FactStore>(
    store: &S,
    cluster: &Cluster,
    choice: &Choice,
    answer: &mut ProposeAnswer,
)
    ensures { (facts : List AFact) → S.stands store.now facts → answer.new ≡ answer_after cluster.now facts choice.now None }
{
    if store.finished(choice.tx) {
        *answer = ProposeAnswer::Finished;
    } else {
        answer_by_vote(store, cluster, choice, answer);
    }
}

// The answer where an outcome is kept: how the transaction ended.
#[inline(never)]
fn answer_to_kept<S: FactStore>(store: &S, tx: TxId, answer: &mut ProposeAnswer)
    ensures { (facts : List AFact) → S.stands store.now facts
        → IfSome (outcome_kept facts tx) (λ outcome. answer.new ≡ AProposeAnswer.Known outcome) }
{
    if let Some(outcome) = store.heard(tx) {
        *answer = ProposeAnswer::Known(outcome);
    }
}

/// What an acceptor answers to a proposal at the fast ballot, in this order: how the transaction
/// ended, that it is finished, its vote in the instance, that it holds an older version, that it
/// promised a classic ballot, and else a vote or why it gives none. It adds no fact: whoever sends a
/// vote adds it first.
pub fn answer_proposal<S: FactStore>(
    store: &S,
    cluster: &Cluster,
    choice: &Choice,
    answer: &mut ProposeAnswer,
)
    ensures { (facts : List AFact) → S.stands store.now facts → answer.new ≡ on_propose cluster.now facts choice.now }
{
    if store.ended(choice.tx).is_some() {
        answer_to_kept(store, choice.tx, answer);
    } else {
        answer_to_unkept(store, cluster, choice, answer);
    }
}

/// The same, as a value.
pub fn on_propose<S: FactStore>(store: &S, cluster: &Cluster, choice: &Choice) -> ProposeAnswer
    ensures { (facts : List AFact) → S.stands store.now facts → result ≡ on_propose cluster.now facts choice.now }
{
    let mut answer = ProposeAnswer::Vote(Mark::Reject);
    answer_proposal(store, cluster, choice, &mut answer);
    answer
}
