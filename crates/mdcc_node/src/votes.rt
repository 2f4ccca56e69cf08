//! The votes of an acceptor on a leader's structure.
ghost use Rattle.std.specs.Prelude.{◌≡◌, ◌++◌, ◌&&◌, ◌-◌, ◌==◌, IfOk, List, None, OnOk, filter, is_some, length, not};
ghost use Rattle.mdcc_def_messages.specs.declared.facts.Fact.{Fact as AFact};
ghost use Rattle.mdcc_def_messages.specs.declared.messages.Message.{Message as AMessage};
ghost use Rattle.mdcc_node.specs.StepParts.{is_new, is_unknown};
ghost use Rattle.mdcc_node.specs.StepPlans.{unsettled_sent};
ghost use Rattle.mdcc_def_protocol.specs.Acceptor;
ghost use Rattle.mdcc_facts.specs.Past.{count_past};
ghost use Rattle.mdcc_def_rules.specs.AcceptorRules.{all_votes_sent, votes_sent};
ghost use Rattle.mdcc_struct.specs.Maps.{inserted, value_of};

use mdcc_base::{Ballot, HeapList, Key, Memory, Plain, TxId};
use mdcc_def_messages::{Envelope, Message};
use mdcc_facts::FactStore;
use mdcc_node_sends::send;
use mdcc_option::Mark;
use mdcc_struct::Options;
use std::alloc::Global;

// Whether a transaction has no mark among these votes, and is not finished.
fn is_new<S: FactStore>(store: &S, votes: &Options, tx: TxId) -> bool
    ensures { (facts : List AFact) → S.stands store.now facts → result ≡ is_new facts votes.now tx }
{
    !(votes.mark_of(tx).is_some() || store.finished(tx))
}

// The marks of a structure whose transactions have none among these votes, and are not finished.
fn new_marks<S: FactStore>(
    alloc: Global,
    store: &S,
    votes: &Options,
    options: &Options,
) -> Result<Options, Memory>
    ensures { (facts : List AFact) → S.stands store.now facts
        → IfOk result (λ marks. marks ≡ filter (λ e. is_new facts votes.now e.0) options.now) }
{
    let mut marks = Options::new(alloc)?;
    for place in 0..options.len() {
        let (tx, mark) = options.at(place);
        if is_new(store, votes, tx) {
            add_mark(&mut marks, tx, mark)?;
        }
    }
    Ok(marks)
}

// Whether a transaction was not heard and is not finished, and no vote holds a choice of it.
fn is_unknown<S: FactStore>(store: &S, tx: TxId) -> bool
    ensures { (facts : List AFact) → S.stands store.now facts → result ≡ is_unknown facts tx }
{
    !store.is_settled(tx) && store.write_set(tx).is_none()
}

// Adds a copy of a mark, where its transaction has none.
fn add_mark(marks: &mut Options, tx: TxId, mark: &Mark) -> Result<(), Memory>
    ensures { value_of marks.old tx ≡ None → OnOk result (marks.new ≡ inserted marks.old (tx, mark.now)) }
{
    if marks.mark_of(tx).is_none() {
        marks.insert(tx, mark.copy())?;
    }
    Ok(())
}

// The marks of a structure whose transactions are unknown.
fn unknown_marks<S: FactStore>(
    alloc: Global,
    store: &S,
    options: &Options,
) -> Result<Options, Memory>
    ensures { (facts : List AFact) → S.stands store.now facts
        → IfOk result (λ marks. marks ≡ filter (λ e. is_unknown facts e.0) options.now) }
{
    let mut marks = Options::new(alloc)?;
    for place in 0..options.len() {
        let (tx, mark) = options.at(place);
        if is_unknown(store, tx) {
            add_mark(&mut marks, tx, mark)?;
        }
    }
    Ok(marks)
}

// Whether none of some marks of a structure was voted in an instance at a ballot or is finished, and
// so many of the structure were or are as it has besides.
fn are_unvoted<S: FactStore>(
    store: &S,
    key: &Key,
    version: u64,
    ballot: Ballot,
    options: &Options,
    marks: &Options,
) -> bool
    ensures { (facts : List AFact) → S.stands store.now facts
        → result ≡ (count_past facts key.now version ballot options.now == length options.now - length marks.now && count_past facts key.now version ballot marks.now == 0) }
{
    let others = options.len().saturating_sub(marks.len());
    store.count_past(key, version, ballot, options) == others
        && store.count_past(key, version, ballot, marks) == 0
}

/// The marks of a structure whose transactions are not finished and were not voted in an instance at
/// a ballot. Most often they are those of which nothing is known, and then no vote is read.
pub(crate) fn unvoted_marks<S: FactStore>(
    alloc: Global,
    store: &S,
    key: &Key,
    version: u64,
    ballot: Ballot,
    options: &Options,
) -> Result<Options, Memory>
    ensures { (facts : List AFact) → S.stands store.now facts
        → IfOk result (λ marks. marks ≡ Acceptor.new_marks facts key.now version ballot options.now) }
{
    let marks = unknown_marks(alloc, store, options)?;
    if are_unvoted(store, key, version, ballot, options, &marks) {
        return Ok(marks);
    }
    let votes = store.votes(alloc, key, version, ballot)?;
    new_marks(alloc, store, &votes, options)
}

// A vote goes to the transaction's centre and, if another, to the ballot's.
fn send_vote(
    alloc: Global,
    from: u8,
    key: &Key,
    version: u64,
    ballot: Ballot,
    tx: TxId,
    mark: &Mark,
    sends: &mut HeapList<Envelope>,
) -> Result<(), Memory>
    ensures { OnOk result (sends.new ≡ sends.old ++ votes_sent from key.now version ballot (tx, mark.now)) }
{
    let manager = tx.centre.number();
    let message = vote_message(key, version, ballot, tx, mark);
    send(alloc, from, manager, message, sends)?;
    if manager != ballot.centre {
        let message = vote_message(key, version, ballot, tx, mark);
        send(alloc, from, ballot.centre, message, sends)?;
    }
    Ok(())
}

// A vote, as it is sent.
fn vote_message(key: &Key, version: u64, ballot: Ballot, tx: TxId, mark: &Mark) -> Message
    ensures { result ≡ AMessage.Voted key.now version ballot tx mark.now }
{
    Message::Voted {
        key: *key,
        version,
        ballot,
        tx,
        mark: mark.copy(),
    }
}

// A vote, where the transaction is not settled.
fn send_unsettled<S: FactStore>(
    alloc: Global,
    store: &S,
    from: u8,
    key: &Key,
    version: u64,
    ballot: Ballot,
    tx: TxId,
    mark: &Mark,
    sends: &mut HeapList<Envelope>,
) -> Result<(), Memory>
    ensures { (facts : List AFact) → S.stands store.now facts
        → OnOk result (sends.new ≡ sends.old ++ unsettled_sent from facts key.now version ballot (tx, mark.now)) }
{
    if store.is_settled(tx) {
        return Ok(());
    }
    send_vote(alloc, from, key, version, ballot, tx, mark, sends)
}

/// The votes on these marks, but for those whose transaction is settled.
pub(crate) fn send_votes<S: FactStore>(
    alloc: Global,
    store: &S,
    from: u8,
    key: &Key,
    version: u64,
    ballot: Ballot,
    marks: &Options,
    sends: &mut HeapList<Envelope>,
) -> Result<(), Memory>
    ensures { (facts : List AFact) → S.stands store.now facts
        → OnOk result (sends.new ≡ sends.old ++ all_votes_sent from facts key.now version ballot marks.now) }
{
    for place in 0..marks.len() {
        let (tx, mark) = marks.at(place);
        send_unsettled(alloc, store, from, key, version, ballot, tx, mark, sends)?;
    }
    Ok(())
}
