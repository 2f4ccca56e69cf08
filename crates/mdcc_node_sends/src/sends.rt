//! Messages, by whom they go to, each written behind those before.
ghost use Rattle.std.specs.Prelude.{◌≡◌, ◌++◌, ◌∷◌, [], OnOk};
ghost use Rattle.mdcc_node_sends.specs.Others.{to_other};
ghost use Rattle.mdcc_def_rules.specs.LeaderRules.{lead_sent, promise_sent};
ghost use Rattle.mdcc_def_rules.specs.ManagerRules.{proposals_sent};
ghost use Rattle.mdcc_def_rules.specs.Messages.{to_all, to_one, to_others};
ghost use Rattle.mdcc_def_messages.specs.declared.messages.Message.{Message as AMessage};

use mdcc_base::{Ballot, HeapList, Key, Memory, Plain, Quorums, TxId};
use mdcc_def_messages::{Envelope, Message};
use mdcc_def_protocol::{LeadAnswer, PromiseAnswer};
use mdcc_option::{Choice, Claim, Outcome};
use mdcc_struct::Options;
use std::alloc::Global;
use std::mem;

// Makes room for so many messages more.
fn make_room(alloc: Global, count: usize, sends: &mut HeapList<Envelope>) -> Result<(), Memory>
    ensures { OnOk result (sends.new ≡ sends.old) }
{
    let mut messages = mem::replace(sends, HeapList::new(alloc)).into_vec();
    messages.try_reserve(count)?;
    *sends = HeapList::from_vec(messages);
    Ok(())
}

// Adds a message behind the others.
fn push(alloc: Global, envelope: Envelope, sends: &mut HeapList<Envelope>) -> Result<(), Memory>
    ensures { OnOk result (sends.new ≡ sends.old ++ envelope ∷ []) }
{
    let mut messages = mem::replace(sends, HeapList::new(alloc)).into_vec();
    messages.try_reserve(1)?;
    messages.push_reserved(envelope);
    *sends = HeapList::from_vec(messages);
    Ok(())
}

/// One message to one centre.
#[inline]
pub fn send(
    alloc: Global,
    from: u8,
    to: u8,
    message: Message,
    sends: &mut HeapList<Envelope>,
) -> Result<(), Memory>
    ensures { OnOk result (sends.new ≡ sends.old ++ to_one from to message) }
{
    push(alloc, Envelope { from, to, message }, sends)
}

/// Proposes a choice to all centres.
#[tactic(auto, using(crate::proofs::Ranges::next_sent))]
pub fn propose(
    alloc: Global,
    quorums: &Quorums,
    from: u8,
    choice: &Choice,
    sends: &mut HeapList<Envelope>,
) -> Result<(), Memory>
    ensures { OnOk result (sends.new ≡ sends.old ++ to_all quorums.now from (AMessage.Propose choice.now)) }
{
    make_room(alloc, usize::from(quorums.centres()), sends)?;
    for to in 1..quorums.centres() + 1 {
        send(alloc, from, to, Message::Propose(choice.copy()), sends)?;
    }
    Ok(())
}

/// Proposes choices to all centres.
pub fn propose_each(
    alloc: Global,
    quorums: &Quorums,
    from: u8,
    choices: &[Choice],
    sends: &mut HeapList<Envelope>,
) -> Result<(), Memory>
    ensures { OnOk result (sends.new ≡ sends.old ++ proposals_sent quorums.now from choices.now) }
{
    for choice in choices {
        propose(alloc, quorums, from, choice, sends)?;
    }
    Ok(())
}

// Asks all centres for promises.
#[tactic(auto, using(crate::proofs::Ranges::next_sent))]
fn prepare(
    alloc: Global,
    quorums: &Quorums,
    from: u8,
    key: &Key,
    version: u64,
    through: u64,
    ballot: Ballot,
    sends: &mut HeapList<Envelope>,
) -> Result<(), Memory>
    ensures { OnOk result (sends.new ≡ sends.old ++ to_all quorums.now from (AMessage.Prepare key.now version through ballot)) }
{
    for to in 1..quorums.centres() + 1 {
        let message = Message::Prepare {
            key: *key,
            version,
            through,
            ballot,
        };
        send(alloc, from, to, message, sends)?;
    }
    Ok(())
}

// Asks all centres for votes on a structure.
#[tactic(auto, using(crate::proofs::Ranges::next_sent))]
fn accept(
    alloc: Global,
    quorums: &Quorums,
    from: u8,
    key: &Key,
    version: u64,
    ballot: Ballot,
    options: &Options,
    sends: &mut HeapList<Envelope>,
) -> Result<(), Memory>
    ensures { OnOk result (sends.new ≡ sends.old ++ to_all quorums.now from (AMessage.Accept key.now version ballot options.now)) }
{
    make_room(alloc, usize::from(quorums.centres()), sends)?;
    for to in 1..quorums.centres() + 1 {
        let options = options.copy(alloc)?;
        let message = Message::Accept {
            key: *key,
            version,
            ballot,
            options,
        };
        send(alloc, from, to, message, sends)?;
    }
    Ok(())
}

/// Asks all centres for their votes on a transaction.
#[tactic(auto, using(crate::proofs::Ranges::next_sent))]
pub fn ask_votes(
    alloc: Global,
    quorums: &Quorums,
    from: u8,
    tx: TxId,
    key: &Key,
    version: u64,
    sends: &mut HeapList<Envelope>,
) -> Result<(), Memory>
    ensures { OnOk result (sends.new ≡ sends.old ++ to_all quorums.now from (AMessage.Ask tx key.now version)) }
{
    for to in 1..quorums.centres() + 1 {
        let message = Message::Ask {
            tx,
            key: *key,
            version,
        };
        send(alloc, from, to, message, sends)?;
    }
    Ok(())
}

// Tells a centre how a transaction ended, where it is another one.
fn tell(
    alloc: Global,
    from: u8,
    to: u8,
    tx: TxId,
    outcome: &Outcome,
    sends: &mut HeapList<Envelope>,
) -> Result<(), Memory>
    ensures { OnOk result (sends.new ≡ sends.old ++ to_other from to (AMessage.Outcome tx outcome.now)) }
{
    if to == from {
        return Ok(());
    }
    let message = Message::Outcome {
        tx,
        outcome: outcome.copy(),
    };
    send(alloc, from, to, message, sends)
}

/// Tells all other centres how a transaction ended.
pub fn tell_others(
    alloc: Global,
    quorums: &Quorums,
    from: u8,
    tx: TxId,
    outcome: &Outcome,
    sends: &mut HeapList<Envelope>,
) -> Result<(), Memory>
    ensures { OnOk result (sends.new ≡ sends.old ++ to_others quorums.now from (AMessage.Outcome tx outcome.now)) }
{
    make_room(alloc, usize::from(quorums.centres()), sends)?;
    for to in 1..quorums.centres() + 1 {
        tell(alloc, from, to, tx, outcome, sends)?;
    }
    Ok(())
}

// Asks a centre for what it holds of a key, where it is another one.
fn ask(
    alloc: Global,
    from: u8,
    to: u8,
    key: &Key,
    sends: &mut HeapList<Envelope>,
) -> Result<(), Memory>
    ensures { OnOk result (sends.new ≡ sends.old ++ to_other from to (AMessage.SyncAsk key.now)) }
{
    if to == from {
        return Ok(());
    }
    send(alloc, from, to, Message::SyncAsk(*key), sends)
}

// Asks all other centres for what they hold of a key.
fn ask_others(
    alloc: Global,
    quorums: &Quorums,
    from: u8,
    key: &Key,
    sends: &mut HeapList<Envelope>,
) -> Result<(), Memory>
    ensures { OnOk result (sends.new ≡ sends.old ++ to_others quorums.now from (AMessage.SyncAsk key.now)) }
{
    for to in 1..quorums.centres() + 1 {
        ask(alloc, from, to, key, sends)?;
    }
    Ok(())
}

/// What the answer to a claim sends.
pub fn send_lead(
    alloc: Global,
    quorums: &Quorums,
    from: u8,
    claim: &Claim,
    answer: &LeadAnswer,
    sends: &mut HeapList<Envelope>,
) -> Result<(), Memory>
    ensures { OnOk result (sends.new ≡ sends.old ++ lead_sent quorums.now from claim.now answer.now) }
{
    let key = &claim.key;
    match answer {
        LeadAnswer::Behind => ask_others(alloc, quorums, from, key, sends),
        LeadAnswer::Accept {
            version,
            ballot,
            options,
        } => accept(alloc, quorums, from, key, *version, *ballot, options, sends),
        LeadAnswer::Prepare {
            version,
            through,
            ballot,
        } => prepare(
            alloc, quorums, from, key, *version, *through, *ballot, sends,
        ),
        LeadAnswer::Left => Ok(()),
    }
}

/// What the answer to a promise sends.
pub fn send_promised(
    alloc: Global,
    quorums: &Quorums,
    from: u8,
    key: &Key,
    answer: &PromiseAnswer,
    sends: &mut HeapList<Envelope>,
) -> Result<(), Memory>
    ensures { OnOk result (sends.new ≡ sends.old ++ promise_sent quorums.now from key.now answer.now) }
{
    match answer {
        PromiseAnswer::Accept {
            version,
            ballot,
            options,
        } => accept(alloc, quorums, from, key, *version, *ballot, options, sends),
        _ => Ok(()),
    }
}
