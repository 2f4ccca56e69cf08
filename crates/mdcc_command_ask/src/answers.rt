//! What a client makes of the answers.
ghost use Rattle.std.specs.Prelude.{◌≡◌, ◌++◌, ◌∷◌, ◌+◌, ◌≤◌, [], IfOk, OnOk, Some, length};
ghost use Rattle.std.specs.Option.{option_copied};
ghost use Rattle.mdcc_command_ask.specs.Answers.{answer_in, answer_taken, answered, asked_shown, begin_answer_taken, counts, end_in, end_taken, is_asked, message_taken, read_answer_taken, shown_in, shows_read};
ghost use Rattle.mdcc_command_ask.specs.Requests.{reaction_of};
ghost use Rattle.mdcc_command_ask.specs.Texts.{begin_line, heard_line, read_line};

use crate::Order;
use crate::client::{Client, Phase};
use crate::reply::Reply;
use crate::texts::{begin_line, draft_line, joined, line_of};
use mdcc_base::{HeapList, Key, Memory, Plain, TxId};
use mdcc_def_language::Line;
use mdcc_def_messages::{ClientAnswer, Envelope, Message};
use mdcc_option::{Known, Schema};
use std::alloc::Global;

// Whether a message counts: it goes from the centre to its client, under the serial of the order.
fn counts(order: &Order, envelope: &Envelope, serial: u32) -> bool
    ensures { result ≡ counts order.now envelope.now serial }
{
    let centre = order.centre.number();
    envelope.from == centre && (envelope.to == centre + 16 && serial == order.serial)
}

// The answer in a message that counts.
fn answer_in<'a>(order: &Order, envelope: &'a Envelope) -> Option<&'a ClientAnswer>
    ensures { option_copied result ≡ answer_in order.now envelope.now }
{
    match &envelope.message {
        Message::ClientAnswer { serial, answer } => {
            if counts(order, envelope, *serial) {
                Some(answer)
            } else {
                None
            }
        }
        _ => None,
    }
}

// What a read answers of its key.
fn shown_in(answer: &ClientAnswer) -> Option<Known>
    ensures { result ≡ shown_in answer.now }
{
    match answer {
        ClientAnswer::Read {
            key,
            token,
            item,
            ..
        } => Some(Known {
            key: *key,
            token: token.copy(),
            item: item.copy(),
        }),
        _ => None,
    }
}

// How this transaction ended, where an answer says that.
fn end_in(tx: &TxId, answer: &ClientAnswer) -> Option<bool>
    ensures { result ≡ end_in tx.now answer.now }
{
    match answer {
        ClientAnswer::Heard(other, is_commit) => {
            if other.is(tx) { Some(*is_commit) } else { None }
        }
        _ => None,
    }
}

// The line of a read.
fn read_line(
    alloc: Global,
    order: &Order,
    number: u32,
    known: &Known,
) -> Result<HeapList<u8>, Memory>
    ensures { IfOk result (λ text. text ≡ read_line number order.now.centre known.now) }
{
    line_of(alloc, &Line::Read(number, order.centre, known.copy()))
}

// The line of how a transaction ended.
fn heard_line(
    alloc: Global,
    order: &Order,
    tx: TxId,
    is_commit: bool,
) -> Result<HeapList<u8>, Memory>
    ensures { IfOk result (λ text. text ≡ heard_line order.now.centre tx is_commit) }
{
    line_of(alloc, &Line::Heard(order.centre, tx, is_commit))
}

impl Client {
    // Whether this key is to be read next.
    fn is_asked(&self, order: &Order, about: &Key) -> bool
        ensures { result ≡ is_asked order.now self.now about.now }
    {
        match self.next_key(order) {
            Some(key) => about.is(&key),
            None => false,
        }
    }

    // Adds what a read showed.
    fn add_known(&mut self, known: Known) -> Result<(), Memory>
        ensures { OnOk result (self.new ≡ record self.old { known = self.old.known ++ Some known ∷ [] }) }
    {
        self.known.push(Some(known))?;
        Ok(())
    }

    // The read of a key was answered.
    fn take_known(
        &mut self,
        alloc: Global,
        schema: &Schema,
        order: &Order,
        known: Known,
    ) -> Result<Reply, Memory>
        requires { length self.old.known ≤ 16 }
        ensures { IfOk result (λ reply. reaction_of reply self.new ≡ shows_read schema.now order.now self.old known) }
    {
        let number = self.known.len() as u32 + 1;
        let line = read_line(alloc, order, number, &known)?;
        self.add_known(known)?;
        let next = self.go_on(alloc, schema, order)?;
        let text = joined(alloc, &line, &next.text)?;
        Ok(Reply {
            text,
            sends: next.sends,
        })
    }

    // A read of a key was answered. One of another key is passed over.
    fn take_shown(
        &mut self,
        alloc: Global,
        schema: &Schema,
        order: &Order,
        known: Known,
    ) -> Result<Reply, Memory>
        requires { length self.old.known ≤ 16 }
        ensures { IfOk result (λ reply. reaction_of reply self.new ≡ asked_shown schema.now order.now self.old known) }
    {
        if !self.is_asked(order, &known.key) {
            return Ok(Reply::idle(alloc));
        }
        self.take_known(alloc, schema, order, known)
    }

    // An answer to the read of a key.
    fn take_read(
        &mut self,
        alloc: Global,
        schema: &Schema,
        order: &Order,
        answer: &ClientAnswer,
    ) -> Result<Reply, Memory>
        requires { length self.old.known ≤ 16 }
        ensures { IfOk result (λ reply. reaction_of reply self.new ≡ read_answer_taken schema.now order.now self.old answer.now) }
    {
        match shown_in(answer) {
            Some(known) => self.take_shown(alloc, schema, order, known),
            None => Ok(Reply::idle(alloc)),
        }
    }

    // The transaction that was begun, and its end.
    fn take_both(
        &mut self,
        alloc: Global,
        order: &Order,
        tx: TxId,
        is_commit: bool,
    ) -> Result<Reply, Memory>
        ensures { IfOk result (λ reply. reaction_of reply self.new ≡ answered (begin_line tx ++ heard_line order.now.centre tx is_commit) self.old) }
    {
        let begun = begin_line(alloc, &tx)?;
        let heard = heard_line(alloc, order, tx, is_commit)?;
        let text = joined(alloc, &begun, &heard)?;
        Ok(self.answered(text))
    }

    // An answer to the begin.
    fn take_begin(
        &mut self,
        alloc: Global,
        order: &Order,
        answer: &ClientAnswer,
    ) -> Result<Reply, Memory>
        ensures { IfOk result (λ reply. reaction_of reply self.new ≡ begin_answer_taken order.now self.old answer.now) }
    {
        match answer {
            ClientAnswer::Begun(tx) => {
                let text = begin_line(alloc, tx)?;
                self.phase = Phase::Waiting(*tx);
                Ok(Reply { text, sends: false })
            }
            ClientAnswer::Refused(key, fault) => {
                let text = line_of(alloc, &Line::Refused(*key, fault.copy()))?;
                Ok(self.answered(text))
            }
            ClientAnswer::Heard(tx, is_commit) => self.take_both(alloc, order, *tx, *is_commit),
            ClientAnswer::Draft(fault) => {
                let text = draft_line(alloc, fault)?;
                Ok(self.answered(text))
            }
            ClientAnswer::Read { .. } => Ok(Reply::idle(alloc)),
        }
    }

    // An answer after the transaction was begun.
    fn take_end(
        &mut self,
        alloc: Global,
        order: &Order,
        tx: TxId,
        answer: &ClientAnswer,
    ) -> Result<Reply, Memory>
        ensures { IfOk result (λ reply. reaction_of reply self.new ≡ end_taken order.now self.old tx answer.now) }
    {
        match end_in(&tx, answer) {
            Some(is_commit) => {
                let text = heard_line(alloc, order, tx, is_commit)?;
                Ok(self.answered(text))
            }
            None => Ok(Reply::idle(alloc)),
        }
    }

    // An answer, by what the client waits for. One to something else is passed over.
    fn take_answer(
        &mut self,
        alloc: Global,
        schema: &Schema,
        order: &Order,
        answer: &ClientAnswer,
    ) -> Result<Reply, Memory>
        requires { length self.old.known ≤ 16 }
        ensures { IfOk result (λ reply. reaction_of reply self.new ≡ answer_taken schema.now order.now self.old answer.now) }
    {
        let phase = self.phase;
        match phase {
            Phase::Reading => self.take_read(alloc, schema, order, answer),
            Phase::Beginning => self.take_begin(alloc, order, answer),
            Phase::Waiting(tx) => self.take_end(alloc, order, tx, answer),
            Phase::Answered => Ok(Reply::idle(alloc)),
        }
    }

    /// A message came.
    pub(crate) fn take_message(
        &mut self,
        alloc: Global,
        schema: &Schema,
        order: &Order,
        envelope: &Envelope,
    ) -> Result<Reply, Memory>
        requires { length self.old.known ≤ 16 }
        ensures { IfOk result (λ reply. reaction_of reply self.new ≡ message_taken schema.now order.now self.old envelope.now) }
    {
        match answer_in(order, envelope) {
            Some(answer) => self.take_answer(alloc, schema, order, answer),
            None => Ok(Reply::idle(alloc)),
        }
    }
}
