//! What a client requests.
ghost use Rattle.std.specs.Prelude.{◌≡◌, IfOk, false};
ghost use Rattle.mdcc_command_ask.specs.Answers.{answered, begins, begins_any, begins_parts, goes_on, unresolved};
ghost use Rattle.mdcc_command_ask.specs.Requests.{envelope_of, reaction_of, requested};
ghost use Rattle.mdcc_base.specs.Unless.{GivesUnless};
ghost use Rattle.mdcc_def_language.specs.Resolve.{resolve};
ghost use Rattle.mdcc_def_messages.specs.declared.messages.Message.{Message as AMessage};
ghost use Rattle.mdcc_option.specs.Transaction.{transaction_of};
ghost use Rattle.mdcc_sched.specs.Free.{is_resolve_memory};
ghost use Rattle.mdcc_wire.specs.Counts.{HasMessageCounts};

use crate::Order;
use crate::client::{Client, Phase};
use crate::reply::Reply;
use crate::request::Request;
use crate::texts::{draft_line, line_of};
use mdcc_base::{BoundedList, HeapList, Memory};
use mdcc_def_language::{Line, ResolveFault};
use mdcc_def_messages::{Envelope, Message};
use mdcc_option::{BeginFault, Part, Schema, Transaction};
use mdcc_sched::resolve;
use std::alloc::Global;

// From the client of a centre to that centre.
fn envelope_of(order: &Order, message: Message) -> Envelope
    ensures { result ≡ envelope_of order.now message }
{
    Envelope {
        from: order.centre.number() + 16,
        to: order.centre.number(),
        message,
    }
}

// The message that begins a transaction.
fn begin_message(order: &Order, transaction: &Transaction) -> Message
    ensures value { result ≡ AMessage.ClientBegin order.now.serial transaction.now }
    ensures counts { HasMessageCounts result }
{
    let parts = BoundedList::from_slice(transaction.parts()).unwrap();
    Message::ClientBegin {
        serial: order.serial,
        parts,
    }
}

impl Client {
    // It has all answers, and prints this.
    pub(crate) fn answered(&mut self, text: HeapList<u8>) -> Reply
        ensures { reaction_of result self.new ≡ answered text self.old }
    {
        self.phase = Phase::Answered;
        Reply { text, sends: false }
    }

    // A message is requested, and this is waited for then.
    fn request(
        &mut self,
        alloc: Global,
        order: &Order,
        message: Message,
        phase: Phase,
    ) -> Result<Reply, Memory>
        requires { HasMessageCounts message }
        ensures { IfOk result (λ reply. reaction_of reply self.new ≡ requested order.now message phase self.old) }
    {
        let request = Request::new(alloc, &envelope_of(order, message))?;
        self.request = request;
        self.phase = phase;
        Ok(Reply {
            text: HeapList::new(alloc),
            sends: true,
        })
    }

    // Begins a transaction of parts, where they make one.
    fn begin_parts(
        &mut self,
        alloc: Global,
        schema: &Schema,
        order: &Order,
        parts: &[Part],
    ) -> Result<Reply, Memory>
        ensures { IfOk result (λ reply. reaction_of reply self.new ≡ begins_parts order.now self.old (transaction_of schema.now parts.now)) }
    {
        match Transaction::new(schema, parts) {
            Ok(transaction) => {
                let message = begin_message(order, &transaction);
                self.request(alloc, order, message, Phase::Beginning)
            }
            Err(fault) => {
                let text = draft_line(alloc, &fault)?;
                Ok(self.answered(text))
            }
        }
    }

    // Its updates have no parts.
    fn unresolved(&mut self, alloc: Global, fault: ResolveFault) -> Result<Reply, Memory>
        ensures { IfOk result (λ reply. (is_resolve_memory fault ≡ false) × (reaction_of reply self.new ≡ unresolved self.old fault)) }
    {
        match fault {
            ResolveFault::NoItem(key) => {
                let text = line_of(alloc, &Line::Refused(key, BeginFault::NoItem))?;
                Ok(self.answered(text))
            }
            ResolveFault::NoRead(_) => Ok(self.answered(HeapList::new(alloc))),
            ResolveFault::Memory => Err(Memory),
        }
    }

    // The parts of its updates, by what it read.
    fn parts(&self, alloc: Global, order: &Order) -> Result<HeapList<Part>, ResolveFault>
        ensures { GivesUnless is_resolve_memory result (resolve order.now.updates self.now.known) }
    {
        resolve(alloc, order.updates.as_slice(), self.known.as_slice())
    }

    // Begins the transaction of its updates.
    fn begin(&mut self, alloc: Global, schema: &Schema, order: &Order) -> Result<Reply, Memory>
        ensures { IfOk result (λ reply. reaction_of reply self.new ≡ begins schema.now order.now self.old (resolve order.now.updates self.old.known)) }
    {
        match self.parts(alloc, order) {
            Ok(parts) => self.begin_parts(alloc, schema, order, parts.as_slice()),
            Err(fault) => self.unresolved(alloc, fault),
        }
    }

    // All keys are read: it begins the transaction of its updates, where there are any.
    fn begin_any(&mut self, alloc: Global, schema: &Schema, order: &Order) -> Result<Reply, Memory>
        ensures { IfOk result (λ reply. reaction_of reply self.new ≡ begins_any schema.now order.now self.old) }
    {
        if order.updates.is_empty() {
            return Ok(self.answered(HeapList::new(alloc)));
        }
        self.begin(alloc, schema, order)
    }

    /// Requests what comes next: the read of the next key, or else the begin, where there are updates.
    pub(crate) fn go_on(
        &mut self,
        alloc: Global,
        schema: &Schema,
        order: &Order,
    ) -> Result<Reply, Memory>
        ensures { IfOk result (λ reply. reaction_of reply self.new ≡ goes_on schema.now order.now self.old) }
    {
        match self.next_key(order) {
            Some(key) => {
                let message = Message::ClientRead {
                    serial: order.serial,
                    key,
                };
                self.request(alloc, order, message, Phase::Reading)
            }
            None => self.begin_any(alloc, schema, order),
        }
    }
}
