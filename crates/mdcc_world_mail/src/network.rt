//! All messages of a world, by number.
ghost use Rattle.std.specs.Prelude.{◌≡◌, ◌≤◌, ◌<◌, ◌^◌, ◌-◌, ◌++◌, [], ◌↔◌, IsTrue, Ok, OnOk, OnErr, IfOk, length, map};
ghost use Rattle.std.specs.Option.{option_copied, option_map};
ghost use Rattle.mdcc_world_mail.specs.StoredMessages.{envelope_if_read};
ghost use Rattle.mdcc_world_mail.specs.Waiting.{before_first, first_to, waits_for};
ghost use Rattle.mdcc_def_messages.specs.Mailbox.{numbered, unsent, with_delivered};

use crate::batch::MessageBatch;
use crate::stored::{StoredMessage, next_place};
use mdcc_base::{Centre, Memory};
use mdcc_def_messages::Envelope;
use std::alloc::Global;
use std::marker::Model;

/// The messages that were sent, numbered from 1, each with whether it was delivered. Each centre has
/// a cursor: no message before it waits for the centre.
#[derive(Drop)]
pub struct Network {
    messages: Vec<StoredMessage>,
    cursors: [usize; 9],
}

impl Model for Network {
    ghost use Rattle.std.specs.Prelude.{◌<◌, ◌-◌, ◌^◌, List, length};
    ghost use Rattle.mdcc_world_mail.specs.StoredMessages.{AreCursors};
    ghost use Rattle.mdcc_def_messages.specs.Mailbox.{Sent};

    ghost Value = { List Sent };

    ghost view = { λ network. network.messages.items };

    ghost invariant = { λ network. AreCursors network.cursors network.messages.items × (length network.messages.items < 2 ^ 32 - 1) };
}

impl Network {
    /// Nothing was sent.
    pub fn new(alloc: Global) -> Result<Network, Memory>
        ensures { result ≡ Ok [] }
    {
        Ok(Network {
            messages: Vec::new(alloc),
            cursors: [0; 9],
        })
    }

    /// How many were sent: at most 2^32 - 2, so that the next one has a number.
    pub fn len(&self) -> usize
        ensures value { result ≡ length self.now }
        ensures few { length self.now < 2 ^ 32 - 1 }
    {
        self.messages.len()
    }

    /// Whether none was.
    pub fn is_empty(&self) -> bool
        ensures { IsTrue result ↔ (self.now ≡ []) }
    {
        self.messages.is_empty()
    }

    /// Sends what was written, in order. There is no memory where more than 2^32 - 2 would be sent;
    /// nothing is sent then.
    pub fn send(&mut self, batch: MessageBatch) -> Result<(), Memory>
        ensures ok { OnOk result (self.new ≡ self.old ++ map unsent batch) }
        ensures err { OnErr result (self.new ≡ self.old) }
    {
        let mut messages = batch.into_messages();
        if messages.len() > u32::MAX as usize - 1 - self.messages.len() {
            return Err(Memory);
        }
        self.messages.append(&mut messages)?;
        Ok(())
    }

    // The message of a number.
    fn stored_message(&self, number: u32) -> Option<&StoredMessage>
        ensures { option_copied result ≡ numbered self.now number }
    {
        match number {
            0 => None,
            _ => self.messages.get(number as usize - 1),
        }
    }

    /// The addressee of the message of a number.
    pub fn addressee(&self, number: u32) -> Option<u8>
        ensures { result ≡ option_map (λ sent. sent.envelope.to) (numbered self.now number) }
    {
        match self.stored_message(number) {
            Some(message) => Some(message.addressee()),
            None => None,
        }
    }

    /// Reads the message of a number from its bytes into a place, and says whether there is one. Where there is no memory,
    /// what stands in the place is of no use.
    pub fn read_into(&self, alloc: Global, number: u32, into: &mut Envelope) -> Result<bool, Memory>
        ensures { IfOk result (λ is_there. envelope_if_read is_there into.new ≡ option_map (λ sent. sent.envelope) (numbered self.now number)) }
    {
        match self.stored_message(number) {
            Some(message) => {
                message.read_into(alloc, into)?;
                Ok(true)
            }
            None => Ok(false),
        }
    }

    /// The message of a number was delivered, also where it was before.
    pub fn deliver(&mut self, number: u32)
        requires { 1 ≤ number }
        ensures { self.new ≡ with_delivered self.old (number - 1) }
    {
        let place = number as usize - 1;
        if place < self.messages.len() {
            self.messages[place].deliver();
        }
    }

    // How many messages stand before the first that waits for the centre: its cursor moves there.
    fn advance(&mut self, centre: Centre) -> usize
        ensures value { result ≡ before_first (waits_for centre) self.old }
        ensures kept { self.new ≡ self.old }
    {
        let place = usize::from(centre.number()) - 1;
        let next = next_place(&self.messages, self.cursors[place], centre.number());
        self.cursors[place] = next;
        next
    }

    /// The least number of a message that was not delivered, and goes to one of these centres.
    pub fn first_waiting(&mut self, centres: &[Centre]) -> Option<u32>
        ensures number { result ≡ first_to centres.now self.old }
        ensures kept { self.new ≡ self.old }
    {
        let mut least = self.len();
        for centre in centres {
            least = least.min(self.advance(*centre));
        }
        if least < self.len() {
            Some(least as u32 + 1)
        } else {
            None
        }
    }
}
