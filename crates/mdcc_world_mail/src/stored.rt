//! Messages as their bytes, one after another.
ghost use Rattle.std.specs.Prelude.{◌≡◌, ◌≤◌, length, IfOk, OnOk};
ghost use Rattle.mdcc_world_mail.specs.StoredMessages.{marked_delivered};
ghost use Rattle.mdcc_world_mail.specs.Waiting.{before_first, waits_for};
ghost use Rattle.mdcc_def_messages.specs.Lengths.{message_length};
ghost use Rattle.mdcc_def_messages.specs.WellFormed.{IsWellFormedEnvelope};
ghost use Rattle.mdcc_def_messages.specs.Mailbox.{unsent};

use mdcc_base::Memory;
use mdcc_def_messages::Envelope;
use mdcc_wire::{view_written, write_message};
use std::alloc::Global;
use std::marker::Model;

/// A message as its bytes, to whom it goes, and whether it was delivered.
#[derive(Drop)]
pub struct StoredMessage {
    bytes: Vec<u8>,
    to: u8,
    is_delivered: bool,
}

impl Model for StoredMessage {
    ghost use Rattle.mdcc_def_messages.specs.Mailbox.{Sent};

    ghost Value = { Sent };

    ghost use Rattle.mdcc_world_mail.specs.StoredMessages.{IsStoredMessage, sent_of};

    ghost view = { λ message. sent_of message.bytes.items message.is_delivered };

    ghost invariant = { λ message. IsStoredMessage message.bytes.items message.to };
}

impl StoredMessage {
    /// Writes a message, which is not delivered yet.
    pub fn write(alloc: Global, envelope: &Envelope) -> Result<StoredMessage, Memory>
        requires { IsWellFormedEnvelope envelope.now }
        ensures { IfOk result (λ message. message ≡ unsent envelope.now) }
    {
        let mut bytes = Vec::new(alloc);
        write_message(envelope, &mut bytes)?;
        Ok(StoredMessage {
            bytes,
            to: envelope.to,
            is_delivered: false,
        })
    }

    /// How many bytes it has.
    pub fn length(&self) -> usize
        ensures { result ≡ message_length self.now.envelope }
    {
        self.bytes.len()
    }

    /// To whom it goes.
    pub fn addressee(&self) -> u8
        ensures { result ≡ self.now.envelope.to }
    {
        self.to
    }

    /// Reads the message from its bytes into a place. Where there is no memory, what stands there is of no use.
    pub fn read_into(&self, alloc: Global, into: &mut Envelope) -> Result<(), Memory>
        ensures { OnOk result (into.new ≡ self.now.envelope) }
    {
        view_written(&self.bytes).read_into(alloc, into)
    }

    /// It was delivered, maybe also before.
    pub fn deliver(&mut self)
        ensures { self.new ≡ marked_delivered self.old }
    {
        self.is_delivered = true;
    }

    // Whether it waits for the centre.
    fn waits_for(&self, centre: u8) -> bool
        ensures { result ≡ waits_for centre self.now }
    {
        !self.is_delivered && self.to == centre
    }
}

// How many messages stand before the first that waits for the centre.
fn before_first(messages: &[StoredMessage], centre: u8) -> usize
    ensures value { result ≡ before_first (waits_for centre) messages.now }
    ensures bound { result ≤ length messages.now }
{
    let mut place = 0;
    for message in messages {
        if message.waits_for(centre) {
            return place;
        }
        place += 1;
    }
    place
}

/// The same, where so many are known not to wait for it.
pub(crate) fn next_place(messages: &[StoredMessage], cursor: usize, centre: u8) -> usize
    requires { cursor ≤ before_first (waits_for centre) messages.now }
    ensures { result ≡ before_first (waits_for centre) messages.now }
{
    let rest = messages.split_at(cursor).1;
    cursor + before_first(rest, centre)
}
