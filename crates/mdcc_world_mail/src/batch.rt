//! Messages that are to be sent.
ghost use Rattle.std.specs.Prelude.{◌≡◌, ◌++◌, ◌∷◌, [], map, IfOk, OnOk};
ghost use Rattle.std.specs.List.{AllByRecursion};
ghost use Rattle.mdcc_def_messages.specs.Lengths.{messages_length};
ghost use Rattle.mdcc_def_messages.specs.WellFormed.{IsWellFormedEnvelope};
ghost use Rattle.mdcc_def_messages.specs.Mailbox.{unsent};

use crate::stored::StoredMessage;
use mdcc_base::Memory;
use mdcc_def_messages::Envelope;
use std::alloc::Global;
use std::marker::Model;

/// Messages that were written and are not sent yet.
#[derive(Drop)]
pub struct MessageBatch {
    messages: Vec<StoredMessage>,
    length: u64,
}

impl Model for MessageBatch {
    ghost use Rattle.std.specs.Prelude.{List};
    ghost use Rattle.mdcc_def_messages.specs.declared.messages.Envelope.{Envelope};

    ghost Value = { List Envelope };

    ghost use Rattle.mdcc_world_mail.specs.StoredMessages.{IsMessageBatch, envelopes_of};

    ghost view = { λ batch. envelopes_of batch.messages.items };

    ghost invariant = { λ batch. IsMessageBatch batch.messages.items batch.length };
}

impl MessageBatch {
    /// Writes the messages, in order. There is no memory where all together have 2^64 bytes or more.
    pub fn write(alloc: Global, envelopes: &[Envelope]) -> Result<MessageBatch, Memory>
        requires { AllByRecursion IsWellFormedEnvelope envelopes.now }
        ensures { IfOk result (λ batch. batch ≡ envelopes.now) }
    {
        let mut batch = MessageBatch {
            messages: Vec::with_capacity(alloc, envelopes.len())?,
            length: 0,
        };
        for envelope in envelopes {
            batch.push(alloc, envelope)?;
        }
        Ok(batch)
    }

    // Writes one more.
    fn push(&mut self, alloc: Global, envelope: &Envelope) -> Result<(), Memory>
        requires { IsWellFormedEnvelope envelope.now }
        ensures { OnOk result (self.new ≡ self.old ++ envelope.now ∷ []) }
    {
        let message = StoredMessage::write(alloc, envelope)?;
        let Some(length) = self.length.checked_add(message.length() as u64) else {
            return Err(Memory);
        };
        self.messages.push(message)?;
        self.length = length;
        Ok(())
    }

    /// How many bytes they have.
    pub fn length(&self) -> u64
        ensures { result ≡ messages_length self.now }
    {
        self.length
    }

    // The messages, none of them delivered.
    pub(crate) fn into_messages(self) -> Vec<StoredMessage>
        ensures { result.items ≡ map unsent self }
    {
        let MessageBatch { messages, .. } = self;
        messages
    }
}
