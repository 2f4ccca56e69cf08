//! What the steps of a centre made and is not out yet.
ghost use Rattle.std.specs.List.{AllByRecursion};
ghost use Rattle.std.specs.Prelude.{◌≡◌, ◌++◌, ◌∷◌, [], IfSome, OnOk, map};
ghost use Rattle.mdcc_journal.specs.Counts.{HasCounts};
ghost use Rattle.mdcc_def_messages.specs.Spelling.{fact_bytes};
ghost use Rattle.mdcc_serve_outbox.specs.Outgoing.{outgoing};
ghost use Rattle.mdcc_serve_outbox.specs.Shows.{count_limited};
ghost use Rattle.mdcc_def_server_runs.specs.Runs.{listed};
ghost use Rattle.mdcc_def_server_runs.specs.Sites.{nothing_pending};
ghost use Rattle.mdcc_serve_site.specs.PendingBytes.{length_of, pending_bytes, size_of};
ghost use Rattle.mdcc_serve_site.specs.SiteState.{CanBeSent};

use mdcc_base::{HeapList, Memory, TxId};
use mdcc_def_messages::{Envelope, Fact};
use mdcc_node_log::payload_of;
use mdcc_serve_outbox::Outgoing;
use std::alloc::Global;
use std::marker::Model;

/// What the steps of a centre made and is not out yet, the oldest first: the payloads of facts that are not in its log, messages that
/// are not sent, and outcomes that are not printed. Facts and messages are kept as their bytes, and these are counted as they come.
#[derive(Drop)]
pub struct PendingBytes {
    payloads: HeapList<HeapList<u8>>,
    messages: HeapList<Outgoing>,
    heard: HeapList<(TxId, bool)>,
    size: u64,
}

impl Model for PendingBytes {
    ghost use Rattle.mdcc_serve_site.specs.PendingBytes.{PendingBytes};
    ghost use Rattle.mdcc_serve_site.specs.PendingSize.{IsCounted};

    ghost Value = { PendingBytes };

    ghost view = { λ pending. record { payloads = pending.payloads; messages = pending.messages; heard = pending.heard } };

    ghost invariant = { IsCounted };
}

/// Nothing is pending.
pub fn nothing_pending(alloc: Global) -> PendingBytes
    ensures { result ≡ pending_bytes nothing_pending }
{
    PendingBytes {
        payloads: HeapList::new(alloc),
        messages: HeapList::new(alloc),
        heard: HeapList::new(alloc),
        size: 0,
    }
}

// How many bytes a message has, where they are not too many for it to be sent.
fn length_of(bytes: &Option<HeapList<u8>>) -> u64
    ensures { result ≡ length_of bytes.now }
{
    match bytes {
        Some(bytes) => bytes.len() as u64,
        None => 0,
    }
}

impl PendingBytes {
    /// The payloads of the facts.
    pub fn payloads(&self) -> &[HeapList<u8>]
        ensures { result.now ≡ self.now.payloads }
    {
        self.payloads.as_slice()
    }

    /// The messages.
    pub fn messages(&self) -> &[Outgoing]
        ensures { result.now ≡ self.now.messages }
    {
        self.messages.as_slice()
    }

    /// The outcomes that were heard.
    pub(crate) fn heard(&self) -> &[(TxId, bool)]
        ensures { result.now ≡ self.now.heard }
    {
        self.heard.as_slice()
    }

    /// How many bytes the facts and messages have. The count stands still at its end.
    pub(crate) fn size(&self) -> u64
        ensures { result ≡ count_limited (size_of self.now.payloads self.now.messages) }
    {
        self.size
    }

    /// Whether nothing is pending.
    pub(crate) fn is_empty(&self) -> bool {
        self.payloads.is_empty() && self.messages.is_empty() && self.heard.is_empty()
    }

    // The payload of a fact comes behind the others.
    fn push_fact(&mut self, alloc: Global, fact: &Fact) -> Result<(), Memory>
        requires { HasCounts fact.now }
        ensures { OnOk result (self.new ≡ record self.old { payloads = self.old.payloads ++ fact_bytes fact.now ∷ [] }) }
    {
        let payload = payload_of(alloc, fact)?;
        let length = payload.len() as u64;
        self.payloads.push(HeapList::from_vec(payload))?;
        self.size = self.size.saturating_add(length);
        Ok(())
    }

    /// The payload of a fact comes behind the others, where there is one.
    pub(crate) fn push_new_fact(&mut self, alloc: Global, fact: &Option<Fact>) -> Result<(), Memory>
        requires { IfSome fact.now HasCounts }
        ensures { OnOk result (self.new ≡ record self.old { payloads = self.old.payloads ++ map fact_bytes (listed fact.now) }) }
    {
        match fact {
            Some(fact) => self.push_fact(alloc, fact),
            None => Ok(()),
        }
    }

    /// A message comes behind the others.
    pub(crate) fn push_message(&mut self, alloc: Global, envelope: &Envelope) -> Result<(), Memory>
        requires { CanBeSent envelope.now }
        ensures { OnOk result (self.new ≡ record self.old { messages = self.old.messages ++ outgoing envelope.now ∷ [] }) }
    {
        let message = Outgoing::new(alloc, envelope)?;
        let length = length_of(&message.bytes);
        self.messages.push(message)?;
        self.size = self.size.saturating_add(length);
        Ok(())
    }

    /// Messages come behind the others, in order.
    pub(crate) fn push_messages(
        &mut self,
        alloc: Global,
        envelopes: &[Envelope],
    ) -> Result<(), Memory>
        requires { AllByRecursion CanBeSent envelopes.now }
        ensures { OnOk result (self.new ≡ record self.old { messages = self.old.messages ++ map outgoing envelopes.now }) }
    {
        for envelope in envelopes {
            self.push_message(alloc, envelope)?;
        }
        Ok(())
    }

    /// A message comes behind the others, where there is one.
    pub(crate) fn push_reply(
        &mut self,
        alloc: Global,
        reply: &Option<Envelope>,
    ) -> Result<(), Memory>
        requires { IfSome reply.now CanBeSent }
        ensures { OnOk result (self.new ≡ record self.old { messages = self.old.messages ++ map outgoing (listed reply.now) }) }
    {
        match reply {
            Some(envelope) => self.push_message(alloc, envelope),
            None => Ok(()),
        }
    }

    /// An outcome that was heard comes behind the others, where there is one.
    pub(crate) fn push_heard(&mut self, heard: Option<(TxId, bool)>) -> Result<(), Memory>
        ensures { OnOk result (self.new ≡ record self.old { heard = self.old.heard ++ listed heard }) }
    {
        if let Some(outcome) = heard {
            self.heard.push(outcome)?;
        }
        Ok(())
    }
}
