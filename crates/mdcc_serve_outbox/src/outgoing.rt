//! Messages that are to be sent.
ghost use Rattle.std.specs.Prelude.{◌≡◌, IfOk};
ghost use Rattle.mdcc_serve_outbox.specs.Outgoing.{outgoing};
ghost use Rattle.mdcc_wire.specs.Counts.{HasMessageCounts};

use mdcc_base::{HeapList, Memory};
use mdcc_def_messages::Envelope;
use mdcc_wire::{EncodeFault, encode};
use std::alloc::Global;

/// A message that is to be sent: the endpoint to which it goes, and its bytes, where they are not too many for a message.
#[derive(Drop)]
pub struct Outgoing {
    pub to: u8,
    pub bytes: Option<HeapList<u8>>,
}

impl Outgoing {
    /// The bytes of a message that is to be sent.
    pub fn new(alloc: Global, envelope: &Envelope) -> Result<Outgoing, Memory>
        requires { HasMessageCounts envelope.now.message }
        ensures { IfOk result (λ message. message ≡ outgoing envelope.now) }
    {
        let mut message = Vec::new(alloc);
        let bytes = match encode(envelope, &mut message) {
            Ok(()) => Some(HeapList::from_vec(message)),
            Err(EncodeFault::TooLong) => None,
            Err(EncodeFault::Memory) => return Err(Memory),
        };
        Ok(Outgoing {
            to: envelope.to,
            bytes,
        })
    }
}
