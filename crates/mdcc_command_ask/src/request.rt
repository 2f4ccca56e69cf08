//! The bytes of a request.
ghost use Rattle.std.specs.Prelude.{◌≡◌, ◌≤◌, [], IfOk, length};
ghost use Rattle.mdcc_frag.specs.Datagrams.{message_limit};
ghost use Rattle.mdcc_def_messages.specs.Spelling.{message_bytes};
ghost use Rattle.mdcc_wire.specs.Counts.{HasMessageCounts};

use mdcc_base::Memory;
use mdcc_def_messages::Envelope;
use mdcc_wire::encode;
use std::alloc::Global;
use std::marker::Model;

/// The bytes of a message that is not too long to be sent.
#[derive(Drop)]
pub struct Request {
    bytes: Vec<u8>,
}

impl Model for Request {
    ghost use Rattle.std.specs.Prelude.{◌≤◌, List, length, ℕ};
    ghost use Rattle.mdcc_frag.specs.Datagrams.{message_limit};

    ghost Value = { List ℕ };

    ghost view = { λ request. request.bytes.items };

    ghost invariant = { λ request. length request.bytes.items ≤ message_limit };
}

impl Request {
    /// No bytes.
    pub fn empty(alloc: Global) -> Request
        ensures { result ≡ [] }
    {
        Request {
            bytes: Vec::new(alloc),
        }
    }

    /// Those of a message. Only memory may lack for one that is not too long.
    pub fn new(alloc: Global, envelope: &Envelope) -> Result<Request, Memory>
        requires { HasMessageCounts envelope.now.message }
        ensures { IfOk result (λ request. request ≡ message_bytes envelope.now) }
    {
        let mut bytes = Vec::new(alloc);
        match encode(envelope, &mut bytes) {
            Ok(()) => Ok(Request { bytes }),
            Err(_) => Err(Memory),
        }
    }

    /// Them.
    pub fn bytes(&self) -> &[u8]
        ensures value { result.now ≡ self.now }
        ensures short { length result.now ≤ message_limit }
    {
        self.bytes.as_slice()
    }
}
