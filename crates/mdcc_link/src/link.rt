//! A link for datagrams.
ghost use Rattle.std.specs.Prelude.{◌≡◌, ℕ, Bool, List, length, IfSome, Option, OnOk};
ghost use Rattle.mdcc_base.specs.Causes.{HasCause};
ghost use Rattle.mdcc_link.specs.Link.{LinkCall, AddsLinkCall, ReceivesAtMost, brought};
ghost use Rattle.mdcc_link.specs.Link.LinkCall.{Bind, Send, Receive};

use mdcc_base::{Address, Failed};

/// What a receive found.
#[derive(Clone, Copy, Debug, PartialEq, Eq)]
pub enum Received {
    /// A datagram, or the first bytes of one that did not fit: so many bytes in the buffer.
    Got(usize),
    /// No datagram came.
    Nothing,
}

/// A link for datagrams, which are sent from and received at numbered endpoints. A datagram may be lost, repeated or late. A
/// link may record its calls or not; real sockets do not. A receive that fails may have left anything in its buffer.
pub trait Link {
    /// The calls with their answers, where they are recorded.
    ghost calls: { Self → Option (List LinkCall) };

    /// How often a send failed.
    ghost lost: { Self → ℕ };

    /// How often a bind or a receive failed.
    ghost faults: { Self → ℕ };

    /// Whether a datagram waits at an endpoint, where that is known. Of real sockets nothing is: what comes may come at any moment.
    ghost waiting: { Self → ℕ → Option Bool };

    /// Lets the endpoint receive what is sent to the address.
    fn bind(&mut self, at: u8, address: Address) -> Result<(), Failed>
        ensures call { AddsLinkCall (Bind at address result) (calls self.old) (calls self.new) result }
        ensures cause { HasCause (faults self.old) (faults self.new) result }
        ensures only { OnOk result (faults self.new ≡ faults self.old) }
        ensures sends { lost self.new ≡ lost self.old };

    /// Sends a datagram from an endpoint.
    fn send(&mut self, from: u8, to: Address, bytes: &[u8]) -> Result<(), Failed>
        ensures call { AddsLinkCall (Send from to bytes.now result) (calls self.old) (calls self.new) result }
        ensures cause { HasCause (lost self.old) (lost self.new) result }
        ensures only { OnOk result (lost self.new ≡ lost self.old) }
        ensures receives { faults self.new ≡ faults self.old };

    /// Takes a datagram that waits at the endpoint, or waits for one: at most as long as `set_wait` said last. One that is longer
    /// than the buffer gives its first bytes.
    fn receive(&mut self, at: u8, into: &mut [u8]) -> Result<Received, Failed>
        ensures bound { ReceivesAtMost result (length into.new) }
        ensures call { AddsLinkCall (Receive at (length into.new) result (brought result into.new)) (calls self.old) (calls self.new) result }
        ensures cause { HasCause (faults self.old) (faults self.new) result }
        ensures only { OnOk result (faults self.new ≡ faults self.old) }
        ensures sends { lost self.new ≡ lost self.old };

    /// Whether a datagram is known to wait at the endpoint, so that the next receive there need not wait. It is no call: nothing is
    /// taken, and nothing of it is recorded.
    fn waits(&self, at: u8) -> bool
        ensures { IfSome (waiting self.now at) (λ known. result ≡ known) };

    /// Lets each later receive wait for so many milliseconds at most. It is no call either: nothing of it is recorded, and it cannot
    /// fail.
    fn set_wait(&mut self, milliseconds: u16)
        ensures calls { calls self.new ≡ calls self.old }
        ensures sends { lost self.new ≡ lost self.old }
        ensures receives { faults self.new ≡ faults self.old };
}
