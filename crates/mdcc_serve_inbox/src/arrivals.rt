//! What a datagram brings.
ghost use Rattle.std.specs.Prelude.{◌≡◌, ◌≤◌, IfOk, List, OnErr, length, true, ℕ};
ghost use Rattle.mdcc_frag.specs.Datagrams.{message_limit};
ghost use Rattle.mdcc_frag.specs.Joining.{join};
ghost use Rattle.mdcc_frag.specs.declared.joined.Joined.{Joined as AJoined};
ghost use Rattle.mdcc_serve_inbox.specs.Finds.{FindsNoMemory, IsSoundFound, arrival_of_found, found_by, is_read_whole};
ghost use Rattle.mdcc_def_messages.specs.Reading.{view_of};
ghost use Rattle.mdcc_def_server_runs.specs.Arrivals.{arrival_of, message_in};

use mdcc_base::Memory;
use mdcc_def_messages::{Envelope, WireFault};
use mdcc_frag::{Joined, Joiner};
use mdcc_wire::read_envelope;
use std::alloc::Global;

/// What a datagram brings to an endpoint.
#[derive(Clone, Copy, Debug, PartialEq, Eq)]
pub enum Found {
    /// A piece of a message of which others are missing, or one that came before.
    Piece,
    /// No piece of a message, or the last one of bytes that are none.
    Refused,
    /// The last piece of a message, which was read into its place.
    Message,
}

// What is found by a reading that ended so.
fn found_by(read: Result<(), WireFault>) -> Result<Found, Memory>
    ensures { result ≡ found_by read }
{
    match read {
        Ok(()) => Ok(Found::Message),
        Err(WireFault::Memory) => Err(Memory),
        Err(_) => Ok(Found::Refused),
    }
}

// Reads the message that bytes are into its place.
fn read_message(alloc: Global, bytes: &[u8], into: &mut Envelope) -> Result<Found, Memory>
    requires { length bytes.now ≤ message_limit }
    ensures sound { IfOk result (λ found. IsSoundFound found into.new) }
    ensures seen { IfOk result (λ found. arrival_of_found found into.new ≡ message_in (view_of bytes.now)) }
{
    let read = read_envelope(alloc, bytes, into);
    found_by(read)
}

/// What a datagram brings, by what joined it to the other pieces of its message. A whole message is read into its place.
pub fn arrival_of(alloc: Global, joined: &Joined, into: &mut Envelope) -> Result<Found, Memory>
    requires { (bytes : List ℕ) → joined.now ≡ AJoined.Whole bytes → length bytes ≤ message_limit }
    ensures sound { IfOk result (λ found. IsSoundFound found into.new) }
    ensures seen { IfOk result (λ found. arrival_of_found found into.new ≡ arrival_of joined.now) }
    ensures memory { OnErr result (is_read_whole joined.now ≡ true) }
{
    match joined {
        Joined::Whole(bytes) => read_message(alloc, bytes.as_slice(), into),
        Joined::Kept => Ok(Found::Piece),
        Joined::Repeated => Ok(Found::Piece),
        Joined::Dropped(_) => Ok(Found::Refused),
    }
}

/// Takes a datagram among the pieces that came, and reads the message that it makes whole into its place. Without memory what
/// stands there is of no use.
pub fn take_datagram(
    alloc: Global,
    joiner: &mut Joiner,
    datagram: &[u8],
    into: &mut Envelope,
) -> Result<Found, Memory>
    ensures sound { IfOk result (λ found. IsSoundFound found into.new) }
    ensures joined { IfOk result (λ _. joiner.new ≡ (join datagram.now joiner.old).entries) }
    ensures found { IfOk result (λ found. arrival_of_found found into.new ≡ arrival_of (join datagram.now joiner.old).answer) }
    ensures memory { OnErr result (FindsNoMemory (join datagram.now joiner.old) joiner.old joiner.new) }
{
    let joined = joiner.join(alloc, datagram)?;
    arrival_of(alloc, &joined, into)
}
