//! What is asked of a message and its bytes: that it is written so, and read as what it was.
ghost use Rattle.mdcc_wire.specs.Counts.{HasMessageCounts};

use crate::bytes::joined;
use mdcc_struct::Options;
use mdcc_wire::{Envelope, Message, encode, message_length, view};
use std::alloc::Global;
use std::test::Fail;

// The bytes of a message of this kind with this body, from centre 9 to the client of centre 1. The kinds from 16 on are of the
// second format.
fn headed(alloc: Global, kind: u8, body: &[&[u8]]) -> Result<Vec<u8>, Fail> {
    let rest = joined(alloc, body)?;
    let format = if kind < 16 { 1 } else { 2 };
    joined(alloc, &[&[format, kind, 9, 17], &rest])
}

/// Whether the message is written as the head of this kind and this body.
pub fn is_written(alloc: Global, kind: u8, message: Message, body: &[&[u8]]) -> Result<bool, Fail>
    requires { HasMessageCounts message }
{
    let bytes = headed(alloc, kind, body)?;
    let sent = Envelope {
        from: 9,
        to: 17,
        message,
    };
    let mut out = Vec::new(alloc);
    if encode(&sent, &mut out).is_err() {
        return Ok(false);
    }
    Ok(out.as_slice() == bytes.as_slice() && message_length(&sent) == bytes.len())
}

/// The message that the head of this kind and this body spell.
pub fn message_of(alloc: Global, kind: u8, body: &[&[u8]]) -> Result<Message, Fail> {
    let bytes = headed(alloc, kind, body)?;
    let viewed = view(&bytes).ok().ok_or("the bytes are a message")?;
    let read = viewed.envelope(alloc)?;
    if viewed.kind() != kind || read.from != 9 || read.to != 17 {
        return Err("the head is another".into());
    }
    Ok(read.message)
}

/// Whether the structures have the same marks.
pub fn are_same(a: &Options, b: &Options) -> bool {
    a.extends(b) && b.extends(a)
}
