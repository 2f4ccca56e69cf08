//! The bodies of messages that take memory, checked and read from bytes.
ghost use Rattle.std.specs.Prelude.{◌≡◌};
ghost use Rattle.mdcc_base.specs.Unless.{GivesUnless};
ghost use Rattle.mdcc_parts.specs.Reads.{end_of, is_wire_memory};
ghost use Rattle.mdcc_wire.specs.Views.{placed};
ghost use Rattle.mdcc_def_messages.specs.Reading.{promise_at, accept_at, sync_give_at, body_at};

use crate::bodies::{empty_message, plain_body_into};
use mdcc_def_messages::{Message, WireFault};
use mdcc_parts::given::{check_given, read_at_least, read_given, read_instance};
use mdcc_parts::identifiers::{read_ballot, read_classic};
use mdcc_parts::marks::{check_options, read_options};
use std::alloc::Global;

// A promise with the votes that it reports.
fn promise_into(
    alloc: Global,
    bytes: &[u8],
    at: usize,
    into: &mut Message,
) -> Result<usize, WireFault>
    ensures { GivesUnless is_wire_memory (placed result into.new) (promise_at bytes.now at) }
{
    let ((key, version), after) = read_instance(bytes, at)?;
    let (through, after) = read_at_least(version, bytes, after)?;
    let (ballot, after) = read_classic(bytes, after)?;
    let (reported, after) = read_ballot(bytes, after)?;
    let (votes, after) = read_options(alloc, bytes, after, &key, version)?;
    *into = Message::Promise {
        key,
        version,
        through,
        ballot,
        reported,
        votes,
    };
    Ok(after)
}

// Where a promise ends.
fn check_promise(bytes: &[u8], at: usize) -> Result<usize, WireFault>
    ensures { result ≡ end_of (promise_at bytes.now at) }
{
    let ((key, version), after) = read_instance(bytes, at)?;
    let (_through, after) = read_at_least(version, bytes, after)?;
    let (_ballot, after) = read_classic(bytes, after)?;
    let (_reported, after) = read_ballot(bytes, after)?;
    let end = check_options(bytes, after, &key, version)?;
    Ok(end)
}

// A structure for which votes are asked.
fn accept_into(
    alloc: Global,
    bytes: &[u8],
    at: usize,
    into: &mut Message,
) -> Result<usize, WireFault>
    ensures { GivesUnless is_wire_memory (placed result into.new) (accept_at bytes.now at) }
{
    let ((key, version), after) = read_instance(bytes, at)?;
    let (ballot, after) = read_classic(bytes, after)?;
    let (options, after) = read_options(alloc, bytes, after, &key, version)?;
    *into = Message::Accept {
        key,
        version,
        ballot,
        options,
    };
    Ok(after)
}

// Where a structure ends for which votes are asked.
fn check_accept(bytes: &[u8], at: usize) -> Result<usize, WireFault>
    ensures { result ≡ end_of (accept_at bytes.now at) }
{
    let ((key, version), after) = read_instance(bytes, at)?;
    let (_ballot, after) = read_classic(bytes, after)?;
    let end = check_options(bytes, after, &key, version)?;
    Ok(end)
}

// What a centre holds of a key.
fn sync_give_into(
    alloc: Global,
    bytes: &[u8],
    at: usize,
    into: &mut Message,
) -> Result<usize, WireFault>
    ensures { GivesUnless is_wire_memory (placed result into.new) (sync_give_at bytes.now at) }
{
    let ((key, version, item, adds), after) = read_given(alloc, bytes, at)?;
    *into = Message::SyncGive {
        key,
        version,
        item,
        adds,
    };
    Ok(after)
}

// Where it ends.
fn check_sync_give(bytes: &[u8], at: usize) -> Result<usize, WireFault>
    ensures { result ≡ end_of (sync_give_at bytes.now at) }
{
    let end = check_given(bytes, at)?;
    Ok(end)
}

/// Reads the body of a message of this kind, and gives its end.
pub fn read_body(
    alloc: Global,
    kind: u8,
    bytes: &[u8],
    at: usize,
    into: &mut Message,
) -> Result<usize, WireFault>
    ensures { GivesUnless is_wire_memory (placed result into.new) (body_at kind bytes.now at) }
{
    match kind {
        6 => promise_into(alloc, bytes, at, into),
        7 => accept_into(alloc, bytes, at, into),
        12 => sync_give_into(alloc, bytes, at, into),
        _ => {
            let after = plain_body_into(kind, bytes, at, into)?;
            Ok(after)
        }
    }
}

/// Where the body of a message of this kind ends. No memory is taken.
pub fn check_body(kind: u8, bytes: &[u8], at: usize) -> Result<usize, WireFault>
    ensures { result ≡ end_of (body_at kind bytes.now at) }
{
    match kind {
        6 => check_promise(bytes, at),
        7 => check_accept(bytes, at),
        12 => check_sync_give(bytes, at),
        _ => {
            let mut message = empty_message();
            let after = plain_body_into(kind, bytes, at, &mut message)?;
            Ok(after)
        }
    }
}
