//! Views of messages: bytes that were found to spell one.
ghost use Rattle.std.specs.Prelude.{◌≡◌, Ok, IfOk, IsOk, OnOk};
ghost use Rattle.mdcc_base.specs.Unless.{GivesUnless};
ghost use Rattle.mdcc_parts.specs.Reads.{is_wire_memory};
ghost use Rattle.mdcc_def_messages.specs.ReadingSteps.{checked, u8_at};
ghost use Rattle.mdcc_def_messages.specs.Reading.{known, known_in, endpoint, view_of};
ghost use Rattle.mdcc_def_messages.specs.Spelling.{kind_of};
ghost use Rattle.mdcc_def_messages.specs.ReadingParts.{choice_at};
ghost use Rattle.mdcc_wire.specs.Views.{viewed, passed, placed_whole, message_choice, message_marks, kind_or_none, choice_or_none, choice_by};

use crate::bodies::empty_message;
use crate::marks::{MarkViews, marks_by};
use crate::memory_bodies::{check_body, read_body};
use mdcc_base::Memory;
use mdcc_def_messages::{Envelope, WireFault};
use mdcc_option::Choice;
use mdcc_parts::choices::read_choice;
use mdcc_parts::numbers::u8_at;
use std::alloc::Global;
use std::marker::Model;

/// The bytes of a message. Nothing is copied out of them before it is asked for.
#[derive(Drop)]
pub struct Viewed<'a> {
    bytes: &'a [u8],
}

impl<'a> Model for Viewed<'a> {
    ghost use Rattle.std.specs.Prelude.{List, ℕ, IsOk};
    ghost use Rattle.mdcc_def_messages.specs.Reading.{view_of};

    ghost Value = { List ℕ };

    ghost view = { λ v. v.bytes.now };

    ghost invariant = { λ v. IsOk (view_of v.bytes.now) };
}

// The byte at a place, the number of a format or a kind from the lowest to the highest that is known.
fn known_at(lowest: u8, highest: u8, bytes: &[u8], at: usize) -> Result<(u8, usize), WireFault>
    ensures { result ≡ checked (known lowest highest) (u8_at bytes.now at) }
{
    let (number, after) = u8_at(bytes, at)?;
    if lowest <= number && number <= highest {
        Ok((number, after))
    } else {
        Err(WireFault::Kind)
    }
}

// The byte at a place, the number of a kind that the format has.
fn kind_in(format: u8, bytes: &[u8], at: usize) -> Result<(u8, usize), WireFault>
    ensures { result ≡ checked (known_in format) (u8_at bytes.now at) }
{
    if format == 1 {
        known_at(1, 15, bytes, at)
    } else {
        known_at(16, 17, bytes, at)
    }
}

// The byte at a place, a centre's number, or 16 more for its client.
fn endpoint_at(bytes: &[u8], at: usize) -> Result<(u8, usize), WireFault>
    ensures { result ≡ checked (endpoint at) (u8_at bytes.now at) }
{
    let (number, after) = u8_at(bytes, at)?;
    if (1 <= number && number <= 9) || (17 <= number && number <= 25) {
        Ok((number, after))
    } else {
        Err(WireFault::Range(at as u64))
    }
}

// Whether the bytes spell a message.
fn check_message(bytes: &[u8]) -> Result<(), WireFault>
    ensures { result ≡ passed bytes.now }
{
    let (format, after) = known_at(1, 2, bytes, 0)?;
    let (kind, after) = kind_in(format, bytes, after)?;
    let (_from, after) = endpoint_at(bytes, after)?;
    let (_to, after) = endpoint_at(bytes, after)?;
    let end = check_body(kind, bytes, after)?;
    if end == bytes.len() {
        Ok(())
    } else {
        Err(WireFault::Trailing(end as u64))
    }
}

/// A view of bytes that are known to spell a message, as those that were written by this crate.
pub fn view_written(bytes: &[u8]) -> Viewed<'_>
    requires { IsOk (view_of bytes.now) }
    ensures { result ≡ bytes.now }
{
    Viewed { bytes }
}

/// An envelope into whose place another one is read.
pub fn empty_envelope() -> Envelope {
    Envelope {
        from: 0,
        to: 0,
        message: empty_message(),
    }
}

/// A view of the message that the bytes spell. Else the fault at the first byte in reading order that is
/// not of the grammar. No memory is taken, and nothing is copied.
pub fn view(bytes: &[u8]) -> Result<Viewed<'_>, WireFault>
    ensures { result ≡ viewed bytes.now }
{
    match check_message(bytes) {
        Ok(_) => Ok(Viewed { bytes }),
        Err(fault) => Err(fault),
    }
}

/// Reads the message that the bytes spell into a place, in one pass. Else the fault at the first byte in reading order that is not of
/// the grammar, or no memory; what stands in the place is of no use then.
pub fn read_envelope(alloc: Global, bytes: &[u8], into: &mut Envelope) -> Result<(), WireFault>
    ensures { GivesUnless is_wire_memory (placed_whole result into.new) (view_of bytes.now) }
{
    let (format, after) = known_at(1, 2, bytes, 0)?;
    let (kind, after) = kind_in(format, bytes, after)?;
    let (from, after) = endpoint_at(bytes, after)?;
    let (to, after) = endpoint_at(bytes, after)?;
    let end = read_body(alloc, kind, bytes, after, &mut into.message)?;
    into.from = from;
    into.to = to;
    if end == bytes.len() {
        Ok(())
    } else {
        Err(WireFault::Trailing(end as u64))
    }
}

// The byte that is the number of a message's kind.
fn kind_byte(bytes: &[u8]) -> u8
    ensures { result ≡ kind_or_none (u8_at bytes.now 1) }
{
    match u8_at(bytes, 1) {
        Ok((kind, _)) => kind,
        Err(_) => 0,
    }
}

// The choice at a place.
fn choice_or_none(bytes: &[u8], at: usize) -> Option<Choice>
    ensures { result ≡ choice_or_none (choice_at bytes.now at) }
{
    match read_choice(bytes, at) {
        Ok((choice, _)) => Some(choice),
        Err(_) => None,
    }
}

// The choice of a message of this kind, whose body is at a place.
fn choice_by(kind: u8, bytes: &[u8], at: usize) -> Option<Choice>
    ensures { result ≡ choice_by kind bytes.now at }
{
    if kind == 1 || kind == 4 {
        choice_or_none(bytes, at)
    } else {
        None
    }
}

// The kind of the message that the bytes spell.
fn kind_at(bytes: &[u8]) -> u8
    ensures { IfOk (view_of bytes.now) (λ envelope. result ≡ kind_of envelope.message) }
{
    kind_byte(bytes)
}

// The choice of the message that the bytes spell.
fn choice_of(bytes: &[u8]) -> Option<Choice>
    ensures { IfOk (view_of bytes.now) (λ envelope. result ≡ message_choice envelope.message) }
{
    choice_by(kind_byte(bytes), bytes, 4)
}

// The marks of the message that the bytes spell.
fn marks_of(bytes: &[u8]) -> MarkViews<'_>
    ensures { IfOk (view_of bytes.now) (λ envelope. result ≡ message_marks envelope.message) }
{
    marks_by(kind_byte(bytes), bytes, 4)
}

impl<'a> Viewed<'a> {
    /// The message.
    pub fn envelope(&self, alloc: Global) -> Result<Envelope, Memory>
        ensures { IfOk result (λ envelope. view_of self.now ≡ Ok envelope) }
    {
        let mut envelope = empty_envelope();
        self.read_into(alloc, &mut envelope)?;
        Ok(envelope)
    }

    /// The message, read into a place. Where there is no memory, what stands there is of no use.
    pub fn read_into(&self, alloc: Global, into: &mut Envelope) -> Result<(), Memory>
        ensures { OnOk result (view_of self.now ≡ Ok into.new) }
    {
        match read_envelope(alloc, self.bytes, into) {
            Ok(()) => Ok(()),
            Err(_) => Err(Memory),
        }
    }

    /// The number of its kind, from 1 to 17.
    pub fn kind(&self) -> u8
        ensures { IfOk (view_of self.now) (λ envelope. result ≡ kind_of envelope.message) }
    {
        kind_at(self.bytes)
    }

    /// The choice that is proposed, or for which a leader is asked.
    pub fn choice(&self) -> Option<Choice>
        ensures { IfOk (view_of self.now) (λ envelope. result ≡ message_choice envelope.message) }
    {
        choice_of(self.bytes)
    }

    /// The marks of its structure, one after another. A kind without a structure has none.
    pub fn marks(&self) -> MarkViews<'a>
        ensures { IfOk (view_of self.now) (λ envelope. result ≡ message_marks envelope.message) }
    {
        marks_of(self.bytes)
    }
}
