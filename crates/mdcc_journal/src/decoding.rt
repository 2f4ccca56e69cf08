//! Facts read from bytes.
ghost use Rattle.std.specs.Prelude.{◌≡◌};
ghost use Rattle.mdcc_base.specs.Unless.{GivesUnless};
ghost use Rattle.mdcc_parts.specs.Reads.{is_wire_memory};
ghost use Rattle.mdcc_def_messages.specs.ReadingSteps.{checked, u8_at};
ghost use Rattle.mdcc_def_messages.specs.Reading.{known, booted_at, promised_at, some_offered_at, offered_at, vote_at, heard_fact_at, adopted_at, floor_at, fact_at, fact_of};

use mdcc_base::Key;
use mdcc_def_messages::{Fact, WireFault};
use mdcc_option::Choice;
use mdcc_parts::choices::read_choice_of;
use mdcc_parts::given::{read_given, read_heard, read_instance};
use mdcc_parts::identifiers::{read_ballot, read_numbers};
use mdcc_parts::marks::read_options;
use mdcc_parts::numbers::{u8_at, u8_within, u32_within, u64_at};
use std::alloc::Global;

// A start.
fn booted_at(bytes: &[u8], at: usize) -> Result<(Fact, usize), WireFault>
    ensures { result ≡ booted_at bytes.now at }
{
    let (epoch, after) = u32_within(at, 1, u32::MAX, bytes, at)?;
    Ok((Fact::Booted(epoch), after))
}

// A promise.
fn promised_at(bytes: &[u8], at: usize) -> Result<(Fact, usize), WireFault>
    ensures { result ≡ promised_at bytes.now at }
{
    let ((key, low), after) = read_instance(bytes, at)?;
    let (high, after) = u64_at(bytes, after)?;
    let (ballot, after) = read_ballot(bytes, after)?;
    Ok((
        Fact::Promised {
            key,
            low,
            high,
            ballot,
        },
        after,
    ))
}

// The choice that was rejected, as one that is there.
fn some_offered_at(
    bytes: &[u8],
    at: usize,
    key: &Key,
    version: u64,
) -> Result<(Option<Choice>, usize), WireFault>
    ensures { result ≡ some_offered_at bytes.now at key.now version }
{
    let (choice, after) = read_choice_of(key, version, bytes, at)?;
    Ok((Some(choice), after))
}

// No choice, or the choice that was rejected.
fn offered_at(
    bytes: &[u8],
    at: usize,
    key: &Key,
    version: u64,
) -> Result<(Option<Choice>, usize), WireFault>
    ensures { result ≡ offered_at bytes.now at key.now version }
{
    let (tag, after) = u8_within(at, 0, 1, bytes, at)?;
    if tag == 0 {
        Ok((None, after))
    } else {
        some_offered_at(bytes, after, key, version)
    }
}

// A vote.
fn vote_at(alloc: Global, bytes: &[u8], at: usize) -> Result<(Fact, usize), WireFault>
    ensures { GivesUnless is_wire_memory result (vote_at bytes.now at) }
{
    let ((key, version), after) = read_instance(bytes, at)?;
    let (ballot, after) = read_ballot(bytes, after)?;
    let (options, after) = read_options(alloc, bytes, after, &key, version)?;
    let (offered, after) = offered_at(bytes, after, &key, version)?;
    Ok((
        Fact::Voted {
            key,
            version,
            ballot,
            options,
            offered,
        },
        after,
    ))
}

// How a transaction ended.
fn heard_fact_at(bytes: &[u8], at: usize) -> Result<(Fact, usize), WireFault>
    ensures { result ≡ heard_fact_at bytes.now at }
{
    let ((tx, outcome), after) = read_heard(bytes, at)?;
    Ok((Fact::Heard { tx, outcome }, after))
}

// A version of a key that another centre gave.
fn adopted_at(alloc: Global, bytes: &[u8], at: usize) -> Result<(Fact, usize), WireFault>
    ensures { GivesUnless is_wire_memory result (adopted_at bytes.now at) }
{
    let ((key, version, item, adds), after) = read_given(alloc, bytes, at)?;
    Ok((
        Fact::Adopted {
            key,
            version,
            item,
            adds,
        },
        after,
    ))
}

// How far all have heard a centre's transactions.
fn floor_at(bytes: &[u8], at: usize) -> Result<(Fact, usize), WireFault>
    ensures { result ≡ floor_at bytes.now at }
{
    let ((centre, epoch, seq), after) = read_numbers(bytes, at)?;
    Ok((Fact::Floor { centre, epoch, seq }, after))
}

// The byte at the front, the number of a kind of facts.
fn kind_at(bytes: &[u8]) -> Result<(u8, usize), WireFault>
    ensures { result ≡ checked (known 1 6) (u8_at bytes.now 0) }
{
    let (kind, after) = u8_at(bytes, 0)?;
    if 1 <= kind && kind <= 6 {
        Ok((kind, after))
    } else {
        Err(WireFault::Kind)
    }
}

// What follows the number of a kind of facts.
fn fact_at(alloc: Global, kind: u8, bytes: &[u8], at: usize) -> Result<(Fact, usize), WireFault>
    ensures { GivesUnless is_wire_memory result (fact_at kind bytes.now at) }
{
    match kind {
        1 => {
            let (fact, after) = booted_at(bytes, at)?;
            Ok((fact, after))
        }
        2 => {
            let (fact, after) = promised_at(bytes, at)?;
            Ok((fact, after))
        }
        3 => vote_at(alloc, bytes, at),
        4 => {
            let (fact, after) = heard_fact_at(bytes, at)?;
            Ok((fact, after))
        }
        5 => adopted_at(alloc, bytes, at),
        _ => {
            let (fact, after) = floor_at(bytes, at)?;
            Ok((fact, after))
        }
    }
}

/// The fact that the bytes spell. Else, where memory is found, the fault at the first byte in reading
/// order that is not of the grammar.
pub fn decode_fact(alloc: Global, bytes: &[u8]) -> Result<Fact, WireFault>
    ensures { GivesUnless is_wire_memory result (fact_of bytes.now) }
{
    let (kind, after) = kind_at(bytes)?;
    let (fact, end) = fact_at(alloc, kind, bytes, after)?;
    if end == bytes.len() {
        Ok(fact)
    } else {
        Err(WireFault::Trailing(end as u64))
    }
}
