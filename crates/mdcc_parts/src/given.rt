//! What messages and facts have in common, read from bytes.
ghost use Rattle.std.specs.Prelude.{◌≡◌, ◌++◌, ◌∷◌, [], None, OnOk, IfErr};
ghost use Rattle.mdcc_base.specs.Unless.{GivesUnless};
ghost use Rattle.mdcc_def_messages.specs.ReadingSteps.{u64_at, checked, elements_at, list_at};
ghost use Rattle.mdcc_def_messages.specs.ReadingParts.{delta_behind};
ghost use Rattle.mdcc_def_messages.specs.Reading.{instance_at, at_least, heard_at, sync_given_at};
ghost use Rattle.mdcc_parts.specs.Reads.{end_of, is_wire_memory};

use crate::identifiers::{read_key, read_tx};
use crate::items::{read_delta_behind, read_item};
use crate::marks::read_outcome;
use crate::numbers::{u8_within, u64_at};
use mdcc_base::{HeapList, Key, TxId};
use mdcc_def_messages::WireFault;
use mdcc_option::{Delta, Item, Outcome};
use std::alloc::Global;

/// The key and the version at a place.
pub fn read_instance(bytes: &[u8], at: usize) -> Result<((Key, u64), usize), WireFault>
    ensures { result ≡ instance_at bytes.now at }
{
    let (key, after) = read_key(bytes, at)?;
    let (version, after) = u64_at(bytes, after)?;
    Ok(((key, version), after))
}

/// The number of eight bytes at a place, which is at least another one. A smaller one is refused at its
/// own place.
pub fn read_at_least(low: u64, bytes: &[u8], at: usize) -> Result<(u64, usize), WireFault>
    ensures { result ≡ checked (at_least at low) (u64_at bytes.now at) }
{
    let (number, after) = u64_at(bytes, at)?;
    if number < low {
        return Err(WireFault::Range(at as u64));
    }
    Ok((number, after))
}

/// The transaction at a place, and how it ended.
pub fn read_heard(bytes: &[u8], at: usize) -> Result<((TxId, Outcome), usize), WireFault>
    ensures { result ≡ heard_at bytes.now at }
{
    let (tx, after) = read_tx(bytes, at)?;
    let (outcome, after) = read_outcome(bytes, after, tx)?;
    Ok(((tx, outcome), after))
}

// Where so many deltas end, of the list that begins at `part`.
fn check_deltas(part: usize, bytes: &[u8], count: u8, at: usize) -> Result<usize, WireFault>
    ensures { result ≡ end_of (elements_at (delta_behind part bytes.now) (λ delta. delta.tx) count None at) }
{
    let mut last: Option<TxId> = None;
    let mut place = at;
    for _ in 0..count {
        let (delta, after) = read_delta_behind(part, bytes, last, place)?;
        last = Some(delta.tx);
        place = after;
    }
    Ok(place)
}

// So many deltas at a place, of the list that begins at `part`.
fn deltas_from(
    alloc: Global,
    part: usize,
    bytes: &[u8],
    count: u8,
    at: usize,
) -> Result<(HeapList<Delta>, usize), WireFault>
    ensures { GivesUnless is_wire_memory result (elements_at (delta_behind part bytes.now) (λ delta. delta.tx) count None at) }
{
    let mut deltas = HeapList::new(alloc);
    let mut last: Option<TxId> = None;
    let mut place = at;
    for _ in 0..count {
        let (delta, after) = read_delta_behind(part, bytes, last, place)?;
        last = Some(delta.tx);
        deltas.push(delta)?;
        place = after;
    }
    Ok((deltas, place))
}

/// The place behind what a centre holds of a key, at a place. No memory is taken.
pub fn check_given(bytes: &[u8], at: usize) -> Result<usize, WireFault>
    ensures { result ≡ end_of (sync_given_at bytes.now at) }
{
    let (_key, after) = read_key(bytes, at)?;
    let (_version, after) = read_at_least(1, bytes, after)?;
    let (_item, after) = read_item(bytes, after)?;
    let (count, first) = u8_within(after, 0, 64, bytes, after)?;
    let end = check_deltas(after, bytes, count, first)?;
    Ok(end)
}

/// What a centre holds of a key, at a place: the key, the version, its base, and the deltas on it.
pub fn read_given(
    alloc: Global,
    bytes: &[u8],
    at: usize,
) -> Result<((Key, u64, Item, HeapList<Delta>), usize), WireFault>
    ensures { GivesUnless is_wire_memory result (sync_given_at bytes.now at) }
{
    let (key, after) = read_key(bytes, at)?;
    let (version, after) = read_at_least(1, bytes, after)?;
    let (item, after) = read_item(bytes, after)?;
    let (count, first) = u8_within(after, 0, 64, bytes, after)?;
    let (deltas, end) = deltas_from(alloc, after, bytes, count, first)?;
    Ok(((key, version, item, deltas), end))
}
