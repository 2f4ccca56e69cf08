//! Items, and what is done to them, read from bytes.
ghost use Rattle.std.specs.Prelude.{◌≡◌, ◌≤◌, None, nat_lt, take, drop};
ghost use Rattle.mdcc_base.specs.Key.{key_lt};
ghost use Rattle.mdcc_def_messages.specs.ReadingSteps.{i64_at, checked, fault_unless_after, u8_within, elements_at};
ghost use Rattle.mdcc_def_messages.specs.ReadingParts.{body_by, item_at, tx_behind, seen_at, not_zero, amount_behind, amounts_at, write_at, add_at, update_at, part_behind, delta_behind, delta_at};

use crate::identifiers::{read_key_behind, read_tx_behind};
use crate::numbers::{i64_at, run_at, truncated, u8_within, u64_at};
use mdcc_base::{BoundedList, Key, TxId};
use mdcc_def_messages::WireFault;
use mdcc_option::{Amounts, Body, Delta, Item, Part, Seen, Update, Values};

// So many bytes at a place.
fn body_at(bytes: &[u8], count: usize, at: usize) -> Result<(Body, usize), WireFault>
    requires { count ≤ 128 }
    ensures { result ≡ body_by bytes.now count (take count (drop at bytes.now)) at }
{
    let body = run_at(bytes, at, count);
    if body.len() < count {
        return Err(truncated(bytes));
    }
    match BoundedList::from_slice(body) {
        Some(body) => Ok((body, at + count)),
        None => Err(truncated(bytes)),
    }
}

// So many whole numbers at a place.
fn values_at(bytes: &[u8], count: usize, at: usize) -> Result<(Values, usize), WireFault>
    requires { count ≤ 4 }
    ensures { result ≡ elements_at (λ last. i64_at bytes.now) (λ value. value) count None at }
{
    let mut values = BoundedList::new();
    let mut place = at;
    for _ in 0..count {
        let (value, after) = i64_at(bytes, place)?;
        values.push(value);
        place = after;
    }
    Ok((values, place))
}

/// The item at a place.
pub fn read_item(bytes: &[u8], at: usize) -> Result<(Item, usize), WireFault>
    ensures { result ≡ item_at bytes.now at }
{
    let (count, after) = u8_within(at, 0, 128, bytes, at)?;
    let (body, after) = body_at(bytes, usize::from(count), after)?;
    let (count, after) = u8_within(at, 1, 4, bytes, after)?;
    let (values, after) = values_at(bytes, usize::from(count), after)?;
    Ok((Item { body, values }, after))
}

// So many identifiers at a place, of the list that begins at `part`.
fn txs_at(part: usize, bytes: &[u8], count: usize, at: usize) -> Result<(Seen, usize), WireFault>
    requires { count ≤ 64 }
    ensures { result ≡ elements_at (tx_behind part bytes.now) (λ tx. tx) count None at }
{
    let mut seen = BoundedList::new();
    let mut last: Option<TxId> = None;
    let mut place = at;
    for _ in 0..count {
        let (tx, after) = read_tx_behind(part, bytes, last, place)?;
        seen.push(tx);
        last = Some(tx);
        place = after;
    }
    Ok((seen, place))
}

/// The transactions that were seen, at a place.
pub fn read_seen(bytes: &[u8], at: usize) -> Result<(Seen, usize), WireFault>
    ensures { result ≡ seen_at bytes.now at }
{
    let (count, after) = u8_within(at, 0, 64, bytes, at)?;
    txs_at(at, bytes, usize::from(count), after)
}

// An attribute behind the last one of the amounts that begin at `part`.
fn attribute_behind(
    part: usize,
    bytes: &[u8],
    last: Option<u8>,
    at: usize,
) -> Result<(u8, usize), WireFault>
    ensures { result ≡ checked (fault_unless_after nat_lt part last) (u8_within part 1 4 bytes.now at) }
{
    let (attribute, after) = u8_within(part, 1, 4, bytes, at)?;
    match last {
        Some(last) if last >= attribute => Err(WireFault::NotCanonical(part as u64)),
        _ => Ok((attribute, after)),
    }
}

// A number other than 0, of the amounts that begin at `part`.
fn amount_at(part: usize, bytes: &[u8], at: usize) -> Result<(i64, usize), WireFault>
    ensures { result ≡ checked (not_zero part) (i64_at bytes.now at) }
{
    let (amount, after) = i64_at(bytes, at)?;
    if amount.unsigned_abs() == 0 {
        return Err(WireFault::Range(part as u64));
    }
    Ok((amount, after))
}

// An attribute behind the last one of the amounts that begin at `part`, and its amount.
fn amount_behind(
    part: usize,
    bytes: &[u8],
    last: Option<u8>,
    at: usize,
) -> Result<((u8, i64), usize), WireFault>
    ensures { result ≡ amount_behind part bytes.now last at }
{
    let (attribute, after) = attribute_behind(part, bytes, last, at)?;
    let (amount, after) = amount_at(part, bytes, after)?;
    Ok(((attribute, amount), after))
}

// So many amounts at a place, of those that begin at `part`.
fn amounts_from(
    part: usize,
    bytes: &[u8],
    count: usize,
    at: usize,
) -> Result<(Amounts, usize), WireFault>
    requires { count ≤ 4 }
    ensures { result ≡ elements_at (amount_behind part bytes.now) (λ amount. amount.0) count None at }
{
    let mut amounts = BoundedList::new();
    let mut last: Option<u8> = None;
    let mut place = at;
    for _ in 0..count {
        let (amount, after) = amount_behind(part, bytes, last, place)?;
        amounts.push(amount);
        last = Some(amount.0);
        place = after;
    }
    Ok((amounts, place))
}

/// The amounts at a place.
pub fn read_amounts(bytes: &[u8], at: usize) -> Result<(Amounts, usize), WireFault>
    ensures { result ≡ amounts_at bytes.now at }
{
    let (count, after) = u8_within(at, 1, 4, bytes, at)?;
    amounts_from(at, bytes, usize::from(count), after)
}

// The item at a place, and what its writer saw.
fn write_at(bytes: &[u8], at: usize) -> Result<(Update, usize), WireFault>
    ensures { result ≡ write_at bytes.now at }
{
    let (item, after) = read_item(bytes, at)?;
    let (seen, after) = read_seen(bytes, after)?;
    Ok((Update::Write(item, seen), after))
}

// The amounts at a place, as an update.
fn add_at(bytes: &[u8], at: usize) -> Result<(Update, usize), WireFault>
    ensures { result ≡ add_at bytes.now at }
{
    let (amounts, after) = read_amounts(bytes, at)?;
    Ok((Update::Add(amounts), after))
}

/// The update at a place.
pub fn read_update(bytes: &[u8], at: usize) -> Result<(Update, usize), WireFault>
    ensures { result ≡ update_at bytes.now at }
{
    let (tag, after) = u8_within(at, 1, 2, bytes, at)?;
    if tag == 1 {
        write_at(bytes, after)
    } else {
        add_at(bytes, after)
    }
}

/// The part of a transaction at a place, whose key stands behind the last one of the list that begins at
/// `part`.
pub fn read_part_behind(
    part: usize,
    bytes: &[u8],
    last: Option<Key>,
    at: usize,
) -> Result<(Part, usize), WireFault>
    ensures { result ≡ part_behind part bytes.now last at }
{
    let (key, after) = read_key_behind(part, bytes, last, at)?;
    let (version, after) = u64_at(bytes, after)?;
    let (update, after) = read_update(bytes, after)?;
    Ok((
        Part {
            key,
            version,
            update,
        },
        after,
    ))
}

/// The delta at a place, whose transaction stands behind the last one of the list that begins at `part`.
pub fn read_delta_behind(
    part: usize,
    bytes: &[u8],
    last: Option<TxId>,
    at: usize,
) -> Result<(Delta, usize), WireFault>
    ensures { result ≡ delta_behind part bytes.now last at }
{
    let (tx, after) = read_tx_behind(part, bytes, last, at)?;
    let (amounts, after) = read_amounts(bytes, after)?;
    Ok((Delta { tx, amounts }, after))
}

/// The delta at a place.
pub fn read_delta(bytes: &[u8], at: usize) -> Result<(Delta, usize), WireFault>
    ensures { result ≡ delta_at bytes.now at }
{
    read_delta_behind(at, bytes, None, at)
}
