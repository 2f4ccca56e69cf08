//! What a one-copy store holds of a key.
ghost use Rattle.std.specs.Prelude.{◌≡◌, ◌+◌, ◌-◌, ◌*◌, ◌^◌, ◌<◌, ◌≤◌, ◌&&◌, ◌==◌, ℤ, pos, negsuc, ◌≤ℤ◌, neg_ℤ, [], length, map, is_some, IfOk, Some, None};
ghost use Rattle.std.specs.Bool.{OnTrue};
ghost use Rattle.std.specs.Option.{option_copied};
ghost use Rattle.mdcc_option.specs.Equality.{txs_eq};
ghost use Rattle.mdcc_option.specs.OneCopy.{version_held, deltas_in, amount_at, value_after, values_after, next_version, seen_of, written, with_delta, added, if_in_bounds, read_value, shown};

use crate::bounds::{are_sums_within, are_within};
use crate::{Delta, Item, Seen, Token, Values};
use mdcc_base::{BoundedList, HeapList, Memory, Plain, TxId};
use std::alloc::Global;
use std::marker::Model;

/// The version of a key, the item that was written as its base, and the deltas on it, ascending by
/// transaction.
#[derive(Drop)]
pub(crate) struct HeldItem {
    version: u64,
    base: Item,
    deltas: HeapList<Delta>,
}

impl Model for HeldItem {
    ghost use Rattle.std.specs.Prelude.{◌≤◌, length};
    ghost use Rattle.mdcc_option.specs.Held.{Held};

    ghost Value = { Held };

    ghost view = { λ h. record { version = h.version; base = h.base; deltas = h.deltas } };

    ghost invariant = { λ h. length h.deltas ≤ 64 };
}

// The values of an item before they are bounded.
type Sums = BoundedList<i128, 4>;

/// The amount that is added at an attribute, by its number from 1; 0 where it is not named.
pub fn amount_at(attribute: usize, amounts: &[(u8, i64)]) -> i64
    ensures { result ≡ amount_at attribute amounts.now }
{
    for amount in amounts {
        if usize::from(amount.0) == attribute {
            return amount.1;
        }
    }
    0
}

/// The value of the attribute at a place, from 0, of an item whose base has this value there, after these deltas.
pub fn value_after(deltas: &[Delta], place: usize, base: i64) -> i128
    requires few { length deltas.now ≤ 64 }
    requires within { place < 4 }
    ensures value { result ≡ value_after deltas.now (place, base) }
    ensures low { neg_ℤ (pos (65 * 2 ^ 63)) ≤ℤ result }
    ensures high { result ≤ℤ pos (65 * 2 ^ 63) }
{
    let mut value = i128::from(base);
    for delta in deltas {
        value += i128::from(amount_at(place + 1, delta.amounts.as_slice()));
    }
    value
}

// The value of each attribute.
fn values_after(held: &HeldItem) -> Sums
    ensures { result ≡ values_after held.now }
{
    let deltas = held.deltas.as_slice();
    let mut sums = BoundedList::new();
    for (place, base) in held.base.values.as_slice().iter().enumerate() {
        sums.push(value_after(deltas, place, *base));
    }
    sums
}

// The value of the attribute at a place where a delta is added.
fn value_with(deltas: &[Delta], delta: &Delta, place: usize, base: i64) -> i128
    requires few { length deltas.now ≤ 64 }
    requires within { place < 4 }
    ensures { result ≡ value_after (with_delta deltas.now delta.now) (place, base) }
{
    let amount = amount_at(place + 1, delta.amounts.as_slice());
    value_after(deltas, place, base) + i128::from(amount)
}

// The value of each attribute where a delta is added.
fn values_with(held: &HeldItem, delta: &Delta) -> Sums
    ensures { result ≡ values_after (record held.now { deltas = with_delta held.now.deltas delta.now }) }
{
    let deltas = held.deltas.as_slice();
    let mut sums = BoundedList::new();
    for (place, base) in held.base.values.as_slice().iter().enumerate() {
        sums.push(value_with(deltas, delta, place, *base));
    }
    sums
}

/// The value as a reader sees it: it stops at the ends of 64 bits.
pub fn read_value(value: i128) -> i64
    ensures { result ≡ read_value value }
{
    if value < i128::from(i64::MIN) {
        i64::MIN
    } else if i128::from(i64::MAX) < value {
        i64::MAX
    } else {
        value as i64
    }
}

// The values as a reader sees them.
fn read_values(sums: &Sums) -> Values
    ensures { result ≡ map read_value sums.now }
{
    let mut values = BoundedList::new();
    for sum in sums.as_slice() {
        values.push(read_value(*sum));
    }
    values
}

// The transactions of the deltas.
fn seen_of(deltas: &[Delta]) -> Seen
    requires { length deltas.now ≤ 64 }
    ensures { result ≡ seen_of deltas.now }
{
    let mut seen = BoundedList::new();
    for delta in deltas {
        seen.push(delta.tx);
    }
    seen
}

// Whether they are the same transactions in the same order.
fn txs_eq(a: &[TxId], b: &[TxId]) -> bool
    ensures { result ≡ txs_eq a.now b.now }
{
    let mut rest = b;
    for tx in a {
        match rest {
            [other, later @ ..] if tx.is(other) => rest = later,
            _ => return false,
        }
    }
    rest.is_empty()
}

// A version plus one stops at 2^64 - 1.
fn next_version(version: u64) -> u64
    ensures { result ≡ next_version version }
{
    version.saturating_add(1)
}

// The delta put before the first of a later transaction.
fn with_delta(alloc: Global, deltas: &[Delta], delta: &Delta) -> Result<HeapList<Delta>, Memory>
    ensures { IfOk result (λ list. list ≡ with_delta deltas.now delta.now) }
{
    let mut list = HeapList::new(alloc);
    let mut placed = false;
    for other in deltas {
        if !placed && delta.tx.is_below(&other.tx) {
            list.push(delta.copy())?;
            placed = true;
        }
        list.push(other.copy())?;
    }
    if !placed {
        list.push(delta.copy())?;
    }
    Ok(list)
}

// Whether a Write's token is that of the present version and of the present deltas.
fn is_present(held: Option<&HeldItem>, version: u64, seen: &[TxId]) -> bool
    ensures { result ≡ (version_held (option_copied held.entry) == version && txs_eq (seen_of (deltas_in (option_copied held.entry))) seen.now) }
{
    match held {
        Some(held) => {
            version == held.version && txs_eq(seen_of(held.deltas.as_slice()).as_slice(), seen)
        }
        None => version == 0 && seen.is_empty(),
    }
}

/// Whether an item may be written.
#[tactic(auto, using(crate::proofs::Deltas::delta_laws))]
pub(crate) fn may_write(
    schema: &[(i64, i64)],
    held: Option<&HeldItem>,
    version: u64,
    item: &Item,
    seen: &[TxId],
) -> bool
    ensures { result ≡ is_some (if_in_bounds schema.now (written version item.now seen.now (option_copied held.entry))) }
{
    is_present(held, version, seen) && are_within(schema, item.values.as_slice())
}

/// Whether a delta may be added.
#[tactic(auto, using(crate::proofs::Deltas::delta_laws))]
pub(crate) fn may_add(schema: &[(i64, i64)], held: &HeldItem, version: u64, delta: &Delta) -> bool
    ensures value { result ≡ is_some (if_in_bounds schema.now (added version delta.now (Some held.now))) }
    ensures room { OnTrue result (length held.now.deltas < 64) }
{
    held.version == version
        && held.deltas.len() < 64
        && are_sums_within(schema, values_with(held, delta).as_slice())
}

/// What a write makes of a key, where it may be applied.
pub(crate) fn written(
    alloc: Global,
    schema: &[(i64, i64)],
    held: Option<&HeldItem>,
    version: u64,
    item: &Item,
    seen: &[TxId],
) -> Option<HeldItem>
    ensures { result ≡ if_in_bounds schema.now (written version item.now seen.now (option_copied held.entry)) }
{
    if !may_write(schema, held, version, item, seen) {
        return None;
    }
    Some(HeldItem {
        version: next_version(version),
        base: item.copy(),
        deltas: HeapList::new(alloc),
    })
}

/// What a delta makes of an item, where it may be added.
#[tactic(auto, using(crate::proofs::Deltas::delta_laws))]
pub(crate) fn added(
    alloc: Global,
    schema: &[(i64, i64)],
    held: &HeldItem,
    version: u64,
    delta: &Delta,
) -> Result<Option<HeldItem>, Memory>
    ensures { IfOk result (λ next. next ≡ if_in_bounds schema.now (added version delta.now (Some held.now))) }
{
    if !may_add(schema, held, version, delta) {
        return Ok(None);
    }
    Ok(Some(HeldItem {
        version: held.version,
        base: held.base.copy(),
        deltas: with_delta(alloc, held.deltas.as_slice(), delta)?,
    }))
}

/// What a reader sees.
pub(crate) fn shown(held: &HeldItem) -> (Item, Token)
    ensures { result ≡ shown held.now }
{
    let item = Item {
        body: held.base.body.copy(),
        values: read_values(&values_after(held)),
    };
    let token = Token {
        version: held.version,
        seen: seen_of(held.deltas.as_slice()),
    };
    (item, token)
}
