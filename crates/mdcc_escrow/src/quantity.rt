//! Quantities that an add changes: the number of adds on one version, and attributes.
ghost use Rattle.std.specs.Prelude.{◌≡◌, ◌+◌, ◌-◌, ◌^◌, ◌≤◌, pos, neg_ℤ, ◌+ℤ◌, ◌-ℤ◌, ◌*ℤ◌, ◌≤ℤ◌, get_or, length, nat_abs};
ghost use Rattle.mdcc_base.specs.AreQuorums.{AreQuorums};
ghost use Rattle.mdcc_def_protocol.specs.Fit.{delta_count, quantity_of, quantity_at, quantities_of, is_past_room, is_past_limit, first_number, parts_of, share_of};
ghost use Rattle.mdcc_escrow.specs.Sums.{AreBoundedSums, IsBoundedLoad};

use crate::Load;
use crate::attributes::{bounds_at, sum_at, value_at};
use mdcc_base::{BoundedList, Quorums};
use mdcc_option::{FastLimit, Item, Schema};
use std::marker::Model;

/// Quantity 0 is the number of adds on one version, quantity n attribute n: the sum of the live
/// options, the room for it, and the magnitude of the amount that an add brings.
#[derive(Default, Drop)]
pub(crate) struct Quantity {
    number: u8,
    sum: i128,
    room: i128,
    amount: i128,
}

impl Model for Quantity {
    ghost use Rattle.mdcc_def_protocol.specs.Fit.{Quantity as Measured};
    ghost use Rattle.mdcc_escrow.specs.WithinRange.{IsWithinRange};

    ghost Value = { Measured };

    ghost view = { λ q. record { number = q.number; sum = q.sum; room = q.room; amount = q.amount } };

    ghost invariant = { λ q. IsWithinRange (record { number = q.number; sum = q.sum; room = q.room; amount = q.amount }) };
}

// Quantity 0: the number of deltas on one version.
fn delta_count(load: &Load) -> Quantity
    ensures { result ≡ delta_count load.now }
{
    Quantity {
        number: 0,
        sum: i128::from(load.count),
        room: 64,
        amount: 1,
    }
}

/// Quantity 0 as the live adds alone leave it.
pub(crate) fn count_taken(load: &Load) -> Quantity
    ensures { result ≡ record { number = 0; sum = pos load.now.count; room = pos 64; amount = pos 0 } }
{
    Quantity {
        number: 0,
        sum: i128::from(load.count),
        room: 64,
        amount: 0,
    }
}

// What lies between a lower number and an upper one.
fn room_between(lower: i64, upper: i64) -> i128
    ensures value { result ≡ upper -ℤ lower }
    ensures low { neg_ℤ (pos (2 ^ 64)) ≤ℤ result }
    ensures high { result ≤ℤ pos (2 ^ 64) }
{
    i128::from(upper) - i128::from(lower)
}

// The number without its sign.
fn magnitude(amount: i64) -> i128
    ensures value { result ≡ pos (nat_abs amount) }
    ensures low { pos 0 ≤ℤ result }
    ensures high { result ≤ℤ pos (2 ^ 63) }
{
    i128::from(amount.unsigned_abs())
}

/// Quantity n where an add takes from it: the room down to the lower bound.
pub(crate) fn decreased(
    attribute: u8,
    value: i64,
    lower: i64,
    amount: i64,
    down: &[i128; 4],
) -> Quantity
    requires { AreBoundedSums down.now }
    ensures { result ≡ record {
      number = attribute;
      sum = get_or down.now (attribute - 1) (pos 0);
      room = value -ℤ lower;
      amount = pos (nat_abs amount);
    } }
{
    Quantity {
        number: attribute,
        sum: sum_at(down, attribute),
        room: room_between(lower, value),
        amount: magnitude(amount),
    }
}

/// Quantity n where an add adds to it: the room up to the upper bound.
pub(crate) fn increased(
    attribute: u8,
    value: i64,
    upper: i64,
    amount: i64,
    up: &[i128; 4],
) -> Quantity
    requires { AreBoundedSums up.now }
    ensures { result ≡ record {
      number = attribute;
      sum = get_or up.now (attribute - 1) (pos 0);
      room = upper -ℤ value;
      amount = pos (nat_abs amount);
    } }
{
    Quantity {
        number: attribute,
        sum: sum_at(up, attribute),
        room: room_between(value, upper),
        amount: magnitude(amount),
    }
}

// Quantity n, as the sign of the amount says.
fn quantity_of(attribute: u8, value: i64, bounds: (i64, i64), amount: i64, load: &Load) -> Quantity
    requires { IsBoundedLoad load.now }
    ensures { result ≡ quantity_of attribute value bounds amount load.now }
{
    if amount < 0 {
        decreased(attribute, value, bounds.0, amount, &load.down)
    } else {
        increased(attribute, value, bounds.1, amount, &load.up)
    }
}

// The quantity of an attribute that is named with an amount.
fn quantity_at(schema: &Schema, base: &Item, load: &Load, named: &(u8, i64)) -> Quantity
    requires { IsBoundedLoad load.now }
    ensures { result ≡ quantity_at schema.now base.now load.now named.now }
{
    let (attribute, amount) = *named;
    let value = value_at(base, attribute);
    let bounds = bounds_at(schema, attribute);
    quantity_of(attribute, value, bounds, amount, load)
}

// The sum with the amount.
fn total_of(quantity: &Quantity) -> i128
    ensures value { result ≡ quantity.now.sum +ℤ quantity.now.amount }
    ensures low { pos 0 ≤ℤ result }
    ensures high { result ≤ℤ pos (2 ^ 97) }
{
    quantity.sum + quantity.amount
}

/// Whether the sum with the amount passes the room.
pub(crate) fn is_past_room(quantity: &Quantity) -> bool
    ensures { result ≡ is_past_room quantity.now }
{
    quantity.room < total_of(quantity)
}

// The number so many times.
fn times(count: u8, number: i128) -> i128
    requires few { count ≤ 9 }
    requires low { neg_ℤ (pos (2 ^ 97)) ≤ℤ number }
    requires high { number ≤ℤ pos (2 ^ 97) }
    ensures { result ≡ pos count *ℤ number }
{
    i128::from(count) * number
}

/// Into how many parts an acceptor's room is cut: as many as a classic quorum has centres, or under
/// the wider limit as there are centres.
pub fn parts_of(limit: FastLimit, quorums: &Quorums) -> u8
    ensures value { result ≡ parts_of limit quorums.now }
    ensures within { result ≤ quorums.now.centres }
    ensures meet { AreQuorums quorums.now }
{
    match limit {
        FastLimit::Safe => quorums.classic(),
        FastLimit::Paper => quorums.centres(),
    }
}

// The room so many times as a fast quorum and that many centres have in common, at least.
fn share_of(limit: FastLimit, quorums: &Quorums, quantity: &Quantity) -> i128
    ensures { result ≡ pos (share_of limit quorums.now) *ℤ quantity.now.room }
{
    times(quorums.threshold(parts_of(limit, quorums)), quantity.room)
}

// The sum with the amount so many times as there are parts.
fn weight_of(limit: FastLimit, quorums: &Quorums, quantity: &Quantity) -> i128
    ensures { result ≡ pos (parts_of limit quorums.now) *ℤ (quantity.now.sum +ℤ quantity.now.amount) }
{
    times(parts_of(limit, quorums), total_of(quantity))
}

// Whether the sum with the amount passes an acceptor's share of the room.
fn is_past_limit(limit: FastLimit, quorums: &Quorums, quantity: &Quantity) -> bool
    ensures { result ≡ is_past_limit limit quorums.now quantity.now }
{
    share_of(limit, quorums, quantity) < weight_of(limit, quorums, quantity)
}

/// The quantities that an add changes, ascending.
pub(crate) fn quantities_of(
    schema: &Schema,
    base: &Item,
    load: &Load,
    amounts: &[(u8, i64)],
) -> BoundedList<Quantity, 5>
    requires bounded { IsBoundedLoad load.now }
    requires few { length amounts.now ≤ 4 }
    ensures { result ≡ quantities_of schema.now base.now load.now amounts.now }
{
    let mut quantities = BoundedList::new();
    quantities.push(delta_count(load));
    for named in amounts {
        quantities.push(quantity_at(schema, base, load, named));
    }
    quantities
}

/// The least quantity that passes its room.
pub(crate) fn first_past_room(quantities: &[Quantity]) -> Option<u8>
    ensures { result ≡ first_number is_past_room quantities.now }
{
    for quantity in quantities {
        if is_past_room(quantity) {
            return Some(quantity.number);
        }
    }
    None
}

/// The least quantity that passes an acceptor's share of its room.
pub(crate) fn first_past_limit(
    limit: FastLimit,
    quorums: &Quorums,
    quantities: &[Quantity],
) -> Option<u8>
    ensures { result ≡ first_number (is_past_limit limit quorums.now) quantities.now }
{
    for quantity in quantities {
        if is_past_limit(limit, quorums, quantity) {
            return Some(quantity.number);
        }
    }
    None
}
