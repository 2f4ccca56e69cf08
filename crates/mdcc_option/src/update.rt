//! Whether an update is one of a schema.
ghost use Rattle.std.specs.Prelude.{◌≡◌, ◌-ℤ◌, ◌≤◌, length};
ghost use Rattle.std.specs.List.{list_all, list_any};
ghost use Rattle.mdcc_option.specs.Bounds.{IsSchema};
ghost use Rattle.mdcc_option.specs.Transaction.{update_fault, are_attributes, is_amount_within, is_zero_amount, write_fault, add_fault, bounds_of};

use crate::bounds::are_within;
use crate::{DraftFault, Schema, Update};

/// Why an update is not one of the schema.
pub(crate) fn update_fault(schema: &Schema, update: &Update) -> Option<DraftFault>
    ensures { result ≡ update_fault schema.now update.now }
{
    let bounds = schema.bounds();
    match update {
        Update::Write(item, _) => write_fault(bounds, item.values.as_slice()),
        Update::Add(amounts) => add_fault(bounds, amounts.as_slice()),
    }
}

fn write_fault(bounds: &[(i64, i64)], values: &[i64]) -> Option<DraftFault>
    ensures { result ≡ write_fault bounds.now values.now }
{
    if values.len() != bounds.len() {
        return Some(DraftFault::BadAttribute);
    }
    if are_within(bounds, values) {
        None
    } else {
        Some(DraftFault::OutOfBounds)
    }
}

fn add_fault(bounds: &[(i64, i64)], amounts: &[(u8, i64)]) -> Option<DraftFault>
    requires { IsSchema bounds.now }
    ensures { result ≡ add_fault bounds.now amounts.now }
{
    if amounts.is_empty() || !are_attributes(bounds.len(), amounts) {
        return Some(DraftFault::BadAttribute);
    }
    if has_zero_amount(amounts) {
        return Some(DraftFault::ZeroAmount);
    }
    if are_amounts_within(bounds, amounts) {
        None
    } else {
        Some(DraftFault::OutOfBounds)
    }
}

// Whether the amounts name attributes out of so many, ascending.
fn are_attributes(count: usize, amounts: &[(u8, i64)]) -> bool
    ensures { result ≡ are_attributes count 0 amounts.now }
{
    let mut last = 0usize;
    for amount in amounts {
        let attribute = usize::from(amount.0);
        if attribute <= last || attribute > count {
            return false;
        }
        last = attribute;
    }
    true
}

fn has_zero_amount(amounts: &[(u8, i64)]) -> bool
    ensures { result ≡ list_any is_zero_amount amounts.now }
{
    amounts.iter().any(|amount| amount.1.unsigned_abs() == 0)
}

fn are_amounts_within(bounds: &[(i64, i64)], amounts: &[(u8, i64)]) -> bool
    requires { IsSchema bounds.now }
    ensures { result ≡ list_all (is_amount_within bounds.now) amounts.now }
{
    for amount in amounts {
        if !is_amount_within(bounds, amount) {
            return false;
        }
    }
    true
}

// Whether the amount is at most what lies between the bounds of its attribute.
fn is_amount_within(bounds: &[(i64, i64)], amount: &(u8, i64)) -> bool
    ensures { result ≡ is_amount_within bounds.now amount.now }
{
    let magnitude = i128::from(amount.1.unsigned_abs());
    magnitude <= width(&bounds_of(bounds, amount.0))
}

// The bounds of an attribute, which is counted from 1.
fn bounds_of(bounds: &[(i64, i64)], attribute: u8) -> (i64, i64)
    ensures { result ≡ bounds_of bounds.now attribute }
{
    let place = usize::from(attribute).saturating_sub(1);
    if place < bounds.len() {
        bounds[place]
    } else {
        (0, 0)
    }
}

// What lies between bounds.
fn width(bounds: &(i64, i64)) -> i128
    ensures { result ≡ bounds.now.1 -ℤ bounds.now.0 }
{
    i128::from(bounds.1) - i128::from(bounds.0)
}
