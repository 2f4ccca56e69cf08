//! What stands at an attribute, which is counted from 1. Where there is none it is 0.
ghost use Rattle.std.specs.Prelude.{◌≡◌, ◌-◌, ◌^◌, pos, ◌≤ℤ◌, get_or};
ghost use Rattle.mdcc_escrow.specs.Sums.{AreBoundedSums};

use mdcc_option::{Item, Schema};

/// Its sum.
pub(crate) fn sum_at(sums: &[i128; 4], attribute: u8) -> i128
    requires { AreBoundedSums sums.now }
    ensures value { result ≡ get_or sums.now (attribute - 1) (pos 0) }
    ensures low { pos 0 ≤ℤ result }
    ensures high { result ≤ℤ pos (2 ^ 96) }
{
    let place = usize::from(attribute).saturating_sub(1);
    if place < sums.len() { sums[place] } else { 0 }
}

/// Its value.
pub(crate) fn value_at(base: &Item, attribute: u8) -> i64
    ensures { result ≡ get_or base.now.values (attribute - 1) (pos 0) }
{
    let place = usize::from(attribute).saturating_sub(1);
    let values = base.values.as_slice();
    if place < values.len() {
        values[place]
    } else {
        0
    }
}

/// Its lower and its upper bound.
pub(crate) fn bounds_at(schema: &Schema, attribute: u8) -> (i64, i64)
    ensures { result ≡ get_or schema.now (attribute - 1) (pos 0, pos 0) }
{
    let place = usize::from(attribute).saturating_sub(1);
    let bounds = schema.bounds();
    if place < bounds.len() {
        bounds[place]
    } else {
        (0, 0)
    }
}
