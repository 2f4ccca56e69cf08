//! Schemas: the bounds of the attributes.
ghost use Rattle.std.specs.Prelude.{◌≡◌, ◌+◌, ◌<◌, ◌≤◌, ◌^◌, length, IfNone, IsTrue};
ghost use Rattle.std.specs.List.{list_all};
ghost use Rattle.mdcc_option.specs.Bounds.{IsSchema, is_bound};
ghost use Rattle.mdcc_option.specs.Schema.{bad_bound_from, schema_of};

use mdcc_base::{BoundedList, Plain};
use std::marker::Model;

/// The largest magnitude of a bound.
const LARGEST_BOUND: u64 = 1_000_000_000_000_000;

/// For each attribute, 1 to 4 of them, its lower and its upper bound.
#[derive(Debug, Drop)]
pub struct Schema {
    bounds: BoundedList<(i64, i64), 4>,
}

impl Model for Schema {
    ghost use Rattle.std.specs.Prelude.{List, ℤ};
    ghost use Rattle.mdcc_option.specs.Bounds.{IsSchema};

    ghost Value = { List (ℤ × ℤ) };

    ghost view = { λ s. s.bounds };

    ghost invariant = { λ s. IsSchema s.bounds };
}

/// Why bounds make no schema.
#[derive(Clone, Copy, Debug, PartialEq, Eq)]
pub enum SchemaFault {
    /// There are not 1 to 4 of them.
    Count,
    /// The bounds of this number, from 1, have a lower one above the upper one, or one that passes
    /// 10^15 in magnitude.
    Bound(u8),
}

impl Schema {
    /// The schema of these bounds, each a lower and an upper one.
    pub fn new(bounds: &[(i64, i64)]) -> Result<Schema, SchemaFault>
        ensures { result ≡ schema_of bounds.now }
    {
        if bounds.is_empty() || bounds.len() > 4 {
            return Err(SchemaFault::Count);
        }
        if let Some(number) = bad_bound(bounds) {
            return Err(SchemaFault::Bound(number));
        }
        Ok(schema_with(bounds))
    }

    /// The lower and the upper bound of each attribute, in order.
    pub fn bounds(&self) -> &[(i64, i64)]
        ensures value { result.now ≡ self.now }
        ensures schema { IsSchema self.now }
    {
        self.bounds.as_slice()
    }
}

// The schema of bounds that make one.
fn schema_with(bounds: &[(i64, i64)]) -> Schema
    requires { IsSchema bounds.now }
    ensures { result ≡ bounds.now }
{
    Schema {
        bounds: BoundedList::from_slice(bounds).unwrap(),
    }
}

// Whether the lower bound is at most the upper one, and both are small enough.
fn is_bound(bounds: &(i64, i64)) -> bool
    ensures { result ≡ is_bound bounds.now }
{
    bounds.0 <= bounds.1
        && bounds.0.unsigned_abs() <= LARGEST_BOUND
        && bounds.1.unsigned_abs() <= LARGEST_BOUND
}

// The number of the first bad bounds, from 1.
fn bad_bound(bounds: &[(i64, i64)]) -> Option<u8>
    requires { length bounds.now ≤ 4 }
    ensures value { result ≡ bad_bound_from 1 bounds.now }
    ensures good { IfNone result (IsTrue (list_all is_bound bounds.now)) }
{
    let mut number = 1u8;
    for pair in bounds {
        if !is_bound(pair) {
            return Some(number);
        }
        number += 1;
    }
    None
}

impl Plain for Schema {
    fn copy(&self) -> Schema {
        Schema {
            bounds: self.bounds.copy(),
        }
    }

    fn same(&self, other: &Schema) -> bool {
        self.bounds.same(&other.bounds)
    }
}
