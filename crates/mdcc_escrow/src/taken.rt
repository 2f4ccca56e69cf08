//! Whether live adds alone are within the room.
ghost use Rattle.std.specs.Prelude.{◌≡◌, length, map, not};
ghost use Rattle.std.specs.List.{list_all, range_with_len};
ghost use Rattle.std.specs.Option.{option_copied};
ghost use Rattle.mdcc_def_protocol.specs.declared.fit.Load.{Load as ALoad};
ghost use Rattle.mdcc_def_protocol.specs.Fit.{are_within_room, capped, decreases_at, increases_at, is_past_room};
ghost use Rattle.mdcc_escrow.specs.Sums.{IsBoundedLoad};

use crate::Load;
use crate::attributes::{bounds_at, value_at};
use crate::declared::are_declared;
use crate::quantity::{Quantity, count_taken, decreased, increased, is_past_room};
use mdcc_option::{Cluster, Item, Schema};

// What they take from an attribute.
fn decreases_at(schema: &Schema, base: &Item, load: &Load, attribute: u8) -> Quantity
    requires { IsBoundedLoad load.now }
    ensures { result ≡ decreases_at schema.now base.now load.now attribute }
{
    let value = value_at(base, attribute);
    let bounds = bounds_at(schema, attribute);
    decreased(attribute, value, bounds.0, 0, &load.down)
}

// What they add to it.
fn increases_at(schema: &Schema, base: &Item, load: &Load, attribute: u8) -> Quantity
    requires { IsBoundedLoad load.now }
    ensures { result ≡ increases_at schema.now base.now load.now attribute }
{
    let value = value_at(base, attribute);
    let bounds = bounds_at(schema, attribute);
    increased(attribute, value, bounds.1, 0, &load.up)
}

// Whether the decreases of each attribute are within its room.
fn are_decreases_within(schema: &Schema, base: &Item, load: &Load) -> bool
    requires { IsBoundedLoad load.now }
    ensures { result ≡ list_all (λ q. not (is_past_room q)) (map (decreases_at schema.now base.now load.now) (range_with_len 1 (length schema.now))) }
{
    for place in 0..schema.bounds().len() {
        if is_past_room(&decreases_at(schema, base, load, place as u8 + 1)) {
            return false;
        }
    }
    true
}

// Whether the increases of each attribute are within its room.
fn are_increases_within(schema: &Schema, base: &Item, load: &Load) -> bool
    requires { IsBoundedLoad load.now }
    ensures { result ≡ list_all (λ q. not (is_past_room q)) (map (increases_at schema.now base.now load.now) (range_with_len 1 (length schema.now))) }
{
    for place in 0..schema.bounds().len() {
        if is_past_room(&increases_at(schema, base, load, place as u8 + 1)) {
            return false;
        }
    }
    true
}

// Whether live adds on an item are within the room at each quantity; without an item there is none.
fn are_taken_within(cluster: &Cluster, base: Option<&Item>, load: &Load) -> bool
    requires { IsBoundedLoad load.now }
    ensures { result ≡ are_within_room cluster.now (option_copied base.entry) load.now }
{
    match base {
        Some(base) => {
            !is_past_room(&count_taken(load))
                && are_decreases_within(&cluster.schema, base, load)
                && are_increases_within(&cluster.schema, base, load)
        }
        None => false,
    }
}

/// Whether live adds on an item are together within the room at each quantity; without an item there
/// is none. It is the same for any load that a store answers this one for.
#[tactic(auto, using(crate::proofs::WithinRoom::capped_rooms))]
pub fn are_within_room(cluster: &Cluster, base: Option<&Item>, load: &Load) -> bool
    requires { IsBoundedLoad load.now }
    ensures value { result ≡ are_within_room cluster.now (option_copied base.entry) load.now }
    ensures whole { (whole : ALoad) → load.now ≡ capped whole → result ≡ are_within_room cluster.now (option_copied base.entry) whole }
{
    are_declared(cluster, base);
    are_taken_within(cluster, base, load)
}
