//! What declared types say of the numbers that fits are about.
ghost use Rattle.std.specs.Prelude.{All};
ghost use Rattle.std.specs.Option.{option_copied};
ghost use Rattle.mdcc_base.specs.AreQuorums.{AreQuorums};
ghost use Rattle.mdcc_option.specs.Bounds.{IsSchema};
ghost use Rattle.mdcc_escrow.specs.Capped.{AreDeclared, HasShortValues, IsShort};

use mdcc_option::{Cluster, Item};

// A number of 64 bits.
fn is_short(value: i64)
    ensures { IsShort value }
{
    let _value = value;
}

// Each value of an item is one.
fn has_short_values(item: &Item)
    ensures { All IsShort item.now.values }
{
    for value in item.values.as_slice() {
        is_short(*value);
    }
}

// Each value of an item, where there is one.
fn base_has_short_values(base: Option<&Item>)
    ensures { HasShortValues (option_copied base.entry) }
{
    if let Some(item) = base {
        has_short_values(item);
    }
}

/// The quorums of a cluster meet, its schema has bounds, and an item's values have 64 bits.
pub(crate) fn are_declared(cluster: &Cluster, base: Option<&Item>)
    ensures { AreDeclared cluster.now (option_copied base.entry) }
{
    let _centres = cluster.quorums.centres();
    let _bounds = cluster.schema.bounds();
    base_has_short_values(base);
}
