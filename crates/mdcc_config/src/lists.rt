//! Members that are lists.
ghost use Rattle.std.specs.Prelude.{◌≡◌, []};
ghost use Rattle.serde_json.specs.View.{view, items_view};
ghost use Rattle.mdcc_base.specs.Unless.{GivesUnless};
ghost use Rattle.mdcc_config.specs.declared.faults.MemberName.TheVariants.{Bounds, Hosts};
ghost use Rattle.mdcc_config.specs.Readings.{pair, host};
ghost use Rattle.mdcc_config.specs.Configuration.{is_config_memory, each_item, each_pair};

use crate::values::{host, pair};
use crate::{ConfigFault, MemberName};
use mdcc_base::HeapList;
use serde_json::Value;
use std::alloc::Global;

/// The pairs that the entries are.
pub(crate) fn pairs_of(
    alloc: Global,
    values: &[Value],
) -> Result<HeapList<Option<(i64, i64)>>, ConfigFault>
    ensures { GivesUnless is_config_memory result (each_item pair Bounds [] (items_view values.now)) }
{
    let mut pairs = HeapList::new(alloc);
    for value in values {
        pairs.push(pair(value).ok_or(ConfigFault::Kind(MemberName::Bounds))?)?;
    }
    Ok(pairs)
}

/// The hosts that the entries are.
pub(crate) fn hosts_of(
    alloc: Global,
    values: &[Value],
) -> Result<HeapList<Option<[u8; 4]>>, ConfigFault>
    ensures { GivesUnless is_config_memory result (each_item host Hosts [] (items_view values.now)) }
{
    let mut hosts = HeapList::new(alloc);
    for value in values {
        hosts.push(host(value).ok_or(ConfigFault::Kind(MemberName::Hosts))?)?;
    }
    Ok(hosts)
}

/// The bounds, where each is in its range.
pub(crate) fn bounds_of(
    alloc: Global,
    pairs: &[Option<(i64, i64)>],
) -> Result<HeapList<(i64, i64)>, ConfigFault>
    ensures { GivesUnless is_config_memory result (each_pair [] pairs.now) }
{
    let mut bounds = HeapList::new(alloc);
    for pair in pairs {
        bounds.push(pair.ok_or(ConfigFault::Range(MemberName::Bounds))?)?;
    }
    Ok(bounds)
}
