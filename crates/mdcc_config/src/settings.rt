//! The members of a configuration, each in its range.
ghost use Rattle.std.specs.Prelude.{◌≡◌, ◌≤◌, IfOk, ok_or};
ghost use Rattle.mdcc_base.specs.Unless.{GivesUnless};
ghost use Rattle.mdcc_config.specs.declared.faults.ConfigFault.TheVariants.{Range};
ghost use Rattle.mdcc_config.specs.declared.faults.MemberName.TheVariants.{Port, Cells, Wait, Checkpoint};
ghost use Rattle.mdcc_config.specs.Configuration.{is_config_memory, number_in, settings_of};
ghost use Rattle.mdcc_config.specs.IsConfig.{AreInRange};

use crate::fields::Fields;
use crate::lists::bounds_of;
use crate::{ConfigFault, MemberName};
use mdcc_base::HeapList;
use mdcc_option::FastLimit;
use std::alloc::Global;

/// What the members say; a host that is no address is none.
#[derive(Drop)]
pub struct Settings {
    pub centres: u8,
    pub classic: u8,
    pub fast: u8,
    pub gamma: u64,
    pub bounds: HeapList<(i64, i64)>,
    pub hosts: HeapList<Option<[u8; 4]>>,
    pub port: u16,
    pub cells: u32,
    pub limit: FastLimit,
    pub wait: u16,
    pub checkpoint: u32,
}

// The number of a member, where it is from `low` to `high`.
fn number_in(low: u64, high: u64, name: MemberName, number: Option<u64>) -> Result<u64, ConfigFault>
    ensures value { result ≡ number_in low high name number }
    ensures within { IfOk result (λ n. (low ≤ n) × (n ≤ high)) }
{
    match number {
        Some(number) if low <= number && number <= high => Ok(number),
        _ => Err(ConfigFault::Range(name)),
    }
}

// A number of one byte.
fn byte_in(name: MemberName, number: Option<u64>) -> Result<u8, ConfigFault>
    ensures { result ≡ number_in 0 255 name number }
{
    Ok(number_in(0, 255, name, number)? as u8)
}

// A port that leaves room for those of the centres.
fn port_in(number: Option<u64>) -> Result<u16, ConfigFault>
    ensures value { result ≡ number_in 1 65000 Port number }
    ensures within { IfOk result (λ port. (1 ≤ port) × (port ≤ 65000)) }
{
    Ok(number_in(1, 65_000, MemberName::Port, number)? as u16)
}

// How many cells a node has.
fn cells_in(number: Option<u64>) -> Result<u32, ConfigFault>
    ensures value { result ≡ number_in 1 4194304 Cells number }
    ensures within { IfOk result (λ cells. (1 ≤ cells) × (cells ≤ 4194304)) }
{
    Ok(number_in(1, 4_194_304, MemberName::Cells, number)? as u32)
}

// How many milliseconds a receive waits at most.
fn wait_in(number: Option<u64>) -> Result<u16, ConfigFault>
    ensures value { result ≡ number_in 1 60000 Wait number }
    ensures within { IfOk result (λ wait. (1 ≤ wait) × (wait ≤ 60000)) }
{
    Ok(number_in(1, 60_000, MemberName::Wait, number)? as u16)
}

// After how many frames a checkpoint of a log is due.
fn checkpoint_in(number: Option<u64>) -> Result<u32, ConfigFault>
    ensures value { result ≡ number_in 1 4294967295 Checkpoint number }
    ensures within { IfOk result (λ checkpoint. (1 ≤ checkpoint) × (checkpoint ≤ 4294967295)) }
{
    Ok(number_in(1, 4_294_967_295, MemberName::Checkpoint, number)? as u32)
}

/// The members, each in its range.
pub(crate) fn settings_of(alloc: Global, fields: Fields) -> Result<Settings, ConfigFault>
    ensures value { GivesUnless is_config_memory result (settings_of fields) }
    ensures ranges { IfOk result AreInRange }
{
    let Fields {
        centres,
        classic,
        fast,
        gamma,
        bounds,
        hosts,
        port,
        cells,
        limit,
        wait,
        checkpoint,
    } = fields;
    let centres = byte_in(MemberName::Centres, centres)?;
    let classic = byte_in(MemberName::Classic, classic)?;
    let fast = byte_in(MemberName::Fast, fast)?;
    let gamma = number_in(0, 1000, MemberName::Gamma, gamma)?;
    let bounds = bounds_of(alloc, bounds.as_slice())?;
    let port = port_in(port)?;
    let cells = cells_in(cells)?;
    let limit = limit.ok_or(ConfigFault::Range(MemberName::Limit))?;
    let wait = wait_in(wait)?;
    let checkpoint = checkpoint_in(checkpoint)?;
    Ok(Settings {
        centres,
        classic,
        fast,
        gamma,
        bounds,
        hosts,
        port,
        cells,
        limit,
        wait,
        checkpoint,
    })
}
