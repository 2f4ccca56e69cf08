//! Room for the device calls of a log.
ghost use Rattle.std.specs.Prelude.{◌≡◌, ◌≤◌};
ghost use Rattle.mdcc_world_logs.specs.Represents.{HoldSame};

use mdcc_base::{Centre, Memory};
use mdcc_disks::MemoryDisks;
use mdcc_log::Frames;

// More payloads than a log has.
const MANY: u64 = 1 << 30;

// The place of the area of this number of a centre.
fn place_of(centre: Centre, area: u8) -> u8
    requires { area ≤ 1 }
{
    centre.number() + 16 * area
}

// Lets the next so many calls at a place, with so many written bytes in all, find memory.
fn reserve(disks: &mut MemoryDisks, place: u8, calls: u64, bytes: u64) -> Result<(), Memory>
    ensures { HoldSame disks.old disks.new }
{
    disks.reserve(place, calls.min(u32::MAX as u64) as u32, bytes)
}

// Lets the calls of a checkpoint find memory that copies the payloads of a log with one more of so many bytes: each record is read by two
// calls at the current area, and written by one at the other.
fn reserve_copy(
    disks: &mut MemoryDisks,
    log: &Frames,
    centre: Centre,
    length: u64,
) -> Result<(), Memory>
    ensures { HoldSame disks.old disks.new }
{
    let area = log.area();
    let records = log.count().min(MANY) + 1;
    let bytes = log.body().saturating_add(length).saturating_add(64);
    reserve(disks, place_of(centre, area), 2 * records + 4, length)?;
    reserve(disks, place_of(centre, 1 - area), records + 12, bytes)
}

/// Lets the calls of an append of so many bytes find memory, and those of the checkpoint that is due with it.
pub(crate) fn reserve_append(
    disks: &mut MemoryDisks,
    log: &Frames,
    centre: Centre,
    length: u64,
) -> Result<(), Memory>
    ensures { HoldSame disks.old disks.new }
{
    let area = log.area();
    if log.is_due_next() {
        reserve_copy(disks, log, centre, length)?;
    }
    reserve(disks, place_of(centre, area), 4, length.saturating_add(6))
}

/// Lets the calls of a first start find memory.
pub(crate) fn reserve_first(disks: &mut MemoryDisks, centre: Centre) -> Result<(), Memory>
    ensures { HoldSame disks.old disks.new }
{
    reserve(disks, place_of(centre, 0), 16, 32)?;
    reserve(disks, place_of(centre, 1), 16, 32)
}

/// Lets the calls of a start find memory, and those of the checkpoint that may be due with its boot. This log was open before.
pub(crate) fn reserve_start(
    disks: &mut MemoryDisks,
    log: &Frames,
    centre: Centre,
) -> Result<(), Memory>
    ensures { HoldSame disks.old disks.new }
{
    reserve_copy(disks, log, centre, 4096)?;
    reserve_first(disks, centre)
}
