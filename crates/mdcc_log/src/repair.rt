//! What a crash left of an area is settled.
ghost use Rattle.std.specs.Prelude.{◌≡◌, ◌<◌, length, IsTrue, OnOk};
ghost use Rattle.mdcc_base.specs.Causes.{HasCause};
ghost use Rattle.mdcc_disks.specs.Disks.{Only, KeepsOthers, LeavesOnly};
ghost use Rattle.mdcc_log_file.specs.Calls.{MadeSome, with_calls};
ghost use Rattle.mdcc_log.specs.Frames.{spare_calls};
ghost use Rattle.mdcc_log.specs.Repair.{settled, settle_at, MaySettle, MayClose, with_closed_gate};

use mdcc_base::Failed;
use mdcc_disks::Disks;
use mdcc_log_file::area::is_torn;
use mdcc_log_file::repair::repair;
use mdcc_log_file::steps::{begin, write_through};

/// Begins a log in an area of at most nine bytes; of a longer one closes the last gate and cuts off what stands behind it.
pub fn settle<D: Disks>(disks: &mut D, place: u8, bytes: &[u8], gate: usize) -> Result<(), Failed>
    requires gate { 9 < length bytes.now → gate < length bytes.now }
    requires file { IsTrue (D.disk disks.old place).told → bytes.now ≡ (D.disk disks.old place).bytes }
    requires durable { IsTrue (D.disk disks.old place).told
        → Only (D.disk disks.old place).bytes (D.may_leave disks.old place) }
    ensures settled { IsTrue (D.disk disks.old place).told
        → OnOk result ((D.disk disks.new place).bytes ≡ settled gate bytes.now) }
    ensures durable { IsTrue (D.disk disks.old place).told
        → OnOk result (Only (D.disk disks.new place).bytes (D.may_leave disks.new place)) }
    ensures any_moment { IsTrue (D.disk disks.old place).told
        → LeavesOnly D.moment D.left_since disks.old disks.new place (MaySettle D.tears gate bytes.now) }
    ensures others { KeepsOthers D.disk D.may_leave D.moment D.left_since disks.old disks.new place }
    ensures cause { HasCause (D.disk disks.old place).faults (D.disk disks.new place).faults result }
    ensures calls { MadeSome (settle_at gate bytes.now) (D.disk disks.old place).calls (D.disk disks.new place).calls }
    ensures all_calls { OnOk result ((D.disk disks.new place).calls
        ≡ with_calls (settle_at gate bytes.now) (D.disk disks.old place).calls) }
{
    if bytes.len() <= 9 {
        begin(disks, place)
    } else {
        repair(disks, place, bytes, gate)
    }
}

/// Closes the area gate of an area that is not taken, where it is neither closed nor open.
pub fn close_spare<D: Disks>(disks: &mut D, place: u8, bytes: &[u8]) -> Result<(), Failed>
    requires file { IsTrue (D.disk disks.old place).told → bytes.now ≡ (D.disk disks.old place).bytes }
    requires durable { IsTrue (D.disk disks.old place).told
        → Only (D.disk disks.old place).bytes (D.may_leave disks.old place) }
    ensures closed { IsTrue (D.disk disks.old place).told
        → OnOk result ((D.disk disks.new place).bytes ≡ with_closed_gate bytes.now) }
    ensures durable { IsTrue (D.disk disks.old place).told
        → OnOk result (Only (D.disk disks.new place).bytes (D.may_leave disks.new place)) }
    ensures any_moment { IsTrue (D.disk disks.old place).told
        → LeavesOnly D.moment D.left_since disks.old disks.new place (MayClose D.tears bytes.now) }
    ensures others { KeepsOthers D.disk D.may_leave D.moment D.left_since disks.old disks.new place }
    ensures cause { HasCause (D.disk disks.old place).faults (D.disk disks.new place).faults result }
    ensures calls { MadeSome (spare_calls bytes.now) (D.disk disks.old place).calls (D.disk disks.new place).calls }
    ensures all_calls { OnOk result ((D.disk disks.new place).calls
        ≡ with_calls (spare_calls bytes.now) (D.disk disks.old place).calls) }
{
    if is_torn(bytes) {
        write_through(disks, place, 8, &[0])
    } else {
        Ok(())
    }
}
