//! What a crash left behind the frames of a file is settled.
ghost use Rattle.std.specs.Prelude.{◌≡◌, ◌<◌, ◌+◌, ◌∷◌, ◌++◌, [], length, take, drop, IsTrue, OnOk};
ghost use Rattle.mdcc_base.specs.Causes.{HasCause};
ghost use Rattle.mdcc_disks.specs.Disks.{Only, KeepsOthers, LeavesOnly};
ghost use Rattle.mdcc_log_file.specs.Crash.{MayRepair};
ghost use Rattle.mdcc_log_file.specs.Calls.{MadeSome, with_calls, close_calls, cut_calls};

use crate::steps::{cut_through, write_through};
use mdcc_base::Failed;
use mdcc_disks::Disks;

// Closes the last gate.
fn close_gate<D: Disks>(disks: &mut D, place: u8, bytes: &[u8], gate: usize) -> Result<(), Failed>
    requires gate { gate < length bytes.now }
    requires file { IsTrue (D.disk disks.old place).told → bytes.now ≡ (D.disk disks.old place).bytes }
    requires durable { IsTrue (D.disk disks.old place).told
        → Only (D.disk disks.old place).bytes (D.may_leave disks.old place) }
    ensures closed { IsTrue (D.disk disks.old place).told
        → OnOk result ((D.disk disks.new place).bytes ≡ take gate bytes.now ++ 0 ∷ drop (gate + 1) bytes.now) }
    ensures durable { IsTrue (D.disk disks.old place).told
        → OnOk result (Only (D.disk disks.new place).bytes (D.may_leave disks.new place)) }
    ensures any_moment { IsTrue (D.disk disks.old place).told
        → LeavesOnly D.moment D.left_since disks.old disks.new place (MayRepair D.tears gate bytes.now) }
    ensures others { KeepsOthers D.disk D.may_leave D.moment D.left_since disks.old disks.new place }
    ensures cause { HasCause (D.disk disks.old place).faults (D.disk disks.new place).faults result }
    ensures calls { MadeSome (close_calls gate bytes.now) (D.disk disks.old place).calls (D.disk disks.new place).calls }
    ensures all_calls { OnOk result ((D.disk disks.new place).calls
        ≡ with_calls (close_calls gate bytes.now) (D.disk disks.old place).calls) }
{
    if bytes[gate] == 0 {
        return Ok(());
    }
    write_through(disks, place, gate as u64, &[0])
}

// Cuts off what stands behind the last gate, which is closed.
fn cut_end<D: Disks>(disks: &mut D, place: u8, bytes: &[u8], gate: usize) -> Result<(), Failed>
    requires gate { gate < length bytes.now }
    requires file { IsTrue (D.disk disks.old place).told
        → (D.disk disks.old place).bytes ≡ take gate bytes.now ++ 0 ∷ drop (gate + 1) bytes.now }
    requires durable { IsTrue (D.disk disks.old place).told
        → Only (D.disk disks.old place).bytes (D.may_leave disks.old place) }
    ensures cut { IsTrue (D.disk disks.old place).told
        → OnOk result ((D.disk disks.new place).bytes ≡ take gate bytes.now ++ 0 ∷ []) }
    ensures durable { IsTrue (D.disk disks.old place).told
        → OnOk result (Only (D.disk disks.new place).bytes (D.may_leave disks.new place)) }
    ensures any_moment { IsTrue (D.disk disks.old place).told
        → LeavesOnly D.moment D.left_since disks.old disks.new place (MayRepair D.tears gate bytes.now) }
    ensures others { KeepsOthers D.disk D.may_leave D.moment D.left_since disks.old disks.new place }
    ensures cause { HasCause (D.disk disks.old place).faults (D.disk disks.new place).faults result }
    ensures calls { MadeSome (cut_calls gate bytes.now) (D.disk disks.old place).calls (D.disk disks.new place).calls }
    ensures all_calls { OnOk result ((D.disk disks.new place).calls
        ≡ with_calls (cut_calls gate bytes.now) (D.disk disks.old place).calls) }
{
    if bytes.len() == gate + 1 {
        return Ok(());
    }
    cut_through(disks, place, gate as u64 + 1)
}

/// Closes the last gate and cuts off what stands behind it. The gate comes first: behind a cut, a gate that is torn open
/// would stand for a frame that is not there.
pub fn repair<D: Disks>(disks: &mut D, place: u8, bytes: &[u8], gate: usize) -> Result<(), Failed>
    requires gate { gate < length bytes.now }
    requires file { IsTrue (D.disk disks.old place).told → bytes.now ≡ (D.disk disks.old place).bytes }
    requires durable { IsTrue (D.disk disks.old place).told
        → Only (D.disk disks.old place).bytes (D.may_leave disks.old place) }
    ensures repaired { IsTrue (D.disk disks.old place).told
        → OnOk result ((D.disk disks.new place).bytes ≡ take gate bytes.now ++ 0 ∷ []) }
    ensures durable { IsTrue (D.disk disks.old place).told
        → OnOk result (Only (D.disk disks.new place).bytes (D.may_leave disks.new place)) }
    ensures any_moment { IsTrue (D.disk disks.old place).told
        → LeavesOnly D.moment D.left_since disks.old disks.new place (MayRepair D.tears gate bytes.now) }
    ensures others { KeepsOthers D.disk D.may_leave D.moment D.left_since disks.old disks.new place }
    ensures cause { HasCause (D.disk disks.old place).faults (D.disk disks.new place).faults result }
    ensures calls { MadeSome (close_calls gate bytes.now ++ cut_calls gate bytes.now) (D.disk disks.old place).calls (D.disk disks.new place).calls }
    ensures all_calls { OnOk result ((D.disk disks.new place).calls
        ≡ with_calls (close_calls gate bytes.now ++ cut_calls gate bytes.now) (D.disk disks.old place).calls) }
{
    close_gate(disks, place, bytes, gate)?;
    cut_end(disks, place, bytes, gate)
}
