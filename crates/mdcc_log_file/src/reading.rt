//! What stands in a file.
ghost use Rattle.std.specs.Prelude.{◌≡◌, ◌≤◌, ◌<◌, ◌+◌, ◌-◌, ◌^◌, ◌∷◌, ℕ, length, take, drop, IsTrue, IfOk, OnOk, IsErrOf};
ghost use Rattle.mdcc_base.specs.Causes.{Rose, HasCause};
ghost use Rattle.mdcc_disks.specs.Disks.{AddsCall, Only, Within, KeepsOthers, LeavesOnly};
ghost use Rattle.mdcc_disks.specs.Disks.DiskCall.{Length, Read, Sync};
ghost use Rattle.mdcc_log_file.specs.Calls.{ReadsAll, ReadsSome, read_calls};

use crate::LogFault;
use mdcc_base::Failed;
use mdcc_disks::Disks;
use std::alloc::Global;

/// Reads some bytes behind those that were read from an offset on, and answers how many.
pub fn read_part<D: Disks>(
    disks: &mut D,
    place: u8,
    offset: u64,
    into: &mut [u8],
    done: usize,
) -> Result<usize, Failed>
    requires more { done < length into.old }
    requires fits { offset + length into.old < 2 ^ 64 }
    requires within { IsTrue (D.disk disks.old place).told → offset + length into.old ≤ length (D.disk disks.old place).bytes }
    requires filled { IsTrue (D.disk disks.old place).told
        → take done into.old ≡ take done (drop offset (D.disk disks.old place).bytes) }
    ensures filled { IsTrue (D.disk disks.old place).told
        → IfOk result (λ n. take (done + n) into.new ≡ take (done + n) (drop offset (D.disk disks.old place).bytes)) }
    ensures some { IfOk result (λ n. 0 < n) }
    ensures bound { IfOk result (λ n. done + n ≤ length into.new) }
    ensures bytes { (D.disk disks.new place).bytes ≡ (D.disk disks.old place).bytes }
    ensures crash { Within (D.may_leave disks.old place) (D.may_leave disks.new place) }
    ensures any_moment { LeavesOnly D.moment D.left_since disks.old disks.new place (D.may_leave disks.old place) }
    ensures others { KeepsOthers D.disk D.may_leave D.moment D.left_since disks.old disks.new place }
    ensures cause { HasCause (D.disk disks.old place).faults (D.disk disks.new place).faults result }
    ensures call { AddsCall (Read (offset + done) (length into.old - done))
        (D.disk disks.old place).calls (D.disk disks.new place).calls result }
{
    let count = disks.read(place, offset + done as u64, &mut into[done..])?;
    Ok(count)
}

/// Fills the buffer from an offset on.
pub fn read_at<D: Disks>(
    disks: &mut D,
    place: u8,
    offset: u64,
    into: &mut [u8],
) -> Result<(), Failed>
    requires fits { offset + length into.old < 2 ^ 64 }
    requires within { IsTrue (D.disk disks.old place).told → offset + length into.old ≤ length (D.disk disks.old place).bytes }
    ensures filled { IsTrue (D.disk disks.old place).told
        → OnOk result (into.new ≡ take (length into.new) (drop offset (D.disk disks.old place).bytes)) }
    ensures bytes { (D.disk disks.new place).bytes ≡ (D.disk disks.old place).bytes }
    ensures crash { Within (D.may_leave disks.old place) (D.may_leave disks.new place) }
    ensures any_moment { LeavesOnly D.moment D.left_since disks.old disks.new place (D.may_leave disks.old place) }
    ensures others { KeepsOthers D.disk D.may_leave D.moment D.left_since disks.old disks.new place }
    ensures cause { HasCause (D.disk disks.old place).faults (D.disk disks.new place).faults result }
    ensures calls { ReadsSome (length into.old) (read_calls (offset + length into.old) offset)
        (D.disk disks.old place).calls (D.disk disks.new place).calls }
    ensures all_calls { OnOk result (ReadsAll (length into.old) (read_calls (offset + length into.old) offset)
        (D.disk disks.old place).calls (D.disk disks.new place).calls) }
{
    let mut done = 0usize;
    for turn in 0..into.len() {
        if done == into.len() {
            break;
        }
        done += read_part(disks, place, offset, into, done)?;
    }
    Ok(())
}

/// The whole file.
pub fn read_file<D: Disks>(alloc: Global, disks: &mut D, place: u8) -> Result<Vec<u8>, LogFault>
    ensures file { IsTrue (D.disk disks.old place).told
        → IfOk result (λ v. v.items ≡ (D.disk disks.old place).bytes) }
    ensures bytes { (D.disk disks.new place).bytes ≡ (D.disk disks.old place).bytes }
    ensures crash { Within (D.may_leave disks.old place) (D.may_leave disks.new place) }
    ensures any_moment { LeavesOnly D.moment D.left_since disks.old disks.new place (D.may_leave disks.old place) }
    ensures others { KeepsOthers D.disk D.may_leave D.moment D.left_since disks.old disks.new place }
    ensures later { (D.disk disks.old place).faults ≤ (D.disk disks.new place).faults }
    ensures disk_fault { IsErrOf result LogFault.DiskFault
        → Rose (D.disk disks.old place).faults (D.disk disks.new place).faults }
    ensures a_log { (n : ℕ) → IsErrOf result (LogFault.NotALog n) → ⊥ }
    ensures not_full { IsErrOf result LogFault.LogFull → ⊥ }
    ensures calls { IsTrue (D.disk disks.old place).told
        → ReadsSome (length (D.disk disks.old place).bytes)
        (λ counts. Length ∷ read_calls (length (D.disk disks.old place).bytes) 0 counts)
        (D.disk disks.old place).calls (D.disk disks.new place).calls }
    ensures all_calls { IsTrue (D.disk disks.old place).told
        → OnOk result (ReadsAll (length (D.disk disks.old place).bytes)
        (λ counts. Length ∷ read_calls (length (D.disk disks.old place).bytes) 0 counts)
        (D.disk disks.old place).calls (D.disk disks.new place).calls) }
{
    let size = disks.length(place)?;
    let mut bytes = Vec::from_elem(alloc, 0u8, size as usize)?;
    read_at(disks, place, 0, &mut bytes)?;
    Ok(bytes)
}

/// What stands in the file, made durable.
pub fn load<D: Disks>(alloc: Global, disks: &mut D, place: u8) -> Result<Vec<u8>, LogFault>
    ensures file { IsTrue (D.disk disks.old place).told
        → IfOk result (λ v. v.items ≡ (D.disk disks.old place).bytes) }
    ensures durable { IsTrue (D.disk disks.old place).told
        → OnOk result (Only (D.disk disks.new place).bytes (D.may_leave disks.new place)) }
    ensures bytes { (D.disk disks.new place).bytes ≡ (D.disk disks.old place).bytes }
    ensures crash { Within (D.may_leave disks.old place) (D.may_leave disks.new place) }
    ensures any_moment { LeavesOnly D.moment D.left_since disks.old disks.new place (D.may_leave disks.old place) }
    ensures others { KeepsOthers D.disk D.may_leave D.moment D.left_since disks.old disks.new place }
    ensures later { (D.disk disks.old place).faults ≤ (D.disk disks.new place).faults }
    ensures disk_fault { IsErrOf result LogFault.DiskFault
        → Rose (D.disk disks.old place).faults (D.disk disks.new place).faults }
    ensures a_log { (n : ℕ) → IsErrOf result (LogFault.NotALog n) → ⊥ }
    ensures not_full { IsErrOf result LogFault.LogFull → ⊥ }
    ensures calls { IsTrue (D.disk disks.old place).told
        → ReadsSome (length (D.disk disks.old place).bytes)
        (λ counts. Sync ∷ Length ∷ read_calls (length (D.disk disks.old place).bytes) 0 counts)
        (D.disk disks.old place).calls (D.disk disks.new place).calls }
    ensures all_calls { IsTrue (D.disk disks.old place).told
        → OnOk result (ReadsAll (length (D.disk disks.old place).bytes)
        (λ counts. Sync ∷ Length ∷ read_calls (length (D.disk disks.old place).bytes) 0 counts)
        (D.disk disks.old place).calls (D.disk disks.new place).calls) }
{
    disks.sync(place)?;
    read_file(alloc, disks, place)
}
