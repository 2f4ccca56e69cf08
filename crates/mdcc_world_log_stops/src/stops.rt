//! The calls of a checkpoint, up to one that stops.
ghost use Rattle.std.specs.Prelude.{◌≡◌, ◌⊎◌, ◌≤◌, ◌<◌, ◌+◌, ◌-◌, ◌^◌, ◌∷◌, [], List, ℕ, length, IsTrue, OnOk, IsErrOf};
ghost use Rattle.mdcc_base.specs.Causes.{HasCause};
ghost use Rattle.mdcc_disks.specs.Disks.{Only, KeepsOthers, LeavesOnly, Within};
ghost use Rattle.mdcc_disks.specs.Disks.DiskCall.{Write, Sync};
ghost use Rattle.mdcc_disks.specs.Memory.{at_place, disk_of, left_since_of, may_leave_of, moment_of, standing};
ghost use Rattle.mdcc_log_file.specs.Calls.{with_calls};
ghost use Rattle.mdcc_log_file.specs.Log.{log_limit, payload_limit};
ghost use Rattle.mdcc_log_file.specs.Area.{AreaLog, payloads_of, spare_of};
ghost use Rattle.mdcc_log.specs.AtRest.{IsAtRest};
ghost use Rattle.mdcc_log_file.specs.Both.{KeepsBut, IsOnlyRead, RoseAtOne};
ghost use Rattle.mdcc_log.specs.Checkpoint.{MayBegin, MayOpen, copy_of};
ghost use Rattle.mdcc_log_file.specs.Copying.{IsShut};
ghost use Rattle.mdcc_log.specs.Crash.{IsIdle, ReadsAsEither, payloads_by};
ghost use Rattle.mdcc_log.specs.Frames.{IsInUse, IsSettled, IsSpare, appended, other_of, place_of};
ghost use Rattle.mdcc_log.specs.Room.{IsCopyFull};
ghost use Rattle.mdcc_world_log_stops.specs.Stops.{IsStoppedCopy, StoppedIsRead, StoppedIsRoomy, opening_copy, stopped_calls};

use mdcc_base::Failed;
use mdcc_disks::{Disks, MemoryDisks};
use mdcc_log::{Frames, LogFault, Spare};
use mdcc_log_file::copying::{shut_area, write_shut};

/// After a crash in a checkpoint the copy is read exactly where it counts as made, and else the log that was copied.
pub fn stopped_is_read()
    ensures { StoppedIsRead }
{}

/// A log that takes no more than one of version 1, with generations left, stays so where a checkpoint stops.
pub fn stopped_is_roomy()
    ensures { StoppedIsRoomy }
{}

// Makes the first three calls of a checkpoint, up to the one that stops. What that one writes is written, and a sync that stops
// makes nothing durable, so it is not made.
fn shut_until<D: Disks>(disks: &mut D, place: u8, spare: Spare, call: u8) -> Result<(), Failed>
    requires spare { IsTrue (D.disk disks.old place).told → spare ≡ spare_of (D.disk disks.old place).bytes }
    requires durable { IsTrue (D.disk disks.old place).told
        → Only (D.disk disks.old place).bytes (D.may_leave disks.old place) }
    ensures any_moment { IsTrue (D.disk disks.old place).told
        → LeavesOnly D.moment D.left_since disks.old disks.new place (MayBegin (D.disk disks.old place).bytes) }
    ensures others { KeepsOthers D.disk D.may_leave D.moment D.left_since disks.old disks.new place }
    ensures cause { HasCause (D.disk disks.old place).faults (D.disk disks.new place).faults result }
    ensures all_calls { (generation : ℕ) (records : List (List ℕ)) → call < 4 → OnOk result ((D.disk disks.new place).calls
        ≡ with_calls (stopped_calls call spare generation records) (D.disk disks.old place).calls) }
{
    if call < 3 {
        return write_shut(disks, place, spare);
    }
    shut_area(disks, place, spare)?;
    disks.cut(place, 9)
}

// Makes the fifth call and the sixth: the copy is durable, and its area gate opened, which is not durable yet.
fn open_copy(disks: &mut MemoryDisks, place: u8) -> Result<(), Failed>
    requires long { IsTrue (disk_of disks.old place).told → 9 ≤ length (disk_of disks.old place).bytes }
    requires shut { IsTrue (disk_of disks.old place).told → Within IsShut (may_leave_of disks.old place) }
    ensures opened { (generation : ℕ) (records : List (List ℕ)) → (disk_of disks.old place).bytes ≡ copy_of 0 generation records
        → OnOk result (standing (at_place disks.new place) ≡ opening_copy generation records) }
    ensures any_moment { IsTrue (disk_of disks.old place).told
        → LeavesOnly moment_of left_since_of disks.old disks.new place (MayOpen (disk_of disks.old place).bytes) }
    ensures others { KeepsOthers disk_of may_leave_of moment_of left_since_of disks.old disks.new place }
    ensures cause { HasCause (disk_of disks.old place).faults (disk_of disks.new place).faults result }
    ensures all_calls { OnOk result ((disk_of disks.new place).calls
        ≡ with_calls (Sync ∷ Write 8 (1 ∷ []) ∷ []) (disk_of disks.old place).calls) }
{
    disks.sync(place)?;
    disks.write_at(place, 8, &[1])
}

// Makes the calls from the fourth on, up to the one that stops.
fn fill_until(frames: &mut Frames, disks: &mut MemoryDisks, call: u8) -> Result<(), LogFault>
    requires settled { let place = place_of frames.old.centre frames.old.area in IsTrue (disk_of disks.old place).told
        → IsSettled frames.old (disk_of disks.old place).bytes (may_leave_of disks.old place) }
    requires spare { let place = place_of frames.old.centre (other_of frames.old.area) in IsTrue (disk_of disks.old place).told
        → IsSpare frames.old (disk_of disks.old place).bytes (may_leave_of disks.old place) }

    // The copy counts only where its area gate was written, and is kept.
    ensures stopped { let place = place_of frames.old.centre frames.old.area in let other = place_of frames.old.centre (other_of frames.old.area) in
        (log : AreaLog) → IsTrue (disk_of disks.old place).told → IsTrue (disk_of disks.old other).told
        → IsInUse frames.old log (disk_of disks.old place).bytes (may_leave_of disks.old place)
        → OnOk result (IsStoppedCopy call log (standing (at_place disks.new other))) }
    ensures all_calls { let place = place_of frames.old.centre frames.old.area in let other = place_of frames.old.centre (other_of frames.old.area) in
        (log : AreaLog) → 4 ≤ call → IsTrue (disk_of disks.old place).told
        → IsInUse frames.old log (disk_of disks.old place).bytes (may_leave_of disks.old place)
        → OnOk result ((disk_of disks.new other).calls
        ≡ with_calls (stopped_calls call frames.old.spare (frames.old.generation + 1) (payloads_of log)) (disk_of disks.old other).calls) }
    ensures keeps { frames.new ≡ frames.old }

    // The area in use stands, and opening gives all payloads after a crash at any moment of it.
    ensures reads { let place = place_of frames.old.centre frames.old.area in
        IsOnlyRead disk_of may_leave_of moment_of left_since_of disks.old disks.new place }
    ensures any_moment_other { let place = place_of frames.old.centre frames.old.area in let other = place_of frames.old.centre (other_of frames.old.area) in
        (log : AreaLog) → IsTrue (disk_of disks.old place).told → IsTrue (disk_of disks.old other).told
        → IsInUse frames.old log (disk_of disks.old place).bytes (may_leave_of disks.old place)
        → LeavesOnly moment_of left_since_of disks.old disks.new other (IsIdle log) }
    ensures others { KeepsBut disk_of may_leave_of moment_of left_since_of disks.old disks.new
        (place_of frames.old.centre frames.old.area) (place_of frames.old.centre (other_of frames.old.area)) }

    ensures disk_fault { let place = place_of frames.old.centre frames.old.area in let other = place_of frames.old.centre (other_of frames.old.area) in
        IsErrOf result LogFault.DiskFault
        → RoseAtOne (disk_of disks.old place) (disk_of disks.new place) (disk_of disks.old other) (disk_of disks.new other) }
    ensures full { IsErrOf result LogFault.LogFull → ((log_limit < frames.old.body + 26) ⊎ (frames.old.generation ≡ 2 ^ 64 - 1)) }
    ensures a_log { (n : ℕ) → IsErrOf result (LogFault.NotALog n) → IsTrue (disk_of disks.old (place_of frames.old.centre frames.old.area)).told → ⊥ }
    ensures memory { IsErrOf result LogFault.Memory → ⊥ }
{
    let other = frames.spare_place();
    frames.lay_copy(disks)?;
    if call < 6 {
        return Ok(());
    }
    open_copy(disks, other)?;
    Ok(())
}

/// Makes the calls of a checkpoint up to the one of this number, 1 to 7, which stops: what it writes is written, and where it is
/// a sync nothing becomes durable. Then the centre has to crash, and the log has to be opened again. After `LogFull` all is as
/// before.
pub fn checkpoint_until(
    frames: &mut Frames,
    disks: &mut MemoryDisks,
    call: u8,
) -> Result<(), LogFault>
    requires settled { let place = place_of frames.old.centre frames.old.area in IsTrue (disk_of disks.old place).told
        → IsSettled frames.old (disk_of disks.old place).bytes (may_leave_of disks.old place) }
    requires spare { let place = place_of frames.old.centre (other_of frames.old.area) in IsTrue (disk_of disks.old place).told
        → IsSpare frames.old (disk_of disks.old place).bytes (may_leave_of disks.old place) }

    // The copy counts only where its area gate was written, and is kept.
    ensures stopped { let place = place_of frames.old.centre frames.old.area in let other = place_of frames.old.centre (other_of frames.old.area) in
        (log : AreaLog) → IsTrue (disk_of disks.old place).told → IsTrue (disk_of disks.old other).told
        → IsInUse frames.old log (disk_of disks.old place).bytes (may_leave_of disks.old place)
        → OnOk result (IsStoppedCopy call log (standing (at_place disks.new other))) }
    ensures all_calls { let place = place_of frames.old.centre frames.old.area in let other = place_of frames.old.centre (other_of frames.old.area) in
        (log : AreaLog) → IsTrue (disk_of disks.old place).told
        → IsInUse frames.old log (disk_of disks.old place).bytes (may_leave_of disks.old place)
        → OnOk result ((disk_of disks.new other).calls
        ≡ with_calls (stopped_calls call frames.old.spare (frames.old.generation + 1) (payloads_of log)) (disk_of disks.old other).calls) }
    ensures keeps { frames.new ≡ frames.old }

    // The area in use stands, and opening gives all payloads after a crash at any moment of it.
    ensures reads { let place = place_of frames.old.centre frames.old.area in
        IsOnlyRead disk_of may_leave_of moment_of left_since_of disks.old disks.new place }
    ensures any_moment_other { let place = place_of frames.old.centre frames.old.area in let other = place_of frames.old.centre (other_of frames.old.area) in
        (log : AreaLog) → IsTrue (disk_of disks.old place).told → IsTrue (disk_of disks.old other).told
        → IsInUse frames.old log (disk_of disks.old place).bytes (may_leave_of disks.old place)
        → LeavesOnly moment_of left_since_of disks.old disks.new other (IsIdle log) }
    ensures others { KeepsBut disk_of may_leave_of moment_of left_since_of disks.old disks.new
        (place_of frames.old.centre frames.old.area) (place_of frames.old.centre (other_of frames.old.area)) }

    ensures disk_fault { let place = place_of frames.old.centre frames.old.area in let other = place_of frames.old.centre (other_of frames.old.area) in
        IsErrOf result LogFault.DiskFault
        → RoseAtOne (disk_of disks.old place) (disk_of disks.new place) (disk_of disks.old other) (disk_of disks.new other) }
    ensures full { IsErrOf result LogFault.LogFull → ((log_limit < frames.old.body + 26) ⊎ (frames.old.generation ≡ 2 ^ 64 - 1)) }
    ensures a_log { (n : ℕ) → IsErrOf result (LogFault.NotALog n) → IsTrue (disk_of disks.old (place_of frames.old.centre frames.old.area)).told → ⊥ }
    ensures memory { IsErrOf result LogFault.Memory → ⊥ }
{
    if !frames.has_copy_room() {
        return Err(LogFault::LogFull);
    }
    if call < 4 {
        shut_until(disks, frames.spare_place(), frames.spare(), call)?;
        return Ok(());
    }
    fill_until(frames, disks, call)
}

/// Adds a payload, and makes the calls of the checkpoint that is due then up to the one of this number, 1 to 7, which stops as in
/// `checkpoint_until`. Then the centre has to crash, and the log has to be opened again.
pub fn append_due_until(
    frames: &mut Frames,
    disks: &mut MemoryDisks,
    payload: &[u8],
    call: u8,
) -> Result<(), LogFault>
    requires due { frames.old.every ≤ frames.old.tail + 1 }
    requires short { length payload.now ≤ payload_limit }
    requires settled { let place = place_of frames.old.centre frames.old.area in IsTrue (disk_of disks.old place).told
        → IsSettled frames.old (disk_of disks.old place).bytes (may_leave_of disks.old place) }
    requires spare { let place = place_of frames.old.centre (other_of frames.old.area) in IsTrue (disk_of disks.old place).told
        → IsSpare frames.old (disk_of disks.old place).bytes (may_leave_of disks.old place) }

    // The payload is durable in the area in use, and the copy counts only where its area gate was written, and is kept.
    ensures appended { let place = place_of frames.old.centre frames.old.area in
        (log : AreaLog) → IsTrue (disk_of disks.old place).told
        → IsInUse frames.old log (disk_of disks.old place).bytes (may_leave_of disks.old place)
        → OnOk result (IsInUse frames.new (appended log payload.now) (disk_of disks.new place).bytes (may_leave_of disks.new place)) }
    ensures stopped { let place = place_of frames.old.centre frames.old.area in let other = place_of frames.old.centre (other_of frames.old.area) in
        (log : AreaLog) → IsTrue (disk_of disks.old place).told → IsTrue (disk_of disks.old other).told
        → IsInUse frames.old log (disk_of disks.old place).bytes (may_leave_of disks.old place)
        → OnOk result (IsStoppedCopy call (appended log payload.now) (standing (at_place disks.new other))) }
    ensures all_calls { let place = place_of frames.old.centre frames.old.area in let other = place_of frames.old.centre (other_of frames.old.area) in
        (log : AreaLog) → IsTrue (disk_of disks.old place).told
        → IsInUse frames.old log (disk_of disks.old place).bytes (may_leave_of disks.old place)
        → OnOk result ((disk_of disks.new other).calls
        ≡ with_calls (stopped_calls call frames.old.spare (frames.old.generation + 1) (payloads_of (appended log payload.now))) (disk_of disks.old other).calls) }
    ensures keeps { (frames.new.centre ≡ frames.old.centre) × ((frames.new.every ≡ frames.old.every) × (frames.new.area ≡ frames.old.area)) }

    // Opening after a crash at any moment of it gives the payloads from before it, or those and the new one.
    ensures any_moment_reads { let place = place_of frames.old.centre frames.old.area in let other = place_of frames.old.centre (other_of frames.old.area) in
        (all : List (List ℕ)) (current spare : List ℕ) → IsTrue (disk_of disks.old place).told → IsTrue (disk_of disks.old other).told
        → IsAtRest disk_of may_leave_of disks.old frames.old all
        → left_since_of disks.new place (moment_of disks.old) current → left_since_of disks.new other (moment_of disks.old) spare
        → ReadsAsEither all payload.now (payloads_by frames.old.area current spare) }
    ensures others { KeepsBut disk_of may_leave_of moment_of left_since_of disks.old disks.new
        (place_of frames.old.centre frames.old.area) (place_of frames.old.centre (other_of frames.old.area)) }

    ensures disk_fault { let place = place_of frames.old.centre frames.old.area in let other = place_of frames.old.centre (other_of frames.old.area) in
        IsErrOf result LogFault.DiskFault
        → RoseAtOne (disk_of disks.old place) (disk_of disks.new place) (disk_of disks.old other) (disk_of disks.new other) }
    ensures full { IsErrOf result LogFault.LogFull
        → (log_limit < frames.old.size + (length payload.now + 5)) ⊎ IsCopyFull frames.old (length payload.now) }
    ensures a_log { (n : ℕ) → IsErrOf result (LogFault.NotALog n) → IsTrue (disk_of disks.old (place_of frames.old.centre frames.old.area)).told → ⊥ }
    ensures memory { IsErrOf result LogFault.Memory → ⊥ }
{
    frames.append(disks, payload)?;
    checkpoint_until(frames, disks, call)
}
