//! How a checkpoint is made.
ghost use Rattle.std.specs.Prelude.{◌≡◌, ◌≢◌, ◌≤◌, ◌<◌, ◌+◌, ◌-◌, ◌*◌, ◌∷◌, ◌++◌, [], ℕ, length, vec_capacity, IsTrue, IfOk, OnOk, IsErrOf};
ghost use Rattle.mdcc_base.specs.Causes.{HasCause};
ghost use Rattle.mdcc_disks.specs.Disks.{Within, Only, KeepsOthers, LeavesOnly};
ghost use Rattle.mdcc_disks.specs.Disks.DiskCall.{Write, Sync};
ghost use Rattle.mdcc_log_file.specs.Calls.{MadeSome, with_calls};
ghost use Rattle.mdcc_log_file.specs.Area.{AreaLog, payloads_of, counts_bytes, copy_body, records_bytes, spare_of, with_gate};
ghost use Rattle.mdcc_log.specs.Frames.{body_calls, laid_calls};
ghost use Rattle.mdcc_log_file.specs.Copying.{record_calls, IsShut};
ghost use Rattle.mdcc_log.specs.Checkpoint.{StandsAs, IsFilled, MayBegin, MayOpen, copy_of};
ghost use Rattle.mdcc_log_file.specs.Both.{KeepsBut, IsOnlyRead, StaysShut, RoseAtOne};

use crate::LogFault;
use mdcc_base::Failed;
use mdcc_disks::Disks;
use mdcc_log_file::Spare;
use mdcc_log_file::copying::{Part, clear_area, copy_records, grow, shut_area};
use mdcc_log_file::steps::write_through;

/// What is copied: the place of the area, where its records begin, where its frames do, where its last gate stands, how many
/// payloads it has and how many of them in frames, and how many bytes all of them take as records.
#[derive(Clone, Copy)]
pub struct Whole {
    pub place: u8,
    pub head: u64,
    pub start: u64,
    pub end: u64,
    pub count: u64,
    pub tail: u64,
    pub body: u64,
}

// The generation and the number of the records.
fn counts(generation: u64, count: u64) -> [u8; 16]
    ensures { result ≡ counts_bytes generation count }
{
    let [a, b, c, d, e, f, g, h] = generation.to_le_bytes();
    let [i, j, k, l, m, n, o, p] = count.to_le_bytes();
    [a, b, c, d, e, f, g, h, i, j, k, l, m, n, o, p]
}

// Copies all records and then what the frames have, and answers where they end.
fn copy_all<D: Disks>(
    disks: &mut D,
    whole: Whole,
    place: u8,
    buffer: &mut Vec<u8>,
) -> Result<u64, LogFault>
    requires apart { whole.place ≢ place }
    requires room { 2097157 ≤ vec_capacity buffer.old }
    requires order { IsFilled whole }
    requires stands { IsTrue (D.disk disks.old whole.place).told
        → (log : AreaLog) × StandsAs whole log (D.disk disks.old whole.place).bytes }
    requires end { IsTrue (D.disk disks.old place).told → length (D.disk disks.old place).bytes ≡ 25 }
    ensures copied { (log : AreaLog) → IsTrue (D.disk disks.old whole.place).told → IsTrue (D.disk disks.old place).told
        → StandsAs whole log (D.disk disks.old whole.place).bytes
        → OnOk result ((D.disk disks.new place).bytes ≡ (D.disk disks.old place).bytes ++ records_bytes (payloads_of log)) }
    ensures size { (log : AreaLog) → IsTrue (D.disk disks.old whole.place).told
        → StandsAs whole log (D.disk disks.old whole.place).bytes
        → IfOk result (λ end. end ≡ 25 + length (records_bytes (payloads_of log))) }
    ensures end { IsTrue (D.disk disks.old place).told → IfOk result (λ end. end ≡ length (D.disk disks.new place).bytes) }
    ensures bound { IfOk result (λ end. (25 + 4 * whole.count ≤ end) × (end ≤ 25 + whole.body)) }
    ensures room { 2097157 ≤ vec_capacity buffer.new }
    ensures only_read { IsOnlyRead D.disk D.may_leave D.moment D.left_since disks.old disks.new whole.place }
    ensures stays { StaysShut D.disk D.may_leave D.moment D.left_since disks.old disks.new place }
    ensures others { KeepsBut D.disk D.may_leave D.moment D.left_since disks.old disks.new whole.place place }
    ensures disk_fault { IsErrOf result LogFault.DiskFault
        → RoseAtOne (D.disk disks.old whole.place) (D.disk disks.new whole.place) (D.disk disks.old place) (D.disk disks.new place) }
    ensures a_log { (n : ℕ) → IsErrOf result (LogFault.NotALog n) → IsTrue (D.disk disks.old whole.place).told → ⊥ }
    ensures not_full { IsErrOf result LogFault.LogFull → ⊥ }
    ensures memory { IsErrOf result LogFault.Memory → ⊥ }
    ensures calls { (log : AreaLog) → IsTrue (D.disk disks.old whole.place).told
        → StandsAs whole log (D.disk disks.old whole.place).bytes
        → MadeSome (record_calls 25 (payloads_of log)) (D.disk disks.old place).calls (D.disk disks.new place).calls }
    ensures all_calls { (log : AreaLog) → IsTrue (D.disk disks.old whole.place).told
        → StandsAs whole log (D.disk disks.old whole.place).bytes
        → OnOk result ((D.disk disks.new place).calls ≡ with_calls (record_calls 25 (payloads_of log)) (D.disk disks.old place).calls) }
{
    let records = Part {
        place: whole.place,
        from: whole.head,
        end: whole.start,
        gap: 0,
        count: whole.count - whole.tail,
    };
    let frames = Part {
        place: whole.place,
        from: whole.start,
        end: whole.end,
        gap: 1,
        count: whole.tail,
    };
    let limit = 25 + whole.body;
    let middle = copy_records(disks, records, place, 25, limit, buffer)?;
    copy_records(disks, frames, place, middle, limit, buffer)
}

/// Writes all that stands behind the area gate of a copy of this generation, and answers where the last gate stands. It is not
/// durable yet.
pub fn write_body<D: Disks>(
    disks: &mut D,
    whole: Whole,
    generation: u64,
    place: u8,
    buffer: &mut Vec<u8>,
) -> Result<u64, LogFault>
    requires apart { whole.place ≢ place }
    requires room { 2097157 ≤ vec_capacity buffer.old }
    requires order { IsFilled whole }
    requires stands { IsTrue (D.disk disks.old whole.place).told
        → (log : AreaLog) × StandsAs whole log (D.disk disks.old whole.place).bytes }
    requires nine { IsTrue (D.disk disks.old place).told → length (D.disk disks.old place).bytes ≡ 9 }
    ensures written { (log : AreaLog) → IsTrue (D.disk disks.old whole.place).told → IsTrue (D.disk disks.old place).told
        → StandsAs whole log (D.disk disks.old whole.place).bytes
        → OnOk result ((D.disk disks.new place).bytes
        ≡ (D.disk disks.old place).bytes ++ (copy_body generation (payloads_of log) ++ 0 ∷ [])) }
    ensures size { (log : AreaLog) → IsTrue (D.disk disks.old whole.place).told
        → StandsAs whole log (D.disk disks.old whole.place).bytes
        → IfOk result (λ end. end ≡ 25 + length (records_bytes (payloads_of log))) }
    ensures end { IsTrue (D.disk disks.old place).told → IfOk result (λ end. end + 1 ≡ length (D.disk disks.new place).bytes) }
    ensures bound { IfOk result (λ end. (25 + 4 * whole.count ≤ end) × (end ≤ 25 + whole.body)) }
    ensures room { 2097157 ≤ vec_capacity buffer.new }
    ensures only_read { IsOnlyRead D.disk D.may_leave D.moment D.left_since disks.old disks.new whole.place }
    ensures stays { StaysShut D.disk D.may_leave D.moment D.left_since disks.old disks.new place }
    ensures others { KeepsBut D.disk D.may_leave D.moment D.left_since disks.old disks.new whole.place place }
    ensures disk_fault { IsErrOf result LogFault.DiskFault
        → RoseAtOne (D.disk disks.old whole.place) (D.disk disks.new whole.place) (D.disk disks.old place) (D.disk disks.new place) }
    ensures a_log { (n : ℕ) → IsErrOf result (LogFault.NotALog n) → IsTrue (D.disk disks.old whole.place).told → ⊥ }
    ensures not_full { IsErrOf result LogFault.LogFull → ⊥ }
    ensures memory { IsErrOf result LogFault.Memory → ⊥ }
    ensures calls { (log : AreaLog) → IsTrue (D.disk disks.old whole.place).told
        → StandsAs whole log (D.disk disks.old whole.place).bytes
        → MadeSome (body_calls generation (payloads_of log)) (D.disk disks.old place).calls (D.disk disks.new place).calls }
    ensures all_calls { (log : AreaLog) → IsTrue (D.disk disks.old whole.place).told
        → StandsAs whole log (D.disk disks.old whole.place).bytes
        → OnOk result ((D.disk disks.new place).calls ≡ with_calls (body_calls generation (payloads_of log)) (D.disk disks.old place).calls) }
{
    grow(disks, place, 9, &counts(generation, whole.count))?;
    let end = copy_all(disks, whole, place, buffer)?;
    grow(disks, place, end, &[0])?;
    Ok(end)
}

/// Makes what stands behind a closed area gate durable, and then opens that gate.
pub fn open_area<D: Disks>(disks: &mut D, place: u8) -> Result<(), Failed>
    requires long { IsTrue (D.disk disks.old place).told → 9 ≤ length (D.disk disks.old place).bytes }
    requires shut { IsTrue (D.disk disks.old place).told → Within IsShut (D.may_leave disks.old place) }
    ensures opened { IsTrue (D.disk disks.old place).told
        → OnOk result ((D.disk disks.new place).bytes ≡ with_gate 1 (D.disk disks.old place).bytes) }
    ensures durable { IsTrue (D.disk disks.old place).told
        → OnOk result (Only (D.disk disks.new place).bytes (D.may_leave disks.new place)) }
    ensures any_moment { IsTrue (D.disk disks.old place).told
        → LeavesOnly D.moment D.left_since disks.old disks.new place (MayOpen (D.disk disks.old place).bytes) }
    ensures others { KeepsOthers D.disk D.may_leave D.moment D.left_since disks.old disks.new place }
    ensures cause { HasCause (D.disk disks.old place).faults (D.disk disks.new place).faults result }
    ensures calls { MadeSome (Sync ∷ Write 8 (1 ∷ []) ∷ Sync ∷ []) (D.disk disks.old place).calls (D.disk disks.new place).calls }
    ensures all_calls { OnOk result ((D.disk disks.new place).calls
        ≡ with_calls (Sync ∷ Write 8 (1 ∷ []) ∷ Sync ∷ []) (D.disk disks.old place).calls) }
{
    disks.sync(place)?;
    write_through(disks, place, 8, &[1])
}

/// Writes a whole copy of one area to the other, with its area gate closed, and answers where the last gate stands there. It is
/// not durable yet.
pub fn write_copy<D: Disks>(
    disks: &mut D,
    whole: Whole,
    generation: u64,
    place: u8,
    spare: Spare,
    buffer: &mut Vec<u8>,
) -> Result<u64, LogFault>
    requires apart { whole.place ≢ place }
    requires room { 2097157 ≤ vec_capacity buffer.old }
    requires order { IsFilled whole }
    requires stands { IsTrue (D.disk disks.old whole.place).told
        → (log : AreaLog) × StandsAs whole log (D.disk disks.old whole.place).bytes }
    requires spare { IsTrue (D.disk disks.old place).told → spare ≡ spare_of (D.disk disks.old place).bytes }
    requires durable { IsTrue (D.disk disks.old place).told
        → Only (D.disk disks.old place).bytes (D.may_leave disks.old place) }
    ensures written { (log : AreaLog) → IsTrue (D.disk disks.old whole.place).told → IsTrue (D.disk disks.old place).told
        → StandsAs whole log (D.disk disks.old whole.place).bytes
        → OnOk result ((D.disk disks.new place).bytes ≡ copy_of 0 generation (payloads_of log)) }
    ensures size { (log : AreaLog) → IsTrue (D.disk disks.old whole.place).told
        → StandsAs whole log (D.disk disks.old whole.place).bytes
        → IfOk result (λ end. end ≡ 25 + length (records_bytes (payloads_of log))) }
    ensures bound { IfOk result (λ end. (25 + 4 * whole.count ≤ end) × (end ≤ 25 + whole.body)) }
    ensures long { IsTrue (D.disk disks.old place).told → OnOk result (9 ≤ length (D.disk disks.new place).bytes) }
    ensures any_moment { IsTrue (D.disk disks.old place).told
        → LeavesOnly D.moment D.left_since disks.old disks.new place (MayBegin (D.disk disks.old place).bytes) }
    ensures shut { IsTrue (D.disk disks.old place).told → OnOk result (Within IsShut (D.may_leave disks.new place)) }
    ensures room { 2097157 ≤ vec_capacity buffer.new }
    ensures only_read { IsOnlyRead D.disk D.may_leave D.moment D.left_since disks.old disks.new whole.place }
    ensures others { KeepsBut D.disk D.may_leave D.moment D.left_since disks.old disks.new whole.place place }
    ensures disk_fault { IsErrOf result LogFault.DiskFault
        → RoseAtOne (D.disk disks.old whole.place) (D.disk disks.new whole.place) (D.disk disks.old place) (D.disk disks.new place) }
    ensures a_log { (n : ℕ) → IsErrOf result (LogFault.NotALog n) → IsTrue (D.disk disks.old whole.place).told → ⊥ }
    ensures not_full { IsErrOf result LogFault.LogFull → ⊥ }
    ensures memory { IsErrOf result LogFault.Memory → ⊥ }
    ensures calls { (log : AreaLog) → IsTrue (D.disk disks.old whole.place).told
        → StandsAs whole log (D.disk disks.old whole.place).bytes
        → MadeSome (laid_calls spare generation (payloads_of log)) (D.disk disks.old place).calls (D.disk disks.new place).calls }
    ensures all_calls { (log : AreaLog) → IsTrue (D.disk disks.old whole.place).told
        → StandsAs whole log (D.disk disks.old whole.place).bytes
        → OnOk result ((D.disk disks.new place).calls
        ≡ with_calls (laid_calls spare generation (payloads_of log)) (D.disk disks.old place).calls) }
{
    shut_area(disks, place, spare)?;
    clear_area(disks, place, spare)?;
    let end = write_body(disks, whole, generation, place, buffer)?;
    Ok(end)
}
