//! How the payloads of one area are copied to the other.
ghost use Rattle.std.specs.Prelude.{◌≡◌, ◌≢◌, ◌≤◌, ◌<◌, ◌+◌, ◌-◌, ◌*◌, ◌^◌, ◌∷◌, ◌++◌, [], List, ℕ, length, min, vec_len, vec_capacity, IsTrue, IfOk, OnOk, IsErrOf};
ghost use Rattle.mdcc_base.specs.Causes.{Rose, HasCause};
ghost use Rattle.mdcc_disks.specs.Disks.{AddsCall, Within, Only, KeepsOthers, LeavesOnly};
ghost use Rattle.mdcc_disks.specs.Disks.DiskCall.{Write, Cut, Sync};
ghost use Rattle.mdcc_log_file.specs.Log.{frame_body};
ghost use Rattle.mdcc_log_file.specs.Calls.{MadeSome, with_calls};
ghost use Rattle.mdcc_log_file.specs.Area.{area_mark, records_bytes, spare_of};
ghost use Rattle.mdcc_log_file.specs.Copying.{shut_calls, mark_calls, record_calls, IsShut, IsShutAs, MayShut, IsRecordAt, IsSource, needs_mark, shut_bytes};
ghost use Rattle.mdcc_log_file.specs.Both.{KeepsBut, IsOnlyRead, StaysShut, RoseAtOne};

use crate::area::Spare;
use crate::reading::read_at;
use crate::{LogFault, PAYLOAD_LIMIT};
use mdcc_base::Failed;
use mdcc_disks::Disks;

const FRESH: [u8; 9] = [77, 68, 67, 67, 76, 79, 71, 50, 0];

const MARK: [u8; 8] = [77, 68, 67, 67, 76, 79, 71, 50];

/// Where records stand: the place, the offset of the first, where they end at most, how many bytes stand before each, and how
/// many they are.
#[derive(Clone, Copy)]
pub struct Part {
    pub place: u8,
    pub from: u64,
    pub end: u64,
    pub gap: u64,
    pub count: u64,
}

/// Writes bytes behind the others, while the area gate is closed. They are not durable yet.
pub fn grow<D: Disks>(disks: &mut D, place: u8, end: u64, bytes: &[u8]) -> Result<(), Failed>
    requires behind { 9 ≤ end }
    requires end { IsTrue (D.disk disks.old place).told → end ≡ length (D.disk disks.old place).bytes }
    ensures grown { IsTrue (D.disk disks.old place).told
        → OnOk result ((D.disk disks.new place).bytes ≡ (D.disk disks.old place).bytes ++ bytes.now) }
    ensures shut { Within IsShut (D.may_leave disks.old place) → Within IsShut (D.may_leave disks.new place) }
    ensures any_moment { Within IsShut (D.may_leave disks.old place)
        → LeavesOnly D.moment D.left_since disks.old disks.new place IsShut }
    ensures others { KeepsOthers D.disk D.may_leave D.moment D.left_since disks.old disks.new place }
    ensures cause { HasCause (D.disk disks.old place).faults (D.disk disks.new place).faults result }
    ensures call { AddsCall (Write end bytes.now) (D.disk disks.old place).calls (D.disk disks.new place).calls result }
{
    disks.write_at(place, end, bytes)
}

/// Writes a closed area gate, where none stands. It is not durable yet.
pub fn write_shut<D: Disks>(disks: &mut D, place: u8, spare: Spare) -> Result<(), Failed>
    requires spare { IsTrue (D.disk disks.old place).told → spare ≡ spare_of (D.disk disks.old place).bytes }
    requires durable { IsTrue (D.disk disks.old place).told
        → Only (D.disk disks.old place).bytes (D.may_leave disks.old place) }
    ensures shut { IsTrue (D.disk disks.old place).told
        → OnOk result ((D.disk disks.new place).bytes ≡ shut_bytes (D.disk disks.old place).bytes) }
    ensures any_moment { IsTrue (D.disk disks.old place).told
        → LeavesOnly D.moment D.left_since disks.old disks.new place (MayShut (D.disk disks.old place).bytes) }
    ensures crash { IsTrue (D.disk disks.old place).told
        → Within (MayShut (D.disk disks.old place).bytes) (D.may_leave disks.new place) }
    ensures others { KeepsOthers D.disk D.may_leave D.moment D.left_since disks.old disks.new place }
    ensures cause { HasCause (D.disk disks.old place).faults (D.disk disks.new place).faults result }
    ensures calls { MadeSome (shut_calls spare) (D.disk disks.old place).calls (D.disk disks.new place).calls }
    ensures all_calls { OnOk result ((D.disk disks.new place).calls ≡ with_calls (shut_calls spare) (D.disk disks.old place).calls) }
{
    match spare {
        Spare::Short => disks.write_at(place, 0, &FRESH),
        Spare::Long { closed, .. } => {
            if closed {
                Ok(())
            } else {
                disks.write_at(place, 8, &[0])
            }
        }
    }
}

/// Closes the area gate for good.
pub fn shut_area<D: Disks>(disks: &mut D, place: u8, spare: Spare) -> Result<(), Failed>
    requires spare { IsTrue (D.disk disks.old place).told → spare ≡ spare_of (D.disk disks.old place).bytes }
    requires durable { IsTrue (D.disk disks.old place).told
        → Only (D.disk disks.old place).bytes (D.may_leave disks.old place) }
    ensures shut { IsTrue (D.disk disks.old place).told
        → OnOk result ((D.disk disks.new place).bytes ≡ shut_bytes (D.disk disks.old place).bytes) }
    ensures durable { IsTrue (D.disk disks.old place).told
        → OnOk result (Only (D.disk disks.new place).bytes (D.may_leave disks.new place)) }
    ensures any_moment { IsTrue (D.disk disks.old place).told
        → LeavesOnly D.moment D.left_since disks.old disks.new place (MayShut (D.disk disks.old place).bytes) }
    ensures others { KeepsOthers D.disk D.may_leave D.moment D.left_since disks.old disks.new place }
    ensures cause { HasCause (D.disk disks.old place).faults (D.disk disks.new place).faults result }
    ensures calls { MadeSome (shut_calls spare ++ Sync ∷ []) (D.disk disks.old place).calls (D.disk disks.new place).calls }
    ensures all_calls { OnOk result ((D.disk disks.new place).calls
        ≡ with_calls (shut_calls spare ++ Sync ∷ []) (D.disk disks.old place).calls) }
{
    write_shut(disks, place, spare)?;
    disks.sync(place)
}

// Whether the mark of version 2 has to be written.
fn needs_mark(spare: Spare) -> bool
    ensures { result ≡ needs_mark spare }
{
    match spare {
        Spare::Short => false,
        Spare::Long { marked, .. } => !marked,
    }
}

// Writes the mark of version 2 over the first bytes.
fn write_mark<D: Disks>(disks: &mut D, place: u8, spare: Spare) -> Result<(), Failed>
    requires nine { IsTrue (D.disk disks.old place).told → length (D.disk disks.old place).bytes ≡ 9 }
    requires shut { IsTrue (D.disk disks.old place).told → IsShutAs spare (D.disk disks.old place).bytes }
    ensures marked { IsTrue (D.disk disks.old place).told
        → OnOk result ((D.disk disks.new place).bytes ≡ area_mark ++ 0 ∷ []) }
    ensures stays { StaysShut D.disk D.may_leave D.moment D.left_since disks.old disks.new place }
    ensures others { KeepsOthers D.disk D.may_leave D.moment D.left_since disks.old disks.new place }
    ensures cause { HasCause (D.disk disks.old place).faults (D.disk disks.new place).faults result }
    ensures calls { MadeSome (mark_calls spare) (D.disk disks.old place).calls (D.disk disks.new place).calls }
    ensures all_calls { OnOk result ((D.disk disks.new place).calls ≡ with_calls (mark_calls spare) (D.disk disks.old place).calls) }
{
    if needs_mark(spare) {
        disks.write_at(place, 0, &MARK)
    } else {
        Ok(())
    }
}

/// Leaves of an area whose area gate is closed the mark of version 2 and that gate. This is not durable yet.
pub fn clear_area<D: Disks>(disks: &mut D, place: u8, spare: Spare) -> Result<(), Failed>
    requires shut { IsTrue (D.disk disks.old place).told → IsShutAs spare (D.disk disks.old place).bytes }
    ensures cleared { IsTrue (D.disk disks.old place).told
        → OnOk result ((D.disk disks.new place).bytes ≡ area_mark ++ 0 ∷ []) }
    ensures stays { StaysShut D.disk D.may_leave D.moment D.left_since disks.old disks.new place }
    ensures others { KeepsOthers D.disk D.may_leave D.moment D.left_since disks.old disks.new place }
    ensures cause { HasCause (D.disk disks.old place).faults (D.disk disks.new place).faults result }
    ensures calls { MadeSome (Cut 9 ∷ mark_calls spare) (D.disk disks.old place).calls (D.disk disks.new place).calls }
    ensures all_calls { OnOk result ((D.disk disks.new place).calls
        ≡ with_calls (Cut 9 ∷ mark_calls spare) (D.disk disks.old place).calls) }
{
    disks.cut(place, 9)?;
    write_mark(disks, place, spare)
}

/// Reads the record at an offset into the buffer, where one stands there in so many bytes.
pub fn read_record<D: Disks>(
    disks: &mut D,
    place: u8,
    from: u64,
    most: u64,
    buffer: &mut Vec<u8>,
) -> Result<(), LogFault>
    requires room { 2097157 ≤ vec_capacity buffer.old }
    requires fits { from + most < 2 ^ 64 }
    requires stands { IsTrue (D.disk disks.old place).told
        → (payload : List ℕ) × IsRecordAt from most payload (D.disk disks.old place).bytes }
    ensures read { (payload : List ℕ) → IsTrue (D.disk disks.old place).told
        → IsRecordAt from most payload (D.disk disks.old place).bytes
        → OnOk result (buffer.new.items ≡ frame_body payload) }
    ensures bound { OnOk result ((4 ≤ vec_len buffer.new) × (vec_len buffer.new ≤ most)) }
    ensures room { 2097157 ≤ vec_capacity buffer.new }
    ensures only_read { IsOnlyRead D.disk D.may_leave D.moment D.left_since disks.old disks.new place }
    ensures others { KeepsOthers D.disk D.may_leave D.moment D.left_since disks.old disks.new place }
    ensures later { (D.disk disks.old place).faults ≤ (D.disk disks.new place).faults }
    ensures disk_fault { IsErrOf result LogFault.DiskFault
        → Rose (D.disk disks.old place).faults (D.disk disks.new place).faults }
    ensures a_log { (n : ℕ) → IsErrOf result (LogFault.NotALog n) → IsTrue (D.disk disks.old place).told → ⊥ }
    ensures not_full { IsErrOf result LogFault.LogFull → ⊥ }
    ensures memory { IsErrOf result LogFault.Memory → ⊥ }
{
    if most < 4 {
        return Err(LogFault::NotALog(from));
    }
    let mut front = [0u8; 4];
    read_at(disks, place, from, &mut front)?;
    let length = u32::from_le_bytes(front) as usize;
    if length > PAYLOAD_LIMIT || length as u64 > most - 4 {
        return Err(LogFault::NotALog(from));
    }
    resize(buffer, 4 + length);
    read_at(disks, place, from, buffer)?;
    Ok(())
}

// Makes the buffer so long.
fn resize(buffer: &mut Vec<u8>, size: usize)
    requires room { 2097157 ≤ vec_capacity buffer.old }
    requires short { size ≤ 2097157 }
    ensures len { vec_len buffer.new ≡ size }
    ensures room { 2097157 ≤ vec_capacity buffer.new }
{
    buffer.truncate(size);
    let _resized = buffer.resize(size, 0).is_ok();
}

/// Copies records behind what stands in the other area, and answers where they end.
pub fn copy_records<D: Disks>(
    disks: &mut D,
    part: Part,
    place: u8,
    to: u64,
    limit: u64,
    buffer: &mut Vec<u8>,
) -> Result<u64, LogFault>
    requires apart { part.place ≢ place }
    requires room { 2097157 ≤ vec_capacity buffer.old }
    requires gap { part.gap ≤ 1 }
    requires from { part.from ≤ part.end }
    requires end_fits { part.end < 2 ^ 63 }
    requires behind { 9 ≤ to }
    requires limit { to ≤ limit }
    requires limit_fits { limit < 2 ^ 63 }
    requires source { IsTrue (D.disk disks.old part.place).told
        → (ps : List (List ℕ)) × IsSource part.gap part.from part.end (limit - to) part.count ps (D.disk disks.old part.place).bytes }
    requires end { IsTrue (D.disk disks.old place).told → to ≡ length (D.disk disks.old place).bytes }
    ensures copied { (ps : List (List ℕ)) → IsTrue (D.disk disks.old part.place).told → IsTrue (D.disk disks.old place).told
        → IsSource part.gap part.from part.end (limit - to) part.count ps (D.disk disks.old part.place).bytes
        → OnOk result ((D.disk disks.new place).bytes ≡ (D.disk disks.old place).bytes ++ records_bytes ps) }
    ensures size { (ps : List (List ℕ)) → IsTrue (D.disk disks.old part.place).told
        → IsSource part.gap part.from part.end (limit - to) part.count ps (D.disk disks.old part.place).bytes
        → IfOk result (λ end. end ≡ to + length (records_bytes ps)) }
    ensures end { IsTrue (D.disk disks.old place).told → IfOk result (λ end. end ≡ length (D.disk disks.new place).bytes) }
    ensures bound { IfOk result (λ end. (to + 4 * part.count ≤ end) × (end ≤ limit)) }
    ensures room { 2097157 ≤ vec_capacity buffer.new }
    ensures only_read { IsOnlyRead D.disk D.may_leave D.moment D.left_since disks.old disks.new part.place }
    ensures stays { StaysShut D.disk D.may_leave D.moment D.left_since disks.old disks.new place }
    ensures others { KeepsBut D.disk D.may_leave D.moment D.left_since disks.old disks.new part.place place }
    ensures disk_fault { IsErrOf result LogFault.DiskFault
        → RoseAtOne (D.disk disks.old part.place) (D.disk disks.new part.place) (D.disk disks.old place) (D.disk disks.new place) }
    ensures a_log { (n : ℕ) → IsErrOf result (LogFault.NotALog n) → IsTrue (D.disk disks.old part.place).told → ⊥ }
    ensures not_full { IsErrOf result LogFault.LogFull → ⊥ }
    ensures memory { IsErrOf result LogFault.Memory → ⊥ }
    ensures calls { (ps : List (List ℕ)) → IsTrue (D.disk disks.old part.place).told
        → IsSource part.gap part.from part.end (limit - to) part.count ps (D.disk disks.old part.place).bytes
        → MadeSome (record_calls to ps) (D.disk disks.old place).calls (D.disk disks.new place).calls }
    ensures all_calls { (ps : List (List ℕ)) → IsTrue (D.disk disks.old part.place).told
        → IsSource part.gap part.from part.end (limit - to) part.count ps (D.disk disks.old part.place).bytes
        → OnOk result ((D.disk disks.new place).calls ≡ with_calls (record_calls to ps) (D.disk disks.old place).calls) }
{
    let mut from = part.from;
    let mut end = to;
    for turn in 0..part.count {
        let start = from + part.gap;
        let most = part.end.saturating_sub(start).min(limit - end);
        read_record(disks, part.place, start, most, buffer)?;
        grow(disks, place, end, buffer)?;
        let size = buffer.len() as u64;
        from = start + size;
        end += size;
    }
    Ok(end)
}
