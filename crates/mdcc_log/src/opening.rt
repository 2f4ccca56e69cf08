//! How a log in two areas is opened.
ghost use Rattle.std.specs.Prelude.{◌≡◌, ◌≢◌, ◌<◌, ◌-◌, true, ℕ, length, IsTrue, IfOk, IsErr, IsErrOf, Ok, Err};
ghost use Rattle.mdcc_disks.specs.Disks.{Only};
ghost use Rattle.mdcc_log_file.specs.Area.{is_copy, is_first, copy_generation, read_area, read_areas, taken, spare_of};
ghost use Rattle.mdcc_log.specs.Reading.{AreaIs};
ghost use Rattle.mdcc_log_file.specs.Records.{IsNumbered};
ghost use Rattle.mdcc_log.specs.Frames.{change_calls, other_calls, spare_calls, settle_calls};
ghost use Rattle.mdcc_log.specs.Repair.{settled, settle_at, MaySettle, MayClose, with_closed_gate};
ghost use Rattle.mdcc_log.specs.Settling.{SettlesOne};
ghost use Rattle.mdcc_log.specs.Opening.{IsFound, IsTaken, LoadsOne, MayOpenAs, MaySettleAs, OpensOne, opened_bytes, taken_bytes};
ghost use Rattle.mdcc_log_file.specs.Both.{KeepsBut, RoseAtOne};

use crate::LogFault;
use crate::repair::{close_spare, settle};
use mdcc_base::{Failed, HeapList};
use mdcc_disks::Disks;
use mdcc_log_file::area::{
    Spare, copy_generation, count_in, is_copy, is_first, is_torn, read_records, spare_of, taken,
};
use mdcc_log_file::frames::read_tail;
use mdcc_log_file::reading::load;
use std::alloc::Global;

/// What was read of the area that is taken: its generation, its payloads, where the frames begin, how many they are, and where
/// the last gate stands.
#[derive(Drop)]
pub struct AreaRead {
    pub generation: u64,
    pub payloads: Vec<HeapList<u8>>,
    pub start: usize,
    pub tail: u64,
    pub gate: usize,
}

// The log of version 1 that stands in more than nine bytes.
fn read_log(alloc: Global, bytes: &[u8]) -> Result<AreaRead, LogFault>
    requires long { 9 < length bytes.now }
    requires first { is_first bytes.now ≡ true }
    ensures read { IfOk result (λ r. AreaIs r.generation r.payloads.items r.start r.tail r.gate bytes.now) }
    ensures not_a_log { (n : ℕ) → IsErrOf result (LogFault.NotALog n) → read_area bytes.now ≡ Err n }
    ensures disk_works { IsErrOf result LogFault.DiskFault → ⊥ }
    ensures not_full { IsErrOf result LogFault.LogFull → ⊥ }
{
    let (payloads, tail, gate) = read_tail(alloc, bytes, 8, Vec::new(alloc))?;
    Ok(AreaRead {
        generation: 0,
        payloads,
        start: 8,
        tail,
        gate,
    })
}

// The log of this generation that stands in a whole area of version 2.
fn read_copy(alloc: Global, bytes: &[u8], generation: u64) -> Result<AreaRead, LogFault>
    requires copy { is_copy bytes.now ≡ true }
    requires generation { IsNumbered generation bytes.now }
    ensures read { IfOk result (λ r. AreaIs r.generation r.payloads.items r.start r.tail r.gate bytes.now) }
    ensures not_a_log { (n : ℕ) → IsErrOf result (LogFault.NotALog n) → read_area bytes.now ≡ Err n }
    ensures disk_works { IsErrOf result LogFault.DiskFault → ⊥ }
    ensures not_full { IsErrOf result LogFault.LogFull → ⊥ }
{
    let (records, start) = read_records(alloc, bytes, count_in(bytes))?;
    if start == bytes.len() {
        return Err(LogFault::NotALog(start as u64));
    }
    let (payloads, tail, gate) = read_tail(alloc, bytes, start, records)?;
    Ok(AreaRead {
        generation,
        payloads,
        start,
        tail,
        gate,
    })
}

/// The log that stands in an area.
pub fn read_area(alloc: Global, bytes: &[u8]) -> Result<AreaRead, LogFault>
    ensures read { IfOk result (λ r. AreaIs r.generation r.payloads.items r.start r.tail r.gate bytes.now) }
    ensures not_a_log { (n : ℕ) → IsErrOf result (LogFault.NotALog n) → read_area bytes.now ≡ Err n }
    ensures disk_works { IsErrOf result LogFault.DiskFault → ⊥ }
    ensures not_full { IsErrOf result LogFault.LogFull → ⊥ }
{
    if bytes.len() <= 9 {
        return Ok(AreaRead {
            generation: 0,
            payloads: Vec::new(alloc),
            start: 8,
            tail: 0,
            gate: 8,
        });
    }
    if is_first(bytes) {
        return read_log(alloc, bytes);
    }
    if !is_copy(bytes) {
        return Err(LogFault::NotALog(0));
    }
    match copy_generation(bytes) {
        Err(offset) => Err(LogFault::NotALog(offset)),
        Ok(generation) => read_copy(alloc, bytes, generation),
    }
}

/// Settles the area that is taken and then the other one, by what was read of them. Tells what is known of the other then.
pub fn settle_both<D: Disks>(
    disks: &mut D,
    place: u8,
    other_place: u8,
    bytes: &[u8],
    gate: usize,
    other: &[u8],
) -> Result<Spare, Failed>
    requires apart { place ≢ other_place }
    requires gate { 9 < length bytes.now → gate < length bytes.now }
    requires file { IsTrue (D.disk disks.old place).told → bytes.now ≡ (D.disk disks.old place).bytes }
    requires durable { IsTrue (D.disk disks.old place).told
        → Only (D.disk disks.old place).bytes (D.may_leave disks.old place) }
    requires other_file { IsTrue (D.disk disks.old other_place).told → other.now ≡ (D.disk disks.old other_place).bytes }
    requires other_durable { IsTrue (D.disk disks.old other_place).told
        → Only (D.disk disks.old other_place).bytes (D.may_leave disks.old other_place) }
    ensures spare { IfOk result (λ spare. spare ≡ spare_of (with_closed_gate other.now)) }
    ensures current { SettlesOne D.disk D.may_leave D.moment D.left_since disks.old disks.new place
        (settled gate bytes.now) (MaySettle D.tears gate bytes.now) (settle_at gate bytes.now) result }
    ensures other { SettlesOne D.disk D.may_leave D.moment D.left_since disks.old disks.new other_place
        (with_closed_gate other.now) (MayClose D.tears other.now) (spare_calls other.now) result }
    ensures others { KeepsBut D.disk D.may_leave D.moment D.left_since disks.old disks.new place other_place }
    ensures cause { IsErr result
        → RoseAtOne (D.disk disks.old place) (D.disk disks.new place) (D.disk disks.old other_place) (D.disk disks.new other_place) }
{
    settle(disks, place, bytes, gate)?;
    close_spare(disks, other_place, other)?;
    Ok(closed_spare(other))
}

// What is known of an area whose area gate was closed, where it was neither closed nor open.
fn closed_spare(bytes: &[u8]) -> Spare
    ensures { result ≡ spare_of (with_closed_gate bytes.now) }
{
    if is_torn(bytes) {
        Spare::Long {
            closed: true,
            marked: true,
        }
    } else {
        spare_of(bytes)
    }
}

// What stands in the areas at two places, made durable.
fn load_both<D: Disks>(
    alloc: Global,
    disks: &mut D,
    first_place: u8,
    second_place: u8,
) -> Result<(Vec<u8>, Vec<u8>), LogFault>
    requires { first_place ≢ second_place }
    ensures first_file { IsTrue (D.disk disks.old first_place).told
        → IfOk result (λ r. r.0.items ≡ (D.disk disks.old first_place).bytes) }
    ensures second_file { IsTrue (D.disk disks.old second_place).told
        → IfOk result (λ r. r.1.items ≡ (D.disk disks.old second_place).bytes) }
    ensures first { LoadsOne D.disk D.may_leave D.moment D.left_since disks.old disks.new first_place result }
    ensures second { LoadsOne D.disk D.may_leave D.moment D.left_since disks.old disks.new second_place result }
    ensures others { KeepsBut D.disk D.may_leave D.moment D.left_since disks.old disks.new first_place second_place }
    ensures disk_fault { IsErrOf result LogFault.DiskFault
        → RoseAtOne (D.disk disks.old first_place) (D.disk disks.new first_place) (D.disk disks.old second_place) (D.disk disks.new second_place) }
    ensures a_log { (n : ℕ) → IsErrOf result (LogFault.NotALog n) → ⊥ }
    ensures not_full { IsErrOf result LogFault.LogFull → ⊥ }
{
    let first = load(alloc, disks, first_place)?;
    let second = load(alloc, disks, second_place)?;
    Ok((first, second))
}

// Reads the area that is taken, and then settles both.
fn take_area<D: Disks>(
    alloc: Global,
    disks: &mut D,
    place: u8,
    other_place: u8,
    bytes: &[u8],
    other: &[u8],
) -> Result<(AreaRead, Spare), LogFault>
    requires apart { place ≢ other_place }
    requires file { IsTrue (D.disk disks.old place).told → bytes.now ≡ (D.disk disks.old place).bytes }
    requires durable { IsTrue (D.disk disks.old place).told
        → Only (D.disk disks.old place).bytes (D.may_leave disks.old place) }
    requires other_file { IsTrue (D.disk disks.old other_place).told → other.now ≡ (D.disk disks.old other_place).bytes }
    requires other_durable { IsTrue (D.disk disks.old other_place).told
        → Only (D.disk disks.old other_place).bytes (D.may_leave disks.old other_place) }
    ensures read { IfOk result (λ r. AreaIs r.0.generation r.0.payloads.items r.0.start r.0.tail r.0.gate bytes.now) }
    ensures spare { IfOk result (λ r. r.1 ≡ spare_of (with_closed_gate other.now)) }
    ensures current { SettlesOne D.disk D.may_leave D.moment D.left_since disks.old disks.new place
        (taken_bytes (read_area bytes.now)) (MaySettleAs D.tears bytes.now) (settle_calls bytes.now) result }
    ensures other { SettlesOne D.disk D.may_leave D.moment D.left_since disks.old disks.new other_place
        (with_closed_gate other.now) (MayClose D.tears other.now) (other_calls (read_area bytes.now) other.now) result }
    ensures others { KeepsBut D.disk D.may_leave D.moment D.left_since disks.old disks.new place other_place }
    ensures disk_fault { IsErrOf result LogFault.DiskFault
        → RoseAtOne (D.disk disks.old place) (D.disk disks.new place) (D.disk disks.old other_place) (D.disk disks.new other_place) }
    ensures not_a_log { (n : ℕ) → IsErrOf result (LogFault.NotALog n) → (read_area bytes.now ≡ Err n) × (disks.new ≡ disks.old) }
    ensures memory { IsErrOf result LogFault.Memory → disks.new ≡ disks.old }
    ensures not_full { IsErrOf result LogFault.LogFull → ⊥ }
{
    let read = read_area(alloc, bytes)?;
    let spare = settle_both(disks, place, other_place, bytes, read.gate, other)?;
    Ok((read, spare))
}

// Reads the one of two areas that is taken, and then settles both. Tells which it is.
fn take_either<D: Disks>(
    alloc: Global,
    disks: &mut D,
    first_place: u8,
    second_place: u8,
    first: &[u8],
    second: &[u8],
) -> Result<(u8, AreaRead, Spare), LogFault>
    requires apart { first_place ≢ second_place }
    requires first_file { IsTrue (D.disk disks.old first_place).told → first.now ≡ (D.disk disks.old first_place).bytes }
    requires first_durable { IsTrue (D.disk disks.old first_place).told
        → Only (D.disk disks.old first_place).bytes (D.may_leave disks.old first_place) }
    requires second_file { IsTrue (D.disk disks.old second_place).told → second.now ≡ (D.disk disks.old second_place).bytes }
    requires second_durable { IsTrue (D.disk disks.old second_place).told
        → Only (D.disk disks.old second_place).bytes (D.may_leave disks.old second_place) }
    ensures taken { IfOk result (λ r. IsTaken first.now second.now r.0 r.1.generation r.1.payloads.items r.1.start r.1.tail r.1.gate r.2) }
    ensures first { SettlesOne D.disk D.may_leave D.moment D.left_since disks.old disks.new first_place
        (opened_bytes 0 (taken first.now second.now) (read_areas first.now second.now) first.now)
        (MayOpenAs D.tears 0 (taken first.now second.now) first.now)
        (change_calls 0 (taken first.now second.now) (read_areas first.now second.now) first.now) result }
    ensures second { SettlesOne D.disk D.may_leave D.moment D.left_since disks.old disks.new second_place
        (opened_bytes 1 (taken first.now second.now) (read_areas first.now second.now) second.now)
        (MayOpenAs D.tears 1 (taken first.now second.now) second.now)
        (change_calls 1 (taken first.now second.now) (read_areas first.now second.now) second.now) result }
    ensures others { KeepsBut D.disk D.may_leave D.moment D.left_since disks.old disks.new first_place second_place }
    ensures disk_fault { IsErrOf result LogFault.DiskFault
        → RoseAtOne (D.disk disks.old first_place) (D.disk disks.new first_place) (D.disk disks.old second_place) (D.disk disks.new second_place) }
    ensures not_a_log { (n : ℕ) → IsErrOf result (LogFault.NotALog n) → (read_areas first.now second.now ≡ Err n) × (disks.new ≡ disks.old) }
    ensures memory { IsErrOf result LogFault.Memory → disks.new ≡ disks.old }
    ensures not_full { IsErrOf result LogFault.LogFull → ⊥ }
{
    match taken(first, second) {
        Err(offset) => Err(LogFault::NotALog(offset)),
        Ok(area) => {
            if area == 0 {
                let (read, spare) = take_area(
                    alloc,
                    disks,
                    first_place,
                    second_place,
                    first,
                    second,
                )?;
                Ok((0, read, spare))
            } else {
                let (read, spare) = take_area(
                    alloc,
                    disks,
                    second_place,
                    first_place,
                    second,
                    first,
                )?;
                Ok((1, read, spare))
            }
        }
    }
}

/// Opens the log in the areas at two places, whatever a crash left there. Tells which area is in use, what was read of it, and
/// what is known of the other.
pub fn open_areas<D: Disks>(
    alloc: Global,
    disks: &mut D,
    first_place: u8,
    second_place: u8,
) -> Result<(u8, AreaRead, Spare), LogFault>
    requires { first_place ≢ second_place }
    ensures found { IfOk result (λ r. IsFound D.disk D.may_leave D.moment D.left_since disks.old disks.new first_place second_place
        r.0 r.1.generation r.1.payloads.items r.1.start r.1.tail r.1.gate r.2) }
    ensures first { let first = D.disk disks.old first_place in let second = D.disk disks.old second_place in IsTrue first.told → IsTrue second.told
        → OpensOne D.disk D.may_leave D.moment D.left_since D.tears disks.old disks.new first_place 0 first.bytes second.bytes result }
    ensures second { let first = D.disk disks.old first_place in let second = D.disk disks.old second_place in IsTrue first.told → IsTrue second.told
        → OpensOne D.disk D.may_leave D.moment D.left_since D.tears disks.old disks.new second_place 1 first.bytes second.bytes result }
    ensures others { KeepsBut D.disk D.may_leave D.moment D.left_since disks.old disks.new first_place second_place }
    ensures disk_fault { IsErrOf result LogFault.DiskFault
        → RoseAtOne (D.disk disks.old first_place) (D.disk disks.new first_place) (D.disk disks.old second_place) (D.disk disks.new second_place) }
    ensures not_a_log { (n : ℕ) → IsErrOf result (LogFault.NotALog n)
        → IsTrue (D.disk disks.old first_place).told → IsTrue (D.disk disks.old second_place).told
        → read_areas (D.disk disks.old first_place).bytes (D.disk disks.old second_place).bytes ≡ Err n }
    ensures not_a_log_keeps { (n : ℕ) → IsErrOf result (LogFault.NotALog n)
        → ((D.disk disks.new first_place).bytes ≡ (D.disk disks.old first_place).bytes) × ((D.disk disks.new second_place).bytes ≡ (D.disk disks.old second_place).bytes) }
    ensures memory { IsErrOf result LogFault.Memory
        → ((D.disk disks.new first_place).bytes ≡ (D.disk disks.old first_place).bytes) × ((D.disk disks.new second_place).bytes ≡ (D.disk disks.old second_place).bytes) }
    ensures not_full { IsErrOf result LogFault.LogFull → ⊥ }
{
    let (first, second) = load_both(alloc, disks, first_place, second_place)?;
    take_either(alloc, disks, first_place, second_place, &first, &second)
}
