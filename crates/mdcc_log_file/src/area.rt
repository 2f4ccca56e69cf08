//! What stands in an area of a log, and which of two is taken.
ghost use Rattle.std.specs.Prelude.{◌≡◌, ◌≤◌, ◌<◌, ◌+◌, ◌++◌, ◌^◌, [], ◌↔◌, false, ℕ, length, take, drop, IsTrue, IsSome, IfSome, IfNone, IfOk, IsErrOf, Ok, Err};
ghost use Rattle.std.specs.Int.{w32, w64, to_le_bytes};
ghost use Rattle.mdcc_log_file.specs.Log.{frame_body, payload_limit};
ghost use Rattle.mdcc_log_file.specs.Area.{is_first, is_second, is_copy, is_log, is_torn, generation_in, count_in, copy_generation, newer, only, taken, is_record, log_from, spare_of};
ghost use Rattle.mdcc_log_file.specs.Records.{AreRecords, IsNumbered};

use crate::{LogFault, PAYLOAD_LIMIT};
use mdcc_base::HeapList;
use std::alloc::Global;

const LOG_MARK: [u8; 8] = [77, 68, 67, 67, 76, 79, 71, 49];

const AREA_MARK: [u8; 8] = [77, 68, 67, 67, 76, 79, 71, 50];

/// What is known of an area that is not in use.
#[derive(Clone, Copy, Debug, PartialEq, Eq)]
pub enum Spare {
    /// It has at most nine bytes.
    Short,
    /// It has more: whether its area gate is closed, and whether its mark is that of version 2.
    Long { closed: bool, marked: bool },
}

/// Whether the bytes begin with the mark of version 1.
pub fn is_first(bytes: &[u8]) -> bool
    requires { 8 ≤ length bytes.now }
    ensures { result ≡ is_first bytes.now }
{
    bytes.split_at(8).0 == LOG_MARK.as_slice()
}

/// Whether the bytes begin with the mark of version 2.
pub fn is_second(bytes: &[u8]) -> bool
    requires { 8 ≤ length bytes.now }
    ensures { result ≡ is_second bytes.now }
{
    bytes.split_at(8).0 == AREA_MARK.as_slice()
}

/// Whether an area of version 2 is whole.
pub fn is_copy(bytes: &[u8]) -> bool
    ensures { result ≡ is_copy bytes.now }
{
    9 < bytes.len() && is_second(bytes) && bytes[8] == 1
}

/// Whether an area of version 1 is whole.
pub fn is_log(bytes: &[u8]) -> bool
    ensures { result ≡ is_log bytes.now }
{
    9 < bytes.len() && is_first(bytes)
}

/// What is known of an area that is not in use.
pub fn spare_of(bytes: &[u8]) -> Spare
    ensures { result ≡ spare_of bytes.now }
{
    if 9 < bytes.len() {
        Spare::Long {
            closed: bytes[8] == 0,
            marked: is_second(bytes),
        }
    } else {
        Spare::Short
    }
}

/// Whether an area of version 2 has an area gate that is neither closed nor open.
pub fn is_torn(bytes: &[u8]) -> bool
    ensures { result ≡ is_torn bytes.now }
{
    9 < bytes.len() && is_second(bytes) && 1 < bytes[8]
}

/// The generation of an area of version 2.
pub fn generation_in(bytes: &[u8]) -> u64
    requires { 17 ≤ length bytes.now }
    ensures value { result ≡ generation_in bytes.now }
    ensures fits { result < 2 ^ 64 }
    ensures spelled { take 8 (drop 9 bytes.now) ≡ to_le_bytes w64 result }
{
    let [a, b, c, d, e, f, g, h, ..] = bytes.split_at(9).1 else {
        return 0;
    };
    u64::from_le_bytes([*a, *b, *c, *d, *e, *f, *g, *h])
}

/// How many records an area of version 2 has.
pub fn count_in(bytes: &[u8]) -> u64
    requires { 25 ≤ length bytes.now }
    ensures value { result ≡ count_in bytes.now }
    ensures fits { result < 2 ^ 64 }
    ensures spelled { take 8 (drop 17 bytes.now) ≡ to_le_bytes w64 result }
{
    let [a, b, c, d, e, f, g, h, ..] = bytes.split_at(17).1 else {
        return 0;
    };
    u64::from_le_bytes([*a, *b, *c, *d, *e, *f, *g, *h])
}

/// The generation of a whole area of version 2, or the offset of what is missing there.
pub fn copy_generation(bytes: &[u8]) -> Result<u64, u64>
    ensures value { result ≡ copy_generation bytes.now }
    ensures numbered { IfOk result (λ generation. IsNumbered generation bytes.now) }
{
    if bytes.len() < 17 {
        Err(9)
    } else if bytes.len() < 25 {
        Err(17)
    } else {
        let generation = generation_in(bytes);
        if generation == 0 {
            Err(9)
        } else {
            Ok(generation)
        }
    }
}

/// Which of two whole areas is taken.
pub fn newer(first: Result<u64, u64>, second: Result<u64, u64>) -> Result<u8, u64>
    ensures value { result ≡ newer first second }
    ensures one_of_two { IfOk result (λ area. area ≤ 1) }
{
    match first {
        Err(offset) => Err(offset),
        Ok(g) => match second {
            Err(offset) => Err(offset),
            Ok(h) => {
                if g == h {
                    Err(9)
                } else if g < h {
                    Ok(1)
                } else {
                    Ok(0)
                }
            }
        },
    }
}

/// This area, where its generation can be read.
pub fn only(area: u8, generation: Result<u64, u64>) -> Result<u8, u64>
    requires { area ≤ 1 }
    ensures value { result ≡ only area generation }
    ensures one_of_two { IfOk result (λ area. area ≤ 1) }
{
    match generation {
        Err(offset) => Err(offset),
        Ok(_) => Ok(area),
    }
}

/// The area that is taken, or the offset of what is no log.
pub fn taken(first: &[u8], second: &[u8]) -> Result<u8, u64>
    ensures value { result ≡ taken first.now second.now }
    ensures one_of_two { IfOk result (λ area. area ≤ 1) }
{
    if is_copy(second) {
        if is_log(first) {
            newer(Ok(0), copy_generation(second))
        } else if is_copy(first) {
            newer(copy_generation(first), copy_generation(second))
        } else {
            only(1, copy_generation(second))
        }
    } else if is_log(first) {
        Ok(0)
    } else if is_copy(first) {
        only(0, copy_generation(first))
    } else if first.len() <= 9 {
        Ok(0)
    } else {
        Err(0)
    }
}

/// The length of the record that stands in front, where a whole one does.
pub fn record_length(rest: &[u8]) -> Option<usize>
    ensures whole { IsSome result ↔ IsTrue (is_record rest.now) }
    ensures short { IfSome result (λ n. n ≤ payload_limit) }
    ensures within { IfSome result (λ n. 4 + n ≤ length rest.now) }
    ensures spelled { IfSome result (λ n. take 4 rest.now ≡ to_le_bytes w32 n) }
{
    let [a, b, c, d, ..] = rest else {
        return None;
    };
    let length = u32::from_le_bytes([*a, *b, *c, *d]) as usize;
    if length <= PAYLOAD_LIMIT && 4 + length <= rest.len() {
        Some(length)
    } else {
        None
    }
}

/// The payload of the record that stands in front and what stands behind it, where a whole one does.
pub fn next_record(rest: &[u8]) -> Option<(&[u8], &[u8])>
    ensures none { IfNone result (is_record rest.now ≡ false) }
    ensures record { IfSome result (λ r. rest.now ≡ frame_body r.0.now ++ r.1.now) }
    ensures short { IfSome result (λ r. length r.0.now ≤ payload_limit) }
{
    let length = record_length(rest)?;
    let (payload, next) = rest.split_at(4).1.split_at(length);
    Some((payload, next))
}

/// The records of an area of version 2, and where the frames begin.
pub fn read_records(
    alloc: Global,
    bytes: &[u8],
    count: u64,
) -> Result<(Vec<HeapList<u8>>, usize), LogFault>
    requires { 25 ≤ length bytes.now }
    ensures read { IfOk result (λ r. AreRecords count r.0.items r.1 bytes.now) }
    ensures not_a_log { (n generation : ℕ) → IsErrOf result (LogFault.NotALog n) → log_from generation [] count 25 (drop 25 bytes.now) ≡ Err n }
    ensures disk_works { IsErrOf result LogFault.DiskFault → ⊥ }
    ensures not_full { IsErrOf result LogFault.LogFull → ⊥ }
{
    let mut records = Vec::new(alloc);
    let mut offset = 25usize;
    let mut rest = bytes.split_at(25).1;
    for turn in 0..count {
        match next_record(rest) {
            None => return Err(LogFault::NotALog(offset as u64)),
            Some((payload, next)) => {
                records.push(HeapList::from_vec(payload.to_vec(alloc)?))?;
                rest = next;
                offset += 4 + payload.len();
            }
        }
    }
    Ok((records, offset))
}
