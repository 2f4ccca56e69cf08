//! The frames of a log, as they stand in a file.
ghost use Rattle.std.specs.Prelude.{◌≡◌, ◌≤◌, ◌<◌, ◌+◌, ◌++◌, ◌↔◌, false, true, ℕ, length, take, drop, IsTrue, IsSome, IfSome, IfNone, IfOk, IsErrOf, Err};
ghost use Rattle.std.specs.Int.{w32, to_le_bytes};
ghost use Rattle.mdcc_log_file.specs.Frames.{AreFrames};
ghost use Rattle.mdcc_log_file.specs.Log.{frame_bytes, frames_from, is_open, is_whole_frame, payload_limit};

use crate::LogFault;
use mdcc_base::HeapList;
use std::alloc::Global;

/// The most bytes of a payload.
pub const PAYLOAD_LIMIT: usize = 2_097_152;

/// The most bytes of a log.
pub const LOG_LIMIT: u64 = 1 << 30;

/// Whether an open gate stands in front.
pub fn is_open(rest: &[u8]) -> bool
    ensures { result ≡ is_open rest.now }
{
    match rest {
        [gate, ..] => *gate == 1,
        [] => false,
    }
}

/// The length of the payload at an open gate, where a frame stands there with a gate behind it.
pub fn frame_length(rest: &[u8]) -> Option<usize>
    ensures whole { IsSome result ↔ IsTrue (is_whole_frame rest.now) }
    ensures short { IfSome result (λ n. n ≤ payload_limit) }
    ensures within { IfSome result (λ n. 5 + n < length rest.now) }
    ensures spelled { IfSome result (λ n. take 4 (drop 1 rest.now) ≡ to_le_bytes w32 n) }
{
    let [_, a, b, c, d, ..] = rest else {
        return None;
    };
    let length = u32::from_le_bytes([*a, *b, *c, *d]) as usize;
    if length <= PAYLOAD_LIMIT && 5 + length < rest.len() {
        Some(length)
    } else {
        None
    }
}

/// The payload at an open gate and what stands behind it, where a frame stands there with a gate behind it.
pub fn next_frame(rest: &[u8]) -> Option<(&[u8], &[u8])>
    requires { is_open rest.now ≡ true }
    ensures none { IfNone result (is_whole_frame rest.now ≡ false) }
    ensures frame { IfSome result (λ r. rest.now ≡ frame_bytes r.0.now ++ r.1.now) }
    ensures short { IfSome result (λ r. length r.0.now ≤ payload_limit) }
    ensures more { IfSome result (λ r. 0 < length r.1.now) }
{
    let length = frame_length(rest)?;
    let (payload, next) = rest.split_at(5).1.split_at(length);
    Some((payload, next))
}

/// Adds the payloads of the frames from an offset on to those of the records. Tells how many they are, and where the last gate
/// stands.
pub fn read_tail(
    alloc: Global,
    bytes: &[u8],
    start: usize,
    records: Vec<HeapList<u8>>,
) -> Result<(Vec<HeapList<u8>>, u64, usize), LogFault>
    requires { start < length bytes.now }
    ensures read { IfOk result (λ r. AreFrames start records.items r.0.items r.1 r.2 bytes.now) }
    ensures not_a_log { (n most : ℕ) → IsErrOf result (LogFault.NotALog n) → length (drop start bytes.now) ≤ most
        → frames_from most start (drop start bytes.now) ≡ Err n }
    ensures disk_works { IsErrOf result LogFault.DiskFault → ⊥ }
    ensures not_full { IsErrOf result LogFault.LogFull → ⊥ }
{
    let mut payloads = records;
    let mut count = 0u64;
    let mut gate = start;
    let mut rest = bytes.split_at(start).1;
    while is_open(rest) {
        match next_frame(rest) {
            None => return Err(LogFault::NotALog(gate as u64)),
            Some((payload, next)) => {
                payloads.push(HeapList::from_vec(payload.to_vec(alloc)?))?;
                rest = next;
                gate += 5 + payload.len();
                count += 1;
            }
        }
    }
    Ok((payloads, count, gate))
}
