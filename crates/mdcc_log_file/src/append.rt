//! How payloads are appended.
ghost use Rattle.std.specs.Prelude.{◌≡◌, ◌≤◌, ◌+◌, ◌∷◌, ◌++◌, [], List, ℕ, length, vec_len, vec_capacity, IsTrue, OnOk, OnErr};
ghost use Rattle.mdcc_base.specs.Causes.{HasCause};
ghost use Rattle.mdcc_disks.specs.Disks.{KeepsOthers, LeavesOnly};
ghost use Rattle.mdcc_log_file.specs.Log.{frame_body, frame_bytes};
ghost use Rattle.mdcc_log_file.specs.Crash.{AreShort};
ghost use Rattle.mdcc_log_file.specs.Calls.{MadeSome, with_calls};
ghost use Rattle.mdcc_log_file.specs.Append.{IsAtEnd, MayStandBehind, behind_calls, group_body};

use crate::steps::write_through;
use mdcc_base::{Failed, HeapList};
use mdcc_disks::Disks;
use std::alloc::AllocError;

// Lays out what stands behind the gate of a frame.
fn lay_first(buffer: &mut Vec<u8>, payload: &[u8])
    requires room { 2097157 ≤ vec_capacity buffer.old }
    requires short { length payload.now ≤ 2097152 }
    ensures items { buffer.new.items ≡ frame_body payload.now }
    ensures len { vec_len buffer.new ≡ length payload.now + 4 }
    ensures room { 2097157 ≤ vec_capacity buffer.new }
{
    let length = (payload.len() as u32).to_le_bytes();
    buffer.clear();
    buffer.extend_from_slice(&length).unwrap();
    buffer.extend_from_slice(payload).unwrap();
}

// Adds the frame of a payload.
fn push_frame(buffer: &mut Vec<u8>, payload: &[u8]) -> Result<(), AllocError>
    requires short { length payload.now ≤ 2097152 }
    ensures items { OnOk result (buffer.new.items ≡ buffer.old.items ++ frame_bytes payload.now) }
    ensures capacity { vec_capacity buffer.old ≤ vec_capacity buffer.new }
{
    let length = (payload.len() as u32).to_le_bytes();
    buffer.push(1)?;
    buffer.extend_from_slice(&length)?;
    buffer.extend_from_slice(payload)?;
    Ok(())
}

/// Lays out what is written for payloads that are appended together, of which this is the first: what stands behind the gate of
/// its frame, the frames of the others, and a closed gate. One payload alone finds room for it, and takes no memory.
pub fn lay_out(
    buffer: &mut Vec<u8>,
    first: &[u8],
    others: &[HeapList<u8>],
) -> Result<(), AllocError>
    requires room { 2097157 ≤ vec_capacity buffer.old }
    requires short { length first.now ≤ 2097152 }
    requires others { AreShort others.now }
    ensures items { OnOk result (buffer.new.items ≡ group_body (first.now ∷ others.now) ++ 0 ∷ []) }
    ensures room { 2097157 ≤ vec_capacity buffer.new }
    ensures alone { others.now ≡ [] → OnErr result ⊥ }
{
    lay_first(buffer, first);
    if others.is_empty() {
        buffer.push(0).unwrap();
        return Ok(());
    }
    for payload in others {
        push_frame(buffer, payload.as_slice())?;
    }
    buffer.push(0)?;
    Ok(())
}

/// Writes bytes that end with a closed gate behind the closed gate, and then opens that gate.
pub fn append_behind<D: Disks>(
    disks: &mut D,
    place: u8,
    size: u64,
    bytes: &[u8],
) -> Result<(), Failed>
    requires size { 9 ≤ size }
    requires settled { IsTrue (D.disk disks.old place).told
        → (front : List ℕ) × IsAtEnd front size (D.disk disks.old place).bytes (D.may_leave disks.old place) }
    ensures acknowledged { (front inner : List ℕ) → bytes.now ≡ inner ++ 0 ∷ [] → IsTrue (D.disk disks.old place).told
        → IsAtEnd front size (D.disk disks.old place).bytes (D.may_leave disks.old place)
        → OnOk result (IsAtEnd (front ++ 1 ∷ inner) (size + length bytes.now)
        (D.disk disks.new place).bytes (D.may_leave disks.new place)) }
    ensures any_moment { (front inner : List ℕ) → bytes.now ≡ inner ++ 0 ∷ [] → IsTrue (D.disk disks.old place).told
        → IsAtEnd front size (D.disk disks.old place).bytes (D.may_leave disks.old place)
        → LeavesOnly D.moment D.left_since disks.old disks.new place (MayStandBehind front inner) }
    ensures others { KeepsOthers D.disk D.may_leave D.moment D.left_since disks.old disks.new place }
    ensures calls { MadeSome (behind_calls size bytes.now)
        (D.disk disks.old place).calls (D.disk disks.new place).calls }
    ensures all_calls { OnOk result ((D.disk disks.new place).calls
        ≡ with_calls (behind_calls size bytes.now) (D.disk disks.old place).calls) }
    ensures cause { HasCause (D.disk disks.old place).faults (D.disk disks.new place).faults result }
{
    write_through(disks, place, size, bytes)?;
    write_through(disks, place, size - 1, &[1])?;
    Ok(())
}
