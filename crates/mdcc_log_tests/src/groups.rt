//! Payloads that are appended together, where each device call fails and crashes in turn.
ghost use Rattle.std.specs.Prelude.{◌≤◌, length, IfOk};
ghost use Rattle.mdcc_log_file.specs.Log.{payload_limit};

use mdcc_base::{Centre, HeapList, Image};
use mdcc_disks::MemoryDisks;
use mdcc_log::{Frames, LogFault};
use std::alloc::Global;
use std::test::Fail;

const IMAGES: [Image; 3] = [Image::Lost, Image::Kept, Image::Torn];

// A log of version 1 with the payloads 7 and 8, each of one byte.
const LOG: [u8; 21] = *b"MDCCLOG1\x01\x01\x00\x00\x00\x07\x01\x01\x00\x00\x00\x08\x00";

// A payload that has this number as its one byte.
pub(crate) fn numbered(alloc: Global, number: u8) -> Result<HeapList<u8>, LogFault>
    ensures short { IfOk result (λ payload. length payload ≤ payload_limit) }
{
    let mut payload = HeapList::new(alloc);
    payload.push(number)?;
    Ok(payload)
}

// Opens the log and appends these two payloads together.
fn append_two(
    alloc: Global,
    disks: &mut MemoryDisks,
    first: u8,
    second: u8,
) -> Result<(), LogFault> {
    let (mut log, _payloads) = Frames::open(alloc, disks, Centre::default(), 4)?;
    let group = [numbered(alloc, first)?, numbered(alloc, second)?];
    log.append_all(disks, group.as_slice())
}

// Opens the log and appends three payloads together, from this number on.
fn append_three(alloc: Global, disks: &mut MemoryDisks, first: u8) -> Result<(), LogFault> {
    let (mut log, _payloads) = Frames::open(alloc, disks, Centre::default(), 4)?;
    let group = [
        numbered(alloc, first)?,
        numbered(alloc, first.wrapping_add(1))?,
        numbered(alloc, first.wrapping_add(2))?,
    ];
    log.append_all(disks, group.as_slice())
}

// Whether a log of two payloads that were appended together has these bytes.
fn writes_21_bytes(alloc: Global) -> bool {
    let Ok(mut disks) = MemoryDisks::new(alloc, 17, &[]) else {
        return false;
    };
    append_two(alloc, &mut disks, 7, 8).is_ok() && disks.bytes(1) == LOG.as_slice()
}

// Whether these are numbered from 0 on.
fn are_numbered(payloads: &[HeapList<u8>]) -> bool {
    let mut next = 0u8;
    for payload in payloads {
        if payload.as_slice() != [next].as_slice() {
            return false;
        }
        next = next.wrapping_add(1);
    }
    true
}

// Appends four groups of three, with a checkpoint behind each second one. Counts those payloads that were acknowledged.
fn run(alloc: Global, disks: &mut MemoryDisks, acknowledged: &mut usize) -> Result<(), LogFault> {
    for first in [0u8, 3, 6, 9] {
        append_three(alloc, disks, first)?;
        *acknowledged = acknowledged.saturating_add(3);
    }
    Ok(())
}

// Whether all twelve are read then, and both checkpoints were made.
fn gives_twelve(alloc: Global) -> bool {
    let Ok(mut disks) = MemoryDisks::new(alloc, 17, &[]) else {
        return false;
    };
    let mut done = 0;
    let appended = run(alloc, &mut disks, &mut done).is_ok();
    let Ok((log, payloads)) = Frames::open(alloc, &mut disks, Centre::default(), 4) else {
        return false;
    };
    let read = are_numbered(payloads.as_slice()) && payloads.len() == 12;
    appended && done == 12 && read && log.area() == 0 && log.body() == 60
}

// Whether opening gives the payloads that were acknowledged, with or without all three of the group that was being appended,
// where the call of this number fails and then the disks crash. None where no call failed.
fn keeps_all(alloc: Global, call: u32, image: Image) -> Option<bool> {
    let Ok(mut disks) = MemoryDisks::new(alloc, 17, &[call]) else {
        return Some(false);
    };
    let mut done = 0;
    if run(alloc, &mut disks, &mut done).is_ok() {
        return None;
    }
    disks.crash(1, image);
    disks.crash(17, image);
    let Ok((_log, payloads)) = Frames::open(alloc, &mut disks, Centre::default(), 4) else {
        return Some(false);
    };
    let count = payloads.len();
    let all_or_none = count == done || count == done.saturating_add(3);
    Some(all_or_none && are_numbered(payloads.as_slice()))
}

// Whether that is so for each call and each image.
fn each_keeps_all(alloc: Global) -> bool {
    for image in IMAGES {
        let mut passed = false;
        for call in 1..200 {
            match keeps_all(alloc, call, image) {
                None => passed = true,
                Some(false) => return false,
                Some(true) => {}
            }
        }
        if !passed {
            return false;
        }
    }
    true
}

#[test]
fn two_payloads_write_21_bytes(rt: HostRuntime) -> Result<(), Fail> {
    assert!(rt; writes_21_bytes(rt.alloc()));
    Ok(())
}

#[test]
fn three_payloads_at_a_time_are_read_again(rt: HostRuntime) -> Result<(), Fail> {
    assert!(rt; gives_twelve(rt.alloc()));
    Ok(())
}

#[test]
fn each_call_of_a_group_may_fail_and_crash(rt: HostRuntime) -> Result<(), Fail> {
    assert!(rt; each_keeps_all(rt.alloc()));
    Ok(())
}
