//! Openings, appends and checkpoints, each of whose device calls fails and crashes in turn.
ghost use Rattle.std.specs.Prelude.{◌≤◌, length, IfOk};
ghost use Rattle.mdcc_log_file.specs.Log.{payload_limit};

use crate::groups::numbered;
use mdcc_base::{Centre, HeapList, Image};
use mdcc_disks::{Disks, MemoryDisks};
use mdcc_log::{Frames, LogFault};
use mdcc_world_log_stops::append_due_until;
use std::alloc::Global;
use std::test::Fail;

const IMAGES: [Image; 3] = [Image::Lost, Image::Kept, Image::Torn];

// A log of version 1 with one payload of five bytes, and its copy by the first checkpoint.
const LOG: [u8; 19] = *b"MDCCLOG1\x01\x05\x00\x00\x00\x01\x01\x00\x00\x00\x00";

const COPY: [u8; 35] =
    *b"MDCCLOG2\x01\x01\x00\x00\x00\x00\x00\x00\x00\x01\x00\x00\x00\x00\x00\x00\x00\x05\x00\x00\x00\x01\x01\x00\x00\x00\x00";

// How many device calls `run` makes.
const CALLS: u32 = 121;

// A payload of five bytes.
fn first_boot(alloc: Global) -> Result<HeapList<u8>, LogFault>
    ensures short { IfOk result (λ payload. length payload ≤ payload_limit) }
{
    let mut payload = HeapList::new(alloc);
    payload.push(1)?;
    payload.push(1)?;
    payload.push(0)?;
    payload.push(0)?;
    payload.push(0)?;
    Ok(payload)
}

// Whether a log that is begun, appended to and copied has these bytes.
fn writes_35_bytes(alloc: Global) -> bool {
    let Ok(mut disks) = MemoryDisks::new(alloc, 17, &[]) else {
        return false;
    };
    let Ok((mut log, _payloads)) = Frames::open(alloc, &mut disks, Centre::default(), 1) else {
        return false;
    };
    let Ok(boot) = first_boot(alloc) else {
        return false;
    };
    let copied = log.append_all(&mut disks, [boot].as_slice()).is_ok();
    let packed = log.area() == 1 && !log.due() && disks.bytes(17) == COPY.as_slice();
    copied && packed && disks.bytes(1) == LOG.as_slice()
}

// Whether a log of version 1, as it was written before there were two areas, opens with its payload, and is left as it was.
fn opens_version_1(alloc: Global) -> bool {
    let Ok(mut disks) = MemoryDisks::new(alloc, 17, &[]) else {
        return false;
    };
    let written = disks.write_at(1, 0, LOG.as_slice()).is_ok();
    let Ok((log, payloads)) = Frames::open(alloc, &mut disks, Centre::default(), 1) else {
        return false;
    };
    let read = match payloads.as_slice() {
        [payload] => payload.as_slice() == [1, 1, 0, 0, 0].as_slice(),
        _ => false,
    };
    written && read && log.area() == 0 && disks.bytes(1) == LOG.as_slice()
}

// Whether these are the first so many of the payloads that are appended below: each has its number as its one byte.
fn are_first(payloads: &[HeapList<u8>], count: usize) -> bool {
    let mut next = 0u8;
    for payload in payloads {
        if payload.as_slice() != [next].as_slice() {
            return false;
        }
        next = next.wrapping_add(1);
    }
    payloads.len() == count
}

// Opens the log six times, and appends a payload each time, with a checkpoint behind each second one. Counts those that were
// acknowledged.
fn run(alloc: Global, disks: &mut MemoryDisks, acknowledged: &mut usize) -> Result<(), LogFault> {
    for turn in 0u8..6 {
        let (mut log, _payloads) = Frames::open(alloc, disks, Centre::default(), 2)?;
        log.append_all(disks, [numbered(alloc, turn)?].as_slice())?;
        *acknowledged = acknowledged.saturating_add(1);
    }
    Ok(())
}

// Whether each opening gives the payloads that were acknowledged, with or without the one that was being appended, where the
// call of this number fails and then the disks crash; also behind a further checkpoint. No call above `CALLS` fails.
fn keeps_all(alloc: Global, call: u32, image: Image) -> bool {
    let Ok(mut disks) = MemoryDisks::new(alloc, 17, &[call]) else {
        return false;
    };
    let mut done = 0;
    if run(alloc, &mut disks, &mut done).is_ok() {
        return call > CALLS;
    }
    disks.crash(1, image);
    disks.crash(17, image);
    let Ok((mut log, payloads)) = Frames::open(alloc, &mut disks, Centre::default(), 1) else {
        return false;
    };
    let count = payloads.len();
    if !are_first(payloads.as_slice(), count) || count < done || count > done + 1 {
        return false;
    }
    if log.checkpoint(&mut disks).is_err() {
        return false;
    }
    match Frames::open(alloc, &mut disks, Centre::default(), 1) {
        Ok((_log, again)) => are_first(again.as_slice(), count),
        Err(_) => false,
    }
}

// Whether that is so for each call and each image.
fn each_keeps_all(alloc: Global) -> bool {
    for call in 1..CALLS + 2 {
        for image in IMAGES {
            if !keeps_all(alloc, call, image) {
                return false;
            }
        }
    }
    true
}

// Opens the log so many times, and appends a payload each time, with a checkpoint behind it.
fn append_some(alloc: Global, disks: &mut MemoryDisks, turns: u8) -> Result<(), LogFault> {
    for turn in 0..turns {
        let (mut log, _payloads) = Frames::open(alloc, disks, Centre::default(), 1)?;
        log.append_all(disks, [numbered(alloc, turn)?].as_slice())?;
    }
    Ok(())
}

// Opens it once more, and appends a payload, where the checkpoint behind it stops in this call.
fn stop(alloc: Global, disks: &mut MemoryDisks, turn: u8, call: u8) -> Result<(), LogFault> {
    let (mut log, _payloads) = Frames::open(alloc, disks, Centre::default(), 1)?;
    append_due_until(&mut log, disks, [turn].as_slice(), call)
}

// Whether all payloads are read where the checkpoint behind the last stops in this call and then the disks crash, and whether
// the copy counts, so that no frame is left, just where its area gate was written and is kept.
fn stops_well(alloc: Global, turns: u8, call: u8, image: Image) -> bool {
    let Ok(mut disks) = MemoryDisks::new(alloc, 17, &[]) else {
        return false;
    };
    let appended = append_some(alloc, &mut disks, turns).is_ok();
    if !appended || stop(alloc, &mut disks, turns, call).is_err() {
        return false;
    }
    disks.crash(1, image);
    disks.crash(17, image);
    let Ok((log, payloads)) = Frames::open(alloc, &mut disks, Centre::default(), 1) else {
        return false;
    };
    let counts = call >= 6 && image == Image::Kept;
    are_first(payloads.as_slice(), usize::from(turns) + 1) && log.due() != counts
}

// Whether that is so for each call and each image, over an area that is empty, one of version 1, and one of version 2.
fn each_stops_well(alloc: Global) -> bool {
    for turns in 0..3 {
        for call in 1..8 {
            for image in IMAGES {
                if !stops_well(alloc, turns, call, image) {
                    return false;
                }
            }
        }
    }
    true
}

#[test]
fn a_checkpoint_writes_35_bytes(rt: HostRuntime) -> Result<(), Fail> {
    assert!(rt; writes_35_bytes(rt.alloc()));
    Ok(())
}

#[test]
fn a_log_of_version_1_opens(rt: HostRuntime) -> Result<(), Fail> {
    assert!(rt; opens_version_1(rt.alloc()));
    Ok(())
}

#[test]
fn each_call_may_fail_and_crash(rt: HostRuntime) -> Result<(), Fail> {
    assert!(rt; each_keeps_all(rt.alloc()));
    Ok(())
}

#[test]
fn each_call_of_a_checkpoint_may_stop(rt: HostRuntime) -> Result<(), Fail> {
    assert!(rt; each_stops_well(rt.alloc()));
    Ok(())
}

// Zeros as they stand behind an area whose file was written ahead.
const ZEROS: [u8; 100] = [0; 100];

// What an opening finds and leaves of two areas, each that is not empty with zeros behind it: how many payloads are read, which area is
// in use, and how many bytes each has then.
fn opened_with_zeros(
    alloc: Global,
    first: &[u8],
    second: &[u8],
) -> Result<(usize, u8, usize, usize), LogFault> {
    let Ok(mut disks) = MemoryDisks::new(alloc, 17, &[]) else {
        return Err(LogFault::Memory);
    };
    for (place, bytes) in [(1u8, first), (17u8, second)] {
        if !bytes.is_empty() {
            disks.write_at(place, 0, bytes)?;
            disks.write_at(place, bytes.len() as u64, ZEROS.as_slice())?;
        }
    }
    let (log, payloads) = Frames::open(alloc, &mut disks, Centre::default(), 1000)?;
    Ok((
        payloads.len(),
        log.area(),
        disks.bytes(1).len(),
        disks.bytes(17).len(),
    ))
}

// Zeros behind the closed gate of an area are read as nothing, and cut off the area in use; the other keeps them.
#[test]
fn zeros_behind_an_area_are_no_payloads(rt: HostRuntime) -> Result<(), Fail> {
    let alloc = rt.alloc();
    let mut closed = COPY;
    closed[8] = 0;
    let fresh = *b"MDCCLOG1\x00";
    let half = *b"MDCCLOG1\x01\x05\x00\x00\x00\x01\x01\x00\x00\x00\x00\x02\x00\x00\x00ab\x00";
    let mut both = half;
    both[18] = 1;
    let none: [u8; 0] = [];
    assert_eq!(rt; opened_with_zeros(alloc, &LOG, &none)?, (1, 0, 19, 0));
    assert_eq!(rt; opened_with_zeros(alloc, &LOG, &COPY)?, (1, 1, 119, 35));
    assert_eq!(rt; opened_with_zeros(alloc, &LOG, &closed)?, (1, 0, 19, 135));
    assert_eq!(rt; opened_with_zeros(alloc, &none, &COPY)?, (1, 1, 0, 35));
    assert_eq!(rt; opened_with_zeros(alloc, &fresh, &none)?, (0, 0, 9, 0));
    assert_eq!(rt; opened_with_zeros(alloc, &half, &none)?, (1, 0, 19, 0));
    assert_eq!(rt; opened_with_zeros(alloc, &both, &none)?, (2, 0, 26, 0));
    Ok(())
}
