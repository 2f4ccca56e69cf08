//! Starts over disks in memory, and after a crash in each call of an append.
ghost use Rattle.std.specs.Prelude.{[], length, ◌≤◌};

use crate::setup::{BOOTED, HEARD, PROMISED, five_centres};
use mdcc_base::{Centre, Image};
use mdcc_disks::MemoryDisks;
use mdcc_facts::FactStore;
use mdcc_index::PoolFacts;
use mdcc_log::{Frames, LogFault};
use mdcc_node_boot::parts_belong::is_centre;
use mdcc_node_log::{BootFault, StartFault, start};
use std::alloc::Global;
use std::process::Abort;
use std::test::*;

// Booted in epoch 2.
const BOOTED_AGAIN: [u8; 5] = [1, 2, 0, 0, 0];

// Where the append of a third fact was struck and what a crash left of it: the number of its call, the image, and whether
// the fact is there. An opening of two empty areas makes seven calls, one that has nothing to repair five, and an append four: the
// frame is written behind the closed gate, sync, the gate is opened, sync.
const STRUCK: [(u32, Image, bool); 12] = [
    (26, Image::Lost, false),
    (26, Image::Kept, false),
    (26, Image::Torn, false),
    (27, Image::Lost, false),
    (27, Image::Kept, false),
    (27, Image::Torn, false),
    (28, Image::Lost, false),
    (28, Image::Kept, true),
    (28, Image::Torn, false),
    (29, Image::Lost, false),
    (29, Image::Kept, true),
    (29, Image::Torn, false),
];

// Opens the log of the first centre, and appends a payload.
fn append(alloc: Global, disks: &mut MemoryDisks, payload: &[u8]) -> Result<(), LogFault>
    requires { length payload.now ≤ 2097152 }
{
    let (mut log, _payloads) = Frames::open(alloc, disks, Centre::default(), 1024)?;
    log.append(disks, payload)
}

// The epoch of the centre that starts over the disks and an empty store, where its node is of that epoch, or why none starts. A
// checkpoint is due after so many frames.
fn restarted_with<S: FactStore + Drop>(
    rt: &impl Abort,
    alloc: Global,
    store: S,
    disks: &mut MemoryDisks,
    every: u32,
) -> Result<Result<u32, StartFault>, Fail>
    requires empty { S.stands store [] }
    requires every { 1 ≤ every }
{
    let cluster = five_centres(rt);
    let centre = Centre::new(1).unwrap_or_default();
    if !is_centre(&cluster, centre.number()) {
        return Ok(Ok(0));
    }
    match start(alloc, cluster, centre, store, disks, every) {
        Ok(running) => {
            let epoch = running.epoch;
            Ok(Ok(if epoch == running.node.epoch() {
                epoch
            } else {
                0
            }))
        }
        Err(fault) => Ok(Err(fault)),
    }
}

// Over a store of so many cells.
fn restarted_over(
    rt: &impl Abort,
    alloc: Global,
    cells: u32,
    disks: &mut MemoryDisks,
    every: u32,
) -> Result<Result<u32, StartFault>, Fail>
    requires { 1 ≤ every }
{
    let store = PoolFacts::new(alloc, cells).ok().ok_or("a store")?;
    restarted_with(rt, alloc, store, disks, every)
}

fn restarted(
    rt: &impl Abort,
    alloc: Global,
    disks: &mut MemoryDisks,
) -> Result<Result<u32, StartFault>, Fail> {
    restarted_every(rt, alloc, disks, 1024)
}

// Where a checkpoint is due after so many frames.
fn restarted_every(
    rt: &impl Abort,
    alloc: Global,
    disks: &mut MemoryDisks,
    every: u32,
) -> Result<Result<u32, StartFault>, Fail>
    requires { 1 ≤ every }
{
    restarted_over(rt, alloc, 64, disks, every)
}

// Over a store of so many cells.
fn restarted_within(
    rt: &impl Abort,
    alloc: Global,
    cells: u32,
    disks: &mut MemoryDisks,
) -> Result<Result<u32, StartFault>, Fail> {
    restarted_over(rt, alloc, cells, disks, 1024)
}

// Whether the log has these payloads.
fn has_payloads(
    alloc: Global,
    disks: &mut MemoryDisks,
    expected: &[&[u8]],
) -> Result<bool, LogFault> {
    let centre = Centre::new(1).unwrap_or_default();
    let (_log, payloads) = Frames::open(alloc, disks, centre, 1024)?;
    Ok(
        payloads.len() == expected.len()
            && payloads
                .iter()
                .zip(expected)
                .all(|(payload, bytes)| payload.as_slice() == *bytes),
    )
}

// A log of a boot and a promise, and behind them what a crash left of a third fact, whose append stopped in the call of
// this number.
fn left_behind(
    rt: &impl Abort,
    alloc: Global,
    call: u32,
    image: Image,
) -> Result<MemoryDisks, Fail> {
    let mut disks = MemoryDisks::new(alloc, 17, &[call])?;
    append(alloc, &mut disks, &BOOTED)?;
    append(alloc, &mut disks, &PROMISED)?;
    let outcome = append(alloc, &mut disks, &HEARD);
    assert!(rt; outcome.is_err());
    disks.crash(1, image);
    disks.crash(17, image);
    Ok(disks)
}

#[test]
fn after_a_crash_in_each_call_of_an_append(rt: HostRuntime) -> Result<(), Fail> {
    let alloc = rt.alloc();
    let with: [&[u8]; 4] = [&BOOTED, &PROMISED, &HEARD, &BOOTED_AGAIN];
    let without: [&[u8]; 3] = [&BOOTED, &PROMISED, &BOOTED_AGAIN];
    for (call, image, is_there) in STRUCK {
        let mut disks = left_behind(&rt, alloc, call, image)?;
        assert_eq!(rt; restarted(&rt, alloc, &mut disks)?, Ok(2));
        assert_eq!(rt; has_payloads(alloc, &mut disks, &with)?, is_there);
        assert_eq!(rt; has_payloads(alloc, &mut disks, &without)?, !is_there);
    }
    Ok(())
}

#[test]
fn the_first_start(rt: HostRuntime) -> Result<(), Fail> {
    let alloc = rt.alloc();
    let mut disks = MemoryDisks::new(alloc, 17, &[])?;
    assert_eq!(rt; restarted(&rt, alloc, &mut disks)?, Ok(1));
    assert_eq!(rt;
        disks.bytes(1),
        b"MDCCLOG1\x01\x05\x00\x00\x00\x01\x01\x00\x00\x00\x00".as_slice()
    );
    assert_eq!(rt; restarted(&rt, alloc, &mut disks)?, Ok(2));
    let both: [&[u8]; 2] = [&BOOTED, &BOOTED_AGAIN];
    assert!(rt; has_payloads(alloc, &mut disks, &both)?);
    Ok(())
}

// The area that a first checkpoint makes of a log of the boot in epoch 1: its mark, an open area gate, generation 1, one record, and a
// closed gate.
const COPIED: [u8; 35] = [
    0x4d, 0x44, 0x43, 0x43, 0x4c, 0x4f, 0x47, 0x32, 0x01, 0x01, 0, 0, 0, 0, 0, 0, 0, 0x01, 0, 0, 0,
    0, 0, 0, 0, 0x05, 0, 0, 0, 0x01, 0x01, 0, 0, 0, 0,
];

#[test]
fn a_checkpoint_with_the_boot(rt: HostRuntime) -> Result<(), Fail> {
    let alloc = rt.alloc();
    let mut disks = MemoryDisks::new(alloc, 17, &[])?;
    assert_eq!(rt; restarted_every(&rt, alloc, &mut disks, 1)?, Ok(1));
    assert_eq!(rt;
        disks.bytes(1),
        b"MDCCLOG1\x01\x05\x00\x00\x00\x01\x01\x00\x00\x00\x00".as_slice()
    );
    assert_eq!(rt; disks.bytes(17), COPIED.as_slice());
    assert_eq!(rt; restarted_every(&rt, alloc, &mut disks, 1)?, Ok(2));
    let both: [&[u8]; 2] = [&BOOTED, &BOOTED_AGAIN];
    assert!(rt; has_payloads(alloc, &mut disks, &both)?);
    Ok(())
}

// A first start whose boot makes a checkpoint: seven calls open the two empty areas, four append the boot, and eleven make the
// checkpoint. The boot is there from call 12 on, and where call 10 or 11 stopped if what was written is kept.
#[test]
fn after_a_crash_in_each_call_of_a_start(rt: HostRuntime) -> Result<(), Fail> {
    let alloc = rt.alloc();
    let once: [&[u8]; 1] = [&BOOTED];
    let twice: [&[u8]; 2] = [&BOOTED, &BOOTED_AGAIN];
    for call in 1..23u32 {
        for image in [Image::Lost, Image::Kept, Image::Torn] {
            let mut disks = MemoryDisks::new(alloc, 17, &[call])?;
            assert_eq!(rt;
                restarted_every(&rt, alloc, &mut disks, 1)?,
                Err(StartFault::Log(LogFault::DiskFault))
            );
            disks.crash(1, image);
            disks.crash(17, image);
            let is_there = call > 11 || (call > 9 && image == Image::Kept);
            let epoch = if is_there { 2 } else { 1 };
            assert_eq!(rt; restarted_every(&rt, alloc, &mut disks, 1)?, Ok(epoch));
            assert_eq!(rt; has_payloads(alloc, &mut disks, &once)?, !is_there);
            assert_eq!(rt; has_payloads(alloc, &mut disks, &twice)?, is_there);
        }
    }
    let mut disks = MemoryDisks::new(alloc, 17, &[23])?;
    assert_eq!(rt; restarted_every(&rt, alloc, &mut disks, 1)?, Ok(1));
    Ok(())
}

#[test]
fn no_start(rt: HostRuntime) -> Result<(), Fail> {
    let alloc = rt.alloc();
    let mut disks = MemoryDisks::new(alloc, 17, &[1])?;
    assert_eq!(rt;
        restarted(&rt, alloc, &mut disks)?,
        Err(StartFault::Log(LogFault::DiskFault))
    );
    let (mut log, _payloads) = Frames::open(alloc, &mut disks, Centre::default(), 1024)?;
    log.append(&mut disks, &HEARD)?;
    assert_eq!(rt;
        restarted(&rt, alloc, &mut disks)?,
        Err(StartFault::Boot(BootFault::NotARun(1)))
    );
    Ok(())
}

// The two facts of the log need one cell each, and so does the new boot. After the refusal the log is as it was.
#[test]
fn within_cells(rt: HostRuntime) -> Result<(), Fail> {
    let alloc = rt.alloc();
    let mut disks = MemoryDisks::new(alloc, 17, &[])?;
    append(alloc, &mut disks, &BOOTED)?;
    append(alloc, &mut disks, &PROMISED)?;
    assert_eq!(rt;
        restarted_within(&rt, alloc, 2, &mut disks)?,
        Err(StartFault::Boot(BootFault::Room {
            needed: 3,
            cells: 2
        }))
    );
    let before: [&[u8]; 2] = [&BOOTED, &PROMISED];
    assert!(rt; has_payloads(alloc, &mut disks, &before)?);
    assert_eq!(rt; restarted_within(&rt, alloc, 3, &mut disks)?, Ok(2));
    Ok(())
}
