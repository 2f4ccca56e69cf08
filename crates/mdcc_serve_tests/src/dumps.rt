//! What is printed of logs that are written byte by byte, as the formats have them.
use mdcc_base::{MemorySink, MemorySource};
use mdcc_command_dump::run_dump;
use mdcc_disks::{Disks, MemoryDisks};
use std::alloc::Global;
use std::process::Abort;
use std::test::Fail;

// One centre.
const ONE: &str =
    "{\"centres\":1,\"classic\":1,\"fast\":1,\"gamma\":100,\"bounds\":[[0,1000]],\"hosts\":[\"127.0.0.1\"],\"port\":9000,\"cells\":100}";

// The log of a boot alone.
const BOOTED: [u8; 19] = [
    77, 68, 67, 67, 76, 79, 71, 49, 1, 5, 0, 0, 0, 1, 1, 0, 0, 0, 0,
];

// What a dump wrote and answered.
#[derive(Drop)]
struct Ran {
    status: u8,
    out: MemorySink,
    err: MemorySink,
}

// Dumps the log of a centre, by a configuration.
fn dumped_by(
    alloc: Global,
    config: &str,
    centre: u32,
    disks: &mut MemoryDisks,
) -> Result<Ran, Fail> {
    let mut source = MemorySource::new(alloc, config.as_bytes(), &[])
        .ok()
        .ok_or("a source")?;
    let mut out = MemorySink::new(alloc, &[]).ok().ok_or("a sink")?;
    let mut err = MemorySink::new(alloc, &[]).ok().ok_or("a sink")?;
    let status = run_dump(alloc, centre, &mut source, &mut out, &mut err, disks);
    Ok(Ran { status, out, err })
}

// Dumps the log of a centre, by the configuration of one.
fn dumped(alloc: Global, centre: u32, disks: &mut MemoryDisks) -> Result<Ran, Fail> {
    dumped_by(alloc, ONE, centre, disks)
}

// Whether a dump wrote and answered this.
fn is_dump(ran: &Ran, out: &str, err: &str, status: u8) -> bool {
    ran.status == status && ran.out.bytes() == out.as_bytes() && ran.err.bytes() == err.as_bytes()
}

// The disks of which the first has these bytes.
fn disks_of(alloc: Global, log: &[u8]) -> Result<MemoryDisks, Fail> {
    let mut disks = MemoryDisks::new(alloc, 25, &[]).ok().ok_or("disks")?;
    disks.write_at(1, 0, log).ok().ok_or("a write")?;
    Ok(disks)
}

// Three centres.
const THREE: &str =
    "{\"centres\":3,\"classic\":2,\"fast\":3,\"gamma\":100,\"bounds\":[[0,1000]],\"hosts\":[\"127.0.0.1\",\"127.0.0.1\",\"127.0.0.1\"],\"port\":9000,\"cells\":100}";

// The frames of a promise of `a` from version 0 to 2 for ballot 1.1.3, and of `a` at version 1 with the deltas of 1.1.1 and 2.1.1, with
// the closed gate behind them.
const PROMISED: [u8; 33] = [
    1, 28, 0, 0, 0, 2, 1, 97, 0, 0, 0, 0, 0, 0, 0, 0, 2, 0, 0, 0, 0, 0, 0, 0, 1, 0, 0, 0, 1, 0, 0,
    0, 3,
];

const ADOPTED: [u8; 66] = [
    1, 60, 0, 0, 0, 5, 1, 97, 1, 0, 0, 0, 0, 0, 0, 0, 0, 1, 10, 0, 0, 0, 0, 0, 0, 0, 2, 1, 1, 0, 0,
    0, 1, 0, 0, 0, 1, 1, 1, 0, 0, 0, 0, 0, 0, 0, 2, 1, 0, 0, 0, 1, 0, 0, 0, 1, 1, 1, 0, 0, 0, 0, 0,
    0, 0, 0,
];

#[test]
fn a_promise_and_what_was_adopted(rt: HostRuntime) -> Result<(), Fail> {
    let alloc = rt.alloc();
    let mut log = Vec::new(alloc);
    log.extend_from_slice(&BOOTED[..18])?;
    log.extend_from_slice(&PROMISED)?;
    log.extend_from_slice(&ADOPTED)?;
    let mut disks = disks_of(alloc, log.as_slice())?;
    let ran = dumped_by(alloc, THREE, 1, &mut disks)?;
    assert!(rt;
        is_dump(
            &ran,
            "1 booted 1\n2 promised a 0 2 1.1.3\n3 adopted a 1 adds 2\n",
            "",
            0
        )
    );
    Ok(())
}

// The frame of a floor: centre 1, epoch 1, sequence number 1, with the closed gate behind it.
const FLOOR: [u8; 16] = [1, 10, 0, 0, 0, 6, 1, 1, 0, 0, 0, 1, 0, 0, 0, 0];

// No rule sets a floor yet, so a log that has one is of no node.
#[test]
fn a_floor(rt: HostRuntime) -> Result<(), Fail> {
    let alloc = rt.alloc();
    let mut log = Vec::new(alloc);
    log.extend_from_slice(&BOOTED[..18])?;
    log.extend_from_slice(&FLOOR)?;
    let mut disks = disks_of(alloc, log.as_slice())?;
    let ran = dumped(alloc, 1, &mut disks)?;
    assert!(rt; is_dump(&ran, "", "mdcc: log 1: NotARun 2\n", 9));
    Ok(())
}
