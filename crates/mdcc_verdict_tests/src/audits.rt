//! Logs that are audited, written byte by byte as the formats have them.
ghost use Rattle.std.specs.Prelude.{◌≡◌, IfOk};

use crate::runs::{is_run, new_disks, run_word};
use mdcc_disks::{Disks, MemoryDisks};
use std::alloc::Global;
use std::process::Abort;
use std::test::Fail;

// One centre, and two.
const ONE: &str =
    "{\"centres\":1,\"classic\":1,\"fast\":1,\"gamma\":100,\"bounds\":[[0,1000]],\"hosts\":[\"127.0.0.1\"],\"port\":9000,\"cells\":100}";

const TWO: &str =
    "{\"centres\":2,\"classic\":2,\"fast\":2,\"gamma\":100,\"bounds\":[[0,1000]],\"hosts\":[\"127.0.0.1\",\"127.0.0.1\"],\"port\":9000,\"cells\":100}";

// The choice that inserts `a` with value 10, as transaction 1.1.1.
const CHOICE: [u8; 42] = [
    1, 1, 0, 0, 0, 1, 0, 0, 0, 1, 97, 0, 0, 0, 0, 0, 0, 0, 0, 1, 0, 1, 10, 0, 0, 0, 0, 0, 0, 0, 0,
    1, 1, 97, 0, 0, 0, 0, 0, 0, 0, 0,
];

// The head of a log and the frame of a boot.
const BOOTED: [u8; 18] = [77, 68, 67, 67, 76, 79, 71, 49, 1, 5, 0, 0, 0, 1, 1, 0, 0, 0];

// The frames of the vote for that choice at ballot 0.0.0 and of its commit, up to the choice of each, and that of an abort.
const VOTED: [u8; 30] = [
    1, 68, 0, 0, 0, 3, 1, 97, 0, 0, 0, 0, 0, 0, 0, 0, 0, 0, 0, 0, 0, 0, 0, 0, 0, 1, 0, 0, 0, 1,
];

const COMMITTED: [u8; 17] = [1, 54, 0, 0, 0, 4, 1, 1, 0, 0, 0, 1, 0, 0, 0, 1, 1];

const ABORTED: [u8; 16] = [1, 11, 0, 0, 0, 4, 1, 1, 0, 0, 0, 1, 0, 0, 0, 0];

// A log of a boot and these frames.
fn log_of(alloc: Global, frames: &[&[u8]]) -> Result<Vec<u8>, Fail> {
    let mut log = Vec::from_slice(alloc, &BOOTED)?;
    for frame in frames {
        log.extend_from_slice(frame)?;
    }
    log.push(0)?;
    Ok(log)
}

// The disks of two centres with these logs.
fn disks_of(alloc: Global, first: &[u8], second: &[u8]) -> Result<MemoryDisks, Fail>
    ensures { IfOk result (λ disks. disks.count ≡ 25) }
{
    let mut disks = new_disks(alloc)?;
    disks.write_at(1, 0, first).ok().ok_or("a write")?;
    disks.write_at(2, 0, second).ok().ok_or("a write")?;
    Ok(disks)
}

// Whether an audit of two logs prints and answers this.
fn gives(
    alloc: Global,
    config: &str,
    first: &[u8],
    second: &[u8],
    out: &str,
    err: &str,
    status: u8,
) -> Result<bool, Fail> {
    let mut disks = disks_of(alloc, first, second)?;
    let ran = run_word(alloc, "audit", config.as_bytes(), &[], &mut disks)?;
    Ok(is_run(&ran, out, err, status))
}

#[test]
fn an_insert_commits(rt: HostRuntime) -> Result<(), Fail> {
    let alloc = rt.alloc();
    let log = log_of(alloc, &[&VOTED, &CHOICE, &[0], &COMMITTED, &CHOICE])?;
    let out = "1.1.1 commit\naudit transactions 1 commits 1 aborts 0 open 0\n";
    assert!(rt; gives(alloc, ONE, &log, &[], out, "", 0)?);
    Ok(())
}

#[test]
fn a_vote_below_a_quorum_is_open(rt: HostRuntime) -> Result<(), Fail> {
    let alloc = rt.alloc();
    let voted = log_of(alloc, &[&VOTED, &CHOICE, &[0]])?;
    let booted = log_of(alloc, &[])?;
    let out = "1.1.1 open\naudit transactions 1 commits 0 aborts 0 open 1\n";
    assert!(rt; gives(alloc, TWO, &voted, &booted, out, "", 0)?);
    let out = "1.1.1 commit\naudit transactions 1 commits 1 aborts 0 open 0\n";
    assert!(rt; gives(alloc, TWO, &voted, &voted, out, "", 0)?);
    Ok(())
}

#[test]
fn contradictions(rt: HostRuntime) -> Result<(), Fail> {
    let alloc = rt.alloc();
    let aborted = log_of(alloc, &[&ABORTED])?;
    let committed = log_of(alloc, &[&COMMITTED, &CHOICE])?;
    let booted = log_of(alloc, &[])?;
    let err = "mdcc: audit Outcomes 1 2 2 2\n";
    assert!(rt; gives(alloc, TWO, &aborted, &committed, "", err, 13)?);
    let err = "mdcc: audit Undecided 2 2 2 2\n";
    assert!(rt; gives(alloc, TWO, &booted, &committed, "", err, 13)?);
    Ok(())
}

#[test]
fn logs_that_are_none(rt: HostRuntime) -> Result<(), Fail> {
    let alloc = rt.alloc();
    let booted = log_of(alloc, &[])?;
    let err = "mdcc: log 2: NotALog 0\n";
    assert!(rt; gives(alloc, TWO, &booted, b"something else", "", err, 9)?);
    let out = "audit transactions 0 commits 0 aborts 0 open 0\n";
    assert!(rt; gives(alloc, TWO, &[], &booted, out, "", 0)?);
    assert!(rt; gives(alloc, "{}", &[], &[], "", "mdcc: config: Member\n", 3)?);
    Ok(())
}
