//! Logs byte by byte, as the formats have them: what is printed of them, and which are refused.
ghost use Rattle.std.specs.Prelude.{◌≡◌, IfOk};

use crate::datagrams::CHOICE;
use crate::program::{NO_FAULTS, ONE, SMALL, disks_of, run_on, run_on_log};
use mdcc_disks::{Disks, MemoryDisks};
use mdcc_link::{Link, MemoryLink};
use std::alloc::Global;
use std::process::Abort;
use std::test::Fail;

/// The log of a boot alone.
pub(crate) const BOOTED: [u8; 19] = [
    77, 68, 67, 67, 76, 79, 71, 49, 1, 5, 0, 0, 0, 1, 1, 0, 0, 0, 0,
];

/// Behind the length of each, the vote for the choice of the insert at ballot 0.0.0, and its commit, up to the choice.
pub(crate) const VOTED: [u8; 29] = [
    68, 0, 0, 0, 3, 1, 97, 0, 0, 0, 0, 0, 0, 0, 0, 0, 0, 0, 0, 0, 0, 0, 0, 0, 1, 0, 0, 0, 1,
];

const HEARD: [u8; 16] = [54, 0, 0, 0, 4, 1, 1, 0, 0, 0, 1, 0, 0, 0, 1, 1];

/// The log of a boot, that vote and that commit: three frames.
pub(crate) fn insert_log(alloc: Global) -> Result<Vec<u8>, Fail> {
    let mut log = Vec::new(alloc);
    log.extend_from_slice(&BOOTED[..18])?;
    log.extend_from_slice(&[1])?;
    log.extend_from_slice(&VOTED)?;
    log.extend_from_slice(&CHOICE)?;
    log.extend_from_slice(&[0, 1])?;
    log.extend_from_slice(&HEARD)?;
    log.extend_from_slice(&CHOICE)?;
    log.extend_from_slice(&[0])?;
    Ok(log)
}

// The head of an area of version 2, of generation 1, before its count of records.
const AREA: [u8; 17] = [77, 68, 67, 67, 76, 79, 71, 50, 1, 1, 0, 0, 0, 0, 0, 0, 0];

// What a checkpoint makes of the log of a boot.
const BOOTED_AREA: [u8; 35] = [
    77, 68, 67, 67, 76, 79, 71, 50, 1, 1, 0, 0, 0, 0, 0, 0, 0, 1, 0, 0, 0, 0, 0, 0, 0, 5, 0, 0, 0,
    1, 1, 0, 0, 0, 0,
];

// What a checkpoint makes of the log of an insert: three records, and a tail without frames.
fn insert_area(alloc: Global) -> Result<Vec<u8>, Fail> {
    let mut area = Vec::new(alloc);
    area.extend_from_slice(&AREA)?;
    area.extend_from_slice(&[3, 0, 0, 0, 0, 0, 0, 0])?;
    area.extend_from_slice(&BOOTED[9..18])?;
    area.extend_from_slice(&VOTED)?;
    area.extend_from_slice(&CHOICE)?;
    area.extend_from_slice(&[0])?;
    area.extend_from_slice(&HEARD)?;
    area.extend_from_slice(&CHOICE)?;
    area.extend_from_slice(&[0])?;
    Ok(area)
}

// The same where the commit is a frame of the tail.
fn insert_tail(alloc: Global) -> Result<Vec<u8>, Fail> {
    let mut area = Vec::new(alloc);
    area.extend_from_slice(&AREA)?;
    area.extend_from_slice(&[2, 0, 0, 0, 0, 0, 0, 0])?;
    area.extend_from_slice(&BOOTED[9..18])?;
    area.extend_from_slice(&VOTED)?;
    area.extend_from_slice(&CHOICE)?;
    area.extend_from_slice(&[0, 1])?;
    area.extend_from_slice(&HEARD)?;
    area.extend_from_slice(&CHOICE)?;
    area.extend_from_slice(&[0])?;
    Ok(area)
}

// What a dump of these two areas prints and answers.
fn check(
    rt: &impl Abort,
    alloc: Global,
    log: &[u8],
    other: &[u8],
    out: &str,
    err: &str,
    status: u8,
) -> Result<(), Fail> {
    let ran = run_on_log(alloc, &["dump", "1"], SMALL, log, other)?;
    assert!(rt; ran.is(out, err, status), "{err}");
    Ok(())
}

const FACTS: &str = "1 booted 1\n2 voted a 0 0.0.0 1.1.1 accept\n3 heard 1.1.1 commit\n";

// The first area alone; a checkpoint beside it; one that did not end, with each gate that is not open; and one that the tail follows.
#[test]
fn a_dump_is_the_same_before_and_after_a_checkpoint(rt: HostRuntime) -> Result<(), Fail> {
    let alloc = rt.alloc();
    let log = insert_log(alloc)?;
    let mut area = insert_area(alloc)?;
    assert!(rt; area.len() >= 9);
    check(&rt, alloc, &log, &[], FACTS, "", 0)?;
    check(&rt, alloc, &log, &area, FACTS, "", 0)?;
    check(&rt, alloc, &log, &area[..9], FACTS, "", 0)?;
    check(&rt, alloc, &[], &area, FACTS, "", 0)?;
    check(&rt, alloc, &[], &insert_tail(alloc)?, FACTS, "", 0)?;
    check(&rt, alloc, &BOOTED, &area, FACTS, "", 0)?;
    for gate in [0u8, 165] {
        area[8] = gate;
        check(&rt, alloc, &log, &area, FACTS, "", 0)?;
    }
    Ok(())
}

#[test]
fn a_dump_of_a_boot(rt: HostRuntime) -> Result<(), Fail> {
    let alloc = rt.alloc();
    check(&rt, alloc, &[], &[], "", "", 0)?;
    check(&rt, alloc, &BOOTED, &[], "1 booted 1\n", "", 0)?;
    check(&rt, alloc, &BOOTED, &BOOTED_AREA, "1 booted 1\n", "", 0)
}

// What stands at three disks of other centres.
const NEIGHBOUR: &[u8] = b"the log of another centre";

// Disks of which those of centre 1 have these bytes, beside those of other centres.
fn neighbours_of(alloc: Global, log: &[u8], other: &[u8]) -> Result<MemoryDisks, Fail>
    ensures { IfOk result (λ disks. disks.count ≡ 25) }
{
    let mut disks = disks_of(alloc, log, other)?;
    disks.write_at(2, 0, NEIGHBOUR).ok().ok_or("a write")?;
    disks.write_at(18, 0, NEIGHBOUR).ok().ok_or("a write")?;
    disks.write_at(25, 0, NEIGHBOUR).ok().ok_or("a write")?;
    Ok(disks)
}

// Whether all disks are so still.
fn are_kept(disks: &MemoryDisks, log: &[u8], other: &[u8]) -> bool {
    for place in 1..26u8 {
        let expected: &[u8] = match place {
            1 => log,
            17 => other,
            2 | 18 | 25 => NEIGHBOUR,
            _ => &[],
        };
        if disks.bytes(place) != expected {
            return false;
        }
    }
    true
}

// The commands that open the log of centre 1.
const OPENING: [&[&str]; 3] = [&["dump", "1"], &["node", "1", "3"], &["cluster", "3"]];

// Each of them refuses a log in these areas, which have no frame that is torn. Nothing is printed, all disks are as they were, and no
// call of the link is made, of which the first would fail: what waits there waits.
fn refuses(
    rt: &impl Abort,
    alloc: Global,
    input: &str,
    log: &[u8],
    other: &[u8],
    err: &str,
    status: u8,
) -> Result<(), Fail> {
    for words in OPENING {
        let mut disks = neighbours_of(alloc, log, other)?;
        let mut link = MemoryLink::new(alloc, &[1])?;
        link.put(17, b"waits")?;
        let ran = run_on(alloc, words, input, &NO_FAULTS, &mut disks, &mut link)?;
        assert!(rt; ran.is("", err, status), "{err}");
        assert!(rt; are_kept(&disks, log, other), "{err}");
        assert!(rt; link.waits(17) && link.sent(0).is_none(), "{err}");
    }
    Ok(())
}

// The same where these areas are no log, or the log of no node.
fn refuses_log(
    rt: &impl Abort,
    alloc: Global,
    log: &[u8],
    other: &[u8],
    err: &str,
) -> Result<(), Fail> {
    refuses(rt, alloc, SMALL, log, other, err, 9)
}

// Another beginning; a frame that does not end, and one that is too long; two areas of one generation; an area whose last gate is away.
#[test]
fn what_is_no_log(rt: HostRuntime) -> Result<(), Fail> {
    let alloc = rt.alloc();
    let mut long = BOOTED;
    long[11] = 33;
    refuses_log(
        &rt,
        alloc,
        b"something else",
        &[],
        "mdcc: log 1: NotALog 0\n",
    )?;
    refuses_log(&rt, alloc, &BOOTED[..18], &[], "mdcc: log 1: NotALog 8\n")?;
    refuses_log(&rt, alloc, &long, &[], "mdcc: log 1: NotALog 8\n")?;
    refuses_log(
        &rt,
        alloc,
        &BOOTED_AREA,
        &BOOTED_AREA,
        "mdcc: log 1: NotALog 9\n",
    )?;
    refuses_log(
        &rt,
        alloc,
        &BOOTED,
        &BOOTED_AREA[..34],
        "mdcc: log 1: NotALog 34\n",
    )
}

// A first boot with the second epoch, a second one with the first, and a payload of another kind.
#[test]
fn what_is_the_log_of_no_node(rt: HostRuntime) -> Result<(), Fail> {
    let alloc = rt.alloc();
    let mut second = BOOTED;
    second[14] = 2;
    refuses_log(&rt, alloc, &second, &[], "mdcc: log 1: NotARun 1\n")?;
    let mut other = BOOTED;
    other[13] = 7;
    refuses_log(&rt, alloc, &other, &[], "mdcc: log 1: NotARun 1\n")?;
    let mut again = Vec::new(alloc);
    again.extend_from_slice(&BOOTED[..18])?;
    again.extend_from_slice(&BOOTED[8..])?;
    refuses_log(&rt, alloc, &again, &[], "mdcc: log 1: NotARun 2\n")
}

// The boot takes a cell, the vote two, the commit one, and the next boot one.
#[test]
fn cells_that_a_log_needs(rt: HostRuntime) -> Result<(), Fail> {
    let alloc = rt.alloc();
    let log = insert_log(alloc)?;
    let front = ONE.strip_suffix("}").ok_or("a configuration")?;
    for (cells, err) in [
        (3u32, "mdcc: limit cells 4\n"),
        (4, "mdcc: limit cells 5\n"),
    ] {
        let few = format!(in alloc; "{front},\"cells\":{cells}}}")?;
        refuses(&rt, alloc, few.as_str(), &log, &[], err, 11)?;
    }
    Ok(())
}
