//! Whole replays in which the votes at the fast ballot are not the end.
use crate::ballot_rows::{FIRST_FORCED, RANGE, Row, SECOND_FORCED};
use crate::runs::run_with_words;
use crate::whole_rows::{CAUGHT_UP, DANGLING, LED, STOCK};
use mdcc_base::{MemorySink, MemorySource};
use std::alloc::Global;
use std::process::Abort;
use std::test::Fail;

// What a replay of a row writes and answers.
fn check(rt: &impl Abort, alloc: Global, row: &Row) -> Result<(), Fail> {
    let mut words = Vec::new(alloc);
    words.push(String::from_str(alloc, "replay")?)?;
    let mut source = MemorySource::new(alloc, row.schedule.as_bytes(), &[])?;
    let mut out = MemorySink::new(alloc, &[])?;
    let mut err = MemorySink::new(alloc, &[])?;
    let status = run_with_words(alloc, &words, &mut source, &mut out, &mut err).ok_or("disks")?;
    assert!(rt; out.bytes() == row.report.as_bytes());
    assert!(rt; err.bytes().is_empty() && status == 0);
    Ok(())
}

#[test]
fn promises_force_what_may_be_chosen(rt: HostRuntime) -> Result<(), Fail> {
    check(&rt, rt.alloc(), &FIRST_FORCED)?;
    check(&rt, rt.alloc(), &SECOND_FORCED)
}

#[test]
fn a_ballot_covers_its_range(rt: HostRuntime) -> Result<(), Fail> {
    check(&rt, rt.alloc(), &RANGE)
}

#[test]
fn adds_commit_while_there_is_room(rt: HostRuntime) -> Result<(), Fail> {
    check(&rt, rt.alloc(), &STOCK)
}

#[test]
fn another_centre_finishes_what_dangles(rt: HostRuntime) -> Result<(), Fail> {
    check(&rt, rt.alloc(), &DANGLING)?;
    check(&rt, rt.alloc(), &LED)
}

#[test]
fn a_centre_that_is_behind_catches_up(rt: HostRuntime) -> Result<(), Fail> {
    check(&rt, rt.alloc(), &CAUGHT_UP)
}
