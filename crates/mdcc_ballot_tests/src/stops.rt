//! Whole replays in which an append stops inside one of its four device calls.
use crate::runs::run_with_words;
use crate::stop_rows::{AFTER, BEFORE, REPORT_BEFORE, REPORT_KEPT, REPORT_LOST};
use mdcc_base::{MemorySink, MemorySource};
use std::alloc::Global;
use std::process::Abort;
use std::test::Fail;

// Text before a line, the line, and text after it.
fn joined(alloc: Global, before: &str, line: &str, after: &str) -> Result<String, Fail> {
    let mut text = String::from_str(alloc, before)?;
    text.push_str(line)?;
    text.push_str(after)?;
    Ok(text)
}

// What the replay with this stop line reports after it.
fn check(rt: &impl Abort, alloc: Global, stop: &str, after: &str) -> Result<(), Fail> {
    let schedule = joined(alloc, BEFORE, stop, AFTER)?;
    let report = joined(alloc, REPORT_BEFORE, stop, after)?;
    let mut words = Vec::new(alloc);
    words.push(String::from_str(alloc, "replay")?)?;
    let mut source = MemorySource::new(alloc, schedule.as_bytes(), &[])?;
    let mut out = MemorySink::new(alloc, &[])?;
    let mut err = MemorySink::new(alloc, &[])?;
    let status = run_with_words(alloc, &words, &mut source, &mut out, &mut err).ok_or("disks")?;
    assert!(rt; out.bytes() == report.as_bytes());
    assert!(rt; err.bytes().is_empty() && status == 0);
    Ok(())
}

#[test]
fn a_kept_frame_counts(rt: HostRuntime) -> Result<(), Fail> {
    check(&rt, rt.alloc(), "stop 2 3 kept\n", REPORT_KEPT)?;
    check(&rt, rt.alloc(), "stop 2 4 kept\n", REPORT_KEPT)
}

#[test]
fn a_frame_without_its_gate_counts_for_nothing(rt: HostRuntime) -> Result<(), Fail> {
    check(&rt, rt.alloc(), "stop 2 1 kept\n", REPORT_LOST)?;
    check(&rt, rt.alloc(), "stop 2 2 kept\n", REPORT_LOST)
}

#[test]
fn a_lost_frame_counts_for_nothing(rt: HostRuntime) -> Result<(), Fail> {
    check(&rt, rt.alloc(), "stop 2 1 lost\n", REPORT_LOST)?;
    check(&rt, rt.alloc(), "stop 2 2 lost\n", REPORT_LOST)?;
    check(&rt, rt.alloc(), "stop 2 3 lost\n", REPORT_LOST)?;
    check(&rt, rt.alloc(), "stop 2 4 lost\n", REPORT_LOST)
}

#[test]
fn a_torn_frame_counts_for_nothing(rt: HostRuntime) -> Result<(), Fail> {
    check(&rt, rt.alloc(), "stop 2 1 torn\n", REPORT_LOST)?;
    check(&rt, rt.alloc(), "stop 2 2 torn\n", REPORT_LOST)?;
    check(&rt, rt.alloc(), "stop 2 3 torn\n", REPORT_LOST)?;
    check(&rt, rt.alloc(), "stop 2 4 torn\n", REPORT_LOST)
}
