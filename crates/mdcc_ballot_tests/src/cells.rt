//! Whole replays of one centre whose node has few cells. The boot needs one, the vote of 68 bytes two, and the outcome one.
use crate::runs::run_with_words;
use mdcc_base::{MemorySink, MemorySource};
use std::alloc::Global;
use std::process::Abort;
use std::test::Fail;

// Three cells: none is spare for the outcome.
const THREE: &str = "mdcc-schedule 1
quorums 1 1 1
gamma 100
cells 3
bound 0 1000
start
begin 1 new:a:-:10
deliver 1 2
";

const REPORT_OF_THREE: &str = "mdcc-report 1
quorums 1 1 1
gamma 100
cells 3
bound 0 1000
start
begin 1.1.1 next 2
deliver 1 next 3
chosen 1.1.1 commit
deliver 2 next 3
dropped 1 needs 1 spare 0
end events 3 messages 2 commits 1 aborts 0 open 0
";

// Four cells.
const FOUR: &str = "mdcc-schedule 1
quorums 1 1 1
gamma 100
cells 4
bound 0 1000
start
begin 1 new:a:-:10
deliver 1 2
";

const REPORT_OF_FOUR: &str = "mdcc-report 1
quorums 1 1 1
gamma 100
cells 4
bound 0 1000
start
begin 1.1.1 next 2
deliver 1 next 3
chosen 1.1.1 commit
deliver 2 next 3
heard 1 1.1.1 commit
end events 3 messages 2 commits 1 aborts 0 open 0
";

// Three cells, and then a restart, whose boot would be the fourth.
const RESTART: &str = "mdcc-schedule 1
quorums 1 1 1
gamma 100
cells 3
bound 0 1000
start
begin 1 new:a:-:10
deliver 1 2
crash 1
restart 1
";

const REPORT_OF_THE_RESTART: &str = "mdcc-report 1
quorums 1 1 1
gamma 100
cells 3
bound 0 1000
start
begin 1.1.1 next 2
deliver 1 next 3
chosen 1.1.1 commit
deliver 2 next 3
dropped 1 needs 1 spare 0
crash 1
";

// What a replay writes and how it ends.
fn check(
    rt: &impl Abort,
    alloc: Global,
    schedule: &str,
    report: &str,
    error: &str,
    expected: u8,
) -> Result<(), Fail> {
    let mut words = Vec::new(alloc);
    words.push(String::from_str(alloc, "replay")?)?;
    let mut source = MemorySource::new(alloc, schedule.as_bytes(), &[])?;
    let mut out = MemorySink::new(alloc, &[])?;
    let mut err = MemorySink::new(alloc, &[])?;
    let status = run_with_words(alloc, &words, &mut source, &mut out, &mut err).ok_or("disks")?;
    assert!(rt; out.bytes() == report.as_bytes());
    assert!(rt; err.bytes() == error.as_bytes() && status == expected);
    Ok(())
}

#[test]
fn a_fact_without_cells_is_dropped(rt: HostRuntime) -> Result<(), Fail> {
    check(&rt, rt.alloc(), THREE, REPORT_OF_THREE, "", 0)
}

#[test]
fn a_fact_takes_the_last_cell(rt: HostRuntime) -> Result<(), Fail> {
    check(&rt, rt.alloc(), FOUR, REPORT_OF_FOUR, "", 0)
}

#[test]
fn a_boot_without_cells_ends_the_replay(rt: HostRuntime) -> Result<(), Fail> {
    check(
        &rt,
        rt.alloc(),
        RESTART,
        REPORT_OF_THE_RESTART,
        "mdcc: limit cells 4\n",
        11,
    )
}
