//! Whole replays over objects in memory.
use crate::replay_rows::{self as rows, REPORT, Row, SCHEDULE};
use crate::runs::run_with_words;
use mdcc_base::{MemorySink, MemorySource};
use std::alloc::Global;
use std::process::Abort;
use std::test::Fail;

// What a run wrote and answered.
#[derive(Drop)]
struct Ran {
    status: u8,
    out: MemorySink,
    err: MemorySink,
}

// Which reads, writes to the output and writes to the error stream fail, by their numbers.
#[derive(Clone, Copy)]
struct Scripts<'a> {
    reads: &'a [u32],
    writes: &'a [u32],
    error_writes: &'a [u32],
}

fn run_on(alloc: Global, word: &str, input: &str, scripts: &Scripts) -> Result<Ran, Fail> {
    let mut words = Vec::new(alloc);
    words.push(String::from_str(alloc, word)?)?;
    let mut source = MemorySource::new(alloc, input.as_bytes(), scripts.reads)?;
    let mut out = MemorySink::new(alloc, scripts.writes)?;
    let mut err = MemorySink::new(alloc, scripts.error_writes)?;
    let status = run_with_words(alloc, &words, &mut source, &mut out, &mut err).ok_or("disks")?;
    Ok(Ran { status, out, err })
}

const NO_FAULTS: Scripts<'static> = Scripts {
    reads: &[],
    writes: &[],
    error_writes: &[],
};

// What a run without faults writes and answers.
fn check(
    rt: &impl Abort,
    alloc: Global,
    word: &str,
    input: &str,
    report: &str,
    error: &str,
    status: u8,
) -> Result<(), Fail> {
    let ran = run_on(alloc, word, input, &NO_FAULTS)?;
    assert_eq!(rt; ran.out.bytes(), report.as_bytes(), "{input}");
    assert_eq!(rt; ran.err.bytes(), error.as_bytes(), "{input}");
    assert_eq!(rt; ran.status, status, "{input}");
    Ok(())
}

// A text behind a header.
fn behind(alloc: Global, header: &str, text: &str) -> Result<String, Fail> {
    let mut whole = String::from_str(alloc, header)?;
    whole.push_str(text)?;
    Ok(whole)
}

/// What a replay of a row writes and answers, behind the header of a schedule and that of its report.
pub(crate) fn check_behind(
    rt: &impl Abort,
    alloc: Global,
    schedule: &str,
    report: &str,
    row: &Row,
) -> Result<(), Fail> {
    let input = behind(alloc, schedule, row.lines)?;
    let report = behind(alloc, report, row.report)?;
    check(
        rt,
        alloc,
        "replay",
        input.as_str(),
        report.as_str(),
        row.error,
        row.status,
    )
}

fn check_row(rt: &impl Abort, alloc: Global, row: &Row) -> Result<(), Fail> {
    check_behind(rt, alloc, SCHEDULE, REPORT, row)
}

#[test]
fn schedules(rt: HostRuntime) -> Result<(), Fail> {
    for row in [
        rows::HEADER_ALONE,
        rows::INSERT_DELIVERED,
        rows::INSERT_SETTLED,
        rows::UPDATE_MISSED,
        rows::MESSAGES_REPEATED,
        rows::BEGINS_REFUSED,
        rows::READ_STALE,
        rows::EIGHT_PARTS,
        rows::VALUE_ABOVE_BOUND,
        rows::NINE_PARTS,
        rows::KEY_REPEATED,
        rows::MESSAGE_NOT_SENT,
        rows::LINE_WITHOUT_END,
    ] {
        check_row(&rt, rt.alloc(), &row)?;
    }
    Ok(())
}

// The rest of a header behind its quorums, and of its report.
const REST: &str = "gamma 100\nbound 0 1000\nstart\n";

const REST_OF_REPORT: &str =
    "gamma 100\nbound 0 1000\nstart\nend events 0 messages 0 commits 0 aborts 0 open 0\n";

#[test]
fn quorums(rt: HostRuntime) -> Result<(), Fail> {
    for (sizes, error) in [
        ("5 3 3", "mdcc: header line 2: FastMeet\n"),
        ("10 6 8", "mdcc: header line 2: Centres\n"),
        ("5 2 5", "mdcc: header line 2: ClassicMeet\n"),
        ("5 0 4", "mdcc: header line 2: ClassicRange\n"),
        ("5 3 6", "mdcc: header line 2: FastRange\n"),
    ] {
        let input = format!(in rt.alloc(); "mdcc-schedule 1\nquorums {sizes}\n{REST}")?;
        check(&rt, rt.alloc(), "replay", input.as_str(), "", error, 3)?;
    }
    for sizes in ["4 3 3", "3 2 3", "1 1 1"] {
        let input = format!(in rt.alloc(); "mdcc-schedule 1\nquorums {sizes}\n{REST}")?;
        let report = format!(in rt.alloc(); "mdcc-report 1\nquorums {sizes}\n{REST_OF_REPORT}")?;
        check(
            &rt,
            rt.alloc(),
            "replay",
            input.as_str(),
            report.as_str(),
            "",
            0,
        )?;
    }
    Ok(())
}

#[test]
fn no_schedule(rt: HostRuntime) -> Result<(), Fail> {
    check(
        &rt,
        rt.alloc(),
        "replay",
        "",
        "",
        "mdcc: header line 1: Order\n",
        3,
    )?;
    check(&rt, rt.alloc(), "nothing", "", "", "mdcc: words\n", 2)
}

// A centre has 256 open transactions at most.
#[test]
fn a_busy_centre(rt: HostRuntime) -> Result<(), Fail> {
    let mut input = String::from_str(rt.alloc(), SCHEDULE)?;
    let mut report = String::from_str(rt.alloc(), REPORT)?;
    for number in 1..257u32 {
        let next = 5 * number + 1;
        write!(input, "begin 1 new:k{number}:-:1\n")?;
        write!(report, "begin 1.1.{number} next {next}\n")?;
    }
    input.push_str("begin 1 new:last:-:1\n")?;
    report.push_str(
        "begin refused busy\nend events 257 messages 1280 commits 0 aborts 0 open 256\n",
    )?;
    check(
        &rt,
        rt.alloc(),
        "replay",
        input.as_str(),
        report.as_str(),
        "",
        0,
    )
}

#[test]
fn each_read_fails_in_turn(rt: HostRuntime) -> Result<(), Fail> {
    let input = behind(rt.alloc(), SCHEDULE, rows::INSERT_DELIVERED.lines)?;
    for number in 1..3u32 {
        let reads = [number];
        let scripts = Scripts {
            reads: &reads,
            ..NO_FAULTS
        };
        let ran = run_on(rt.alloc(), "replay", input.as_str(), &scripts)?;
        assert_eq!(rt; ran.status, 5, "read {number}");
        assert_eq!(rt; ran.out.bytes(), b"".as_slice(), "read {number}");
        assert_eq!(rt;
            ran.err.bytes(),
            b"mdcc: input failed\n".as_slice(),
            "read {number}"
        );
    }
    Ok(())
}

// The header, three events and the last line are five writes.
#[test]
fn each_write_fails_in_turn(rt: HostRuntime) -> Result<(), Fail> {
    let input = behind(rt.alloc(), SCHEDULE, rows::INSERT_DELIVERED.lines)?;
    let report = behind(rt.alloc(), REPORT, rows::INSERT_DELIVERED.report)?;
    let mut before = 0;
    for number in 1..6u32 {
        let writes = [number];
        let scripts = Scripts {
            writes: &writes,
            ..NO_FAULTS
        };
        let ran = run_on(rt.alloc(), "replay", input.as_str(), &scripts)?;
        let written = ran.out.bytes();
        assert_eq!(rt; ran.status, 6, "write {number}");
        assert!(rt; report.as_bytes().starts_with(written), "write {number}");
        assert!(rt; number == 1 || before < written.len(), "write {number}");
        assert_eq!(rt;
            ran.err.bytes(),
            b"mdcc: output failed\n".as_slice(),
            "write {number}"
        );
        before = written.len();
    }
    Ok(())
}

// The calls behind the last are not made.
#[test]
fn no_further_call_is_made(rt: HostRuntime) -> Result<(), Fail> {
    let input = behind(rt.alloc(), SCHEDULE, rows::INSERT_DELIVERED.lines)?;
    let scripts = Scripts {
        reads: &[3],
        writes: &[6],
        error_writes: &[1],
    };
    let ran = run_on(rt.alloc(), "replay", input.as_str(), &scripts)?;
    assert_eq!(rt; ran.status, 0);
    Ok(())
}

#[test]
fn the_error_stream_changes_no_status(rt: HostRuntime) -> Result<(), Fail> {
    let scripts = Scripts {
        error_writes: &[1],
        ..NO_FAULTS
    };
    let unsent = behind(rt.alloc(), SCHEDULE, rows::MESSAGE_NOT_SENT.lines)?;
    for (word, input, report, status) in [
        ("nothing", "", "", 2),
        ("replay", "", "", 3),
        ("replay", unsent.as_str(), REPORT, 4),
    ] {
        let ran = run_on(rt.alloc(), word, input, &scripts)?;
        assert_eq!(rt; ran.status, status);
        assert_eq!(rt; ran.out.bytes(), report.as_bytes());
        assert_eq!(rt; ran.err.bytes(), b"".as_slice());
    }
    Ok(())
}
