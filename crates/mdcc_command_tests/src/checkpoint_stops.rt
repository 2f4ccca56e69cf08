//! Whole replays in which the first checkpoint of a log stops inside one of its seven device calls. No fact is lost: those of the log are
//! in the old area or in the new one.
use crate::program::{NO_FAULTS, run_new};
use std::alloc::Global;
use std::process::Abort;
use std::test::Fail;

// The header of a schedule, and of its report, behind the first line.
const HEADER: &str = "quorums 1 1 1\ngamma 100\nbound 0 1000\nstart\n";

// Each insert is two facts, so the checkpoint is due at the last, with the boot at hand.
const INSERTS: u32 = 512;

fn schedule(alloc: Global, stop: &str) -> Result<String, Fail> {
    let mut text = String::new(alloc);
    write!(text, "mdcc-schedule 1\n{HEADER}{stop}")?;
    for number in 1..INSERTS + 1 {
        write!(text, "begin 1 new:k{number}:-:1\nsettle\n")?;
    }
    text.push_str("restart 1\ndeliver 1023 1024\n")?;
    Ok(text)
}

// The end of the report: the last vote counts, and after the restart nothing more comes of its messages.
const END: &str =
    "begin 1.1.512 next 1024\nsettle\nstopped 1\nchosen 1.1.512 commit\nsettled 1 next 1024\n\
                   restart 1 epoch 2\ndeliver 1023 next 1025\ndeliver 1024 next 1025\n\
                   end events 2051 messages 1024 commits 512 aborts 0 open 0\n";

fn report(alloc: Global, stop: &str) -> Result<String, Fail> {
    let mut text = String::new(alloc);
    write!(text, "mdcc-report 1\n{HEADER}{stop}")?;
    for number in 1..INSERTS {
        let next = 2 * number;
        write!(text, "begin 1.1.{number} next {next}\nsettle\n")?;
        write!(
            text,
            "chosen 1.1.{number} commit\nheard 1 1.1.{number} commit\n"
        )?;
        let next = 2 * number + 1;
        write!(text, "settled 2 next {next}\n")?;
    }
    text.push_str(END)?;
    Ok(text)
}

// The replays that stop in each call of the checkpoint, with this image.
fn check(rt: &impl Abort, alloc: Global, image: &str) -> Result<(), Fail> {
    for call in 5..12u32 {
        let stop = format!(in alloc; "stop 1 {call} {image}\n")?;
        let schedule = schedule(alloc, stop.as_str())?;
        let report = report(alloc, stop.as_str())?;
        let ran = run_new(alloc, &["replay"], schedule.as_str(), &NO_FAULTS, None)?;
        assert!(rt; ran.is(report.as_str(), "", 0), "{stop}");
    }
    Ok(())
}

#[test]
fn a_checkpoint_that_is_lost(rt: HostRuntime) -> Result<(), Fail> {
    check(&rt, rt.alloc(), "lost")
}

#[test]
fn a_checkpoint_that_is_kept(rt: HostRuntime) -> Result<(), Fail> {
    check(&rt, rt.alloc(), "kept")
}

#[test]
fn a_checkpoint_that_is_torn(rt: HostRuntime) -> Result<(), Fail> {
    check(&rt, rt.alloc(), "torn")
}
