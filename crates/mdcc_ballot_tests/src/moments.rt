//! A manager that dies at each of five moments of an insert: another centre finishes what was voted. The
//! numbers of messages and the ends are worked by hand from the rules.
use crate::runs::run_with_words;
use mdcc_base::{MemorySink, MemorySource};
use std::alloc::Global;
use std::test::Fail;

const HEADER: &str = "mdcc-schedule 1
quorums 5 3 4
gamma 100
bound 0 1000
start
begin 1 new:a:-:1
";

// Whether the replay of these lines, behind the begin of the insert, has such an end.
fn ends_so(alloc: Global, lines: &str, end: &str) -> Result<bool, Fail> {
    let mut words = Vec::new(alloc);
    words.push(String::from_str(alloc, "replay")?)?;
    let mut schedule = String::from_str(alloc, HEADER)?;
    schedule.push_str(lines)?;
    let mut source = MemorySource::new(alloc, schedule.as_bytes(), &[])?;
    let mut out = MemorySink::new(alloc, &[])?;
    let mut err = MemorySink::new(alloc, &[])?;
    let status = run_with_words(alloc, &words, &mut source, &mut out, &mut err).ok_or("disks")?;
    Ok(status == 0 && out.bytes().ends_with(end.as_bytes()))
}

// No proposal arrives: no other centre knows of the transaction.
#[test]
fn before_a_proposal_arrives(rt: HostRuntime) -> Result<(), Fail> {
    let lines = "crash 1\ntick 2\ntick 2\ntick 2\ntick 2\n";
    let end = "tick 2 next 6\nend events 6 messages 5 commits 0 aborts 0 open 1\n";
    assert!(rt; ends_so(rt.alloc(), lines, end)?);
    Ok(())
}

// Centre 2 alone has voted. It leads at its fourth tick, and nothing forbids its choice.
#[test]
fn after_one_vote(rt: HostRuntime) -> Result<(), Fail> {
    let lines = "deliver 2\ncrash 1\ntick 2\ntick 2\ndeliver 8 9 10 11 12\ntick 2\ntick 2\n\
                 deliver 14 15 16\ndeliver 18 19 20\ndeliver 22 23 24\ndeliver 27 29 31\n";
    let end = "heard 2 1.1.1 commit\nend events 24 messages 35 commits 1 aborts 0 open 0\n";
    assert!(rt; ends_so(rt.alloc(), lines, end)?);
    Ok(())
}

// A fast quorum has voted, and the manager has no vote.
#[test]
fn after_the_votes(rt: HostRuntime) -> Result<(), Fail> {
    let lines =
        "deliver 2 3 4 5\ncrash 1\ntick 2\ntick 2\ndeliver 11 12 13 14\ndeliver 15 16 17 18\n";
    let end = "heard 2 1.1.1 commit\nend events 16 messages 22 commits 1 aborts 0 open 0\n";
    assert!(rt; ends_so(rt.alloc(), lines, end)?);
    Ok(())
}

// The manager has three votes, one too few. Two of them are found, so that the choice is forced.
#[test]
fn before_the_last_vote(rt: HostRuntime) -> Result<(), Fail> {
    let lines =
        "deliver 1 2 3\ndeliver 6 7 8\ncrash 1\ntick 2\ntick 2\ndeliver 10 11 12 13\ndeliver 14 15\n\
                 tick 2\ntick 2\ndeliver 17 18 19\ndeliver 21 22 23\ndeliver 25 26 27\ndeliver 30 32 34\n";
    let end = "heard 2 1.1.1 commit\nend events 30 messages 38 commits 1 aborts 0 open 0\n";
    assert!(rt; ends_so(rt.alloc(), lines, end)?);
    Ok(())
}

// The manager has decided, and none of its messages about the outcome arrives.
#[test]
fn before_an_outcome_arrives(rt: HostRuntime) -> Result<(), Fail> {
    let lines = "deliver 2 3 4 5\ndeliver 6 7 8 9\ncrash 1\ntick 2\ntick 2\n\
                 deliver 15 16 17 18\ndeliver 19 20 21 22\n";
    let end = "heard 2 1.1.1 commit\nend events 20 messages 26 commits 1 aborts 0 open 0\n";
    assert!(rt; ends_so(rt.alloc(), lines, end)?);
    Ok(())
}
