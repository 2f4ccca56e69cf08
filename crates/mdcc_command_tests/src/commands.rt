//! The commands over a configuration, whole.
use crate::datagrams::{
    BEGUN, CHOICE, COMMITTED, NOTHING_HELD, PROPOSES, VOTES, answer, begin, datagram, message,
    was_sent,
};
use crate::logs::{BOOTED, insert_log};
use crate::program::{NO_FAULTS, ONE, run_new, run_on, run_on_log};
use crate::runs::new_disks;
use mdcc_link::MemoryLink;
use std::alloc::Global;
use std::process::Abort;
use std::test::Fail;

const IDLE: &str = "boot 1 epoch 1\ndone turns 3 steps 3 dropped 0 lost 0\n";

/// Eight turns of a cluster of one whose client begins an insert.
pub(crate) const COMMIT: &str =
    "boot 1 epoch 1\nheard 1 1.1.1 commit\ndone turns 8 steps 8 dropped 0 lost 0\n";

/// The facts of its log.
const FACTS: &str = "1 booted 1\n2 voted a 0 0.0.0 1.1.1 accept\n3 heard 1.1.1 commit\n";

#[test]
fn nothing_asked_is_a_tick_in_each_turn(rt: HostRuntime) -> Result<(), Fail> {
    let cluster = run_new(rt.alloc(), &["cluster", "3"], ONE, &NO_FAULTS, None)?;
    assert!(rt; cluster.is(IDLE, "", 0));
    let node = run_new(rt.alloc(), &["node", "1", "3"], ONE, &NO_FAULTS, None)?;
    assert!(rt; node.is(IDLE, "", 0));
    Ok(())
}

// A proposal, that it was begun, the vote, and that it was heard.
fn check_sent(rt: &impl Abort, alloc: Global, link: &MemoryLink) -> Result<(), Fail> {
    let proposal = datagram(alloc, 1, 1, 1, &message(alloc, &PROPOSES, &CHOICE)?)?;
    assert!(rt; was_sent(link, 0, 9001, &proposal));
    assert!(rt; was_sent(link, 1, 9033, &answer(alloc, 2, &BEGUN)?));
    let vote = datagram(alloc, 1, 1, 3, &message(alloc, &VOTES, &CHOICE)?)?;
    assert!(rt; was_sent(link, 2, 9001, &vote));
    assert!(rt; was_sent(link, 3, 9033, &answer(alloc, 4, &COMMITTED)?));
    assert!(rt; link.sent(4).is_none());
    Ok(())
}

// The four datagrams of an insert, and the bytes of the log that it leaves, by the formats.
#[test]
fn an_insert_is_sent_heard_logged_and_dumped(rt: HostRuntime) -> Result<(), Fail> {
    let alloc = rt.alloc();
    let mut disks = new_disks(alloc, &[])?;
    let mut link = MemoryLink::new(alloc, &[])?;
    link.put(17, &begin(alloc)?)?;
    let words = ["cluster", "8"];
    let ran = run_on(alloc, &words, ONE, &NO_FAULTS, &mut disks, &mut link)?;
    assert!(rt; ran.is(COMMIT, "", 0));
    check_sent(&rt, alloc, &link)?;
    let log = insert_log(alloc)?;
    assert!(rt; disks.bytes(1) == log.as_slice() && disks.bytes(17).is_empty());
    let dumped = run_on_log(alloc, &["dump", "1"], ONE, disks.bytes(1), disks.bytes(17))?;
    assert!(rt; dumped.is(FACTS, "", 0));
    Ok(())
}

// A node that is started again begins its second epoch, and keeps what it had.
#[test]
fn a_node_is_started_again(rt: HostRuntime) -> Result<(), Fail> {
    let alloc = rt.alloc();
    let mut disks = new_disks(alloc, &[])?;
    let mut link = MemoryLink::new(alloc, &[])?;
    let ran = run_on(
        alloc,
        &["node", "1", "3"],
        ONE,
        &NO_FAULTS,
        &mut disks,
        &mut link,
    )?;
    assert!(rt; ran.is(IDLE, "", 0));
    assert!(rt; disks.bytes(1) == BOOTED.as_slice());
    let log = insert_log(alloc)?;
    let again = run_on_log(alloc, &["node", "1", "3"], ONE, log.as_slice(), &[])?;
    assert!(rt;
        again.is(
            "boot 1 epoch 2\ndone turns 3 steps 3 dropped 0 lost 0\n",
            "",
            0
        )
    );
    Ok(())
}

#[test]
fn a_question_is_answered_or_not(rt: HostRuntime) -> Result<(), Fail> {
    let alloc = rt.alloc();
    let words = ["ask", "1", "3", "7", "read:a"];
    let held = answer(alloc, 1, &NOTHING_HELD)?;
    let ran = run_new(alloc, &words, ONE, &NO_FAULTS, Some(&held))?;
    assert!(rt; ran.is("read 1 at 1 a version 0 none\n", "", 0));
    let ran = run_new(alloc, &words, ONE, &NO_FAULTS, None)?;
    assert!(rt; ran.is("unanswered\n", "", 0));
    Ok(())
}

/// Three centres on one host.
pub(crate) const THREE: &str =
    r#"{"centres":3,"classic":2,"fast":3,"gamma":100,"bounds":[[0,1000]],"hosts":["127.0.0.1","127.0.0.1","127.0.0.1"],"port":9000,"cells":100}"#;

// In each turn each of them takes one message or a tick. Centres 2 and 3, which wait for the end of what they voted for, ask all for it at
// their second tick. So messages wait at each, and what it makes is pending: the vote of centre 1 goes out in the sixth turn, and that
// centre 3 heard the end after the last.
const HEARD_BY_ALL: &str =
    "boot 1 epoch 1\nboot 2 epoch 1\nboot 3 epoch 1\nheard 1 1.1.1 commit\nheard 2 1.1.1 commit\nheard 3 1.1.1 commit\n\
     done turns 8 steps 24 dropped 0 lost 0\n";

#[test]
fn three_centres_hear_an_insert(rt: HostRuntime) -> Result<(), Fail> {
    let alloc = rt.alloc();
    let idle = run_new(alloc, &["cluster", "3"], THREE, &NO_FAULTS, None)?;
    assert!(rt;
        idle.is(
            "boot 1 epoch 1\nboot 2 epoch 1\nboot 3 epoch 1\ndone turns 3 steps 9 dropped 0 lost 0\n",
            "",
            0
        )
    );
    let waiting = begin(alloc)?;
    let ran = run_new(alloc, &["cluster", "8"], THREE, &NO_FAULTS, Some(&waiting))?;
    assert!(rt; ran.is(HEARD_BY_ALL, "", 0));
    Ok(())
}
