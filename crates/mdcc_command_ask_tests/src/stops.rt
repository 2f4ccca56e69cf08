//! What a client printed, sent and received where a call fails.
use crate::made::{first_tx, put, run_failing, run_over, sent};
use mdcc_def_messages::ClientAnswer;
use mdcc_link::MemoryLink;
use std::alloc::Global;
use std::process::Abort;
use std::test::Fail;

const BEGIN: [&str; 5] = ["ask", "1", "3", "7", "new:a:-:10"];

// A link whose calls of these numbers fail. At the client's endpoint waits that 1.1.1 was begun, and then that it was committed.
fn link_with_both(alloc: Global, script: &[u32]) -> Option<MemoryLink> {
    let tx = first_tx()?;
    let mut link = MemoryLink::new(alloc, script).ok()?;
    let begun = put(alloc, &mut link, 1, 7, ClientAnswer::Begun(tx));
    let heard = put(alloc, &mut link, 2, 7, ClientAnswer::Heard(tx, true));
    if begun && heard { Some(link) } else { None }
}

// Asks with both answers waiting. What it printed is this, with this line and status and so many datagrams sent.
fn asks_failing(
    rt: &impl Abort,
    alloc: Global,
    calls: &[u32],
    writes: &[u32],
    printed: (&str, &str, u8),
    datagrams: usize,
) -> Result<MemoryLink, Fail> {
    let mut link = link_with_both(alloc, calls).ok_or("a link")?;
    let ran = run_failing(alloc, &BEGIN, writes, &mut link).ok_or("a question")?;
    assert!(rt; ran.is(printed.0, printed.1, printed.2));
    assert_eq!(rt; sent(&link), datagrams);
    Ok(link)
}

// What another client prints that has one turn over the same link.
fn prints_then(
    rt: &impl Abort,
    alloc: Global,
    link: &mut MemoryLink,
    printed: &str,
) -> Result<(), Fail> {
    let ran = run_over(alloc, &["ask", "1", "1", "7", "new:a:-:10"], link).ok_or("a question")?;
    assert!(rt; ran.is(printed, "", 0));
    Ok(())
}

const LINK_FAILED: &str = "mdcc: link failed\n";

const OUTPUT_FAILED: &str = "mdcc: output failed\n";

// The first call is the bind. Both answers still wait then.
#[test]
fn nothing_is_sent_or_printed_where_the_bind_fails(rt: HostRuntime) -> Result<(), Fail> {
    let alloc = rt.alloc();
    let mut link = asks_failing(&rt, alloc, &[1], &[], ("", LINK_FAILED, 8), 0)?;
    prints_then(&rt, alloc, &mut link, "begin 1.1.1\nunanswered\n")
}

// A bind, a send, and a receive that takes the first answer, before the one that fails. The second answer still waits then.
#[test]
fn what_came_before_a_receive_that_fails_is_printed(rt: HostRuntime) -> Result<(), Fail> {
    let alloc = rt.alloc();
    let mut link = asks_failing(&rt, alloc, &[4], &[], ("begin 1.1.1\n", LINK_FAILED, 8), 1)?;
    prints_then(&rt, alloc, &mut link, "begin 1.1.1\nheard 1 1.1.1 commit\n")?;
    let mut link = asks_failing(&rt, alloc, &[3], &[], ("", LINK_FAILED, 8), 1)?;
    prints_then(&rt, alloc, &mut link, "begin 1.1.1\nunanswered\n")
}

// Of the line of an answer no byte is written, and the client receives no more: the second answer still waits, or neither.
#[test]
fn nothing_is_received_after_a_write_that_fails(rt: HostRuntime) -> Result<(), Fail> {
    let alloc = rt.alloc();
    let mut link = asks_failing(&rt, alloc, &[], &[1], ("", OUTPUT_FAILED, 6), 1)?;
    prints_then(&rt, alloc, &mut link, "begin 1.1.1\nheard 1 1.1.1 commit\n")?;
    let mut link = asks_failing(
        &rt,
        alloc,
        &[],
        &[2],
        ("begin 1.1.1\n", OUTPUT_FAILED, 6),
        1,
    )?;
    prints_then(&rt, alloc, &mut link, "unanswered\n")
}
