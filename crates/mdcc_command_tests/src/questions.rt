//! What a client of a node sends, and what it prints of the answers.
use crate::datagrams::{ABORTED, BEGUN, COMMITTED, READS, answer, datagram, message};
use crate::program::{NO_FAULTS, ONE, Ran, SMALL, run_new, run_on};
use crate::runs::new_disks;
use mdcc_link::MemoryLink;
use std::alloc::Global;
use std::process::Abort;
use std::test::Fail;

const BEGIN: [&str; 5] = ["ask", "1", "3", "7", "new:a:-:10"];

// What a client that begins an insert prints of an answer.
const PRINTED: [(&[u8], &str); 10] = [
    (&BEGUN, "begin 1.1.1\nunanswered\n"),
    (&COMMITTED, "begin 1.1.1\nheard 1 1.1.1 commit\n"),
    (&ABORTED, "begin 1.1.1\nheard 1 1.1.1 abort\n"),
    (
        &[3, 1, 97, 1, 3, 0, 0, 0, 0, 0, 0, 0, 0],
        "begin refused stale a version 3 seen 0\n",
    ),
    (
        &[3, 1, 97, 2, 5, 0, 0, 0, 0, 0, 0, 0],
        "begin refused unseen a version 5\n",
    ),
    (&[3, 1, 97, 3], "begin refused noitem a\n"),
    (&[3, 1, 97, 4], "begin refused sequence\n"),
    (&[3, 1, 97, 5], "begin refused busy\n"),
    (&[5, 3], "begin refused RepeatedKey\n"),
    (&[5, 6], "begin refused OutOfBounds\n"),
];

#[test]
fn answers_are_printed(rt: HostRuntime) -> Result<(), Fail> {
    for (body, out) in PRINTED {
        let waiting = answer(rt.alloc(), 1, body)?;
        let ran = run_new(rt.alloc(), &BEGIN, SMALL, &NO_FAULTS, Some(&waiting))?;
        assert!(rt; ran.is(out, "", 0), "{out}");
    }
    Ok(())
}

// Runs a client with these datagrams at its endpoint.
fn run_with(alloc: Global, words: &[&str], link: &mut MemoryLink) -> Result<Ran, Fail> {
    let mut disks = new_disks(alloc, &[])?;
    run_on(alloc, words, ONE, &NO_FAULTS, &mut disks, link)
}

#[test]
fn a_begin_is_heard(rt: HostRuntime) -> Result<(), Fail> {
    let alloc = rt.alloc();
    let mut link = MemoryLink::new(alloc, &[])?;
    link.put(17, &answer(alloc, 1, &BEGUN)?)?;
    link.put(17, &answer(alloc, 2, &COMMITTED)?)?;
    let ran = run_with(alloc, &BEGIN, &mut link)?;
    assert!(rt; ran.is("begin 1.1.1\nheard 1 1.1.1 commit\n", "", 0));
    assert!(rt; link.sent(0).is_some() && link.sent(1).is_none());
    Ok(())
}

// Whether the datagram that was sent after so many others is a request to read `a`, to the node's port for clients.
fn asks_for_a(rt: &impl Abort, link: &MemoryLink, index: usize) -> Result<(), Fail> {
    let (_from, to, sent) = link.sent(index).ok_or("a datagram")?;
    assert!(rt; to.host == [127, 0, 0, 1] && to.port == 9017);
    assert!(rt; sent.len() == 27 && sent.starts_with(&[17, 7, 0, 0, 0]));
    assert!(rt; sent[9..].starts_with(&[10, 0, 0, 0, 0, 0, 1, 0]));
    assert!(rt; sent[17..].starts_with(&READS) && sent.ends_with(&[1, 97]));
    Ok(())
}

// Once at the start, and again in each of three turns.
#[test]
fn a_request_is_sent_again(rt: HostRuntime) -> Result<(), Fail> {
    let alloc = rt.alloc();
    let mut link = MemoryLink::new(alloc, &[])?;
    let ran = run_with(alloc, &["ask", "1", "3", "7", "read:a"], &mut link)?;
    assert!(rt; ran.is("unanswered\n", "", 0));
    for index in 0..4usize {
        asks_for_a(&rt, &link, index)?;
    }
    assert!(rt; link.sent(4).is_none());
    Ok(())
}

// An answer to another serial, to another client, about another key, from another centre, and what is no answer: each takes a turn.
#[test]
fn what_is_no_answer(rt: HostRuntime) -> Result<(), Fail> {
    let alloc = rt.alloc();
    let nothing = [1, 1, 97, 0, 0, 0, 0, 0, 0, 0, 0, 0, 0, 0];
    let mut link = MemoryLink::new(alloc, &[])?;
    let other = [1, 1, 98, 0, 0, 0, 0, 0, 0, 0, 0, 0, 0, 0];
    link.put(
        17,
        &datagram(
            alloc,
            1,
            1,
            1,
            &message(alloc, &[1, 15, 1, 17, 8, 0, 0, 0], &nothing)?,
        )?,
    )?;
    link.put(
        17,
        &datagram(
            alloc,
            1,
            1,
            2,
            &message(alloc, &[1, 15, 1, 18, 7, 0, 0, 0], &nothing)?,
        )?,
    )?;
    link.put(17, &answer(alloc, 3, &other)?)?;
    link.put(
        17,
        &datagram(
            alloc,
            2,
            1,
            4,
            &message(alloc, &[1, 15, 2, 17, 7, 0, 0, 0], &nothing)?,
        )?,
    )?;
    link.put(
        17,
        &datagram(alloc, 17, 7, 5, &message(alloc, &READS, &[1, 97])?)?,
    )?;
    let ran = run_with(alloc, &["ask", "1", "5", "7", "read:a"], &mut link)?;
    assert!(rt; ran.is("unanswered\n", "", 0));
    assert!(rt; link.sent(0).is_some() && link.sent(1).is_none());
    Ok(())
}
