//! What a node holds back, and what it lets out though more waits.
use crate::commands::THREE;
use crate::datagrams::{NOTHING_HELD, READS, answer, datagram, message, was_sent};
use crate::groups::{check_votes, proposal, votes_log};
use crate::logs::BOOTED;
use crate::pausing::PausingLink;
use crate::program::{NO_FAULTS, Ran, run_on};
use crate::runs::new_disks;
use mdcc_disks::MemoryDisks;
use mdcc_link::MemoryLink;
use std::alloc::Global;
use std::process::Abort;
use std::test::Fail;

const BOOT: &str = "boot 1 epoch 1\n";

const FAILED: &str = "mdcc: disk 1 failed\n";

// Each append of votes to a log takes so many calls of its disk.
const CALLS: u32 = 4;

// What is no message.
const NOISE: [u8; 3] = [7, 7, 7];

// The node of centre 1 in so many turns, for which both proposals wait with noise between them where that is asked, over disks where this
// call fails.
fn run_noisy(
    alloc: Global,
    noise: bool,
    turns: &str,
    call: u32,
) -> Result<(Ran, MemoryLink), Fail> {
    let mut disks = new_disks(alloc, &[call])?;
    let mut link = MemoryLink::new(alloc, &[])?;
    link.put(1, &proposal(alloc, 1, 97)?)?;
    if noise {
        link.put(1, &NOISE)?;
    }
    link.put(1, &proposal(alloc, 2, 98)?)?;
    let words = ["node", "1", turns];
    let ran = run_on(alloc, &words, THREE, &NO_FAULTS, &mut disks, &mut link)?;
    Ok((ran, link))
}

// The same with a pause in the second turn, that is in its third receive and its fourth.
fn run_pausing(alloc: Global, call: u32) -> Result<(Ran, PausingLink), Fail> {
    let mut disks = new_disks(alloc, &[call])?;
    let mut link = PausingLink::new(alloc, 3, 4)?;
    link.inner.put(1, &proposal(alloc, 1, 97)?)?;
    link.inner.put(1, &proposal(alloc, 2, 98)?)?;
    let words = ["node", "1", "3"];
    let ran = run_on(alloc, &words, THREE, &NO_FAULTS, &mut disks, &mut link)?;
    Ok((ran, link))
}

// The first call of a disk that the votes make: where it fails, the boot was told.
fn first_call(alloc: Global) -> Result<u32, Fail> {
    for call in 1..60u32 {
        let (ran, _link) = run_noisy(alloc, false, "2", call)?;
        if ran.is(BOOT, FAILED, 7) {
            return Ok(call);
        }
    }
    Ok(60)
}

// Both proposals are taken before either vote goes out: the second one waits after the first. So there is one append, of both votes.
fn holds_back(rt: &impl Abort, alloc: Global, first: u32) -> Result<(), Fail> {
    let (ran, link) = run_noisy(alloc, false, "2", first.saturating_add(CALLS))?;
    let done = "boot 1 epoch 1\ndone turns 2 steps 2 dropped 0 lost 0\n";
    assert!(rt; ran.is(done, "", 0));
    check_votes(rt, alloc, &link, 2)?;
    let (ran, link) = run_noisy(alloc, false, "2", first.saturating_add(CALLS - 1))?;
    assert!(rt; ran.is(BOOT, FAILED, 7));
    check_votes(rt, alloc, &link, 0)
}

// Noise is no step. So the first vote goes out in the second turn, though the second proposal waits, and there are two appends.
fn noise_holds_nothing_back(rt: &impl Abort, alloc: Global, first: u32) -> Result<(), Fail> {
    let (ran, link) = run_noisy(alloc, true, "3", first.saturating_add(CALLS))?;
    assert!(rt; ran.is(BOOT, FAILED, 7));
    check_votes(rt, alloc, &link, 1)?;
    let (ran, link) = run_noisy(alloc, true, "3", first.saturating_add(2 * CALLS))?;
    let done = "boot 1 epoch 1\ndone turns 3 steps 2 dropped 1 lost 0\n";
    assert!(rt; ran.is(done, "", 0));
    check_votes(rt, alloc, &link, 2)
}

// Nothing comes in the second turn. That is a tick, which is a step, and yet the first vote goes out then, though the second proposal waits.
fn silence_lets_all_out(rt: &impl Abort, alloc: Global, first: u32) -> Result<(), Fail> {
    let (ran, link) = run_pausing(alloc, first.saturating_add(CALLS))?;
    assert!(rt; ran.is(BOOT, FAILED, 7));
    check_votes(rt, alloc, &link.inner, 1)?;
    let (ran, link) = run_pausing(alloc, first.saturating_add(2 * CALLS))?;
    let done = "boot 1 epoch 1\ndone turns 3 steps 3 dropped 0 lost 0\n";
    assert!(rt; ran.is(done, "", 0));
    check_votes(rt, alloc, &link.inner, 2)
}

#[test]
fn only_what_came_and_made_a_step_holds_back(rt: HostRuntime) -> Result<(), Fail> {
    let alloc = rt.alloc();
    let first = first_call(alloc)?;
    assert!(rt; first < 60);
    holds_back(&rt, alloc, first)?;
    noise_holds_nothing_back(&rt, alloc, first)?;
    silence_lets_all_out(&rt, alloc, first)
}

// The node of centre 1 in two turns, for which a proposal waits at its own endpoint and so many reads of `b` at its client's, over a link where
// this call fails.
fn run_read(alloc: Global, reads: u8, call: u32) -> Result<(Ran, MemoryDisks, MemoryLink), Fail> {
    let mut disks = new_disks(alloc, &[])?;
    let mut link = MemoryLink::new(alloc, &[call])?;
    link.put(1, &proposal(alloc, 1, 97)?)?;
    let read = message(alloc, &READS, &[1, 98])?;
    for number in 0..reads {
        let serial = number.saturating_add(1);
        link.put(17, &datagram(alloc, 17, 7, serial, &read)?)?;
    }
    let words = ["node", "1", "2"];
    let ran = run_on(alloc, &words, THREE, &NO_FAULTS, &mut disks, &mut link)?;
    Ok((ran, disks, link))
}

// Just these answers follow so many datagrams of a vote: nothing is held of `b`.
fn check_answers(
    rt: &impl Abort,
    alloc: Global,
    link: &MemoryLink,
    votes: usize,
    reads: u8,
) -> Result<(), Fail> {
    let mut nothing = NOTHING_HELD;
    nothing[2] = 98;
    let mut index = votes;
    for read in 0..reads {
        assert!(rt;
            was_sent(
                link,
                index,
                9033,
                &answer(alloc, read.saturating_add(2), &nothing)?
            )
        );
        index = index.saturating_add(1);
    }
    assert!(rt; link.sent(index).is_none());
    Ok(())
}

const READ: &str = "boot 1 epoch 1\ndone turns 2 steps 3 dropped 0 lost 0\n";

const LOST: &str = "boot 1 epoch 1\ndone turns 2 steps 3 dropped 0 lost 1\n";

// Two binds and two receives come first, so the fifth call of the link is the next receive where the vote and the first answer wait for the
// second read. Where that receive fails they are lost: nothing was sent, and the log has no vote.
fn a_read_that_waits_holds_back(rt: &impl Abort, alloc: Global) -> Result<(), Fail> {
    let (ran, disks, link) = run_read(alloc, 2, 5)?;
    assert!(rt; ran.is(BOOT, "mdcc: link failed\n", 8));
    assert!(rt; disks.bytes(1) == BOOTED.as_slice() && link.sent(0).is_none());
    let (ran, disks, link) = run_read(alloc, 2, 60)?;
    assert!(rt; ran.is(READ, "", 0));
    assert!(rt; disks.bytes(1) == votes_log(alloc, 1)?.as_slice());
    check_answers(rt, alloc, &link, 1, 2)
}

// With one read nothing waits after the first turn, and the fifth call is the send of the vote. The second turn is a tick.
fn one_read_holds_nothing_back(rt: &impl Abort, alloc: Global) -> Result<(), Fail> {
    let (ran, disks, link) = run_read(alloc, 1, 5)?;
    assert!(rt; ran.is(LOST, "", 0));
    assert!(rt; disks.bytes(1) == votes_log(alloc, 1)?.as_slice());
    check_answers(rt, alloc, &link, 0, 1)?;
    let (ran, _disks, link) = run_read(alloc, 1, 7)?;
    assert!(rt; ran.is(BOOT, "mdcc: link failed\n", 8));
    check_answers(rt, alloc, &link, 1, 1)
}

#[test]
fn what_waits_at_either_endpoint_holds_back(rt: HostRuntime) -> Result<(), Fail> {
    let alloc = rt.alloc();
    a_read_that_waits_holds_back(&rt, alloc)?;
    one_read_holds_nothing_back(&rt, alloc)
}
