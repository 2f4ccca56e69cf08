//! Facts of several turns, which become durable together.
use crate::commands::THREE;
use crate::datagrams::{
    BEGINS, BEGUN, CHOICE, COMMITTED, INSERT, PROPOSES, VOTES, answer, datagram, message, was_sent,
};
use crate::logs::{BOOTED, VOTED, insert_log};
use crate::program::{NO_FAULTS, Ran, disks_of, run_on};
use crate::runs::new_disks;
use mdcc_base::Image;
use mdcc_disks::MemoryDisks;
use mdcc_link::MemoryLink;
use std::alloc::Global;
use std::process::Abort;
use std::test::Fail;

// The keys that three transactions of centre 2 insert.
const KEYS: [u8; 3] = [97, 98, 99];

const BOOT: &str = "boot 1 epoch 1\n";

const DONE: &str = "boot 1 epoch 1\ndone turns 3 steps 3 dropped 0 lost 0\n";

// What the transaction of centre 2 with this number does to its key.
fn choice(number: u8, key: u8) -> [u8; 42] {
    let mut choice = CHOICE;
    choice[0] = 2;
    choice[5] = number;
    choice[10] = key;
    choice[33] = key;
    choice
}

/// Centre 2 proposes to centre 1 its transaction with this number.
pub(crate) fn proposal(alloc: Global, number: u8, key: u8) -> Result<Vec<u8>, Fail> {
    let mut head = PROPOSES;
    head[2] = 2;
    let proposal = message(alloc, &head, &choice(number, key))?;
    Ok(datagram(alloc, 2, 1, number, &proposal)?)
}

// Centre 1 votes for it.
fn vote(alloc: Global, number: u8, key: u8) -> Result<Vec<u8>, Fail> {
    let mut head = VOTES;
    head[3] = 2;
    head[5] = key;
    let vote = message(alloc, &head, &choice(number, key))?;
    Ok(datagram(alloc, 1, 1, number, &vote)?)
}

/// The log of a boot and of so many of these votes.
pub(crate) fn votes_log(alloc: Global, votes: usize) -> Result<Vec<u8>, Fail> {
    let mut log = Vec::new(alloc);
    log.extend_from_slice(&BOOTED[..18])?;
    let mut number = 0u8;
    for key in KEYS.iter().take(votes) {
        number = number.saturating_add(1);
        let mut voted = VOTED;
        voted[6] = *key;
        log.push(1)?;
        log.extend_from_slice(&voted)?;
        log.extend_from_slice(&choice(number, *key))?;
        log.push(0)?;
    }
    log.push(0)?;
    Ok(log)
}

// A node for which the three proposals wait, over disks where the calls of these numbers fail.
fn run_proposed(
    alloc: Global,
    script: &[u32],
    turns: &str,
) -> Result<(Ran, MemoryDisks, MemoryLink), Fail> {
    let mut disks = new_disks(alloc, script)?;
    let mut link = MemoryLink::new(alloc, &[])?;
    let mut number = 0u8;
    for key in KEYS {
        number = number.saturating_add(1);
        link.put(1, &proposal(alloc, number, key)?)?;
    }
    let words = ["node", "1", turns];
    let ran = run_on(alloc, &words, THREE, &NO_FAULTS, &mut disks, &mut link)?;
    Ok((ran, disks, link))
}

/// Just so many of the votes were sent, in order.
pub(crate) fn check_votes(
    rt: &impl Abort,
    alloc: Global,
    link: &MemoryLink,
    votes: usize,
) -> Result<(), Fail> {
    let mut number = 0u8;
    for key in KEYS.iter().take(votes) {
        let index = number as usize;
        number = number.saturating_add(1);
        assert!(rt; was_sent(link, index, 9002, &vote(alloc, number, *key)?));
    }
    assert!(rt; link.sent(votes).is_none());
    Ok(())
}

// After the third proposal nothing waits; after two turns the third still does.
#[test]
fn votes_go_out_when_nothing_waits_or_the_turns_are_over(rt: HostRuntime) -> Result<(), Fail> {
    let alloc = rt.alloc();
    let (ran, disks, link) = run_proposed(alloc, &[], "3")?;
    assert!(rt; ran.is(DONE, "", 0));
    assert!(rt; disks.bytes(1) == votes_log(alloc, 3)?.as_slice());
    check_votes(&rt, alloc, &link, 3)?;
    let (ran, disks, link) = run_proposed(alloc, &[], "2")?;
    assert!(rt;
        ran.is(
            "boot 1 epoch 1\ndone turns 2 steps 2 dropped 0 lost 0\n",
            "",
            0
        )
    );
    assert!(rt; disks.bytes(1) == votes_log(alloc, 2)?.as_slice());
    check_votes(&rt, alloc, &link, 2)
}

// A node that is started over what stands in these areas finds so many of the votes, all or none.
fn check_again(
    rt: &impl Abort,
    alloc: Global,
    log: &[u8],
    other: &[u8],
    votes: usize,
) -> Result<(), Fail> {
    let mut disks = disks_of(alloc, log, other)?;
    let mut link = MemoryLink::new(alloc, &[])?;
    let words = ["node", "1", "0"];
    let ran = run_on(alloc, &words, THREE, &NO_FAULTS, &mut disks, &mut link)?;
    assert!(rt;
        ran.is(
            "boot 1 epoch 2\ndone turns 0 steps 0 dropped 0 lost 0\n",
            "",
            0
        )
    );
    let mut expected = votes_log(alloc, votes)?;
    let _gate = expected.pop();
    expected.extend_from_slice(&[1, 5, 0, 0, 0, 1, 2, 0, 0, 0, 0])?;
    assert!(rt; disks.bytes(1) == expected.as_slice());
    Ok(())
}

// The run in which this call of a disk fails: whether that is one of the append of the votes. Then nothing was sent, and after a crash with
// this image a new start finds so many of them.
fn check_failing(
    rt: &impl Abort,
    alloc: Global,
    number: u32,
    image: Image,
    votes: usize,
) -> Result<bool, Fail> {
    let (ran, mut disks, link) = run_proposed(alloc, &[number], "3")?;
    if ran.out.bytes() != BOOT.as_bytes() {
        return Ok(false);
    }
    assert!(rt; ran.is(BOOT, "mdcc: disk 1 failed\n", 7), "call {number}");
    assert!(rt; link.sent(0).is_none(), "call {number}");
    disks.crash(1, image);
    check_again(rt, alloc, disks.bytes(1), disks.bytes(17), votes)?;
    Ok(true)
}

// The first call of the append of the votes.
fn first_call(rt: &impl Abort, alloc: Global) -> Result<u32, Fail> {
    for number in 1..60u32 {
        if check_failing(rt, alloc, number, Image::Lost, 0)? {
            return Ok(number);
        }
    }
    Ok(60)
}

// Three centres with cells for many votes.
const ROOMY: &str =
    r#"{"centres":3,"classic":2,"fast":3,"gamma":100,"bounds":[[0,1000]],"hosts":["127.0.0.1","127.0.0.1","127.0.0.1"],"port":9000,"cells":10000}"#;

// A key of 32 bytes that ends so, with its length before it, and the version 0 of its item.
fn long_key(alloc: Global, last: [u8; 2]) -> Result<Vec<u8>, Fail> {
    let mut key = Vec::new(alloc);
    key.push(32)?;
    key.extend_from_slice(&[97; 30])?;
    key.extend_from_slice(&last)?;
    key.extend_from_slice(&[0; 8])?;
    Ok(key)
}

// What the transaction of centre 2 with this number does to a key of its own, in 519 bytes: it inserts a body of 128 bytes and a value 10,
// and has seven keys more.
fn wide_choice(alloc: Global, number: u8) -> Result<Vec<u8>, Fail> {
    let letter = 97u8.saturating_add(number / 16);
    let key = long_key(alloc, [letter, 97u8.saturating_add(number % 16)])?;
    let mut choice = Vec::new(alloc);
    choice.extend_from_slice(&[2, 1, 0, 0, 0, number, 0, 0, 0])?;
    choice.extend_from_slice(&key)?;
    choice.extend_from_slice(&[1, 128])?;
    choice.extend_from_slice(&[7; 128])?;
    choice.extend_from_slice(&[1, 10, 0, 0, 0, 0, 0, 0, 0, 0, 8])?;
    choice.extend_from_slice(&key)?;
    for last in 97..104u8 {
        choice.extend_from_slice(&long_key(alloc, [122, last])?)?;
    }
    Ok(choice)
}

// A node of 229 turns for which 230 proposals wait, over disks where this call fails. Each leaves a fact of 576 bytes and a message of 574,
// so that after 227 of them 261,050 bytes are pending, and after 228 of them 262,200, which are more than may wait.
fn run_crowded(alloc: Global, call: u32) -> Result<(Ran, MemoryLink), Fail> {
    let mut disks = new_disks(alloc, &[call])?;
    let mut link = MemoryLink::new(alloc, &[])?;
    for number in 1..231u8 {
        let proposal = message(alloc, &[1, 1, 2, 1], &wide_choice(alloc, number)?)?;
        link.put(1, &datagram(alloc, 2, 1, number, &proposal)?)?;
    }
    let words = ["node", "1", "229"];
    let ran = run_on(alloc, &words, ROOMY, &NO_FAULTS, &mut disks, &mut link)?;
    Ok((ran, link))
}

// The first 228 votes go out together, though more waits, and the last one when the turns are over. The first append of votes begins with
// this call.
fn check_crowded(rt: &impl Abort, alloc: Global, first: u32) -> Result<(), Fail> {
    let (ran, link) = run_crowded(alloc, first.saturating_add(3))?;
    assert!(rt; ran.is(BOOT, "mdcc: disk 1 failed\n", 7));
    assert!(rt; link.sent(0).is_none());
    let (ran, link) = run_crowded(alloc, first.saturating_add(4))?;
    assert!(rt; ran.is(BOOT, "mdcc: disk 1 failed\n", 7));
    assert!(rt; link.sent(227).is_some() && link.sent(228).is_none());
    let (ran, link) = run_crowded(alloc, first.saturating_add(8))?;
    assert!(rt; ran.status == 0);
    assert!(rt; link.sent(228).is_some() && link.sent(229).is_none());
    Ok(())
}

// Three votes take the four calls of one append: their frames are written, made durable, opened, and that is made durable. Of a write that
// fails on these disks the bytes are there.
#[test]
fn a_call_that_fails_leaves_all_votes_or_none(rt: HostRuntime) -> Result<(), Fail> {
    let alloc = rt.alloc();
    let first = first_call(&rt, alloc)?;
    for (calls, image, votes) in [
        (1u32, Image::Kept, 0usize),
        (2, Image::Lost, 0),
        (2, Image::Torn, 0),
        (2, Image::Kept, 3),
        (3, Image::Lost, 0),
        (3, Image::Torn, 0),
        (3, Image::Kept, 3),
    ] {
        let number = first.saturating_add(calls);
        assert!(rt; check_failing(&rt, alloc, number, image, votes)?);
    }
    let (ran, _disks, _link) = run_proposed(alloc, &[first.saturating_add(4)], "3")?;
    assert!(rt; ran.is(DONE, "", 0));
    check_crowded(&rt, alloc, first)
}

// What waits for a centre of three in four turns: a begin that comes four times; the proposal of it, and the vote of each centre.
fn own_transaction(alloc: Global) -> Result<MemoryLink, Fail> {
    let mut link = MemoryLink::new(alloc, &[])?;
    let request = message(alloc, &BEGINS, &INSERT)?;
    for serial in 1..5u8 {
        link.put(17, &datagram(alloc, 17, 7, serial, &request)?)?;
    }
    let proposal = message(alloc, &PROPOSES, &CHOICE)?;
    link.put(1, &datagram(alloc, 1, 1, 90, &proposal)?)?;
    for centre in 1..4u8 {
        let mut head = VOTES;
        head[2] = centre;
        let vote = message(alloc, &head, &CHOICE)?;
        link.put(1, &datagram(alloc, centre, 1, 91, &vote)?)?;
    }
    Ok(link)
}

// Centre 1 tells another of its commit.
fn outcome(alloc: Global, centre: u8, serial: u8) -> Result<Vec<u8>, Fail> {
    let head = [1, 9, 1, centre, 1, 1, 0, 0, 0, 1, 0, 0, 0, 1, 1];
    Ok(datagram(alloc, 1, 1, serial, &message(alloc, &head, &CHOICE)?)?)
}

const HEARD: &str = "boot 1 epoch 1\nheard 1 1.1.1 commit\ndone turns 4 steps 5 dropped 0 lost 0\n";

// The vote and three proposals are sent first. A begin that comes again begins nothing: it is answered with the transaction, and with its
// end where that was heard. The client hears of the end before the other centres do.
#[test]
fn the_client_hears_of_a_commit_before_other_centres(rt: HostRuntime) -> Result<(), Fail> {
    let alloc = rt.alloc();
    let mut disks = new_disks(alloc, &[])?;
    let mut link = own_transaction(alloc)?;
    let words = ["node", "1", "4"];
    let ran = run_on(alloc, &words, THREE, &NO_FAULTS, &mut disks, &mut link)?;
    assert!(rt; ran.is(HEARD, "", 0));
    assert!(rt; disks.bytes(1) == insert_log(alloc)?.as_slice());
    for (index, serial) in [(4usize, 5u8), (5, 6), (6, 7)] {
        let begun = answer(alloc, serial, &BEGUN)?;
        assert!(rt; was_sent(&link, index, 9033, &begun));
    }
    assert!(rt; was_sent(&link, 7, 9033, &answer(alloc, 8, &COMMITTED)?));
    assert!(rt; was_sent(&link, 8, 9002, &outcome(alloc, 2, 9)?));
    assert!(rt; was_sent(&link, 9, 9003, &outcome(alloc, 3, 10)?));
    assert!(rt; was_sent(&link, 10, 9033, &answer(alloc, 11, &COMMITTED)?));
    assert!(rt; link.sent(11).is_none());
    Ok(())
}
