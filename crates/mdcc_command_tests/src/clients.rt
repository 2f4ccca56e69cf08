//! What a node answers its client, and which datagrams it drops.
use crate::datagrams::{
    ASKS, BEGINS, BEGUN, INSERT, NOTHING_HELD, READS, answer, begin, datagram, message, was_sent,
};
use crate::program::{NO_FAULTS, SMALL, run_on};
use crate::runs::new_disks;
use mdcc_link::MemoryLink;
use std::alloc::Global;
use std::process::Abort;
use std::test::Fail;

// What is asked for behind the head of a request, and what is answered behind that of an answer.
#[derive(Clone, Copy)]
struct Request<'a> {
    head: &'a [u8],
    asked: &'a [u8],
    answer: &'a [u8],
    done: &'a str,
}

const STEP: &str = "boot 1 epoch 1\ndone turns 1 steps 1 dropped 0 lost 0\n";

const NO_STEP: &str = "boot 1 epoch 1\ndone turns 1 steps 0 dropped 0 lost 0\n";

const DROPPED: &str = "boot 1 epoch 1\ndone turns 1 steps 0 dropped 1 lost 0\n";

// A read; a begin; a write at version 3, an add at version 5 and one at version 0, where nothing is held; a value out of bounds, an
// attribute and a value too many, none of which is a transaction.
const REQUESTS: [Request<'static>; 8] = [
    Request {
        head: &READS,
        asked: &[1, 97],
        answer: &NOTHING_HELD,
        done: STEP,
    },
    Request {
        head: &BEGINS,
        asked: &INSERT,
        answer: &BEGUN,
        done: STEP,
    },
    Request {
        head: &BEGINS,
        asked: &[
            1, 1, 97, 3, 0, 0, 0, 0, 0, 0, 0, 1, 0, 1, 10, 0, 0, 0, 0, 0, 0, 0, 0,
        ],
        answer: &[3, 1, 97, 1, 0, 0, 0, 0, 0, 0, 0, 0, 0],
        done: STEP,
    },
    Request {
        head: &BEGINS,
        asked: &[
            1, 1, 97, 5, 0, 0, 0, 0, 0, 0, 0, 2, 1, 1, 1, 0, 0, 0, 0, 0, 0, 0,
        ],
        answer: &[3, 1, 97, 2, 0, 0, 0, 0, 0, 0, 0, 0],
        done: STEP,
    },
    Request {
        head: &BEGINS,
        asked: &[
            1, 1, 97, 0, 0, 0, 0, 0, 0, 0, 0, 2, 1, 1, 1, 0, 0, 0, 0, 0, 0, 0,
        ],
        answer: &[3, 1, 97, 3],
        done: STEP,
    },
    Request {
        head: &BEGINS,
        asked: &[
            1, 1, 97, 0, 0, 0, 0, 0, 0, 0, 0, 1, 0, 1, 233, 3, 0, 0, 0, 0, 0, 0, 0,
        ],
        answer: &[5, 6],
        done: NO_STEP,
    },
    Request {
        head: &BEGINS,
        asked: &[
            1, 1, 97, 0, 0, 0, 0, 0, 0, 0, 0, 2, 1, 2, 1, 0, 0, 0, 0, 0, 0, 0,
        ],
        answer: &[5, 4],
        done: NO_STEP,
    },
    Request {
        head: &BEGINS,
        asked: &[
            1, 1, 97, 0, 0, 0, 0, 0, 0, 0, 0, 1, 0, 2, 10, 0, 0, 0, 0, 0, 0, 0, 10, 0, 0, 0, 0, 0,
            0, 0, 0,
        ],
        answer: &[5, 4],
        done: NO_STEP,
    },
];

// One turn of a node for which a datagram waits.
fn check_turn(
    rt: &impl Abort,
    alloc: Global,
    at: u8,
    waiting: &[u8],
    out: &str,
) -> Result<MemoryLink, Fail> {
    let mut disks = new_disks(alloc, &[])?;
    let mut link = MemoryLink::new(alloc, &[])?;
    link.put(at, waiting)?;
    let words = ["node", "1", "1"];
    let ran = run_on(alloc, &words, SMALL, &NO_FAULTS, &mut disks, &mut link)?;
    assert!(rt; ran.is(out, "", 0), "{out}");
    Ok(link)
}

// An answer is the last datagram of a step, behind a proposal.
fn check_request(
    rt: &impl Abort,
    alloc: Global,
    number: usize,
    request: &Request,
) -> Result<(), Fail> {
    let asked = message(alloc, request.head, request.asked)?;
    let waiting = datagram(alloc, 17, 7, 1, &asked)?;
    let link = check_turn(rt, alloc, 17, &waiting, request.done)?;
    let before = if link.sent(1).is_some() { 1u8 } else { 0 };
    let expected = answer(alloc, before + 1, request.answer)?;
    assert!(rt;
        was_sent(&link, before as usize, 9033, &expected),
        "{number}"
    );
    assert!(rt; link.sent(2).is_none(), "{number}");
    Ok(())
}

#[test]
fn requests_are_answered(rt: HostRuntime) -> Result<(), Fail> {
    for (number, request) in REQUESTS.iter().enumerate() {
        check_request(&rt, rt.alloc(), number, request)?;
    }
    Ok(())
}

// A request at the centre's endpoint, a message of centres at the client's, one that is longer than a datagram, and what is no message.
#[test]
fn what_is_dropped(rt: HostRuntime) -> Result<(), Fail> {
    let alloc = rt.alloc();
    let read = message(alloc, &READS, &[1, 97])?;
    let no_part = message(alloc, &BEGINS, &[0])?;
    for (at, waiting) in [
        (1u8, datagram(alloc, 17, 7, 1, &read)?),
        (1, begin(alloc)?),
        (17, datagram(alloc, 2, 1, 1, &ASKS)?),
        (17, datagram(alloc, 17, 7, 1, &no_part)?),
        (17, message(alloc, &begin(alloc)?, &[0; 1400])?),
    ] {
        let link = check_turn(&rt, alloc, at, &waiting, DROPPED)?;
        assert!(rt; link.sent(0).is_none());
    }
    Ok(())
}
