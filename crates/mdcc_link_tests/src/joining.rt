//! Messages joined from their datagrams.
use mdcc_frag::{DropCause, FragHead, Joined, Joiner, MESSAGE_LIMIT, count, split};
use std::alloc::Global;
use std::test::Fail;

// What a joiner answered: the whole message, or something other than was expected.
#[derive(Clone, Copy, Debug, PartialEq, Eq)]
enum Answer {
    Whole,
    Kept,
    Repeated,
    Dropped(DropCause),
    Other,
}

// Serials and pieces behind piece 0 of the serials 1 to 65, which dropped serial 1. Its other piece begins it anew and drops serial
// 2.
const BEHIND_65: [(u32, u16, Answer); 3] = [
    (1, 1, Answer::Kept),
    (3, 1, Answer::Whole),
    (4, 0, Answer::Repeated),
];

// Pieces of a message of three that come again.
const AGAIN: [(u32, u16, Answer); 6] = [
    (1, 2, Answer::Kept),
    (1, 2, Answer::Repeated),
    (1, 0, Answer::Kept),
    (1, 2, Answer::Repeated),
    (1, 1, Answer::Whole),
    (1, 1, Answer::Kept),
];

const LONGER: [(u32, u16, Answer); 2] = [
    (1, 1, Answer::Dropped(DropCause::Disagrees)),
    (1, 0, Answer::Dropped(DropCause::Disagrees)),
];

fn answer_of(joined: &Joined, message: &[u8]) -> Answer {
    match joined {
        Joined::Whole(bytes) => {
            if bytes.as_slice() == message {
                Answer::Whole
            } else {
                Answer::Other
            }
        }
        Joined::Kept => Answer::Kept,
        Joined::Repeated => Answer::Repeated,
        Joined::Dropped(cause) => Answer::Dropped(*cause),
    }
}

// So many bytes, no two pieces of which are equal.
fn message(alloc: Global, length: usize) -> Result<Vec<u8>, Fail> {
    let mut bytes = Vec::new(alloc);
    for k in 0..length {
        bytes.push((k % 251) as u8)?;
    }
    Ok(bytes)
}

// The answer to a datagram.
fn offer(
    alloc: Global,
    joiner: &mut Joiner,
    datagram: &[u8],
    message: &[u8],
) -> Result<Answer, Fail> {
    let joined = joiner.join(alloc, datagram)?;
    Ok(answer_of(&joined, message))
}

// The answer to one piece of a message.
fn take(
    alloc: Global,
    joiner: &mut Joiner,
    message: &[u8],
    serial: u32,
    index: u16,
) -> Result<Answer, Fail> {
    if message.len() > MESSAGE_LIMIT || index >= count(message.len()) {
        return Ok(Answer::Other);
    }
    let head = FragHead {
        sender: 2,
        epoch: 1,
        serial,
    };
    let mut datagram = [0u8; 1400];
    let size = split(message, head, index, &mut datagram);
    offer(alloc, joiner, &datagram[..size], message)
}

// Whether these pieces get these answers.
fn gives(
    alloc: Global,
    joiner: &mut Joiner,
    message: &[u8],
    pieces: &[(u32, u16, Answer)],
) -> Result<bool, Fail> {
    for (serial, index, expected) in pieces {
        if take(alloc, joiner, message, *serial, *index)? != *expected {
            return Ok(false);
        }
    }
    Ok(true)
}

// Whether all pieces but the last are kept and the last gives the message, in order or backwards.
fn comes_back(alloc: Global, length: usize, backwards: bool) -> Result<bool, Fail> {
    if length > MESSAGE_LIMIT {
        return Ok(false);
    }
    let message = message(alloc, length)?;
    let mut joiner = Joiner::new(alloc)?;
    let last = count(length);
    for k in 0..last {
        let index = if backwards { last - 1 - k } else { k };
        let answer = take(alloc, &mut joiner, &message, 1, index)?;
        let expected = if k + 1 == last {
            Answer::Whole
        } else {
            Answer::Kept
        };
        if answer != expected {
            return Ok(false);
        }
    }
    Ok(last > 0)
}

#[test]
fn messages_come_back_whole(rt: HostRuntime) -> Result<(), Fail> {
    for (length, backwards) in [
        (1, false),
        (1383, false),
        (1384, false),
        (1384, true),
        (2_097_152, false),
        (2_097_152, true),
    ] {
        let whole = comes_back(rt.alloc(), length, backwards)?;
        assert!(rt; whole);
    }
    Ok(())
}

// Whether piece 0 of these serials is kept each time.
fn are_begun(alloc: Global, joiner: &mut Joiner, message: &[u8]) -> Result<bool, Fail> {
    for serial in 1..66 {
        if take(alloc, joiner, message, serial, 0)? != Answer::Kept {
            return Ok(false);
        }
    }
    Ok(true)
}

#[test]
fn the_65th_message_drops_the_least_recently_used(rt: HostRuntime) -> Result<(), Fail> {
    let alloc = rt.alloc();
    let message = message(alloc, 1384)?;
    let mut joiner = Joiner::new(alloc)?;
    let begun = are_begun(alloc, &mut joiner, &message)?;
    assert!(rt; begun);
    let given = gives(alloc, &mut joiner, &message, &BEHIND_65)?;
    assert!(rt; given);
    Ok(())
}

#[test]
fn a_piece_that_came_is_repeated(rt: HostRuntime) -> Result<(), Fail> {
    let alloc = rt.alloc();
    let message = message(alloc, 2767)?;
    let mut joiner = Joiner::new(alloc)?;
    let given = gives(alloc, &mut joiner, &message, &AGAIN)?;
    assert!(rt; given);
    Ok(())
}

#[test]
fn another_total_changes_nothing(rt: HostRuntime) -> Result<(), Fail> {
    let alloc = rt.alloc();
    let first = message(alloc, 1384)?;
    let longer = message(alloc, 1385)?;
    let mut joiner = Joiner::new(alloc)?;
    let begun = gives(alloc, &mut joiner, &first, &[(1, 0, Answer::Kept)])?;
    assert!(rt; begun);
    let dropped = gives(alloc, &mut joiner, &longer, &LONGER)?;
    assert!(rt; dropped);
    let whole = gives(alloc, &mut joiner, &first, &[(1, 1, Answer::Whole)])?;
    assert!(rt; whole);
    Ok(())
}

#[test]
fn what_is_no_datagram_is_dropped(rt: HostRuntime) -> Result<(), Fail> {
    let alloc = rt.alloc();
    let mut joiner = Joiner::new(alloc)?;
    let zeros = offer(alloc, &mut joiner, &[0; 16], &[])?;
    assert_eq!(rt; zeros, Answer::Dropped(DropCause::Header));
    let empty = [1, 0, 0, 0, 0, 0, 0, 0, 0, 0, 0, 0, 0, 0, 0, 1, 0];
    let none = offer(alloc, &mut joiner, &empty, &[])?;
    assert_eq!(rt; none, Answer::Dropped(DropCause::Count));
    Ok(())
}
