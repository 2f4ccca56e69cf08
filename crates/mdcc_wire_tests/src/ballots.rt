//! Messages about a leader's ballot, as bytes.
use crate::bytes::{
    BALLOT, CHOICE, FAST, GREATER, NEXT_TX, PLACE, ballot, choice, greater, joined, key, next_tx,
    options, tx,
};
use crate::spelled::{are_same, is_written, message_of};
use mdcc_base::{Ballot, TxId};
use mdcc_option::Mark;
use mdcc_struct::Options;
use mdcc_wire::{Message, view};
use std::alloc::Global;
use std::test::*;

/// The number 107.
const THROUGH: [u8; 8] = [107, 0, 0, 0, 0, 0, 0, 0];

fn is_prepare(message: &Message) -> bool {
    match message {
        Message::Prepare {
            key: of,
            version,
            through,
            ballot: at,
        } => of.is(&key()) && *version == 7 && *through == 107 && at.is(&ballot()),
        _ => false,
    }
}

fn is_prepared(alloc: Global) -> Result<bool, Fail> {
    let bytes: [&[u8]; 3] = [&PLACE, &THROUGH, &BALLOT];
    let prepare = Message::Prepare {
        key: key(),
        version: 7,
        through: 107,
        ballot: ballot(),
    };
    Ok(is_written(alloc, 5, prepare, &bytes)? && is_prepare(&message_of(alloc, 5, &bytes)?))
}

// The bytes of the marks.
fn mark_bytes(alloc: Global) -> Result<Vec<u8>, Fail> {
    joined(alloc, &[&[2, 0, 0, 0, 1], &CHOICE, &[0], &NEXT_TX])
}

fn is_promise(message: &Message, given: &Options) -> bool {
    match message {
        Message::Promise {
            key: of,
            version,
            through,
            ballot: at,
            reported,
            votes,
        } => {
            of.is(&key())
                && *version == 7
                && *through == 107
                && at.is(&ballot())
                && reported.is(&Ballot::FAST)
                && are_same(votes, given)
        }
        _ => false,
    }
}

fn is_promise_written(alloc: Global, votes: Options, bytes: &[&[u8]]) -> Result<bool, Fail> {
    if votes.len() != 2 {
        return Ok(false);
    }
    let promise = Message::Promise {
        key: key(),
        version: 7,
        through: 107,
        ballot: ballot(),
        reported: Ballot::FAST,
        votes,
    };
    is_written(alloc, 6, promise, bytes)
}

fn is_promised(alloc: Global) -> Result<bool, Fail> {
    let marks = mark_bytes(alloc)?;
    let bytes: [&[u8]; 5] = [&PLACE, &THROUGH, &BALLOT, &FAST, &marks];
    Ok(
        is_promise_written(alloc, options(alloc)?, &bytes)?
            && is_promise(&message_of(alloc, 6, &bytes)?, &options(alloc)?),
    )
}

fn is_accept(message: &Message, given: &Options) -> bool {
    match message {
        Message::Accept {
            key: of,
            version,
            ballot: at,
            options,
        } => of.is(&key()) && *version == 7 && at.is(&ballot()) && are_same(options, given),
        _ => false,
    }
}

fn is_accept_written(alloc: Global, options: Options, bytes: &[&[u8]]) -> Result<bool, Fail> {
    if options.len() != 2 {
        return Ok(false);
    }
    let accept = Message::Accept {
        key: key(),
        version: 7,
        ballot: ballot(),
        options,
    };
    is_written(alloc, 7, accept, bytes)
}

fn is_accepted(alloc: Global) -> Result<bool, Fail> {
    let marks = mark_bytes(alloc)?;
    let bytes: [&[u8]; 3] = [&PLACE, &BALLOT, &marks];
    Ok(
        is_accept_written(alloc, options(alloc)?, &bytes)?
            && is_accept(&message_of(alloc, 7, &bytes)?, &options(alloc)?),
    )
}

fn is_refusal(message: &Message) -> bool {
    match message {
        Message::Refused {
            key: of,
            version,
            ballot: at,
            promised,
        } => of.is(&key()) && *version == 7 && at.is(&ballot()) && promised.is(&greater()),
        _ => false,
    }
}

fn is_refused(alloc: Global) -> Result<bool, Fail> {
    let bytes: [&[u8]; 3] = [&PLACE, &BALLOT, &GREATER];
    let refused = Message::Refused {
        key: key(),
        version: 7,
        ballot: ballot(),
        promised: greater(),
    };
    Ok(is_written(alloc, 8, refused, &bytes)? && is_refusal(&message_of(alloc, 8, &bytes)?))
}

#[test]
fn ballots_of_leaders(rt: HostRuntime) -> Result<(), Fail> {
    let alloc = rt.alloc();
    assert!(rt; is_prepared(alloc)?);
    assert!(rt; is_promised(alloc)?);
    assert!(rt; is_accepted(alloc)?);
    assert!(rt; is_refused(alloc)?);
    Ok(())
}

// Whether these are the two marks.
fn are_marks(first: &(TxId, Mark), second: &(TxId, Mark)) -> bool {
    first.0.is(&tx())
        && first.1.is(&Mark::Accept(choice()))
        && second.0.is(&next_tx())
        && second.1.is(&Mark::Reject)
}

// The marks of an accept one after another.
#[test]
fn marks_in_turn(rt: HostRuntime) -> Result<(), Fail> {
    let marks = mark_bytes(rt.alloc())?;
    let bytes = joined(rt.alloc(), &[&[1, 7, 9, 8], &PLACE, &BALLOT, &marks])?;
    let viewed = view(&bytes).ok().ok_or("the bytes are a message")?;
    let mut left = viewed.marks();
    let first = left.next().ok_or("there are marks")?;
    let second = left.next().ok_or("there are two marks")?;
    assert!(rt; are_marks(&first, &second) && left.next().is_none());
    Ok(())
}

#[test]
fn a_question_has_no_marks(rt: HostRuntime) -> Result<(), Fail> {
    let asks = view(&[1, 11, 1, 2, 1, 97])
        .ok()
        .ok_or("the bytes are a message")?;
    assert!(rt; asks.marks().next().is_none() && asks.choice().is_none());
    Ok(())
}
