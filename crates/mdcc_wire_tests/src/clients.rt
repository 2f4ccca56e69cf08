//! Messages that bring a centre or a client up to date, as bytes.
use crate::bytes::{
    AMOUNTS, ITEM, NEXT_TX, PLACE, TX, amounts, deltas, item, joined, key, seen, tx,
};
use crate::spelled::{is_written, message_of};
use mdcc_base::{BoundedList, HeapList, Plain};
use mdcc_option::{BeginFault, Delta, DraftFault, Part, Token, Update};
use mdcc_wire::{ClientAnswer, Message};
use std::alloc::Global;
use std::test::*;

/// The number 258, of a client's request.
const SERIAL: [u8; 4] = [2, 1, 0, 0];

fn is_question(message: &Message) -> bool {
    match message {
        Message::SyncAsk(read) => read.is(&key()),
        _ => false,
    }
}

fn is_asked_for(alloc: Global) -> Result<bool, Fail> {
    Ok(
        is_written(alloc, 11, Message::SyncAsk(key()), &[&[1, 97]])?
            && is_question(&message_of(alloc, 11, &[&[1, 97]])?),
    )
}

fn is_gift(message: &Message, given: &HeapList<Delta>) -> bool {
    match message {
        Message::SyncGive {
            key: of,
            version,
            item: read,
            adds,
        } => of.is(&key()) && *version == 7 && read.same(&item()) && adds.same(given),
        _ => false,
    }
}

fn is_gift_written(alloc: Global, adds: HeapList<Delta>, bytes: &[&[u8]]) -> Result<bool, Fail> {
    if adds.len() != 1 {
        return Ok(false);
    }
    let give = Message::SyncGive {
        key: key(),
        version: 7,
        item: item(),
        adds,
    };
    is_written(alloc, 12, give, bytes)
}

fn is_given(alloc: Global) -> Result<bool, Fail> {
    let bytes: [&[u8]; 5] = [&PLACE, &ITEM, &[1], &TX, &AMOUNTS];
    Ok(
        is_gift_written(alloc, deltas(alloc)?, &bytes)?
            && is_gift(&message_of(alloc, 12, &bytes)?, &deltas(alloc)?),
    )
}

fn is_read_of(message: &Message) -> bool {
    match message {
        Message::ClientRead { serial, key: of } => *serial == 258 && of.is(&key()),
        _ => false,
    }
}

fn is_read(alloc: Global) -> Result<bool, Fail> {
    let sent = Message::ClientRead {
        serial: 258,
        key: key(),
    };
    Ok(
        is_written(alloc, 13, sent, &[&SERIAL, &[1, 97]])?
            && is_read_of(&message_of(alloc, 13, &[&SERIAL, &[1, 97]])?),
    )
}

// A write of the item that saw two transactions, and 5 more at attribute 2 of key bc at version 256.
fn parts() -> BoundedList<Part, 8> {
    let writes = Part {
        key: key(),
        version: 7,
        update: Update::Write(item(), seen()),
    };
    let adds = Part {
        key: mdcc_base::Key::new(b"bc").unwrap_or_default(),
        version: 256,
        update: Update::Add(amounts()),
    };
    BoundedList::from_slice(&[writes, adds]).unwrap_or_default()
}

fn is_begin(message: &Message) -> bool {
    match message {
        Message::ClientBegin {
            serial,
            parts: read,
        } => *serial == 258 && read.same(&parts()),
        _ => false,
    }
}

fn is_begun(alloc: Global) -> Result<bool, Fail> {
    let writes = joined(alloc, &[&PLACE, &[1], &ITEM, &[2], &TX, &NEXT_TX])?;
    let adds = joined(alloc, &[&[2, 98, 99, 0, 1, 0, 0, 0, 0, 0, 0, 2], &AMOUNTS])?;
    let bytes: [&[u8]; 4] = [&SERIAL, &[2], &writes, &adds];
    let begin = Message::ClientBegin {
        serial: 258,
        parts: parts(),
    };
    Ok(is_written(alloc, 14, begin, &bytes)? && is_begin(&message_of(alloc, 14, &bytes)?))
}

#[test]
fn states_and_requests(rt: HostRuntime) -> Result<(), Fail> {
    let alloc = rt.alloc();
    assert!(rt; is_asked_for(alloc)? && is_given(alloc)?);
    assert!(rt; is_read(alloc)? && is_begun(alloc)?);
    Ok(())
}

// ---- answers

fn is_same(a: &ClientAnswer, b: &ClientAnswer) -> bool {
    match (a, b) {
        (
            ClientAnswer::Read {
                key,
                token,
                item,
                due,
            },
            ClientAnswer::Read {
                key: other_key,
                token: other_token,
                item: other_item,
                due: other_due,
            },
        ) => {
            key.is(other_key)
                && token.is(other_token)
                && item.same(other_item)
                && *due == *other_due
        }
        (ClientAnswer::Begun(a), ClientAnswer::Begun(b)) => a.is(b),
        (ClientAnswer::Refused(a, x), ClientAnswer::Refused(b, y)) => a.is(b) && x == y,
        (ClientAnswer::Heard(a, x), ClientAnswer::Heard(b, y)) => a.is(b) && *x == *y,
        (ClientAnswer::Draft(x), ClientAnswer::Draft(y)) => x == y,
        _ => false,
    }
}

fn is_answer(message: &Message, answer: &ClientAnswer) -> bool {
    match message {
        Message::ClientAnswer {
            serial,
            answer: read,
        } => *serial == 258 && is_same(read, answer),
        _ => false,
    }
}

fn is_answered(alloc: Global, answer: ClientAnswer, answer_bytes: &[u8]) -> Result<bool, Fail> {
    let bytes: [&[u8]; 2] = [&SERIAL, answer_bytes];
    if !is_answer(&message_of(alloc, 15, &bytes)?, &answer) {
        return Ok(false);
    }
    let sent = Message::ClientAnswer {
        serial: 258,
        answer,
    };
    is_written(alloc, 15, sent, &bytes)
}

fn token() -> Token {
    Token {
        version: 7,
        seen: seen(),
    }
}

#[test]
fn answers_to_reads(rt: HostRuntime) -> Result<(), Fail> {
    let alloc = rt.alloc();
    let shown = ClientAnswer::Read {
        key: key(),
        token: token(),
        item: Some(item()),
        due: true,
    };
    let bytes = joined(
        alloc,
        &[&[1], &PLACE, &[1], &ITEM, &[2], &TX, &NEXT_TX, &[1]],
    )?;
    assert!(rt; is_answered(alloc, shown, &bytes)?);
    let nothing = ClientAnswer::Read {
        key: key(),
        token: Token::default(),
        item: None,
        due: false,
    };
    let bytes = [1, 1, 97, 0, 0, 0, 0, 0, 0, 0, 0, 0, 0, 0];
    assert!(rt; is_answered(alloc, nothing, &bytes)?);
    Ok(())
}

#[test]
fn answers_to_begins(rt: HostRuntime) -> Result<(), Fail> {
    let alloc = rt.alloc();
    let begun = [2, 1, 1, 0, 0, 0, 1, 0, 0, 0];
    assert!(rt; is_answered(alloc, ClientAnswer::Begun(tx()), &begun)?);
    let ended = [4, 1, 1, 0, 0, 0, 1, 0, 0, 0, 1];
    assert!(rt; is_answered(alloc, ClientAnswer::Heard(tx(), true), &ended)?);
    let draft = ClientAnswer::Draft(DraftFault::OutOfBounds);
    assert!(rt; is_answered(alloc, draft, &[5, 6])?);
    Ok(())
}

#[test]
fn refused_begins(rt: HostRuntime) -> Result<(), Fail> {
    let alloc = rt.alloc();
    let stale = ClientAnswer::Refused(key(), BeginFault::Stale(token()));
    let bytes = joined(
        alloc,
        &[&[3, 1, 97, 1, 7, 0, 0, 0, 0, 0, 0, 0, 2], &TX, &NEXT_TX],
    )?;
    assert!(rt; is_answered(alloc, stale, &bytes)?);
    let unseen = ClientAnswer::Refused(key(), BeginFault::Unseen(256));
    assert!(rt; is_answered(alloc, unseen, &[3, 1, 97, 2, 0, 1, 0, 0, 0, 0, 0, 0])?);
    let no_item = ClientAnswer::Refused(key(), BeginFault::NoItem);
    assert!(rt; is_answered(alloc, no_item, &[3, 1, 97, 3])?);
    let sequence = ClientAnswer::Refused(key(), BeginFault::Sequence);
    assert!(rt; is_answered(alloc, sequence, &[3, 1, 97, 4])?);
    let busy = ClientAnswer::Refused(key(), BeginFault::Busy);
    assert!(rt; is_answered(alloc, busy, &[3, 1, 97, 5])?);
    Ok(())
}
