//! Messages about the option of one transaction, as bytes.
use crate::bytes::{
    BALLOT, CHOICE, FAST, NEXT_TX, PLACE, TX, ballot, choice, key, next_tx, tx, writing_bytes,
    writing_choice,
};
use crate::spelled::{is_written, message_of};
use mdcc_base::{Ballot, BoundedList, Plain, TxId};
use mdcc_option::{Cause, Mark, Outcome};
use mdcc_wire::Message;
use std::alloc::Global;
use std::test::*;

fn is_proposal(message: &Message) -> bool {
    match message {
        Message::Propose(read) => read.is(&choice()),
        _ => false,
    }
}

fn is_proposed(alloc: Global) -> Result<bool, Fail> {
    Ok(
        is_written(alloc, 1, Message::Propose(choice()), &[&CHOICE])?
            && is_proposal(&message_of(alloc, 1, &[&CHOICE])?),
    )
}

fn is_vote(message: &Message, at: &Ballot, voter: &TxId, mark: &Mark) -> bool {
    match message {
        Message::Voted {
            key: of,
            version,
            ballot,
            tx,
            mark: read,
        } => of.is(&key()) && *version == 7 && ballot.is(at) && tx.is(voter) && read.is(mark),
        _ => false,
    }
}

fn is_voted(
    alloc: Global,
    at: Ballot,
    voter: TxId,
    mark: &Mark,
    bytes: &[&[u8]],
) -> Result<bool, Fail> {
    let vote = Message::Voted {
        key: key(),
        version: 7,
        ballot: at,
        tx: voter,
        mark: mark.copy(),
    };
    Ok(
        is_written(alloc, 2, vote, bytes)?
            && is_vote(&message_of(alloc, 2, bytes)?, &at, &voter, mark),
    )
}

fn is_escalation(message: &Message, cause: &Cause) -> bool {
    match message {
        Message::Escalate {
            key: of,
            version,
            tx: read,
            cause: why,
        } => of.is(&key()) && *version == 7 && read.is(&tx()) && *why == *cause,
        _ => false,
    }
}

fn is_escalated(alloc: Global, cause: Cause, cause_bytes: &[u8]) -> Result<bool, Fail> {
    let bytes: [&[u8]; 3] = [&PLACE, &TX, cause_bytes];
    let escalate = Message::Escalate {
        key: key(),
        version: 7,
        tx: tx(),
        cause,
    };
    Ok(
        is_written(alloc, 3, escalate, &bytes)?
            && is_escalation(&message_of(alloc, 3, &bytes)?, &cause),
    )
}

fn is_lead(message: &Message) -> bool {
    match message {
        Message::Lead(read) => read.is(&writing_choice()),
        _ => false,
    }
}

fn is_led(alloc: Global) -> Result<bool, Fail> {
    let bytes = writing_bytes(alloc)?;
    Ok(
        is_written(alloc, 4, Message::Lead(writing_choice()), &[&bytes])?
            && is_lead(&message_of(alloc, 4, &[&bytes])?),
    )
}

fn is_end(message: &Message, outcome: &Outcome) -> bool {
    match message {
        Message::Outcome {
            tx: of,
            outcome: read,
        } => of.is(&tx()) && read.is(outcome),
        _ => false,
    }
}

fn is_ended(alloc: Global, outcome: &Outcome, outcome_bytes: &[u8]) -> Result<bool, Fail> {
    let bytes: [&[u8]; 2] = [&TX, outcome_bytes];
    let ended = Message::Outcome {
        tx: tx(),
        outcome: outcome.copy(),
    };
    Ok(is_written(alloc, 9, ended, &bytes)? && is_end(&message_of(alloc, 9, &bytes)?, outcome))
}

fn is_question(message: &Message) -> bool {
    match message {
        Message::Ask {
            tx: of,
            key: at,
            version,
        } => of.is(&tx()) && at.is(&key()) && *version == 7,
        _ => false,
    }
}

fn is_asked(alloc: Global) -> Result<bool, Fail> {
    let ask = Message::Ask {
        tx: tx(),
        key: key(),
        version: 7,
    };
    Ok(
        is_written(alloc, 10, ask, &[&TX, &PLACE])?
            && is_question(&message_of(alloc, 10, &[&TX, &PLACE])?),
    )
}

#[test]
fn choices_and_votes(rt: HostRuntime) -> Result<(), Fail> {
    let alloc = rt.alloc();
    assert!(rt; is_proposed(alloc)? && is_led(alloc)?);
    let bytes: [&[u8]; 4] = [&PLACE, &FAST, &[1], &CHOICE];
    assert!(rt; is_voted(alloc, Ballot::FAST, tx(), &Mark::Accept(choice()), &bytes)?);
    let bytes: [&[u8]; 4] = [&PLACE, &BALLOT, &[0], &NEXT_TX];
    assert!(rt; is_voted(alloc, ballot(), next_tx(), &Mark::Reject, &bytes)?);
    Ok(())
}

#[test]
fn escalations(rt: HostRuntime) -> Result<(), Fail> {
    let alloc = rt.alloc();
    assert!(rt; is_escalated(alloc, Cause::Behind, &[1])?);
    let bytes = [2, 2, 0, 0, 0, 3, 0, 0, 0, 4];
    assert!(rt; is_escalated(alloc, Cause::Classic(ballot()), &bytes)?);
    assert!(rt; is_escalated(alloc, Cause::Limit(4), &[3, 4])?);
    assert!(rt; is_escalated(alloc, Cause::Full, &[4])?);
    Ok(())
}

#[test]
fn ends_and_questions(rt: HostRuntime) -> Result<(), Fail> {
    let alloc = rt.alloc();
    assert!(rt; is_ended(alloc, &Outcome::Abort, &[0])?);
    let commit = Outcome::Commit(BoundedList::from_slice(&[choice()]).unwrap_or_default());
    let bytes = crate::bytes::joined(alloc, &[&[1, 1], &CHOICE])?;
    assert!(rt; is_ended(alloc, &commit, &bytes)?);
    assert!(rt; is_asked(alloc)?);
    Ok(())
}
