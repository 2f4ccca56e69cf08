//! Messages about what was heard of a centre's transactions, as bytes.
use crate::bytes::{NEXT_TX, next_tx};
use crate::spelled::{is_written, message_of};
use mdcc_wire::Message;
use std::alloc::Global;
use std::test::*;

fn is_mark(message: &Message) -> bool {
    match message {
        Message::Mark { centre, epoch, seq } => {
            centre.number() == 2 && *epoch == 1 && *seq == 258
        }
        _ => false,
    }
}

fn is_marked(alloc: Global) -> Result<bool, Fail> {
    let mark = Message::Mark {
        centre: next_tx().centre,
        epoch: 1,
        seq: 258,
    };
    Ok(is_written(alloc, 16, mark, &[&NEXT_TX])? && is_mark(&message_of(alloc, 16, &[&NEXT_TX])?))
}

fn is_end(message: &Message) -> bool {
    match message {
        Message::Finished(tx) => tx.is(&next_tx()),
        _ => false,
    }
}

fn is_finished(alloc: Global) -> Result<bool, Fail> {
    Ok(
        is_written(alloc, 17, Message::Finished(next_tx()), &[&NEXT_TX])?
            && is_end(&message_of(alloc, 17, &[&NEXT_TX])?),
    )
}

#[test]
fn marks_and_finished_transactions(rt: HostRuntime) -> Result<(), Fail> {
    let alloc = rt.alloc();
    assert!(rt; is_marked(alloc)?);
    assert!(rt; is_finished(alloc)?);
    Ok(())
}
