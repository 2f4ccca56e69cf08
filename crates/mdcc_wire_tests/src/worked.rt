//! The messages that the formats work out.
use mdcc_base::{BoundedList, Centre, Key, TxId};
use mdcc_option::{Choice, Item, Seen, Update, Values, WriteSet};
use mdcc_wire::{Envelope, Message, WireFault, encode, view};
use std::test::*;

/// Centre 1 proposes to itself that transaction 1.1.1 writes an item of no byte and the value 10 to key a, which
/// was never written.
const PROPOSE: [u8; 46] = [
    1, 1, 1, 1, 1, 1, 0, 0, 0, 1, 0, 0, 0, 1, 97, 0, 0, 0, 0, 0, 0, 0, 0, 1, 0, 1, 10, 0, 0, 0, 0,
    0, 0, 0, 0, 1, 1, 97, 0, 0, 0, 0, 0, 0, 0, 0,
];

/// Centre 2 asks centre 3 for transaction 1.1.1 at key b and version 0.
pub const ASK: [u8; 23] = [
    1, 10, 2, 3, 1, 1, 0, 0, 0, 1, 0, 0, 0, 1, 98, 0, 0, 0, 0, 0, 0, 0, 0,
];

fn tx() -> TxId {
    TxId {
        centre: Centre::new(1).unwrap_or_default(),
        epoch: 1,
        seq: 1,
    }
}

fn choice() -> Choice {
    let key = Key::new(b"a").unwrap_or_default();
    let values: Values = BoundedList::from_slice(&[10]).unwrap_or_default();
    let write_set: WriteSet = BoundedList::from_slice(&[(key, 0)]).unwrap_or_default();
    let item = Item {
        body: BoundedList::new(),
        values,
    };
    let seen: Seen = BoundedList::new();
    Choice {
        tx: tx(),
        key,
        version: 0,
        update: Update::Write(item, seen),
        write_set,
    }
}

#[test]
fn a_proposal(rt: HostRuntime) -> Result<(), Fail> {
    let alloc = rt.alloc();
    let sent = Envelope {
        from: 1,
        to: 1,
        message: Message::Propose(choice()),
    };
    let mut out = Vec::new(alloc);
    assert!(rt; encode(&sent, &mut out).is_ok());
    assert!(rt; out.as_slice() == PROPOSE.as_slice());
    let viewed = view(&PROPOSE).ok().ok_or("the bytes are a message")?;
    let read = viewed.choice().ok_or("it has a choice")?;
    assert!(rt; viewed.kind() == 1 && read.is(&choice()));
    Ok(())
}

#[test]
fn a_question(rt: HostRuntime) -> Result<(), Fail> {
    let alloc = rt.alloc();
    let key = Key::new(b"b").unwrap_or_default();
    let sent = Envelope {
        from: 2,
        to: 3,
        message: Message::Ask {
            tx: tx(),
            key,
            version: 0,
        },
    };
    let mut out = Vec::new(alloc);
    assert!(rt; encode(&sent, &mut out).is_ok());
    assert!(rt; out.as_slice() == ASK.as_slice());
    let viewed = view(&ASK).ok().ok_or("the bytes are a message")?;
    let read = viewed.envelope(alloc)?;
    assert!(rt; viewed.kind() == 10 && read.from == 2 && read.to == 3);
    Ok(())
}

// The question without its last byte, with one more, and as a message of kind 16.
#[test]
fn bytes_that_are_no_question(rt: HostRuntime) -> Result<(), Fail> {
    let alloc = rt.alloc();
    assert!(rt; view(&ASK[..22]).err() == Some(WireFault::Truncated(22)));
    let mut longer = Vec::new(alloc);
    longer.extend_from_slice(&ASK)?;
    longer.push(0)?;
    assert!(rt; view(&longer).err() == Some(WireFault::Trailing(23)));
    longer.clear();
    longer.extend_from_slice(&[1, 16])?;
    longer.extend_from_slice(&ASK[2..])?;
    assert!(rt; view(&longer).err() == Some(WireFault::Kind));
    Ok(())
}
