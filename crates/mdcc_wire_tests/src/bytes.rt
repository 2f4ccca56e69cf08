//! Values whose bytes are written out by hand, from the tables of the formats.
use mdcc_base::{Ballot, BoundedList, Centre, HeapList, Key, TxId};
use mdcc_option::{Amounts, Choice, Delta, Item, Mark, Seen, Update, WriteSet};
use mdcc_struct::Options;
use std::alloc::Global;
use std::test::Fail;

/// Transaction 1.1.1.
pub const TX: [u8; 9] = [1, 1, 0, 0, 0, 1, 0, 0, 0];

/// Transaction 2.1.258.
pub const NEXT_TX: [u8; 9] = [2, 1, 0, 0, 0, 2, 1, 0, 0];

/// Key a at version 7.
pub const PLACE: [u8; 10] = [1, 97, 7, 0, 0, 0, 0, 0, 0, 0];

/// Ballot 2.3.4.
pub const BALLOT: [u8; 9] = [2, 0, 0, 0, 3, 0, 0, 0, 4];

/// Ballot 5.6.7.
pub const GREATER: [u8; 9] = [5, 0, 0, 0, 6, 0, 0, 0, 7];

/// The fast ballot.
pub const FAST: [u8; 9] = [0; 9];

/// An item with one byte 255 and the value -2.
pub const ITEM: [u8; 11] = [1, 255, 1, 254, 255, 255, 255, 255, 255, 255, 255];

/// Amount 5 at attribute 2.
pub const AMOUNTS: [u8; 10] = [1, 2, 5, 0, 0, 0, 0, 0, 0, 0];

/// Transaction 1.1.1 adds 5 to attribute 2 of key a at version 7, and writes nothing else.
pub const CHOICE: [u8; 41] = [
    1, 1, 0, 0, 0, 1, 0, 0, 0, 1, 97, 7, 0, 0, 0, 0, 0, 0, 0, 2, 1, 2, 5, 0, 0, 0, 0, 0, 0, 0, 1,
    1, 97, 7, 0, 0, 0, 0, 0, 0, 0,
];

pub fn tx() -> TxId {
    TxId {
        centre: Centre::new(1).unwrap_or_default(),
        epoch: 1,
        seq: 1,
    }
}

pub fn next_tx() -> TxId {
    TxId {
        centre: Centre::new(2).unwrap_or_default(),
        epoch: 1,
        seq: 258,
    }
}

pub fn key() -> Key {
    Key::new(b"a").unwrap_or_default()
}

pub fn ballot() -> Ballot {
    Ballot {
        round: 2,
        epoch: 3,
        centre: 4,
    }
}

pub fn greater() -> Ballot {
    Ballot {
        round: 5,
        epoch: 6,
        centre: 7,
    }
}

pub fn item() -> Item {
    Item {
        body: BoundedList::from_slice(&[255]).unwrap_or_default(),
        values: BoundedList::from_slice(&[-2]).unwrap_or_default(),
    }
}

pub fn amounts() -> Amounts {
    BoundedList::from_slice(&[(2, 5)]).unwrap_or_default()
}

pub fn seen() -> Seen {
    BoundedList::from_slice(&[tx(), next_tx()]).unwrap_or_default()
}

pub fn choice() -> Choice {
    let write_set: WriteSet = BoundedList::from_slice(&[(key(), 7)]).unwrap_or_default();
    Choice {
        tx: tx(),
        key: key(),
        version: 7,
        update: Update::Add(amounts()),
        write_set,
    }
}

/// Transaction 2.1.258 writes the item to key a at version 7 and has seen 1.1.1. It writes key bc at version 256 too.
pub fn writing_choice() -> Choice {
    let other = Key::new(b"bc").unwrap_or_default();
    let write_set: WriteSet = BoundedList::from_slice(&[
        (key(), 7),
        (other, 256),
    ]).unwrap_or_default();
    let before: Seen = BoundedList::from_slice(&[tx()]).unwrap_or_default();
    Choice {
        tx: next_tx(),
        key: key(),
        version: 7,
        update: Update::Write(item(), before),
        write_set,
    }
}

/// The bytes of that choice.
pub fn writing_bytes(alloc: Global) -> Result<Vec<u8>, Fail> {
    let before = joined(alloc, &[&NEXT_TX, &PLACE, &[1], &ITEM, &[1], &TX])?;
    joined(
        alloc,
        &[&before, &[2], &PLACE, &[2, 98, 99, 0, 1, 0, 0, 0, 0, 0, 0]],
    )
}

/// The choice is accepted, and transaction 2.1.258 is rejected.
pub fn options(alloc: Global) -> Result<Options, Fail> {
    let mut options = Options::new(alloc)?;
    options.insert(tx(), Mark::Accept(choice()))?;
    let later = next_tx();
    if options.mark_of(later).is_none() {
        options.insert(later, Mark::Reject)?;
    }
    Ok(options)
}

/// The choice's delta.
pub fn deltas(alloc: Global) -> Result<HeapList<Delta>, Fail> {
    let mut deltas = HeapList::new(alloc);
    deltas.push(Delta {
        tx: tx(),
        amounts: amounts(),
    })?;
    Ok(deltas)
}

/// The parts one after another.
pub fn joined(alloc: Global, parts: &[&[u8]]) -> Result<Vec<u8>, Fail> {
    let mut all = Vec::new(alloc);
    for part in parts {
        all.extend_from_slice(part)?;
    }
    Ok(all)
}
