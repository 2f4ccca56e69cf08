//! Values of worked schedules: an insert of 10 under key a, and decreases of 4.
use mdcc_base::{Ballot, BoundedList, Centre, Key, Quorums, TxId};
use mdcc_facts::{Fact, FactStore};
use mdcc_option::{Choice, Cluster, FastLimit, Item, Outcome, Schema, Update};
use mdcc_tests::adding::put;
use std::alloc::Global;
use std::test::Fail;

/// The ballot at which the third centre leads first.
pub const LED: Ballot = Ballot {
    round: 1,
    epoch: 1,
    centre: 3,
};

/// Five centres, of which three are a classic quorum and four a fast one.
pub fn cluster() -> Result<Cluster, Fail> {
    Ok(Cluster {
        quorums: Quorums::new(5, 3, 4)?,
        schema: Schema::new(&[(0, 1000)])?,
        gamma: 100,
        cells: 65_536,
        limit: FastLimit::Safe,
    })
}

pub fn centre(number: u8) -> Centre {
    Centre::new(number).unwrap_or_default()
}

pub fn key(letter: u8) -> Key {
    Key::new(&[letter]).unwrap_or_default()
}

/// A transaction of centre 1.
pub fn tx(seq: u32) -> TxId {
    TxId {
        centre: centre(1),
        epoch: 1,
        seq,
    }
}

pub fn item(value: i64) -> Item {
    Item {
        body: BoundedList::new(),
        values: BoundedList::from_slice(&[value]).unwrap_or_default(),
    }
}

/// What the transaction of this number asks of key a, its only one.
pub fn choice(seq: u32, version: u64, update: Update) -> Choice {
    Choice {
        tx: tx(seq),
        key: key(b'a'),
        version,
        update,
        write_set: BoundedList::from_slice(&[(key(b'a'), version)]).unwrap_or_default(),
    }
}

/// The first transaction writes a first item, with the value 10.
pub fn insert() -> Choice {
    choice(1, 0, Update::Write(item(10), BoundedList::new()))
}

/// The transaction of this number takes 4 from version 1.
pub fn decrease(seq: u32) -> Choice {
    let amounts = BoundedList::from_slice(&[(1, -4)]).unwrap_or_default();
    choice(seq, 1, Update::Add(amounts))
}

// The transaction of the choice is heard committed.
fn committed(choice: Choice) -> Fact {
    Fact::Heard {
        tx: choice.tx,
        outcome: Outcome::Commit(BoundedList::from_slice(&[choice]).unwrap_or_default()),
    }
}

/// The store, once it heard these committed.
pub fn holding<S: FactStore + Drop>(
    alloc: Global,
    store: S,
    choices: Vec<Choice>,
) -> Result<S, Fail> {
    let mut store = store;
    for choice in choices {
        if !put(alloc, &mut store, &committed(choice)) {
            return Err("the fact is new".into());
        }
    }
    Ok(store)
}

/// The store, once it heard the insert and the decrease of transaction 2 committed.
pub fn six<S: FactStore + Drop>(alloc: Global, store: S) -> Result<S, Fail> {
    holding(alloc, store, vec![in alloc; insert(), decrease(2)]?)
}
