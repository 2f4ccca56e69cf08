//! Values of worked schedules: a transaction of centre 1 that inserts the keys a and b, and centres
//! that voted on it.
use mdcc_base::{Ballot, BoundedList, Centre, Key, Quorums, TxId};
use mdcc_def_protocol::Vote;
use mdcc_facts::{Fact, FactStore};
use mdcc_option::{Choice, Cluster, FastLimit, Item, Mark, Schema, Update};
use mdcc_struct::Options;
use mdcc_tests::adding::put;
use std::alloc::Global;
use std::test::Fail;

/// Five centres, of which three are a classic quorum and four a fast one.
pub fn cluster() -> Result<Cluster, Fail> {
    Ok(Cluster {
        quorums: Quorums::new(5, 3, 4)?,
        schema: Schema::new(&[(0, 1000)])?,
        gamma: 100,
        cells: 65_536,
        limit: FastLimit::Safe,
    })
}

pub fn centre(number: u8) -> Centre {
    Centre::new(number).unwrap_or_default()
}

pub fn key(letter: u8) -> Key {
    Key::new(&[letter]).unwrap_or_default()
}

/// The transaction.
pub fn tx() -> TxId {
    TxId {
        centre: centre(1),
        epoch: 1,
        seq: 1,
    }
}

/// It inserts this value under a key.
pub fn choice(letter: u8, value: i64) -> Choice {
    let item = Item {
        body: BoundedList::new(),
        values: BoundedList::from_slice(&[value]).unwrap_or_default(),
    };
    Choice {
        tx: tx(),
        key: key(letter),
        version: 0,
        update: Update::Write(item, BoundedList::new()),
        write_set: BoundedList::from_slice(&[(key(b'a'), 0), (key(b'b'), 0)]).unwrap_or_default(),
    }
}

/// A vote of a centre on its option for a key.
pub fn vote(from: u8, letter: u8, mark: Mark) -> Vote {
    Vote {
        from: centre(from),
        key: key(letter),
        version: 0,
        ballot: Ballot::FAST,
        tx: tx(),
        mark,
    }
}

/// The store of a centre that accepted its options for these keys, with the value 1. It is given
/// empty.
pub fn voted<S: FactStore + Drop>(alloc: Global, mut store: S, letters: &[u8]) -> Result<S, Fail> {
    for letter in letters {
        let mut options = Options::new(alloc)?;
        options.insert(tx(), Mark::Accept(choice(*letter, 1)))?;
        let fact = Fact::Voted {
            key: key(*letter),
            version: 0,
            ballot: Ballot::FAST,
            options,
            offered: None,
        };
        if !put(alloc, &mut store, &fact) {
            return Err("the fact is new".into());
        }
    }
    Ok(store)
}
