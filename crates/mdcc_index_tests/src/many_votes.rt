//! Votes on very many keys.
use mdcc_base::{Ballot, BoundedList, Centre, Key, Memory, TxId};
use mdcc_def_protocol::StoreFault;
use mdcc_facts::{Fact, FactStore};
use mdcc_index::PoolFacts;
use mdcc_option::{Choice, Item, Mark, Update};
use mdcc_struct::Options;
use mdcc_tests::adding::add_read;
use std::alloc::Global;
use std::test::Fail;

// The transaction of this number.
fn tx(number: u32) -> TxId {
    TxId {
        centre: Centre::new(1).unwrap_or_default(),
        epoch: 1,
        seq: number,
    }
}

// The key that the transaction of this number inserts: `k1`, `k2` and so on.
fn key(alloc: Global, number: u32) -> Result<Key, Memory> {
    let name = format!(in alloc; "k{number}")?;
    Ok(Key::new(name.as_bytes()).unwrap_or_default())
}

fn insert(key: Key, number: u32) -> Choice {
    let item = Item {
        body: BoundedList::new(),
        values: BoundedList::from_slice(&[1]).unwrap_or_default(),
    };
    Choice {
        tx: tx(number),
        key,
        version: 0,
        update: Update::Write(item, BoundedList::new()),
        write_set: BoundedList::from_slice(&[(key, 0)]).unwrap_or_default(),
    }
}

// A vote that accepts the insert of this number.
fn vote(alloc: Global, number: u32) -> Result<Fact, Memory> {
    let key = key(alloc, number)?;
    let mut options = Options::new(alloc)?;
    if options.mark_of(tx(number)).is_none() {
        options.insert(tx(number), Mark::Accept(insert(key, number)))?;
    }
    Ok(Fact::Voted {
        key,
        version: 0,
        ballot: Ballot::FAST,
        options,
        offered: None,
    })
}

// Adds the vote of this number. It gives the store's answer, where the vote may be added.
fn add_vote<S: FactStore>(
    alloc: Global,
    store: &mut S,
    number: u32,
) -> Result<Option<Result<(), StoreFault>>, Memory> {
    Ok(add_read(alloc, store, &vote(alloc, number)?))
}

// How many of the votes of the numbers from 1 were added.
fn add_votes<S: FactStore>(alloc: Global, store: &mut S, count: u32) -> Result<u32, Memory> {
    let mut added = 0u32;
    for number in 1..=count {
        if add_vote(alloc, store, number)? == Some(Ok(())) {
            added = added.saturating_add(1);
        }
    }
    Ok(added)
}

// How many of four answers about the transaction of this number, and the key that it inserts, are
// right.
fn right_answers<S: FactStore>(store: &S, key: &Key, number: u32) -> u32 {
    let found = Some((Ballot::FAST, Mark::Accept(insert(*key, number))));
    u32::from(store.current(key) == 0)
        + u32::from(store.entries(key, 0) == (1, 0))
        + u32::from(store.vote_of(key, 0, tx(number)) == found)
        + u32::from(store.heard(tx(number)).is_none())
}

// How many answers about all of them are.
fn all_right_answers<S: FactStore>(alloc: Global, store: &S, count: u32) -> Result<u32, Memory> {
    let mut right = 0u32;
    for number in 1..=count {
        let key = key(alloc, number)?;
        right = right.saturating_add(right_answers(store, &key, number));
    }
    Ok(right)
}

// Whether a store that is full has no room for one more vote.
fn is_full<S: FactStore>(alloc: Global, store: &mut S, next: u32) -> Result<bool, Memory> {
    let full = StoreFault::NoRoom {
        needed: 2,
        spare: 0,
    };
    Ok(add_vote(alloc, store, next)? == Some(Err(full)))
}

#[test]
fn the_votes_on_very_many_keys_are_found(rt: HostRuntime) -> Result<(), Fail> {
    let alloc = rt.alloc();
    let mut store = PoolFacts::new(alloc, 200_000)?;
    assert!(rt; add_votes(alloc, &mut store, 100_000)? == 100_000);
    assert!(rt; is_full(alloc, &mut store, 100_001)?);
    assert!(rt; all_right_answers(alloc, &store, 100_000)? == 400_000);
    Ok(())
}
