//! Transactions and the one-copy store.
use crate::facts::{add, item, tx, write};
use mdcc_base::{BoundedList, Key, TxId};
use mdcc_option::{Applied, Choice, OneCopy, Schema, Token, Update};
use std::alloc::Global;
use std::process::Abort;
use std::test::Fail;

// What the transaction of this number asks of a key.
fn choice(key: Key, seq: u32, version: u64, update: Update) -> Choice {
    Choice {
        tx: tx(seq),
        key,
        version,
        update,
        write_set: BoundedList::new(),
    }
}

// Whether these choices are answered so.
fn is_applied(store: &mut OneCopy, choices: &[Choice], expected: &Applied) -> Result<bool, Fail> {
    let schema = Schema::new(&[(0, 1000)])?;
    Ok(store.apply(&schema, choices)? == *expected)
}

// Whether a key is held at this version with this value, after these adds.
fn is_held(store: &OneCopy, key: &Key, version: u64, value: i64, adds: &[TxId]) -> bool {
    let seen = BoundedList::from_slice(adds).unwrap_or_default();
    store.held(key) == Some((item(value), Token { version, seen }))
}

fn key(letter: u8) -> Key {
    Key::new(&[letter]).unwrap_or_default()
}

#[test]
fn one_copy_takes_writes_and_adds(rt: HostRuntime) -> Result<(), Fail> {
    let a = key(b'a');
    let mut store = OneCopy::new(rt.alloc())?;
    assert!(rt; store.held(&a).is_none());
    let insert = choice(a, 1, 0, write(&rt, 10, &[]));
    assert!(rt; is_applied(&mut store, &[insert], &Applied::Done)?);
    assert!(rt; is_held(&store, &a, 1, 10, &[]));
    let taken = choice(a, 2, 1, add(-4));
    assert!(rt; is_applied(&mut store, &[taken], &Applied::Done)?);
    assert!(rt; is_held(&store, &a, 1, 6, &[tx(2)]));
    Ok(())
}

// A store in which 4 were taken from 10.
fn taken(rt: &impl Abort, alloc: Global) -> Result<OneCopy, Fail> {
    let mut store = OneCopy::new(alloc)?;
    let insert = choice(key(b'a'), 1, 0, write(rt, 10, &[]));
    let taken = choice(key(b'a'), 2, 1, add(-4));
    assert!(rt; is_applied(&mut store, &[insert], &Applied::Done)?);
    assert!(rt; is_applied(&mut store, &[taken], &Applied::Done)?);
    Ok(store)
}

#[test]
fn a_write_has_seen_the_adds(rt: HostRuntime) -> Result<(), Fail> {
    let a = key(b'a');
    let mut store = taken(&rt, rt.alloc())?;
    let blind = choice(a, 3, 1, write(&rt, 20, &[]));
    assert!(rt; is_applied(&mut store, &[blind], &Applied::Refused(a))?);
    assert!(rt; is_held(&store, &a, 1, 6, &[tx(2)]));
    let seeing = choice(a, 4, 1, write(&rt, 20, &[tx(2)]));
    assert!(rt; is_applied(&mut store, &[seeing], &Applied::Done)?);
    assert!(rt; is_held(&store, &a, 2, 20, &[]));
    let too_much = choice(a, 5, 2, add(-1001));
    assert!(rt; is_applied(&mut store, &[too_much], &Applied::Refused(a))?);
    assert!(rt; is_held(&store, &a, 2, 20, &[]));
    Ok(())
}

#[test]
fn one_copy_changes_all_keys_or_none(rt: HostRuntime) -> Result<(), Fail> {
    let a = key(b'a');
    let b = key(b'b');
    let mut store = OneCopy::new(rt.alloc())?;
    let refused = [
        choice(b, 1, 0, write(&rt, 10, &[])),
        choice(a, 1, 1, add(1)),
    ];
    assert!(rt; is_applied(&mut store, &refused, &Applied::Refused(a))?);
    assert!(rt; store.held(&b).is_none());
    let both = [
        choice(b, 2, 0, write(&rt, 10, &[])),
        choice(a, 2, 0, write(&rt, 1000, &[])),
    ];
    assert!(rt; is_applied(&mut store, &both, &Applied::Done)?);
    assert!(rt; is_held(&store, &a, 1, 1000, &[]) && is_held(&store, &b, 1, 10, &[]));
    Ok(())
}
