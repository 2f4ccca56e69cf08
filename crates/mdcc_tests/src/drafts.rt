//! Which parts make a transaction.
use mdcc_base::{BoundedList, Key};
use mdcc_option::{DraftFault, Item, Part, Schema, Transaction, Update};
use std::process::Abort;
use std::test::Fail;

// A first item with this value under a key of one letter.
fn insert(rt: &impl Abort, key: u8, value: i64) -> Part {
    Part {
        key: Key::new(&[key]).expect(rt, "a key"),
        version: 0,
        update: Update::Write(
            Item {
                body: BoundedList::new(),
                values: BoundedList::from_slice(&[value]).unwrap(),
            },
            BoundedList::new(),
        ),
    }
}

// Why parts make no transaction under one attribute from 0 to 1,000.
fn fault_of(parts: &[Part]) -> Result<Option<DraftFault>, Fail> {
    let schema = Schema::new(&[(0, 1000)])?;
    Ok(Transaction::new(&schema, parts).err())
}

#[test]
fn parts_are_put_in_key_order(rt: HostRuntime) -> Result<(), Fail> {
    let schema = Schema::new(&[(0, 1000)])?;
    let parts = [insert(&rt, b'b', 2), insert(&rt, b'a', 1)];
    let transaction = Transaction::new(&schema, &parts)?;
    assert!(rt; transaction.parts()[0].key.bytes() == b"a".as_slice());
    assert!(rt; transaction.parts()[1].key.bytes() == b"b".as_slice());
    Ok(())
}

#[test]
fn parts_that_make_no_transaction(rt: HostRuntime) -> Result<(), Fail> {
    let twice = [insert(&rt, b'a', 1), insert(&rt, b'a', 2)];
    assert!(rt; fault_of(&twice)? == Some(DraftFault::RepeatedKey));
    let outside = [insert(&rt, b'a', 1001)];
    assert!(rt; fault_of(&outside)? == Some(DraftFault::OutOfBounds));
    let twice_outside = [insert(&rt, b'a', 1), insert(&rt, b'a', 1001)];
    assert!(rt; fault_of(&twice_outside)? == Some(DraftFault::RepeatedKey));
    assert!(rt; fault_of(&[])? == Some(DraftFault::Empty));
    Ok(())
}

#[test]
fn eight_parts_and_nine(rt: HostRuntime) -> Result<(), Fail> {
    let mut parts = Vec::new(rt.alloc());
    for key in b'a'..=b'h' {
        parts.push(insert(&rt, key, 1))?;
    }
    assert!(rt; fault_of(&parts)?.is_none());
    parts.push(insert(&rt, b'i', 1))?;
    assert!(rt; fault_of(&parts)? == Some(DraftFault::TooMany));
    Ok(())
}
