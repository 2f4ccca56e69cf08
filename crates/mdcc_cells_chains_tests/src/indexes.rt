//! Indices found by key.
use crate::values::{key, tx};
use mdcc_base::{Key, TxId};
use mdcc_cells_chains::{Index, IndexKey, InstanceIndex, KeyIndex, TransactionIndex};
use std::test::Fail;

// Adds keys where there is room.
fn add_all<K: IndexKey + Copy>(index: &mut Index<K>, keys: &[K]) {
    for key in keys {
        if !index.is_full() {
            index.push(*key);
        }
    }
}

// Whether a walk comes by just these indices of a key, and the oldest is the last of them.
fn are_found<K: IndexKey>(index: &Index<K>, key: &K, expected: &[u32]) -> bool {
    let mut at = index.first(key);
    for wanted in expected {
        if at != Some(*wanted) {
            return false;
        }
        at = index.next(key, *wanted);
    }
    at.is_none() && index.oldest(key) == expected.last().copied()
}

#[test]
fn transactions_are_found(rt: HostRuntime) -> Result<(), Fail> {
    let mut index = TransactionIndex::new(rt.alloc(), 8)?;
    assert!(rt; are_found(&index, &tx(1), &[]));
    let other = TxId { epoch: 2, ..tx(1) };
    add_all(
        &mut index,
        &[
            tx(1),
            tx(9),
            tx(1),
            tx(2),
            tx(9),
            tx(17),
            other,
            tx(1),
            tx(3),
        ],
    );
    assert_eq!(rt; index.len(), 8);
    assert!(rt; index.is_full());
    assert!(rt; are_found(&index, &tx(1), &[7, 2, 0]));
    assert!(rt; are_found(&index, &tx(9), &[4, 1]));
    assert!(rt; are_found(&index, &tx(17), &[5]));
    assert!(rt; are_found(&index, &tx(2), &[3]));
    assert!(rt; are_found(&index, &other, &[6]));
    for absent in [3, 10, 25] {
        assert!(rt; are_found(&index, &tx(absent), &[]), "seq {absent}");
    }
    Ok(())
}

#[test]
fn a_walk_goes_on_from_any_index(rt: HostRuntime) -> Result<(), Fail> {
    let mut index = KeyIndex::new(rt.alloc(), 5)?;
    add_all(
        &mut index,
        &[key(b'a'), key(b'b'), key(b'a'), key(b'c'), key(b'a')],
    );
    for (before, found) in [
        (0, None),
        (1, Some(0)),
        (2, Some(0)),
        (3, Some(2)),
        (4, Some(2)),
        (5, Some(4)),
        (4_294_967_295, Some(4)),
    ] {
        assert_eq!(rt; index.next(&key(b'a'), before), found, "before {before}");
    }
    assert!(rt; are_found(&index, &key(b'b'), &[1]));
    assert!(rt; are_found(&index, &key(b'd'), &[]));
    Ok(())
}

#[test]
fn versions_of_a_key_are_told_apart(rt: HostRuntime) -> Result<(), Fail> {
    let mut index = InstanceIndex::new(rt.alloc(), 6)?;
    let instances: [(Key, u64); 6] = [
        (key(b'a'), 0),
        (key(b'a'), 1),
        (key(b'b'), 0),
        (key(b'a'), 0),
        (key(b'a'), 18_446_744_073_709_551_615),
        (key(b'a'), 1),
    ];
    add_all(&mut index, &instances);
    assert!(rt; are_found(&index, &(key(b'a'), 0), &[3, 0]));
    assert!(rt; are_found(&index, &(key(b'a'), 1), &[5, 1]));
    assert!(rt; are_found(&index, &(key(b'b'), 0), &[2]));
    assert!(rt; are_found(&index, &(key(b'a'), 18_446_744_073_709_551_615), &[4]));
    assert!(rt; are_found(&index, &(key(b'b'), 1), &[]));
    Ok(())
}

#[test]
fn an_index_may_have_no_room(rt: HostRuntime) -> Result<(), Fail> {
    let index = KeyIndex::new(rt.alloc(), 0)?;
    assert!(rt; index.is_full());
    assert!(rt; are_found(&index, &key(b'a'), &[]));
    Ok(())
}

#[test]
fn a_cleared_index_is_filled_again(rt: HostRuntime) -> Result<(), Fail> {
    let mut index = TransactionIndex::new(rt.alloc(), 3)?;
    add_all(&mut index, &[tx(1), tx(2), tx(1)]);
    assert!(rt; index.is_full());
    index.clear();
    assert!(rt; index.len() == 0);
    assert!(rt; are_found(&index, &tx(1), &[]) && are_found(&index, &tx(2), &[]));
    add_all(&mut index, &[tx(2), tx(1), tx(2)]);
    assert!(rt; are_found(&index, &tx(2), &[2, 0]) && are_found(&index, &tx(1), &[1]));
    Ok(())
}
