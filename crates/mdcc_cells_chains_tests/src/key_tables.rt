//! Keys that have one index each.
use crate::values::key;
use mdcc_base::Key;
use mdcc_cells_chains::KeyTable;
use std::test::Fail;

// The index of a key, new or old, where it is there or there is room.
fn index_in(table: &mut KeyTable, key: &Key) -> Option<u32> {
    if !table.is_full() {
        return Some(table.find_or_push(key));
    }
    if table.find(key).is_some() {
        return Some(table.find_or_push(key));
    }
    None
}

#[test]
fn a_key_keeps_its_index(rt: HostRuntime) -> Result<(), Fail> {
    let mut table = KeyTable::new(rt.alloc(), 2)?;
    for (letter, found, index) in [
        (b'a', None, Some(0)),
        (b'a', Some(0), Some(0)),
        (b'b', None, Some(1)),
        (b'a', Some(0), Some(0)),
        (b'b', Some(1), Some(1)),
        (b'c', None, None),
    ] {
        assert_eq!(rt; table.find(&key(letter)), found, "letter {letter}");
        assert_eq!(rt;
            index_in(&mut table, &key(letter)),
            index,
            "letter {letter}"
        );
    }
    assert!(rt; table.is_full());
    assert_eq!(rt; table.len(), 2);
    Ok(())
}
