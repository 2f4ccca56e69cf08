//! What is held of each key.
use crate::facts::{adopted, committed, key, write};
use mdcc_cells_tables::HeldTable;
use std::test::Fail;

#[test]
fn a_greater_version_brings_its_number(rt: HostRuntime) -> Result<(), Fail> {
    let mut table = HeldTable::new(rt.alloc(), 4)?;
    table.add(&committed(write(b'a', 1, 0)), 0);
    table.add(&adopted(rt.alloc(), b'a', 1), 1);
    assert!(rt; table.base_number(&key(b'a')) == Some((1, 0)));
    table.add(&committed(write(b'b', 2, 6)), 2);
    table.add(&adopted(rt.alloc(), b'a', 4), 3);
    assert!(rt; table.base_number(&key(b'a')) == Some((4, 3)));
    assert!(rt; table.base_number(&key(b'b')) == Some((7, 2)));
    assert!(rt; table.current(&key(b'a')) == 4 && table.current(&key(b'b')) == 7);
    assert!(rt; table.current(&key(b'c')) == 0 && table.base_number(&key(b'c')).is_none());
    Ok(())
}
