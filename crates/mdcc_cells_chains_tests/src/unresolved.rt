//! Numbers of transactions, in ascending order.
use crate::values::tx;
use mdcc_cells_chains::Unresolved;
use std::test::Fail;

// Gives a transaction of centre 1 a number, where there is room.
fn insert(unresolved: &mut Unresolved, seq: u32, number: u32) {
    if !unresolved.is_full() {
        unresolved.insert(tx(seq), number);
    }
}

#[test]
fn transactions_stand_in_order(rt: HostRuntime) -> Result<(), Fail> {
    let mut unresolved = Unresolved::new(rt.alloc(), 4)?;
    assert_eq!(rt; unresolved.after(None), None);
    for (seq, number) in [(6, 60), (2, 20), (4, 40), (2, 99), (8, 80), (1, 10)] {
        insert(&mut unresolved, seq, number);
    }
    assert!(rt; unresolved.is_full());
    for (place, entry) in [
        (0, Some((tx(2), 20))),
        (1, Some((tx(4), 40))),
        (2, Some((tx(6), 60))),
        (3, Some((tx(8), 80))),
        (4, None),
    ] {
        assert_eq!(rt; unresolved.get(place), entry, "place {place}");
    }
    for (seq, number, next) in [
        (1, None, Some((tx(2), 20))),
        (2, Some(20), Some((tx(4), 40))),
        (5, None, Some((tx(6), 60))),
        (8, Some(80), None),
        (9, None, None),
    ] {
        assert_eq!(rt; unresolved.find(&tx(seq)), number, "seq {seq}");
        assert_eq!(rt; unresolved.after(Some(tx(seq))), next, "after {seq}");
    }
    assert_eq!(rt; unresolved.after(None), Some((tx(2), 20)));
    for (seq, left) in [(4, 3), (5, 3), (2, 2), (8, 1), (6, 0)] {
        unresolved.remove(&tx(seq));
        assert_eq!(rt; unresolved.find(&tx(seq)), None, "seq {seq}");
        assert_eq!(rt; unresolved.len(), left, "without {seq}");
    }
    Ok(())
}
