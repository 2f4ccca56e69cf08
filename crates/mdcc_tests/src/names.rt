//! Names, their texts, and quorums.
use mdcc_base::{Ballot, Centre, HeapList, Key, QuorumFault, Quorums, TxId};
use std::test::Fail;

#[test]
fn texts_of_names(rt: HostRuntime) -> Result<(), Fail> {
    let centre = Centre::new(1).expect(&rt, "a centre");
    let tx = TxId {
        centre,
        epoch: 1,
        seq: 2,
    };
    let ballot = Ballot {
        round: 1,
        epoch: 1,
        centre: 3,
    };
    let key = Key::new(b"item/7").expect(&rt, "a key");
    assert!(rt; centre.to_string(rt.alloc())?.as_str() == "1");
    assert!(rt; tx.to_string(rt.alloc())?.as_str() == "1.1.2");
    assert!(rt; ballot.to_string(rt.alloc())?.as_str() == "1.1.3");
    assert!(rt; Ballot::FAST.to_string(rt.alloc())?.as_str() == "0.0.0");
    assert!(rt; key.to_string(rt.alloc())?.as_str() == "item/7");
    Ok(())
}

#[test]
fn quorums_of_worked_clusters(rt: HostRuntime) -> Result<(), Fail> {
    for (n, c, f, fault) in [
        (5, 3, 3, QuorumFault::FastMeet),
        (5, 2, 5, QuorumFault::ClassicMeet),
        (5, 0, 4, QuorumFault::ClassicRange),
        (5, 3, 6, QuorumFault::FastRange),
        (10, 6, 8, QuorumFault::Centres),
    ] {
        assert!(rt; Quorums::new(n, c, f) == Err(fault));
    }
    for (n, c, f) in [(5, 3, 4), (4, 3, 3), (3, 2, 3), (1, 1, 1)] {
        assert!(rt; Quorums::new(n, c, f).is_ok());
    }
    Ok(())
}

#[test]
fn home_and_threshold_of_five_centres(rt: HostRuntime) -> Result<(), Fail> {
    let quorums = Quorums::new(5, 3, 4).unwrap();
    let key = Key::new(b"a").expect(&rt, "a key");
    assert!(rt; quorums.home(&key).number() == 3);
    assert!(rt; quorums.threshold(3) == 2);
    Ok(())
}

#[test]
fn a_list_on_the_heap_is_copied(rt: HostRuntime) -> Result<(), Fail> {
    let mut list = HeapList::new(rt.alloc());
    list.push(7u64)?;
    list.push(9u64)?;
    let copy = list.copy(rt.alloc())?;
    assert!(rt; copy.as_slice() == [7, 9].as_slice());
    assert!(rt; copy.same(&list));
    Ok(())
}
