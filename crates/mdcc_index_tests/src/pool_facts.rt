//! Facts added until no cell is spare.
use mdcc_base::{Centre, TxId};
use mdcc_def_protocol::StoreFault;
use mdcc_facts::{Fact, FactStore};
use mdcc_index::PoolFacts;
use mdcc_option::Outcome;
use mdcc_tests::adding::add_read;
use std::alloc::Global;
use std::test::Fail;

fn tx(seq: u32) -> TxId {
    TxId {
        centre: Centre::new(2).unwrap_or_default(),
        epoch: 3,
        seq,
    }
}

// The transaction of this number aborted.
fn aborted(seq: u32) -> Fact {
    Fact::Heard {
        tx: tx(seq),
        outcome: Outcome::Abort,
    }
}

// Whether all of these are added.
fn are_added(alloc: Global, store: &mut PoolFacts, facts: &[Fact]) -> bool {
    facts
        .iter()
        .all(|fact| add_read(alloc, store, fact) == Some(Ok(())))
}

fn is_aborted(store: &PoolFacts, seq: u32) -> bool {
    store.is_settled(tx(seq))
        && !store.finished(tx(seq))
        && store.heard(tx(seq)) == Some(Outcome::Abort)
        && store.ended(tx(seq)) == Some(false)
}

fn is_unheard(store: &PoolFacts, seq: u32) -> bool {
    !store.is_settled(tx(seq))
        && !store.finished(tx(seq))
        && store.heard(tx(seq)).is_none()
        && store.ended(tx(seq)).is_none()
}

#[test]
fn facts_fill_the_cells(rt: HostRuntime) -> Result<(), Fail> {
    let alloc = rt.alloc();
    let mut store = PoolFacts::new(alloc, 4)?;
    let facts = [Fact::Booted(7), aborted(5), aborted(6), Fact::Booted(8)];
    assert!(rt; are_added(alloc, &mut store, &facts));
    let full = StoreFault::NoRoom {
        needed: 1,
        spare: 0,
    };
    assert!(rt; add_read(alloc, &mut store, &aborted(7)) == Some(Err(full)));
    assert!(rt; store.epoch() == 8 && store.cells() == 4);
    assert!(rt; is_aborted(&store, 5) && is_aborted(&store, 6) && is_unheard(&store, 7));
    Ok(())
}
