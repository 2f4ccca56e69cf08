//! What a store of facts answers to one question over all of them. The facts of a centre are put in
//! by hand.
use crate::adding::{no_facts, put};
use crate::facts::{LED, committed, decrease, key, led, tx};
use mdcc_base::Ballot;
use mdcc_facts::{Fact, FactStore};
use mdcc_option::{Mark, Outcome};
use mdcc_struct::Options;
use std::alloc::Global;
use std::process::Abort;
use std::test::Fail;

// A ballot above the leader's.
const NEXT: Ballot = Ballot { round: 2, ..LED };

// The ballots of the votes below a ballot.
fn are_voted_below<S: FactStore>(store: &S) -> bool {
    let a = key();
    store.voted_below(&a, 1, NEXT) == LED
        && store.voted_below(&a, 1, LED) == Ballot::FAST
        && store.voted_below(&a, 0, NEXT) == Ballot::FAST
}

// The leader's structure.
fn are_the_leaders(votes: &Options) -> bool {
    votes.len() == 3
        && matches!(votes.mark_of(tx(2)), Some(Mark::Accept(_)))
        && matches!(votes.mark_of(tx(4)), Some(Mark::Reject))
}

fn votes_are_given_by_ballot_over<S: FactStore + Drop>(
    rt: &impl Abort,
    alloc: Global,
    store: S,
) -> Result<(), Fail> {
    let a = key();
    let store = led(rt, alloc, store)?;
    assert!(rt; are_voted_below(&store));
    assert!(rt; are_the_leaders(&store.votes(alloc, &a, 1, LED)?));
    assert!(rt; store.votes(alloc, &a, 1, Ballot::FAST)?.len() == 1);
    assert!(rt; store.votes(alloc, &a, 0, LED)?.is_empty());
    Ok(())
}

#[test]
fn votes_are_given_by_ballot(rt: HostRuntime) -> Result<(), Fail> {
    votes_are_given_by_ballot_over(&rt, rt.alloc(), no_facts(rt.alloc())?)
}

// The transactions 1, 2, 4 and 5, each rejected.
fn four(alloc: Global) -> Result<Options, Fail> {
    let mut options = Options::new(alloc)?;
    for seq in [1, 2, 4, 5] {
        let next = tx(seq);
        if options.mark_of(next).is_none() {
            options.insert(next, Mark::Reject)?;
        }
    }
    Ok(options)
}

// How many of those are voted. None is finished.
fn are_counted<S: FactStore>(store: &S, options: &Options) -> bool {
    let a = key();
    store.count_past(&a, 1, LED, options) == 2
        && store.count_past(&a, 1, Ballot::FAST, options) == 1
        && store.count_past(&a, 1, NEXT, options) == 0
        && store.count_past(&a, 0, LED, options) == 0
}

fn voted_transactions_are_counted_over<S: FactStore + Drop>(
    rt: &impl Abort,
    alloc: Global,
    store: S,
) -> Result<(), Fail> {
    let store = led(rt, alloc, store)?;
    assert!(rt; are_counted(&store, &four(alloc)?));
    Ok(())
}

#[test]
fn voted_transactions_are_counted(rt: HostRuntime) -> Result<(), Fail> {
    voted_transactions_are_counted_over(&rt, rt.alloc(), no_facts(rt.alloc())?)
}

// The ballot, the number and whether it accepts, of the mark after a transaction.
fn after<S: FactStore>(store: &S, below: Ballot, last: Option<u32>) -> Option<(Ballot, u32, bool)> {
    let last = last.map(|seq: u32| tx(seq));
    match store.mark_after(&key(), 1, below, last) {
        Some((ballot, tx, mark)) => Some((ballot, tx.seq, matches!(mark, Mark::Accept(_)))),
        None => None,
    }
}

fn are_in_turn<S: FactStore>(store: &S) -> bool {
    after(store, NEXT, None) == Some((LED, 2, true))
        && after(store, NEXT, Some(2)) == Some((LED, 3, true))
        && after(store, NEXT, Some(3)) == Some((LED, 4, false))
        && after(store, NEXT, Some(4)).is_none()
}

fn marks_are_given_one_after_the_other_over<S: FactStore + Drop>(
    rt: &impl Abort,
    alloc: Global,
    store: S,
) -> Result<(), Fail> {
    let store = led(rt, alloc, store)?;
    assert!(rt; are_in_turn(&store));
    assert!(rt; after(&store, LED, None) == Some((Ballot::FAST, 2, true)));
    assert!(rt; after(&store, Ballot::FAST, None).is_none());
    Ok(())
}

#[test]
fn marks_are_given_one_after_the_other(rt: HostRuntime) -> Result<(), Fail> {
    marks_are_given_one_after_the_other_over(&rt, rt.alloc(), no_facts(rt.alloc())?)
}

// Only the first transaction is heard, and the fourth has no choice.
fn is_one_ended<S: FactStore>(store: &S) -> bool {
    store.is_settled(tx(1))
        && !store.is_settled(tx(2))
        && !store.finished(tx(1))
        && store.ended(tx(1)) == Some(true)
        && store.ended(tx(2)).is_none()
        && store.write_set(tx(1)).is_none()
        && store.write_set(tx(2)) == Some(decrease(2).write_set)
        && store.write_set(tx(4)).is_none()
}

fn outcomes_end_transactions_over<S: FactStore + Drop>(
    rt: &impl Abort,
    alloc: Global,
    store: S,
) -> Result<(), Fail> {
    let store = led(rt, alloc, store)?;
    assert!(rt; is_one_ended(&store));
    let both = [
        (tx(2), decrease(2).write_set),
        (tx(3), decrease(3).write_set),
    ];
    let all = store.unresolved_all(alloc)?;
    assert!(rt; all.as_slice() == both.as_slice());
    Ok(())
}

#[test]
fn outcomes_end_transactions(rt: HostRuntime) -> Result<(), Fail> {
    outcomes_end_transactions_over(&rt, rt.alloc(), no_facts(rt.alloc())?)
}

fn an_abort_ends_a_transaction_over<S: FactStore + Drop>(
    rt: &impl Abort,
    alloc: Global,
    store: S,
) -> Result<(), Fail> {
    let mut store = led(rt, alloc, store)?;
    let aborted = Fact::Heard {
        tx: tx(2),
        outcome: Outcome::Abort,
    };
    assert!(rt; put(alloc, &mut store, &aborted) && store.is_settled(tx(2)));
    assert!(rt; store.ended(tx(2)) == Some(false) && store.write_set(tx(2)).is_none());
    let left = [(tx(3), decrease(3).write_set)];
    let all = store.unresolved_all(alloc)?;
    assert!(rt; all.as_slice() == left.as_slice());
    Ok(())
}

#[test]
fn an_abort_ends_a_transaction(rt: HostRuntime) -> Result<(), Fail> {
    an_abort_ends_a_transaction_over(&rt, rt.alloc(), no_facts(rt.alloc())?)
}

// The 65th delta of a version is too much; one that is there already is not.
fn a_65th_delta_would_crowd_over<S: FactStore + Drop>(
    rt: &impl Abort,
    alloc: Global,
    store: S,
) -> Result<(), Fail> {
    let mut store = led(rt, alloc, store)?;
    for seq in 2..66 {
        let fact = committed(rt, &decrease(seq));
        assert!(rt; !store.would_crowd(&fact) && put(alloc, &mut store, &fact));
    }
    assert!(rt; store.would_crowd(&committed(rt, &decrease(66))));
    assert!(rt; !store.would_crowd(&committed(rt, &decrease(65))));
    assert!(rt; !store.would_crowd(&Fact::Booted(1)));
    Ok(())
}

#[test]
fn a_65th_delta_would_crowd(rt: HostRuntime) -> Result<(), Fail> {
    a_65th_delta_would_crowd_over(&rt, rt.alloc(), no_facts(rt.alloc())?)
}
