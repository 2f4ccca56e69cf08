//! What a store of facts answers at telling moments of worked schedules. The facts of a centre are
//! put in by hand.
use crate::adding::{no_facts, put};
use mdcc_base::{Ballot, BoundedList, Centre, Key, Plain, TxId};
use mdcc_def_protocol::Load;
use mdcc_facts::{Fact, FactStore};
use mdcc_option::{Choice, Delta, Item, Mark, Outcome, Seen, Update};
use mdcc_struct::Options;
use std::alloc::Global;
use std::process::Abort;
use std::test::Fail;

// The ballot at which the third centre leads first.
pub(crate) const LED: Ballot = Ballot {
    round: 1,
    epoch: 1,
    centre: 3,
};

pub(crate) fn tx(seq: u32) -> TxId {
    TxId {
        centre: Centre::new(1).unwrap(),
        epoch: 1,
        seq,
    }
}

pub(crate) fn item(value: i64) -> Item {
    Item {
        body: BoundedList::new(),
        values: BoundedList::from_slice(&[value]).unwrap(),
    }
}

pub(crate) fn write(rt: &impl Abort, value: i64, seen: &[TxId]) -> Update {
    Update::Write(
        item(value),
        BoundedList::from_slice(seen).expect(rt, "at most 64"),
    )
}

pub(crate) fn add(amount: i64) -> Update {
    Update::Add(BoundedList::from_slice(&[(1, amount)]).unwrap())
}

// What the transaction of this number asks of a key, its only one.
pub(crate) fn choice(key: Key, seq: u32, version: u64, update: Update) -> Choice {
    Choice {
        tx: tx(seq),
        key,
        version,
        update,
        write_set: BoundedList::from_slice(&[(key, version)]).unwrap(),
    }
}

// A vote on these marks of the transactions of these numbers.
pub(crate) fn voted(
    alloc: Global,
    key: Key,
    version: u64,
    ballot: Ballot,
    marks: &[(u32, Mark)],
    offered: Option<Choice>,
) -> Result<Fact, Fail> {
    let mut options = Options::new(alloc)?;
    for (seq, mark) in marks {
        let next = tx(*seq);
        if options.mark_of(next).is_none() {
            options.insert(next, mark.copy())?;
        }
    }
    Ok(Fact::Voted {
        key,
        version,
        ballot,
        options,
        offered,
    })
}

pub(crate) fn committed(rt: &impl Abort, choice: &Choice) -> Fact {
    Fact::Heard {
        tx: choice.tx,
        outcome: Outcome::Commit(BoundedList::from_slice(&[choice.copy()]).expect(rt, "one")),
    }
}

fn seen(seqs: &[u32]) -> Seen {
    let mut txs: BoundedList<TxId, 64> = BoundedList::new();
    for seq in seqs {
        if !txs.is_full() {
            txs.push(tx(*seq));
        }
    }
    txs
}

// The marks of the votes below a ballot, by place.
fn mark<S: FactStore>(
    store: &S,
    key: &Key,
    version: u64,
    below: Ballot,
    place: usize,
) -> Option<(Ballot, u32, bool)> {
    match store.marks(key, version, below, place) {
        Some((ballot, tx, mark)) => Some((ballot, tx.seq, matches!(mark, Mark::Accept(_)))),
        None => None,
    }
}

// What these sums weigh at the first attribute.
fn load(writes: u32, unseen: u32, count: u32, down: i128, up: i128) -> Load {
    Load {
        writes,
        unseen,
        count,
        down: [down, 0, 0, 0],
        up: [up, 0, 0, 0],
    }
}

pub(crate) fn key() -> Key {
    Key::new(b"a").unwrap_or_default()
}

// A first item with this value, written by the first transaction.
fn insert(rt: &impl Abort, value: i64) -> Choice {
    choice(key(), 1, 0, write(rt, value, &[]))
}

// A vote at the fast ballot that accepts a choice.
fn fast_vote(alloc: Global, choice: &Choice) -> Result<Fact, Fail> {
    let mark = Mark::Accept(choice.copy());
    voted(
        alloc,
        choice.key,
        choice.version,
        Ballot::FAST,
        &[(choice.tx.seq, mark)],
        None,
    )
}

// A store that heard an insert of this value.
fn holding<S: FactStore + Drop>(
    rt: &impl Abort,
    alloc: Global,
    store: S,
    value: i64,
) -> Result<S, Fail> {
    let mut store = store;
    assert!(rt; put(alloc, &mut store, &committed(rt, &insert(rt, value))));
    Ok(store)
}

// Whether this choice is the one at a place of the unresolved.
fn is_unresolved<S: FactStore>(store: &S, place: usize, choice: &Choice) -> bool {
    store.unresolved(place) == Some((choice.tx, choice.write_set.copy()))
}

// Whether the sums of a version of the key, where these were seen, are these.
fn is_load<S: FactStore>(store: &S, version: u64, seen: &[TxId], expected: Load) -> bool {
    store.load(&key(), version, seen) == expected
}

// Whether the mark at a place of the votes below a ballot is this transaction's.
fn is_mark<S: FactStore>(
    store: &S,
    version: u64,
    below: Ballot,
    place: usize,
    expected: (Ballot, u32, bool),
) -> bool {
    mark(store, &key(), version, below, place) == Some(expected)
}

// Whether a version of the key is held, with this item and these deltas.
fn is_held<S: FactStore>(store: &S, version: u64, value: i64, seqs: &[u32]) -> bool {
    let a = key();
    store.current(&a) == version
        && store.base(&a) == Some(item(value))
        && store.executed(&a) == seen(seqs)
}

// ---- an insert of 10, at the centre that began it: voted, and heard committed

fn has_nothing<S: FactStore>(store: &S) -> bool {
    let a = key();
    store.current(&a) == 0 && store.base(&a).is_none() && store.promise(&a, 0) == Ballot::FAST
}

fn has_the_load_of_a_write<S: FactStore>(store: &S) -> bool {
    is_load(store, 0, &[], load(1, 1, 0, 0, 0))
        && is_load(store, 0, &[tx(1)], load(1, 0, 0, 0, 0))
        && store.entries(&key(), 0) == (1, 0)
}

fn has_one_mark<S: FactStore>(store: &S) -> bool {
    is_mark(store, 0, LED, 0, (Ballot::FAST, 1, true))
        && mark(store, &key(), 0, LED, 1).is_none()
        && mark(store, &key(), 0, Ballot::FAST, 0).is_none()
}

fn an_insert_is_held_once_it_is_heard_over<S: FactStore + Drop>(
    rt: &impl Abort,
    alloc: Global,
    store: S,
) -> Result<(), Fail> {
    let insert = insert(rt, 10);
    let mut store = store;
    assert!(rt; put(alloc, &mut store, &Fact::Booted(1)) && store.epoch() == 1);
    assert!(rt; put(alloc, &mut store, &fast_vote(alloc, &insert)?));
    assert!(rt; has_nothing(&store) && has_the_load_of_a_write(&store) && has_one_mark(&store));
    let vote = store.vote_of(&key(), 0, tx(1));
    assert!(rt; vote == Some((Ballot::FAST, Mark::Accept(insert.copy()))));
    assert!(rt; store.heard(tx(1)).is_none());
    assert!(rt; is_unresolved(&store, 0, &insert) && store.unresolved(1).is_none());
    assert!(rt; put(alloc, &mut store, &committed(rt, &insert)));
    assert!(rt; is_held(&store, 1, 10, &[]) && store.heard(tx(1)).is_some());
    assert!(rt; store.unresolved(0).is_none() && is_load(&store, 1, &[], load(0, 0, 0, 0, 0)));
    Ok(())
}

#[test]
fn an_insert_is_held_once_it_is_heard(rt: HostRuntime) -> Result<(), Fail> {
    an_insert_is_held_once_it_is_heard_over(&rt, rt.alloc(), no_facts(rt.alloc())?)
}

// ---- three decreases of 4 from 10: the first by fast votes, the second past the share and accepted by
// the leader, the third rejected by it

pub(crate) fn decrease(seq: u32) -> Choice {
    choice(key(), seq, 1, add(-4))
}

// The insert is held, and the first decrease is voted.
fn voting<S: FactStore + Drop>(rt: &impl Abort, alloc: Global, store: S) -> Result<S, Fail> {
    let mut store = holding(rt, alloc, store, 10)?;
    assert!(rt; put(alloc, &mut store, &fast_vote(alloc, &decrease(2))?));
    Ok(store)
}

// The leader's structure is voted too.
pub(crate) fn led<S: FactStore + Drop>(
    rt: &impl Abort,
    alloc: Global,
    store: S,
) -> Result<S, Fail> {
    let mut store = voting(rt, alloc, store)?;
    let marks = [
        (4, Mark::Reject),
        (2, Mark::Accept(decrease(2))),
        (3, Mark::Accept(decrease(3))),
    ];
    let vote = voted(alloc, key(), 1, LED, &marks, None)?;
    assert!(rt; put(alloc, &mut store, &vote) && !put(alloc, &mut store, &vote));
    Ok(store)
}

fn a_promise_is_kept_once_over<S: FactStore + Drop>(
    rt: &impl Abort,
    alloc: Global,
    store: S,
) -> Result<(), Fail> {
    let a = key();
    let mut store = voting(rt, alloc, store)?;
    assert!(rt; is_load(&store, 1, &[], load(0, 1, 1, 4, 0)));
    let promise = Fact::Promised {
        key: a,
        low: 1,
        high: 101,
        ballot: LED,
    };
    assert!(rt; put(alloc, &mut store, &promise) && !put(alloc, &mut store, &promise));
    assert!(rt; store.promised(&a, 1, LED) == Some(101));
    assert!(rt; store.promise(&a, 101) == LED && store.promise(&a, 102) == Ballot::FAST);
    Ok(())
}

#[test]
fn a_promise_is_kept_once(rt: HostRuntime) -> Result<(), Fail> {
    a_promise_is_kept_once_over(&rt, rt.alloc(), no_facts(rt.alloc())?)
}

// The leader's structure, below the next ballot.
fn has_three_marks<S: FactStore>(store: &S) -> bool {
    let next = Ballot { round: 2, ..LED };
    is_mark(store, 1, next, 0, (LED, 2, true))
        && is_mark(store, 1, next, 1, (LED, 3, true))
        && is_mark(store, 1, next, 2, (LED, 4, false))
        && mark(store, &key(), 1, next, 3).is_none()
}

fn decreases_are_summed_once_each_over<S: FactStore + Drop>(
    rt: &impl Abort,
    alloc: Global,
    store: S,
) -> Result<(), Fail> {
    let store = led(rt, alloc, store)?;
    assert!(rt; is_load(&store, 1, &[], load(0, 2, 2, 8, 0)));
    assert!(rt; is_load(&store, 1, &[tx(2)], load(0, 1, 2, 8, 0)));
    assert!(rt; store.entries(&key(), 1) == (1, 0));
    assert!(rt; is_mark(&store, 1, LED, 0, (Ballot::FAST, 2, true)) && has_three_marks(&store));
    assert!(rt; store.vote_of(&key(), 1, tx(4)) == Some((LED, Mark::Reject)));
    assert!(rt; is_unresolved(&store, 0, &decrease(2)) && is_unresolved(&store, 1, &decrease(3)));
    assert!(rt; store.unresolved(2).is_none());
    Ok(())
}

#[test]
fn decreases_are_summed_once_each(rt: HostRuntime) -> Result<(), Fail> {
    decreases_are_summed_once_each_over(&rt, rt.alloc(), no_facts(rt.alloc())?)
}

fn has_the_delta_of_the_third<S: FactStore>(store: &S) -> bool {
    let delta = Delta {
        tx: tx(3),
        amounts: BoundedList::from_slice(&[(1, -4)]).unwrap(),
    };
    store.delta(&key(), tx(3)) == Some(delta)
}

fn decreases_are_executed_once_each_over<S: FactStore + Drop>(
    rt: &impl Abort,
    alloc: Global,
    store: S,
) -> Result<(), Fail> {
    let mut store = led(rt, alloc, store)?;
    assert!(rt; put(alloc, &mut store, &committed(rt, &decrease(3))));
    assert!(rt; is_unresolved(&store, 0, &decrease(2)) && store.unresolved(1).is_none());
    let first = committed(rt, &decrease(2));
    assert!(rt; put(alloc, &mut store, &first) && !put(alloc, &mut store, &first));
    assert!(rt; is_held(&store, 1, 10, &[2, 3]) && has_the_delta_of_the_third(&store));
    assert!(rt; is_load(&store, 1, &[], load(0, 2, 2, 8, 0)));
    Ok(())
}

#[test]
fn decreases_are_executed_once_each(rt: HostRuntime) -> Result<(), Fail> {
    decreases_are_executed_once_each_over(&rt, rt.alloc(), no_facts(rt.alloc())?)
}

// ---- an increase of 5 gives a decrease of 5 no room until the item is written again

fn aborted(seq: u32) -> Fact {
    Fact::Heard {
        tx: tx(seq),
        outcome: Outcome::Abort,
    }
}

// The increase is held.
fn raised<S: FactStore + Drop>(rt: &impl Abort, alloc: Global, store: S) -> Result<S, Fail> {
    let more = choice(key(), 2, 1, add(5));
    let mut store = holding(rt, alloc, store, 0)?;
    assert!(rt; put(alloc, &mut store, &fast_vote(alloc, &more)?));
    assert!(rt; put(alloc, &mut store, &committed(rt, &more)));
    Ok(store)
}

// And the decrease is rejected.
fn rejecting<S: FactStore + Drop>(
    rt: &impl Abort,
    alloc: Global,
    store: S,
    less: &Choice,
) -> Result<S, Fail> {
    let mut store = raised(rt, alloc, store)?;
    let mark = [(3, Mark::Reject)];
    let vote = voted(alloc, key(), 1, Ballot::FAST, &mark, Some(less.copy()))?;
    assert!(rt; put(alloc, &mut store, &vote));
    Ok(store)
}

fn a_rejected_decrease_is_void_over<S: FactStore + Drop>(
    rt: &impl Abort,
    alloc: Global,
    store: S,
) -> Result<(), Fail> {
    let less = choice(key(), 3, 1, add(-5));
    let mut store = rejecting(rt, alloc, store, &less)?;
    assert!(rt; store.entries(&key(), 1) == (1, 1) && is_load(&store, 1, &[], load(0, 1, 1, 0, 5)));
    assert!(rt; is_mark(&store, 1, LED, 1, (Ballot::FAST, 3, false)));
    assert!(rt; is_unresolved(&store, 0, &less));
    assert!(rt; store.choice_of(&key(), 1, tx(3)) == Some(less.copy()));
    assert!(rt; put(alloc, &mut store, &aborted(3)));
    assert!(rt; store.heard(tx(3)) == Some(Outcome::Abort) && store.unresolved(0).is_none());
    Ok(())
}

#[test]
fn a_rejected_decrease_is_void(rt: HostRuntime) -> Result<(), Fail> {
    a_rejected_decrease_is_void_over(&rt, rt.alloc(), no_facts(rt.alloc())?)
}

// The decrease was rejected, and the item is to be written again.
fn rebasing<S: FactStore + Drop>(
    rt: &impl Abort,
    alloc: Global,
    store: S,
    rebase: &Choice,
) -> Result<S, Fail> {
    let mut store = rejecting(rt, alloc, store, &choice(key(), 3, 1, add(-5)))?;
    assert!(rt; put(alloc, &mut store, &aborted(3)));
    assert!(rt; put(alloc, &mut store, &fast_vote(alloc, rebase)?));
    Ok(store)
}

fn a_rebase_starts_anew_over<S: FactStore + Drop>(
    rt: &impl Abort,
    alloc: Global,
    store: S,
) -> Result<(), Fail> {
    let rebase = choice(key(), 4, 1, write(rt, 5, &[tx(2)]));
    let mut store = rebasing(rt, alloc, store, &rebase)?;
    assert!(rt; is_load(&store, 1, &[tx(2)], load(1, 1, 1, 0, 5)));
    assert!(rt; store.executed(&key()) == seen(&[2]));
    assert!(rt; put(alloc, &mut store, &committed(rt, &rebase)));
    assert!(rt; is_held(&store, 2, 5, &[]) && store.delta(&key(), tx(2)).is_none());
    assert!(rt; is_load(&store, 2, &[], load(0, 0, 0, 0, 0)));
    Ok(())
}

#[test]
fn a_rebase_starts_anew(rt: HostRuntime) -> Result<(), Fail> {
    a_rebase_starts_anew_over(&rt, rt.alloc(), no_facts(rt.alloc())?)
}

fn a_decrease_has_room_after_a_rebase_over<S: FactStore + Drop>(
    rt: &impl Abort,
    alloc: Global,
    store: S,
) -> Result<(), Fail> {
    let rebase = choice(key(), 4, 1, write(rt, 5, &[tx(2)]));
    let again = choice(key(), 5, 2, add(-5));
    let mut store = rebasing(rt, alloc, store, &rebase)?;
    assert!(rt; put(alloc, &mut store, &committed(rt, &rebase)));
    let marks = [(5, Mark::Accept(again.copy()))];
    let vote = voted(alloc, key(), 2, LED, &marks, None)?;
    assert!(rt; put(alloc, &mut store, &vote));
    assert!(rt; store.entries(&key(), 2) == (0, 0) && is_load(&store, 2, &[], load(0, 1, 1, 5, 0)));
    assert!(rt; put(alloc, &mut store, &committed(rt, &again)));
    assert!(rt; store.executed(&key()) == seen(&[5]));
    Ok(())
}

#[test]
fn a_decrease_has_room_after_a_rebase(rt: HostRuntime) -> Result<(), Fail> {
    a_decrease_has_room_after_a_rebase_over(&rt, rt.alloc(), no_facts(rt.alloc())?)
}

// A vote on a choice that is heard aborted weighs nothing.
fn a_void_vote_weighs_nothing_over<S: FactStore + Drop>(
    rt: &impl Abort,
    alloc: Global,
    store: S,
) -> Result<(), Fail> {
    let mut store = store;
    assert!(rt; put(alloc, &mut store, &fast_vote(alloc, &insert(rt, 1))?));
    assert!(rt; is_load(&store, 0, &[], load(1, 1, 0, 0, 0)));
    assert!(rt; put(alloc, &mut store, &aborted(1)));
    assert!(rt; is_load(&store, 0, &[], load(0, 0, 0, 0, 0)));
    assert!(rt; store.entries(&key(), 0) == (1, 0));
    Ok(())
}

#[test]
fn a_void_vote_weighs_nothing(rt: HostRuntime) -> Result<(), Fail> {
    a_void_vote_weighs_nothing_over(&rt, rt.alloc(), no_facts(rt.alloc())?)
}
