//! What is done about a transaction whose manager is silent.
use crate::values::{choice, cluster, key, tx, vote, voted};
use mdcc_base::{Key, TxId};
use mdcc_def_protocol::{RecoverAct, Vote};
use mdcc_facts::FactStore;
use mdcc_option::{Claim, Mark, Outcome};
use mdcc_recover::Recover;
use mdcc_tests::adding::no_facts;
use std::alloc::Global;
use std::process::Abort;
use std::test::Fail;

// The key at which all centres are asked.
fn asked(acts: &[RecoverAct], place: usize) -> Option<(TxId, Key, u64)> {
    match acts.get(place) {
        Some(RecoverAct::Ask(tx, key, version)) => Some((*tx, *key, *version)),
        _ => None,
    }
}

// The claim that is led here.
fn led(acts: &[RecoverAct], place: usize) -> Option<&Claim> {
    match acts.get(place) {
        Some(RecoverAct::LeadHere(claim)) => Some(claim),
        _ => None,
    }
}

// Ticks at which nothing is done.
fn wait<S: FactStore>(
    rt: &impl Abort,
    recover: &mut Recover,
    store: &S,
    opened: &[TxId],
) -> Result<(), Fail> {
    assert!(rt; recover.tick(store, opened)?.is_empty());
    Ok(())
}

// The tick at which all centres are asked on both keys.
fn ask<S: FactStore>(rt: &impl Abort, recover: &mut Recover, store: &S) -> Result<(), Fail> {
    let acts = recover.tick(store, &[])?;
    assert_eq!(rt; acts.len(), 2);
    assert_eq!(rt; asked(&acts, 0), Some((tx(), key(b'a'), 0)));
    assert_eq!(rt; asked(&acts, 1), Some((tx(), key(b'b'), 0)));
    Ok(())
}

// Votes of some centres on a key that decide nothing.
fn take<S: FactStore>(
    rt: &impl Abort,
    recover: &mut Recover,
    store: &S,
    letter: u8,
    centres: &[u8],
) -> Result<(), Fail> {
    let cluster = cluster()?;
    for from in centres {
        let next = accepting(*from, letter);
        assert!(rt; recover.would_decide(store, &cluster, &next).is_none());
        assert!(rt; recover.on_voted(store, &cluster, &next)?.is_none());
    }
    Ok(())
}

// A vote that accepts.
fn accepting(from: u8, letter: u8) -> Vote {
    vote(from, letter, Mark::Accept(choice(letter, 1)))
}

// Whether the transaction is committed, with so many choices.
fn committed(decided: &Option<(TxId, Outcome)>) -> Option<usize> {
    match decided {
        Some((decided, Outcome::Commit(choices))) if *decided == tx() => Some(choices.len()),
        _ => None,
    }
}

// In a store that is given empty.
fn votes_finish_a_transaction_over<S: FactStore + Drop>(
    rt: &impl Abort,
    alloc: Global,
    store: S,
) -> Result<(), Fail> {
    let cluster = cluster()?;
    let store = voted(alloc, store, b"ab")?;
    let mut recover = Recover::new(alloc)?;
    wait(rt, &mut recover, &store, &[])?;
    ask(rt, &mut recover, &store)?;
    take(rt, &mut recover, &store, b'a', &[2, 3, 4, 5])?;
    take(rt, &mut recover, &store, b'b', &[2, 3, 4])?;
    let last = accepting(5, b'b');
    assert_eq!(rt;
        committed(&recover.would_decide(&store, &cluster, &last)),
        Some(2)
    );
    assert_eq!(rt;
        committed(&recover.on_voted(&store, &cluster, &last)?),
        Some(2)
    );
    recover.close(tx());
    assert!(rt; recover.would_decide(&store, &cluster, &last).is_none());
    wait(rt, &mut recover, &store, &[])?;
    ask(rt, &mut recover, &store)?;
    take(rt, &mut recover, &store, b'b', &[5])
}

// At the second tick all centres are asked on each key, and the fourth vote on the second key
// commits. Once it is closed the transaction is counted anew.
#[test]
fn votes_finish_a_transaction(rt: HostRuntime) -> Result<(), Fail> {
    let store = no_facts(rt.alloc())?;
    votes_finish_a_transaction_over(&rt, rt.alloc(), store)
}

// In a store that is given empty.
fn what_is_not_learned_is_led_over<S: FactStore + Drop>(
    rt: &impl Abort,
    alloc: Global,
    store: S,
) -> Result<(), Fail> {
    let store = voted(alloc, store, b"a")?;
    let mut recover = Recover::new(alloc)?;
    wait(rt, &mut recover, &store, &[])?;
    ask(rt, &mut recover, &store)?;
    take(rt, &mut recover, &store, b'a', &[2, 3, 4, 5])?;
    for _time in 0..2 {
        wait(rt, &mut recover, &store, &[])?;
        let acts = recover.tick(&store, &[])?;
        assert_eq!(rt; acts.len(), 1);
        let claim = Claim {
            tx: tx(),
            key: key(b'b'),
            version: 0,
            choice: None,
        };
        assert_eq!(rt; led(&acts, 0), Some(&claim));
    }
    Ok(())
}

// The key that four centres accepted is learned. The other one, on which nobody voted, is led at
// the fourth tick and at the sixth, without a choice.
#[test]
fn what_is_not_learned_is_led(rt: HostRuntime) -> Result<(), Fail> {
    let store = no_facts(rt.alloc())?;
    what_is_not_learned_is_led_over(&rt, rt.alloc(), store)
}

// In a store that is given empty.
fn a_vote_that_was_taken_goes_first_over<S: FactStore + Drop>(
    rt: &impl Abort,
    alloc: Global,
    store: S,
) -> Result<(), Fail> {
    let cluster = cluster()?;
    let store = voted(alloc, store, b"ab")?;
    let mut recover = Recover::new(alloc)?;
    wait(rt, &mut recover, &store, &[])?;
    take(rt, &mut recover, &store, b'a', &[2, 3, 4, 5])?;
    ask(rt, &mut recover, &store)?;
    let other = vote(3, b'a', Mark::Accept(choice(b'a', 7)));
    assert!(rt; recover.on_voted(&store, &cluster, &other)?.is_none());
    wait(rt, &mut recover, &store, &[])?;
    let acts = recover.tick(&store, &[])?;
    assert_eq!(rt; acts.len(), 2);
    assert_eq!(rt;
        led(&acts, 0).and_then(|claim| claim.choice.as_ref()),
        Some(&choice(b'a', 7))
    );
    assert_eq!(rt;
        led(&acts, 1).and_then(|claim| claim.choice.as_ref()),
        Some(&choice(b'b', 1))
    );
    Ok(())
}

// Votes before the second tick do not count, though that tick counts from the first on. A claim has
// the choice of a vote that was taken, or else that of an own vote.
#[test]
fn a_vote_that_was_taken_goes_first(rt: HostRuntime) -> Result<(), Fail> {
    let store = no_facts(rt.alloc())?;
    a_vote_that_was_taken_goes_first_over(&rt, rt.alloc(), store)
}

// In a store that is given empty.
fn one_rejected_key_aborts_over<S: FactStore + Drop>(
    rt: &impl Abort,
    alloc: Global,
    store: S,
) -> Result<(), Fail> {
    let cluster = cluster()?;
    let store = voted(alloc, store, b"ab")?;
    let mut recover = Recover::new(alloc)?;
    wait(rt, &mut recover, &store, &[tx()])?;
    wait(rt, &mut recover, &store, &[tx()])?;
    wait(rt, &mut recover, &store, &[])?;
    ask(rt, &mut recover, &store)?;
    for from in [1, 2, 3] {
        let next = vote(from, b'b', Mark::Reject);
        assert!(rt; recover.on_voted(&store, &cluster, &next)?.is_none());
    }
    let decided = recover.on_voted(&store, &cluster, &vote(4, b'b', Mark::Reject))?;
    assert!(rt; matches!(decided, Some((_, Outcome::Abort))));
    Ok(())
}

// A transaction that is open here is not counted. Four rejections of one key abort it.
#[test]
fn one_rejected_key_aborts(rt: HostRuntime) -> Result<(), Fail> {
    let store = no_facts(rt.alloc())?;
    one_rejected_key_aborts_over(&rt, rt.alloc(), store)
}
