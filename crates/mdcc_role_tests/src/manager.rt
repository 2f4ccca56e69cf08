//! What a manager does with votes.
use crate::values::{centre, cluster, insert, item, key, six, tx};
use mdcc_base::{Ballot, BoundedList, TxId};
use mdcc_def_protocol::{ManagerAct, Vote};
use mdcc_facts::FactStore;
use mdcc_manager::{Manager, key_refused};
use mdcc_option::{BeginFault, Cause, Cluster, Mark, Outcome, Part, Transaction, Update};
use mdcc_tests::adding::no_facts;
use std::alloc::Global;
use std::process::Abort;
use std::test::Fail;

// The first transaction of a manager: the insert.
fn drafted(cluster: &Cluster) -> Result<Transaction, Fail> {
    let part = Part {
        key: key(b'a'),
        version: 0,
        update: Update::Write(item(10), BoundedList::new()),
    };
    Ok(Transaction::new(&cluster.schema, &[part])?)
}

// A manager at centre 1 that began the insert where nothing is held.
fn beginning<S: FactStore>(
    alloc: Global,
    store: &S,
    cluster: &Cluster,
) -> Result<(Manager, TxId), Fail> {
    let mut manager = Manager::new(alloc, centre(1), 1)?;
    let begun = manager.begin(store, &drafted(cluster)?)?;
    Ok((manager, begun))
}

// A vote on the insert.
fn vote(from: u8, mark: Mark) -> Vote {
    Vote {
        from: centre(from),
        key: key(b'a'),
        version: 0,
        ballot: Ballot::FAST,
        tx: tx(1),
        mark,
    }
}

fn accepted(from: u8) -> Vote {
    vote(from, Mark::Accept(insert()))
}

fn rejected(from: u8) -> Vote {
    vote(from, Mark::Reject)
}

// Votes that make the manager do nothing.
fn take(rt: &impl Abort, manager: &mut Manager, votes: &[Vote]) -> Result<(), Fail> {
    let cluster = cluster()?;
    for next in votes {
        assert!(rt; manager.would_decide(&cluster, next).is_none());
        assert!(rt; manager.on_voted(&cluster, next)?.is_none());
    }
    Ok(())
}

// Four votes of five that accept decide an insert.
#[test]
fn a_fast_quorum_decides(rt: HostRuntime) -> Result<(), Fail> {
    a_fast_quorum_decides_over(&rt, rt.alloc(), no_facts(rt.alloc())?)
}

fn a_fast_quorum_decides_over<S: FactStore + Drop>(
    rt: &impl Abort,
    alloc: Global,
    store: S,
) -> Result<(), Fail> {
    let cluster = cluster()?;
    let (mut manager, begun) = beginning(alloc, &store, &cluster)?;
    assert!(rt; begun == tx(1));
    assert!(rt; manager.opened() == [tx(1)].as_slice());
    take(rt, &mut manager, &[accepted(1), accepted(2), accepted(3)])?;
    assert!(rt; manager.decision(begun).is_none());
    assert!(rt; manager.would_decide(&cluster, &accepted(5)).is_some());
    let act = manager.on_voted(&cluster, &accepted(5))?;
    assert!(rt; matches!(act, Some(ManagerAct::Decide(_, Outcome::Commit(_)))));
    manager.close(begun);
    assert!(rt; !manager.is_open(begun));
    Ok(())
}

// The next transaction of an epoch has the next number, whether the last one is open or not.
#[test]
fn transactions_are_numbered_in_turn(rt: HostRuntime) -> Result<(), Fail> {
    transactions_are_numbered_in_turn_over(&rt, rt.alloc(), no_facts(rt.alloc())?)
}

fn transactions_are_numbered_in_turn_over<S: FactStore + Drop>(
    rt: &impl Abort,
    alloc: Global,
    store: S,
) -> Result<(), Fail> {
    let cluster = cluster()?;
    let (mut manager, begun) = beginning(alloc, &store, &cluster)?;
    assert!(rt; manager.is_open(begun));
    assert!(rt; manager.begin(&store, &drafted(&cluster)?)? == tx(2));
    manager.close(begun);
    assert!(rt; manager.begin(&store, &drafted(&cluster)?)? == tx(3));
    assert!(rt; manager.opened() == [tx(2), tx(3)].as_slice());
    Ok(())
}

// A second insert of what is held is stale.
#[test]
fn a_stale_insert_is_refused(rt: HostRuntime) -> Result<(), Fail> {
    a_stale_insert_is_refused_over(&rt, rt.alloc(), no_facts(rt.alloc())?)
}

fn a_stale_insert_is_refused_over<S: FactStore + Drop>(
    rt: &impl Abort,
    alloc: Global,
    store: S,
) -> Result<(), Fail> {
    let cluster = cluster()?;
    let store = six(alloc, store)?;
    let mut manager = Manager::new(alloc, centre(1), 1)?;
    let begun = manager.begin(&store, &drafted(&cluster)?);
    assert!(rt; matches!(&begun, Err(BeginFault::Stale(token)) if token.version == 1));
    assert!(rt; key_refused(&store, &drafted(&cluster)?) == key(b'a'));
    assert!(rt; manager.opened().is_empty());
    Ok(())
}

// The centre that is asked to lead the option.
fn leader_of(act: &Option<ManagerAct>) -> Option<u8> {
    match act {
        Some(ManagerAct::Lead(leader, _)) => Some(leader.number()),
        _ => None,
    }
}

// Two votes that accept and two that reject leave no mark a fast quorum: the key's home leads, once.
#[test]
fn a_collision_goes_to_the_home(rt: HostRuntime) -> Result<(), Fail> {
    a_collision_goes_to_the_home_over(&rt, rt.alloc(), no_facts(rt.alloc())?)
}

fn a_collision_goes_to_the_home_over<S: FactStore + Drop>(
    rt: &impl Abort,
    alloc: Global,
    store: S,
) -> Result<(), Fail> {
    let cluster = cluster()?;
    let (mut manager, _) = beginning(alloc, &store, &cluster)?;
    take(rt, &mut manager, &[accepted(1), accepted(2), rejected(3)])?;
    let act = manager.on_voted(&cluster, &rejected(4))?;
    assert!(rt; leader_of(&act) == Some(3));
    take(rt, &mut manager, &[rejected(5)])?;
    Ok(())
}

// The centre that is given data.
fn given_to(act: &Option<ManagerAct>) -> Option<u8> {
    match act {
        Some(ManagerAct::Give(to, _)) => Some(to.number()),
        _ => None,
    }
}

// A centre that is behind is given the key's data.
#[test]
fn a_centre_that_is_behind_is_given_data(rt: HostRuntime) -> Result<(), Fail> {
    a_centre_that_is_behind_is_given_data_over(&rt, rt.alloc(), no_facts(rt.alloc())?)
}

fn a_centre_that_is_behind_is_given_data_over<S: FactStore + Drop>(
    rt: &impl Abort,
    alloc: Global,
    store: S,
) -> Result<(), Fail> {
    let cluster = cluster()?;
    let (mut manager, begun) = beginning(alloc, &store, &cluster)?;
    let act = manager.on_escalate(&cluster, centre(3), begun, &key(b'a'), Cause::Behind);
    assert!(rt; given_to(&act) == Some(3));
    Ok(())
}

// At ticks an option that is not learned is proposed again, and then led here.
#[test]
fn ticks_propose_and_lead(rt: HostRuntime) -> Result<(), Fail> {
    ticks_propose_and_lead_over(&rt, rt.alloc(), no_facts(rt.alloc())?)
}

fn ticks_propose_and_lead_over<S: FactStore + Drop>(
    rt: &impl Abort,
    alloc: Global,
    store: S,
) -> Result<(), Fail> {
    let cluster = cluster()?;
    let (mut manager, _) = beginning(alloc, &store, &cluster)?;
    assert!(rt; matches!(manager.tick()?.as_slice(), [ManagerAct::Propose(_)]));
    assert!(rt; matches!(manager.tick()?.as_slice(), [ManagerAct::LeadHere(_)]));
    Ok(())
}
