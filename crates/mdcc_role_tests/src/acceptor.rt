//! What an acceptor answers.
use crate::values::{LED, cluster, decrease, insert, key, six, tx};
use mdcc_acceptor::{on_accept, on_prepare, on_propose};
use mdcc_base::Ballot;
use mdcc_def_protocol::{AcceptAnswer, PrepareAnswer, ProposeAnswer};
use mdcc_facts::FactStore;
use mdcc_option::{Cause, Mark, Outcome};
use mdcc_struct::Options;
use mdcc_tests::adding::no_facts;
use std::alloc::Global;
use std::process::Abort;
use std::test::Fail;

// An insert is voted where nothing is held. A decrease is not, since it stands at version 1.
#[test]
fn an_insert_is_voted(rt: HostRuntime) -> Result<(), Fail> {
    an_insert_is_voted_over(&rt, rt.alloc(), no_facts(rt.alloc())?)
}

fn an_insert_is_voted_over<S: FactStore + Drop>(
    rt: &impl Abort,
    alloc: Global,
    store: S,
) -> Result<(), Fail> {
    let cluster = cluster()?;
    let answer = on_propose(&store, &cluster, &insert());
    assert!(rt; matches!(answer, ProposeAnswer::Vote(Mark::Accept(_))));
    let answer = on_propose(&store, &cluster, &decrease(2));
    assert!(rt; matches!(answer, ProposeAnswer::Escalate(Cause::Behind)));
    Ok(())
}

// Of 10 a second decrease of 4 is past the share of one acceptor, since 3 * 8 is above 2 * 10.
#[test]
fn a_decrease_past_the_share_is_not_voted(rt: HostRuntime) -> Result<(), Fail> {
    a_decrease_past_the_share_is_not_voted_over(&rt, rt.alloc(), no_facts(rt.alloc())?)
}

fn a_decrease_past_the_share_is_not_voted_over<S: FactStore + Drop>(
    rt: &impl Abort,
    alloc: Global,
    store: S,
) -> Result<(), Fail> {
    let cluster = cluster()?;
    let store = six(alloc, store)?;
    let answer = on_propose(&store, &cluster, &decrease(2));
    assert!(rt; matches!(answer, ProposeAnswer::Known(Outcome::Commit(_))));
    let answer = on_propose(&store, &cluster, &decrease(3));
    assert!(rt; matches!(answer, ProposeAnswer::Escalate(Cause::Limit(1))));
    Ok(())
}

// A centre that holds version 1 promises the whole range from there on, and below it the asked
// version alone.
#[test]
fn a_range_is_promised(rt: HostRuntime) -> Result<(), Fail> {
    a_range_is_promised_over(&rt, rt.alloc(), no_facts(rt.alloc())?)
}

fn a_range_is_promised_over<S: FactStore + Drop>(
    rt: &impl Abort,
    alloc: Global,
    store: S,
) -> Result<(), Fail> {
    let store = six(alloc, store)?;
    let answer = on_prepare(&store, &key(b'a'), 1, 101, LED);
    assert!(rt; answer == PrepareAnswer::Promise(101));
    let answer = on_prepare(&store, &key(b'a'), 0, 100, LED);
    assert!(rt; answer == PrepareAnswer::Promise(0));
    Ok(())
}

// A structure in which one more decrease is accepted.
fn structure(alloc: Global) -> Result<Options, Fail> {
    let mut options = Options::new(alloc)?;
    options.insert(tx(3), Mark::Accept(decrease(3)))?;
    Ok(options)
}

#[test]
fn a_structure_is_voted_at_the_version_held(rt: HostRuntime) -> Result<(), Fail> {
    a_structure_is_voted_at_the_version_held_over(&rt, rt.alloc(), no_facts(rt.alloc())?)
}

fn a_structure_is_voted_at_the_version_held_over<S: FactStore + Drop>(
    rt: &impl Abort,
    alloc: Global,
    store: S,
) -> Result<(), Fail> {
    let store = six(alloc, store)?;
    let options = structure(alloc)?;
    let answer = on_accept(&store, &key(b'a'), 1, LED, &options);
    assert!(rt; answer == AcceptAnswer::Vote);
    let answer = on_accept(&store, &key(b'a'), 2, LED, &options);
    assert!(rt; answer == AcceptAnswer::Behind(1));
    let none = Options::new(alloc)?;
    let answer = on_accept(&store, &key(b'a'), 1, Ballot { round: 2, ..LED }, &none);
    assert!(rt; answer == AcceptAnswer::Older);
    Ok(())
}
