//! What a centre shows, and what it gives another one.
use crate::values::{decrease, holding, insert, item, key, six, tx};
use mdcc_base::{BoundedList, Plain};
use mdcc_def_protocol::{Give, Reading};
use mdcc_facts::FactStore;
use mdcc_option::{Delta, Outcome, Token};
use mdcc_tests::adding::no_facts;
use mdcc_visible::{on_outcome, on_sync_ask, on_sync_give, read, rebase_due};
use std::alloc::Global;
use std::process::Abort;
use std::test::Fail;

// Whether a read shows 6 at version 1, with the second transaction in it.
fn is_six(shown: &Reading) -> bool {
    let token = Token {
        version: 1,
        seen: BoundedList::from_slice(&[tx(2)]).unwrap_or_default(),
    };
    shown.token == token && shown.item == Some(item(6)) && !shown.due
}

// 10 less 4, seen with the transaction that took them.
#[test]
fn a_read_shows_the_executed_deltas(rt: HostRuntime) -> Result<(), Fail> {
    a_read_shows_the_executed_deltas_over(&rt, rt.alloc(), no_facts(rt.alloc())?)
}

fn a_read_shows_the_executed_deltas_over<S: FactStore + Drop>(
    rt: &impl Abort,
    alloc: Global,
    store: S,
) -> Result<(), Fail> {
    let store = six(alloc, store)?;
    assert!(rt; is_six(&read(&store, &key(b'a'))) && !rebase_due(&store, &key(b'a')));
    Ok(())
}

#[test]
fn an_outcome_is_heard_once(rt: HostRuntime) -> Result<(), Fail> {
    an_outcome_is_heard_once_over(&rt, rt.alloc(), no_facts(rt.alloc())?)
}

fn an_outcome_is_heard_once_over<S: FactStore + Drop>(
    rt: &impl Abort,
    alloc: Global,
    store: S,
) -> Result<(), Fail> {
    let store = six(alloc, store)?;
    assert!(rt; on_outcome(&store, tx(2), &Outcome::Abort).is_none());
    assert!(rt; on_outcome(&store, tx(3), &Outcome::Abort).is_some());
    Ok(())
}

// Whether this is version 1 of key a with one decrease.
fn is_whole(give: &Give) -> bool {
    let delta = Delta {
        tx: tx(2),
        amounts: BoundedList::from_slice(&[(1, -4)]).unwrap_or_default(),
    };
    give.version == 1
        && give.item.same(&item(10))
        && give.adds.len() == 1
        && give.adds.as_slice()[0].same(&delta)
}

// What a centre holds goes to one that holds nothing, and brings it no news a second time.
#[test]
fn a_centre_gives_what_it_holds(rt: HostRuntime) -> Result<(), Fail> {
    a_centre_gives_what_it_holds_over(
        &rt,
        rt.alloc(),
        no_facts(rt.alloc())?,
        no_facts(rt.alloc())?,
    )
}

fn a_centre_gives_what_it_holds_over<S: FactStore + Drop>(
    rt: &impl Abort,
    alloc: Global,
    store: S,
    behind: S,
) -> Result<(), Fail> {
    let store = six(alloc, store)?;
    assert!(rt; on_sync_ask(alloc, &store, &key(b'b'))?.is_none());
    let give = on_sync_ask(alloc, &store, &key(b'a'))?.ok_or("version 1")?;
    assert!(rt; is_whole(&give));
    assert!(rt; on_sync_give(alloc, &store, &give)?.is_none());
    assert!(rt; on_sync_give(alloc, &behind, &give)?.is_some());
    Ok(())
}

// Whether a rebase is due after so many decreases.
fn is_due<S: FactStore + Drop>(alloc: Global, store: S, count: u32) -> Result<bool, Fail> {
    let mut choices = vec![in alloc; insert()]?;
    for seq in 1..=count {
        choices.push(decrease(seq.saturating_add(1)))?;
    }
    let store = holding(alloc, store, choices)?;
    Ok(rebase_due(&store, &key(b'a')))
}

// From 32 deltas on the value is to be written anew.
#[test]
fn a_rebase_is_due_at_32(rt: HostRuntime) -> Result<(), Fail> {
    assert!(rt; !is_due(rt.alloc(), no_facts(rt.alloc())?, 31)?);
    assert!(rt; is_due(rt.alloc(), no_facts(rt.alloc())?, 32)?);
    Ok(())
}
