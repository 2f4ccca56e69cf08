//! Boots from a few payloads.
ghost use Rattle.std.specs.Prelude.{[]};

use crate::setup::{BOOTED, FLOOR, HEARD, PROMISED, five_centres};
use mdcc_base::{Centre, HeapList};
use mdcc_def_messages::Fact;
use mdcc_facts::FactStore;
use mdcc_index::PoolFacts;
use mdcc_node::{BootFault, Node};
use mdcc_node_boot::loading::are_short;
use mdcc_node_boot::parts_belong::is_centre;
use std::alloc::Global;
use std::process::Abort;
use std::test::*;

// Of no kind of facts.
const NO_FACT: [u8; 1] = [7];

// The payloads of a log.
fn logged(alloc: Global, payloads: &[&[u8]]) -> Result<Vec<HeapList<u8>>, Fail> {
    let mut log = Vec::new(alloc);
    for payload in payloads {
        let mut bytes = Vec::new(alloc);
        bytes.extend_from_slice(payload)?;
        log.push(HeapList::from_vec(bytes))?;
    }
    Ok(log)
}

// The epoch that a boot begins.
fn epoch_in(fact: &Fact) -> u32 {
    match fact {
        Fact::Booted(epoch) => *epoch,
        _ => 0,
    }
}

// The epoch of the node that is booted over an empty store, where its fact is the boot of that epoch, or why there is none.
fn booted_over<S: FactStore + Drop>(
    rt: &impl Abort,
    alloc: Global,
    store: S,
    payloads: &[&[u8]],
) -> Result<Result<u32, BootFault>, Fail>
    requires { S.stands store [] }
{
    let cluster = five_centres(rt);
    let centre = Centre::new(1).unwrap_or_default();
    let kept = logged(alloc, payloads)?;
    let log = kept.as_slice();
    if !is_centre(&cluster, centre.number()) {
        return Ok(Ok(0));
    }
    if !are_short(log) {
        return Ok(Ok(0));
    }
    match Node::boot(alloc, cluster, centre, store, log) {
        Ok((node, fact)) => {
            let epoch = epoch_in(&fact);
            Ok(Ok(if epoch == node.epoch() { epoch } else { 0 }))
        }
        Err(fault) => Ok(Err(fault)),
    }
}

// Over a store of so many cells.
fn booted_within(
    rt: &impl Abort,
    alloc: Global,
    cells: u32,
    payloads: &[&[u8]],
) -> Result<Result<u32, BootFault>, Fail> {
    let store = PoolFacts::new(alloc, cells).ok().ok_or("a store")?;
    booted_over(rt, alloc, store, payloads)
}

// Over a store in which they do not lack.
fn booted(
    rt: &impl Abort,
    alloc: Global,
    payloads: &[&[u8]],
) -> Result<Result<u32, BootFault>, Fail> {
    booted_within(rt, alloc, 64, payloads)
}

#[test]
fn a_run_of_facts(rt: HostRuntime) -> Result<(), Fail> {
    let alloc = rt.alloc();
    assert_eq!(rt; booted(&rt, alloc, &[])?, Ok(1));
    assert_eq!(rt; booted(&rt, alloc, &[&BOOTED, &PROMISED, &HEARD])?, Ok(2));
    Ok(())
}

#[test]
fn no_run(rt: HostRuntime) -> Result<(), Fail> {
    let alloc = rt.alloc();
    assert_eq!(rt;
        booted(&rt, alloc, &[&BOOTED, &PROMISED, &HEARD, &HEARD])?,
        Err(BootFault::NotARun(4))
    );
    assert_eq!(rt;
        booted(&rt, alloc, &[&BOOTED, &NO_FACT])?,
        Err(BootFault::NotARun(2))
    );
    assert_eq!(rt;
        booted(&rt, alloc, &[&PROMISED])?,
        Err(BootFault::NotARun(1))
    );
    Ok(())
}

// No floor may stand in a log yet, whatever was heard before it.
#[test]
fn a_floor_is_refused(rt: HostRuntime) -> Result<(), Fail> {
    let alloc = rt.alloc();
    assert_eq!(rt;
        booted(&rt, alloc, &[&BOOTED, &HEARD, &FLOOR])?,
        Err(BootFault::NotARun(3))
    );
    assert_eq!(rt;
        booted_within(&rt, alloc, 2, &[&BOOTED, &FLOOR])?,
        Err(BootFault::NotARun(2))
    );
    Ok(())
}

// Each of these payloads needs one cell, and so does the new boot.
#[test]
fn within_cells(rt: HostRuntime) -> Result<(), Fail> {
    let alloc = rt.alloc();
    let log: [&[u8]; 3] = [&BOOTED, &PROMISED, &HEARD];
    assert_eq!(rt; booted_within(&rt, alloc, 4, &log)?, Ok(2));
    assert_eq!(rt;
        booted_within(&rt, alloc, 3, &log)?,
        Err(BootFault::Room {
            needed: 4,
            cells: 3
        })
    );
    assert_eq!(rt;
        booted_within(&rt, alloc, 1, &log)?,
        Err(BootFault::Room {
            needed: 2,
            cells: 1
        })
    );
    assert_eq!(rt;
        booted_within(&rt, alloc, 1, &[&BOOTED, &NO_FACT])?,
        Err(BootFault::NotARun(2))
    );
    Ok(())
}
