//! Whole runs of one centre.
use crate::made::{ONE, begin, put, run_begin, serve_all, serve_first};
use mdcc_base::MemorySink;
use mdcc_link::MemoryLink;
use std::alloc::Global;
use std::test::Fail;

const IDLE: &[u8] = b"boot 1 epoch 1\ndone turns 3 steps 3 dropped 0 lost 0\n";

const BEGUN: &[u8] =
    b"boot 1 epoch 1\nheard 1 1.1.1 commit\ndone turns 8 steps 8 dropped 0 lost 0\n";

// In the turns two to four the begin comes again, which is no step: the proposal goes out after the second, is taken in the third, and in
// the fourth there is no tick.
const AGAIN: &[u8] =
    b"boot 1 epoch 1\nheard 1 1.1.1 commit\ndone turns 8 steps 6 dropped 0 lost 0\n";

fn cluster_ticks(alloc: Global) -> Option<bool> {
    let mut link = MemoryLink::new(alloc, &[]).ok()?;
    let mut out = MemorySink::new(alloc, &[]).ok()?;
    let served = serve_all(alloc, ONE, 3, &[], &mut link, &mut out)?;
    Some(served.is_ok() && out.bytes() == IDLE)
}

fn node_ticks(alloc: Global) -> Option<bool> {
    let mut link = MemoryLink::new(alloc, &[]).ok()?;
    let mut out = MemorySink::new(alloc, &[]).ok()?;
    let served = serve_first(alloc, ONE, 3, &mut link, &mut out)?;
    Some(served.is_ok() && out.bytes() == IDLE)
}

fn commits(alloc: Global) -> Option<bool> {
    let (served, out) = run_begin(alloc, &[], &[], &[])?;
    Some(served.is_ok() && out.bytes() == BEGUN)
}

fn begins_once(alloc: Global) -> Option<bool> {
    let mut link = MemoryLink::new(alloc, &[]).ok()?;
    let mut out = MemorySink::new(alloc, &[]).ok()?;
    let envelope = begin(7)?;
    for serial in 1..5u32 {
        if !put(alloc, &mut link, 17, serial, &envelope) {
            return None;
        }
    }
    let served = serve_all(alloc, ONE, 8, &[], &mut link, &mut out)?;
    Some(served.is_ok() && out.bytes() == AGAIN)
}

#[test]
fn an_idle_cluster_ticks(rt: HostRuntime) -> Result<(), Fail> {
    assert!(rt; cluster_ticks(rt.alloc()) == Some(true));
    Ok(())
}

#[test]
fn an_idle_node_ticks(rt: HostRuntime) -> Result<(), Fail> {
    assert!(rt; node_ticks(rt.alloc()) == Some(true));
    Ok(())
}

#[test]
fn a_begin_commits(rt: HostRuntime) -> Result<(), Fail> {
    assert!(rt; commits(rt.alloc()) == Some(true));
    Ok(())
}

#[test]
fn a_begin_that_comes_again_begins_nothing(rt: HostRuntime) -> Result<(), Fail> {
    assert!(rt; begins_once(rt.alloc()) == Some(true));
    Ok(())
}
