//! Parts as bytes, one behind another.
use crate::bytes::{
    AMOUNTS, BALLOT, CHOICE, ITEM, NEXT_TX, PLACE, TX, amounts, ballot, choice, item, joined, key,
    next_tx, options, seen, tx,
};
use crate::spelled::are_same;
use mdcc_base::Plain;
use mdcc_option::{Delta, Mark, Update};
use mdcc_parts::*;
use std::test::*;

// What was read, where it was.
fn read<T: Drop>(part: Result<(T, usize), WireFault>) -> Result<(T, usize), Fail> {
    Ok(part.ok().ok_or("the bytes are such a part")?)
}

#[test]
fn names(rt: HostRuntime) -> Result<(), Fail> {
    let alloc = rt.alloc();
    let mut out = Vec::new(alloc);
    write_key(&key(), &mut out)?;
    write_tx(&next_tx(), &mut out)?;
    write_ballot(&ballot(), &mut out)?;
    assert!(rt; out == joined(alloc, &[&[1, 97], &NEXT_TX, &BALLOT])?);
    let (name, after) = read(read_key(&out, 0))?;
    assert!(rt; name.is(&key()) && after == 2);
    let (name, after) = read(read_tx(&out, after))?;
    assert!(rt; name.is(&next_tx()) && after == 11);
    let (name, after) = read(read_ballot(&out, after))?;
    assert!(rt; name.is(&ballot()) && after == 20);
    let ((centre, epoch, seq), after) = read(read_numbers(&out, 2))?;
    assert!(rt; centre.number() == 2 && epoch == 1 && seq == 258 && after == 11);
    Ok(())
}

#[test]
fn items(rt: HostRuntime) -> Result<(), Fail> {
    let alloc = rt.alloc();
    let mut out = Vec::new(alloc);
    write_item(&item(), &mut out)?;
    write_seen(seen().as_slice(), &mut out)?;
    write_amounts(amounts().as_slice(), &mut out)?;
    assert!(rt; out == joined(alloc, &[&ITEM, &[2], &TX, &NEXT_TX, &AMOUNTS])?);
    let (part, after) = read(read_item(&out, 0))?;
    assert!(rt; part.same(&item()) && after == 11);
    let (part, after) = read(read_seen(&out, after))?;
    assert!(rt; part.same(&seen()) && after == 30);
    let (part, after) = read(read_amounts(&out, after))?;
    assert!(rt; part.same(&amounts()) && after == 40);
    Ok(())
}

#[test]
fn changes(rt: HostRuntime) -> Result<(), Fail> {
    let alloc = rt.alloc();
    let mut out = Vec::new(alloc);
    let write = Update::Write(item(), seen());
    let delta = Delta {
        tx: tx(),
        amounts: amounts(),
    };
    write_update(&write, &mut out)?;
    write_delta(&delta, &mut out)?;
    let bytes = joined(alloc, &[&[1], &ITEM, &[2], &TX, &NEXT_TX, &TX, &AMOUNTS])?;
    assert!(rt; out == bytes);
    let (part, after) = read(read_update(&out, 0))?;
    assert!(rt; part.is(&write) && after == 31);
    let (part, after) = read(read_delta(&out, after))?;
    assert!(rt; part.same(&delta) && after == 50);
    Ok(())
}

#[test]
fn choices(rt: HostRuntime) -> Result<(), Fail> {
    let alloc = rt.alloc();
    let mut out = Vec::new(alloc);
    let written = choice().write_set;
    write_write_set(written.as_slice(), &mut out)?;
    write_choice(&choice(), &mut out)?;
    write_entry(&next_tx(), &Mark::Reject, &mut out)?;
    assert!(rt; out == joined(alloc, &[&[1], &PLACE, &CHOICE, &[0], &NEXT_TX])?);
    let (part, after) = read(read_write_set(&out, 0))?;
    assert!(rt; part.same(&written) && after == 11);
    let (part, after) = read(read_choice(&out, after))?;
    assert!(rt; part.is(&choice()) && after == 52);
    let ((name, mark), after) = read(read_entry(&out, after, &key(), 7))?;
    assert!(rt; name.is(&next_tx()) && mark.is(&Mark::Reject) && after == 62);
    Ok(())
}

#[test]
fn structures(rt: HostRuntime) -> Result<(), Fail> {
    let alloc = rt.alloc();
    let mut out = Vec::new(alloc);
    let marks = options(alloc)?;
    assert!(rt; marks.len() == 2);
    write_options(&marks, &mut out)?;
    assert!(rt; out == joined(alloc, &[&[2, 0, 0, 0, 1], &CHOICE, &[0], &NEXT_TX])?);
    assert!(rt; check_options(&out, 0, &key(), 7) == Ok(56));
    let (part, after) = read(read_options(alloc, &out, 0, &key(), 7))?;
    assert!(rt; are_same(&part, &marks) && after == 56);
    Ok(())
}
