//! Facts as bytes.
ghost use Rattle.mdcc_journal.specs.Counts.{HasCounts};

use crate::bytes::{
    AMOUNTS, BALLOT, CHOICE, FAST, ITEM, NEXT_TX, PLACE, TX, ballot, choice, deltas, item, joined,
    key, next_tx, options, tx,
};
use crate::spelled::are_same;
use mdcc_base::{Ballot, BoundedList, HeapList, Plain};
use mdcc_def_messages::Fact;
use mdcc_journal::{decode_fact, encode_fact, fact_length};
use mdcc_option::{Choice, Delta, Outcome};
use mdcc_struct::Options;
use std::alloc::Global;
use std::test::*;

// Whether the fact is written as these bytes.
fn is_written(alloc: Global, fact: &Fact, bytes: &[u8]) -> Result<bool, Fail>
    requires { HasCounts fact.now }
{
    let mut out = Vec::new(alloc);
    encode_fact(fact, &mut out)?;
    Ok(out.as_slice() == bytes && fact_length(fact) == bytes.len())
}

/// The fact that the bytes spell.
pub fn fact_of(alloc: Global, bytes: &[u8]) -> Result<Fact, Fail> {
    Ok(
        decode_fact(alloc, bytes)
            .ok()
            .ok_or("the bytes are a fact")?,
    )
}

/// Whether it is the start of epoch 258.
pub fn is_boot(fact: &Fact) -> bool {
    match fact {
        Fact::Booted(epoch) => *epoch == 258,
        _ => false,
    }
}

fn is_booted(alloc: Global) -> Result<bool, Fail> {
    let bytes = [1, 2, 1, 0, 0];
    Ok(is_written(alloc, &Fact::Booted(258), &bytes)? && is_boot(&fact_of(alloc, &bytes)?))
}

/// Whether it is the promise for key a at versions 7 to 107 and ballot 2.3.4.
pub fn is_promise(fact: &Fact) -> bool {
    match fact {
        Fact::Promised {
            key: of,
            low,
            high,
            ballot: at,
        } => of.is(&key()) && *low == 7 && *high == 107 && at.is(&ballot()),
        _ => false,
    }
}

fn is_promised(alloc: Global) -> Result<bool, Fail> {
    let bytes = joined(alloc, &[&[2], &PLACE, &[107, 0, 0, 0, 0, 0, 0, 0], &BALLOT])?;
    let promised = Fact::Promised {
        key: key(),
        low: 7,
        high: 107,
        ballot: ballot(),
    };
    Ok(is_written(alloc, &promised, &bytes)? && is_promise(&fact_of(alloc, &bytes)?))
}

/// Whether it is the vote for key a at version 7 with these marks at a ballot.
pub fn is_vote(fact: &Fact, at: &Ballot, marks: &Options, offered: &Option<Choice>) -> bool {
    match fact {
        Fact::Voted {
            key: of,
            version,
            ballot,
            options,
            offered: read,
        } => {
            of.is(&key())
                && *version == 7
                && ballot.is(at)
                && are_same(options, marks)
                && read.same(offered)
        }
        _ => false,
    }
}

// Whether a vote is written as these bytes.
fn is_vote_written(
    alloc: Global,
    ballot: Ballot,
    options: Options,
    offered: Option<Choice>,
    bytes: &[u8],
) -> Result<bool, Fail> {
    if options.len() > 2 {
        return Ok(false);
    }
    let voted = Fact::Voted {
        key: key(),
        version: 7,
        ballot,
        options,
        offered,
    };
    is_written(alloc, &voted, bytes)
}

/// Whether it is this outcome of transaction 1.1.1.
pub fn is_heard_as(fact: &Fact, outcome: &Outcome) -> bool {
    match fact {
        Fact::Heard {
            tx: of,
            outcome: read,
        } => of.is(&tx()) && read.is(outcome),
        _ => false,
    }
}

fn is_heard(alloc: Global, outcome: &Outcome, outcome_bytes: &[u8]) -> Result<bool, Fail> {
    let bytes = joined(alloc, &[&[4], &TX, outcome_bytes])?;
    let heard = Fact::Heard {
        tx: tx(),
        outcome: outcome.copy(),
    };
    Ok(is_written(alloc, &heard, &bytes)? && is_heard_as(&fact_of(alloc, &bytes)?, outcome))
}

/// Whether it is key a at version 7 with the item and these deltas.
pub fn is_adoption(fact: &Fact, given: &HeapList<Delta>) -> bool {
    match fact {
        Fact::Adopted {
            key: of,
            version,
            item: read,
            adds,
        } => of.is(&key()) && *version == 7 && read.same(&item()) && adds.same(given),
        _ => false,
    }
}

fn is_adoption_written(alloc: Global, adds: HeapList<Delta>, bytes: &[u8]) -> Result<bool, Fail> {
    if adds.len() != 1 {
        return Ok(false);
    }
    let adopted = Fact::Adopted {
        key: key(),
        version: 7,
        item: item(),
        adds,
    };
    is_written(alloc, &adopted, bytes)
}

fn is_adopted(alloc: Global) -> Result<bool, Fail> {
    let bytes = joined(alloc, &[&[5], &PLACE, &ITEM, &[1], &TX, &AMOUNTS])?;
    Ok(
        is_adoption_written(alloc, deltas(alloc)?, &bytes)?
            && is_adoption(&fact_of(alloc, &bytes)?, &deltas(alloc)?),
    )
}

fn is_floor(fact: &Fact) -> bool {
    match fact {
        Fact::Floor { centre, epoch, seq } => { centre.number() == 2 && *epoch == 1 && *seq == 258 }
        _ => false,
    }
}

fn is_floor_set(alloc: Global) -> Result<bool, Fail> {
    let bytes = joined(alloc, &[&[6], &NEXT_TX])?;
    let floor = Fact::Floor {
        centre: next_tx().centre,
        epoch: 1,
        seq: 258,
    };
    Ok(is_written(alloc, &floor, &bytes)? && is_floor(&fact_of(alloc, &bytes)?))
}

#[test]
fn starts_promises_and_outcomes(rt: HostRuntime) -> Result<(), Fail> {
    let alloc = rt.alloc();
    assert!(rt; is_booted(alloc)? && is_promised(alloc)? && is_adopted(alloc)?);
    assert!(rt; is_floor_set(alloc)?);
    assert!(rt; is_heard(alloc, &Outcome::Abort, &[0])?);
    let commit = Outcome::Commit(BoundedList::from_slice(&[choice()]).unwrap_or_default());
    let bytes = joined(alloc, &[&[1, 1], &CHOICE])?;
    assert!(rt; is_heard(alloc, &commit, &bytes)?);
    Ok(())
}

#[test]
fn votes(rt: HostRuntime) -> Result<(), Fail> {
    let alloc = rt.alloc();
    let marks: [&[u8]; 6] = [&[3], &PLACE, &BALLOT, &[2, 0, 0, 0, 1], &CHOICE, &[0]];
    let bytes = joined(alloc, &[&joined(alloc, &marks)?, &NEXT_TX, &[0]])?;
    assert!(rt; is_vote_written(alloc, ballot(), options(alloc)?, None, &bytes)?);
    assert!(rt; is_vote(&fact_of(alloc, &bytes)?, &ballot(), &options(alloc)?, &None));
    Ok(())
}

#[test]
fn a_vote_with_a_rejected_choice(rt: HostRuntime) -> Result<(), Fail> {
    let alloc = rt.alloc();
    let bytes = joined(alloc, &[&[3], &PLACE, &FAST, &[0, 0, 0, 0, 1], &CHOICE])?;
    let offered = Some(choice());
    let none = Options::new(alloc)?;
    assert!(rt; is_vote(&fact_of(alloc, &bytes)?, &Ballot::FAST, &none, &offered));
    assert!(rt; is_vote_written(alloc, Ballot::FAST, none, offered, &bytes)?);
    Ok(())
}
