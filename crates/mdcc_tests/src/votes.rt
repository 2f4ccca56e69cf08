//! Votes that a learner counts.
use crate::facts::key;
use mdcc_base::{Ballot, Centre, Plain, Quorums, TxId};
use mdcc_learner::{Learner, Vote};
use mdcc_option::{Choice, Mark};
use std::alloc::Global;
use std::process::Abort;
use std::test::Fail;

// The centre of this number.
fn centre(rt: &impl Abort, number: u8) -> Centre {
    Centre::new(number).expect(rt, "a centre")
}

// The first transaction of the first centre.
fn tx(rt: &impl Abort) -> TxId {
    TxId {
        centre: centre(rt, 1),
        epoch: 1,
        seq: 1,
    }
}

// The mark that accepts an empty choice.
fn accept() -> Mark {
    Mark::Accept(Choice::default())
}

// A vote of a centre at a ballot on the first version of the key `a`.
fn vote(rt: &impl Abort, from: u8, round: u32, mark: Mark) -> Vote {
    Vote {
        from: centre(rt, from),
        key: key(),
        version: 1,
        ballot: Ballot {
            round,
            ..Ballot::FAST
        },
        tx: tx(rt),
        mark,
    }
}

// Whether this mark of the first transaction is learned.
fn is_learned(rt: &impl Abort, learner: &Learner, mark: &Mark) -> bool {
    match learner.learned(tx(rt), &key()) {
        Some(found) => found == *mark,
        None => false,
    }
}

// Whether none is.
fn is_open(rt: &impl Abort, learner: &Learner) -> bool {
    learner.learned(tx(rt), &key()).is_none()
}

// A learner that counted votes of the first three centres that accept.
fn three_accept(rt: &impl Abort, alloc: Global, quorums: &Quorums) -> Result<Learner, Fail> {
    let mut learner = Learner::new(alloc)?;
    assert!(rt; is_open(rt, &learner));
    for from in 1..=3u8 {
        learner.take(quorums, &vote(rt, from, 0, accept()))?;
        assert!(rt; is_open(rt, &learner));
    }
    Ok(learner)
}

#[test]
fn three_of_five_fast_votes_are_not_learned(rt: HostRuntime) -> Result<(), Fail> {
    let quorums = Quorums::new(5, 3, 4).unwrap();
    let learner = three_accept(&rt, rt.alloc(), &quorums)?;
    assert!(rt; learner.accepted(tx(&rt), &key(), 1) == Some(Choice::default()));
    assert!(rt; learner.accepted(tx(&rt), &key(), 2).is_none());
    let again = vote(&rt, 3, 0, accept());
    assert!(rt;
        learner
            .learned_with(&quorums, &again, tx(&rt), &key())
            .is_none()
    );
    Ok(())
}

#[test]
fn the_fourth_of_five_fast_votes_is_learned(rt: HostRuntime) -> Result<(), Fail> {
    let quorums = Quorums::new(5, 3, 4).unwrap();
    let mut learner = three_accept(&rt, rt.alloc(), &quorums)?;
    let fourth = vote(&rt, 4, 0, accept());
    assert!(rt; learner.learned_with(&quorums, &fourth, tx(&rt), &key()) == Some(accept()));
    learner.take(&quorums, &fourth)?;
    assert!(rt; is_learned(&rt, &learner, &accept()));
    learner.forget(tx(&rt));
    assert!(rt; is_open(&rt, &learner));
    Ok(())
}

#[test]
fn fast_votes_collide_once_neither_mark_can_reach_four(rt: HostRuntime) -> Result<(), Fail> {
    let quorums = Quorums::new(5, 3, 4).unwrap();
    let mut learner = Learner::new(rt.alloc())?;
    assert!(rt; !learner.collided(tx(&rt), &key()));
    learner.take(&quorums, &vote(&rt, 1, 0, accept()))?;
    learner.take(&quorums, &vote(&rt, 2, 0, accept()))?;
    learner.take(&quorums, &vote(&rt, 3, 0, Mark::Reject))?;
    assert!(rt; !learner.collided(tx(&rt), &key()));
    learner.take(&quorums, &vote(&rt, 4, 0, Mark::Reject))?;
    assert!(rt; learner.collided(tx(&rt), &key()) && is_open(&rt, &learner));
    Ok(())
}

// Votes of the first three centres at a round.
fn take_three(rt: &impl Abort, learner: &mut Learner, round: u32, mark: &Mark) -> Result<(), Fail> {
    let quorums = Quorums::new(5, 3, 4).unwrap();
    for from in 1..=3u8 {
        learner.take(&quorums, &vote(rt, from, round, mark.copy()))?;
    }
    Ok(())
}

#[test]
fn three_votes_of_a_classic_ballot_are_learned(rt: HostRuntime) -> Result<(), Fail> {
    let mut learner = Learner::new(rt.alloc())?;
    take_three(&rt, &mut learner, 2, &Mark::Reject)?;
    assert!(rt; is_learned(&rt, &learner, &Mark::Reject));
    take_three(&rt, &mut learner, 1, &accept())?;
    assert!(rt; is_learned(&rt, &learner, &accept()));
    Ok(())
}
