//! What a leader answers.
use crate::values::{LED, centre, choice, cluster, decrease, holding, insert, item, key, six, tx};
use mdcc_base::{Ballot, BoundedList, Plain, Quorums, TxId};
use mdcc_def_protocol::{LeadAnswer, Promise, PromiseAnswer};
use mdcc_facts::FactStore;
use mdcc_leader::Leader;
use mdcc_option::{Choice, Claim, Cluster, FastLimit, Mark, Update};
use mdcc_struct::Options;
use mdcc_tests::adding::no_facts;
use std::alloc::Global;
use std::process::Abort;
use std::test::Fail;

// A leader of the third centre in its first epoch.
fn leader(alloc: Global) -> Result<Leader, Fail> {
    Ok(Leader::new(alloc, centre(3), 1)?)
}

// A transaction asks for a mark on key a.
fn claim(tx: TxId, version: u64, choice: Option<Choice>) -> Claim {
    Claim {
        tx,
        key: key(b'a'),
        version,
        choice,
    }
}

// The claim of a choice.
fn claim_of(choice: &Choice) -> Claim {
    claim(choice.tx, choice.version, Some(choice.copy()))
}

// A promise of the leader's first ballot, of a centre that voted these marks at the fast one.
fn promise(version: u64, through: u64, votes: Options) -> Promise {
    Promise {
        key: key(b'a'),
        version,
        through,
        ballot: LED,
        reported: Ballot::FAST,
        votes,
    }
}

// Marks of two transactions.
fn two(alloc: Global, first: (TxId, Mark), second: (TxId, Mark)) -> Result<Options, Fail> {
    let mut options = Options::new(alloc)?;
    options.insert(first.0, first.1)?;
    if options.mark_of(second.0).is_some() {
        return Err("two transactions".into());
    }
    options.insert(second.0, second.1)?;
    Ok(options)
}

// Another insert of key a, by another transaction.
fn other_insert() -> Choice {
    choice(2, 0, Update::Write(item(20), BoundedList::new()))
}

// The votes of a centre to which the first insert came first.
fn first_won(alloc: Global) -> Result<Options, Fail> {
    two(
        alloc,
        (tx(1), Mark::Accept(insert())),
        (tx(2), Mark::Reject),
    )
}

// The votes of a centre to which the second came first.
fn second_won(alloc: Global) -> Result<Options, Fail> {
    two(
        alloc,
        (tx(1), Mark::Reject),
        (tx(2), Mark::Accept(other_insert())),
    )
}

// Whether a mark accepts.
fn is_accepted(options: &Options, tx: TxId) -> Option<bool> {
    options
        .mark_of(tx)
        .map(|mark| matches!(mark, Mark::Accept(_)))
}

// A centre of the cluster promises.
fn promised<S: FactStore>(
    leader: &mut Leader,
    store: &S,
    cluster: &Cluster,
    number: u8,
    promise: &Promise,
) -> Result<PromiseAnswer, Fail> {
    let from = centre(number);
    if from.number() > cluster.quorums.centres() {
        return Err("a centre of the cluster".into());
    }
    Ok(leader.on_promise(store, cluster, from, promise)?)
}

// Whether a promise is not enough yet, after so many.
fn is_waiting(answer: &PromiseAnswer, count: u8) -> bool {
    match answer {
        PromiseAnswer::Waiting(found) => *found == count,
        _ => false,
    }
}

// Whether the first transaction and the second are in a structure, the first accepted or not, and
// the second the other way.
fn are_marked(options: &Options, first: bool) -> bool {
    is_accepted(options, tx(1)) == Some(first) && is_accepted(options, tx(2)) == Some(!first)
}

// The structure that is sent once a centre promises.
fn structure<S: FactStore>(
    leader: &mut Leader,
    store: &S,
    cluster: &Cluster,
    number: u8,
    promise: &Promise,
) -> Result<Options, Fail> {
    match promised(leader, store, cluster, number, promise)? {
        PromiseAnswer::Accept {
            version: _,
            ballot: _,
            options,
        } => Ok(options),
        _ => Err("a structure is sent".into()),
    }
}

// A leader that asked for promises on a version, for a claim of it.
fn asking<S: FactStore>(
    rt: &impl Abort,
    alloc: Global,
    store: &S,
    cluster: &Cluster,
    claim: &Claim,
) -> Result<Leader, Fail> {
    let mut leader = leader(alloc)?;
    match leader.lead(store, cluster, claim)? {
        LeadAnswer::Prepare {
            version,
            through,
            ballot,
        } => {
            assert!(rt; version == claim.version && ballot == LED);
            assert!(rt; through == claim.version.saturating_add(100));
            Ok(leader)
        }
        _ => Err("promises are asked for".into()),
    }
}

// Two of the first three centres voted the first insert: it is kept, and the other rejected.
#[test]
fn the_first_three_force_the_first_insert(rt: HostRuntime) -> Result<(), Fail> {
    the_first_three_force_the_first_insert_over(&rt, rt.alloc(), no_facts(rt.alloc())?)
}

fn the_first_three_force_the_first_insert_over<S: FactStore + Drop>(
    rt: &impl Abort,
    alloc: Global,
    store: S,
) -> Result<(), Fail> {
    let cluster = cluster()?;
    let mut leader = asking(rt, alloc, &store, &cluster, &claim_of(&other_insert()))?;
    let first = promise(0, 100, first_won(alloc)?);
    let answer = promised(&mut leader, &store, &cluster, 1, &first)?;
    assert!(rt; is_waiting(&answer, 1));
    let answer = promised(&mut leader, &store, &cluster, 1, &first)?;
    assert!(rt; matches!(answer, PromiseAnswer::Ignored));
    let answer = promised(&mut leader, &store, &cluster, 2, &first)?;
    assert!(rt; is_waiting(&answer, 2));
    force_the_first(rt, alloc, &mut leader, &store, &cluster)
}

// The third centre promises, and after the structure the fourth.
fn force_the_first<S: FactStore>(
    rt: &impl Abort,
    alloc: Global,
    leader: &mut Leader,
    store: &S,
    cluster: &Cluster,
) -> Result<(), Fail> {
    let second = promise(0, 100, second_won(alloc)?);
    let options = structure(leader, store, cluster, 3, &second)?;
    assert!(rt; options.len() == 2 && are_marked(&options, true));
    let answer = promised(leader, store, cluster, 4, &second)?;
    assert!(rt; matches!(answer, PromiseAnswer::Counted));
    Ok(())
}

// An add of this amount to version 1.
fn add_of(seq: u32, amount: i64) -> Choice {
    let amounts = BoundedList::from_slice(&[(1, amount)]).unwrap_or_default();
    choice(seq, 1, Update::Add(amounts))
}

// The votes of a centre that accepts two of the decreases.
fn accepting(alloc: Global, first: u32, second: u32, amount: i64) -> Result<Options, Fail> {
    two(
        alloc,
        (tx(first), Mark::Accept(add_of(first, amount))),
        (tx(second), Mark::Accept(add_of(second, amount))),
    )
}

// Each of three centres promises and has two of three decreases: the answer is to the third.
fn third<S: FactStore>(
    alloc: Global,
    leader: &mut Leader,
    store: &S,
    cluster: &Cluster,
    amount: i64,
) -> Result<PromiseAnswer, Fail> {
    let first = promise(1, 101, accepting(alloc, 2, 3, amount)?);
    let _waiting = promised(leader, store, cluster, 1, &first)?;
    let second = promise(1, 101, accepting(alloc, 2, 4, amount)?);
    let _waiting = promised(leader, store, cluster, 2, &second)?;
    let last = promise(1, 101, accepting(alloc, 3, 4, amount)?);
    promised(leader, store, cluster, 3, &last)
}

// Whether so many marks of the structure that is sent accept, and none rejects.
fn all_accept(answer: &PromiseAnswer, count: usize) -> bool {
    match answer {
        PromiseAnswer::Accept {
            version: _,
            ballot: _,
            options,
        } => options.accepted() == count && options.rejected() == 0,
        _ => false,
    }
}

// Three decreases of 3 from 10, of which each of three centres accepted two: all are kept.
#[test]
fn joint_decreases_are_all_kept(rt: HostRuntime) -> Result<(), Fail> {
    joint_decreases_are_all_kept_over(&rt, rt.alloc(), no_facts(rt.alloc())?)
}

fn joint_decreases_are_all_kept_over<S: FactStore + Drop>(
    rt: &impl Abort,
    alloc: Global,
    store: S,
) -> Result<(), Fail> {
    let cluster = cluster()?;
    let store = holding(alloc, store, vec![in alloc; insert()]?)?;
    let mut leader = asking(rt, alloc, &store, &cluster, &claim_of(&add_of(2, -3)))?;
    let answer = third(alloc, &mut leader, &store, &cluster, -3)?;
    assert!(rt; all_accept(&answer, 3));
    Ok(())
}

// Whether the first two of three decreases are kept.
fn are_first_two(options: &Options) -> bool {
    is_accepted(options, tx(2)) == Some(true)
        && is_accepted(options, tx(3)) == Some(true)
        && is_accepted(options, tx(4)) == Some(false)
}

// Under the wider limit three decreases of 4 from 10 do not fit together, so that the leader waits
// for a fourth promise. Of the four no decrease has three votes, and the last in order is rejected.
#[test]
fn promises_that_do_not_fit_are_not_enough(rt: HostRuntime) -> Result<(), Fail> {
    promises_that_do_not_fit_are_not_enough_over(&rt, rt.alloc(), no_facts(rt.alloc())?)
}

fn promises_that_do_not_fit_are_not_enough_over<S: FactStore + Drop>(
    rt: &impl Abort,
    alloc: Global,
    store: S,
) -> Result<(), Fail> {
    let cluster = Cluster {
        limit: FastLimit::Paper,
        ..cluster()?
    };
    let store = holding(alloc, store, vec![in alloc; insert()]?)?;
    let mut leader = asking(rt, alloc, &store, &cluster, &claim_of(&add_of(2, -4)))?;
    let answer = third(alloc, &mut leader, &store, &cluster, -4)?;
    assert!(rt; is_waiting(&answer, 3));
    let fourth = promise(1, 101, Options::new(alloc)?);
    let options = structure(&mut leader, &store, &cluster, 4, &fourth)?;
    assert!(rt; are_first_two(&options));
    Ok(())
}

// What is executed counts beside the forced marks: three decreases of 3 from 10 fit together, but not
// where 4 was taken before.
#[test]
fn executed_deltas_count_beside_forced_marks(rt: HostRuntime) -> Result<(), Fail> {
    executed_deltas_count_beside_forced_marks_over(&rt, rt.alloc(), no_facts(rt.alloc())?)
}

fn executed_deltas_count_beside_forced_marks_over<S: FactStore + Drop>(
    rt: &impl Abort,
    alloc: Global,
    store: S,
) -> Result<(), Fail> {
    let cluster = Cluster {
        limit: FastLimit::Paper,
        ..cluster()?
    };
    let store = holding(alloc, store, vec![in alloc; insert(), decrease(5)]?)?;
    let mut leader = asking(rt, alloc, &store, &cluster, &claim_of(&add_of(2, -3)))?;
    let answer = third(alloc, &mut leader, &store, &cluster, -3)?;
    assert!(rt; is_waiting(&answer, 3));
    Ok(())
}

// A claim whose transaction was heard is left out, of the first structure and of one that stands.
#[test]
fn a_heard_claim_is_left_out(rt: HostRuntime) -> Result<(), Fail> {
    a_heard_claim_is_left_out_over(&rt, rt.alloc(), no_facts(rt.alloc())?)
}

fn a_heard_claim_is_left_out_over<S: FactStore + Drop>(
    rt: &impl Abort,
    alloc: Global,
    store: S,
) -> Result<(), Fail> {
    let cluster = single()?;
    let store = six(alloc, store)?;
    let mut leader = asking(rt, alloc, &store, &cluster, &claim_of(&decrease(2)))?;
    let none = Options::new(alloc)?;
    let options = structure(&mut leader, &store, &cluster, 1, &promise(1, 101, none))?;
    assert!(rt; options.is_empty());
    let answer = leader.lead(&store, &cluster, &claim_of(&decrease(2)))?;
    assert!(rt; matches!(answer, LeadAnswer::Left));
    let answer = leader.lead(&store, &cluster, &claim_of(&decrease(3)))?;
    assert!(rt; is_sent(&answer, 1));
    Ok(())
}

// A cluster of one centre.
fn single() -> Result<Cluster, Fail> {
    Ok(Cluster {
        quorums: Quorums::new(1, 1, 1)?,
        ..cluster()?
    })
}

// A claim whose choice nobody gave is rejected, and one that is forced keeps its choice.
#[test]
fn a_claim_without_a_choice_is_rejected(rt: HostRuntime) -> Result<(), Fail> {
    a_claim_without_a_choice_is_rejected_over(&rt, rt.alloc(), no_facts(rt.alloc())?)
}

fn a_claim_without_a_choice_is_rejected_over<S: FactStore + Drop>(
    rt: &impl Abort,
    alloc: Global,
    store: S,
) -> Result<(), Fail> {
    let cluster = single()?;
    let mut leader = asking(rt, alloc, &store, &cluster, &claim(tx(1), 0, None))?;
    let again = leader.lead(&store, &cluster, &claim(tx(2), 0, None))?;
    assert!(rt; matches!(again, LeadAnswer::Prepare { .. }));
    let mut votes = Options::new(alloc)?;
    votes.insert(tx(1), Mark::Accept(insert()))?;
    let options = structure(&mut leader, &store, &cluster, 1, &promise(0, 100, votes))?;
    assert!(rt; are_marked(&options, true));
    Ok(())
}

// A write of key a at this version.
fn write(seq: u32, version: u64) -> Choice {
    choice(seq, version, Update::Write(item(10), BoundedList::new()))
}

// The versions through the end of a range need no further promises; past it they are asked for
// again, in the next round.
#[test]
fn a_range_ends(rt: HostRuntime) -> Result<(), Fail> {
    a_range_ends_over(&rt, rt.alloc(), no_facts(rt.alloc())?)
}

fn a_range_ends_over<S: FactStore + Drop>(
    rt: &impl Abort,
    alloc: Global,
    store: S,
) -> Result<(), Fail> {
    let cluster = Cluster {
        gamma: 2,
        ..single()?
    };
    let written = vec![in alloc; insert(), write(2, 1), write(3, 2), write(4, 3)]?;
    let store = holding(alloc, store, written)?;
    let mut leader = leader(alloc)?;
    let asked = leader.lead(&store, &cluster, &claim(tx(5), 1, None))?;
    assert!(rt; is_asked(&asked, 1, 3));
    let none = Options::new(alloc)?;
    let _made = structure(&mut leader, &store, &cluster, 1, &promise(1, 3, none))?;
    lead_to_the_end(rt, &mut leader, &store, &cluster)
}

// Whether promises are asked for from this version through that one.
fn is_asked(answer: &LeadAnswer, low: u64, high: u64) -> bool {
    match answer {
        LeadAnswer::Prepare {
            version,
            through,
            ballot: _,
        } => *version == low && *through == high,
        _ => false,
    }
}

// Whether a structure is sent at this version at the first ballot.
fn is_sent(answer: &LeadAnswer, at: u64) -> bool {
    match answer {
        LeadAnswer::Accept {
            version,
            ballot,
            options: _,
        } => *version == at && *ballot == LED,
        _ => false,
    }
}

// The last version of the range, the one after it, and one that is not held.
fn lead_to_the_end<S: FactStore>(
    rt: &impl Abort,
    leader: &mut Leader,
    store: &S,
    cluster: &Cluster,
) -> Result<(), Fail> {
    let later = leader.lead(store, cluster, &claim(tx(6), 3, None))?;
    assert!(rt; is_sent(&later, 3));
    let past = leader.lead(store, cluster, &claim(tx(7), 4, None))?;
    assert!(rt; is_in_round(&past, 2));
    let ahead = leader.lead(store, cluster, &claim(tx(7), 5, None))?;
    assert!(rt; matches!(ahead, LeadAnswer::Behind));
    Ok(())
}

// Whether promises are asked for in this round.
fn is_in_round(answer: &LeadAnswer, round: u32) -> bool {
    match answer {
        LeadAnswer::Prepare {
            version: _,
            through: _,
            ballot,
        } => ballot.round == round,
        _ => false,
    }
}

// A refused lead is given up, and the next one is above the round that was promised.
#[test]
fn a_refused_lead_is_led_anew(rt: HostRuntime) -> Result<(), Fail> {
    a_refused_lead_is_led_anew_over(&rt, rt.alloc(), no_facts(rt.alloc())?)
}

fn a_refused_lead_is_led_anew_over<S: FactStore + Drop>(
    rt: &impl Abort,
    alloc: Global,
    store: S,
) -> Result<(), Fail> {
    let cluster = cluster()?;
    let mut leader = asking(rt, alloc, &store, &cluster, &claim_of(&insert()))?;
    let higher = Ballot {
        round: 7,
        epoch: 1,
        centre: 5,
    };
    leader.on_refused(&key(b'a'), LED, higher);
    let late = promise(0, 100, first_won(alloc)?);
    let answer = promised(&mut leader, &store, &cluster, 1, &late)?;
    assert!(rt; matches!(answer, PromiseAnswer::Ignored));
    let anew = leader.lead(&store, &cluster, &claim_of(&insert()))?;
    assert!(rt; is_in_round(&anew, 8));
    Ok(())
}

// The 16,385th rejection of a structure is left out.
#[test]
fn one_rejection_too_many_is_left_out(rt: HostRuntime) -> Result<(), Fail> {
    one_rejection_too_many_is_left_out_over(&rt, rt.alloc(), no_facts(rt.alloc())?)
}

fn one_rejection_too_many_is_left_out_over<S: FactStore + Drop>(
    rt: &impl Abort,
    alloc: Global,
    store: S,
) -> Result<(), Fail> {
    let cluster = single()?;
    let mut leader = asking(rt, alloc, &store, &cluster, &claim(tx(1), 0, None))?;
    let votes = rejections(alloc, 16_384)?;
    let options = structure(&mut leader, &store, &cluster, 1, &promise(0, 100, votes))?;
    assert!(rt; options.rejected() == 16_384);
    let answer = leader.lead(&store, &cluster, &claim(tx(16_385), 0, None))?;
    assert!(rt; matches!(answer, LeadAnswer::Left));
    let answer = leader.lead(&store, &cluster, &claim(tx(16_384), 0, None))?;
    assert!(rt; is_sent(&answer, 0));
    Ok(())
}

// The transactions 1.1.1 to 1.1.`count`, each rejected.
fn rejections(alloc: Global, count: u32) -> Result<Options, Fail> {
    let mut options = Options::new(alloc)?;
    for seq in 1..=count {
        let next = tx(seq);
        if options.mark_of(next).is_none() {
            options.insert(next, Mark::Reject)?;
        }
    }
    Ok(options)
}
