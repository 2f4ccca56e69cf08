//! What a leader is told of an instance, and what that forces.
ghost use Rattle.std.specs.Prelude.{◌≡◌, ◌≤◌, IfOk, length};
ghost use Rattle.std.specs.Option.{option_copied};
ghost use Rattle.mdcc_base.specs.Quorums.{threshold};
ghost use Rattle.mdcc_struct.specs.Forced.{reports_with, marks_reported, marks_reported_at, ballot_reported, mark_with, marks_with, forced_of};

use crate::Options;
use crate::options::is_mark;
use mdcc_base::{Ballot, Centre, Memory, Quorums, TxId};
use mdcc_option::Mark;
use std::alloc::Global;

/// What one centre promised to a leader: the greatest ballot at which it voted in the instance, and
/// its votes there.
#[derive(Debug, Drop)]
pub struct Report {
    pub centre: Centre,
    pub ballot: Ballot,
    pub votes: Options,
}

/// The marks that reports of a quorum force on a leader: at the fast ballot those that enough of
/// them have, and at a classic ballot all that were voted at the greatest one.
pub fn forced(alloc: Global, quorums: &Quorums, reports: &[Report]) -> Result<Options, Memory>
    requires { length reports.now ≤ quorums.now.centres }
    ensures { IfOk result (λ o. o ≡ forced_of quorums.now reports.now) }
{
    let ballot = ballot_reported(reports);
    if ballot.is(&Ballot::FAST) {
        marks_with(alloc, reports, least_of(quorums, reports))
    } else {
        marks_reported_at(alloc, reports, &ballot)
    }
}

// How many of the reports show that a fast quorum may have voted alike.
fn least_of(quorums: &Quorums, reports: &[Report]) -> usize
    requires { length reports.now ≤ quorums.now.centres }
    ensures { result ≡ threshold quorums.now (length reports.now) }
{
    let centres = usize::from(quorums.centres());
    usize::from(quorums.threshold(reports.len().min(centres) as u8))
}

// The greatest ballot reported.
fn ballot_reported(reports: &[Report]) -> Ballot
    ensures { result ≡ ballot_reported reports.now }
{
    let mut ballot = Ballot::FAST;
    for report in reports {
        if ballot.is_below(&report.ballot) {
            ballot = report.ballot;
        }
    }
    ballot
}

// The marks of all reports.
fn marks_reported(alloc: Global, reports: &[Report]) -> Result<Options, Memory>
    ensures { IfOk result (λ o. o ≡ marks_reported reports.now) }
{
    let mut all = Options::new(alloc)?;
    for report in reports {
        all = all.union(alloc, &report.votes)?;
    }
    Ok(all)
}

// The marks of the reports of one ballot.
fn marks_reported_at(alloc: Global, reports: &[Report], ballot: &Ballot) -> Result<Options, Memory>
    ensures { IfOk result (λ o. o ≡ marks_reported_at reports.now ballot.now) }
{
    let mut all = Options::new(alloc)?;
    for report in reports {
        if report.ballot.is(ballot) {
            all = all.union(alloc, &report.votes)?;
        }
    }
    Ok(all)
}

// How many of the reports have this mark for the transaction.
fn reports_with(reports: &[Report], tx: &TxId, mark: &Mark) -> usize
    ensures { result ≡ reports_with reports.now tx.now mark.now }
{
    let mut count = 0;
    for report in reports {
        if is_mark(mark, report.votes.mark_of(*tx)) {
            count += 1;
        }
    }
    count
}

// The first mark of a transaction that at least so many of the reports have.
fn mark_with<'a>(reports: &'a [Report], least: usize, tx: &TxId) -> Option<&'a Mark>
    ensures { option_copied result ≡ mark_with reports.now least tx.now }
{
    for report in reports {
        if let Some(mark) = report.votes.mark_of(*tx) {
            if reports_with(reports, tx, mark) >= least {
                return Some(mark);
            }
        }
    }
    None
}

// The marks that at least so many of the reports have.
fn marks_with(alloc: Global, reports: &[Report], least: usize) -> Result<Options, Memory>
    ensures { IfOk result (λ o. o ≡ marks_with reports.now least) }
{
    let all = marks_reported(alloc, reports)?;
    let mut enough = Options::new(alloc)?;
    for i in 0..all.len() {
        let (tx, _) = all.at(i);
        if let Some(mark) = mark_with(reports, least, &tx) {
            enough.push_copy(tx, mark)?;
        }
    }
    Ok(enough)
}
