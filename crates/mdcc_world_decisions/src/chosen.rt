//! What the votes on one transaction choose.
ghost use Rattle.std.specs.Option.{option_copied};
ghost use Rattle.std.specs.Prelude.{◌≡◌, ◌≤◌};
ghost use Rattle.mdcc_base.specs.Counts.{number_of};
ghost use Rattle.mdcc_base.specs.Quorums.{quorum_size};
ghost use Rattle.mdcc_option.specs.Equality.{mark_eq};
ghost use Rattle.mdcc_world_decisions.specs.Casts.{chosen_cast, chosen_cast_at, mark_cast, marks_of_centres};

use crate::casts::{Cast, mark_cast};
use mdcc_base::{Ballot, Key, Plain, Quorums};
use mdcc_option::Mark;

// How many centres are a quorum at a ballot.
fn quorum_size(quorums: &Quorums, ballot: &Ballot) -> usize
    ensures { result ≡ quorum_size quorums.now ballot.now }
{
    if ballot.is(&Ballot::FAST) {
        usize::from(quorums.fast())
    } else {
        usize::from(quorums.classic())
    }
}

#[tactic(auto, using(crate::proofs::Ranges::range_first))]
// How many centres give this mark in an instance at a ballot.
fn number_giving(
    quorums: &Quorums,
    casts: &[Cast],
    key: &Key,
    version: u64,
    ballot: &Ballot,
    mark: &Mark,
) -> usize
    ensures value { result ≡ number_of (mark_eq mark.now) (marks_of_centres quorums.now (mark_cast casts.now key.now version ballot.now)) }
    ensures bound { result ≤ quorums.now.centres }
{
    let mut count = 0;
    for centre in 1..quorums.centres() + 1 {
        if let Some(other) = mark_cast(casts, key, version, ballot, centre) {
            if mark.is(other) {
                count += 1;
            }
        }
    }
    count
}

#[tactic(auto, using(crate::proofs::Ranges::range_first))]
// The mark that is chosen in an instance at a ballot.
fn chosen_cast_at<'a>(
    quorums: &Quorums,
    casts: &'a [Cast],
    key: &Key,
    version: u64,
    ballot: &Ballot,
) -> Option<&'a Mark>
    ensures { option_copied result ≡ chosen_cast_at quorums.now casts.now key.now version ballot.now }
{
    let least = quorum_size(quorums, ballot);
    for centre in 1..quorums.centres() + 1 {
        if let Some(mark) = mark_cast(casts, key, version, ballot, centre) {
            if least <= number_giving(quorums, casts, key, version, ballot, mark) {
                return Some(mark);
            }
        }
    }
    None
}

/// The mark that is chosen in an instance at the last of these ballots where one is.
pub(crate) fn chosen_cast<'a>(
    quorums: &Quorums,
    casts: &'a [Cast],
    key: &Key,
    version: u64,
    ballots: &[Ballot],
) -> Option<&'a Mark>
    ensures { option_copied result ≡ chosen_cast quorums.now casts.now key.now version ballots.now }
{
    let mut found = None;
    for ballot in ballots {
        found = chosen_cast_at(quorums, casts, key, version, ballot).or(found);
    }
    found
}
