//! Which votes count, and how many are alike.
ghost use Rattle.std.specs.Prelude.{◌≡◌, ◌≤◌, ◌++◌, length};
ghost use Rattle.std.specs.List.{list_any};
ghost use Rattle.mdcc_base.specs.Counts.{number_of};
ghost use Rattle.mdcc_base.specs.Quorums.{quorum_size};
ghost use Rattle.mdcc_learner.specs.Decided.{is_alike};
ghost use Rattle.mdcc_def_protocol.specs.Learner.{is_barred_by, is_counted, has_quorum, lower_vote};

use mdcc_base::{Ballot, Quorums};
use mdcc_def_protocol::Vote;

// Whether a counted vote bars a further one on its transaction and key: it has another version, or
// the same ballot and centre.
fn is_barred_by(vote: &Vote, other: &Vote) -> bool
    ensures { result ≡ is_barred_by vote.now other.now }
{
    other.tx.is(&vote.tx)
        && other.key.is(&vote.key)
        && (other.version != vote.version
            || (other.ballot.is(&vote.ballot) && other.from == vote.from))
}

// Whether one of these votes bars a further one.
fn is_barred(vote: &Vote, votes: &[Vote]) -> bool
    ensures { result ≡ list_any (is_barred_by vote.now) votes.now }
{
    votes.iter().any(|other| is_barred_by(vote, other))
}

/// Whether a vote counts behind these.
pub(crate) fn is_counted(quorums: &Quorums, votes: &[Vote], vote: &Vote) -> bool
    ensures { result ≡ is_counted quorums.now votes.now vote.now }
{
    vote.from.number() <= quorums.centres() && !is_barred(vote, votes)
}

// How many centres are a quorum at a ballot.
fn quorum_size(quorums: &Quorums, ballot: &Ballot) -> usize
    ensures { result ≡ quorum_size quorums.now ballot.now }
{
    if ballot.is(&Ballot::FAST) {
        usize::from(quorums.fast())
    } else {
        usize::from(quorums.classic())
    }
}

// Whether two votes are alike: of one ballot, with one mark.
fn is_alike(vote: &Vote, other: &Vote) -> bool
    ensures { result ≡ is_alike vote.now other.now }
{
    other.ballot.is(&vote.ballot) && other.mark.is(&vote.mark)
}

// How many of the votes are like this one.
fn number_alike(votes: &[Vote], vote: &Vote) -> usize
    ensures value { result ≡ number_of (is_alike vote.now) votes.now }
    ensures bound { result ≤ length votes.now }
{
    let mut count = 0;
    for other in votes {
        if is_alike(vote, other) {
            count += 1;
        }
    }
    count
}

/// Whether a quorum of the votes, with those behind them, is like this one.
pub(crate) fn has_quorum(quorums: &Quorums, votes: &[Vote], more: &[Vote], vote: &Vote) -> bool
    ensures { result ≡ has_quorum quorums.now (votes.now ++ more.now) vote.now }
{
    let least = quorum_size(quorums, &vote.ballot);
    if votes.len() + more.len() < least {
        return false;
    }
    least <= number_alike(votes, vote) + number_alike(more, vote)
}

/// The vote of the lower ballot, the first where they have one ballot.
pub(crate) fn lower_vote<'a>(a: &'a Vote, b: &'a Vote) -> &'a Vote
    ensures { result.now ≡ lower_vote a.now b.now }
{
    if b.ballot.is_below(&a.ballot) { b } else { a }
}
