//! What the votes on one transaction and key decide.
ghost use Rattle.std.specs.Prelude.{◌≡◌, ◌+◌, ◌-◌, ◌≤◌, ◌++◌, length, filter, fold, nat_lt, not};
ghost use Rattle.std.specs.Option.{option_copied, option_map};
ghost use Rattle.mdcc_base.specs.Counts.{number_of};
ghost use Rattle.mdcc_learner.specs.Decided.{deciding_vote, mark_decided, lower_with, votes_backed, fast_votes, is_collision};
ghost use Rattle.mdcc_def_protocol.specs.Marks.{is_accept};

use crate::counting::{has_quorum, lower_vote};
use mdcc_base::{Ballot, Plain, Quorums};
use mdcc_def_protocol::Vote;
use mdcc_option::Mark;

// The lower of a vote and of one that there may be.
fn lower_with<'a>(lowest: Option<&'a Vote>, vote: &'a Vote) -> &'a Vote
    ensures { lower_with (option_copied lowest.entry) vote.now ≡ Some result.now }
{
    match lowest {
        Some(lowest) => lower_vote(lowest, vote),
        None => vote,
    }
}

// The lowest of one vote that there may be, and of those of some votes that a quorum of all votes is
// like.
fn lowest_backed<'a>(
    quorums: &Quorums,
    all: (&[Vote], &[Vote]),
    votes: &'a [Vote],
    lowest: Option<&'a Vote>,
) -> Option<&'a Vote>
    ensures { let everyone = all.entry.0.now ++ all.entry.1.now in
        option_copied result
        ≡ fold lower_with (option_copied lowest.entry) (votes_backed quorums.now everyone votes.now) }
{
    let mut lowest = lowest;
    for vote in votes {
        if has_quorum(quorums, all.0, all.1, vote) {
            lowest = Some(lower_with(lowest, vote));
        }
    }
    lowest
}

// The vote of the least ballot at which a quorum has its mark.
fn deciding_vote<'a>(quorums: &Quorums, votes: &'a [Vote], more: &'a [Vote]) -> Option<&'a Vote>
    ensures { option_copied result ≡ deciding_vote quorums.now (votes.now ++ more.now) }
{
    let lowest = lowest_backed(quorums, (votes, more), votes, None);
    lowest_backed(quorums, (votes, more), more, lowest)
}

/// The mark that the votes decide.
pub(crate) fn mark_decided<'a>(
    quorums: &Quorums,
    votes: &'a [Vote],
    more: &'a [Vote],
) -> Option<&'a Mark>
    ensures { option_copied result ≡ mark_decided quorums.now (votes.now ++ more.now) }
{
    match deciding_vote(quorums, votes, more) {
        Some(vote) => Some(&vote.mark),
        None => None,
    }
}

/// An equal mark, where there is one.
pub(crate) fn copy_of(mark: Option<&Mark>) -> Option<Mark>
    ensures { result ≡ option_copied mark.entry }
{
    match mark {
        Some(mark) => Some(mark.copy()),
        None => None,
    }
}

/// Whether the mark accepts, where there is one.
pub(crate) fn side_of(mark: Option<&Mark>) -> Option<bool>
    ensures { result ≡ option_map is_accept (option_copied mark.entry) }
{
    match mark {
        Some(mark) => Some(is_accept(mark)),
        None => None,
    }
}

// Whether the mark accepts.
fn is_accept(mark: &Mark) -> bool
    ensures { result ≡ is_accept mark.now }
{
    match mark {
        Mark::Accept(_) => true,
        Mark::Reject => false,
    }
}

// How many votes at the fast ballot accept, and how many reject.
fn fast_marks(votes: &[Vote]) -> (usize, usize)
    ensures accepts { result.0 ≡ number_of (λ vote. is_accept vote.mark) (fast_votes votes.now) }
    ensures rejects { result.1 ≡ number_of (λ vote. not (is_accept vote.mark)) (fast_votes votes.now) }
    ensures all { result.0 + result.1 ≡ length (fast_votes votes.now) }
    ensures bound { result.0 + result.1 ≤ length votes.now }
{
    let mut accepts = 0;
    let mut rejects = 0;
    for vote in votes {
        if vote.ballot.is(&Ballot::FAST) {
            if is_accept(&vote.mark) {
                accepts += 1;
            } else {
                rejects += 1;
            }
        }
    }
    (accepts, rejects)
}

// Whether the votes for a mark at the fast ballot and the silent centres are fewer than a fast
// quorum.
fn is_out_of_reach(quorums: &Quorums, voted: usize, marked: usize) -> bool
    requires { marked ≤ voted }
    ensures { result ≡ nat_lt (marked + (quorums.now.centres - voted)) quorums.now.fast }
{
    let silent = usize::from(quorums.centres()).saturating_sub(voted);
    marked + silent < usize::from(quorums.fast())
}

/// Whether the votes collide: they decide nothing, and neither mark can reach a fast quorum.
pub(crate) fn is_collision(quorums: &Quorums, votes: &[Vote]) -> bool
    ensures { result ≡ is_collision quorums.now votes.now }
{
    let (accepts, rejects) = fast_marks(votes);
    let voted = accepts + rejects;
    deciding_vote(quorums, votes, &[]).is_none()
        && is_out_of_reach(quorums, voted, accepts)
        && is_out_of_reach(quorums, voted, rejects)
}
