//! What the votes on a dangling transaction decide.
ghost use Rattle.std.specs.Prelude.{◌≡◌, ◌≤◌, List, length, map};
ghost use Rattle.mdcc_learner.specs.Represents.{RepresentsVotes};
ghost use Rattle.mdcc_def_protocol.specs.Learner.{decision_of, learned, with_counted_vote};
ghost use Rattle.mdcc_def_protocol.specs.declared.votes.Vote.{Vote as AVote};

use mdcc_base::{BoundedList, Key, Quorums};
use mdcc_def_protocol::Vote;
use mdcc_learner::{LearnedMarks, Learner, outcome_of_marks};
use mdcc_option::Outcome;

// The marks that are learned of a vote's transaction once the vote is taken.
fn marks_with(
    learner: &Learner,
    quorums: &Quorums,
    vote: &Vote,
    write_set: &[(Key, u64)],
) -> LearnedMarks
    requires { length write_set.now ≤ 8 }
    ensures { (votes : List AVote) → RepresentsVotes learner.now quorums.now votes
        → result ≡ map (learned quorums.now (with_counted_vote quorums.now votes vote.now) vote.now.tx) (map (λ e. e.0) write_set.now) }
{
    let mut marks = BoundedList::new();
    for entry in write_set {
        marks.push(learner.learned_with(quorums, vote, vote.tx, &entry.0));
    }
    marks
}

/// What the votes decide of a vote's transaction once the vote is taken.
pub(crate) fn decision_with(
    learner: &Learner,
    quorums: &Quorums,
    vote: &Vote,
    write_set: &[(Key, u64)],
) -> Option<Outcome>
    requires { length write_set.now ≤ 8 }
    ensures { (votes : List AVote) → RepresentsVotes learner.now quorums.now votes
        → result ≡ decision_of quorums.now (with_counted_vote quorums.now votes vote.now) vote.now.tx (map (λ e. e.0) write_set.now) }
{
    let marks = marks_with(learner, quorums, vote, write_set);
    outcome_of_marks(marks.as_slice())
}
