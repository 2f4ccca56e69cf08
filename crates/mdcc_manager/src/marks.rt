//! The marks that are learned of the options of an open transaction.
ghost use Rattle.std.specs.Prelude.{◌≡◌, ◌≤◌, List, length, map, option_map};
ghost use Rattle.mdcc_base.specs.Sizes.{Sizes};
ghost use Rattle.mdcc_learner.specs.Represents.{RepresentsVotes};
ghost use Rattle.mdcc_manager.specs.Sides.{are_deciding};
ghost use Rattle.mdcc_def_protocol.specs.Learner.{learned, learned_with};
ghost use Rattle.mdcc_def_protocol.specs.Marks.{is_accept};
ghost use Rattle.mdcc_def_protocol.specs.declared.votes.Vote.{Vote as AVote};

use crate::opened::OpenChoice;
use mdcc_base::{BoundedList, Quorums, TxId};
use mdcc_def_protocol::Vote;
use mdcc_learner::{LearnedMarks, Learner};

/// For each option of a transaction whether the mark that is learned accepts, where one is.
pub(crate) type Sides = BoundedList<Option<bool>, 8>;

/// The marks that are learned of a transaction.
pub(crate) fn marks_learned(learner: &Learner, tx: TxId, choices: &[OpenChoice]) -> LearnedMarks
    requires { length choices.now ≤ 8 }
    ensures { (quorums : Sizes) (votes : List AVote) → RepresentsVotes learner.now quorums votes
        → result ≡ map (λ entry. learned quorums votes tx entry.choice.key) choices.now }
{
    let mut marks = BoundedList::new();
    for open in choices {
        marks.push(learner.learned(tx, &open.choice.key));
    }
    marks
}

/// The marks that would be learned of a transaction once a vote is taken.
pub(crate) fn marks_with(
    learner: &Learner,
    quorums: &Quorums,
    vote: &Vote,
    tx: TxId,
    choices: &[OpenChoice],
) -> LearnedMarks
    requires { length choices.now ≤ 8 }
    ensures { (votes : List AVote) → RepresentsVotes learner.now quorums.now votes
        → result ≡ map (λ entry. learned_with quorums.now votes vote.now tx entry.choice.key) choices.now }
{
    let mut marks = BoundedList::new();
    for open in choices {
        marks.push(learner.learned_with(quorums, vote, tx, &open.choice.key));
    }
    marks
}

/// The sides that are learned of a transaction.
pub(crate) fn sides_learned(learner: &Learner, tx: TxId, choices: &[OpenChoice]) -> Sides
    requires { length choices.now ≤ 8 }
    ensures { (quorums : Sizes) (votes : List AVote) → RepresentsVotes learner.now quorums votes
        → result ≡ map (λ entry. option_map is_accept (learned quorums votes tx entry.choice.key)) choices.now }
{
    let mut sides = BoundedList::new();
    for open in choices {
        sides.push(learner.side(tx, &open.choice.key));
    }
    sides
}

/// The sides that would be learned of a transaction once a vote is taken.
pub(crate) fn sides_with(
    learner: &Learner,
    quorums: &Quorums,
    vote: &Vote,
    tx: TxId,
    choices: &[OpenChoice],
) -> Sides
    requires { length choices.now ≤ 8 }
    ensures { (votes : List AVote) → RepresentsVotes learner.now quorums.now votes
        → result ≡ map (λ entry. option_map is_accept (learned_with quorums.now votes vote.now tx entry.choice.key)) choices.now }
{
    let mut sides = BoundedList::new();
    for open in choices {
        sides.push(learner.side_with(quorums, vote, tx, &open.choice.key));
    }
    sides
}

/// Whether these sides decide: one rejects, or each is learned.
pub(crate) fn are_deciding(sides: &[Option<bool>]) -> bool
    ensures { result ≡ are_deciding sides.now }
{
    let mut is_open = false;
    for side in sides {
        match side {
            Some(accepts) => {
                if !*accepts {
                    return true;
                }
            }
            None => is_open = true,
        }
    }
    !is_open
}
