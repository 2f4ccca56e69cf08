//! The votes of an instance.
ghost use Rattle.mdcc_theorem_fact_folds.specs.Votes.{ChoiceByWalk, ChoiceInChain, IsVotedByWalk, MarkAfterByWalks, MarkAfterInChain};
ghost use Rattle.mdcc_theorem_fact_folds.specs.Votes.{MarkBelowBySteps, MarkBelowInChain, MarkByWalk, VoteByWalk, VoteInChain};
ghost use Rattle.mdcc_theorem_fact_folds.specs.Votes.{VotedBelowByWalk, VotedBelowInChain, VotesByJoin, VotesByWalk, VotesInChain};

/// The vote on a transaction is the one at the greatest ballot in the chain of the instance's votes.
pub fn vote_of()
    ensures chain { VoteInChain }
    ensures walk { VoteByWalk }
{}

/// The greatest ballot below another one stands in that chain.
pub fn voted_below()
    ensures chain { VotedBelowInChain }
    ensures walk { VotedBelowByWalk }
{}

/// The marks at a ballot are those of the chain, where an older mark counts before a later one. Where
/// no mark was voted twice at its ballot, they may be joined in any order.
pub fn votes()
    ensures chain { VotesInChain }
    ensures walk { VotesByWalk }
    ensures once { VotesByJoin }
{}

/// The mark of one transaction at a ballot, and whether it has one.
pub fn mark()
    ensures walk { MarkByWalk }
    ensures voted { IsVotedByWalk }
{}

/// The marks of a report one by one come from the chain, but not in one walk of it: the ballot is
/// known at the end of a walk, and the order of transactions is not that of the chain. A mark by its
/// place is found by going over those before it.
pub fn marks()
    ensures after { MarkAfterInChain }
    ensures walks { MarkAfterByWalks }
    ensures place { MarkBelowInChain }
    ensures steps { MarkBelowBySteps }
{}

/// The choice of a transaction is the oldest one in the chain.
pub fn choice_of()
    ensures chain { ChoiceInChain }
    ensures walk { ChoiceByWalk }
{}
