//! What is kept of all facts of a walk, from the newest to the oldest.
ghost use Rattle.mdcc_cells_vote_walk.specs.Steps.{BallotIsWalked, ChoiceIsWalked, CountIsWalked, LeastIsWalked, MarkIsWalked, VoteIsWalked};

/// Steps at all facts of a walk keep the fold over them.
pub fn steps_are_folds()
    ensures ballot { BallotIsWalked }
    ensures vote { VoteIsWalked }
    ensures mark { MarkIsWalked }
    ensures choice { ChoiceIsWalked }
    ensures least { LeastIsWalked }
    ensures count { CountIsWalked }
{}
