//! What was heard of a transaction.
ghost use Rattle.mdcc_theorem_fact_folds.specs.Outcomes.{EndedByWalk, HeardAtFirst, HeardByWalk, HeardInChain, IsHeardByWalk, IsVoidByWalk};

/// The outcome of a transaction is the oldest one in the chain of its outcomes. Where each was heard at
/// most once it is the first that a walk meets.
pub fn heard()
    ensures chain { HeardInChain }
    ensures walk { HeardByWalk }
    ensures once { HeardAtFirst }
{}

/// So it is with whether it is a commit, and whether the transaction is void.
pub fn ended()
    ensures commit { EndedByWalk }
    ensures void { IsVoidByWalk }
{}

/// An outcome was heard where the chain has one.
pub fn is_heard()
    ensures { IsHeardByWalk }
{}
