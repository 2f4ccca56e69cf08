//! Promises and epochs.
ghost use Rattle.mdcc_theorem_fact_folds.specs.Promises.{EpochUpdates, PromiseByWalks, PromisedByWalk, PromisedInChain};

/// The promise of an instance is the greatest ballot in the chain of its key's promises and in that of
/// its votes.
pub fn promise()
    ensures { PromiseByWalks }
{}

/// The end of a promise is the oldest one in the chain of the key's promises.
pub fn promised()
    ensures chain { PromisedInChain }
    ensures walk { PromisedByWalk }
{}

/// The epoch is a number that each boot sets.
pub fn epoch()
    ensures { EpochUpdates }
{}
