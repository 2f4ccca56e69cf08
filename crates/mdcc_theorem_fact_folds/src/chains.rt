//! Chains, and where a fact is entered.
ghost use Rattle.mdcc_theorem_fact_folds.specs.Chains.{InstanceCoversDeltas, InstanceCoversVotes};
ghost use Rattle.mdcc_theorem_fact_folds.specs.IndexWalks.{InstanceIsWalked, OutcomesAreWalked, PromisesAreWalked};
ghost use Rattle.mdcc_theorem_fact_folds.specs.Entered.{AtMostEightInstances, FoundIsChain, InstanceIsFound, OutcomesAreFound, PromisesAreFound};

/// The chain of an instance has its votes, and the commits and adoptions that bring deltas there.
pub fn instance_covers()
    ensures votes { InstanceCoversVotes }
    ensures deltas { InstanceCoversDeltas }
{}

/// Where each fact is entered under every instance that it is of, a walk over the entries of one
/// instance finds each fact of its chain once, and so it is with promises and outcomes.
pub fn walks_find_chains()
    ensures instance { InstanceIsFound }
    ensures promises { PromisesAreFound }
    ensures outcomes { OutcomesAreFound }
    ensures facts { FoundIsChain }
{}

/// So does an index of `mdcc_cells_chains` that has these keys, with the indices of the facts in a list beside
/// it: its walk stops at each fact of the chain once.
pub fn index_walks()
    ensures instance { InstanceIsWalked }
    ensures promises { PromisesAreWalked }
    ensures outcomes { OutcomesAreWalked }
{}

/// A fact is of at most eight instances.
pub fn entered_eight_times()
    ensures { AtMostEightInstances }
{}
