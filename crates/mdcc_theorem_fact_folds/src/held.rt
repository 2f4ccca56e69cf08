//! What is held at a key.
ghost use Rattle.mdcc_theorem_fact_folds.specs.Held.{CrowdingByChains, CrowdingBySteps, DeltaByWalk, DeltasByWalk, DeltasCounted, DeltasInChain, ExecutedByJoin, ExecutedInChain, FirstDeltasOfOrdered};
ghost use Rattle.mdcc_theorem_fact_folds.specs.Held.{HeldElsewhere, HeldInChain, HeldUpdates, NextDeltasCounted};

/// The version that is held and its base stand as two values at the key: the fact that raises the
/// version brings the base.
pub fn held()
    ensures updates { HeldUpdates }
    ensures elsewhere { HeldElsewhere }
    ensures chain { HeldInChain }
{}

/// The deltas of a version come from the chain of its instance, where an older delta counts before a
/// later one.
pub fn deltas()
    ensures chain { DeltasInChain }
    ensures walk { DeltasByWalk }
    ensures counted { DeltasCounted }
{}

/// The executed deltas come from the chain of the version that is held. Their transactions may be
/// joined in any order.
pub fn executed()
    ensures chain { ExecutedInChain }
    ensures txs { ExecutedByJoin }
    ensures delta { DeltaByWalk }
{}

/// Whether a fact crowds a key is seen from the chain of the version that is held with it: it has the
/// deltas that were there, and those of the fact that are new.
pub fn would_crowd()
    ensures chains { CrowdingByChains }
    ensures counted { NextDeltasCounted }
    ensures ordered { FirstDeltasOfOrdered }
    ensures steps { CrowdingBySteps }
{}
