//! What a walk over a chain of facts knows at its end by these steps.
ghost use Rattle.mdcc_cells_delta_walk.specs.Chains.{EncodingsAreFound};
ghost use Rattle.mdcc_cells_delta_walk.specs.Steps.{AmountsAreFolded, CrowdedByDeltas, ExecutedAreNoted};

/// The transactions of the executed deltas, where they are at most 64; and whether there are more.
pub fn executed_are_noted()
    ensures crowded { CrowdedByDeltas }
    ensures seen { ExecutedAreNoted }
{}

/// The amounts of a transaction's delta, by the facts of the chain.
pub fn steps_are_folded()
    ensures amounts { AmountsAreFolded }
{}

/// A walk comes by the facts whose numbers are found under its instance.
pub fn encodings_are_found()
    ensures { EncodingsAreFound }
{}
