//! What a node's step has to do with the protocol's.
ghost use Rattle.mdcc_node.specs.Laws.{StepsWithinCells};

/// A node over a store that has the cells of the cluster does the protocol's step.
#[tactic(auto, using(crate::proofs::Cells::counted_steps))]
pub fn steps_within_cells()
    ensures { StepsWithinCells }
{}
