//! How much room the instances of facts need.
ghost use Rattle.mdcc_cells_indices.specs.InCells.{InstancesInCells};

/// A well-formed fact is of at most two instances for each cell in which it lies.
pub fn instances_in_cells()
    ensures { InstancesInCells }
{}
