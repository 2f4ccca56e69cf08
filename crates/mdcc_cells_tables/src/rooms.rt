//! How much room a table needs.
ghost use Rattle.mdcc_cells_tables.specs.InCells.{KeysInCells, TransactionsInCells};

/// A well-formed fact brings at most two entries to either table for each cell in which it lies, so
/// a table with room for two entries a cell has room for those of all facts.
pub fn entries_in_cells()
    ensures keys { KeysInCells }
    ensures transactions { TransactionsInCells }
{}
