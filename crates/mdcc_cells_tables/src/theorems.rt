//! What a reader of facts by their numbers answers from a table.
ghost use Rattle.mdcc_cells_tables.specs.UnresolvedNumbers.{AllUnresolvedAreRead, UnresolvedIsRead, WriteSetIsRead};

/// The unresolved transactions with their write sets are the entries of a table with the write sets
/// that the facts of their numbers have: one by its place, and all.
pub fn write_sets_are_read()
    ensures one { UnresolvedIsRead }
    ensures all { AllUnresolvedAreRead }
    ensures fact { WriteSetIsRead }
{}
