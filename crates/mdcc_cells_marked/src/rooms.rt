//! How much room the marks of facts need.
ghost use Rattle.mdcc_cells_marked.specs.Marks.{MarksInCells};

/// A fact has at most six marks for each cell in which it lies, since one has at least ten bytes.
pub fn marks_in_cells()
    ensures { MarksInCells }
{}
