//! What a store may rely on of its facts.
ghost use Rattle.mdcc_theorem_fact_folds.specs.Added.{FactsStayAdded, NoFactsAreAdded};

/// Facts that were added one after the other, each where it might be, say nothing twice, the
/// entries of each stand in order, and none sets a floor.
pub fn added()
    ensures none { NoFactsAreAdded }
    ensures more { FactsStayAdded }
{}
