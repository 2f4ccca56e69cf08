//! Which facts can be written.
ghost use Rattle.mdcc_def_messages.specs.declared.facts.Fact.{Fact};
ghost use Rattle.mdcc_def_messages.specs.WellFormed.{IsWellFormedFact};
ghost use Rattle.mdcc_journal.specs.Counts.{HasCounts};

/// The lists of a well-formed fact are no longer than their counts can say.
pub fn well_formed_facts_have_counts()
    ensures { (fact : Fact) → IsWellFormedFact fact → HasCounts fact }
{}
