//! Laws of the bytes of facts.
ghost use Rattle.mdcc_theorem_encoding.specs.Laws.{FactsAreReadBack, FactsReadAreWellFormed, FactsHaveOneSpelling, NoFactBeginsAnother};

/// What is written of a well-formed fact is read back as that fact.
pub fn facts_are_read_back()
    ensures { FactsAreReadBack }
{}

/// Only well-formed facts are read.
pub fn facts_read_are_well_formed()
    ensures { FactsReadAreWellFormed }
{}

/// Bytes that are read as a fact are its one spelling.
pub fn facts_have_one_spelling()
    ensures { FactsHaveOneSpelling }
{}

/// The spelling of a fact begins that of no other.
pub fn no_fact_begins_another()
    ensures { NoFactBeginsAnother }
{}
