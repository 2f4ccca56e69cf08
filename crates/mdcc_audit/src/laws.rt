//! Theorems about the definitions of an audit.
ghost use Rattle.mdcc_audit.specs.Contradictions.{FindsContradictions, FindsFirst, LogsAreInOrder};

/// Of outcomes, marks and choices a pair is found if and only if two facts, or one with itself, say
/// different things of one subject.
pub fn pairs_are_contradictions()
    ensures { FindsContradictions }
{}

/// Of facts in order of their places, the pair that is found is the first of all pairs of facts that
/// say different things of one subject.
pub fn pairs_are_first()
    ensures { FindsFirst }
{}

/// The facts of whole logs are in order of their places.
pub fn logs_are_in_order()
    ensures { LogsAreInOrder }
{}
