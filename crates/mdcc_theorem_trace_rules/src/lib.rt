//! Laws of allowed ledgers on which traces rest; and in proofs/, that each rule of a node which makes no structure keeps
//! what holds of every world of a trace.
#![tactic(auto)]

ghost use Rattle.mdcc_theorem_trace_rules.specs.Laws.{ReportsLast, StructuresAreChains, VersionsEnd};

/// What a centre reports below a ballot that it has promised stays so, and so does the promise.
pub fn reports_last()
    ensures { ReportsLast }
{}

/// The structures of one ballot on one instance stand in a chain.
pub fn structures_are_chains()
    ensures { StructuresAreChains }
{}

/// Versions end at 2^64 - 1.
pub fn versions_end()
    ensures { VersionsEnd }
{}
