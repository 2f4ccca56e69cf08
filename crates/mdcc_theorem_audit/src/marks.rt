//! Marks that were voted at a classic ballot in an allowed ledger.
ghost use Rattle.mdcc_theorem_audit.specs.Ledgers.{MarksAgree};

/// In the logs of an allowed ledger, at any moment, no two votes in one instance at one classic
/// ballot have different marks of a transaction.
pub fn marks_never_contradict()
    ensures { MarksAgree }
{}
