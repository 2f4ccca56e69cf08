//! Choices that facts of an allowed ledger name.
ghost use Rattle.mdcc_theorem_audit.specs.Ledgers.{ChoicesAgree};

/// In the logs of an allowed ledger, at any moment, no two facts have different choices of one
/// transaction for one key, or different write sets of it.
pub fn choices_never_contradict()
    ensures { ChoicesAgree }
{}
