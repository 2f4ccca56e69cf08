//! Outcomes that were heard in an allowed ledger.
ghost use Rattle.mdcc_theorem_audit.specs.Ledgers.{OutcomesAgree};

/// In the logs of an allowed ledger, at any moment, no two facts give one transaction different
/// outcomes.
pub fn outcomes_never_contradict()
    ensures { OutcomesAgree }
{}
