//! What an audit answers for an allowed ledger.
ghost use Rattle.mdcc_theorem_audit.specs.Ledgers.{AuditGivesOutcomes};

/// The logs of an allowed ledger, at any moment, are never refused: the audit lists the transactions
/// that their votes and outcomes name, and the verdict on each is the outcome that the ledger has at
/// that moment.
pub fn audits_give_outcomes()
    ensures { AuditGivesOutcomes }
{}
