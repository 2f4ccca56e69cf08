//! The logs on the disks of a world.
ghost use Rattle.mdcc_theorem_audit_traces.specs.Disks.{DisksAreAudited};

/// Where the disks of a world have the facts of its ledger, which is an allowed one, the log of each
/// centre is read from them; the audit of these logs does not refuse them, and its verdicts are the
/// outcomes that the ledger has.
pub fn disks_are_audited()
    ensures { DisksAreAudited }
{}
