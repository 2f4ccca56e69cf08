//! The logs of the centres of a trace.
ghost use Rattle.mdcc_theorem_audit_traces.specs.Traces.{TraceDisksAreAudited, TracesAreAudited};

/// For every cluster, every list of events and every moment of its trace: the logs of the centres, as
/// they are just then, are not refused, and the verdicts are the outcomes that the ledger has just then.
pub fn traces_are_audited()
    ensures { TracesAreAudited }
{}

/// So it is of the logs that are read, after each list of events, from disks that have the facts of the
/// ledger.
pub fn disks_of_traces_are_audited()
    ensures { TraceDisksAreAudited }
{}
