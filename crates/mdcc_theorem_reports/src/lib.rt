//! Laws of runs, whatever the rules: where the lines of a report come from and in which order, how a run goes on, and that a replay
//! is a run.
#![tactic(auto)]

ghost use Rattle.mdcc_theorem_reports.specs.Growth.{FirstAreTaken, RunsGoOn, RunsGrow};
ghost use Rattle.mdcc_theorem_reports.specs.Order.{OutcomesInOrder};
ghost use Rattle.mdcc_theorem_reports.specs.Origins.{LinesHaveOrigins, LinesInTurn};
ghost use Rattle.mdcc_theorem_reports.specs.Replays.{HeadersAreOfClusters, ReplaysAreRuns};

/// Each line on an outcome is told where the outcome came or was heard, and each read where it was made, one after the other.
pub fn lines_have_origins()
    ensures each { LinesHaveOrigins }
    ensures in_turn { LinesInTurn }
{}

/// A run prints each outcome once, at the entry that brings it: from top to bottom its `chosen` lines are the outcomes in the order
/// in which they come.
pub fn outcomes_in_order()
    ensures { OutcomesInOrder }
{}

/// A run takes nothing out of the ledger or the report: the run of its first events is a run too, from which it goes on.
pub fn runs_go_on()
    ensures grows { RunsGrow }
    ensures goes_on { RunsGoOn }
    ensures first { FirstAreTaken }
{}

/// The replay of an input whose header is accepted is a run of the events of its lines, up to the first line that is refused;
/// and such a header is of a cluster whose quorums meet.
pub fn replays_are_runs()
    ensures runs { ReplaysAreRuns }
    ensures cluster { HeadersAreOfClusters }
{}
