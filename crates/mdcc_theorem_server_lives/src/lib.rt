//! The lives of centres that are served, each one process, and what all of them together make durable, send and print.
#![tactic(auto)]

ghost use Rattle.std.specs.Prelude.{◌≡◌, ◌∷◌, [], true};
ghost use Rattle.mdcc_def_server_runs.specs.declared.lines.ServerLine.{ServerLine};
ghost use Rattle.mdcc_theorem_clusters.specs.Example.{asked_tx, config};
ghost use Rattle.mdcc_theorem_server_lives.specs.Example.{lines_printed, steps};
ghost use Rattle.mdcc_theorem_server_lives.specs.Histories.{HistoriesAreExecutions, IsHistory, after_life_steps, at_first};
ghost use Rattle.mdcc_theorem_server_lives.specs.Told.{HeadlineOfHistories};

/// Whatever lives the centres of a cluster have, each over the log that the one before it left, whole or broken off at any act, and in
/// whatever order they act, where a centre's own endpoint gets only what was sent: their acts are those of an execution of the cluster.
pub fn histories_are_executions()
    ensures { HistoriesAreExecutions }
{}

/// So the headline holds of all that was sent and printed in these lives.
pub fn headline_of_histories()
    ensures { HeadlineOfHistories }
{}

/// There are such histories: a centre commits what its client began, is started again over the log that it left, and killed.
pub fn a_centre_commits_and_is_killed()
    ensures history { IsHistory config at_first steps }
    ensures lines { lines_printed (after_life_steps at_first steps) ≡ ServerLine.Heard 1 asked_tx true ∷ ServerLine.Booted 1 1 ∷ [] }
{}
