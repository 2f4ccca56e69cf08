//! A schedule whose append at centre 2 stops, with its report for each call and image, worked by hand: the vote that was in flight
//! counts where its frame was kept, in the third call or later, and else it is given again after the restart.

/// Before the stop line.
pub(crate) const BEFORE: &str = "mdcc-schedule 1
quorums 5 3 4
gamma 100
bound 0 1000
start
begin 1 new:a:-:10
deliver 1 3 4
";

/// After it.
pub(crate) const AFTER: &str = "deliver 2
restart 2
deliver 2
";

/// The report before the stop line.
pub(crate) const REPORT_BEFORE: &str = "mdcc-report 1
quorums 5 3 4
gamma 100
bound 0 1000
start
begin 1.1.1 next 6
deliver 1 next 7
deliver 3 next 8
deliver 4 next 9
";

/// After it, where the vote counts.
pub(crate) const REPORT_KEPT: &str = "deliver 2 next 9
stopped 2
chosen 1.1.1 commit
restart 2 epoch 2
deliver 2 next 10
end events 8 messages 9 commits 1 aborts 0 open 0
";

/// After it, where it does not.
pub(crate) const REPORT_LOST: &str = "deliver 2 next 9
stopped 2
restart 2 epoch 2
deliver 2 next 10
chosen 1.1.1 commit
end events 8 messages 9 commits 1 aborts 0 open 0
";
