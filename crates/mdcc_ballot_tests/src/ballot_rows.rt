//! Schedules of classic ballots with their reports, worked by hand from the rules of the protocol.

/// A schedule, and its report.
#[derive(Clone, Copy)]
pub(crate) struct Row {
    pub schedule: &'static str,
    pub report: &'static str,
}

// Two inserts of one key collide. The promises of centres 1, 2 and 3 force the first.
pub(crate) const FIRST_FORCED: Row = Row {
    schedule: "mdcc-schedule 1
quorums 5 3 4
gamma 100
bound 0 1000
start
begin 1 new:a:-:1
begin 2 new:a:-:2
deliver 1 2 8 9 10
settle 3 4 5
settle 1 2
deliver 21
settle 1 2
settle 3
settle
",
    report: "mdcc-report 1
quorums 5 3 4
gamma 100
bound 0 1000
start
begin 1.1.1 next 6
begin 2.1.1 next 11
deliver 1 next 12
deliver 2 next 13
deliver 8 next 14
deliver 9 next 15
deliver 10 next 16
settle 3 4 5
settled 3 next 19
settle 1 2
settled 12 next 23
deliver 21 next 28
settle 1 2
settled 2 next 30
settle 3
settled 10 next 46
settle
chosen 1.1.1 commit
chosen 2.1.1 abort
heard 1 1.1.1 commit
heard 2 2.1.1 abort
heard 2 1.1.1 commit
heard 3 1.1.1 commit
heard 4 1.1.1 commit
heard 5 1.1.1 commit
heard 1 2.1.1 abort
heard 3 2.1.1 abort
heard 4 2.1.1 abort
heard 5 2.1.1 abort
settled 42 next 76
end events 82 messages 75 commits 1 aborts 1 open 0
",
};

// The same, where the promises of centres 3, 4 and 5 force the second.
pub(crate) const SECOND_FORCED: Row = Row {
    schedule: "mdcc-schedule 1
quorums 5 3 4
gamma 100
bound 0 1000
start
begin 1 new:a:-:1
begin 2 new:a:-:2
deliver 1 2 8 9 10
settle 3 4 5
settle 1 2
deliver 21
settle 4 5
settle 3
settle
",
    report: "mdcc-report 1
quorums 5 3 4
gamma 100
bound 0 1000
start
begin 1.1.1 next 6
begin 2.1.1 next 11
deliver 1 next 12
deliver 2 next 13
deliver 8 next 14
deliver 9 next 15
deliver 10 next 16
settle 3 4 5
settled 3 next 19
settle 1 2
settled 12 next 23
deliver 21 next 28
settle 4 5
settled 2 next 30
settle 3
settled 10 next 46
settle
chosen 1.1.1 abort
chosen 2.1.1 commit
heard 1 1.1.1 abort
heard 2 2.1.1 commit
heard 2 1.1.1 abort
heard 3 1.1.1 abort
heard 4 1.1.1 abort
heard 5 1.1.1 abort
heard 1 2.1.1 commit
heard 3 2.1.1 commit
heard 4 2.1.1 commit
heard 5 2.1.1 commit
settled 42 next 76
end events 82 messages 75 commits 1 aborts 1 open 0
",
};

// A classic ballot covers two more versions: writes of them go through the leader without a further
// question for promises, and the next version is fast again.
pub(crate) const RANGE: Row = Row {
    schedule: "mdcc-schedule 1
quorums 5 3 4
gamma 2
bound 0 1000
start
begin 1 new:a:-:1
begin 2 new:a:-:2
deliver 1 2 8 9 10
settle 3 4 5
settle 1 2
deliver 21
settle 1 2
settle 3
settle
read 1 a
begin 1 set:1:-:5
settle
read 1 a
begin 1 set:2:-:6
settle
read 1 a
begin 1 set:3:-:7
settle
",
    report: "mdcc-report 1
quorums 5 3 4
gamma 2
bound 0 1000
start
begin 1.1.1 next 6
begin 2.1.1 next 11
deliver 1 next 12
deliver 2 next 13
deliver 8 next 14
deliver 9 next 15
deliver 10 next 16
settle 3 4 5
settled 3 next 19
settle 1 2
settled 12 next 23
deliver 21 next 28
settle 1 2
settled 2 next 30
settle 3
settled 10 next 46
settle
chosen 1.1.1 commit
chosen 2.1.1 abort
heard 1 1.1.1 commit
heard 2 2.1.1 abort
heard 2 1.1.1 commit
heard 3 1.1.1 commit
heard 4 1.1.1 commit
heard 5 1.1.1 commit
heard 1 2.1.1 abort
heard 3 2.1.1 abort
heard 4 2.1.1 abort
heard 5 2.1.1 abort
settled 42 next 76
read 1 at 1 a version 1 seen 0 values 1 body -
begin 1.1.2 next 81
settle
chosen 1.1.2 commit
heard 1 1.1.2 commit
heard 2 1.1.2 commit
heard 3 1.1.2 commit
heard 4 1.1.2 commit
heard 5 1.1.2 commit
settled 30 next 106
read 2 at 1 a version 2 seen 0 values 5 body -
begin 1.1.3 next 111
settle
chosen 1.1.3 commit
heard 1 1.1.3 commit
heard 2 1.1.3 commit
heard 3 1.1.3 commit
heard 4 1.1.3 commit
heard 5 1.1.3 commit
settled 30 next 136
read 3 at 1 a version 3 seen 0 values 6 body -
begin 1.1.4 next 141
settle
chosen 1.1.4 commit
heard 1 1.1.4 commit
heard 2 1.1.4 commit
heard 3 1.1.4 commit
heard 4 1.1.4 commit
heard 5 1.1.4 commit
settled 14 next 150
end events 165 messages 149 commits 4 aborts 1 open 0
",
};
