//! Schedules of adds, dangling transactions and centres that catch up, with their reports, worked by
//! hand from the rules of the protocol.
use crate::ballot_rows::Row;

// Ten in stock, and three transactions that each take four: two commit, and the third is decided by the leader.
pub(crate) const STOCK: Row = Row {
    schedule: "mdcc-schedule 1
quorums 5 3 4
gamma 100
bound 0 1000
start
begin 1 new:a:-:10
settle
read 1 a
begin 1 add:1:1=-4
settle 2 3 4 5
begin 1 add:1:1=-4
settle 2 3 4 5
begin 1 add:1:1=-4
settle 2 3 4 5
settle
read 2 a
",
    report: "mdcc-report 1
quorums 5 3 4
gamma 100
bound 0 1000
start
begin 1.1.1 next 6
settle
chosen 1.1.1 commit
heard 1 1.1.1 commit
heard 2 1.1.1 commit
heard 3 1.1.1 commit
heard 4 1.1.1 commit
heard 5 1.1.1 commit
settled 14 next 15
read 1 at 1 a version 1 seen 0 values 10 body -
begin 1.1.2 next 20
settle 2 3 4 5
chosen 1.1.2 commit
settled 4 next 24
begin 1.1.3 next 29
settle 2 3 4 5
settled 4 next 33
begin 1.1.4 next 38
settle 2 3 4 5
settled 4 next 42
settle
heard 1 1.1.2 commit
heard 2 1.1.2 commit
heard 3 1.1.2 commit
heard 4 1.1.2 commit
heard 5 1.1.2 commit
chosen 1.1.3 commit
chosen 1.1.4 abort
heard 1 1.1.3 commit
heard 1 1.1.4 abort
heard 2 1.1.3 commit
heard 3 1.1.3 commit
heard 4 1.1.3 commit
heard 5 1.1.3 commit
heard 2 1.1.4 abort
heard 3 1.1.4 abort
heard 4 1.1.4 abort
heard 5 1.1.4 abort
settled 77 next 104
read 2 at 2 a version 1 seen 2 values 2 body -
end events 114 messages 103 commits 3 aborts 1 open 0
",
};

// The manager of two inserts crashes once they are voted. Another centre asks at its second tick, and finishes them. The manager hears
// the outcome when it restarts.
pub(crate) const DANGLING: Row = Row {
    schedule: "mdcc-schedule 1
quorums 5 3 4
gamma 100
bound 0 1000
start
begin 1 new:a:-:1 new:b:-:2
settle 2 3 4 5
crash 1
tick 2
tick 2
settle
restart 1
settle
",
    report: "mdcc-report 1
quorums 5 3 4
gamma 100
bound 0 1000
start
begin 1.1.1 next 11
settle 2 3 4 5
chosen 1.1.1 commit
settled 8 next 19
crash 1
tick 2 next 19
tick 2 next 29
settle
heard 2 1.1.1 commit
heard 3 1.1.1 commit
heard 4 1.1.1 commit
heard 5 1.1.1 commit
settled 19 next 41
restart 1 epoch 2
settle
heard 1 1.1.1 commit
settled 17 next 45
end events 52 messages 44 commits 1 aborts 0 open 0
",
};

// The votes of the second key are never chosen, so that the asking centre leads at its fourth tick.
pub(crate) const LED: Row = Row {
    schedule: "mdcc-schedule 1
quorums 5 3 4
gamma 100
bound 0 1000
start
begin 1 new:a:-:1 new:b:-:2
deliver 2 3 4 5
crash 1
tick 2
tick 2
deliver 16 17 18 19 21 22 23 24 25 26 27 28
tick 2
tick 2
deliver 30 31 32 34 35 36 38 39 40 43 45 47 7 8
",
    report: "mdcc-report 1
quorums 5 3 4
gamma 100
bound 0 1000
start
begin 1.1.1 next 11
deliver 2 next 12
deliver 3 next 13
deliver 4 next 14
deliver 5 next 15
crash 1
tick 2 next 15
tick 2 next 25
deliver 16 next 26
deliver 17 next 27
deliver 18 next 28
deliver 19 next 29
deliver 21 next 29
deliver 22 next 29
deliver 23 next 29
deliver 24 next 29
deliver 25 next 29
deliver 26 next 29
deliver 27 next 29
deliver 28 next 29
tick 2 next 29
tick 2 next 34
deliver 30 next 35
deliver 31 next 36
deliver 32 next 37
deliver 34 next 37
deliver 35 next 37
deliver 36 next 42
deliver 38 next 44
deliver 39 next 46
deliver 40 next 48
chosen 1.1.1 abort
deliver 43 next 48
deliver 45 next 48
deliver 47 next 52
heard 2 1.1.1 abort
deliver 7 next 53
deliver 8 next 54
end events 36 messages 53 commits 0 aborts 1 open 0
",
};

// A centre that missed the first version of a key is proposed the second one. It says that it is behind, and adopts what the manager
// gives it.
pub(crate) const CAUGHT_UP: Row = Row {
    schedule: "mdcc-schedule 1
quorums 5 3 4
gamma 100
bound 0 1000
start
begin 1 new:a:-:10
settle 1 2 3 4
read 1 a
begin 1 set:1:-:11
deliver 18 19 20 18
settle
",
    report: "mdcc-report 1
quorums 5 3 4
gamma 100
bound 0 1000
start
begin 1.1.1 next 6
settle 1 2 3 4
chosen 1.1.1 commit
heard 1 1.1.1 commit
heard 2 1.1.1 commit
heard 3 1.1.1 commit
heard 4 1.1.1 commit
settled 11 next 14
read 1 at 1 a version 1 seen 0 values 10 body -
begin 1.1.2 next 19
deliver 18 next 20
deliver 19 next 21
deliver 20 next 21
deliver 18 next 22
settle
heard 5 1.1.1 commit
chosen 1.1.2 commit
heard 1 1.1.2 commit
heard 2 1.1.2 commit
heard 3 1.1.2 commit
heard 4 1.1.2 commit
heard 5 1.1.2 commit
settled 16 next 31
end events 36 messages 30 commits 2 aborts 0 open 0
",
};
