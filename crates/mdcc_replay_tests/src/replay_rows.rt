//! Schedules with their reports, worked by hand from the rules of the protocol.

/// What stands behind the usual header of a schedule and of its report, the line on the error
/// stream, and the status.
#[derive(Clone, Copy)]
pub(crate) struct Row {
    pub lines: &'static str,
    pub report: &'static str,
    pub error: &'static str,
    pub status: u8,
}

/// The usual header of a schedule, and that of its report.
pub(crate) const SCHEDULE: &str = "mdcc-schedule 1
quorums 5 3 4
gamma 100
bound 0 1000
start
";

pub(crate) const REPORT: &str = "mdcc-report 1
quorums 5 3 4
gamma 100
bound 0 1000
start
";

// A header alone.
pub(crate) const HEADER_ALONE: Row = Row {
    lines: "",
    report: "end events 0 messages 0 commits 0 aborts 0 open 0
",
    error: "",
    status: 0,
};

// One insert, by single deliveries.
pub(crate) const INSERT_DELIVERED: Row = Row {
    lines: "begin 1 new:a:-:10
deliver 1 2 3 4
deliver 6 7 8 9
",
    report: "begin 1.1.1 next 6
deliver 1 next 7
deliver 2 next 8
deliver 3 next 9
deliver 4 next 10
chosen 1.1.1 commit
deliver 6 next 10
deliver 7 next 10
deliver 8 next 10
deliver 9 next 14
heard 1 1.1.1 commit
end events 9 messages 13 commits 1 aborts 0 open 0
",
    error: "",
    status: 0,
};

// One insert, settled.
pub(crate) const INSERT_SETTLED: Row = Row {
    lines: "begin 1 new:a:-:10
settle
",
    report: "begin 1.1.1 next 6
settle
chosen 1.1.1 commit
heard 1 1.1.1 commit
heard 2 1.1.1 commit
heard 3 1.1.1 commit
heard 4 1.1.1 commit
heard 5 1.1.1 commit
settled 14 next 15
end events 16 messages 14 commits 1 aborts 0 open 0
",
    error: "",
    status: 0,
};

// An update that one centre misses until it is settled.
pub(crate) const UPDATE_MISSED: Row = Row {
    lines: "begin 1 new:a:-:10
settle
read 1 a
read 2 a
begin 2 set:2:-:11
settle 2 3 4 5
begin 1 set:1:-:12
settle
",
    report: "begin 1.1.1 next 6
settle
chosen 1.1.1 commit
heard 1 1.1.1 commit
heard 2 1.1.1 commit
heard 3 1.1.1 commit
heard 4 1.1.1 commit
heard 5 1.1.1 commit
settled 14 next 15
read 1 at 1 a version 1 seen 0 values 10 body -
read 2 at 2 a version 1 seen 0 values 10 body -
begin 2.1.1 next 20
settle 2 3 4 5
chosen 2.1.1 commit
heard 2 2.1.1 commit
heard 3 2.1.1 commit
heard 4 2.1.1 commit
heard 5 2.1.1 commit
settled 11 next 28
begin 1.1.2 next 33
settle
heard 1 2.1.1 commit
chosen 1.1.2 abort
heard 1 1.1.2 abort
heard 2 1.1.2 abort
heard 3 1.1.2 abort
heard 4 1.1.2 abort
heard 5 1.1.2 abort
settled 17 next 43
end events 50 messages 42 commits 2 aborts 1 open 0
",
    error: "",
    status: 0,
};

// Messages that are delivered again and out of order.
pub(crate) const MESSAGES_REPEATED: Row = Row {
    lines: "begin 1 new:a:-:10
deliver 1 1 2 3 4 10 9 8 8 7 6
",
    report: "begin 1.1.1 next 6
deliver 1 next 7
deliver 1 next 8
deliver 2 next 9
deliver 3 next 10
deliver 4 next 11
chosen 1.1.1 commit
deliver 10 next 11
deliver 9 next 11
deliver 8 next 11
deliver 8 next 11
deliver 7 next 15
heard 1 1.1.1 commit
deliver 6 next 15
end events 12 messages 14 commits 1 aborts 0 open 0
",
    error: "",
    status: 0,
};

// Begins that are refused.
pub(crate) const BEGINS_REFUSED: Row = Row {
    lines: "begin 1 new:a:-:10
settle
begin 2 new:a:-:5
read 1 zz
begin 1 keep:1
",
    report: "begin 1.1.1 next 6
settle
chosen 1.1.1 commit
heard 1 1.1.1 commit
heard 2 1.1.1 commit
heard 3 1.1.1 commit
heard 4 1.1.1 commit
heard 5 1.1.1 commit
settled 14 next 15
begin refused stale a version 1 seen 0
read 1 at 1 zz version 0 none
begin refused noitem zz
end events 19 messages 14 commits 1 aborts 0 open 0
",
    error: "",
    status: 0,
};

// Eight parts, which are as many as a transaction has.
pub(crate) const EIGHT_PARTS: Row = Row {
    lines: "begin 1 new:a:-:1 new:b:-:1 new:c:-:1 new:d:-:1 new:e:-:1 new:f:-:1 new:g:-:1 new:h:-:1
",
    report: "begin 1.1.1 next 41
end events 1 messages 40 commits 0 aborts 0 open 1
",
    error: "",
    status: 0,
};

// A value above its bound.
pub(crate) const VALUE_ABOVE_BOUND: Row = Row {
    lines: "begin 1 new:a:-:1001
",
    report: "",
    error: "mdcc: line 6: Begin OutOfBounds\n",
    status: 4,
};

// Nine parts.
pub(crate) const NINE_PARTS: Row = Row {
    lines: "begin 1 new:a:-:1 new:b:-:1 new:c:-:1 new:d:-:1 new:e:-:1 new:f:-:1 new:g:-:1 new:h:-:1 new:i:-:1
",
    report: "",
    error: "mdcc: line 6: Begin TooMany\n",
    status: 4,
};

// One key twice.
pub(crate) const KEY_REPEATED: Row = Row {
    lines: "begin 1 new:a:-:1 new:a:-:2
",
    report: "",
    error: "mdcc: line 6: Begin RepeatedKey\n",
    status: 4,
};

// A message that was not sent.
pub(crate) const MESSAGE_NOT_SENT: Row = Row {
    lines: "deliver 99
",
    report: "",
    error: "mdcc: line 6: NoMessage 99\n",
    status: 4,
};

// A last line without its line end.
pub(crate) const LINE_WITHOUT_END: Row = Row {
    lines: "begin 1 new:a:-:1",
    report: "",
    error: "mdcc: line 6 column 18: Word\n",
    status: 4,
};

// A value that was read is written after another has taken its place.
pub(crate) const READ_STALE: Row = Row {
    lines: "begin 1 new:a:-:10
settle
read 1 a
begin 1 set:1:-:11
settle
begin 1 set:1:-:12
",
    report: "begin 1.1.1 next 6
settle
chosen 1.1.1 commit
heard 1 1.1.1 commit
heard 2 1.1.1 commit
heard 3 1.1.1 commit
heard 4 1.1.1 commit
heard 5 1.1.1 commit
settled 14 next 15
read 1 at 1 a version 1 seen 0 values 10 body -
begin 1.1.2 next 20
settle
chosen 1.1.2 commit
heard 1 1.1.2 commit
heard 2 1.1.2 commit
heard 3 1.1.2 commit
heard 4 1.1.2 commit
heard 5 1.1.2 commit
settled 14 next 29
begin refused stale a version 2 seen 0
end events 34 messages 28 commits 2 aborts 0 open 0
",
    error: "",
    status: 0,
};
