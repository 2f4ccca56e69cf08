//! Headers of schedules. The expected values come from the grammar, by hand.
use mdcc_base::QuorumFault::{Centres, ClassicMeet, ClassicRange, FastMeet, FastRange};
use mdcc_option::{Cluster, FastLimit, SchemaFault};
use mdcc_sched::HeaderCause::{self, Quorums, Sched, Schema};
use mdcc_sched::SchedCause::{Number, Order, Range, Word};
use mdcc_sched::{HeaderFault, SchedCause, parse_header};
use std::alloc::Global;
use std::process::Abort;
use std::test::Fail;

// What stands before the line that is refused.
const AFTER_VERSION: &str = "mdcc-schedule 1\n";

const AFTER_QUORUMS: &str = "mdcc-schedule 1\nquorums 5 3 4\n";

const AFTER_GAMMA: &str = "mdcc-schedule 1\nquorums 5 3 4\ngamma 100\n";

const AFTER_BOUND: &str = "mdcc-schedule 1\nquorums 5 3 4\ngamma 100\nbound 0 1000\n";

// The rest of a header, and where and why it is refused.
type Row<'a> = (&'a str, u32, HeaderCause);

// Whether a header of these two parts is refused so.
fn is_refused(alloc: Global, front: &str, rest: &str, expected: HeaderFault) -> Result<bool, Fail> {
    let mut text = String::new(alloc);
    text.push_str(front)?;
    text.push_str(rest)?;
    Ok(parse_header(text.as_bytes()).err() == Some(expected))
}

fn check(rt: &impl Abort, alloc: Global, front: &str, rows: &[Row]) -> Result<(), Fail> {
    for (rest, line, cause) in rows {
        let expected = HeaderFault {
            line: *line,
            cause: *cause,
        };
        assert!(rt; is_refused(alloc, front, rest, expected)?, "{rest}");
    }
    Ok(())
}

// The cluster of a header of so many bytes.
fn cluster_of(rt: &impl Abort, text: &[u8], len: usize) -> Cluster {
    let (cluster, found) = parse_header(text).expect(rt, "a header");
    assert!(rt; found == len);
    cluster
}

// Whether these are the quorums.
fn are_quorums(quorums: &mdcc_base::Quorums, centres: u8, classic: u8, fast: u8) -> bool {
    quorums.centres() == centres && quorums.classic() == classic && quorums.fast() == fast
}

#[test]
fn a_header_of_59_bytes(rt: HostRuntime) {
    let text = b"mdcc-schedule 1\nquorums 5 3 4\ngamma 100\nbound 0 1000\nstart\n# x\n";
    let cluster = cluster_of(&rt, text, 59);
    assert!(rt; are_quorums(&cluster.quorums, 5, 3, 4));
    assert!(rt; cluster.gamma == 100 && cluster.cells == 1_048_576);
    assert!(rt; cluster.limit == FastLimit::Safe);
    assert!(rt; cluster.schema.bounds() == [(0, 1000)].as_slice());
}

#[test]
fn a_header_with_cells(rt: HostRuntime) {
    let few = b"mdcc-schedule 1\nquorums 1 1 1\ngamma 100\ncells 1\nbound 0 1000\nstart\n";
    assert!(rt; cluster_of(&rt, few, 67).cells == 1);
    let many =
        b"mdcc-schedule 1\nquorums 1 1 1\ngamma 100\ncells 4194304\nlimit paper\nbound 0 1000\nstart\n";
    let cluster = cluster_of(&rt, many, 85);
    assert!(rt; cluster.cells == 4_194_304 && cluster.limit == FastLimit::Paper);
}

#[test]
fn a_header_with_four_bounds(rt: HostRuntime) {
    let text =
        b"mdcc-schedule 1\nquorums 1 1 1\ngamma 0\nbound 0 0\nbound -5 7\nbound -1000000000000000 1000000000000000\nbound 1 1\nstart\n";
    let cluster = cluster_of(&rt, text, text.len());
    let bounds = [
        (0, 0),
        (-5, 7),
        (-1_000_000_000_000_000, 1_000_000_000_000_000),
        (1, 1),
    ];
    assert!(rt; cluster.gamma == 0);
    assert!(rt; cluster.schema.bounds() == bounds.as_slice());
}

#[test]
fn a_header_with_the_safe_limit(rt: HostRuntime) {
    let text = b"mdcc-schedule 1\nquorums 5 3 4\ngamma 100\nlimit safe\nbound 0 1000\nstart\n";
    assert!(rt; cluster_of(&rt, text, 70).limit == FastLimit::Safe);
}

#[test]
fn a_header_with_the_wider_limit(rt: HostRuntime) {
    let text = b"mdcc-schedule 1\nquorums 5 3 4\ngamma 100\nlimit paper\nbound 0 1000\nstart\n";
    let cluster = cluster_of(&rt, text, 71);
    assert!(rt; cluster.limit == FastLimit::Paper);
    assert!(rt; cluster.schema.bounds() == [(0, 1000)].as_slice());
}

#[test]
fn the_version(rt: HostRuntime) -> Result<(), Fail> {
    check(
        &rt,
        rt.alloc(),
        "",
        &[
            ("", 1, Sched(Order)),
            ("\n", 1, Sched(Order)),
            ("# a comment\n", 1, Sched(Order)),
            ("mdcc-report 1\n", 1, Sched(Order)),
            ("quorums 5 3 4\n", 1, Sched(Order)),
            ("mdcc-schedule\n", 1, Sched(Word)),
            ("mdcc-schedule 2\n", 1, Sched(Word)),
            ("mdcc-schedule 01\n", 1, Sched(Word)),
            ("mdcc-schedule 1 1\n", 1, Sched(Word)),
            ("mdcc-schedule  1\n", 1, Sched(Word)),
            ("mdcc-schedule 1", 1, Sched(Word)),
        ],
    )?;
    check(
        &rt,
        rt.alloc(),
        AFTER_VERSION,
        &[("", 2, Sched(Order)), ("gamma 100\n", 2, Sched(Order))],
    )
}

#[test]
fn the_quorums(rt: HostRuntime) -> Result<(), Fail> {
    check(
        &rt,
        rt.alloc(),
        AFTER_VERSION,
        &[
            ("quorums\n", 2, Sched(Word)),
            ("quorums 5 3\n", 2, Sched(Word)),
            ("quorums 5 3 4 1\n", 2, Sched(Word)),
            ("quorums 5 3 4", 2, Sched(Word)),
            ("quorums 256 3 4\n", 2, Sched(Range)),
            ("quorums 5 256 4\n", 2, Sched(Range)),
            ("quorums 5 3 256\n", 2, Sched(Range)),
            ("quorums x 3 4\n", 2, Sched(Number)),
            ("quorums 5 03 4\n", 2, Sched(Number)),
            ("quorums 5 3 -4\n", 2, Sched(Number)),
            ("quorums 0 3 4\n", 2, Quorums(Centres)),
            ("quorums 10 3 4\n", 2, Quorums(Centres)),
            ("quorums 5 0 4\n", 2, Quorums(ClassicRange)),
            ("quorums 5 6 6\n", 2, Quorums(ClassicRange)),
            ("quorums 5 3 2\n", 2, Quorums(FastRange)),
            ("quorums 5 3 6\n", 2, Quorums(FastRange)),
            ("quorums 4 2 4\n", 2, Quorums(ClassicMeet)),
            ("quorums 5 3 3\n", 2, Quorums(FastMeet)),
            ("quorums 5 3 3", 2, Sched(Word)),
        ],
    )
}

#[test]
fn gamma_and_cells(rt: HostRuntime) -> Result<(), Fail> {
    check(
        &rt,
        rt.alloc(),
        AFTER_QUORUMS,
        &[
            ("", 3, Sched(Order)),
            ("bound 0 1000\n", 3, Sched(Order)),
            ("quorums 5 3 4\n", 3, Sched(Order)),
            ("gamma\n", 3, Sched(Word)),
            ("gamma 1001\n", 3, Sched(Range)),
            ("gamma -1\n", 3, Sched(Number)),
            ("gamma 1 1\n", 3, Sched(Word)),
            ("gamma 1", 3, Sched(Word)),
        ],
    )?;
    check(
        &rt,
        rt.alloc(),
        AFTER_GAMMA,
        &[
            ("", 4, Sched(Order)),
            ("start\n", 4, Sched(Order)),
            ("cells\n", 4, Sched(Word)),
            ("cells 0\n", 4, Sched(Range)),
            ("cells 4194305\n", 4, Sched(Range)),
            ("cells -1\n", 4, Sched(Number)),
            ("cells 5 5\n", 4, Sched(Word)),
            ("cells 5", 4, Sched(Word)),
            ("cells 5\n", 5, Sched(Order)),
            ("cells 5\ncells 5\n", 5, Sched(Order)),
            ("limit safe\ncells 5\n", 5, Sched(Order)),
        ],
    )
}

#[test]
fn the_limit(rt: HostRuntime) -> Result<(), Fail> {
    check(
        &rt,
        rt.alloc(),
        AFTER_GAMMA,
        &[
            ("limit\n", 4, Sched(Word)),
            ("limit wide\n", 4, Sched(Word)),
            ("limit Paper\n", 4, Sched(Word)),
            ("limit  safe\n", 4, Sched(Word)),
            ("limit safe paper\n", 4, Sched(Word)),
            ("limit paper", 4, Sched(Word)),
            ("limits safe\n", 4, Sched(Order)),
            ("limit safe\n", 5, Sched(Order)),
            ("limit safe\nlimit safe\n", 5, Sched(Order)),
            ("limit safe\nbound 1 0\n", 5, Schema(SchemaFault::Bound(1))),
            ("bound 0 1000\nlimit safe\n", 5, Sched(Order)),
        ],
    )?;
    check(
        &rt,
        rt.alloc(),
        AFTER_QUORUMS,
        &[("limit safe\n", 3, Sched(Order))],
    )?;
    check(
        &rt,
        rt.alloc(),
        AFTER_VERSION,
        &[("limit safe\n", 2, Sched(Order))],
    )
}

#[test]
fn the_words_of_bounds(rt: HostRuntime) -> Result<(), Fail> {
    check(
        &rt,
        rt.alloc(),
        AFTER_GAMMA,
        &[
            ("bound\n", 4, Sched(Word)),
            ("bound 0\n", 4, Sched(Word)),
            ("bound 0 1 2\n", 4, Sched(Word)),
            ("bound 0 1", 4, Sched(Word)),
            ("bound x 1\n", 4, Sched(Number)),
            ("bound -0 1\n", 4, Sched(Number)),
            ("bound 0 9223372036854775808\n", 4, Sched(Range)),
        ],
    )
}

#[test]
fn bounds_out_of_range(rt: HostRuntime) -> Result<(), Fail> {
    check(
        &rt,
        rt.alloc(),
        AFTER_GAMMA,
        &[
            ("bound 1 0\n", 4, Schema(SchemaFault::Bound(1))),
            (
                "bound 0 1000000000000001\n",
                4,
                Schema(SchemaFault::Bound(1)),
            ),
            (
                "bound 0 1000\nbound -1000000000000001 0\n",
                5,
                Schema(SchemaFault::Bound(2)),
            ),
            (
                "bound 0 1000\nbound 0 1000\nbound 0 1000\nbound 3 2\n",
                7,
                Schema(SchemaFault::Bound(4)),
            ),
        ],
    )
}

#[test]
fn lines_after_bounds(rt: HostRuntime) -> Result<(), Fail> {
    check(
        &rt,
        rt.alloc(),
        AFTER_GAMMA,
        &[
            (
                "bound 0 1000\nbound 0 1000\nbound 0 1000\nbound 0 1000\nbound 0 1000\n",
                8,
                Sched(Order),
            ),
            ("bound 0 1000\n", 5, Sched(Order)),
            ("bound 0 1000\nbounds 0 1\n", 5, Sched(Order)),
            ("bound 0 1000\ngamma 100\n", 5, Sched(Order)),
        ],
    )
}

#[test]
fn the_start(rt: HostRuntime) -> Result<(), Fail> {
    check(
        &rt,
        rt.alloc(),
        AFTER_BOUND,
        &[
            ("tick 1\n", 5, Sched(Order)),
            ("\n", 5, Sched(Order)),
            ("start 1\n", 5, Sched(Word)),
            ("start \n", 5, Sched(Word)),
            ("start", 5, Sched(Word)),
            ("bound 0 1000\nstart", 6, Sched(Word)),
        ],
    )
}

// Whether a first line that goes on for 5,000 bytes or more is refused so.
fn is_too_long(alloc: Global, front: &str, part: &str, cause: SchedCause) -> Result<bool, Fail> {
    let mut rest = String::new(alloc);
    for _ in 0..5000 {
        rest.push_str(part)?;
    }
    let expected = HeaderFault {
        line: 1,
        cause: Sched(cause),
    };
    is_refused(alloc, front, &rest, expected)
}

#[test]
fn first_lines_that_are_too_long(rt: HostRuntime) -> Result<(), Fail> {
    let alloc = rt.alloc();
    assert!(rt; is_too_long(alloc, "mdcc-schedule 2", " ", Word)?);
    assert!(rt; is_too_long(alloc, "mdcc-schedule 1", " ", Word)?);
    assert!(rt; is_too_long(alloc, "schedule", " ", Order)?);
    assert!(rt; is_too_long(alloc, "", "x", Order)?);
    Ok(())
}
