//! Lines of a schedule that are refused: the column of the first byte that is refused, and the
//! cause. The expected values come from the grammar, by hand.
use mdcc_base::Quorums;
use mdcc_option::{Cluster, FastLimit, Schema};
use mdcc_sched::SchedCause::{Key, Number, Order, Range, Word};
use mdcc_sched::{SchedCause, SchedFault, parse_line};
use std::alloc::Global;
use std::process::Abort;

// A line, and where and why it is refused.
type Row<'a> = (&'a str, u32, SchedCause);

// Five centres and one attribute.
pub(crate) fn five_centres(rt: &impl Abort) -> Cluster {
    Cluster {
        quorums: Quorums::new(5, 3, 4).unwrap(),
        schema: Schema::new(&[(0, 1000)]).expect(rt, "a schema"),
        gamma: 100,
        cells: 1_048_576,
        limit: FastLimit::Safe,
    }
}

// Whether a line is refused so.
fn is_refused(alloc: Global, cluster: &Cluster, line: &str, expected: SchedFault) -> bool {
    parse_line(alloc, line.as_bytes(), cluster).err() == Some(expected)
}

pub(crate) fn check(rt: &impl Abort, alloc: Global, rows: &[Row]) {
    let cluster = five_centres(rt);
    for (line, column, cause) in rows {
        let expected = SchedFault {
            column: *column,
            cause: *cause,
        };
        assert!(rt; is_refused(alloc, &cluster, line, expected), "{line}");
    }
}

#[test]
fn whole_lines(rt: HostRuntime) {
    check(
        &rt,
        rt.alloc(),
        &[
            ("", 1, Word),
            ("#", 2, Word),
            ("# a comment", 12, Word),
            (" \n", 1, Word),
            ("\n\n", 2, Word),
            ("read 1 a", 9, Word),
            ("read 1 a\nx", 10, Word),
            ("Read 1 a\n", 1, Word),
            ("reads 1 a\n", 1, Word),
            ("settled\n", 1, Word),
            ("tic 1\n", 1, Word),
            ("sweep 1\n", 1, Word),
            ("crashes 1\n", 1, Word),
            ("Restart 1\n", 1, Word),
            ("stops 1 1 lost\n", 1, Word),
            ("stopped 2\n", 1, Word),
            ("start\n", 1, Word),
            ("end events 0\n", 1, Word),
        ],
    );
}

#[test]
fn reads(rt: HostRuntime) {
    check(
        &rt,
        rt.alloc(),
        &[
            ("read\n", 5, Word),
            ("read \n", 6, Word),
            ("read 1\n", 7, Word),
            ("read 1 \n", 8, Word),
            ("read  1 a\n", 6, Word),
            ("read 1  a\n", 8, Word),
            ("read\t1 a\n", 1, Word),
            ("read 0 a\n", 6, Range),
            ("read 6 a\n", 6, Range),
            ("read 10 a\n", 6, Range),
            ("read 01 a\n", 6, Number),
            ("read -1 a\n", 6, Number),
            ("read x a\n", 6, Number),
            ("read 1 a!\n", 8, Key),
            ("read 1 a:b\n", 8, Key),
            ("read 1 a\r\n", 8, Key),
            ("read 1 abcdefghijklmnopqrstuvwxyz0123456\n", 8, Key),
            ("read 1 a b\n", 10, Word),
            ("read 1 a \n", 10, Word),
            ("read 6 a!", 6, Range),
        ],
    );
}

#[test]
fn ticks_and_deliveries(rt: HostRuntime) {
    check(
        &rt,
        rt.alloc(),
        &[
            ("tick\n", 5, Word),
            ("tick 6\n", 6, Range),
            ("tick 007\n", 6, Number),
            ("tick +1\n", 6, Number),
            ("tick 1.\n", 6, Number),
            ("tick 3 4\n", 8, Word),
            ("tick 3 \n", 8, Word),
            (
                "tick 99999999999999999999999999999999999999999999\n",
                6,
                Range,
            ),
            ("deliver\n", 8, Word),
            ("deliver \n", 9, Word),
            ("deliver 0\n", 9, Range),
            ("deliver 4294967296\n", 9, Range),
            ("deliver -0\n", 9, Number),
            ("deliver 00\n", 9, Number),
            ("deliver 1,2\n", 9, Number),
            ("deliver 1 x\n", 11, Number),
            ("deliver 1  2\n", 11, Word),
            ("deliver 1 \n", 11, Word),
            ("deliver 1 2", 12, Word),
            ("deliver 12 34 0\n", 15, Range),
        ],
    );
}

#[test]
fn crashes_and_restarts(rt: HostRuntime) {
    check(
        &rt,
        rt.alloc(),
        &[
            ("crash\n", 6, Word),
            ("crash", 6, Word),
            ("crash \n", 7, Word),
            ("crash  2\n", 7, Word),
            ("crash 0\n", 7, Range),
            ("crash 6\n", 7, Range),
            ("crash 9\n", 7, Range),
            ("crash 9", 7, Range),
            ("crash 02\n", 7, Number),
            ("crash x\n", 7, Number),
            ("crash 2 3\n", 9, Word),
            ("crash 2 \n", 9, Word),
            ("crash 2", 8, Word),
            ("restart\n", 8, Word),
            ("restart \n", 9, Word),
            ("restart  2\n", 9, Word),
            ("restart 0\n", 9, Range),
            ("restart 6\n", 9, Range),
            ("restart 9\n", 9, Range),
            ("restart -2\n", 9, Number),
            ("restart 2 epoch 2\n", 11, Word),
            ("restart 2 \n", 11, Word),
            ("restart 2", 10, Word),
        ],
    );
}

#[test]
fn stops(rt: HostRuntime) {
    check(
        &rt,
        rt.alloc(),
        &[
            ("stop\n", 5, Word),
            ("stop \n", 6, Word),
            ("stop 1\n", 7, Word),
            ("stop 1 \n", 8, Word),
            ("stop 1  1 lost\n", 8, Word),
            ("stop 1 1\n", 9, Word),
            ("stop 0 1 lost\n", 6, Range),
            ("stop 6 1 lost\n", 6, Range),
            ("stop x 1 lost\n", 6, Number),
            ("stop 1 0 lost\n", 8, Range),
            ("stop 1 12 lost\n", 8, Range),
            ("stop 1 011 lost\n", 8, Number),
            ("stop 1 01 lost\n", 8, Number),
            ("stop 1 -1 lost\n", 8, Number),
            ("stop 1 1 Lost\n", 10, Word),
            ("stop 1 1 los\n", 10, Word),
            ("stop 1 1 lost 2\n", 15, Word),
            ("stop 1 1 lost \n", 15, Word),
            ("stop 1 1 lost", 14, Word),
            ("stop 6 9 nothing", 6, Range),
        ],
    );
}

#[test]
fn settles(rt: HostRuntime) {
    check(
        &rt,
        rt.alloc(),
        &[
            ("settle \n", 8, Word),
            ("settle  1\n", 8, Word),
            ("settle 0\n", 8, Range),
            ("settle 6\n", 8, Range),
            ("settle 3 6\n", 10, Range),
            ("settle 3 3\n", 10, Order),
            ("settle 3 2\n", 10, Order),
            ("settle 1 2 4 3\n", 14, Order),
            ("settle 3 2", 10, Order),
            ("settle 2 x\n", 10, Number),
            ("settle 2 03\n", 10, Number),
            ("settle 2 \n", 10, Word),
            ("settle 2", 9, Word),
            ("settle", 7, Word),
        ],
    );
}

#[test]
fn beginnings(rt: HostRuntime) {
    check(
        &rt,
        rt.alloc(),
        &[
            ("begin\n", 6, Word),
            ("begin 1\n", 8, Word),
            ("begin 1 \n", 9, Word),
            ("begin 6 new:a:-:1\n", 7, Range),
            ("begin x new:a:-:1\n", 7, Number),
            ("begin 1 foo:1\n", 9, Word),
            ("begin 1 :\n", 9, Word),
            ("begin 1 New:a:-:1\n", 9, Word),
            ("begin 1 set\n", 12, Word),
            ("begin 1 set:0:-:1\n", 13, Range),
            ("begin 1 set:4294967296:-:1\n", 13, Range),
            ("begin 1 set:x:-:1\n", 13, Number),
            ("begin 1 set:01:-:1\n", 13, Number),
            ("begin 1 set:1\n", 14, Word),
            ("begin 1 set:1:-\n", 16, Word),
            ("begin 1 keep\n", 13, Word),
            ("begin 1 keep:\n", 14, Number),
            ("begin 1 keep:-1\n", 14, Number),
            ("begin 1 keep:0\n", 14, Range),
            ("begin 1 keep:1:2\n", 16, Word),
            ("begin 1 keep:1:\n", 16, Word),
            ("begin 1 keep:1  keep:2\n", 16, Word),
            ("begin 1 keep:1 \n", 16, Word),
            ("begin 1 keep:1", 15, Word),
            ("begin 1 keep:1 keep:0\n", 21, Range),
        ],
    );
}

#[test]
fn items(rt: HostRuntime) {
    check(
        &rt,
        rt.alloc(),
        &[
            ("begin 1 new\n", 12, Word),
            ("begin 1 new:\n", 13, Key),
            ("begin 1 new:a\n", 14, Word),
            ("begin 1 new:a!\n", 13, Key),
            ("begin 1 new:a:\n", 15, Range),
            ("begin 1 new:a:-\n", 16, Word),
            ("begin 1 new:a:--:1\n", 15, Range),
            ("begin 1 new:a:abc:1\n", 15, Range),
            ("begin 1 new:a:AB:1\n", 15, Range),
            ("begin 1 new:a:0g:1\n", 15, Range),
            ("begin 1 new:a:-:\n", 17, Number),
            ("begin 1 new:a:-:-\n", 17, Number),
            ("begin 1 new:a:-:-0\n", 17, Number),
            ("begin 1 new:a:-:007\n", 17, Number),
            ("begin 1 new:a:-:-07\n", 17, Number),
            ("begin 1 new:a:-:+7\n", 17, Number),
            ("begin 1 new:a:-:9223372036854775808\n", 17, Range),
            ("begin 1 new:a:-:-9223372036854775809\n", 17, Range),
            ("begin 1 new:a:-:1,,2\n", 19, Number),
            ("begin 1 new:a:-:1,\n", 19, Number),
            ("begin 1 new:a:-:1,2,3,4,5\n", 25, Range),
            ("begin 1 new:a:-:1,2,3,4,x\n", 25, Range),
            ("begin 1 new:a:-:1,2,3,x,5\n", 23, Number),
            ("begin 1 new:a:-:1:2\n", 19, Word),
            ("begin 1 new:a:-:1:\n", 19, Word),
            ("begin 1 new:a:0:x\n", 15, Range),
        ],
    );
}
