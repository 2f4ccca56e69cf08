//! The update word `add`: amounts that are read, and words that are refused. The expected values come
//! from the grammar, by hand.
use crate::schedule_words::{check, five_centres};
use mdcc_def_language::{Event, UpdateWord};
use mdcc_option::Cluster;
use mdcc_sched::SchedCause::{Number, Range, Word};
use mdcc_sched::parse_line;
use std::alloc::Global;

// Whether a word adds these amounts to the version that a read saw.
fn is_add(update: &UpdateWord, read: u32, amounts: &[(u8, i64)]) -> bool {
    match update {
        UpdateWord::Add(number, found) => *number == read && found.as_slice() == amounts,
        _ => false,
    }
}

// Whether the line begins a transaction of one such word.
fn is_read(cluster: &Cluster, alloc: Global, line: &str, read: u32, amounts: &[(u8, i64)]) -> bool {
    match parse_line(alloc, line.as_bytes(), cluster) {
        Ok(Some(Event::Begin(_, updates))) => {
            updates.len() == 1 && is_add(&updates.as_slice()[0], read, amounts)
        }
        _ => false,
    }
}

#[test]
fn amounts_are_read(rt: HostRuntime) {
    let (cluster, alloc) = (five_centres(&rt), rt.alloc());
    assert!(rt; is_read(&cluster, alloc, "begin 1 add:1:1=-4\n", 1, &[(1, -4)]));
    let line = "begin 5 add:7:1=0,2=-1,3=2,4=3\n";
    assert!(rt; is_read(&cluster, alloc, line, 7, &[(1, 0), (2, -1), (3, 2), (4, 3)]));
    let line = "begin 1 add:1:2=1,1=1,1=1\n";
    assert!(rt; is_read(&cluster, alloc, line, 1, &[(2, 1), (1, 1), (1, 1)]));
    let line = "begin 1 add:1:1=-9223372036854775808\n";
    assert!(rt; is_read(&cluster, alloc, line, 1, &[(1, i64::MIN)]));
}

#[test]
fn words_that_add_nothing(rt: HostRuntime) {
    check(
        &rt,
        rt.alloc(),
        &[
            ("begin 1 add\n", 12, Word),
            ("begin 1 add:0:1=2\n", 13, Range),
            ("begin 1 add:x:1=2\n", 13, Number),
            ("begin 1 add:1\n", 14, Word),
            ("begin 1 add:1:\n", 15, Number),
            ("begin 1 add:1:1\n", 16, Word),
            ("begin 1 add:1:0=2\n", 15, Range),
            ("begin 1 add:1:5=2\n", 15, Range),
            ("begin 1 add:1:-1=2\n", 15, Number),
            ("begin 1 add:1:1=\n", 17, Number),
            ("begin 1 add:1:1=+2\n", 17, Number),
            ("begin 1 add:1:1=-0\n", 17, Number),
            ("begin 1 add:1:1=9223372036854775808\n", 17, Range),
            ("begin 1 add:1:1=2=3\n", 19, Word),
            ("begin 1 add:1:1=2:3\n", 19, Word),
            ("begin 1 add:1:1=2,\n", 19, Number),
            ("begin 1 add:1:1=1,2=1,3=1,4=1,1=1\n", 31, Range),
        ],
    );
}
