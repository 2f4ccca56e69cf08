//! Lines of a schedule that are read, with their events, and lines at the longest that they may be.
//! The expected values come from the grammar, by hand.
use crate::schedule_words::five_centres;
use mdcc_base::{Centre, HeapList, Image};
use mdcc_option::Item;
use mdcc_sched::{Event, SchedCause, SchedFault, UpdateWord, parse_line};
use std::alloc::Global;
use std::process::Abort;
use std::test::Fail;

// The event of a line that has one.
fn event_of(rt: &impl Abort, alloc: Global, line: &str) -> Event {
    parse_line(alloc, line.as_bytes(), &five_centres(rt))
        .expect(rt, "a line")
        .expect(rt, "an event")
}

// Whether the line is a read of this key at this centre.
fn is_read(rt: &impl Abort, alloc: Global, line: &str, number: u8, name: &str) -> bool {
    match event_of(rt, alloc, line) {
        Event::Read(centre, key) => centre.number() == number && key.bytes() == name.as_bytes(),
        _ => false,
    }
}

fn is_tick(rt: &impl Abort, alloc: Global, line: &str, number: u8) -> bool {
    match event_of(rt, alloc, line) {
        Event::Tick(centre) => centre.number() == number,
        _ => false,
    }
}

fn is_crash(rt: &impl Abort, alloc: Global, line: &str, number: u8) -> bool {
    match event_of(rt, alloc, line) {
        Event::Crash(centre) => centre.number() == number,
        _ => false,
    }
}

fn is_restart(rt: &impl Abort, alloc: Global, line: &str, number: u8) -> bool {
    match event_of(rt, alloc, line) {
        Event::Restart(centre) => centre.number() == number,
        _ => false,
    }
}

fn is_stop(
    rt: &impl Abort,
    alloc: Global,
    line: &str,
    number: u8,
    place: u8,
    image: Image,
) -> bool {
    match event_of(rt, alloc, line) {
        Event::Stop(centre, call, left) => {
            centre.number() == number && call == place && left == image
        }
        _ => false,
    }
}

fn is_delivery(rt: &impl Abort, alloc: Global, line: &str, numbers: &[u32]) -> bool {
    match event_of(rt, alloc, line) {
        Event::Deliver(found) => found.as_slice() == numbers,
        _ => false,
    }
}

fn are_centres(centres: &[Centre], numbers: &[u8]) -> bool {
    if centres.len() != numbers.len() {
        return false;
    }
    for i in 0..numbers.len() {
        if centres[i].number() != numbers[i] {
            return false;
        }
    }
    true
}

fn is_settle(rt: &impl Abort, alloc: Global, line: &str, numbers: &[u8]) -> bool {
    match event_of(rt, alloc, line) {
        Event::Settle(centres) => are_centres(centres.as_slice(), numbers),
        _ => false,
    }
}

// The updates of a line that begins a transaction at this centre.
fn updates_of(rt: &impl Abort, alloc: Global, line: &str, number: u8) -> HeapList<UpdateWord> {
    match event_of(rt, alloc, line) {
        Event::Begin(centre, updates) if centre.number() == number => updates,
        _ => HeapList::new(alloc),
    }
}

fn is_item(item: &Item, body: &[u8], values: &[i64]) -> bool {
    item.body.as_slice() == body && item.values.as_slice() == values
}

fn is_new(update: &UpdateWord, key: &str, body: &[u8], values: &[i64]) -> bool {
    match update {
        UpdateWord::New(found, item) => {
            found.bytes() == key.as_bytes() && is_item(item, body, values)
        }
        _ => false,
    }
}

fn is_set(update: &UpdateWord, read: u32, body: &[u8], values: &[i64]) -> bool {
    match update {
        UpdateWord::Set(found, item) => *found == read && is_item(item, body, values),
        _ => false,
    }
}

fn is_keep(update: &UpdateWord, read: u32) -> bool {
    match update {
        UpdateWord::Keep(found) => *found == read,
        _ => false,
    }
}

// Whether the line has no event.
fn is_skipped(rt: &impl Abort, alloc: Global, line: &str) -> bool {
    parse_line(alloc, line.as_bytes(), &five_centres(rt))
        .expect(rt, "a line")
        .is_none()
}

#[test]
fn skipped_lines(rt: HostRuntime) {
    let alloc = rt.alloc();
    assert!(rt; is_skipped(&rt, alloc, "\n") && is_skipped(&rt, alloc, "#\n"));
    assert!(rt; is_skipped(&rt, alloc, "# read 9 x\n") && is_skipped(&rt, alloc, "#  \n"));
}

#[test]
fn reads(rt: HostRuntime) {
    let alloc = rt.alloc();
    let longest = "abcdefghijklmnopqrstuvwxyz012345";
    assert!(rt; is_read(&rt, alloc, "read 1 a\n", 1, "a"));
    assert!(rt; is_read(&rt, alloc, "read 5 Zz9_./-\n", 5, "Zz9_./-"));
    assert!(rt;
        is_read(
            &rt,
            alloc,
            "read 3 abcdefghijklmnopqrstuvwxyz012345\n",
            3,
            longest
        )
    );
}

#[test]
fn ticks(rt: HostRuntime) {
    let alloc = rt.alloc();
    assert!(rt; is_tick(&rt, alloc, "tick 1\n", 1) && is_tick(&rt, alloc, "tick 5\n", 5));
}

#[test]
fn crashes(rt: HostRuntime) {
    let alloc = rt.alloc();
    assert!(rt; is_crash(&rt, alloc, "crash 1\n", 1) && is_crash(&rt, alloc, "crash 2\n", 2));
    assert!(rt; is_crash(&rt, alloc, "crash 5\n", 5));
}

#[test]
fn restarts(rt: HostRuntime) {
    let alloc = rt.alloc();
    assert!(rt; is_restart(&rt, alloc, "restart 1\n", 1));
    assert!(rt; is_restart(&rt, alloc, "restart 2\n", 2));
    assert!(rt; is_restart(&rt, alloc, "restart 5\n", 5));
}

#[test]
fn stops(rt: HostRuntime) {
    let alloc = rt.alloc();
    assert!(rt; is_stop(&rt, alloc, "stop 1 1 lost\n", 1, 1, Image::Lost));
    assert!(rt; is_stop(&rt, alloc, "stop 2 3 kept\n", 2, 3, Image::Kept));
    assert!(rt; is_stop(&rt, alloc, "stop 5 4 torn\n", 5, 4, Image::Torn));
    assert!(rt; is_stop(&rt, alloc, "stop 1 5 lost\n", 1, 5, Image::Lost));
    assert!(rt; is_stop(&rt, alloc, "stop 1 11 kept\n", 1, 11, Image::Kept));
}

#[test]
fn deliveries(rt: HostRuntime) {
    let alloc = rt.alloc();
    let longest = [4_294_967_295, 1, 1];
    let seven = [1, 2, 3, 4, 5, 6, 7];
    assert!(rt; is_delivery(&rt, alloc, "deliver 1\n", &[1]));
    assert!(rt; is_delivery(&rt, alloc, "deliver 4294967295 1 1\n", &longest));
    assert!(rt; is_delivery(&rt, alloc, "deliver 1 2 3 4 5 6 7\n", &seven));
}

#[test]
fn settles(rt: HostRuntime) {
    let alloc = rt.alloc();
    assert!(rt; is_settle(&rt, alloc, "settle\n", &[]));
    assert!(rt; is_settle(&rt, alloc, "settle 1\n", &[1]));
    assert!(rt; is_settle(&rt, alloc, "settle 1 3 5\n", &[1, 3, 5]));
    assert!(rt; is_settle(&rt, alloc, "settle 1 2 3 4 5\n", &[1, 2, 3, 4, 5]));
}

// Whether the one update is a first item under key a.
fn is_only_new(updates: &[UpdateWord], body: &[u8], values: &[i64]) -> bool {
    updates.len() == 1 && is_new(&updates[0], "a", body, values)
}

#[test]
fn one_update(rt: HostRuntime) {
    let updates = updates_of(&rt, rt.alloc(), "begin 1 new:a:-:10\n", 1);
    assert!(rt; is_only_new(updates.as_slice(), b"", &[10]));
}

fn are_three(updates: &[UpdateWord]) -> bool {
    updates.len() == 3
        && is_set(&updates[0], 1, &[0, 255, 122], &[-1, 0, 3, 4])
        && is_keep(&updates[1], 4_294_967_295)
        && is_new(&updates[2], "b.c", b"", &[-5])
}

#[test]
fn three_updates(rt: HostRuntime) {
    let line = "begin 5 set:1:00ff7a:-1,0,3,4 keep:4294967295 new:b.c:-:-5\n";
    assert!(rt; are_three(updates_of(&rt, rt.alloc(), line, 5).as_slice()));
}

#[test]
fn values_at_the_ends_of_64_bits(rt: HostRuntime) {
    let line = "begin 2 new:a:-:9223372036854775807,-9223372036854775808\n";
    let updates = updates_of(&rt, rt.alloc(), line, 2);
    assert!(rt; is_only_new(updates.as_slice(), b"", &[i64::MAX, i64::MIN]));
}

// A front, a part so many times, and an end.
fn padded(alloc: Global, front: &str, part: &str, times: usize, end: &str) -> Result<String, Fail> {
    let mut line = String::new(alloc);
    line.push_str(front)?;
    for _ in 0..times {
        line.push_str(part)?;
    }
    line.push_str(end)?;
    Ok(line)
}

// Whether the line is refused so.
fn is_refused(rt: &impl Abort, alloc: Global, line: &str, column: u32, cause: SchedCause) -> bool {
    parse_line(alloc, line.as_bytes(), &five_centres(rt)).err()
        == Some(SchedFault { column, cause })
}

#[test]
fn a_body_of_128_bytes(rt: HostRuntime) -> Result<(), Fail> {
    let line = padded(rt.alloc(), "begin 1 new:a:", "ab", 128, ":1\n")?;
    let updates = updates_of(&rt, rt.alloc(), &line, 1);
    assert!(rt; is_only_new(updates.as_slice(), &[171; 128], &[1]));
    Ok(())
}

#[test]
fn a_body_of_129_bytes(rt: HostRuntime) -> Result<(), Fail> {
    let line = padded(rt.alloc(), "begin 1 new:a:", "ab", 129, ":1\n")?;
    assert!(rt; is_refused(&rt, rt.alloc(), &line, 15, SchedCause::Range));
    Ok(())
}

#[test]
fn a_comment_of_4096_bytes(rt: HostRuntime) -> Result<(), Fail> {
    let line = padded(rt.alloc(), "#", " ", 4095, "\n")?;
    assert!(rt; is_skipped(&rt, rt.alloc(), &line));
    Ok(())
}

// A long line: its front, a part and how often it stands, its end, and where and why it is refused.
type Row<'a> = (&'a str, &'a str, usize, &'a str, u32, SchedCause);

fn check(rt: &impl Abort, alloc: Global, rows: &[Row]) -> Result<(), Fail> {
    for (front, part, times, end, column, cause) in rows {
        let line = padded(alloc, front, part, *times, end)?;
        assert!(rt; is_refused(rt, alloc, &line, *column, *cause), "{front}");
    }
    Ok(())
}

#[test]
fn long_lines(rt: HostRuntime) -> Result<(), Fail> {
    let rows = [
        ("#", " ", 4095, "", 4097, SchedCause::Word),
        ("#", " ", 4096, "\n", 4097, SchedCause::Range),
        ("#", " ", 4096, "", 4097, SchedCause::Range),
        ("read 9 ", " ", 4090, "\n", 6, SchedCause::Range),
        ("read 9 ", " ", 4089, "\n", 6, SchedCause::Range),
        ("tick 1", " ", 4090, "\n", 8, SchedCause::Word),
        ("tock ", "1", 4092, "\n", 1, SchedCause::Word),
        ("deliver ", "1", 4089, "\n", 9, SchedCause::Range),
        ("deliver", " 1", 2045, "\n", 4097, SchedCause::Range),
        ("deliver", " 1", 2045, " x\n", 4097, SchedCause::Range),
        ("deliver", " 1", 2044, " x\n", 4097, SchedCause::Range),
        ("deliver", " 1", 2044, "x\n", 4095, SchedCause::Number),
    ];
    check(&rt, rt.alloc(), &rows)
}
