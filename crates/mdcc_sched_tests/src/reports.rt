//! Lines of a report, and the parts that update words stand for. The expected lines come from worked
//! examples of the report's language.
use mdcc_base::{BoundedList, Centre, HeapList, Image, Key, TxId};
use mdcc_option::{BeginFault, Item, Known, Part, Token, Update};
use mdcc_sched::{Line, ResolveFault, UpdateWord, print_line, resolve};
use std::alloc::Global;
use std::process::Abort;
use std::test::Fail;

fn centre(rt: &impl Abort, number: u8) -> Centre {
    Centre::new(number).expect(rt, "a centre")
}

fn key(rt: &impl Abort, name: &str) -> Key {
    Key::new(name.as_bytes()).expect(rt, "a key")
}

// The transaction 1.2.3.
fn tx(rt: &impl Abort) -> TxId {
    TxId {
        centre: centre(rt, 1),
        epoch: 2,
        seq: 3,
    }
}

fn item(body: &[u8], values: &[i64]) -> Item {
    Item {
        body: BoundedList::from_slice(body).unwrap_or_default(),
        values: BoundedList::from_slice(values).unwrap_or_default(),
    }
}

// What a reader of a version saw, who saw one transaction.
fn token(rt: &impl Abort, version: u64) -> Token {
    Token {
        version,
        seen: BoundedList::from_slice(&[tx(rt)]).unwrap_or_default(),
    }
}

// A read of the key `a` at version 7.
fn known(rt: &impl Abort, item: Option<Item>) -> Known {
    Known {
        key: key(rt, "a"),
        token: token(rt, 7),
        item,
    }
}

// Whether the line is printed so, after what was there.
fn is_printed(alloc: Global, line: &Line, text: &str) -> Result<bool, Fail> {
    let mut out = Vec::from_slice(alloc, b"front\n")?;
    print_line(line, &mut out)?;
    let mut expected = Vec::from_slice(alloc, b"front\n")?;
    expected.extend_from_slice(text.as_bytes())?;
    Ok(out.as_slice() == expected.as_slice())
}

fn check(rt: &impl Abort, alloc: Global, line: Line, text: &str) -> Result<(), Fail> {
    assert!(rt; is_printed(alloc, &line, text)?, "{text}");
    Ok(())
}

#[test]
fn lines_of_reads(rt: HostRuntime) -> Result<(), Fail> {
    let shown = known(&rt, Some(item(&[0, 255, 16], &[10, -4])));
    let text = "read 2 at 3 a version 7 seen 1 values 10,-4 body 00ff10\n";
    check(&rt, rt.alloc(), Line::Read(2, centre(&rt, 3), shown), text)
}

#[test]
fn lines_of_reads_without_a_body(rt: HostRuntime) -> Result<(), Fail> {
    let bare = known(&rt, Some(item(&[], &[i64::MIN])));
    let text = "read 1 at 1 a version 7 seen 1 values -9223372036854775808 body -\n";
    check(&rt, rt.alloc(), Line::Read(1, centre(&rt, 1), bare), text)
}

#[test]
fn lines_of_reads_without_an_item(rt: HostRuntime) -> Result<(), Fail> {
    let none = Known {
        key: key(&rt, "x/y"),
        token: Token::default(),
        item: None,
    };
    let line = Line::Read(4_294_967_295, centre(&rt, 9), none);
    let text = "read 4294967295 at 9 x/y version 0 none\n";
    check(&rt, rt.alloc(), line, text)
}

// Whether a beginning that is refused for the key `a` is printed so.
fn check_refused(
    rt: &impl Abort,
    alloc: Global,
    fault: BeginFault,
    text: &str,
) -> Result<(), Fail> {
    check(rt, alloc, Line::Refused(key(rt, "a"), fault), text)
}

#[test]
fn lines_of_beginnings(rt: HostRuntime) -> Result<(), Fail> {
    let alloc = rt.alloc();
    check(&rt, alloc, Line::Begun(tx(&rt), 6), "begin 1.2.3 next 6\n")?;
    let stale = BeginFault::Stale(token(&rt, 7));
    check_refused(
        &rt,
        alloc,
        stale,
        "begin refused stale a version 7 seen 1\n",
    )?;
    let unseen = BeginFault::Unseen(2);
    check_refused(&rt, alloc, unseen, "begin refused unseen a version 2\n")?;
    check_refused(&rt, alloc, BeginFault::NoItem, "begin refused noitem a\n")?;
    check_refused(&rt, alloc, BeginFault::Sequence, "begin refused sequence\n")?;
    check_refused(&rt, alloc, BeginFault::Busy, "begin refused busy\n")
}

// The line of a settle with the centres 1 and 3.
fn settle_of_two(rt: &impl Abort, alloc: Global) -> Result<Line, Fail> {
    let mut centres = HeapList::new(alloc);
    centres.push(centre(rt, 1))?;
    centres.push(centre(rt, 3))?;
    Ok(Line::Settle(centres))
}

#[test]
fn lines_of_messages(rt: HostRuntime) -> Result<(), Fail> {
    let alloc = rt.alloc();
    check(&rt, alloc, Line::Deliver(5, 12), "deliver 5 next 12\n")?;
    check(&rt, alloc, Line::Settle(HeapList::new(alloc)), "settle\n")?;
    check(&rt, alloc, settle_of_two(&rt, alloc)?, "settle 1 3\n")?;
    check(&rt, alloc, Line::Settled(14, 15), "settled 14 next 15\n")
}

#[test]
fn lines_of_centres(rt: HostRuntime) -> Result<(), Fail> {
    let alloc = rt.alloc();
    let fourth = centre(&rt, 4);
    check(
        &rt,
        alloc,
        Line::Tick(centre(&rt, 2), 19),
        "tick 2 next 19\n",
    )?;
    let sweep = Line::Sweep(centre(&rt, 2), 19);
    check(&rt, alloc, sweep, "sweep 2 next 19\n")?;
    check(&rt, alloc, Line::Crash(fourth), "crash 4\n")?;
    check(
        &rt,
        alloc,
        Line::Stop(fourth, 2, Image::Torn),
        "stop 4 2 torn\n",
    )?;
    check(&rt, alloc, Line::Restart(fourth, 2), "restart 4 epoch 2\n")?;
    check(&rt, alloc, Line::Stopped(fourth), "stopped 4\n")?;
    let dropped = Line::Dropped(fourth, 18, 17);
    check(&rt, alloc, dropped, "dropped 4 needs 18 spare 17\n")
}

#[test]
fn lines_of_outcomes(rt: HostRuntime) -> Result<(), Fail> {
    let alloc = rt.alloc();
    check(
        &rt,
        alloc,
        Line::Chosen(tx(&rt), true),
        "chosen 1.2.3 commit\n",
    )?;
    check(
        &rt,
        alloc,
        Line::Chosen(tx(&rt), false),
        "chosen 1.2.3 abort\n",
    )?;
    let heard = Line::Heard(centre(&rt, 5), tx(&rt), false);
    check(&rt, alloc, heard, "heard 5 1.2.3 abort\n")
}

#[test]
fn the_last_line(rt: HostRuntime) -> Result<(), Fail> {
    let end = Line::End {
        events: 9,
        messages: 13,
        commits: 1,
        aborts: 0,
        undecided: 2,
    };
    let text = "end events 9 messages 13 commits 1 aborts 0 open 2\n";
    check(&rt, rt.alloc(), end, text)
}

fn missing_read(fault: ResolveFault) -> Option<u32> {
    match fault {
        ResolveFault::NoRead(number) => Some(number),
        _ => None,
    }
}

fn missing_item(fault: ResolveFault) -> Option<Key> {
    match fault {
        ResolveFault::NoItem(key) => Some(key),
        _ => None,
    }
}

// Three reads: of an item, one that was not made, and one that showed none.
fn reads(rt: &impl Abort) -> [Option<Known>; 3] {
    [
        Some(known(rt, Some(item(&[1], &[5])))),
        None,
        Some(known(rt, None)),
    ]
}

// Words of each kind.
fn words(rt: &impl Abort) -> [UpdateWord; 4] {
    [
        UpdateWord::New(key(rt, "b"), item(&[], &[1])),
        UpdateWord::Set(3, item(&[], &[2])),
        UpdateWord::Keep(1),
        UpdateWord::Add(1, BoundedList::from_slice(&[(1, -4)]).unwrap_or_default()),
    ]
}

// A part of the key `a` at version 7.
fn part(rt: &impl Abort, update: Update) -> Part {
    Part {
        key: key(rt, "a"),
        version: 7,
        update,
    }
}

// A write of an item to the key `a` at version 7.
fn written(rt: &impl Abort, item: Item) -> Part {
    part(rt, Update::Write(item, token(rt, 7).seen))
}

// The parts that those words make.
fn expected(rt: &impl Abort) -> [Part; 4] {
    let inserted = Part {
        key: key(rt, "b"),
        version: 0,
        update: Update::Write(item(&[], &[1]), BoundedList::new()),
    };
    let amounts = BoundedList::from_slice(&[(1, -4)]).unwrap_or_default();
    [
        inserted,
        written(rt, item(&[], &[2])),
        written(rt, item(&[1], &[5])),
        part(rt, Update::Add(amounts)),
    ]
}

#[test]
fn words_that_make_parts(rt: HostRuntime) {
    let parts = resolve(rt.alloc(), &words(&rt), &reads(&rt)).expect(&rt, "parts");
    assert!(rt; parts.as_slice() == expected(&rt).as_slice());
}

// Why these words make no parts.
fn fault_of(rt: &impl Abort, alloc: Global, words: &[UpdateWord]) -> ResolveFault {
    resolve(alloc, words, &reads(rt))
        .err()
        .expect(rt, "a fault")
}

#[test]
fn a_missing_read_is_asked_first(rt: HostRuntime) {
    let words = [
        UpdateWord::Keep(3),
        UpdateWord::Keep(2),
        UpdateWord::Keep(4),
    ];
    let fault = fault_of(&rt, rt.alloc(), &words);
    assert!(rt; missing_read(fault) == Some(2));
}

#[test]
fn an_item_is_kept_where_there_is_one(rt: HostRuntime) {
    let words = [UpdateWord::Keep(1), UpdateWord::Keep(3)];
    let fault = fault_of(&rt, rt.alloc(), &words);
    assert!(rt; missing_item(fault) == Some(key(&rt, "a")));
}
