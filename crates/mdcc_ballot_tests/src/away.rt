//! A centre is down while forty transactions on forty keys commit without it, and no message that it missed ever arrives. It catches
//! up key by key, where a proposal or a leader's structure shows it that it is behind. All numbers are worked by hand from the rules.
ghost use Rattle.std.specs.Prelude.{◌<◌};

use crate::runs::run_with_words;
use mdcc_base::{MemorySink, MemorySource};
use std::alloc::AllocError;
use std::test::Fail;

const HEADER: &str = "quorums 5 3 4\ngamma 100\nbound 0 1000\nstart\ncrash 5\n";

// A schedule and its report, written side by side.
#[derive(Drop)]
struct Texts {
    schedule: String,
    report: String,
}

// The centre that manages a transaction, and which of its transactions this is.
#[derive(Clone, Copy)]
struct Begun {
    manager: u32,
    seq: u32,
}

// The name of a key, and what a read shows of it.
#[derive(Clone, Copy)]
struct Shown {
    letter: &'static str,
    index: u32,
    version: u32,
    seen: u32,
    value: u32,
}

// The transactions that the centre misses are managed by the four others in turn.
fn missed(count: u32) -> Begun {
    Begun {
        manager: count % 4 + 1,
        seq: count / 4 + 1,
    }
}

// What was written first.
fn inserted(letter: &'static str, index: u32, value: u32) -> Shown {
    Shown {
        letter,
        index,
        version: 1,
        seen: 0,
        value,
    }
}

// What stands at the key of this number once the forty transactions are through: twenty items with an add, ten set anew, and ten left.
fn missed_item(number: u32) -> Shown
    requires { number < 40 }
{
    let (letter, index, version, seen, value) = if number < 10 {
        ("a", 10 + number, 1, 1, 109 - number)
    } else if number < 20 {
        ("b", number - 10, 1, 1, 183 + number)
    } else if number < 30 {
        ("a", number - 20, 2, 0, 280 + number)
    } else {
        ("b", number - 20, 1, 0, 180 + number)
    };
    Shown {
        letter,
        index,
        version,
        seen,
        value,
    }
}

// A read of a key that was written.
fn read(texts: &mut Texts, read: u32, centre: u32, shown: Shown) -> Result<(), AllocError> {
    let letter = shown.letter;
    let index = shown.index;
    let version = shown.version;
    let seen = shown.seen;
    let value = shown.value;
    write!(texts.schedule, "read {centre} {letter}{index}\n")?;
    write!(texts.report, "read {read} at {centre} {letter}{index} ")?;
    write!(
        texts.report,
        "version {version} seen {seen} values {value} body -\n"
    )
}

// The delivery of a message, and the number of the next one after it.
fn deliver(texts: &mut Texts, message: u32, next: u32) -> Result<(), AllocError> {
    write!(texts.schedule, "deliver {message}\n")?;
    write!(texts.report, "deliver {message} next {next}\n")
}

// A centre hears that a transaction commits.
fn heard(texts: &mut Texts, centre: u32, begun: Begun) -> Result<(), AllocError> {
    let manager = begun.manager;
    let seq = begun.seq;
    write!(texts.report, "heard {centre} {manager}.1.{seq} commit\n")
}

// The transaction's votes are there.
fn chosen(texts: &mut Texts, begun: Begun) -> Result<(), AllocError> {
    let manager = begun.manager;
    let seq = begun.seq;
    write!(texts.report, "chosen {manager}.1.{seq} commit\n")
}

// Centres 1 to 4 commit a transaction.
fn settle(texts: &mut Texts, begun: Begun, count: u32, next: u32) -> Result<(), AllocError> {
    texts.schedule.push_str("settle 1 2 3 4\n")?;
    texts.report.push_str("settle 1 2 3 4\n")?;
    chosen(texts, begun)?;
    heard(texts, begun.manager, begun)?;
    for centre in 1..5u32 {
        if centre != begun.manager {
            heard(texts, centre, begun)?;
        }
    }
    write!(texts.report, "settled {count} next {next}\n")
}

// What is reported of a begin.
fn report_begin(texts: &mut Texts, begun: Begun, next: u32) -> Result<(), AllocError> {
    let manager = begun.manager;
    let seq = begun.seq;
    write!(texts.report, "begin {manager}.1.{seq} next {next}\n")
}

// Two items are inserted: ten proposals, eight votes, and four messages about the outcome, of which three arrive.
fn insert(texts: &mut Texts, index: u32) -> Result<(), AllocError>
    requires { index < 20 }
{
    let begun = missed(index);
    let manager = begun.manager;
    let sent = 22 * index;
    let first = 100 + index;
    let second = 200 + index;
    write!(
        texts.schedule,
        "begin {manager} new:a{index}:-:{first} new:b{index}:-:{second}\n"
    )?;
    report_begin(texts, begun, sent + 11)?;
    settle(texts, begun, 19, sent + 23)
}

// An item is set anew.
fn set(texts: &mut Texts, index: u32) -> Result<(), AllocError>
    requires { index < 10 }
{
    let begun = missed(20 + index);
    let manager = begun.manager;
    let sent = 440 + 13 * index;
    let number = 1 + index;
    let value = 300 + index;
    read(texts, number, manager, inserted("a", index, 100 + index))?;
    write!(texts.schedule, "begin {manager} set:{number}:-:{value}\n")?;
    report_begin(texts, begun, sent + 6)?;
    settle(texts, begun, 11, sent + 14)
}

// An order takes from two items.
fn order(texts: &mut Texts, index: u32) -> Result<(), AllocError>
    requires { index < 10 }
{
    let begun = missed(30 + index);
    let manager = begun.manager;
    let sent = 570 + 22 * index;
    let first = 11 + 2 * index;
    let second = first + 1;
    let taken = 2 * index + 1;
    read(
        texts,
        first,
        manager,
        inserted("a", 10 + index, 110 + index),
    )?;
    read(texts, second, manager, inserted("b", index, 200 + index))?;
    write!(
        texts.schedule,
        "begin {manager} add:{first}:1=-{taken} add:{second}:1=-7\n"
    )?;
    report_begin(texts, begun, sent + 11)?;
    settle(texts, begun, 19, sent + 23)
}

// The restarted centre has nothing of a key.
fn read_nothing(texts: &mut Texts, number: u32) -> Result<(), AllocError>
    requires { number < 40 }
{
    let shown = missed_item(number);
    let letter = shown.letter;
    let index = shown.index;
    let read = 31 + number;
    write!(texts.schedule, "read 5 {letter}{index}\n")?;
    write!(
        texts.report,
        "read {read} at 5 {letter}{index} version 0 none\n"
    )
}

// Centre 1 reads a key and begins to write it again.
fn begin_again(texts: &mut Texts, number: u32, begun: Begun, next: u32) -> Result<(), AllocError>
    requires { number < 40 }
{
    let first = 71 + 2 * number;
    read(texts, first, 1, missed_item(number))?;
    write!(texts.schedule, "begin 1 keep:{first}\n")?;
    report_begin(texts, begun, next)
}

// Centre 5 is proposed the next version. It says that it is behind, is given what it missed, and shows what centre 1 does. Asked again
// it votes, and it hears the outcome.
fn catch_up_by_a_proposal(texts: &mut Texts, number: u32) -> Result<(), AllocError>
    requires { number < 20 }
{
    let begun = Begun {
        manager: 1,
        seq: 11 + number,
    };
    let sent = 790 + 16 * number;
    begin_again(texts, number, begun, sent + 6)?;
    deliver(texts, sent + 5, sent + 7)?;
    deliver(texts, sent + 6, sent + 8)?;
    deliver(texts, sent + 7, sent + 8)?;
    read(texts, 72 + 2 * number, 5, missed_item(number))?;
    deliver(texts, sent + 5, sent + 9)?;
    settle(texts, begun, 12, sent + 17)?;
    deliver(texts, sent + 16, sent + 17)?;
    heard(texts, 5, begun)
}

// No proposal arrives. At its second tick centre 1 leads, by the promises of centres 1 to 3.
fn lead(texts: &mut Texts, sent: u32) -> Result<(), AllocError>
    requires { sent < 1800 }
{
    let repeated = sent + 11;
    let led = sent + 16;
    texts.schedule.push_str("tick 1\ntick 1\n")?;
    write!(texts.report, "tick 1 next {repeated}\ntick 1 next {led}\n")?;
    deliver(texts, sent + 11, sent + 17)?;
    deliver(texts, sent + 12, sent + 18)?;
    deliver(texts, sent + 13, sent + 19)?;
    deliver(texts, sent + 16, sent + 19)?;
    deliver(texts, sent + 17, sent + 19)?;
    deliver(texts, sent + 18, sent + 24)
}

// The structure comes to centres 5, 1 and 2, and each centre hears the outcome.
fn vote_for_a_structure(texts: &mut Texts, sent: u32, begun: Begun) -> Result<(), AllocError>
    requires { sent < 1800 }
{
    deliver(texts, sent + 23, sent + 27)?;
    deliver(texts, sent + 19, sent + 28)?;
    deliver(texts, sent + 20, sent + 29)?;
    chosen(texts, begun)?;
    deliver(texts, sent + 26, sent + 29)?;
    deliver(texts, sent + 27, sent + 29)?;
    deliver(texts, sent + 28, sent + 33)?;
    heard(texts, 1, begun)?;
    for centre in 2..6u32 {
        deliver(texts, sent + 27 + centre, sent + 33)?;
        heard(texts, centre, begun)?;
    }
    Ok(())
}

// Centre 5 comes to know by a leader's structure that it is behind, and asks the leader for what it missed.
fn catch_up_by_a_structure(texts: &mut Texts, index: u32) -> Result<(), AllocError>
    requires { index < 20 }
{
    let begun = Begun {
        manager: 1,
        seq: 31 + index,
    };
    let sent = 1110 + 32 * index;
    begin_again(texts, 20 + index, begun, sent + 6)?;
    lead(texts, sent)?;
    deliver(texts, sent + 23, sent + 25)?;
    deliver(texts, sent + 24, sent + 26)?;
    deliver(texts, sent + 25, sent + 26)?;
    read(texts, 112 + 2 * index, 5, missed_item(20 + index))?;
    vote_for_a_structure(texts, sent, begun)
}

// Both centres show the item as it was written again.
fn read_both(texts: &mut Texts, number: u32) -> Result<(), AllocError>
    requires { number < 40 }
{
    let missed = missed_item(number);
    let version = if missed.version == 1 { 2 } else { 3 };
    let shown = Shown {
        version,
        seen: 0,
        ..missed
    };
    read(texts, 151 + 2 * number, 1, shown)?;
    read(texts, 152 + 2 * number, 5, shown)
}

// Forty transactions commit on forty keys.
fn miss(texts: &mut Texts) -> Result<(), AllocError> {
    for index in 0..20u32 {
        insert(texts, index)?;
    }
    for index in 0..10u32 {
        set(texts, index)?;
    }
    for index in 0..10u32 {
        order(texts, index)?;
    }
    Ok(())
}

// The centre restarts, and catches up with each key.
fn return_and_catch_up(texts: &mut Texts) -> Result<(), AllocError> {
    texts.schedule.push_str("restart 5\n")?;
    texts.report.push_str("restart 5 epoch 2\n")?;
    for number in 0..40u32 {
        read_nothing(texts, number)?;
    }
    for number in 0..20u32 {
        catch_up_by_a_proposal(texts, number)?;
    }
    for index in 0..20u32 {
        catch_up_by_a_structure(texts, index)?;
    }
    for number in 0..40u32 {
        read_both(texts, number)?;
    }
    texts.report.push_str("end events 1812 messages 1750 commits 80 aborts 0 open 0\n")
}

#[test]
fn a_centre_that_missed_forty_transactions_catches_up(rt: HostRuntime) -> Result<(), Fail> {
    let mut texts = Texts {
        schedule: String::from_str(rt.alloc(), "mdcc-schedule 1\n")?,
        report: String::from_str(rt.alloc(), "mdcc-report 1\n")?,
    };
    texts.schedule.push_str(HEADER)?;
    texts.report.push_str(HEADER)?;
    miss(&mut texts)?;
    return_and_catch_up(&mut texts)?;
    let mut words = Vec::new(rt.alloc());
    words.push(String::from_str(rt.alloc(), "replay")?)?;
    let mut source = MemorySource::new(rt.alloc(), texts.schedule.as_bytes(), &[])?;
    let mut out = MemorySink::new(rt.alloc(), &[])?;
    let mut err = MemorySink::new(rt.alloc(), &[])?;
    let status = run_with_words(rt.alloc(), &words, &mut source, &mut out, &mut err).ok_or(
        "disks",
    )?;
    assert!(rt; out.bytes() == texts.report.as_bytes());
    assert!(rt; err.bytes().is_empty() && status == 0);
    Ok(())
}
