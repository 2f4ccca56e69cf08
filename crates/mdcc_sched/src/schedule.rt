//! Lines of a schedule.
ghost use Rattle.std.specs.Prelude.{◌≡◌, ◌+◌, ◌≤◌, IfErr, length};
ghost use Rattle.mdcc_base.specs.Unless.{GivesUnless};
ghost use Rattle.mdcc_def_language.specs.Schedule.{last_centre, parse_tick, parse_crash, parse_restart, parse_read, parse_begin, parse_deliver, parse_settle, parse_image, parse_stop, parse_event, event_or_none, event_in, line_of};
ghost use Rattle.mdcc_def_language.specs.Lines.{bytes_of_line};
ghost use Rattle.mdcc_sched.specs.Free.{is_sched_memory};

use crate::lines::{bounded, bytes_of_line, line_end_of};
use crate::lists::{centres_from, numbers_from, parse_centre, updates_from};
use crate::words::{begins_with, word_after, word_at, word_end};
use mdcc_base::{Centre, HeapList, Image};
use mdcc_def_language::{Event, SchedCause, SchedFault};
use mdcc_option::Cluster;
use mdcc_sched_words::TextFault;
use mdcc_sched_words::faults::{narrowed, refused};
use mdcc_sched_words::keys::key_of;
use mdcc_sched_words::numbers::natural_of;
use mdcc_sched_words::places::{end_at, text_eq};
use std::alloc::Global;

// The centre behind a place, which ends the line.
fn last_centre(cluster: &Cluster, at: usize, line: &[u8]) -> Result<Centre, TextFault>
    requires { at ≤ length line.now }
    ensures value { result ≡ last_centre cluster.now at line.now }
    ensures column { IfErr result (λ fault. fault.column ≤ length line.now + 1) }
{
    let start = word_after(at, line)?;
    let centre = parse_centre(cluster, word_at(start, line), start + 1)?;
    end_at(word_end(start, line), line, 1)?;
    Ok(centre)
}

// `tick K`
fn parse_tick(cluster: &Cluster, line: &[u8]) -> Result<Event, TextFault>
    requires { 4 ≤ length line.now }
    ensures value { result ≡ parse_tick cluster.now line.now }
    ensures column { IfErr result (λ fault. fault.column ≤ length line.now + 1) }
{
    let centre = last_centre(cluster, 4, line)?;
    Ok(Event::Tick(centre))
}

// `crash K`
fn parse_crash(cluster: &Cluster, line: &[u8]) -> Result<Event, TextFault>
    requires { 5 ≤ length line.now }
    ensures value { result ≡ parse_crash cluster.now line.now }
    ensures column { IfErr result (λ fault. fault.column ≤ length line.now + 1) }
{
    let centre = last_centre(cluster, 5, line)?;
    Ok(Event::Crash(centre))
}

// `restart K`
fn parse_restart(cluster: &Cluster, line: &[u8]) -> Result<Event, TextFault>
    requires { 7 ≤ length line.now }
    ensures value { result ≡ parse_restart cluster.now line.now }
    ensures column { IfErr result (λ fault. fault.column ≤ length line.now + 1) }
{
    let centre = last_centre(cluster, 7, line)?;
    Ok(Event::Restart(centre))
}

// `read K KEY`
fn parse_read(cluster: &Cluster, line: &[u8]) -> Result<Event, TextFault>
    requires { 4 ≤ length line.now }
    ensures value { result ≡ parse_read cluster.now line.now }
    ensures column { IfErr result (λ fault. fault.column ≤ length line.now + 1) }
{
    let start = word_after(4, line)?;
    let centre = parse_centre(cluster, word_at(start, line), start + 1)?;
    let next = word_after(word_end(start, line), line)?;
    let key = key_of(word_at(next, line), next + 1)?;
    end_at(word_end(next, line), line, 1)?;
    Ok(Event::Read(centre, key))
}

// `begin K UPDATE ..`
fn parse_begin(alloc: Global, cluster: &Cluster, line: &[u8]) -> Result<Event, TextFault>
    requires { 5 ≤ length line.now }
    ensures value { GivesUnless is_sched_memory result (parse_begin cluster.now line.now) }
    ensures column { IfErr result (λ fault. fault.column ≤ length line.now + 1) }
{
    let start = word_after(5, line)?;
    let centre = parse_centre(cluster, word_at(start, line), start + 1)?;
    let next = word_after(word_end(start, line), line)?;
    let updates = updates_from(alloc, next, line)?;
    Ok(Event::Begin(centre, updates))
}

// `deliver M ..`
fn parse_deliver(alloc: Global, line: &[u8]) -> Result<Event, TextFault>
    requires { 7 ≤ length line.now }
    ensures value { GivesUnless is_sched_memory result (parse_deliver line.now) }
    ensures column { IfErr result (λ fault. fault.column ≤ length line.now + 1) }
{
    let start = word_after(7, line)?;
    let numbers = numbers_from(alloc, start, line)?;
    Ok(Event::Deliver(numbers))
}

// `settle` or `settle K ..`
fn parse_settle(alloc: Global, cluster: &Cluster, line: &[u8]) -> Result<Event, TextFault>
    requires { 6 ≤ length line.now }
    ensures value { GivesUnless is_sched_memory result (parse_settle cluster.now line.now) }
    ensures column { IfErr result (λ fault. fault.column ≤ length line.now + 1) }
{
    if line.len() == 6 {
        return Ok(Event::Settle(HeapList::new(alloc)));
    }
    let centres = centres_from(alloc, cluster, 7, line)?;
    Ok(Event::Settle(centres))
}

// What a crash leaves of what was not synced.
fn parse_image(word: &[u8], column: usize) -> Result<Image, TextFault>
    ensures value { result ≡ parse_image word.now column }
    ensures column { IfErr result (λ fault. fault.column ≡ column) }
{
    if text_eq(word, b"lost") {
        Ok(Image::Lost)
    } else if text_eq(word, b"kept") {
        Ok(Image::Kept)
    } else if text_eq(word, b"torn") {
        Ok(Image::Torn)
    } else {
        refused(column, SchedCause::Word)
    }
}

// `stop K N IMAGE`
fn parse_stop(cluster: &Cluster, line: &[u8]) -> Result<Event, TextFault>
    requires { 4 ≤ length line.now }
    ensures value { result ≡ parse_stop cluster.now line.now }
    ensures column { IfErr result (λ fault. fault.column ≤ length line.now + 1) }
{
    let start = word_after(4, line)?;
    let centre = parse_centre(cluster, word_at(start, line), start + 1)?;
    let next = word_after(word_end(start, line), line)?;
    let call = natural_of(word_at(next, line), next + 1, 1, 11)?;
    let last = word_after(word_end(next, line), line)?;
    let image = parse_image(word_at(last, line), last + 1)?;
    end_at(word_end(last, line), line, 1)?;
    Ok(Event::Stop(centre, call as u8, image))
}

// The event of a line that is not skipped.
fn parse_event(alloc: Global, cluster: &Cluster, line: &[u8]) -> Result<Event, TextFault>
    ensures value { GivesUnless is_sched_memory result (parse_event cluster.now line.now) }
    ensures column { IfErr result (λ fault. fault.column ≤ length line.now + 1) }
{
    if begins_with(b"read", line) {
        parse_read(cluster, line)
    } else if begins_with(b"begin", line) {
        parse_begin(alloc, cluster, line)
    } else if begins_with(b"deliver", line) {
        parse_deliver(alloc, line)
    } else if begins_with(b"settle", line) {
        parse_settle(alloc, cluster, line)
    } else if begins_with(b"tick", line) {
        parse_tick(cluster, line)
    } else if begins_with(b"crash", line) {
        parse_crash(cluster, line)
    } else if begins_with(b"restart", line) {
        parse_restart(cluster, line)
    } else if begins_with(b"stop", line) {
        parse_stop(cluster, line)
    } else {
        refused(1, SchedCause::Word)
    }
}

// The event of a line; an empty one and one that begins with `#` are skipped.
fn event_or_none(alloc: Global, cluster: &Cluster, line: &[u8]) -> Result<Option<Event>, TextFault>
    ensures value { GivesUnless is_sched_memory result (event_or_none cluster.now line.now) }
    ensures column { IfErr result (λ fault. fault.column ≤ length line.now + 1) }
{
    match line {
        [] => Ok(None),
        [b'#', ..] => Ok(None),
        _ => {
            let event = parse_event(alloc, cluster, line)?;
            Ok(Some(event))
        }
    }
}

// The event of a line with its line end, which is asked last.
fn event_in(alloc: Global, cluster: &Cluster, line: &[u8]) -> Result<Option<Event>, TextFault>
    ensures value { GivesUnless is_sched_memory result (event_in cluster.now line.now) }
    ensures column { IfErr result (λ fault. fault.column ≤ length (bytes_of_line line.now) + 2) }
{
    let text = bytes_of_line(line);
    let event = event_or_none(alloc, cluster, text)?;
    line_end_of(text, line)?;
    Ok(event)
}

/// Reads a line with its line end, in a cluster. It is none where the line is empty or a comment.
/// A refusal names the first byte that is refused by its column, from 1. Want of memory is the
/// cause Memory at column 1, which no word gives.
pub fn parse_line(
    alloc: Global,
    line: &[u8],
    cluster: &Cluster,
) -> Result<Option<Event>, SchedFault>
    ensures { GivesUnless is_sched_memory result (line_of cluster.now line.now) }
{
    let event = event_in(alloc, cluster, line);
    narrowed(bounded(bytes_of_line(line), event))
}
