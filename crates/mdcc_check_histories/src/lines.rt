//! Lines of a history.
ghost use Rattle.std.specs.Prelude.{◌≡◌, ◌+◌, ◌≤◌, IfErr, length};
ghost use Rattle.mdcc_def_language.specs.Lines.{bytes_of_line};
ghost use Rattle.mdcc_check_histories.specs.Grammar.{drafted, first_known, first_read, later_read, line_in, parse_commit, parse_read_line, parse_spelled, spelled_in, spelled_or_none};
ghost use Rattle.mdcc_check_histories.specs.Slots.{spelled_as, spelled_by, spelled_by_any};
ghost use Rattle.mdcc_check_histories.specs.declared.lines.Slot.{Slot as ASlot};

use crate::parts::{FirstParts, read_parts};
use crate::places::{begins_with, bytes_of_line, line_end_of, word_after, word_at, word_end};
use crate::words::{seen_in, tx_of, version_in};
use mdcc_base::{BoundedList, Key, TxId};
use mdcc_check::HistoryLine;
use mdcc_def_language::SchedCause;
use mdcc_option::{DraftFault, Item, Known, Schema, Token, Transaction};
use mdcc_sched_words::TextFault;
use mdcc_sched_words::bodies::body_of;
use mdcc_sched_words::faults::refused;
use mdcc_sched_words::keys::key_of;
use mdcc_sched_words::places::end_at;
use mdcc_sched_words::values::values_of;

/// A line as it is spelled: the parts of a commit are in any order, and may make no transaction.
#[derive(Drop)]
pub enum Spelled {
    Commit(TxId, FirstParts),
    Read(Known),
}

/// Where the large part of a line is put, so that no line makes room for one of its own: the parts of the last commit, and the last read.
#[derive(Drop)]
pub(crate) struct Slot {
    pub(crate) parts: FirstParts,
    pub(crate) known: Known,
}

/// What a line is of which the large part was put into a slot.
#[derive(Drop)]
pub(crate) enum LineKind {
    /// A commit of this transaction, of the parts in the slot.
    Commit(TxId),
    /// A read of the first state of this key.
    First(Key),
    /// The read in the slot.
    Read,
}

/// Why a line is refused.
#[derive(Drop)]
pub enum LineFault {
    /// By its text.
    Text(TextFault),
    /// Its parts make no transaction.
    Begin(DraftFault),
}

// A read of the first state of a key.
fn first_known(key: Key) -> Known
    ensures { result ≡ first_known key }
{
    Known {
        key,
        token: Token {
            version: 0,
            seen: BoundedList::new(),
        },
        item: None,
    }
}

// `commit T UPDATE ..`
fn read_commit(line: &[u8], slot: &mut Slot) -> Result<LineKind, TextFault>
    requires { 6 ≤ length line.now }
    ensures value { spelled_by result slot.new ≡ parse_commit line.now }
    ensures column { IfErr result (λ fault. fault.column ≤ length line.now + 1) }
{
    let start = word_after(6, line)?;
    let tx = tx_of(word_at(start, line), start + 1)?;
    let next = word_after(word_end(start, line), line)?;
    read_parts(next, line, &mut slot.parts)?;
    Ok(LineKind::Commit(tx))
}

// A read of the first state of a key, which ends the line at this place.
fn read_first(key: Key, at: usize, line: &[u8]) -> Result<LineKind, TextFault>
    requires { at ≤ length line.now }
    ensures value { (slot : ASlot) → spelled_by result slot ≡ first_read key at line.now }
    ensures column { IfErr result (λ fault. fault.column ≤ length line.now + 1) }
{
    end_at(at, line, 1)?;
    Ok(LineKind::First(key))
}

// `SEEN BODY VALUES` behind this place
fn read_later(
    key: Key,
    version: u64,
    at: usize,
    line: &[u8],
    slot: &mut Slot,
) -> Result<LineKind, TextFault>
    requires { at ≤ length line.now }
    ensures value { spelled_by result slot.new ≡ later_read key version at line.now }
    ensures column { IfErr result (λ fault. fault.column ≤ length line.now + 1) }
{
    let first = word_after(at, line)?;
    let seen = seen_in(word_at(first, line), first + 1)?;
    let second = word_after(word_end(first, line), line)?;
    let body = body_of(word_at(second, line), second + 1)?;
    let third = word_after(word_end(second, line), line)?;
    let values = values_of(word_at(third, line), third + 1)?;
    end_at(word_end(third, line), line, 1)?;
    slot.known = Known {
        key,
        token: Token { version, seen },
        item: Some(Item { body, values }),
    };
    Ok(LineKind::Read)
}

// `read KEY 0`, or `read KEY VERSION SEEN BODY VALUES`
fn read_read(line: &[u8], slot: &mut Slot) -> Result<LineKind, TextFault>
    requires { 4 ≤ length line.now }
    ensures value { spelled_by result slot.new ≡ parse_read_line line.now }
    ensures column { IfErr result (λ fault. fault.column ≤ length line.now + 1) }
{
    let start = word_after(4, line)?;
    let key = key_of(word_at(start, line), start + 1)?;
    let next = word_after(word_end(start, line), line)?;
    let version = version_in(word_at(next, line), next + 1)?;
    if version == 0 {
        read_first(key, word_end(next, line), line)
    } else {
        read_later(key, version, word_end(next, line), line, slot)
    }
}

// A line that is not skipped.
fn read_spelled(line: &[u8], slot: &mut Slot) -> Result<LineKind, TextFault>
    ensures value { spelled_by result slot.new ≡ parse_spelled line.now }
    ensures column { IfErr result (λ fault. fault.column ≤ length line.now + 1) }
{
    if begins_with(b"commit", line) {
        read_commit(line, slot)
    } else if begins_with(b"read", line) {
        read_read(line, slot)
    } else {
        refused(1, SchedCause::Word)
    }
}

// A line; an empty one and one that begins with `#` are skipped.
fn read_text(line: &[u8], slot: &mut Slot) -> Result<Option<LineKind>, TextFault>
    ensures value { spelled_by_any result slot.new ≡ spelled_or_none line.now }
    ensures column { IfErr result (λ fault. fault.column ≤ length line.now + 1) }
{
    match line {
        [] => Ok(None),
        [b'#', ..] => Ok(None),
        _ => {
            let kind = read_spelled(line, slot)?;
            Ok(Some(kind))
        }
    }
}

/// Reads a line of any length, with its line end, which is asked last.
pub(crate) fn read_line(line: &[u8], slot: &mut Slot) -> Result<Option<LineKind>, TextFault>
    ensures value { spelled_by_any result slot.new ≡ spelled_in line.now }
    ensures column { IfErr result (λ fault. fault.column ≤ length (bytes_of_line line.now) + 2) }
{
    let text = bytes_of_line(line);
    let kind = read_text(text, slot)?;
    line_end_of(text, line)?;
    Ok(kind)
}

/// A slot in which there is no line yet.
pub(crate) fn empty_slot() -> Slot {
    Slot {
        parts: FirstParts::new(),
        known: first_known(Key::default()),
    }
}

// What a line is.
fn spelled_as(kind: &LineKind, slot: Slot) -> Spelled
    ensures { result ≡ spelled_as kind.now slot }
{
    match kind {
        LineKind::Commit(tx) => Spelled::Commit(*tx, slot.parts),
        LineKind::First(key) => Spelled::Read(first_known(*key)),
        LineKind::Read => Spelled::Read(slot.known),
    }
}

/// A line of any length, with its line end, which is asked last. A refusal names the first byte that is refused by its column, from 1.
pub fn spelled_in(line: &[u8]) -> Result<Option<Spelled>, TextFault>
    ensures value { result ≡ spelled_in line.now }
    ensures column { IfErr result (λ fault. fault.column ≤ length (bytes_of_line line.now) + 2) }
{
    let mut slot = empty_slot();
    match read_line(line, &mut slot)? {
        Some(kind) => Ok(Some(spelled_as(&kind, slot))),
        None => Ok(None),
    }
}

// The line of a history that is spelled so.
fn drafted(schema: &Schema, spelled: Spelled) -> Result<HistoryLine, LineFault>
    ensures { result ≡ drafted schema.now spelled }
{
    match spelled {
        Spelled::Commit(tx, parts) => match Transaction::new(schema, parts.as_slice()) {
            Ok(transaction) => Ok(HistoryLine::Commit(tx, transaction)),
            Err(fault) => Err(LineFault::Begin(fault)),
        },
        Spelled::Read(known) => Ok(HistoryLine::Read(known)),
    }
}

/// The line of a history that a text is, with its line end; an empty one and one that begins with `#` are none.
pub fn line_in(schema: &Schema, line: &[u8]) -> Result<Option<HistoryLine>, LineFault>
    ensures { result ≡ line_in schema.now line.now }
{
    match spelled_in(line) {
        Ok(Some(spelled)) => {
            let line = drafted(schema, spelled)?;
            Ok(Some(line))
        }
        Ok(None) => Ok(None),
        Err(fault) => Err(LineFault::Text(fault)),
    }
}
