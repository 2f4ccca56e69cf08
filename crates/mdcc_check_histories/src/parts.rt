//! Updates of a commit.
ghost use Rattle.std.specs.Prelude.{◌≡◌, ◌&&◌, ◌+◌, ◌++◌, ◌<◌, ◌≤◌, ◌^◌, ◌∷◌, [], IfErr, IsTrue, length, take};
ghost use Rattle.std.specs.Bool.{OnTrue};
ghost use Rattle.mdcc_option.specs.Parts.{AreParts, are_parts_ascending};
ghost use Rattle.mdcc_option.specs.declared.items.Part.{Part as APart};
ghost use Rattle.mdcc_def_language.specs.Updates.{begins_update, parse_item};
ghost use Rattle.mdcc_def_language.specs.Words.{parts_from};
ghost use Rattle.mdcc_check_histories.specs.Grammar.{first_parts, parse_add, parse_write, part_of};
ghost use Rattle.mdcc_check_histories.specs.Slots.{parts_by};

use crate::places::word_at;
use crate::words::{seen_in, version_in};
use arrayvec::ArrayVec;
use mdcc_base::Key;
use mdcc_def_language::SchedCause;
use mdcc_option::{Item, Part, Update};
use mdcc_sched_words::TextFault;
use mdcc_sched_words::amounts::parse_amounts;
use mdcc_sched_words::bodies::body_of;
use mdcc_sched_words::faults::refused;
use mdcc_sched_words::keys::key_of;
use mdcc_sched_words::places::{end_at, part_at, part_end, start_after, text_eq};
use mdcc_sched_words::values::values_of;
use std::marker::Model;

/// The first nine parts of a commit; nine are too many for a transaction.
#[derive(Drop)]
pub struct FirstParts {
    parts: ArrayVec<Part, 9>,
}

impl Model for FirstParts {
    ghost use Rattle.std.specs.Prelude.{List};
    ghost use Rattle.mdcc_option.specs.declared.items.Part.{Part};

    ghost Value = { List Part };

    ghost view = { λ first. first.parts.items };
}

impl FirstParts {
    /// No part.
    pub(crate) fn new() -> FirstParts
        ensures { result ≡ [] }
    {
        FirstParts {
            parts: ArrayVec::new(),
        }
    }

    /// The parts in their order.
    pub fn as_slice(&self) -> &[Part]
        ensures { result.now ≡ self.now }
    {
        self.parts.as_slice()
    }

    // Takes all parts away.
    fn clear(&mut self)
        ensures { self.new ≡ [] }
    {
        self.parts.clear();
    }

    // One more part, where there are not nine.
    fn keep(&mut self, part: Part)
        ensures value { self.new ≡ take 9 (self.old ++ part ∷ []) }
        ensures few { length self.new ≤ 9 }
    {
        if !self.parts.is_full() {
            self.parts.push(part);
        }
    }
}

// Whether a key stands before the first of these parts.
fn is_before(key: &Key, parts: &[Part]) -> bool
    ensures { (part : APart) → part.key ≡ key.now → are_parts_ascending (part ∷ parts.now) ≡ (result && are_parts_ascending parts.now) }
{
    match parts {
        [next, ..] => key.is_below(&next.key),
        [] => true,
    }
}

// Whether each key stands before the next.
fn are_ascending(parts: &[Part]) -> bool
    ensures { result ≡ are_parts_ascending parts.now }
{
    let mut rest = parts;
    while let [part, others @ ..] = rest {
        if !is_before(&part.key, others) {
            return false;
        }
        rest = others;
    }
    true
}

/// Whether these are the parts of a transaction as they stand: 1 to 8, in key order.
pub(crate) fn are_in_order(parts: &[Part]) -> bool
    ensures { OnTrue result (AreParts parts.now) }
{
    !parts.is_empty() && parts.len() <= 8 && are_ascending(parts)
}

// The item whose two parts stand behind a place and end the word.
fn parse_item(at: usize, word: &[u8], column: usize) -> Result<Item, TextFault>
    requires place { at ≤ length word.now }
    requires fits { column + length word.now < 2 ^ 64 }
    ensures value { result ≡ parse_item at word.now column }
    ensures column { IfErr result (λ fault. fault.column ≤ column + length word.now) }
{
    let start = start_after(b':', at, word, column)?;
    let body = body_of(part_at(b':', start, word), column + start)?;
    let next = start_after(b':', part_end(b':', start, word), word, column)?;
    let values = values_of(part_at(b':', next, word), column + next)?;
    end_at(part_end(b':', next, word), word, column)?;
    Ok(Item { body, values })
}

// Whether the first part of a word is this one.
fn begins_update(name: &[u8], word: &[u8]) -> bool
    ensures value { result ≡ begins_update name.now word.now }
    ensures within { IsTrue result → length name.now ≤ length word.now }
{
    text_eq(part_at(b':', 0, word), name)
}

// `write:KEY:VERSION:SEEN:BODY:VALUES`
fn parse_write(word: &[u8], column: usize) -> Result<Part, TextFault>
    requires place { 5 ≤ length word.now }
    requires fits { column + length word.now < 2 ^ 64 }
    ensures value { result ≡ parse_write word.now column }
    ensures column { IfErr result (λ fault. fault.column ≤ column + length word.now) }
{
    let first = start_after(b':', 5, word, column)?;
    let key = key_of(part_at(b':', first, word), column + first)?;
    let second = start_after(b':', part_end(b':', first, word), word, column)?;
    let version = version_in(part_at(b':', second, word), column + second)?;
    let third = start_after(b':', part_end(b':', second, word), word, column)?;
    let seen = seen_in(part_at(b':', third, word), column + third)?;
    let item = parse_item(part_end(b':', third, word), word, column)?;
    Ok(Part {
        key,
        version,
        update: Update::Write(item, seen),
    })
}

// `add:KEY:VERSION:ATTRIBUTE=AMOUNT,..`
fn parse_add(word: &[u8], column: usize) -> Result<Part, TextFault>
    requires place { 3 ≤ length word.now }
    requires fits { column + length word.now < 2 ^ 64 }
    ensures value { result ≡ parse_add word.now column }
    ensures column { IfErr result (λ fault. fault.column ≤ column + length word.now) }
{
    let first = start_after(b':', 3, word, column)?;
    let key = key_of(part_at(b':', first, word), column + first)?;
    let second = start_after(b':', part_end(b':', first, word), word, column)?;
    let version = version_in(part_at(b':', second, word), column + second)?;
    let third = start_after(b':', part_end(b':', second, word), word, column)?;
    let amounts = parse_amounts(part_at(b':', third, word), column + third)?;
    end_at(part_end(b':', third, word), word, column)?;
    Ok(Part {
        key,
        version,
        update: Update::Add(amounts),
    })
}

/// The part that an update word is, at a column.
pub fn part_of(word: &[u8], column: usize) -> Result<Part, TextFault>
    requires { column + length word.now < 2 ^ 64 }
    ensures value { result ≡ part_of word.now column }
    ensures column { IfErr result (λ fault. fault.column ≤ column + length word.now) }
{
    if begins_update(b"write", word) {
        parse_write(word, column)
    } else if begins_update(b"add", word) {
        parse_add(word, column)
    } else {
        refused(column, SchedCause::Word)
    }
}

/// Reads the parts from a place of a line to its end, of which the first nine are kept.
pub(crate) fn read_parts(at: usize, line: &[u8], parts: &mut FirstParts) -> Result<(), TextFault>
    requires { at ≤ length line.now }
    ensures value { parts_by result parts.new ≡ first_parts (at + 1) (parts_from 32 at line.now) }
    ensures column { IfErr result (λ fault. fault.column ≤ length line.now + 1) }
{
    parts.clear();
    let mut place = at;
    while place <= line.len() {
        let word = word_at(place, line);
        let part = part_of(word, place + 1)?;
        parts.keep(part);
        place += word.len() + 1;
    }
    Ok(())
}
