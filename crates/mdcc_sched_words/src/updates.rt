//! Update words.
ghost use Rattle.std.specs.Prelude.{◌≡◌, ◌+◌, ◌<◌, ◌≤◌, ◌^◌, IfErr, IsTrue, length};
ghost use Rattle.mdcc_def_language.specs.Updates.{parse_add, parse_item, parse_new, parse_set, parse_keep, begins_update, update_of};
ghost use Rattle.mdcc_sched_words.specs.Columns.{with_column_within};

use crate::amounts::parse_amounts;
use crate::bodies::body_of;
use crate::faults::{TextFault, capped, refused};
use crate::keys::key_of;
use crate::numbers::count_of;
use crate::places::{end_at, part_at, part_end, start_after, text_eq};
use crate::values::values_of;
use mdcc_def_language::{SchedCause, SchedFault, UpdateWord};
use mdcc_option::Item;

// The item whose two parts stand behind a place and end the word.
fn parse_item(at: usize, word: &[u8], column: usize) -> Result<Item, TextFault>
    requires place { at ≤ length word.now }
    requires fits { column + length word.now < 2 ^ 64 }
    ensures value { result ≡ parse_item at word.now column }
    ensures column { IfErr result (λ fault. fault.column ≤ column + length word.now) }
{
    let start = start_after(b':', at, word, column)?;
    let body = body_of(part_at(b':', start, word), column + start)?;
    let next = start_after(b':', part_end(b':', start, word), word, column)?;
    let values = values_of(part_at(b':', next, word), column + next)?;
    end_at(part_end(b':', next, word), word, column)?;
    Ok(Item { body, values })
}

// `new:KEY:BODY:VALUES`
fn parse_new(word: &[u8], column: usize) -> Result<UpdateWord, TextFault>
    requires place { 3 ≤ length word.now }
    requires fits { column + length word.now < 2 ^ 64 }
    ensures value { result ≡ parse_new word.now column }
    ensures column { IfErr result (λ fault. fault.column ≤ column + length word.now) }
{
    let start = start_after(b':', 3, word, column)?;
    let key = key_of(part_at(b':', start, word), column + start)?;
    let item = parse_item(part_end(b':', start, word), word, column)?;
    Ok(UpdateWord::New(key, item))
}

// `set:R:BODY:VALUES`
fn parse_set(word: &[u8], column: usize) -> Result<UpdateWord, TextFault>
    requires place { 3 ≤ length word.now }
    requires fits { column + length word.now < 2 ^ 64 }
    ensures value { result ≡ parse_set word.now column }
    ensures column { IfErr result (λ fault. fault.column ≤ column + length word.now) }
{
    let start = start_after(b':', 3, word, column)?;
    let read = count_of(part_at(b':', start, word), column + start)?;
    let item = parse_item(part_end(b':', start, word), word, column)?;
    Ok(UpdateWord::Set(read, item))
}

// `add:R:ATTRIBUTE=AMOUNT,..`
fn parse_add(word: &[u8], column: usize) -> Result<UpdateWord, TextFault>
    requires place { 3 ≤ length word.now }
    requires fits { column + length word.now < 2 ^ 64 }
    ensures value { result ≡ parse_add word.now column }
    ensures column { IfErr result (λ fault. fault.column ≤ column + length word.now) }
{
    let start = start_after(b':', 3, word, column)?;
    let read = count_of(part_at(b':', start, word), column + start)?;
    let next = start_after(b':', part_end(b':', start, word), word, column)?;
    let amounts = parse_amounts(part_at(b':', next, word), column + next)?;
    end_at(part_end(b':', next, word), word, column)?;
    Ok(UpdateWord::Add(read, amounts))
}

// `keep:R`
fn parse_keep(word: &[u8], column: usize) -> Result<UpdateWord, TextFault>
    requires place { 4 ≤ length word.now }
    requires fits { column + length word.now < 2 ^ 64 }
    ensures value { result ≡ parse_keep word.now column }
    ensures column { IfErr result (λ fault. fault.column ≤ column + length word.now) }
{
    let start = start_after(b':', 4, word, column)?;
    let read = count_of(part_at(b':', start, word), column + start)?;
    end_at(part_end(b':', start, word), word, column)?;
    Ok(UpdateWord::Keep(read))
}

// Whether the first part of a word is this one.
fn begins_update(name: &[u8], word: &[u8]) -> bool
    ensures value { result ≡ begins_update name.now word.now }
    ensures within { IsTrue result → length name.now ≤ length word.now }
{
    text_eq(part_at(b':', 0, word), name)
}

/// An update word that begins at a column.
pub fn update_of(word: &[u8], column: usize) -> Result<UpdateWord, TextFault>
    requires { column + length word.now < 2 ^ 64 }
    ensures value { result ≡ update_of word.now column }
    ensures column { IfErr result (λ fault. fault.column ≤ column + length word.now) }
{
    if begins_update(b"new", word) {
        parse_new(word, column)
    } else if begins_update(b"set", word) {
        parse_set(word, column)
    } else if begins_update(b"add", word) {
        parse_add(word, column)
    } else if begins_update(b"keep", word) {
        parse_keep(word, column)
    } else {
        refused(column, SchedCause::Word)
    }
}

/// Reads an update word that begins at a column. The column of a fault past 32 bits is told as the last one of 32 bits.
pub fn parse_update(word: &[u8], column: u32) -> Result<UpdateWord, SchedFault>
    ensures value { result ≡ with_column_within (update_of word.now column) }
    ensures narrow { column + length word.now < 2 ^ 32 → result ≡ update_of word.now column }
{
    capped(update_of(word, column as usize))
}
