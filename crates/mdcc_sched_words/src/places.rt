//! Places in a text, which count from 0, and columns, which count from 1.
ghost use Rattle.std.specs.Prelude.{◌≡◌, ◌+◌, ◌<◌, ◌≤◌, ◌^◌, ◌==◌, IsTrue, IfOk, IfErr, IfSome, length, position};
ghost use Rattle.mdcc_def_language.specs.Words.{text_eq, part_len, part_at, part_end, start_after, end_at};

use crate::faults::{TextFault, refused};
use mdcc_def_language::SchedCause;

/// Whether two texts are one.
pub fn text_eq(a: &[u8], b: &[u8]) -> bool
    ensures { result ≡ text_eq a.now b.now }
{
    a == b
}

// Where the first separator stands.
fn first_place(separator: u8, rest: &[u8]) -> Option<usize>
    ensures place { result ≡ position (λ b. b == separator) rest.now }
    ensures within { IfSome result (λ place. place < length rest.now) }
{
    rest.iter().position(|b| *b == separator)
}

// How many bytes stand before the first separator.
fn part_len(separator: u8, rest: &[u8]) -> usize
    ensures value { result ≡ part_len separator rest.now }
    ensures within { result ≤ length rest.now }
{
    match first_place(separator, rest) {
        Some(place) => place,
        None => rest.len(),
    }
}

/// The bytes from a place up to the next separator.
pub fn part_at(separator: u8, at: usize, text: &[u8]) -> &[u8]
    requires { at ≤ length text.now }
    ensures part { result.now ≡ part_at separator at text.now }
    ensures within { at + length result.now ≤ length text.now }
{
    let (_, rest) = text.split_at(at);
    &rest[..part_len(separator, rest)]
}

/// The place behind these bytes.
pub fn part_end(separator: u8, at: usize, text: &[u8]) -> usize
    requires { at ≤ length text.now }
    ensures place { result ≡ part_end separator at text.now }
    ensures within { result ≤ length text.now }
{
    at + part_at(separator, at, text).len()
}

/// The place behind the separator that stands at a place of a text; the text begins at a column.
pub fn start_after(separator: u8, at: usize, text: &[u8], column: usize) -> Result<usize, TextFault>
    requires place { at ≤ length text.now }
    requires fits { column + length text.now < 2 ^ 64 }
    ensures place { result ≡ start_after separator at text.now column }
    ensures within { IfOk result (λ next. next ≤ length text.now) }
    ensures column { IfErr result (λ fault. fault.column ≤ column + length text.now) }
{
    if at < text.len() && text[at] == separator {
        return Ok(at + 1);
    }
    refused(column + at, SchedCause::Word)
}

/// Whether the last part of a text, which begins at a column, ends at a place, and the text with it.
pub fn end_at(at: usize, text: &[u8], column: usize) -> Result<(), TextFault>
    requires place { at ≤ length text.now }
    requires fits { column + length text.now < 2 ^ 64 }
    ensures value { result ≡ end_at at text.now column }
    ensures column { IfErr result (λ fault. fault.column ≤ column + length text.now) }
{
    if at == text.len() {
        return Ok(());
    }
    refused(column + at + 1, SchedCause::Word)
}
