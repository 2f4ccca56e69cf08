//! The lines of a header, each with its line end, whatever their length.
ghost use Rattle.std.specs.Prelude.{◌≡◌, ◌≤◌, ◌+◌, codes, length, IfOk, OnOk};
ghost use Rattle.mdcc_def_language.specs.Header.{in_order, whole_line, is_version, version_of, last_number, parse_sizes, limit_in, fast_limit_of, bound_of};
ghost use Rattle.mdcc_def_language.specs.Words.{end_at, word_at, natural_of};

use crate::lines::{bytes_of_line, line_end_of};
use crate::words::{begins_with, word_after, word_at, word_end};
use mdcc_def_language::SchedCause;
use mdcc_option::FastLimit;
use mdcc_sched_words::TextFault;
use mdcc_sched_words::faults::refused;
use mdcc_sched_words::numbers::{natural_of, value_of};
use mdcc_sched_words::places::{end_at, text_eq};

// Whether a line begins with the word that the order allows there.
fn in_order(word: &[u8], line: &[u8]) -> Result<(), TextFault>
    ensures value { result ≡ in_order word.now line.now }
    ensures within { OnOk result (length word.now ≤ length line.now) }
{
    if begins_with(word, line) {
        return Ok(());
    }
    refused(1, SchedCause::Order)
}

// The number behind a place, which ends the line.
fn last_number(low: u64, high: u64, at: usize, line: &[u8]) -> Result<u64, TextFault>
    requires { at ≤ length line.now }
    ensures value { result ≡ last_number low high at line.now }
    ensures within { IfOk result (λ number. number ≤ high) }
{
    let start = word_after(at, line)?;
    let number = natural_of(word_at(start, line), start + 1, low, high)?;
    end_at(word_end(start, line), line, 1)?;
    Ok(number)
}

// The version of the language.
fn is_version(word: &[u8], column: usize) -> Result<(), TextFault>
    ensures { result ≡ is_version word.now column }
{
    if text_eq(word, b"1") {
        return Ok(());
    }
    refused(column, SchedCause::Word)
}

fn version_of(line: &[u8]) -> Result<(), TextFault>
    requires { 13 ≤ length line.now }
    ensures { result ≡ version_of line.now }
{
    let start = word_after(13, line)?;
    is_version(word_at(start, line), start + 1)?;
    end_at(word_end(start, line), line, 1)
}

// A number of a line of quorums, from 0 to 255.
fn size_of(at: usize, line: &[u8]) -> Result<u8, TextFault>
    requires { at ≤ length line.now }
    ensures { result ≡ natural_of (word_at at line.now) (at + 1) 0 255 }
{
    Ok(natural_of(word_at(at, line), at + 1, 0, 255)? as u8)
}

fn parse_sizes(line: &[u8]) -> Result<(u8, u8, u8), TextFault>
    requires { 7 ≤ length line.now }
    ensures { result ≡ parse_sizes line.now }
{
    let first = word_after(7, line)?;
    let n = size_of(first, line)?;
    let second = word_after(word_end(first, line), line)?;
    let c = size_of(second, line)?;
    let f = last_number(0, 255, word_end(second, line), line)?;
    Ok((n, c, f as u8))
}

// The word of the fast limit.
fn limit_in(word: &[u8], column: usize) -> Result<FastLimit, TextFault>
    ensures { result ≡ limit_in word.now column }
{
    if text_eq(word, b"safe") {
        return Ok(FastLimit::Safe);
    }
    if text_eq(word, b"paper") {
        return Ok(FastLimit::Paper);
    }
    refused(column, SchedCause::Word)
}

fn fast_limit_of(line: &[u8]) -> Result<FastLimit, TextFault>
    requires { 5 ≤ length line.now }
    ensures { result ≡ fast_limit_of line.now }
{
    let start = word_after(5, line)?;
    let limit = limit_in(word_at(start, line), start + 1)?;
    end_at(word_end(start, line), line, 1)?;
    Ok(limit)
}

fn bound_of(line: &[u8]) -> Result<(i64, i64), TextFault>
    requires { 5 ≤ length line.now }
    ensures { result ≡ bound_of line.now }
{
    let start = word_after(5, line)?;
    let lower = value_of(word_at(start, line), start + 1)?;
    let next = word_after(word_end(start, line), line)?;
    let upper = value_of(word_at(next, line), next + 1)?;
    end_at(word_end(next, line), line, 1)?;
    Ok((lower, upper))
}

/// `mdcc-schedule 1`
pub fn version_line(line: &[u8]) -> Result<(), TextFault>
    ensures { result ≡ whole_line (codes "mdcc-schedule") version_of line.now }
{
    let text = bytes_of_line(line);
    in_order(b"mdcc-schedule", text)?;
    version_of(text)?;
    line_end_of(text, line)
}

/// `quorums N C F`
pub fn quorums_line(line: &[u8]) -> Result<(u8, u8, u8), TextFault>
    ensures { result ≡ whole_line (codes "quorums") parse_sizes line.now }
{
    let text = bytes_of_line(line);
    in_order(b"quorums", text)?;
    let sizes = parse_sizes(text)?;
    line_end_of(text, line)?;
    Ok(sizes)
}

/// `gamma G`
pub fn gamma_line(line: &[u8]) -> Result<u64, TextFault>
    ensures { result ≡ whole_line (codes "gamma") (last_number 0 1000 5) line.now }
{
    let text = bytes_of_line(line);
    in_order(b"gamma", text)?;
    let gamma = last_number(0, 1000, 5, text)?;
    line_end_of(text, line)?;
    Ok(gamma)
}

/// `cells C`
pub fn cells_line(line: &[u8]) -> Result<u64, TextFault>
    ensures value { result ≡ whole_line (codes "cells") (last_number 1 4194304 5) line.now }
    ensures within { IfOk result (λ cells. cells ≤ 4194304) }
{
    let text = bytes_of_line(line);
    in_order(b"cells", text)?;
    let cells = last_number(1, 4_194_304, 5, text)?;
    line_end_of(text, line)?;
    Ok(cells)
}

/// `limit safe` or `limit paper`
pub fn limit_line(line: &[u8]) -> Result<FastLimit, TextFault>
    ensures { result ≡ whole_line (codes "limit") fast_limit_of line.now }
{
    let text = bytes_of_line(line);
    in_order(b"limit", text)?;
    let limit = fast_limit_of(text)?;
    line_end_of(text, line)?;
    Ok(limit)
}

/// `bound LOWER UPPER`
pub fn bound_line(line: &[u8]) -> Result<(i64, i64), TextFault>
    ensures { result ≡ whole_line (codes "bound") bound_of line.now }
{
    let text = bytes_of_line(line);
    in_order(b"bound", text)?;
    let bounds = bound_of(text)?;
    line_end_of(text, line)?;
    Ok(bounds)
}

/// `start`
pub fn start_line(line: &[u8]) -> Result<(), TextFault>
    ensures { result ≡ whole_line (codes "start") (λ text. end_at 5 text 1) line.now }
{
    let text = bytes_of_line(line);
    in_order(b"start", text)?;
    end_at(5, text, 1)?;
    line_end_of(text, line)
}
