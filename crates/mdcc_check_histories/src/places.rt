//! Lines of a text, and the words of a line, which are separated by one space.
ghost use Rattle.std.specs.Prelude.{◌≡◌, ◌+◌, ◌<◌, ◌≤◌, ◌∷◌, [], IsTrue, IfErr, IfOk, drop, get_or, length};
ghost use Rattle.mdcc_def_language.specs.Lines.{bytes_of_line, line_end_of, lines_in};
ghost use Rattle.mdcc_def_language.specs.Schedule.{begins_with};
ghost use Rattle.mdcc_def_language.specs.Words.{not_empty, word_after, word_at, word_end};

use mdcc_def_language::SchedCause;
use mdcc_sched_words::TextFault;
use mdcc_sched_words::faults::refused;
use mdcc_sched_words::places::{part_at, part_end, start_after, text_eq};

/// The bytes of a line before its line end.
pub(crate) fn bytes_of_line(line: &[u8]) -> &[u8]
    ensures bytes { result.now ≡ bytes_of_line line.now }
    ensures within { length result.now ≤ length line.now }
{
    part_at(b'\n', 0, line)
}

/// The first line of a text, with its line end where it has one.
pub(crate) fn first_line(text: &[u8]) -> &[u8]
    ensures line { result.now ≡ get_or (lines_in text.now) 0 [] }
    ensures others { lines_in (drop (length result.now) text.now) ≡ drop 1 (lines_in text.now) }
    ensures within { length result.now ≤ length text.now }
{
    let len = bytes_of_line(text).len();
    if len < text.len() {
        &text[..len + 1]
    } else {
        text
    }
}

/// The first line, with its line end where it has one, and the others.
pub(crate) fn split_line(text: &[u8]) -> (&[u8], &[u8])
    requires { 0 < length text.now }
    ensures lines { lines_in text.now ≡ result.0.now ∷ lines_in result.1.now }
    ensures shorter { length result.1.now < length text.now }
{
    let len = part_at(b'\n', 0, text).len();
    if len < text.len() {
        text.split_at(len + 1)
    } else {
        (text, &[])
    }
}

/// Whether a line ends behind its text, by one line end.
pub(crate) fn line_end_of(text: &[u8], line: &[u8]) -> Result<(), TextFault>
    requires { length text.now ≤ length line.now }
    ensures value { result ≡ line_end_of text.now line.now }
    ensures column { IfErr result (λ fault. fault.column ≤ length text.now + 2) }
{
    let column = text.len() + 1;
    match line.split_at(text.len()).1 {
        [] => refused(column, SchedCause::Word),
        [_] => Ok(()),
        [_, _, ..] => refused(column + 1, SchedCause::Word),
    }
}

/// The word that begins at a place.
pub(crate) fn word_at(at: usize, line: &[u8]) -> &[u8]
    requires { at ≤ length line.now }
    ensures word { result.now ≡ word_at at line.now }
    ensures within { at + length result.now ≤ length line.now }
{
    part_at(b' ', at, line)
}

/// The place behind the word that begins at a place.
pub(crate) fn word_end(at: usize, line: &[u8]) -> usize
    requires { at ≤ length line.now }
    ensures place { result ≡ word_end at line.now }
    ensures within { result ≤ length line.now }
{
    part_end(b' ', at, line)
}

// Whether a word has a byte; else a separator is too much.
fn not_empty(word: &[u8], column: usize) -> Result<(), TextFault>
    ensures value { result ≡ not_empty word.now column }
    ensures column { IfErr result (λ fault. fault.column ≡ column) }
{
    match word {
        [] => refused(column, SchedCause::Word),
        _ => Ok(()),
    }
}

/// The place of the next word, behind the space at a place.
pub(crate) fn word_after(at: usize, line: &[u8]) -> Result<usize, TextFault>
    requires { at ≤ length line.now }
    ensures place { result ≡ word_after at line.now }
    ensures within { IfOk result (λ start. start ≤ length line.now) }
    ensures column { IfErr result (λ fault. fault.column ≤ length line.now + 1) }
{
    let start = start_after(b' ', at, line, 1)?;
    not_empty(word_at(start, line), start + 1)?;
    Ok(start)
}

/// Whether a line begins with this word.
pub(crate) fn begins_with(word: &[u8], line: &[u8]) -> bool
    ensures value { result ≡ begins_with word.now line.now }
    ensures within { IsTrue result → length word.now ≤ length line.now }
{
    text_eq(word_at(0, line), word)
}
