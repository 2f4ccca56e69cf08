//! Words of a line, which are separated by one space. The line has no line end.
ghost use Rattle.std.specs.Prelude.{◌≡◌, ◌+◌, ◌≤◌, IsTrue, IfErr, IfOk, length};
ghost use Rattle.mdcc_def_language.specs.Words.{word_at, word_end, not_empty, word_after};
ghost use Rattle.mdcc_def_language.specs.Schedule.{begins_with};

use mdcc_def_language::SchedCause;
use mdcc_sched_words::TextFault;
use mdcc_sched_words::faults::refused;
use mdcc_sched_words::places::{part_at, part_end, start_after, text_eq};

/// The word that begins at a place.
pub fn word_at(at: usize, line: &[u8]) -> &[u8]
    requires { at ≤ length line.now }
    ensures word { result.now ≡ word_at at line.now }
    ensures within { at + length result.now ≤ length line.now }
{
    part_at(b' ', at, line)
}

/// The place behind the word that begins at a place.
pub fn word_end(at: usize, line: &[u8]) -> usize
    requires { at ≤ length line.now }
    ensures place { result ≡ word_end at line.now }
    ensures within { result ≤ length line.now }
{
    part_end(b' ', at, line)
}

/// Whether a word has a byte; else a separator is too much.
pub fn not_empty(word: &[u8], column: usize) -> Result<(), TextFault>
    ensures value { result ≡ not_empty word.now column }
    ensures column { IfErr result (λ fault. fault.column ≡ column) }
{
    match word {
        [] => refused(column, SchedCause::Word),
        _ => Ok(()),
    }
}

/// The place of the next word, behind the space at a place.
pub fn word_after(at: usize, line: &[u8]) -> Result<usize, TextFault>
    requires { at ≤ length line.now }
    ensures place { result ≡ word_after at line.now }
    ensures within { IfOk result (λ start. start ≤ length line.now) }
    ensures column { IfErr result (λ fault. fault.column ≤ length line.now + 1) }
{
    let start = start_after(b' ', at, line, 1)?;
    not_empty(word_at(start, line), start + 1)?;
    Ok(start)
}

/// Whether a line begins with this word.
pub fn begins_with(word: &[u8], line: &[u8]) -> bool
    ensures value { result ≡ begins_with word.now line.now }
    ensures within { IsTrue result → length word.now ≤ length line.now }
{
    text_eq(word_at(0, line), word)
}
