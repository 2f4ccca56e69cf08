//! How far a header is read.
ghost use Rattle.std.specs.Prelude.{◌≡◌, ◌+◌, ◌-◌, ◌≤◌, ◌<◌, ◌^◌, [], get_or, drop, length};
ghost use Rattle.mdcc_def_language.specs.Header.{all_of, next_line, without_next, refused_at, in_line, begins_next};
ghost use Rattle.mdcc_def_language.specs.Lines.{bounded, bytes_of_line, lines_in};

use crate::lines::{bounded, bytes_of_line};
use crate::words::begins_with;
use mdcc_def_language::{HeaderCause, HeaderFault};
use mdcc_sched_words::TextFault;
use std::marker::Model;

/// The text that is left, which begins with a line, the place of that line in the whole text, and
/// its number.
#[derive(Drop)]
pub struct Left<'a> {
    rest: &'a [u8],
    at: usize,
    number: u32,
}

impl<'a> Model for Left<'a> {
    ghost use Rattle.std.specs.Prelude.{◌+◌, ◌^◌, ◌<◌, length};
    ghost use Rattle.mdcc_def_language.specs.Header as header;
    ghost use Rattle.mdcc_def_language.specs.Lines.{lines_in};

    ghost Value = { header.UnreadLines };

    ghost view = { λ l. record { lines = lines_in l.rest.now; at = l.at; number = l.number } };

    ghost invariant = { λ l. l.at + length l.rest.now < 2 ^ 64 };
}

// The first line of a text, with its line end where it has one.
fn first_line(text: &[u8]) -> &[u8]
    ensures line { result.now ≡ get_or (lines_in text.now) 0 [] }
    ensures others { lines_in (drop (length result.now) text.now) ≡ drop 1 (lines_in text.now) }
    ensures within { length result.now ≤ length text.now }
{
    let len = bytes_of_line(text).len();
    if len < text.len() {
        &text[..len + 1]
    } else {
        text
    }
}

impl<'a> Left<'a> {
    /// All of a text.
    pub fn new(text: &'a [u8]) -> Left<'a>
        ensures { result ≡ all_of text.now }
    {
        Left {
            rest: text,
            at: 0,
            number: 1,
        }
    }

    /// Where the next line begins.
    pub fn place(&self) -> usize
        ensures { result ≡ self.now.at }
    {
        self.at
    }

    /// The number of the next line, from 1.
    pub fn number(&self) -> u32
        ensures { result ≡ self.now.number }
    {
        self.number
    }

    /// The next line with its line end; at the end of the text an empty one without one.
    pub fn next_line(&self) -> &'a [u8]
        ensures { result.now ≡ next_line self.now }
    {
        first_line(self.rest)
    }

    /// What is left behind the next line.
    pub fn without_next(&self) -> Left<'a>
        requires { self.now.number < 2 ^ 32 - 1 }
        ensures { result ≡ without_next self.now }
    {
        let len = first_line(self.rest).len();
        Left {
            rest: self.rest.split_at(len).1,
            at: self.at + len,
            number: self.number + 1,
        }
    }

    /// Whether the next line begins with this word.
    pub fn is_next(&self, word: &[u8]) -> bool
        ensures { result ≡ begins_next word.now self.now }
    {
        begins_with(word, bytes_of_line(self.next_line()))
    }

    /// A refusal of the next line.
    pub fn refused<A>(&self, cause: HeaderCause) -> Result<A, HeaderFault>
        ensures { result ≡ refused_at self.now cause }
    {
        Err(HeaderFault {
            line: self.number,
            cause,
        })
    }

    /// What was read of the next line, where its bytes aren't too many; a refusal names the line and
    /// not the column.
    pub fn read_line<A: Drop>(&self, read: Result<A, TextFault>) -> Result<A, HeaderFault>
        ensures { result ≡ in_line self.now (bounded (bytes_of_line (next_line self.now)) read) }
    {
        match bounded(bytes_of_line(self.next_line()), read) {
            Ok(value) => Ok(value),
            Err(fault) => self.refused(HeaderCause::Sched(fault.cause())),
        }
    }
}
