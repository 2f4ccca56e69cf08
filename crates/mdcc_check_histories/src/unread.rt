//! How far a history is read.
ghost use Rattle.std.specs.Prelude.{◌≡◌, ◌+◌, ◌-◌, ◌≤◌, ◌<◌, ◌^◌, length};
ghost use Rattle.mdcc_def_language.specs.Header.{all_of, begins_next, in_line, next_line, refused_at, without_next};
ghost use Rattle.mdcc_def_language.specs.Lines.{bounded, bytes_of_line, lines_in, of_long};

use crate::places::{begins_with, bytes_of_line, first_line};
use mdcc_def_language::{HeaderCause, HeaderFault, SchedCause};
use mdcc_sched_words::TextFault;
use mdcc_sched_words::faults::refused;
use std::marker::Model;

// The most bytes that a line of a header may have before its end.
const MOST_BYTES: usize = 4096;

/// The text that is left, which begins with a line, the place of that line in the whole text, and its number.
#[derive(Drop)]
pub struct Unread<'a> {
    rest: &'a [u8],
    at: usize,
    number: u32,
}

impl<'a> Model for Unread<'a> {
    ghost use Rattle.std.specs.Prelude.{◌+◌, ◌≤◌, length};
    ghost use Rattle.mdcc_def_language.specs.Header as header;
    ghost use Rattle.mdcc_def_language.specs.Lines.{lines_in};

    ghost Value = { header.UnreadLines };

    ghost view = { λ l. record { lines = lines_in l.rest.now; at = l.at; number = l.number } };

    ghost invariant = { λ l. l.at + length l.rest.now ≤ 67108864 };
}

// What is read of a line that has too many bytes.
fn of_long<A: Drop>(read: Result<A, TextFault>) -> Result<A, TextFault>
    ensures { result ≡ of_long read }
{
    match read {
        Ok(_value) => refused(MOST_BYTES + 1, SchedCause::Range),
        Err(fault) => {
            if fault.column() <= MOST_BYTES {
                Err(fault)
            } else {
                refused(MOST_BYTES + 1, SchedCause::Range)
            }
        }
    }
}

// What is read of a line with these bytes before its line end.
fn bounded<A: Drop>(text: &[u8], read: Result<A, TextFault>) -> Result<A, TextFault>
    ensures { result ≡ bounded text.now read }
{
    if text.len() <= MOST_BYTES {
        return read;
    }
    of_long(read)
}

impl<'a> Unread<'a> {
    /// All of a text.
    pub fn new(text: &'a [u8]) -> Unread<'a>
        requires { length text.now ≤ 67108864 }
        ensures { result ≡ all_of text.now }
    {
        Unread {
            rest: text,
            at: 0,
            number: 1,
        }
    }

    /// The number of the next line, from 1.
    pub fn number(&self) -> u32
        ensures { result ≡ self.now.number }
    {
        self.number
    }

    /// All that is left.
    pub fn rest(&self) -> &'a [u8]
        ensures lines { lines_in result.now ≡ self.now.lines }
        ensures few { length result.now ≤ 67108864 }
    {
        self.rest
    }

    /// The next line with its line end; at the end of the text an empty one without one.
    pub fn next_line(&self) -> &'a [u8]
        ensures { result.now ≡ next_line self.now }
    {
        first_line(self.rest)
    }

    /// What is left behind the next line.
    pub fn without_next(&self) -> Unread<'a>
        requires { self.now.number < 2 ^ 32 - 1 }
        ensures { result ≡ without_next self.now }
    {
        let len = first_line(self.rest).len();
        Unread {
            rest: self.rest.split_at(len).1,
            at: self.at + len,
            number: self.number + 1,
        }
    }

    /// Whether the next line begins with this word.
    pub fn is_next(&self, word: &[u8]) -> bool
        ensures { result ≡ begins_next word.now self.now }
    {
        begins_with(word, bytes_of_line(self.next_line()))
    }

    /// A refusal of the next line.
    pub fn refused<A>(&self, cause: HeaderCause) -> Result<A, HeaderFault>
        ensures { result ≡ refused_at self.now cause }
    {
        Err(HeaderFault {
            line: self.number,
            cause,
        })
    }

    /// What was read of the next line, where its bytes aren't too many; a refusal names the line and not the column.
    pub fn read_line<A: Drop>(&self, read: Result<A, TextFault>) -> Result<A, HeaderFault>
        ensures { result ≡ in_line self.now (bounded (bytes_of_line (next_line self.now)) read) }
    {
        match bounded(bytes_of_line(self.next_line()), read) {
            Ok(value) => Ok(value),
            Err(fault) => self.refused(HeaderCause::Sched(fault.cause())),
        }
    }
}
