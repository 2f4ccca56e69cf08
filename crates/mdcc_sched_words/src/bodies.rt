//! Bodies of items.
ghost use Rattle.std.specs.Prelude.{◌≡◌, ◌+◌, ◌*◌, ◌<◌, ◌≤◌, Some, IfErr, IfSome, length};
ghost use Rattle.mdcc_def_language.specs.Words.{hex_digit_of, hex_byte_by, hex_bytes_of, body_of};

use crate::faults::{TextFault, narrowed, refused};
use crate::places::text_eq;
use mdcc_base::BoundedList;
use mdcc_def_language::{SchedCause, SchedFault};
use mdcc_option::items::Body;

// The value of a digit of a hexadecimal number, in lower case.
fn hex_digit_of(byte: u8) -> Option<u8>
    ensures value { result ≡ hex_digit_of byte }
    ensures bound { IfSome result (λ digit. digit < 16) }
{
    match byte {
        b'0'..=b'9' => Some(byte - b'0'),
        b'a'..=b'f' => Some(byte - b'a' + 10),
        _ => None,
    }
}

// The byte that two digits spell.
fn hex_byte_of(high: u8, low: u8) -> Option<u8>
    ensures { result ≡ hex_byte_by (hex_digit_of high) (hex_digit_of low) }
{
    match (hex_digit_of(high), hex_digit_of(low)) {
        (Some(high), Some(low)) => Some(high * 16 + low),
        _ => None,
    }
}

// The bytes that pairs of such digits spell.
#[tactic(auto, using(crate::proofs::HexBodies::hex_read, crate::proofs::HexBodies::hex_refused, crate::proofs::HexBodies::hex_end))]
fn hex_bytes_of(word: &[u8]) -> Option<Body>
    requires { length word.now ≤ 256 }
    ensures { result ≡ hex_bytes_of word.now }
{
    let mut bytes: Body = BoundedList::new();
    let mut rest = word;
    while rest.len() >= 2 {
        bytes.push(hex_byte_of(rest[0], rest[1])?);
        rest = rest.split_at(2).1;
    }
    if rest.is_empty() { Some(bytes) } else { None }
}

/// A body that a word is, at a column.
#[tactic(auto, using(crate::proofs::HexBodies::long_body))]
pub fn body_of(word: &[u8], column: usize) -> Result<Body, TextFault>
    ensures value { result ≡ body_of word.now column }
    ensures column { IfErr result (λ fault. fault.column ≡ column) }
{
    if text_eq(word, b"-") {
        return Ok(BoundedList::new());
    }
    if word.len() > 256 {
        return refused(column, SchedCause::Range);
    }
    match hex_bytes_of(word) {
        Some(bytes) if !bytes.is_empty() => Ok(bytes),
        _ => refused(column, SchedCause::Range),
    }
}

/// Reads a body: `-` is the empty one, and any other has two digits for each of 1 to 128 bytes.
pub fn parse_body(word: &[u8], column: u32) -> Result<Body, SchedFault>
    ensures { result ≡ body_of word.now column }
{
    narrowed(body_of(word, column as usize))
}
