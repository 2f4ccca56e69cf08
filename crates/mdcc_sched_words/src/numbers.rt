//! Numbers.
ghost use Rattle.std.specs.Prelude.{◌≡◌, ◌+◌, ◌^◌, ◌≤◌, ◌<◌, ◌≤ℤ◌, ◌||◌, ℤ, IsTrue, IfErr, IfOk, length, FitsSigned};
ghost use Rattle.std.specs.Int.{w64, w128};
ghost use Rattle.std.specs.Option.{SomeIff};
ghost use Rattle.std.specs.Str.{all_ascii_digits};
ghost use Rattle.std.specs.Str.Parse.{signed_digits_value};
ghost use Rattle.mdcc_def_language.specs.Words.{are_plain_digits, is_negative, within, number_of, natural_of, count_of, value_of};

use crate::faults::{TextFault, narrowed, refused};
use mdcc_def_language::{SchedCause, SchedFault};

// Whether each byte is a digit.
fn all_ascii_digits(word: &[u8]) -> bool
    ensures { result ≡ all_ascii_digits word.now }
{
    for byte in word {
        if !byte.is_ascii_digit() {
            return false;
        }
    }
    true
}

// Whether a word is digits without a leading zero, at least one.
fn are_plain_digits(word: &[u8]) -> bool
    ensures { result ≡ are_plain_digits word.now }
{
    match word {
        [] => false,
        [b'0', _, ..] => false,
        _ => all_ascii_digits(word),
    }
}

// Whether a word is a minus before such digits; 0 has no sign.
fn is_negative(word: &[u8]) -> bool
    ensures { result ≡ is_negative word.now }
{
    match word {
        [b'-', digits @ ..] => are_plain_digits(digits) && digits[0] != b'0',
        _ => false,
    }
}

// The number that a word spells, where it has 128 bits.
fn number_spelled(word: &[u8]) -> Option<i128>
    requires { IsTrue (are_plain_digits word.now || is_negative word.now) }
    ensures { SomeIff result (FitsSigned w128 (signed_digits_value 10 word.now)) (signed_digits_value 10 word.now) }
{
    let Ok(text) = str::from_utf8(word) else {
        return None;
    };
    text.parse::<i128>().ok()
}

// The number, where it is from `low` to `high`.
fn within(column: usize, low: i128, high: i128, number: i128) -> Result<i128, TextFault>
    ensures value { result ≡ within column low high number }
    ensures column { IfErr result (λ fault. fault.column ≡ column) }
    ensures within { IfOk result (λ number. (low ≤ℤ number) × (number ≤ℤ high)) }
{
    if low <= number && number <= high {
        return Ok(number);
    }
    refused(column, SchedCause::Range)
}

/// A number from `low` to `high` that a word is, at a column. It has a sign only where `low` is below 0.
#[tactic(auto, using(crate::proofs::Numerals::not_within))]
pub fn number_of(word: &[u8], column: usize, low: i128, high: i128) -> Result<i128, TextFault>
    ensures value { result ≡ number_of word.now column low high }
    ensures column { IfErr result (λ fault. fault.column ≡ column) }
    ensures within { IfOk result (λ number. (low ≤ℤ number) × (number ≤ℤ high)) }
{
    if !(are_plain_digits(word) || (low < 0 && is_negative(word))) {
        return refused(column, SchedCause::Number);
    }
    match number_spelled(word) {
        Some(number) => within(column, low, high, number),
        None => refused(column, SchedCause::Range),
    }
}

/// A number that is not negative.
pub fn natural_of(word: &[u8], column: usize, low: u64, high: u64) -> Result<u64, TextFault>
    ensures value { result ≡ natural_of word.now column low high }
    ensures column { IfErr result (λ fault. fault.column ≡ column) }
    ensures within { IfOk result (λ number. (low ≤ number) × (number ≤ high)) }
{
    let number = number_of(word, column, i128::from(low), i128::from(high))?;
    Ok(number.unsigned_abs() as u64)
}

/// The number of a message or of a read.
pub fn count_of(word: &[u8], column: usize) -> Result<u32, TextFault>
    ensures value { result ≡ count_of word.now column }
    ensures column { IfErr result (λ fault. fault.column ≡ column) }
{
    Ok(natural_of(word, column, 1, u64::from(u32::MAX))? as u32)
}

/// A value, an amount or a bound.
pub fn value_of(word: &[u8], column: usize) -> Result<i64, TextFault>
    ensures value { result ≡ value_of word.now column }
    ensures column { IfErr result (λ fault. fault.column ≡ column) }
    ensures fits { IfOk result (λ value. FitsSigned w64 value) }
{
    Ok(number_of(word, column, i128::from(i64::MIN), i128::from(i64::MAX))? as i64)
}

/// Reads a number from `low` to `high`. It has a sign only where `low` is below 0.
pub fn parse_number(word: &[u8], column: u32, low: i128, high: i128) -> Result<i128, SchedFault>
    ensures value { result ≡ number_of word.now column low high }
    ensures within { IfOk result (λ number. (low ≤ℤ number) × (number ≤ℤ high)) }
{
    narrowed(number_of(word, column as usize, low, high))
}
