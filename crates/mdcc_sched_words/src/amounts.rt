//! Amounts that are added to attributes.
ghost use Rattle.std.specs.Prelude.{◌≡◌, ◌+◌, ◌<◌, ◌≤◌, ◌^◌, IfErr, length};
ghost use Rattle.mdcc_def_language.specs.Updates.{parse_amount, parse_amounts};

use crate::faults::{TextFault, refused};
use crate::numbers::{natural_of, value_of};
use crate::places::{end_at, part_at, part_end, start_after};
use mdcc_base::BoundedList;
use mdcc_def_language::SchedCause;
use mdcc_option::Amounts;

// The most attributes to which one update may add.
const MOST_AMOUNTS: usize = 4;

// An attribute, from 1 to 4, and its amount: `ATTRIBUTE=AMOUNT`.
fn parse_amount(word: &[u8], column: usize) -> Result<(u8, i64), TextFault>
    requires { column + length word.now < 2 ^ 64 }
    ensures value { result ≡ parse_amount word.now column }
    ensures column { IfErr result (λ fault. fault.column ≤ column + length word.now) }
{
    let attribute = natural_of(part_at(b'=', 0, word), column, 1, 4)?;
    let start = start_after(b'=', part_end(b'=', 0, word), word, column)?;
    let amount = value_of(part_at(b'=', start, word), column + start)?;
    end_at(part_end(b'=', start, word), word, column)?;
    Ok((attribute as u8, amount))
}

/// The 1 to 4 amounts of a word, with commas between them, the first of which stands at a column.
pub fn parse_amounts(word: &[u8], column: usize) -> Result<Amounts, TextFault>
    requires { column + length word.now < 2 ^ 64 }
    ensures value { result ≡ parse_amounts word.now column }
    ensures column { IfErr result (λ fault. fault.column ≤ column + length word.now) }
{
    let mut amounts: Amounts = BoundedList::new();
    let mut at = 0;
    while at <= word.len() {
        let start = at + column;
        if amounts.len() >= MOST_AMOUNTS {
            return refused(start, SchedCause::Range);
        }
        let part = part_at(b',', at, word);
        let amount = parse_amount(part, start)?;
        amounts.push(amount);
        at += part.len() + 1;
    }
    Ok(amounts)
}
