//! Values of items.
ghost use Rattle.std.specs.Prelude.{◌≡◌, ◌+◌, ◌<◌, ◌≤◌, ◌^◌, IfErr, length};
ghost use Rattle.mdcc_def_language.specs.Words.{values_of};
ghost use Rattle.mdcc_sched_words.specs.Columns.{with_column_within};

use crate::faults::{TextFault, capped, refused};
use crate::numbers::value_of;
use crate::places::part_at;
use mdcc_base::BoundedList;
use mdcc_def_language::{SchedCause, SchedFault};
use mdcc_option::items::Values;

// The most values that an item may have.
const MOST_VALUES: usize = 4;

/// The 1 to 4 values of a word, with commas between them, the first of which stands at a column.
pub fn values_of(word: &[u8], column: usize) -> Result<Values, TextFault>
    requires { column + length word.now < 2 ^ 64 }
    ensures value { result ≡ values_of word.now column }
    ensures column { IfErr result (λ fault. fault.column ≤ column + length word.now) }
{
    let mut values: Values = BoundedList::new();
    let mut at = 0;
    while at <= word.len() {
        let start = at + column;
        if values.len() >= MOST_VALUES {
            return refused(start, SchedCause::Range);
        }
        let part = part_at(b',', at, word);
        let value = value_of(part, start)?;
        values.push(value);
        at += part.len() + 1;
    }
    Ok(values)
}

/// Reads 1 to 4 values with commas between them, the first of which stands at the column. The column of a fault past 32
/// bits is told as the last one of 32 bits.
pub fn parse_values(word: &[u8], column: u32) -> Result<Values, SchedFault>
    ensures value { result ≡ with_column_within (values_of word.now column) }
    ensures narrow { column + length word.now < 2 ^ 32 → result ≡ values_of word.now column }
{
    capped(values_of(word, column as usize))
}
