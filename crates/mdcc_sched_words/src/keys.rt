//! Keys.
ghost use Rattle.std.specs.Prelude.{◌≡◌, IfErr};
ghost use Rattle.mdcc_def_language.specs.Words.{key_of};

use crate::faults::{TextFault, narrowed, refused};
use mdcc_base::Key;
use mdcc_def_language::{SchedCause, SchedFault};

/// A key that a word is, at a column.
pub fn key_of(word: &[u8], column: usize) -> Result<Key, TextFault>
    ensures value { result ≡ key_of word.now column }
    ensures column { IfErr result (λ fault. fault.column ≡ column) }
{
    match Key::new(word) {
        Some(key) => Ok(key),
        None => refused(column, SchedCause::Key),
    }
}

/// Reads a key.
pub fn parse_key(word: &[u8], column: u32) -> Result<Key, SchedFault>
    ensures { result ≡ key_of word.now column }
{
    narrowed(key_of(word, column as usize))
}
