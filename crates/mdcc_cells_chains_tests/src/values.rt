//! Keys of tests.
use mdcc_base::{Centre, Key, TxId};

/// A transaction of centre 1. Numbers that are 8 apart share one of 8 chains.
pub fn tx(seq: u32) -> TxId {
    TxId {
        centre: Centre::new(1).unwrap_or_default(),
        epoch: 1,
        seq,
    }
}

pub fn key(letter: u8) -> Key {
    Key::new(&[letter]).unwrap_or_default()
}
