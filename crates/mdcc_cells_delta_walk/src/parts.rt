//! Parts at the beginning of entries. What is not there is read as some value.
ghost use Rattle.std.specs.Prelude.{◌≡◌, ◌≤◌, drop, take};
ghost use Rattle.mdcc_cells_delta_walk.specs.Entries.{amounts_in, is_instance_in, number_in, tx_in, version_in};

use crate::passing::byte_in;
use mdcc_base::{BoundedList, Centre, Key, TxId};
use mdcc_option::Amounts;
use mdcc_parts::numbers::{u32_at, u64_at};
use mdcc_parts::{read_amounts, read_tx};

/// The transaction at a place.
pub(crate) fn tx_in(bytes: &[u8], at: usize) -> TxId
    ensures { result ≡ tx_in bytes.now at }
{
    match read_tx(bytes, at) {
        Ok((tx, _)) => tx,
        Err(_) => TxId {
            centre: Centre::new(1).unwrap(),
            epoch: 1,
            seq: 1,
        },
    }
}

/// The amounts at a place.
pub(crate) fn amounts_in(bytes: &[u8], at: usize) -> Amounts
    ensures { result ≡ amounts_in bytes.now at }
{
    match read_amounts(bytes, at) {
        Ok((amounts, _)) => amounts,
        Err(_) => BoundedList::new(),
    }
}

/// The number of four bytes at a place.
pub(crate) fn number_in(bytes: &[u8], at: usize) -> u32
    ensures { result ≡ number_in bytes.now at }
{
    match u32_at(bytes, at) {
        Ok((number, _)) => number,
        Err(_) => 0,
    }
}

// At most so many bytes from a place on.
fn run_in(bytes: &[u8], at: usize, count: usize) -> &[u8]
    ensures { result.now ≡ take count (drop at bytes.now) }
{
    let start = at.min(bytes.len());
    let rest = bytes.split_at(start).1;
    rest.split_at(count.min(rest.len())).0
}

// The number of eight bytes at a place.
fn version_in(bytes: &[u8], at: usize) -> u64
    ensures { result ≡ version_in bytes.now at }
{
    match u64_at(bytes, at) {
        Ok((number, _)) => number,
        Err(_) => 0,
    }
}

/// Whether the key with the version stands at a place.
pub(crate) fn is_instance_in(bytes: &[u8], at: usize, key: &Key, version: u64) -> bool
    requires { at ≤ 64 }
    ensures { result ≡ is_instance_in key.now version bytes.now at }
{
    let len = byte_in(bytes, at);
    run_in(bytes, at + 1, len) == key.bytes() && version_in(bytes, at + 1 + len) == version
}
