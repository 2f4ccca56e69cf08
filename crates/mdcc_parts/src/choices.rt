//! Choices, read from bytes.
ghost use Rattle.std.specs.Prelude.{◌≡◌, ◌≤◌, IsTrue, IfOk, None, nat_eq};
ghost use Rattle.mdcc_base.specs.Key.{key_eq, key_lt};
ghost use Rattle.mdcc_base.specs.TxId.{tx_eq, tx_lt};
ghost use Rattle.mdcc_option.specs.Equality.{written_eq};
ghost use Rattle.mdcc_def_messages.specs.ReadingSteps.{checked, free, same, fault_unless_after, is_after, elements_at};
ghost use Rattle.mdcc_def_messages.specs.ReadingParts.{written_behind, write_set_at, has_own, choice_checked, choice_at, choice_behind};
ghost use Rattle.mdcc_def_messages.specs.WellFormedParts.{is_written};
ghost use Rattle.mdcc_parts.specs.Reads.{choice_behind_version};

use crate::identifiers::{
    read_key, read_key_behind, read_same_key, read_same_tx, read_same_version, read_tx,
    read_tx_behind,
};
use crate::items::read_update;
use crate::numbers::{u8_within, u64_at};
use mdcc_base::{BoundedList, Key, TxId};
use mdcc_def_messages::WireFault;
use mdcc_option::{Choice, WriteSet};

// A key behind the last one of the write set that begins at `part`, and its version.
fn written_behind(
    part: usize,
    bytes: &[u8],
    last: Option<Key>,
    at: usize,
) -> Result<((Key, u64), usize), WireFault>
    ensures { result ≡ written_behind part bytes.now last at }
{
    let (key, after) = read_key_behind(part, bytes, last, at)?;
    let (version, after) = u64_at(bytes, after)?;
    Ok(((key, version), after))
}

// So many keys with their versions, of the write set that begins at `part`.
fn written_from(
    part: usize,
    bytes: &[u8],
    count: usize,
    at: usize,
) -> Result<(WriteSet, usize), WireFault>
    requires { count ≤ 8 }
    ensures { result ≡ elements_at (written_behind part bytes.now) (λ written. written.0) count None at }
{
    let mut write_set = BoundedList::new();
    let mut last: Option<Key> = None;
    let mut place = at;
    for _ in 0..count {
        let ((key, version), after) = written_behind(part, bytes, last, place)?;
        write_set.push((key, version));
        last = Some(key);
        place = after;
    }
    Ok((write_set, place))
}

/// The write set at a place.
pub fn read_write_set(bytes: &[u8], at: usize) -> Result<(WriteSet, usize), WireFault>
    ensures { result ≡ write_set_at bytes.now at }
{
    let (count, after) = u8_within(at, 1, 8, bytes, at)?;
    written_from(at, bytes, usize::from(count), after)
}

// Whether it is this key with this version.
fn written_eq(key: &Key, version: u64, written: &(Key, u64)) -> bool
    ensures { result ≡ written_eq (key.now, version) written.now }
{
    key.is(&written.0) && version == written.1
}

// Whether the key stands in the write set with this version.
fn is_written(write_set: &[(Key, u64)], key: &Key, version: u64) -> bool
    ensures { result ≡ is_written write_set.now key.now version }
{
    write_set
        .iter()
        .any(|written| written_eq(key, version, written))
}

// The write set at a place, which has this key with this version.
fn own_write_set(
    key: &Key,
    version: u64,
    bytes: &[u8],
    at: usize,
) -> Result<(WriteSet, usize), WireFault>
    ensures { result ≡ checked (has_own at key.now version) (write_set_at bytes.now at) }
{
    let (write_set, after) = read_write_set(bytes, at)?;
    if is_written(write_set.as_slice(), key, version) {
        Ok((write_set, after))
    } else {
        Err(WireFault::NotCanonical(at as u64))
    }
}

// The choice of this transaction, key and version, whose update is at a place.
fn choice_behind_version(
    tx: TxId,
    key: Key,
    version: u64,
    bytes: &[u8],
    at: usize,
) -> Result<(Choice, usize), WireFault>
    ensures exact { result ≡ choice_behind_version tx key version bytes.now at }
    ensures tx { IfOk result (λ r. r.0.tx ≡ tx) }
{
    let (update, after) = read_update(bytes, at)?;
    let (write_set, after) = own_write_set(&key, version, bytes, after)?;
    Ok((
        Choice {
            tx,
            key,
            version,
            update,
            write_set,
        },
        after,
    ))
}

/// The choice at a place.
pub fn read_choice(bytes: &[u8], at: usize) -> Result<(Choice, usize), WireFault>
    ensures { result ≡ choice_at bytes.now at }
{
    let (tx, after) = read_tx(bytes, at)?;
    let (key, after) = read_key(bytes, after)?;
    let (version, after) = u64_at(bytes, after)?;
    choice_behind_version(tx, key, version, bytes, after)
}

/// The choice at a place, which has the key and the version of the part round it.
pub fn read_choice_of(
    key: &Key,
    version: u64,
    bytes: &[u8],
    at: usize,
) -> Result<(Choice, usize), WireFault>
    ensures { result ≡ choice_checked free (same key_eq at key.now) (same nat_eq at version) bytes.now at }
{
    let (tx, after) = read_tx(bytes, at)?;
    let (key, after) = read_same_key(at, key, bytes, after)?;
    let (version, after) = read_same_version(at, version, bytes, after)?;
    choice_behind_version(tx, key, version, bytes, after)
}

/// The choice at a place, which has the key and the version of the part round it. Its transaction stands
/// behind the last one of the list that begins at `part`.
pub fn read_mark_choice(
    part: usize,
    key: &Key,
    version: u64,
    bytes: &[u8],
    last: Option<TxId>,
    at: usize,
) -> Result<(Choice, usize), WireFault>
    ensures exact { result ≡ choice_checked (fault_unless_after tx_lt part last) (same key_eq at key.now) (same nat_eq at version) bytes.now at }
    ensures follows { IfOk result (λ r. IsTrue (is_after tx_lt last r.0.tx)) }
{
    let (tx, after) = read_tx_behind(part, bytes, last, at)?;
    let (key, after) = read_same_key(at, key, bytes, after)?;
    let (version, after) = read_same_version(at, version, bytes, after)?;
    let (choice, after) = choice_behind_version(tx, key, version, bytes, after)?;
    Ok((choice, after))
}

/// The choice of this transaction at a place, whose key stands behind the last one of the list that
/// begins at `part`.
pub fn read_choice_behind(
    part: usize,
    tx: TxId,
    bytes: &[u8],
    last: Option<Key>,
    at: usize,
) -> Result<(Choice, usize), WireFault>
    ensures { result ≡ choice_behind part tx bytes.now last at }
{
    let (tx, after) = read_same_tx(at, tx, bytes, at)?;
    let (key, after) = read_key_behind(part, bytes, last, after)?;
    let (version, after) = u64_at(bytes, after)?;
    choice_behind_version(tx, key, version, bytes, after)
}
