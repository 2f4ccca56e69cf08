//! Keys, identifiers and ballots, read from bytes.
ghost use Rattle.std.specs.Prelude.{◌≡◌, ◌≤◌, ◌+◌, IsTrue, IfOk, nat_eq, take, drop};
ghost use Rattle.std.specs.List.{list_all};
ghost use Rattle.mdcc_base.specs.Key.{is_key_byte, key_eq, key_lt};
ghost use Rattle.mdcc_base.specs.TxId.{tx_eq, tx_lt};
ghost use Rattle.mdcc_def_messages.specs.ReadingSteps.{u64_at, checked, same, fault_unless_after, is_after};
ghost use Rattle.mdcc_def_messages.specs.ReadingParts.{key_by, key_at, tx_at, tx_behind, ballot_from, ballot_at, classic_at};
ghost use Rattle.mdcc_def_messages.specs.Reading.{numbers_at};

use crate::numbers::{run_at, truncated, u8_within, u32_within, u64_at};
use mdcc_base::key::is_key_byte;
use mdcc_base::{Ballot, Centre, Key, TxId};
use mdcc_def_messages::WireFault;

// Whether a key may have each of these bytes.
fn are_key_bytes(bytes: &[u8]) -> bool
    ensures { result ≡ list_all is_key_byte bytes.now }
{
    bytes.iter().all(|b| is_key_byte(*b))
}

// The key of the part at a place, whose bytes, so many, are these as far as they are there.
fn key_by(bytes: &[u8], at: usize, count: usize, key: &[u8]) -> Result<(Key, usize), WireFault>
    requires some { 1 ≤ count }
    requires fits { count ≤ 32 }
    requires there { key.now ≡ take count (drop (at + 1) bytes.now) }
    ensures { result ≡ key_by bytes.now at count key.now }
{
    if !are_key_bytes(key) {
        return Err(WireFault::Range(at as u64));
    }
    match Key::new(key) {
        Some(read) if key.len() == count => Ok((read, at + 1 + count)),
        _ => Err(truncated(bytes)),
    }
}

/// The key at a place.
pub fn read_key(bytes: &[u8], at: usize) -> Result<(Key, usize), WireFault>
    ensures { result ≡ key_at bytes.now at }
{
    let (count, after) = u8_within(at, 1, 32, bytes, at)?;
    let count = usize::from(count);
    key_by(bytes, at, count, run_at(bytes, after, count))
}

/// The identifier at a place.
pub fn read_tx(bytes: &[u8], at: usize) -> Result<(TxId, usize), WireFault>
    ensures { result ≡ tx_at bytes.now at }
{
    let (number, after) = u8_within(at, 1, 9, bytes, at)?;
    let (epoch, after) = u32_within(at, 1, u32::MAX, bytes, after)?;
    let (seq, after) = u32_within(at, 1, u32::MAX, bytes, after)?;
    let centre = Centre::new(number).unwrap();
    Ok((TxId { centre, epoch, seq }, after))
}

/// A centre, an epoch and a number of a transaction at a place. Other than in an identifier, each is
/// refused at its own place.
pub fn read_numbers(bytes: &[u8], at: usize) -> Result<((Centre, u32, u32), usize), WireFault>
    ensures { result ≡ numbers_at bytes.now at }
{
    let (number, epoch_at) = u8_within(at, 1, 9, bytes, at)?;
    let (epoch, seq_at) = u32_within(epoch_at, 1, u32::MAX, bytes, epoch_at)?;
    let (seq, after) = u32_within(seq_at, 1, u32::MAX, bytes, seq_at)?;
    let centre = Centre::new(number).unwrap();
    Ok(((centre, epoch, seq), after))
}

// The ballot at a place, with at least this round.
fn ballot_from(low: u32, bytes: &[u8], at: usize) -> Result<(Ballot, usize), WireFault>
    ensures { result ≡ ballot_from low bytes.now at }
{
    let (round, after) = u32_within(at, low, u32::MAX, bytes, at)?;
    if round == 0 {
        let (epoch, after) = u32_within(at, 0, 0, bytes, after)?;
        let (centre, after) = u8_within(at, 0, 0, bytes, after)?;
        Ok((
            Ballot {
                round,
                epoch,
                centre,
            },
            after,
        ))
    } else {
        let (epoch, after) = u32_within(at, 1, u32::MAX, bytes, after)?;
        let (centre, after) = u8_within(at, 1, 9, bytes, after)?;
        Ok((
            Ballot {
                round,
                epoch,
                centre,
            },
            after,
        ))
    }
}

/// The ballot at a place.
pub fn read_ballot(bytes: &[u8], at: usize) -> Result<(Ballot, usize), WireFault>
    ensures { result ≡ ballot_at bytes.now at }
{
    ballot_from(0, bytes, at)
}

/// The ballot at a place, which is a leader's.
pub fn read_classic(bytes: &[u8], at: usize) -> Result<(Ballot, usize), WireFault>
    ensures { result ≡ classic_at bytes.now at }
{
    ballot_from(1, bytes, at)
}

// ---- in a list, or inside another part

/// The identifier at a place, which stands behind the last one of the list that begins at `part`.
pub fn read_tx_behind(
    part: usize,
    bytes: &[u8],
    last: Option<TxId>,
    at: usize,
) -> Result<(TxId, usize), WireFault>
    ensures exact { result ≡ tx_behind part bytes.now last at }
    ensures follows { IfOk result (λ r. IsTrue (is_after tx_lt last r.0)) }
{
    let (tx, after) = read_tx(bytes, at)?;
    match last {
        Some(last) if !last.is_below(&tx) => Err(WireFault::NotCanonical(part as u64)),
        _ => Ok((tx, after)),
    }
}

/// The identifier at a place, which is the one of the part at `part`.
pub fn read_same_tx(
    part: usize,
    tx: TxId,
    bytes: &[u8],
    at: usize,
) -> Result<(TxId, usize), WireFault>
    ensures { result ≡ checked (same tx_eq part tx) (tx_at bytes.now at) }
{
    let (read, after) = read_tx(bytes, at)?;
    if read.is(&tx) {
        Ok((read, after))
    } else {
        Err(WireFault::NotCanonical(part as u64))
    }
}

/// The key at a place, which stands behind the last one of the list that begins at `part`.
pub fn read_key_behind(
    part: usize,
    bytes: &[u8],
    last: Option<Key>,
    at: usize,
) -> Result<(Key, usize), WireFault>
    ensures { result ≡ checked (fault_unless_after key_lt part last) (key_at bytes.now at) }
{
    let (key, after) = read_key(bytes, at)?;
    match last {
        Some(last) if !last.is_below(&key) => Err(WireFault::NotCanonical(part as u64)),
        _ => Ok((key, after)),
    }
}

/// The key at a place, which is the one of the part at `part`.
pub fn read_same_key(
    part: usize,
    key: &Key,
    bytes: &[u8],
    at: usize,
) -> Result<(Key, usize), WireFault>
    ensures { result ≡ checked (same key_eq part key.now) (key_at bytes.now at) }
{
    let (read, after) = read_key(bytes, at)?;
    if read.is(key) {
        Ok((read, after))
    } else {
        Err(WireFault::NotCanonical(part as u64))
    }
}

/// The version at a place, which is the one of the part at `part`.
pub fn read_same_version(
    part: usize,
    version: u64,
    bytes: &[u8],
    at: usize,
) -> Result<(u64, usize), WireFault>
    ensures { result ≡ checked (same nat_eq part version) (u64_at bytes.now at) }
{
    let (read, after) = u64_at(bytes, at)?;
    if read == version {
        Ok((read, after))
    } else {
        Err(WireFault::NotCanonical(part as u64))
    }
}
