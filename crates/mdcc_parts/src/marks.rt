//! Marks, structures and outcomes, read from bytes.
ghost use Rattle.std.specs.Prelude.{◌≡◌, ◌≤◌, ◌++◌, ◌∷◌, [], None, Ok, IsTrue, IsErr, IfOk, IfErr, OnOk, OnErr};
ghost use Rattle.mdcc_base.specs.TxId.{tx_lt};
ghost use Rattle.mdcc_base.specs.Unless.{GivesUnless};
ghost use Rattle.mdcc_struct.specs.Maps.{are_ascending};
ghost use Rattle.mdcc_def_messages.specs.ReadingSteps.{is_after, elements_at};
ghost use Rattle.mdcc_def_messages.specs.ReadingParts.{reject_behind, accept_behind, entry_behind, mark_entry_at, options_at, choice_behind, commit_at, outcome_at, classic_cause_at, limit_cause_at, cause_by, cause_at};
ghost use Rattle.mdcc_parts.specs.Reads.{end_of, name_and_end, is_wire_memory};

use crate::choices::{read_choice_behind, read_mark_choice};
use crate::identifiers::{read_classic, read_tx_behind};
use crate::numbers::{u8_within, u32_at};
use mdcc_base::{BoundedList, Key, TxId};
use mdcc_def_messages::WireFault;
use mdcc_option::{Cause, Choice, Mark, Outcome};
use mdcc_struct::Options;
use std::alloc::Global;

// A rejected transaction at a place, behind the last one of the list that begins at `part`.
fn reject_behind(
    part: usize,
    bytes: &[u8],
    last: Option<TxId>,
    at: usize,
) -> Result<((TxId, Mark), usize), WireFault>
    ensures exact { result ≡ reject_behind part bytes.now last at }
    ensures follows { IfOk result (λ r. IsTrue (is_after tx_lt last r.0.0)) }
{
    let (tx, after) = read_tx_behind(part, bytes, last, at)?;
    Ok(((tx, Mark::Reject), after))
}

// An accepted choice at a place, whose transaction is behind the last one of the list that begins at `part`.
fn accept_behind(
    part: usize,
    key: &Key,
    version: u64,
    bytes: &[u8],
    last: Option<TxId>,
    at: usize,
) -> Result<((TxId, Mark), usize), WireFault>
    ensures exact { result ≡ accept_behind part key.now version bytes.now last at }
    ensures follows { IfOk result (λ r. IsTrue (is_after tx_lt last r.0.0)) }
{
    let (choice, after) = read_mark_choice(part, key, version, bytes, last, at)?;
    Ok(((choice.tx, Mark::Accept(choice)), after))
}

/// The mark at a place, in a part for this key and version. Its transaction stands behind the last one of
/// the list that begins at `part`.
pub fn read_entry_behind(
    part: usize,
    key: &Key,
    version: u64,
    bytes: &[u8],
    last: Option<TxId>,
    at: usize,
) -> Result<((TxId, Mark), usize), WireFault>
    ensures exact { result ≡ entry_behind part key.now version bytes.now last at }
    ensures follows { IfOk result (λ r. IsTrue (is_after tx_lt last r.0.0)) }
{
    let (tag, after) = u8_within(at, 0, 1, bytes, at)?;
    if tag == 0 {
        reject_behind(part, bytes, last, after)
    } else {
        accept_behind(part, key, version, bytes, last, after)
    }
}

/// The mark at a place with its transaction, in a part for this key and version.
pub fn read_entry(
    bytes: &[u8],
    at: usize,
    key: &Key,
    version: u64,
) -> Result<((TxId, Mark), usize), WireFault>
    ensures { result ≡ mark_entry_at bytes.now at key.now version }
{
    read_entry_behind(at, key, version, bytes, None, at)
}

// The transaction of the mark at a place, and the place behind the mark.
fn check_entry(
    part: usize,
    key: &Key,
    version: u64,
    bytes: &[u8],
    last: Option<TxId>,
    at: usize,
) -> Result<(TxId, usize), WireFault>
    ensures { result ≡ name_and_end (λ e. e.0) (entry_behind part key.now version bytes.now last at) }
{
    let (tag, after) = u8_within(at, 0, 1, bytes, at)?;
    if tag == 0 {
        let (tx, after) = read_tx_behind(part, bytes, last, after)?;
        Ok((tx, after))
    } else {
        let (choice, after) = read_mark_choice(part, key, version, bytes, last, after)?;
        Ok((choice.tx, after))
    }
}

// Where so many marks end, of the list that begins at `part`.
fn check_entries(
    part: usize,
    key: &Key,
    version: u64,
    bytes: &[u8],
    count: u32,
    at: usize,
) -> Result<usize, WireFault>
    ensures { result ≡ end_of (elements_at (entry_behind part key.now version bytes.now) (λ e. e.0) count None at) }
{
    let mut last: Option<TxId> = None;
    let mut place = at;
    for _ in 0..count {
        let (tx, after) = check_entry(part, key, version, bytes, last, place)?;
        last = Some(tx);
        place = after;
    }
    Ok(place)
}

/// The place behind the structure at a place, in a part for this key and version. No memory is taken,
/// whatever count the bytes name.
pub fn check_options(bytes: &[u8], at: usize, key: &Key, version: u64) -> Result<usize, WireFault>
    ensures { result ≡ end_of (options_at bytes.now at key.now version) }
{
    let (count, after) = u32_at(bytes, at)?;
    check_entries(at, key, version, bytes, count, after)
}

// Adds a mark behind the others.
fn push_mark(options: &mut Options, tx: TxId, mark: Mark) -> Result<(), WireFault>
    requires { IsTrue (are_ascending (options.old ++ (tx, mark) ∷ [])) }
    ensures ok { OnOk result (options.new ≡ options.old ++ (tx, mark) ∷ []) }
    ensures err { OnErr result (options.new ≡ options.old) }
    ensures memory { IfErr result (λ fault. fault ≡ WireFault.Memory) }
{
    options.insert(tx, mark)?;
    Ok(())
}

// So many marks at a place, of the list that begins at `part`.
fn entries_from(
    alloc: Global,
    part: usize,
    key: &Key,
    version: u64,
    bytes: &[u8],
    count: u32,
    at: usize,
) -> Result<(Options, usize), WireFault>
    ensures { GivesUnless is_wire_memory result (elements_at (entry_behind part key.now version bytes.now) (λ e. e.0) count None at) }
{
    let mut options = Options::new(alloc)?;
    let mut last: Option<TxId> = None;
    let mut place = at;
    for _ in 0..count {
        let ((tx, mark), after) = read_entry_behind(part, key, version, bytes, last, place)?;
        push_mark(&mut options, tx, mark)?;
        last = Some(tx);
        place = after;
    }
    Ok((options, place))
}

/// The structure at a place, in a part for this key and version. Memory is taken only once all of its
/// marks are known to be there.
pub fn read_options(
    alloc: Global,
    bytes: &[u8],
    at: usize,
    key: &Key,
    version: u64,
) -> Result<(Options, usize), WireFault>
    ensures exact { GivesUnless is_wire_memory result (options_at bytes.now at key.now version) }
    // A fault of the bytes is told before any memory is asked for.
    ensures faults_first { IsErr (options_at bytes.now at key.now version) → result ≡ options_at bytes.now at key.now version }
{
    let _end = check_options(bytes, at, key, version)?;
    let (count, after) = u32_at(bytes, at)?;
    entries_from(alloc, at, key, version, bytes, count, after)
}

// ---- outcomes and causes

// So many choices of the transaction at a place, of the list that begins at `part`.
fn choices_from(
    part: usize,
    tx: TxId,
    bytes: &[u8],
    count: usize,
    at: usize,
) -> Result<(BoundedList<Choice, 8>, usize), WireFault>
    requires { count ≤ 8 }
    ensures { result ≡ elements_at (choice_behind part tx bytes.now) (λ choice. choice.key) count None at }
{
    let mut choices = BoundedList::new();
    let mut last: Option<Key> = None;
    let mut place = at;
    for _ in 0..count {
        let (choice, after) = read_choice_behind(part, tx, bytes, last, place)?;
        last = Some(choice.key);
        choices.push(choice);
        place = after;
    }
    Ok((choices, place))
}

// The choices of the transaction at a place, as an outcome.
fn commit_at(bytes: &[u8], at: usize, tx: TxId) -> Result<(Outcome, usize), WireFault>
    ensures { result ≡ commit_at bytes.now at tx }
{
    let (count, after) = u8_within(at, 1, 8, bytes, at)?;
    let (choices, after) = choices_from(at, tx, bytes, usize::from(count), after)?;
    Ok((Outcome::Commit(choices), after))
}

/// The outcome of the transaction at a place.
pub fn read_outcome(bytes: &[u8], at: usize, tx: TxId) -> Result<(Outcome, usize), WireFault>
    ensures { result ≡ outcome_at bytes.now at tx }
{
    let (tag, after) = u8_within(at, 0, 1, bytes, at)?;
    if tag == 0 {
        Ok((Outcome::Abort, after))
    } else {
        commit_at(bytes, after, tx)
    }
}

// The ballot at a place, as a cause.
fn classic_cause_at(bytes: &[u8], at: usize) -> Result<(Cause, usize), WireFault>
    ensures { result ≡ classic_cause_at bytes.now at }
{
    let (ballot, after) = read_classic(bytes, at)?;
    Ok((Cause::Classic(ballot), after))
}

// The quantity at a place, as a cause.
fn limit_cause_at(bytes: &[u8], at: usize) -> Result<(Cause, usize), WireFault>
    ensures { result ≡ limit_cause_at bytes.now at }
{
    let (quantity, after) = u8_within(at, 0, 4, bytes, at)?;
    Ok((Cause::Limit(quantity), after))
}

// The cause of a number.
fn cause_by(tag: u8, bytes: &[u8], at: usize) -> Result<(Cause, usize), WireFault>
    ensures { result ≡ cause_by tag bytes.now at }
{
    match tag {
        1 => Ok((Cause::Behind, at)),
        2 => classic_cause_at(bytes, at),
        3 => limit_cause_at(bytes, at),
        _ => Ok((Cause::Full, at)),
    }
}

/// The cause at a place.
pub fn read_cause(bytes: &[u8], at: usize) -> Result<(Cause, usize), WireFault>
    ensures { result ≡ cause_at bytes.now at }
{
    let (tag, after) = u8_within(at, 1, 4, bytes, at)?;
    cause_by(tag, bytes, after)
}
