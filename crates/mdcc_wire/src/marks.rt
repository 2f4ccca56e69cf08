//! The marks of a message, one after another.
ghost use Rattle.std.specs.Prelude.{◌≡◌, [], ◌∷◌, ◌-◌, None, Some, IfNone, IfSome};
ghost use Rattle.std.specs.Iterator.{YieldsFirst, item_count};
ghost use Rattle.mdcc_def_messages.specs.ReadingParts.{entry_behind};
ghost use Rattle.mdcc_wire.specs.Marks.{marks_from, options_marks, votes_place, options_place, promise_marks, accept_marks, marks_by};

use mdcc_base::{Key, TxId};
use mdcc_def_messages::WireFault;
use mdcc_option::Mark;
use mdcc_parts::given::{read_at_least, read_instance};
use mdcc_parts::identifiers::{read_ballot, read_classic};
use mdcc_parts::marks::read_entry_behind;
use mdcc_parts::numbers::u32_at;
use std::marker::Model;

/// The marks that are left of a message, read from its bytes one by one, in the order of their
/// transactions.
#[derive(Drop)]
pub struct MarkViews<'a> {
    bytes: &'a [u8],
    part: usize,
    key: Key,
    version: u64,
    last: Option<TxId>,
    count: u32,
    at: usize,
}

impl<'a> Model for MarkViews<'a> {
    ghost use Rattle.mdcc_struct.specs.Options.{Marks};
    ghost use Rattle.mdcc_def_messages.specs.ReadingParts.{entry_behind};
    ghost use Rattle.mdcc_wire.specs.Marks.{marks_from};

    ghost Value = { Marks };

    ghost view = { λ v. marks_from (entry_behind v.part v.key v.version v.bytes.now) v.count v.last v.at };
}

// No marks.
fn no_marks(bytes: &[u8]) -> MarkViews<'_>
    ensures { result ≡ [] }
{
    MarkViews {
        bytes,
        part: 0,
        key: Key::default(),
        version: 0,
        last: None,
        count: 0,
        at: 0,
    }
}

// The marks of the structure at a place, for this key and version.
fn options_marks(bytes: &[u8], at: usize, key: Key, version: u64) -> MarkViews<'_>
    ensures { result ≡ options_marks bytes.now at key version }
{
    match u32_at(bytes, at) {
        Ok((count, after)) => MarkViews {
            bytes,
            part: at,
            key,
            version,
            last: None,
            count,
            at: after,
        },
        Err(_) => no_marks(bytes),
    }
}

// The key and the version of a promise, and the place of its votes.
fn votes_place(bytes: &[u8], at: usize) -> Result<((Key, u64), usize), WireFault>
    ensures { result ≡ votes_place bytes.now at }
{
    let ((key, version), after) = read_instance(bytes, at)?;
    let (_through, after) = read_at_least(version, bytes, after)?;
    let (_ballot, after) = read_classic(bytes, after)?;
    let (_reported, after) = read_ballot(bytes, after)?;
    Ok(((key, version), after))
}

// The key and the version of an accept, and the place of its structure.
fn options_place(bytes: &[u8], at: usize) -> Result<((Key, u64), usize), WireFault>
    ensures { result ≡ options_place bytes.now at }
{
    let ((key, version), after) = read_instance(bytes, at)?;
    let (_ballot, after) = read_classic(bytes, after)?;
    Ok(((key, version), after))
}

// The votes of the promise at a place.
fn promise_marks(bytes: &[u8], at: usize) -> MarkViews<'_>
    ensures { result ≡ promise_marks bytes.now at }
{
    match votes_place(bytes, at) {
        Ok(((key, version), after)) => options_marks(bytes, after, key, version),
        Err(_) => no_marks(bytes),
    }
}

// The structure of the accept at a place.
fn accept_marks(bytes: &[u8], at: usize) -> MarkViews<'_>
    ensures { result ≡ accept_marks bytes.now at }
{
    match options_place(bytes, at) {
        Ok(((key, version), after)) => options_marks(bytes, after, key, version),
        Err(_) => no_marks(bytes),
    }
}

/// The marks of a message of this kind whose body is at a place.
pub(crate) fn marks_by(kind: u8, bytes: &[u8], at: usize) -> MarkViews<'_>
    ensures { result ≡ marks_by kind bytes.now at }
{
    match kind {
        6 => promise_marks(bytes, at),
        7 => accept_marks(bytes, at),
        _ => no_marks(bytes),
    }
}

// The next of so many marks, how many are left then, and the place behind it.
fn next_mark(
    part: usize,
    key: &Key,
    version: u64,
    bytes: &[u8],
    count: u32,
    last: Option<TxId>,
    at: usize,
) -> Option<((TxId, Mark), u32, usize)>
    ensures end { IfNone result (marks_from (entry_behind part key.now version bytes.now) count last at ≡ []) }
    ensures next { IfSome result (λ next. marks_from (entry_behind part key.now version bytes.now) count last at
        ≡ next.0 ∷ marks_from (entry_behind part key.now version bytes.now) next.1 (Some next.0.0) next.2) }
{
    if count == 0 {
        return None;
    }
    match read_entry_behind(part, key, version, bytes, last, at) {
        Ok((entry, after)) => Some((entry, count - 1, after)),
        Err(_) => None,
    }
}

impl<'a> Iterator for MarkViews<'a> {
    type Item = (TxId, Mark);

    ghost next_gives = { YieldsFirst (λ marks. marks) };

    ghost remaining = { item_count (λ marks. marks) };

    fn next(&mut self) -> Option<(TxId, Mark)> {
        let (entry, count, after) = next_mark(
            self.part,
            &self.key,
            self.version,
            self.bytes,
            self.count,
            self.last,
            self.at,
        )?;
        self.last = Some(entry.0);
        self.count = count;
        self.at = after;
        Some(entry)
    }
}
