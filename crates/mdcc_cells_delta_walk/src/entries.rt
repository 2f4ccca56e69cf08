//! The entries of a fact that bring an update into an instance, one after the other.
ghost use Rattle.std.specs.Prelude.{◌≡◌, ◌<◌, ◌==◌, None, Some, drop, if◌then◌else◌};
ghost use Rattle.mdcc_cells_delta_walk.specs.Entries.{IsAtFirst, added_as, added_by, after_entered, after_mark_entry, after_other_choice, amounts_in, choices_opened, deltas_opened, left_in, marks_opened, no_entries, opened_deltas, opened_live, past_entry, rest_in, tx_entered, tx_in, tx_of_choice, tx_of_mark};
ghost use Rattle.mdcc_cells_delta_walk.specs.Passing.{byte_at, entry_head};

use crate::parts::{amounts_in, is_instance_in, number_in, tx_in};
use crate::passing::{HEAD, byte_in, first_byte, pass_counted, pass_item, pass_rest, peeked};
use mdcc_base::{Key, TxId};
use mdcc_option::Amounts;
use mdcc_pool::Cursor;

/// What the entries of a fact are: marks of a vote, choices of a commit, or deltas that were adopted.
#[derive(Clone, Copy)]
pub(crate) enum Kind {
    Marks,
    Choices,
    Deltas,
}

/// The entries of a fact that are left to be read, for a version of a key.
#[derive(Drop)]
pub(crate) struct Entries<'a> {
    pub cursor: Cursor<'a>,
    pub left: u32,
    pub kind: Kind,
    pub key: Key,
    pub version: u64,
}

// Goes from a mark to its update, or past a mark that rejects.
fn enter_mark(cursor: &mut Cursor<'_>) -> Option<TxId>
    ensures tx { result ≡ tx_of_mark cursor.old }
    ensures after { cursor.new ≡ after_mark_entry cursor.old }
{
    let mut window = [0u8; HEAD];
    let head = peeked(cursor, window.as_mut_slice());
    if byte_in(head, 0) == 0 {
        cursor.skip(10);
        return None;
    }
    let tx = tx_in(head, 1);
    cursor.skip(19 + byte_in(head, 10));
    Some(tx)
}

// Goes from a choice that adds to the instance to its update, or past any other choice.
fn enter_choice(cursor: &mut Cursor<'_>, key: &Key, version: u64) -> Option<TxId>
    ensures tx { result ≡ tx_of_choice key.now version cursor.old }
    ensures after { cursor.new ≡ after_other_choice key.now version cursor.old }
{
    let mut window = [0u8; HEAD];
    let head = peeked(cursor, window.as_mut_slice());
    let tx = tx_in(head, 0);
    let is_same = is_instance_in(head, 9, key, version);
    cursor.skip(18 + byte_in(head, 9));
    if is_same && first_byte(cursor) == 2 {
        Some(tx)
    } else {
        pass_rest(cursor);
        None
    }
}

// Goes from a delta to its amounts.
fn enter_delta(cursor: &mut Cursor<'_>) -> TxId
    ensures tx { result ≡ tx_in (entry_head cursor.old) 0 }
    ensures after { cursor.new ≡ drop 9 cursor.old }
{
    let mut window = [0u8; HEAD];
    let tx = tx_in(peeked(cursor, window.as_mut_slice()), 0);
    cursor.skip(9);
    tx
}

// Goes from an entry to its update, or past one that brings none.
fn enter(cursor: &mut Cursor<'_>, kind: Kind, key: &Key, version: u64) -> Option<TxId>
    ensures tx { result ≡ tx_entered kind key.now version cursor.old }
    ensures after { cursor.new ≡ after_entered kind key.now version cursor.old }
{
    match kind {
        Kind::Marks => enter_mark(cursor),
        Kind::Choices => enter_choice(cursor, key, version),
        Kind::Deltas => Some(enter_delta(cursor)),
    }
}

// The amounts that an update adds, none where it writes.
fn added_in(head: &[u8]) -> Option<Amounts>
    ensures { result ≡ (if byte_at 0 head.now == 2 then Some (amounts_in head.now 1) else None) }
{
    if byte_in(head, 0) == 2 {
        Some(amounts_in(head, 1))
    } else {
        None
    }
}

// The amounts of the entry whose update is next.
fn added_as(cursor: &Cursor<'_>, kind: Kind) -> Option<Amounts>
    ensures { result ≡ added_as kind cursor.now }
{
    let mut window = [0u8; HEAD];
    let head = peeked(cursor, window.as_mut_slice());
    match kind {
        Kind::Deltas => Some(amounts_in(head, 0)),
        _ => added_in(head),
    }
}

// Passes the rest of an entry from its update on.
fn pass_entry(cursor: &mut Cursor<'_>, kind: Kind)
    ensures { cursor.new ≡ past_entry kind cursor.old }
{
    match kind {
        Kind::Deltas => pass_counted(cursor, 9),
        _ => pass_rest(cursor),
    }
}

// No entry.
fn no_entries<'a>(cursor: Cursor<'a>, key: &Key, version: u64) -> Entries<'a>
    ensures { result ≡ no_entries key.now version cursor.entry }
{
    Entries {
        cursor,
        left: 0,
        kind: Kind::Marks,
        key: *key,
        version,
    }
}

// The marks of a vote in the instance.
fn open_marks<'a>(cursor: Cursor<'a>, head: &[u8], key: &Key, version: u64) -> Entries<'a>
    requires { head.now ≡ entry_head cursor }
    ensures { result ≡ marks_opened key.now version cursor.entry }
{
    let mut cursor = cursor;
    if !is_instance_in(head, 1, key, version) {
        return no_entries(cursor, key, version);
    }
    let len = byte_in(head, 1);
    let left = number_in(head, 19 + len);
    cursor.skip(23 + len);
    Entries {
        cursor,
        left,
        kind: Kind::Marks,
        key: *key,
        version,
    }
}

// The choices of a commit.
fn open_choices<'a>(cursor: Cursor<'a>, head: &[u8], key: &Key, version: u64) -> Entries<'a>
    requires { head.now ≡ entry_head cursor }
    ensures { result ≡ choices_opened key.now version cursor.entry }
{
    let mut cursor = cursor;
    if byte_in(head, 10) != 1 {
        return no_entries(cursor, key, version);
    }
    let left = byte_in(head, 11) as u32;
    cursor.skip(12);
    Entries {
        cursor,
        left,
        kind: Kind::Choices,
        key: *key,
        version,
    }
}

// The deltas that were adopted with the version.
fn open_deltas<'a>(cursor: Cursor<'a>, head: &[u8], key: &Key, version: u64) -> Entries<'a>
    requires { head.now ≡ entry_head cursor }
    ensures { result ≡ deltas_opened key.now version cursor.entry }
{
    let mut cursor = cursor;
    if !is_instance_in(head, 1, key, version) {
        return no_entries(cursor, key, version);
    }
    cursor.skip(10 + byte_in(head, 1));
    pass_item(&mut cursor);
    let left = first_byte(&cursor) as u32;
    cursor.skip(1);
    Entries {
        cursor,
        left,
        kind: Kind::Deltas,
        key: *key,
        version,
    }
}

/// Those of the fact at whose beginning a cursor stands that bring deltas into a version of a key. The
/// head is that of the fact.
pub(crate) fn delta_entries<'a>(
    cursor: Cursor<'a>,
    head: &[u8],
    key: &Key,
    version: u64,
) -> Entries<'a>
    requires { head.now ≡ entry_head cursor }
    ensures { result ≡ opened_deltas key.now version cursor.entry }
{
    match byte_in(head, 0) {
        4 => open_choices(cursor, head, key, version),
        5 => open_deltas(cursor, head, key, version),
        _ => no_entries(cursor, key, version),
    }
}

/// Those that bring live updates.
pub(crate) fn live_entries<'a>(
    cursor: Cursor<'a>,
    head: &[u8],
    key: &Key,
    version: u64,
) -> Entries<'a>
    requires { head.now ≡ entry_head cursor }
    ensures { result ≡ opened_live key.now version cursor.entry }
{
    if byte_in(head, 0) == 3 {
        open_marks(cursor, head, key, version)
    } else {
        delta_entries(cursor, head, key, version)
    }
}

/// The entries of a fact that bring deltas.
pub(crate) fn read_deltas<'a>(cursor: Cursor<'a>, key: &Key, version: u64) -> Entries<'a>
    ensures { result ≡ opened_deltas key.now version cursor.entry }
{
    let mut window = [0u8; HEAD];
    let head = peeked(&cursor, window.as_mut_slice());
    delta_entries(cursor, head, key, version)
}

/// The entries of a fact that bring live updates.
pub(crate) fn read_live<'a>(cursor: Cursor<'a>, key: &Key, version: u64) -> Entries<'a>
    ensures { result ≡ opened_live key.now version cursor.entry }
{
    let mut window = [0u8; HEAD];
    let head = peeked(&cursor, window.as_mut_slice());
    live_entries(cursor, head, key, version)
}

impl<'a> Entries<'a> {
    /// Goes to the update of the next entry that brings one, and gives its transaction.
    pub(crate) fn find(&mut self) -> Option<TxId>
        ensures { IsAtFirst (left_in self.old) result self.new }
    {
        while self.left > 0 {
            self.left -= 1;
            let found = enter(&mut self.cursor, self.kind, &self.key, self.version);
            if found.is_some() {
                return found;
            }
        }
        None
    }

    /// The amounts that the update at which it stands adds, none where it writes.
    pub(crate) fn added(&self) -> Option<Amounts>
        ensures { result ≡ added_by self.now }
    {
        added_as(&self.cursor, self.kind)
    }

    /// Passes the update at which it stands.
    pub(crate) fn pass(&mut self)
        ensures { left_in self.new ≡ rest_in self.old }
    {
        if self.left > 0 {
            pass_entry(&mut self.cursor, self.kind);
        }
    }
}
