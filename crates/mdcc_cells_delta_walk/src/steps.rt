//! What a walk takes of each fact: deltas and live updates of transactions.
ghost use Rattle.std.specs.List.{fold, prefix_len};
ghost use Rattle.std.specs.Option.{option_or};
ghost use Rattle.std.specs.Prelude.{◌≡◌, ◌<◌, ◌==◌, ◌&&◌, [], get_or, is_some, length, not};
ghost use Rattle.mdcc_base.specs.TxId.{tx_eq, tx_lt};
ghost use Rattle.mdcc_def_messages.specs.Spelling.{fact_bytes};
ghost use Rattle.mdcc_def_messages.specs.WellFormed.{IsWellFormedFact};
ghost use Rattle.mdcc_def_messages.specs.declared.facts.Fact.{Fact as AFact};
ghost use Rattle.mdcc_def_protocol.specs.Facts.{deltas_from};
ghost use Rattle.mdcc_def_protocol.specs.Fit.{has_tx};
ghost use Rattle.mdcc_struct.specs.Maps.{txs_of, value_of};
ghost use Rattle.mdcc_cells_delta_walk.specs.Entries.{left_in, tx_in};
ghost use Rattle.mdcc_cells_delta_walk.specs.Passing.{byte_at};
ghost use Rattle.mdcc_cells_delta_walk.specs.Steps.{amounts_of, amounts_step, deltas_step, has_live, no_deltas, noted, value_in};

use crate::entries::{Entries, delta_entries, live_entries, read_deltas};
use crate::parts::tx_in;
use crate::passing::{HEAD, byte_in, peeked};
use mdcc_base::{BoundedList, Key, TxId};
use mdcc_cells_facts::{FactCells, FactStep};
use mdcc_option::{Amounts, Seen};
use mdcc_pool::Cursor;

/// The amounts that a transaction added to a version of a key, by the oldest fact.
#[derive(Drop)]
pub struct OlderAmounts {
    pub key: Key,
    pub version: u64,
    pub tx: TxId,
    pub found: Option<Amounts>,
}

/// The transactions of the deltas of a version of a key, ascending, while they are at most 64.
#[derive(Drop)]
pub struct WithDeltas {
    pub key: Key,
    pub version: u64,
    pub seen: Seen,
    /// Whether there are more.
    pub crowded: bool,
}

// Whether the fact with this head says how another transaction ended.
fn is_of_other(head: &[u8], tx: &TxId) -> bool
    ensures { result ≡ (byte_at 0 head.now == 4 && not (tx_eq (tx_in head.now 1) tx.now)) }
{
    byte_in(head, 0) == 4 && !tx_in(head, 1).is(tx)
}

// Whether one of the entries is the transaction's.
fn has_entry<'a>(entries: Entries<'a>, tx: &TxId) -> bool
    ensures { result ≡ is_some (value_of (left_in entries.entry) tx.now) }
{
    let mut entries = entries;
    while let Some(other) = entries.find() {
        if other.is(tx) {
            return true;
        }
        entries.pass();
    }
    false
}

// What the first entry of the transaction adds.
fn value_in<'a>(entries: Entries<'a>, tx: &TxId) -> Option<Amounts>
    ensures { result ≡ value_in tx.now (left_in entries.entry) }
{
    let mut entries = entries;
    while let Some(other) = entries.find() {
        if other.is(tx) {
            return entries.added();
        }
        entries.pass();
    }
    None
}

/// Whether the fact at whose beginning a cursor stands makes the transaction live in a version of a key.
pub(crate) fn has_live<'a>(cursor: Cursor<'a>, key: &Key, version: u64, tx: &TxId) -> bool
    ensures { result ≡ has_live key.now version tx.now cursor.entry }
{
    let mut window = [0u8; HEAD];
    let head = peeked(&cursor, window.as_mut_slice());
    !is_of_other(head, tx) && has_entry(live_entries(cursor, head, key, version), tx)
}

// The amounts of the transaction's delta there.
fn amounts_of<'a>(cursor: Cursor<'a>, key: &Key, version: u64, tx: &TxId) -> Option<Amounts>
    ensures { result ≡ amounts_of key.now version tx.now cursor.entry }
{
    let mut window = [0u8; HEAD];
    let head = peeked(&cursor, window.as_mut_slice());
    if is_of_other(head, tx) {
        None
    } else {
        value_in(delta_entries(cursor, head, key, version), tx)
    }
}

/// What the delta of a transaction adds that the fact of a number brings into a version of a key.
pub fn amounts_at(
    cells: &FactCells,
    number: u32,
    key: &Key,
    version: u64,
    tx: &TxId,
) -> Option<Amounts>
    requires { number < length cells.now.encodings }
    ensures { (fact : AFact) → IsWellFormedFact fact → get_or cells.now.encodings number [] ≡ fact_bytes fact → result ≡ value_of (deltas_from key.now version fact) tx.now }
{
    amounts_of(cells.start(number), key, version, tx)
}

/// Whether the transaction is among these.
pub(crate) fn has_tx(txs: &[TxId], tx: &TxId) -> bool
    ensures { result ≡ has_tx txs.now tx.now }
{
    for other in txs {
        if tx.is(other) {
            return true;
        }
    }
    false
}

// How many stand before a transaction.
fn place_of(txs: &[TxId], tx: &TxId) -> usize
    ensures { result ≡ prefix_len (λ other. tx_lt other tx.now) txs.now }
{
    let mut place = 0usize;
    for other in txs {
        if !other.is_below(tx) {
            return place;
        }
        place += 1;
    }
    place
}

impl FactStep for OlderAmounts {
    ghost step = { amounts_step };

    fn take(&mut self, cells: &FactCells, number: u32) {
        let cursor = cells.start(number);
        let older = amounts_of(cursor, &self.key, self.version, &self.tx);
        if older.is_some() {
            self.found = older;
        }
    }
}

impl WithDeltas {
    /// No delta of a version of a key.
    pub fn new(key: Key, version: u64) -> WithDeltas
        ensures { result ≡ no_deltas key version }
    {
        WithDeltas {
            key,
            version,
            seen: BoundedList::new(),
            crowded: false,
        }
    }

    // Puts a transaction in its place, where it is not there and there is room.
    pub(crate) fn note(&mut self, tx: TxId)
        ensures { self.new ≡ noted self.old tx }
    {
        if self.crowded || has_tx(self.seen.as_slice(), &tx) {
            return;
        }
        if self.seen.is_full() {
            self.crowded = true;
            return;
        }
        let place = place_of(self.seen.as_slice(), &tx);
        self.seen.insert(place, tx);
    }

    // Puts those of entries.
    pub(crate) fn note_all(&mut self, entries: Entries<'_>)
        ensures { self.new ≡ fold noted self.old (txs_of (left_in entries.entry)) }
    {
        let mut entries = entries;
        while let Some(tx) = entries.find() {
            self.note(tx);
            entries.pass();
        }
    }
}

impl FactStep for WithDeltas {
    ghost step = { deltas_step };

    fn take(&mut self, cells: &FactCells, number: u32) {
        let entries = read_deltas(cells.start(number), &self.key, self.version);
        self.note_all(entries);
    }
}
