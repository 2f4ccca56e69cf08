//! Numbers of transactions, ascending by transaction.
ghost use Rattle.std.specs.Prelude.{◌≡◌, ◌<◌, ◌≤◌, ◌^◌, [], ◌↔◌, None, true, IfOk, IsTrue, is_some, length, slice_get};
ghost use Rattle.std.specs.List.{find};
ghost use Rattle.mdcc_cells_chains.specs.Unresolved.{without, is_after_tx, value_if};
ghost use Rattle.mdcc_base.specs.TxId.{tx_lt};
ghost use Rattle.mdcc_struct.specs.Maps.{are_ascending, value_of, with_entry};
ghost use Rattle.mdcc_struct.specs.Places.{place_of};

use mdcc_base::{Memory, TxId};
use std::alloc::Global;
use std::marker::Model;

/// The transactions that are not resolved yet, each with a number, in ascending order.
#[derive(Drop)]
pub struct Unresolved {
    entries: Vec<(TxId, u32)>,
    room: u32,
}

impl Model for Unresolved {
    ghost use Rattle.std.specs.Prelude.{vec_capacity};
    ghost use Rattle.mdcc_cells_chains.specs.Unresolved.{Numbered, AreTxNumbers};

    ghost Value = { Numbered };

    ghost view = { λ u. record { room = u.room; entries = u.entries.items } };

    ghost invariant = { λ u. AreTxNumbers u.entries.items u.room (vec_capacity u.entries) };
}

// How many entries stand before a transaction, by halving.
fn place_of(entries: &[(TxId, u32)], tx: &TxId) -> usize
    requires { are_ascending entries.now ≡ true }
    ensures value { result ≡ place_of entries.now tx.now }
    ensures within { result ≤ length entries.now }
{
    entries.partition_point(
        |e: &(TxId, u32)| -> bool
            ensures { result ≡ tx_lt e.now.0 tx.entry.now }
        { e.0.is_below(tx) },
    )
}

// The entry at a place.
fn entry_at(entries: &[(TxId, u32)], place: usize) -> Option<(TxId, u32)>
    ensures { result ≡ slice_get entries.now place }
{
    entries.get(place).copied()
}

// The number of an entry, if it is that of a transaction.
fn number_of(entry: &(TxId, u32), tx: &TxId) -> Option<u32>
    ensures { result ≡ value_if tx.now entry.now }
{
    if entry.0.is(tx) { Some(entry.1) } else { None }
}

// The number of a transaction, by its place.
fn number_at(entries: &[(TxId, u32)], place: usize, tx: &TxId) -> Option<u32>
    requires ascending { are_ascending entries.now ≡ true }
    requires place { place ≡ place_of entries.now tx.now }
    ensures { result ≡ value_of entries.now tx.now }
{
    match entry_at(entries, place) {
        Some(entry) => number_of(&entry, tx),
        None => None,
    }
}

// Whether a transaction has an entry, by its place.
fn has_at(entries: &[(TxId, u32)], place: usize, tx: &TxId) -> bool
    requires ascending { are_ascending entries.now ≡ true }
    requires place { place ≡ place_of entries.now tx.now }
    ensures { result ≡ is_some (value_of entries.now tx.now) }
{
    number_at(entries, place, tx).is_some()
}

// The first entry after a transaction.
fn entry_after(entries: &[(TxId, u32)], last: &TxId) -> Option<(TxId, u32)>
    requires ascending { are_ascending entries.now ≡ true }
    requires small { length entries.now < 2 ^ 32 }
    ensures { result ≡ find (λ e. tx_lt last.now e.0) entries.now }
{
    let place = place_of(entries, last);
    if has_at(entries, place, last) {
        entry_at(entries, place + 1)
    } else {
        entry_at(entries, place)
    }
}

impl Unresolved {
    /// No transaction, with room for so many.
    pub fn new(alloc: Global, room: u32) -> Result<Unresolved, Memory>
        ensures { IfOk result (λ unresolved. unresolved ≡ record { room = room; entries = [] }) }
    {
        Ok(Unresolved {
            entries: Vec::with_capacity(alloc, room as usize)?,
            room,
        })
    }

    /// How many transactions there are.
    pub fn len(&self) -> u32
        ensures value { result ≡ length self.now.entries }
        ensures fits { result ≤ self.now.room }
        ensures ascending { are_ascending self.now.entries ≡ true }
    {
        self.entries.len() as u32
    }

    /// Whether there is no room for one more transaction.
    pub fn is_full(&self) -> bool
        ensures { IsTrue result ↔ (self.now.room ≤ length self.now.entries) }
    {
        self.room as usize <= self.entries.len()
    }

    /// The transaction at a place, in ascending order, with its number.
    pub fn get(&self, place: usize) -> Option<(TxId, u32)>
        ensures { result ≡ slice_get self.now.entries place }
    {
        entry_at(&self.entries, place)
    }

    /// The number of a transaction.
    pub fn find(&self, tx: &TxId) -> Option<u32>
        ensures { result ≡ value_of self.now.entries tx.now }
    {
        number_at(&self.entries, place_of(&self.entries, tx), tx)
    }

    /// The first transaction after another, or the first of all.
    pub fn after(&self, last: Option<TxId>) -> Option<(TxId, u32)>
        ensures { result ≡ find (λ e. is_after_tx last e.0) self.now.entries }
    {
        match last {
            Some(tx) => entry_after(&self.entries, &tx),
            None => entry_at(&self.entries, 0),
        }
    }

    /// Gives a transaction a number, unless it has one.
    pub fn insert(&mut self, tx: TxId, number: u32)
        requires { value_of self.old.entries tx ≡ None → length self.old.entries < self.old.room }
        ensures entries { self.new.entries ≡ with_entry self.old.entries (tx, number) }
        ensures room { self.new.room ≡ self.old.room }
    {
        let place = place_of(&self.entries, &tx);
        if !has_at(&self.entries, place, &tx) {
            self.entries.insert(place, (tx, number)).unwrap();
        }
    }

    /// Removes a transaction, if it is there.
    pub fn remove(&mut self, tx: &TxId)
        ensures entries { self.new.entries ≡ without self.old.entries tx.now }
        ensures room { self.new.room ≡ self.old.room }
    {
        let place = place_of(&self.entries, tx);
        if has_at(&self.entries, place, tx) {
            self.entries.remove(place);
        }
    }

    /// No transaction again, with the same room. It takes no memory and gives none back.
    pub fn clear(&mut self)
        ensures { self.new ≡ record { room = self.old.room; entries = [] } }
    {
        self.entries.clear();
    }
}
