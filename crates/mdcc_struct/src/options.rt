//! Structures: maps from transaction to mark.
ghost use Rattle.std.specs.Prelude.{◌≡◌, ◌≤◌, ◌<◌, ◌↔◌, ◌++◌, ◌∷◌, [], None, Some, Ok, IsTrue, IfOk, OnOk, OnErr, length, slice_get, drop};
ghost use Rattle.std.specs.Option.{option_copied};
ghost use Rattle.mdcc_base.specs.TxId.{tx_lt};
ghost use Rattle.mdcc_base.specs.Unless.{GivesUnless};
ghost use Rattle.mdcc_struct.specs.Fields.{mark_in, kept, kept_place};
ghost use Rattle.mdcc_struct.specs.Joined.{is_join_memory, joined_by};
ghost use Rattle.mdcc_struct.specs.Maps.{value_of, inserted, union, are_ascending};
ghost use Rattle.mdcc_struct.specs.Options.{accepts_in, rejects_in, is_mark, is_other_mark, meet_of, differing, join_of, extends};
ghost use Rattle.mdcc_struct.specs.Places.{place_of};

use mdcc_base::{Memory, Plain, TxId};
use mdcc_option::Mark;
use std::alloc::Global;
use std::marker::Model;

/// Marks by transaction, in ascending order.
#[derive(Debug, Drop)]
pub struct Options {
    entries: Vec<Entry>,
    accepted: Vec<Mark>,
    rejected: Mark,
}

// A transaction with the place of its mark: 0 where it is rejected, and else one more than the
// index of the mark among the accepted ones.
#[derive(Clone, Copy, Debug)]
struct Entry {
    tx: TxId,
    place: usize,
}

impl Model for Options {
    ghost use Rattle.std.specs.Prelude.{◌≡◌};
    ghost use Rattle.mdcc_option.specs.declared.choices.Mark.TheVariants.{Reject};
    ghost use Rattle.mdcc_struct.specs.Options.{Marks};
    ghost use Rattle.mdcc_struct.specs.Fields.{marks_in, AreEntries};

    ghost Value = { Marks };

    ghost view = { λ o. marks_in o.accepted.items o.entries.items };

    ghost invariant = { λ o. AreEntries o.accepted.items o.entries.items × (o.rejected ≡ Reject) };
}

/// Why two structures have no join.
#[derive(Clone, Copy, Debug, PartialEq, Eq)]
pub enum JoinFault {
    /// They have different marks for this transaction.
    Differ(TxId),
    /// There was no memory.
    Memory,
}

impl From<Memory> for JoinFault {
    ghost use Rattle.std.specs.Prelude.{◌≡◌};
    ghost use Rattle.mdcc_struct.specs.declared.options.JoinFault.TheVariants.{Memory};

    ghost from_gives = { λ _ e. e ≡ Memory };

    fn from(_: Memory) -> JoinFault {
        JoinFault::Memory
    }
}

// The mark of a place.
fn mark_in<'a>(accepted: &'a [Mark], rejected: &'a Mark, place: usize) -> &'a Mark
    requires rejects { rejected.now ≡ Mark.Reject }
    requires within { place ≤ length accepted.now }
    ensures { result.now ≡ mark_in accepted.now place }
{
    if place == 0 {
        rejected
    } else {
        &accepted[place - 1]
    }
}

// Keeps a copy of a mark, where it is accepted, and gives its place.
fn keep(accepted: &mut Vec<Mark>, mark: &Mark) -> Result<usize, Memory>
    ensures place { IfOk result (λ place. place ≡ kept_place accepted.old.items mark.now) }
    ensures ok { OnOk result (accepted.new.items ≡ kept accepted.old.items mark.now) }
    ensures err { OnErr result (accepted.new.items ≡ accepted.old.items) }
{
    match mark {
        Mark::Reject => Ok(0),
        Mark::Accept(choice) => {
            accepted.push(Mark::Accept(choice.copy()))?;
            Ok(accepted.len())
        }
    }
}

// Whether there is a mark, and it is this one.
pub(crate) fn is_mark(mark: &Mark, other: Option<&Mark>) -> bool
    ensures { result ≡ is_mark mark.now (option_copied other.entry) }
{
    match other {
        Some(other) => mark.is(other),
        None => false,
    }
}

// Whether there is a mark, and it is another one.
fn is_other_mark(mark: &Mark, other: Option<&Mark>) -> bool
    ensures { result ≡ is_other_mark mark.now (option_copied other.entry) }
{
    match other {
        Some(other) => !mark.is(other),
        None => false,
    }
}

// Copies of the entries.
fn entries_of(alloc: Global, entries: &[Entry]) -> Result<Vec<Entry>, Memory>
    ensures { IfOk result (λ copies. copies.items ≡ entries.now) }
{
    let mut copies = Vec::new(alloc);
    copies.extend_from_slice(entries)?;
    Ok(copies)
}

// Copies of marks.
fn marks_of(alloc: Global, marks: &[Mark]) -> Result<Vec<Mark>, Memory>
    ensures { IfOk result (λ copies. copies.items ≡ marks.now) }
{
    let mut copies = Vec::new(alloc);
    for mark in marks {
        copies.push(mark.copy())?;
    }
    Ok(copies)
}

impl Options {
    /// No mark.
    pub fn new(alloc: Global) -> Result<Options, Memory>
        ensures { result ≡ Ok [] }
    {
        Ok(Options {
            entries: Vec::new(alloc),
            accepted: Vec::new(alloc),
            rejected: Mark::Reject,
        })
    }

    /// How many marks there are.
    pub fn len(&self) -> usize
        ensures value { result ≡ length self.now }
        ensures ascending { IsTrue (are_ascending self.now) }
    {
        self.entries.len()
    }

    /// How many marks accept.
    pub fn accepted(&self) -> usize
        ensures { result ≡ length (accepts_in self.now) }
    {
        self.accepted.len()
    }

    /// How many marks reject.
    pub fn rejected(&self) -> usize
        ensures { result ≡ length (rejects_in self.now) }
    {
        self.entries.len() - self.accepted.len()
    }

    /// Whether there is none.
    pub fn is_empty(&self) -> bool
        ensures { IsTrue result ↔ (self.now ≡ []) }
    {
        self.entries.is_empty()
    }

    /// The transaction and the mark at a place, in order.
    pub fn at(&self, place: usize) -> (TxId, &Mark)
        requires { place < length self.now }
        ensures { slice_get self.now place ≡ Some (result.0, result.1.now) }
    {
        let entry = &self.entries[place];
        (
            entry.tx,
            mark_in(&self.accepted, &self.rejected, entry.place),
        )
    }

    /// The mark of a transaction.
    pub fn mark_of(&self, tx: TxId) -> Option<&Mark>
        ensures { option_copied result ≡ value_of self.now tx }
    {
        self.mark_from(self.place_of(&tx), &tx)
    }

    /// Adds a mark for a transaction that has none.
    pub fn insert(&mut self, tx: TxId, mark: Mark) -> Result<(), Memory>
        requires { value_of self.old tx ≡ None }
        ensures ok { OnOk result (self.new ≡ inserted self.old (tx, mark)) }
        ensures err { OnErr result (self.new ≡ self.old) }
    {
        let at = self.place_of(&tx);
        self.entries.try_reserve(1)?;
        let place = keep(&mut self.accepted, &mark)?;
        self.entries.insert(at, Entry { tx, place })?;
        Ok(())
    }

    /// An equal structure.
    pub fn copy(&self, alloc: Global) -> Result<Options, Memory>
        ensures { IfOk result (λ o. o ≡ self.now) }
    {
        Ok(Options {
            entries: entries_of(alloc, &self.entries)?,
            accepted: marks_of(alloc, &self.accepted)?,
            rejected: Mark::Reject,
        })
    }

    /// The entries that both have.
    pub fn meet(&self, alloc: Global, other: &Options) -> Result<Options, Memory>
        ensures { IfOk result (λ o. o ≡ meet_of self.now other.now) }
    {
        let mut both = Options::new(alloc)?;
        let mut place = 0;
        for i in 0..self.len() {
            let (tx, mark) = self.at(i);
            place = other.next_place(place, &tx);
            if is_mark(mark, other.mark_from(place, &tx)) {
                both.push_copy(tx, mark)?;
            }
        }
        Ok(both)
    }

    /// The entries of both, where their marks agree.
    pub fn join(&self, alloc: Global, other: &Options) -> Result<Options, JoinFault>
        ensures { GivesUnless is_join_memory result (joined_by (join_of self.now other.now)) }
    {
        if let Some(tx) = self.differing(other) {
            return Err(JoinFault::Differ(tx));
        }
        Ok(self.union(alloc, other)?)
    }

    /// Whether it has each entry of the other.
    pub fn extends(&self, other: &Options) -> bool
        ensures { result ≡ extends self.now other.now }
    {
        let mut place = 0;
        for i in 0..other.len() {
            let (tx, mark) = other.at(i);
            place = self.next_place(place, &tx);
            if !is_mark(mark, self.mark_from(place, &tx)) {
                return false;
            }
        }
        true
    }

    /// The least transaction that has other marks in both.
    pub fn differing(&self, other: &Options) -> Option<TxId>
        ensures { result ≡ differing self.now other.now }
    {
        let mut place = 0;
        for i in 0..self.len() {
            let (tx, mark) = self.at(i);
            place = other.next_place(place, &tx);
            if is_other_mark(mark, other.mark_from(place, &tx)) {
                return Some(tx);
            }
        }
        None
    }

    // The entries of both, and of this one where both have a transaction.
    pub(crate) fn union(&self, alloc: Global, other: &Options) -> Result<Options, Memory>
        ensures { IfOk result (λ o. o ≡ union self.now other.now) }
    {
        let mut all = Options::new(alloc)?;
        let len = self.len();
        let other_len = other.len();
        let mut i = 0;
        let mut j = 0;
        while i < len && j < other_len {
            let (mine, mark) = self.at(i);
            let (theirs, other_mark) = other.at(j);
            if theirs.is_below(&mine) {
                all.push_copy(theirs, other_mark)?;
                j += 1;
            } else {
                all.push_copy(mine, mark)?;
                i += 1;
                if mine.is(&theirs) {
                    j += 1;
                }
            }
        }
        all.push_rest(self, i)?;
        all.push_rest(other, j)?;
        Ok(all)
    }

    // Adds copies of the marks from a place on behind the others.
    fn push_rest(&mut self, other: &Options, from: usize) -> Result<(), Memory>
        requires { IsTrue (are_ascending (self.old ++ drop from other.now)) }
        ensures { OnOk result (self.new ≡ self.old ++ drop from other.now) }
    {
        for place in from..other.len() {
            let (tx, mark) = other.at(place);
            self.push_copy(tx, mark)?;
        }
        Ok(())
    }

    // Adds a copy of a mark behind the others.
    pub(crate) fn push_copy(&mut self, tx: TxId, mark: &Mark) -> Result<(), Memory>
        requires { IsTrue (are_ascending (self.old ++ (tx, mark.now) ∷ [])) }
        ensures ok { OnOk result (self.new ≡ self.old ++ (tx, mark.now) ∷ []) }
        ensures err { OnErr result (self.new ≡ self.old) }
    {
        self.entries.try_reserve(1)?;
        let place = keep(&mut self.accepted, mark)?;
        self.entries.push(Entry { tx, place })?;
        Ok(())
    }

    // How many entries stand before a transaction, by halving.
    fn place_of(&self, tx: &TxId) -> usize
        ensures { result ≡ place_of self.now tx.now }
    {
        self.entries.as_slice().partition_point(
            |e: &Entry| -> bool
                ensures { result ≡ tx_lt e.now.tx tx.entry.now }
            { e.tx.is_below(tx) },
        )
    }

    // How many entries stand before a transaction, by steps from a place.
    fn next_place(&self, from: usize, tx: &TxId) -> usize
        requires { from ≤ place_of self.now tx.now }
        ensures { result ≡ place_of self.now tx.now }
    {
        let mut place = from;
        while place < self.entries.len() && self.entries[place].tx.is_below(tx) {
            place += 1;
        }
        place
    }

    // The mark of a transaction, by its place.
    fn mark_from(&self, place: usize, tx: &TxId) -> Option<&Mark>
        requires { place ≡ place_of self.now tx.now }
        ensures { option_copied result ≡ value_of self.now tx.now }
    {
        if place == self.len() {
            return None;
        }
        let (found, mark) = self.at(place);
        if found.is(tx) { Some(mark) } else { None }
    }
}
