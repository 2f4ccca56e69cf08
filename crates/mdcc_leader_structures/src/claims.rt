//! The claims of a leader.
ghost use Rattle.std.specs.Prelude.{◌≡◌, ◌<◌, ◌≤◌, IfOk, IsTrue, OnErr, OnOk, Some, [], false, is_some, length, slice_get, true};
ghost use Rattle.std.specs.Option.{option_copied};
ghost use Rattle.mdcc_base.specs.TxId.{tx_lt};
ghost use Rattle.mdcc_struct.specs.Maps.{are_ascending, value_of};
ghost use Rattle.mdcc_struct.specs.Places.{place_of};
ghost use Rattle.mdcc_leader_structures.specs.Fields.{choice_in, choices_kept, filled, filled_place, kept_choice_place};
ghost use Rattle.mdcc_def_protocol.specs.Structures.{with_choice};

use mdcc_base::{Memory, Plain, TxId};
use mdcc_option::Choice;
use std::alloc::Global;
use std::marker::Model;

/// Claims by transaction, in ascending order, each with its choice where that is known.
#[derive(Drop)]
pub struct Claims {
    entries: Vec<Entry>,
    choices: Vec<Choice>,
}

// A transaction with the place of its choice: 0 where it is not known, and else one more than the
// index of the choice.
#[derive(Clone, Copy)]
struct Entry {
    tx: TxId,
    place: usize,
}

impl Model for Claims {
    ghost use Rattle.std.specs.Prelude.{Option};
    ghost use Rattle.mdcc_option.specs.declared.choices.Choice.{Choice as AChoice};
    ghost use Rattle.mdcc_struct.specs.Maps.{TxMap};
    ghost use Rattle.mdcc_leader_structures.specs.Fields.{AreClaimEntries, claims_in};

    ghost Value = { TxMap (Option AChoice) };

    ghost view = { λ c. claims_in c.choices.items c.entries.items };

    ghost invariant = { λ c. AreClaimEntries c.choices.items c.entries.items };
}

impl Claims {
    /// No claim.
    pub fn new(alloc: Global) -> Claims
        ensures { result ≡ [] }
    {
        Claims {
            entries: Vec::new(alloc),
            choices: Vec::new(alloc),
        }
    }

    /// How many there are.
    pub fn len(&self) -> usize
        ensures value { result ≡ length self.now }
        ensures ascending { IsTrue (are_ascending self.now) }
    {
        self.entries.len()
    }

    /// The transaction and the choice at a place, in order.
    pub fn at(&self, place: usize) -> (TxId, Option<&Choice>)
        requires { place < length self.now }
        ensures { slice_get self.now place ≡ Some (result.0, option_copied result.1) }
    {
        let entry = &self.entries[place];
        (entry.tx, choice_in(&self.choices, entry.place))
    }

    /// Adds a claim; that of a transaction that has one gives its choice, where that is not known.
    pub fn add(&mut self, tx: TxId, choice: Option<&Choice>) -> Result<(), Memory>
        ensures ok { OnOk result (self.new ≡ with_choice self.old (tx, option_copied choice.entry)) }
        ensures err { OnErr result (self.new ≡ self.old) }
    {
        let at = self.place_of(&tx);
        if self.has_at(at, &tx) {
            self.fill_at(at, tx, choice)
        } else {
            self.insert_at(at, tx, choice)
        }
    }

    /// Equal claims.
    pub fn copy(&self, alloc: Global) -> Result<Claims, Memory>
        ensures { IfOk result (λ claims. claims ≡ self.now) }
    {
        Ok(Claims {
            entries: entries_of(alloc, &self.entries)?,
            choices: choices_of(alloc, &self.choices)?,
        })
    }

    // How many claims stand before a transaction, by halving.
    fn place_of(&self, tx: &TxId) -> usize
        ensures { result ≡ place_of self.now tx.now }
    {
        self.entries.as_slice().partition_point(
            |e: &Entry| -> bool
                ensures { result ≡ tx_lt e.now.tx tx.entry.now }
            { e.tx.is_below(tx) },
        )
    }

    // Whether a transaction has a claim, by its place.
    fn has_at(&self, place: usize, tx: &TxId) -> bool
        requires { place ≡ place_of self.now tx.now }
        ensures value { result ≡ is_some (value_of self.now tx.now) }
        ensures ascending { IsTrue (are_ascending self.now) }
    {
        place < self.len() && self.at(place).0.is(tx)
    }

    // Gives the claim at a place its choice, where that is not known.
    fn fill_at(&mut self, at: usize, tx: TxId, choice: Option<&Choice>) -> Result<(), Memory>
        requires place { at ≡ place_of self.old tx }
        requires there { is_some (value_of self.old tx) ≡ true }
        ensures ok { OnOk result (self.new ≡ with_choice self.old (tx, option_copied choice.entry)) }
        ensures err { OnErr result (self.new ≡ self.old) }
    {
        let place = fill(&mut self.choices, self.entries[at].place, choice)?;
        self.entries[at] = Entry { tx, place };
        Ok(())
    }

    // Puts a claim in at its place, where there is none.
    fn insert_at(&mut self, at: usize, tx: TxId, choice: Option<&Choice>) -> Result<(), Memory>
        requires place { at ≡ place_of self.old tx }
        requires new { is_some (value_of self.old tx) ≡ false }
        ensures ok { OnOk result (self.new ≡ with_choice self.old (tx, option_copied choice.entry)) }
        ensures err { OnErr result (self.new ≡ self.old) }
    {
        self.entries.try_reserve(1)?;
        let place = keep(&mut self.choices, choice)?;
        self.entries.insert(at, Entry { tx, place })?;
        Ok(())
    }
}

// What a place says.
fn choice_in(choices: &[Choice], place: usize) -> Option<&Choice>
    requires { place ≤ length choices.now }
    ensures { option_copied result ≡ choice_in choices.now place }
{
    if place == 0 {
        None
    } else {
        Some(&choices[place - 1])
    }
}

// Keeps a copy of a choice, where it is known, and gives its place.
fn keep(choices: &mut Vec<Choice>, choice: Option<&Choice>) -> Result<usize, Memory>
    ensures place { IfOk result (λ place. place ≡ kept_choice_place choices.old.items (option_copied choice.entry)) }
    ensures ok { OnOk result (choices.new.items ≡ choices_kept choices.old.items (option_copied choice.entry)) }
    ensures err { OnErr result (choices.new.items ≡ choices.old.items) }
{
    match choice {
        Some(choice) => {
            choices.push(choice.copy())?;
            Ok(choices.len())
        }
        None => Ok(0),
    }
}

// Keeps it only where the choice of a place is not known.
fn fill(choices: &mut Vec<Choice>, place: usize, choice: Option<&Choice>) -> Result<usize, Memory>
    ensures place { IfOk result (λ filled. filled ≡ filled_place choices.old.items place (option_copied choice.entry)) }
    ensures ok { OnOk result (choices.new.items ≡ filled choices.old.items place (option_copied choice.entry)) }
    ensures err { OnErr result (choices.new.items ≡ choices.old.items) }
{
    if place == 0 {
        keep(choices, choice)
    } else {
        Ok(place)
    }
}

// Copies of the entries.
fn entries_of(alloc: Global, entries: &[Entry]) -> Result<Vec<Entry>, Memory>
    ensures { IfOk result (λ copies. copies.items ≡ entries.now) }
{
    let mut copies = Vec::new(alloc);
    copies.extend_from_slice(entries)?;
    Ok(copies)
}

// Copies of the choices.
fn choices_of(alloc: Global, choices: &[Choice]) -> Result<Vec<Choice>, Memory>
    ensures { IfOk result (λ copies. copies.items ≡ choices.now) }
{
    let mut copies = Vec::new(alloc);
    for choice in choices {
        copies.push(choice.copy())?;
    }
    Ok(copies)
}
