//! How transactions ended, found by transaction.
ghost use Rattle.std.specs.Prelude.{◌≡◌, ◌∷◌, ◌++◌, ◌<◌, ◌≤◌, ◌+◌, [], IfOk, IfSome, List, ℕ, get_or, length, vec_capacity, vec_len};
ghost use Rattle.mdcc_struct.specs.Maps.{value_of};
ghost use Rattle.mdcc_def_messages.specs.declared.facts.Fact.{Fact as AFact};
ghost use Rattle.mdcc_def_protocol.specs.Facts.{heard_of};
ghost use Rattle.mdcc_def_protocol.specs.Plain.{plain_ended_of};
ghost use Rattle.mdcc_cells_facts.specs.Holding.{HoldsEncodings};
ghost use Rattle.mdcc_cells_indices.specs.Heard.{AreHeard, AreNumbersBelow, deltas_given, ended_told, is_commit_spelled, number_found, numbers_by, outcome_spelled};
ghost use Rattle.mdcc_theorem_fact_folds.specs.Entered.{heard_in};

use crate::commits::outcome_in;
use mdcc_base::{Key, Memory, TxId};
use mdcc_cells_chains::TransactionIndex;
use mdcc_cells_delta_walk::amounts_at;
use mdcc_cells_facts::FactCells;
use mdcc_cells_tables::HeardTest;
use mdcc_def_messages::Fact;
use mdcc_option::{Amounts, Outcome};
use std::alloc::Global;
use std::marker::Model;

/// The longest encoding of a fact that says how a transaction ended.
const LONGEST_HEARD: usize = 8964;

/// One of a commit of one choice is shorter.
const SHORT_HEARD: usize = 1152;

/// The numbers of facts that say how a transaction ended, found by the transaction.
#[derive(Drop)]
pub struct OutcomeIndex {
    txs: TransactionIndex,
    numbers: Vec<u32>,
}

impl Model for OutcomeIndex {
    ghost use Rattle.std.specs.Prelude.{vec_capacity};
    ghost use Rattle.mdcc_cells_indices.specs.Heard.{AreNumbered, HeardTxs};

    ghost Value = { HeardTxs };

    ghost view = { λ o. record { txs = o.txs; numbers = o.numbers.items } };

    ghost invariant = { λ o. AreNumbered o.txs o.numbers.items (vec_capacity o.numbers) };
}

// How a transaction ended, by the fact of a number, which is copied to where there is room for it.
fn outcome_at(cells: &FactCells, number: u32, window: &mut [u8]) -> Option<Outcome>
    requires { number < length cells.now.encodings }
    ensures { length (get_or cells.now.encodings number []) ≤ length window.old → result ≡ outcome_spelled (get_or cells.now.encodings number []) }
{
    let count = cells.start(number).peek(window);
    outcome_in(&window[..count])
}

// The same, where it may be a long one.
fn long_outcome_at(cells: &FactCells, number: u32) -> Option<Outcome>
    requires { number < length cells.now.encodings }
    ensures { length (get_or cells.now.encodings number []) ≤ 8964 → result ≡ outcome_spelled (get_or cells.now.encodings number []) }
{
    let mut window = [0u8; LONGEST_HEARD];
    outcome_at(cells, number, &mut window)
}

// The same. Only for a long one it clears as many bytes as the longest has.
fn any_outcome_at(cells: &FactCells, number: u32) -> Option<Outcome>
    requires { number < length cells.now.encodings }
    ensures { length (get_or cells.now.encodings number []) ≤ 8964 → result ≡ outcome_spelled (get_or cells.now.encodings number []) }
{
    let mut window = [0u8; SHORT_HEARD];
    let count = cells.start(number).peek(&mut window);
    if count < SHORT_HEARD {
        outcome_in(&window[..count])
    } else {
        long_outcome_at(cells, number)
    }
}

// Whether a transaction committed, by the fact of a number that says how it ended.
fn is_commit_at(cells: &FactCells, number: u32) -> bool
    requires { number < length cells.now.encodings }
    ensures { result ≡ is_commit_spelled (get_or cells.now.encodings number []) }
{
    let mut cursor = cells.start(number);
    cursor.skip(10);
    let mut tag = [0u8];
    let _count = cursor.peek(tag.as_mut_slice());
    tag[0] == 1
}

impl OutcomeIndex {
    /// No outcomes, with room for so many.
    pub fn new(alloc: Global, room: u32) -> Result<OutcomeIndex, Memory>
        ensures { IfOk result (λ outcomes. outcomes ≡ record { txs = record { room = room; keys = [] }; numbers = [] }) }
    {
        Ok(OutcomeIndex {
            txs: TransactionIndex::new(alloc, room)?,
            numbers: Vec::with_capacity(alloc, room as usize)?,
        })
    }

    // Enters a fact that says how a transaction ended.
    fn enter(&mut self, fact: &Fact, number: u32)
        requires { length self.old.txs.keys < self.old.txs.room }
        ensures txs { self.new.txs.keys ≡ heard_in fact.now ++ self.old.txs.keys }
        ensures room { self.new.txs.room ≡ self.old.txs.room }
        ensures numbers { self.new.numbers ≡ self.old.numbers ++ numbers_by fact.now number }
    {
        if let Fact::Heard { tx, .. } = fact {
            self.txs.push(*tx);
            self.numbers.push_reserved(number);
        }
    }

    /// Adds a fact, which has this number.
    pub fn add(&mut self, fact: &Fact, number: u32)
        requires { length self.old.txs.keys < self.old.txs.room }
        ensures heard { (facts : List AFact) → AreHeard self.old facts → number ≡ length facts → AreHeard self.new (fact.now ∷ facts) }
        ensures below { AreNumbersBelow number self.old.numbers → AreNumbersBelow (number + 1) self.new.numbers }
        ensures few { length self.new.txs.keys ≤ length self.old.txs.keys + 1 }
        ensures room { self.new.txs.room ≡ self.old.txs.room }
    {
        self.enter(fact, number);
    }

    /// No outcomes again, with the same room. It takes no memory and gives none back.
    pub fn clear(&mut self)
        ensures { self.new ≡ record { txs = record { room = self.old.txs.room; keys = [] }; numbers = [] } }
    {
        self.txs.clear();
        self.numbers.clear();
    }

    // The number of the oldest fact that says how the transaction ended.
    fn number_of(&self, tx: &TxId) -> Option<u32>
        ensures value { result ≡ number_found self.now tx.now }
        ensures within { (bound : ℕ) → AreNumbersBelow bound self.now.numbers → IfSome result (λ number. number < bound) }
    {
        match self.txs.oldest(tx) {
            Some(index) => Some(self.numbers[index as usize]),
            None => None,
        }
    }

    /// The outcome that was heard of a transaction.
    pub fn heard(&self, cells: &FactCells, tx: TxId) -> Option<Outcome>
        requires { AreNumbersBelow (length cells.now.encodings) self.now.numbers }
        ensures { (facts : List AFact) → HoldsEncodings cells.now.encodings facts → AreHeard self.now facts → result ≡ heard_of facts tx }
    {
        match self.number_of(&tx) {
            Some(number) => any_outcome_at(cells, number),
            None => None,
        }
    }

    /// Whether the outcome that was heard of a transaction is a commit.
    pub fn ended(&self, cells: &FactCells, tx: TxId) -> Option<bool>
        requires { AreNumbersBelow (length cells.now.encodings) self.now.numbers }
        ensures told { result ≡ ended_told cells.now.encodings self.now tx }
        ensures ended { (facts : List AFact) → HoldsEncodings cells.now.encodings facts → AreHeard self.now facts → result ≡ plain_ended_of facts tx }
    {
        match self.number_of(&tx) {
            Some(number) => Some(is_commit_at(cells, number)),
            None => None,
        }
    }

    /// What the outcome that was heard of a transaction adds to a version of a key.
    pub fn added(&self, cells: &FactCells, key: &Key, version: u64, tx: TxId) -> Option<Amounts>
        requires { AreNumbersBelow (length cells.now.encodings) self.now.numbers }
        ensures { (facts : List AFact) → HoldsEncodings cells.now.encodings facts → AreHeard self.now facts → result ≡ value_of (deltas_given key.now version (heard_of facts tx)) tx }
    {
        match self.number_of(&tx) {
            Some(number) => amounts_at(cells, number, key, version, &tx),
            None => None,
        }
    }
}

impl HeardTest for OutcomeIndex {
    ghost use Rattle.std.specs.Prelude.{is_some};
    ghost use Rattle.mdcc_cells_indices.specs.Heard.{number_found};

    ghost heard = { λ outcomes tx. is_some (number_found outcomes tx) };

    fn is_heard(&self, tx: TxId) -> bool {
        self.number_of(&tx).is_some()
    }
}
