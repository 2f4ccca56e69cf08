//! Which transactions are not resolved.
ghost use Rattle.std.specs.Prelude.{◌≡◌, ◌+◌, ◌<◌, ◌≤◌, [], ◌∷◌, Bool, IfOk, IfSome, List, filter_map, length, slice_get, true, ℕ};
ghost use Rattle.mdcc_base.specs.declared.identifiers.TxId.{TxId as ATx};
ghost use Rattle.mdcc_def_messages.specs.declared.facts.Fact.{Fact as AFact};
ghost use Rattle.mdcc_def_protocol.specs.Facts.{write_set_of_mark, write_sets_from};
ghost use Rattle.mdcc_struct.specs.Maps.{are_ascending, txs_of, value_of};
ghost use Rattle.mdcc_cells_tables.specs.UnresolvedNumbers.{AreBelowNumber, ListsUnresolved, TellsHeard, next_numbers, with_all_unheard, with_unheard_number};

use mdcc_base::{Memory, TxId};
use mdcc_cells_chains::Unresolved;
use mdcc_def_messages::Fact;
use mdcc_option::Mark;
use mdcc_struct::Options;
use std::alloc::Global;
use std::marker::Model;

/// A test whether the outcome of a transaction was heard.
pub trait HeardTest {
    ghost heard: { Self → ATx → Bool };

    /// Whether an outcome of the transaction was heard.
    fn is_heard(&self, tx: TxId) -> bool
        ensures { result ≡ heard self.now tx };
}

/// The transactions of which a vote holds a choice and whose outcome was not heard, ascending, each
/// with the number of the first fact that holds a choice of it.
#[derive(Drop)]
pub struct UnresolvedTable {
    numbers: Unresolved,
}

impl Model for UnresolvedTable {
    ghost use Rattle.mdcc_cells_chains.specs.Unresolved.{Numbered};

    ghost Value = { Numbered };

    ghost view = { λ t. t.numbers };
}

impl UnresolvedTable {
    /// No transactions, with room for so many.
    pub fn new(alloc: Global, room: u32) -> Result<UnresolvedTable, Memory>
        ensures value { IfOk result (λ table. table ≡ record { room = room; entries = [] }) }
        ensures lists { IfOk result (λ table. ListsUnresolved table.entries []) }
    {
        Ok(UnresolvedTable {
            numbers: Unresolved::new(alloc, room)?,
        })
    }

    /// How many transactions there are.
    pub fn len(&self) -> u32
        ensures value { result ≡ length self.now.entries }
        ensures fits { result ≤ self.now.room }
        ensures ascending { are_ascending self.now.entries ≡ true }
    {
        self.numbers.len()
    }

    /// The transaction at a place, in ascending order, with its number.
    pub fn get(&self, place: usize) -> Option<(TxId, u32)>
        ensures value { result ≡ slice_get self.now.entries place }
        ensures below { (number : ℕ) → AreBelowNumber number self.now.entries → IfSome result (λ e. e.1 < number) }
    {
        self.numbers.get(place)
    }

    /// The number of a transaction.
    pub fn find(&self, tx: TxId) -> Option<u32>
        ensures value { result ≡ value_of self.now.entries tx }
        ensures below { (number : ℕ) → AreBelowNumber number self.now.entries → IfSome result (λ found. found < number) }
    {
        self.numbers.find(&tx)
    }

    // Puts in a transaction, unless it was heard.
    fn put<H: HeardTest>(&mut self, tx: TxId, number: u32, test: &H)
        requires { length self.old.entries < self.old.room }
        ensures entries { self.new.entries ≡ with_unheard_number (H.heard test.now) number self.old.entries tx }
        ensures room { self.new.room ≡ self.old.room }
    {
        if !test.is_heard(tx) {
            self.numbers.insert(tx, number);
        }
    }

    // Puts in the transactions of accepted choices.
    fn put_accepted<H: HeardTest>(&mut self, options: &Options, number: u32, test: &H)
        requires { length self.old.entries + length (filter_map write_set_of_mark options.now) ≤ self.old.room }
        ensures entries { self.new.entries ≡ with_all_unheard (H.heard test.now) number self.old.entries (txs_of (filter_map write_set_of_mark options.now)) }
        ensures room { self.new.room ≡ self.old.room }
    {
        for place in 0..options.len() {
            let (tx, mark) = options.at(place);
            if let Mark::Accept(_) = mark {
                self.put(tx, number, test);
            }
        }
    }

    // Takes out the transaction of an outcome, and puts in those of a vote.
    fn update<H: HeardTest>(&mut self, fact: &Fact, number: u32, test: &H)
        requires { length self.old.entries + length (write_sets_from fact.now) ≤ self.old.room }
        ensures entries { self.new.entries ≡ next_numbers (H.heard test.now) number self.old.entries fact.now }
        ensures room { self.new.room ≡ self.old.room }
    {
        match fact {
            Fact::Heard { tx, outcome: _ } => self.numbers.remove(tx),
            Fact::Voted {
                key: _,
                version: _,
                ballot: _,
                options,
                offered,
            } => {
                self.put_accepted(options, number, test);
                if let Some(choice) = offered {
                    self.put(choice.tx, number, test);
                }
            }
            _ => {}
        }
    }

    /// Adds a fact, which has this number. The test is that of the older facts. It takes no memory.
    pub fn add<H: HeardTest>(&mut self, fact: &Fact, number: u32, test: &H)
        requires { length self.old.entries + length (write_sets_from fact.now) ≤ self.old.room }
        ensures entries { self.new.entries ≡ next_numbers (H.heard test.now) number self.old.entries fact.now }
        ensures lists { (facts : List AFact) → ListsUnresolved self.old.entries facts → TellsHeard (H.heard test.now) facts → number ≡ length facts → ListsUnresolved self.new.entries (fact.now ∷ facts) }
        ensures below { AreBelowNumber number self.old.entries → AreBelowNumber (number + 1) self.new.entries }
        ensures more { length self.new.entries ≤ length self.old.entries + length (write_sets_from fact.now) }
        ensures room { self.new.room ≡ self.old.room }
    {
        self.update(fact, number, test);
    }

    /// No transactions again, with the same room. It takes no memory and gives none back.
    pub fn clear(&mut self)
        ensures value { self.new ≡ record { room = self.old.room; entries = [] } }
        ensures lists { ListsUnresolved self.new.entries [] }
    {
        self.numbers.clear();
    }
}
