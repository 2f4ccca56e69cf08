//! The transactions that are not resolved.
ghost use Rattle.std.specs.Prelude.{◌≡◌, ◌<◌, IfOk, List, length};
ghost use Rattle.mdcc_def_messages.specs.declared.facts.Fact.{Fact as AFact};
ghost use Rattle.mdcc_def_protocol.specs.Plain.{plain_unresolved_at, plain_unresolved_of};
ghost use Rattle.mdcc_struct.specs.Maps.{value_of};
ghost use Rattle.mdcc_cells_tables.specs.UnresolvedNumbers.{with_write_set, write_set_numbered};
ghost use Rattle.mdcc_index.specs.Stores.{Represents};

use crate::FactPool;
use mdcc_base::{HeapList, Memory, TxId};
use mdcc_cells_vote_walk::write_set_at;
use mdcc_option::WriteSet;
use std::alloc::Global;

impl FactPool {
    // The write set of a transaction, from the fact of a number.
    fn write_set_by(&self, tx: TxId, number: u32) -> Option<WriteSet>
        requires { number < length self.now.cells.encodings }
        ensures { (facts : List AFact) → Represents self.now facts → result ≡ write_set_numbered facts number tx }
    {
        write_set_at(&self.cells, number, &tx)
    }

    // A transaction with its write set, from the fact of a number.
    fn with_write_set(&self, entry: (TxId, u32)) -> Option<(TxId, WriteSet)>
        requires { entry.1 < length self.now.cells.encodings }
        ensures { (facts : List AFact) → Represents self.now facts → result ≡ with_write_set facts entry }
    {
        match self.write_set_by(entry.0, entry.1) {
            Some(write_set) => Some((entry.0, write_set)),
            None => None,
        }
    }

    /// How many transactions there are of which a vote holds a choice and whose outcome was not heard.
    pub fn unresolved_len(&self) -> usize
        ensures { (facts : List AFact) → Represents self.now facts → result ≡ length (plain_unresolved_of facts) }
    {
        self.unresolved.len() as usize
    }

    /// The transaction at a place, from 0, of those of which a vote holds a choice and whose
    /// outcome was not heard, ascending, with its write set.
    pub fn unresolved(&self, place: usize) -> Option<(TxId, WriteSet)>
        ensures { (facts : List AFact) → Represents self.now facts → result ≡ plain_unresolved_at facts place }
    {
        match self.unresolved.get(place) {
            Some(entry) => self.with_write_set(entry),
            None => None,
        }
    }

    /// The write set of a transaction of which a vote holds a choice and whose outcome was not
    /// heard.
    pub fn write_set(&self, tx: TxId) -> Option<WriteSet>
        ensures { (facts : List AFact) → Represents self.now facts → result ≡ value_of (plain_unresolved_of facts) tx }
    {
        match self.unresolved.find(tx) {
            Some(number) => self.write_set_by(tx, number),
            None => None,
        }
    }

    /// All such transactions, ascending, with their write sets.
    pub fn unresolved_all(&self, alloc: Global) -> Result<HeapList<(TxId, WriteSet)>, Memory>
        ensures { (facts : List AFact) → Represents self.now facts → IfOk result (λ all. all ≡ plain_unresolved_of facts) }
    {
        let mut all = HeapList::new(alloc);
        for place in 0..self.unresolved.len() as usize {
            if let Some(entry) = self.unresolved(place) {
                all.push(entry)?;
            }
        }
        Ok(all)
    }
}
