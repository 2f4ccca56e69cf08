//! The transactions that are not resolved.
ghost use Rattle.std.specs.Option.{option_and_then};
ghost use Rattle.std.specs.Prelude.{◌≡◌, IfOk, List};
ghost use Rattle.mdcc_def_messages.specs.declared.facts.Fact.{Fact as AFact};
ghost use Rattle.mdcc_def_protocol.specs.Facts.{unresolved_of};
ghost use Rattle.mdcc_def_protocol.specs.Plain.{plain_unresolved_at};
ghost use Rattle.mdcc_def_protocol.specs.Stores.{unresolved_at};
ghost use Rattle.mdcc_given_back.specs.Counted.{without_floors};
ghost use Rattle.mdcc_struct.specs.Maps.{value_of};
ghost use Rattle.mdcc_facts_kept.specs.Kept.{IsKept};
ghost use Rattle.mdcc_facts_kept.specs.Next.{unless_finished};

use crate::KeptFacts;
use mdcc_base::{HeapList, Memory, TxId};
use mdcc_option::WriteSet;
use std::alloc::Global;

impl KeptFacts {
    // A transaction with its write set, unless it is finished.
    fn unless_finished(&self, entry: (TxId, WriteSet)) -> Option<(TxId, WriteSet)>
        ensures { (facts : List AFact) → IsKept self.now facts → result ≡ unless_finished facts entry }
    {
        if self.finished(entry.0) {
            None
        } else {
            Some(entry)
        }
    }

    // The transaction at a place of those of which a vote that is left holds a choice and whose outcome
    // is not left, unless it is finished.
    fn unfinished(&self, at: usize) -> Option<(TxId, WriteSet)>
        ensures { (facts : List AFact) (kept : IsKept self.now facts) → result ≡ option_and_then (unless_finished facts) (plain_unresolved_at (without_floors kept.rest) at) }
    {
        match self.rest().unresolved(at) {
            Some(entry) => self.unless_finished(entry),
            None => None,
        }
    }

    /// The transaction at a place, from 0, of those of which a vote holds a choice and that are not
    /// settled, ascending, with its write set.
    pub fn unresolved(&self, place: usize) -> Option<(TxId, WriteSet)>
        ensures { (facts : List AFact) → IsKept self.now facts → result ≡ unresolved_at facts place }
    {
        let mut left = place;
        for at in 0..self.rest().unresolved_len() {
            if let Some(entry) = self.unfinished(at) {
                if left == 0 {
                    return Some(entry);
                }
                left -= 1;
            }
        }
        None
    }

    /// The write set of a transaction of which a vote holds a choice and that is not settled.
    pub fn write_set(&self, tx: TxId) -> Option<WriteSet>
        ensures { (facts : List AFact) → IsKept self.now facts → result ≡ value_of (unresolved_of facts) tx }
    {
        if self.finished(tx) {
            None
        } else {
            self.rest().write_set(tx)
        }
    }

    /// All such transactions, ascending, with their write sets.
    pub fn unresolved_all(&self, alloc: Global) -> Result<HeapList<(TxId, WriteSet)>, Memory>
        ensures { (facts : List AFact) → IsKept self.now facts → IfOk result (λ all. all ≡ unresolved_of facts) }
    {
        let mut all = HeapList::new(alloc);
        for at in 0..self.rest().unresolved_len() {
            if let Some(entry) = self.unfinished(at) {
                all.push(entry)?;
            }
        }
        Ok(all)
    }
}
