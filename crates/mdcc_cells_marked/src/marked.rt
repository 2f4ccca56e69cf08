//! The instances in which votes mark a transaction.
ghost use Rattle.std.specs.Prelude.{◌≡◌, ◌+◌, ◌++◌, ◌∷◌, ◌<◌, ◌≤◌, [], IfOk, List, length};
ghost use Rattle.std.specs.List.{list_any};
ghost use Rattle.mdcc_def_messages.specs.declared.facts.Fact.{Fact as AFact};
ghost use Rattle.mdcc_index.specs.Stores.{Represents};
ghost use Rattle.mdcc_cells_marked.specs.Marks.{has_open_mark, is_open_entry, is_open_instance, marks_beside, marks_of, marks_of_fact, with_instances};

use mdcc_base::{Key, Memory, TxId};
use mdcc_cells_chains::TransactionIndex;
use mdcc_def_messages::Fact;
use mdcc_index::FactPool;
use mdcc_struct::Options;
use std::alloc::Global;
use std::marker::Model;

/// The marks of votes, each with the key and the version of its instance, found by transaction.
#[derive(Drop)]
pub struct Marked {
    txs: TransactionIndex,
    instances: Vec<(Key, u64)>,
}

impl Model for Marked {
    ghost use Rattle.std.specs.Prelude.{vec_capacity};
    ghost use Rattle.mdcc_cells_marked.specs.Marks.{AreMarked, MarkedTxs, with_instances};

    ghost Value = { MarkedTxs };

    ghost view = { λ m. record { room = m.txs.room; entries = with_instances m.txs.keys m.instances.items } };

    ghost invariant = { λ m. AreMarked m.txs m.instances.items (vec_capacity m.instances) };
}

// Whether an instance is not below the version that is held.
fn is_open_instance(pool: &FactPool, instance: &(Key, u64)) -> bool
    ensures { (facts : List AFact) → Represents pool.now facts → result ≡ is_open_instance facts instance.now }
{
    pool.current(&instance.0) <= instance.1
}

// Whether a transaction has a mark in such an instance.
fn has_open(txs: &TransactionIndex, instances: &[(Key, u64)], pool: &FactPool, tx: &TxId) -> bool
    requires { length instances.now ≡ length txs.now.keys }
    ensures { (facts : List AFact) → Represents pool.now facts → result ≡ list_any (is_open_entry facts tx.now) (with_instances txs.now.keys instances.now) }
{
    let mut at = txs.first(tx);
    while let Some(entry) = at {
        if is_open_instance(pool, &instances[entry as usize]) {
            return true;
        }
        at = txs.next(tx, entry);
    }
    false
}

impl Marked {
    /// No marks, with room for so many.
    pub fn new(alloc: Global, room: u32) -> Result<Marked, Memory>
        ensures { IfOk result (λ marked. marked ≡ record { room = room; entries = [] }) }
    {
        Ok(Marked {
            txs: TransactionIndex::new(alloc, room)?,
            instances: Vec::with_capacity(alloc, room as usize)?,
        })
    }

    // Enters a mark.
    fn push(&mut self, tx: TxId, key: &Key, version: u64)
        requires { length self.old.entries < self.old.room }
        ensures entries { self.new.entries ≡ (tx, (key.now, version)) ∷ self.old.entries }
        ensures room { self.new.room ≡ self.old.room }
    {
        self.txs.push(tx);
        self.instances.push_reserved((*key, version));
    }

    // Enters the marks of a vote.
    fn push_all(&mut self, options: &Options, key: &Key, version: u64)
        requires { length options.now + length self.old.entries ≤ self.old.room }
        ensures entries { self.new.entries ≡ marks_beside (key.now, version) options.now ++ self.old.entries }
        ensures room { self.new.room ≡ self.old.room }
    {
        let mut left = options.len();
        while left > 0 {
            left -= 1;
            let (tx, _) = options.at(left);
            self.push(tx, key, version);
        }
    }

    /// Enters the marks of a fact.
    pub fn add(&mut self, fact: &Fact)
        requires { length (marks_of_fact fact.now) + length self.old.entries ≤ self.old.room }
        ensures entries { self.new.entries ≡ marks_of_fact fact.now ++ self.old.entries }
        ensures room { self.new.room ≡ self.old.room }
    {
        if let Fact::Voted {
            key,
            version,
            options,
            ..
        } = fact
        {
            self.push_all(options, key, *version);
        }
    }

    /// No marks again, with the same room. It takes no memory and gives none back.
    pub fn clear(&mut self)
        ensures { self.new ≡ record { room = self.old.room; entries = [] } }
    {
        self.txs.clear();
        self.instances.clear();
    }

    /// Whether a vote among the facts marks a transaction in an instance that is not below the
    /// version held. Of a finished transaction, these are the marks that are not forgotten.
    pub fn has_open_mark(&self, pool: &FactPool, tx: TxId) -> bool
        ensures { (facts : List AFact) → Represents pool.now facts → self.now.entries ≡ marks_of facts → result ≡ has_open_mark facts tx }
    {
        has_open(&self.txs, &self.instances, pool, &tx)
    }
}
