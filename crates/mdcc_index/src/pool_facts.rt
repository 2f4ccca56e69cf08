//! A store of facts in cells.
ghost use Rattle.std.specs.Prelude.{◌≡◌, ◌∷◌, ◌+◌, [], IfOk, List, OnErr, OnOk};
ghost use Rattle.mdcc_def_messages.specs.Lengths.{cells_needed};
ghost use Rattle.mdcc_def_messages.specs.declared.facts.Fact.{Fact as AFact};
ghost use Rattle.mdcc_facts.specs.Adding.{MayBeAdded, add_result};
ghost use Rattle.mdcc_index.specs.Stores.{Represents, cells_in_all};

use crate::FactPool;
use mdcc_base::Memory;
use mdcc_def_messages::Fact;
use mdcc_def_protocol::StoreFault;
use std::alloc::Global;
use std::marker::Model;

/// Facts in cells, of which at most 64 deltas of one version are executed. Only `new` takes memory, all
/// of it at once.
#[derive(Drop)]
pub struct PoolFacts {
    pub(crate) pool: FactPool,
}

impl Model for PoolFacts {
    ghost use Rattle.mdcc_index.specs.Stores.{IsRepresented, Store};

    ghost Value = { Store };

    ghost view = { λ s. s.pool };

    ghost invariant = { λ s. IsRepresented s.pool };
}

impl PoolFacts {
    /// No facts, with room for so many cells of them.
    pub fn new(alloc: Global, cells: u32) -> Result<PoolFacts, Memory>
        ensures empty { IfOk result (λ store. Represents store []) }
        ensures spare { IfOk result (λ store. store.cells.spare ≡ cells) }
        ensures cells { IfOk result (λ store. cells_in_all store ≡ cells) }
    {
        Ok(PoolFacts {
            pool: FactPool::new(alloc, cells)?,
        })
    }

    /// Adds a fact. It takes no memory.
    pub fn add(&mut self, fact: &Fact) -> Result<(), StoreFault>
        requires { (facts : List AFact) → Represents self.old facts → MayBeAdded facts fact.now }
        ensures answer { (facts : List AFact) → Represents self.old facts → result ≡ add_result self.old.cells.spare (cells_needed fact.now) facts fact.now }
        ensures ok { (facts : List AFact) → Represents self.old facts → OnOk result (Represents self.new (fact.now ∷ facts)) }
        ensures used { OnOk result (self.new.cells.spare + cells_needed fact.now ≡ self.old.cells.spare) }
        ensures err { OnErr result (self.new ≡ self.old) }
        ensures cells { cells_in_all self.new ≡ cells_in_all self.old }
    {
        self.pool.room_for(fact)?;
        if self.pool.would_crowd(fact) {
            return Err(StoreFault::Crowded);
        }
        self.pool.put(fact);
        Ok(())
    }
}
