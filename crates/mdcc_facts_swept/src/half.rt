//! Where what is left of facts is written anew.
ghost use Rattle.std.specs.Prelude.{◌≡◌, ◌≤◌, ◌+◌, ◌∷◌, [], IfOk, List};
ghost use Rattle.mdcc_facts.specs.Adding.{MayBeAdded};
ghost use Rattle.mdcc_def_messages.specs.Lengths.{cells_needed};
ghost use Rattle.mdcc_def_messages.specs.declared.facts.Fact.{Fact as AFact};
ghost use Rattle.mdcc_index.specs.Stores.{cells_in_all};
ghost use Rattle.mdcc_facts_swept.specs.Swept.{CanPut, HasHalf};

use mdcc_base::Memory;
use mdcc_cells_marked::{Marked, marks_in_cells};
use mdcc_def_messages::Fact;
use mdcc_facts_kept::kept_facts::MARKS;
use mdcc_index::FactPool;
use std::alloc::Global;
use std::marker::Model;

/// Facts in cells with the marks of their votes.
#[derive(Drop)]
pub(crate) struct Half {
    pub(crate) pool: FactPool,
    pub(crate) marked: Marked,
}

impl Model for Half {
    ghost use Rattle.mdcc_facts_swept.specs.Swept.{HalfStore, IsHalf};

    ghost Value = { HalfStore };

    ghost view = { λ h. record { pool = h.pool; marked = h.marked } };

    ghost invariant = { λ h. IsHalf (record { pool = h.pool; marked = h.marked }) };
}

impl Half {
    /// No facts, with room for so many cells of them.
    pub(crate) fn new(alloc: Global, cells: u32) -> Result<Half, Memory>
        ensures empty { IfOk result (λ half. HasHalf half []) }
        ensures cells { IfOk result (λ half. cells_in_all half.pool ≡ cells) }
    {
        let marks = cells.checked_mul(MARKS).ok_or(Memory)?;
        Ok(Half {
            pool: FactPool::new(alloc, cells)?,
            marked: Marked::new(alloc, marks)?,
        })
    }

    /// No facts again.
    pub(crate) fn clear(&mut self)
        ensures empty { HasHalf self.new [] }
        ensures cells { self.new.pool.cells.spare ≡ cells_in_all self.old.pool }
        ensures same { cells_in_all self.new.pool ≡ cells_in_all self.old.pool }
    {
        self.pool.clear();
        self.marked.clear();
    }

    /// Adds a fact whose cells are spare.
    pub(crate) fn put(&mut self, fact: &Fact)
        requires room { cells_needed fact.now ≤ self.old.pool.cells.spare }
        requires can { CanPut self.old fact.now }
        ensures facts { (facts : List AFact) → HasHalf self.old facts → MayBeAdded facts fact.now → HasHalf self.new (fact.now ∷ facts) }
        ensures used { self.new.pool.cells.spare + cells_needed fact.now ≡ self.old.pool.cells.spare }
        ensures same { cells_in_all self.new.pool ≡ cells_in_all self.old.pool }
    {
        marks_in_cells();
        self.pool.put(fact);
        self.marked.add(fact);
    }
}
