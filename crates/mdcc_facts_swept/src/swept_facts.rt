//! A store of facts that gives cells back.
ghost use Rattle.std.specs.Prelude.{◌≡◌, ◌+◌, ◌∷◌, ◌≤◌, [], IfOk, List, OnErr, OnOk, false, not, true, ◌&&◌, ◌||◌};
ghost use Rattle.mdcc_base.specs.Unless.{GivesUnless};
ghost use Rattle.mdcc_facts.specs.Adding.{add_result, is_store_memory};
ghost use Rattle.mdcc_cells_facts.specs.Stored.{room_for};
ghost use Rattle.mdcc_def_messages.specs.Lengths.{cells_needed};
ghost use Rattle.mdcc_def_messages.specs.declared.facts.Fact.{Fact as AFact};
ghost use Rattle.mdcc_facts_kept.specs.Adding.{MayBeSwept};
ghost use Rattle.mdcc_facts_kept.specs.Kept.{IsKept, cells_occupied, cells_spare};
ghost use Rattle.mdcc_facts_swept.specs.Swept.{CanAdd, IsSwept, may_free};

use crate::half::Half;
use crate::sweeping::sweep_all;
use mdcc_base::Memory;
use mdcc_def_messages::Fact;
use mdcc_def_protocol::StoreFault;
use mdcc_facts_kept::KeptFacts;
use std::alloc::Global;
use std::marker::Model;

/// Facts in cells, without those of which nothing is asked any more. `new` takes the memory for all of
/// them, twice: what is left is written into the second half, and the halves change places. Beside that
/// only a vote that is read back takes memory, for its marks.
#[derive(Drop)]
pub struct SweptFacts {
    kept: KeptFacts,
    next: Half,
    exact: bool,
    alloc: Global,
}

impl Model for SweptFacts {
    ghost use Rattle.std.specs.Prelude.{◌≡◌};
    ghost use Rattle.mdcc_index.specs.Stores.{cells_in_all};
    ghost use Rattle.mdcc_facts_swept.specs.Swept.{IsSweptStore, Swept};

    ghost Value = { Swept };

    ghost view = { λ s. record { kept = s.kept; exact = s.exact } };

    ghost invariant = { λ s. IsSweptStore (record { kept = s.kept; exact = s.exact }) × (cells_in_all s.next.pool ≡ s.kept.cells) };
}

// Whether cells may be given back once a fact is added.
fn may_free(fact: &Fact) -> bool
    ensures { result ≡ may_free fact.now }
{
    match fact {
        Fact::Floor { .. } | Fact::Heard { .. } | Fact::Adopted { .. } => true,
        Fact::Voted { options, .. } => options.is_empty(),
        Fact::Booted(_) | Fact::Promised { .. } => false,
    }
}

// Whether no cell can be given back once a fact is added: as long as no floor is set, and where none could before.
fn stays_exact(has_floor: bool, exact: bool, fact: &Fact) -> bool
    ensures { result ≡ (not has_floor || (exact && not (may_free fact.now))) }
{
    !has_floor || (exact && !may_free(fact))
}

impl SweptFacts {
    /// No facts, with room for so many cells of them.
    pub fn new(alloc: Global, cells: u32) -> Result<SweptFacts, Memory>
        ensures empty { IfOk result (λ store. IsSwept store []) }
        ensures cells { IfOk result (λ store. store.kept.cells ≡ cells) }
    {
        Ok(SweptFacts {
            kept: KeptFacts::new(alloc, cells)?,
            next: Half::new(alloc, cells)?,
            exact: true,
            alloc,
        })
    }

    /// What is left of the facts, with what is asked of it.
    pub fn facts(&self) -> &KeptFacts
        ensures same { result.now ≡ self.now.kept }
        ensures kept { (facts : List AFact) → IsSwept self.now facts → IsKept result.now facts }
    {
        &self.kept
    }

    // Gives back the cells of all facts of which nothing is asked any more.
    fn sweep(&mut self) -> Result<(), Memory>
        requires { self.old.exact ≡ false }
        ensures kept { (facts : List AFact) → IsSwept self.old facts → IsSwept self.new facts }
        ensures cells { self.new.kept.cells ≡ self.old.kept.cells }
        ensures exact { OnOk result (self.new.exact ≡ true) }
    {
        let alloc = self.alloc;
        sweep_all(&mut self.kept, &mut self.next, alloc)?;
        self.kept
            .exchange(&mut self.next.pool, &mut self.next.marked);
        self.exact = true;
        Ok(())
    }

    /// Gives cells back where some may be. Out of memory it gives back none. Before a floor is set no
    /// cell is given back.
    pub fn compact(&mut self) -> Result<(), Memory>
        ensures kept { (facts : List AFact) → IsSwept self.old facts → IsSwept self.new facts }
        ensures cells { self.new.kept.cells ≡ self.old.kept.cells }
        ensures exact { OnOk result (self.new.exact ≡ true) }
    {
        if self.exact { Ok(()) } else { self.sweep() }
    }

    // Makes room for a fact, by giving cells back where it does not fit beside the facts that are left.
    fn make_room(&mut self, fact: &Fact) -> Result<(), StoreFault>
        requires { (facts : List AFact) → IsSwept self.old facts → MayBeSwept facts fact.now }
        ensures answer { (facts : List AFact) → IsSwept self.old facts → GivesUnless is_store_memory result (room_for (cells_spare self.old.kept.cells facts) (cells_needed fact.now)) }
        ensures kept { (facts : List AFact) → IsSwept self.old facts → IsSwept self.new facts }
        ensures cells { self.new.kept.cells ≡ self.old.kept.cells }
        ensures room { OnOk result (cells_occupied self.new.kept + cells_needed fact.now ≤ self.new.kept.cells) }
        ensures can { OnOk result (CanAdd self.new fact.now) }
    {
        if self.kept.room_for(fact).is_err() {
            self.compact()?;
        }
        self.kept.room_for(fact)
    }

    /// Adds a fact. Where its cells are not spare, those of facts of which nothing is asked any more are
    /// given back first; so the cells that count are those that facts hold of which something is
    /// asked. Out of memory nothing was added.
    pub fn add(&mut self, fact: &Fact) -> Result<(), StoreFault>
        requires { (facts : List AFact) → IsSwept self.old facts → MayBeSwept facts fact.now }
        ensures answer { (facts : List AFact) → IsSwept self.old facts → GivesUnless is_store_memory result (add_result (cells_spare self.old.kept.cells facts) (cells_needed fact.now) facts fact.now) }
        ensures ok { (facts : List AFact) → IsSwept self.old facts → OnOk result (IsSwept self.new (fact.now ∷ facts)) }
        ensures err { (facts : List AFact) → IsSwept self.old facts → OnErr result (IsSwept self.new facts) }
        ensures cells { self.new.kept.cells ≡ self.old.kept.cells }
    {
        self.make_room(fact)?;
        if self.kept.would_crowd(fact) {
            return Err(StoreFault::Crowded);
        }
        self.kept.put(fact)?;
        let has_floor = self.kept.has_floor();
        self.exact = stays_exact(has_floor, self.exact, fact);
        Ok(())
    }
}
