//! What is left of facts, with what is asked of it.
ghost use Rattle.std.specs.Prelude.{◌≡◌, ◌+◌, ◌-◌, ◌*◌, ◌∷◌, ◌≤◌, ◌<◌, [], IfErr, IfOk, IsOk, IsTrue, List, OnErr, OnOk, Some, false, length, option_map, slice_get, true};
ghost use Rattle.mdcc_def_messages.specs.declared.facts.Fact.{Fact as AFact};
ghost use Rattle.mdcc_def_protocol.specs.Facts.{epoch_of, floor_of, has_floor, is_finished, is_floor, is_heard, promised_through};
ghost use Rattle.mdcc_def_protocol.specs.Floors.{origins_of};
ghost use Rattle.mdcc_def_protocol.specs.Cells.{cells_held};
ghost use Rattle.mdcc_def_protocol.specs.News.{is_crowding};
ghost use Rattle.mdcc_def_protocol.specs.declared.stores.StoreFault.TheVariants.{Memory};
ghost use Rattle.mdcc_def_messages.specs.Lengths.{cells_needed};
ghost use Rattle.mdcc_def_messages.specs.WellFormed.{IsWellFormedFact};
ghost use Rattle.mdcc_cells_facts.specs.Stored.{room_for};
ghost use Rattle.mdcc_cells_tables.specs.Numbers.{fact_numbered};
ghost use Rattle.mdcc_index.specs.Stores.{HasFactsInCells, Represents, cells_in_all};
ghost use Rattle.mdcc_cells_marked.specs.Marks.{marks_of};
ghost use Rattle.mdcc_given_back.specs.Compact.{compacted};
ghost use Rattle.mdcc_given_back.specs.Counted.{without_floors};
ghost use Rattle.mdcc_facts_kept.specs.Adding.{MayBeSwept};
ghost use Rattle.mdcc_facts_kept.specs.Kept.{CanEnter, IsKept, IsKeptStore, cells_occupied, cells_spare};

use mdcc_base::{Ballot, Centre, Key, Memory, TxId};
use mdcc_cells_floors::{Epoch, Floors};
use mdcc_cells_marked::{Marked, marks_in_cells};
use mdcc_def_messages::Fact;
use mdcc_def_protocol::StoreFault;
use mdcc_index::FactPool;
use mdcc_journal::counts::well_formed_facts_have_counts;
use mdcc_journal::encoding::fact_length;
use std::alloc::Global;
use std::marker::Model;

/// How many marks may stand in a cell: one has at least 10 bytes.
pub const MARKS: u32 = 6;

/// Facts in cells, found by what they say, without some of which nothing is asked any more. Each answer is
/// that of all facts that were added.
#[derive(Drop)]
pub struct KeptFacts {
    pub(crate) inner: FactPool,
    pub(crate) marked: Marked,
    pub(crate) floors: Floors,
    pub(crate) cells: u32,
}

impl Model for KeptFacts {
    ghost use Rattle.mdcc_facts_kept.specs.Kept.{IsKeptStore, KeptRest};

    ghost Value = { KeptRest };

    ghost view = { λ s. record { inner = s.inner; marked = s.marked; floors = s.floors; cells = s.cells } };

    ghost invariant = { λ s. IsKeptStore (record { inner = s.inner; marked = s.marked; floors = s.floors; cells = s.cells }) };
}

// How many cells a fact needs.
fn cells_needed(fact: &Fact) -> u64
    requires { IsWellFormedFact fact.now }
    ensures { result ≡ cells_needed fact.now }
{
    well_formed_facts_have_counts();
    fact_length(fact).div_ceil(60) as u64
}

// No marks, with room for those of so many cells.
fn no_marks(alloc: Global, cells: u32) -> Result<Marked, Memory>
    ensures { IfOk result (λ marked. marked ≡ record { room = cells * 6; entries = [] }) }
{
    let marks = cells.checked_mul(MARKS).ok_or(Memory)?;
    Marked::new(alloc, marks)
}

impl KeptFacts {
    /// No facts, with room for so many cells of them. It takes all memory that they need.
    pub fn new(alloc: Global, cells: u32) -> Result<KeptFacts, Memory>
        ensures empty { IfOk result (λ store. IsKept store []) }
        ensures cells { IfOk result (λ store. store.cells ≡ cells) }
    {
        Ok(KeptFacts {
            inner: FactPool::new(alloc, cells)?,
            marked: no_marks(alloc, cells)?,
            floors: Floors::new(alloc, cells)?,
            cells,
        })
    }

    // The facts that are left, floors apart.
    pub(crate) fn rest(&self) -> &FactPool
        ensures value { result.now ≡ self.now.inner }
        ensures rest { (facts : List AFact) (kept : IsKept self.now facts) → Represents result.now (without_floors kept.rest) }
    {
        &self.inner
    }

    /// How many cells there are, spare ones and others.
    pub fn cells(&self) -> u64
        ensures { result ≡ self.now.cells }
    {
        u64::from(self.cells)
    }

    /// The epoch of the last boot.
    pub fn epoch(&self) -> u32
        ensures { (facts : List AFact) → IsKept self.now facts → result ≡ epoch_of facts }
    {
        self.rest().epoch()
    }

    /// The high end of the promise of this ballot that begins at this version.
    pub fn promised(&self, key: &Key, version: u64, ballot: Ballot) -> Option<u64>
        ensures { (facts : List AFact) → IsKept self.now facts → result ≡ promised_through facts key.now version ballot }
    {
        self.rest().promised(key, version, ballot)
    }

    /// The floor of an epoch of a centre; 0 where none is set.
    pub fn floor(&self, centre: Centre, epoch: u32) -> u32
        ensures { (facts : List AFact) → IsKept self.now facts → result ≡ floor_of facts centre epoch }
    {
        self.floors.floor(centre, epoch)
    }

    /// Whether all centres have heard how the transaction ended, this one among them.
    pub fn finished(&self, tx: TxId) -> bool
        ensures heard { (facts : List AFact) → IsKept self.now facts → IsTrue result → is_heard facts tx ≡ true }
        ensures value { (facts : List AFact) → IsKept self.now facts → result ≡ is_finished facts tx }
    {
        self.floors.finished(tx)
    }

    /// The epoch at a place, from 0, of those of which something was heard, ascending by centre and
    /// epoch.
    pub fn origin(&self, place: usize) -> Option<Epoch>
        ensures { (facts : List AFact) → IsKept self.now facts → option_map (λ e. (e.centre, e.epoch)) result ≡ slice_get (origins_of facts) place }
    {
        self.floors.origin(place)
    }

    /// Whether a floor is set. Before that, nothing is left out.
    pub fn has_floor(&self) -> bool
        ensures { (facts : List AFact) → IsKept self.now facts → result ≡ has_floor facts }
    {
        self.floors.set() > 0
    }

    /// How many facts are left, floors apart.
    pub fn len(&self) -> u32
        ensures value { result ≡ length self.now.inner.cells.encodings }
        ensures store { IsKeptStore self.now }
    {
        self.inner.len()
    }

    /// The fact of a number among those that are left, floors apart. It takes memory for the marks of
    /// a vote.
    pub fn fact_at(&mut self, alloc: Global, number: u32) -> Result<Fact, Memory>
        requires { number < length self.old.inner.cells.encodings }
        ensures fact { (facts : List AFact) (kept : IsKept self.old facts) → IfOk result (λ found. fact_numbered (without_floors kept.rest) number ≡ Some found) }
        ensures same { self.new ≡ self.old }
    {
        self.inner.fact_at(alloc, number)
    }

    // How many cells are spare beside the facts that are left and the floors; none where these are more.
    fn spare(&self) -> u64
        ensures { result ≡ self.now.cells - cells_occupied self.now }
    {
        self.inner
            .spare()
            .saturating_sub(u64::from(self.floors.set()))
    }

    /// Whether the cells of a fact are spare beside the facts that are left and the floors.
    pub fn room_for(&self, fact: &Fact) -> Result<(), StoreFault>
        requires { IsWellFormedFact fact.now }
        ensures answer { result ≡ room_for (self.now.cells - cells_occupied self.now) (cells_needed fact.now) }
        ensures room { (facts : List AFact) → IsKept self.now facts → IsOk result → cells_needed fact.now ≤ cells_spare self.now.cells facts }
    {
        let needed = cells_needed(fact);
        let spare = self.spare();
        if spare < needed {
            Err(StoreFault::NoRoom { needed, spare })
        } else {
            Ok(())
        }
    }

    /// Whether more than 64 deltas of one version would be executed with this fact.
    pub fn would_crowd(&self, fact: &Fact) -> bool
        ensures { (facts : List AFact) → IsKept self.now facts → result ≡ is_crowding facts fact.now }
    {
        self.rest().would_crowd(fact)
    }

    // Adds a fact other than a floor to the facts that are left.
    fn enter(&mut self, fact: &Fact) -> Result<(), Memory>
        requires floor { is_floor fact.now ≡ false }
        requires can { CanEnter self.old fact.now }
        requires room { cells_occupied self.old + cells_needed fact.now ≤ self.old.cells }
        ensures ok { (facts : List AFact) → IsKept self.old facts → MayBeSwept facts fact.now → is_crowding facts fact.now ≡ false → OnOk result (IsKept self.new (fact.now ∷ facts)) }
        ensures used { OnOk result (cells_occupied self.new ≡ cells_occupied self.old + cells_needed fact.now) }
        ensures memory { OnErr result (self.new ≡ self.old) }
        ensures cells { self.new.cells ≡ self.old.cells }
    {
        self.floors.add(fact)?;
        marks_in_cells();
        self.inner.put(fact);
        self.marked.add(fact);
        Ok(())
    }

    // Adds a floor.
    fn set_floor(&mut self, fact: &Fact) -> Result<(), Memory>
        requires floor { is_floor fact.now ≡ true }
        requires can { CanEnter self.old fact.now }
        requires room { cells_occupied self.old + cells_needed fact.now ≤ self.old.cells }
        ensures ok { (facts : List AFact) → IsKept self.old facts → MayBeSwept facts fact.now → OnOk result (IsKept self.new (fact.now ∷ facts)) }
        ensures memory { OnErr result (self.new ≡ self.old) }
        ensures cells { self.new.cells ≡ self.old.cells }
    {
        self.floors.add(fact)?;
        Ok(())
    }

    /// Adds a fact whose cells are spare and that does not crowd.
    pub fn put(&mut self, fact: &Fact) -> Result<(), Memory>
        requires can { CanEnter self.old fact.now }
        requires room { cells_occupied self.old + cells_needed fact.now ≤ self.old.cells }
        ensures ok { (facts : List AFact) → IsKept self.old facts → MayBeSwept facts fact.now → is_crowding facts fact.now ≡ false → OnOk result (IsKept self.new (fact.now ∷ facts)) }
        ensures used { is_floor fact.now ≡ false → OnOk result (cells_occupied self.new ≡ cells_occupied self.old + cells_needed fact.now) }
        ensures memory { OnErr result (self.new ≡ self.old) }
        ensures cells { self.new.cells ≡ self.old.cells }
    {
        if let Fact::Floor { .. } = fact {
            self.set_floor(fact)
        } else {
            self.enter(fact)
        }
    }

    /// Takes over facts, with the marks of their votes, that are all that is left of its own, and gives
    /// its own for them.
    pub fn exchange(&mut self, pool: &mut FactPool, marked: &mut Marked)
        requires size { cells_in_all pool.old ≡ self.old.cells }
        requires room { length marked.old.entries + 6 * pool.old.cells.spare ≤ marked.old.room }
        requires all_marks { 6 * self.old.cells ≤ marked.old.room }
        requires floors { (facts : List AFact) → IsKept self.old facts → has_floor facts ≡ true }
        requires pool { (facts : List AFact) (kept : IsKept self.old facts) → HasFactsInCells pool.old (compacted facts (without_floors kept.rest)) }
        requires marked { (facts : List AFact) (kept : IsKept self.old facts) → marked.old.entries ≡ marks_of (compacted facts (without_floors kept.rest)) }
        ensures kept { (facts : List AFact) → IsKept self.old facts → IsKept self.new facts }
        ensures counted { (facts : List AFact) → IsKept self.old facts → cells_occupied self.new ≡ cells_held facts }
        ensures cells { self.new.cells ≡ self.old.cells }
        ensures size { cells_in_all pool.new ≡ self.old.cells }
        ensures room { length marked.new.entries + 6 * pool.new.cells.spare ≤ marked.new.room }
        ensures all_marks { 6 * self.old.cells ≤ marked.new.room }
    {
        std::mem::swap(&mut self.inner, pool);
        std::mem::swap(&mut self.marked, marked);
    }
}
