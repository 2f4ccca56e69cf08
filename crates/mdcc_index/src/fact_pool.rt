//! Facts in cells, without a limit of deltas.
ghost use Rattle.std.specs.Prelude.{◌≡◌, ◌≤◌, ◌<◌, ◌∷◌, ◌+◌, ◌*◌, [], IfOk, List, Some, length};
ghost use Rattle.mdcc_def_messages.specs.Lengths.{cells_needed};
ghost use Rattle.mdcc_def_messages.specs.WellFormed.{IsWellFormedFact};
ghost use Rattle.mdcc_def_messages.specs.declared.facts.Fact.{Fact as AFact};
ghost use Rattle.mdcc_def_protocol.specs.Facts.{epoch_of, heard_of, is_heard, promised_through};
ghost use Rattle.mdcc_def_protocol.specs.Plain.{plain_ended_of};
ghost use Rattle.mdcc_facts.specs.Adding.{MayBeAdded};
ghost use Rattle.mdcc_theorem_fact_folds.specs.Promises.{next_epoch};
ghost use Rattle.mdcc_cells_tables.specs.HeldVersions.{HoldsVersions, no_versions};
ghost use Rattle.mdcc_cells_tables.specs.UnresolvedNumbers.{ListsUnresolved};
ghost use Rattle.mdcc_cells_indices.specs.Heard.{ended_told};
ghost use Rattle.mdcc_cells_indices.specs.Tallies.{HoldsTallies};
ghost use Rattle.mdcc_cells_facts.specs.Stored.{room_for};
ghost use Rattle.mdcc_cells_tables.specs.Numbers.{fact_numbered};
ghost use Rattle.mdcc_index.specs.Stores.{CanTake, HasFactsInCells, Represents, cells_in_all};

use mdcc_base::{Ballot, Key, Memory, TxId};
use mdcc_cells_facts::FactCells;
use mdcc_cells_indices::{InstanceChains, OutcomeIndex, Promises, Tallies};
use mdcc_cells_tables::{HeardTest, HeldTable, UnresolvedTable};
use mdcc_def_messages::Fact;
use mdcc_def_protocol::StoreFault;
use mdcc_option::Outcome;
use std::alloc::Global;
use std::marker::Model;

/// Facts in cells, found by what they say. Any number of deltas of one version may be executed. Only
/// `new` takes memory, all of it at once; `fact_at` takes some for what it gives.
#[derive(Drop)]
pub struct FactPool {
    pub(crate) cells: FactCells,
    pub(crate) outcomes: OutcomeIndex,
    pub(crate) promises: Promises,
    pub(crate) instances: InstanceChains,
    pub(crate) active: InstanceChains,
    pub(crate) tallies: Tallies,
    pub(crate) held: HeldTable,
    pub(crate) unresolved: UnresolvedTable,
    pub(crate) epoch: u32,
}

impl Model for FactPool {
    ghost use Rattle.mdcc_index.specs.Stores.{IsStore, Store, store_of};

    ghost Value = { Store };

    ghost view = { λ s. store_of s.cells s.outcomes s.promises s.instances s.active s.tallies s.held s.unresolved s.epoch };

    ghost invariant = { λ s. IsStore (store_of s.cells s.outcomes s.promises s.instances s.active s.tallies s.held s.unresolved s.epoch) };
}

// The last epoch with one more fact.
fn next_epoch(fact: &Fact, last: u32) -> u32
    ensures { result ≡ next_epoch fact.now last }
{
    match fact {
        Fact::Booted(epoch) => *epoch,
        _ => last,
    }
}

// A store of parts that have no facts.
fn empty_store(
    room: (u32, u32),
    facts: (FactCells, OutcomeIndex, Promises),
    instances: (InstanceChains, InstanceChains, Tallies),
    keys: (HeldTable, UnresolvedTable),
) -> FactPool
    requires twice { room.1 ≡ room.0 * 2 }
    requires cells { facts.0 ≡ record { spare = room.0; encodings = [] } }
    requires outcomes { facts.1 ≡ record { txs = record { room = room.0; keys = [] }; numbers = [] } }
    requires promises { facts.2 ≡ record { keys = record { room = room.0; keys = [] }; ranges = [] } }
    requires instances { instances.0 ≡ record { room = room.1; entries = [] } }
    requires active { instances.1 ≡ record { room = room.1; entries = [] } }
    requires tallies { instances.2 ≡ record { instances = record { room = room.0; keys = [] }; tallies = [] } }
    requires held { keys.0 ≡ no_versions room.1 }
    requires unresolved { keys.1 ≡ record { room = room.1; entries = [] } }
    requires counted { HoldsTallies instances.2 [] }
    requires versions { HoldsVersions keys.0 [] }
    requires listed { ListsUnresolved keys.1.entries [] }
    ensures empty { Represents result [] }
    ensures spare { result.cells.spare ≡ room.0 }
    ensures cells { cells_in_all result ≡ room.0 }
{
    let (cells, outcomes, promises) = facts;
    let (instances, active, tallies) = instances;
    let (held, unresolved) = keys;
    FactPool {
        cells,
        outcomes,
        promises,
        instances,
        active,
        tallies,
        held,
        unresolved,
        epoch: 0,
    }
}

// The parts that are found by number, transaction or key of a promise, without facts.
fn no_facts(alloc: Global, cells: u32) -> Result<(FactCells, OutcomeIndex, Promises), Memory>
    ensures cells { IfOk result (λ parts. parts.0 ≡ record { spare = cells; encodings = [] }) }
    ensures outcomes { IfOk result (λ parts. parts.1 ≡ record { txs = record { room = cells; keys = [] }; numbers = [] }) }
    ensures promises { IfOk result (λ parts. parts.2 ≡ record { keys = record { room = cells; keys = [] }; ranges = [] }) }
{
    let facts = FactCells::new(alloc, cells)?;
    let outcomes = OutcomeIndex::new(alloc, cells)?;
    let promises = Promises::new(alloc, cells)?;
    Ok((facts, outcomes, promises))
}

// Those that are found by instance, without facts.
fn no_instances(
    alloc: Global,
    entries: u32,
    votes: u32,
) -> Result<(InstanceChains, InstanceChains, Tallies), Memory>
    ensures instances { IfOk result (λ parts. parts.0 ≡ record { room = entries; entries = [] }) }
    ensures active { IfOk result (λ parts. parts.1 ≡ record { room = entries; entries = [] }) }
    ensures tallies { IfOk result (λ parts. parts.2 ≡ record { instances = record { room = votes; keys = [] }; tallies = [] }) }
    ensures counted { IfOk result (λ parts. HoldsTallies parts.2 []) }
{
    let instances = InstanceChains::new(alloc, entries)?;
    let active = InstanceChains::new(alloc, entries)?;
    let tallies = Tallies::new(alloc, votes)?;
    Ok((instances, active, tallies))
}

// Those of keys and of unresolved transactions, without facts.
fn no_keys(alloc: Global, entries: u32) -> Result<(HeldTable, UnresolvedTable), Memory>
    ensures held { IfOk result (λ parts. parts.0 ≡ no_versions entries) }
    ensures versions { IfOk result (λ parts. HoldsVersions parts.0 []) }
    ensures unresolved { IfOk result (λ parts. parts.1 ≡ record { room = entries; entries = [] }) }
    ensures listed { IfOk result (λ parts. ListsUnresolved parts.1.entries []) }
{
    let held = HeldTable::new(alloc, entries)?;
    let unresolved = UnresolvedTable::new(alloc, entries)?;
    Ok((held, unresolved))
}

impl FactPool {
    /// No facts, with room for so many cells of them.
    pub fn new(alloc: Global, cells: u32) -> Result<FactPool, Memory>
        ensures empty { IfOk result (λ store. Represents store []) }
        ensures spare { IfOk result (λ store. store.cells.spare ≡ cells) }
        ensures cells { IfOk result (λ store. cells_in_all store ≡ cells) }
    {
        let entries = cells.checked_mul(2).ok_or(Memory)?;
        let facts = no_facts(alloc, cells)?;
        let instances = no_instances(alloc, entries, cells)?;
        let keys = no_keys(alloc, entries)?;
        Ok(empty_store((cells, entries), facts, instances, keys))
    }

    /// Whether the cells of a fact are spare.
    pub fn room_for(&self, fact: &Fact) -> Result<(), StoreFault>
        requires { IsWellFormedFact fact.now }
        ensures { result ≡ room_for self.now.cells.spare (cells_needed fact.now) }
    {
        self.cells.room_for(fact)
    }

    /// Adds a fact whose cells are spare, without a test of its deltas. It takes no memory.
    pub fn put(&mut self, fact: &Fact)
        requires room { cells_needed fact.now ≤ self.old.cells.spare }
        requires can { CanTake self.old fact.now }
        ensures facts { (facts : List AFact) → HasFactsInCells self.old facts → MayBeAdded facts fact.now → HasFactsInCells self.new (fact.now ∷ facts) }
        ensures used { self.new.cells.spare + cells_needed fact.now ≡ self.old.cells.spare }
        ensures cells { cells_in_all self.new ≡ cells_in_all self.old }
    {
        let number = self.cells.len();
        self.cells.add(fact);
        self.unresolved.add(fact, number, &self.outcomes);
        self.outcomes.add(fact, number);
        self.promises.add(fact);
        self.instances.add(fact, number);
        self.active.add_active(fact, number);
        self.tallies.add(fact);
        self.held.add(fact, number);
        self.epoch = next_epoch(fact, self.epoch);
    }

    /// How many facts there are.
    pub fn len(&self) -> u32
        ensures value { result ≡ length self.now.cells.encodings }
        ensures facts { (facts : List AFact) → HasFactsInCells self.now facts → result ≡ length facts }
    {
        self.cells.len()
    }

    /// The fact of a number, the number of the older ones. It takes memory for the marks of a vote.
    pub fn fact_at(&mut self, alloc: Global, number: u32) -> Result<Fact, Memory>
        requires { number < length self.old.cells.encodings }
        ensures fact { (facts : List AFact) → HasFactsInCells self.old facts → IfOk result (λ found. fact_numbered facts number ≡ Some found) }
        ensures same { self.new ≡ self.old }
    {
        self.cells.fact_at(alloc, number)
    }

    /// No facts again, and all cells spare. It takes no memory and gives none back.
    pub fn clear(&mut self)
        ensures empty { Represents self.new [] }
        ensures spare { self.new.cells.spare ≡ cells_in_all self.old }
        ensures cells { cells_in_all self.new ≡ cells_in_all self.old }
    {
        self.cells.clear();
        self.outcomes.clear();
        self.promises.clear();
        self.instances.clear();
        self.active.clear();
        self.tallies.clear();
        self.held.clear();
        self.unresolved.clear();
        self.epoch = 0;
    }

    /// The outcome that was heard of a transaction.
    pub fn heard(&self, tx: TxId) -> Option<Outcome>
        ensures { (facts : List AFact) → Represents self.now facts → result ≡ heard_of facts tx }
    {
        self.outcomes.heard(&self.cells, tx)
    }

    /// Whether the outcome that was heard of a transaction is a commit.
    pub fn ended(&self, tx: TxId) -> Option<bool>
        ensures told { result ≡ ended_told self.now.cells.encodings self.now.outcomes tx }
        ensures ended { (facts : List AFact) → Represents self.now facts → result ≡ plain_ended_of facts tx }
    {
        self.outcomes.ended(&self.cells, tx)
    }

    /// Whether an outcome of the transaction was heard.
    pub fn is_heard(&self, tx: TxId) -> bool
        ensures { (facts : List AFact) → Represents self.now facts → result ≡ is_heard facts tx }
    {
        self.outcomes.is_heard(tx)
    }

    /// The high end of the promise of this ballot that begins at this version.
    pub fn promised(&self, key: &Key, version: u64, ballot: Ballot) -> Option<u64>
        ensures { (facts : List AFact) → Represents self.now facts → result ≡ promised_through facts key.now version ballot }
    {
        self.promises.promised(key, version, ballot)
    }

    /// The epoch of the last boot.
    pub fn epoch(&self) -> u32
        ensures { (facts : List AFact) → Represents self.now facts → result ≡ epoch_of facts }
    {
        self.epoch
    }

    /// How many cells there are, spare ones and others.
    pub fn cells(&self) -> u64
        ensures { result ≡ cells_in_all self.now }
    {
        u64::from(self.cells.cells())
    }

    /// How many cells are spare.
    pub fn spare(&self) -> u64
        ensures { result ≡ self.now.cells.spare }
    {
        u64::from(self.cells.spare())
    }
}
