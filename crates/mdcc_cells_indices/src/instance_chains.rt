//! The facts of each instance, found by it: all of them, or those that pass a test.
ghost use Rattle.std.specs.List.{filter, fold};
ghost use Rattle.std.specs.Prelude.{◌≡◌, ◌+◌, ◌++◌, ◌∷◌, ◌<◌, ◌≤◌, [], Bool, IfOk, OnOk, List, length, map};
ghost use Rattle.mdcc_def_messages.specs.declared.facts.Fact.{Fact as AFact};
ghost use Rattle.mdcc_cells_facts.specs.Holding.{HoldsEncodings};
ghost use Rattle.mdcc_theorem_fact_folds.specs.Chains.{is_of_instance};
ghost use Rattle.mdcc_theorem_fact_folds.specs.Entered.{instance_of, instances_in};
ghost use Rattle.mdcc_cells_delta_walk.specs.Chains.{AreOf};
ghost use Rattle.mdcc_cells_vote_walk.specs.Gathered.{with_gathered};
ghost use Rattle.mdcc_cells_indices.specs.Active.{is_active};
ghost use Rattle.mdcc_cells_indices.specs.Entries.{AreBelow, beside, entries_in, entries_kept, instance_entries_at, instances_of};

use crate::active::is_active;
use mdcc_base::{Ballot, Key, Memory};
use mdcc_cells_chains::InstanceIndex;
use mdcc_cells_delta_walk::InstanceWalk;
use mdcc_cells_facts::{FactCells, FactStep};
use mdcc_cells_vote_walk::GatheredMarks;
use mdcc_def_messages::Fact;
use mdcc_option::{Choice, Outcome};
use std::alloc::Global;
use std::marker::Model;

/// The numbers of facts, each under every instance that its fact is of.
#[derive(Drop)]
pub struct InstanceChains {
    index: InstanceIndex,
    numbers: Vec<u32>,
}

impl Model for InstanceChains {
    ghost use Rattle.std.specs.Prelude.{vec_capacity};
    ghost use Rattle.mdcc_cells_indices.specs.Entries.{AreBeside, Entries, beside};

    ghost Value = { Entries };

    ghost view = { λ c. record { room = c.index.room; entries = beside c.index.keys c.numbers.items } };

    ghost invariant = { λ c. AreBeside c.index c.numbers.items (vec_capacity c.numbers) };
}

// Takes a step at each fact of an instance, from the newest to the oldest.
fn walk<S: FactStep>(
    index: &InstanceIndex,
    numbers: &[u32],
    cells: &FactCells,
    instance: &(Key, u64),
    state: &mut S,
)
    requires alike { length numbers.now ≡ length index.now.keys }
    requires below { AreBelow (length cells.now.encodings) (beside index.now.keys numbers.now) }
    ensures { (keep : AFact → Bool) (facts : List AFact) → HoldsEncodings cells.now.encodings facts → beside index.now.keys numbers.now ≡ entries_kept keep facts → state.new ≡ fold S.step state.old (filter (is_of_instance instance.now.0 instance.now.1) (filter keep facts)) }
{
    let mut at = index.first(instance);
    while let Some(entry) = at {
        state.take(cells, numbers[entry as usize]);
        at = index.next(instance, entry);
    }
}

// Gathers the marks of each fact of an instance at a ballot, from the newest to the oldest.
fn gather(
    index: &InstanceIndex,
    numbers: &[u32],
    cells: &FactCells,
    instance: &(Key, u64),
    ballot: &Ballot,
    gathered: &mut GatheredMarks,
) -> Result<(), Memory>
    requires alike { length numbers.now ≡ length index.now.keys }
    requires below { AreBelow (length cells.now.encodings) (beside index.now.keys numbers.now) }
    ensures { (keep : AFact → Bool) (facts : List AFact) → HoldsEncodings cells.now.encodings facts → beside index.now.keys numbers.now ≡ entries_kept keep facts → OnOk result (gathered.new ≡ fold (with_gathered instance.now.0 instance.now.1 ballot.now) gathered.old (filter (is_of_instance instance.now.0 instance.now.1) (filter keep facts))) }
{
    let mut at = index.first(instance);
    while let Some(entry) = at {
        gathered.gather(
            cells,
            numbers[entry as usize],
            &instance.0,
            instance.1,
            ballot,
        )?;
        at = index.next(instance, entry);
    }
    Ok(())
}

impl InstanceChains {
    /// No facts, with room for so many entries.
    pub fn new(alloc: Global, room: u32) -> Result<InstanceChains, Memory>
        ensures { IfOk result (λ chains. chains ≡ record { room = room; entries = [] }) }
    {
        Ok(InstanceChains {
            index: InstanceIndex::new(alloc, room)?,
            numbers: Vec::with_capacity(alloc, room as usize)?,
        })
    }

    // Enters a number under one instance.
    fn push(&mut self, key: Key, version: u64, number: u32)
        requires { length self.old.entries < self.old.room }
        ensures entries { self.new.entries ≡ ((key, version), number) ∷ self.old.entries }
        ensures room { self.new.room ≡ self.old.room }
    {
        self.index.push((key, version));
        self.numbers.push_reserved(number);
    }

    // Enters a number under the instance of each choice.
    fn push_choices(&mut self, choices: &[Choice], number: u32)
        requires { length choices.now + length self.old.entries ≤ self.old.room }
        ensures entries { self.new.entries ≡ instance_entries_at (map instance_of choices.now) number ++ self.old.entries }
        ensures room { self.new.room ≡ self.old.room }
    {
        let mut left = choices.len();
        while left > 0 {
            left -= 1;
            let choice = &choices[left];
            self.push(choice.key, choice.version, number);
        }
    }

    // Enters an outcome under the instance of each of its choices.
    fn push_outcome(&mut self, outcome: &Outcome, number: u32)
        requires { length (instances_of outcome.now) + length self.old.entries ≤ self.old.room }
        ensures entries { self.new.entries ≡ instance_entries_at (instances_of outcome.now) number ++ self.old.entries }
        ensures room { self.new.room ≡ self.old.room }
    {
        if let Outcome::Commit(choices) = outcome {
            self.push_choices(choices.as_slice(), number);
        }
    }

    /// Enters a fact with its number under every instance that it is of.
    pub fn add(&mut self, fact: &Fact, number: u32)
        requires { length (instances_in fact.now) + length self.old.entries ≤ self.old.room }
        ensures entries { self.new.entries ≡ entries_in fact.now number ++ self.old.entries }
        ensures room { self.new.room ≡ self.old.room }
    {
        match fact {
            Fact::Voted { key, version, .. } => self.push(*key, *version, number),
            Fact::Adopted { key, version, .. } => self.push(*key, *version, number),
            Fact::Heard { outcome, .. } => self.push_outcome(outcome, number),
            Fact::Booted(_) | Fact::Promised { .. } | Fact::Floor { .. } => {}
        }
    }

    /// Enters a fact, if it is more than a rejection at the fast ballot.
    pub fn add_active(&mut self, fact: &Fact, number: u32)
        requires { length (instances_in fact.now) + length self.old.entries ≤ self.old.room }
        ensures entries { (facts : List AFact) → self.old.entries ≡ entries_kept is_active facts → number ≡ length facts → self.new.entries ≡ entries_kept is_active (fact.now ∷ facts) }
        ensures few { length self.new.entries ≤ length (instances_in fact.now) + length self.old.entries }
        ensures room { self.new.room ≡ self.old.room }
    {
        if is_active(fact) {
            self.add(fact, number);
        }
    }

    /// No facts again, with the same room. It takes no memory and gives none back.
    pub fn clear(&mut self)
        ensures { self.new ≡ record { room = self.old.room; entries = [] } }
    {
        self.index.clear();
        self.numbers.clear();
    }

    /// Takes a step at each fact of an instance, from the newest to the oldest.
    pub fn walk<S: FactStep>(&self, cells: &FactCells, key: &Key, version: u64, state: &mut S)
        requires { AreBelow (length cells.now.encodings) self.now.entries }
        ensures { (keep : AFact → Bool) (facts : List AFact) → HoldsEncodings cells.now.encodings facts → self.now.entries ≡ entries_kept keep facts → state.new ≡ fold S.step state.old (filter (is_of_instance key.now version) (filter keep facts)) }
    {
        walk(&self.index, &self.numbers, cells, &(*key, version), state);
    }

    /// Gathers the marks of each fact of an instance at a ballot, from the newest to the oldest.
    pub fn gather(
        &self,
        cells: &FactCells,
        key: &Key,
        version: u64,
        ballot: &Ballot,
        gathered: &mut GatheredMarks,
    ) -> Result<(), Memory>
        requires { AreBelow (length cells.now.encodings) self.now.entries }
        ensures { (keep : AFact → Bool) (facts : List AFact) → HoldsEncodings cells.now.encodings facts → self.now.entries ≡ entries_kept keep facts → OnOk result (gathered.new ≡ fold (with_gathered key.now version ballot.now) gathered.old (filter (is_of_instance key.now version) (filter keep facts))) }
    {
        gather(
            &self.index,
            &self.numbers,
            cells,
            &(*key, version),
            ballot,
            gathered,
        )
    }

    /// The facts of an instance, from the newest to the oldest.
    pub fn facts_of<'a>(
        &'a self,
        cells: &'a FactCells,
        instance: &'a (Key, u64),
    ) -> InstanceWalk<'a>
        requires { AreBelow (length cells.now.encodings) self.now.entries }
        ensures { (keep : AFact → Bool) (facts : List AFact) → HoldsEncodings cells.now.encodings facts → self.now.entries ≡ entries_kept keep facts → AreOf result (filter (is_of_instance instance.now.0 instance.now.1) (filter keep facts)) }
    {
        InstanceWalk::new(cells, &self.index, &self.numbers, instance)
    }
}
