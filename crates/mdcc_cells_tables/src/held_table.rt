//! What is held of each key.
ghost use Rattle.std.specs.Prelude.{◌≡◌, ◌+◌, ◌<◌, ◌≤◌, [], ◌∷◌, IfOk, IfSome, List, None, length, ℕ};
ghost use Rattle.mdcc_base.specs.declared.key.Key.{Key as AKey};
ghost use Rattle.mdcc_def_messages.specs.declared.facts.Fact.{Fact as AFact};
ghost use Rattle.mdcc_def_protocol.specs.Facts.{current_of};
ghost use Rattle.mdcc_def_protocol.specs.News.{keys_in};
ghost use Rattle.mdcc_cells_chains.specs.KeyTables.{index_of, with_key};
ghost use Rattle.mdcc_cells_tables.specs.HeldVersions.{AreGivenBelow, HoldsVersions, IsBaseNumber, base_number, held_at, held_of, held_with, next_held, no_versions, raised, raised_with, version_among, version_written};

use mdcc_base::{Key, Memory};
use mdcc_cells_chains::KeyTable;
use mdcc_def_messages::Fact;
use mdcc_option::{Choice, Outcome, Update};
use std::alloc::Global;
use std::marker::Model;

/// A version of a key, and the number of the fact that gave its base. It is version 0 where there
/// was none.
#[derive(Clone, Copy)]
pub struct HeldVersion {
    pub version: u64,
    pub number: u32,
}

/// The version that is held of each key, with the number of the first fact that gave it.
#[derive(Drop)]
pub struct HeldTable {
    keys: KeyTable,
    held: Vec<HeldVersion>,
}

impl Model for HeldTable {
    ghost use Rattle.std.specs.Prelude.{vec_capacity};
    ghost use Rattle.mdcc_cells_tables.specs.HeldVersions.{AreHeld, Versions};

    ghost Value = { Versions };

    ghost view = { λ t. record { keys = t.keys; held = t.held.items } };

    ghost invariant = { λ t. AreHeld t.keys t.held.items (vec_capacity t.held) };
}

// What is held of a key by its index.
fn held_at(held: &[HeldVersion], index: Option<u32>) -> HeldVersion
    ensures { result ≡ held_at held.now index }
{
    match index.and_then(|index| held.get(index as usize)) {
        Some(found) => *found,
        None => HeldVersion {
            version: 0,
            number: 0,
        },
    }
}

// A version with the number of its fact; none for version 0.
fn base_number(held: HeldVersion) -> Option<(u64, u32)>
    ensures { result ≡ base_number held }
{
    if held.version == 0 {
        None
    } else {
        Some((held.version, held.number))
    }
}

// The version that a committed choice gives its key; 0 where it gives none.
fn version_written(choice: &Choice) -> u64
    ensures { result ≡ version_written choice.now }
{
    match &choice.update {
        Update::Write(_, _) => choice.version.saturating_add(1),
        Update::Add(_) => 0,
    }
}

impl HeldTable {
    /// No versions, with room for those of so many keys.
    pub fn new(alloc: Global, room: u32) -> Result<HeldTable, Memory>
        ensures value { IfOk result (λ table. table ≡ no_versions room) }
        ensures holds { IfOk result (λ table. HoldsVersions table []) }
    {
        Ok(HeldTable {
            keys: KeyTable::new(alloc, room)?,
            held: Vec::with_capacity(alloc, room as usize)?,
        })
    }

    // What is held of a key.
    fn held_of(&self, key: &Key) -> HeldVersion
        ensures { result ≡ held_of self.now key.now }
    {
        held_at(&self.held, self.keys.find(key))
    }

    /// The version that is held.
    pub fn current(&self, key: &Key) -> u64
        ensures value { result ≡ (held_of self.now key.now).version }
        ensures current { (facts : List AFact) → HoldsVersions self.now facts → result ≡ current_of facts key.now }
    {
        self.held_of(key).version
    }

    /// The version that is held, and the number of the fact that gave its base. There is none at
    /// version 0.
    pub fn base_number(&self, key: &Key) -> Option<(u64, u32)>
        ensures value { result ≡ base_number (held_of self.now key.now) }
        ensures base { (facts : List AFact) → HoldsVersions self.now facts → IsBaseNumber facts key.now result }
        ensures within { (number : ℕ) → AreGivenBelow number self.now → IfSome result (λ found. found.1 < number) }
    {
        base_number(self.held_of(key))
    }

    // Sets what is held of a key.
    fn put(&mut self, key: &Key, held: HeldVersion)
        requires { index_of self.old.keys.keys key.now ≡ None → length self.old.keys.keys < self.old.keys.room }
        ensures held { (other : AKey) → held_of self.new other ≡ held_with key.now held other (held_of self.old other) }
        ensures keys { self.new.keys.keys ≡ with_key self.old.keys.keys key.now }
        ensures room { self.new.keys.room ≡ self.old.keys.room }
    {
        let index = self.keys.find_or_push(key) as usize;
        if index < self.held.len() {
            self.held[index] = held;
        } else {
            self.held.push_reserved(held);
        }
    }

    // Takes a version of a key from the fact of a number, if it is greater than the one held.
    fn raise(&mut self, key: &Key, version: u64, number: u32)
        requires { length self.old.keys.keys < self.old.keys.room }
        ensures held { (other : AKey) → held_of self.new other ≡ raised_with key.now version number other (held_of self.old other) }
        ensures keys { length self.new.keys.keys ≤ length self.old.keys.keys + 1 }
        ensures room { self.new.keys.room ≡ self.old.keys.room }
    {
        if self.current(key) < version {
            self.put(key, HeldVersion { version, number });
        }
    }

    // Takes the versions that a commit gives.
    fn raise_all(&mut self, choices: &[Choice], number: u32)
        requires { length self.old.keys.keys + length choices.now ≤ self.old.keys.room }
        ensures held { (key : AKey) → held_of self.new key ≡ raised (version_among key choices.now) number (held_of self.old key) }
        ensures keys { length self.new.keys.keys ≤ length self.old.keys.keys + length choices.now }
        ensures room { self.new.keys.room ≡ self.old.keys.room }
    {
        for choice in choices {
            self.raise(&choice.key, version_written(choice), number);
        }
    }

    // Takes the versions that a fact gives.
    fn raise_by(&mut self, fact: &Fact, number: u32)
        requires { length self.old.keys.keys + length (keys_in fact.now) ≤ self.old.keys.room }
        ensures held { (key : AKey) → held_of self.new key ≡ next_held key fact.now number (held_of self.old key) }
        ensures keys { length self.new.keys.keys ≤ length self.old.keys.keys + length (keys_in fact.now) }
        ensures room { self.new.keys.room ≡ self.old.keys.room }
    {
        match fact {
            Fact::Heard {
                tx: _,
                outcome: Outcome::Commit(choices),
            } => self.raise_all(choices.as_slice(), number),
            Fact::Adopted {
                key,
                version,
                item: _,
                adds: _,
            } => self.raise(key, *version, number),
            _ => {}
        }
    }

    /// Adds a fact, which has this number. It takes no memory.
    pub fn add(&mut self, fact: &Fact, number: u32)
        requires { length self.old.keys.keys + length (keys_in fact.now) ≤ self.old.keys.room }
        ensures held { (key : AKey) → held_of self.new key ≡ next_held key fact.now number (held_of self.old key) }
        ensures holds { (facts : List AFact) → HoldsVersions self.old facts → number ≡ length facts → HoldsVersions self.new (fact.now ∷ facts) }
        ensures below { AreGivenBelow number self.old → AreGivenBelow (number + 1) self.new }
        ensures keys { length self.new.keys.keys ≤ length self.old.keys.keys + length (keys_in fact.now) }
        ensures room { self.new.keys.room ≡ self.old.keys.room }
    {
        self.raise_by(fact, number);
    }

    /// No versions again, with the same room. It takes no memory and gives none back.
    pub fn clear(&mut self)
        ensures value { self.new ≡ no_versions self.old.keys.room }
        ensures holds { HoldsVersions self.new [] }
    {
        self.keys.clear();
        self.held.clear();
    }
}
