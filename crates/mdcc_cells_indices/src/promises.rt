//! Promises, found by key.
ghost use Rattle.std.specs.List.{filter, fold};
ghost use Rattle.std.specs.Prelude.{◌≡◌, ◌+◌, ◌++◌, ◌∷◌, ◌<◌, ◌≤◌, [], IfOk, List, None, Some, length, map, vec_capacity};
ghost use Rattle.mdcc_base.specs.Ballot.{ballot_max, fast_ballot};
ghost use Rattle.mdcc_base.specs.declared.key.Key.{Key as AKey};
ghost use Rattle.mdcc_def_messages.specs.declared.facts.Fact.{Fact as AFact};
ghost use Rattle.mdcc_def_protocol.specs.Facts.{promised_through};
ghost use Rattle.mdcc_theorem_fact_folds.specs.Chains.{is_promise_of};
ghost use Rattle.mdcc_theorem_fact_folds.specs.Promises.{with_promised_ballot};
ghost use Rattle.mdcc_cells_indices.specs.Promises.{ArePromised, ArePromisesListed, is_at, older_end, older_end_at, promised_by, ranges_in, with_range, with_range_at};
ghost use Rattle.mdcc_cells_indices.specs.declared.promises.Promise.{Promise as APromise};

use mdcc_base::{Ballot, Key, Memory};
use mdcc_cells_chains::KeyIndex;
use mdcc_def_messages::Fact;
use std::alloc::Global;
use std::marker::Model;

/// A promise of the versions of a key from the low to the high one.
#[derive(Clone, Copy)]
pub struct Promise {
    pub low: u64,
    pub high: u64,
    pub ballot: Ballot,
}

/// Promises, found by key.
#[derive(Drop)]
pub struct Promises {
    keys: KeyIndex,
    ranges: Vec<Promise>,
}

impl Model for Promises {
    ghost use Rattle.std.specs.Prelude.{vec_capacity};
    ghost use Rattle.mdcc_cells_indices.specs.Promises.{AreRanged, Kept};

    ghost Value = { Kept };

    ghost view = { λ p. record { keys = p.keys; ranges = p.ranges.items } };

    ghost invariant = { λ p. AreRanged p.keys p.ranges.items (vec_capacity p.ranges) };
}

// The high end of a promise of this ballot that begins at this version, or that of a later one.
fn older_end(promise: &Promise, version: u64, ballot: Ballot, later: Option<u64>) -> Option<u64>
    ensures { result ≡ older_end version ballot later promise.now }
{
    if promise.low == version && promise.ballot == ballot {
        Some(promise.high)
    } else {
        later
    }
}

// The high end of the oldest promise of a key of this ballot that begins at this version.
fn oldest_end(
    keys: &KeyIndex,
    ranges: &[Promise],
    key: &Key,
    version: u64,
    ballot: Ballot,
) -> Option<u64>
    requires { length ranges.now ≡ length keys.now.keys }
    ensures { (entries : List (AKey × APromise)) → ArePromisesListed keys.now.keys ranges.now entries → result ≡ fold (older_end_at version ballot) None (filter (is_at key.now) entries) }
{
    let mut found = None;
    let mut at = keys.first(key);
    while let Some(index) = at {
        found = older_end(&ranges[index as usize], version, ballot, found);
        at = keys.next(key, index);
    }
    found
}

/// The greater of two ballots.
pub fn ballot_max(a: Ballot, b: Ballot) -> Ballot
    ensures { result ≡ ballot_max a b }
{
    if a.is_below(&b) { b } else { a }
}

// The greater of a ballot and that of a promise of this version.
fn with_range(promise: &Promise, version: u64, ballot: Ballot) -> Ballot
    ensures { result ≡ with_range version ballot promise.now }
{
    if promise.low <= version && version <= promise.high {
        ballot_max(promise.ballot, ballot)
    } else {
        ballot_max(Ballot::FAST, ballot)
    }
}

// The greatest ballot of the promises of a version of a key.
fn greatest(keys: &KeyIndex, ranges: &[Promise], key: &Key, version: u64) -> Ballot
    requires { length ranges.now ≡ length keys.now.keys }
    ensures { (entries : List (AKey × APromise)) → ArePromisesListed keys.now.keys ranges.now entries → result ≡ fold (with_range_at version) fast_ballot (filter (is_at key.now) entries) }
{
    let mut found = Ballot::FAST;
    let mut at = keys.first(key);
    while let Some(index) = at {
        found = with_range(&ranges[index as usize], version, found);
        at = keys.next(key, index);
    }
    found
}

impl Promises {
    /// No promise, with room for so many.
    pub fn new(alloc: Global, room: u32) -> Result<Promises, Memory>
        ensures { IfOk result (λ promises. promises ≡ record { keys = record { room = room; keys = [] }; ranges = [] }) }
    {
        Ok(Promises {
            keys: KeyIndex::new(alloc, room)?,
            ranges: Vec::with_capacity(alloc, room as usize)?,
        })
    }

    // Adds a promise.
    fn push(&mut self, key: Key, promise: Promise)
        requires { length self.old.keys.keys < self.old.keys.room }
        ensures keys { self.new.keys.keys ≡ key ∷ self.old.keys.keys }
        ensures room { self.new.keys.room ≡ self.old.keys.room }
        ensures ranges { self.new.ranges ≡ self.old.ranges ++ promise ∷ [] }
    {
        self.keys.push(key);
        self.ranges.push_reserved(promise);
    }

    // Adds what a fact promises.
    fn enter(&mut self, fact: &Fact)
        requires { length self.old.keys.keys < self.old.keys.room }
        ensures keys { self.new.keys.keys ≡ map (λ entry. entry.0) (promised_by fact.now) ++ self.old.keys.keys }
        ensures room { self.new.keys.room ≡ self.old.keys.room }
        ensures ranges { self.new.ranges ≡ self.old.ranges ++ ranges_in (promised_by fact.now) }
    {
        if let Fact::Promised {
            key,
            low,
            high,
            ballot,
        } = fact
        {
            self.push(
                *key,
                Promise {
                    low: *low,
                    high: *high,
                    ballot: *ballot,
                },
            );
        }
    }

    /// Adds a fact.
    pub fn add(&mut self, fact: &Fact)
        requires { length self.old.keys.keys < self.old.keys.room }
        ensures promises { (facts : List AFact) → ArePromised self.old facts → ArePromised self.new (fact.now ∷ facts) }
        ensures few { length self.new.keys.keys ≤ length self.old.keys.keys + 1 }
        ensures room { self.new.keys.room ≡ self.old.keys.room }
    {
        self.enter(fact);
    }

    /// No promise again, with the same room. It takes no memory and gives none back.
    pub fn clear(&mut self)
        ensures { self.new ≡ record { keys = record { room = self.old.keys.room; keys = [] }; ranges = [] } }
    {
        self.keys.clear();
        self.ranges.clear();
    }

    /// The high end of the oldest promise of a key of this ballot that begins at this version.
    pub fn promised(&self, key: &Key, version: u64, ballot: Ballot) -> Option<u64>
        ensures { (facts : List AFact) → ArePromised self.now facts → result ≡ promised_through facts key.now version ballot }
    {
        oldest_end(&self.keys, &self.ranges, key, version, ballot)
    }

    /// The greatest ballot that was promised for a version of a key.
    pub fn greatest(&self, key: &Key, version: u64) -> Ballot
        ensures { (facts : List AFact) → ArePromised self.now facts → result ≡ fold (with_promised_ballot key.now version) fast_ballot (filter (is_promise_of key.now) facts) }
    {
        greatest(&self.keys, &self.ranges, key, version)
    }
}
