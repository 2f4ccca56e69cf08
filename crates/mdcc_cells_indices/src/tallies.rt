//! What the votes and adoptions of each instance come to, found by it.
ghost use Rattle.std.specs.Prelude.{◌≡◌, ◌+◌, ◌<◌, ◌≤◌, [], ◌∷◌, IfOk, List, if◌then◌else◌, length, ℕ};
ghost use Rattle.mdcc_base.specs.declared.key.Key.{Key as AKey};
ghost use Rattle.mdcc_def_messages.specs.declared.facts.Fact.{Fact as AFact};
ghost use Rattle.mdcc_facts.specs.Adding.{MayBeAdded};
ghost use Rattle.mdcc_cells_chains.specs.Keys.{instance_eq};
ghost use Rattle.mdcc_cells_indices.specs.Tallies.{HoldsTallies, counted_at, is_bare, limited, tally_in, with_adopted, with_vote};

use crate::promises::ballot_max;
use mdcc_base::{Ballot, Key, Memory};
use mdcc_cells_chains::InstanceIndex;
use mdcc_def_messages::Fact;
use mdcc_option::Choice;
use mdcc_struct::Options;
use std::alloc::Global;
use std::marker::Model;

/// How many marks accept and how many reject in an instance at the fast ballot, each at most
/// 2^32 - 1, whether a vote rejects there a transaction of which it has no choice, whether the
/// instance was adopted, and the greatest ballot of its votes, the fast one where there is none.
#[derive(Clone, Copy)]
pub struct Tally {
    pub accepts: u32,
    pub rejects: u32,
    pub bare: bool,
    pub adopted: bool,
    pub ballot: Ballot,
}

/// The tallies of instances. A vote or an adoption enters one for its instance, which counts from then
/// on.
#[derive(Drop)]
pub struct Tallies {
    instances: InstanceIndex,
    tallies: Vec<Tally>,
}

impl Model for Tallies {
    ghost use Rattle.std.specs.Prelude.{vec_capacity};
    ghost use Rattle.mdcc_cells_indices.specs.Tallies.{AreTallied, Tallied};

    ghost Value = { Tallied };

    ghost view = { λ t. record { instances = t.instances; tallies = t.tallies.items } };

    ghost invariant = { λ t. AreTallied t.instances t.tallies.items (vec_capacity t.tallies) };
}

// So many more, up to 2^32 - 1.
fn limited(count: u32, more: usize) -> u32
    ensures { result ≡ limited count more }
{
    count.saturating_add(more.min(4_294_967_295) as u32)
}

// How many of the marks of a vote count as entries.
fn counted_at(ballot: &Ballot, count: usize) -> usize
    ensures { result ≡ counted_at ballot.now count }
{
    if ballot.is(&Ballot::FAST) { count } else { 0 }
}

// Whether marks reject a transaction of which the vote has no choice.
fn is_bare(options: &Options, offered: &Option<Choice>) -> bool
    ensures { result ≡ is_bare options.now offered.now }
{
    match offered {
        Some(choice) => {
            options.rejected() > 0 && !(options.len() == 1 && options.mark_of(choice.tx).is_some())
        }
        None => options.rejected() > 0,
    }
}

// A tally with one more vote.
fn with_vote(tally: Tally, ballot: &Ballot, options: &Options, offered: &Option<Choice>) -> Tally
    ensures { result ≡ with_vote tally ballot.now options.now offered.now }
{
    Tally {
        accepts: limited(tally.accepts, counted_at(ballot, options.accepted())),
        rejects: limited(tally.rejects, counted_at(ballot, options.rejected())),
        bare: tally.bare || is_bare(options, offered),
        adopted: tally.adopted,
        ballot: ballot_max(tally.ballot, *ballot),
    }
}

// A tally with one more adoption.
fn with_adopted(tally: Tally) -> Tally
    ensures { result ≡ with_adopted tally }
{
    Tally {
        accepts: tally.accepts,
        rejects: tally.rejects,
        bare: tally.bare,
        adopted: true,
        ballot: tally.ballot,
    }
}

impl Tallies {
    /// No vote, with room for so many.
    #[tactic(auto, using(crate::proofs::Tallying::tallies_none))]
    pub fn new(alloc: Global, room: u32) -> Result<Tallies, Memory>
        ensures tallies { IfOk result (λ tallies. HoldsTallies tallies []) }
        ensures value { IfOk result (λ tallies. tallies ≡ record { instances = record { room = room; keys = [] }; tallies = [] }) }
    {
        Ok(Tallies {
            instances: InstanceIndex::new(alloc, room)?,
            tallies: Vec::with_capacity(alloc, room as usize)?,
        })
    }

    /// No vote again, with the same room. It takes no memory and gives none back.
    #[tactic(auto, using(crate::proofs::Tallying::tallies_none))]
    pub fn clear(&mut self)
        ensures tallies { HoldsTallies self.new [] }
        ensures value { self.new ≡ record { instances = record { room = self.old.instances.room; keys = [] }; tallies = [] } }
    {
        self.instances.clear();
        self.tallies.clear();
    }

    /// The tally of an instance.
    pub fn tally(&self, instance: &(Key, u64)) -> Tally
        ensures { result ≡ tally_in self.now instance.now }
    {
        match self.instances.first(instance) {
            Some(index) => self.tallies[index as usize],
            None => Tally {
                accepts: 0,
                rejects: 0,
                bare: false,
                adopted: false,
                ballot: Ballot::FAST,
            },
        }
    }

    // Sets the tally of an instance.
    fn push(&mut self, instance: (Key, u64), tally: Tally)
        requires { length self.old.instances.keys < self.old.instances.room }
        ensures tallies { (other : AKey × ℕ) → tally_in self.new other ≡ (if instance_eq other instance then tally else tally_in self.old other) }
        ensures few { length self.new.instances.keys ≡ length self.old.instances.keys + 1 }
        ensures room { self.new.instances.room ≡ self.old.instances.room }
    {
        self.instances.push(instance);
        self.tallies.push_reserved(tally);
    }

    // Notes that an instance was adopted.
    fn push_adopted(&mut self, instance: (Key, u64))
        requires { length self.old.instances.keys < self.old.instances.room }
        ensures tallies { (other : AKey × ℕ) → tally_in self.new other ≡ (if instance_eq other instance then with_adopted (tally_in self.old instance) else tally_in self.old other) }
        ensures few { length self.new.instances.keys ≡ length self.old.instances.keys + 1 }
        ensures room { self.new.instances.room ≡ self.old.instances.room }
    {
        let tally = with_adopted(self.tally(&instance));
        self.push(instance, tally);
    }

    /// Adds a fact.
    pub fn add(&mut self, fact: &Fact)
        requires { length self.old.instances.keys < self.old.instances.room }
        ensures tallies { (facts : List AFact) → HoldsTallies self.old facts → MayBeAdded facts fact.now → HoldsTallies self.new (fact.now ∷ facts) }
        ensures few { length self.new.instances.keys ≤ length self.old.instances.keys + 1 }
        ensures room { self.new.instances.room ≡ self.old.instances.room }
    {
        if let Fact::Voted {
            key,
            version,
            ballot,
            options,
            offered,
        } = fact
        {
            let instance = (*key, *version);
            let tally = with_vote(self.tally(&instance), ballot, options, offered);
            self.push(instance, tally);
        } else if let Fact::Adopted {
            key,
            version,
            item: _,
            adds: _,
        } = fact
        {
            self.push_adopted((*key, *version));
        }
    }
}
