//! What the centres told, kept until a crash.
ghost use Rattle.std.specs.List.{fold, list_any};
ghost use Rattle.mdcc_base.specs.Quorums.{all_centres};
ghost use Rattle.std.specs.Prelude.{◌≡◌, ◌<◌, ◌≤◌, [], false, IfOk, length, List, min, OnErr, OnOk, option_map, slice_get, Some, take, true};
ghost use Rattle.mdcc_def_messages.specs.declared.facts.Fact.{Fact as AFact};
ghost use Rattle.mdcc_def_protocol.specs.Floors.{floor_raised, is_of, least_told, mark_told, on_mark, with_floor_mark};

use crate::FloorStore;
use crate::told::Told;
use mdcc_base::{Centre, Memory, Quorums};
use mdcc_def_messages::Fact;
use std::alloc::Global;
use std::marker::Model;

/// How far each centre has heard, as it told. A crash loses it; the next sweeps of the centres tell
/// it again.
#[derive(Drop)]
pub struct Sweeper {
    told: Vec<Told>,
}

impl Model for Sweeper {
    ghost use Rattle.std.specs.Prelude.{List};
    ghost use Rattle.mdcc_def_protocol.specs.Volatile.{Marked};

    ghost Value = { List Marked };

    ghost view = { λ s. s.told.items };
}

// The number that is remembered, 0 where there is none.
fn number_told(told: &[Told], from: u8, centre: Centre, epoch: u32) -> u32
    ensures { result ≡ mark_told told.now from centre epoch }
{
    for one in told {
        if one.is_of(from, centre, epoch) {
            return one.seq();
        }
    }
    0
}

// The place of what a centre told of an epoch; the end where it told nothing.
fn place_of(told: &[Told], from: Centre, centre: Centre, epoch: u32) -> usize
    ensures within { result ≤ length told.now }
    ensures before { list_any (is_of from centre epoch) (take result told.now) ≡ false }
    ensures found { result < length told.now → option_map (is_of from centre epoch) (slice_get told.now result) ≡ Some true }
{
    let mut place = 0;
    while place < told.len() {
        if told[place].is_of(from.number(), centre, epoch) {
            return place;
        }
        place += 1;
    }
    place
}

// The least number that all centres told of an epoch, and that is not above another.
#[tactic(auto, using(crate::proofs::Ranges::range_first))]
fn least_of(told: &[Told], quorums: &Quorums, centre: Centre, epoch: u32, above: u32) -> u32
    ensures { result ≡ fold (λ least from. min least (mark_told told.now from centre epoch)) above (all_centres quorums.now) }
{
    let mut least = above;
    for from in 1..quorums.centres() + 1 {
        least = least.min(number_told(told, from, centre, epoch));
    }
    least
}

// Whether a greater floor than the one that is set may be, with the fact that sets it.
fn raised<S: FloorStore>(store: &S, centre: Centre, epoch: u32, least: u32) -> Option<Fact>
    ensures { (facts : List AFact) → S.stands store.now facts → result ≡ floor_raised facts centre epoch least }
{
    if store.floor(centre, epoch) < least {
        Some(Fact::Floor {
            centre,
            epoch,
            seq: least,
        })
    } else {
        None
    }
}

impl Sweeper {
    /// Nothing was told.
    pub fn new(alloc: Global) -> Sweeper
        ensures { result ≡ [] }
    {
        Sweeper {
            told: Vec::new(alloc),
        }
    }

    // Remembers what a centre told. Without memory nothing is.
    #[tactic(auto, using(crate::proofs::Kept::not_remembered, crate::proofs::Kept::remembered))]
    fn remember(&mut self, from: Centre, centre: Centre, epoch: u32, seq: u32) -> Result<(), Memory>
        ensures ok { OnOk result (self.new ≡ with_floor_mark self.old from centre epoch seq) }
        ensures err { OnErr result (self.new ≡ self.old) }
    {
        let place = place_of(&self.told, from, centre, epoch);
        if place < self.told.len() {
            self.told[place].raise(seq);
        } else {
            self.told.push(Told::new(from, centre, epoch, seq))?;
        }
        Ok(())
    }

    // The least number that all centres told of an epoch, and through which all was heard here.
    fn least_told<S: FloorStore>(
        &self,
        store: &S,
        quorums: &Quorums,
        centre: Centre,
        epoch: u32,
    ) -> u32
        ensures { (facts : List AFact) → S.stands store.now facts → result ≡ least_told quorums.now facts self.now centre epoch }
    {
        let here = store.heard_through(centre, epoch);
        least_of(&self.told, quorums, centre, epoch, here)
    }

    /// Takes what a centre told: through this number it has heard all transactions that a centre
    /// began in an epoch. Gives the floor that may be set then, where it is greater than the one that
    /// is set.
    pub fn on_mark<S: FloorStore>(
        &mut self,
        store: &S,
        quorums: &Quorums,
        from: Centre,
        mark: (Centre, u32, u32),
    ) -> Result<Option<Fact>, Memory>
        ensures ok { (facts : List AFact) → S.stands store.now facts → IfOk result (λ fact. (fact, self.new) ≡ on_mark quorums.now facts self.old from mark.0 mark.1 mark.2) }
        ensures err { OnErr result (self.new ≡ self.old) }
    {
        let (centre, epoch, seq) = mark;
        self.remember(from, centre, epoch, seq)?;
        let least = self.least_told(store, quorums, centre, epoch);
        Ok(raised(store, centre, epoch, least))
    }
}
