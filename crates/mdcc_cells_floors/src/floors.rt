//! Floors by the epochs of centres.
ghost use Rattle.std.specs.Prelude.{◌≡◌, ◌≤◌, ◌∷◌, [], IfOk, List, None, OnErr, OnOk, Some, length, option_map, slice_get};
ghost use Rattle.mdcc_struct.specs.Maps.{value_of};
ghost use Rattle.mdcc_def_messages.specs.declared.facts.Fact.{Fact as AFact};
ghost use Rattle.mdcc_def_protocol.specs.Facts.{floor_of, is_finished};
ghost use Rattle.mdcc_def_protocol.specs.Floors.{origins_of};
ghost use Rattle.mdcc_cells_floors.specs.Epochs.{HoldsEpochs, epoch_key, floor_in, floors_set, is_through, origin_of, with_fact, with_floor};

use mdcc_base::{Centre, Memory, TxId};
use mdcc_cells_chains::Unresolved;
use mdcc_def_messages::Fact;
use std::alloc::Global;
use std::marker::Model;

/// An epoch of a centre.
#[derive(Clone, Copy)]
pub struct Epoch {
    pub centre: Centre,
    pub epoch: u32,
}

/// The floor of each epoch of a centre of which something was heard, 0 where none is set, ascending by
/// centre and epoch. All centres have heard the transactions of the epoch from number 1 through the floor.
#[derive(Drop)]
pub struct Floors {
    epochs: Unresolved,
    set: u32,
}

impl Model for Floors {
    ghost use Rattle.mdcc_cells_chains.specs.Unresolved.{Numbered};
    ghost use Rattle.mdcc_cells_floors.specs.Epochs.{AreFloorsCounted};

    ghost Value = { Numbered };

    ghost view = { λ f. f.epochs };

    ghost invariant = { λ f. AreFloorsCounted f.epochs.entries f.set };
}

// The number before the first of an epoch, under which its floor is found.
fn epoch_key(centre: Centre, epoch: u32) -> TxId
    ensures { result ≡ epoch_key centre epoch }
{
    TxId {
        centre,
        epoch,
        seq: 0,
    }
}

impl Floors {
    /// No epoch, with room for so many.
    #[tactic(auto, using(crate::proofs::Held::holds_none))]
    pub fn new(alloc: Global, room: u32) -> Result<Floors, Memory>
        ensures value { IfOk result (λ floors. floors ≡ record { room = room; entries = [] }) }
        ensures holds { IfOk result (λ floors. HoldsEpochs floors.entries []) }
    {
        Ok(Floors {
            epochs: Unresolved::new(alloc, room)?,
            set: 0,
        })
    }

    /// The floor of an epoch of a centre; 0 where none is set.
    pub fn floor(&self, centre: Centre, epoch: u32) -> u32
        ensures value { result ≡ floor_in self.now.entries centre epoch }
        ensures floor { (facts : List AFact) → HoldsEpochs self.now.entries facts → result ≡ floor_of facts centre epoch }
    {
        match self.epochs.find(&epoch_key(centre, epoch)) {
            Some(floor) => floor,
            None => 0,
        }
    }

    /// Whether all centres have heard how a transaction ended.
    pub fn finished(&self, tx: TxId) -> bool
        ensures value { result ≡ is_through self.now.entries tx }
        ensures finished { (facts : List AFact) → HoldsEpochs self.now.entries facts → result ≡ is_finished facts tx }
    {
        0 < tx.seq && tx.seq <= self.floor(tx.centre, tx.epoch)
    }

    /// How many epochs have a floor.
    pub fn set(&self) -> u32
        ensures { result ≡ floors_set self.now.entries }
    {
        self.set
    }

    /// The epoch at a place, from 0, of those of which something was heard, ascending.
    pub fn origin(&self, place: usize) -> Option<Epoch>
        ensures value { option_map (λ e. (e.centre, e.epoch)) result ≡ option_map origin_of (slice_get self.now.entries place) }
        ensures origin { (facts : List AFact) → HoldsEpochs self.now.entries facts → option_map (λ e. (e.centre, e.epoch)) result ≡ slice_get (origins_of facts) place }
    {
        match self.epochs.get(place) {
            Some((key, _)) => Some(Epoch {
                centre: key.centre,
                epoch: key.epoch,
            }),
            None => None,
        }
    }

    // Enters an epoch that is not there.
    fn enter(&mut self, centre: Centre, epoch: u32, seq: u32) -> Result<(), Memory>
        requires { value_of self.old.entries (epoch_key centre epoch) ≡ None }
        ensures ok { OnOk result (self.new.entries ≡ with_floor self.old.entries centre epoch seq) }
        ensures room { self.new.room ≡ self.old.room }
        ensures err { OnErr result (self.new ≡ self.old) }
        ensures full { OnErr result (self.old.room ≤ length self.old.entries) }
    {
        if self.epochs.is_full() {
            return Err(Memory);
        }
        self.epochs.insert(epoch_key(centre, epoch), seq);
        let _most = self.epochs.len();
        if 0 < seq {
            self.set += 1;
        }
        Ok(())
    }

    // Raises the floor of an epoch that is there.
    fn lift(&mut self, centre: Centre, epoch: u32, floor: u32, seq: u32)
        requires { value_of self.old.entries (epoch_key centre epoch) ≡ Some floor }
        ensures epochs { self.new.entries ≡ with_floor self.old.entries centre epoch seq }
        ensures room { self.new.room ≡ self.old.room }
    {
        if floor < seq {
            let key = epoch_key(centre, epoch);
            let _most = self.epochs.len();
            self.epochs.remove(&key);
            self.epochs.insert(key, seq);
            if floor == 0 {
                self.set += 1;
            }
        }
    }

    // Raises the floor of an epoch, which is entered where it is not there.
    fn raise(&mut self, centre: Centre, epoch: u32, seq: u32) -> Result<(), Memory>
        ensures ok { OnOk result (self.new.entries ≡ with_floor self.old.entries centre epoch seq) }
        ensures room { self.new.room ≡ self.old.room }
        ensures err { OnErr result (self.new ≡ self.old) }
        ensures full { OnErr result (self.old.room ≤ length self.old.entries) }
    {
        match self.epochs.find(&epoch_key(centre, epoch)) {
            Some(floor) => {
                self.lift(centre, epoch, floor, seq);
                Ok(())
            }
            None => self.enter(centre, epoch, seq),
        }
    }

    // Enters the epoch that a fact names, with the floor that it sets.
    fn note(&mut self, fact: &Fact) -> Result<(), Memory>
        ensures ok { OnOk result (self.new.entries ≡ with_fact self.old.entries fact.now) }
        ensures room { self.new.room ≡ self.old.room }
        ensures err { OnErr result (self.new ≡ self.old) }
        ensures full { OnErr result (self.old.room ≤ length self.old.entries) }
    {
        match fact {
            Fact::Heard { tx, outcome: _ } => self.raise(tx.centre, tx.epoch, 0),
            Fact::Floor { centre, epoch, seq } => self.raise(*centre, *epoch, *seq),
            Fact::Booted(_) | Fact::Promised { .. } | Fact::Voted { .. } | Fact::Adopted { .. } => {
                Ok(())
            }
        }
    }

    /// Adds a fact. It takes no memory; it fails where there is an epoch more than there is room for.
    pub fn add(&mut self, fact: &Fact) -> Result<(), Memory>
        ensures ok { OnOk result (self.new.entries ≡ with_fact self.old.entries fact.now) }
        ensures holds { (facts : List AFact) → HoldsEpochs self.old.entries facts → OnOk result (HoldsEpochs self.new.entries (fact.now ∷ facts)) }
        ensures room { self.new.room ≡ self.old.room }
        ensures err { OnErr result (self.new ≡ self.old) }
        ensures full { OnErr result (self.old.room ≤ length self.old.entries) }
    {
        self.note(fact)
    }
}
