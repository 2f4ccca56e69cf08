//! The questions of a store of facts, answered from cells.
use crate::PoolFacts;
use mdcc_base::{Ballot, HeapList, Key, Memory, TxId};
use mdcc_def_messages::Fact;
use mdcc_def_protocol::{Load, StoreFault};
use mdcc_facts::FactStore;
use mdcc_option::{Choice, Delta, Item, Mark, Outcome, Seen, WriteSet};
use mdcc_struct::Options;
use std::alloc::Global;

impl FactStore for PoolFacts {
    ghost use Rattle.mdcc_index.specs.Stores.{Represents, cells_in_all};

    ghost stands = { Represents };

    ghost cells = { cells_in_all };

    fn add(&mut self, fact: &Fact) -> Result<(), StoreFault> {
        self.add(fact)
    }

    fn promise(&self, key: &Key, version: u64) -> Ballot {
        self.pool.promise(key, version)
    }

    fn promised(&self, key: &Key, version: u64, ballot: Ballot) -> Option<u64> {
        self.pool.promised(key, version, ballot)
    }

    #[tactic(auto, using(mdcc_def_protocol::proofs::Plain::vote_plain))]
    fn vote_of(&self, key: &Key, version: u64, tx: TxId) -> Option<(Ballot, Mark)> {
        self.pool.vote_of(key, version, tx)
    }

    fn voted_below(&self, key: &Key, version: u64, below: Ballot) -> Ballot {
        self.pool.voted_below(key, version, below)
    }

    #[tactic(auto, using(mdcc_def_protocol::proofs::Plain::shown_plain))]
    fn votes(
        &self,
        alloc: Global,
        key: &Key,
        version: u64,
        ballot: Ballot,
    ) -> Result<Options, Memory> {
        self.pool.votes(alloc, key, version, ballot)
    }

    #[tactic(auto, using(mdcc_facts::proofs::Unfinished::count_plain))]
    fn count_past(&self, key: &Key, version: u64, ballot: Ballot, options: &Options) -> usize {
        self.pool.count_voted(key, version, ballot, options)
    }

    #[tactic(auto, using(mdcc_def_protocol::proofs::Plain::settled_plain))]
    fn is_settled(&self, tx: TxId) -> bool {
        self.pool.is_heard(tx)
    }

    #[tactic(auto, using(mdcc_facts::proofs::Unfinished::heard_plain, mdcc_def_protocol::proofs::Plain::finished_none))]
    fn finished(&self, _tx: TxId) -> bool {
        false
    }

    #[tactic(auto, using(mdcc_def_protocol::proofs::Plain::ended_plain))]
    fn ended(&self, tx: TxId) -> Option<bool> {
        self.pool.ended(tx)
    }

    #[tactic(auto, using(mdcc_def_protocol::proofs::Plain::kept_plain))]
    fn heard(&self, tx: TxId) -> Option<Outcome> {
        self.pool.heard(tx)
    }

    fn current(&self, key: &Key) -> u64 {
        self.pool.current(key)
    }

    fn base(&self, key: &Key) -> Option<Item> {
        self.pool.base(key)
    }

    fn executed(&self, key: &Key) -> Seen {
        self.pool.executed(key)
    }

    fn delta(&self, key: &Key, tx: TxId) -> Option<Delta> {
        self.pool.delta(key, tx)
    }

    #[tactic(auto, using(mdcc_def_protocol::proofs::Plain::load_plain))]
    fn load(&self, key: &Key, version: u64, seen: &[TxId]) -> Load {
        self.pool.load(key, version, seen)
    }

    #[tactic(auto, using(mdcc_def_protocol::proofs::Plain::entries_at_plain))]
    fn entries(&self, key: &Key, version: u64) -> (u32, u32) {
        self.pool.entries(key, version)
    }

    #[tactic(auto, using(mdcc_def_protocol::proofs::Plain::mark_plain))]
    fn marks(
        &self,
        key: &Key,
        version: u64,
        below: Ballot,
        place: usize,
    ) -> Option<(Ballot, TxId, Mark)> {
        self.pool.marks(key, version, below, place)
    }

    #[tactic(auto, using(mdcc_def_protocol::proofs::Plain::next_mark_plain))]
    fn mark_after(
        &self,
        key: &Key,
        version: u64,
        below: Ballot,
        last: Option<TxId>,
    ) -> Option<(Ballot, TxId, Mark)> {
        self.pool.mark_after(key, version, below, last)
    }

    #[tactic(auto, using(mdcc_def_protocol::proofs::Plain::unresolved_at_plain))]
    fn unresolved(&self, place: usize) -> Option<(TxId, WriteSet)> {
        self.pool.unresolved(place)
    }

    #[tactic(auto, using(mdcc_def_protocol::proofs::Plain::unresolved_plain))]
    fn write_set(&self, tx: TxId) -> Option<WriteSet> {
        self.pool.write_set(tx)
    }

    #[tactic(auto, using(mdcc_def_protocol::proofs::Plain::unresolved_plain))]
    fn unresolved_all(&self, alloc: Global) -> Result<HeapList<(TxId, WriteSet)>, Memory> {
        self.pool.unresolved_all(alloc)
    }

    #[tactic(auto, using(mdcc_def_protocol::proofs::Plain::choice_plain))]
    fn choice_of(&self, key: &Key, version: u64, tx: TxId) -> Option<Choice> {
        self.pool.choice_of(key, version, tx)
    }

    fn would_crowd(&self, fact: &Fact) -> bool {
        self.pool.would_crowd(fact)
    }

    fn epoch(&self) -> u32 {
        self.pool.epoch()
    }

    fn cells(&self) -> u64 {
        self.pool.cells()
    }
}
