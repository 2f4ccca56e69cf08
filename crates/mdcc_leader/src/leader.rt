//! The leader.
ghost use Rattle.std.specs.Prelude.{◌≡◌, ◌≤◌, IsOkAnd, List, None, OnErr, OnOk, Some, if◌then◌else◌, ℕ};
ghost use Rattle.indexmap.specs.IndexMap.{get};
ghost use Rattle.mdcc_base.specs.AreQuorums.{AreQuorums};
ghost use Rattle.mdcc_base.specs.Key.{key_eq};
ghost use Rattle.mdcc_base.specs.Sizes.{Sizes};
ghost use Rattle.mdcc_base.specs.Unless.{GivesUnless};
ghost use Rattle.mdcc_base.specs.declared.key.Key.{Key as AKey};
ghost use Rattle.mdcc_leader.specs.Answers.{answer_alone, is_lead_memory, left};
ghost use Rattle.mdcc_leader.specs.Represents.{RepresentsLeading};
ghost use Rattle.mdcc_def_messages.specs.declared.facts.Fact.{Fact as AFact};
ghost use Rattle.mdcc_def_protocol.specs.Leader.{lead, led_anew, on_promise, on_refused};
ghost use Rattle.mdcc_def_protocol.specs.Volatile.{Leading, initial_volatile};

use crate::led::{Led, begin};
use indexmap::IndexMap;
use mdcc_base::{Ballot, Centre, Key, Memory};
use mdcc_def_protocol::{LeadAnswer, LeadFault, Promise, PromiseAnswer};
use mdcc_facts::FactStore;
use mdcc_option::{Claim, Cluster};
use std::alloc::Global;

/// The classic ballots that a centre leads in one of its epochs, one for each key.
#[derive(Drop)]
pub struct Leader {
    alloc: Global,
    centre: Centre,
    epoch: u32,
    leads: IndexMap<Key, Led>,
}

impl Leader {
    /// The leader of a centre at the start of one of its epochs.
    pub fn new(alloc: Global, centre: Centre, epoch: u32) -> Result<Leader, Memory>
        ensures { (quorums : Sizes) → AreQuorums quorums
            → IsOkAnd result (λ leader. RepresentsLeading leader centre epoch quorums initial_volatile.leader) }
    {
        Ok(Leader {
            alloc,
            centre,
            epoch,
            leads: IndexMap::new(alloc),
        })
    }

    /// Takes a claim: a transaction asks for a mark in an instance. `Exhausted` comes where the
    /// round would pass 2^32 - 1. A refusal leaves the leader as it was.
    pub fn lead<S: FactStore>(
        &mut self,
        store: &S,
        cluster: &Cluster,
        claim: &Claim,
    ) -> Result<LeadAnswer, LeadFault>
        ensures answer { (me epoch : ℕ) (facts : List AFact) (leading : Leading) → S.stands store.now facts
            → RepresentsLeading self.old me epoch cluster.now.quorums leading
            → GivesUnless is_lead_memory result (answer_alone (lead cluster.now me epoch facts leading claim.now)) }
        ensures ok { (me epoch : ℕ) (facts : List AFact) (leading : Leading) → S.stands store.now facts
            → RepresentsLeading self.old me epoch cluster.now.quorums leading
            → OnOk result (RepresentsLeading self.new me epoch cluster.now.quorums (left leading (lead cluster.now me epoch facts leading claim.now))) }
        ensures err { (me epoch : ℕ) (quorums : Sizes) (leading : Leading) → RepresentsLeading self.old me epoch quorums leading
            → OnErr result (RepresentsLeading self.new me epoch quorums leading) }
    {
        let is_behind = store.current(&claim.key) < claim.version;
        if is_behind {
            return Ok(LeadAnswer::Behind);
        }
        let (alloc, centre, epoch) = (self.alloc, self.centre, self.epoch);
        match self.leads.get_mut(&claim.key) {
            Some(led) => led.take(alloc, centre, epoch, store, cluster, claim),
            None => self.begin(store, cluster, claim),
        }
    }

    // The first lead of a key.
    fn begin<S: FactStore>(
        &mut self,
        store: &S,
        cluster: &Cluster,
        claim: &Claim,
    ) -> Result<LeadAnswer, LeadFault>
        requires { get key_eq self.old.leads claim.now.key ≡ None }
        ensures answer { (me epoch : ℕ) (facts : List AFact) (leading : Leading) → S.stands store.now facts
            → RepresentsLeading self.old me epoch cluster.now.quorums leading
            → GivesUnless is_lead_memory result (answer_alone (led_anew cluster.now me epoch facts leading claim.now)) }
        ensures ok { (me epoch : ℕ) (facts : List AFact) (leading : Leading) → S.stands store.now facts
            → RepresentsLeading self.old me epoch cluster.now.quorums leading
            → OnOk result (RepresentsLeading self.new me epoch cluster.now.quorums (left leading (led_anew cluster.now me epoch facts leading claim.now))) }
        ensures err { (me epoch : ℕ) (quorums : Sizes) (leading : Leading) → RepresentsLeading self.old me epoch quorums leading
            → OnErr result (RepresentsLeading self.new me epoch quorums leading) }
    {
        let lead = begin(
            self.alloc,
            self.centre,
            self.epoch,
            store,
            cluster,
            claim,
            (0, 0),
        )?;
        let answer = lead.prepare();
        keep(
            &mut self.leads,
            claim.key,
            Led {
                lead,
                refused_round: 0,
            },
        )?;
        Ok(answer)
    }

    /// Takes a promise of a centre. Those of a classic quorum make the first structure of the ballot,
    /// under the wider limit those that are enough for it. `Crowded` comes where the structure would
    /// have too many marks; the promise is not counted then. A refusal leaves the leader as it was.
    pub fn on_promise<S: FactStore>(
        &mut self,
        store: &S,
        cluster: &Cluster,
        from: Centre,
        promise: &Promise,
    ) -> Result<PromiseAnswer, LeadFault>
        requires { from ≤ cluster.now.quorums.centres }
        ensures answer { (me epoch : ℕ) (facts : List AFact) (leading : Leading) → S.stands store.now facts
            → RepresentsLeading self.old me epoch cluster.now.quorums leading
            → GivesUnless is_lead_memory result (answer_alone (on_promise cluster.now facts leading from promise.now)) }
        ensures ok { (me epoch : ℕ) (facts : List AFact) (leading : Leading) → S.stands store.now facts
            → RepresentsLeading self.old me epoch cluster.now.quorums leading
            → OnOk result (RepresentsLeading self.new me epoch cluster.now.quorums (left leading (on_promise cluster.now facts leading from promise.now))) }
        ensures err { (me epoch : ℕ) (quorums : Sizes) (leading : Leading) → RepresentsLeading self.old me epoch quorums leading
            → OnErr result (RepresentsLeading self.new me epoch quorums leading) }
    {
        let alloc = self.alloc;
        match self.leads.get_mut(&promise.key) {
            Some(led) => led.count(alloc, store, cluster, from, promise),
            None => Ok(PromiseAnswer::Ignored),
        }
    }

    /// Hears that a centre promised another ballot than that of a lead, which is given up.
    pub fn on_refused(&mut self, key: &Key, ballot: Ballot, promised: Ballot)
        ensures { (me epoch : ℕ) (quorums : Sizes) (leading : Leading) → RepresentsLeading self.old me epoch quorums leading
            → RepresentsLeading self.new me epoch quorums (on_refused leading key.now ballot promised) }
    {
        match self.leads.get_mut(key) {
            Some(led) => led.refuse(&ballot, promised.round),
            None => {}
        }
    }
}

// Keeps what a leader has for a new key.
fn keep(leads: &mut IndexMap<Key, Led>, key: Key, led: Led) -> Result<(), Memory>
    ensures ok { (other : AKey) → OnOk result (get key_eq leads.new other ≡ (if key_eq key other then Some led else get key_eq leads.old other)) }
    ensures err { (other : AKey) → OnErr result (get key_eq leads.new other ≡ get key_eq leads.old other) }
{
    leads.insert(key, led)?;
    Ok(())
}
