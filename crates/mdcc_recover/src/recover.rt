//! The recovery.
ghost use Rattle.std.specs.Prelude.{◌≡◌, ◌≤◌, ◌++◌, IfOk, IsOkAnd, List, OnErr, OnOk, flat_map, length, map, option_map, ℕ};
ghost use Rattle.mdcc_base.specs.AreQuorums.{AreQuorums};
ghost use Rattle.mdcc_base.specs.Sizes.{Sizes};
ghost use Rattle.mdcc_def_messages.specs.declared.facts.Fact.{Fact as AFact};
ghost use Rattle.mdcc_def_protocol.specs.Learner.{decision_of};
ghost use Rattle.mdcc_def_protocol.specs.Recover.{acts_on, ask_of, claim_of_key, keys_led, keys_watched, on_voted, tick, watched_vote, would_decide};
ghost use Rattle.mdcc_def_protocol.specs.Volatile.{Recovering, counter_of, is_watched, initial_volatile, recovery_closed};
ghost use Rattle.mdcc_recover.specs.Represents.{RepresentsRecovering};

use crate::counters::{Counters, count_tick, counter_in, forget, keep_counters, next_count};
use crate::dangling::dangling;
use crate::marks::decision_with;
use indexmap::IndexMap;
use mdcc_base::{Key, Memory, Quorums, TxId};
use mdcc_def_protocol::{RecoverAct, Vote};
use mdcc_facts::FactStore;
use mdcc_learner::Learner;
use mdcc_option::{Claim, Cluster, Outcome, WriteSet};
use std::alloc::Global;

/// How many ticks each dangling transaction has seen, and the votes that count on those that are
/// watched: a transaction is watched from its second tick on.
#[derive(Drop)]
pub struct Recover {
    alloc: Global,
    counters: Counters,
    learner: Learner,
}

impl Recover {
    /// A recovery that has seen no tick.
    pub fn new(alloc: Global) -> Result<Recover, Memory>
        ensures { (quorums : Sizes) → AreQuorums quorums
            → IsOkAnd result (λ recover. RepresentsRecovering recover quorums initial_volatile.recovery) }
    {
        Ok(Recover {
            alloc,
            counters: IndexMap::new(alloc),
            learner: Learner::new(alloc)?,
        })
    }

    /// Counts a tick of each transaction that is not resolved and not open here, and says what is
    /// done for it, in ascending order: at the second tick all centres are asked for their votes on
    /// each of its keys, and at the fourth and each later even one each key of which nothing is
    /// learned is led here.
    pub fn tick<S: FactStore>(
        &mut self,
        store: &S,
        opened: &[TxId],
    ) -> Result<Vec<RecoverAct>, Memory>
        ensures acts { (quorums : Sizes) (facts : List AFact) (recovering : Recovering) → S.stands store.now facts → RepresentsRecovering self.old quorums recovering
            → IfOk result (λ acts. acts.items ≡ (tick quorums facts recovering opened.now).0) }
        ensures ok { (quorums : Sizes) (facts : List AFact) (recovering : Recovering) → S.stands store.now facts → RepresentsRecovering self.old quorums recovering
            → OnOk result (RepresentsRecovering self.new quorums (tick quorums facts recovering opened.now).1) }
        ensures err { (quorums : Sizes) (recovering : Recovering) → RepresentsRecovering self.old quorums recovering
            → OnErr result (RepresentsRecovering self.new quorums recovering) }
    {
        let txs = dangling(self.alloc, store, opened)?;
        let acts = self.acts_of(store, &txs)?;
        keep_counters(&mut self.counters, &txs)?;
        count_tick(&mut self.counters, &txs);
        Ok(acts)
    }

    // What is done for each of these transactions at the next tick.
    fn acts_of<S: FactStore>(
        &self,
        store: &S,
        txs: &[(TxId, WriteSet)],
    ) -> Result<Vec<RecoverAct>, Memory>
        ensures { (quorums : Sizes) (facts : List AFact) (recovering : Recovering) → S.stands store.now facts → RepresentsRecovering self.now quorums recovering
            → IfOk result (λ acts. acts.items ≡ flat_map (acts_on quorums facts recovering) txs.now) }
    {
        let mut acts = Vec::new(self.alloc);
        for entry in txs {
            self.add_acts(&mut acts, store, &entry.0, entry.1.as_slice())?;
        }
        Ok(acts)
    }

    // Adds what is done for a transaction at its next tick behind other acts.
    fn add_acts<S: FactStore>(
        &self,
        acts: &mut Vec<RecoverAct>,
        store: &S,
        tx: &TxId,
        write_set: &[(Key, u64)],
    ) -> Result<(), Memory>
        ensures { (quorums : Sizes) (facts : List AFact) (recovering : Recovering) → S.stands store.now facts → RepresentsRecovering self.now quorums recovering
            → OnOk result (acts.new.items ≡ acts.old.items ++ acts_on quorums facts recovering (tx.now, write_set.now)) }
    {
        let count = next_count(counter_in(&self.counters, tx));
        if count == 2 {
            ask_each(acts, tx, write_set)
        } else if count >= 4 && count % 2 == 0 {
            self.lead_each(acts, store, tx, write_set)
        } else {
            Ok(())
        }
    }

    // Each of these keys of which nothing is learned is led here.
    fn lead_each<S: FactStore>(
        &self,
        acts: &mut Vec<RecoverAct>,
        store: &S,
        tx: &TxId,
        write_set: &[(Key, u64)],
    ) -> Result<(), Memory>
        ensures { (quorums : Sizes) (facts : List AFact) (recovering : Recovering) → S.stands store.now facts → RepresentsRecovering self.now quorums recovering
            → OnOk result (acts.new.items ≡ acts.old.items ++ keys_led quorums facts recovering tx.now write_set.now) }
    {
        for entry in write_set {
            if self.learner.learned(*tx, &entry.0).is_none() {
                acts.push(RecoverAct::LeadHere(self.claim_of_key(store, tx, entry)))?;
            }
        }
        Ok(())
    }

    // The claim of a transaction at a key, with the choice where a vote that was taken or an own
    // vote has it.
    fn claim_of_key<S: FactStore>(&self, store: &S, tx: &TxId, entry: &(Key, u64)) -> Claim
        ensures { (quorums : Sizes) (facts : List AFact) (recovering : Recovering) → S.stands store.now facts → RepresentsRecovering self.now quorums recovering
            → result ≡ claim_of_key facts recovering tx.now entry.now }
    {
        let (key, version) = *entry;
        let choice = match self.learner.accepted(*tx, &key, version) {
            Some(choice) => Some(choice),
            None => store.choice_of(&key, version, *tx),
        };
        Claim {
            tx: *tx,
            key,
            version,
            choice,
        }
    }

    /// Takes a vote on a watched transaction, and says what it decides with the others: Abort where
    /// one of its keys is rejected, Commit where all are accepted. Other votes change nothing.
    pub fn on_voted<S: FactStore>(
        &mut self,
        store: &S,
        cluster: &Cluster,
        vote: &Vote,
    ) -> Result<Option<(TxId, Outcome)>, Memory>
        ensures decided { (facts : List AFact) (recovering : Recovering) → S.stands store.now facts → RepresentsRecovering self.old cluster.now.quorums recovering
            → IfOk result (λ decided. decided ≡ (on_voted cluster.now.quorums facts recovering vote.now).0) }
        ensures ok { (facts : List AFact) (recovering : Recovering) → S.stands store.now facts → RepresentsRecovering self.old cluster.now.quorums recovering
            → OnOk result (RepresentsRecovering self.new cluster.now.quorums (on_voted cluster.now.quorums facts recovering vote.now).1) }
        ensures err { (quorums : Sizes) (recovering : Recovering) → RepresentsRecovering self.old quorums recovering
            → OnErr result (RepresentsRecovering self.new quorums recovering) }
    {
        match self.watched(store, &vote.tx) {
            Some(write_set) => {
                let decided = self.decided_with(&cluster.quorums, vote, &write_set);
                self.learner.take(&cluster.quorums, vote)?;
                Ok(decided)
            }
            None => Ok(None),
        }
    }

    /// What `on_voted` would answer. The vote is not taken.
    pub fn would_decide<S: FactStore>(
        &self,
        store: &S,
        cluster: &Cluster,
        vote: &Vote,
    ) -> Option<(TxId, Outcome)>
        ensures { (facts : List AFact) (recovering : Recovering) → S.stands store.now facts → RepresentsRecovering self.now cluster.now.quorums recovering
            → result ≡ would_decide cluster.now.quorums facts recovering vote.now }
    {
        match self.watched(store, &vote.tx) {
            Some(write_set) => self.decided_with(&cluster.quorums, vote, &write_set),
            None => None,
        }
    }

    // The write set of a transaction that is watched and not resolved.
    fn watched<S: FactStore>(&self, store: &S, tx: &TxId) -> Option<WriteSet>
        ensures { (quorums : Sizes) (facts : List AFact) (recovering : Recovering) → S.stands store.now facts → RepresentsRecovering self.now quorums recovering
            → option_map (λ write_set. map (λ e. e.0) write_set) result ≡ keys_watched facts recovering tx.now }
    {
        if counter_in(&self.counters, tx) < 2 {
            return None;
        }
        store.write_set(*tx)
    }

    // What the votes decide of a vote's transaction once the vote is taken.
    fn decided_with(
        &self,
        quorums: &Quorums,
        vote: &Vote,
        write_set: &WriteSet,
    ) -> Option<(TxId, Outcome)>
        ensures { (recovering : Recovering) → RepresentsRecovering self.now quorums.now recovering
            → result ≡ option_map (λ outcome. (vote.now.tx, outcome)) (decision_of quorums.now (watched_vote quorums.now recovering vote.now).votes vote.now.tx (map (λ e. e.0) write_set.now)) }
    {
        let outcome = decision_with(&self.learner, quorums, vote, write_set.as_slice())?;
        Some((vote.tx, outcome))
    }

    /// Lets the counter of a transaction and the votes on it go.
    pub fn close(&mut self, tx: TxId)
        ensures { (quorums : Sizes) (recovering : Recovering) → RepresentsRecovering self.old quorums recovering
            → RepresentsRecovering self.new quorums (recovery_closed recovering tx) }
    {
        forget(&mut self.counters, &tx);
        self.learner.forget(tx);
    }
}

// All centres are asked for their votes on a transaction at each of these keys.
fn ask_each(acts: &mut Vec<RecoverAct>, tx: &TxId, write_set: &[(Key, u64)]) -> Result<(), Memory>
    ensures { OnOk result (acts.new.items ≡ acts.old.items ++ map (ask_of tx.now) write_set.now) }
{
    for entry in write_set {
        acts.push(RecoverAct::Ask(*tx, entry.0, entry.1))?;
    }
    Ok(())
}
