//! What a leader keeps for a key.
ghost use Rattle.std.specs.Prelude.{◌≡◌, ◌+◌, ◌^◌, List, None, OnErr, OnOk, Some, if◌then◌else◌, max, nat_le, ◌≤◌};
ghost use Rattle.mdcc_base.specs.Unless.{GivesUnless};
ghost use Rattle.mdcc_leader.specs.Answers.{answer_alone, is_lead_memory, left};
ghost use Rattle.mdcc_leader.specs.Extending.{begun_with};
ghost use Rattle.mdcc_leader.specs.Leads.{KeepsLead};
ghost use Rattle.mdcc_def_messages.specs.declared.facts.Fact.{Fact as AFact};
ghost use Rattle.mdcc_def_protocol.specs.Leader.{led_anew, led_by, promise_taken, with_refused};
ghost use Rattle.mdcc_def_protocol.specs.Volatile.{Leading};

use crate::lead::Lead;
use mdcc_base::{Ballot, Centre};
use mdcc_def_protocol::{LeadAnswer, LeadFault, Promise, PromiseAnswer};
use mdcc_facts::FactStore;
use mdcc_option::{Claim, Cluster};
use std::alloc::Global;

/// The last lead of a key, and the greatest round that was refused there.
#[derive(Drop)]
pub(crate) struct Led {
    pub(crate) lead: Lead,
    pub(crate) refused_round: u32,
}

// The round of a new lead: one above this centre's promise for the instance, the greatest refused
// round and that of the last lead.
fn next_round(promise: &Ballot, refused: u32, last: u32) -> Option<u32>
    ensures { let round = 1 + max promise.now.round (max refused last) in
        result ≡ (if nat_le (2 ^ 32) round then None else Some round) }
{
    promise.round.max(refused.max(last)).checked_add(1)
}

/// A new lead for a claim, above these rounds.
pub(crate) fn begin<S: FactStore>(
    alloc: Global,
    centre: Centre,
    epoch: u32,
    store: &S,
    cluster: &Cluster,
    claim: &Claim,
    rounds: (u32, u32),
) -> Result<Lead, LeadFault>
    ensures { (facts : List AFact) → S.stands store.now facts
        → GivesUnless is_lead_memory result (begun_with cluster.now centre epoch facts rounds.0 rounds.1 claim.now) }
{
    let promise = store.promise(&claim.key, claim.version);
    match next_round(&promise, rounds.0, rounds.1) {
        Some(round) => Ok(Lead::begin(alloc, centre, epoch, cluster, claim, round)?),
        None => Err(LeadFault::Exhausted),
    }
}

impl Led {
    /// Takes a claim.
    pub(crate) fn take<S: FactStore>(
        &mut self,
        alloc: Global,
        centre: Centre,
        epoch: u32,
        store: &S,
        cluster: &Cluster,
        claim: &Claim,
    ) -> Result<LeadAnswer, LeadFault>
        ensures answer { (facts : List AFact) (leading : Leading) → S.stands store.now facts
            → KeepsLead cluster.now.quorums leading claim.now.key (Some self.old)
            → GivesUnless is_lead_memory result (answer_alone (led_by cluster.now centre epoch facts leading claim.now (Some self.old.lead))) }
        ensures ok { (facts : List AFact) (leading : Leading) → S.stands store.now facts
            → KeepsLead cluster.now.quorums leading claim.now.key (Some self.old)
            → OnOk result (KeepsLead cluster.now.quorums (left leading (led_by cluster.now centre epoch facts leading claim.now (Some self.old.lead))) claim.now.key (Some self.new)) }
        ensures err { OnErr result (self.new ≡ self.old) }
    {
        if self.lead.is_refused() {
            return self.replace(alloc, centre, epoch, store, cluster, claim);
        }
        if self.lead.is_covered(&cluster.quorums, claim.version) {
            return Ok(self.lead.extend(alloc, store, cluster, claim)?);
        }
        if self.lead.is_waiting(claim.version) {
            self.lead.await_claim(claim)?;
            return Ok(self.lead.prepare());
        }
        self.replace(alloc, centre, epoch, store, cluster, claim)
    }

    // A new lead takes the place of this one.
    fn replace<S: FactStore>(
        &mut self,
        alloc: Global,
        centre: Centre,
        epoch: u32,
        store: &S,
        cluster: &Cluster,
        claim: &Claim,
    ) -> Result<LeadAnswer, LeadFault>
        ensures answer { (facts : List AFact) (leading : Leading) → S.stands store.now facts
            → KeepsLead cluster.now.quorums leading claim.now.key (Some self.old)
            → GivesUnless is_lead_memory result (answer_alone (led_anew cluster.now centre epoch facts leading claim.now)) }
        ensures ok { (facts : List AFact) (leading : Leading) → S.stands store.now facts
            → KeepsLead cluster.now.quorums leading claim.now.key (Some self.old)
            → OnOk result (KeepsLead cluster.now.quorums (left leading (led_anew cluster.now centre epoch facts leading claim.now)) claim.now.key (Some self.new)) }
        ensures err { OnErr result (self.new ≡ self.old) }
    {
        let rounds = (self.refused_round, self.lead.round());
        self.lead = begin(alloc, centre, epoch, store, cluster, claim, rounds)?;
        Ok(self.lead.prepare())
    }

    /// Takes a promise. No more count than the cluster has centres.
    pub(crate) fn count<S: FactStore>(
        &mut self,
        alloc: Global,
        store: &S,
        cluster: &Cluster,
        from: Centre,
        promise: &Promise,
    ) -> Result<PromiseAnswer, LeadFault>
        requires { from ≤ cluster.now.quorums.centres }
        ensures answer { (facts : List AFact) (leading : Leading) → S.stands store.now facts
            → KeepsLead cluster.now.quorums leading promise.now.key (Some self.old)
            → GivesUnless is_lead_memory result (answer_alone (promise_taken cluster.now facts leading from promise.now (Some self.old.lead))) }
        ensures ok { (facts : List AFact) (leading : Leading) → S.stands store.now facts
            → KeepsLead cluster.now.quorums leading promise.now.key (Some self.old)
            → OnOk result (KeepsLead cluster.now.quorums (left leading (promise_taken cluster.now facts leading from promise.now (Some self.old.lead))) promise.now.key (Some self.new)) }
        ensures err { OnErr result (self.new ≡ self.old) }
    {
        let _number = from.number();
        let is_full = self.lead.promises() >= usize::from(cluster.quorums.centres());
        if is_full {
            return Ok(PromiseAnswer::Ignored);
        }
        if !self.lead.is_promise_counted(from, promise) {
            return Ok(PromiseAnswer::Ignored);
        }
        self.lead.count(alloc, store, cluster, from, promise)
    }

    /// Hears that this ballot was refused for one of this round.
    pub(crate) fn refuse(&mut self, ballot: &Ballot, round: u32)
        ensures lead { self.new.lead ≡ with_refused self.old.lead ballot.now }
        ensures refused { self.new.refused_round ≡ max self.old.refused_round round }
    {
        self.lead.refuse(ballot);
        self.refused_round = self.refused_round.max(round);
    }
}
