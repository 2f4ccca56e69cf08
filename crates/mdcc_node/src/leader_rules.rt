//! The node's rules around its leader: claims, promises and refusals, and the open transactions at a tick.
ghost use Rattle.std.specs.Prelude.{◌≡◌, ◌≤◌, List, None, Ok, ℕ};
ghost use Rattle.mdcc_def_messages.specs.declared.facts.Fact.{Fact as AFact};
ghost use Rattle.mdcc_node.specs.StepPlans.{Acts, left_out, unless_refused};
ghost use Rattle.mdcc_node.specs.Represents.{RepresentsCentre};
ghost use Rattle.mdcc_option.specs.declared.cluster.Cluster.{Cluster as ACluster};
ghost use Rattle.mdcc_def_protocol.specs.Volatile.{Volatile as AVolatile};
ghost use Rattle.mdcc_def_rules.specs.LeaderRules.{lead_step, lead_step_after, led_of, promise_step, refused_step, step_of_led};
ghost use Rattle.mdcc_def_rules.specs.Steps.{step_of_part};
ghost use Rattle.mdcc_def_rules.specs.TickRules.{claim_led, manager_act, manager_ticked};
ghost use Rattle.mdcc_def_rules.specs.Here.{here};

use crate::node::Node;
use crate::steps::claim_of;
use mdcc_base::{Ballot, Centre, HeapList, Key};
use mdcc_def_messages::{Envelope, Message};
use mdcc_def_protocol::{LeadFault, ManagerAct, Promise};
use mdcc_def_rules::StepFault;
use mdcc_facts::FactStore;
use mdcc_node_sends::{propose, send, send_lead, send_promised};
use mdcc_option::{Choice, Claim};

impl<S: FactStore + Drop> Node<S> {
    // A claim is led here.
    fn lead_claim(&mut self, claim: &Claim, sends: &mut HeapList<Envelope>) -> Result<(), StepFault>
        ensures { Acts S.stands self.old sends.old (unless_refused result sends.new) self.new (λ cluster me facts volatile. step_of_led (led_of (here cluster me facts) volatile claim.now)) }
    {
        let answer = self.leader.lead(&self.store, &self.cluster, claim)?;
        let (quorums, centre) = (&self.cluster.quorums, self.centre.number());
        send_lead(self.alloc, quorums, centre, claim, &answer, sends)?;
        Ok(())
    }

    // A manager asks for a mark.
    pub(crate) fn lead(
        &mut self,
        from: u8,
        choice: &Choice,
        sends: &mut HeapList<Envelope>,
    ) -> Result<(), StepFault>
        ensures { Acts S.stands self.old sends.old (unless_refused result sends.new) self.new (λ cluster me facts volatile. lead_step (here cluster me facts) volatile from choice.now) }
    {
        match self.store.heard(choice.tx) {
            Some(outcome) => {
                let message = Message::Outcome {
                    tx: choice.tx,
                    outcome,
                };
                send(self.alloc, self.centre.number(), from, message, sends)?;
                Ok(())
            }
            None => self.lead_open(from, choice, sends),
        }
    }

    // The same where no outcome of its transaction is kept: it may be finished.
    fn lead_open(
        &mut self,
        from: u8,
        choice: &Choice,
        sends: &mut HeapList<Envelope>,
    ) -> Result<(), StepFault>
        ensures { Acts S.stands self.old sends.old (unless_refused result sends.new) self.new (λ cluster me facts volatile. lead_step_after (here cluster me facts) volatile from choice.now None) }
    {
        if self.store.finished(choice.tx) {
            self.send_finished(from, choice.tx, sends)?;
            return Ok(());
        }
        self.lead_claim(&claim_of(choice), sends)
    }

    // A centre promised a ballot that is led here.
    pub(crate) fn take_promise(
        &mut self,
        from: Centre,
        promise: &Promise,
        sends: &mut HeapList<Envelope>,
    ) -> Result<(), StepFault>
        requires { from ≤ self.old.cluster.quorums.centres }
        ensures { Acts S.stands self.old sends.old (unless_refused result sends.new) self.new (λ cluster me facts volatile. promise_step (here cluster me facts) volatile from promise.now) }
    {
        let (store, cluster) = (&self.store, &self.cluster);
        let answer = self.leader.on_promise(store, cluster, from, promise)?;
        let (quorums, centre) = (&self.cluster.quorums, self.centre.number());
        send_promised(self.alloc, quorums, centre, &promise.key, &answer, sends)?;
        Ok(())
    }

    // A centre promised another ballot than one that is led here.
    pub(crate) fn take_refusal(&mut self, key: &Key, ballot: Ballot, promised: Ballot)
        ensures left { (cluster : ACluster) (me : ℕ) (facts : List AFact) (volatile : AVolatile) → RepresentsCentre S.stands self.old cluster me facts volatile
            → RepresentsCentre S.stands self.new cluster me facts (refused_step volatile key.now ballot promised).after }
        ensures store { self.new.store ≡ self.old.store }
    {
        self.leader.on_refused(key, ballot, promised);
    }

    // ---- the tick

    // A claim is led here; one that the leader refuses is left out.
    pub(crate) fn lead_or_leave(
        &mut self,
        claim: &Claim,
        sends: &mut HeapList<Envelope>,
    ) -> Result<(), StepFault>
        ensures { Acts S.stands self.old sends.old (unless_refused result sends.new) self.new (λ cluster me facts volatile. Ok (step_of_part (claim_led (here cluster me facts) volatile claim.now))) }
    {
        match self.leader.lead(&self.store, &self.cluster, claim) {
            Ok(answer) => {
                let (quorums, centre) = (&self.cluster.quorums, self.centre.number());
                send_lead(self.alloc, quorums, centre, claim, &answer, sends)?;
                Ok(())
            }
            Err(fault) => leave_out(fault),
        }
    }

    // What the manager wants done at a tick.
    fn act(&mut self, act: &ManagerAct, sends: &mut HeapList<Envelope>) -> Result<(), StepFault>
        ensures { Acts S.stands self.old sends.old (unless_refused result sends.new) self.new (λ cluster me facts volatile. Ok (step_of_part (manager_act (here cluster me facts) volatile act.now))) }
    {
        match act {
            ManagerAct::Propose(choice) => {
                propose(
                    self.alloc,
                    &self.cluster.quorums,
                    self.centre.number(),
                    choice,
                    sends,
                )?;
                Ok(())
            }
            ManagerAct::LeadHere(choice) => self.lead_or_leave(&claim_of(choice), sends),
            _ => Ok(()),
        }
    }

    // Time has passed for the open transactions. Each act sees the leader that those before it left.
    pub(crate) fn tick_opened(&mut self, sends: &mut HeapList<Envelope>) -> Result<(), StepFault>
        ensures { Acts S.stands self.old sends.old (unless_refused result sends.new) self.new (λ cluster me facts volatile. Ok (step_of_part (manager_ticked (here cluster me facts) volatile))) }
    {
        let acts = self.manager.tick()?;
        for act in &acts {
            self.act(act, sends)?;
        }
        Ok(())
    }
}

// A claim that is refused is left out, but for want of memory.
fn leave_out(fault: LeadFault) -> Result<(), StepFault>
    ensures { result ≡ left_out fault }
{
    match fault {
        LeadFault::Memory => Err(StepFault::Memory),
        _ => Ok(()),
    }
}
