//! One node.
ghost use Rattle.std.specs.Prelude.{◌≡◌, ◌≤◌, ◌∷◌, List, ℕ, OnErr, OnOk, Some, false, true};
ghost use Rattle.mdcc_base.specs.Unless.{GivesUnless};
ghost use Rattle.mdcc_def_messages.specs.WellFormed.{IsWellFormedEnvelope, IsWellFormedMessage};
ghost use Rattle.mdcc_def_messages.specs.declared.facts.Fact.{Fact as AFact};
ghost use Rattle.mdcc_node.specs.MethodEffects.{Does, Follows, closed_if_ended};
ghost use Rattle.mdcc_node.specs.StepPlans.{FitsFrame, IsNews, MayFollow, PlanFitsFrame, Plans, blank, is_asked_by_leader, is_for_leader, is_of_fast_path, unless_refused};
ghost use Rattle.mdcc_node.specs.NodeHistory.{IsRunning};
ghost use Rattle.mdcc_node.specs.Represents.{RepresentsCentre};
ghost use Rattle.mdcc_node.specs.StepAnswers.{IsInputGiven, add_given, if_plan_added, is_step_memory, step_by, store_result};
ghost use Rattle.mdcc_option.specs.declared.cluster.Cluster.{Cluster as ACluster};
ghost use Rattle.mdcc_def_protocol.specs.Belongs.{is_centre};
ghost use Rattle.mdcc_def_protocol.specs.Facts.{epoch_of};
ghost use Rattle.mdcc_def_protocol.specs.Volatile.{Volatile as AVolatile, closed};
ghost use Rattle.mdcc_def_rules.specs.Node.{message_step};
ghost use Rattle.mdcc_def_rules.specs.Steps.{heard_by, with_new};
ghost use Rattle.mdcc_def_rules.specs.declared.node.Input.{Input as AInput};
ghost use Rattle.mdcc_theorem_node_steps.specs.NodeInvariant.{accept_length};
ghost use Rattle.mdcc_def_rules.specs.Here.{here};

use crate::steps::{blank, heard_by};
use mdcc_base::{Centre, Plain, TxId};
use mdcc_def_messages::{Envelope, Fact, Message};
use mdcc_def_protocol::{Give, Promise, Vote};
use mdcc_def_rules::{Answer, Input, Step, StepFault};
use mdcc_facts::FactStore;
use mdcc_leader::Leader;
use mdcc_manager::Manager;
use mdcc_node_sends::sender_of;
use mdcc_option::Cluster;
use mdcc_recover::Recover;
use mdcc_visible::read;
use std::alloc::Global;

/// The node of one centre, over a store of its facts.
#[derive(Drop)]
pub struct Node<S> {
    pub(crate) alloc: Global,
    pub(crate) cluster: Cluster,
    pub(crate) centre: Centre,
    pub(crate) store: S,
    pub(crate) manager: Manager,
    pub(crate) leader: Leader,
    pub(crate) recover: Recover,
}

impl<S: FactStore + Drop> Node<S> {
    /// The epoch of the node's last boot.
    pub fn epoch(&self) -> u32
        ensures { (cluster : ACluster) (me : ℕ) (facts : List AFact) (volatile : AVolatile)
            → RepresentsCentre S.stands self.now cluster me facts volatile → result ≡ epoch_of facts }
    {
        self.store.epoch()
    }

    // Adds a fact, and closes the transaction whose end it tells.
    fn add(&mut self, fact: &Fact) -> Result<(), StepFault>
        requires news { (facts : List AFact) → S.stands self.old.store facts → IsNews facts fact.now }
        requires fits { FitsFrame fact.now }
        requires no_boot { (facts : List AFact) → S.stands self.old.store facts → epoch_of (fact.now ∷ facts) ≡ epoch_of facts }
        ensures answer { (facts : List AFact) → S.stands self.old.store facts
            → GivesUnless is_step_memory result (add_given (store_result (S.cells self.old.store) facts fact.now)) }
        ensures ok { (cluster : ACluster) (me : ℕ) (facts : List AFact) (volatile : AVolatile) → RepresentsCentre S.stands self.old cluster me facts volatile
            → OnOk result (RepresentsCentre S.stands self.new cluster me (fact.now ∷ facts) (closed_if_ended (heard_by (Some fact.now)) volatile)) }
        ensures err { (cluster : ACluster) (me : ℕ) (facts : List AFact) (volatile : AVolatile) → RepresentsCentre S.stands self.old cluster me facts volatile
            → OnErr result (RepresentsCentre S.stands self.new cluster me facts volatile) }
        ensures left { (facts : List AFact) → S.stands self.old.store facts → OnErr result (S.stands self.new.store facts) }
        ensures cells { S.cells self.new.store ≡ S.cells self.old.store }
    {
        self.store.add(fact)?;
        if let Fact::Heard { tx, .. } = fact {
            self.close(*tx);
        }
        Ok(())
    }

    // A transaction has ended: nothing is done for it any more.
    fn close(&mut self, tx: TxId)
        ensures closed { (cluster : ACluster) (me : ℕ) (facts : List AFact) (volatile : AVolatile) → RepresentsCentre S.stands self.old cluster me facts volatile
            → RepresentsCentre S.stands self.new cluster me facts (closed volatile tx) }
        ensures store { self.new.store ≡ self.old.store }
    {
        self.manager.close(tx);
        self.recover.close(tx);
    }

    // Adds the fact of a planned step, if there is one.
    fn add_planned(&mut self, step: &mut Step) -> Result<(), StepFault>
        requires follows { (facts : List AFact) → S.stands self.old.store facts → MayFollow facts step.old.fact }
        requires fits { PlanFitsFrame step.old.fact }
        ensures answer { (facts : List AFact) → S.stands self.old.store facts
            → GivesUnless is_step_memory (unless_refused result step.new) (if_plan_added (S.cells self.old.store) facts step.old step.old.fact) }
        ensures ok { (cluster : ACluster) (me : ℕ) (facts : List AFact) (volatile : AVolatile) → RepresentsCentre S.stands self.old cluster me facts volatile
            → OnOk result (RepresentsCentre S.stands self.new cluster me (with_new facts step.old.fact) (closed_if_ended (heard_by step.old.fact) volatile)) }
        ensures err { (cluster : ACluster) (me : ℕ) (facts : List AFact) (volatile : AVolatile) → RepresentsCentre S.stands self.old cluster me facts volatile
            → OnErr result (RepresentsCentre S.stands self.new cluster me facts volatile) }
        ensures left { (facts : List AFact) → S.stands self.old.store facts → OnErr result (S.stands self.new.store facts) }
        ensures cells { S.cells self.new.store ≡ S.cells self.old.store }
    {
        if let Some(fact) = &step.fact {
            self.add(fact)?;
            let heard = heard_by(fact);
            step.heard = heard;
        }
        Ok(())
    }

    // A centre asks for an outcome or a vote, or for what is held of a key, or gives it; or it tells
    // that a transaction is finished; or a message that this node does not take.
    fn take_sync(
        &mut self,
        from: Centre,
        message: &Message,
        step: &mut Step,
    ) -> Result<(), StepFault>
        requires other { is_of_fast_path message.now ≡ false }
        requires left { is_asked_by_leader message.now ≡ false }
        requires led { is_for_leader message.now ≡ false }
        requires blank { step.old ≡ blank }
        ensures plan { Plans S.stands self.old (unless_refused result step.new) self.new (λ cluster me facts volatile. message_step (here cluster me facts) volatile from message.now) }
        ensures fact { (facts : List AFact) → S.stands self.old.store facts → OnOk result (MayFollow facts step.new.fact) }
    {
        match message {
            Message::Ask { tx, key, version } => {
                self.asked(from.number(), *tx, key, *version, step)?;
                Ok(())
            }
            Message::SyncAsk(key) => {
                self.give(from.number(), key, &mut step.sends)?;
                Ok(())
            }
            Message::SyncGive {
                key,
                version,
                item,
                adds,
            } => {
                let give = Give {
                    key: *key,
                    version: *version,
                    item: item.copy(),
                    adds: adds.copy(self.alloc)?,
                };
                self.adopt(&give, step)?;
                Ok(())
            }
            Message::Finished(tx) => {
                self.close(*tx);
                Ok(())
            }
            _ => Ok(()),
        }
    }

    // A message to this node's leader came, or one that this node does not take.
    fn take_led(
        &mut self,
        from: Centre,
        message: &Message,
        step: &mut Step,
    ) -> Result<(), StepFault>
        requires other { is_of_fast_path message.now ≡ false }
        requires left { is_asked_by_leader message.now ≡ false }
        requires member { from ≤ self.old.cluster.quorums.centres }
        requires blank { step.old ≡ blank }
        ensures plan { Plans S.stands self.old (unless_refused result step.new) self.new (λ cluster me facts volatile. message_step (here cluster me facts) volatile from message.now) }
        ensures fact { (facts : List AFact) → S.stands self.old.store facts → OnOk result (MayFollow facts step.new.fact) }
    {
        match message {
            Message::Lead(choice) => self.lead(from.number(), choice, &mut step.sends),
            Message::Promise {
                key,
                version,
                through,
                ballot,
                reported,
                votes,
            } => {
                let promise = Promise {
                    key: *key,
                    version: *version,
                    through: *through,
                    ballot: *ballot,
                    reported: *reported,
                    votes: votes.copy(self.alloc)?,
                };
                self.take_promise(from, &promise, &mut step.sends)
            }
            Message::Refused {
                key,
                ballot,
                promised,
                ..
            } => {
                self.take_refusal(key, *ballot, *promised);
                Ok(())
            }
            _ => self.take_sync(from, message, step),
        }
    }

    // A message of classic ballots came, or one that this node does not take.
    fn take_classic(
        &mut self,
        from: Centre,
        message: &Message,
        step: &mut Step,
    ) -> Result<(), StepFault>
        requires other { is_of_fast_path message.now ≡ false }
        requires member { from ≤ self.old.cluster.quorums.centres }
        requires blank { step.old ≡ blank }
        ensures plan { Plans S.stands self.old (unless_refused result step.new) self.new (λ cluster me facts volatile. message_step (here cluster me facts) volatile from message.now) }
        ensures fact { (facts : List AFact) → S.stands self.old.store facts → OnOk result (MayFollow facts step.new.fact) }
    {
        match message {
            Message::Prepare {
                key,
                version,
                through,
                ballot,
            } => {
                self.prepare(from.number(), key, *version, *through, *ballot, step)?;
                Ok(())
            }
            Message::Accept {
                key,
                version,
                ballot,
                options,
            } => {
                self.accept(from.number(), key, *version, *ballot, options, step)?;
                Ok(())
            }
            _ => self.take_led(from, message, step),
        }
    }

    // A message of the cluster came to this node: what it plans.
    fn take(&mut self, from: Centre, message: &Message, step: &mut Step) -> Result<(), StepFault>
        requires message { IsWellFormedMessage message.now }
        requires member { from ≤ self.old.cluster.quorums.centres }
        requires blank { step.old ≡ blank }
        ensures plan { Plans S.stands self.old (unless_refused result step.new) self.new (λ cluster me facts volatile. message_step (here cluster me facts) volatile from message.now) }
        ensures fact { (facts : List AFact) → S.stands self.old.store facts → OnOk result (MayFollow facts step.new.fact) }
    {
        match message {
            Message::Propose(choice) => {
                self.propose(from.number(), choice, step)?;
                Ok(())
            }
            Message::Voted {
                key,
                version,
                ballot,
                tx,
                mark,
            } => {
                let vote = Vote {
                    from,
                    key: *key,
                    version: *version,
                    ballot: *ballot,
                    tx: *tx,
                    mark: mark.copy(),
                };
                self.voted(&vote, step)
            }
            Message::Escalate { key, tx, cause, .. } => {
                self.escalate(from, key, *tx, *cause, &mut step.sends)
            }
            Message::Outcome { tx, outcome } => {
                self.hear(*tx, outcome, step);
                Ok(())
            }
            _ => self.take_classic(from, message, step),
        }
    }

    // A message of the cluster came to this node.
    fn receive(&mut self, from: Centre, message: &Message, step: &mut Step) -> Result<(), StepFault>
        requires message { IsWellFormedMessage message.now }
        requires short { accept_length message.now ≤ 2097152 }
        requires centre { is_centre self.old.cluster from ≡ true }
        requires running { IsRunning S.stands self.old }
        requires member { from ≤ self.old.cluster.quorums.centres }
        requires blank { step.old ≡ blank }
        ensures does { Does S.stands S.cells self.old (unless_refused result step.new) self.new (λ cluster me facts volatile. message_step (here cluster me facts) volatile from message.now) }
        ensures cells { S.cells self.new.store ≡ S.cells self.old.store }
    {
        self.take(from, message, step)?;
        self.add_planned(step)
    }

    /// A message came: what the node does is written into a blank step, as that of `step`. It is refused where it is for
    /// another centre or not of the cluster.
    pub fn deliver(&mut self, envelope: &Envelope, step: &mut Step) -> Result<(), StepFault>
        requires message { IsWellFormedEnvelope envelope.now }
        requires short { accept_length envelope.now.message ≤ 2097152 }
        requires running { IsRunning S.stands self.old }
        requires blank { step.old ≡ blank }
        ensures follows { Follows S.stands self.old (unless_refused result step.new) self.new (λ cluster me facts volatile. step_by (S.cells self.old.store) cluster me facts volatile (AInput.Message envelope.now)) }
        ensures cells { S.cells self.new.store ≡ S.cells self.old.store }
    {
        match sender_of(&self.cluster, self.centre.number(), envelope) {
            Some(from) => self.receive(from, &envelope.message, step),
            None => Err(StepFault::Foreign),
        }
    }

    /// What an input does, written into a blank step.
    pub fn act_on(&mut self, input: &Input, step: &mut Step) -> Result<(), StepFault>
        requires input { IsInputGiven input.now }
        requires running { IsRunning S.stands self.old }
        requires blank { step.old ≡ blank }
        ensures follows { Follows S.stands self.old (unless_refused result step.new) self.new (λ cluster me facts volatile. step_by (S.cells self.old.store) cluster me facts volatile input.now) }
        ensures cells { S.cells self.new.store ≡ S.cells self.old.store }
    {
        match input {
            Input::Message(envelope) => self.deliver(envelope, step),
            Input::Tick => self.tick(&mut step.sends),
            // A node tells no other how far it has heard yet.
            Input::Sweep => Ok(()),
            Input::Read(key) => {
                step.answer = Some(Answer::Read(read(&self.store, key)));
                Ok(())
            }
            Input::Begin(transaction) => self.begin(transaction, step),
        }
    }

    /// One input: at most one fact, the messages in order, and the answer to a client. The caller
    /// makes the fact durable before it lets anything out. A transaction was made under the
    /// cluster's schema, and an Accept has at most 2,097,152 bytes. A message is refused where it is for another centre or not of the cluster,
    /// where its fact is, and where the leader refuses it. After a refusal the node is as it was, but
    /// where there was no memory only its facts are, and it is to be booted again.
    pub fn step(&mut self, input: &Input) -> Result<Step, StepFault>
        requires input { IsInputGiven input.now }
        requires running { IsRunning S.stands self.old }
        ensures follows { Follows S.stands self.old result self.new (λ cluster me facts volatile. step_by (S.cells self.old.store) cluster me facts volatile input.now) }
        ensures cells { S.cells self.new.store ≡ S.cells self.old.store }
    {
        let mut step = blank(self.alloc);
        self.act_on(input, &mut step)?;
        Ok(step)
    }
}
