//! The node's rules around its manager: begins, votes, and acceptors that give no vote.
ghost use Rattle.std.specs.Prelude.{◌≡◌, ◌++◌, List, None, Ok, OnOk, false, is_some, true, ℕ};
ghost use Rattle.mdcc_base.specs.Unless.{GivesUnless};
ghost use Rattle.mdcc_def_messages.specs.WellFormedParts.{IsWellFormedCause};
ghost use Rattle.mdcc_def_messages.specs.declared.facts.Fact.{Fact as AFact};
ghost use Rattle.mdcc_node.specs.MethodEffects.{Follows};
ghost use Rattle.mdcc_node.specs.StepPlans.{Acts, MayFollow, Plans, blank, planned, unless_refused};
ghost use Rattle.mdcc_node.specs.StepAnswers.{is_step_memory};
ghost use Rattle.mdcc_node.specs.StepParts.{refused_given, replied};
ghost use Rattle.mdcc_node.specs.Represents.{RepresentsCentre};
ghost use Rattle.mdcc_option.specs.Transaction.{choices_of};
ghost use Rattle.mdcc_option.specs.declared.cluster.Cluster.{Cluster as ACluster};
ghost use Rattle.mdcc_def_protocol.specs.Facts.{is_settled};
ghost use Rattle.mdcc_def_protocol.specs.Manager.{key_refused as key_refused_of, would_decide};
ghost use Rattle.mdcc_def_protocol.specs.Volatile.{Volatile as AVolatile};
ghost use Rattle.mdcc_def_rules.specs.ManagerRules.{act_sent, begin_step, decided_step, escalate_step, opened_step, proposals_sent, voted_step};
ghost use Rattle.mdcc_def_rules.specs.SyncRules.{outcome_step};
ghost use Rattle.mdcc_def_rules.specs.declared.node.Answer.{Answer as AnAnswer};
ghost use Rattle.mdcc_def_rules.specs.Here.{here};

use crate::node::Node;
use mdcc_base::{Centre, HeapList, Key, Memory, Plain, TxId};
use mdcc_def_messages::{Envelope, Fact, Message};
use mdcc_def_protocol::{ManagerAct, Vote};
use mdcc_def_rules::{Answer, Step, StepFault};
use mdcc_facts::FactStore;
use mdcc_manager::key_refused;
use mdcc_node_sends::{propose_each, send, tell_others};
use mdcc_option::{BeginFault, Cause, Outcome, Transaction};
use mdcc_visible::on_outcome;

impl<S: FactStore + Drop> Node<S> {
    // ---- begins

    // The transaction was begun.
    fn begun(&self, tx: TxId, transaction: &Transaction, step: &mut Step) -> Result<(), StepFault>
        requires { step.old ≡ blank }
        ensures answer { GivesUnless is_step_memory (unless_refused result step.new)
            (Ok (replied (proposals_sent self.now.cluster.quorums self.now.centre (choices_of tx transaction.now)) (AnAnswer.Begun tx))) }
        ensures fact { step.new.fact ≡ step.old.fact }
    {
        let choices = transaction.choices(tx);
        let (quorums, centre) = (&self.cluster.quorums, self.centre.number());
        propose_each(
            self.alloc,
            quorums,
            centre,
            choices.as_slice(),
            &mut step.sends,
        )?;
        step.answer = Some(Answer::Begun(tx));
        Ok(())
    }

    // No transaction was begun.
    fn refused(
        &self,
        transaction: &Transaction,
        fault: BeginFault,
        step: &mut Step,
    ) -> Result<(), StepFault>
        requires { step.old ≡ blank }
        ensures answer { (facts : List AFact) → S.stands self.now.store facts
            → unless_refused result step.new ≡ refused_given (key_refused_of facts transaction.now) fault }
        ensures fact { step.new.fact ≡ step.old.fact }
    {
        match fault {
            BeginFault::Memory => Err(StepFault::Memory),
            fault => {
                let key = key_refused(&self.store, transaction);
                step.answer = Some(Answer::Refused(key, fault));
                Ok(())
            }
        }
    }

    // A client begins a transaction.
    pub(crate) fn begin(
        &mut self,
        transaction: &Transaction,
        step: &mut Step,
    ) -> Result<(), StepFault>
        requires { step.old ≡ blank }
        ensures follows { Follows S.stands self.old (unless_refused result step.new) self.new (λ cluster me facts volatile. Ok (begin_step (here cluster me facts) volatile transaction.now)) }
        ensures fact { step.new.fact ≡ None }
        ensures store { self.new.store ≡ self.old.store }
    {
        match self.manager.begin(&self.store, transaction) {
            Ok(tx) => self.begun(tx, transaction, step),
            Err(fault) => self.refused(transaction, fault, step),
        }
    }

    // ---- acts

    // What an act of the manager sends.
    fn send_act(
        &self,
        act: &Option<ManagerAct>,
        sends: &mut HeapList<Envelope>,
    ) -> Result<(), Memory>
        ensures { (facts : List AFact) → S.stands self.now.store facts
            → OnOk result (sends.new ≡ sends.old ++ act_sent self.now.centre facts act.now) }
    {
        match act {
            Some(ManagerAct::Lead(leader, choice)) => {
                let message = Message::Lead(choice.copy());
                send(
                    self.alloc,
                    self.centre.number(),
                    leader.number(),
                    message,
                    sends,
                )
            }
            Some(ManagerAct::Give(centre, key)) => self.give(centre.number(), key, sends),
            _ => Ok(()),
        }
    }

    // ---- votes

    // A transaction that is not settled is decided here.
    pub(crate) fn decide(&self, tx: TxId, outcome: Outcome, step: &mut Step) -> Result<(), Memory>
        requires { step.old ≡ blank }
        ensures { (volatile : AVolatile) → OnOk result (step.new ≡ planned (decided_step self.now.cluster self.now.centre volatile tx outcome)) }
    {
        let (quorums, centre) = (&self.cluster.quorums, self.centre.number());
        tell_others(self.alloc, quorums, centre, tx, &outcome, &mut step.sends)?;
        step.fact = Some(Fact::Heard { tx, outcome });
        Ok(())
    }

    // A vote on an open transaction that decides nothing.
    fn undecided(&mut self, vote: &Vote, sends: &mut HeapList<Envelope>) -> Result<(), StepFault>
        requires { (cluster : ACluster) (me : ℕ) (facts : List AFact) (volatile : AVolatile) → RepresentsCentre S.stands self.old cluster me facts volatile
            → would_decide cluster.quorums volatile.manager vote.now ≡ None }
        ensures { Acts S.stands self.old sends.old (unless_refused result sends.new) self.new (λ cluster me facts volatile. Ok (opened_step (here cluster me facts) volatile vote.now (would_decide cluster.quorums volatile.manager vote.now))) }
    {
        let mut act = None;
        self.manager.answer_vote(&self.cluster, vote, &mut act)?;
        self.send_act(&act, sends)?;
        Ok(())
    }

    // A vote on an open transaction that is not settled decides it.
    #[inline(never)]
    fn decided(&self, vote: &Vote, step: &mut Step) -> Result<(), StepFault>
        requires blank { step.old ≡ blank }
        requires unsettled { (facts : List AFact) → S.stands self.now.store facts → is_settled facts vote.now.tx ≡ false }
        requires ends { (cluster : ACluster) (me : ℕ) (facts : List AFact) (volatile : AVolatile) → RepresentsCentre S.stands self.now cluster me facts volatile
            → is_some (would_decide cluster.quorums volatile.manager vote.now) ≡ true }
        ensures plan { Plans S.stands self.now (unless_refused result step.new) self.now (λ cluster me facts volatile. Ok (opened_step (here cluster me facts) volatile vote.now (would_decide cluster.quorums volatile.manager vote.now))) }
        ensures fact { (facts : List AFact) → S.stands self.now.store facts → OnOk result (MayFollow facts step.new.fact) }
    {
        match self.manager.would_decide(&self.cluster, vote) {
            Some(outcome) => {
                self.decide(vote.tx, outcome, step)?;
                Ok(())
            }
            None => Ok(()),
        }
    }

    // A vote on an open transaction that is not settled. One that decides is not taken, since its
    // transaction is closed.
    fn opened(&mut self, vote: &Vote, step: &mut Step) -> Result<(), StepFault>
        requires blank { step.old ≡ blank }
        requires unsettled { (facts : List AFact) → S.stands self.old.store facts → is_settled facts vote.now.tx ≡ false }
        ensures plan { Plans S.stands self.old (unless_refused result step.new) self.new (λ cluster me facts volatile. Ok (opened_step (here cluster me facts) volatile vote.now (would_decide cluster.quorums volatile.manager vote.now))) }
        ensures fact { (facts : List AFact) → S.stands self.old.store facts → OnOk result (MayFollow facts step.new.fact) }
    {
        if self.manager.would_end(&self.cluster, vote) {
            self.decided(vote, step)
        } else {
            self.undecided(vote, &mut step.sends)
        }
    }

    // A vote came. One on a transaction that was heard or is finished, or that is neither open nor
    // watched here, changes nothing.
    pub(crate) fn voted(&mut self, vote: &Vote, step: &mut Step) -> Result<(), StepFault>
        requires { step.old ≡ blank }
        ensures plan { Plans S.stands self.old (unless_refused result step.new) self.new (λ cluster me facts volatile. Ok (voted_step (here cluster me facts) volatile vote.now)) }
        ensures fact { (facts : List AFact) → S.stands self.old.store facts → OnOk result (MayFollow facts step.new.fact) }
    {
        if self.store.is_settled(vote.tx) {
            return Ok(());
        }
        if self.manager.is_open(vote.tx) {
            return self.opened(vote, step);
        }
        self.watched(vote, step)
    }

    // A centre gives no vote.
    pub(crate) fn escalate(
        &mut self,
        from: Centre,
        key: &Key,
        tx: TxId,
        cause: Cause,
        sends: &mut HeapList<Envelope>,
    ) -> Result<(), StepFault>
        requires { IsWellFormedCause cause }
        ensures { Acts S.stands self.old sends.old (unless_refused result sends.new) self.new (λ cluster me facts volatile. Ok (escalate_step (here cluster me facts) volatile from key.now tx cause)) }
    {
        let act = self
            .manager
            .on_escalate(&self.cluster, from, tx, key, cause);
        self.send_act(&act, sends)?;
        Ok(())
    }

    // ---- outcomes

    // The outcome of a transaction came.
    pub(crate) fn hear(&self, tx: TxId, outcome: &Outcome, step: &mut Step)
        requires { step.old ≡ blank }
        ensures plan { (facts : List AFact) (volatile : AVolatile) → S.stands self.now.store facts
            → step.new ≡ planned (outcome_step facts volatile tx outcome.now) }
        ensures fact { (facts : List AFact) → S.stands self.now.store facts → MayFollow facts step.new.fact }
    {
        step.fact = on_outcome(&self.store, tx, outcome);
    }
}
