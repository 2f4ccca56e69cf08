//! The node's rules around its recovery: votes on watched transactions, questions about a transaction,
//! and the dangling transactions at a tick.
ghost use Rattle.std.specs.Prelude.{◌≡◌, ◌++◌, [], List, None, Ok, OnOk, false};
ghost use Rattle.mdcc_def_messages.specs.declared.facts.Fact.{Fact as AFact};
ghost use Rattle.mdcc_node.specs.StepPlans.{Acts, MayFollow, Plans, blank, planned, unless_refused};
ghost use Rattle.mdcc_def_protocol.specs.Facts.{is_settled, vote_of};
ghost use Rattle.mdcc_def_protocol.specs.Recover.{would_decide};
ghost use Rattle.mdcc_def_protocol.specs.Volatile.{Volatile as AVolatile};
ghost use Rattle.mdcc_def_rules.specs.AcceptorRules.{ask_step, ask_step_after};
ghost use Rattle.mdcc_def_rules.specs.ManagerRules.{watched_step};
ghost use Rattle.mdcc_def_rules.specs.Steps.{only_sending, step_of_part};
ghost use Rattle.mdcc_def_rules.specs.TickRules.{recovery_act, recovery_ticked, tick_step};
ghost use Rattle.mdcc_def_rules.specs.Here.{here};

use crate::node::Node;
use mdcc_base::{HeapList, Key, Memory, TxId};
use mdcc_def_messages::{Envelope, Message};
use mdcc_def_protocol::{RecoverAct, Vote};
use mdcc_def_rules::{Step, StepFault};
use mdcc_facts::FactStore;
use mdcc_node_sends::{ask_votes, send};

impl<S: FactStore + Drop> Node<S> {
    // ---- questions

    // What was heard of a transaction, or that it is finished, or what was voted on it here, goes to a
    // centre.
    fn answer_asked(
        &self,
        to: u8,
        tx: TxId,
        key: &Key,
        version: u64,
        sends: &mut HeapList<Envelope>,
    ) -> Result<(), Memory>
        ensures { (facts : List AFact) (volatile : AVolatile) → S.stands self.now.store facts
            → OnOk result (sends.new ≡ sends.old ++ (ask_step self.now.centre facts volatile to tx key.now version).sends) }
    {
        if let Some(outcome) = self.store.heard(tx) {
            let message = Message::Outcome { tx, outcome };
            return send(self.alloc, self.centre.number(), to, message, sends);
        }
        if self.store.finished(tx) {
            return self.send_finished(to, tx, sends);
        }
        self.answer_by_vote(to, tx, key, version, sends)
    }

    // What was voted on a transaction here goes to a centre.
    fn answer_by_vote(
        &self,
        to: u8,
        tx: TxId,
        key: &Key,
        version: u64,
        sends: &mut HeapList<Envelope>,
    ) -> Result<(), Memory>
        ensures { (facts : List AFact) (volatile : AVolatile) → S.stands self.now.store facts
            → OnOk result (sends.new ≡ sends.old ++ (ask_step_after self.now.centre volatile to tx key.now version (vote_of facts key.now version tx)).sends) }
    {
        match self.store.vote_of(key, version, tx) {
            Some((ballot, mark)) => {
                let message = Message::Voted {
                    key: *key,
                    version,
                    ballot,
                    tx,
                    mark,
                };
                send(self.alloc, self.centre.number(), to, message, sends)
            }
            None => Ok(()),
        }
    }

    // A centre asks for the vote of this one on a transaction. It is told the outcome, if that was
    // heard.
    pub(crate) fn asked(
        &self,
        from: u8,
        tx: TxId,
        key: &Key,
        version: u64,
        step: &mut Step,
    ) -> Result<(), Memory>
        requires { step.old ≡ blank }
        ensures plan { (facts : List AFact) (volatile : AVolatile) → S.stands self.now.store facts
            → OnOk result (step.new ≡ planned (ask_step self.now.centre facts volatile from tx key.now version)) }
        ensures fact { OnOk result (step.new.fact ≡ None) }
    {
        self.answer_asked(from, tx, key, version, &mut step.sends)
    }

    // ---- votes

    // A vote on a transaction that is not settled and not open here. One that decides is not taken,
    // since its transaction is closed.
    pub(crate) fn watched(&mut self, vote: &Vote, step: &mut Step) -> Result<(), StepFault>
        requires blank { step.old ≡ blank }
        requires unsettled { (facts : List AFact) → S.stands self.old.store facts → is_settled facts vote.now.tx ≡ false }
        ensures plan { Plans S.stands self.old (unless_refused result step.new) self.new (λ cluster me facts volatile. Ok (watched_step (here cluster me facts) volatile vote.now (would_decide cluster.quorums facts volatile.recovery vote.now))) }
        ensures fact { (facts : List AFact) → S.stands self.old.store facts → OnOk result (MayFollow facts step.new.fact) }
    {
        match self.recover.would_decide(&self.store, &self.cluster, vote) {
            Some(decided) => {
                let (_, outcome) = decided;
                self.decide(vote.tx, outcome, step)?;
                Ok(())
            }
            None => {
                let _decided = self.recover.on_voted(&self.store, &self.cluster, vote)?;
                Ok(())
            }
        }
    }

    // ---- the tick

    // What the recovery wants done at a tick.
    fn recover_by(
        &mut self,
        act: &RecoverAct,
        sends: &mut HeapList<Envelope>,
    ) -> Result<(), StepFault>
        ensures { Acts S.stands self.old sends.old (unless_refused result sends.new) self.new (λ cluster me facts volatile. Ok (step_of_part (recovery_act (here cluster me facts) volatile act.now))) }
    {
        match act {
            RecoverAct::Ask(tx, key, version) => {
                let (quorums, centre) = (&self.cluster.quorums, self.centre.number());
                ask_votes(self.alloc, quorums, centre, *tx, key, *version, sends)?;
                Ok(())
            }
            RecoverAct::LeadHere(claim) => self.lead_or_leave(claim, sends),
        }
    }

    // Time has passed for the dangling transactions. Each act sees the leader that those before it left.
    fn tick_dangling(&mut self, sends: &mut HeapList<Envelope>) -> Result<(), StepFault>
        ensures { Acts S.stands self.old sends.old (unless_refused result sends.new) self.new (λ cluster me facts volatile. Ok (step_of_part (recovery_ticked (here cluster me facts) (only_sending volatile [])))) }
    {
        let acts = self.recover.tick(&self.store, self.manager.opened())?;
        for act in &acts {
            self.recover_by(act, sends)?;
        }
        Ok(())
    }

    // Time has passed. The recovery sees what the open transactions left.
    pub(crate) fn tick(&mut self, sends: &mut HeapList<Envelope>) -> Result<(), StepFault>
        ensures { Acts S.stands self.old sends.old (unless_refused result sends.new) self.new (λ cluster me facts volatile. Ok (tick_step (here cluster me facts) volatile)) }
    {
        self.tick_opened(sends)?;
        self.tick_dangling(sends)
    }
}
