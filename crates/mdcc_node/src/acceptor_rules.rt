//! The node's rules around its acceptor: proposals, promises and votes on structures.
ghost use Rattle.std.specs.Prelude.{◌≡◌, ◌++◌, [], IfOk, List, OnOk, if◌then◌else◌};
ghost use Rattle.mdcc_base.specs.Ballot.{is_fast};
ghost use Rattle.mdcc_def_messages.specs.declared.facts.Fact.{Fact as AFact};
ghost use Rattle.mdcc_def_messages.specs.declared.messages.Message.{Message as AMessage};
ghost use Rattle.mdcc_node.specs.StepPlans.{MayFollow, blank, planned};
ghost use Rattle.mdcc_def_protocol.specs.Acceptor.{new_marks};
ghost use Rattle.mdcc_def_protocol.specs.Facts.{shown_of};
ghost use Rattle.mdcc_def_protocol.specs.Volatile.{Volatile as AVolatile};
ghost use Rattle.mdcc_def_protocol.specs.declared.acceptor.ProposeAnswer.{ProposeAnswer as AProposeAnswer};
ghost use Rattle.mdcc_def_rules.specs.AcceptorRules.{accept_step, accepted_step, prepare_step, prepared_step, promise_message, propose_step, proposed_step, voted_marks_step};
ghost use Rattle.mdcc_def_rules.specs.Messages.{to_one};
ghost use Rattle.mdcc_def_rules.specs.Here.{here};

use crate::node::Node;
use crate::steps::{voted_message, write_vote};
use crate::votes::{send_votes, unvoted_marks};
use mdcc_acceptor::{answer_proposal, on_accept, on_prepare};
use mdcc_base::{Ballot, HeapList, Key, Memory, Plain, TxId};
use mdcc_def_messages::{Envelope, Fact, Message};
use mdcc_def_protocol::{AcceptAnswer, PrepareAnswer, ProposeAnswer};
use mdcc_def_rules::Step;
use mdcc_facts::FactStore;
use mdcc_node_sends::send;
use mdcc_option::{Cause, Choice, Mark, Outcome};
use mdcc_struct::Options;

impl<S: FactStore + Drop> Node<S> {
    // ---- proposals

    // A vote at the fast ballot.
    fn vote(&self, from: u8, choice: &Choice, mark: &Mark, step: &mut Step) -> Result<(), Memory>
        requires { step.old ≡ blank }
        ensures { (volatile : AVolatile) → OnOk result (step.new ≡ planned (proposed_step self.now.centre volatile from choice.now (AProposeAnswer.Vote mark.now))) }
    {
        self.send_vote(from, choice, Ballot::FAST, mark, &mut step.sends)?;
        write_vote(self.alloc, choice, mark, &mut step.fact)?;
        Ok(())
    }

    // A vote at a ballot is sent.
    fn send_vote(
        &self,
        to: u8,
        choice: &Choice,
        ballot: Ballot,
        mark: &Mark,
        sends: &mut HeapList<Envelope>,
    ) -> Result<(), Memory>
        ensures { OnOk result (sends.new ≡ sends.old ++ to_one self.now.centre to
            (AMessage.Voted choice.now.key choice.now.version ballot choice.now.tx mark.now)) }
    {
        let message = voted_message(choice, ballot, mark);
        send(self.alloc, self.centre.number(), to, message, sends)
    }

    // It is told how a transaction ended.
    fn send_outcome(
        &self,
        to: u8,
        tx: TxId,
        outcome: &Outcome,
        sends: &mut HeapList<Envelope>,
    ) -> Result<(), Memory>
        ensures { OnOk result (sends.new ≡ sends.old ++ to_one self.now.centre to (AMessage.Outcome tx outcome.now)) }
    {
        let outcome = outcome.copy();
        send(
            self.alloc,
            self.centre.number(),
            to,
            Message::Outcome { tx, outcome },
            sends,
        )
    }

    // It is told that all centres have heard how a transaction ended.
    pub(crate) fn send_finished(
        &self,
        to: u8,
        tx: TxId,
        sends: &mut HeapList<Envelope>,
    ) -> Result<(), Memory>
        ensures { OnOk result (sends.new ≡ sends.old ++ to_one self.now.centre to (AMessage.Finished tx)) }
    {
        let message = Message::Finished(tx);
        send(self.alloc, self.centre.number(), to, message, sends)
    }

    // It is told why there is no vote.
    fn send_cause(
        &self,
        to: u8,
        choice: &Choice,
        cause: Cause,
        sends: &mut HeapList<Envelope>,
    ) -> Result<(), Memory>
        ensures { OnOk result (sends.new ≡ sends.old ++ to_one self.now.centre to
            (AMessage.Escalate choice.now.key choice.now.version choice.now.tx cause)) }
    {
        let message = Message::Escalate {
            key: choice.key,
            version: choice.version,
            tx: choice.tx,
            cause,
        };
        send(self.alloc, self.centre.number(), to, message, sends)
    }

    // What the acceptor's answer to a choice adds and sends.
    fn proposed(
        &self,
        from: u8,
        choice: &Choice,
        acceptor: &ProposeAnswer,
        step: &mut Step,
    ) -> Result<(), Memory>
        requires { step.old ≡ blank }
        ensures { (volatile : AVolatile) → OnOk result (step.new ≡ planned (proposed_step self.now.centre volatile from choice.now acceptor.now)) }
    {
        match acceptor {
            ProposeAnswer::Known(outcome) => {
                self.send_outcome(from, choice.tx, outcome, &mut step.sends)
            }
            ProposeAnswer::Finished => self.send_finished(from, choice.tx, &mut step.sends),
            ProposeAnswer::Again(ballot, mark) => {
                self.send_vote(from, choice, *ballot, mark, &mut step.sends)
            }
            ProposeAnswer::Escalate(cause) => {
                self.send_cause(from, choice, *cause, &mut step.sends)
            }
            ProposeAnswer::Vote(mark) => self.vote(from, choice, mark, step),
        }
    }

    // A choice was proposed.
    pub(crate) fn propose(&self, from: u8, choice: &Choice, step: &mut Step) -> Result<(), Memory>
        requires { step.old ≡ blank }
        ensures plan { (facts : List AFact) (volatile : AVolatile) → S.stands self.now.store facts
            → OnOk result (step.new ≡ planned (propose_step (here self.now.cluster self.now.centre facts) volatile from choice.now)) }
        ensures fact { (facts : List AFact) → S.stands self.now.store facts → OnOk result (MayFollow facts step.new.fact) }
    {
        let mut acceptor = ProposeAnswer::Vote(Mark::Reject);
        answer_proposal(&self.store, &self.cluster, choice, &mut acceptor);
        self.proposed(from, choice, &acceptor, step)
    }

    // ---- promises

    // What a leader that asks below a ballot is told of the votes at another one: those that are not
    // forgotten.
    fn votes_told(
        &self,
        key: &Key,
        version: u64,
        below: Ballot,
        ballot: Ballot,
    ) -> Result<Options, Memory>
        ensures { (facts : List AFact) → S.stands self.now.store facts
            → IfOk result (λ votes. votes ≡ (if is_fast below then [] else shown_of facts key.now version ballot)) }
    {
        if below.is(&Ballot::FAST) {
            return Options::new(self.alloc);
        }
        self.store.votes(self.alloc, key, version, ballot)
    }

    // A promise to a leader, with what this centre voted in the instance below its ballot.
    fn promise(
        &self,
        to: u8,
        key: &Key,
        version: u64,
        high: u64,
        ballot: Ballot,
        sends: &mut HeapList<Envelope>,
    ) -> Result<(), Memory>
        ensures { (facts : List AFact) → S.stands self.now.store facts
            → OnOk result (sends.new ≡ sends.old ++ to_one self.now.centre to (promise_message facts key.now version high ballot)) }
    {
        let reported = self.store.voted_below(key, version, ballot);
        let votes = self.votes_told(key, version, ballot, reported)?;
        let message = Message::Promise {
            key: *key,
            version,
            through: high,
            ballot,
            reported,
            votes,
        };
        send(self.alloc, self.centre.number(), to, message, sends)
    }

    // This centre promised another ballot than that of a leader, or voted at it.
    fn refuse(
        &self,
        to: u8,
        key: &Key,
        version: u64,
        ballot: Ballot,
        promised: Ballot,
        sends: &mut HeapList<Envelope>,
    ) -> Result<(), Memory>
        ensures { OnOk result (sends.new ≡ sends.old ++ to_one self.now.centre to (AMessage.Refused key.now version ballot promised)) }
    {
        let message = Message::Refused {
            key: *key,
            version,
            ballot,
            promised,
        };
        send(self.alloc, self.centre.number(), to, message, sends)
    }

    // What the acceptor's answer to a leader that asks for a promise adds and sends.
    fn prepared(
        &self,
        to: u8,
        key: &Key,
        version: u64,
        ballot: Ballot,
        acceptor: PrepareAnswer,
        step: &mut Step,
    ) -> Result<(), Memory>
        requires { step.old ≡ blank }
        ensures { (facts : List AFact) (volatile : AVolatile) → S.stands self.now.store facts
            → OnOk result (step.new ≡ planned (prepared_step self.now.centre facts volatile to key.now version ballot acceptor)) }
    {
        match acceptor {
            PrepareAnswer::Refused(promised) => {
                self.refuse(to, key, version, ballot, promised, &mut step.sends)
            }
            PrepareAnswer::Again(high) => {
                self.promise(to, key, version, high, ballot, &mut step.sends)
            }
            PrepareAnswer::Promise(high) => {
                self.promise(to, key, version, high, ballot, &mut step.sends)?;
                step.fact = Some(Fact::Promised {
                    key: *key,
                    low: version,
                    high,
                    ballot,
                });
                Ok(())
            }
        }
    }

    // A leader asks for a promise.
    pub(crate) fn prepare(
        &self,
        from: u8,
        key: &Key,
        version: u64,
        through: u64,
        ballot: Ballot,
        step: &mut Step,
    ) -> Result<(), Memory>
        requires { step.old ≡ blank }
        ensures plan { (facts : List AFact) (volatile : AVolatile) → S.stands self.now.store facts
            → OnOk result (step.new ≡ planned (prepare_step self.now.centre facts volatile from key.now version through ballot)) }
        ensures fact { (facts : List AFact) → S.stands self.now.store facts → OnOk result (MayFollow facts step.new.fact) }
    {
        let acceptor = on_prepare(&self.store, key, version, through, ballot);
        self.prepared(from, key, version, ballot, acceptor, step)
    }

    // ---- structures

    // A vote adds the marks that are new.
    fn vote_marks(
        &self,
        key: &Key,
        version: u64,
        ballot: Ballot,
        options: &Options,
        step: &mut Step,
    ) -> Result<(), Memory>
        requires { step.old ≡ blank }
        ensures { (facts : List AFact) (volatile : AVolatile) → S.stands self.now.store facts
            → OnOk result (step.new ≡ planned (voted_marks_step self.now.centre facts volatile key.now version ballot (new_marks facts key.now version ballot options.now))) }
    {
        let marks = unvoted_marks(self.alloc, &self.store, key, version, ballot, options)?;
        let centre = self.centre.number();
        send_votes(
            self.alloc,
            &self.store,
            centre,
            key,
            version,
            ballot,
            &marks,
            &mut step.sends,
        )?;
        step.fact = Some(Fact::Voted {
            key: *key,
            version,
            ballot,
            options: marks,
            offered: None,
        });
        Ok(())
    }

    // What the acceptor's answer to a structure adds and sends.
    fn accepted(
        &self,
        to: u8,
        key: &Key,
        version: u64,
        ballot: Ballot,
        options: &Options,
        acceptor: AcceptAnswer,
        step: &mut Step,
    ) -> Result<(), Memory>
        requires { step.old ≡ blank }
        ensures { (facts : List AFact) (volatile : AVolatile) → S.stands self.now.store facts
            → OnOk result (step.new ≡ planned (accepted_step self.now.centre facts volatile to key.now version ballot options.now acceptor)) }
    {
        let centre = self.centre.number();
        match acceptor {
            AcceptAnswer::Refused(promised) => {
                self.refuse(to, key, version, ballot, promised, &mut step.sends)
            }
            AcceptAnswer::Behind(_) => {
                send(
                    self.alloc,
                    centre,
                    to,
                    Message::SyncAsk(*key),
                    &mut step.sends,
                )
            }
            AcceptAnswer::Older => {
                let sends = &mut step.sends;
                send_votes(
                    self.alloc,
                    &self.store,
                    centre,
                    key,
                    version,
                    ballot,
                    options,
                    sends,
                )
            }
            AcceptAnswer::Vote => self.vote_marks(key, version, ballot, options, step),
        }
    }

    // A leader asks for votes on a structure.
    pub(crate) fn accept(
        &self,
        from: u8,
        key: &Key,
        version: u64,
        ballot: Ballot,
        options: &Options,
        step: &mut Step,
    ) -> Result<(), Memory>
        requires { step.old ≡ blank }
        ensures plan { (facts : List AFact) (volatile : AVolatile) → S.stands self.now.store facts
            → OnOk result (step.new ≡ planned (accept_step self.now.centre facts volatile from key.now version ballot options.now)) }
        ensures fact { (facts : List AFact) → S.stands self.now.store facts → OnOk result (MayFollow facts step.new.fact) }
    {
        let acceptor = on_accept(&self.store, key, version, ballot, options);
        self.accepted(from, key, version, ballot, options, acceptor, step)
    }
}
