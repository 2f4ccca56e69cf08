//! The manager.
ghost use Rattle.std.specs.Prelude.{◌≡◌, ◌<◌, ◌≤◌, ◌^◌, ◌-◌, ◌&&◌, [], IfOk, IsOkAnd, IsTrue, List, None, OnErr, OnOk, is_some, not, option_map, ℕ};
ghost use Rattle.std.specs.Int.{IsInRange};
ghost use Rattle.std.specs.Option.{option_copied};
ghost use Rattle.mdcc_base.specs.AreQuorums.{AreQuorums};
ghost use Rattle.mdcc_base.specs.Sizes.{Sizes};
ghost use Rattle.mdcc_base.specs.Unless.{GivesUnless};
ghost use Rattle.mdcc_option.specs.declared.choices.Cause.{Cause as ACause};
ghost use Rattle.mdcc_base.specs.declared.identifiers.Ballot.{Ballot as ABallot};
ghost use Rattle.mdcc_manager.specs.Begin.{is_begin_memory, tx_begun};
ghost use Rattle.mdcc_manager.specs.Numbered.{are_numbered};
ghost use Rattle.mdcc_manager.specs.Represents.{RepresentsManaging};
ghost use Rattle.mdcc_def_protocol.specs.Learner.{is_learned};
ghost use Rattle.mdcc_def_protocol.specs.Manager.{act_on_cause, act_on_vote, acted, after_act, begin, begun_transaction, choice_unled, decision, lead_act, on_escalate, on_voted, tick, vote_taken, would_decide};
ghost use Rattle.mdcc_def_protocol.specs.Volatile.{Managing, is_opened, manager_closed, txs_opened, with_led};
ghost use Rattle.mdcc_def_protocol.specs.declared.manager.ManagerAct.{ManagerAct as AManagerAct};
ghost use Rattle.mdcc_def_messages.specs.declared.facts.Fact.{Fact as AFact};

use crate::begin::parts_begin_fault;
use crate::marks::{are_deciding, marks_learned, marks_with, sides_learned, sides_with};
use crate::opened::{OpenChoices, OpenTransaction, close, close_tx, mark_led, opened_of};
use crate::ticks::{acts_of, count_tick};
use mdcc_base::{Centre, Key, Memory, Quorums, TxId};
use mdcc_def_protocol::{ManagerAct, Vote};
use mdcc_facts::FactStore;
use mdcc_learner::{Learner, outcome_of_marks};
use mdcc_option::{BeginFault, Cause, Choice, Cluster, Outcome, Transaction};
use std::alloc::Global;

/// The transactions that a centre began in one of its epochs and has not closed, with the votes
/// that count on them. At most 256 are open.
#[derive(Drop)]
pub struct Manager {
    alloc: Global,
    centre: Centre,
    epoch: u32,
    seq: u32,
    txs: Vec<TxId>,
    opened: Vec<OpenTransaction>,
    learner: Learner,
}

impl Manager {
    /// The manager of a centre at the start of one of its epochs.
    pub fn new(alloc: Global, centre: Centre, epoch: u32) -> Result<Manager, Memory>
        ensures { (quorums : Sizes) → AreQuorums quorums
            → IsOkAnd result (λ manager. RepresentsManaging manager centre epoch quorums (record { seq = 0; opened = []; votes = [] })) }
    {
        Ok(Manager {
            alloc,
            centre,
            epoch,
            seq: 0,
            txs: Vec::new(alloc),
            opened: Vec::new(alloc),
            learner: Learner::new(alloc)?,
        })
    }

    /// Begins a transaction: it is open, and has the next number of the epoch. A refusal leaves the
    /// manager as it was; `key_refused` names the key for it.
    pub fn begin<S: FactStore>(
        &mut self,
        store: &S,
        transaction: &Transaction,
    ) -> Result<TxId, BeginFault>
        ensures answer { (me epoch : ℕ) (quorums : Sizes) (facts : List AFact) (managing : Managing)
            → S.stands store.now facts → RepresentsManaging self.old me epoch quorums managing
            → GivesUnless is_begin_memory result (tx_begun (begin me epoch facts managing transaction.now)) }
        ensures ok { (me epoch : ℕ) (quorums : Sizes) (managing : Managing) → RepresentsManaging self.old me epoch quorums managing
            → OnOk result (RepresentsManaging self.new me epoch quorums (begun_transaction me epoch managing transaction.now).1) }
        ensures err { (me epoch : ℕ) (quorums : Sizes) (managing : Managing) → RepresentsManaging self.old me epoch quorums managing
            → OnErr result (RepresentsManaging self.new me epoch quorums managing) }
    {
        if let Some((_, fault)) = parts_begin_fault(store, transaction.parts()) {
            return Err(fault);
        }
        if self.seq == u32::MAX {
            return Err(BeginFault::Sequence);
        }
        if self.opened.len() >= 256 {
            return Err(BeginFault::Busy);
        }
        Ok(self.open(transaction)?)
    }

    // Opens a transaction.
    fn open(&mut self, transaction: &Transaction) -> Result<TxId, Memory>
        requires { self.old.seq < 2 ^ 32 - 1 }
        ensures tx { (me epoch : ℕ) (quorums : Sizes) (managing : Managing) → RepresentsManaging self.old me epoch quorums managing
            → IfOk result (λ tx. tx ≡ (begun_transaction me epoch managing transaction.now).0) }
        ensures ok { (me epoch : ℕ) (quorums : Sizes) (managing : Managing) → RepresentsManaging self.old me epoch quorums managing
            → OnOk result (RepresentsManaging self.new me epoch quorums (begun_transaction me epoch managing transaction.now).1) }
        ensures err { (me epoch : ℕ) (quorums : Sizes) (managing : Managing) → RepresentsManaging self.old me epoch quorums managing
            → OnErr result (RepresentsManaging self.new me epoch quorums managing) }
    {
        let tx = TxId {
            centre: self.centre,
            epoch: self.epoch,
            seq: self.seq + 1,
        };
        let choices = OpenChoices::new(self.alloc, tx, transaction)?;
        self.txs.push(tx)?;
        if self
            .opened
            .push(OpenTransaction {
                tx,
                choices,
                ticks: 0,
            })
            .is_err()
        {
            let _last = self.txs.pop();
            return Err(Memory);
        }
        self.seq += 1;
        Ok(tx)
    }

    /// Takes a vote on an open transaction. It decides the transaction where each option has a mark
    /// now, or one is rejected; where the marks on its key collide, the option goes to the leader
    /// at the key's home, once.
    pub fn on_voted(&mut self, cluster: &Cluster, vote: &Vote) -> Result<Option<ManagerAct>, Memory>
        ensures act { (me epoch : ℕ) (managing : Managing) → RepresentsManaging self.old me epoch cluster.now.quorums managing
            → IfOk result (λ act. act ≡ (on_voted cluster.now.quorums managing vote.now).0) }
        ensures ok { (me epoch : ℕ) (managing : Managing) → RepresentsManaging self.old me epoch cluster.now.quorums managing
            → OnOk result (RepresentsManaging self.new me epoch cluster.now.quorums (on_voted cluster.now.quorums managing vote.now).1) }
        ensures err { (me epoch : ℕ) (quorums : Sizes) (managing : Managing) → RepresentsManaging self.old me epoch quorums managing
            → OnErr result (RepresentsManaging self.new me epoch quorums managing) }
    {
        let mut act = None;
        self.answer_vote(cluster, vote, &mut act)?;
        Ok(act)
    }

    /// The same, with what the manager does written into a place where nothing stands.
    pub fn answer_vote(
        &mut self,
        cluster: &Cluster,
        vote: &Vote,
        act: &mut Option<ManagerAct>,
    ) -> Result<(), Memory>
        requires { act.old ≡ None }
        ensures act { (me epoch : ℕ) (managing : Managing) → RepresentsManaging self.old me epoch cluster.now.quorums managing
            → OnOk result (act.new ≡ (on_voted cluster.now.quorums managing vote.now).0) }
        ensures ok { (me epoch : ℕ) (managing : Managing) → RepresentsManaging self.old me epoch cluster.now.quorums managing
            → OnOk result (RepresentsManaging self.new me epoch cluster.now.quorums (on_voted cluster.now.quorums managing vote.now).1) }
        ensures err { (me epoch : ℕ) (quorums : Sizes) (managing : Managing) → RepresentsManaging self.old me epoch quorums managing
            → OnErr result (RepresentsManaging self.new me epoch quorums managing) }
    {
        self.take(&cluster.quorums, vote)?;
        self.act_on_vote(&cluster.quorums, vote, act);
        Ok(())
    }

    // Takes a vote, if its transaction is open.
    fn take(&mut self, quorums: &Quorums, vote: &Vote) -> Result<(), Memory>
        ensures ok { (me epoch : ℕ) (managing : Managing) → RepresentsManaging self.old me epoch quorums.now managing
            → OnOk result (RepresentsManaging self.new me epoch quorums.now (vote_taken quorums.now managing vote.now)) }
        ensures err { (me epoch : ℕ) (known : Sizes) (managing : Managing) → RepresentsManaging self.old me epoch known managing
            → OnErr result (RepresentsManaging self.new me epoch known managing) }
    {
        if self.is_open(vote.tx) {
            self.learner.take(quorums, vote)?;
        }
        Ok(())
    }

    // What a vote that was taken makes the manager do.
    fn act_on_vote(&mut self, quorums: &Quorums, vote: &Vote, act: &mut Option<ManagerAct>)
        requires { act.old ≡ None }
        ensures act { (me epoch : ℕ) (managing : Managing) → RepresentsManaging self.old me epoch quorums.now managing
            → act.new ≡ act_on_vote quorums.now managing vote.now (decision quorums.now managing vote.now.tx) }
        ensures left { (me epoch : ℕ) (managing : Managing) → RepresentsManaging self.old me epoch quorums.now managing
            → RepresentsManaging self.new me epoch quorums.now (after_act managing (act_on_vote quorums.now managing vote.now (decision quorums.now managing vote.now.tx))) }
    {
        if self.is_decided(&vote.tx) {
            *act = self.decide_act(vote.tx);
        } else if self.learner.collided(vote.tx, &vote.key) {
            *act = self.lead(quorums.home(&vote.key), vote.tx, &vote.key);
        }
    }

    // The end of a transaction that the votes decide.
    #[inline(never)]
    fn decide_act(&self, tx: TxId) -> Option<ManagerAct>
        ensures { (me epoch : ℕ) (quorums : Sizes) (managing : Managing) → RepresentsManaging self.now me epoch quorums managing
            → result ≡ option_map (λ outcome. AManagerAct.Decide tx outcome) (decision quorums managing tx) }
    {
        match self.decision(tx) {
            Some(outcome) => Some(ManagerAct::Decide(tx, outcome)),
            None => None,
        }
    }

    /// Hears that a centre gives no vote at the fast ballot: data for one that is behind, else the
    /// option goes to a leader, once. A cause that names a ballot names one of a centre from 1 to 9.
    pub fn on_escalate(
        &mut self,
        cluster: &Cluster,
        from: Centre,
        tx: TxId,
        key: &Key,
        cause: Cause,
    ) -> Option<ManagerAct>
        requires { (ballot : ABallot) → cause ≡ ACause.Classic ballot → IsInRange 1 9 ballot.centre }
        ensures act { (me epoch : ℕ) (managing : Managing) → RepresentsManaging self.old me epoch cluster.now.quorums managing
            → result ≡ (on_escalate cluster.now.quorums managing from tx key.now cause).0 }
        ensures left { (me epoch : ℕ) (managing : Managing) → RepresentsManaging self.old me epoch cluster.now.quorums managing
            → RepresentsManaging self.new me epoch cluster.now.quorums (on_escalate cluster.now.quorums managing from tx key.now cause).1 }
    {
        if !self.is_awaited(tx, key) {
            return None;
        }
        self.act_on_cause(&cluster.quorums, from, tx, key, cause)
    }

    // Whether the transaction is open, and no mark of its option for the key is learned.
    fn is_awaited(&self, tx: TxId, key: &Key) -> bool
        ensures { (me epoch : ℕ) (quorums : Sizes) (managing : Managing) → RepresentsManaging self.now me epoch quorums managing
            → result ≡ (is_opened managing tx && not (is_learned quorums managing.votes tx key.now)) }
    {
        self.is_open(tx) && self.learner.side(tx, key).is_none()
    }

    // What it makes the manager do that a centre gives no vote.
    fn act_on_cause(
        &mut self,
        quorums: &Quorums,
        from: Centre,
        tx: TxId,
        key: &Key,
        cause: Cause,
    ) -> Option<ManagerAct>
        requires { (ballot : ABallot) → cause ≡ ACause.Classic ballot → IsInRange 1 9 ballot.centre }
        ensures act { (me epoch : ℕ) (managing : Managing) → RepresentsManaging self.old me epoch quorums.now managing
            → result ≡ act_on_cause quorums.now managing from tx key.now cause }
        ensures left { (me epoch : ℕ) (managing : Managing) → RepresentsManaging self.old me epoch quorums.now managing
            → RepresentsManaging self.new me epoch quorums.now (after_act managing (act_on_cause quorums.now managing from tx key.now cause)) }
    {
        match cause {
            Cause::Behind => Some(ManagerAct::Give(from, *key)),
            Cause::Classic(ballot) => self.lead(leader_of(ballot.centre), tx, key),
            Cause::Limit(_) => self.lead(quorums.home(key), tx, key),
            Cause::Full => self.lead(quorums.home(key), tx, key),
        }
    }

    // The option of a key goes to a leader, unless one did before.
    fn lead(&mut self, leader: Centre, tx: TxId, key: &Key) -> Option<ManagerAct>
        ensures act { (me epoch : ℕ) (quorums : Sizes) (managing : Managing) → RepresentsManaging self.old me epoch quorums managing
            → result ≡ lead_act leader (choice_unled managing tx key.now) }
        ensures left { (me epoch : ℕ) (quorums : Sizes) (managing : Managing) → RepresentsManaging self.old me epoch quorums managing
            → RepresentsManaging self.new me epoch quorums (after_act managing (lead_act leader (choice_unled managing tx key.now))) }
    {
        let choice = self.choice_unled(&tx, key)?;
        self.mark_led(&choice.tx, &choice.key);
        Some(ManagerAct::Lead(leader, choice))
    }

    // The option of a key of an open transaction, where it is not marked led.
    fn choice_unled(&self, tx: &TxId, key: &Key) -> Option<Choice>
        ensures { (me epoch : ℕ) (quorums : Sizes) (managing : Managing) → RepresentsManaging self.now me epoch quorums managing
            → result ≡ choice_unled managing tx.now key.now }
    {
        opened_of(&self.opened, tx)?.choices.unled_at(key)
    }

    // Marks the option of a transaction and a key as led.
    fn mark_led(&mut self, tx: &TxId, key: &Key)
        ensures { (me epoch : ℕ) (quorums : Sizes) (managing : Managing) → RepresentsManaging self.old me epoch quorums managing
            → RepresentsManaging self.new me epoch quorums (with_led managing tx.now key.now) }
    {
        mark_led(&mut self.opened, tx, key);
    }

    /// Counts a tick, and says what is done for each open transaction in order: an option of which
    /// nothing is learned is proposed again at an odd count, and led here at an even one.
    pub fn tick(&mut self) -> Result<Vec<ManagerAct>, Memory>
        ensures acts { (me epoch : ℕ) (quorums : Sizes) (managing : Managing) → RepresentsManaging self.old me epoch quorums managing
            → IfOk result (λ acts. acts.items ≡ (tick quorums managing).0) }
        ensures ok { (me epoch : ℕ) (quorums : Sizes) (managing : Managing) → RepresentsManaging self.old me epoch quorums managing
            → OnOk result (RepresentsManaging self.new me epoch quorums (tick quorums managing).1) }
        ensures err { (me epoch : ℕ) (quorums : Sizes) (managing : Managing) → RepresentsManaging self.old me epoch quorums managing
            → OnErr result (RepresentsManaging self.new me epoch quorums managing) }
    {
        let acts = acts_of(self.alloc, &self.learner, &self.opened)?;
        count_tick(&mut self.opened, &self.learner);
        Ok(acts)
    }

    /// What the votes decide of an open transaction.
    pub fn decision(&self, tx: TxId) -> Option<Outcome>
        ensures { (me epoch : ℕ) (quorums : Sizes) (managing : Managing) → RepresentsManaging self.now me epoch quorums managing
            → result ≡ decision quorums managing tx }
    {
        let open = opened_of(&self.opened, &tx)?;
        let marks = marks_learned(&self.learner, tx, open.choices.as_slice());
        outcome_of_marks(marks.as_slice())
    }

    // Whether the votes decide an open transaction.
    fn is_decided(&self, tx: &TxId) -> bool
        ensures { (me epoch : ℕ) (quorums : Sizes) (managing : Managing) → RepresentsManaging self.now me epoch quorums managing
            → result ≡ is_some (decision quorums managing tx.now) }
    {
        let Some(open) = opened_of(&self.opened, tx) else {
            return false;
        };
        let sides = sides_learned(&self.learner, *tx, open.choices.as_slice());
        are_deciding(sides.as_slice())
    }

    /// Whether `would_decide` answers an outcome. No mark is copied.
    pub fn would_end(&self, cluster: &Cluster, vote: &Vote) -> bool
        ensures { (me epoch : ℕ) (managing : Managing) → RepresentsManaging self.now me epoch cluster.now.quorums managing
            → result ≡ is_some (would_decide cluster.now.quorums managing vote.now) }
    {
        let Some(open) = opened_of(&self.opened, &vote.tx) else {
            return false;
        };
        let choices = open.choices.as_slice();
        let sides = sides_with(&self.learner, &cluster.quorums, vote, vote.tx, choices);
        are_deciding(sides.as_slice())
    }

    /// What `decision` of the vote's transaction would answer once the vote is taken.
    pub fn would_decide(&self, cluster: &Cluster, vote: &Vote) -> Option<Outcome>
        ensures { (me epoch : ℕ) (managing : Managing) → RepresentsManaging self.now me epoch cluster.now.quorums managing
            → result ≡ would_decide cluster.now.quorums managing vote.now }
    {
        let open = opened_of(&self.opened, &vote.tx)?;
        let choices = open.choices.as_slice();
        let marks = marks_with(&self.learner, &cluster.quorums, vote, vote.tx, choices);
        outcome_of_marks(marks.as_slice())
    }

    /// Whether the transaction is open.
    pub fn is_open(&self, tx: TxId) -> bool
        ensures { (me epoch : ℕ) (quorums : Sizes) (managing : Managing) → RepresentsManaging self.now me epoch quorums managing
            → result ≡ is_opened managing tx }
    {
        opened_of(&self.opened, &tx).is_some()
    }

    /// The open transactions in ascending order.
    pub fn opened(&self) -> &[TxId]
        ensures value { (me epoch : ℕ) (quorums : Sizes) (managing : Managing) → RepresentsManaging self.now me epoch quorums managing
            → result.now ≡ txs_opened managing }
        ensures ascending { (me epoch : ℕ) (quorums : Sizes) (managing : Managing) → RepresentsManaging self.now me epoch quorums managing
            → IsTrue (are_numbered me epoch 0 managing.seq result.now) }
    {
        self.txs.as_slice()
    }

    /// Lets a transaction and its votes go.
    pub fn close(&mut self, tx: TxId)
        ensures { (me epoch : ℕ) (quorums : Sizes) (managing : Managing) → RepresentsManaging self.old me epoch quorums managing
            → RepresentsManaging self.new me epoch quorums (manager_closed managing tx) }
    {
        close(&mut self.opened, &tx);
        close_tx(&mut self.txs, &tx);
        self.learner.forget(tx);
    }
}

// The centre of this number.
fn leader_of(number: u8) -> Centre
    requires some { 1 ≤ number }
    requires nine { number ≤ 9 }
    ensures { result ≡ number }
{
    Centre::new(number).unwrap()
}
