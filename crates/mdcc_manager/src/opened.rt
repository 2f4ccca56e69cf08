//! Open transactions, and which of their options went to a leader.
ghost use Rattle.std.specs.Prelude.{◌≡◌, ◌≤◌, IfOk, List, find, filter, length, map, not};
ghost use Rattle.std.specs.Option.{option_copied};
ghost use Rattle.mdcc_base.specs.Sizes.{Sizes};
ghost use Rattle.mdcc_base.specs.TxId.{tx_eq};
ghost use Rattle.mdcc_learner.specs.Represents.{RepresentsVotes};
ghost use Rattle.mdcc_manager.specs.Opened.{led_at, led_in, open_choices, unled_at};
ghost use Rattle.mdcc_manager.specs.Ticks.{led_unlearned};
ghost use Rattle.mdcc_option.specs.Transaction.{choices_of};
ghost use Rattle.mdcc_def_protocol.specs.Learner.{is_learned};
ghost use Rattle.mdcc_def_protocol.specs.declared.votes.Vote.{Vote as AVote};

use mdcc_base::{Key, Memory, Plain, TxId};
use mdcc_learner::Learner;
use mdcc_option::{Choice, Transaction};
use std::alloc::Global;
use std::marker::Model;

/// An option of an open transaction, and whether it went to a leader.
#[derive(Drop)]
pub(crate) struct OpenChoice {
    pub choice: Choice,
    pub led: bool,
}

/// The options of an open transaction, at most 8.
#[derive(Drop)]
pub(crate) struct OpenChoices {
    choices: Vec<OpenChoice>,
}

impl Model for OpenChoices {
    ghost use Rattle.std.specs.Prelude.{List, length, ◌≤◌};
    ghost use Rattle.mdcc_manager.specs.declared.opened.OpenChoice.{OpenChoice};

    ghost Value = { List OpenChoice };

    ghost view = { λ list. list.choices.items };

    ghost invariant = { λ list. length list.choices.items ≤ 8 };
}

/// A transaction that is not decided, and how many ticks it has seen.
#[derive(Drop)]
pub(crate) struct OpenTransaction {
    pub tx: TxId,
    pub choices: OpenChoices,
    pub ticks: u64,
}

impl OpenChoice {
    // Marks the option as led, if it is of this key.
    fn mark_led(&mut self, key: &Key)
        ensures { self.new ≡ led_at key.now self.old }
    {
        if self.choice.key.is(key) {
            self.led = true;
        }
    }

    // Marks the option as led, if it is not learned.
    fn mark_unlearned(&mut self, learner: &Learner, tx: &TxId)
        ensures { (quorums : Sizes) (votes : List AVote) → RepresentsVotes learner.now quorums votes
            → self.new ≡ led_unlearned quorums votes tx.now self.old }
    {
        if is_unlearned(learner, tx, &self.choice.key) {
            self.led = true;
        }
    }
}

impl OpenChoices {
    /// The options of a transaction, none of which went to a leader.
    pub(crate) fn new(
        alloc: Global,
        tx: TxId,
        transaction: &Transaction,
    ) -> Result<OpenChoices, Memory>
        ensures { IfOk result (λ choices. choices ≡ open_choices (choices_of tx transaction.now)) }
    {
        let all = transaction.choices(tx);
        let mut choices = Vec::new(alloc);
        for choice in all.as_slice() {
            choices.push(OpenChoice {
                choice: choice.copy(),
                led: false,
            })?;
        }
        Ok(OpenChoices { choices })
    }

    /// The options in key order.
    pub(crate) fn as_slice(&self) -> &[OpenChoice]
        ensures value { result.now ≡ self.now }
        ensures fits { length self.now ≤ 8 }
    {
        self.choices.as_slice()
    }

    /// The choice of a key, where it did not go to a leader.
    pub(crate) fn unled_at(&self, key: &Key) -> Option<Choice>
        ensures { result ≡ unled_at self.now key.now }
    {
        for open in &self.choices {
            if open.choice.key.is(key) {
                return if open.led {
                    None
                } else {
                    Some(open.choice.copy())
                };
            }
        }
        None
    }

    // Marks the option of this key as led.
    fn mark_led(&mut self, key: &Key)
        ensures { self.new ≡ map (led_at key.now) self.old }
    {
        for open in self.choices.iter_mut() {
            open.mark_led(key);
        }
    }

    /// Marks each option that is not learned as led.
    pub(crate) fn mark_unlearned(&mut self, learner: &Learner, tx: &TxId)
        ensures { (quorums : Sizes) (votes : List AVote) → RepresentsVotes learner.now quorums votes
            → self.new ≡ map (led_unlearned quorums votes tx.now) self.old }
    {
        for open in self.choices.iter_mut() {
            open.mark_unlearned(learner, tx);
        }
    }
}

impl OpenTransaction {
    // Marks the option of this key as led, if this is the transaction.
    fn mark_led(&mut self, tx: &TxId, key: &Key)
        ensures { self.new ≡ led_in tx.now key.now self.old }
    {
        if self.tx.is(tx) {
            self.choices.mark_led(key);
        }
    }
}

/// Whether nothing is learned of a transaction and a key.
pub(crate) fn is_unlearned(learner: &Learner, tx: &TxId, key: &Key) -> bool
    ensures { (quorums : Sizes) (votes : List AVote) → RepresentsVotes learner.now quorums votes
        → result ≡ not (is_learned quorums votes tx.now key.now) }
{
    learner.side(*tx, key).is_none()
}

/// The open transaction of this identifier.
pub(crate) fn opened_of<'a>(opened: &'a [OpenTransaction], tx: &TxId) -> Option<&'a OpenTransaction>
    ensures { option_copied result ≡ find (λ t. tx_eq t.tx tx.now) opened.now }
{
    opened.iter().find(|open| open.tx.is(tx))
}

/// Marks the option of a transaction and a key as led.
pub(crate) fn mark_led(opened: &mut Vec<OpenTransaction>, tx: &TxId, key: &Key)
    ensures { opened.new.items ≡ map (led_in tx.now key.now) opened.old.items }
{
    for open in opened.iter_mut() {
        open.mark_led(tx, key);
    }
}

/// Lets a transaction go.
pub(crate) fn close(opened: &mut Vec<OpenTransaction>, tx: &TxId)
    ensures { opened.new.items ≡ filter (λ t. not (tx_eq t.tx tx.now)) opened.old.items }
{
    opened.retain(|open| !open.tx.is(tx));
}

/// Lets an identifier go.
pub(crate) fn close_tx(txs: &mut Vec<TxId>, tx: &TxId)
    ensures { txs.new.items ≡ filter (λ t. not (tx_eq t tx.now)) txs.old.items }
{
    txs.retain(|open| !open.is(tx));
}
