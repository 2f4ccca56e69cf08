//! Outcomes, and what is held at a key.
ghost use Rattle.std.specs.Prelude.{◌≡◌, ◌≤◌, ◌<◌, ◌+◌, ◌-◌, ◌^◌, IsTrue, List};
ghost use Rattle.mdcc_def_messages.specs.declared.facts.Fact.{Fact as AFact};
ghost use Rattle.mdcc_def_protocol.specs.Facts.{base_of, current_of, executed_of, floor_of, heard_through_of, is_settled, outcome_kept};
ghost use Rattle.mdcc_def_protocol.specs.Stores.{delta_of, ended_of};
ghost use Rattle.mdcc_struct.specs.Maps.{txs_of};
ghost use Rattle.mdcc_facts_kept.specs.Kept.{IsKept};

use crate::KeptFacts;
use mdcc_base::{Centre, Key, TxId};
use mdcc_option::{Delta, Item, Outcome, Seen};

impl KeptFacts {
    /// The version that is held.
    pub fn current(&self, key: &Key) -> u64
        ensures { (facts : List AFact) → IsKept self.now facts → result ≡ current_of facts key.now }
    {
        self.rest().current(key)
    }

    /// The base of the version that is held; there is none at version 0.
    pub fn base(&self, key: &Key) -> Option<Item>
        ensures { (facts : List AFact) → IsKept self.now facts → result ≡ base_of facts key.now }
    {
        self.rest().base(key)
    }

    /// The transactions whose deltas are executed.
    pub fn executed(&self, key: &Key) -> Seen
        ensures { (facts : List AFact) → IsKept self.now facts → result ≡ txs_of (executed_of facts key.now) }
    {
        self.rest().executed(key)
    }

    /// The delta of an executed transaction.
    pub fn delta(&self, key: &Key, tx: TxId) -> Option<Delta>
        ensures { (facts : List AFact) → IsKept self.now facts → result ≡ delta_of facts key.now tx }
    {
        self.rest().delta(key, tx)
    }

    /// The outcome that was heard of a transaction, unless it is idle.
    pub fn heard(&self, tx: TxId) -> Option<Outcome>
        ensures { (facts : List AFact) → IsKept self.now facts → result ≡ outcome_kept facts tx }
    {
        if self.is_idle(tx) {
            None
        } else {
            self.rest().heard(tx)
        }
    }

    /// Whether the outcome that is kept of a transaction is a commit.
    pub fn ended(&self, tx: TxId) -> Option<bool>
        ensures { (facts : List AFact) → IsKept self.now facts → result ≡ ended_of facts tx }
    {
        if self.is_idle(tx) {
            None
        } else {
            self.rest().ended(tx)
        }
    }

    // Whether the transaction after a number, not below the floor of its epoch, is settled.
    fn is_next_settled(&self, centre: Centre, epoch: u32, seq: u32) -> bool
        ensures small { IsTrue result → seq < 2 ^ 32 - 1 }
        ensures value { (facts : List AFact) → IsKept self.now facts → floor_of facts centre epoch ≤ seq → result ≡ is_settled facts (record { centre = centre; epoch = epoch; seq = seq + 1 }) }
    {
        if seq == u32::MAX {
            false
        } else {
            let tx = TxId {
                centre,
                epoch,
                seq: seq + 1,
            };
            self.is_settled(tx)
        }
    }

    /// The greatest number through which each transaction of an epoch was heard or is finished.
    pub fn heard_through(&self, centre: Centre, epoch: u32) -> u32
        ensures { (facts : List AFact) → IsKept self.now facts → result ≡ heard_through_of facts centre epoch }
    {
        let mut seq = self.floor(centre, epoch);
        while self.is_next_settled(centre, epoch, seq) {
            seq += 1;
        }
        seq
    }
}
