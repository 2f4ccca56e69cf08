//! What is held at a key.
ghost use Rattle.std.specs.List.{list_any};
ghost use Rattle.std.specs.Prelude.{◌≡◌, List, map, option_map};
ghost use Rattle.mdcc_theorem_fact_folds.specs.Held.{delta_by};
ghost use Rattle.mdcc_def_messages.specs.declared.facts.Fact.{Fact as AFact};
ghost use Rattle.mdcc_def_protocol.specs.Facts.{base_of, current_of, deltas_at, executed_of};
ghost use Rattle.mdcc_def_protocol.specs.News.{is_crowding};
ghost use Rattle.mdcc_def_protocol.specs.Stores.{delta_of};
ghost use Rattle.mdcc_struct.specs.Maps.{txs_of, value_of};
ghost use Rattle.mdcc_index.specs.Crowding.{is_key_crowded};
ghost use Rattle.mdcc_index.specs.Stores.{Represents};

use crate::FactPool;
use mdcc_base::{Key, TxId};
use mdcc_cells_delta_walk::{OlderAmounts, WithDeltas, is_crowded, item_at};
use mdcc_def_messages::Fact;
use mdcc_facts_held::held::version_from;
use mdcc_option::{Amounts, Choice, Delta, Item, Outcome, Seen};

// The delta of a transaction that added something.
fn delta_by(tx: TxId, found: Option<Amounts>) -> Option<Delta>
    ensures { result ≡ option_map (delta_by tx) found }
{
    match found {
        Some(amounts) => Some(Delta { tx, amounts }),
        None => None,
    }
}

impl FactPool {
    /// The version that is held.
    pub fn current(&self, key: &Key) -> u64
        ensures { (facts : List AFact) → Represents self.now facts → result ≡ current_of facts key.now }
    {
        self.held.current(key)
    }

    /// The base of the version that is held; there is none at version 0.
    pub fn base(&self, key: &Key) -> Option<Item>
        ensures { (facts : List AFact) → Represents self.now facts → result ≡ base_of facts key.now }
    {
        match self.held.base_number(key) {
            Some((version, number)) => item_at(&self.cells, number, key, version),
            None => None,
        }
    }

    /// The transactions whose deltas are executed.
    pub fn executed(&self, key: &Key) -> Seen
        ensures { (facts : List AFact) → Represents self.now facts → result ≡ txs_of (executed_of facts key.now) }
    {
        let version = self.current(key);
        let mut state = WithDeltas::new(*key, version);
        self.walk_active(key, version, &mut state);
        state.seen
    }

    // What the delta of a transaction adds to a version of a key, by a walk over the facts of that.
    fn walked_amounts(&self, key: &Key, version: u64, tx: TxId) -> Option<Amounts>
        ensures { (facts : List AFact) → Represents self.now facts → result ≡ value_of (deltas_at facts key.now version) tx }
    {
        let mut state = OlderAmounts {
            key: *key,
            version,
            tx,
            found: None,
        };
        self.walk_active(key, version, &mut state);
        state.found
    }

    // The same. Where nothing was adopted, the outcome of the transaction alone has its delta.
    fn amounts_at(&self, key: &Key, version: u64, tx: TxId) -> Option<Amounts>
        ensures { (facts : List AFact) → Represents self.now facts → result ≡ value_of (deltas_at facts key.now version) tx }
    {
        let tally = self.tallies.tally(&(*key, version));
        if tally.adopted {
            self.walked_amounts(key, version, tx)
        } else {
            self.outcomes.added(&self.cells, key, version, tx)
        }
    }

    /// The delta of an executed transaction.
    pub fn delta(&self, key: &Key, tx: TxId) -> Option<Delta>
        ensures { (facts : List AFact) → Represents self.now facts → result ≡ delta_of facts key.now tx }
    {
        let version = self.current(key);
        delta_by(tx, self.amounts_at(key, version, tx))
    }

    // Whether more than 64 deltas of a key would be executed with this fact.
    fn is_crowded(&self, key: &Key, fact: &Fact) -> bool
        ensures { (facts : List AFact) → Represents self.now facts → result ≡ is_key_crowded facts fact.now key.now }
    {
        let version = self.current(key).max(version_from(fact, key));
        let instance = (*key, version);
        let walk = self.active.facts_of(&self.cells, &instance);
        is_crowded(walk, &instance, fact)
    }

    // Whether this is so at the key of one of the choices.
    fn is_one_crowded(&self, choices: &[Choice], fact: &Fact) -> bool
        ensures { (facts : List AFact) → Represents self.now facts → result ≡ list_any (is_key_crowded facts fact.now) (map (λ choice. choice.key) choices.now) }
    {
        for choice in choices {
            if self.is_crowded(&choice.key, fact) {
                return true;
            }
        }
        false
    }

    /// Whether more than 64 deltas of one version would be executed with this fact.
    pub fn would_crowd(&self, fact: &Fact) -> bool
        ensures { (facts : List AFact) → Represents self.now facts → result ≡ is_crowding facts fact.now }
    {
        match fact {
            Fact::Heard {
                tx: _,
                outcome: Outcome::Commit(choices),
            } => self.is_one_crowded(choices.as_slice(), fact),
            Fact::Adopted {
                key,
                version: _,
                item: _,
                adds: _,
            } => self.is_crowded(key, fact),
            _ => false,
        }
    }
}
