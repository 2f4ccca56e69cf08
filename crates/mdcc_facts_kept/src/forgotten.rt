//! Of which facts nothing is asked any more.
ghost use Rattle.std.specs.List.{list_any};
ghost use Rattle.std.specs.Prelude.{◌≡◌, ◌&&◌, List, Some, if◌then◌else◌, not, ℕ};
ghost use Rattle.mdcc_base.specs.Ballot.{is_fast};
ghost use Rattle.mdcc_option.specs.OneCopy.{next_version};
ghost use Rattle.mdcc_cells_marked.specs.Marks.{has_open_mark};
ghost use Rattle.mdcc_cells_tables.specs.Numbers.{fact_numbered};
ghost use Rattle.mdcc_def_messages.specs.declared.facts.Fact.{Fact as AFact};
ghost use Rattle.mdcc_def_protocol.specs.Facts.{heard_of, is_forgotten, is_idle, is_needed, is_past, is_settled};
ghost use Rattle.mdcc_given_back.specs.Rest.{is_vote_past};
ghost use Rattle.mdcc_facts_kept.specs.Kept.{IsKept, left_by};
ghost use Rattle.mdcc_given_back.specs.Counted.{without_floors};
ghost use Rattle.mdcc_facts_kept.specs.declared.forgotten.Left.TheVariants.{Bared, Dropped, Whole};

use crate::KeptFacts;
use mdcc_base::{Ballot, Key, TxId};
use mdcc_def_messages::Fact;
use mdcc_option::{Choice, Outcome, Update};
use mdcc_struct::Options;

/// What is left of a fact: nothing, a vote without its marks, or all of it.
#[derive(Clone, Copy)]
pub enum Left {
    Dropped,
    Bared,
    Whole,
}

// A version plus one stops at 2^64 - 1.
fn next_version(version: u64) -> u64
    ensures { result ≡ next_version version }
{
    version.saturating_add(1)
}

impl KeptFacts {
    // Whether the mark of a transaction in an instance is forgotten.
    pub(crate) fn is_forgotten(&self, key: &Key, version: u64, tx: TxId) -> bool
        ensures { (facts : List AFact) → IsKept self.now facts → result ≡ is_forgotten facts key.now version tx }
    {
        self.finished(tx) && version < self.current(key)
    }

    // Whether all marks of a vote are.
    fn is_vote_past(&self, key: &Key, version: u64, options: &Options) -> bool
        ensures { (facts : List AFact) → IsKept self.now facts → result ≡ is_vote_past facts key.now version options.now }
    {
        for place in 0..options.len() {
            let (tx, _) = options.at(place);
            if !self.is_forgotten(key, version, tx) {
                return false;
            }
        }
        true
    }

    // Whether a committed choice is needed.
    fn is_needed(&self, choice: &Choice) -> bool
        ensures { (facts : List AFact) → IsKept self.now facts → result ≡ is_needed facts choice.now }
    {
        let current = self.current(&choice.key);
        match &choice.update {
            Update::Write(_, _) => next_version(choice.version) == current,
            Update::Add(_) => current <= choice.version,
        }
    }

    // Whether one of the choices is.
    fn is_one_needed(&self, choices: &[Choice]) -> bool
        ensures { (facts : List AFact) → IsKept self.now facts → result ≡ list_any (is_needed facts) choices.now }
    {
        for choice in choices {
            if self.is_needed(choice) {
                return true;
            }
        }
        false
    }

    // Whether no choice of an outcome that was heard is.
    fn is_past(&self, outcome: &Option<Outcome>) -> bool
        ensures { (facts : List AFact) → IsKept self.now facts → result ≡ is_past facts outcome.now }
    {
        match outcome {
            Some(Outcome::Commit(choices)) => !self.is_one_needed(choices.as_slice()),
            Some(Outcome::Abort) => true,
            None => false,
        }
    }

    // Whether nothing is asked of the outcome of a finished transaction, by the facts that are left.
    fn is_unasked(&self, tx: TxId) -> bool
        ensures { (facts : List AFact) (kept : IsKept self.now facts) → result ≡ (is_past facts (heard_of (without_floors kept.rest) tx) && not (has_open_mark (without_floors kept.rest) tx)) }
    {
        self.is_past(&self.rest().heard(tx)) && !self.marked.has_open_mark(self.rest(), tx)
    }

    // Whether what was heard of a transaction is idle, by the facts that are left.
    pub(crate) fn is_idle(&self, tx: TxId) -> bool
        ensures { (facts : List AFact) (kept : IsKept self.now facts) → result ≡ is_idle kept.rest tx }
    {
        self.finished(tx) && self.is_unasked(tx)
    }

    /// Whether an outcome of the transaction was heard, or all centres have heard one.
    pub fn is_settled(&self, tx: TxId) -> bool
        ensures { (facts : List AFact) → IsKept self.now facts → result ≡ is_settled facts tx }
    {
        self.rest().is_heard(tx) || self.finished(tx)
    }

    // What is left of a vote.
    fn left_of_vote(&self, key: &Key, version: u64, ballot: &Ballot, options: &Options) -> Left
        ensures { (facts : List AFact) → IsKept self.now facts → result ≡ (if is_vote_past facts key.now version options.now then (if is_fast ballot.now then Dropped else Bared) else Whole) }
    {
        if !self.is_vote_past(key, version, options) {
            Left::Whole
        } else if ballot.is(&Ballot::FAST) {
            Left::Dropped
        } else {
            Left::Bared
        }
    }

    /// What is left of a fact among those that are left, floors apart.
    pub fn left_of(&self, fact: &Fact) -> Left
        ensures { (facts : List AFact) (kept : IsKept self.now facts) (number : ℕ) → fact_numbered (without_floors kept.rest) number ≡ Some fact.now → result ≡ left_by facts fact.now }
    {
        match fact {
            Fact::Voted {
                key,
                version,
                ballot,
                options,
                offered: _,
            } => self.left_of_vote(key, *version, ballot, options),
            Fact::Adopted { key, version, .. } => dropped_if(*version < self.current(key)),
            Fact::Heard { tx, outcome: _ } => dropped_if(self.is_idle(*tx)),
            Fact::Booted(_) => Left::Whole,
            Fact::Promised { .. } => Left::Whole,
            Fact::Floor { .. } => Left::Whole,
        }
    }
}

// Nothing is left where nothing is asked.
fn dropped_if(past: bool) -> Left
    ensures { result ≡ (if past then Dropped else Whole) }
{
    if past { Left::Dropped } else { Left::Whole }
}
