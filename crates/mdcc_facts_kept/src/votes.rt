//! The votes of an instance.
ghost use Rattle.std.specs.List.{list_any};
ghost use Rattle.std.specs.Prelude.{◌≡◌, IfOk, List};
ghost use Rattle.mdcc_def_messages.specs.declared.facts.Fact.{Fact as AFact};
ghost use Rattle.mdcc_def_protocol.specs.Facts.{choice_known, is_finished, last_ballot, promise_of, shown_of, vote_of, without_forgotten};
ghost use Rattle.mdcc_facts.specs.Past.{count_past, is_past_mark};
ghost use Rattle.mdcc_facts_kept.specs.Kept.{IsKept};

use crate::KeptFacts;
use mdcc_base::{Ballot, Key, Memory, Plain, TxId};
use mdcc_option::{Choice, Mark};
use mdcc_struct::Options;
use std::alloc::Global;

impl KeptFacts {
    /// The greatest ballot that was promised for the instance, or voted at in it.
    pub fn promise(&self, key: &Key, version: u64) -> Ballot
        ensures { (facts : List AFact) → IsKept self.now facts → result ≡ promise_of facts key.now version }
    {
        self.rest().promise(key, version)
    }

    /// The greatest ballot below another one at which there is a vote in the instance; the fast one
    /// where there is none.
    pub fn voted_below(&self, key: &Key, version: u64, below: Ballot) -> Ballot
        ensures { (facts : List AFact) → IsKept self.now facts → result ≡ last_ballot facts key.now version below }
    {
        self.rest().voted_below(key, version, below)
    }

    /// The mark of a transaction in an instance at the greatest ballot at which it was voted, unless
    /// it is forgotten.
    pub fn vote_of(&self, key: &Key, version: u64, tx: TxId) -> Option<(Ballot, Mark)>
        ensures { (facts : List AFact) → IsKept self.now facts → result ≡ vote_of facts key.now version tx }
    {
        if self.is_forgotten(key, version, tx) {
            None
        } else {
            self.rest().vote_of(key, version, tx)
        }
    }

    /// The first choice of a transaction that a vote in the instance accepts or has as offered, unless
    /// its mark is forgotten.
    pub fn choice_of(&self, key: &Key, version: u64, tx: TxId) -> Option<Choice>
        ensures { (facts : List AFact) → IsKept self.now facts → result ≡ choice_known facts key.now version tx }
    {
        if self.is_forgotten(key, version, tx) {
            None
        } else {
            self.rest().choice_of(key, version, tx)
        }
    }

    // Whether a transaction was voted in an instance at a ballot, or is finished.
    fn is_past_mark(&self, key: &Key, version: u64, ballot: Ballot, tx: TxId) -> bool
        ensures { (facts : List AFact) → IsKept self.now facts → result ≡ is_past_mark facts key.now version ballot tx }
    {
        self.rest().is_voted(key, version, ballot, tx) || self.finished(tx)
    }

    // The same of each transaction of a structure.
    fn count_each(&self, key: &Key, version: u64, ballot: Ballot, options: &Options) -> usize
        ensures { (facts : List AFact) → IsKept self.now facts → result ≡ count_past facts key.now version ballot options.now }
    {
        let mut count = 0;
        for place in 0..options.len() {
            let (tx, _) = options.at(place);
            if self.is_past_mark(key, version, ballot, tx) {
                count += 1;
            }
        }
        count
    }

    // Whether one of the transactions of a structure is finished.
    fn is_one_finished(&self, options: &Options) -> bool
        ensures { (facts : List AFact) → IsKept self.now facts → result ≡ list_any (λ e. is_finished facts e.0) options.now }
    {
        for place in 0..options.len() {
            let (tx, _) = options.at(place);
            if self.finished(tx) {
                return true;
            }
        }
        false
    }

    /// How many transactions of a structure are finished, or were voted in an instance at a ballot.
    pub fn count_past(&self, key: &Key, version: u64, ballot: Ballot, options: &Options) -> usize
        ensures { (facts : List AFact) → IsKept self.now facts → result ≡ count_past facts key.now version ballot options.now }
    {
        if self.is_one_finished(options) {
            self.count_each(key, version, ballot, options)
        } else {
            self.rest().count_voted(key, version, ballot, options)
        }
    }

    // The marks of a structure that are not forgotten in an instance.
    fn without_forgotten(
        &self,
        alloc: Global,
        key: &Key,
        version: u64,
        options: &Options,
    ) -> Result<Options, Memory>
        ensures { (facts : List AFact) → IsKept self.now facts → IfOk result (λ shown. shown ≡ without_forgotten facts key.now version options.now) }
    {
        let mut shown = Options::new(alloc)?;
        for place in 0..options.len() {
            let (tx, mark) = options.at(place);
            if !self.is_forgotten(key, version, tx) {
                shown.insert(tx, mark.copy())?;
            }
        }
        Ok(shown)
    }

    /// The marks that were voted in an instance at a ballot and are not forgotten.
    pub fn votes(
        &self,
        alloc: Global,
        key: &Key,
        version: u64,
        ballot: Ballot,
    ) -> Result<Options, Memory>
        ensures { (facts : List AFact) → IsKept self.now facts → IfOk result (λ votes. votes ≡ shown_of facts key.now version ballot) }
    {
        let votes = self.rest().votes(alloc, key, version, ballot)?;
        if version < self.current(key) {
            self.without_forgotten(alloc, key, version, &votes)
        } else {
            Ok(votes)
        }
    }
}
