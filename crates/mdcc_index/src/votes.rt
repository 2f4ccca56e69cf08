//! The votes of an instance.
ghost use Rattle.std.specs.List.{filter, fold};
ghost use Rattle.std.specs.Prelude.{◌≡◌, ◌-◌, None, Some, IfOk, List, is_some, option_map, true};
ghost use Rattle.mdcc_def_messages.specs.declared.facts.Fact.{Fact as AFact};
ghost use Rattle.mdcc_def_protocol.specs.Facts.{first_choice_voted, last_ballot, last_vote, promise_of, votes_of, write_sets_of};
ghost use Rattle.mdcc_struct.specs.Maps.{value_of};
ghost use Rattle.mdcc_def_protocol.specs.Stores.{count_voted};
ghost use Rattle.mdcc_def_protocol.specs.Plain.{plain_entries_at, plain_mark_after, plain_mark_below};
ghost use Rattle.mdcc_theorem_fact_folds.specs.Chains.{is_of_instance};
ghost use Rattle.mdcc_theorem_fact_folds.specs.Votes.{least_above, older_mark};
ghost use Rattle.mdcc_cells_indices.specs.Active.{is_active};
ghost use Rattle.mdcc_index.specs.Marks.{next_marked, next_voted};
ghost use Rattle.mdcc_index.specs.Stores.{Represents};

use crate::FactPool;
use mdcc_base::{Ballot, Key, Memory, TxId};
use mdcc_cells_facts::FactStep;
use mdcc_cells_indices::ballot_max;
use mdcc_cells_tables::HeardTest;
use mdcc_cells_vote_walk::{
    GatheredMarks, LeastAbove, OlderChoice, OlderMark, OlderVote, WithBallot, WithCount,
};
use mdcc_option::{Choice, Mark};
use mdcc_struct::Options;
use std::alloc::Global;

impl FactPool {
    // Takes a step at each fact of an instance, from the newest to the oldest.
    pub(crate) fn walk<S: FactStep>(&self, key: &Key, version: u64, state: &mut S)
        ensures { (facts : List AFact) → Represents self.now facts → state.new ≡ fold S.step state.old (filter (is_of_instance key.now version) facts) }
    {
        self.instances.walk(&self.cells, key, version, state);
    }

    // The same, where rejections at the fast ballot are passed by.
    pub(crate) fn walk_active<S: FactStep>(&self, key: &Key, version: u64, state: &mut S)
        ensures { (facts : List AFact) → Represents self.now facts → state.new ≡ fold S.step state.old (filter (is_of_instance key.now version) (filter is_active facts)) }
    {
        self.active.walk(&self.cells, key, version, state);
    }

    /// The greatest ballot that was promised for the instance, or voted at in it.
    pub fn promise(&self, key: &Key, version: u64) -> Ballot
        ensures { (facts : List AFact) → Represents self.now facts → result ≡ promise_of facts key.now version }
    {
        let tally = self.tallies.tally(&(*key, version));
        let promised = self.promises.greatest(key, version);
        ballot_max(tally.ballot, promised)
    }

    // Whether no fact has a choice of a transaction, as far as tables tell.
    fn is_unknown(&self, tx: TxId) -> bool
        ensures { (facts : List AFact) → Represents self.now facts → result ≡ true → value_of (write_sets_of facts) tx ≡ None }
    {
        match self.unresolved.find(tx) {
            Some(_) => false,
            None => !self.outcomes.is_heard(tx),
        }
    }

    // Whether there is no vote on a transaction in an instance, as far as tables tell.
    fn is_unvoted(&self, key: &Key, version: u64, tx: TxId) -> bool
        ensures { (facts : List AFact) → Represents self.now facts → result ≡ true → last_vote facts key.now version tx ≡ None }
    {
        let tally = self.tallies.tally(&(*key, version));
        if tally.bare {
            false
        } else {
            self.is_unknown(tx)
        }
    }

    /// The mark of a transaction in an instance at the greatest ballot at which it was voted.
    pub fn vote_of(&self, key: &Key, version: u64, tx: TxId) -> Option<(Ballot, Mark)>
        ensures { (facts : List AFact) → Represents self.now facts → result ≡ last_vote facts key.now version tx }
    {
        if self.is_unvoted(key, version, tx) {
            return None;
        }
        let mut state = OlderVote {
            key: *key,
            version,
            tx,
            found: None,
        };
        self.walk(key, version, &mut state);
        state.found
    }

    /// The greatest ballot below another one at which there is a vote in the instance; the fast one
    /// where there is none.
    pub fn voted_below(&self, key: &Key, version: u64, below: Ballot) -> Ballot
        ensures { (facts : List AFact) → Represents self.now facts → result ≡ last_ballot facts key.now version below }
    {
        let mut state = WithBallot {
            key: *key,
            version,
            below,
            ballot: Ballot::FAST,
        };
        self.walk_active(key, version, &mut state);
        state.ballot
    }

    /// The first choice of a transaction that a vote in the instance accepts or has as offered.
    pub fn choice_of(&self, key: &Key, version: u64, tx: TxId) -> Option<Choice>
        ensures { (facts : List AFact) → Represents self.now facts → result ≡ first_choice_voted facts key.now version tx }
    {
        let mut state = OlderChoice {
            key: *key,
            version,
            tx,
            found: None,
        };
        self.walk(key, version, &mut state);
        state.found
    }

    /// How many transactions of a structure were voted in an instance at a ballot.
    pub fn count_voted(&self, key: &Key, version: u64, ballot: Ballot, options: &Options) -> usize
        ensures { (facts : List AFact) → Represents self.now facts → result ≡ count_voted facts key.now version ballot options.now }
    {
        let _most = options.len();
        let mut state = WithCount {
            key: *key,
            version,
            ballot,
            options,
            count: 0,
        };
        self.walk(key, version, &mut state);
        state.count
    }

    /// How many marks accept and how many reject in an instance at the fast ballot, each at most
    /// 2^32 - 1.
    pub fn entries(&self, key: &Key, version: u64) -> (u32, u32)
        ensures { (facts : List AFact) → Represents self.now facts → result ≡ plain_entries_at facts key.now version }
    {
        let tally = self.tallies.tally(&(*key, version));
        (tally.accepts, tally.rejects)
    }

    // The least transaction above the last one that has a mark in an instance at a ballot.
    fn least_above(
        &self,
        key: &Key,
        version: u64,
        ballot: Ballot,
        last: Option<TxId>,
    ) -> Option<TxId>
        ensures { (facts : List AFact) → Represents self.now facts → result ≡ fold (least_above key.now version ballot last) None (filter (is_of_instance key.now version) facts) }
    {
        let mut state = LeastAbove {
            key: *key,
            version,
            ballot,
            last,
            found: None,
        };
        self.walk(key, version, &mut state);
        state.found
    }

    // The mark of a transaction in an instance at a ballot.
    fn mark_at(&self, key: &Key, version: u64, ballot: Ballot, tx: TxId) -> Option<Mark>
        ensures { (facts : List AFact) → Represents self.now facts → result ≡ fold (older_mark key.now version ballot tx) None (filter (is_of_instance key.now version) facts) }
    {
        let mut state = OlderMark {
            key: *key,
            version,
            ballot,
            tx,
            found: None,
        };
        self.walk(key, version, &mut state);
        state.found
    }

    /// Whether a transaction was voted in an instance at a ballot.
    pub fn is_voted(&self, key: &Key, version: u64, ballot: Ballot, tx: TxId) -> bool
        ensures { (facts : List AFact) → Represents self.now facts → result ≡ is_some (value_of (votes_of facts key.now version ballot) tx) }
    {
        self.mark_at(key, version, ballot, tx).is_some()
    }

    // The next mark above a transaction, or the first, of the votes at a ballot, by two walks.
    fn next_marked(
        &self,
        key: &Key,
        version: u64,
        ballot: Ballot,
        last: Option<TxId>,
    ) -> Option<(Ballot, TxId, Mark)>
        ensures { (facts : List AFact) → Represents self.now facts → result ≡ next_marked key.now version ballot last (filter (is_of_instance key.now version) facts) }
    {
        let tx = self.least_above(key, version, ballot, last)?;
        let mark = self.mark_at(key, version, ballot, tx)?;
        Some((ballot, tx, mark))
    }

    /// The next mark above a transaction, or the first, of the votes in an instance at a ballot, with
    /// that ballot.
    pub fn next_mark(
        &self,
        key: &Key,
        version: u64,
        ballot: Ballot,
        last: Option<TxId>,
    ) -> Option<(Ballot, TxId, Mark)>
        ensures { (facts : List AFact) → Represents self.now facts → result ≡ next_voted facts key.now version ballot last }
    {
        self.next_marked(key, version, ballot, last)
    }

    /// The next mark above a transaction, or the first, of the votes at the greatest ballot below
    /// another one, with that ballot.
    pub fn mark_after(
        &self,
        key: &Key,
        version: u64,
        below: Ballot,
        last: Option<TxId>,
    ) -> Option<(Ballot, TxId, Mark)>
        ensures { (facts : List AFact) → Represents self.now facts → result ≡ plain_mark_after facts key.now version below last }
    {
        if below.is(&Ballot::FAST) {
            None
        } else {
            self.next_mark(key, version, self.voted_below(key, version, below), last)
        }
    }

    // Its transaction.
    fn tx_after(&self, key: &Key, version: u64, below: Ballot, last: Option<TxId>) -> Option<TxId>
        ensures { (facts : List AFact) → Represents self.now facts → result ≡ option_map (λ mark. mark.1) (plain_mark_after facts key.now version below last) }
    {
        match self.mark_after(key, version, below, last) {
            Some((_, tx, _)) => Some(tx),
            None => None,
        }
    }

    /// The mark at a place, from 0, of the votes at the greatest ballot below another one, with
    /// that ballot. There is none below the fast ballot.
    pub fn marks(
        &self,
        key: &Key,
        version: u64,
        below: Ballot,
        place: usize,
    ) -> Option<(Ballot, TxId, Mark)>
        ensures { (facts : List AFact) → Represents self.now facts → result ≡ plain_mark_below facts key.now version below place }
    {
        let mut last = None;
        let mut left = place;
        while left > 0 {
            match self.tx_after(key, version, below, last) {
                Some(tx) => last = Some(tx),
                None => return None,
            }
            left -= 1;
        }
        self.mark_after(key, version, below, last)
    }

    /// All marks that were voted in an instance at a ballot.
    pub fn votes(
        &self,
        alloc: Global,
        key: &Key,
        version: u64,
        ballot: Ballot,
    ) -> Result<Options, Memory>
        ensures { (facts : List AFact) → Represents self.now facts → IfOk result (λ votes. votes ≡ votes_of facts key.now version ballot) }
    {
        let mut gathered = GatheredMarks::new(alloc);
        self.instances
            .gather(&self.cells, key, version, &ballot, &mut gathered)?;
        gathered.joined(alloc)
    }
}
