//! The marks of an instance that are not forgotten, one after the other.
ghost use Rattle.std.specs.Prelude.{◌≡◌, List};
ghost use Rattle.mdcc_def_messages.specs.declared.facts.Fact.{Fact as AFact};
ghost use Rattle.mdcc_def_protocol.specs.Stores.{entries_at, mark_after, mark_below};
ghost use Rattle.mdcc_facts.specs.Weights.{with_mark};
ghost use Rattle.mdcc_facts_kept.specs.Kept.{IsKept};
ghost use Rattle.mdcc_facts_kept.specs.Next.{IsRanked, next_shown, tx_shown};

use crate::KeptFacts;
use mdcc_base::{Ballot, Key, Plain, TxId};
use mdcc_option::Mark;

// The numbers of a transaction have their sizes.
fn tx_is_ranked(tx: TxId)
    ensures { IsRanked tx }
{
    let _centre = tx.centre.number();
}

// The counts of accepting and rejecting marks with one more; each stops at 2^32 - 1.
fn with_mark(counts: (u32, u32), mark: &(Ballot, TxId, Mark)) -> (u32, u32)
    ensures { result ≡ with_mark counts (mark.now.1, mark.now.2) }
{
    match &mark.2 {
        Mark::Accept(_) => (counts.0.saturating_add(1), counts.1),
        Mark::Reject => (counts.0, counts.1.saturating_add(1)),
    }
}

impl KeptFacts {
    // The next mark above a transaction, or the first, of the votes at a ballot that are not forgotten,
    // with that ballot.
    fn next_shown(
        &self,
        key: &Key,
        version: u64,
        ballot: Ballot,
        last: Option<TxId>,
    ) -> Option<(Ballot, TxId, Mark)>
        ensures { (facts : List AFact) → IsKept self.now facts → result ≡ next_shown facts key.now version ballot last }
    {
        let _facts = self.len();
        let mut next = self.rest().next_mark(key, version, ballot, last);
        while let Some(mark) = next {
            let tx = mark.1;
            if !self.is_forgotten(key, version, tx) {
                return Some(mark);
            }
            tx_is_ranked(tx);
            next = self.rest().next_mark(key, version, ballot, Some(tx));
        }
        None
    }

    /// The next mark above a transaction, or the first, of the votes at the greatest ballot below
    /// another one, with that ballot.
    pub fn mark_after(
        &self,
        key: &Key,
        version: u64,
        below: Ballot,
        last: Option<TxId>,
    ) -> Option<(Ballot, TxId, Mark)>
        ensures { (facts : List AFact) → IsKept self.now facts → result ≡ mark_after facts key.now version below last }
    {
        if below.is(&Ballot::FAST) {
            None
        } else {
            self.next_shown(key, version, self.voted_below(key, version, below), last)
        }
    }

    // Its transaction.
    fn tx_after(&self, key: &Key, version: u64, below: Ballot, last: Option<TxId>) -> Option<TxId>
        ensures { (facts : List AFact) → IsKept self.now facts → result ≡ tx_shown (mark_after facts key.now version below last) }
    {
        match self.mark_after(key, version, below, last) {
            Some((_, tx, _)) => Some(tx),
            None => None,
        }
    }

    /// The mark at a place, from 0, of the votes at the greatest ballot below another one, with
    /// that ballot. There is none below the fast ballot.
    pub fn marks(
        &self,
        key: &Key,
        version: u64,
        below: Ballot,
        place: usize,
    ) -> Option<(Ballot, TxId, Mark)>
        ensures { (facts : List AFact) → IsKept self.now facts → result ≡ mark_below facts key.now version below place }
    {
        let mut last = None;
        for _at in 0..place {
            match self.tx_after(key, version, below, last) {
                Some(tx) => last = Some(tx),
                None => return None,
            }
        }
        self.mark_after(key, version, below, last)
    }

    // How many marks that are not forgotten accept and how many reject, by a walk over them.
    fn count_shown(&self, key: &Key, version: u64) -> (u32, u32)
        ensures { (facts : List AFact) → IsKept self.now facts → result ≡ entries_at facts key.now version }
    {
        let _facts = self.len();
        let mut counts = (0, 0);
        let mut next = self.next_shown(key, version, Ballot::FAST, None);
        while let Some(mark) = next {
            let tx = mark.1;
            counts = with_mark(counts, &mark);
            tx_is_ranked(tx);
            next = self.next_shown(key, version, Ballot::FAST, Some(tx));
        }
        counts
    }

    /// How many marks accept and how many reject in an instance at the fast ballot, each at most
    /// 2^32 - 1.
    pub fn entries(&self, key: &Key, version: u64) -> (u32, u32)
        ensures { (facts : List AFact) → IsKept self.now facts → result ≡ entries_at facts key.now version }
    {
        if version < self.current(key) {
            self.count_shown(key, version)
        } else {
            self.rest().entries(key, version)
        }
    }
}
