//! What a store of facts promises.
ghost use Rattle.std.specs.Prelude.{◌≡◌, ◌≤◌, ◌-◌, ◌∷◌, ℕ, IfOk, IsTrue, List, OnErr, OnOk, true};
ghost use Rattle.mdcc_base.specs.Unless.{GivesUnless};
ghost use Rattle.mdcc_def_messages.specs.Lengths.{cells_needed};
ghost use Rattle.mdcc_def_messages.specs.declared.facts.Fact.{Fact as AFact};
ghost use Rattle.mdcc_def_protocol.specs.Cells.{cells_held};
ghost use Rattle.mdcc_def_protocol.specs.Facts.{base_of, choice_known, current_of, epoch_of, executed_of, is_finished, is_heard, is_settled, last_ballot, outcome_kept, promise_of, promised_through, shown_of, unresolved_of, vote_of};
ghost use Rattle.mdcc_def_protocol.specs.News.{is_crowding};
ghost use Rattle.mdcc_def_protocol.specs.Stores.{delta_of, ended_of, entries_at, load_at, mark_after, mark_below, unresolved_at};
ghost use Rattle.mdcc_struct.specs.Maps.{txs_of, value_of};
ghost use Rattle.mdcc_facts.specs.Adding.{MayBeAdded, add_result, is_store_memory};
ghost use Rattle.mdcc_facts.specs.Past.{count_past};

use mdcc_base::{Ballot, HeapList, Key, Memory, TxId};
use mdcc_def_messages::Fact;
use mdcc_def_protocol::{Load, StoreFault};
use mdcc_option::{Choice, Delta, Item, Mark, Outcome, Seen, WriteSet};
use mdcc_struct::Options;
use std::alloc::Global;

/// A store of the facts of one centre. It answers what they say. Where an answer may be that there
/// is no memory, it takes some for it, and else none.
pub trait FactStore {
    /// The lists of facts, the newest first, for which it stands.
    ghost stands: { Self → List AFact → Type 0 };

    /// How many cells it has.
    ghost cells: { Self → ℕ };

    /// Adds a fact. It needs cells for the whole of it before anything is given back for it.
    fn add(&mut self, fact: &Fact) -> Result<(), StoreFault>
        requires { (facts : List AFact) → stands self.old facts → MayBeAdded facts fact.now }
        ensures answer { (facts : List AFact) → stands self.old facts → GivesUnless is_store_memory result (add_result (cells self.old - cells_held facts) (cells_needed fact.now) facts fact.now) }
        ensures ok { (facts : List AFact) → stands self.old facts → OnOk result (stands self.new (fact.now ∷ facts)) }
        ensures err { (facts : List AFact) → stands self.old facts → OnErr result (stands self.new facts) }
        ensures cells { cells self.new ≡ cells self.old };

    /// The greatest ballot that was promised for the instance, or voted at in it.
    fn promise(&self, key: &Key, version: u64) -> Ballot
        ensures { (facts : List AFact) → stands self.now facts → result ≡ promise_of facts key.now version };

    /// The high end of the promise of this ballot that begins at this version.
    fn promised(&self, key: &Key, version: u64, ballot: Ballot) -> Option<u64>
        ensures { (facts : List AFact) → stands self.now facts → result ≡ promised_through facts key.now version ballot };

    /// The mark of a transaction in an instance at the greatest ballot at which it was voted, unless
    /// it is forgotten.
    fn vote_of(&self, key: &Key, version: u64, tx: TxId) -> Option<(Ballot, Mark)>
        ensures { (facts : List AFact) → stands self.now facts → result ≡ vote_of facts key.now version tx };

    /// The greatest ballot below another one at which there is a vote in the instance; the fast one
    /// where there is none.
    fn voted_below(&self, key: &Key, version: u64, below: Ballot) -> Ballot
        ensures { (facts : List AFact) → stands self.now facts → result ≡ last_ballot facts key.now version below };

    /// The marks that were voted in an instance at a ballot and are not forgotten.
    fn votes(
        &self,
        alloc: Global,
        key: &Key,
        version: u64,
        ballot: Ballot,
    ) -> Result<Options, Memory>
        ensures { (facts : List AFact) → stands self.now facts → IfOk result (λ votes. votes ≡ shown_of facts key.now version ballot) };

    /// How many transactions of a structure are finished, or were voted in an instance at a ballot.
    fn count_past(&self, key: &Key, version: u64, ballot: Ballot, options: &Options) -> usize
        ensures { (facts : List AFact) → stands self.now facts → result ≡ count_past facts key.now version ballot options.now };

    /// Whether an outcome of the transaction was heard, or all centres have heard one.
    fn is_settled(&self, tx: TxId) -> bool
        ensures { (facts : List AFact) → stands self.now facts → result ≡ is_settled facts tx };

    /// Whether all centres have heard how the transaction ended, this one among them.
    fn finished(&self, tx: TxId) -> bool
        ensures heard { (facts : List AFact) → stands self.now facts → IsTrue result → is_heard facts tx ≡ true }
        ensures value { (facts : List AFact) → stands self.now facts → result ≡ is_finished facts tx };

    /// Whether the outcome that is kept of a transaction is a commit.
    fn ended(&self, tx: TxId) -> Option<bool>
        ensures { (facts : List AFact) → stands self.now facts → result ≡ ended_of facts tx };

    /// The outcome that was heard of a transaction, unless it is idle.
    fn heard(&self, tx: TxId) -> Option<Outcome>
        ensures { (facts : List AFact) → stands self.now facts → result ≡ outcome_kept facts tx };

    /// The version that is held.
    fn current(&self, key: &Key) -> u64
        ensures { (facts : List AFact) → stands self.now facts → result ≡ current_of facts key.now };

    /// The base of the version that is held; there is none at version 0.
    fn base(&self, key: &Key) -> Option<Item>
        ensures { (facts : List AFact) → stands self.now facts → result ≡ base_of facts key.now };

    /// The transactions whose deltas are executed.
    fn executed(&self, key: &Key) -> Seen
        ensures { (facts : List AFact) → stands self.now facts → result ≡ txs_of (executed_of facts key.now) };

    /// The delta of an executed transaction.
    fn delta(&self, key: &Key, tx: TxId) -> Option<Delta>
        ensures { (facts : List AFact) → stands self.now facts → result ≡ delta_of facts key.now tx };

    /// What the live choices of an instance weigh beside a seen set. Counts stop at 2^32 - 1 and
    /// sums at 2^96. Below the version that is held nothing is promised of them: what was adopted
    /// there may be given back.
    fn load(&self, key: &Key, version: u64, seen: &[TxId]) -> Load
        ensures { (facts : List AFact) → stands self.now facts → current_of facts key.now ≤ version → result ≡ load_at facts key.now version seen.now };

    /// How many marks that are shown accept and how many reject in an instance at the fast ballot,
    /// each at most 2^32 - 1.
    fn entries(&self, key: &Key, version: u64) -> (u32, u32)
        ensures { (facts : List AFact) → stands self.now facts → result ≡ entries_at facts key.now version };

    /// The mark at a place, from 0, of the votes at the greatest ballot below another one, with
    /// that ballot. There is none below the fast ballot.
    fn marks(
        &self,
        key: &Key,
        version: u64,
        below: Ballot,
        place: usize,
    ) -> Option<(Ballot, TxId, Mark)>
        ensures { (facts : List AFact) → stands self.now facts → result ≡ mark_below facts key.now version below place };

    /// The next mark above a transaction, or the first, of the votes at the greatest ballot below
    /// another one, with that ballot.
    fn mark_after(
        &self,
        key: &Key,
        version: u64,
        below: Ballot,
        last: Option<TxId>,
    ) -> Option<(Ballot, TxId, Mark)>
        ensures { (facts : List AFact) → stands self.now facts → result ≡ mark_after facts key.now version below last };

    /// The transaction at a place, from 0, of those of which a vote holds a choice and that are not
    /// settled, ascending, with its write set.
    fn unresolved(&self, place: usize) -> Option<(TxId, WriteSet)>
        ensures { (facts : List AFact) → stands self.now facts → result ≡ unresolved_at facts place };

    /// The write set of a transaction of which a vote holds a choice and that is not settled.
    fn write_set(&self, tx: TxId) -> Option<WriteSet>
        ensures { (facts : List AFact) → stands self.now facts → result ≡ value_of (unresolved_of facts) tx };

    /// All such transactions, ascending, with their write sets.
    fn unresolved_all(&self, alloc: Global) -> Result<HeapList<(TxId, WriteSet)>, Memory>
        ensures { (facts : List AFact) → stands self.now facts → IfOk result (λ all. all ≡ unresolved_of facts) };

    /// The first choice of a transaction that a vote in the instance accepts or has as offered.
    fn choice_of(&self, key: &Key, version: u64, tx: TxId) -> Option<Choice>
        ensures { (facts : List AFact) → stands self.now facts → result ≡ choice_known facts key.now version tx };

    /// Whether more than 64 deltas of one version would be executed with this fact.
    fn would_crowd(&self, fact: &Fact) -> bool
        ensures { (facts : List AFact) → stands self.now facts → result ≡ is_crowding facts fact.now };

    /// The epoch of the last boot.
    fn epoch(&self) -> u32
        ensures { (facts : List AFact) → stands self.now facts → result ≡ epoch_of facts };

    /// How many cells it has, those that facts hold among them.
    fn cells(&self) -> u64
        ensures { result ≡ cells self.now };
}
