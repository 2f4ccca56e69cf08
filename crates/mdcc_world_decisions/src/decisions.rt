//! The votes of a cluster, and which transactions they end.
ghost use Rattle.std.specs.Prelude.{◌≡◌, ◌∷◌, [], List, Option, ℕ, IfOk, IsOkAnd, IsTrue, OnOk, map, ◌++◌};
ghost use Rattle.std.specs.Option.{option_to_list};
ghost use Rattle.mdcc_base.specs.Sizes.{Sizes};
ghost use Rattle.mdcc_world_decisions.specs.Decided.{decided_of, all_newly_decided, instance_of_choice, entry_decisions, totals_of, with_decided, with_decided_of};
ghost use Rattle.mdcc_world_decisions.specs.Represents.{RepresentsLedger};
ghost use Rattle.mdcc_option.specs.declared.choices.Choice.{Choice as AChoice};
ghost use Rattle.mdcc_def_ledger.specs.Ledger.{Added, Begun, Entry, txs_begun};
ghost use Rattle.mdcc_def_messages.specs.declared.facts.Fact.{Fact as AFact};
ghost use Rattle.mdcc_struct.specs.Maps.{are_ascending, txs_of};

use crate::ballots::{BallotsByKey, keep_ballot};
use crate::casts::{CastsByTx, casts_at, keep_casts};
use crate::decided::{InstancesByTx, decided_cast, instances_at, newly_decided};
use indexmap::IndexMap;
use mdcc_base::{Ballot, HeapList, Key, Memory, Quorums, TxId};
use mdcc_def_messages::Fact;
use mdcc_option::Choice;
use mdcc_struct::Options;
use std::alloc::Global;

/// The votes of all centres of a cluster, and the transactions that were begun.
#[derive(Drop)]
pub struct Decisions {
    alloc: Global,
    quorums: Quorums,
    begun: InstancesByTx,
    casts: CastsByTx,
    ballots: BallotsByKey,
}

/// How many transactions ended in each way.
#[derive(Clone, Copy, Debug, Default, PartialEq, Eq)]
pub struct Totals {
    pub commits: u32,
    pub aborts: u32,
    pub undecided: u32,
}

impl Decisions {
    /// Nothing was begun, and nothing voted.
    pub fn new(alloc: Global, quorums: &Quorums) -> Result<Decisions, Memory>
        ensures { IsOkAnd result (λ decisions. RepresentsLedger decisions quorums.now []) }
    {
        Ok(Decisions {
            alloc,
            quorums: *quorums,
            begun: IndexMap::new(alloc),
            casts: IndexMap::new(alloc),
            ballots: IndexMap::new(alloc),
        })
    }

    /// How a transaction ended: true is commit.
    pub fn decided_of(&self, tx: &TxId) -> Option<bool>
        ensures { (quorums : Sizes) (entries : List Entry) → RepresentsLedger self.now quorums entries
            → result ≡ decided_of quorums entries tx.now }
    {
        decided_cast(
            &self.quorums,
            &self.ballots,
            casts_at(&self.casts, tx),
            instances_at(&self.begun, tx),
        )
    }

    /// A transaction is begun with these choices. At most 2^32 - 1 are. After want of memory the
    /// outcomes are to be let go, since a part of it may be counted.
    pub fn begin(&mut self, tx: TxId, choices: &[Choice]) -> Result<(), Memory>
        ensures { (quorums : Sizes) (entries : List Entry) (centre : ℕ) → RepresentsLedger self.old quorums entries
            → OnOk result (RepresentsLedger self.new quorums (Begun centre tx choices.now ∷ entries)) }
    {
        if self.begun.len() >= u32::MAX as usize {
            return Err(Memory);
        }
        let instances = instances_of(self.alloc, choices)?;
        self.begun.insert(tx, instances)?;
        Ok(())
    }

    // How the transactions of these marks ended.
    fn all_decided(&self, options: &Options) -> Result<HeapList<(TxId, Option<bool>)>, Memory>
        ensures endings { (quorums : Sizes) (entries : List Entry) → RepresentsLedger self.now quorums entries
            → IfOk result (λ endings. endings ≡ map (with_decided_of quorums entries) (txs_of options.now)) }
        ensures ascending { OnOk result (IsTrue (are_ascending options.now)) }
    {
        let mut endings = HeapList::new(self.alloc);
        for i in 0..options.len() {
            let (tx, _) = options.at(i);
            endings.push((tx, self.decided_of(&tx)))?;
        }
        Ok(endings)
    }

    // The endings that are there now, and were not before.
    fn all_newly_decided(
        &self,
        before: &[(TxId, Option<bool>)],
    ) -> Result<HeapList<(TxId, bool)>, Memory>
        ensures { (quorums : Sizes) (entries : List Entry) → RepresentsLedger self.now quorums entries
            → IfOk result (λ endings. endings ≡ all_newly_decided quorums entries before.now) }
    {
        let mut endings = HeapList::new(self.alloc);
        for was in before {
            push_decided(
                &mut endings,
                newly_decided(was.0, self.decided_of(&was.0), was.1),
            )?;
        }
        Ok(endings)
    }

    // The votes of a centre on some marks are counted.
    fn cast(
        &mut self,
        centre: u8,
        key: &Key,
        version: u64,
        ballot: &Ballot,
        options: &Options,
    ) -> Result<(), Memory>
        ensures { (quorums : Sizes) (entries : List Entry) (offered : Option AChoice) → RepresentsLedger self.old quorums entries
            → OnOk result (RepresentsLedger self.new quorums (Added centre (AFact.Voted key.now version ballot.now options.now offered) ∷ entries)) }
    {
        keep_casts(
            self.alloc,
            &mut self.casts,
            centre,
            key,
            version,
            ballot,
            options,
        )?;
        keep_ballot(self.alloc, &mut self.ballots, key, version, ballot)?;
        Ok(())
    }

    /// A centre adds a fact. It gives the transactions that end with it, in ascending order: true
    /// is commit. After want of memory the outcomes are to be let go, since a part of the fact may be
    /// counted.
    pub fn add(&mut self, centre: u8, fact: &Fact) -> Result<HeapList<(TxId, bool)>, Memory>
        ensures stands { (quorums : Sizes) (entries : List Entry) → RepresentsLedger self.old quorums entries
            → OnOk result (RepresentsLedger self.new quorums (Added centre fact.now ∷ entries)) }
        ensures endings { (quorums : Sizes) (entries : List Entry) → RepresentsLedger self.old quorums entries
            → IfOk result (λ endings. endings ≡ entry_decisions quorums (Added centre fact.now) entries) }
    {
        match fact {
            Fact::Voted {
                key,
                version,
                ballot,
                options,
                offered: _,
            } => {
                let before = self.all_decided(options)?;
                self.cast(centre, key, *version, ballot, options)?;
                self.all_newly_decided(before.as_slice())
            }
            _ => Ok(HeapList::new(self.alloc)),
        }
    }

    /// How many of the begun transactions committed, aborted, and have not ended.
    pub fn totals(&self) -> Totals
        ensures { (quorums : Sizes) (entries : List Entry) → RepresentsLedger self.now quorums entries
            → result ≡ totals_of (decided_of quorums entries) (txs_begun entries) }
    {
        let mut totals = Totals::default();
        for i in 0..self.begun.len() {
            if let Some((tx, _)) = self.begun.get_index(i) {
                totals = totals.with_decided(self.decided_of(tx));
            }
        }
        totals
    }
}

impl Totals {
    // One transaction more. A count stands still at its end.
    fn with_decided(self, ending: Option<bool>) -> Totals
        ensures { result ≡ with_decided self ending }
    {
        match ending {
            Some(true) => Totals {
                commits: self.commits.saturating_add(1),
                ..self
            },
            Some(false) => Totals {
                aborts: self.aborts.saturating_add(1),
                ..self
            },
            None => Totals {
                undecided: self.undecided.saturating_add(1),
                ..self
            },
        }
    }
}

// Pushes an ending, where there is one.
fn push_decided(
    endings: &mut HeapList<(TxId, bool)>,
    ending: Option<(TxId, bool)>,
) -> Result<(), Memory>
    ensures { OnOk result (endings.new ≡ endings.old ++ option_to_list ending) }
{
    if let Some(ending) = ending {
        endings.push(ending)?;
    }
    Ok(())
}

// The instances of choices.
fn instances_of(alloc: Global, choices: &[Choice]) -> Result<HeapList<(Key, u64)>, Memory>
    ensures { IfOk result (λ instances. instances ≡ map instance_of_choice choices.now) }
{
    let mut instances = HeapList::new(alloc);
    for choice in choices {
        instances.push((choice.key, choice.version))?;
    }
    Ok(instances)
}
