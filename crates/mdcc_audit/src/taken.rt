//! The facts that an audit has taken.
ghost use Rattle.std.specs.Prelude.{◌≡◌, OnOk};
ghost use Rattle.mdcc_audit.specs.Auditing.{after_fact, nothing_taken, with_offered, with_txs};
ghost use Rattle.mdcc_audit.specs.Represents.{state_of};
ghost use Rattle.mdcc_def_ledger.specs.Ledger.{with_tx};
ghost use Rattle.mdcc_def_messages.specs.declared.facts.Fact.{Fact as AFact};
ghost use Rattle.mdcc_struct.specs.Maps.{txs_of};

use crate::audited::Place;
use crate::firsts::Firsts;
use crate::sayings::{say_all_accepted, say_heard, say_marks, say_offered, say_outcome};
use crate::votes::Votes;
use mdcc_base::{Ballot, Centre, Key, Memory, Quorums, TxId};
use mdcc_def_messages::Fact;
use mdcc_option::{Choice, Cluster, Outcome};
use mdcc_struct::Options;
use std::alloc::Global;
use std::collections::BTreeSet;

/// The facts of the logs of a cluster, as far as an audit needs them.
#[derive(Drop)]
pub struct Audit {
    pub(crate) alloc: Global,
    pub(crate) quorums: Quorums,
    pub(crate) outcomes: Firsts,
    pub(crate) marks: Firsts,
    pub(crate) choices: Firsts,
    pub(crate) votes: Votes,
    pub(crate) named: BTreeSet<TxId>,
}

// Names a transaction.
fn name_tx(named: &mut BTreeSet<TxId>, tx: TxId) -> Result<(), Memory>
    ensures { OnOk result (named.new.keys ≡ with_tx named.old.keys tx) }
{
    named.insert(tx)?;
    Ok(())
}

// Names the transactions of these marks.
fn name_txs(named: &mut BTreeSet<TxId>, options: &Options) -> Result<(), Memory>
    ensures { OnOk result (named.new.keys ≡ with_txs named.old.keys (txs_of options.now)) }
{
    for i in 0..options.len() {
        let (tx, _) = options.at(i);
        name_tx(named, tx)?;
    }
    Ok(())
}

// Names the transaction of the choice that was offered.
fn name_offered(named: &mut BTreeSet<TxId>, offered: &Option<Choice>) -> Result<(), Memory>
    ensures { OnOk result (named.new.keys ≡ with_offered named.old.keys offered.now) }
{
    match offered {
        Some(choice) => name_tx(named, choice.tx),
        None => Ok(()),
    }
}

impl Audit {
    /// No fact was taken.
    pub fn new(alloc: Global, cluster: &Cluster) -> Audit
        ensures state { state_of result ≡ nothing_taken }
        ensures quorums { result.quorums ≡ cluster.now.quorums }
    {
        Audit {
            alloc,
            quorums: cluster.quorums,
            outcomes: Firsts::new(alloc),
            marks: Firsts::new(alloc),
            choices: Firsts::new(alloc),
            votes: Votes::new(alloc),
            named: BTreeSet::new(alloc),
        }
    }

    // Takes a vote.
    fn take_vote(
        &mut self,
        place: &Place,
        key: &Key,
        version: u64,
        ballot: &Ballot,
        options: &Options,
        offered: &Option<Choice>,
    ) -> Result<(), Memory>
        ensures state { OnOk result (state_of self.new ≡ after_fact self.old.quorums (state_of self.old) place.now (AFact.Voted key.now version ballot.now options.now offered.now)) }
        ensures quorums { self.new.quorums ≡ self.old.quorums }
    {
        let alloc = self.alloc;
        say_marks(alloc, &mut self.marks, place, key, version, ballot, options)?;
        say_all_accepted(alloc, &mut self.choices, place, options)?;
        say_offered(alloc, &mut self.choices, place, offered)?;
        let centre = place.centre.number();
        self.votes.vote_all(alloc, &self.quorums, centre, key, version, ballot, options)?;
        name_txs(&mut self.named, options)?;
        name_offered(&mut self.named, offered)
    }

    // Takes what was heard.
    fn take_heard(&mut self, place: &Place, tx: TxId, outcome: &Outcome) -> Result<(), Memory>
        ensures state { OnOk result (state_of self.new ≡ after_fact self.old.quorums (state_of self.old) place.now (AFact.Heard tx outcome.now)) }
        ensures quorums { self.new.quorums ≡ self.old.quorums }
    {
        say_outcome(self.alloc, &mut self.outcomes, place, tx, outcome)?;
        say_heard(self.alloc, &mut self.choices, place, outcome)?;
        name_tx(&mut self.named, tx)
    }

    /// Takes the fact of this number, from 1, of the log of a centre. Facts are taken in order of
    /// centre and number. After it answers that there is no memory nothing is promised of the audit.
    pub fn take(&mut self, centre: Centre, number: u64, fact: &Fact) -> Result<(), Memory>
        ensures state { OnOk result (state_of self.new ≡ after_fact self.old.quorums (state_of self.old) (record { centre = centre; number = number }) fact.now) }
        ensures quorums { self.new.quorums ≡ self.old.quorums }
    {
        let place = Place { centre, number };
        match fact {
            Fact::Voted {
                key,
                version,
                ballot,
                options,
                offered,
            } => self.take_vote(&place, key, *version, ballot, options, offered),
            Fact::Heard { tx, outcome } => self.take_heard(&place, *tx, outcome),
            Fact::Booted(_) | Fact::Promised { .. } | Fact::Adopted { .. } | Fact::Floor { .. } =>
                Ok(()),
        }
    }
}
