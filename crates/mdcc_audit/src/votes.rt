//! The votes of all centres on each option, and what they choose.
ghost use Rattle.std.specs.Prelude.{◌≡◌, ◌≤◌, ◌∷◌, [], filter_map, IfOk, OnOk};
ghost use Rattle.mdcc_base.specs.Counts.{number_of};
ghost use Rattle.mdcc_base.specs.Quorums.{quorum_size};
ghost use Rattle.mdcc_audit.specs.Represents.{counted_in};
ghost use Rattle.mdcc_audit.specs.Votes.{chosen_with, given_by, given_eq, given_of, is_among, is_chosen, is_own, nothing_counted, number_given, tallied, tally_at, vote, vote_all, with_given};

use crate::subjects::Subject;
use indexmap::{IndexMap, IndexSet};
use mdcc_base::{Ballot, HeapList, Key, Memory, Quorums, TxId};
use mdcc_option::{Choice, Mark};
use mdcc_struct::Options;
use std::alloc::Global;

/// What a vote gives a transaction in an instance: its own choice there is accepted, or it is
/// rejected, or neither, where the choice is another.
#[derive(Clone, Copy, Debug, PartialEq, Eq)]
pub enum Given {
    Acceptance,
    Rejection,
    Nothing,
}

/// The votes on each option at each ballot, the options that a quorum accepted in their instance,
/// and those that one rejected there, with their transactions.
#[derive(Drop)]
pub struct Votes {
    pub(crate) tallies: IndexMap<Subject, HeapList<(u8, Given)>>,
    pub(crate) accepted: IndexSet<Subject>,
    pub(crate) rejected: IndexSet<Subject>,
}

/// Whether it is the transaction's own choice in the instance.
pub(crate) fn is_own(tx: &TxId, key: &Key, version: u64, choice: &Choice) -> bool
    ensures { result ≡ is_own tx.now key.now version choice.now }
{
    choice.tx.is(tx) && (choice.key.is(key) && choice.version == version)
}

/// What a mark gives a transaction in an instance.
pub(crate) fn given_of(tx: &TxId, key: &Key, version: u64, mark: &Mark) -> Given
    ensures { result ≡ given_of tx.now key.now version mark.now }
{
    match mark {
        Mark::Accept(choice) => {
            if is_own(tx, key, version, choice) {
                Given::Acceptance
            } else {
                Given::Nothing
            }
        }
        Mark::Reject => Given::Rejection,
    }
}

// Whether they are the same.
fn given_eq(a: Given, b: Given) -> bool
    ensures { result ≡ given_eq a b }
{
    match (a, b) {
        (Given::Acceptance, Given::Acceptance) => true,
        (Given::Rejection, Given::Rejection) => true,
        (Given::Nothing, Given::Nothing) => true,
        _ => false,
    }
}

// What a centre gave first.
fn given_by(tally: &[(u8, Given)], centre: u8) -> Option<Given>
    ensures { result ≡ given_by tally.now centre }
{
    for given in tally {
        if given.0 == centre {
            return Some(given.1);
        }
    }
    None
}

// Keeps what a centre gives, where it is the first.
fn add_given(tally: &mut HeapList<(u8, Given)>, centre: u8, given: Given) -> Result<(), Memory>
    ensures { OnOk result (tally.new ≡ with_given tally.old centre given) }
{
    if given_by(tally.as_slice(), centre).is_none() {
        tally.push((centre, given))?;
    }
    Ok(())
}

// A list of what one centre gives.
fn tally_of(alloc: Global, centre: u8, given: Given) -> Result<HeapList<(u8, Given)>, Memory>
    ensures { IfOk result (λ tally. tally ≡ (centre, given) ∷ []) }
{
    let mut tally = HeapList::new(alloc);
    tally.push((centre, given))?;
    Ok(tally)
}

// How many centres are a quorum at a ballot.
fn quorum_size(quorums: &Quorums, ballot: &Ballot) -> usize
    ensures { result ≡ quorum_size quorums.now ballot.now }
{
    if ballot.is(&Ballot::FAST) {
        usize::from(quorums.fast())
    } else {
        usize::from(quorums.classic())
    }
}

#[tactic(auto, using(crate::proofs::Ranges::range_first))]
// How many centres of the cluster gave just this.
fn number_given(quorums: &Quorums, tally: &[(u8, Given)], given: Given) -> usize
    ensures value { result ≡ number_given quorums.now tally.now given }
    ensures bound { result ≤ quorums.now.centres }
{
    let mut count = 0;
    for centre in 1..quorums.centres() + 1 {
        if let Some(other) = given_by(tally, centre) {
            if given_eq(given, other) {
                count += 1;
            }
        }
    }
    count
}

// Whether a quorum of the ballot gave it.
fn is_chosen(quorums: &Quorums, subject: &Subject, tally: &[(u8, Given)], given: Given) -> bool
    ensures { result ≡ is_chosen quorums.now subject.now tally.now given }
{
    quorum_size(quorums, &subject.ballot) <= number_given(quorums, tally, given)
}

impl Votes {
    /// Nothing was voted.
    pub(crate) fn new(alloc: Global) -> Votes
        ensures { counted_in result ≡ nothing_counted }
    {
        Votes {
            tallies: IndexMap::new(alloc),
            accepted: IndexSet::new(alloc),
            rejected: IndexSet::new(alloc),
        }
    }

    // What the centres gave an option at a ballot.
    fn tally_at(&self, subject: &Subject) -> &[(u8, Given)]
        ensures { result.now ≡ tally_at self.now.tallies.entries subject.now }
    {
        match self.tallies.get(subject) {
            Some(tally) => tally.as_slice(),
            None => &[],
        }
    }

    /// Whether a quorum accepted the option in its instance.
    pub(crate) fn is_accepted(&self, subject: &Subject) -> bool
        ensures { result ≡ is_among (counted_in self.now).accepted subject.now }
    {
        self.accepted.contains(subject)
    }

    /// Whether a quorum rejected the option in its instance, or an option of the transaction.
    pub(crate) fn is_rejected(&self, subject: &Subject) -> bool
        ensures { result ≡ is_among (counted_in self.now).rejected subject.now }
    {
        self.rejected.contains(subject)
    }
}

// Keeps what a centre gives an option at a ballot.
fn keep_given(
    alloc: Global,
    tallies: &mut IndexMap<Subject, HeapList<(u8, Given)>>,
    subject: Subject,
    centre: u8,
    given: Given,
) -> Result<(), Memory>
    ensures { OnOk result (tallies.new.entries ≡ tallied tallies.old.entries subject centre given) }
{
    match tallies.get_mut(&subject) {
        Some(tally) => add_given(tally, centre, given)?,
        None => {
            let tally = tally_of(alloc, centre, given)?;
            tallies.insert(subject, tally)?;
        }
    }
    Ok(())
}

impl Votes {
    // Notes what a quorum gave an option.
    fn choose(&mut self, subject: &Subject, given: Given) -> Result<(), Memory>
        ensures { OnOk result (counted_in self.new ≡ chosen_with (counted_in self.old) subject.now given) }
    {
        let instance = Subject::at_instance(subject.tx, &subject.key, subject.version);
        match given {
            Given::Acceptance => {
                self.accepted.insert(instance)?;
            }
            Given::Rejection => {
                self.rejected.insert(instance)?;
                self.rejected.insert(Subject::of_tx(subject.tx))?;
            }
            Given::Nothing => {}
        }
        Ok(())
    }

    /// A centre votes on an option at a ballot.
    pub(crate) fn vote(
        &mut self,
        alloc: Global,
        quorums: &Quorums,
        centre: u8,
        subject: Subject,
        given: Given,
    ) -> Result<(), Memory>
        ensures { OnOk result (counted_in self.new ≡ vote quorums.now (counted_in self.old) centre subject given) }
    {
        keep_given(alloc, &mut self.tallies, subject, centre, given)?;
        if is_chosen(quorums, &subject, self.tally_at(&subject), given) {
            self.choose(&subject, given)?;
        }
        Ok(())
    }

    /// A centre votes the marks of an instance at a ballot.
    pub(crate) fn vote_all(
        &mut self,
        alloc: Global,
        quorums: &Quorums,
        centre: u8,
        key: &Key,
        version: u64,
        ballot: &Ballot,
        options: &Options,
    ) -> Result<(), Memory>
        ensures { OnOk result (counted_in self.new ≡ vote_all quorums.now (counted_in self.old) centre key.now version ballot.now options.now) }
    {
        for i in 0..options.len() {
            let (tx, mark) = options.at(i);
            let given = given_of(&tx, key, version, mark);
            let subject = Subject::in_vote(tx, key, version, ballot);
            self.vote(alloc, quorums, centre, subject, given)?;
        }
        Ok(())
    }
}
