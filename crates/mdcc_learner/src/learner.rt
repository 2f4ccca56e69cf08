//! What was voted on each transaction and key, and what that decides.
ghost use Rattle.std.specs.Option.{option_copied, option_map};
ghost use Rattle.std.specs.Prelude.{◌≡◌, List, [], IsOkAnd, OnOk, OnErr};
ghost use Rattle.mdcc_base.specs.AreQuorums.{AreQuorums};
ghost use Rattle.mdcc_base.specs.Sizes.{Sizes};
ghost use Rattle.mdcc_learner.specs.Represents.{RepresentsVotes};
ghost use Rattle.mdcc_def_protocol.specs.Learner.{with_counted_vote, learned, collided, learned_with};
ghost use Rattle.mdcc_def_protocol.specs.Marks.{is_accept};
ghost use Rattle.mdcc_def_protocol.specs.Recover.{choice_received};
ghost use Rattle.mdcc_def_protocol.specs.Volatile.{without_tx};
ghost use Rattle.mdcc_def_protocol.specs.declared.votes.Vote.{Vote as AVote};

use crate::accepted::first_accepted;
use crate::decided::{copy_of, is_collision, mark_decided, side_of};
use crate::places::{VotesByTx, counted_on, forget, keep_counted, votes_at};
use indexmap::IndexMap;
use mdcc_base::{Key, Memory, Quorums, TxId};
use mdcc_def_protocol::Vote;
use mdcc_option::{Choice, Mark};
use std::alloc::Global;

/// The votes that count, and what they decide.
#[derive(Drop)]
pub struct Learner {
    alloc: Global,
    quorums: Option<Quorums>,
    votes: VotesByTx,
}

impl Learner {
    /// A learner that took no vote.
    pub fn new(alloc: Global) -> Result<Learner, Memory>
        ensures { (quorums : Sizes) → AreQuorums quorums
            → IsOkAnd result (λ learner. RepresentsVotes learner quorums []) }
    {
        Ok(Learner {
            alloc,
            quorums: None,
            votes: IndexMap::new(alloc),
        })
    }

    /// Takes a vote. It counts if its centre is one of the cluster, and if no vote that counts on
    /// its transaction and key has another version, or the same ballot and centre.
    pub fn take(&mut self, quorums: &Quorums, vote: &Vote) -> Result<(), Memory>
        ensures ok { (votes : List AVote) → RepresentsVotes self.old quorums.now votes
            → OnOk result (RepresentsVotes self.new quorums.now (with_counted_vote quorums.now votes vote.now)) }
        ensures err { (known : Sizes) (votes : List AVote) → RepresentsVotes self.old known votes
            → OnErr result (RepresentsVotes self.new known votes) }
    {
        keep_counted(self.alloc, quorums, &mut self.votes, vote)?;
        if self.quorums.is_none() {
            self.quorums = Some(*quorums);
        }
        Ok(())
    }

    /// The mark that a quorum has, at the least ballot where one has.
    pub fn learned(&self, tx: TxId, key: &Key) -> Option<Mark>
        ensures { (quorums : Sizes) (votes : List AVote) → RepresentsVotes self.now quorums votes
            → result ≡ learned quorums votes tx key.now }
    {
        match &self.quorums {
            Some(quorums) => copy_of(mark_decided(quorums, votes_at(&self.votes, &tx, key), &[])),
            None => None,
        }
    }

    /// Whether the mark that `learned` gives accepts, where there is one. Nothing is copied.
    pub fn side(&self, tx: TxId, key: &Key) -> Option<bool>
        ensures { (quorums : Sizes) (votes : List AVote) → RepresentsVotes self.now quorums votes
            → result ≡ option_map is_accept (learned quorums votes tx key.now) }
    {
        match &self.quorums {
            Some(quorums) => side_of(mark_decided(quorums, votes_at(&self.votes, &tx, key), &[])),
            None => None,
        }
    }

    /// Whether nothing is learned, and neither mark can be learned at the fast ballot.
    pub fn collided(&self, tx: TxId, key: &Key) -> bool
        ensures { (quorums : Sizes) (votes : List AVote) → RepresentsVotes self.now quorums votes
            → result ≡ collided quorums votes tx key.now }
    {
        match &self.quorums {
            Some(quorums) => is_collision(quorums, votes_at(&self.votes, &tx, key)),
            None => false,
        }
    }

    /// What would be learned once this vote is taken.
    pub fn learned_with(&self, quorums: &Quorums, vote: &Vote, tx: TxId, key: &Key) -> Option<Mark>
        ensures { (votes : List AVote) → RepresentsVotes self.now quorums.now votes
            → result ≡ learned_with quorums.now votes vote.now tx key.now }
    {
        copy_of(self.mark_with(quorums, vote, &tx, key))
    }

    /// Whether the mark that `learned_with` gives accepts, where there is one. Nothing is copied.
    pub fn side_with(&self, quorums: &Quorums, vote: &Vote, tx: TxId, key: &Key) -> Option<bool>
        ensures { (votes : List AVote) → RepresentsVotes self.now quorums.now votes
            → result ≡ option_map is_accept (learned_with quorums.now votes vote.now tx key.now) }
    {
        side_of(self.mark_with(quorums, vote, &tx, key))
    }

    // The mark that would be learned once this vote is taken.
    fn mark_with<'a>(
        &'a self,
        quorums: &Quorums,
        vote: &'a Vote,
        tx: &TxId,
        key: &Key,
    ) -> Option<&'a Mark>
        ensures { (votes : List AVote) → RepresentsVotes self.now quorums.now votes
            → option_copied result ≡ learned_with quorums.now votes vote.now tx.now key.now }
    {
        mark_decided(
            quorums,
            votes_at(&self.votes, tx, key),
            counted_on(quorums, &self.votes, vote, tx, key),
        )
    }

    /// The choice that a vote accepts at this version, the first that was taken.
    pub fn accepted(&self, tx: TxId, key: &Key, version: u64) -> Option<Choice>
        ensures { (quorums : Sizes) (votes : List AVote) → RepresentsVotes self.now quorums votes
            → result ≡ choice_received votes tx key.now version }
    {
        first_accepted(votes_at(&self.votes, &tx, key), version)
    }

    /// Lets all votes on a transaction go.
    pub fn forget(&mut self, tx: TxId)
        ensures { (quorums : Sizes) (votes : List AVote) → RepresentsVotes self.old quorums votes
            → RepresentsVotes self.new quorums (without_tx votes tx) }
    {
        forget(&mut self.votes, &tx);
    }
}
