//! What is done about open transactions at a tick.
ghost use Rattle.std.specs.Prelude.{◌≡◌, ◌++◌, IfOk, List, OnOk, flat_map, map};
ghost use Rattle.mdcc_base.specs.Sizes.{Sizes};
ghost use Rattle.mdcc_learner.specs.Represents.{RepresentsVotes};
ghost use Rattle.mdcc_manager.specs.Ticks.{acts_in, ticked_in};
ghost use Rattle.mdcc_def_protocol.specs.Manager.{act_at};
ghost use Rattle.mdcc_def_protocol.specs.Volatile.{next_count};
ghost use Rattle.mdcc_def_protocol.specs.declared.votes.Vote.{Vote as AVote};

use crate::opened::{OpenTransaction, is_unlearned};
use mdcc_base::{Memory, Plain};
use mdcc_def_protocol::ManagerAct;
use mdcc_learner::Learner;
use mdcc_option::Choice;
use std::alloc::Global;

// A count that rises by one, and stands still at its type's end.
fn next_count(count: u64) -> u64
    ensures { result ≡ next_count count }
{
    count.saturating_add(1)
}

// At an odd counter an option is proposed again, at an even one it is led here.
fn act_at(count: u64, choice: &Choice) -> ManagerAct
    ensures { result ≡ act_at count choice.now }
{
    if count % 2 == 1 {
        ManagerAct::Propose(choice.copy())
    } else {
        ManagerAct::LeadHere(choice.copy())
    }
}

// Adds what is done about a transaction behind other acts.
fn add_acts(
    acts: &mut Vec<ManagerAct>,
    learner: &Learner,
    undecided: &OpenTransaction,
) -> Result<(), Memory>
    ensures { (quorums : Sizes) (votes : List AVote) → RepresentsVotes learner.now quorums votes
        → OnOk result (acts.new.items ≡ acts.old.items ++ acts_in quorums votes undecided.now) }
{
    let count = next_count(undecided.ticks);
    for entry in undecided.choices.as_slice() {
        if is_unlearned(learner, &undecided.tx, &entry.choice.key) {
            acts.push(act_at(count, &entry.choice))?;
        }
    }
    Ok(())
}

/// What is done about the transactions, one after the other.
pub(crate) fn acts_of(
    alloc: Global,
    learner: &Learner,
    opened: &[OpenTransaction],
) -> Result<Vec<ManagerAct>, Memory>
    ensures { (quorums : Sizes) (votes : List AVote) → RepresentsVotes learner.now quorums votes
        → IfOk result (λ acts. acts.items ≡ flat_map (acts_in quorums votes) opened.now) }
{
    let mut acts = Vec::new(alloc);
    for open in opened {
        add_acts(&mut acts, learner, open)?;
    }
    Ok(acts)
}

impl OpenTransaction {
    // Counts the tick. At an even counter each option that is not learned is led here.
    fn tick(&mut self, learner: &Learner)
        ensures { (quorums : Sizes) (votes : List AVote) → RepresentsVotes learner.now quorums votes
            → self.new ≡ ticked_in quorums votes self.old }
    {
        self.ticks = next_count(self.ticks);
        if self.ticks % 2 == 0 {
            self.choices.mark_unlearned(learner, &self.tx);
        }
    }
}

/// Counts the tick in each transaction.
pub(crate) fn count_tick(opened: &mut Vec<OpenTransaction>, learner: &Learner)
    ensures { (quorums : Sizes) (votes : List AVote) → RepresentsVotes learner.now quorums votes
        → opened.new.items ≡ map (ticked_in quorums votes) opened.old.items }
{
    for open in opened.iter_mut() {
        open.tick(learner);
    }
}
