//! What steps are made of.
ghost use Rattle.std.specs.Prelude.{◌≡◌, None, OnOk, Some};
ghost use Rattle.mdcc_node.specs.StepPlans.{blank};
ghost use Rattle.mdcc_node.specs.StepParts.{offered, vote_fact};
ghost use Rattle.mdcc_def_protocol.specs.Leader.{claim_of_choice};
ghost use Rattle.mdcc_def_rules.specs.Steps.{heard_by};
ghost use Rattle.mdcc_def_messages.specs.declared.messages.Message.{Message as AMessage};

use mdcc_base::{Ballot, HeapList, Memory, Plain, TxId};
use mdcc_def_messages::{Fact, Message};
use mdcc_def_rules::Step;
use mdcc_option::{Choice, Claim, Mark, Outcome};
use mdcc_struct::Options;
use std::alloc::Global;

/// A step that does nothing, into whose place an input's is written.
pub fn blank(alloc: Global) -> Step
    ensures { result ≡ blank }
{
    Step {
        fact: None,
        sends: HeapList::new(alloc),
        heard: None,
        answer: None,
    }
}

/// The end of a transaction that a fact tells: true is commit.
pub(crate) fn heard_by(fact: &Fact) -> Option<(TxId, bool)>
    ensures { result ≡ heard_by (Some fact.now) }
{
    match fact {
        Fact::Heard { tx, outcome } => match outcome {
            Outcome::Commit(_) => Some((*tx, true)),
            Outcome::Abort => Some((*tx, false)),
        },
        _ => None,
    }
}

/// The claim of a choice.
pub(crate) fn claim_of(choice: &Choice) -> Claim
    ensures { result ≡ claim_of_choice choice.now }
{
    Claim {
        tx: choice.tx,
        key: choice.key,
        version: choice.version,
        choice: Some(choice.copy()),
    }
}

// The choice that stands beside a mark: a rejected one.
fn offered(choice: &Choice, mark: &Mark) -> Option<Choice>
    ensures { result ≡ offered choice.now mark.now }
{
    match mark {
        Mark::Accept(_) => None,
        Mark::Reject => Some(choice.copy()),
    }
}

/// Writes the vote of an acceptor on one choice at the fast ballot.
pub(crate) fn write_vote(
    alloc: Global,
    choice: &Choice,
    mark: &Mark,
    fact: &mut Option<Fact>,
) -> Result<(), Memory>
    ensures { OnOk result (fact.new ≡ Some (vote_fact choice.now mark.now)) }
{
    let mut options = Options::new(alloc)?;
    options.insert(choice.tx, mark.copy())?;
    *fact = Some(Fact::Voted {
        key: choice.key,
        version: choice.version,
        ballot: Ballot::FAST,
        options,
        offered: offered(choice, mark),
    });
    Ok(())
}

/// A vote on a choice, as it is sent.
pub(crate) fn voted_message(choice: &Choice, ballot: Ballot, mark: &Mark) -> Message
    ensures { result ≡ AMessage.Voted choice.now.key choice.now.version ballot choice.now.tx mark.now }
{
    Message::Voted {
        key: choice.key,
        version: choice.version,
        ballot,
        tx: choice.tx,
        mark: mark.copy(),
    }
}
