//! Which choices the votes on one transaction and key accept.
ghost use Rattle.std.specs.Prelude.{◌≡◌, filter_map};
ghost use Rattle.std.specs.List.{reduce};
ghost use Rattle.std.specs.Option.{option_copied};
ghost use Rattle.mdcc_def_protocol.specs.Recover.{choice_accepted};

use mdcc_base::Plain;
use mdcc_def_protocol::Vote;
use mdcc_option::{Choice, Mark};

// The choice that a vote accepts at a version.
fn choice_accepted(vote: &Vote, version: u64) -> Option<&Choice>
    ensures { option_copied result ≡ choice_accepted version vote.now }
{
    match &vote.mark {
        Mark::Accept(choice) if vote.version == version => Some(choice),
        _ => None,
    }
}

/// The choice that the first of the votes that accepts one at a version has.
pub(crate) fn first_accepted(votes: &[Vote], version: u64) -> Option<Choice>
    ensures { result ≡ reduce (λ a b. a) (filter_map (choice_accepted version) votes.now) }
{
    for vote in votes {
        if let Some(choice) = choice_accepted(vote, version) {
            return Some(choice.copy());
        }
    }
    None
}
