//! Facts that are more than a rejection at the fast ballot.
ghost use Rattle.std.specs.Prelude.{◌≡◌};
ghost use Rattle.mdcc_cells_indices.specs.Active.{is_active};

use mdcc_base::Ballot;
use mdcc_def_messages::Fact;

/// Whether a fact is more than a vote at the fast ballot all of whose marks reject. Only such facts
/// bar votes, bring choices into an instance, or give what is held.
pub fn is_active(fact: &Fact) -> bool
    ensures { result ≡ is_active fact.now }
{
    match fact {
        Fact::Voted {
            key: _,
            version: _,
            ballot,
            options,
            offered: _,
        } => !ballot.is(&Ballot::FAST) || options.accepted() > 0,
        _ => true,
    }
}
