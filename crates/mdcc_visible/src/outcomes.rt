//! Outcomes that are heard.
ghost use Rattle.std.specs.Prelude.{◌≡◌, List};
ghost use Rattle.mdcc_def_messages.specs.declared.facts.Fact.{Fact as AFact};
ghost use Rattle.mdcc_def_protocol.specs.Visible.{on_outcome};

use mdcc_base::{Plain, TxId};
use mdcc_def_messages::Fact;
use mdcc_facts::FactStore;
use mdcc_option::Outcome;

/// The fact of an outcome; there is none where the transaction's was heard before, or all centres
/// have heard one. It adds no fact.
pub fn on_outcome<S: FactStore>(store: &S, tx: TxId, outcome: &Outcome) -> Option<Fact>
    ensures { (facts : List AFact) → S.stands store.now facts → result ≡ on_outcome facts tx outcome.now }
{
    if store.is_settled(tx) {
        None
    } else {
        Some(Fact::Heard {
            tx,
            outcome: outcome.copy(),
        })
    }
}
