//! Whether facts are of the cluster.
ghost use Rattle.std.specs.Prelude.{◌≡◌};
ghost use Rattle.mdcc_def_protocol.specs.Belongs.{fact_belongs, offered_belongs};

use crate::parts_belong::{
    adds_belong, ballot_belongs, choice_belongs, item_belongs, options_belong, outcome_belongs,
    tx_belongs,
};
use mdcc_def_messages::Fact;
use mdcc_option::{Choice, Cluster};

// Whether the choice that stands beside a rejection is.
fn offered_belongs(cluster: &Cluster, offered: &Option<Choice>) -> bool
    ensures { result ≡ offered_belongs cluster.now offered.now }
{
    match offered {
        Some(choice) => choice_belongs(cluster, choice),
        None => true,
    }
}

/// Whether the centres, attributes and numbers of values in the fact are of the cluster.
pub(crate) fn fact_belongs(cluster: &Cluster, fact: &Fact) -> bool
    ensures { result ≡ fact_belongs cluster.now fact.now }
{
    match fact {
        Fact::Booted(_) => true,
        Fact::Promised { ballot, .. } => ballot_belongs(cluster, ballot),
        Fact::Voted {
            ballot,
            options,
            offered,
            ..
        } => {
            ballot_belongs(cluster, ballot)
                && options_belong(cluster, options)
                && offered_belongs(cluster, offered)
        }
        Fact::Heard { tx, outcome } => {
            tx_belongs(cluster, tx) && outcome_belongs(cluster, outcome)
        }
        Fact::Adopted { item, adds, .. } => {
            item_belongs(cluster, item) && adds_belong(cluster, adds.as_slice())
        }
        Fact::Floor { .. } => false,
    }
}
