//! Promises that may stand after the facts before them.
ghost use Rattle.std.specs.Prelude.{◌≡◌, List};
ghost use Rattle.mdcc_def_ledger.specs.BootTest.{is_allowed_promise};
ghost use Rattle.mdcc_def_messages.specs.declared.facts.Fact.{Fact as AFact};

use mdcc_base::{Ballot, Key};
use mdcc_facts::FactStore;

/// Whether a promise may: of an instance alone, or of a range from a version that is not below the
/// one held. (Fast Paxos.)
pub(crate) fn is_allowed_promise<S: FactStore>(
    store: &S,
    key: &Key,
    low: u64,
    high: u64,
    ballot: &Ballot,
) -> bool
    ensures { (facts : List AFact) → S.stands store.now facts → result ≡ is_allowed_promise facts key.now low high ballot.now }
{
    !ballot.is(&Ballot::FAST)
        && !ballot.is_below(&store.promise(key, low))
        && store.promised(key, low, *ballot).is_none()
        && (high == low || (low <= high && store.current(key) <= low))
}
