//! Which transactions are dangling: not resolved, and not open here.
ghost use Rattle.std.specs.Prelude.{◌≡◌, IfOk, List};
ghost use Rattle.mdcc_def_messages.specs.declared.facts.Fact.{Fact as AFact};
ghost use Rattle.mdcc_def_protocol.specs.Fit.{has_tx};
ghost use Rattle.mdcc_def_protocol.specs.Recover.{dangling};

use mdcc_base::{Memory, TxId};
use mdcc_facts::FactStore;
use mdcc_option::WriteSet;
use std::alloc::Global;

// Whether a transaction is among these.
fn has_tx(txs: &[TxId], tx: &TxId) -> bool
    ensures { result ≡ has_tx txs.now tx.now }
{
    txs.iter().any(|other| tx.is(other))
}

/// The transactions that are not resolved and not among these, ascending, with their write sets.
pub(crate) fn dangling<S: FactStore>(
    alloc: Global,
    store: &S,
    opened: &[TxId],
) -> Result<Vec<(TxId, WriteSet)>, Memory>
    ensures { (facts : List AFact) → S.stands store.now facts
        → IfOk result (λ txs. txs.items ≡ dangling facts opened.now) }
{
    let mut txs = store.unresolved_all(alloc)?.into_vec();
    txs.retain(|entry| !has_tx(opened, &entry.0));
    Ok(txs)
}
