//! What adopted data bring that is new.
ghost use Rattle.std.specs.List.{list_any};
ghost use Rattle.std.specs.Prelude.{◌≡◌, List, is_some, not};
ghost use Rattle.mdcc_def_protocol.specs.Facts.{executed_of};
ghost use Rattle.mdcc_def_protocol.specs.Fit.{has_tx};
ghost use Rattle.mdcc_def_protocol.specs.News.{is_news};
ghost use Rattle.mdcc_def_messages.specs.declared.facts.Fact.{Fact as AFact};
ghost use Rattle.mdcc_struct.specs.Maps.{value_of};

use mdcc_base::{Key, TxId};
use mdcc_facts::FactStore;
use mdcc_option::Delta;

// Whether the transaction is among these.
fn has_tx(txs: &[TxId], tx: &TxId) -> bool
    ensures { result ≡ has_tx txs.now tx.now }
{
    txs.iter().any(|other| tx.is(other))
}

// Whether a delta is of none of these transactions.
fn has_other(txs: &[TxId], adds: &[Delta]) -> bool
    ensures { result ≡ list_any (λ delta. not (has_tx txs.now delta.tx)) adds.now }
{
    adds.iter().any(|delta| !has_tx(txs, &delta.tx))
}

// Whether a delta is not executed.
fn has_new<S: FactStore>(store: &S, key: &Key, adds: &[Delta]) -> bool
    ensures { (facts : List AFact) → S.stands store.now facts
        → result ≡ list_any (λ delta. not (is_some (value_of (executed_of facts key.now) delta.tx))) adds.now }
{
    let executed = store.executed(key);
    has_other(executed.as_slice(), adds)
}

/// Whether data of a key bring a higher version than is held, or a delta of the held one that is
/// not executed.
pub(crate) fn is_news<S: FactStore>(store: &S, key: &Key, version: u64, adds: &[Delta]) -> bool
    ensures { (facts : List AFact) → S.stands store.now facts → result ≡ is_news facts key.now version adds.now }
{
    let current = store.current(key);
    current < version || (current == version && has_new(store, key, adds))
}
