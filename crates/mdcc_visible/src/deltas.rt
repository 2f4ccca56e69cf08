//! The executed deltas of a key.
ghost use Rattle.std.specs.Prelude.{◌≡◌, List, IfOk};
ghost use Rattle.mdcc_def_messages.specs.declared.facts.Fact.{Fact as AFact};
ghost use Rattle.mdcc_def_protocol.specs.Facts.{executed_of};
ghost use Rattle.mdcc_visible.specs.Deltas.{deltas_of_map};

use mdcc_base::{BoundedList, HeapList, Key, Memory};
use mdcc_facts::FactStore;
use mdcc_option::Delta;
use std::alloc::Global;

/// The deltas, ascending by transaction.
pub(crate) fn executed_deltas<S: FactStore>(store: &S, key: &Key) -> BoundedList<Delta, 64>
    ensures { (facts : List AFact) → S.stands store.now facts → result ≡ deltas_of_map (executed_of facts key.now) }
{
    let seen = store.executed(key);
    let mut deltas = BoundedList::new();
    for tx in seen.as_slice() {
        if let Some(delta) = store.delta(key, *tx) {
            deltas.push(delta);
        }
    }
    deltas
}

/// The deltas, in memory of their own.
pub(crate) fn copied_deltas<S: FactStore>(
    alloc: Global,
    store: &S,
    key: &Key,
) -> Result<HeapList<Delta>, Memory>
    ensures { (facts : List AFact) → S.stands store.now facts → IfOk result (λ deltas. deltas ≡ deltas_of_map (executed_of facts key.now)) }
{
    let seen = store.executed(key);
    let mut deltas = HeapList::new(alloc);
    for tx in seen.as_slice() {
        if let Some(delta) = store.delta(key, *tx) {
            deltas.push(delta)?;
        }
    }
    Ok(deltas)
}
