//! What a centre gives another one that is behind, and what it takes from it.
ghost use Rattle.std.specs.Prelude.{◌≡◌, List, Ok, is_some, not, true};
ghost use Rattle.std.specs.List.{list_any};
ghost use Rattle.mdcc_base.specs.Unless.{GivesUnless};
ghost use Rattle.mdcc_def_messages.specs.declared.facts.Fact.{Fact as AFact};
ghost use Rattle.mdcc_def_protocol.specs.Facts.{executed_of};
ghost use Rattle.mdcc_def_protocol.specs.News.{is_news};
ghost use Rattle.mdcc_def_protocol.specs.Visible.{on_sync_ask, on_sync_give};
ghost use Rattle.mdcc_struct.specs.Maps.{value_of};

use crate::deltas::copied_deltas;
use mdcc_base::{Key, Memory, Plain};
use mdcc_def_messages::Fact;
use mdcc_def_protocol::Give;
use mdcc_facts::FactStore;
use mdcc_option::Delta;
use std::alloc::Global;

/// The version, the base and the executed deltas of a key; there is nothing at version 0. It adds no
/// fact.
pub fn on_sync_ask<S: FactStore>(
    alloc: Global,
    store: &S,
    key: &Key,
) -> Result<Option<Give>, Memory>
    ensures { (facts : List AFact) → S.stands store.now facts → GivesUnless (λ _. true) result (Ok (on_sync_ask facts key.now)) }
{
    let Some(item) = store.base(key) else {
        return Ok(None);
    };
    Ok(Some(Give {
        key: *key,
        version: store.current(key),
        item,
        adds: copied_deltas(alloc, store, key)?,
    }))
}

// Whether the delta is not executed.
fn is_new<S: FactStore>(store: &S, key: &Key, delta: &Delta) -> bool
    ensures { (facts : List AFact) → S.stands store.now facts → result ≡ not (is_some (value_of (executed_of facts key.now) delta.now.tx)) }
{
    store.delta(key, delta.tx).is_none()
}

// Whether one of the deltas is not executed.
fn is_any_new<S: FactStore>(store: &S, key: &Key, deltas: &[Delta]) -> bool
    ensures { (facts : List AFact) → S.stands store.now facts
        → result ≡ list_any (λ delta. not (is_some (value_of (executed_of facts key.now) delta.tx))) deltas.now }
{
    for delta in deltas {
        if is_new(store, key, delta) {
            return true;
        }
    }
    false
}

// Whether data of a key bring a higher version than is held, or a delta of the held one that is not
// executed.
fn is_news<S: FactStore>(store: &S, key: &Key, version: u64, deltas: &[Delta]) -> bool
    ensures { (facts : List AFact) → S.stands store.now facts → result ≡ is_news facts key.now version deltas.now }
{
    let current = store.current(key);
    current < version || current == version && is_any_new(store, key, deltas)
}

/// The fact of data that another centre gave; there is none where they bring nothing new. It adds no
/// fact.
pub fn on_sync_give<S: FactStore>(
    alloc: Global,
    store: &S,
    give: &Give,
) -> Result<Option<Fact>, Memory>
    ensures { (facts : List AFact) → S.stands store.now facts → GivesUnless (λ _. true) result (Ok (on_sync_give facts give.now)) }
{
    if !is_news(store, &give.key, give.version, give.adds.as_slice()) {
        return Ok(None);
    }
    Ok(Some(Fact::Adopted {
        key: give.key,
        version: give.version,
        item: give.item.copy(),
        adds: give.adds.copy(alloc)?,
    }))
}
