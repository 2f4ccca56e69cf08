//! What a read shows of a key.
ghost use Rattle.std.specs.Prelude.{◌≡◌, ◌*◌, ◌^◌, ◌<◌, ◌≤◌, ◌≤ℤ◌, List, length, neg_ℤ, option_map, pos};
ghost use Rattle.mdcc_def_messages.specs.declared.facts.Fact.{Fact as AFact};
ghost use Rattle.mdcc_def_protocol.specs.Facts.{base_of, executed_of, token_of};
ghost use Rattle.mdcc_def_protocol.specs.Visible.{item_read, read, rebase_due};
ghost use Rattle.mdcc_visible.specs.Deltas.{item_shown, value_shown};

use crate::deltas::executed_deltas;
use mdcc_base::{BoundedList, Key, Plain};
use mdcc_def_protocol::Reading;
use mdcc_facts::FactStore;
use mdcc_option::{Delta, Item, Token, read_value, value_after};

// The value of the attribute at a place, as it is read.
fn value_shown(deltas: &[Delta], place: usize, base: i64) -> i64
    requires few { length deltas.now ≤ 64 }
    requires within { place < 4 }
    ensures { result ≡ value_shown deltas.now (place, base) }
{
    read_value(value_after(deltas, place, base))
}

// The item with the deltas in its values.
fn item_shown(deltas: &[Delta], item: &Item) -> Item
    requires { length deltas.now ≤ 64 }
    ensures { result ≡ item_shown deltas.now item.now }
{
    let mut values = BoundedList::new();
    for (place, base) in item.values.as_slice().iter().enumerate() {
        values.push(value_shown(deltas, place, *base));
    }
    Item {
        body: item.body.copy(),
        values,
    }
}

// The item of a key with the executed deltas in it.
#[tactic(auto, using(crate::proofs::Shown::shown_items))]
fn item_read<S: FactStore>(store: &S, key: &Key) -> Option<Item>
    ensures { (facts : List AFact) → S.stands store.now facts
        → result ≡ option_map (item_read (executed_of facts key.now)) (base_of facts key.now) }
{
    let base = store.base(key)?;
    let deltas = executed_deltas(store, key);
    Some(item_shown(deltas.as_slice(), &base))
}

// What a reader sees of a key: the version held, and the transactions whose deltas are executed.
fn token_of<S: FactStore>(store: &S, key: &Key) -> Token
    ensures { (facts : List AFact) → S.stands store.now facts → result ≡ token_of facts key.now }
{
    Token {
        version: store.current(key),
        seen: store.executed(key),
    }
}

/// Whether the value should be written anew: 32 or more deltas of the version held are executed.
pub fn rebase_due<S: FactStore>(store: &S, key: &Key) -> bool
    ensures { (facts : List AFact) → S.stands store.now facts → result ≡ rebase_due facts key.now }
{
    store.executed(key).len() >= 32
}

/// What a read shows of a key: the version that is held, the item that was written as its base with
/// the executed deltas in its values, and the transactions of these deltas. No option that is voted
/// and not decided is in it. A value stops at the ends of 64 bits.
pub fn read<S: FactStore>(store: &S, key: &Key) -> Reading
    ensures { (facts : List AFact) → S.stands store.now facts → result ≡ read facts key.now }
{
    Reading {
        token: token_of(store, key),
        item: item_read(store, key),
        due: rebase_due(store, key),
    }
}
