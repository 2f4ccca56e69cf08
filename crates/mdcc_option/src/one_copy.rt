//! The one-copy store of versioned, bounded items.
ghost use Rattle.std.specs.Prelude.{◌≡◌, ◌≤◌, IfOk, IsOkAnd, OnOk, OnErr, option_map, vec_len, None};
ghost use Rattle.std.specs.HashMap.{get, spare, IsUnchanged};
ghost use Rattle.std.specs.Map.{update_all};
ghost use Rattle.mdcc_base.specs.Key.{key_eq};
ghost use Rattle.mdcc_option.specs.OneCopy.{empty_store, held_after, may_apply, stored, least_key, key_failed, applied_answer, store_after, shown};
ghost use Rattle.mdcc_option.specs.StoreMap.{one_copy_of};

use crate::held::{HeldItem, added, may_add, may_write, shown, written};
use crate::{Amounts, Choice, Delta, Item, Schema, Token, Update};
use mdcc_base::{Key, Memory, Plain, TxId};
use std::alloc::Global;
use std::collections::HashMap;
use std::marker::Model;

/// What became of a transaction.
#[derive(Debug, PartialEq, Eq, Clone, Copy)]
pub enum Applied {
    /// All its keys changed.
    Done,
    /// Nothing changed, and this is the least key at which it may not be applied.
    Refused(Key),
}

/// The one-copy store: for each key its version, the item that was written last, and the deltas on
/// it. Each transaction changes all its keys or none.
#[derive(Drop)]
pub struct OneCopy {
    alloc: Global,
    items: HashMap<Key, HeldItem>,
}

impl Model for OneCopy {
    ghost use Rattle.std.specs.FinMap.{code, from_entries};
    ghost use Rattle.std.specs.Coded.{coded_list, coded_ℕ};
    ghost use Rattle.mdcc_option.specs.StoreMap.{StoreMap};
    ghost use Rattle.mdcc_option.specs.contracts.held.HeldItem as held;

    ghost Value = { StoreMap };

    ghost coded = { code (coded_list coded_ℕ) held.the_row.coded };

    ghost view = { λ c. from_entries c.items.entries };
}

// What is held of each key.
type Items = HashMap<Key, HeldItem>;

// The delta of a transaction that adds amounts.
fn delta_of(tx: TxId, amounts: &Amounts) -> Delta
    ensures tx { result.tx ≡ tx }
    ensures amounts { result.amounts ≡ amounts.now }
{
    Delta {
        tx,
        amounts: amounts.copy(),
    }
}

// Whether a choice may be applied.
fn may_apply(schema: &[(i64, i64)], items: &Items, choice: &Choice) -> bool
    ensures { result ≡ may_apply schema.now (get key_eq items.now) choice.now }
{
    let held = items.get(&choice.key);
    match &choice.update {
        Update::Write(item, seen) => {
            may_write(schema, held, choice.version, item, seen.as_slice())
        }
        Update::Add(amounts) => match held {
            Some(held) => may_add(schema, held, choice.version, &delta_of(choice.tx, amounts)),
            None => false,
        },
    }
}

// What a choice makes of its key, where it may be applied.
fn held_after(
    alloc: Global,
    schema: &[(i64, i64)],
    items: &Items,
    choice: &Choice,
) -> Result<Option<HeldItem>, Memory>
    ensures { IfOk result (λ held. held ≡ held_after schema.now (get key_eq items.now) choice.now) }
{
    let held = items.get(&choice.key);
    let version = choice.version;
    match &choice.update {
        Update::Write(item, seen) => {
            Ok(written(alloc, schema, held, version, item, seen.as_slice()))
        }
        Update::Add(amounts) => match held {
            Some(held) => added(alloc, schema, held, version, &delta_of(choice.tx, amounts)),
            None => Ok(None),
        },
    }
}

// The lesser of a key and one that there may be.
fn least_key(least: Option<Key>, key: &Key) -> Option<Key>
    ensures { result ≡ least_key least key.now }
{
    match least {
        None => Some(*key),
        Some(other) => {
            if key.is_below(&other) {
                Some(*key)
            } else {
                Some(other)
            }
        }
    }
}

// The least key at which a choice may not be applied.
fn key_failed(schema: &[(i64, i64)], items: &Items, choices: &[Choice]) -> Option<Key>
    ensures { result ≡ key_failed schema.now (get key_eq items.now) None choices.now }
{
    let mut least = None;
    for choice in choices {
        if !may_apply(schema, items, choice) {
            least = least_key(least, &choice.key);
        }
    }
    least
}

// What each choice makes of its key, in the order of the choices.
fn changes(
    alloc: Global,
    schema: &[(i64, i64)],
    items: &Items,
    choices: &[Choice],
) -> Result<Vec<(Key, HeldItem)>, Memory>
    ensures { IfOk result (λ list. update_all key_eq (get key_eq items.now) list.items ≡ stored schema.now (get key_eq items.now) (get key_eq items.now) choices.now) }
{
    let mut list = Vec::new(alloc);
    for choice in choices {
        if let Some(held) = held_after(alloc, schema, items, choice)? {
            list.push((choice.key, held))?;
        }
    }
    Ok(list)
}

// What a reader sees of a key, if it was written.
fn shown_at(items: &Items, key: &Key) -> Option<(Item, Token)>
    ensures { result ≡ option_map shown (get key_eq items.now key.now) }
{
    match items.get(key) {
        Some(held) => Some(shown(held)),
        None => None,
    }
}

// Puts what was made into the store, in order.
fn put_all(items: &mut Items, changes: Vec<(Key, HeldItem)>)
    requires { vec_len changes ≤ spare items.old }
    ensures { get key_eq items.new ≡ update_all key_eq (get key_eq items.old) changes.items }
{
    for (key, held) in changes {
        let put: Result<_, _> = items.insert(key, held);
        let _before = put.unwrap();
    }
}

// Applies the choices as a whole, or none of them.
fn apply_to(
    alloc: Global,
    items: &mut Items,
    schema: &[(i64, i64)],
    choices: &[Choice],
) -> Result<Applied, Memory>
    ensures answer { IfOk result (λ applied. applied ≡ applied_answer schema.now (get key_eq items.old) choices.now) }
    ensures ok { OnOk result (get key_eq items.new ≡ store_after schema.now (get key_eq items.old) choices.now) }
    ensures err { OnErr result (IsUnchanged items.old items.new) }
{
    if let Some(key) = key_failed(schema, items, choices) {
        return Ok(Applied::Refused(key));
    }
    let list = changes(alloc, schema, items, choices)?;
    items.try_reserve(list.len())?;
    put_all(items, list);
    Ok(Applied::Done)
}

impl OneCopy {
    /// The store in which no key was written.
    pub fn new(alloc: Global) -> Result<OneCopy, Memory>
        ensures { IsOkAnd result (λ store. one_copy_of store ≡ empty_store) }
    {
        Ok(OneCopy {
            alloc,
            items: HashMap::new(alloc),
        })
    }

    /// Applies the choices of a transaction, all of them or none. A choice may be applied where its
    /// key is still as its writer saw it, and then has its values within their bounds.
    pub fn apply(&mut self, schema: &Schema, choices: &[Choice]) -> Result<Applied, Memory>
        ensures answer { IfOk result (λ applied. applied ≡ applied_answer schema.now (one_copy_of self.old) choices.now) }
        ensures ok { OnOk result (one_copy_of self.new ≡ store_after schema.now (one_copy_of self.old) choices.now) }
        ensures err { OnErr result (self.new ≡ self.old) }
    {
        apply_to(self.alloc, &mut self.items, schema.bounds(), choices)
    }

    /// What a reader sees of a key, if it was written.
    pub fn held(&self, key: &Key) -> Option<(Item, Token)>
        ensures { result ≡ option_map shown (one_copy_of self.now key.now) }
    {
        shown_at(&self.items, key)
    }
}
