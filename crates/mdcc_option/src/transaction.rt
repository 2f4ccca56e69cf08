//! Transactions: which parts make one, and the options that it proposes.
ghost use Rattle.std.specs.Prelude.{◌≡◌, ◌<◌, ◌≤◌, ◌+◌, length, IfOk, IsPermutation, insert, false, IsTrue};
ghost use Rattle.std.specs.List.{list_any};
ghost use Rattle.mdcc_base.specs.Key.{key_eq};
ghost use Rattle.mdcc_option.specs.declared.items.Part.{Part as APart};
ghost use Rattle.mdcc_option.specs.Parts.{AreParts, are_parts_ascending, with_part, sorted_parts, is_key_repeated};
ghost use Rattle.mdcc_option.specs.Transaction.{transaction_of, parts_fault, choices_of, choice_of_part, write_set_of_parts};

use crate::update::update_fault;
use crate::{Choice, DraftFault, Part, Schema, WriteSet};
use mdcc_base::{BoundedList, Key, Plain, TxId};
use std::marker::Model;

/// What a transaction does, part by part in key order: 1 to 8 parts of distinct keys that meet a
/// schema.
#[derive(Debug, Drop)]
pub struct Transaction {
    parts: BoundedList<Part, 8>,
}

impl Model for Transaction {
    ghost use Rattle.std.specs.Prelude.{List};
    ghost use Rattle.mdcc_option.specs.declared.items.Part.{Part};
    ghost use Rattle.mdcc_option.specs.Parts.{AreParts};

    ghost Value = { List Part };

    ghost view = { λ t. t.parts };

    ghost invariant = { λ t. AreParts t.parts };
}

impl Transaction {
    /// The transaction of these parts, in any order, under a schema.
    pub fn new(schema: &Schema, parts: &[Part]) -> Result<Transaction, DraftFault>
        ensures exact { result ≡ transaction_of schema.now parts.now }
        ensures same { IfOk result (IsPermutation parts.now) }
    {
        if parts.is_empty() {
            return Err(DraftFault::Empty);
        }
        if parts.len() > 8 {
            return Err(DraftFault::TooMany);
        }
        if is_key_repeated(parts) {
            return Err(DraftFault::RepeatedKey);
        }
        let parts = sorted(parts);
        match parts_fault(schema, parts.as_slice()) {
            Some(fault) => Err(fault),
            None => Ok(Transaction { parts }),
        }
    }

    /// The parts in key order.
    pub fn parts(&self) -> &[Part]
        ensures value { result.now ≡ self.now }
        ensures parts { AreParts self.now }
    {
        self.parts.as_slice()
    }

    /// The options that it proposes as transaction `tx`, in key order.
    pub fn choices(&self, tx: TxId) -> BoundedList<Choice, 8>
        ensures { result ≡ choices_of tx self.now }
    {
        choices(tx, self.parts.as_slice())
    }
}

// Whether two parts have one key.
fn is_key_repeated(parts: &[Part]) -> bool
    ensures { result ≡ is_key_repeated parts.now }
{
    for place in 0..parts.len() {
        if has_key(parts.split_at(place + 1).1, &parts[place].key) {
            return true;
        }
    }
    false
}

// Whether one of the parts has this key.
fn has_key(parts: &[Part], key: &Key) -> bool
    ensures { result ≡ list_any (λ part. key_eq part.key key.now) parts.now }
{
    parts.iter().any(|part| part.key.is(key))
}

// Copies of the parts in key order.
fn sorted(parts: &[Part]) -> BoundedList<Part, 8>
    requires { length parts.now ≤ 8 }
    ensures value { result ≡ sorted_parts parts.now }
    ensures count { length result ≡ length parts.now }
    ensures same { IsPermutation parts.now result }
    ensures ascending { is_key_repeated parts.now ≡ false → IsTrue (are_parts_ascending result) }
{
    let mut sorted = BoundedList::new();
    for part in parts {
        let place = place_of(sorted.as_slice(), &part.key);
        sorted.insert(place, part.copy());
    }
    sorted
}

// How many parts stand before a key.
fn place_of(parts: &[Part], key: &Key) -> usize
    ensures within { result ≤ length parts.now }
    ensures place { (part : APart) → part.key ≡ key.now → insert parts.now result part ≡ with_part parts.now part }
{
    for place in 0..parts.len() {
        if key.is_below(&parts[place].key) {
            return place;
        }
    }
    parts.len()
}

/// The fault of the first part that has one. Parts of a transaction that have none make it as they stand.
pub fn parts_fault(schema: &Schema, parts: &[Part]) -> Option<DraftFault>
    ensures { result ≡ parts_fault schema.now parts.now }
{
    for part in parts {
        if let Some(fault) = update_fault(schema, &part.update) {
            return Some(fault);
        }
    }
    None
}

// All keys with their versions.
fn write_set(parts: &[Part]) -> WriteSet
    requires { length parts.now ≤ 8 }
    ensures { result ≡ write_set_of_parts parts.now }
{
    let mut write_set = BoundedList::new();
    for part in parts {
        write_set.push((part.key, part.version));
    }
    write_set
}

// The choice for each part.
fn choices(tx: TxId, parts: &[Part]) -> BoundedList<Choice, 8>
    requires { length parts.now ≤ 8 }
    ensures { result ≡ choices_of tx parts.now }
{
    let write_set = write_set(parts);
    let mut choices = BoundedList::new();
    for part in parts {
        choices.push(choice(tx, &write_set, part));
    }
    choices
}

fn choice(tx: TxId, write_set: &WriteSet, part: &Part) -> Choice
    ensures { result ≡ choice_of_part tx write_set.now part.now }
{
    Choice {
        tx,
        key: part.key,
        version: part.version,
        update: part.update.copy(),
        write_set: write_set.copy(),
    }
}

impl Plain for Transaction {
    fn copy(&self) -> Transaction {
        Transaction {
            parts: self.parts.copy(),
        }
    }

    fn same(&self, other: &Transaction) -> bool {
        self.parts.same(&other.parts)
    }
}
