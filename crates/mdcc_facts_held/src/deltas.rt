//! What facts say of deltas, and whether they are too many.
ghost use Rattle.std.specs.Prelude.{◌≡◌, ◌≤◌, ◌∷◌, IsTrue, filter_map, length, map, nat_lt, option_map, reverse};
ghost use Rattle.std.specs.Bool.{OnTrue};
ghost use Rattle.std.specs.List.{list_any};
ghost use Rattle.mdcc_struct.specs.Maps.{txs_of, union, value_of, with_entry};
ghost use Rattle.mdcc_struct.specs.Places.{place_of};
ghost use Rattle.mdcc_def_protocol.specs.Facts.{delta_given, deltas_at, deltas_from, executed_of};
ghost use Rattle.mdcc_def_protocol.specs.News.{is_crowding};
ghost use Rattle.mdcc_facts_held.specs.Few.{if_few, is_few};

use crate::held::{current_of, version_from};
use mdcc_base::{BoundedList, Key, Plain, TxId};
use mdcc_def_messages::Fact;
use mdcc_option::{Amounts, Choice, Delta, Outcome, Seen, Update};

/// At most 64 deltas, ascending by transaction.
pub type Deltas = BoundedList<(TxId, Amounts), 64>;

// How many stand before a transaction.
fn place_of(deltas: &[(TxId, Amounts)], tx: &TxId) -> usize
    ensures { result ≡ place_of deltas.now tx.now }
{
    let mut place = 0usize;
    for delta in deltas {
        if !delta.0.is_below(tx) {
            return place;
        }
        place += 1;
    }
    place
}

// The amounts of a transaction.
fn amounts_of(deltas: &[(TxId, Amounts)], tx: &TxId) -> Option<Amounts>
    ensures { result ≡ value_of deltas.now tx.now }
{
    for delta in deltas {
        if delta.0.is(tx) {
            return Some(delta.1.copy());
        }
    }
    None
}

// Puts a delta in its place, where its transaction has none and there is room.
fn put(deltas: &mut Deltas, tx: TxId, amounts: &Amounts) -> bool
    ensures few { result ≡ is_few (with_entry deltas.old (tx, amounts.now)) }
    ensures value { OnTrue result (deltas.new ≡ with_entry deltas.old (tx, amounts.now)) }
{
    if amounts_of(deltas.as_slice(), &tx).is_some() {
        return true;
    }
    if deltas.is_full() {
        return false;
    }
    let place = place_of(deltas.as_slice(), &tx);
    deltas.insert(place, (tx, amounts.copy()));
    true
}

/// The delta that a committed choice brings at a version of a key.
pub fn delta_given(choice: &Choice, key: &Key, version: u64) -> Option<(TxId, Amounts)>
    ensures { result ≡ delta_given key.now version choice.now }
{
    if choice.version == version && choice.key.is(key) {
        match &choice.update {
            Update::Add(amounts) => Some((choice.tx, amounts.copy())),
            Update::Write(_, _) => None,
        }
    } else {
        None
    }
}

// Puts the deltas that committed choices bring, while there is room.
fn put_given(deltas: &mut Deltas, choices: &[Choice], key: &Key, version: u64) -> bool
    requires { IsTrue (is_few deltas.old) }
    ensures few { result ≡ is_few (union deltas.old (filter_map (delta_given key.now version) choices.now)) }
    ensures value { OnTrue result (deltas.new ≡ union deltas.old (filter_map (delta_given key.now version) choices.now)) }
{
    for choice in choices {
        if let Some(delta) = delta_given(choice, key, version) {
            if !put(deltas, delta.0, &delta.1) {
                return false;
            }
        }
    }
    true
}

// Puts adopted deltas, while there is room.
fn put_adopted(deltas: &mut Deltas, adds: &[Delta]) -> bool
    requires { IsTrue (is_few deltas.old) }
    ensures few { result ≡ is_few (union deltas.old (map (λ delta. (delta.tx, delta.amounts)) adds.now)) }
    ensures value { OnTrue result (deltas.new ≡ union deltas.old (map (λ delta. (delta.tx, delta.amounts)) adds.now)) }
{
    for delta in adds {
        if !put(deltas, delta.tx, &delta.amounts) {
            return false;
        }
    }
    true
}

// Puts the deltas that the fact brings at a version of a key, while there is room.
fn put_from(deltas: &mut Deltas, fact: &Fact, key: &Key, version: u64) -> bool
    requires { IsTrue (is_few deltas.old) }
    ensures few { result ≡ is_few (union deltas.old (deltas_from key.now version fact.now)) }
    ensures value { OnTrue result (deltas.new ≡ union deltas.old (deltas_from key.now version fact.now)) }
{
    match fact {
        Fact::Heard {
            tx: _,
            outcome: Outcome::Commit(choices),
        } => put_given(deltas, choices.as_slice(), key, version),
        Fact::Adopted {
            key: other,
            version: adopted,
            item: _,
            adds,
        } => {
            if *adopted == version && other.is(key) {
                put_adopted(deltas, adds.as_slice())
            } else {
                true
            }
        }
        _ => true,
    }
}

// The deltas of a version that were heard committed or adopted, where they are at most 64.
fn deltas_at(facts: &[Fact], key: &Key, version: u64) -> Option<Deltas>
    ensures { result ≡ if_few (deltas_at (reverse facts.now) key.now version) }
{
    let mut deltas = BoundedList::new();
    for fact in facts {
        if !put_from(&mut deltas, fact, key, version) {
            return None;
        }
    }
    Some(deltas)
}

// The executed deltas, where they are at most 64.
fn executed_of(facts: &[Fact], key: &Key) -> Option<Deltas>
    ensures { result ≡ if_few (executed_of (reverse facts.now) key.now) }
{
    deltas_at(facts, key, current_of(facts, key))
}

/// The executed deltas. There are none where they are more than 64.
pub fn executed_if_few(facts: &[Fact], key: &Key) -> Deltas
    ensures { length (executed_of (reverse facts.now) key.now) ≤ 64 → result ≡ executed_of (reverse facts.now) key.now }
{
    match executed_of(facts, key) {
        Some(deltas) => deltas,
        None => BoundedList::new(),
    }
}

// Whether more than 64 deltas of a key would be executed.
fn is_crowded(facts: &[Fact], fact: &Fact, key: &Key) -> bool
    ensures { result ≡ nat_lt 64 (length (executed_of (fact.now ∷ reverse facts.now) key.now)) }
{
    let version = current_of(facts, key).max(version_from(fact, key));
    match deltas_at(facts, key, version) {
        Some(deltas) => {
            let mut deltas = deltas;
            !put_from(&mut deltas, fact, key, version)
        }
        None => true,
    }
}

// Whether more than 64 deltas would be executed at the key of one of the choices.
fn is_one_crowded(facts: &[Fact], fact: &Fact, choices: &[Choice]) -> bool
    ensures { result ≡ list_any (λ key. nat_lt 64 (length (executed_of (fact.now ∷ reverse facts.now) key))) (map (λ choice. choice.key) choices.now) }
{
    for choice in choices {
        if is_crowded(facts, fact, &choice.key) {
            return true;
        }
    }
    false
}

/// Whether more than 64 deltas of one version would be executed.
pub fn is_crowding(facts: &[Fact], fact: &Fact) -> bool
    ensures { result ≡ is_crowding (reverse facts.now) fact.now }
{
    match fact {
        Fact::Heard {
            tx: _,
            outcome: Outcome::Commit(choices),
        } => is_one_crowded(facts, fact, choices.as_slice()),
        Fact::Adopted {
            key,
            version: _,
            item: _,
            adds: _,
        } => is_crowded(facts, fact, key),
        _ => false,
    }
}

/// The transactions of deltas.
pub fn txs_of(deltas: &Deltas) -> Seen
    ensures { result ≡ txs_of deltas.now }
{
    let mut seen = BoundedList::new();
    for delta in deltas.as_slice() {
        seen.push(delta.0);
    }
    seen
}

/// The delta of a transaction.
pub fn delta_of(deltas: &Deltas, tx: TxId) -> Option<Delta>
    ensures { result ≡ option_map (λ amounts. record { tx = tx; amounts = amounts }) (value_of deltas.now tx) }
{
    match amounts_of(deltas.as_slice(), &tx) {
        Some(amounts) => Some(Delta { tx, amounts }),
        None => None,
    }
}
