//! Why a transaction cannot be begun, by what the centre holds.
ghost use Rattle.std.specs.Prelude.{◌≡◌, List};
ghost use Rattle.mdcc_option.specs.Equality.{txs_eq};
ghost use Rattle.mdcc_def_protocol.specs.Facts.{token_of};
ghost use Rattle.mdcc_def_protocol.specs.Manager.{add_fault, first_key, part_begin_fault, parts_begin_fault, update_begin_fault, write_fault};
ghost use Rattle.mdcc_def_protocol.specs.Manager.{key_refused as key_refused_of};
ghost use Rattle.mdcc_def_messages.specs.declared.facts.Fact.{Fact as AFact};

use mdcc_base::{Key, Plain};
use mdcc_facts::FactStore;
use mdcc_option::{BeginFault, Part, Seen, Token, Transaction, Update};

// Whether they are the same transactions in the same order.
fn is_same_seen(a: &Seen, b: &Seen) -> bool
    ensures { result ≡ txs_eq a.now b.now }
{
    a.same(b)
}

// What a reader sees of a key.
fn token_of<S: FactStore>(store: &S, key: &Key) -> Token
    ensures { (facts : List AFact) → S.stands store.now facts → result ≡ token_of facts key.now }
{
    Token {
        version: store.current(key),
        seen: store.executed(key),
    }
}

// A write saw just what is held now.
fn write_fault(token: Token, version: u64, seen: &Seen) -> Option<BeginFault>
    ensures { result ≡ write_fault token version seen.now }
{
    if token.version == version && is_same_seen(&token.seen, seen) {
        return None;
    }
    Some(BeginFault::Stale(token))
}

// An add names the version that is held, which has an item.
fn add_fault(current: u64, version: u64) -> Option<BeginFault>
    ensures { result ≡ add_fault current version }
{
    if current != version {
        return Some(BeginFault::Unseen(current));
    }
    if current == 0 {
        return Some(BeginFault::NoItem);
    }
    None
}

// Why an update of a key at a version cannot be begun.
fn update_begin_fault<S: FactStore>(
    store: &S,
    key: &Key,
    version: u64,
    update: &Update,
) -> Option<BeginFault>
    ensures { (facts : List AFact) → S.stands store.now facts
        → result ≡ update_begin_fault facts key.now version update.now }
{
    match update {
        Update::Write(_, seen) => write_fault(token_of(store, key), version, seen),
        Update::Add(_) => add_fault(store.current(key), version),
    }
}

// Why a part cannot be begun.
fn part_begin_fault<S: FactStore>(store: &S, part: &Part) -> Option<BeginFault>
    ensures { (facts : List AFact) → S.stands store.now facts → result ≡ part_begin_fault facts part.now }
{
    update_begin_fault(store, &part.key, part.version, &part.update)
}

/// The first part that cannot be begun: its key, and why.
pub(crate) fn parts_begin_fault<S: FactStore>(
    store: &S,
    parts: &[Part],
) -> Option<(Key, BeginFault)>
    ensures { (facts : List AFact) → S.stands store.now facts → result ≡ parts_begin_fault facts parts.now }
{
    for part in parts {
        if let Some(fault) = part_begin_fault(store, part) {
            return Some((part.key, fault));
        }
    }
    None
}

/// The key that a refusal of this transaction names: that of the first part that cannot be begun,
/// and the first of all where the parts could be.
pub fn key_refused<S: FactStore>(store: &S, transaction: &Transaction) -> Key
    ensures { (facts : List AFact) → S.stands store.now facts → result ≡ key_refused_of facts transaction.now }
{
    match parts_begin_fault(store, transaction.parts()) {
        Some((key, _)) => key,
        None => first_key(transaction),
    }
}

// The key of the first part.
fn first_key(transaction: &Transaction) -> Key
    ensures { result ≡ first_key transaction.now }
{
    transaction.parts()[0].key
}
