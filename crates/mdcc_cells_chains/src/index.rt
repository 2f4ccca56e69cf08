//! Indices found by key.
ghost use Rattle.std.specs.Prelude.{◌≡◌, ◌<◌, ◌≤◌, ◌∷◌, [], ◌↔◌, Some, IfSome, IfOk, IsTrue, None, get_or, length, reverse};
ghost use Rattle.mdcc_cells_chains.specs.Keyed.{IsIndexed, IsOnWay, chain_of, shares_chain};
ghost use Rattle.mdcc_cells_chains.specs.Walks.{walk, first_in, last_in, first_below, has_at};

use crate::{Chains, IndexKey};
use mdcc_base::{Key, Memory, TxId};
use std::alloc::Global;
use std::marker::Model;

/// Keys with the indices from 0 on, in the order in which they were added. All indices of a key
/// are found, the newest first, and other keys are passed by.
#[derive(Drop)]
pub struct Index<K: IndexKey> {
    chains: Chains,
    keys: Vec<K>,
}

/// Indices found by transaction.
pub type TransactionIndex = Index<TxId>;

/// Indices found by a version of a key.
pub type InstanceIndex = Index<(Key, u64)>;

/// Indices found by key of an item.
pub type KeyIndex = Index<Key>;

impl<K: IndexKey> Model for Index<K> {
    ghost use Rattle.std.specs.Prelude.{◌≤◌, reverse, vec_capacity};
    ghost use Rattle.mdcc_cells_chains.specs.Keyed.{Keyed, keyed_code, IsIndexed};

    ghost Value = { Keyed K };

    ghost coded = { keyed_code K.code };

    ghost view = { λ i. record { room = i.chains.room; keys = reverse i.keys.items } };

    ghost invariant = { λ i. IsIndexed K.hash_code i.chains i.keys.items × (i.chains.room ≤ vec_capacity i.keys) };
}

// How many chains there are for so many keys: short ones, and not so many that it takes long to
// clear their heads.
fn chains_for(room: u32) -> u32
    ensures { 0 < result }
{
    room.min((room / 8).max(131_072)).max(1)
}

// The chain of a key, out of so many.
fn chain_of<K: IndexKey>(key: &K, count: usize) -> usize
    requires { 0 < count }
    ensures value { result ≡ chain_of K.hash_code count key.now }
    ensures within { result < count }
{
    (key.hash_code() % count as u64) as usize
}

// Whether this key has this index.
fn has_at<K: IndexKey>(keys: &[K], key: &K, index: u32) -> bool
    ensures { result ≡ has_at (K.same key.now) (reverse keys.now) index }
{
    match keys.get(index as usize) {
        Some(other) => key.is_same(other),
        None => false,
    }
}

// The newest index in the chain of a key.
fn head_of<K: IndexKey>(chains: &Chains, key: &K) -> Option<u32>
    requires { 0 < length chains.now.heads }
    ensures { result ≡ get_or chains.now.heads (chain_of K.hash_code (length chains.now.heads) key.now) None }
{
    chains.first(chain_of(key, chains.count()))
}

// Where the indices of a key before a given one are looked for.
fn before<K: IndexKey>(chains: &Chains, keys: &[K], key: &K, index: u32) -> Option<u32>
    requires { IsIndexed K.hash_code chains.now keys.now }
    ensures { IsOnWay (shares_chain K.hash_code (length chains.now.heads) key.now) (K.same key.now) index (reverse keys.now) result }
{
    if has_at(keys, key, index) {
        chains.next(index)
    } else {
        head_of(chains, key)
    }
}

// The first index of a key below a limit, from an index of its chain on.
fn first_from<K: IndexKey>(
    chains: &Chains,
    keys: &[K],
    key: &K,
    limit: u32,
    from: Option<u32>,
) -> Option<u32>
    requires indexed { IsIndexed K.hash_code chains.now keys.now }
    requires on_way { IsOnWay (shares_chain K.hash_code (length chains.now.heads) key.now) (K.same key.now) limit (reverse keys.now) from }
    ensures { result ≡ first_below limit (walk (K.same key.now) (reverse keys.now)) }
{
    let mut at = from;
    while let Some(index) = at {
        if index < limit && key.is_same(&keys[index as usize]) {
            return Some(index);
        }
        at = chains.next(index);
    }
    None
}

impl<K: IndexKey> Index<K> {
    /// No key, with room for so many.
    pub fn new(alloc: Global, room: u32) -> Result<Index<K>, Memory>
        ensures { IfOk result (λ index. index ≡ record { room = room; keys = [] }) }
    {
        Ok(Index {
            chains: Chains::new(alloc, chains_for(room), room)?,
            keys: Vec::with_capacity(alloc, room as usize)?,
        })
    }

    /// How many keys were added.
    pub fn len(&self) -> u32
        ensures value { result ≡ length self.now.keys }
        ensures fits { result ≤ self.now.room }
    {
        self.chains.len()
    }

    /// Whether there is no room for one more key.
    pub fn is_full(&self) -> bool
        ensures { IsTrue result ↔ (self.now.room ≤ length self.now.keys) }
    {
        self.chains.is_full()
    }

    /// Adds a key. Its index is the number of those before it.
    pub fn push(&mut self, key: K)
        requires { length self.old.keys < self.old.room }
        ensures keys { self.new.keys ≡ key ∷ self.old.keys }
        ensures room { self.new.room ≡ self.old.room }
    {
        let chain = chain_of(&key, self.chains.count());
        self.chains.push(chain);
        self.keys.push(key).unwrap();
    }

    /// No key again, with the same room. It takes no memory and gives none back.
    pub fn clear(&mut self)
        ensures { self.new ≡ record { room = self.old.room; keys = [] } }
    {
        self.chains.clear();
        self.keys.clear();
    }

    /// The newest index of a key.
    pub fn first(&self, key: &K) -> Option<u32>
        ensures value { result ≡ first_in (walk (K.same key.now) self.now.keys) }
        ensures within { IfSome result (λ index. index < length self.now.keys) }
    {
        let from = head_of(&self.chains, key);
        first_from(&self.chains, &self.keys, key, self.len(), from)
    }

    /// The index of a key before a given one. From an index of the same key on it takes one step;
    /// from any other it begins at the newest.
    pub fn next(&self, key: &K, index: u32) -> Option<u32>
        ensures value { result ≡ first_below index (walk (K.same key.now) self.now.keys) }
        ensures lower { IfSome result (λ next. next < index) }
    {
        let from = before(&self.chains, &self.keys, key, index);
        first_from(&self.chains, &self.keys, key, index, from)
    }

    /// The oldest index of a key.
    pub fn oldest(&self, key: &K) -> Option<u32>
        ensures { result ≡ last_in (walk (K.same key.now) self.now.keys) }
    {
        let mut oldest = None;
        let mut at = self.first(key);
        while let Some(index) = at {
            oldest = Some(index);
            at = self.next(key, index);
        }
        oldest
    }
}
