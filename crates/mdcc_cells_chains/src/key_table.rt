//! Keys that have one index each.
ghost use Rattle.std.specs.Prelude.{◌≡◌, ◌<◌, ◌≤◌, [], ◌↔◌, None, IfSome, IfOk, IsTrue, length};
ghost use Rattle.mdcc_cells_chains.specs.KeyTables.{index_of, index_then, with_key, AreDistinct};

use crate::KeyIndex;
use mdcc_base::{Key, Memory};
use std::alloc::Global;
use std::marker::Model;

/// Keys with the indices from 0 on, in the order in which they were first added.
#[derive(Drop)]
pub struct KeyTable {
    index: KeyIndex,
}

impl Model for KeyTable {
    ghost use Rattle.std.specs.Prelude.{List, ℕ};
    ghost use Rattle.std.specs.Coded.{coded_list, coded_ℕ};
    ghost use Rattle.mdcc_cells_chains.specs.Keyed.{Keyed, keyed_code};
    ghost use Rattle.mdcc_cells_chains.specs.KeyTables.{AreDistinct};

    ghost Value = { Keyed (List ℕ) };

    ghost coded = { keyed_code (coded_list coded_ℕ) };

    ghost view = { λ t. t.index };

    ghost invariant = { λ t. AreDistinct t.index.keys };
}

impl KeyTable {
    /// No key, with room for so many.
    pub fn new(alloc: Global, room: u32) -> Result<KeyTable, Memory>
        ensures { IfOk result (λ table. table ≡ record { room = room; keys = [] }) }
    {
        Ok(KeyTable {
            index: KeyIndex::new(alloc, room)?,
        })
    }

    /// How many keys there are.
    pub fn len(&self) -> u32
        ensures value { result ≡ length self.now.keys }
        ensures fits { result ≤ self.now.room }
    {
        self.index.len()
    }

    /// Whether there is no room for one more key.
    pub fn is_full(&self) -> bool
        ensures { IsTrue result ↔ (self.now.room ≤ length self.now.keys) }
    {
        self.index.is_full()
    }

    /// The index of a key.
    pub fn find(&self, key: &Key) -> Option<u32>
        ensures value { result ≡ index_of self.now.keys key.now }
        ensures within { IfSome result (λ index. index < length self.now.keys) }
        ensures distinct { AreDistinct self.now.keys }
    {
        self.index.first(key)
    }

    /// The index of a key, which gets the next one where it has none.
    pub fn find_or_push(&mut self, key: &Key) -> u32
        requires { index_of self.old.keys key.now ≡ None → length self.old.keys < self.old.room }
        ensures index { result ≡ index_then self.old.keys key.now }
        ensures keys { self.new.keys ≡ with_key self.old.keys key.now }
        ensures room { self.new.room ≡ self.old.room }
    {
        if let Some(index) = self.index.first(key) {
            return index;
        }
        let index = self.index.len();
        self.index.push(*key);
        index
    }

    /// No key again, with the same room. It takes no memory and gives none back.
    pub fn clear(&mut self)
        ensures { self.new ≡ record { room = self.old.room; keys = [] } }
    {
        self.index.clear();
    }
}
