//! Chains of indices, the newest first.
ghost use Rattle.std.specs.Prelude.{◌≡◌, ◌<◌, ◌≤◌, ◌++◌, ◌∷◌, [], ◌↔◌, None, Some, IfSome, IfOk, IsTrue, get_or, length, set, replicate};

use crate::heads::Heads;
use mdcc_base::Memory;
use std::alloc::Global;
use std::marker::Model;

/// Chains of the indices from 0 to one below their count. Each index is in one chain, and leads to
/// a lower one of the same chain or to none.
#[derive(Drop)]
pub struct Chains {
    heads: Heads,
    links: Vec<Option<u32>>,
    room: u32,
}

impl Model for Chains {
    ghost use Rattle.std.specs.Prelude.{vec_capacity};
    ghost use Rattle.mdcc_cells_chains.specs.Links.{Links, AreLinks};

    ghost Value = { Links };

    ghost view = { λ c. record { heads = c.heads; links = c.links.items; room = c.room } };

    ghost invariant = { λ c. AreLinks c.heads c.links.items c.room (vec_capacity c.links) };
}

impl Chains {
    /// So many empty chains, with room for so many indices in all.
    pub fn new(alloc: Global, count: u32, room: u32) -> Result<Chains, Memory>
        ensures { IfOk result (λ chains. chains ≡ record { heads = replicate count None; links = []; room = room }) }
    {
        Ok(Chains {
            heads: Heads::new(alloc, count)?,
            links: Vec::with_capacity(alloc, room as usize)?,
            room,
        })
    }

    /// How many chains there are.
    pub fn count(&self) -> usize
        ensures { result ≡ length self.now.heads }
    {
        self.heads.count() as usize
    }

    /// How many indices there are in all chains.
    pub fn len(&self) -> u32
        ensures value { result ≡ length self.now.links }
        ensures fits { result ≤ self.now.room }
    {
        self.links.len() as u32
    }

    /// Whether there is no room for one more index.
    pub fn is_full(&self) -> bool
        ensures { IsTrue result ↔ (self.now.room ≤ length self.now.links) }
    {
        self.room as usize <= self.links.len()
    }

    /// The newest index of a chain.
    pub fn first(&self, chain: usize) -> Option<u32>
        requires { chain < length self.now.heads }
        ensures value { result ≡ get_or self.now.heads chain None }
        ensures within { IfSome result (λ index. index < length self.now.links) }
    {
        self.heads.get(chain)
    }

    /// The index before one of a chain.
    pub fn next(&self, index: u32) -> Option<u32>
        requires { index < length self.now.links }
        ensures value { result ≡ get_or self.now.links index None }
        ensures lower { IfSome result (λ next. next < index) }
    {
        self.links[index as usize]
    }

    /// Puts the next index in front of a chain. No other index is touched.
    pub fn push(&mut self, chain: usize)
        requires chain { chain < length self.old.heads }
        requires room { length self.old.links < self.old.room }
        ensures heads { self.new.heads ≡ set self.old.heads chain (Some (length self.old.links)) }
        ensures links { self.new.links ≡ self.old.links ++ get_or self.old.heads chain None ∷ [] }
        ensures room { self.new.room ≡ self.old.room }
    {
        let index = self.links.len() as u32;
        self.links.push_reserved(self.heads.get(chain));
        self.heads.set(chain, index);
    }

    /// All chains are empty again. It takes no memory and gives none back.
    pub fn clear(&mut self)
        ensures { self.new ≡ record { heads = replicate (length self.old.heads) None; links = []; room = self.old.room } }
    {
        self.heads.clear();
        self.links.clear();
    }
}
