//! How many bytes are held from each cell on.
ghost use Rattle.std.specs.Prelude.{◌≡◌, ◌<◌, ◌≤◌, Some, None, IsSome, IfOk, length, get_or, set, replicate};

use mdcc_base::Memory;
use std::alloc::Global;
use std::marker::Model;

/// A length for each cell with which held bytes begin. Its memory is written with the first length
/// at a cell.
#[derive(Drop)]
pub(crate) struct Lengths {
    lens: Vec<Option<usize>>,
    size: u32,
}

impl Model for Lengths {
    ghost use Rattle.std.specs.Prelude.{List, Option, ℕ};

    ghost Value = { List (Option ℕ) };

    ghost use Rattle.std.specs.Prelude.{◌≤◌, length, vec_capacity};
    ghost use Rattle.mdcc_pool.specs.Pool.{padded_to};

    ghost view = { λ l. padded_to l.size l.lens.items };

    ghost invariant = { λ l. (length l.lens.items ≤ l.size) × (l.size ≤ vec_capacity l.lens) };
}

impl Lengths {
    pub(crate) fn new(alloc: Global, size: u32) -> Result<Lengths, Memory>
        ensures { IfOk result (λ lens. lens ≡ replicate size None) }
    {
        Ok(Lengths {
            lens: Vec::with_capacity(alloc, size as usize)?,
            size,
        })
    }

    pub(crate) fn get(&self, at: u32) -> Option<usize>
        ensures { result ≡ get_or self.now at None }
    {
        if (at as usize) < self.lens.len() {
            self.lens[at as usize]
        } else {
            None
        }
    }

    pub(crate) fn at(&self, at: u32) -> usize
        requires { IsSome (get_or self.now at None) }
        ensures { get_or self.now at None ≡ Some result }
    {
        self.get(at).unwrap()
    }

    #[tactic(auto, using(crate::proofs::Fresh::lens_length, crate::proofs::Fresh::lens_more, crate::proofs::Fresh::lens_set))]
    pub(crate) fn set(&mut self, at: u32, len: Option<usize>)
        requires { at < length self.old }
        ensures { self.new ≡ set self.old at len }
    {
        while self.lens.len() <= at as usize {
            self.lens.push_reserved(None);
        }
        self.lens[at as usize] = len;
    }

    /// No length at any cell. It takes no memory and gives none back.
    #[tactic(auto, using(crate::proofs::Fresh::lens_length))]
    pub(crate) fn clear(&mut self)
        ensures { self.new ≡ replicate (length self.old) None }
    {
        self.lens.clear();
    }
}
