//! One region of cells, whose memory is written when a cell is first used.
ghost use Rattle.std.specs.Prelude.{◌≡◌, ◌<◌, ◌≤◌, IfOk, length, get_or, set};
ghost use Rattle.mdcc_pool.specs.Chains.{fresh_cells, next_cell, no_cell, padded};

use crate::cells::{Cell, padded, unused};
use mdcc_base::Memory;
use std::alloc::Global;
use std::marker::Model;

/// All its cells can be read. The memory of those after the last one ever used is reserved, and
/// nothing was written there.
#[derive(Drop)]
pub(crate) struct Region {
    cells: Vec<Cell>,
    size: u32,
}

impl Model for Region {
    ghost use Rattle.std.specs.Prelude.{List};
    ghost use Rattle.mdcc_pool.specs.declared.cells.Cell.{Cell};

    ghost Value = { List Cell };

    ghost use Rattle.std.specs.Prelude.{◌≤◌, ◌<◌, ◌^◌, length, vec_capacity};
    ghost use Rattle.mdcc_pool.specs.Chains.{extended};

    ghost view = { λ r. extended r.size r.cells.items };

    ghost invariant = { λ r. (length r.cells.items ≤ r.size) × (r.size ≤ vec_capacity r.cells) × (r.size < 2 ^ 32) };
}

impl Region {
    /// So many cells, each of which leads to the one after it.
    pub(crate) fn new(alloc: Global, size: u32) -> Result<Region, Memory>
        ensures { IfOk result (λ region. region ≡ fresh_cells 0 size) }
    {
        Ok(Region {
            cells: Vec::with_capacity(alloc, size as usize)?,
            size,
        })
    }

    #[tactic(auto, using(crate::proofs::Fresh::extended_length))]
    pub(crate) fn size(&self) -> u32
        ensures { result ≡ length self.now }
    {
        self.size
    }

    #[tactic(auto, using(crate::proofs::Fresh::extended_length, crate::proofs::Fresh::extended_used, crate::proofs::Fresh::extended_unused))]
    pub(crate) fn cell(&self, at: u32) -> Cell
        requires { at < length self.now }
        ensures { result ≡ get_or self.now at no_cell }
    {
        if (at as usize) < self.cells.len() {
            self.cells[at as usize]
        } else {
            unused(at)
        }
    }

    #[tactic(auto, using(crate::proofs::Fresh::extended_length, crate::proofs::Fresh::extended_more, crate::proofs::Fresh::extended_set))]
    pub(crate) fn set(&mut self, at: u32, cell: Cell)
        requires { at < length self.old }
        ensures { self.new ≡ set self.old at cell }
    {
        while self.cells.len() <= at as usize {
            self.cells.push_reserved(unused(self.cells.len() as u32));
        }
        self.cells[at as usize] = cell;
    }

    /// Each cell leads to the one after it again. It takes no memory and gives none back.
    #[tactic(auto, using(crate::proofs::Fresh::extended_length))]
    pub(crate) fn clear(&mut self)
        ensures { self.new ≡ fresh_cells 0 (length self.old) }
    {
        self.cells.clear();
    }

    /// Writes at most 60 bytes into a cell, and gives the cell after it.
    pub(crate) fn fill(&mut self, at: u32, bytes: &[u8]) -> u32
        requires cell { at < length self.old }
        requires few { length bytes.now ≤ 60 }
        ensures cells { self.new ≡ set self.old at (record { next = next_cell self.old at; bytes = padded bytes.now }) }
        ensures after { result ≡ next_cell self.old at }
    {
        let next = self.cell(at).next;
        self.set(
            at,
            Cell {
                next,
                bytes: padded(bytes),
            },
        );
        next
    }
}
