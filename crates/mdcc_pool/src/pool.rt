//! Bytes under tickets.
ghost use Rattle.std.specs.Prelude.{◌≡◌, ◌≤◌, ◌<◌, ◌+◌, ◌-◌, ◌++◌, ◌↔◌, None, Some, IsSome, IfSome, IsOk, IfOk, OnOk, OnErr, is_some, length, take, drop, set, replicate, min};
ghost use Rattle.mdcc_pool.specs.Sizes.{cells_for};
ghost use Rattle.mdcc_pool.specs.Held.{bytes_held_at, cells_in_use};

use crate::cells::{Cell, cells_for};
use crate::chain::{step, write};
use crate::cursor::Cursor;
use crate::lengths::Lengths;
use crate::region::Region;
use mdcc_base::Memory;
use std::alloc::Global;
use std::marker::Model;

/// The name under which a pool holds bytes.
#[derive(Clone, Copy, Debug, PartialEq, Eq)]
pub struct Ticket {
    pub first: u32,
}

/// The bytes need more cells than are spare.
#[derive(Clone, Copy, Debug, PartialEq, Eq)]
pub struct PoolFull;

/// Cells of 64 bytes, of which 60 hold bytes and 4 lead to the next cell. Only `new` takes memory, all
/// of it at once.
#[derive(Drop)]
pub struct CellPool {
    cells: Region,
    lens: Lengths,
    free: u32,
    spare: u32,
}

impl Model for CellPool {
    ghost use Rattle.mdcc_pool.specs.Held.{HeldCells};
    ghost use Rattle.mdcc_pool.specs.Pool.{AreKept, held_from};

    ghost Value = { HeldCells };

    ghost view = { λ p. record { spare = p.spare; held = held_from p.cells 0 p.lens } };

    ghost invariant = { λ p. AreKept p.cells p.lens p.free p.spare };
}

impl CellPool {
    /// A pool of so many cells, all of them spare. The memory is reserved; none of it is written before
    /// its cell is used.
    pub fn new(alloc: Global, cells: u32) -> Result<CellPool, Memory>
        ensures { IfOk result (λ pool. pool ≡ record { spare = cells; held = replicate cells None }) }
    {
        Ok(CellPool {
            cells: Region::new(alloc, cells)?,
            lens: Lengths::new(alloc, cells)?,
            free: 0,
            spare: cells,
        })
    }

    /// How many cells there are, spare ones and others.
    pub fn size(&self) -> u32
        ensures { result ≡ length self.now.held }
    {
        self.cells.size()
    }

    /// How many cells are spare.
    pub fn spare(&self) -> u32
        ensures value { result ≡ self.now.spare }
        ensures sum { result + cells_in_use self.now.held ≡ length self.now.held }
    {
        self.spare
    }

    /// Whether bytes are held under a ticket.
    pub fn holds(&self, ticket: &Ticket) -> bool
        ensures { result ≡ is_some (bytes_held_at self.now ticket.now.first) }
    {
        self.lens.get(ticket.first).is_some()
    }

    /// Holds bytes under a ticket that was not in use. They need a cell for each 60 of them, and at
    /// least one.
    pub fn put(&mut self, bytes: &[u8]) -> Result<Ticket, PoolFull>
        ensures exact { IsOk result ↔ (cells_for (length bytes.now) ≤ self.old.spare) }
        ensures unused { IfOk result (λ ticket. bytes_held_at self.old ticket.first ≡ None) }
        ensures within { IfOk result (λ ticket. ticket.first < length self.old.held) }
        ensures held { IfOk result (λ ticket. self.new.held ≡ set self.old.held ticket.first (Some bytes.now)) }
        ensures used { OnOk result (self.new.spare + cells_for (length bytes.now) ≡ self.old.spare) }
        ensures err { OnErr result (self.new ≡ self.old) }
    {
        let needed = cells_for(bytes.len());
        if needed > self.spare as usize {
            return Err(PoolFull);
        }
        let first = self.free;
        self.free = write(&mut self.cells, first, bytes);
        self.lens.set(first, Some(bytes.len()));
        self.spare -= needed as u32;
        Ok(Ticket { first })
    }

    /// A cursor at the first of the bytes under a ticket.
    pub fn start(&self, ticket: &Ticket) -> Cursor<'_>
        requires { IsSome (bytes_held_at self.now ticket.now.first) }
        ensures { bytes_held_at self.now ticket.now.first ≡ Some result }
    {
        Cursor {
            cells: &self.cells,
            at: ticket.first,
            within: 0,
            left: self.lens.at(ticket.first),
        }
    }

    /// Copies the bytes that are held under a ticket, from an offset on, as many as there are and as
    /// there is room for, and gives their number.
    pub fn read(&self, ticket: &Ticket, offset: usize, into: &mut [u8]) -> usize
        requires { IsSome (bytes_held_at self.now ticket.now.first) }
        ensures count { IfSome (bytes_held_at self.now ticket.now.first) (λ bytes. result ≡ min (length bytes - offset) (length into.old)) }
        ensures bytes { IfSome (bytes_held_at self.now ticket.now.first) (λ bytes. into.new ≡ take result (drop offset bytes) ++ drop result into.old) }
    {
        let mut cursor = self.start(ticket);
        cursor.skip(offset);
        cursor.peek(into)
    }

    /// Holds nothing under a ticket any more, so that its cells are spare.
    pub fn free(&mut self, ticket: Ticket)
        requires { IsSome (bytes_held_at self.old ticket.first) }
        ensures held { self.new.held ≡ set self.old.held ticket.first None }
        ensures spare { IfSome (bytes_held_at self.old ticket.first) (λ bytes. self.new.spare ≡ self.old.spare + cells_for (length bytes)) }
    {
        let count = cells_for(self.lens.at(ticket.first));
        let last = step(&self.cells, ticket.first, count - 1);
        let bytes = self.cells.cell(last).bytes;
        self.cells.set(
            last,
            Cell {
                next: self.free,
                bytes,
            },
        );
        self.free = ticket.first;
        self.spare += count as u32;
        self.lens.set(ticket.first, None);
    }

    /// Holds nothing any more, so that all cells are spare. It takes no memory and gives none back.
    pub fn clear(&mut self)
        ensures { self.new ≡ record { spare = length self.old.held; held = replicate (length self.old.held) None } }
    {
        self.cells.clear();
        self.lens.clear();
        self.free = 0;
        self.spare = self.cells.size();
    }
}
