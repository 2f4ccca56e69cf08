//! A position in the bytes that are held under a ticket.
ghost use Rattle.std.specs.Prelude.{◌≡◌, ◌++◌, length, take, drop, min};

use crate::cells::WIDTH;
use crate::chain::{copy, step};
use crate::region::Region;
use std::marker::Model;

/// Reads the bytes under a ticket from the first on, each time from where it stopped.
#[derive(Drop)]
pub struct Cursor<'a> {
    pub(crate) cells: &'a Region,
    pub(crate) at: u32,
    pub(crate) within: usize,
    pub(crate) left: usize,
}

impl<'a> Model for Cursor<'a> {
    ghost use Rattle.std.specs.Prelude.{List, ℕ};

    ghost Value = { List ℕ };

    ghost use Rattle.mdcc_pool.specs.Reading.{bytes_left_of, IsReading};

    ghost view = { λ c. bytes_left_of c.cells.now c.at c.within c.left };

    ghost invariant = { λ c. IsReading c.cells.now c.at c.within c.left };
}

impl<'a> Cursor<'a> {
    /// How many bytes are left.
    pub fn left(&self) -> usize
        ensures { result ≡ length self.now }
    {
        self.left
    }

    /// Copies the bytes that are next, as many as there are and as there is room for, and gives their
    /// number. The cursor stays where it is.
    pub fn peek(&self, into: &mut [u8]) -> usize
        ensures count { result ≡ min (length self.now) (length into.old) }
        ensures bytes { into.new ≡ take result self.now ++ drop result into.old }
    {
        let count = self.left.min(into.len());
        copy(self.cells, self.at, self.within, count, into);
        count
    }

    /// Passes so many bytes, or all that are left where they are fewer.
    pub fn skip(&mut self, count: usize)
        ensures { self.new ≡ drop count self.old }
    {
        let passed = count.min(self.left);
        let within = self.within + passed;
        self.at = step(self.cells, self.at, within / WIDTH);
        self.within = within % WIDTH;
        self.left -= passed;
    }

    /// Copies the bytes that are next, as many as there are and as there is room for, passes them, and
    /// gives their number.
    pub fn read_on(&mut self, into: &mut [u8]) -> usize
        ensures count { result ≡ min (length self.old) (length into.old) }
        ensures bytes { into.new ≡ take result self.old ++ drop result into.old }
        ensures rest { self.new ≡ drop result self.old }
    {
        let count = self.peek(into);
        self.skip(count);
        count
    }
}
