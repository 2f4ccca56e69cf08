//! A walk over the facts of an instance.
ghost use Rattle.std.specs.Prelude.{◌≡◌};
ghost use Rattle.mdcc_cells_delta_walk.specs.Chains.{AreFactNumbers, first_encoding, later_encodings, encodings_walked};

use mdcc_base::Key;
use mdcc_cells_chains::InstanceIndex;
use mdcc_cells_facts::FactCells;
use mdcc_pool::Cursor;
use std::marker::Model;

/// The facts of a version of a key that an index finds, the newest first. Beside the index stand the
/// numbers of the facts that are entered in it.
#[derive(Drop)]
pub struct InstanceWalk<'a> {
    cells: &'a FactCells,
    index: &'a InstanceIndex,
    numbers: &'a [u32],
    instance: &'a (Key, u64),
    at: Option<u32>,
}

impl<'a> Model for InstanceWalk<'a> {
    ghost use Rattle.std.specs.Prelude.{List, ℕ};

    ghost Value = { List (List ℕ) };

    ghost use Rattle.std.specs.Prelude.{◌<◌, IfSome, length};
    ghost use Rattle.mdcc_cells_delta_walk.specs.Chains.{AreFactNumbers, encodings_from};

    ghost view = { λ w. encodings_from w.cells.now.encodings w.index.now.keys w.numbers.now w.instance.now w.at };

    ghost invariant = { λ w. AreFactNumbers w.cells.now.encodings w.index.now.keys w.numbers.now × IfSome w.at (λ index. index < length w.index.now.keys) };
}

impl<'a> InstanceWalk<'a> {
    /// All facts of an instance.
    pub fn new(
        cells: &'a FactCells,
        index: &'a InstanceIndex,
        numbers: &'a [u32],
        instance: &'a (Key, u64),
    ) -> InstanceWalk<'a>
        requires { AreFactNumbers cells.now.encodings index.now.keys numbers.now }
        ensures { result ≡ encodings_walked cells.now.encodings index.now.keys numbers.now instance.now }
    {
        InstanceWalk {
            cells,
            index,
            numbers,
            instance,
            at: index.first(instance),
        }
    }

    /// A walk from where this one stands.
    pub fn fork(&self) -> InstanceWalk<'a>
        ensures { result ≡ self.now }
    {
        InstanceWalk {
            cells: self.cells,
            index: self.index,
            numbers: self.numbers,
            instance: self.instance,
            at: self.at,
        }
    }

    /// A cursor at the beginning of the next fact, which is passed.
    pub fn read(&mut self) -> Option<Cursor<'a>>
        ensures first { result ≡ first_encoding self.old }
        ensures rest { self.new ≡ later_encodings self.old }
    {
        match self.at {
            Some(index) => {
                let number = self.numbers[index as usize];
                self.at = self.index.next(self.instance, index);
                Some(self.cells.start(number))
            }
            None => None,
        }
    }
}
