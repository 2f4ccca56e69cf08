//! Facts in cells, each under its number.
ghost use Rattle.std.specs.Prelude.{◌≡◌, ◌≤◌, ◌<◌, ◌+◌, ◌-◌, ◌++◌, ◌∷◌, [], ℕ, IfOk, OnOk, OnErr, length, get_or, take, drop, min, replicate, vec_capacity};
ghost use Rattle.mdcc_def_messages.specs.Lengths.{cells_needed, fact_length};
ghost use Rattle.mdcc_def_messages.specs.Spelling.{fact_bytes};
ghost use Rattle.mdcc_def_messages.specs.WellFormed.{IsWellFormedFact};
ghost use Rattle.mdcc_def_messages.specs.declared.facts.Fact.{Fact as AFact};
ghost use Rattle.mdcc_cells_facts.specs.Stored.{cells_taken, room_for};

use mdcc_base::Memory;
use mdcc_def_messages::Fact;
use mdcc_def_protocol::StoreFault;
use mdcc_journal::counts::well_formed_facts_have_counts;
use mdcc_journal::decoding::decode_fact;
use mdcc_journal::encoding::{encode_fact, fact_length};
use mdcc_pool::{CellPool, Cursor, Ticket};
use mdcc_theorem_encoding::facts::facts_are_read_back;
use std::alloc::Global;
use std::marker::Model;

/// The longest encoding that a store takes.
const LONGEST: usize = 2_097_152;

/// The encodings of facts, numbered from 0 in the order in which they were added.
#[derive(Drop)]
pub struct FactCells {
    pool: CellPool,
    tickets: Vec<Ticket>,
    buffer: Vec<u8>,
}

impl Model for FactCells {
    ghost use Rattle.std.specs.Prelude.{vec_capacity, ◌≤◌};
    ghost use Rattle.mdcc_cells_facts.specs.Stored.{Stored, AreTicketed, encodings_in};

    ghost Value = { Stored };

    ghost view = { λ s. record { spare = s.pool.spare; encodings = encodings_in s.pool.held s.tickets.items } };

    ghost invariant = { λ s. AreTicketed s.pool s.tickets.items (vec_capacity s.tickets) × (2097152 ≤ vec_capacity s.buffer) };
}

// Fills a buffer with what is left at a cursor.
fn fill(cursor: &Cursor, buffer: &mut Vec<u8>) -> Result<(), Memory>
    ensures bytes { OnOk result (buffer.new.items ≡ cursor.now) }
    ensures capacity { vec_capacity buffer.old ≤ vec_capacity buffer.new }
{
    buffer.clear();
    buffer.resize(cursor.left(), 0)?;
    let _count = cursor.peek(buffer);
    Ok(())
}

// The fact whose encoding the bytes are.
fn decoded(alloc: Global, bytes: &[u8]) -> Result<Fact, Memory>
    ensures { (fact : AFact) → IsWellFormedFact fact → bytes.now ≡ fact_bytes fact → IfOk result (λ found. found ≡ fact) }
{
    facts_are_read_back();
    match decode_fact(alloc, bytes) {
        Ok(fact) => Ok(fact),
        Err(_) => Err(Memory),
    }
}

impl FactCells {
    /// No facts, and so many cells. It also takes the buffer in which a fact is encoded.
    pub fn new(alloc: Global, cells: u32) -> Result<FactCells, Memory>
        ensures { IfOk result (λ store. store ≡ record { spare = cells; encodings = [] }) }
    {
        Ok(FactCells {
            pool: CellPool::new(alloc, cells)?,
            tickets: Vec::with_capacity(alloc, cells as usize)?,
            buffer: Vec::with_capacity(alloc, LONGEST)?,
        })
    }

    /// How many facts there are.
    pub fn len(&self) -> u32
        ensures { result ≡ length self.now.encodings }
    {
        self.tickets.len() as u32
    }

    /// How many cells are spare.
    pub fn spare(&self) -> u32
        ensures { result ≡ self.now.spare }
    {
        self.pool.spare()
    }

    /// How many cells there are, spare ones and others.
    pub fn cells(&self) -> u32
        ensures { result ≡ self.now.spare + cells_taken self.now.encodings }
    {
        self.pool.size()
    }

    /// Whether the cells of a fact are spare.
    pub fn room_for(&self, fact: &Fact) -> Result<(), StoreFault>
        requires { IsWellFormedFact fact.now }
        ensures { result ≡ room_for self.now.spare (cells_needed fact.now) }
    {
        well_formed_facts_have_counts();
        let needed = fact_length(fact).div_ceil(60) as u64;
        let spare = u64::from(self.pool.spare());
        if spare < needed {
            Err(StoreFault::NoRoom { needed, spare })
        } else {
            Ok(())
        }
    }

    /// Adds a fact whose cells are spare. It takes no memory.
    pub fn add(&mut self, fact: &Fact)
        requires well_formed { IsWellFormedFact fact.now }
        requires short { fact_length fact.now ≤ 2097152 }
        requires room { cells_needed fact.now ≤ self.old.spare }
        ensures encodings { self.new.encodings ≡ self.old.encodings ++ fact_bytes fact.now ∷ [] }
        ensures used { self.new.spare + cells_needed fact.now ≡ self.old.spare }
    {
        well_formed_facts_have_counts();
        self.buffer.clear();
        encode_fact(fact, &mut self.buffer).unwrap();
        let ticket = self.pool.put(&self.buffer).unwrap();
        self.tickets.push_reserved(ticket);
    }

    /// A cursor at the first byte of the fact of a number.
    pub fn start(&self, number: u32) -> Cursor<'_>
        requires { number < length self.now.encodings }
        ensures { result ≡ get_or self.now.encodings number [] }
    {
        self.pool.start(&self.tickets[number as usize])
    }

    /// The fact of a number. It takes memory for the marks of a vote, and else none.
    pub fn fact_at(&mut self, alloc: Global, number: u32) -> Result<Fact, Memory>
        requires { number < length self.old.encodings }
        ensures fact { (fact : AFact) → IsWellFormedFact fact → get_or self.old.encodings number [] ≡ fact_bytes fact → IfOk result (λ found. found ≡ fact) }
        ensures same { self.new ≡ self.old }
    {
        let ticket = self.tickets[number as usize];
        let cursor = self.pool.start(&ticket);
        fill(&cursor, &mut self.buffer)?;
        decoded(alloc, &self.buffer)
    }

    /// No facts again, and all cells spare. It takes no memory and gives none back.
    pub fn clear(&mut self)
        ensures { self.new ≡ record { spare = self.old.spare + cells_taken self.old.encodings; encodings = [] } }
    {
        self.pool.clear();
        self.tickets.clear();
    }
}
