//! A message of which some pieces came.
ghost use Rattle.std.specs.Prelude.{◌≡◌, ◌≤◌, ◌<◌, ◌+◌, ◌*◌, ◌++◌, length, take, drop, min, max, vec_len, vec_capacity, true, false, IfOk, OnOk, OnErr};
ghost use Rattle.mdcc_frag.specs.Datagrams.{message_limit, count};
ghost use Rattle.mdcc_frag.specs.Partial.{nothing_of, with_piece_bytes, with_piece, is_piece_held, is_whole};
ghost use Rattle.mdcc_frag.specs.Arrivals.{pieces_placed, are_laid, are_contiguous};
ghost use Rattle.mdcc_frag.specs.Reading.{piece_length};

use crate::datagrams::count;
use mdcc_base::HeapList;
use std::alloc::{AllocError, Global};
use std::marker::Model;

/// Which piece came, and how many bytes it has.
#[derive(Clone, Copy)]
pub struct Arrival {
    pub index: u16,
    pub size: u16,
}

/// A message of which some pieces came. It keeps them in the order in which they came, and takes memory as they come: at most
/// twice what came, and a flag for each piece of the message.
#[derive(Drop)]
pub struct Partial {
    total: usize,
    pieces: Vec<u8>,
    arrivals: Vec<Arrival>,
    held: Vec<bool>,
}

impl Model for Partial {
    ghost use Rattle.mdcc_frag.specs.Partial.{PartialMessage};
    ghost use Rattle.mdcc_frag.specs.Arrivals.{message_of_pieces, ArePieces};

    ghost Value = { PartialMessage };

    ghost view = { message_of_pieces };

    ghost invariant = { ArePieces };
}

// Writes these bytes in place of as many from the offset on.
fn overwrite(bytes: &mut Vec<u8>, offset: usize, piece: &[u8])
    requires { offset + length piece.now ≤ vec_len bytes.old }
    ensures items { bytes.new.items ≡ with_piece_bytes offset piece.now bytes.old.items }
    ensures len { vec_len bytes.new ≡ vec_len bytes.old }
    ensures room { vec_capacity bytes.old ≤ vec_capacity bytes.new }
{
    let end = offset + piece.len();
    bytes[offset..end].copy_from_slice(piece);
}

// Writes the pieces that came over these bytes.
fn place(arrivals: &[Arrival], pieces: &[u8], bytes: &mut Vec<u8>)
    requires { are_laid (vec_len bytes.old) arrivals.now (length pieces.now) ≡ true }
    ensures items { bytes.new.items ≡ pieces_placed arrivals.now pieces.now bytes.old.items }
    ensures room { vec_capacity bytes.old ≤ vec_capacity bytes.new }
{
    let mut rest = pieces;
    for arrival in arrivals {
        let (piece, behind) = rest.split_at(arrival.size as usize);
        overwrite(bytes, 1383 * arrival.index as usize, piece);
        rest = behind;
    }
}

// Whether each piece lies right behind the one before.
fn are_in_order(arrivals: &[Arrival]) -> bool
    ensures { result ≡ are_contiguous 0 arrivals.now }
{
    let mut offset = 0usize;
    for arrival in arrivals {
        if 1383 * arrival.index as usize != offset {
            return false;
        }
        offset = 1383 * arrival.index as usize + arrival.size as usize;
    }
    true
}

// Makes room for so many bytes more: for as many again behind them, but for no more than the message has.
fn make_room(pieces: &mut Vec<u8>, more: usize, total: usize) -> Result<(), AllocError>
    requires within { vec_len pieces.old + more ≤ total }
    requires short { total ≤ message_limit }
    ensures items { pieces.new.items ≡ pieces.old.items }
    ensures room { OnOk result (vec_len pieces.new + more ≤ vec_capacity pieces.new) }
    ensures bounded { vec_capacity pieces.new ≤ max (vec_capacity pieces.old) (min total (2 * (vec_len pieces.old + more))) }
{
    let size = pieces.len();
    if size + more <= pieces.capacity() {
        return Ok(());
    }
    let most = total.min(2 * (size + more));
    pieces.reserve_exact(most - size)
}

impl Partial {
    /// A message of this length, of which no piece came.
    pub fn new(alloc: Global, total: usize) -> Result<Partial, AllocError>
        requires { total ≤ message_limit }
        ensures { IfOk result (λ partial. partial ≡ nothing_of total) }
    {
        let held = Vec::from_elem(alloc, false, count(total) as usize)?;
        Ok(Partial {
            total,
            pieces: Vec::new(alloc),
            arrivals: Vec::new(alloc),
            held,
        })
    }

    /// How many bytes the message has.
    pub fn total(&self) -> usize
        ensures { result ≡ length self.now.bytes }
    {
        self.total
    }

    /// Whether the piece of this index came.
    pub fn holds(&self, index: u16) -> bool
        ensures { result ≡ is_piece_held index self.now }
    {
        match self.held.get(index as usize) {
            Some(came) => *came,
            None => false,
        }
    }

    /// Takes the piece of this index, which did not come yet. Without memory nothing has changed.
    pub fn take(&mut self, index: u16, piece: &[u8]) -> Result<(), AllocError>
        requires index { index < count (length self.old.bytes) }
        requires missing { is_piece_held index self.old ≡ false }
        requires size { length piece.now ≡ piece_length (length self.old.bytes) index }
        ensures taken { OnOk result (self.new ≡ with_piece index piece.now self.old) }
        ensures out_of_memory { OnErr result (self.new ≡ self.old) }
    {
        self.arrivals.reserve(1)?;
        make_room(&mut self.pieces, piece.len(), self.total)?;
        self.pieces.extend_from_slice(piece)?;
        let size = piece.len() as u16;
        self.arrivals.push_reserved(Arrival { index, size });
        self.held[index as usize] = true;
        Ok(())
    }

    /// Whether all pieces came.
    pub fn is_whole(&self) -> bool
        ensures { result ≡ is_whole self.now }
    {
        self.arrivals.len() == self.held.len()
    }

    /// The bytes of a message all of whose pieces came. They are put together in the other buffer unless they came in order.
    pub fn into_bytes(self, scratch: &mut Vec<u8>) -> HeapList<u8>
        requires whole { is_whole self ≡ true }
        requires room { message_limit ≤ vec_capacity scratch.old }
        ensures bytes { result ≡ self.bytes }
        ensures room { message_limit ≤ vec_capacity scratch.new }
    {
        let Partial {
            total,
            mut pieces,
            arrivals,
            held: _,
        } = self;
        if are_in_order(&arrivals) {
            return HeapList::from_vec(pieces);
        }
        scratch.clear();
        let _cleared = scratch.resize(total, 0).is_ok();
        place(&arrivals, &pieces, scratch);
        pieces.clear();
        let _copied = pieces.extend_from_slice(scratch).is_ok();
        HeapList::from_vec(pieces)
    }
}
