//! The table of messages of which some pieces came.
ghost use Rattle.std.specs.Prelude.{◌≡◌, ◌≤◌, ◌<◌, ◌+◌, ◌*◌, [], length, true, vec_capacity, IfOk, OnErr, Option, Some, None};
ghost use Rattle.std.specs.Map.{lookup_entry};
ghost use Rattle.mdcc_frag.specs.Datagrams.{message_limit, count};
ghost use Rattle.mdcc_frag.specs.Reading.{FitsIn, payload};
ghost use Rattle.mdcc_frag.specs.Joining.{JoinEntry, entry_of, others, join_step, first_piece, take_piece, known_step, IsPieceTaken, next_step, message_of, join, is_taken};

use crate::datagrams::{FragHead, MESSAGE_LIMIT};
use crate::joined::{Joined, NextStep};
use crate::partial::Partial;
use crate::reading::{DropCause, Piece, piece_in};
use lru::LruCache;
use mdcc_base::HeapList;
use std::alloc::{AllocError, Global};
use std::marker::Model;
use std::num::NonZeroUsize;

/// Joins the datagrams that arrive at one endpoint. It keeps at most 64 messages of which some pieces came; the least recently
/// used goes first. Each takes memory as its pieces come: room for at most twice their bytes and no more than the message has, and
/// some bytes for each piece. So all take 128 MiB only where nearly all pieces came of 64 of the longest. Another 2 MiB are those
/// in which a message is put together.
#[derive(Drop)]
pub struct Joiner {
    table: LruCache<FragHead, Partial>,
    scratch: Vec<u8>,
}

impl Model for Joiner {
    ghost use Rattle.std.specs.Prelude.{◌≡◌, ◌≤◌, List, vec_capacity};
    ghost use Rattle.mdcc_frag.specs.Datagrams.{message_limit};
    ghost use Rattle.mdcc_frag.specs.Joining.{JoinEntry};

    ghost Value = { List JoinEntry };

    ghost view = { λ j. j.table.entries };

    ghost invariant = { λ j. (j.table.cap ≡ 64) × (message_limit ≤ vec_capacity j.scratch) };
}

// Which it is of the last three.
fn known_step(partial: &Partial, piece: &Piece) -> NextStep
    ensures { result ≡ known_step piece.now partial.now }
{
    if partial.total() != piece.total as usize {
        NextStep::Disagree
    } else if partial.holds(piece.index) {
        NextStep::Repeat
    } else {
        NextStep::Advance
    }
}

// Which of the four a piece is.
fn next_step(table: &LruCache<FragHead, Partial>, piece: &Piece) -> NextStep
    ensures { result ≡ next_step piece.now (message_of piece.now table.now.entries) }
{
    match table.peek(&piece.head) {
        None => NextStep::Begin,
        Some(partial) => known_step(partial, piece),
    }
}

// Takes the first piece of a message. Where it is all of it, nothing else is needed.
fn begin(
    alloc: Global,
    table: &mut LruCache<FragHead, Partial>,
    scratch: &mut Vec<u8>,
    piece: &Piece,
    bytes: &[u8],
) -> Result<Joined, AllocError>
    requires first { message_of piece.now table.old.entries ≡ None }
    requires cap { table.old.cap ≡ 64 }
    requires room { message_limit ≤ vec_capacity scratch.old }
    requires fits { FitsIn piece.now (length bytes.now) }
    ensures taken { IfOk result (λ answer. join_step answer table.new.entries
        ≡ take_piece piece.now bytes.now table.old.entries (entry_of piece.now table.old.entries)) }
    ensures refused { OnErr result (table.new ≡ table.old) }
    ensures cap { table.new.cap ≡ 64 }
    ensures room { message_limit ≤ vec_capacity scratch.new }
{
    if bytes.len() == piece.total as usize {
        let mut whole = Vec::new(alloc);
        whole.extend_from_slice(bytes)?;
        return Ok(Joined::Whole(HeapList::from_vec(whole)));
    }
    let mut partial = Partial::new(alloc, piece.total as usize)?;
    partial.take(piece.index, bytes)?;
    if partial.is_whole() {
        return Ok(Joined::Whole(partial.into_bytes(scratch)));
    }
    match table.put(piece.head, partial) {
        Ok(_) => Ok(Joined::Kept),
        Err(_) => Err(AllocError),
    }
}

// Takes a piece that was missing into its message, which comes to the front, and answers whether all pieces are there.
fn take_missing(
    table: &mut LruCache<FragHead, Partial>,
    piece: &Piece,
    bytes: &[u8],
) -> Result<bool, AllocError>
    requires missing { next_step piece.now (message_of piece.now table.old.entries) ≡ NextStep.Advance }
    requires fits { FitsIn piece.now (length bytes.now) }
    ensures taken { IfOk result (λ complete. IsPieceTaken piece.now bytes.now table.old.entries complete table.new.entries) }
    ensures refused { OnErr result (table.new ≡ table.old) }
    ensures cap { table.new.cap ≡ table.old.cap }
{
    let complete = match table.peek_mut(&piece.head) {
        Some(partial) => {
            partial.take(piece.index, bytes)?;
            partial.is_whole()
        }
        None => unreachable!(),
    };
    table.promote(&piece.head);
    Ok(complete)
}

// Takes a piece that was missing.
fn advance(
    table: &mut LruCache<FragHead, Partial>,
    scratch: &mut Vec<u8>,
    piece: &Piece,
    bytes: &[u8],
) -> Result<Joined, AllocError>
    requires missing { next_step piece.now (message_of piece.now table.old.entries) ≡ NextStep.Advance }
    requires room { message_limit ≤ vec_capacity scratch.old }
    requires fits { FitsIn piece.now (length bytes.now) }
    ensures taken { IfOk result (λ answer. join_step answer table.new.entries
        ≡ take_piece piece.now bytes.now table.old.entries (entry_of piece.now table.old.entries)) }
    ensures refused { OnErr result (table.new ≡ table.old) }
    ensures cap { table.new.cap ≡ table.old.cap }
    ensures room { message_limit ≤ vec_capacity scratch.new }
{
    if !take_missing(table, piece, bytes)? {
        return Ok(Joined::Kept);
    }
    match table.pop(&piece.head) {
        Some(partial) => Ok(Joined::Whole(partial.into_bytes(scratch))),
        None => unreachable!(),
    }
}

// Takes a piece into the table.
fn take_piece(
    alloc: Global,
    table: &mut LruCache<FragHead, Partial>,
    scratch: &mut Vec<u8>,
    piece: &Piece,
    bytes: &[u8],
) -> Result<Joined, AllocError>
    requires cap { table.old.cap ≡ 64 }
    requires room { message_limit ≤ vec_capacity scratch.old }
    requires fits { FitsIn piece.now (length bytes.now) }
    ensures taken { IfOk result (λ answer. join_step answer table.new.entries
        ≡ take_piece piece.now bytes.now table.old.entries (entry_of piece.now table.old.entries)) }
    ensures refused { OnErr result (table.new ≡ table.old) }
    ensures memory { OnErr result
        (is_taken (take_piece piece.now bytes.now table.old.entries (entry_of piece.now table.old.entries)).answer ≡ true) }
    ensures cap { table.new.cap ≡ 64 }
    ensures room { message_limit ≤ vec_capacity scratch.new }
{
    match next_step(table, piece) {
        NextStep::Begin => begin(alloc, table, scratch, piece, bytes),
        NextStep::Disagree => Ok(Joined::Dropped(DropCause::Disagrees)),
        NextStep::Repeat => {
            table.promote(&piece.head);
            Ok(Joined::Repeated)
        }
        NextStep::Advance => advance(table, scratch, piece, bytes),
    }
}

impl Joiner {
    /// A joiner that has no piece of any message.
    pub fn new(alloc: Global) -> Result<Joiner, AllocError>
        ensures { IfOk result (λ joiner. joiner ≡ []) }
    {
        let most = NonZeroUsize::new(64).unwrap_or(NonZeroUsize::MIN);
        let table = LruCache::new(alloc, most)?;
        let scratch = Vec::with_capacity(alloc, MESSAGE_LIMIT)?;
        Ok(Joiner { table, scratch })
    }

    /// Takes a datagram. Memory is needed only for a piece that is taken, and without it nothing has changed.
    pub fn join(&mut self, alloc: Global, datagram: &[u8]) -> Result<Joined, AllocError>
        ensures answer { IfOk result (λ answer. join_step answer self.new ≡ join datagram.now self.old) }
        ensures out_of_memory { OnErr result (self.new ≡ self.old) }
        ensures memory { OnErr result (is_taken (join datagram.now self.old).answer ≡ true) }
    {
        match piece_in(datagram) {
            Ok(piece) => {
                let bytes = datagram.split_at(17).1;
                take_piece(alloc, &mut self.table, &mut self.scratch, &piece, bytes)
            }
            Err(cause) => Ok(Joined::Dropped(cause)),
        }
    }
}
