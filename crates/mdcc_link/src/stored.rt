//! The calls of a link in memory, and its datagrams.
ghost use Rattle.std.specs.Prelude.{◌≡◌, ◌≤◌, ◌<◌, ◌+◌, ◌-◌, ◌++◌, ◌∷◌, ◌==◌, [], length, min, map, take, drop, find, position, slice_get, vec_len, vec_capacity, false, is_some, Some, None, Ok, Err, IsOk, IfSome, OnOk, OnErr};
ghost use Rattle.std.specs.Option.{option_map};
ghost use Rattle.mdcc_link.specs.Link.LinkCall.{Bind, Send, Receive};
ghost use Rattle.mdcc_link.specs.Memory.{address_eq, endpoint_of, first_waiting_at, without_first, arrived, found_of, part_received, bound_after, sent_after, waiting_after, Brings};
ghost use Rattle.mdcc_link.specs.Stored.{IsLinkStore, MakesContents, bytes_of, pending_after};

use crate::Received;
use mdcc_base::{Address, Failed};
use std::alloc::{AllocError, Global};
use std::marker::Model;

/// An address that an endpoint bound.
#[derive(Clone, Copy)]
pub struct Bound {
    pub at: u8,
    pub address: Address,
}

/// So many bytes from this one on.
#[derive(Clone, Copy)]
pub struct Piece {
    pub start: usize,
    pub count: usize,
}

/// A call with its answer. Its bytes stand elsewhere.
#[derive(Clone, Copy)]
pub enum Noted {
    Bind {
        at: u8,
        address: Address,
        answer: Result<(), Failed>,
    },
    Send {
        from: u8,
        to: Address,
        answer: Result<(), Failed>,
    },
    Receive {
        at: u8,
        size: usize,
        answer: Result<Received, Failed>,
    },
}

/// A call, and where its bytes stand.
#[derive(Clone, Copy)]
pub struct Note {
    pub call: Noted,
    pub piece: Piece,
}

/// A datagram that was sent.
#[derive(Clone, Copy)]
pub struct Dispatch {
    pub from: u8,
    pub to: Address,
    pub piece: Piece,
}

/// A datagram that waits at an endpoint.
#[derive(Clone, Copy)]
pub struct Pending {
    pub at: u8,
    pub piece: Piece,
}

/// The calls in order, the addresses that were bound, the datagrams that were sent and those that wait, and the bytes of all,
/// one after the other.
#[derive(Drop)]
pub struct Stored {
    notes: Vec<Note>,
    bound: Vec<Bound>,
    sends: Vec<Dispatch>,
    queue: Vec<Pending>,
    bytes: Vec<u8>,
}

impl Model for Stored {
    ghost use Rattle.std.specs.Prelude.{◌-◌, length, map, min, vec_len, vec_capacity};
    ghost use Rattle.mdcc_link.specs.Stored.{LinkStore, HasPieces, note_in, sent_in, waiting_in};

    ghost Value = { LinkStore };

    ghost view = { λ s. record {
      calls = map (note_in s.bytes.items) s.notes.items;
      bound = s.bound.items;
      sent = map (sent_in s.bytes.items) s.sends.items;
      waiting = map (waiting_in s.bytes.items) s.queue.items;
      call_room = min (min (vec_capacity s.notes - vec_len s.notes) (vec_capacity s.bound - vec_len s.bound))
          (min (vec_capacity s.sends - vec_len s.sends) (vec_capacity s.queue - vec_len s.queue));
      byte_room = vec_capacity s.bytes - vec_len s.bytes;
    } };

    ghost invariant = { λ s. HasPieces (length s.bytes.items) s.notes.items s.sends.items s.queue.items };
}

// Whether they are one address.
fn address_eq(a: &Address, b: &Address) -> bool
    ensures { result ≡ address_eq a.now b.now }
{
    *a == *b
}

// The endpoint that bound the address first.
fn endpoint_of(bound: &[Bound], address: Address) -> Option<u8>
    ensures { result ≡ endpoint_of bound.now address }
{
    let found = bound
        .iter()
        .find(|each| address_eq(&each.address, &address))?;
    Some(found.at)
}

// The index of the first one that waits at the endpoint.
fn first_index(queue: &[Pending], at: u8) -> Option<usize>
    ensures index { result ≡ position (λ p. p.at == at) queue.now }
    ensures within { IfSome result (λ i. i < length queue.now) }
{
    queue.iter().position(|pending| pending.at == at)
}

// The first piece that waits at the endpoint.
fn first_piece(queue: &[Pending], at: u8) -> Option<Piece>
    ensures { result ≡ option_map (λ p. p.piece) (find (λ p. p.at == at) queue.now) }
{
    let first = queue.iter().find(|pending| pending.at == at)?;
    Some(first.piece)
}

// Takes the first one that waits at the endpoint.
fn take_first(queue: &mut Vec<Pending>, at: u8) -> Option<Pending>
    ensures first { result ≡ find (λ p. p.at == at) queue.old.items }
    ensures left { queue.new.items ≡ without_first (λ p. p.at == at) queue.old.items }
    ensures len { vec_len queue.new ≤ vec_len queue.old }
    ensures capacity { vec_capacity queue.new ≡ vec_capacity queue.old }
{
    match first_index(queue.as_slice(), at) {
        Some(index) => Some(queue.remove(index)),
        None => None,
    }
}

// Adds an element, for which there is room.
fn add<T: Copy>(list: &mut Vec<T>, element: T)
    requires room { vec_len list.old < vec_capacity list.old }
    ensures items { list.new.items ≡ list.old.items ++ element ∷ [] }
    ensures len { vec_len list.new ≡ vec_len list.old + 1 }
    ensures capacity { vec_capacity list.old ≤ vec_capacity list.new }
{
    let _added = list.push(element).is_ok();
}

// Lets a piece wait at the endpoint, if there is one.
fn let_wait(queue: &mut Vec<Pending>, at: Option<u8>, piece: Piece)
    requires room { vec_len queue.old < vec_capacity queue.old }
    ensures items { queue.new.items ≡ pending_after at piece queue.old.items }
    ensures len { vec_len queue.new ≤ vec_len queue.old + 1 }
    ensures capacity { vec_capacity queue.old ≤ vec_capacity queue.new }
{
    if let Some(at) = at {
        add(queue, Pending { at, piece });
    }
}

// Adds bytes behind all others.
fn store(pool: &mut Vec<u8>, bytes: &[u8]) -> Piece
    requires room { vec_len pool.old + length bytes.now ≤ vec_capacity pool.old }
    ensures items { pool.new.items ≡ pool.old.items ++ bytes.now }
    ensures len { vec_len pool.new ≡ vec_len pool.old + length bytes.now }
    ensures piece { result ≡ record { start = length pool.old.items; count = length bytes.now } }
    ensures capacity { vec_capacity pool.old ≤ vec_capacity pool.new }
{
    let start = pool.len();
    let _stored = pool.extend_from_slice(bytes).is_ok();
    Piece {
        start,
        count: bytes.len(),
    }
}

// The bytes of a piece, as far as they are there.
fn bytes_of(pool: &[u8], piece: Piece) -> &[u8]
    ensures { result.now ≡ bytes_of piece pool.now }
{
    let rest = pool.split_at(piece.start.min(pool.len())).1;
    rest.split_at(piece.count.min(rest.len())).0
}

// Copies as many bytes as fit to the front of the buffer, and answers how many.
fn copy_front(bytes: &[u8], into: &mut [u8]) -> usize
    ensures count { result ≡ min (length into.old) (length bytes.now) }
    ensures buffer { into.new ≡ take result bytes.now ++ drop result into.old }
{
    let count = into.len().min(bytes.len());
    into[..count].copy_from_slice(&bytes[..count]);
    count
}

impl Stored {
    pub fn new(alloc: Global) -> Stored
        ensures calls { result.calls ≡ [] }
        ensures bound { result.bound ≡ [] }
        ensures sent { result.sent ≡ [] }
        ensures waiting { result.waiting ≡ [] }
    {
        Stored {
            notes: Vec::new(alloc),
            bound: Vec::new(alloc),
            sends: Vec::new(alloc),
            queue: Vec::new(alloc),
            bytes: Vec::new(alloc),
        }
    }

    /// Lets so many further calls with so many bytes in all find memory.
    pub fn reserve(&mut self, calls: usize, bytes: usize) -> Result<(), AllocError>
        ensures same { IsLinkStore self.old.calls self.old.bound self.old.sent self.old.waiting self.new }
        ensures calls { OnOk result (calls ≤ self.new.call_room) }
        ensures bytes { OnOk result (bytes ≤ self.new.byte_room) }
        ensures calls_stay { self.old.call_room ≤ self.new.call_room }
        ensures bytes_stay { self.old.byte_room ≤ self.new.byte_room }
        ensures succeeds { calls ≤ self.old.call_room → bytes ≤ self.old.byte_room → IsOk result }
    {
        self.notes.try_reserve(calls)?;
        self.bound.try_reserve(calls)?;
        self.sends.try_reserve(calls)?;
        self.queue.try_reserve(calls)?;
        self.bytes.try_reserve(bytes)?;
        Ok(())
    }

    /// Adds a bind.
    pub fn bind(&mut self, at: u8, address: Address, answer: Result<(), Failed>)
        requires room { 0 < self.old.call_room }
        ensures store { MakesContents (Bind at address answer) self.old self.new }
        ensures calls_stay { self.old.call_room ≤ self.new.call_room + 1 }
        ensures bytes_stay { self.old.byte_room ≤ self.new.byte_room }
    {
        let call = Noted::Bind {
            at,
            address,
            answer,
        };
        let piece = Piece { start: 0, count: 0 };
        add(&mut self.notes, Note { call, piece });
        match answer {
            Ok(()) => add(&mut self.bound, Bound { at, address }),
            Err(_) => {}
        }
    }

    /// Adds a send.
    pub fn send(&mut self, from: u8, to: Address, bytes: &[u8], answer: Result<(), Failed>)
        requires room { 0 < self.old.call_room }
        requires bytes_room { length bytes.now ≤ self.old.byte_room }
        ensures store { MakesContents (Send from to bytes.now answer) self.old self.new }
        ensures calls_stay { self.old.call_room ≤ self.new.call_room + 1 }
        ensures bytes_stay { self.old.byte_room ≤ self.new.byte_room + length bytes.now }
    {
        let piece = store(&mut self.bytes, bytes);
        let call = Noted::Send { from, to, answer };
        add(&mut self.notes, Note { call, piece });
        match answer {
            Ok(()) => {
                add(&mut self.sends, Dispatch { from, to, piece });
                let at = endpoint_of(self.bound.as_slice(), to);
                let_wait(&mut self.queue, at, piece);
            }
            Err(_) => {}
        }
    }

    /// Lets a datagram wait at an endpoint.
    pub fn put(&mut self, at: u8, bytes: &[u8])
        requires room { 0 < self.old.call_room }
        requires bytes_room { length bytes.now ≤ self.old.byte_room }
        ensures store { IsLinkStore self.old.calls self.old.bound self.old.sent (arrived (Some at) bytes.now self.old.waiting) self.new }
        ensures calls_stay { self.old.call_room ≤ self.new.call_room + 1 }
        ensures bytes_stay { self.old.byte_room ≤ self.new.byte_room + length bytes.now }
    {
        let piece = store(&mut self.bytes, bytes);
        let_wait(&mut self.queue, Some(at), piece);
    }

    /// Adds a receive that fails.
    pub fn fail_receive(&mut self, at: u8, size: usize)
        requires room { 0 < self.old.call_room }
        ensures store { MakesContents (Receive at size (Err (record {})) []) self.old self.new }
        ensures calls_stay { self.old.call_room ≤ self.new.call_room + 1 }
        ensures bytes_stay { self.old.byte_room ≤ self.new.byte_room }
    {
        let answer = Err(Failed);
        let call = Noted::Receive { at, size, answer };
        let piece = Piece { start: 0, count: 0 };
        add(&mut self.notes, Note { call, piece });
    }

    /// Takes the first datagram that waits at the endpoint, and adds that receive.
    pub fn receive(&mut self, at: u8, into: &mut [u8]) -> Received
        requires room { 0 < self.old.call_room }
        ensures answer { Ok result ≡ found_of false (length into.old) (first_waiting_at at self.old.waiting) }
        ensures buffer { Brings (part_received false (length into.old) (first_waiting_at at self.old.waiting)) into.old into.new }
        ensures store { MakesContents (Receive at (length into.old) (found_of false (length into.old) (first_waiting_at at self.old.waiting))
            (part_received false (length into.old) (first_waiting_at at self.old.waiting))) self.old self.new }
        ensures calls_stay { self.old.call_room ≤ self.new.call_room + 1 }
        ensures bytes_stay { self.old.byte_room ≤ self.new.byte_room }
    {
        let size = into.len();
        match take_first(&mut self.queue, at) {
            Some(first) => {
                let count = copy_front(bytes_of(self.bytes.as_slice(), first.piece), into);
                let answer = Ok(Received::Got(count));
                let call = Noted::Receive { at, size, answer };
                let start = first.piece.start;
                let piece = Piece { start, count };
                add(&mut self.notes, Note { call, piece });
                Received::Got(count)
            }
            None => {
                let answer = Ok(Received::Nothing);
                let call = Noted::Receive { at, size, answer };
                let piece = Piece { start: 0, count: 0 };
                add(&mut self.notes, Note { call, piece });
                Received::Nothing
            }
        }
    }

    /// Whether a datagram waits at the endpoint.
    pub fn waits(&self, at: u8) -> bool
        ensures { result ≡ is_some (first_waiting_at at self.now.waiting) }
    {
        first_piece(self.queue.as_slice(), at).is_some()
    }

    /// The datagram that was sent after so many others.
    pub fn sent(&self, index: usize) -> Option<(u8, Address, &[u8])>
        ensures { option_map (λ r. record { from = r.0; to = r.1; bytes = r.2.now }) result ≡ slice_get self.now.sent index }
    {
        let sent = self.sends.get(index)?;
        let bytes = bytes_of(self.bytes.as_slice(), sent.piece);
        Some((sent.from, sent.to, bytes))
    }
}
