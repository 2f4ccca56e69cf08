//! What a datagram has.
ghost use Rattle.std.specs.Prelude.{◌≡◌, ◌≤◌, length, IfOk};
ghost use Rattle.mdcc_frag.specs.Reading.{FitsIn, payload, is_endpoint, has_header, fits, piece_at, piece_in, piece_length};

use crate::datagrams::{FragHead, MESSAGE_LIMIT, count};

/// Which piece of which message it is, and how many bytes that message has.
#[derive(Clone, Copy, Debug, PartialEq, Eq)]
pub struct Piece {
    pub head: FragHead,
    pub total: u32,
    pub index: u16,
}

/// Why a datagram is dropped.
#[derive(Clone, Copy, Debug, PartialEq, Eq)]
pub enum DropCause {
    /// It has fewer than 17 bytes, or its sender is no endpoint.
    Header,
    /// No message has such a length, count, index and piece.
    Count,
    /// Its message came with another length before.
    Disagrees,
}

fn is_endpoint(number: u8) -> bool
    ensures { result ≡ is_endpoint number }
{
    (1 <= number && number <= 9) || (17 <= number && number <= 25)
}

fn piece_length(total: u32, index: u16) -> usize
    ensures { result ≡ piece_length total index }
{
    let before = 1383 * index as usize;
    (total as usize).saturating_sub(before).min(1383)
}

fn fits(piece: Piece, pieces: u16, size: usize) -> bool
    ensures { result ≡ fits piece pieces size }
{
    if piece.total < 1 || piece.total as usize > MESSAGE_LIMIT {
        return false;
    }
    let count = count(piece.total as usize);
    pieces == count && piece.index < count && size == piece_length(piece.total, piece.index)
}

/// Which piece a datagram has.
pub fn piece_in(datagram: &[u8]) -> Result<Piece, DropCause>
    ensures exact { result ≡ piece_in datagram.now }
    ensures fits { IfOk result (λ piece. FitsIn piece (length (payload datagram.now))) }
    ensures headed { IfOk result (λ piece. 17 ≤ length datagram.now) }
{
    let [
        sender,
        e0,
        e1,
        e2,
        e3,
        s0,
        s1,
        s2,
        s3,
        t0,
        t1,
        t2,
        t3,
        i0,
        i1,
        c0,
        c1,
        payload @ ..,
    ] = datagram
    else {
        return Err(DropCause::Header);
    };
    if !is_endpoint(*sender) {
        return Err(DropCause::Header);
    }
    let head = FragHead {
        sender: *sender,
        epoch: u32::from_le_bytes([*e0, *e1, *e2, *e3]),
        serial: u32::from_le_bytes([*s0, *s1, *s2, *s3]),
    };
    let piece = Piece {
        head,
        total: u32::from_le_bytes([*t0, *t1, *t2, *t3]),
        index: u16::from_le_bytes([*i0, *i1]),
    };
    if fits(piece, u16::from_le_bytes([*c0, *c1]), payload.len()) {
        Ok(piece)
    } else {
        Err(DropCause::Count)
    }
}
