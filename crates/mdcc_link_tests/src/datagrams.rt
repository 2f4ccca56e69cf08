//! Datagrams, written and read.
use mdcc_frag::{DropCause, FragHead, Piece, count, piece_in, split};
use std::test::Fail;

// Lengths of messages, and how many datagrams these have. 1,516 whole pieces are 2,096,628 bytes, 524 fewer than a message may
// have.
const COUNTS: [(usize, u16); 8] = [
    (0, 0),
    (1, 1),
    (1383, 1),
    (1384, 2),
    (2766, 2),
    (2767, 3),
    (2_096_628, 1516),
    (2_097_152, 1517),
];

// The message `x` of endpoint 2, epoch 1, serial 3, and the header alone with another sender, total, index and count.
const SINGLE: [u8; 18] = [2, 1, 0, 0, 0, 3, 0, 0, 0, 1, 0, 0, 0, 0, 0, 1, 0, 120];

// The header of the second of two pieces of 1,384 bytes, of endpoint 25, epoch 67,305,985, serial 134,678,021.
const SECOND: [u8; 17] = [25, 1, 2, 3, 4, 5, 6, 7, 8, 104, 5, 0, 0, 1, 0, 2, 0];

const HEAD: FragHead = FragHead {
    sender: 2,
    epoch: 1,
    serial: 3,
};

const FAR: FragHead = FragHead {
    sender: 25,
    epoch: 67_305_985,
    serial: 134_678_021,
};

// Headers with so many bytes of a piece, and what is read of them.
const REFUSED: [([u8; 17], usize, DropCause); 12] = [
    // sender 0, 10, 16, 26
    (
        [0, 1, 0, 0, 0, 3, 0, 0, 0, 1, 0, 0, 0, 0, 0, 1, 0],
        1,
        DropCause::Header,
    ),
    (
        [10, 1, 0, 0, 0, 3, 0, 0, 0, 1, 0, 0, 0, 0, 0, 1, 0],
        1,
        DropCause::Header,
    ),
    (
        [16, 1, 0, 0, 0, 3, 0, 0, 0, 1, 0, 0, 0, 0, 0, 1, 0],
        1,
        DropCause::Header,
    ),
    (
        [26, 1, 0, 0, 0, 3, 0, 0, 0, 1, 0, 0, 0, 0, 0, 1, 0],
        1,
        DropCause::Header,
    ),
    // total 0 with count 1
    (
        [1, 1, 0, 0, 0, 3, 0, 0, 0, 0, 0, 0, 0, 0, 0, 1, 0],
        0,
        DropCause::Count,
    ),
    // total 2,097,153, which would have 1,517 pieces
    (
        [1, 1, 0, 0, 0, 3, 0, 0, 0, 1, 0, 32, 0, 0, 0, 237, 5],
        1383,
        DropCause::Count,
    ),
    // total 1 with count 2, and with count 0
    (
        [1, 1, 0, 0, 0, 3, 0, 0, 0, 1, 0, 0, 0, 0, 0, 2, 0],
        1,
        DropCause::Count,
    ),
    (
        [1, 1, 0, 0, 0, 3, 0, 0, 0, 1, 0, 0, 0, 0, 0, 0, 0],
        1,
        DropCause::Count,
    ),
    // index 1 of one piece
    (
        [1, 1, 0, 0, 0, 3, 0, 0, 0, 1, 0, 0, 0, 1, 0, 1, 0],
        1,
        DropCause::Count,
    ),
    // a piece that is too short, and one that is too long
    (
        [1, 1, 0, 0, 0, 3, 0, 0, 0, 1, 0, 0, 0, 0, 0, 1, 0],
        0,
        DropCause::Count,
    ),
    (
        [1, 1, 0, 0, 0, 3, 0, 0, 0, 1, 0, 0, 0, 0, 0, 1, 0],
        2,
        DropCause::Count,
    ),
    // the first of two pieces, one byte short
    (
        [1, 1, 0, 0, 0, 3, 0, 0, 0, 104, 5, 0, 0, 0, 0, 2, 0],
        1382,
        DropCause::Count,
    ),
];

// Whether the header with so many bytes behind it is refused so.
fn is_refused(header: &[u8; 17], size: usize, cause: DropCause) -> bool {
    let mut datagram = [0u8; 1401];
    datagram[..17].copy_from_slice(header);
    if size > 1384 {
        return false;
    }
    piece_in(&datagram[..17 + size]) == Err(cause)
}

#[test]
fn counts(rt: HostRuntime) -> Result<(), Fail> {
    for (length, pieces) in COUNTS {
        if length <= 2_097_152 {
            assert_eq!(rt; count(length), pieces);
        }
    }
    Ok(())
}

#[test]
fn a_message_of_one_byte_has_one_datagram(rt: HostRuntime) -> Result<(), Fail> {
    let mut out = [7u8; 1400];
    let size = split(b"x", HEAD, 0, &mut out);
    assert_eq!(rt; size, 18);
    assert_eq!(rt; &out[..18], SINGLE.as_slice());
    assert_eq!(rt; out[18], 7);
    let piece = Piece {
        head: HEAD,
        total: 1,
        index: 0,
    };
    assert_eq!(rt; piece_in(SINGLE.as_slice()), Ok(piece));
    Ok(())
}

#[test]
fn the_last_piece_has_the_rest(rt: HostRuntime) -> Result<(), Fail> {
    let mut message = [9u8; 1384];
    message[1383] = 8;
    let mut out = [7u8; 1400];
    let size = split(&message, FAR, 1, &mut out);
    assert_eq!(rt; size, 18);
    assert_eq!(rt; &out[..17], SECOND.as_slice());
    assert_eq!(rt; out[17], 8);
    assert_eq!(rt; out[18], 7);
    let piece = Piece {
        head: FAR,
        total: 1384,
        index: 1,
    };
    assert_eq!(rt; piece_in(&out[..18]), Ok(piece));
    let whole = split(&message, FAR, 0, &mut out);
    assert_eq!(rt; whole, 1400);
    assert_eq!(rt; out[1399], 9);
    Ok(())
}

#[test]
fn what_is_no_datagram_is_dropped(rt: HostRuntime) -> Result<(), Fail> {
    assert_eq!(rt; piece_in([0u8; 16].as_slice()), Err(DropCause::Header));
    assert_eq!(rt; piece_in(&SINGLE[..16]), Err(DropCause::Header));
    for (header, size, cause) in REFUSED {
        assert!(rt; is_refused(&header, size, cause));
    }
    Ok(())
}
