//! Messages and datagrams byte by byte, as the formats have them.
use mdcc_base::Memory;
use mdcc_link::MemoryLink;
use std::alloc::Global;

/// A datagram with the whole of a short message, which is the only one of its sender with this epoch and serial.
pub(crate) fn datagram(
    alloc: Global,
    sender: u8,
    epoch: u8,
    serial: u8,
    message: &[u8],
) -> Result<Vec<u8>, Memory> {
    let mut bytes = Vec::new(alloc);
    let length = u16::try_from(message.len()).unwrap_or(u16::MAX);
    let [low, high] = length.to_le_bytes();
    bytes.extend_from_slice(&[sender, epoch, 0, 0, 0, serial, 0, 0, 0])?;
    bytes.extend_from_slice(&[low, high, 0, 0, 0, 0, 1, 0])?;
    bytes.extend_from_slice(message)?;
    Ok(bytes)
}

/// A message with this beginning.
pub(crate) fn message(alloc: Global, head: &[u8], body: &[u8]) -> Result<Vec<u8>, Memory> {
    let mut bytes = Vec::new(alloc);
    bytes.extend_from_slice(head)?;
    bytes.extend_from_slice(body)?;
    Ok(bytes)
}

/// A request of the client of centre 1 to read, and one to begin, up to what is asked for. Its serial is 7.
pub(crate) const READS: [u8; 8] = [1, 13, 17, 1, 7, 0, 0, 0];

pub(crate) const BEGINS: [u8; 8] = [1, 14, 17, 1, 7, 0, 0, 0];

/// An answer to it, up to what is answered.
pub(crate) const ANSWERS: [u8; 8] = [1, 15, 1, 17, 7, 0, 0, 0];

/// The one part of a transaction that inserts `a` with value 10.
pub(crate) const INSERT: [u8; 23] = [
    1, 1, 97, 0, 0, 0, 0, 0, 0, 0, 0, 1, 0, 1, 10, 0, 0, 0, 0, 0, 0, 0, 0,
];

/// That nothing is held of `a`; that 1.1.1 was begun; that it was heard committed, and aborted.
pub(crate) const NOTHING_HELD: [u8; 14] = [1, 1, 97, 0, 0, 0, 0, 0, 0, 0, 0, 0, 0, 0];

pub(crate) const BEGUN: [u8; 10] = [2, 1, 1, 0, 0, 0, 1, 0, 0, 0];

pub(crate) const COMMITTED: [u8; 11] = [4, 1, 1, 0, 0, 0, 1, 0, 0, 0, 1];

pub(crate) const ABORTED: [u8; 11] = [4, 1, 1, 0, 0, 0, 1, 0, 0, 0, 0];

/// The choice that inserts `a` with value 10, as transaction 1.1.1.
pub(crate) const CHOICE: [u8; 42] = [
    1, 1, 0, 0, 0, 1, 0, 0, 0, 1, 97, 0, 0, 0, 0, 0, 0, 0, 0, 1, 0, 1, 10, 0, 0, 0, 0, 0, 0, 0, 0,
    1, 1, 97, 0, 0, 0, 0, 0, 0, 0, 0,
];

/// Centre 1 proposes it to itself, and votes for it at the fast ballot, up to the choice.
pub(crate) const PROPOSES: [u8; 4] = [1, 1, 1, 1];

pub(crate) const VOTES: [u8; 24] = [
    1, 2, 1, 1, 1, 97, 0, 0, 0, 0, 0, 0, 0, 0, 0, 0, 0, 0, 0, 0, 0, 0, 0, 1,
];

/// Centre 2 asks centre 3 for 1.1.1 at key `b`, version 0.
pub(crate) const ASKS: [u8; 23] = [
    1, 10, 2, 3, 1, 1, 0, 0, 0, 1, 0, 0, 0, 1, 98, 0, 0, 0, 0, 0, 0, 0, 0,
];

/// The datagram of a begin of the client of centre 1 that inserts `a` with value 10.
pub(crate) fn begin(alloc: Global) -> Result<Vec<u8>, Memory> {
    let request = message(alloc, &BEGINS, &INSERT)?;
    datagram(alloc, 17, 7, 1, &request)
}

/// The datagram of an answer of centre 1 to its client, which is its message of this serial.
pub(crate) fn answer(alloc: Global, serial: u8, body: &[u8]) -> Result<Vec<u8>, Memory> {
    let answer = message(alloc, &ANSWERS, body)?;
    datagram(alloc, 1, 1, serial, &answer)
}

/// Whether the datagram that was sent after so many others has these bytes, and went to this port of 127.0.0.1.
pub(crate) fn was_sent(link: &MemoryLink, index: usize, port: u16, bytes: &[u8]) -> bool {
    match link.sent(index) {
        Some((_from, to, sent)) => { to.host == [127, 0, 0, 1] && to.port == port && sent == bytes }
        None => false,
    }
}
