//! The datagrams of a message.
ghost use Rattle.std.specs.Prelude.{◌≡◌, ◌≤◌, ◌<◌, ◌+◌, ◌++◌, length, take, drop};
ghost use Rattle.mdcc_frag.specs.Datagrams.{message_limit, count, piece_of, header, datagram};

/// The most bytes of a message.
pub const MESSAGE_LIMIT: usize = 2_097_152;

const PIECE: usize = 1383;

/// Whose message it is: the endpoint that sends it, the epoch of that node or the serial of that client, and which of its
/// messages. An endpoint is the number of a centre, or 16 more for its client.
#[derive(Clone, Copy, Debug, PartialEq, Eq, Hash)]
pub struct FragHead {
    pub sender: u8,
    pub epoch: u32,
    pub serial: u32,
}

/// How many datagrams a message of this length has.
pub fn count(length: usize) -> u16
    requires { length ≤ message_limit }
    ensures { result ≡ count length }
{
    length.div_ceil(PIECE) as u16
}

// The first bytes, at most so many.
fn first_bytes(most: usize, bytes: &[u8]) -> &[u8]
    ensures first { result.now ≡ take most bytes.now }
    ensures most { length result.now ≤ most }
{
    let size = most.min(bytes.len());
    &bytes[..size]
}

// The piece of this index.
fn piece_of(message: &[u8], index: u16) -> &[u8]
    requires { index < count (length message.now) }
    ensures piece { result.now ≡ piece_of index message.now }
    ensures short { length result.now ≤ 1383 }
{
    let offset = PIECE * index as usize;
    first_bytes(PIECE, &message[offset..])
}

// What stands before a piece.
fn header(head: FragHead, total: u32, index: u16) -> [u8; 17]
    requires { total ≤ message_limit }
    ensures { result ≡ header head total index }
{
    let [e0, e1, e2, e3] = head.epoch.to_le_bytes();
    let [s0, s1, s2, s3] = head.serial.to_le_bytes();
    let [t0, t1, t2, t3] = total.to_le_bytes();
    let [i0, i1] = index.to_le_bytes();
    let [c0, c1] = count(total as usize).to_le_bytes();
    [
        head.sender,
        e0,
        e1,
        e2,
        e3,
        s0,
        s1,
        s2,
        s3,
        t0,
        t1,
        t2,
        t3,
        i0,
        i1,
        c0,
        c1,
    ]
}

// Writes both to the front.
fn lay_out(header: &[u8], piece: &[u8], out: &mut [u8])
    requires header { length header.now ≡ 17 }
    requires within { 17 + length piece.now ≤ length out.old }
    ensures { out.new ≡ header.now ++ piece.now ++ drop (length (header.now ++ piece.now)) out.old }
{
    let (front, rest) = out.split_at_mut(17);
    front.copy_from_slice(header);
    let (body, _) = rest.split_at_mut(piece.len());
    body.copy_from_slice(piece);
}

/// Writes the datagram of this index to the front of the buffer, and answers its length.
pub fn split(message: &[u8], head: FragHead, index: u16, out: &mut [u8; 1400]) -> usize
    requires short { length message.now ≤ message_limit }
    requires within { index < count (length message.now) }
    ensures written { out.new ≡ datagram head index message.now ++ drop (length (datagram head index message.now)) out.old }
    ensures len { result ≡ length (datagram head index message.now) }
    ensures fits { result ≤ 1400 }
{
    let piece = piece_of(message, index);
    let header = header(head, message.len() as u32, index);
    lay_out(&header, piece, out);
    17 + piece.len()
}
