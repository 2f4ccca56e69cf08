//! A link in memory.
use mdcc_base::Address;
use mdcc_link::{Link, MemoryLink, Received};
use std::test::Fail;

const HERE: Address = Address {
    host: [127, 0, 0, 1],
    port: 9001,
};

const THERE: Address = Address {
    host: [10, 0, 0, 7],
    port: 9001,
};

#[derive(Clone, Copy)]
enum Call {
    /// Endpoint.
    Bind(u8),
    /// Endpoint, address, letter, how many.
    Send(u8, Address, u8, usize),
    /// Endpoint, letter, how many.
    Put(u8, u8, usize),
    /// Endpoint, with a buffer of four bytes.
    Receive(u8),
}

#[derive(Clone, Copy, PartialEq, Eq)]
enum Answer {
    Done,
    Fails,
    Got(usize),
}

// Calls with their answers and the buffer after them. The third and the seventh fail by the script; a `put` is not counted.
const CALLS: [(Call, Answer, [u8; 4]); 14] = [
    (Call::Bind(1), Answer::Done, *b"...."),
    (Call::Send(2, HERE, b'a', 3), Answer::Done, *b"...."),
    (Call::Send(2, HERE, b'b', 3), Answer::Fails, *b"...."),
    (Call::Receive(1), Answer::Got(3), *b"aaa."),
    (Call::Receive(1), Answer::Done, *b"aaa."),
    (Call::Put(1, b'c', 6), Answer::Done, *b"aaa."),
    (Call::Bind(5), Answer::Done, *b"aaa."),
    (Call::Receive(1), Answer::Fails, *b"aaa."),
    (Call::Send(7, HERE, b'd', 2), Answer::Done, *b"aaa."),
    (Call::Receive(5), Answer::Done, *b"aaa."),
    (Call::Receive(1), Answer::Got(4), *b"cccc"),
    (Call::Receive(1), Answer::Got(2), *b"ddcc"),
    (Call::Send(1, THERE, b'e', 0), Answer::Done, *b"ddcc"),
    (Call::Receive(1), Answer::Done, *b"ddcc"),
];

fn done(is_ok: bool) -> Answer {
    if is_ok { Answer::Done } else { Answer::Fails }
}

fn make(link: &mut MemoryLink, call: Call, buffer: &mut [u8]) -> Answer {
    match call {
        Call::Bind(at) => done(link.bind(at, HERE).is_ok()),
        Call::Send(from, to, letter, count) => {
            let bytes = [letter; 6];
            done(
                link.send(from, to, bytes.as_slice().split_at(count.min(6)).0)
                    .is_ok(),
            )
        }
        Call::Put(at, letter, count) => {
            let bytes = [letter; 6];
            done(
                link.put(at, bytes.as_slice().split_at(count.min(6)).0)
                    .is_ok(),
            )
        }
        Call::Receive(at) => match link.receive(at, buffer) {
            Ok(Received::Got(count)) => Answer::Got(count),
            Ok(Received::Nothing) => Answer::Done,
            Err(_) => Answer::Fails,
        },
    }
}

// Whether so many letters were sent after so many others.
fn is_sent(
    link: &MemoryLink,
    index: usize,
    from: u8,
    to: Address,
    letter: u8,
    count: usize,
) -> bool {
    match link.sent(index) {
        Some(sent) => {
            sent.0 == from
                && sent.1 == to
                && sent.2.len() == count
                && sent.2.iter().all(|byte| *byte == letter)
        }
        None => false,
    }
}

// The datagrams come once, in order, at the endpoint that bound their address first, and as far as they fit.
#[test]
fn calls_by_a_script(rt: HostRuntime) -> Result<(), Fail> {
    let mut buffer = *b"....";
    let mut link = MemoryLink::new(rt.alloc(), &[3, 7])?;
    for (call, answer, after) in CALLS {
        let found = make(&mut link, call, &mut buffer);
        assert!(rt; found == answer && buffer == after);
    }
    assert!(rt; is_sent(&link, 0, 2, HERE, b'a', 3));
    assert!(rt; is_sent(&link, 1, 7, HERE, b'd', 2));
    assert!(rt; is_sent(&link, 2, 1, THERE, b'e', 0));
    assert!(rt; link.sent(3).is_none());
    Ok(())
}

// A reserved bind, put, send and receive find memory. Asking whether a datagram waits is no call.
#[test]
fn reserved_calls(rt: HostRuntime) -> Result<(), Fail> {
    let mut buffer = [0u8; 8];
    let mut link = MemoryLink::new(rt.alloc(), &[])?;
    assert!(rt; link.reserve(4, 7).is_ok());
    assert!(rt; link.bind(17, HERE).is_ok());
    assert!(rt; !link.waits(17));
    assert!(rt; link.put(17, b"put").is_ok());
    assert!(rt; link.waits(17) && !link.waits(1));
    assert!(rt; link.send(1, HERE, b"sent").is_ok());
    assert!(rt; link.receive(17, &mut buffer).is_ok());
    Ok(())
}
