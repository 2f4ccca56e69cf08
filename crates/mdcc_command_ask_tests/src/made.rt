//! Objects and runs for tests.
use mdcc_base::{Centre, Key, Memory, MemorySink, MemorySource, TxId};
use mdcc_command_ask::run_ask;
use mdcc_command_words::{Command, command_of};
use mdcc_def_messages::{ClientAnswer, Envelope, Message};
use mdcc_frag::{FragHead, split};
use mdcc_link::MemoryLink;
use mdcc_wire::encode;
use std::alloc::Global;

/// One centre.
pub(crate) const ONE: &str =
    "{\"centres\":1,\"classic\":1,\"fast\":1,\"gamma\":100,\"bounds\":[[0,1000]],\"hosts\":[\"127.0.0.1\"],\"port\":9000,\"cells\":100}";

/// What a run wrote and answered.
#[derive(Drop)]
pub(crate) struct Ran {
    pub status: u8,
    pub out: MemorySink,
    pub err: MemorySink,
}

impl Ran {
    /// Whether it wrote and answered this.
    pub(crate) fn is(&self, out: &str, err: &str, status: u8) -> bool {
        self.status == status
            && self.out.bytes() == out.as_bytes()
            && self.err.bytes() == err.as_bytes()
    }
}

/// The words, each in memory of its own.
pub(crate) fn words_of(alloc: Global, words: &[&str]) -> Result<Vec<String>, Memory> {
    let mut all = Vec::new(alloc);
    for word in words {
        all.push(String::from_str(alloc, word)?)?;
    }
    Ok(all)
}

/// The transaction 1.1.1.
pub(crate) fn first_tx() -> Option<TxId> {
    Some(TxId {
        centre: Centre::new(1)?,
        epoch: 1,
        seq: 1,
    })
}

/// The key `a`.
pub(crate) fn key_a() -> Option<Key> {
    Key::new(b"a")
}

/// Lets an answer of centre 1 wait at the endpoint of its client, as the message of a serial.
pub(crate) fn put(
    alloc: Global,
    link: &mut MemoryLink,
    message_serial: u32,
    serial: u32,
    answer: ClientAnswer,
) -> bool {
    let envelope = Envelope {
        from: 1,
        to: 17,
        message: Message::ClientAnswer { serial, answer },
    };
    let mut bytes = Vec::new(alloc);
    if encode(&envelope, &mut bytes).is_err() || bytes.len() > 1383 || bytes.is_empty() {
        return false;
    }
    let head = FragHead {
        sender: 1,
        epoch: 1,
        serial: message_serial,
    };
    let mut datagram = [0u8; 1400];
    let size = split(&bytes, head, 0, &mut datagram);
    link.put(17, &datagram[..size]).is_ok()
}

/// Asks with these words over this link.
pub(crate) fn run_over(alloc: Global, words: &[&str], link: &mut MemoryLink) -> Option<Ran> {
    run_failing(alloc, words, &[], link)
}

/// Asks so where the writes of these numbers, from 1, fail.
pub(crate) fn run_failing(
    alloc: Global,
    words: &[&str],
    writes: &[u32],
    link: &mut MemoryLink,
) -> Option<Ran> {
    let words = words_of(alloc, words).ok()?;
    let mut source = MemorySource::new(alloc, ONE.as_bytes(), &[]).ok()?;
    let mut out = MemorySink::new(alloc, writes).ok()?;
    let mut err = MemorySink::new(alloc, &[]).ok()?;
    let Ok(Some(Command::Ask(question))) = command_of(alloc, &words) else {
        return None;
    };
    let status = run_ask(alloc, question, &mut source, &mut out, &mut err, link);
    Some(Ran { status, out, err })
}

/// How many datagrams were sent, of the first hundred.
pub(crate) fn sent(link: &MemoryLink) -> usize {
    for place in 0..100usize {
        if link.sent(place).is_none() {
            return place;
        }
    }
    100
}
