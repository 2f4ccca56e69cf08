//! What a reading of bytes gives.
use crate::digits::bytes_of;
use mdcc_journal::decode_fact;
use mdcc_wire::{WireFault, empty_envelope, read_envelope, view};
use std::alloc::{AllocError, Global};

/// What bytes are read as.
#[derive(Clone, Copy)]
pub enum Kind {
    Message,
    Fact,
}

/// The kind that a line names, and the digits after it.
pub fn case_in(line: &[u8]) -> Option<(Kind, &[u8])> {
    let at = line.iter().position(|byte| *byte == b':')?;
    match &line[..at] {
        b"message" => Some((Kind::Message, &line[at..])),
        b"fact" => Some((Kind::Fact, &line[at..])),
        _ => None,
    }
}

// The fault of bytes.
fn fault_of(alloc: Global, kind: Kind, bytes: &[u8]) -> Option<WireFault> {
    match kind {
        Kind::Message => read_envelope(alloc, bytes, &mut empty_envelope()).err(),
        Kind::Fact => decode_fact(alloc, bytes).err(),
    }
}

// How many prefixes are refused where they end, since more is missing.
fn cut_prefixes(alloc: Global, kind: Kind, bytes: &[u8]) -> usize {
    (0..bytes.len())
        .filter(|len| {
            fault_of(alloc, kind, &bytes[..*len]) == Some(WireFault::Truncated(*len as u64))
        })
        .count()
}

// Whether a view of bytes is refused just as a reading of them.
fn is_viewed_so(kind: Kind, bytes: &[u8], fault: Option<WireFault>) -> bool {
    match kind {
        Kind::Message => view(bytes).err() == fault,
        Kind::Fact => true,
    }
}

/// What the bytes of these digits are read as.
pub fn answer(alloc: Global, kind: Kind, digits: &[u8]) -> Result<String, AllocError> {
    let bytes = bytes_of(alloc, digits)?;
    let fault = fault_of(alloc, kind, &bytes);
    if !is_viewed_so(kind, &bytes, fault) {
        return format!(in alloc; "viewed otherwise");
    }
    match fault {
        Some(fault) => format!(in alloc; "{fault:?}"),
        None => format!(in alloc;
            "read, and {} of its prefixes are Truncated where they end",
            cut_prefixes(alloc, kind, &bytes)
        ),
    }
}
