//! Messages written to bytes.
ghost use Rattle.std.specs.Prelude.{◌≡◌, ◌≤◌, ◌+◌, ◌++◌, length, vec_len, vec_capacity, true, false, IsTrue, IsOk, Err, OnOk, OnErr};
ghost use Rattle.mdcc_base.specs.Counts.{sum_over};
ghost use Rattle.mdcc_base.specs.Unless.{GivesUnless};
ghost use Rattle.mdcc_def_messages.specs.Bytes.{u64_bytes, counted_bytes};
ghost use Rattle.mdcc_def_messages.specs.SpelledParts.{key_bytes, part_bytes};
ghost use Rattle.mdcc_def_messages.specs.Spelling.{kind_of, body_bytes, message_bytes};
ghost use Rattle.mdcc_def_messages.specs.Lengths.{key_length, part_length, body_length, message_length};
ghost use Rattle.mdcc_wire.specs.Counts.{HasMessageCounts};
ghost use Rattle.mdcc_wire.specs.Encoding.{is_too_long, is_no_memory, encoded, is_of_option, is_of_ballot, is_of_structure, is_of_state, is_of_floor};

use crate::answer_bytes::put_answer;
use crate::body_lengths::{format_of, kind_of, message_length};
use mdcc_base::{Key, Memory};
use mdcc_def_messages::{Envelope, Message};
use mdcc_option::Part;
use mdcc_parts_append::appending::{
    put_ballot, put_choice, put_key, put_part, put_tx, put_u8, put_u32, put_u64,
};
use mdcc_parts_append::marks::{put_cause, put_entry, put_given, put_heard, put_options};

/// Why a message is not written. Nothing of it is.
#[derive(Clone, Copy, Debug, PartialEq, Eq)]
pub enum EncodeFault {
    /// It has more than 2,097,152 bytes.
    TooLong,
    /// There was no memory.
    Memory,
}

impl From<Memory> for EncodeFault {
    ghost use Rattle.std.specs.Prelude.{◌≡◌};
    ghost use Rattle.mdcc_wire.specs.declared.encoding.EncodeFault.TheVariants as faults;

    ghost from_gives = { λ _ e. e ≡ faults.Memory };

    fn from(_: Memory) -> EncodeFault {
        EncodeFault::Memory
    }
}

// Appends a key and a version.
fn put_instance(key: &Key, version: u64, out: &mut Vec<u8>)
    requires { vec_len out.old + (key_length key.now + 8) ≤ vec_capacity out.old }
    ensures bytes { out.new.items ≡ out.old.items ++ (key_bytes key.now ++ u64_bytes version) }
    ensures len { vec_len out.new ≡ vec_len out.old + (key_length key.now + 8) }
    ensures capacity { vec_capacity out.old ≤ vec_capacity out.new }
{
    put_key(key, out);
    put_u64(version, out);
}

// Appends how many parts there are, and each.
fn put_parts(parts: &[Part], out: &mut Vec<u8>)
    requires few { length parts.now ≤ 8 }
    requires room { vec_len out.old + 1 + sum_over part_length parts.now ≤ vec_capacity out.old }
    ensures bytes { out.new.items ≡ out.old.items ++ counted_bytes part_bytes parts.now }
    ensures len { vec_len out.new ≡ vec_len out.old + 1 + sum_over part_length parts.now }
    ensures capacity { vec_capacity out.old ≤ vec_capacity out.new }
{
    put_u8(parts.len() as u8, out);
    for part in parts {
        put_part(part, out);
    }
}

// Appends the body of a message about one transaction: of kind 1 to 4, 9 or 10.
fn put_option_body(message: &Message, out: &mut Vec<u8>)
    requires kind { is_of_option (kind_of message.now) ≡ true }
    requires room { vec_len out.old + body_length message.now ≤ vec_capacity out.old }
    ensures bytes { out.new.items ≡ out.old.items ++ body_bytes message.now }
    ensures capacity { vec_capacity out.old ≤ vec_capacity out.new }
{
    match message {
        Message::Propose(choice) => put_choice(choice, out),
        Message::Voted {
            key,
            version,
            ballot,
            tx,
            mark,
        } => {
            put_instance(key, *version, out);
            put_ballot(ballot, out);
            put_entry(tx, mark, out);
        }
        Message::Escalate {
            key,
            version,
            tx,
            cause,
        } => {
            put_instance(key, *version, out);
            put_tx(tx, out);
            put_cause(cause, out);
        }
        Message::Lead(choice) => put_choice(choice, out),
        Message::Outcome { tx, outcome } => put_heard(tx, outcome, out),
        Message::Ask { tx, key, version } => {
            put_tx(tx, out);
            put_instance(key, *version, out);
        }
        _ => {}
    }
}

// Appends the body of a message about a ballot of a leader, with versions or another ballot: of kind 5 or 8.
fn put_ballot_body(message: &Message, out: &mut Vec<u8>)
    requires kind { is_of_ballot (kind_of message.now) ≡ true }
    requires room { vec_len out.old + body_length message.now ≤ vec_capacity out.old }
    ensures bytes { out.new.items ≡ out.old.items ++ body_bytes message.now }
    ensures capacity { vec_capacity out.old ≤ vec_capacity out.new }
{
    match message {
        Message::Prepare {
            key,
            version,
            through,
            ballot,
        } => {
            put_instance(key, *version, out);
            put_u64(*through, out);
            put_ballot(ballot, out);
        }
        Message::Refused {
            key,
            version,
            ballot,
            promised,
        } => {
            put_instance(key, *version, out);
            put_ballot(ballot, out);
            put_ballot(promised, out);
        }
        _ => {}
    }
}

// Appends the body of a message with a structure: of kind 6 or 7.
fn put_structure_body(message: &Message, out: &mut Vec<u8>)
    requires kind { is_of_structure (kind_of message.now) ≡ true }
    requires counts { HasMessageCounts message.now }
    requires room { vec_len out.old + body_length message.now ≤ vec_capacity out.old }
    ensures bytes { out.new.items ≡ out.old.items ++ body_bytes message.now }
    ensures capacity { vec_capacity out.old ≤ vec_capacity out.new }
{
    match message {
        Message::Promise {
            key,
            version,
            through,
            ballot,
            reported,
            votes,
        } => {
            put_instance(key, *version, out);
            put_u64(*through, out);
            put_ballot(ballot, out);
            put_ballot(reported, out);
            put_options(votes, out);
        }
        Message::Accept {
            key,
            version,
            ballot,
            options,
        } => {
            put_instance(key, *version, out);
            put_ballot(ballot, out);
            put_options(options, out);
        }
        _ => {}
    }
}

// Appends the body of a message that brings a centre or a client up to date: of kind 11 to 15.
fn put_state_body(message: &Message, out: &mut Vec<u8>)
    requires kind { is_of_state (kind_of message.now) ≡ true }
    requires counts { HasMessageCounts message.now }
    requires room { vec_len out.old + body_length message.now ≤ vec_capacity out.old }
    ensures bytes { out.new.items ≡ out.old.items ++ body_bytes message.now }
    ensures capacity { vec_capacity out.old ≤ vec_capacity out.new }
{
    match message {
        Message::SyncAsk(key) => put_key(key, out),
        Message::SyncGive {
            key,
            version,
            item,
            adds,
        } => put_given(key, *version, item, adds.as_slice(), out),
        Message::ClientRead { serial, key } => {
            put_u32(*serial, out);
            put_key(key, out);
        }
        Message::ClientBegin { serial, parts } => {
            put_u32(*serial, out);
            put_parts(parts.as_slice(), out);
        }
        Message::ClientAnswer { serial, answer } => {
            put_u32(*serial, out);
            put_answer(answer, out);
        }
        _ => {}
    }
}

// Appends the body of a message about what was heard of a centre's transactions: of kind 16 or 17.
fn put_floor_body(message: &Message, out: &mut Vec<u8>)
    requires kind { is_of_floor (kind_of message.now) ≡ true }
    requires room { vec_len out.old + body_length message.now ≤ vec_capacity out.old }
    ensures bytes { out.new.items ≡ out.old.items ++ body_bytes message.now }
    ensures capacity { vec_capacity out.old ≤ vec_capacity out.new }
{
    match message {
        Message::Mark { centre, epoch, seq } => {
            put_u8(centre.number(), out);
            put_u32(*epoch, out);
            put_u32(*seq, out);
        }
        Message::Finished(tx) => put_tx(tx, out),
        _ => {}
    }
}

// Appends the body of a message of this kind.
fn put_body(kind: u8, message: &Message, out: &mut Vec<u8>)
    requires kind { kind ≡ kind_of message.now }
    requires counts { HasMessageCounts message.now }
    requires room { vec_len out.old + body_length message.now ≤ vec_capacity out.old }
    ensures bytes { out.new.items ≡ out.old.items ++ body_bytes message.now }
{
    match kind {
        5 | 8 => put_ballot_body(message, out),
        6 | 7 => put_structure_body(message, out),
        11 | 12 | 13 | 14 | 15 => put_state_body(message, out),
        16 | 17 => put_floor_body(message, out),
        _ => put_option_body(message, out),
    }
}

/// Writes a message behind the bytes that are there, however long it is.
pub fn write_message(envelope: &Envelope, out: &mut Vec<u8>) -> Result<(), Memory>
    requires { HasMessageCounts envelope.now.message }
    ensures ok { OnOk result (out.new.items ≡ out.old.items ++ message_bytes envelope.now) }
    ensures err { OnErr result (out.new.items ≡ out.old.items) }
    ensures succeeds { vec_len out.old + message_length envelope.now ≤ vec_capacity out.old → IsOk result }
{
    out.try_reserve(message_length(envelope))?;
    let kind = kind_of(&envelope.message);
    put_u8(format_of(&envelope.message), out);
    put_u8(kind, out);
    put_u8(envelope.from, out);
    put_u8(envelope.to, out);
    put_body(kind, &envelope.message, out);
    Ok(())
}

/// Writes a message behind the bytes that are there.
pub fn encode(envelope: &Envelope, out: &mut Vec<u8>) -> Result<(), EncodeFault>
    requires { HasMessageCounts envelope.now.message }
    ensures exact { GivesUnless is_no_memory result (encoded envelope.now) }
    // A message that is too long is told before any memory is asked for.
    ensures too_long { IsTrue (is_too_long envelope.now) → result ≡ Err EncodeFault.TooLong }
    ensures ok { OnOk result (out.new.items ≡ out.old.items ++ message_bytes envelope.now) }
    ensures err { OnErr result (out.new.items ≡ out.old.items) }
    ensures succeeds { is_too_long envelope.now ≡ false
        → vec_len out.old + message_length envelope.now ≤ vec_capacity out.old → IsOk result }
{
    let length = message_length(envelope);
    if length > 2_097_152 {
        return Err(EncodeFault::TooLong);
    }
    write_message(envelope, out)?;
    Ok(())
}
