//! Kinds of messages, and how many bytes messages have.
ghost use Rattle.std.specs.Prelude.{◌≡◌, ◌≤◌, ◌+◌, ◌^◌, length};
ghost use Rattle.mdcc_base.specs.Counts.{sum_over};
ghost use Rattle.mdcc_def_messages.specs.Spelling.{kind_of, format_of};
ghost use Rattle.mdcc_def_messages.specs.Lengths.{part_length, body_length, message_length};
ghost use Rattle.mdcc_wire.specs.Counts.{HasMessageCounts};

use crate::answer_bytes::answer_length;
use mdcc_def_messages::{Envelope, Message};
use mdcc_option::Part;
use mdcc_parts_append::lengths::{
    cause_length, choice_length, entry_length, given_length, heard_length, key_length,
    options_length, part_length,
};

/// The number of a message's kind, from 1 to 17.
pub fn kind_of(message: &Message) -> u8
    ensures { result ≡ kind_of message.now }
{
    match message {
        Message::Propose(_) => 1,
        Message::Voted { .. } => 2,
        Message::Escalate { .. } => 3,
        Message::Lead(_) => 4,
        Message::Prepare { .. } => 5,
        Message::Promise { .. } => 6,
        Message::Accept { .. } => 7,
        Message::Refused { .. } => 8,
        Message::Outcome { .. } => 9,
        Message::Ask { .. } => 10,
        Message::SyncAsk(_) => 11,
        Message::SyncGive { .. } => 12,
        Message::ClientRead { .. } => 13,
        Message::ClientBegin { .. } => 14,
        Message::ClientAnswer { .. } => 15,
        Message::Mark { .. } => 16,
        Message::Finished(_) => 17,
    }
}

/// The number of the format that has the message's kind.
pub fn format_of(message: &Message) -> u8
    ensures { result ≡ format_of message.now }
{
    match message {
        Message::Mark { .. } => 2,
        Message::Finished(_) => 2,
        _ => 1,
    }
}

// How many bytes parts have.
fn parts_length(parts: &[Part]) -> usize
    requires { length parts.now ≤ 8 }
    ensures value { result ≡ sum_over part_length parts.now }
    ensures bound { result ≤ 6248 }
{
    let mut total = 0;
    for part in parts {
        total += part_length(part);
    }
    total
}

// How many bytes the body of a message has.
fn body_length(message: &Message) -> usize
    requires { HasMessageCounts message.now }
    ensures value { result ≡ body_length message.now }
    ensures bound { result ≤ 2 ^ 44 }
{
    match message {
        Message::Propose(choice) => choice_length(choice),
        Message::Voted { key, mark, .. } => key_length(key) + 17 + entry_length(mark),
        Message::Escalate { key, cause, .. } => key_length(key) + 17 + cause_length(cause),
        Message::Lead(choice) => choice_length(choice),
        Message::Prepare { key, .. } => key_length(key) + 25,
        Message::Promise { key, votes, .. } => key_length(key) + 34 + options_length(votes),
        Message::Accept { key, options, .. } => key_length(key) + 17 + options_length(options),
        Message::Refused { key, .. } => key_length(key) + 26,
        Message::Outcome { outcome, .. } => heard_length(outcome),
        Message::Ask { key, .. } => key_length(key) + 17,
        Message::SyncAsk(key) => key_length(key),
        Message::SyncGive {
            key,
            item,
            adds,
            ..
        } => given_length(key, item, adds.as_slice()),
        Message::ClientRead { key, .. } => 4 + key_length(key),
        Message::ClientBegin { parts, .. } => 5 + parts_length(parts.as_slice()),
        Message::ClientAnswer { answer, .. } => 4 + answer_length(answer),
        Message::Mark { .. } => 9,
        Message::Finished(_) => 9,
    }
}

/// How many bytes a message has.
pub fn message_length(envelope: &Envelope) -> usize
    requires { HasMessageCounts envelope.now.message }
    ensures { result ≡ message_length envelope.now }
{
    4 + body_length(&envelope.message)
}
