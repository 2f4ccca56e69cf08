//! What a client is answered, appended to bytes where the capacity is there.
ghost use Rattle.std.specs.Prelude.{◌≡◌, ◌≤◌, ◌+◌, ◌++◌, vec_len, vec_capacity};
ghost use Rattle.mdcc_def_messages.specs.SpelledParts.{tx_bytes};
ghost use Rattle.mdcc_def_messages.specs.SpelledAnswers.{flag_bytes, shown_item_bytes, begin_fault_bytes, draft_fault_number, answer_bytes};
ghost use Rattle.mdcc_def_messages.specs.Lengths.{shown_item_length, begin_fault_length, answer_length};

use mdcc_base::TxId;
use mdcc_def_messages::ClientAnswer;
use mdcc_option::{BeginFault, DraftFault, Item};
use mdcc_parts_append::appending::{put_item, put_key, put_seen, put_tx, put_u8, put_u64};
use mdcc_parts_append::lengths::{item_length, key_length, seen_length};

// How many bytes an item has that may be there.
fn shown_item_length(item: &Option<Item>) -> usize
    ensures value { result ≡ shown_item_length item.now }
    ensures bound { result ≤ 163 }
{
    match item {
        None => 1,
        Some(item) => 1 + item_length(item),
    }
}

// How many bytes a begin fault has.
fn begin_fault_length(fault: &BeginFault) -> usize
    ensures value { result ≡ begin_fault_length fault.now }
    ensures bound { result ≤ 586 }
{
    match fault {
        BeginFault::Stale(token) => 9 + seen_length(token.seen.as_slice()),
        BeginFault::Unseen(_) => 9,
        BeginFault::NoItem => 1,
        BeginFault::Sequence => 1,
        BeginFault::Busy => 1,
        BeginFault::Memory => 0,
    }
}

/// How many bytes an answer has.
pub fn answer_length(answer: &ClientAnswer) -> usize
    ensures value { result ≡ answer_length answer.now }
    ensures bound { result ≤ 783 }
{
    match answer {
        ClientAnswer::Read {
            key,
            token,
            item,
            ..
        } => {
            let seen = seen_length(token.seen.as_slice());
            10 + key_length(key) + shown_item_length(item) + seen
        }
        ClientAnswer::Begun(_) => 10,
        ClientAnswer::Refused(key, fault) => 1 + key_length(key) + begin_fault_length(fault),
        ClientAnswer::Heard(_, _) => 11,
        ClientAnswer::Draft(_) => 2,
    }
}

// Appends a byte 0 or 1.
fn put_flag(flag: bool, out: &mut Vec<u8>)
    requires { vec_len out.old + 1 ≤ vec_capacity out.old }
    ensures bytes { out.new.items ≡ out.old.items ++ flag_bytes flag }
    ensures len { vec_len out.new ≡ vec_len out.old + 1 }
    ensures capacity { vec_capacity out.old ≤ vec_capacity out.new }
{
    put_u8(if flag { 1 } else { 0 }, out);
}

// Appends an item that may be there.
fn put_shown_item(item: &Option<Item>, out: &mut Vec<u8>)
    requires { vec_len out.old + shown_item_length item.now ≤ vec_capacity out.old }
    ensures bytes { out.new.items ≡ out.old.items ++ shown_item_bytes item.now }
    ensures len { vec_len out.new ≡ vec_len out.old + shown_item_length item.now }
    ensures capacity { vec_capacity out.old ≤ vec_capacity out.new }
{
    match item {
        None => put_u8(0, out),
        Some(item) => {
            put_u8(1, out);
            put_item(item, out);
        }
    }
}

// Appends a begin fault. Want of memory has no bytes.
fn put_begin_fault(fault: &BeginFault, out: &mut Vec<u8>)
    requires { vec_len out.old + begin_fault_length fault.now ≤ vec_capacity out.old }
    ensures bytes { out.new.items ≡ out.old.items ++ begin_fault_bytes fault.now }
    ensures len { vec_len out.new ≡ vec_len out.old + begin_fault_length fault.now }
    ensures capacity { vec_capacity out.old ≤ vec_capacity out.new }
{
    match fault {
        BeginFault::Stale(token) => {
            put_u8(1, out);
            put_u64(token.version, out);
            put_seen(token.seen.as_slice(), out);
        }
        BeginFault::Unseen(version) => {
            put_u8(2, out);
            put_u64(*version, out);
        }
        BeginFault::NoItem => put_u8(3, out),
        BeginFault::Sequence => put_u8(4, out),
        BeginFault::Busy => put_u8(5, out),
        BeginFault::Memory => {}
    }
}

// The number of a draft fault.
fn draft_fault_number(fault: &DraftFault) -> u8
    ensures { result ≡ draft_fault_number fault.now }
{
    match fault {
        DraftFault::Empty => 1,
        DraftFault::TooMany => 2,
        DraftFault::RepeatedKey => 3,
        DraftFault::BadAttribute => 4,
        DraftFault::ZeroAmount => 5,
        DraftFault::OutOfBounds => 6,
    }
}

// Appends the transaction that ended, and how.
fn put_end(tx: &TxId, commit: bool, out: &mut Vec<u8>)
    requires { vec_len out.old + 10 ≤ vec_capacity out.old }
    ensures bytes { out.new.items ≡ out.old.items ++ (tx_bytes tx.now ++ flag_bytes commit) }
    ensures len { vec_len out.new ≡ vec_len out.old + 10 }
    ensures capacity { vec_capacity out.old ≤ vec_capacity out.new }
{
    put_tx(tx, out);
    put_flag(commit, out);
}

/// Appends what a client is answered.
pub fn put_answer(answer: &ClientAnswer, out: &mut Vec<u8>)
    requires { vec_len out.old + answer_length answer.now ≤ vec_capacity out.old }
    ensures bytes { out.new.items ≡ out.old.items ++ answer_bytes answer.now }
    ensures len { vec_len out.new ≡ vec_len out.old + answer_length answer.now }
    ensures capacity { vec_capacity out.old ≤ vec_capacity out.new }
{
    match answer {
        ClientAnswer::Read {
            key,
            token,
            item,
            due,
        } => {
            put_u8(1, out);
            put_key(key, out);
            put_u64(token.version, out);
            put_shown_item(item, out);
            put_seen(token.seen.as_slice(), out);
            put_flag(*due, out);
        }
        ClientAnswer::Begun(tx) => {
            put_u8(2, out);
            put_tx(tx, out);
        }
        ClientAnswer::Refused(key, fault) => {
            put_u8(3, out);
            put_key(key, out);
            put_begin_fault(fault, out);
        }
        ClientAnswer::Heard(tx, commit) => {
            put_u8(4, out);
            put_end(tx, *commit, out);
        }
        ClientAnswer::Draft(fault) => {
            put_u8(5, out);
            put_u8(draft_fault_number(fault), out);
        }
    }
}
