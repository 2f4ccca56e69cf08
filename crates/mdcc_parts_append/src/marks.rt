//! Marks, structures and outcomes appended to bytes, where the capacity is there.
ghost use Rattle.std.specs.Prelude.{◌≡◌, ◌≤◌, ◌<◌, ◌+◌, ◌++◌, ◌^◌, length, vec_len, vec_capacity};
ghost use Rattle.mdcc_base.specs.Counts.{sum_over};
ghost use Rattle.mdcc_def_messages.specs.Bytes.{counted_bytes};
ghost use Rattle.mdcc_def_messages.specs.SpelledParts.{choice_bytes, delta_bytes, entry_bytes, options_bytes, outcome_bytes, cause_bytes, heard_bytes, given_bytes};
ghost use Rattle.mdcc_def_messages.specs.Lengths.{choice_length, delta_length, entry_length, options_length, outcome_length, cause_length, heard_length, given_length};

use crate::appending::{
    put_ballot, put_choice, put_delta, put_item, put_key, put_tx, put_u8, put_u32, put_u64,
};
use mdcc_base::{Key, TxId};
use mdcc_option::{Cause, Choice, Delta, Item, Mark, Outcome};
use mdcc_struct::Options;

/// Appends a mark with its transaction.
pub fn put_entry(tx: &TxId, mark: &Mark, out: &mut Vec<u8>)
    requires { vec_len out.old + entry_length mark.now ≤ vec_capacity out.old }
    ensures bytes { out.new.items ≡ out.old.items ++ entry_bytes tx.now mark.now }
    ensures len { vec_len out.new ≡ vec_len out.old + entry_length mark.now }
    ensures capacity { vec_capacity out.old ≤ vec_capacity out.new }
{
    match mark {
        Mark::Reject => {
            put_u8(0, out);
            put_tx(tx, out);
        }
        Mark::Accept(choice) => {
            put_u8(1, out);
            put_choice(choice, out);
        }
    }
}

/// Appends a structure.
pub fn put_options(options: &Options, out: &mut Vec<u8>)
    requires few { length options.now < 2 ^ 32 }
    requires room { vec_len out.old + options_length options.now ≤ vec_capacity out.old }
    ensures bytes { out.new.items ≡ out.old.items ++ options_bytes options.now }
    ensures len { vec_len out.new ≡ vec_len out.old + options_length options.now }
    ensures capacity { vec_capacity out.old ≤ vec_capacity out.new }
{
    put_u32(options.len() as u32, out);
    for place in 0..options.len() {
        let (tx, mark) = options.at(place);
        put_entry(&tx, mark, out);
    }
}

// Appends how many choices there are, and each.
fn put_choices(choices: &[Choice], out: &mut Vec<u8>)
    requires few { length choices.now ≤ 8 }
    requires room { vec_len out.old + 1 + sum_over choice_length choices.now ≤ vec_capacity out.old }
    ensures bytes { out.new.items ≡ out.old.items ++ counted_bytes choice_bytes choices.now }
    ensures len { vec_len out.new ≡ vec_len out.old + 1 + sum_over choice_length choices.now }
    ensures capacity { vec_capacity out.old ≤ vec_capacity out.new }
{
    put_u8(choices.len() as u8, out);
    for choice in choices {
        put_choice(choice, out);
    }
}

/// Appends an outcome.
pub fn put_outcome(outcome: &Outcome, out: &mut Vec<u8>)
    requires { vec_len out.old + outcome_length outcome.now ≤ vec_capacity out.old }
    ensures bytes { out.new.items ≡ out.old.items ++ outcome_bytes outcome.now }
    ensures len { vec_len out.new ≡ vec_len out.old + outcome_length outcome.now }
    ensures capacity { vec_capacity out.old ≤ vec_capacity out.new }
{
    match outcome {
        Outcome::Abort => put_u8(0, out),
        Outcome::Commit(choices) => {
            put_u8(1, out);
            put_choices(choices.as_slice(), out);
        }
    }
}

/// Appends a cause.
pub fn put_cause(cause: &Cause, out: &mut Vec<u8>)
    requires { vec_len out.old + cause_length cause.now ≤ vec_capacity out.old }
    ensures bytes { out.new.items ≡ out.old.items ++ cause_bytes cause.now }
    ensures len { vec_len out.new ≡ vec_len out.old + cause_length cause.now }
    ensures capacity { vec_capacity out.old ≤ vec_capacity out.new }
{
    match cause {
        Cause::Behind => put_u8(1, out),
        Cause::Classic(ballot) => {
            put_u8(2, out);
            put_ballot(ballot, out);
        }
        Cause::Limit(quantity) => {
            put_u8(3, out);
            put_u8(*quantity, out);
        }
        Cause::Full => put_u8(4, out),
    }
}

/// Appends a transaction and how it ended.
pub fn put_heard(tx: &TxId, outcome: &Outcome, out: &mut Vec<u8>)
    requires { vec_len out.old + heard_length outcome.now ≤ vec_capacity out.old }
    ensures bytes { out.new.items ≡ out.old.items ++ heard_bytes tx.now outcome.now }
    ensures len { vec_len out.new ≡ vec_len out.old + heard_length outcome.now }
    ensures capacity { vec_capacity out.old ≤ vec_capacity out.new }
{
    put_tx(tx, out);
    put_outcome(outcome, out);
}

// Appends how many deltas there are, and each.
fn put_deltas(adds: &[Delta], out: &mut Vec<u8>)
    requires few { length adds.now < 2 ^ 8 }
    requires room { vec_len out.old + 1 + sum_over delta_length adds.now ≤ vec_capacity out.old }
    ensures bytes { out.new.items ≡ out.old.items ++ counted_bytes delta_bytes adds.now }
    ensures len { vec_len out.new ≡ vec_len out.old + 1 + sum_over delta_length adds.now }
    ensures capacity { vec_capacity out.old ≤ vec_capacity out.new }
{
    put_u8(adds.len() as u8, out);
    for delta in adds {
        put_delta(delta, out);
    }
}

/// Appends a centre's version of a key.
pub fn put_given(key: &Key, version: u64, item: &Item, adds: &[Delta], out: &mut Vec<u8>)
    requires few { length adds.now < 2 ^ 8 }
    requires room { vec_len out.old + given_length key.now item.now adds.now ≤ vec_capacity out.old }
    ensures bytes { out.new.items ≡ out.old.items ++ given_bytes key.now version item.now adds.now }
    ensures len { vec_len out.new ≡ vec_len out.old + given_length key.now item.now adds.now }
    ensures capacity { vec_capacity out.old ≤ vec_capacity out.new }
{
    put_key(key, out);
    put_u64(version, out);
    put_item(item, out);
    put_deltas(adds, out);
}
