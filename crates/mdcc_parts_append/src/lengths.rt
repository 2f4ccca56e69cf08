//! How many bytes parts have.
ghost use Rattle.std.specs.Prelude.{◌≡◌, ◌≤◌, ◌<◌, ◌+◌, ◌*◌, ◌^◌, length};
ghost use Rattle.mdcc_base.specs.Counts.{sum_over};
ghost use Rattle.mdcc_def_messages.specs.Lengths.{key_length, item_length, seen_length, amounts_length, update_length, part_length, delta_length, written_length, write_set_length, choice_length, entry_length, options_length, outcome_length, heard_length, given_length, cause_length};

use mdcc_base::{Key, TxId};
use mdcc_option::{Cause, Choice, Delta, Item, Mark, Outcome, Part, Update};
use mdcc_struct::Options;

/// How many bytes a key has.
pub fn key_length(key: &Key) -> usize
    ensures value { result ≡ key_length key.now }
    ensures bound { result ≤ 33 }
{
    1 + key.bytes().len()
}

/// How many bytes an item has.
pub fn item_length(item: &Item) -> usize
    ensures value { result ≡ item_length item.now }
    ensures bound { result ≤ 162 }
{
    2 + item.body.len() + 8 * item.values.len()
}

/// How many bytes the transactions have that were seen.
pub fn seen_length(seen: &[TxId]) -> usize
    requires { length seen.now ≤ 64 }
    ensures value { result ≡ seen_length seen.now }
    ensures bound { result ≤ 577 }
{
    1 + 9 * seen.len()
}

/// How many bytes amounts have.
pub fn amounts_length(amounts: &[(u8, i64)]) -> usize
    requires { length amounts.now ≤ 4 }
    ensures value { result ≡ amounts_length amounts.now }
    ensures bound { result ≤ 37 }
{
    1 + 9 * amounts.len()
}

/// How many bytes an update has.
pub fn update_length(update: &Update) -> usize
    ensures value { result ≡ update_length update.now }
    ensures bound { result ≤ 740 }
{
    match update {
        Update::Write(item, seen) => 1 + item_length(item) + seen_length(seen.as_slice()),
        Update::Add(amounts) => 1 + amounts_length(amounts.as_slice()),
    }
}

/// How many bytes the part of a transaction has.
pub fn part_length(part: &Part) -> usize
    ensures value { result ≡ part_length part.now }
    ensures bound { result ≤ 781 }
{
    key_length(&part.key) + 8 + update_length(&part.update)
}

/// How many bytes a delta has.
pub fn delta_length(delta: &Delta) -> usize
    ensures value { result ≡ delta_length delta.now }
    ensures bound { result ≤ 46 }
{
    9 + amounts_length(delta.amounts.as_slice())
}

// How many bytes a key has with its version.
fn written_length(written: &(Key, u64)) -> usize
    ensures value { result ≡ written_length written.now }
    ensures bound { result ≤ 41 }
{
    key_length(&written.0) + 8
}

/// How many bytes a write set has.
pub fn write_set_length(write_set: &[(Key, u64)]) -> usize
    requires { length write_set.now ≤ 8 }
    ensures value { result ≡ write_set_length write_set.now }
    ensures bound { result ≤ 329 }
{
    let mut total = 1;
    for written in write_set {
        total += written_length(written);
    }
    total
}

/// How many bytes a choice has: at most 1,119.
pub fn choice_length(choice: &Choice) -> usize
    ensures value { result ≡ choice_length choice.now }
    ensures bound { result ≤ 1119 }
{
    17 + key_length(&choice.key)
        + update_length(&choice.update)
        + write_set_length(choice.write_set.as_slice())
}

/// How many bytes a mark has with its transaction.
pub fn entry_length(mark: &Mark) -> usize
    ensures value { result ≡ entry_length mark.now }
    ensures bound { result ≤ 1120 }
{
    match mark {
        Mark::Reject => 10,
        Mark::Accept(choice) => 1 + choice_length(choice),
    }
}

/// How many bytes a structure has.
pub fn options_length(options: &Options) -> usize
    requires { length options.now < 2 ^ 32 }
    ensures value { result ≡ options_length options.now }
    ensures bound { result ≤ 4 + 1120 * length options.now }
{
    let mut total = 4;
    for place in 0..options.len() {
        total += entry_length(options.at(place).1);
    }
    total
}

// How many bytes choices have.
fn choices_length(choices: &[Choice]) -> usize
    requires { length choices.now ≤ 8 }
    ensures value { result ≡ sum_over choice_length choices.now }
    ensures bound { result ≤ 8952 }
{
    let mut total = 0;
    for choice in choices {
        total += choice_length(choice);
    }
    total
}

/// How many bytes an outcome has.
pub fn outcome_length(outcome: &Outcome) -> usize
    ensures value { result ≡ outcome_length outcome.now }
    ensures bound { result ≤ 8954 }
{
    match outcome {
        Outcome::Abort => 1,
        Outcome::Commit(choices) => 2 + choices_length(choices.as_slice()),
    }
}

/// How many bytes a cause has.
pub fn cause_length(cause: &Cause) -> usize
    ensures value { result ≡ cause_length cause.now }
    ensures bound { result ≤ 10 }
{
    match cause {
        Cause::Behind => 1,
        Cause::Classic(_) => 10,
        Cause::Limit(_) => 2,
        Cause::Full => 1,
    }
}

/// How many bytes a transaction has with how it ended.
pub fn heard_length(outcome: &Outcome) -> usize
    ensures value { result ≡ heard_length outcome.now }
    ensures bound { result ≤ 8963 }
{
    9 + outcome_length(outcome)
}

// How many bytes deltas have.
fn deltas_length(adds: &[Delta]) -> usize
    requires { length adds.now < 2 ^ 8 }
    ensures value { result ≡ sum_over delta_length adds.now }
    ensures bound { result ≤ 11776 }
{
    let mut total = 0;
    for delta in adds {
        total += delta_length(delta);
    }
    total
}

/// How many bytes a centre's version of a key has.
pub fn given_length(key: &Key, item: &Item, adds: &[Delta]) -> usize
    requires { length adds.now < 2 ^ 8 }
    ensures value { result ≡ given_length key.now item.now adds.now }
    ensures bound { result ≤ 11980 }
{
    key_length(key) + 8 + item_length(item) + (1 + deltas_length(adds))
}
