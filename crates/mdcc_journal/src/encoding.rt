//! Facts written to bytes.
ghost use Rattle.std.specs.Prelude.{◌≡◌, ◌≤◌, ◌+◌, ◌++◌, ◌^◌, vec_len, vec_capacity, IsOk, OnOk, OnErr};
ghost use Rattle.mdcc_def_messages.specs.Bytes.{u8_bytes, u32_bytes, u64_bytes};
ghost use Rattle.mdcc_def_messages.specs.SpelledParts.{key_bytes, ballot_bytes};
ghost use Rattle.mdcc_def_messages.specs.Spelling.{offered_bytes, fact_bytes};
ghost use Rattle.mdcc_def_messages.specs.Lengths.{key_length, offered_length, fact_length};
ghost use Rattle.mdcc_journal.specs.Counts.{HasCounts};

use mdcc_base::{Ballot, Centre, Key, Memory};
use mdcc_def_messages::Fact;
use mdcc_option::Choice;
use mdcc_parts_append::appending::{put_ballot, put_choice, put_key, put_u8, put_u32, put_u64};
use mdcc_parts_append::lengths::{
    choice_length, given_length, heard_length, key_length, options_length,
};
use mdcc_parts_append::marks::{put_given, put_heard, put_options};

// How many bytes a choice has that may be there.
fn offered_length(offered: &Option<Choice>) -> usize
    ensures value { result ≡ offered_length offered.now }
    ensures bound { result ≤ 1120 }
{
    match offered {
        None => 1,
        Some(choice) => 1 + choice_length(choice),
    }
}

/// How many bytes a fact has.
pub fn fact_length(fact: &Fact) -> usize
    requires { HasCounts fact.now }
    ensures value { result ≡ fact_length fact.now }
    ensures bound { result ≤ 2 ^ 44 }
{
    match fact {
        Fact::Booted(_) => 5,
        Fact::Promised { key, .. } => 26 + key_length(key),
        Fact::Voted {
            key,
            options,
            offered,
            ..
        } => 18 + key_length(key) + options_length(options) + offered_length(offered),
        Fact::Heard { outcome, .. } => 1 + heard_length(outcome),
        Fact::Adopted {
            key,
            item,
            adds,
            ..
        } => 1 + given_length(key, item, adds.as_slice()),
        Fact::Floor { .. } => 10,
    }
}

// Appends a choice that may be there.
fn put_offered(offered: &Option<Choice>, out: &mut Vec<u8>)
    requires { vec_len out.old + offered_length offered.now ≤ vec_capacity out.old }
    ensures bytes { out.new.items ≡ out.old.items ++ offered_bytes offered.now }
    ensures len { vec_len out.new ≡ vec_len out.old + offered_length offered.now }
    ensures capacity { vec_capacity out.old ≤ vec_capacity out.new }
{
    match offered {
        None => put_u8(0, out),
        Some(choice) => {
            put_u8(1, out);
            put_choice(choice, out);
        }
    }
}

// Appends a promise, as a fact.
fn put_promised(key: &Key, low: u64, high: u64, ballot: &Ballot, out: &mut Vec<u8>)
    requires { vec_len out.old + (26 + key_length key.now) ≤ vec_capacity out.old }
    ensures bytes { out.new.items ≡ out.old.items ++ (u8_bytes 2 ++ key_bytes key.now ++ u64_bytes low ++ u64_bytes high ++ ballot_bytes ballot.now) }
    ensures capacity { vec_capacity out.old ≤ vec_capacity out.new }
{
    put_u8(2, out);
    put_key(key, out);
    put_u64(low, out);
    put_u64(high, out);
    put_ballot(ballot, out);
}

// Appends how far all have heard a centre's transactions, as a fact.
fn put_floor(centre: Centre, epoch: u32, seq: u32, out: &mut Vec<u8>)
    requires { vec_len out.old + 10 ≤ vec_capacity out.old }
    ensures bytes { out.new.items ≡ out.old.items ++ (u8_bytes 6 ++ u8_bytes centre ++ u32_bytes epoch ++ u32_bytes seq) }
    ensures capacity { vec_capacity out.old ≤ vec_capacity out.new }
{
    put_u8(6, out);
    put_u8(centre.number(), out);
    put_u32(epoch, out);
    put_u32(seq, out);
}

// Appends a fact.
fn put_fact(fact: &Fact, out: &mut Vec<u8>)
    requires counts { HasCounts fact.now }
    requires room { vec_len out.old + fact_length fact.now ≤ vec_capacity out.old }
    ensures bytes { out.new.items ≡ out.old.items ++ fact_bytes fact.now }
    ensures capacity { vec_capacity out.old ≤ vec_capacity out.new }
{
    match fact {
        Fact::Booted(epoch) => {
            put_u8(1, out);
            put_u32(*epoch, out);
        }
        Fact::Promised {
            key,
            low,
            high,
            ballot,
        } => put_promised(key, *low, *high, ballot, out),
        Fact::Voted {
            key,
            version,
            ballot,
            options,
            offered,
        } => {
            put_u8(3, out);
            put_key(key, out);
            put_u64(*version, out);
            put_ballot(ballot, out);
            put_options(options, out);
            put_offered(offered, out);
        }
        Fact::Heard { tx, outcome } => {
            put_u8(4, out);
            put_heard(tx, outcome, out);
        }
        Fact::Adopted {
            key,
            version,
            item,
            adds,
        } => {
            put_u8(5, out);
            put_given(key, *version, item, adds.as_slice(), out);
        }
        Fact::Floor { centre, epoch, seq } => put_floor(*centre, *epoch, *seq, out),
    }
}

/// Writes a fact behind the bytes that are there. It succeeds where the vector has the capacity for the
/// fact. Where there is no memory, the vector has the bytes that it had. Its capacity never shrinks.
pub fn encode_fact(fact: &Fact, out: &mut Vec<u8>) -> Result<(), Memory>
    requires { HasCounts fact.now }
    ensures ok { OnOk result (out.new.items ≡ out.old.items ++ fact_bytes fact.now) }
    ensures err { OnErr result (out.new.items ≡ out.old.items) }
    ensures capacity { vec_capacity out.old ≤ vec_capacity out.new }
    ensures succeeds { vec_len out.old + fact_length fact.now ≤ vec_capacity out.old → IsOk result }
{
    out.try_reserve(fact_length(fact))?;
    put_fact(fact, out);
    Ok(())
}
