//! Parts appended to bytes, where the capacity is there.
ghost use Rattle.std.specs.Prelude.{◌≡◌, ◌≤◌, ◌+◌, ◌*◌, ◌++◌, length, vec_len, vec_capacity};
ghost use Rattle.mdcc_def_messages.specs.Bytes.{u8_bytes, u32_bytes, u64_bytes, i64_bytes, counted_bytes};
ghost use Rattle.mdcc_def_messages.specs.SpelledParts.{key_bytes, tx_bytes, ballot_bytes, item_bytes, seen_bytes, amount_bytes, amounts_bytes, update_bytes, part_bytes, delta_bytes, written_bytes, write_set_bytes, choice_bytes};
ghost use Rattle.mdcc_def_messages.specs.Lengths.{key_length, item_length, seen_length, amounts_length, update_length, part_length, delta_length, written_length, write_set_length, choice_length};

use mdcc_base::{Ballot, Key, TxId};
use mdcc_option::{Choice, Delta, Item, Part, Update};

/// Appends bytes.
pub fn put_bytes(bytes: &[u8], out: &mut Vec<u8>)
    requires { vec_len out.old + length bytes.now ≤ vec_capacity out.old }
    ensures bytes { out.new.items ≡ out.old.items ++ bytes.now }
    ensures len { vec_len out.new ≡ vec_len out.old + length bytes.now }
    ensures capacity { vec_capacity out.old ≤ vec_capacity out.new }
{
    out.extend_from_slice(bytes).unwrap();
}

/// Appends a number of one byte.
pub fn put_u8(n: u8, out: &mut Vec<u8>)
    requires { vec_len out.old + 1 ≤ vec_capacity out.old }
    ensures bytes { out.new.items ≡ out.old.items ++ u8_bytes n }
    ensures len { vec_len out.new ≡ vec_len out.old + 1 }
    ensures capacity { vec_capacity out.old ≤ vec_capacity out.new }
{
    put_bytes(&[n], out);
}

/// Appends a number of four bytes.
pub fn put_u32(n: u32, out: &mut Vec<u8>)
    requires { vec_len out.old + 4 ≤ vec_capacity out.old }
    ensures bytes { out.new.items ≡ out.old.items ++ u32_bytes n }
    ensures len { vec_len out.new ≡ vec_len out.old + 4 }
    ensures capacity { vec_capacity out.old ≤ vec_capacity out.new }
{
    put_bytes(&n.to_le_bytes(), out);
}

/// Appends a number of eight bytes.
pub fn put_u64(n: u64, out: &mut Vec<u8>)
    requires { vec_len out.old + 8 ≤ vec_capacity out.old }
    ensures bytes { out.new.items ≡ out.old.items ++ u64_bytes n }
    ensures len { vec_len out.new ≡ vec_len out.old + 8 }
    ensures capacity { vec_capacity out.old ≤ vec_capacity out.new }
{
    put_bytes(&n.to_le_bytes(), out);
}

/// Appends a whole number of eight bytes, in two's complement.
pub fn put_i64(z: i64, out: &mut Vec<u8>)
    requires { vec_len out.old + 8 ≤ vec_capacity out.old }
    ensures bytes { out.new.items ≡ out.old.items ++ i64_bytes z }
    ensures len { vec_len out.new ≡ vec_len out.old + 8 }
    ensures capacity { vec_capacity out.old ≤ vec_capacity out.new }
{
    put_u64(z.cast_unsigned(), out);
}

/// Appends a key.
pub fn put_key(key: &Key, out: &mut Vec<u8>)
    requires { vec_len out.old + key_length key.now ≤ vec_capacity out.old }
    ensures bytes { out.new.items ≡ out.old.items ++ key_bytes key.now }
    ensures len { vec_len out.new ≡ vec_len out.old + key_length key.now }
    ensures capacity { vec_capacity out.old ≤ vec_capacity out.new }
{
    let bytes = key.bytes();
    put_u8(bytes.len() as u8, out);
    put_bytes(bytes, out);
}

/// Appends an identifier.
pub fn put_tx(tx: &TxId, out: &mut Vec<u8>)
    requires { vec_len out.old + 9 ≤ vec_capacity out.old }
    ensures bytes { out.new.items ≡ out.old.items ++ tx_bytes tx.now }
    ensures len { vec_len out.new ≡ vec_len out.old + 9 }
    ensures capacity { vec_capacity out.old ≤ vec_capacity out.new }
{
    put_u8(tx.centre.number(), out);
    put_u32(tx.epoch, out);
    put_u32(tx.seq, out);
}

/// Appends a ballot.
pub fn put_ballot(ballot: &Ballot, out: &mut Vec<u8>)
    requires { vec_len out.old + 9 ≤ vec_capacity out.old }
    ensures bytes { out.new.items ≡ out.old.items ++ ballot_bytes ballot.now }
    ensures len { vec_len out.new ≡ vec_len out.old + 9 }
    ensures capacity { vec_capacity out.old ≤ vec_capacity out.new }
{
    put_u32(ballot.round, out);
    put_u32(ballot.epoch, out);
    put_u8(ballot.centre, out);
}

// Appends a value.
fn put_value(value: &i64, out: &mut Vec<u8>)
    requires { vec_len out.old + 8 ≤ vec_capacity out.old }
    ensures bytes { out.new.items ≡ out.old.items ++ i64_bytes value.now }
    ensures len { vec_len out.new ≡ vec_len out.old + 8 }
    ensures capacity { vec_capacity out.old ≤ vec_capacity out.new }
{
    put_i64(*value, out);
}

// Appends how many values there are, and each.
fn put_values(values: &[i64], out: &mut Vec<u8>)
    requires few { length values.now ≤ 4 }
    requires room { vec_len out.old + 1 + 8 * length values.now ≤ vec_capacity out.old }
    ensures bytes { out.new.items ≡ out.old.items ++ counted_bytes i64_bytes values.now }
    ensures len { vec_len out.new ≡ vec_len out.old + 1 + 8 * length values.now }
    ensures capacity { vec_capacity out.old ≤ vec_capacity out.new }
{
    put_u8(values.len() as u8, out);
    for value in values {
        put_value(value, out);
    }
}

/// Appends an item.
pub fn put_item(item: &Item, out: &mut Vec<u8>)
    requires { vec_len out.old + item_length item.now ≤ vec_capacity out.old }
    ensures bytes { out.new.items ≡ out.old.items ++ item_bytes item.now }
    ensures len { vec_len out.new ≡ vec_len out.old + item_length item.now }
    ensures capacity { vec_capacity out.old ≤ vec_capacity out.new }
{
    let body = item.body.as_slice();
    put_u8(body.len() as u8, out);
    put_bytes(body, out);
    put_values(item.values.as_slice(), out);
}

/// Appends transactions that were seen.
pub fn put_seen(seen: &[TxId], out: &mut Vec<u8>)
    requires few { length seen.now ≤ 64 }
    requires room { vec_len out.old + seen_length seen.now ≤ vec_capacity out.old }
    ensures bytes { out.new.items ≡ out.old.items ++ seen_bytes seen.now }
    ensures len { vec_len out.new ≡ vec_len out.old + seen_length seen.now }
    ensures capacity { vec_capacity out.old ≤ vec_capacity out.new }
{
    put_u8(seen.len() as u8, out);
    for tx in seen {
        put_tx(tx, out);
    }
}

// Appends an attribute with its amount.
fn put_amount(amount: &(u8, i64), out: &mut Vec<u8>)
    requires { vec_len out.old + 9 ≤ vec_capacity out.old }
    ensures bytes { out.new.items ≡ out.old.items ++ amount_bytes amount.now }
    ensures len { vec_len out.new ≡ vec_len out.old + 9 }
    ensures capacity { vec_capacity out.old ≤ vec_capacity out.new }
{
    put_u8(amount.0, out);
    put_i64(amount.1, out);
}

/// Appends amounts.
pub fn put_amounts(amounts: &[(u8, i64)], out: &mut Vec<u8>)
    requires few { length amounts.now ≤ 4 }
    requires room { vec_len out.old + amounts_length amounts.now ≤ vec_capacity out.old }
    ensures bytes { out.new.items ≡ out.old.items ++ amounts_bytes amounts.now }
    ensures len { vec_len out.new ≡ vec_len out.old + amounts_length amounts.now }
    ensures capacity { vec_capacity out.old ≤ vec_capacity out.new }
{
    put_u8(amounts.len() as u8, out);
    for amount in amounts {
        put_amount(amount, out);
    }
}

/// Appends an update.
pub fn put_update(update: &Update, out: &mut Vec<u8>)
    requires { vec_len out.old + update_length update.now ≤ vec_capacity out.old }
    ensures bytes { out.new.items ≡ out.old.items ++ update_bytes update.now }
    ensures len { vec_len out.new ≡ vec_len out.old + update_length update.now }
    ensures capacity { vec_capacity out.old ≤ vec_capacity out.new }
{
    match update {
        Update::Write(item, seen) => {
            put_u8(1, out);
            put_item(item, out);
            put_seen(seen.as_slice(), out);
        }
        Update::Add(amounts) => {
            put_u8(2, out);
            put_amounts(amounts.as_slice(), out);
        }
    }
}

/// Appends the part of a transaction.
pub fn put_part(part: &Part, out: &mut Vec<u8>)
    requires { vec_len out.old + part_length part.now ≤ vec_capacity out.old }
    ensures bytes { out.new.items ≡ out.old.items ++ part_bytes part.now }
    ensures len { vec_len out.new ≡ vec_len out.old + part_length part.now }
    ensures capacity { vec_capacity out.old ≤ vec_capacity out.new }
{
    put_key(&part.key, out);
    put_u64(part.version, out);
    put_update(&part.update, out);
}

/// Appends a delta.
pub fn put_delta(delta: &Delta, out: &mut Vec<u8>)
    requires { vec_len out.old + delta_length delta.now ≤ vec_capacity out.old }
    ensures bytes { out.new.items ≡ out.old.items ++ delta_bytes delta.now }
    ensures len { vec_len out.new ≡ vec_len out.old + delta_length delta.now }
    ensures capacity { vec_capacity out.old ≤ vec_capacity out.new }
{
    put_tx(&delta.tx, out);
    put_amounts(delta.amounts.as_slice(), out);
}

// Appends a key with its version.
fn put_written(written: &(Key, u64), out: &mut Vec<u8>)
    requires { vec_len out.old + written_length written.now ≤ vec_capacity out.old }
    ensures bytes { out.new.items ≡ out.old.items ++ written_bytes written.now }
    ensures len { vec_len out.new ≡ vec_len out.old + written_length written.now }
    ensures capacity { vec_capacity out.old ≤ vec_capacity out.new }
{
    put_key(&written.0, out);
    put_u64(written.1, out);
}

/// Appends a write set.
pub fn put_write_set(write_set: &[(Key, u64)], out: &mut Vec<u8>)
    requires few { length write_set.now ≤ 8 }
    requires room { vec_len out.old + write_set_length write_set.now ≤ vec_capacity out.old }
    ensures bytes { out.new.items ≡ out.old.items ++ write_set_bytes write_set.now }
    ensures len { vec_len out.new ≡ vec_len out.old + write_set_length write_set.now }
    ensures capacity { vec_capacity out.old ≤ vec_capacity out.new }
{
    put_u8(write_set.len() as u8, out);
    for written in write_set {
        put_written(written, out);
    }
}

/// Appends a choice.
pub fn put_choice(choice: &Choice, out: &mut Vec<u8>)
    requires { vec_len out.old + choice_length choice.now ≤ vec_capacity out.old }
    ensures bytes { out.new.items ≡ out.old.items ++ choice_bytes choice.now }
    ensures len { vec_len out.new ≡ vec_len out.old + choice_length choice.now }
    ensures capacity { vec_capacity out.old ≤ vec_capacity out.new }
{
    put_tx(&choice.tx, out);
    put_key(&choice.key, out);
    put_u64(choice.version, out);
    put_update(&choice.update, out);
    put_write_set(choice.write_set.as_slice(), out);
}
