//! Parts written to bytes, where memory is found for them.
ghost use Rattle.std.specs.Prelude.{◌≡◌, ◌≤◌, ◌<◌, ◌+◌, ◌++◌, ◌^◌, length, vec_len, vec_capacity, IsOk, OnOk, OnErr};
ghost use Rattle.mdcc_def_messages.specs.SpelledParts.{key_bytes, tx_bytes, ballot_bytes, item_bytes, seen_bytes, amounts_bytes, update_bytes, delta_bytes, write_set_bytes, choice_bytes, entry_bytes, options_bytes};
ghost use Rattle.mdcc_def_messages.specs.Lengths.{key_length, item_length, seen_length, amounts_length, update_length, delta_length, write_set_length, choice_length, entry_length, options_length};

use crate::appending::{
    put_amounts, put_ballot, put_choice, put_delta, put_item, put_key, put_seen, put_tx,
    put_update, put_write_set,
};
use crate::lengths::{
    amounts_length, choice_length, delta_length, entry_length, item_length, key_length,
    options_length, seen_length, update_length, write_set_length,
};
use crate::marks::{put_entry, put_options};
use mdcc_base::{Ballot, Key, Memory, TxId};
use mdcc_option::{Choice, Delta, Item, Mark, Update};
use mdcc_struct::Options;

// Each call succeeds where the vector has the capacity for the part. Where there is no memory, the
// vector has the bytes that it had.

/// Writes a key behind the bytes that are there.
pub fn write_key(key: &Key, out: &mut Vec<u8>) -> Result<(), Memory>
    ensures ok { OnOk result (out.new.items ≡ out.old.items ++ key_bytes key.now) }
    ensures err { OnErr result (out.new.items ≡ out.old.items) }
    ensures succeeds { vec_len out.old + key_length key.now ≤ vec_capacity out.old → IsOk result }
{
    out.try_reserve(key_length(key))?;
    put_key(key, out);
    Ok(())
}

/// Writes an identifier behind the bytes that are there.
pub fn write_tx(tx: &TxId, out: &mut Vec<u8>) -> Result<(), Memory>
    ensures ok { OnOk result (out.new.items ≡ out.old.items ++ tx_bytes tx.now) }
    ensures err { OnErr result (out.new.items ≡ out.old.items) }
    ensures succeeds { vec_len out.old + 9 ≤ vec_capacity out.old → IsOk result }
{
    out.try_reserve(9)?;
    put_tx(tx, out);
    Ok(())
}

/// Writes a ballot behind the bytes that are there.
pub fn write_ballot(ballot: &Ballot, out: &mut Vec<u8>) -> Result<(), Memory>
    ensures ok { OnOk result (out.new.items ≡ out.old.items ++ ballot_bytes ballot.now) }
    ensures err { OnErr result (out.new.items ≡ out.old.items) }
    ensures succeeds { vec_len out.old + 9 ≤ vec_capacity out.old → IsOk result }
{
    out.try_reserve(9)?;
    put_ballot(ballot, out);
    Ok(())
}

/// Writes an item behind the bytes that are there.
pub fn write_item(item: &Item, out: &mut Vec<u8>) -> Result<(), Memory>
    ensures ok { OnOk result (out.new.items ≡ out.old.items ++ item_bytes item.now) }
    ensures err { OnErr result (out.new.items ≡ out.old.items) }
    ensures succeeds { vec_len out.old + item_length item.now ≤ vec_capacity out.old → IsOk result }
{
    out.try_reserve(item_length(item))?;
    put_item(item, out);
    Ok(())
}

/// Writes transactions that were seen behind the bytes that are there.
pub fn write_seen(seen: &[TxId], out: &mut Vec<u8>) -> Result<(), Memory>
    requires { length seen.now ≤ 64 }
    ensures ok { OnOk result (out.new.items ≡ out.old.items ++ seen_bytes seen.now) }
    ensures err { OnErr result (out.new.items ≡ out.old.items) }
    ensures succeeds { vec_len out.old + seen_length seen.now ≤ vec_capacity out.old → IsOk result }
{
    out.try_reserve(seen_length(seen))?;
    put_seen(seen, out);
    Ok(())
}

/// Writes amounts behind the bytes that are there.
pub fn write_amounts(amounts: &[(u8, i64)], out: &mut Vec<u8>) -> Result<(), Memory>
    requires { length amounts.now ≤ 4 }
    ensures ok { OnOk result (out.new.items ≡ out.old.items ++ amounts_bytes amounts.now) }
    ensures err { OnErr result (out.new.items ≡ out.old.items) }
    ensures succeeds { vec_len out.old + amounts_length amounts.now ≤ vec_capacity out.old → IsOk result }
{
    out.try_reserve(amounts_length(amounts))?;
    put_amounts(amounts, out);
    Ok(())
}

/// Writes an update behind the bytes that are there.
pub fn write_update(update: &Update, out: &mut Vec<u8>) -> Result<(), Memory>
    ensures ok { OnOk result (out.new.items ≡ out.old.items ++ update_bytes update.now) }
    ensures err { OnErr result (out.new.items ≡ out.old.items) }
    ensures succeeds { vec_len out.old + update_length update.now ≤ vec_capacity out.old → IsOk result }
{
    out.try_reserve(update_length(update))?;
    put_update(update, out);
    Ok(())
}

/// Writes a write set behind the bytes that are there.
pub fn write_write_set(write_set: &[(Key, u64)], out: &mut Vec<u8>) -> Result<(), Memory>
    requires { length write_set.now ≤ 8 }
    ensures ok { OnOk result (out.new.items ≡ out.old.items ++ write_set_bytes write_set.now) }
    ensures err { OnErr result (out.new.items ≡ out.old.items) }
    ensures succeeds { vec_len out.old + write_set_length write_set.now ≤ vec_capacity out.old → IsOk result }
{
    out.try_reserve(write_set_length(write_set))?;
    put_write_set(write_set, out);
    Ok(())
}

/// Writes a choice behind the bytes that are there.
pub fn write_choice(choice: &Choice, out: &mut Vec<u8>) -> Result<(), Memory>
    ensures ok { OnOk result (out.new.items ≡ out.old.items ++ choice_bytes choice.now) }
    ensures err { OnErr result (out.new.items ≡ out.old.items) }
    ensures succeeds { vec_len out.old + choice_length choice.now ≤ vec_capacity out.old → IsOk result }
{
    out.try_reserve(choice_length(choice))?;
    put_choice(choice, out);
    Ok(())
}

/// Writes a delta behind the bytes that are there.
pub fn write_delta(delta: &Delta, out: &mut Vec<u8>) -> Result<(), Memory>
    ensures ok { OnOk result (out.new.items ≡ out.old.items ++ delta_bytes delta.now) }
    ensures err { OnErr result (out.new.items ≡ out.old.items) }
    ensures succeeds { vec_len out.old + delta_length delta.now ≤ vec_capacity out.old → IsOk result }
{
    out.try_reserve(delta_length(delta))?;
    put_delta(delta, out);
    Ok(())
}

/// Writes a mark with its transaction behind the bytes that are there.
pub fn write_entry(tx: &TxId, mark: &Mark, out: &mut Vec<u8>) -> Result<(), Memory>
    ensures ok { OnOk result (out.new.items ≡ out.old.items ++ entry_bytes tx.now mark.now) }
    ensures err { OnErr result (out.new.items ≡ out.old.items) }
    ensures succeeds { vec_len out.old + entry_length mark.now ≤ vec_capacity out.old → IsOk result }
{
    out.try_reserve(entry_length(mark))?;
    put_entry(tx, mark, out);
    Ok(())
}

/// Writes a structure behind the bytes that are there.
pub fn write_options(options: &Options, out: &mut Vec<u8>) -> Result<(), Memory>
    requires { length options.now < 2 ^ 32 }
    ensures ok { OnOk result (out.new.items ≡ out.old.items ++ options_bytes options.now) }
    ensures err { OnErr result (out.new.items ≡ out.old.items) }
    ensures succeeds { vec_len out.old + options_length options.now ≤ vec_capacity out.old → IsOk result }
{
    out.try_reserve(options_length(options))?;
    put_options(options, out);
    Ok(())
}
