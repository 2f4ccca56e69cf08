//! What live choices weigh, one after the other.
ghost use Rattle.std.specs.Prelude.{◌≡◌, ◌++◌, ◌∷◌, []};
ghost use Rattle.mdcc_escrow.specs.Sums.{IsBoundedLoad};
ghost use Rattle.mdcc_escrow.specs.Weights.{with_amount, counted, sums_with, with_live};
ghost use Rattle.mdcc_option.specs.declared.items.Update.{Update as Live};
ghost use Rattle.mdcc_def_protocol.specs.Fit.{amounts_in, capped, decrease, has_tx, increase, load_of};
ghost use Rattle.mdcc_def_protocol.specs.Marks.{is_write};
ghost use Rattle.mdcc_struct.specs.Maps.{TxMap};

use crate::Load;
use mdcc_base::TxId;
use mdcc_option::{Update, amount_at};

/// What nothing weighs.
pub const NO_LOAD: Load = Load {
    writes: 0,
    unseen: 0,
    count: 0,
    down: [0; 4],
    up: [0; 4],
};

// A sum that is not passed.
const SUM_LIMIT: i128 = 1 << 96;

// One more where the test holds, up to 2^32 - 1.
fn counted(test: bool, count: u32) -> u32
    ensures { result ≡ counted test count }
{
    if test { count.saturating_add(1) } else { count }
}

// Whether the update is a write.
fn is_write(update: &Update) -> bool
    ensures { result ≡ is_write update.now }
{
    matches!(update, Update::Write(_, _))
}

// Whether the transaction is among these.
fn has_tx(txs: &[TxId], tx: &TxId) -> bool
    ensures { result ≡ has_tx txs.now tx.now }
{
    for other in txs {
        if tx.is(other) {
            return true;
        }
    }
    false
}

// How much an amount takes from an attribute.
fn decrease(amount: i64) -> u64
    ensures { result ≡ decrease amount }
{
    if amount < 0 { amount.unsigned_abs() } else { 0 }
}

// How much it adds.
fn increase(amount: i64) -> u64
    ensures { result ≡ increase amount }
{
    if amount < 0 { 0 } else { amount.unsigned_abs() }
}

// A size more, up to 2^96.
fn added(size: u64, sum: i128) -> i128
    ensures { result ≡ with_amount size sum }
{
    if SUM_LIMIT < sum {
        return SUM_LIMIT;
    }
    let more = sum + i128::from(size);
    if SUM_LIMIT < more { SUM_LIMIT } else { more }
}

// The sums with the decreases among the amounts.
fn with_decreases(sums: &[i128; 4], amounts: &[(u8, i64)]) -> [i128; 4]
    ensures { result ≡ sums_with decrease amounts.now sums.now }
{
    [
        added(decrease(amount_at(1, amounts)), sums[0]),
        added(decrease(amount_at(2, amounts)), sums[1]),
        added(decrease(amount_at(3, amounts)), sums[2]),
        added(decrease(amount_at(4, amounts)), sums[3]),
    ]
}

// The sums with the increases among the amounts.
fn with_increases(sums: &[i128; 4], amounts: &[(u8, i64)]) -> [i128; 4]
    ensures { result ≡ sums_with increase amounts.now sums.now }
{
    [
        added(increase(amount_at(1, amounts)), sums[0]),
        added(increase(amount_at(2, amounts)), sums[1]),
        added(increase(amount_at(3, amounts)), sums[2]),
        added(increase(amount_at(4, amounts)), sums[3]),
    ]
}

// The amounts that an update adds.
fn amounts_in(update: &Update) -> &[(u8, i64)]
    ensures { result.now ≡ amounts_in update.now }
{
    match update {
        Update::Write(_, _) => &[],
        Update::Add(amounts) => amounts.as_slice(),
    }
}

/// The load with one more live update. Where it was that of some live choices, it is that of them
/// and of this one.
pub fn with_live(seen: &[TxId], load: &Load, tx: TxId, update: &Update) -> Load
    ensures value { result ≡ with_live seen.now load.now (tx, update.now) }
    ensures bounded { IsBoundedLoad load.now → IsBoundedLoad result }
    ensures more { (live : TxMap Live) → load.now ≡ capped (load_of live seen.now)
        → result ≡ capped (load_of (live ++ (tx, update.now) ∷ []) seen.now) }
{
    let amounts = amounts_in(update);
    Load {
        writes: counted(is_write(update), load.writes),
        unseen: counted(!has_tx(seen, &tx), load.unseen),
        count: counted(!is_write(update), load.count),
        down: with_decreases(&load.down, amounts),
        up: with_increases(&load.up, amounts),
    }
}
