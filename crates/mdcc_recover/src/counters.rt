//! The tick counters of transactions that are not resolved.
ghost use Rattle.std.specs.Prelude.{◌≡◌, OnOk, fold, if◌then◌else◌, true, ℕ};
ghost use Rattle.std.specs.List.{list_all};
ghost use Rattle.mdcc_base.specs.TxId.{tx_eq};
ghost use Rattle.mdcc_base.specs.declared.identifiers.TxId.{TxId as ATxId};
ghost use Rattle.mdcc_def_protocol.specs.Recover.{counted_tick};
ghost use Rattle.mdcc_def_protocol.specs.Volatile.{next_count};
ghost use Rattle.mdcc_recover.specs.Counters.{AreCounters, counter_in, is_kept};
ghost use Rattle.mdcc_struct.specs.Maps.{TxMap};

use indexmap::IndexMap;
use mdcc_base::{Memory, TxId};
use mdcc_option::WriteSet;

/// How many ticks each transaction has seen.
pub(crate) type Counters = IndexMap<TxId, u64>;

/// A count that rises by one, and stands still at its type's end.
pub(crate) fn next_count(count: u64) -> u64
    ensures { result ≡ next_count count }
{
    count.saturating_add(1)
}

/// The counter of a transaction, 0 where none is kept.
pub(crate) fn counter_in(counters: &Counters, tx: &TxId) -> u64
    ensures { result ≡ counter_in counters.now tx.now }
{
    match counters.get(tx) {
        Some(count) => *count,
        None => 0,
    }
}

// Keeps a counter of a transaction, 0 where there was none.
fn keep_counter(counters: &mut Counters, tx: &TxId) -> Result<(), Memory>
    ensures same { (other : ATxId) → counter_in counters.new other ≡ counter_in counters.old other }
    ensures kept { OnOk result (is_kept counters.new tx.now ≡ true) }
    ensures others { (other : ATxId) → is_kept counters.old other ≡ true → is_kept counters.new other ≡ true }
{
    if counters.get(tx).is_none() {
        counters.insert(*tx, 0)?;
    }
    Ok(())
}

/// Keeps a counter of each transaction, 0 where there was none.
pub(crate) fn keep_counters(counters: &mut Counters, txs: &[(TxId, WriteSet)]) -> Result<(), Memory>
    ensures same { (tx : ATxId) → counter_in counters.new tx ≡ counter_in counters.old tx }
    ensures kept { OnOk result (list_all (λ e. is_kept counters.new e.0) txs.now ≡ true) }
{
    for entry in txs {
        keep_counter(counters, &entry.0)?;
    }
    Ok(())
}

// Counts a tick of a transaction.
fn count(counters: &mut Counters, tx: &TxId)
    requires { is_kept counters.old tx.now ≡ true }
    ensures counted { (other : ATxId)
        → counter_in counters.new other
        ≡ (if tx_eq tx.now other then next_count (counter_in counters.old tx.now) else counter_in counters.old other) }
    ensures kept { (other : ATxId) → is_kept counters.old other ≡ true → is_kept counters.new other ≡ true }
{
    let count = next_count(counter_in(counters, tx));
    let _was = counters.insert(*tx, count);
}

/// Counts a tick of each transaction.
pub(crate) fn count_tick(counters: &mut Counters, txs: &[(TxId, WriteSet)])
    requires { list_all (λ e. is_kept counters.old e.0) txs.now ≡ true }
    ensures { (m : TxMap ℕ) → AreCounters counters.old m → AreCounters counters.new (fold counted_tick m txs.now) }
{
    for entry in txs {
        count(counters, &entry.0);
    }
}

/// Lets the counter of a transaction go.
pub(crate) fn forget(counters: &mut Counters, tx: &TxId)
    ensures { (other : ATxId)
        → counter_in counters.new other ≡ (if tx_eq tx.now other then 0 else counter_in counters.old other) }
{
    let _count = counters.swap_remove(tx);
}
