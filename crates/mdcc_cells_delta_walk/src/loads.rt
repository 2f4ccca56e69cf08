//! What the live updates of an instance weigh.
ghost use Rattle.std.specs.List.{list_any};
ghost use Rattle.std.specs.Prelude.{◌≡◌, ◌&&◌, Bool, IfSome, List, drop, not};
ghost use Rattle.mdcc_base.specs.declared.identifiers.TxId.{TxId as ATxId};
ghost use Rattle.mdcc_escrow.specs.Weights.{no_load};
ghost use Rattle.mdcc_theorem_fact_folds.specs.Live.{load_steps};
ghost use Rattle.mdcc_def_messages.specs.declared.facts.Fact.{Fact as AFact};
ghost use Rattle.mdcc_cells_delta_walk.specs.Chains.{AreOf};
ghost use Rattle.mdcc_cells_delta_walk.specs.Entries.{left_in};
ghost use Rattle.mdcc_def_protocol.specs.Fit.{has_tx};
ghost use Rattle.mdcc_struct.specs.Maps.{txs_of};
ghost use Rattle.mdcc_cells_delta_walk.specs.LiveWalks.{left_live, live_in, load_among};
ghost use Rattle.mdcc_cells_delta_walk.specs.Loads.{counts, load_over, no_item, with_added, with_entries};
ghost use Rattle.mdcc_cells_delta_walk.specs.Steps.{has_live};

use crate::InstanceWalk;
use crate::entries::{Entries, read_live};
use crate::live_walk::{LiveWalk, live_txs, live_walk};
use crate::steps::{has_live, has_tx};
use mdcc_base::{BoundedList, Key, TxId};
use mdcc_def_protocol::Load;
use mdcc_escrow::{NO_LOAD, with_live};
use mdcc_option::{Amounts, Item, Update};

/// What knows which transactions are void.
pub trait VoidTest {
    ghost void: { Self → ATxId → Bool };

    /// Whether a transaction is void.
    fn is_void(&self, tx: TxId) -> bool
        ensures { result ≡ void self.now tx };
}

fn no_item() -> Item
    ensures { result ≡ no_item }
{
    Item {
        body: BoundedList::new(),
        values: BoundedList::new(),
    }
}

// The load with one more entry.
fn with_added(seen: &[TxId], load: &Load, tx: TxId, added: Option<Amounts>) -> Load
    ensures { result ≡ with_added seen.now load.now (tx, added) }
{
    match added {
        Some(amounts) => with_live(seen, load, tx, &Update::Add(amounts)),
        None => with_live(
            seen,
            load,
            tx,
            &Update::Write(no_item(), BoundedList::new()),
        ),
    }
}

// Whether one of these facts makes the transaction live.
fn is_live_in<'a>(walk: InstanceWalk<'a>, instance: &(Key, u64), tx: &TxId) -> bool
    ensures { result ≡ list_any (has_live instance.now.0 instance.now.1 tx.now) walk.entry }
{
    let mut walk = walk;
    while let Some(cursor) = walk.read() {
        if has_live(cursor, &instance.0, instance.1, tx) {
            return true;
        }
    }
    false
}

// Whether a transaction counts, where these are the older facts.
fn counts<V: VoidTest>(older: &InstanceWalk<'_>, instance: &(Key, u64), void: &V, tx: TxId) -> bool
    ensures { result ≡ counts (V.void void.now) instance.now.0 instance.now.1 older.now tx }
{
    !void.is_void(tx) && !is_live_in(older.fork(), instance, &tx)
}

// The load with the entries of a fact that count.
fn with_entries<'a, V: VoidTest>(
    older: &InstanceWalk<'_>,
    instance: &(Key, u64),
    seen: &[TxId],
    void: &V,
    load: Load,
    entries: Entries<'a>,
) -> Load
    ensures { result ≡ with_entries seen.now (V.void void.now) instance.now.0 instance.now.1 older.now load (left_in entries.entry) }
{
    let mut load = load;
    let mut entries = entries;
    while let Some(tx) = entries.find() {
        if counts(older, instance, void, tx) {
            load = with_added(seen, &load, tx, entries.added());
        }
        entries.pass();
    }
    load
}

// What is live by the facts of a walk.
fn load_over<'a, V: VoidTest>(
    walk: InstanceWalk<'a>,
    instance: &(Key, u64),
    seen: &[TxId],
    void: &V,
) -> Load
    ensures { result ≡ load_over seen.now (V.void void.now) instance.now.0 instance.now.1 no_load walk.entry }
{
    let mut walk = walk;
    let mut load = NO_LOAD;
    while let Some(cursor) = walk.read() {
        let entries = read_live(cursor, &instance.0, instance.1);
        load = with_entries(&walk, instance, seen, void, load, entries);
    }
    load
}

// All transactions but the first.
fn after_first(txs: &[TxId]) -> &[TxId]
    ensures { result.now ≡ drop 1 txs.now }
{
    txs.split_at(txs.len().min(1)).1
}

// Whether a transaction counts, where these are those of later entries.
fn counts_before<V: VoidTest>(later: &[TxId], void: &V, tx: TxId) -> bool
    ensures { result ≡ (not (V.void void.now tx) && not (has_tx later.now tx)) }
{
    !void.is_void(tx) && !has_tx(later, &tx)
}

// What live entries weigh, whose transactions are known.
fn load_among<'a, V: VoidTest>(live: LiveWalk<'a>, txs: &[TxId], seen: &[TxId], void: &V) -> Load
    requires { txs.now ≡ txs_of (left_live live) }
    ensures { result ≡ load_among seen.now (V.void void.now) no_load (left_live live.entry) }
{
    let mut live = live;
    let mut load = NO_LOAD;
    let mut later = txs;
    while let Some(tx) = live.find() {
        later = after_first(later);
        if counts_before(later, void, tx) {
            load = with_added(seen, &load, tx, live.added());
        }
        live.pass();
    }
    load
}

// What live entries weigh, where their transactions are few.
fn load_of_few<'a, V: VoidTest>(
    walk: &InstanceWalk<'a>,
    instance: &(Key, u64),
    seen: &[TxId],
    void: &V,
) -> Option<Load>
    ensures { IfSome result (λ load. load ≡ load_among seen.now (V.void void.now) no_load (live_in instance.now.0 instance.now.1 walk.now)) }
{
    let live = live_walk(walk.fork(), instance)?;
    let txs = live_txs(live)?;
    let live = live_walk(walk.fork(), instance)?;
    Some(load_among(live, txs.as_slice(), seen, void))
}

/// What the live updates of an instance weigh beside a seen set, where the walk comes by all its facts.
/// Where they have at most 256 live entries it walks over them twice, and else once more for each entry.
pub fn load<'a, V: VoidTest>(
    walk: InstanceWalk<'a>,
    instance: &(Key, u64),
    seen: &[TxId],
    void: &V,
) -> Load
    ensures { (facts : List AFact) → AreOf walk.entry facts → result ≡ load_steps seen.now (V.void void.now) instance.now.0 instance.now.1 no_load facts }
{
    match load_of_few(&walk, instance, seen, void) {
        Some(load) => load,
        None => load_over(walk, instance, seen, void),
    }
}
