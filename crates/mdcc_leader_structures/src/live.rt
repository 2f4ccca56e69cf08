//! What is live beside a structure at a leader: its accepted marks, and the executed deltas.
ghost use Rattle.std.specs.Prelude.{◌≡◌, ◌∷◌, List, [], fold, is_some};
ghost use Rattle.mdcc_def_messages.specs.declared.facts.Fact.{Fact as AFact};
ghost use Rattle.mdcc_def_protocol.specs.Facts.{current_of, executed_of, is_void};
ghost use Rattle.mdcc_def_protocol.specs.Fit.{capped, load_of};
ghost use Rattle.mdcc_def_protocol.specs.Structures.{live_at_leader};
ghost use Rattle.mdcc_struct.specs.Maps.{txs_of, value_of};
ghost use Rattle.mdcc_escrow.specs.Sums.{IsBoundedLoad};
ghost use Rattle.mdcc_escrow.specs.Weights.{with_live};
ghost use Rattle.mdcc_leader_structures.specs.Live.{IsWeighed, has_accept, live_marks, with_delta, with_update};

use mdcc_base::{BoundedList, Key, TxId};
use mdcc_escrow::{Load, NO_LOAD, with_live};
use mdcc_facts::FactStore;
use mdcc_option::{Mark, Update};
use mdcc_struct::Options;

/// Whether a transaction was heard aborted, or what was heard of it is idle: it is finished, and no
/// outcome of it is kept.
#[tactic(auto, using(crate::proofs::Void::void_ended, crate::proofs::Void::void_finished))]
pub(crate) fn is_void<S: FactStore>(store: &S, tx: TxId) -> bool
    ensures { (facts : List AFact) → S.stands store.now facts → result ≡ is_void facts tx }
{
    match store.ended(tx) {
        Some(commits) => !commits,
        None => store.finished(tx),
    }
}

// Whether a structure accepts a choice of the transaction.
fn has_accept(options: &Options, tx: TxId) -> bool
    ensures { result ≡ has_accept options.now tx }
{
    matches!(options.mark_of(tx), Some(Mark::Accept(_)))
}

/// Whether a delta of the transaction is executed.
pub(crate) fn has_delta<S: FactStore>(store: &S, key: &Key, tx: TxId) -> bool
    ensures { (facts : List AFact) → S.stands store.now facts → result ≡ is_some (value_of (executed_of facts key.now) tx) }
{
    store.delta(key, tx).is_some()
}

/// The load with one more update, where its transaction is not void.
pub(crate) fn with_update<S: FactStore>(store: &S, load: Load, tx: TxId, update: &Update) -> Load
    requires { IsBoundedLoad load }
    ensures value { (facts : List AFact) → S.stands store.now facts → result ≡ with_update facts load tx update.now }
    ensures bounded { IsBoundedLoad result }
{
    if is_void(store, tx) {
        load
    } else {
        with_live(&[], &load, tx, update)
    }
}

// The load with the choice of one mark, where it accepts one.
fn with_mark<S: FactStore>(store: &S, load: Load, tx: TxId, mark: &Mark) -> Load
    requires { IsBoundedLoad load }
    ensures value { (facts : List AFact) → S.stands store.now facts → result ≡ fold (with_live []) load (live_marks facts ((tx, mark.now) ∷ [])) }
    ensures bounded { IsBoundedLoad result }
{
    match mark {
        Mark::Accept(choice) => with_update(store, load, tx, &choice.update),
        Mark::Reject => load,
    }
}

// What the accepted choices among marks weigh, without the void ones.
fn load_of_marks<S: FactStore>(store: &S, marks: &Options) -> Load
    ensures value { (facts : List AFact) → S.stands store.now facts → result ≡ capped (load_of (live_marks facts marks.now) []) }
    ensures bounded { IsBoundedLoad result }
{
    let mut load = NO_LOAD;
    for place in 0..marks.len() {
        let (tx, mark) = marks.at(place);
        load = with_mark(store, load, tx, mark);
    }
    load
}

// The load with the executed delta of a transaction, which counts where the structure has no choice
// of it.
fn with_delta<S: FactStore>(store: &S, key: &Key, options: &Options, load: Load, tx: TxId) -> Load
    requires { IsBoundedLoad load }
    ensures value { (facts : List AFact) → S.stands store.now facts → result ≡ with_delta facts key.now options.now load tx }
    ensures bounded { IsBoundedLoad result }
{
    if has_accept(options, tx) {
        return load;
    }
    match store.delta(key, tx) {
        Some(delta) => with_update(store, load, tx, &Update::Add(delta.amounts)),
        None => load,
    }
}

// The load with all executed deltas that count.
fn with_deltas<S: FactStore>(store: &S, key: &Key, options: &Options, load: Load) -> Load
    requires { IsBoundedLoad load }
    ensures value { (facts : List AFact) → S.stands store.now facts
        → result ≡ fold (with_delta facts key.now options.now) load (txs_of (executed_of facts key.now)) }
    ensures bounded { IsBoundedLoad result }
{
    let executed = store.executed(key);
    let mut load = load;
    for tx in executed.as_slice() {
        load = with_delta(store, key, options, load, *tx);
    }
    load
}

/// What all that is live beside a structure weighs, at the version that is held.
pub(crate) fn load_at_leader<S: FactStore>(store: &S, key: &Key, options: &Options) -> Load
    ensures value { (facts : List AFact) → S.stands store.now facts → IsWeighed facts key.now options.now result }
    ensures bounded { IsBoundedLoad result }
{
    let _marks = options.len();
    with_deltas(store, key, options, load_of_marks(store, options))
}

/// Whether a choice of the transaction is live beside a structure, at the version that is held.
pub(crate) fn is_live<S: FactStore>(store: &S, key: &Key, options: &Options, tx: TxId) -> bool
    ensures { (facts : List AFact) → S.stands store.now facts
        → result ≡ is_some (value_of (live_at_leader facts key.now (current_of facts key.now) options.now) tx) }
{
    let _marks = options.len();
    if is_void(store, tx) {
        return false;
    }
    has_accept(options, tx) || has_delta(store, key, tx)
}
