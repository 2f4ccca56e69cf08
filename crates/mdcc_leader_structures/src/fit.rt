//! How a choice fits beside what is live at a leader, and whether it is accepted.
ghost use Rattle.std.specs.Prelude.{◌≡◌, ◌&&◌, ◌==◌, IsTrue, List, length, nat_lt};
ghost use Rattle.mdcc_def_messages.specs.declared.facts.Fact.{Fact as AFact};
ghost use Rattle.mdcc_def_protocol.specs.Facts.{current_of};
ghost use Rattle.mdcc_def_protocol.specs.Fit.{has_tx, is_fitting};
ghost use Rattle.mdcc_def_protocol.specs.Marks.{accepts_in};
ghost use Rattle.mdcc_def_protocol.specs.Structures.{accept_room, fit_at_leader, is_accepted, live_at_leader};
ghost use Rattle.mdcc_struct.specs.Maps.{are_ascending};
ghost use Rattle.mdcc_escrow.specs.Sums.{IsBoundedLoad};
ghost use Rattle.mdcc_leader_structures.specs.Live.{IsWeighed, number_live};

use crate::live::is_live;
use mdcc_base::{BoundedList, Key, TxId};
use mdcc_escrow::{Fit, Load, accept_room, exact_fit};
use mdcc_facts::FactStore;
use mdcc_option::{Choice, Cluster, Update};
use mdcc_struct::Options;

// Whether the transaction is among these.
fn has_tx(txs: &[TxId], tx: &TxId) -> bool
    ensures { result ≡ has_tx txs.now tx.now }
{
    for other in txs {
        if tx.is(other) {
            return true;
        }
    }
    false
}

// How many of the transactions that a write saw are live beside a structure.
fn number_live<S: FactStore>(store: &S, key: &Key, options: &Options, seen: &[TxId]) -> usize
    ensures value { (facts : List AFact) → S.stands store.now facts
        → result ≡ number_live (live_at_leader facts key.now (current_of facts key.now) options.now) seen.now }
    ensures ascending { IsTrue (are_ascending options.now) }
{
    let _marks = options.len();
    let mut number = 0;
    for place in 0..seen.len() {
        let tx = seen[place];
        if !has_tx(&seen[place + 1..], &tx) && is_live(store, key, options, tx) {
            number += 1;
        }
    }
    number
}

// How a choice fits beside what is live, of which this is the load: a write where it has seen all of
// it, and an add by its room.
fn fit_at_leader<S: FactStore>(
    store: &S,
    cluster: &Cluster,
    key: &Key,
    options: &Options,
    load: &Load,
    choice: &Choice,
) -> Fit
    requires bounded { IsBoundedLoad load.now }
    requires weighed { (facts : List AFact) → S.stands store.now facts → IsWeighed facts key.now options.now load.now }
    ensures { (facts : List AFact) → S.stands store.now facts
        → result ≡ fit_at_leader cluster.now facts key.now (current_of facts key.now) options.now choice.now }
{
    match &choice.update {
        Update::Write(_, seen) => {
            if number_live(store, key, options, seen.as_slice()) < load.unseen as usize {
                Fit::Conflict
            } else {
                Fit::Fits
            }
        }
        Update::Add(_) => exact_fit(cluster, store.base(key).as_ref(), load, choice),
    }
}

// Whether a choice fits.
fn is_fitting(fit: Fit) -> bool
    ensures { result ≡ is_fitting fit }
{
    matches!(fit, Fit::Fits)
}

/// Whether a leader holds the very version, and a structure has room for the choice.
pub(crate) fn has_room<S: FactStore>(
    store: &S,
    key: &Key,
    version: u64,
    options: &Options,
    choice: &Choice,
) -> bool
    ensures { (facts : List AFact) → S.stands store.now facts
        → result ≡ (current_of facts key.now == version && nat_lt (length (accepts_in options.now)) (accept_room choice.now.update)) }
{
    store.current(key) == version && options.accepted() < accept_room(&choice.update) as usize
}

/// Whether a leader accepts a choice: it holds that very version, there is room, and the choice fits
/// exactly.
pub(crate) fn is_accepted<S: FactStore>(
    store: &S,
    cluster: &Cluster,
    key: &Key,
    version: u64,
    options: &Options,
    load: &Load,
    choice: &Choice,
) -> bool
    requires bounded { IsBoundedLoad load.now }
    requires weighed { (facts : List AFact) → S.stands store.now facts → IsWeighed facts key.now options.now load.now }
    ensures { (facts : List AFact) → S.stands store.now facts
        → result ≡ is_accepted cluster.now facts key.now version options.now choice.now }
{
    has_room(store, key, version, options, choice)
        && is_fitting(fit_at_leader(store, cluster, key, options, load, choice))
}
