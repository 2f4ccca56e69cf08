//! The first structure of a classic ballot.
ghost use Rattle.std.specs.Prelude.{◌≡◌, ◌≤◌, IfOk, List, None, Some, if◌then◌else◌, length};
ghost use Rattle.std.specs.List.{list_any};
ghost use Rattle.mdcc_def_messages.specs.declared.facts.Fact.{Fact as AFact};
ghost use Rattle.mdcc_def_protocol.specs.Structures.{first_structure, fit_together, is_add_accepted, is_enough};
ghost use Rattle.mdcc_struct.specs.Forced.{forced_of};

use crate::Claims;
use crate::live::load_at_leader;
use crate::marked::with_claims;
use crate::reported::all_claims;
use mdcc_base::{Key, Memory, TxId};
use mdcc_escrow::{are_within_room, parts_of};
use mdcc_facts::FactStore;
use mdcc_option::{Cluster, Mark, Update};
use mdcc_struct::{Options, Report, forced};
use std::alloc::Global;

/// The first structure of a ballot, once the reports are enough for it: the marks that they force,
/// and then the pending claims and the choices that they accept, in order of transaction.
pub fn first_structure<S: FactStore>(
    alloc: Global,
    store: &S,
    cluster: &Cluster,
    key: &Key,
    version: u64,
    pending: &Claims,
    reports: &[Report],
) -> Result<Option<Options>, Memory>
    requires { length reports.now ≤ cluster.now.quorums.centres }
    ensures { (facts : List AFact) → S.stands store.now facts → IfOk result (λ structure. structure
        ≡ (if is_enough cluster.now facts key.now version reports.now
        then Some (first_structure cluster.now facts key.now version pending.now reports.now) else None)) }
{
    if reports.len() < usize::from(cluster.quorums.classic()) {
        return Ok(None);
    }
    let mut options = forced(alloc, &cluster.quorums, reports)?;
    if !is_enough(store, cluster, key, version, reports, &options) {
        return Ok(None);
    }
    let claims = all_claims(alloc, pending, reports)?;
    with_claims(store, cluster, key, version, &mut options, &claims)?;
    Ok(Some(options))
}

// Whether promises are enough, of which these are the forced marks.
fn is_enough<S: FactStore>(
    store: &S,
    cluster: &Cluster,
    key: &Key,
    version: u64,
    reports: &[Report],
    marks: &Options,
) -> bool
    requires { marks.now ≡ forced_of cluster.now.quorums reports.now }
    ensures { (facts : List AFact) → S.stands store.now facts → result ≡ is_enough cluster.now facts key.now version reports.now }
{
    let count = reports.len();
    usize::from(parts_of(cluster.limit, &cluster.quorums)) <= count
        || (usize::from(cluster.quorums.classic()) <= count
            && fit_together(store, cluster, key, version, marks))
}

// Whether forced marks fit together: where no add is accepted among them, or where the leader holds
// that very version and what is live there with them is within the room.
fn fit_together<S: FactStore>(
    store: &S,
    cluster: &Cluster,
    key: &Key,
    version: u64,
    marks: &Options,
) -> bool
    ensures { (facts : List AFact) → S.stands store.now facts → result ≡ fit_together cluster.now facts key.now version marks.now }
{
    if !has_add(marks) {
        return true;
    }
    store.current(key) == version
        && are_within_room(
            cluster,
            store.base(key).as_ref(),
            &load_at_leader(store, key, marks),
        )
}

// Whether an add is accepted among marks.
fn has_add(marks: &Options) -> bool
    ensures { result ≡ list_any is_add_accepted marks.now }
{
    for place in 0..marks.len() {
        let (tx, mark) = marks.at(place);
        if is_add_accepted(tx, mark) {
            return true;
        }
    }
    false
}

// Whether a mark accepts an add.
fn is_add_accepted(tx: TxId, mark: &Mark) -> bool
    ensures { result ≡ is_add_accepted (tx, mark.now) }
{
    match mark {
        Mark::Accept(choice) => matches!(choice.update, Update::Add(_)),
        Mark::Reject => false,
    }
}
