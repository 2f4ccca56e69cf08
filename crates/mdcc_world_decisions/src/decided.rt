//! How the votes end transactions.
ghost use Rattle.std.specs.Prelude.{◌≡◌, Some};
ghost use Rattle.mdcc_world_decisions.specs.Decided.{decided_cast, newly_decided, instances_at};
ghost use Rattle.mdcc_def_protocol.specs.Marks.{is_reject_found};

use crate::ballots::{BallotsByKey, ballots_at};
use crate::casts::Cast;
use crate::chosen::chosen_cast;
use indexmap::IndexMap;
use mdcc_base::{HeapList, Key, Quorums, TxId};
use mdcc_option::Mark;

/// The instances of the choices of each transaction that was begun.
pub(crate) type InstancesByTx = IndexMap<TxId, HeapList<(Key, u64)>>;

/// The instances of a transaction.
pub(crate) fn instances_at<'a>(begun: &'a InstancesByTx, tx: &TxId) -> &'a [(Key, u64)]
    ensures { result.now ≡ instances_at begun.now tx.now }
{
    match begun.get(tx) {
        Some(instances) => instances.as_slice(),
        None => &[],
    }
}

// Whether the mark rejects.
fn is_reject(mark: &Mark) -> bool
    ensures { result ≡ is_reject_found (Some mark.now) }
{
    matches!(mark, Mark::Reject)
}

/// How the votes end a transaction with these instances: true is commit.
pub(crate) fn decided_cast(
    quorums: &Quorums,
    ballots: &BallotsByKey,
    casts: &[Cast],
    instances: &[(Key, u64)],
) -> Option<bool>
    ensures { result ≡ decided_cast quorums.now ballots.now casts.now instances.now }
{
    if instances.is_empty() {
        return None;
    }
    let mut is_open = false;
    for instance in instances {
        let ballots = ballots_at(ballots, &instance.0, instance.1);
        match chosen_cast(quorums, casts, &instance.0, instance.1, ballots) {
            Some(mark) if is_reject(mark) => return Some(false),
            Some(_) => {}
            None => is_open = true,
        }
    }
    if is_open { None } else { Some(true) }
}

/// An ending that is there now and was not before.
pub(crate) fn newly_decided(
    tx: TxId,
    now: Option<bool>,
    before: Option<bool>,
) -> Option<(TxId, bool)>
    ensures { result ≡ newly_decided tx now before }
{
    match (now, before) {
        (Some(is_commit), None) => Some((tx, is_commit)),
        _ => None,
    }
}
