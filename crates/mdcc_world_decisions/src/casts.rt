//! The votes that were cast, by transaction.
ghost use Rattle.std.specs.Prelude.{◌≡◌, ◌++◌, ◌∷◌, [], OnOk, IfOk};
ghost use Rattle.std.specs.Option.{option_copied};
ghost use Rattle.mdcc_base.specs.declared.identifiers.TxId.{TxId as ATxId};
ghost use Rattle.mdcc_world_decisions.specs.Casts.{cast_on, casts_among, casts_at, mark_cast};

use indexmap::IndexMap;
use mdcc_base::{Ballot, HeapList, Key, Memory, Plain, TxId};
use mdcc_option::Mark;
use mdcc_struct::Options;
use std::alloc::Global;

/// A vote of a centre on a transaction, in an instance at a ballot.
#[derive(Drop)]
pub struct Cast {
    pub centre: u8,
    pub key: Key,
    pub version: u64,
    pub ballot: Ballot,
    pub mark: Mark,
}

/// The votes on each transaction, in the order in which they were cast.
pub(crate) type CastsByTx = IndexMap<TxId, HeapList<Cast>>;

/// The votes on a transaction.
pub(crate) fn casts_at<'a>(casts: &'a CastsByTx, tx: &TxId) -> &'a [Cast]
    ensures { result.now ≡ casts_at casts.now tx.now }
{
    match casts.get(tx) {
        Some(casts) => casts.as_slice(),
        None => &[],
    }
}

// A list of one vote.
fn list_of(alloc: Global, cast: Cast) -> Result<HeapList<Cast>, Memory>
    ensures { IfOk result (λ casts. casts ≡ cast ∷ []) }
{
    let mut casts = HeapList::new(alloc);
    casts.push(cast)?;
    Ok(casts)
}

/// Keeps a vote behind the others on its transaction.
pub(crate) fn keep_cast(
    alloc: Global,
    casts: &mut CastsByTx,
    tx: &TxId,
    cast: Cast,
) -> Result<(), Memory>
    ensures { (other : ATxId) → OnOk result (casts_at casts.new other
        ≡ casts_at casts.old other ++ cast_on tx.now other cast) }
{
    match casts.get_mut(tx) {
        Some(list) => list.push(cast)?,
        None => {
            let list = list_of(alloc, cast)?;
            casts.insert(*tx, list)?;
        }
    }
    Ok(())
}

/// Keeps the votes of a centre on some marks in an instance at a ballot.
pub(crate) fn keep_casts(
    alloc: Global,
    casts: &mut CastsByTx,
    centre: u8,
    key: &Key,
    version: u64,
    ballot: &Ballot,
    options: &Options,
) -> Result<(), Memory>
    ensures { (tx : ATxId) → OnOk result (casts_at casts.new tx
        ≡ casts_at casts.old tx ++ casts_among centre key.now version ballot.now options.now tx) }
{
    for i in 0..options.len() {
        let (tx, mark) = options.at(i);
        let cast = Cast {
            centre,
            key: *key,
            version,
            ballot: *ballot,
            mark: mark.copy(),
        };
        keep_cast(alloc, casts, &tx, cast)?;
    }
    Ok(())
}

/// The mark that a centre gave in an instance at a ballot: its first vote there counts.
pub(crate) fn mark_cast<'a>(
    casts: &'a [Cast],
    key: &Key,
    version: u64,
    ballot: &Ballot,
    centre: u8,
) -> Option<&'a Mark>
    ensures { option_copied result ≡ mark_cast casts.now key.now version ballot.now centre }
{
    for cast in casts {
        if cast.centre == centre
            && (cast.version == version && cast.ballot.is(ballot) && cast.key.is(key))
        {
            return Some(&cast.mark);
        }
    }
    None
}
