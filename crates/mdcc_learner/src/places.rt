//! The votes on a transaction, by key.
ghost use Rattle.std.specs.Prelude.{◌≡◌, ◌++◌, ◌∷◌, [], if◌then◌else◌, OnOk, OnErr, IfOk};
ghost use Rattle.mdcc_base.specs.TxId.{tx_eq};
ghost use Rattle.mdcc_base.specs.declared.identifiers.TxId.{TxId as ATxId};
ghost use Rattle.mdcc_base.specs.declared.key.Key.{Key as AKey};
ghost use Rattle.mdcc_learner.specs.Places.{votes_in, votes_at, votes_with, counted_on};
ghost use Rattle.mdcc_def_protocol.specs.Learner.{votes_on};

use crate::counting::is_counted;
use indexmap::IndexMap;
use mdcc_base::{HeapList, Key, Memory, Plain, Quorums, TxId};
use mdcc_def_protocol::Vote;
use std::alloc::Global;
use std::slice;

// The votes on the keys of a transaction, in the order in which they were taken.
type VotesByKey = IndexMap<Key, HeapList<Vote>>;

/// The votes on each transaction, by key.
pub(crate) type VotesByTx = IndexMap<TxId, VotesByKey>;

// An equal vote.
fn copy_of(vote: &Vote) -> Vote
    ensures { result ≡ vote.now }
{
    Vote {
        from: vote.from,
        key: vote.key,
        version: vote.version,
        ballot: vote.ballot,
        tx: vote.tx,
        mark: vote.mark.copy(),
    }
}

// A list of one vote.
fn list_of(alloc: Global, vote: &Vote) -> Result<HeapList<Vote>, Memory>
    ensures { IfOk result (λ votes. votes ≡ vote.now ∷ []) }
{
    let mut votes = HeapList::new(alloc);
    votes.push(copy_of(vote))?;
    Ok(votes)
}

// The votes on a key.
fn votes_in<'a>(keys: &'a VotesByKey, key: &Key) -> &'a [Vote]
    ensures { result.now ≡ votes_in keys.now key.now }
{
    match keys.get(key) {
        Some(votes) => votes.as_slice(),
        None => &[],
    }
}

/// The votes on a transaction and a key.
pub(crate) fn votes_at<'a>(txs: &'a VotesByTx, tx: &TxId, key: &Key) -> &'a [Vote]
    ensures { result.now ≡ votes_at txs.now tx.now key.now }
{
    match txs.get(tx) {
        Some(keys) => votes_in(keys, key),
        None => &[],
    }
}

// Keeps a copy of a vote behind the others on its key.
fn keep_in(alloc: Global, keys: &mut VotesByKey, vote: &Vote) -> Result<(), Memory>
    ensures ok { (key : AKey)
        → OnOk result (votes_in keys.new key ≡ votes_in keys.old key ++ votes_with key (vote.now ∷ [])) }
    ensures err { (key : AKey) → OnErr result (votes_in keys.new key ≡ votes_in keys.old key) }
{
    match keys.get_mut(&vote.key) {
        Some(votes) => votes.push(copy_of(vote))?,
        None => {
            let votes = list_of(alloc, vote)?;
            keys.insert(vote.key, votes)?;
        }
    }
    Ok(())
}

// The votes on the keys of a transaction of which one was taken.
fn keys_of(alloc: Global, vote: &Vote) -> Result<VotesByKey, Memory>
    ensures { (key : AKey)
        → IfOk result (λ keys. votes_in keys key ≡ votes_with key (vote.now ∷ [])) }
{
    let mut keys = IndexMap::new(alloc);
    keep_in(alloc, &mut keys, vote)?;
    Ok(keys)
}

// Keeps a copy of a vote behind the others on its transaction and key.
fn keep_at(alloc: Global, txs: &mut VotesByTx, vote: &Vote) -> Result<(), Memory>
    ensures ok { (tx : ATxId) (key : AKey)
        → OnOk result (votes_at txs.new tx key ≡ votes_at txs.old tx key ++ votes_on (vote.now ∷ []) tx key) }
    ensures err { (tx : ATxId) (key : AKey)
        → OnErr result (votes_at txs.new tx key ≡ votes_at txs.old tx key) }
{
    match txs.get_mut(&vote.tx) {
        Some(keys) => keep_in(alloc, keys, vote)?,
        None => {
            let keys = keys_of(alloc, vote)?;
            txs.insert(vote.tx, keys)?;
        }
    }
    Ok(())
}

/// Keeps a copy of a vote, if it counts behind those that are kept.
pub(crate) fn keep_counted(
    alloc: Global,
    quorums: &Quorums,
    txs: &mut VotesByTx,
    vote: &Vote,
) -> Result<(), Memory>
    ensures ok { (tx : ATxId) (key : AKey)
        → OnOk result
        (votes_at txs.new tx key ≡ votes_at txs.old tx key ++ counted_on quorums.now txs.old vote.now tx key) }
    ensures err { (tx : ATxId) (key : AKey)
        → OnErr result (votes_at txs.new tx key ≡ votes_at txs.old tx key) }
{
    if !is_counted(quorums, votes_at(txs, &vote.tx, &vote.key), vote) {
        return Ok(());
    }
    keep_at(alloc, txs, vote)
}

/// The vote, if it is on this transaction and key and counts behind those that are kept.
pub(crate) fn counted_on<'a>(
    quorums: &Quorums,
    txs: &VotesByTx,
    vote: &'a Vote,
    tx: &TxId,
    key: &Key,
) -> &'a [Vote]
    ensures { result.now ≡ counted_on quorums.now txs.now vote.now tx.now key.now }
{
    if vote.tx.is(tx)
        && vote.key.is(key)
        && is_counted(quorums, votes_at(txs, &vote.tx, &vote.key), vote)
    {
        slice::from_ref(vote)
    } else {
        &[]
    }
}

/// Lets the votes on a transaction go.
pub(crate) fn forget(txs: &mut VotesByTx, tx: &TxId)
    ensures { (other : ATxId) (key : AKey)
        → votes_at txs.new other key ≡ (if tx_eq tx.now other then [] else votes_at txs.old other key) }
{
    let _votes = txs.swap_remove(tx);
}
