//! The ballots at which each instance was voted.
ghost use Rattle.std.specs.Prelude.{◌≡◌, ◌∷◌, [], ℕ, OnOk, IfOk};
ghost use Rattle.std.specs.List.{list_any};
ghost use Rattle.mdcc_base.specs.Ballot.{ballot_eq};
ghost use Rattle.mdcc_base.specs.declared.key.Key.{Key as AKey};
ghost use Rattle.mdcc_world_decisions.specs.Ballots.{ballots_at, ballots_in, ballots_with, pushed_new, voted_with};

use indexmap::IndexMap;
use mdcc_base::{Ballot, HeapList, Key, Memory};
use std::alloc::Global;

// The ballots of each version of a key, in the order in which they came.
type BallotsByVersion = IndexMap<u64, HeapList<Ballot>>;

/// The ballots of each instance, in the order in which they came.
pub(crate) type BallotsByKey = IndexMap<Key, BallotsByVersion>;

// The ballots of a version.
fn ballots_in(versions: &BallotsByVersion, version: u64) -> &[Ballot]
    ensures { result.now ≡ ballots_in versions.now version }
{
    match versions.get(&version) {
        Some(ballots) => ballots.as_slice(),
        None => &[],
    }
}

/// The ballots of an instance.
pub(crate) fn ballots_at<'a>(keys: &'a BallotsByKey, key: &Key, version: u64) -> &'a [Ballot]
    ensures { result.now ≡ ballots_at keys.now key.now version }
{
    match keys.get(key) {
        Some(versions) => ballots_in(versions, version),
        None => &[],
    }
}

// Whether the ballot is among these.
fn is_among(ballots: &[Ballot], ballot: &Ballot) -> bool
    ensures { result ≡ list_any (ballot_eq ballot.now) ballots.now }
{
    ballots.iter().any(|other| ballot.is(other))
}

// Puts a ballot behind the others, unless it is among them.
fn push_new(ballots: &mut HeapList<Ballot>, ballot: &Ballot) -> Result<(), Memory>
    ensures { OnOk result (ballots.new ≡ pushed_new ballots.old ballot.now) }
{
    if !is_among(ballots.as_slice(), ballot) {
        ballots.push(*ballot)?;
    }
    Ok(())
}

// A list of one ballot.
fn list_of(alloc: Global, ballot: &Ballot) -> Result<HeapList<Ballot>, Memory>
    ensures { IfOk result (λ ballots. ballots ≡ ballot.now ∷ []) }
{
    let mut ballots = HeapList::new(alloc);
    ballots.push(*ballot)?;
    Ok(ballots)
}

// Keeps the ballot at which a version was voted.
fn keep_in(
    alloc: Global,
    versions: &mut BallotsByVersion,
    version: u64,
    ballot: &Ballot,
) -> Result<(), Memory>
    ensures { (other : ℕ) → OnOk result (ballots_in versions.new other
        ≡ ballots_with version ballot.now other (ballots_in versions.old other)) }
{
    match versions.get_mut(&version) {
        Some(ballots) => push_new(ballots, ballot)?,
        None => {
            let ballots = list_of(alloc, ballot)?;
            versions.insert(version, ballots)?;
        }
    }
    Ok(())
}

// The versions of a key of which one was voted.
fn versions_of(alloc: Global, version: u64, ballot: &Ballot) -> Result<BallotsByVersion, Memory>
    ensures { (other : ℕ)
        → IfOk result (λ versions. ballots_in versions other ≡ ballots_with version ballot.now other []) }
{
    let mut versions = IndexMap::new(alloc);
    keep_in(alloc, &mut versions, version, ballot)?;
    Ok(versions)
}

/// Keeps the ballot at which an instance was voted.
pub(crate) fn keep_ballot(
    alloc: Global,
    keys: &mut BallotsByKey,
    key: &Key,
    version: u64,
    ballot: &Ballot,
) -> Result<(), Memory>
    ensures { (other : AKey) (at : ℕ) → OnOk result (ballots_at keys.new other at
        ≡ voted_with key.now version ballot.now other at (ballots_at keys.old other at)) }
{
    match keys.get_mut(key) {
        Some(versions) => keep_in(alloc, versions, version, ballot)?,
        None => {
            let versions = versions_of(alloc, version, ballot)?;
            keys.insert(*key, versions)?;
        }
    }
    Ok(())
}
