//! What the marks of an instance at a ballot amount to.
ghost use Rattle.std.specs.Prelude.{◌≡◌, ◌+◌, ◌-◌, ◌^◌, is_some, min};
ghost use Rattle.mdcc_base.specs.Counts.{number_of};
ghost use Rattle.mdcc_struct.specs.Maps.{value_of};
ghost use Rattle.mdcc_def_protocol.specs.Stores.{is_above};
ghost use Rattle.mdcc_facts.specs.Walks.{each_kept, is_lower, is_next_tx, least_from, lower_passing};
ghost use Rattle.mdcc_cells_vote_walk.specs.Steps.{count_step, least_step};

use crate::tags::{Tags, tags_at};
use mdcc_base::{Ballot, Key, TxId};
use mdcc_cells_facts::{FactCells, FactStep};
use mdcc_struct::Options;

/// The least transaction so far above the last one that has a mark in an instance at a ballot.
#[derive(Drop)]
pub struct LeastAbove {
    pub key: Key,
    pub version: u64,
    pub ballot: Ballot,
    pub last: Option<TxId>,
    pub found: Option<TxId>,
}

/// How many marks so far in an instance at a ballot are of transactions of a structure. The count
/// stops at 2^64 - 1.
#[derive(Drop)]
pub struct WithCount<'a> {
    pub key: Key,
    pub version: u64,
    pub ballot: Ballot,
    pub options: &'a Options,
    pub count: usize,
}

// Whether it is above the last one; each is where there is no last one.
fn is_above(last: &Option<TxId>, tx: &TxId) -> bool
    ensures { result ≡ is_above last.now tx.now }
{
    match last {
        Some(last) => last.is_below(tx),
        None => true,
    }
}

// Whether it is below the one that was found; each is where none was.
fn is_lower(found: &Option<TxId>, tx: &TxId) -> bool
    ensures { result ≡ is_lower found.now tx.now }
{
    match found {
        Some(found) => tx.is_below(found),
        None => true,
    }
}

// The lower of two transactions, where the second is above the last one.
fn lower_next(found: Option<TxId>, tx: &TxId, last: &Option<TxId>) -> Option<TxId>
    ensures { result ≡ lower_passing (is_next_tx each_kept last.now) found tx.now }
{
    if is_above(last, tx) && is_lower(&found, tx) {
        Some(*tx)
    } else {
        found
    }
}

// The least of one transaction and those of marks that are above the last one.
fn least_from(tags: &mut Tags<'_>, last: &Option<TxId>, found: Option<TxId>) -> Option<TxId>
    ensures { result ≡ least_from (is_next_tx each_kept last.now) found tags.old }
{
    let mut least = found;
    while let Some((tx, _)) = tags.next() {
        least = lower_next(least, &tx, last);
    }
    least
}

// A count with the marks whose transactions a structure has.
fn with_common(tags: &mut Tags<'_>, options: &Options, count: usize) -> usize
    ensures { result ≡ min (count + number_of (λ tag. is_some (value_of options.now tag.0)) tags.old) (2 ^ 64 - 1) }
{
    let mut all = count;
    while let Some((tx, _)) = tags.next() {
        if options.mark_of(tx).is_some() {
            all = all.saturating_add(1);
        }
    }
    all
}

impl FactStep for LeastAbove {
    ghost step = { least_step };

    fn take(&mut self, cells: &FactCells, number: u32) {
        let mut tags = tags_at(cells, number, &self.key, self.version, &self.ballot);
        self.found = least_from(&mut tags, &self.last, self.found);
    }
}

impl<'a> FactStep for WithCount<'a> {
    ghost step = { count_step };

    fn take(&mut self, cells: &FactCells, number: u32) {
        let _most = self.options.len();
        let mut tags = tags_at(cells, number, &self.key, self.version, &self.ballot);
        self.count = with_common(&mut tags, self.options, self.count);
    }
}
