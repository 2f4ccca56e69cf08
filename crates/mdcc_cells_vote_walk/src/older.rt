//! Votes on one transaction, and its choices.
ghost use Rattle.std.specs.Prelude.{◌≡◌, ◌<◌, [], get_or, length};
ghost use Rattle.std.specs.Option.{option_or};
ghost use Rattle.mdcc_cells_vote_walk.specs.Older.{choice_by_head, choice_in_bytes, is_below_found, mark_by, mark_in, vote_by, vote_in};
ghost use Rattle.mdcc_cells_vote_walk.specs.Steps.{choice_step, older_mark_step, vote_step};

use crate::heads::{Head, head_in};
use crate::marks::{choice_of, mark_of};
use mdcc_base::{Ballot, Key, TxId};
use mdcc_cells_facts::{FactCells, FactStep};
use mdcc_option::{Choice, Mark};

/// The vote on a transaction in an instance at the greatest ballot so far, of one ballot the older one.
#[derive(Drop)]
pub struct OlderVote {
    pub key: Key,
    pub version: u64,
    pub tx: TxId,
    pub found: Option<(Ballot, Mark)>,
}

/// The oldest mark so far of a transaction in an instance at a ballot.
#[derive(Drop)]
pub struct OlderMark {
    pub key: Key,
    pub version: u64,
    pub ballot: Ballot,
    pub tx: TxId,
    pub found: Option<Mark>,
}

/// The oldest choice so far of a transaction in an instance, accepted or offered.
#[derive(Drop)]
pub struct OlderChoice {
    pub key: Key,
    pub version: u64,
    pub tx: TxId,
    pub found: Option<Choice>,
}

// The mark of a transaction that the fact of a number votes in the instance at a ballot.
fn mark_in(
    cells: &FactCells,
    number: u32,
    key: &Key,
    version: u64,
    ballot: &Ballot,
    tx: &TxId,
) -> Option<Mark>
    requires { number < length cells.now.encodings }
    ensures { result ≡ mark_in key.now version ballot.now tx.now (get_or cells.now.encodings number []) }
{
    match head_in(&cells.start(number), key, version) {
        Some(head) => {
            if head.ballot.is(ballot) {
                mark_of(cells, number, &head, tx)
            } else {
                None
            }
        }
        None => None,
    }
}

// Whether a ballot is below that of a vote that was found.
fn is_below_found(found: &Option<(Ballot, Mark)>, ballot: &Ballot) -> bool
    ensures { result ≡ is_below_found found.now ballot.now }
{
    match found {
        Some((greater, _)) => ballot.is_below(greater),
        None => false,
    }
}

// The vote of the fact of a number on a transaction, where it counts before a later one.
fn vote_in(
    cells: &FactCells,
    number: u32,
    key: &Key,
    version: u64,
    tx: &TxId,
    later: &Option<(Ballot, Mark)>,
) -> Option<(Ballot, Mark)>
    requires { number < length cells.now.encodings }
    ensures { result ≡ vote_in key.now version tx.now later.now (get_or cells.now.encodings number []) }
{
    match head_in(&cells.start(number), key, version) {
        Some(head) => {
            if is_below_found(later, &head.ballot) {
                None
            } else {
                match mark_of(cells, number, &head, tx) {
                    Some(mark) => Some((head.ballot, mark)),
                    None => None,
                }
            }
        }
        None => None,
    }
}

// The choice of a transaction that the fact of a number has in the instance.
fn choice_in(cells: &FactCells, number: u32, key: &Key, version: u64, tx: &TxId) -> Option<Choice>
    requires { number < length cells.now.encodings }
    ensures { result ≡ choice_in_bytes key.now version tx.now (get_or cells.now.encodings number []) }
{
    match head_in(&cells.start(number), key, version) {
        Some(head) => choice_of(cells, number, &head, tx),
        None => None,
    }
}

// Keeps what is older, where there is something.
fn keep_older<T: Drop>(found: &mut Option<T>, older: Option<T>)
    ensures { found.new ≡ option_or older found.old }
{
    if older.is_some() {
        *found = older;
    }
}

impl FactStep for OlderVote {
    ghost step = { vote_step };

    fn take(&mut self, cells: &FactCells, number: u32) {
        let vote = vote_in(
            cells,
            number,
            &self.key,
            self.version,
            &self.tx,
            &self.found,
        );
        keep_older(&mut self.found, vote);
    }
}

impl FactStep for OlderMark {
    ghost step = { older_mark_step };

    fn take(&mut self, cells: &FactCells, number: u32) {
        let mark = mark_in(
            cells,
            number,
            &self.key,
            self.version,
            &self.ballot,
            &self.tx,
        );
        keep_older(&mut self.found, mark);
    }
}

impl FactStep for OlderChoice {
    ghost step = { choice_step };

    fn take(&mut self, cells: &FactCells, number: u32) {
        let choice = choice_in(cells, number, &self.key, self.version, &self.tx);
        keep_older(&mut self.found, choice);
    }
}
