//! The ballots of votes.
ghost use Rattle.std.specs.Prelude.{◌≡◌, ◌<◌, [], get_or, length};
ghost use Rattle.mdcc_base.specs.Ballot.{ballot_max};
ghost use Rattle.mdcc_cells_vote_walk.specs.Ballots.{voted_in};
ghost use Rattle.mdcc_cells_vote_walk.specs.Steps.{ballot_step};

use crate::heads::head_in;
use mdcc_base::{Ballot, Key};
use mdcc_cells_facts::{FactCells, FactStep};

/// The greatest ballot so far below another one at which there is a vote in an instance.
#[derive(Drop)]
pub struct WithBallot {
    pub key: Key,
    pub version: u64,
    pub below: Ballot,
    pub ballot: Ballot,
}

// The greater of two ballots.
fn ballot_max(a: Ballot, b: Ballot) -> Ballot
    ensures { result ≡ ballot_max a b }
{
    if a.is_below(&b) { b } else { a }
}

// The ballot at which the fact of a number votes in the instance, where it is below another one.
fn voted_in(cells: &FactCells, number: u32, key: &Key, version: u64, below: &Ballot) -> Ballot
    requires { number < length cells.now.encodings }
    ensures { result ≡ voted_in key.now version below.now (get_or cells.now.encodings number []) }
{
    match head_in(&cells.start(number), key, version) {
        Some(head) => {
            if head.ballot.is_below(below) {
                head.ballot
            } else {
                Ballot::FAST
            }
        }
        None => Ballot::FAST,
    }
}

impl FactStep for WithBallot {
    ghost step = { ballot_step };

    fn take(&mut self, cells: &FactCells, number: u32) {
        let voted = voted_in(cells, number, &self.key, self.version, &self.below);
        self.ballot = ballot_max(voted, self.ballot);
    }
}
