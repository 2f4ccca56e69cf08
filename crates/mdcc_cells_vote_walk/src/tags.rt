//! The transactions of the marks of a vote, and which of them are accepted.
ghost use Rattle.std.specs.Prelude.{◌≡◌, ◌<◌, ◌∷◌, [], IfSome, IsNone, get_or, length};
ghost use Rattle.mdcc_cells_vote_walk.specs.Tags.{tags_at};

use crate::heads::head_in;
use crate::marks::{first_tag, skip_to_next};
use mdcc_base::{Ballot, Key, TxId};
use mdcc_cells_facts::FactCells;
use mdcc_pool::Cursor;
use std::marker::Model;

/// The transactions of the marks of a vote, and which of them are accepted.
#[derive(Drop)]
pub(crate) struct Tags<'a> {
    cursor: Cursor<'a>,
    left: u32,
}

impl<'a> Model for Tags<'a> {
    ghost use Rattle.std.specs.Prelude.{Bool};
    ghost use Rattle.mdcc_struct.specs.Maps.{TxMap};
    ghost use Rattle.mdcc_cells_vote_walk.specs.Marks.{tags_in};

    ghost Value = { TxMap Bool };

    ghost view = { λ t. tags_in t.left t.cursor };
}

impl<'a> Tags<'a> {
    /// The next one.

    pub(crate) fn next(&mut self) -> Option<(TxId, bool)>
        ensures some { IfSome result (λ tag. self.old ≡ tag ∷ self.new) }
        ensures none { IsNone result → self.old ≡ [] }
    {
        if self.left == 0 {
            return None;
        }
        match first_tag(&self.cursor) {
            Some(tag) => {
                self.left -= 1;
                skip_to_next(&mut self.cursor, self.left);
                Some(tag)
            }
            None => None,
        }
    }
}

/// The tags of the marks that the fact of a number votes in an instance at a ballot.
pub(crate) fn tags_at<'a>(
    cells: &'a FactCells,
    number: u32,
    key: &Key,
    version: u64,
    ballot: &Ballot,
) -> Tags<'a>
    requires { number < length cells.now.encodings }
    ensures { result ≡ tags_at key.now version ballot.now (get_or cells.now.encodings number []) }
{
    let mut cursor = cells.start(number);
    match head_in(&cursor, key, version) {
        Some(head) => {
            let left = if head.ballot.is(ballot) {
                head.count
            } else {
                0
            };
            cursor.skip(head.begin);
            Tags { cursor, left }
        }
        None => Tags { cursor, left: 0 },
    }
}
