//! The heads of votes, read in the cells.
ghost use Rattle.std.specs.Prelude.{◌≡◌, take};
ghost use Rattle.mdcc_cells_vote_walk.specs.Heads.{any_head, head_any, head_in, head_of, vote_at};

use crate::passing::next_bytes;
use mdcc_base::{Ballot, Key};
use mdcc_def_messages::WireFault;
use mdcc_parts::given::read_instance;
use mdcc_parts::numbers::{u8_within, u32_at};
use mdcc_parts::read_ballot;
use mdcc_pool::Cursor;

/// The longest head of a vote fits.
const WINDOW: usize = 64;

/// The ballot of a vote, how many marks it has, and the offset of the first one.
#[derive(Clone, Copy)]
pub(crate) struct Head {
    pub ballot: Ballot,
    pub count: u32,
    pub begin: usize,
}

// The key, the version and the ballot of a vote with the number of its marks, and where they begin.
fn vote_at(bytes: &[u8]) -> Result<((Key, u64, Ballot, u32), usize), WireFault>
    ensures { result ≡ vote_at bytes.now }
{
    let (_tag, after) = u8_within(0, 3, 3, bytes, 0)?;
    let ((key, version), after) = read_instance(bytes, after)?;
    let (ballot, after) = read_ballot(bytes, after)?;
    let (count, after) = u32_at(bytes, after)?;
    Ok(((key, version, ballot, count), after))
}

// The head of a vote that begins with these bytes, where it is in the instance.
fn head_of(key: &Key, version: u64, bytes: &[u8]) -> Option<Head>
    ensures { result ≡ head_of key.now version (vote_at bytes.now) }
{
    match vote_at(bytes) {
        Ok(((other, voted, ballot, count), begin)) => {
            if voted == version && other.is(key) {
                Some(Head {
                    ballot,
                    count,
                    begin,
                })
            } else {
                None
            }
        }
        Err(_) => None,
    }
}

/// The head of the fact that is next, where it is a vote in the instance.
pub(crate) fn head_in(cursor: &Cursor<'_>, key: &Key, version: u64) -> Option<Head>
    ensures { result ≡ head_in key.now version cursor.now }
{
    let mut window = [0u8; WINDOW];
    head_of(key, version, next_bytes(cursor, &mut window))
}

// The head of a vote that begins with these bytes.
fn any_head(bytes: &[u8]) -> Option<Head>
    ensures { result ≡ any_head (vote_at bytes.now) }
{
    match vote_at(bytes) {
        Ok(((_, _, ballot, count), begin)) => Some(Head {
            ballot,
            count,
            begin,
        }),
        Err(_) => None,
    }
}

/// The head of the fact that is next, where it is a vote.
pub(crate) fn head_any(cursor: &Cursor<'_>) -> Option<Head>
    ensures { result ≡ head_any cursor.now }
{
    let mut window = [0u8; WINDOW];
    any_head(next_bytes(cursor, &mut window))
}
