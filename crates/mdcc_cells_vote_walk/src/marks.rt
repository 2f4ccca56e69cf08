//! The marks of a vote, read in the cells.
ghost use Rattle.std.specs.Prelude.{◌≡◌, ◌<◌, ◌∷◌, [], Some, None, drop, get_or, if◌then◌else◌, length, take};
ghost use Rattle.std.specs.Option.{option_map};
ghost use Rattle.mdcc_base.specs.TxId.{tx_eq};
ghost use Rattle.mdcc_base.specs.declared.identifiers.TxId.{TxId as ATxId};
ghost use Rattle.mdcc_def_messages.specs.ReadingParts.{choice_at};
ghost use Rattle.mdcc_cells_vote_walk.specs.Gathered.{marks_read};
ghost use Rattle.mdcc_cells_vote_walk.specs.Marks.{accepted_of, choice_of, choice_read, first_choice, first_mark, first_tag, found_in, is_offered, mark_of, offered_of, offered_to, tag_at, tagged, tags_in};
ghost use Rattle.mdcc_cells_vote_walk.specs.Passing.{after_mark};

use crate::heads::Head;
use crate::passing::{first_byte, next_bytes, skip_mark, skip_marks};
use mdcc_base::TxId;
use mdcc_cells_facts::FactCells;
use mdcc_def_messages::WireFault;
use mdcc_option::{Choice, Mark};
use mdcc_parts::numbers::u8_within;
use mdcc_parts::{read_choice, read_tx};
use mdcc_pool::Cursor;

/// A tag and the longest choice fit.
const LONGEST: usize = 1120;

// The transaction of a mark, and its tag.
fn tag_at(bytes: &[u8]) -> Result<((TxId, u8), usize), WireFault>
    ensures { result ≡ tag_at bytes.now }
{
    let (tag, after) = u8_within(0, 0, 1, bytes, 0)?;
    let (tx, after) = read_tx(bytes, after)?;
    Ok(((tx, tag), after))
}

// The transaction of a mark, and whether it is accepted.
fn tagged(bytes: &[u8]) -> Option<(TxId, bool)>
    ensures { result ≡ tagged (tag_at bytes.now) }
{
    match tag_at(bytes) {
        Ok(((tx, tag), _)) => Some((tx, tag == 1)),
        Err(_) => None,
    }
}

/// The transaction of the first mark, and whether it is accepted.
pub(crate) fn first_tag(cursor: &Cursor<'_>) -> Option<(TxId, bool)>
    ensures { result ≡ first_tag cursor.now }
{
    let mut window = [0u8; 10];
    tagged(next_bytes(cursor, &mut window))
}

/// Passes a mark, where others are left after it.
pub(crate) fn skip_to_next(cursor: &mut Cursor<'_>, left: u32)
    ensures tags { tags_in left cursor.new ≡ tags_in left (after_mark cursor.old) }
    ensures marks { marks_read left cursor.new ≡ marks_read left (after_mark cursor.old) }
    ensures found { (tx : ATxId) → found_in tx left cursor.new ≡ found_in tx left (after_mark cursor.old) }
{
    if left > 0 {
        skip_mark(cursor);
    }
}

// Whether the first mark is of the transaction; none where no mark can be read.
fn is_first(cursor: &Cursor<'_>, tx: &TxId) -> Option<bool>
    ensures { result ≡ option_map (λ tag. tx_eq tag.0 tx.now) (first_tag cursor.now) }
{
    match first_tag(cursor) {
        Some((other, _)) => Some(other.is(tx)),
        None => None,
    }
}

// Passes the marks before that of the transaction, and says whether it is there.
#[tactic(auto, using(crate::proofs::Tagged::found_first, crate::proofs::Tagged::found_later, crate::proofs::Tagged::found_none))]
fn seek(cursor: &mut Cursor<'_>, count: u32, tx: &TxId) -> bool
    ensures { found_in tx.now count cursor.old ≡ (if result then Some cursor.new else None) }
{
    let mut left = count;
    while left > 0 {
        match is_first(cursor, tx) {
            Some(true) => return true,
            Some(false) => {}
            None => return false,
        }
        left -= 1;
        skip_to_next(cursor, left);
    }
    false
}

// The choice that comes after a tag.
fn choice_read(bytes: &[u8]) -> Option<Choice>
    ensures { result ≡ choice_read (choice_at bytes.now 1) }
{
    match read_choice(bytes, 1) {
        Ok((choice, _)) => Some(choice),
        Err(_) => None,
    }
}

// The choice that comes after the tag that is next.
fn first_choice(cursor: &Cursor<'_>) -> Option<Choice>
    ensures { result ≡ first_choice cursor.now }
{
    let mut window = [0u8; LONGEST];
    choice_read(next_bytes(cursor, &mut window))
}

/// The mark that is next.
pub(crate) fn first_mark(cursor: &Cursor<'_>) -> Option<Mark>
    ensures { result ≡ first_mark cursor.now }
{
    if first_byte(cursor) == 1 {
        match first_choice(cursor) {
            Some(choice) => Some(Mark::Accept(choice)),
            None => None,
        }
    } else {
        Some(Mark::Reject)
    }
}

/// The mark of a transaction in the fact of a number, which is a vote with this head.
pub(crate) fn mark_of(cells: &FactCells, number: u32, head: &Head, tx: &TxId) -> Option<Mark>
    requires { number < length cells.now.encodings }
    ensures { result ≡ mark_of tx.now head.now (get_or cells.now.encodings number []) }
{
    let mut cursor = cells.start(number);
    cursor.skip(head.begin);
    if seek(&mut cursor, head.count, tx) {
        first_mark(&cursor)
    } else {
        None
    }
}

// Whether a choice of the transaction comes after a tag.
fn is_offered(cursor: &Cursor<'_>, tx: &TxId) -> bool
    ensures { result ≡ is_offered tx.now (first_tag cursor.now) }
{
    match first_tag(cursor) {
        Some((other, accepted)) => accepted && other.is(tx),
        None => false,
    }
}

// The choice of the transaction that comes after a tag.
fn offered_to(cursor: &Cursor<'_>, tx: &TxId) -> Option<Choice>
    ensures { result ≡ offered_to tx.now cursor.now }
{
    if is_offered(cursor, tx) {
        first_choice(cursor)
    } else {
        None
    }
}

// The choice of a transaction that the vote accepts.
fn accepted_of(cells: &FactCells, number: u32, head: &Head, tx: &TxId) -> Option<Choice>
    requires { number < length cells.now.encodings }
    ensures { result ≡ accepted_of tx.now head.now (get_or cells.now.encodings number []) }
{
    match mark_of(cells, number, head, tx) {
        Some(Mark::Accept(choice)) => Some(choice),
        _ => None,
    }
}

// The choice of a transaction that stands after the marks of the vote.
fn offered_of(cells: &FactCells, number: u32, head: &Head, tx: &TxId) -> Option<Choice>
    requires { number < length cells.now.encodings }
    ensures { result ≡ offered_of tx.now head.now (get_or cells.now.encodings number []) }
{
    let mut cursor = cells.start(number);
    cursor.skip(head.begin);
    skip_marks(&mut cursor, head.count);
    offered_to(&cursor, tx)
}

/// The choice of a transaction in the fact of a number, which is a vote with this head, accepted or
/// offered.
pub(crate) fn choice_of(cells: &FactCells, number: u32, head: &Head, tx: &TxId) -> Option<Choice>
    requires { number < length cells.now.encodings }
    ensures { result ≡ choice_of tx.now head.now (get_or cells.now.encodings number []) }
{
    match accepted_of(cells, number, head, tx) {
        Some(choice) => Some(choice),
        None => offered_of(cells, number, head, tx),
    }
}
