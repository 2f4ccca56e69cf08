//! The base that a fact gives a version of a key.
ghost use Rattle.std.specs.Prelude.{◌≡◌, ◌<◌, [], get_or, length};
ghost use Rattle.mdcc_def_messages.specs.Spelling.{fact_bytes};
ghost use Rattle.mdcc_def_messages.specs.WellFormed.{IsWellFormedFact};
ghost use Rattle.mdcc_def_messages.specs.declared.facts.Fact.{Fact as AFact};
ghost use Rattle.mdcc_def_protocol.specs.Facts.{base_from};
ghost use Rattle.mdcc_option.specs.OneCopy.{next_version};
ghost use Rattle.mdcc_cells_delta_walk.specs.Entries.{bytes_at_update};
ghost use Rattle.mdcc_cells_delta_walk.specs.Bases.{base_adopted, base_committed, base_in, is_before_in, is_write_of, item_in, written_in};

use crate::parts::is_instance_in;
use crate::passing::{HEAD, byte_in, first_byte, pass_rest, peeked};
use mdcc_base::Key;
use mdcc_cells_facts::FactCells;
use mdcc_option::Item;
use mdcc_parts::given::read_instance;
use mdcc_parts::read_item;
use mdcc_pool::Cursor;

/// The longest encoding of an item.
const LONGEST_ITEM: usize = 162;

// A version plus one stops at 2^64 - 1.
fn next_version(version: u64) -> u64
    ensures { result ≡ next_version version }
{
    version.saturating_add(1)
}

// The item that is next.
fn item_in(cursor: &Cursor<'_>) -> Option<Item>
    ensures { result ≡ item_in cursor.now }
{
    let mut window = [0u8; LONGEST_ITEM];
    match read_item(peeked(cursor, window.as_mut_slice()), 0) {
        Ok((item, _)) => Some(item),
        Err(_) => None,
    }
}

// Whether the key with a version before this one stands at a place.
fn is_before_in(bytes: &[u8], at: usize, key: &Key, version: u64) -> bool
    ensures { result ≡ is_before_in key.now version bytes.now at }
{
    match read_instance(bytes, at) {
        Ok(((other, found), _)) => next_version(found) == version && other.is(key),
        Err(_) => false,
    }
}

// Goes to the update of the choice that is next, and says whether the choice writes the version.
fn enter_write(cursor: &mut Cursor<'_>, key: &Key, version: u64) -> bool
    ensures is_write { result ≡ is_write_of key.now version cursor.old }
    ensures after { cursor.new ≡ bytes_at_update cursor.old }
{
    let mut window = [0u8; HEAD];
    let head = peeked(cursor, window.as_mut_slice());
    let is_before = is_before_in(head, 9, key, version);
    cursor.skip(18 + byte_in(head, 9));
    is_before && first_byte(cursor) == 1
}

// The item of the first of so many choices that writes the version.
fn written_in<'a>(cursor: Cursor<'a>, count: usize, key: &Key, version: u64) -> Option<Item>
    ensures { result ≡ written_in key.now version count cursor.entry }
{
    let mut cursor = cursor;
    for _ in 0..count {
        if enter_write(&mut cursor, key, version) {
            cursor.skip(1);
            return item_in(&cursor);
        }
        pass_rest(&mut cursor);
    }
    None
}

// By a commit.
fn base_committed<'a>(cursor: Cursor<'a>, key: &Key, version: u64) -> Option<Item>
    ensures { result ≡ base_committed key.now version cursor.entry }
{
    let mut cursor = cursor;
    let mut window = [0u8; HEAD];
    let head = peeked(&cursor, window.as_mut_slice());
    if byte_in(head, 10) != 1 {
        return None;
    }
    let count = byte_in(head, 11);
    cursor.skip(12);
    written_in(cursor, count, key, version)
}

// By an adoption.
fn base_adopted<'a>(cursor: Cursor<'a>, key: &Key, version: u64) -> Option<Item>
    ensures { result ≡ base_adopted key.now version cursor.entry }
{
    let mut cursor = cursor;
    let mut window = [0u8; HEAD];
    let head = peeked(&cursor, window.as_mut_slice());
    if !is_instance_in(head, 1, key, version) {
        return None;
    }
    cursor.skip(10 + byte_in(head, 1));
    item_in(&cursor)
}

// By the fact at whose beginning a cursor stands.
fn base_in<'a>(cursor: Cursor<'a>, key: &Key, version: u64) -> Option<Item>
    ensures { result ≡ base_in key.now version cursor.entry }
{
    match first_byte(&cursor) {
        4 => base_committed(cursor, key, version),
        5 => base_adopted(cursor, key, version),
        _ => None,
    }
}

/// The base that the fact of a number gives a version of a key.
pub fn item_at(cells: &FactCells, number: u32, key: &Key, version: u64) -> Option<Item>
    requires { number < length cells.now.encodings }
    ensures { (fact : AFact) → IsWellFormedFact fact → get_or cells.now.encodings number [] ≡ fact_bytes fact → result ≡ base_from key.now version fact }
{
    base_in(cells.start(number), key, version)
}
