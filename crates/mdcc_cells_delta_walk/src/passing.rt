//! Passing by parts of encodings, without reading them.
ghost use Rattle.std.specs.Prelude.{◌≡◌, ◌<◌, ◌≤◌, drop, get_or, length, take};
ghost use Rattle.mdcc_cells_delta_walk.specs.Passing.{after_counted, after_counted_item, after_counted_keys, after_counted_update, after_counted_write_set, byte_at, entry_head, past_update};

use mdcc_pool::Cursor;

/// How many bytes of an entry are looked at before more of it is read: enough for a transaction, a key
/// and a version.
pub(crate) const HEAD: usize = 64;

// The bytes that are next, as many as there is room for.
pub(crate) fn peeked<'a>(cursor: &Cursor<'_>, window: &'a mut [u8]) -> &'a [u8]
    ensures { result.now ≡ take (length window.old) cursor.now }
{
    let count = cursor.peek(window);
    &window[..count]
}

/// A byte, 0 past the end.
pub(crate) fn byte_in(bytes: &[u8], at: usize) -> usize
    ensures value { result ≡ get_or bytes.now at 0 }
    ensures within { result < 256 }
{
    match bytes.get(at) {
        Some(byte) => usize::from(*byte),
        None => 0,
    }
}

/// The byte that is next, 0 where there is none.
pub(crate) fn first_byte(cursor: &Cursor<'_>) -> usize
    ensures value { result ≡ byte_at 0 cursor.now }
    ensures within { result < 256 }
{
    let mut window = [0u8];
    byte_in(peeked(cursor, window.as_mut_slice()), 0)
}

/// Passes a count and so many elements of a width.
pub(crate) fn pass_counted(cursor: &mut Cursor<'_>, width: usize)
    requires { width ≤ 9 }
    ensures { cursor.new ≡ after_counted width cursor.old }
{
    let count = first_byte(cursor);
    cursor.skip(1 + width * count);
}

/// Passes an item.
pub(crate) fn pass_item(cursor: &mut Cursor<'_>)
    ensures { cursor.new ≡ after_counted_item cursor.old }
{
    pass_counted(cursor, 1);
    pass_counted(cursor, 8);
}

/// Passes an update.
pub(crate) fn pass_update(cursor: &mut Cursor<'_>)
    ensures { cursor.new ≡ after_counted_update cursor.old }
{
    let tag = first_byte(cursor);
    cursor.skip(1);
    if tag == 1 {
        pass_item(cursor);
    }
    pass_counted(cursor, 9);
}

// Passes so many keys with their versions.
fn pass_written(cursor: &mut Cursor<'_>, count: usize)
    ensures { cursor.new ≡ after_counted_keys count cursor.old }
{
    for _ in 0..count {
        pass_counted(cursor, 1);
        cursor.skip(8);
    }
}

/// Passes a write set.
pub(crate) fn pass_write_set(cursor: &mut Cursor<'_>)
    ensures { cursor.new ≡ after_counted_write_set cursor.old }
{
    let count = first_byte(cursor);
    cursor.skip(1);
    pass_written(cursor, count);
}

/// Passes what is left of a choice from its update on.
pub(crate) fn pass_rest(cursor: &mut Cursor<'_>)
    ensures { cursor.new ≡ past_update cursor.old }
{
    pass_update(cursor);
    pass_write_set(cursor);
}
