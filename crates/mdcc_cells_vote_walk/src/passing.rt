//! Parts of facts, passed by the counts in their bytes without being read.
ghost use Rattle.std.specs.Prelude.{◌≡◌, ◌≤◌, get_or, length, take};
ghost use Rattle.mdcc_cells_vote_walk.specs.Passing.{after_choice, after_each, after_item, after_list, after_mark, after_marks, after_update, after_write_set, after_written};

use mdcc_pool::Cursor;

/// The bytes that are next, as many as there are and as the window has room for.
pub(crate) fn next_bytes<'a>(cursor: &Cursor<'_>, window: &'a mut [u8]) -> &'a [u8]
    ensures { result.now ≡ take (length window.old) cursor.now }
{
    let count = cursor.peek(window);
    &window[..count]
}

/// The byte that is next; 0 where there is none.
pub(crate) fn first_byte(cursor: &Cursor<'_>) -> u8
    ensures { result ≡ get_or cursor.now 0 0 }
{
    let mut window = [0u8];
    match next_bytes(cursor, window.as_mut_slice()) {
        [byte] => *byte,
        _ => 0,
    }
}

// Passes a list: how many elements there are, and each of so many bytes.
fn skip_list(cursor: &mut Cursor<'_>, width: usize)
    requires { width ≤ 9 }
    ensures { cursor.new ≡ after_list width cursor.old }
{
    let count = usize::from(first_byte(cursor));
    cursor.skip(1 + width * count);
}

// Passes a written item.
fn skip_item(cursor: &mut Cursor<'_>)
    ensures { cursor.new ≡ after_item cursor.old }
{
    skip_list(cursor, 1);
    skip_list(cursor, 8);
}

// Passes an update.
fn skip_update(cursor: &mut Cursor<'_>)
    ensures { cursor.new ≡ after_update cursor.old }
{
    let tag = first_byte(cursor);
    cursor.skip(1);
    if tag == 1 {
        skip_item(cursor);
    }
    skip_list(cursor, 9);
}

// Passes a key and a version.
fn skip_written(cursor: &mut Cursor<'_>)
    ensures { cursor.new ≡ after_written cursor.old }
{
    skip_list(cursor, 1);
    cursor.skip(8);
}

// Passes a write set.
#[tactic(auto, using(crate::proofs::Passed::passed_each))]
fn skip_write_set(cursor: &mut Cursor<'_>)
    ensures { cursor.new ≡ after_write_set cursor.old }
{
    let mut left = first_byte(cursor);
    cursor.skip(1);
    while left > 0 {
        skip_written(cursor);
        left -= 1;
    }
}

// Passes a choice.
fn skip_choice(cursor: &mut Cursor<'_>)
    ensures { cursor.new ≡ after_choice cursor.old }
{
    cursor.skip(9);
    skip_written(cursor);
    skip_update(cursor);
    skip_write_set(cursor);
}

/// Passes a mark.
pub(crate) fn skip_mark(cursor: &mut Cursor<'_>)
    ensures { cursor.new ≡ after_mark cursor.old }
{
    if first_byte(cursor) == 1 {
        cursor.skip(1);
        skip_choice(cursor);
    } else {
        cursor.skip(10);
    }
}

/// Passes so many marks.
#[tactic(auto, using(crate::proofs::Passed::passed_marks))]
pub(crate) fn skip_marks(cursor: &mut Cursor<'_>, count: u32)
    ensures { cursor.new ≡ after_marks count cursor.old }
{
    let mut left = count;
    while left > 0 {
        skip_mark(cursor);
        left -= 1;
    }
}
