//! What a client is answered, read from bytes.
ghost use Rattle.std.specs.Prelude.{◌≡◌};
ghost use Rattle.mdcc_def_messages.specs.ReadingAnswers.{some_item_at, shown_item_at, stale_at, unseen_at, begin_fault_by, begin_fault_at, draft_fault_of, read_answer_at, begun_answer_at, refused_answer_at, heard_answer_at, draft_answer_at, answer_by, answer_at};

use mdcc_def_messages::{ClientAnswer, WireFault};
use mdcc_option::{BeginFault, DraftFault, Item, Token};
use mdcc_parts::identifiers::{read_key, read_tx};
use mdcc_parts::items::{read_item, read_seen};
use mdcc_parts::numbers::{flag_at, u8_within, u64_at};

// The item at a place, as one that is there.
fn some_item_at(bytes: &[u8], at: usize) -> Result<(Option<Item>, usize), WireFault>
    ensures { result ≡ some_item_at bytes.now at }
{
    let (item, after) = read_item(bytes, at)?;
    Ok((Some(item), after))
}

// No item, or an item.
fn shown_item_at(bytes: &[u8], at: usize) -> Result<(Option<Item>, usize), WireFault>
    ensures { result ≡ shown_item_at bytes.now at }
{
    let (flag, after) = flag_at(bytes, at)?;
    if flag {
        some_item_at(bytes, after)
    } else {
        Ok((None, after))
    }
}

// What a key has now, in place of what a write saw.
fn stale_at(bytes: &[u8], at: usize) -> Result<(BeginFault, usize), WireFault>
    ensures { result ≡ stale_at bytes.now at }
{
    let (version, after) = u64_at(bytes, at)?;
    let (seen, after) = read_seen(bytes, after)?;
    Ok((BeginFault::Stale(Token { version, seen }), after))
}

// The version that a key has now, in place of what an add saw.
fn unseen_at(bytes: &[u8], at: usize) -> Result<(BeginFault, usize), WireFault>
    ensures { result ≡ unseen_at bytes.now at }
{
    let (version, after) = u64_at(bytes, at)?;
    Ok((BeginFault::Unseen(version), after))
}

// The begin fault of a number.
fn begin_fault_by(tag: u8, bytes: &[u8], at: usize) -> Result<(BeginFault, usize), WireFault>
    ensures { result ≡ begin_fault_by tag bytes.now at }
{
    match tag {
        1 => stale_at(bytes, at),
        2 => unseen_at(bytes, at),
        3 => Ok((BeginFault::NoItem, at)),
        4 => Ok((BeginFault::Sequence, at)),
        _ => Ok((BeginFault::Busy, at)),
    }
}

// Why no transaction was begun.
fn begin_fault_at(bytes: &[u8], at: usize) -> Result<(BeginFault, usize), WireFault>
    ensures { result ≡ begin_fault_at bytes.now at }
{
    let (tag, after) = u8_within(at, 1, 5, bytes, at)?;
    begin_fault_by(tag, bytes, after)
}

// The draft fault of a number.
fn draft_fault_of(n: u8) -> DraftFault
    ensures { result ≡ draft_fault_of n }
{
    match n {
        1 => DraftFault::Empty,
        2 => DraftFault::TooMany,
        3 => DraftFault::RepeatedKey,
        4 => DraftFault::BadAttribute,
        5 => DraftFault::ZeroAmount,
        _ => DraftFault::OutOfBounds,
    }
}

// What a read showed.
fn read_answer_at(bytes: &[u8], at: usize) -> Result<(ClientAnswer, usize), WireFault>
    ensures { result ≡ read_answer_at bytes.now at }
{
    let (key, after) = read_key(bytes, at)?;
    let (version, after) = u64_at(bytes, after)?;
    let (item, after) = shown_item_at(bytes, after)?;
    let (seen, after) = read_seen(bytes, after)?;
    let (due, after) = flag_at(bytes, after)?;
    let token = Token { version, seen };
    Ok((
        ClientAnswer::Read {
            key,
            token,
            item,
            due,
        },
        after,
    ))
}

// The transaction that was begun.
fn begun_answer_at(bytes: &[u8], at: usize) -> Result<(ClientAnswer, usize), WireFault>
    ensures { result ≡ begun_answer_at bytes.now at }
{
    let (tx, after) = read_tx(bytes, at)?;
    Ok((ClientAnswer::Begun(tx), after))
}

// The key for which none was begun, and why.
fn refused_answer_at(bytes: &[u8], at: usize) -> Result<(ClientAnswer, usize), WireFault>
    ensures { result ≡ refused_answer_at bytes.now at }
{
    let (key, after) = read_key(bytes, at)?;
    let (fault, after) = begin_fault_at(bytes, after)?;
    Ok((ClientAnswer::Refused(key, fault), after))
}

// The transaction that ended, and how.
fn heard_answer_at(bytes: &[u8], at: usize) -> Result<(ClientAnswer, usize), WireFault>
    ensures { result ≡ heard_answer_at bytes.now at }
{
    let (tx, after) = read_tx(bytes, at)?;
    let (commit, after) = flag_at(bytes, after)?;
    Ok((ClientAnswer::Heard(tx, commit), after))
}

// Why the parts make no transaction.
fn draft_answer_at(bytes: &[u8], at: usize) -> Result<(ClientAnswer, usize), WireFault>
    ensures { result ≡ draft_answer_at bytes.now at }
{
    let (fault, after) = u8_within(at, 1, 6, bytes, at)?;
    Ok((ClientAnswer::Draft(draft_fault_of(fault)), after))
}

// The answer of a number.
fn answer_by(tag: u8, bytes: &[u8], at: usize) -> Result<(ClientAnswer, usize), WireFault>
    ensures { result ≡ answer_by tag bytes.now at }
{
    match tag {
        1 => read_answer_at(bytes, at),
        2 => begun_answer_at(bytes, at),
        3 => refused_answer_at(bytes, at),
        4 => heard_answer_at(bytes, at),
        _ => draft_answer_at(bytes, at),
    }
}

/// What a client is answered, at a place.
pub fn read_answer(bytes: &[u8], at: usize) -> Result<(ClientAnswer, usize), WireFault>
    ensures { result ≡ answer_at bytes.now at }
{
    let (tag, after) = u8_within(at, 1, 5, bytes, at)?;
    answer_by(tag, bytes, after)
}
