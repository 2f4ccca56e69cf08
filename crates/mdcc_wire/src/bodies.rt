//! The bodies of messages that take no memory, read from bytes.
ghost use Rattle.std.specs.Prelude.{◌≡◌, ◌≤◌, None, true};
ghost use Rattle.mdcc_def_messages.specs.ReadingSteps.{elements_at, list_at};
ghost use Rattle.mdcc_def_messages.specs.ReadingParts.{part_behind};
ghost use Rattle.mdcc_def_messages.specs.Reading.{propose_at, voted_at, escalate_at, lead_at, prepare_at, refused_message_at, ended_at, ask_at, sync_ask_at, client_read_at, client_begin_at, client_answer_at, mark_at, finished_at, body_at};
ghost use Rattle.mdcc_wire.specs.Views.{is_plain, placed};

use crate::answers::read_answer;
use mdcc_base::{BoundedList, Key};
use mdcc_def_messages::{Message, WireFault};
use mdcc_option::Part;
use mdcc_parts::choices::read_choice;
use mdcc_parts::given::{read_at_least, read_heard, read_instance};
use mdcc_parts::identifiers::{read_ballot, read_classic, read_key, read_numbers, read_tx};
use mdcc_parts::items::read_part_behind;
use mdcc_parts::marks::{read_cause, read_entry};
use mdcc_parts::numbers::{u8_within, u32_at};

/// A message into whose place another one is read.
pub fn empty_message() -> Message {
    Message::SyncAsk(Key::default())
}

// A proposed choice.
fn propose_into(bytes: &[u8], at: usize, into: &mut Message) -> Result<usize, WireFault>
    ensures { placed result into.new ≡ propose_at bytes.now at }
{
    let (choice, after) = read_choice(bytes, at)?;
    *into = Message::Propose(choice);
    Ok(after)
}

// A vote.
fn voted_into(bytes: &[u8], at: usize, into: &mut Message) -> Result<usize, WireFault>
    ensures { placed result into.new ≡ voted_at bytes.now at }
{
    let ((key, version), after) = read_instance(bytes, at)?;
    let (ballot, after) = read_ballot(bytes, after)?;
    let ((tx, mark), after) = read_entry(bytes, after, &key, version)?;
    *into = Message::Voted {
        key,
        version,
        ballot,
        tx,
        mark,
    };
    Ok(after)
}

// A vote that is not given, and why.
fn escalate_into(bytes: &[u8], at: usize, into: &mut Message) -> Result<usize, WireFault>
    ensures { placed result into.new ≡ escalate_at bytes.now at }
{
    let ((key, version), after) = read_instance(bytes, at)?;
    let (tx, after) = read_tx(bytes, after)?;
    let (cause, after) = read_cause(bytes, after)?;
    *into = Message::Escalate {
        key,
        version,
        tx,
        cause,
    };
    Ok(after)
}

// A choice for which a leader is asked.
fn lead_into(bytes: &[u8], at: usize, into: &mut Message) -> Result<usize, WireFault>
    ensures { placed result into.new ≡ lead_at bytes.now at }
{
    let (choice, after) = read_choice(bytes, at)?;
    *into = Message::Lead(choice);
    Ok(after)
}

// Versions and a ballot, for which a promise is asked.
fn prepare_into(bytes: &[u8], at: usize, into: &mut Message) -> Result<usize, WireFault>
    ensures { placed result into.new ≡ prepare_at bytes.now at }
{
    let ((key, version), after) = read_instance(bytes, at)?;
    let (through, after) = read_at_least(version, bytes, after)?;
    let (ballot, after) = read_classic(bytes, after)?;
    *into = Message::Prepare {
        key,
        version,
        through,
        ballot,
    };
    Ok(after)
}

// A ballot that is refused, and the one that was promised.
fn refused_into(bytes: &[u8], at: usize, into: &mut Message) -> Result<usize, WireFault>
    ensures { placed result into.new ≡ refused_message_at bytes.now at }
{
    let ((key, version), after) = read_instance(bytes, at)?;
    let (ballot, after) = read_classic(bytes, after)?;
    let (promised, after) = read_ballot(bytes, after)?;
    *into = Message::Refused {
        key,
        version,
        ballot,
        promised,
    };
    Ok(after)
}

// A transaction and how it ended.
fn ended_into(bytes: &[u8], at: usize, into: &mut Message) -> Result<usize, WireFault>
    ensures { placed result into.new ≡ ended_at bytes.now at }
{
    let ((tx, outcome), after) = read_heard(bytes, at)?;
    *into = Message::Outcome { tx, outcome };
    Ok(after)
}

// A transaction and an instance that are asked for.
fn ask_into(bytes: &[u8], at: usize, into: &mut Message) -> Result<usize, WireFault>
    ensures { placed result into.new ≡ ask_at bytes.now at }
{
    let (tx, after) = read_tx(bytes, at)?;
    let ((key, version), after) = read_instance(bytes, after)?;
    *into = Message::Ask { tx, key, version };
    Ok(after)
}

// A key whose state is asked for.
fn sync_ask_into(bytes: &[u8], at: usize, into: &mut Message) -> Result<usize, WireFault>
    ensures { placed result into.new ≡ sync_ask_at bytes.now at }
{
    let (key, after) = read_key(bytes, at)?;
    *into = Message::SyncAsk(key);
    Ok(after)
}

// A key that a client reads.
fn client_read_into(bytes: &[u8], at: usize, into: &mut Message) -> Result<usize, WireFault>
    ensures { placed result into.new ≡ client_read_at bytes.now at }
{
    let (serial, after) = u32_at(bytes, at)?;
    let (key, after) = read_key(bytes, after)?;
    *into = Message::ClientRead { serial, key };
    Ok(after)
}

// So many parts at a place, of the list that begins at `part`.
fn parts_from(
    part: usize,
    bytes: &[u8],
    count: usize,
    at: usize,
) -> Result<(BoundedList<Part, 8>, usize), WireFault>
    requires { count ≤ 8 }
    ensures { result ≡ elements_at (part_behind part bytes.now) (λ p. p.key) count None at }
{
    let mut parts = BoundedList::new();
    let mut last: Option<Key> = None;
    let mut place = at;
    for _ in 0..count {
        let (next, after) = read_part_behind(part, bytes, last, place)?;
        last = Some(next.key);
        parts.push(next);
        place = after;
    }
    Ok((parts, place))
}

// The parts of a transaction that a client begins.
fn client_begin_into(bytes: &[u8], at: usize, into: &mut Message) -> Result<usize, WireFault>
    ensures { placed result into.new ≡ client_begin_at bytes.now at }
{
    let (serial, first) = u32_at(bytes, at)?;
    let (count, after) = u8_within(first, 1, 8, bytes, first)?;
    let (parts, after) = parts_from(first, bytes, usize::from(count), after)?;
    *into = Message::ClientBegin { serial, parts };
    Ok(after)
}

// What a client is answered.
fn client_answer_into(bytes: &[u8], at: usize, into: &mut Message) -> Result<usize, WireFault>
    ensures { placed result into.new ≡ client_answer_at bytes.now at }
{
    let (serial, after) = u32_at(bytes, at)?;
    let (answer, after) = read_answer(bytes, after)?;
    *into = Message::ClientAnswer { serial, answer };
    Ok(after)
}

// How far the sender has heard a centre's transactions.
fn mark_into(bytes: &[u8], at: usize, into: &mut Message) -> Result<usize, WireFault>
    ensures { placed result into.new ≡ mark_at bytes.now at }
{
    let ((centre, epoch, seq), after) = read_numbers(bytes, at)?;
    *into = Message::Mark { centre, epoch, seq };
    Ok(after)
}

// A transaction that all have heard.
fn finished_into(bytes: &[u8], at: usize, into: &mut Message) -> Result<usize, WireFault>
    ensures { placed result into.new ≡ finished_at bytes.now at }
{
    let (tx, after) = read_tx(bytes, at)?;
    *into = Message::Finished(tx);
    Ok(after)
}

/// Reads the body of a message of this kind, which takes no memory, and gives its end.
pub fn plain_body_into(
    kind: u8,
    bytes: &[u8],
    at: usize,
    into: &mut Message,
) -> Result<usize, WireFault>
    requires { is_plain kind ≡ true }
    ensures { placed result into.new ≡ body_at kind bytes.now at }
{
    match kind {
        1 => propose_into(bytes, at, into),
        2 => voted_into(bytes, at, into),
        3 => escalate_into(bytes, at, into),
        4 => lead_into(bytes, at, into),
        5 => prepare_into(bytes, at, into),
        8 => refused_into(bytes, at, into),
        9 => ended_into(bytes, at, into),
        10 => ask_into(bytes, at, into),
        11 => sync_ask_into(bytes, at, into),
        13 => client_read_into(bytes, at, into),
        14 => client_begin_into(bytes, at, into),
        15 => client_answer_into(bytes, at, into),
        16 => mark_into(bytes, at, into),
        _ => finished_into(bytes, at, into),
    }
}
