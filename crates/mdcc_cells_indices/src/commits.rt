//! How a transaction ended, read from the bytes of a fact that says so. The choices of a commit are
//! read where the answer is made: an outcome is large, and each call that passes one on copies it.
ghost use Rattle.std.specs.Prelude.{◌≡◌, ◌≤◌, [], None};
ghost use Rattle.mdcc_def_messages.specs.ReadingParts.{choice_behind, commit_at, outcome_at};
ghost use Rattle.mdcc_def_messages.specs.ReadingSteps.{elements_at};
ghost use Rattle.mdcc_cells_indices.specs.Heard.{AreRead, outcome_alone, outcome_spelled};

use mdcc_base::{BoundedList, Key, TxId};
use mdcc_option::{Choice, Outcome};
use mdcc_parts::choices::read_choice_behind;
use mdcc_parts::numbers::u8_within;
use mdcc_parts::read_tx;

// Reads so many choices of the transaction at a place into an empty list, of the list that begins
// at `part`. Gives whether each could be read.
fn read_choices(
    choices: &mut BoundedList<Choice, 8>,
    part: usize,
    tx: TxId,
    bytes: &[u8],
    count: usize,
    at: usize,
) -> bool
    requires few { count ≤ 8 }
    requires empty { choices.old ≡ [] }
    ensures { AreRead (elements_at (choice_behind part tx bytes.now) (λ choice. choice.key) count None at) result choices.new }
{
    let mut last: Option<Key> = None;
    let mut place = at;
    for _ in 0..count {
        match read_choice_behind(part, tx, bytes, last, place) {
            Ok((choice, after)) => {
                last = Some(choice.key);
                choices.push(choice);
                place = after;
            }
            Err(_) => return false,
        }
    }
    true
}

// The commit of the transaction at a place.
fn commit_in(bytes: &[u8], at: usize, tx: TxId) -> Option<Outcome>
    ensures { result ≡ outcome_alone (commit_at bytes.now at tx) }
{
    match u8_within(at, 1, 8, bytes, at) {
        Ok((count, after)) => {
            let mut choices = BoundedList::new();
            if read_choices(&mut choices, at, tx, bytes, usize::from(count), after) {
                Some(Outcome::Commit(choices))
            } else {
                None
            }
        }
        Err(_) => None,
    }
}

// The outcome of the transaction at a place.
fn outcome_of(bytes: &[u8], at: usize, tx: TxId) -> Option<Outcome>
    ensures { result ≡ outcome_alone (outcome_at bytes.now at tx) }
{
    match u8_within(at, 0, 1, bytes, at) {
        Ok((tag, after)) => {
            if tag == 0 {
                Some(Outcome::Abort)
            } else {
                commit_in(bytes, after, tx)
            }
        }
        Err(_) => None,
    }
}

/// How a transaction ended, by the bytes of a fact that says so.
pub(crate) fn outcome_in(bytes: &[u8]) -> Option<Outcome>
    ensures { result ≡ outcome_spelled bytes.now }
{
    match read_tx(bytes, 1) {
        Ok((tx, after)) => outcome_of(bytes, after, tx),
        Err(_) => None,
    }
}
