//! The outcome that the marks learned of all options decide.
ghost use Rattle.std.specs.Prelude.{◌≡◌, ◌≤◌, filter_map, is_some, length, option_and_then};
ghost use Rattle.std.specs.List.{list_all, list_any};
ghost use Rattle.mdcc_def_protocol.specs.Marks.{choice_in, is_reject_found, outcome_of_marks};

use mdcc_base::{BoundedList, Plain};
use mdcc_option::{Choice, Mark, Outcome};

/// For each option of a transaction the mark that is learned, if one is.
pub type LearnedMarks = BoundedList<Option<Mark>, 8>;

fn is_reject_found(mark: &Option<Mark>) -> bool
    ensures { result ≡ is_reject_found mark.now }
{
    match mark {
        Some(Mark::Reject) => true,
        _ => false,
    }
}

// Whether one of the marks rejects.
fn is_any_rejected(marks: &[Option<Mark>]) -> bool
    ensures { result ≡ list_any is_reject_found marks.now }
{
    marks.iter().any(|mark| is_reject_found(mark))
}

// Whether all marks are found.
fn are_all_found(marks: &[Option<Mark>]) -> bool
    ensures { result ≡ list_all is_some marks.now }
{
    marks.iter().all(|mark| mark.is_some())
}

// The choice that a mark accepts.
fn choice_in(mark: &Option<Mark>) -> Option<Choice>
    ensures { result ≡ option_and_then choice_in mark.now }
{
    match mark {
        Some(Mark::Accept(choice)) => Some(choice.copy()),
        _ => None,
    }
}

// The choices that the marks accept.
fn choices_in(marks: &[Option<Mark>]) -> BoundedList<Choice, 8>
    requires { length marks.now ≤ 8 }
    ensures { result ≡ filter_map (λ mark. option_and_then choice_in mark) marks.now }
{
    let mut choices = BoundedList::new();
    for mark in marks {
        if let Some(choice) = choice_in(mark) {
            choices.push(choice);
        }
    }
    choices
}

/// The outcome by the marks of all options: Abort where one is rejected, else Commit where all are
/// accepted. It is not decided while an option that is not rejected is not learned.
pub fn outcome_of_marks(marks: &[Option<Mark>]) -> Option<Outcome>
    requires { length marks.now ≤ 8 }
    ensures { result ≡ outcome_of_marks marks.now }
{
    if is_any_rejected(marks) {
        return Some(Outcome::Abort);
    }
    if are_all_found(marks) {
        return Some(Outcome::Commit(choices_in(marks)));
    }
    None
}
