//! What a fact says.
ghost use Rattle.std.specs.Prelude.{◌≡◌, fold, OnOk};
ghost use Rattle.mdcc_audit.specs.Firsts.{say};
ghost use Rattle.mdcc_audit.specs.Represents.{said_in};
ghost use Rattle.mdcc_audit.specs.Sayings.{mark_value, said_at, say_accepted, say_choice, say_choices, say_heard, say_marks, say_offered, say_outcome};
ghost use Rattle.mdcc_audit.specs.Subjects.{of_tx};
ghost use Rattle.mdcc_audit.specs.declared.values.Value.{Value as AValue};

use crate::audited::Place;
use crate::firsts::{First, Firsts};
use crate::subjects::Subject;
use crate::values::Value;
use mdcc_base::{Ballot, Key, Memory, TxId};
use mdcc_option::{Choice, Mark, Outcome};
use mdcc_struct::Options;
use std::alloc::Global;
use std::slice;

// A fact says these choices of a subject. They are copied only where they were not said first.
fn say_these(
    alloc: Global,
    firsts: &mut Firsts,
    place: &Place,
    subject: Subject,
    choices: &[Choice],
) -> Result<(), Memory>
    ensures { OnOk result (said_in firsts.new ≡ say (said_in firsts.old) subject (said_at place.now (AValue.Choices choices.now))) }
{
    if firsts.says_choices(&subject, choices) {
        return Ok(());
    }
    let value = Value::of_choices(alloc, choices)?;
    firsts.say(
        subject,
        First {
            place: *place,
            value,
        },
    )
}

// A fact says the write set of a transaction. It is copied only where it was not said first.
fn say_places(
    alloc: Global,
    firsts: &mut Firsts,
    place: &Place,
    tx: TxId,
    places: &[(Key, u64)],
) -> Result<(), Memory>
    ensures { OnOk result (said_in firsts.new ≡ say (said_in firsts.old) (of_tx tx) (said_at place.now (AValue.Places places.now))) }
{
    let subject = Subject::of_tx(tx);
    if firsts.says_places(&subject, places) {
        return Ok(());
    }
    let value = Value::of_places(alloc, places)?;
    firsts.say(
        subject,
        First {
            place: *place,
            value,
        },
    )
}

// A fact says that a subject aborts, or is rejected.
fn say_refusal(firsts: &mut Firsts, place: &Place, subject: Subject) -> Result<(), Memory>
    ensures { OnOk result (said_in firsts.new ≡ say (said_in firsts.old) subject (said_at place.now AValue.Refusal)) }
{
    firsts.say(
        subject,
        First {
            place: *place,
            value: Value::Refusal,
        },
    )
}

/// A fact says the outcome of a transaction.
pub(crate) fn say_outcome(
    alloc: Global,
    outcomes: &mut Firsts,
    place: &Place,
    tx: TxId,
    outcome: &Outcome,
) -> Result<(), Memory>
    ensures { OnOk result (said_in outcomes.new ≡ say_outcome (said_in outcomes.old) place.now tx outcome.now) }
{
    let subject = Subject::of_tx(tx);
    match outcome {
        Outcome::Commit(choices) => say_these(alloc, outcomes, place, subject, choices.as_slice()),
        Outcome::Abort => say_refusal(outcomes, place, subject),
    }
}

// A fact says the mark of a transaction in an instance at a ballot.
fn say_mark(
    alloc: Global,
    marks: &mut Firsts,
    place: &Place,
    subject: Subject,
    mark: &Mark,
) -> Result<(), Memory>
    ensures { OnOk result (said_in marks.new ≡ say (said_in marks.old) subject (said_at place.now (mark_value mark.now))) }
{
    match mark {
        Mark::Accept(choice) => say_these(alloc, marks, place, subject, slice::from_ref(choice)),
        Mark::Reject => say_refusal(marks, place, subject),
    }
}

/// A vote at a classic ballot says the marks in the instance.
pub(crate) fn say_marks(
    alloc: Global,
    marks: &mut Firsts,
    place: &Place,
    key: &Key,
    version: u64,
    ballot: &Ballot,
    options: &Options,
) -> Result<(), Memory>
    ensures { OnOk result (said_in marks.new ≡ say_marks (said_in marks.old) place.now key.now version ballot.now options.now) }
{
    if ballot.is(&Ballot::FAST) {
        return Ok(());
    }
    for i in 0..options.len() {
        let (tx, mark) = options.at(i);
        let subject = Subject::in_vote(tx, key, version, ballot);
        say_mark(alloc, marks, place, subject, mark)?;
    }
    Ok(())
}

/// A fact says a transaction's choice for a key, and its write set.
pub(crate) fn say_choice(
    alloc: Global,
    choices: &mut Firsts,
    place: &Place,
    choice: &Choice,
) -> Result<(), Memory>
    ensures { OnOk result (said_in choices.new ≡ say_choice place.now (said_in choices.old) choice.now) }
{
    let subject = Subject::of_key(choice.tx, &choice.key);
    say_these(alloc, choices, place, subject, slice::from_ref(choice))?;
    say_places(
        alloc,
        choices,
        place,
        choice.tx,
        choice.write_set.as_slice(),
    )
}

// A fact says several choices.
fn say_choices(
    alloc: Global,
    choices: &mut Firsts,
    place: &Place,
    named: &[Choice],
) -> Result<(), Memory>
    ensures { OnOk result (said_in choices.new ≡ say_choices (said_in choices.old) place.now named.now) }
{
    for choice in named {
        say_choice(alloc, choices, place, choice)?;
    }
    Ok(())
}

// A mark says the choice that it accepts.
fn say_accepted(
    alloc: Global,
    choices: &mut Firsts,
    place: &Place,
    tx: TxId,
    mark: &Mark,
) -> Result<(), Memory>
    ensures { OnOk result (said_in choices.new ≡ say_accepted place.now (said_in choices.old) (tx, mark.now)) }
{
    match mark {
        Mark::Accept(choice) => say_choice(alloc, choices, place, choice),
        Mark::Reject => Ok(()),
    }
}

/// The marks of a vote say the choices that they accept.
pub(crate) fn say_all_accepted(
    alloc: Global,
    choices: &mut Firsts,
    place: &Place,
    options: &Options,
) -> Result<(), Memory>
    ensures { OnOk result (said_in choices.new ≡ fold (say_accepted place.now) (said_in choices.old) options.now) }
{
    for i in 0..options.len() {
        let (tx, mark) = options.at(i);
        say_accepted(alloc, choices, place, tx, mark)?;
    }
    Ok(())
}

/// A vote says the choice that it was offered.
pub(crate) fn say_offered(
    alloc: Global,
    choices: &mut Firsts,
    place: &Place,
    offered: &Option<Choice>,
) -> Result<(), Memory>
    ensures { OnOk result (said_in choices.new ≡ say_offered (said_in choices.old) place.now offered.now) }
{
    match offered {
        Some(choice) => say_choice(alloc, choices, place, choice),
        None => Ok(()),
    }
}

/// What is heard says the choices with which a transaction commits.
pub(crate) fn say_heard(
    alloc: Global,
    choices: &mut Firsts,
    place: &Place,
    outcome: &Outcome,
) -> Result<(), Memory>
    ensures { OnOk result (said_in choices.new ≡ say_heard (said_in choices.old) place.now outcome.now) }
{
    match outcome {
        Outcome::Commit(named) => say_choices(alloc, choices, place, named.as_slice()),
        Outcome::Abort => Ok(()),
    }
}
