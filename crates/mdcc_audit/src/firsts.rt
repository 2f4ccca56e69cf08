//! What was said first of each subject.
ghost use Rattle.std.specs.Option.{option_copied};
ghost use Rattle.std.specs.Prelude.{◌≡◌, Some, OnOk};
ghost use Rattle.mdcc_audit.specs.Firsts.{earlier, first_at, nothing_said, place_lt, say};
ghost use Rattle.mdcc_audit.specs.Represents.{said_in};
ghost use Rattle.mdcc_audit.specs.Sayings.{said_at};
ghost use Rattle.mdcc_audit.specs.declared.audited.Place.{Place as APlace};
ghost use Rattle.mdcc_audit.specs.declared.values.Value.{Value as AValue};
ghost use Rattle.std.specs.Bool.{OnTrue};

use crate::audited::Place;
use crate::subjects::Subject;
use crate::values::Value;
use indexmap::IndexMap;
use mdcc_base::{Key, Memory};
use mdcc_option::Choice;
use std::alloc::Global;

/// What a fact says.
#[derive(Drop)]
pub struct First {
    pub(crate) place: Place,
    pub(crate) value: Value,
}

/// What was said first of each subject, in the order in which the subjects came, and the first two
/// facts of which one contradicts what the other said first.
#[derive(Drop)]
pub struct Firsts {
    pub(crate) table: IndexMap<Subject, First>,
    pub(crate) found: Option<(Place, Place)>,
}

// Whether one place is before the other.
fn place_lt(a: &Place, b: &Place) -> bool
    ensures { result ≡ place_lt a.now b.now }
{
    a.centre.number() < b.centre.number()
        || (a.centre.number() == b.centre.number() && a.number < b.number)
}

// Of two pairs the one whose first fact is the earlier.
fn earlier(found: Option<(Place, Place)>, pair: (Place, Place)) -> Option<(Place, Place)>
    ensures { result ≡ earlier found (Some pair) }
{
    match found {
        None => Some(pair),
        Some(was) => {
            if place_lt(&pair.0, &was.0) {
                Some(pair)
            } else {
                Some(was)
            }
        }
    }
}

impl Firsts {
    /// Nothing was said.
    pub(crate) fn new(alloc: Global) -> Firsts
        ensures { said_in result ≡ nothing_said }
    {
        Firsts {
            table: IndexMap::new(alloc),
            found: None,
        }
    }

    /// What was said first of a subject.
    pub(crate) fn first_at(&self, subject: &Subject) -> Option<&First>
        ensures { option_copied result ≡ first_at self.now.table.entries subject.now }
    {
        self.table.get(subject)
    }

    /// Whether just these choices were said first of a subject. To say them again changes nothing then.
    pub(crate) fn says_choices(&self, subject: &Subject, choices: &[Choice]) -> bool
        ensures { OnTrue result ((place : APlace)
            → say (said_in self.now) subject.now (said_at place (AValue.Choices choices.now)) ≡ said_in self.now) }
    {
        match self.first_at(subject) {
            Some(first) => first.value.is_choices(choices),
            None => false,
        }
    }

    /// The same of a write set.
    pub(crate) fn says_places(&self, subject: &Subject, places: &[(Key, u64)]) -> bool
        ensures { OnTrue result ((place : APlace)
            → say (said_in self.now) subject.now (said_at place (AValue.Places places.now)) ≡ said_in self.now) }
    {
        match self.first_at(subject) {
            Some(first) => first.value.is_places(places),
            None => false,
        }
    }

    /// A fact says something of a subject.
    pub(crate) fn say(&mut self, subject: Subject, first: First) -> Result<(), Memory>
        ensures { OnOk result (said_in self.new ≡ say (said_in self.old) subject first) }
    {
        match self.table.get(&subject) {
            Some(kept) => {
                if !kept.value.is(&first.value) {
                    self.found = earlier(self.found, (kept.place, first.place));
                }
            }
            None => {
                self.table.insert(subject, first)?;
            }
        }
        Ok(())
    }
}
