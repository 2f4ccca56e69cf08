//! What an audit says at the end.
ghost use Rattle.std.specs.List.{list_all, list_any};
ghost use Rattle.std.specs.Option.{option_copied};
ghost use Rattle.std.specs.Prelude.{◌≡◌, ◌++◌, Ok, map, IfOk};
ghost use Rattle.mdcc_audit.specs.Auditing.{are_all_own, audit_end, first_undecided, is_abort_verdict, is_accepted_at, is_commit_verdict, is_decided, is_rejected_at, is_whole, places_in, verdict_at, verdict_of, verdict_unnamed, verdicts_of, write_set_of};
ghost use Rattle.mdcc_audit.specs.Represents.{state_of};
ghost use Rattle.mdcc_audit.specs.Free.{is_audit_memory};
ghost use Rattle.mdcc_base.specs.Unless.{GivesUnless};

use crate::audited::{AuditCause, AuditFault, Audited, Place, Verdict3};
use crate::subjects::Subject;
use crate::taken::Audit;
use crate::values::Value;
use crate::votes::is_own;
use mdcc_base::{HeapList, Key, Memory, TxId};
use mdcc_option::Choice;

// Whether these are the transaction's own choices, one in each of these instances.
fn are_all_own(tx: &TxId, places: &[(Key, u64)], choices: &[Choice]) -> bool
    ensures { result ≡ are_all_own tx.now places.now choices.now }
{
    if places.len() != choices.len() {
        return false;
    }
    for i in 0..places.len() {
        if !is_own(tx, &places[i].0, places[i].1, &choices[i]) {
            return false;
        }
    }
    true
}

// Whether it is a commit.
fn is_commit_verdict(verdict: Verdict3) -> bool
    ensures { result ≡ is_commit_verdict verdict }
{
    matches!(verdict, Verdict3::Commit)
}

// Whether it is an abort.
fn is_abort_verdict(verdict: Verdict3) -> bool
    ensures { result ≡ is_abort_verdict verdict }
{
    matches!(verdict, Verdict3::Abort)
}

// The write set that a value is.
fn places_in(value: &Value) -> Option<&HeapList<(Key, u64)>>
    ensures { option_copied result ≡ places_in value.now }
{
    match value {
        Value::Places(places) => Some(places),
        _ => None,
    }
}

// Whether a commit has all choices of the transaction.
fn is_whole(tx: &TxId, places: Option<&HeapList<(Key, u64)>>, choices: &HeapList<Choice>) -> bool
    ensures { result ≡ is_whole tx.now (option_copied places.entry) choices.now }
{
    match places {
        Some(places) => are_all_own(tx, places.as_slice(), choices.as_slice()),
        None => false,
    }
}

impl Audit {
    // Whether one of these options of a transaction is chosen rejected.
    fn is_any_rejected(&self, tx: &TxId, places: &[(Key, u64)]) -> bool
        ensures { result ≡ list_any (is_rejected_at (state_of self.now).counted tx.now) places.now }
    {
        places.iter().any(|e| self
            .votes
            .is_rejected(&Subject::at_instance(*tx, &e.0, e.1)))
    }

    // Whether all of these options of a transaction are chosen accepted.
    fn are_all_accepted(&self, tx: &TxId, places: &[(Key, u64)]) -> bool
        ensures { result ≡ list_all (is_accepted_at (state_of self.now).counted tx.now) places.now }
    {
        places.iter().all(|e| self
            .votes
            .is_accepted(&Subject::at_instance(*tx, &e.0, e.1)))
    }

    // How a transaction with this write set stands.
    fn verdict_at(&self, tx: &TxId, places: &[(Key, u64)]) -> Verdict3
        ensures { result ≡ verdict_at (state_of self.now).counted tx.now places.now }
    {
        if self.is_any_rejected(tx, places) {
            Verdict3::Abort
        } else if !places.is_empty() && self.are_all_accepted(tx, places) {
            Verdict3::Commit
        } else {
            Verdict3::Open
        }
    }

    // How a transaction stands that no choice names.
    fn verdict_unnamed(&self, tx: &TxId) -> Verdict3
        ensures { result ≡ verdict_unnamed (state_of self.now).counted tx.now }
    {
        if self.votes.is_rejected(&Subject::of_tx(*tx)) {
            Verdict3::Abort
        } else {
            Verdict3::Open
        }
    }

    // The write set of a transaction, as the first of its choices has it.
    fn write_set_of(&self, tx: &TxId) -> Option<&HeapList<(Key, u64)>>
        ensures { option_copied result ≡ write_set_of (state_of self.now) tx.now }
    {
        match self.choices.first_at(&Subject::of_tx(*tx)) {
            Some(first) => places_in(&first.value),
            None => None,
        }
    }

    // How a transaction stands by the votes of all logs.
    fn verdict_of(&self, tx: &TxId) -> Verdict3
        ensures { result ≡ verdict_of (state_of self.now) tx.now }
    {
        match self.write_set_of(tx) {
            Some(places) => self.verdict_at(tx, places.as_slice()),
            None => self.verdict_unnamed(tx),
        }
    }

    // Whether an outcome is what the votes decide.
    fn is_decided(&self, tx: &TxId, value: &Value) -> bool
        ensures { result ≡ is_decided (state_of self.now) tx.now value.now }
    {
        match value {
            Value::Choices(choices) => {
                is_commit_verdict(self.verdict_of(tx))
                    && is_whole(tx, self.write_set_of(tx), choices)
            }
            Value::Refusal => is_abort_verdict(self.verdict_of(tx)),
            Value::Places(_) => false,
        }
    }

    // The first fact of which the outcome isn't what the votes decide.
    fn first_undecided(&self) -> Option<Place>
        ensures { result ≡ first_undecided (state_of self.now) (state_of self.now).outcomes.table }
    {
        for (subject, first) in self.outcomes.table.iter() {
            if !self.is_decided(&subject.tx, &first.value) {
                return Some(first.place);
            }
        }
        None
    }

    // Each transaction that was named, with its verdict.
    fn verdicts(&self) -> Result<Audited, Memory>
        ensures { IfOk result (λ audited. audited ≡ verdicts_of (state_of self.now)) }
    {
        let mut verdicts = HeapList::new(self.alloc);
        for tx in self.named.iter() {
            verdicts.push((*tx, self.verdict_of(tx)))?;
        }
        Ok(Audited { verdicts })
    }

    /// What the facts decided, or which two contradict each other.
    pub fn end(&self) -> Result<Audited, AuditFault>
        ensures { GivesUnless is_audit_memory result (audit_end (state_of self.now)) }
    {
        if let Some(pair) = self.outcomes.found {
            return Err(AuditFault::Contradiction(AuditCause::Outcomes, pair.0, pair.1));
        }
        if let Some(pair) = self.marks.found {
            return Err(AuditFault::Contradiction(AuditCause::Marks, pair.0, pair.1));
        }
        if let Some(pair) = self.choices.found {
            return Err(AuditFault::Contradiction(AuditCause::Choices, pair.0, pair.1));
        }
        if let Some(place) = self.first_undecided() {
            return Err(AuditFault::Contradiction(AuditCause::Undecided, place, place));
        }
        Ok(self.verdicts()?)
    }
}
