//! A whole text that is checked, of which no line is kept.
ghost use Rattle.std.specs.Prelude.{◌≡◌, ◌+◌, ◌-◌, ◌<◌, ◌≤◌, ◌^◌, IfOk, List, OnOk, None, Some, length, ℕ, ℤ};
ghost use Rattle.mdcc_base.specs.Unless.{GivesUnless};
ghost use Rattle.mdcc_def_language.specs.Lines.{lines_in};
ghost use Rattle.mdcc_option.specs.Parts.{AreParts};
ghost use Rattle.mdcc_option.specs.Transaction.{checked_by, transaction_of};
ghost use Rattle.mdcc_check.specs.declared.history.HistoryLine.{HistoryLine as ALine};
ghost use Rattle.mdcc_check_histories.specs.Grammar.{first_known};
ghost use Rattle.mdcc_check_histories.specs.declared.lines.Spelled.{Spelled as ASpelled};
ghost use Rattle.mdcc_check_histories.specs.Slots.{spelled_as, spelled_in_slot};
ghost use Rattle.mdcc_check_histories.specs.Tallies.{Takes, Tallies, Tally, first_tally, found_first, is_memory, lines_tallied, tally_any, tally_line, tally_spelled, verdict_in, verdict_on, with_line};
ghost use Rattle.mdcc_check_histories.specs.Texts.{text_verdict_of};

use crate::header::parse_header;
use crate::lines::{LineFault, LineKind, Slot, empty_slot, read_line};
use crate::parts::{FirstParts, are_in_order};
use crate::places::split_line;
use mdcc_base::{Memory, TxId};
use mdcc_check::{Checker, HistoryCause};
use mdcc_def_language::HeaderFault;
use mdcc_option::{DraftFault, Known, Part, Schema, Transaction, parts_fault};
use std::alloc::Global;

/// The most bytes of a history.
pub const MOST_BYTES: usize = 67_108_864;

/// Why a text is no history, or could not be checked.
#[derive(Drop)]
pub enum HistoryFault {
    /// It has more than 67,108,864 bytes.
    TooLong,
    /// A line of its header is refused.
    Header(HeaderFault),
    /// The line of this number in the text, from 1, is refused.
    Line(u32, LineFault),
    /// There was no memory.
    Memory,
}

impl From<Memory> for HistoryFault {
    ghost use Rattle.std.specs.Prelude.{◌≡◌};
    ghost use Rattle.mdcc_check_histories.specs.declared.texts.HistoryFault.TheVariants.{Memory};

    ghost from_gives = { λ _ fault. fault ≡ Memory };

    fn from(_: Memory) -> HistoryFault {
        HistoryFault::Memory
    }
}

impl From<HeaderFault> for HistoryFault {
    ghost use Rattle.std.specs.Prelude.{◌≡◌};
    ghost use Rattle.mdcc_check_histories.specs.declared.texts.HistoryFault.TheVariants.{Header};

    ghost from_gives = { λ header fault. fault ≡ Header header };

    fn from(fault: HeaderFault) -> HistoryFault {
        HistoryFault::Header(fault)
    }
}

/// Whether a history that was read is right.
#[derive(Clone, Copy, Debug, PartialEq, Eq)]
pub enum TextVerdict {
    /// It is: so many commits, and so many reads.
    Yes(u64, u64),
    /// The line of this number in the text, from 1, is the first that fails.
    No(u32, HistoryCause),
}

// What is found where nothing was before: the line of this number, where it fails for a cause.
fn found_at(number: u32, cause: Option<HistoryCause>) -> Option<(u32, HistoryCause)>
    ensures { result ≡ found_first None number cause }
{
    match cause {
        Some(cause) => Some((number, cause)),
        None => None,
    }
}

// Why parts in key order make no transaction as they stand.
fn fault_in_order(schema: &Schema, parts: &[Part]) -> Option<DraftFault>
    requires { AreParts parts.now }
    ensures { transaction_of schema.now parts.now ≡ checked_by result parts.now }
{
    parts_fault(schema, parts)
}

/// Checks the lines of a text one after another, and keeps none of them.
#[derive(Drop)]
pub(crate) struct Tallier {
    checker: Checker,
    number: u32,
    commits: u64,
    reads: u64,
    found: Option<(u32, HistoryCause)>,
}

impl Tallier {
    // No line yet; the next one has this number.
    fn new(alloc: Global, number: u32) -> Result<Tallier, Memory>
        ensures tally { IfOk result (λ tallier. Tallies tallier (first_tally number)) }
        ensures number { IfOk result (λ tallier. tallier.number ≡ number) }
        ensures counts { IfOk result (λ tallier. tallier.commits + tallier.reads ≡ 0) }
    {
        Ok(Tallier {
            checker: Checker::new(alloc)?,
            number,
            commits: 0,
            reads: 0,
            found: None,
        })
    }

    // Takes a transaction that committed.
    fn commit(&mut self, schema: &Schema, tx: &TxId, parts: &[Part]) -> Result<(), Memory>
        requires counts { self.old.commits + self.old.reads < 2 ^ 64 - 1 }
        requires parts { length parts.now ≤ 8 }
        ensures taken { (t : Tally) → Tallies self.old t
            → OnOk result (Tallies self.new (with_line schema.now t (ALine.Commit tx.now parts.now))) }
        ensures number { OnOk result (self.new.number ≡ self.old.number) }
        ensures counts { OnOk result (self.new.commits + self.new.reads ≡ self.old.commits + self.old.reads + 1) }
    {
        self.commits += 1;
        if self.found.is_none() {
            let cause = self.checker.commit_parts(schema, tx, parts)?;
            self.found = found_at(self.number, cause);
        }
        Ok(())
    }

    // Takes a read.
    fn read(&mut self, known: &Known)
        requires { self.old.commits + self.old.reads < 2 ^ 64 - 1 }
        ensures taken { (schema : List (ℤ × ℤ)) (t : Tally) → Tallies self.old t → Tallies self.new (with_line schema t (ALine.Read known.now)) }
        ensures number { self.new.number ≡ self.old.number }
        ensures counts { self.new.commits + self.new.reads ≡ self.old.commits + self.old.reads + 1 }
    {
        self.reads += 1;
        if self.found.is_none() {
            let cause = self.checker.read(known);
            self.found = found_at(self.number, cause);
        }
    }

    // Takes a read of the first state of a key, which is always right.
    fn first_read(&mut self)
        requires { self.old.commits + self.old.reads < 2 ^ 64 - 1 }
        ensures taken { (schema : List (ℤ × ℤ)) (t : Tally) (key : List ℕ) → Tallies self.old t
            → Tallies self.new (with_line schema t (ALine.Read (first_known key))) }
        ensures number { self.new.number ≡ self.old.number }
        ensures counts { self.new.commits + self.new.reads ≡ self.old.commits + self.old.reads + 1 }
    {
        self.reads += 1;
    }

    // Takes a transaction of these parts in key order that committed, where they make one.
    fn commit_in_order(
        &mut self,
        schema: &Schema,
        tx: &TxId,
        parts: &[Part],
    ) -> Result<(), HistoryFault>
        requires counts { self.old.commits + self.old.reads < 2 ^ 64 - 1 }
        requires parts { AreParts parts.now }
        ensures taken { (t : Tally) → Tallies self.old t
            → Takes (Tallies self.new) result (tally_spelled schema.now t (ASpelled.Commit tx.now parts.now)) }
        ensures number { OnOk result (self.new.number ≡ self.old.number) }
        ensures counts { OnOk result (self.new.commits + self.new.reads ≡ self.old.commits + self.old.reads + 1) }
    {
        match fault_in_order(schema, parts) {
            None => Ok(self.commit(schema, tx, parts)?),
            Some(fault) => Err(HistoryFault::Line(self.number, LineFault::Begin(fault))),
        }
    }

    // Takes a transaction of these parts that committed, where they make one.
    fn commit_parts(
        &mut self,
        schema: &Schema,
        tx: &TxId,
        parts: &FirstParts,
    ) -> Result<(), HistoryFault>
        requires { self.old.commits + self.old.reads < 2 ^ 64 - 1 }
        ensures taken { (t : Tally) → Tallies self.old t
            → Takes (Tallies self.new) result (tally_spelled schema.now t (ASpelled.Commit tx.now parts.now)) }
        ensures number { OnOk result (self.new.number ≡ self.old.number) }
        ensures counts { OnOk result (self.new.commits + self.new.reads ≡ self.old.commits + self.old.reads + 1) }
    {
        let parts = parts.as_slice();
        if are_in_order(parts) {
            return self.commit_in_order(schema, tx, parts);
        }
        match Transaction::new(schema, parts) {
            Ok(transaction) => Ok(self.commit(schema, tx, transaction.parts())?),
            Err(fault) => Err(HistoryFault::Line(self.number, LineFault::Begin(fault))),
        }
    }

    // Takes a line of which the large part may be in the slot.
    fn take_kind(
        &mut self,
        schema: &Schema,
        kind: &LineKind,
        slot: &Slot,
    ) -> Result<(), HistoryFault>
        requires { self.old.commits + self.old.reads < 2 ^ 64 - 1 }
        ensures taken { (t : Tally) → Tallies self.old t → Takes (Tallies self.new) result (tally_any schema.now t (Some (spelled_as kind.now slot.now))) }
        ensures number { OnOk result (self.new.number ≡ self.old.number) }
        ensures counts { OnOk result (self.new.commits + self.new.reads ≡ self.old.commits + self.old.reads + 1) }
    {
        match kind {
            LineKind::Commit(tx) => self.commit_parts(schema, tx, &slot.parts),
            LineKind::First(_) => {
                self.first_read();
                Ok(())
            }
            LineKind::Read => {
                self.read(&slot.known);
                Ok(())
            }
        }
    }

    // Takes a line that may be skipped.
    fn take_any(
        &mut self,
        schema: &Schema,
        kind: &Option<LineKind>,
        slot: &Slot,
    ) -> Result<(), HistoryFault>
        requires { self.old.commits + self.old.reads < 2 ^ 64 - 1 }
        ensures taken { (t : Tally) → Tallies self.old t → Takes (Tallies self.new) result (tally_any schema.now t (spelled_in_slot kind.now slot.now)) }
        ensures number { OnOk result (self.new.number ≡ self.old.number) }
        ensures counts { OnOk result (self.new.commits + self.new.reads ≤ self.old.commits + self.old.reads + 1) }
    {
        match kind {
            None => Ok(()),
            Some(kind) => self.take_kind(schema, kind, slot),
        }
    }

    // Takes the next line.
    fn take(&mut self, schema: &Schema, line: &[u8], slot: &mut Slot) -> Result<(), HistoryFault>
        requires number { self.old.number < 2 ^ 32 - 1 }
        requires counts { self.old.commits + self.old.reads < 2 ^ 64 - 1 }
        ensures taken { (t : Tally) → Tallies self.old t → Takes (Tallies self.new) result (tally_line schema.now t line.now) }
        ensures number { OnOk result (self.new.number ≡ self.old.number + 1) }
        ensures counts { OnOk result (self.new.commits + self.new.reads ≤ self.old.commits + self.old.reads + 1) }
    {
        match read_line(line, slot) {
            Ok(kind) => {
                self.take_any(schema, &kind, slot)?;
                self.number += 1;
                Ok(())
            }
            Err(fault) => Err(HistoryFault::Line(self.number, LineFault::Text(fault))),
        }
    }

    // The verdict on the lines so far.
    fn verdict(&self) -> TextVerdict
        ensures { (t : Tally) → Tallies self.now t → result ≡ verdict_in t }
    {
        match self.found {
            Some((number, cause)) => TextVerdict::No(number, cause),
            None => TextVerdict::Yes(self.commits, self.reads),
        }
    }
}

// The verdict on the lines of a text, the first of which has this number.
fn check_rest(
    alloc: Global,
    schema: &Schema,
    first: u32,
    text: &[u8],
) -> Result<TextVerdict, HistoryFault>
    requires { first + length text.now < 2 ^ 32 - 1 }
    ensures { GivesUnless is_memory result (verdict_on (lines_tallied schema.now (first_tally first) (lines_in text.now))) }
{
    let mut tallier = Tallier::new(alloc, first)?;
    let mut slot = empty_slot();
    let mut rest = text;
    while !rest.is_empty() {
        let (line, others) = split_line(rest);
        tallier.take(schema, line, &mut slot)?;
        rest = others;
    }
    Ok(tallier.verdict())
}

/// The verdict on a text that is a history: whether its commits are a run of the one-copy store with identifiers of their own, and each read
/// is right over the commits before it; else the first line that fails. No line of it is kept.
pub fn check_text(alloc: Global, text: &[u8]) -> Result<TextVerdict, HistoryFault>
    ensures { GivesUnless is_memory result (text_verdict_of text.now) }
{
    if text.len() > MOST_BYTES {
        return Err(HistoryFault::TooLong);
    }
    let (schema, unread) = parse_header(text)?;
    check_rest(alloc, &schema, unread.number(), unread.rest())
}
