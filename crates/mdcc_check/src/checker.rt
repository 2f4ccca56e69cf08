//! What the lines of a history so far came to.
ghost use Rattle.std.specs.Prelude.{◌≡◌, ◌≤◌, IfOk, IsOkAnd, OnOk, None, Some, length};
ghost use Rattle.mdcc_option.specs.Transaction.{choices_of};
ghost use Rattle.mdcc_check.specs.declared.history.HistoryCause.{HistoryCause as ACause};
ghost use Rattle.mdcc_check.specs.declared.history.HistoryLine.{HistoryLine as ALine};
ghost use Rattle.mdcc_check.specs.Verdicts.{Progress, RepresentsProgress, after_commit, after_line, apply_cause, commit_cause, first_progress, line_cause, read_cause};

use crate::choices::choices_of;
use crate::reads::read_cause;
use crate::versions::{VersionTable, keep_all};
use crate::{HistoryCause, HistoryLine};
use indexmap::{IndexMap, IndexSet};
use mdcc_base::{Memory, TxId};
use mdcc_option::{Applied, Choice, Known, OneCopy, Part, Schema, Transaction};
use std::alloc::Global;

/// Checks the lines of a history one after another, and keeps none of them: the one-copy store after the commits so far, their
/// identifiers, and each version that a key had.
#[derive(Drop)]
pub struct Checker {
    alloc: Global,
    store: OneCopy,
    txs: IndexSet<TxId>,
    versions: VersionTable,
}

// Why a transaction that the store answers so does not commit.
fn apply_cause(applied: Applied) -> Option<HistoryCause>
    ensures { result ≡ apply_cause applied }
{
    match applied {
        Applied::Done => None,
        Applied::Refused(_) => Some(HistoryCause::Apply),
    }
}

impl Checker {
    /// No line yet.
    pub fn new(alloc: Global) -> Result<Checker, Memory>
        ensures { IfOk result (λ checker. RepresentsProgress checker first_progress) }
    {
        Ok(Checker {
            alloc,
            store: OneCopy::new(alloc)?,
            txs: IndexSet::new(alloc),
            versions: IndexMap::new(alloc),
        })
    }

    // These choices commit as a transaction, where they do not fail.
    fn commit_choices(
        &mut self,
        schema: &Schema,
        tx: &TxId,
        choices: &[Choice],
    ) -> Result<Option<HistoryCause>, Memory>
        ensures cause { (p : Progress) → RepresentsProgress self.old p
            → IfOk result (λ cause. cause ≡ commit_cause schema.now p.store p.txs tx.now choices.now) }
        ensures after { (p : Progress) → RepresentsProgress self.old p
            → IfOk result (λ cause. cause ≡ None → RepresentsProgress self.new (after_commit schema.now p tx.now choices.now)) }
        ensures kept { (p : Progress) → RepresentsProgress self.old p
            → IfOk result (λ cause. (fault : ACause) → cause ≡ Some fault → RepresentsProgress self.new p) }
    {
        if self.txs.contains(tx) {
            return Ok(Some(HistoryCause::Repeated));
        }
        if let Some(cause) = apply_cause(self.store.apply(schema, choices)?) {
            return Ok(Some(cause));
        }
        keep_all(self.alloc, &mut self.versions, choices)?;
        self.txs.insert(*tx)?;
        Ok(None)
    }

    /// Takes a transaction that committed next, and answers why it fails. One that fails changes nothing. Where there was no memory,
    /// nothing is promised of what is kept.
    pub fn commit(
        &mut self,
        schema: &Schema,
        tx: &TxId,
        transaction: &Transaction,
    ) -> Result<Option<HistoryCause>, Memory>
        ensures cause { (p : Progress) → RepresentsProgress self.old p
            → IfOk result (λ cause. cause ≡ line_cause schema.now p (ALine.Commit tx.now transaction.now)) }
        ensures after { (p : Progress) → RepresentsProgress self.old p
            → IfOk result (λ cause. cause ≡ None → RepresentsProgress self.new (after_line schema.now p (ALine.Commit tx.now transaction.now))) }
        ensures kept { (p : Progress) → RepresentsProgress self.old p
            → IfOk result (λ cause. (fault : ACause) → cause ≡ Some fault → RepresentsProgress self.new p) }
    {
        self.commit_parts(schema, tx, transaction.parts())
    }

    /// The same, of the parts of the transaction in key order.
    pub fn commit_parts(
        &mut self,
        schema: &Schema,
        tx: &TxId,
        parts: &[Part],
    ) -> Result<Option<HistoryCause>, Memory>
        requires { length parts.now ≤ 8 }
        ensures cause { (p : Progress) → RepresentsProgress self.old p
            → IfOk result (λ cause. cause ≡ line_cause schema.now p (ALine.Commit tx.now parts.now)) }
        ensures after { (p : Progress) → RepresentsProgress self.old p
            → IfOk result (λ cause. cause ≡ None → RepresentsProgress self.new (after_line schema.now p (ALine.Commit tx.now parts.now))) }
        ensures kept { (p : Progress) → RepresentsProgress self.old p
            → IfOk result (λ cause. (fault : ACause) → cause ≡ Some fault → RepresentsProgress self.new p) }
    {
        let choices = choices_of(self.alloc, tx, parts)?;
        self.commit_choices(schema, tx, choices.as_slice())
    }

    /// Why a read that comes next fails.
    pub fn read(&self, known: &Known) -> Option<HistoryCause>
        ensures { (p : Progress) → RepresentsProgress self.now p → result ≡ read_cause p.choices known.now }
    {
        read_cause(&self.versions, known)
    }

    /// Takes the next line, and answers why it fails. A line that fails changes nothing. Where there was no memory, nothing is promised of
    /// what is kept.
    pub fn take(
        &mut self,
        schema: &Schema,
        line: &HistoryLine,
    ) -> Result<Option<HistoryCause>, Memory>
        ensures cause { (p : Progress) → RepresentsProgress self.old p
            → IfOk result (λ cause. cause ≡ line_cause schema.now p line.now) }
        ensures after { (p : Progress) → RepresentsProgress self.old p
            → IfOk result (λ cause. cause ≡ None → RepresentsProgress self.new (after_line schema.now p line.now)) }
        ensures kept { (p : Progress) → RepresentsProgress self.old p
            → IfOk result (λ cause. (fault : ACause) → cause ≡ Some fault → RepresentsProgress self.new p) }
    {
        match line {
            HistoryLine::Commit(tx, transaction) => self.commit(schema, tx, transaction),
            HistoryLine::Read(known) => Ok(self.read(known)),
        }
    }
}
