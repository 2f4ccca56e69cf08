//! What is printed of an audit.
ghost use Rattle.std.specs.Prelude.{◌≡◌, ◌++◌, ◌≤◌, IfOk, OnOk, length};
ghost use Rattle.std.specs.List.{flat_map};
ghost use Rattle.std.specs.String.{string_bytes};
ghost use Rattle.mdcc_command_audit.specs.Texts.{audit_text, cause_text, committed_text, contradiction_text, number_with, others_text, place_text, totals_line, verdict_eq, verdict_line, verdict_text};
ghost use Rattle.mdcc_def_language.specs.Errors.{error_line};

use mdcc_audit::{AuditCause, Place, Verdict3};
use mdcc_base::TxId;
use std::alloc::{AllocError, Global};

// The word of a verdict.
fn verdict_text(verdict: Verdict3) -> &'static str
    ensures { result.now ≡ verdict_text verdict }
{
    match verdict {
        Verdict3::Commit => "commit",
        Verdict3::Abort => "abort",
        Verdict3::Open => "open",
    }
}

// Whether they are the same.
fn verdict_eq(a: Verdict3, b: Verdict3) -> bool
    ensures { result ≡ verdict_eq a b }
{
    match (a, b) {
        (Verdict3::Commit, Verdict3::Commit) => true,
        (Verdict3::Abort, Verdict3::Abort) => true,
        (Verdict3::Open, Verdict3::Open) => true,
        _ => false,
    }
}

// How many transactions have this verdict.
fn number_with(verdict: Verdict3, verdicts: &[(TxId, Verdict3)]) -> usize
    ensures count { result ≡ number_with verdict verdicts.now }
    ensures within { result ≤ length verdicts.now }
{
    let mut count = 0;
    for e in verdicts {
        if verdict_eq(verdict, e.1) {
            count += 1;
        }
    }
    count
}

// Adds the line of a transaction.
fn write_verdict(e: &(TxId, Verdict3), text: &mut String) -> Result<(), AllocError>
    ensures { OnOk result (string_bytes text.new ≡ string_bytes text.old ++ verdict_line e.now) }
{
    let tx = e.0;
    let verdict = verdict_text(e.1);
    write!(text, "{tx} {verdict}\n")
}

// Adds a line for each transaction.
fn write_verdicts(verdicts: &[(TxId, Verdict3)], text: &mut String) -> Result<(), AllocError>
    ensures { OnOk result (string_bytes text.new ≡ string_bytes text.old ++ flat_map verdict_line verdicts.now) }
{
    for e in verdicts {
        write_verdict(e, text)?;
    }
    Ok(())
}

// Adds how many there are, and how many of them commit.
fn write_committed(all: usize, commits: usize, text: &mut String) -> Result<(), AllocError>
    ensures { OnOk result (string_bytes text.new ≡ string_bytes text.old ++ committed_text all commits) }
{
    write!(text, "{all} commits {commits}")
}

// Adds how many abort and how many are open.
fn write_others(aborts: usize, undecided: usize, text: &mut String) -> Result<(), AllocError>
    ensures { OnOk result (string_bytes text.new ≡ string_bytes text.old ++ others_text aborts undecided) }
{
    write!(text, " aborts {aborts} open {undecided}\n")
}

// Adds the line of how many there are.
fn write_totals(verdicts: &[(TxId, Verdict3)], text: &mut String) -> Result<(), AllocError>
    ensures { OnOk result (string_bytes text.new ≡ string_bytes text.old ++ totals_line verdicts.now) }
{
    let commits = number_with(Verdict3::Commit, verdicts);
    let aborts = number_with(Verdict3::Abort, verdicts);
    let undecided = number_with(Verdict3::Open, verdicts);
    write!(text, "audit transactions ")?;
    write_committed(verdicts.len(), commits, text)?;
    write_others(aborts, undecided, text)
}

/// The lines of all verdicts, and the line of how many there are.
pub(crate) fn audit_text(alloc: Global, verdicts: &[(TxId, Verdict3)]) -> Result<String, AllocError>
    ensures { IfOk result (λ text. string_bytes text ≡ audit_text verdicts.now) }
{
    let mut text = String::new(alloc);
    write_verdicts(verdicts, &mut text)?;
    write_totals(verdicts, &mut text)?;
    Ok(text)
}

// The name of a cause.
fn cause_text(cause: AuditCause) -> &'static str
    ensures { result.now ≡ cause_text cause }
{
    match cause {
        AuditCause::Outcomes => "Outcomes",
        AuditCause::Marks => "Marks",
        AuditCause::Choices => "Choices",
        AuditCause::Undecided => "Undecided",
    }
}

// Adds the centre and the number of a fact.
fn write_place(place: &Place, text: &mut String) -> Result<(), AllocError>
    ensures { OnOk result (string_bytes text.new ≡ string_bytes text.old ++ place_text place.now) }
{
    let centre = place.centre;
    let number = place.number;
    write!(text, "{centre} {number}")
}

/// The line on the error stream where two facts contradict each other, with its line end.
pub(crate) fn contradiction_line(
    alloc: Global,
    cause: AuditCause,
    a: &Place,
    b: &Place,
) -> Result<String, AllocError>
    ensures { IfOk result (λ text. string_bytes text ≡ error_line (contradiction_text cause a.now b.now)) }
{
    let cause = cause_text(cause);
    let mut text = String::new(alloc);
    write!(text, "mdcc: audit {cause} ")?;
    write_place(a, &mut text)?;
    write!(text, " ")?;
    write_place(b, &mut text)?;
    write!(text, "\n")?;
    Ok(text)
}
