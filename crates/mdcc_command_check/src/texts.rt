//! What is printed of a history.
ghost use Rattle.std.specs.Prelude.{◌≡◌, ◌++◌, IfOk, OnOk, Some, ℕ};
ghost use Rattle.std.specs.String.{string_bytes};
ghost use Rattle.mdcc_command_check.specs.Checks.{cause_text, history_fault_of, history_verdict_text, line_fault_of, verdict_status};
ghost use Rattle.mdcc_def_language.specs.Errors.{error_line, error_text, sched_fault_text, status_at_line, status_of};

use mdcc_check::HistoryCause;
use mdcc_check_histories::{HistoryFault, LineFault, TextVerdict};
use mdcc_command_replay::Refusal;
use mdcc_def_language::{EventFault, SchedCause};
use mdcc_sched_words::TextFault;
use std::alloc::{AllocError, Global};

// The name of a cause.
fn cause_text(cause: HistoryCause) -> &'static str
    ensures { result.now ≡ cause_text cause }
{
    match cause {
        HistoryCause::Repeated => "Repeated",
        HistoryCause::Apply => "Apply",
        HistoryCause::Version => "Version",
        HistoryCause::Seen => "Seen",
        HistoryCause::Value => "Value",
    }
}

// Adds the line of a verdict.
fn write_verdict(verdict: TextVerdict, text: &mut String) -> Result<(), AllocError>
    ensures { OnOk result (string_bytes text.new ≡ string_bytes text.old ++ history_verdict_text verdict) }
{
    match verdict {
        TextVerdict::Yes(commits, reads) => write!(text, "yes commits {commits} reads {reads}\n"),
        TextVerdict::No(line, cause) => {
            let cause = cause_text(cause);
            write!(text, "no line {line} {cause}\n")
        }
    }
}

/// The line of a verdict, with its line end.
pub(crate) fn verdict_line(alloc: Global, verdict: TextVerdict) -> Result<String, AllocError>
    ensures { IfOk result (λ text. string_bytes text ≡ history_verdict_text verdict) }
{
    let mut text = String::new(alloc);
    write_verdict(verdict, &mut text)?;
    Ok(text)
}

/// The status of a verdict.
pub(crate) fn verdict_status(verdict: TextVerdict) -> u8
    ensures { result ≡ verdict_status verdict }
{
    match verdict {
        TextVerdict::Yes(_, _) => 0,
        TextVerdict::No(_, _) => 13,
    }
}

// Adds why the words of a line are refused.
fn write_text_fault(line: u32, fault: &TextFault, text: &mut String) -> Result<(), AllocError>
    ensures { OnOk result (string_bytes text.new
        ≡ string_bytes text.old ++ sched_fault_text line fault.now.column fault.now.cause) }
{
    let column = fault.column();
    match fault.cause() {
        SchedCause::Memory => write!(text, "memory"),
        SchedCause::Word => write!(text, "line {line} column {column}: Word"),
        SchedCause::Number => write!(text, "line {line} column {column}: Number"),
        SchedCause::Key => write!(text, "line {line} column {column}: Key"),
        SchedCause::Range => write!(text, "line {line} column {column}: Range"),
        SchedCause::Order => write!(text, "line {line} column {column}: Order"),
    }
}

// The line on the error stream where the words of a line are refused.
fn text_fault_line(alloc: Global, line: u32, fault: &TextFault) -> Result<String, AllocError>
    ensures { IfOk result (λ text. string_bytes text ≡ error_line (sched_fault_text line fault.now.column fault.now.cause)) }
{
    let mut text = String::new(alloc);
    write!(text, "mdcc: ")?;
    write_text_fault(line, fault, &mut text)?;
    write!(text, "\n")?;
    Ok(text)
}

/// The line on the error stream where a text is no history, with its line end.
pub(crate) fn fault_line(alloc: Global, fault: HistoryFault) -> Result<String, AllocError>
    ensures { IfOk result (λ text. string_bytes text ≡ error_text (Some (history_fault_of fault))) }
{
    match fault {
        HistoryFault::TooLong => Refusal::TooLong.line(alloc),
        HistoryFault::Header(fault) => Refusal::Header(fault).line(alloc),
        HistoryFault::Line(line, LineFault::Text(fault)) => text_fault_line(alloc, line, &fault),
        HistoryFault::Line(line, LineFault::Begin(fault)) => {
            Refusal::Event(line, EventFault::Begin(fault)).line(alloc)
        }
        HistoryFault::Memory => Refusal::Event(0, EventFault::Memory).line(alloc),
    }
}

// The status of a line whose words are refused.
fn text_fault_status(fault: &TextFault) -> u8
    ensures { result ≡ status_at_line fault.now.cause }
{
    match fault.cause() {
        SchedCause::Memory => 10,
        _ => 4,
    }
}

// The status of a line that is refused.
fn line_status(fault: &LineFault) -> u8
    ensures { (line : ℕ) → result ≡ status_of (Some (line_fault_of line fault.now)) }
{
    match fault {
        LineFault::Text(fault) => text_fault_status(fault),
        LineFault::Begin(_) => 4,
    }
}

/// The status where a text is no history.
pub(crate) fn fault_status(fault: &HistoryFault) -> u8
    ensures { result ≡ status_of (Some (history_fault_of fault.now)) }
{
    match fault {
        HistoryFault::TooLong => 11,
        HistoryFault::Header(_) => 3,
        HistoryFault::Line(_, fault) => line_status(fault),
        HistoryFault::Memory => 10,
    }
}
