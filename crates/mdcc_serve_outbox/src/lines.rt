//! The lines of a server.
ghost use Rattle.std.specs.Prelude.{◌≡◌, ◌≤◌, ◌++◌, length, take, ℕ, IsErrOf, OnOk};
ghost use Rattle.std.specs.Io.KnownBytes.{Appends};
ghost use Rattle.std.specs.String.{string_bytes};
ghost use Rattle.mdcc_base.specs.Causes.{Rose};
ghost use Rattle.mdcc_def_language.specs.Report.{outcome_text};
ghost use Rattle.mdcc_serve_outbox.specs.declared.fault.PrintFault.{PrintFault as APrintFault};
ghost use Rattle.mdcc_def_server_runs.specs.Lines.{server_line_text, server_words_text};
ghost use Rattle.mdcc_def_server_runs.specs.declared.lines.ServerLine.{ServerLine as AServerLine};

use crate::PrintFault;
use mdcc_base::{Centre, Sink, TxId, write_all};
use mdcc_def_server_runs::ServerLine;
use std::alloc::{AllocError, Global};

// The word of an outcome.
fn outcome_text(is_commit: bool) -> &'static str
    ensures { result.now ≡ outcome_text is_commit }
{
    if is_commit { "commit" } else { "abort" }
}

// `heard`
fn write_heard(
    centre: Centre,
    tx: &TxId,
    is_commit: bool,
    text: &mut String,
) -> Result<(), AllocError>
    ensures { OnOk result
        (string_bytes text.new ≡ string_bytes text.old ++ server_words_text (AServerLine.Heard centre tx.now is_commit)) }
{
    let outcome = outcome_text(is_commit);
    write!(text, "heard {centre} {tx} {outcome}")
}

// Adds a line without its line end.
fn write_words(line: &ServerLine, text: &mut String) -> Result<(), AllocError>
    ensures { OnOk result (string_bytes text.new ≡ string_bytes text.old ++ server_words_text line.now) }
{
    match line {
        ServerLine::Booted(centre, epoch) => write!(text, "boot {centre} epoch {epoch}"),
        ServerLine::Heard(centre, tx, is_commit) => write_heard(*centre, tx, *is_commit, text),
        ServerLine::Done {
            turns,
            steps,
            dropped,
            lost,
        } => write!(
            text,
            "done turns {turns} steps {steps} dropped {dropped} lost {lost}"
        ),
    }
}

/// Prints a line. A front of it may be printed where a write fails, and nothing without memory.
pub fn print<O: Sink>(alloc: Global, line: &ServerLine, out: &mut O) -> Result<(), PrintFault>
    ensures printed { OnOk result (Appends (O.held out.old) (O.held out.new) (server_line_text line.now)) }
    ensures front { IsErrOf result APrintFault.Output
        → (n : ℕ) × (n ≤ length (server_line_text line.now)) × Appends (O.held out.old) (O.held out.new) (take n (server_line_text line.now)) }
    ensures cause { IsErrOf result APrintFault.Output → Rose (O.faults out.old) (O.faults out.new) }
    ensures memory { IsErrOf result APrintFault.Memory → out.new ≡ out.old }
    ensures later { O.faults out.old ≤ O.faults out.new }
{
    let mut text = String::new(alloc);
    write_words(line, &mut text)?;
    write!(text, "\n")?;
    if write_all(out, text.as_bytes()).is_err() {
        return Err(PrintFault::Output);
    }
    Ok(())
}
