//! Text that is written to a sink.
ghost use Rattle.std.specs.Prelude.{◌≡◌, ◌≤◌, ◌++◌, IfOk, IsErrOf, OnErr, OnOk};
ghost use Rattle.std.specs.Io.KnownBytes.{Appends};
ghost use Rattle.mdcc_base.specs.Causes.{Rose};
ghost use Rattle.mdcc_def_language.specs.Report.{line_text, lines_text};
ghost use Rattle.mdcc_command_replay.specs.Writing.{Front, Tells};

use mdcc_base::{Failed, Memory, Sink, write_all};
use mdcc_def_language::Line;
use mdcc_sched::print_line;
use std::alloc::{AllocError, Global};

/// Why a report was not written whole.
#[derive(Clone, Copy, Debug, PartialEq, Eq)]
pub enum Failure {
    /// A write to the output failed.
    Output,
    /// There was no memory.
    Memory,
}

impl From<Failed> for Failure {
    ghost use Rattle.std.specs.Prelude.{◌≡◌};
    ghost use Rattle.mdcc_command_replay.specs.declared.writing.Failure.TheVariants.{Output};

    ghost from_gives = { λ _ e. e ≡ Output };

    fn from(_: Failed) -> Failure {
        Failure::Output
    }
}

impl From<Memory> for Failure {
    ghost use Rattle.std.specs.Prelude.{◌≡◌};
    ghost use Rattle.mdcc_command_replay.specs.declared.writing.Failure.TheVariants.{Memory};

    ghost from_gives = { λ _ e. e ≡ Memory };

    fn from(_: Memory) -> Failure {
        Failure::Memory
    }
}

impl From<AllocError> for Failure {
    ghost use Rattle.std.specs.Prelude.{◌≡◌};
    ghost use Rattle.mdcc_command_replay.specs.declared.writing.Failure.TheVariants.{Memory};

    ghost from_gives = { λ _ e. e ≡ Memory };

    fn from(_: AllocError) -> Failure {
        Failure::Memory
    }
}

/// Writes a text, or a front of it where a write failed.
pub fn write_text<O: Sink>(out: &mut O, text: &[u8]) -> Result<(), Failure>
    ensures all { OnOk result (Appends (O.held out.old) (O.held out.new) text.now) }
    ensures front { OnErr result (Front (O.held out.old) (O.held out.new) text.now) }
    ensures later { O.faults out.old ≤ O.faults out.new }
    ensures failed { IsErrOf result Failure.Output → Rose (O.faults out.old) (O.faults out.new) }
{
    write_all(out, text)?;
    Ok(())
}

/// Writes a line on the error stream as far as that goes.
pub fn tell<E: Sink>(err: &mut E, line: &[u8])
    ensures { Tells (E.held err.old) (E.held err.new) (E.faults err.old) (E.faults err.new) line.now }
{
    let _ = write_all(err, line);
}

// Adds the text of lines.
fn print_lines(lines: &[Line], text: &mut Vec<u8>) -> Result<(), Memory>
    ensures { OnOk result (text.new.items ≡ text.old.items ++ lines_text lines.now) }
{
    for line in lines {
        print_line(line, text)?;
    }
    Ok(())
}

/// The text of lines of a report.
pub(crate) fn lines_text(alloc: Global, lines: &[Line]) -> Result<Vec<u8>, Memory>
    ensures { IfOk result (λ text. text.items ≡ lines_text lines.now) }
{
    let mut text = Vec::new(alloc);
    print_lines(lines, &mut text)?;
    Ok(text)
}

/// The text of a line of a report.
pub(crate) fn line_text(alloc: Global, line: &Line) -> Result<Vec<u8>, Memory>
    ensures { IfOk result (λ text. text.items ≡ line_text line.now) }
{
    let mut text = Vec::new(alloc);
    print_line(line, &mut text)?;
    Ok(text)
}
