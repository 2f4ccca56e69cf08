//! The end of a command.
ghost use Rattle.std.specs.Prelude.{◌≡◌, ◌≢◌, [], Err, IsTrue};
ghost use Rattle.std.specs.Bool.{OnTrue};
ghost use Rattle.std.specs.Io.KnownBytes.{Appends};
ghost use Rattle.mdcc_command_endings.specs.Endings.{EndsWithStatus, is_ending};
ghost use Rattle.mdcc_command_replay.specs.Runs.{is_own_status, own_line};
ghost use Rattle.mdcc_command_replay.specs.Writing.{Tells};

use crate::Failure;
use mdcc_base::Sink;
use mdcc_command_replay::{end, tell};
use std::alloc::Global;

// Ends as a command that failed.
#[tactic(auto, using(crate::proofs::StatusLines::memory_line, crate::proofs::StatusLines::own_lines, crate::proofs::StatusLines::failures_end))]
fn end_failed<E: Sink>(alloc: Global, failure: &Failure, err: &mut E) -> u8
    ensures ends { EndsWithStatus {T = Unit {0}} (Err failure.now) result (E.held err.old) (E.held err.new) (E.faults err.old) (E.faults err.new) }
    ensures some { result ≢ 0 }
    ensures status { IsTrue (is_ending result) }
    ensures own { OnTrue (is_own_status result) (Tells (E.held err.old) (E.held err.new) (E.faults err.old) (E.faults err.new) (own_line result)) }
{
    match failure.line(alloc) {
        Ok(line) => {
            tell(err, line.as_bytes());
            failure.status()
        }
        Err(_) => end(10, err),
    }
}

/// Ends a command with the status of what it did.
pub fn finish<T, E: Sink>(alloc: Global, done: &Result<T, Failure>, err: &mut E) -> u8
    ensures ends { EndsWithStatus done.now result (E.held err.old) (E.held err.new) (E.faults err.old) (E.faults err.new) }
    ensures status { IsTrue (is_ending result) }
    ensures quiet { result ≡ 0 → Appends (E.held err.old) (E.held err.new) [] }
    ensures own { OnTrue (is_own_status result) (Tells (E.held err.old) (E.held err.new) (E.faults err.old) (E.faults err.new) (own_line result)) }
{
    match done {
        Ok(_) => 0,
        Err(failure) => end_failed(alloc, failure, err),
    }
}
