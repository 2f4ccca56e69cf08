//! What the program does with an input, and how it ends.
ghost use Rattle.std.specs.Prelude.{◌≡◌, ◌≢◌, ◌↔◌, ◌≤◌, ◌∷◌, [], codes, map, true, IfSome, IsTrue};
ghost use Rattle.std.specs.Bool.{OnFalse, OnTrue};
ghost use Rattle.std.specs.Io.KnownBytes.{Appends, IsAtEnd};
ghost use Rattle.std.specs.String.{string_bytes};
ghost use Rattle.mdcc_base.specs.Causes.{Rose};
ghost use Rattle.mdcc_def_language.specs.Errors.{error_text};
ghost use Rattle.mdcc_def_simulation.specs.Replay.{output_of, replay_of};
ghost use Rattle.mdcc_command_replay.specs.Runs.{IsStatus, is_own_status, is_status, own_line, refusal_line};
ghost use Rattle.mdcc_command_replay.specs.Writing.{Front, Tells};

use crate::writing::tell;
use crate::{Failure, Refusal, Simulation, replay};
use mdcc_base::{ReadAllFault, Sink, Source, read_all};
use std::alloc::Global;

// The line of a status that no input has.
fn own_line(status: u8) -> &'static str
    ensures { result.now ≡ own_line status }
{
    match status {
        2 => "mdcc: words\n",
        5 => "mdcc: input failed\n",
        6 => "mdcc: output failed\n",
        _ => "mdcc: memory\n",
    }
}

/// Ends with a status that no input has.
pub fn end<E: Sink>(status: u8, err: &mut E) -> u8
    ensures status { result ≡ status }
    ensures told { Tells (E.held err.old) (E.held err.new) (E.faults err.old) (E.faults err.new) (own_line status) }
{
    tell(err, own_line(status).as_bytes());
    status
}

/// Ends where the words are those of no command.
pub fn refuse_words<E: Sink>(err: &mut E) -> u8
    ensures status { result ≡ 2 }
    ensures told { Tells (E.held err.old) (E.held err.new) (E.faults err.old) (E.faults err.new) (own_line 2) }
{
    end(2, err)
}

// Ends where an input was refused.
fn end_refused<E: Sink>(alloc: Global, refusal: &Refusal, err: &mut E) -> u8
    ensures status { IsStatus (Ok (Some refusal.now)) result }
    ensures early { result ≢ 0 }
    ensures own { OnTrue (is_own_status result) (Tells (E.held err.old) (E.held err.new) (E.faults err.old) (E.faults err.new) (own_line result)) }
    ensures line { OnFalse (is_own_status result) (Tells (E.held err.old) (E.held err.new) (E.faults err.old) (E.faults err.new)
        (refusal_line (Ok (Some refusal.now)))) }
{
    let status = refusal.status();
    if status == 10 {
        return end(10, err);
    }
    match refusal.line(alloc) {
        Ok(line) => {
            tell(err, line.as_bytes());
            status
        }
        Err(_) => end(10, err),
    }
}

/// Ends behind a replay.
pub(crate) fn finish<E: Sink>(
    alloc: Global,
    replayed: Result<Option<Refusal>, Failure>,
    err: &mut E,
) -> u8
    ensures status { IsStatus replayed result }
    ensures quiet { result ≡ 0 → Appends (E.held err.old) (E.held err.new) [] }
    ensures own { OnTrue (is_own_status result) (Tells (E.held err.old) (E.held err.new) (E.faults err.old) (E.faults err.new) (own_line result)) }
    ensures line { OnFalse (is_own_status result) (Tells (E.held err.old) (E.held err.new) (E.faults err.old) (E.faults err.new)
        (refusal_line replayed)) }
{
    match replayed {
        Ok(None) => 0,
        Ok(Some(refusal)) => end_refused(alloc, &refusal, err),
        Err(Failure::Output) => end(6, err),
        Err(Failure::Memory) => end(10, err),
    }
}

/// Replays what a source gives: it reads the whole input, a schedule, and writes the report to `out`.
pub fn run_replay<W: Simulation + Drop, S: Source, O: Sink, E: Sink>(
    alloc: Global,
    source: &mut S,
    out: &mut O,
    err: &mut E,
) -> u8
    ensures words { result ≢ 2 }
    ensures status { IsTrue (is_status result) }
    ensures whole { IfSome (S.left source.old) (λ input. let output = output_of (replay_of input) in
        OnFalse (is_own_status result) ((result ≡ output.status) × Appends (O.held out.old) (O.held out.new) output.text)) }
    ensures front { IfSome (S.left source.old) (λ input.
        Front (O.held out.old) (O.held out.new) (output_of (replay_of input)).text) }
    ensures refused { result ≡ 3 → Appends (O.held out.old) (O.held out.new) [] }
    ensures nothing { result ≡ 5 → Appends (O.held out.old) (O.held out.new) [] }
    ensures end { result ≡ 0 → IsAtEnd (S.left source.new) }
    ensures read { result ≡ 5 → Rose (S.faults source.old) (S.faults source.new) }
    ensures write { result ≡ 6 → Rose (O.faults out.old) (O.faults out.new) }
    ensures quiet { result ≡ 0 → Appends (E.held err.old) (E.held err.new) [] }
    ensures own { OnTrue (is_own_status result) (Tells (E.held err.old) (E.held err.new) (E.faults err.old) (E.faults err.new) (own_line result)) }
    ensures line { IfSome (S.left source.old) (λ input. OnFalse (is_own_status result)
        (Tells (E.held err.old) (E.held err.new) (E.faults err.old) (E.faults err.new) (output_of (replay_of input)).error)) }
{
    match read_all(alloc, source) {
        Ok(input) => finish(alloc, replay::<W, O>(alloc, input.as_slice(), out), err),
        Err(ReadAllFault::TooLong) => end_refused(alloc, &Refusal::TooLong, err),
        Err(ReadAllFault::Failed) => end(5, err),
        Err(ReadAllFault::Memory) => end(10, err),
    }
}
