//! The command, with the statuses that it ends with.
ghost use Rattle.std.specs.Prelude.{◌≡◌, [], Err, IfSome, IsErrOf, IsTrue, List, Ok, OnErr, OnOk, Option, ℕ};
ghost use Rattle.std.specs.Bool.{OnTrue};
ghost use Rattle.std.specs.Io.KnownBytes.{Appends, IsAtEnd};
ghost use Rattle.mdcc_base.specs.Causes.{Rose};
ghost use Rattle.mdcc_command_check.specs.Checks.{Answers, DoesCheck, answer_to_input, checked_answer, history_verdict_text, is_check_status};
ghost use Rattle.mdcc_check_histories.specs.declared.texts.HistoryFault.{HistoryFault as AHistoryFault};
ghost use Rattle.mdcc_command_replay.specs.Runs.{is_own_status, own_line};
ghost use Rattle.mdcc_command_replay.specs.Writing.{Front, Tells};

use crate::texts::{fault_line, fault_status, verdict_line, verdict_status};
use mdcc_base::{ReadAllFault, Sink, Source, read_all};
use mdcc_check_histories::{HistoryFault, TextVerdict, check_text};
use mdcc_command_replay::{Failure, end, tell, write_text};
use std::alloc::Global;

// Prints a verdict, or a prefix of its line.
fn print_verdict<O: Sink>(alloc: Global, verdict: TextVerdict, out: &mut O) -> Result<(), Failure>
    ensures all { OnOk result (Appends (O.held out.old) (O.held out.new) (history_verdict_text verdict)) }
    ensures front { OnErr result (Front (O.held out.old) (O.held out.new) (history_verdict_text verdict)) }
    ensures output { IsErrOf result Failure.Output → Rose (O.faults out.old) (O.faults out.new) }
{
    let text = verdict_line(alloc, verdict)?;
    write_text(out, text.as_bytes())
}

// Ends with a verdict.
fn end_judged<O: Sink, E: Sink>(alloc: Global, verdict: TextVerdict, out: &mut O, err: &mut E) -> u8
    ensures answers { Answers (checked_answer (Ok verdict)) result (O.held out.old) (O.held out.new)
        (E.held err.old) (E.held err.new) (E.faults err.old) (E.faults err.new) }
    ensures status { IsTrue (is_check_status result) }
    ensures judged { (result ≡ 3 → ⊥) × (result ≡ 5 → ⊥) }
    ensures output { result ≡ 6 → Rose (O.faults out.old) (O.faults out.new) }
    ensures quiet { result ≡ 0 → Appends (E.held err.old) (E.held err.new) [] }
    ensures own { OnTrue (is_own_status result) (Tells (E.held err.old) (E.held err.new) (E.faults err.old) (E.faults err.new) (own_line result)) }
{
    match print_verdict(alloc, verdict, out) {
        Ok(()) => verdict_status(verdict),
        Err(Failure::Output) => end(6, err),
        Err(Failure::Memory) => end(10, err),
    }
}

// Ends where a text is no history.
fn end_refused<E: Sink>(alloc: Global, fault: HistoryFault, err: &mut E) -> u8
    ensures answers { (held : Option (List ℕ)) → Answers (checked_answer (Err fault)) result held held
        (E.held err.old) (E.held err.new) (E.faults err.old) (E.faults err.new) }
    ensures memory { fault ≡ AHistoryFault.Memory → result ≡ 10 }
    ensures status { IsTrue (is_check_status result) }
    ensures early { (result ≡ 0 → ⊥) × (result ≡ 5 → ⊥) × (result ≡ 6 → ⊥) }
    ensures own { OnTrue (is_own_status result) (Tells (E.held err.old) (E.held err.new) (E.faults err.old) (E.faults err.new) (own_line result)) }
{
    let status = fault_status(&fault);
    if status == 10 {
        return end(10, err);
    }
    match fault_line(alloc, fault) {
        Ok(line) => {
            tell(err, line.as_bytes());
            status
        }
        Err(_) => end(10, err),
    }
}

// Checks a text.
fn check<O: Sink, E: Sink>(alloc: Global, text: &[u8], out: &mut O, err: &mut E) -> u8
    ensures answers { Answers (answer_to_input text.now) result (O.held out.old) (O.held out.new)
        (E.held err.old) (E.held err.new) (E.faults err.old) (E.faults err.new) }
    ensures status { IsTrue (is_check_status result) }
    ensures read { result ≡ 5 → ⊥ }
    ensures refused { result ≡ 3 → Appends (O.held out.old) (O.held out.new) [] }
    ensures output { result ≡ 6 → Rose (O.faults out.old) (O.faults out.new) }
    ensures quiet { result ≡ 0 → Appends (E.held err.old) (E.held err.new) [] }
    ensures own { OnTrue (is_own_status result) (Tells (E.held err.old) (E.held err.new) (E.faults err.old) (E.faults err.new) (own_line result)) }
{
    match check_text(alloc, text) {
        Ok(verdict) => end_judged(alloc, verdict, out, err),
        Err(fault) => end_refused(alloc, fault, err),
    }
}

/// Checks the history that a source gives: it reads all of it, and prints the verdict to `out`. At
/// status 13 the history is not right, and nothing is written to `err`.
pub fn run_check<S: Source, O: Sink, E: Sink>(
    alloc: Global,
    source: &mut S,
    out: &mut O,
    err: &mut E,
) -> u8
    ensures does { IfSome (S.left source.old) (λ input. DoesCheck input result (O.held out.old) (O.held out.new)
        (E.held err.old) (E.held err.new) (E.faults err.old) (E.faults err.new)) }
    ensures status { IsTrue (is_check_status result) }
    ensures refused { result ≡ 3 → Appends (O.held out.old) (O.held out.new) [] }
    ensures nothing { result ≡ 5 → Appends (O.held out.old) (O.held out.new) [] }
    ensures end { result ≡ 0 → IsAtEnd (S.left source.new) }
    ensures read { result ≡ 5 → Rose (S.faults source.old) (S.faults source.new) }
    ensures write { result ≡ 6 → Rose (O.faults out.old) (O.faults out.new) }
    ensures quiet { result ≡ 0 → Appends (E.held err.old) (E.held err.new) [] }
    ensures own { OnTrue (is_own_status result) (Tells (E.held err.old) (E.held err.new) (E.faults err.old) (E.faults err.new) (own_line result)) }
{
    match read_all(alloc, source) {
        Ok(input) => check(alloc, input.as_slice(), out, err),
        Err(ReadAllFault::TooLong) => end_refused(alloc, HistoryFault::TooLong, err),
        Err(ReadAllFault::Failed) => end(5, err),
        Err(ReadAllFault::Memory) => end(10, err),
    }
}
