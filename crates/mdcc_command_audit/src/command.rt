//! The command, with the statuses that it ends with.
ghost use Rattle.std.specs.Prelude.{◌≡◌, ◌+◌, [], Err, IfErr, IfSome, IsErrOf, IsTrue, Ok, OnErr, OnOk, ℕ};
ghost use Rattle.std.specs.Bool.{OnTrue};
ghost use Rattle.std.specs.Io.KnownBytes.{Appends};
ghost use Rattle.mdcc_audit.specs.Auditing.{audit_end};
ghost use Rattle.mdcc_audit.specs.Represents.{state_of};
ghost use Rattle.mdcc_command_audit.specs.Audits.{GivesVerdicts, IsCentreUpTo, IsElsewhere, IsPrintFailure, some_calls};
ghost use Rattle.mdcc_command_audit.specs.Commands.{AuditCompletes, AuditEnds, AuditEndsByLogs, DoesAudit, EndsContradicted, RunsAudit, is_audit_status};
ghost use Rattle.mdcc_command_audit.specs.Texts.{audit_text};
ghost use Rattle.mdcc_base.specs.Causes.{Rose};
ghost use Rattle.mdcc_base.specs.declared.source.ReadAllFault.{ReadAllFault as AReadAllFault};
ghost use Rattle.mdcc_node_log.specs.Opening.{OnlyOpens};
ghost use Rattle.mdcc_command_dump.specs.Commands.{UntouchedDisks};
ghost use Rattle.mdcc_command_endings.specs.Completions.{IsStill};
ghost use Rattle.mdcc_command_endings.specs.Readings.{IsEarly};
ghost use Rattle.mdcc_command_endings.specs.declared.fault.Failure.{Failure as AFailure};
ghost use Rattle.mdcc_log_file.specs.Both.{RoseAtOne};
ghost use Rattle.mdcc_log_file.specs.declared.fault.LogFault.{LogFault as ALogFault};
ghost use Rattle.mdcc_command_replay.specs.Runs.{is_own_status, own_line};
ghost use Rattle.mdcc_command_replay.specs.Writing.{Front, Tells};

use crate::Found;
use crate::logs::take_logs;
use crate::texts::{audit_text, contradiction_line};
use mdcc_audit::{Audit, AuditCause, AuditFault, Place, Verdict3};
use mdcc_base::{Sink, Source, TxId, write_all};
use mdcc_command_endings::{Failure, config_from, finish};
use mdcc_command_replay::{end, tell};
use mdcc_disks::Disks;
use std::alloc::Global;

// Prints the verdicts, or a prefix of their text where the output fails.
fn print_verdicts<O: Sink>(
    alloc: Global,
    verdicts: &[(TxId, Verdict3)],
    out: &mut O,
) -> Result<(), Failure>
    ensures all { OnOk result (Appends (O.held out.old) (O.held out.new) (audit_text verdicts.now)) }
    ensures front { IsErrOf result AFailure.Output → Front (O.held out.old) (O.held out.new) (audit_text verdicts.now) }
    ensures nothing { IsErrOf result AFailure.Memory → Appends (O.held out.old) (O.held out.new) [] }
    ensures fault { IfErr result IsPrintFailure }
    ensures output { IsErrOf result AFailure.Output → Rose (O.faults out.old) (O.faults out.new) }
{
    let Ok(text) = audit_text(alloc, verdicts) else {
        return Err(Failure::Memory);
    };
    match write_all(out, text.as_bytes()) {
        Ok(()) => Ok(()),
        Err(_) => Err(Failure::Output),
    }
}

// Prints what the facts that were taken decided, where no two contradict each other.
fn print_audit<O: Sink>(alloc: Global, audit: &Audit, out: &mut O) -> Result<Found, Failure>
    ensures answers { GivesVerdicts (audit_end (state_of audit.now)) result (O.held out.old) (O.held out.new) }
    ensures fault { IfErr result IsPrintFailure }
    ensures output { IsErrOf result AFailure.Output → Rose (O.faults out.old) (O.faults out.new) }
{
    match audit.end() {
        Ok(audited) => {
            print_verdicts(alloc, audited.as_slice(), out)?;
            Ok(Found::Verdicts)
        }
        Err(AuditFault::Contradiction(cause, a, b)) => Ok(Found::Contradiction(cause, a, b)),
        Err(AuditFault::Memory) => Err(Failure::Memory),
    }
}

// Opens the logs of all centres of the configuration that a source gives, and audits them.
fn audit_logs<S: Source, D: Disks, O: Sink>(
    alloc: Global,
    source: &mut S,
    disks: &mut D,
    out: &mut O,
) -> Result<Found, Failure>
    ensures runs { IfSome (S.left source.old) (λ input.
        RunsAudit D.disk D.may_leave D.moment D.left_since D.tears O.held disks.old disks.new out.old out.new input result) }
    ensures early { IfErr result (λ failure. IsEarly failure → UntouchedDisks disks.old disks.new out.old out.new) }
    ensures link { IsErrOf result AFailure.Link → ⊥ }
    ensures input { IsErrOf result (AFailure.Input AReadAllFault.Failed) → Rose (S.faults source.old) (S.faults source.new) }
    ensures disk { (a : ℕ) → IsErrOf result (AFailure.Log a ALogFault.DiskFault)
        → RoseAtOne (D.disk disks.old a) (D.disk disks.new a) (D.disk disks.old (a + 16)) (D.disk disks.new (a + 16)) }
    ensures output { IsErrOf result AFailure.Output → Rose (O.faults out.old) (O.faults out.new) }
    ensures opens { (a : ℕ) → IsCentreUpTo 9 a → OnlyOpens D.disk D.may_leave D.moment D.left_since D.tears disks.old disks.new a some_calls }
    ensures others { (p : ℕ) → IsElsewhere 9 p → D.disk disks.new p ≡ D.disk disks.old p }
{
    let config = config_from(alloc, source)?;
    let audit = take_logs(alloc, &config.cluster, disks)?;
    print_audit(alloc, &audit, out)
}

// Ends where two facts contradict each other.
fn end_contradicted<E: Sink>(
    alloc: Global,
    cause: AuditCause,
    a: &Place,
    b: &Place,
    err: &mut E,
) -> u8
    ensures ends { EndsContradicted cause a.now b.now result (E.held err.old) (E.held err.new) (E.faults err.old) (E.faults err.new) }
{
    match contradiction_line(alloc, cause, a, b) {
        Ok(line) => {
            tell(err, line.as_bytes());
            13
        }
        Err(_) => end(10, err),
    }
}

// Ends with what an audit found.
fn end_found<E: Sink>(alloc: Global, found: Found, err: &mut E) -> u8
    ensures ends { AuditEnds (Ok found) result (E.held err.old) (E.held err.new) (E.faults err.old) (E.faults err.new) }
    ensures status { IsTrue (is_audit_status result) }
    ensures quiet { result ≡ 0 → Appends (E.held err.old) (E.held err.new) [] }
    ensures own { OnTrue (is_own_status result) (Tells (E.held err.old) (E.held err.new) (E.faults err.old) (E.faults err.new) (own_line result)) }
{
    match found {
        Found::Verdicts => 0,
        Found::Contradiction(cause, a, b) => end_contradicted(alloc, cause, &a, &b, err),
    }
}

// Ends with the status of what an audit found, or why it failed.
fn end_audit<E: Sink>(alloc: Global, found: &Result<Found, Failure>, err: &mut E) -> u8
    ensures ends { AuditEnds found.now result (E.held err.old) (E.held err.new) (E.faults err.old) (E.faults err.new) }
    ensures status { IsTrue (is_audit_status result) }
    ensures quiet { result ≡ 0 → Appends (E.held err.old) (E.held err.new) [] }
    ensures own { OnTrue (is_own_status result) (Tells (E.held err.old) (E.held err.new) (E.faults err.old) (E.faults err.new) (own_line result)) }
{
    match found {
        Ok(found) => end_found(alloc, *found, err),
        Err(_) => finish(alloc, found, err),
    }
}

/// Audits the logs of all centres of the configuration that a source gives: it opens them in order of
/// the centres as a dump does, and prints a line for each transaction that a vote or an outcome
/// names, and how many there are. Where two facts contradict each other it ends with status 13 and
/// writes both to `err`.
pub fn run_audit<S: Source, O: Sink, E: Sink, D: Disks>(
    alloc: Global,
    source: &mut S,
    out: &mut O,
    err: &mut E,
    disks: &mut D,
) -> u8
    ensures does { DoesAudit D.disk D.may_leave D.moment D.left_since D.tears O.held disks.old disks.new out.old out.new
        (S.left source.old) result (E.held err.old) (E.held err.new) (E.faults err.old) (E.faults err.new) }
    ensures status { IsTrue (is_audit_status result) }
    ensures quiet { result ≡ 0 → Appends (E.held err.old) (E.held err.new) [] }
    ensures own { OnTrue (is_own_status result) (Tells (E.held err.old) (E.held err.new) (E.faults err.old) (E.faults err.new) (own_line result)) }
    ensures refused { result ≡ 3 → UntouchedDisks disks.old disks.new out.old out.new }
    ensures unread { result ≡ 5 → UntouchedDisks disks.old disks.new out.old out.new }
    ensures input { result ≡ 5 → Rose (S.faults source.old) (S.faults source.new) }
    ensures disk { result ≡ 7 → (a : ℕ) × RoseAtOne (D.disk disks.old a) (D.disk disks.new a) (D.disk disks.old (a + 16)) (D.disk disks.new (a + 16)) }
    ensures link { result ≡ 8 → ⊥ }
    ensures output { result ≡ 6 → Rose (O.faults out.old) (O.faults out.new) }

    // Over an accepted configuration and disks that tell their bytes: the status by the logs, and where nothing failed.
    ensures logs { AuditEndsByLogs D.disk disks.old (S.left source.old) result }
    ensures completes { IsStill (S.faults source.old) (S.faults source.new) → IsStill (O.faults out.old) (O.faults out.new) → ((p : ℕ) → IsStill (D.disk disks.old p).faults (D.disk disks.new p).faults)
        → AuditCompletes D.disk O.held disks.old out.old out.new (S.left source.old) result }
{
    let found = audit_logs(alloc, source, disks, out);
    end_audit(alloc, &found, err)
}
