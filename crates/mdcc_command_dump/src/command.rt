//! The command, with the statuses that it ends with.
ghost use Rattle.std.specs.Prelude.{◌≡◌, ◌+◌, [], IfErr, IfSome, IsErrOf, IsTrue, ℕ};
ghost use Rattle.std.specs.Bool.{OnTrue};
ghost use Rattle.std.specs.Io.KnownBytes.{Appends};
ghost use Rattle.mdcc_log_file.specs.Both.{KeepsBut, RoseAtOne};
ghost use Rattle.mdcc_log_file.specs.declared.fault.LogFault.{LogFault as ALogFault};
ghost use Rattle.mdcc_base.specs.Causes.{Rose};
ghost use Rattle.mdcc_base.specs.declared.source.ReadAllFault.{ReadAllFault as AReadAllFault};
ghost use Rattle.mdcc_command_dump.specs.Commands.{DoesDump, DumpCompletes, DumpEndsByLog, RunsDump, UntouchedDisks, as_done, of_dump};
ghost use Rattle.mdcc_node_log.specs.Opening.{OnlyOpens, StaysAsLog};
ghost use Rattle.mdcc_command_endings.specs.Completions.{IsStill};
ghost use Rattle.mdcc_command_endings.specs.Endings.{is_ending};
ghost use Rattle.mdcc_command_endings.specs.Readings.{IsEarly};
ghost use Rattle.mdcc_command_endings.specs.declared.fault.Failure.{Failure as AFailure};
ghost use Rattle.mdcc_command_replay.specs.Runs.{is_own_status, own_line};
ghost use Rattle.mdcc_command_replay.specs.Writing.{Tells};

use crate::{DumpFault, dump};
use mdcc_base::{Centre, Sink, Source};
use mdcc_command_endings::{Failure, centre_of, config_from, finish};
use mdcc_disks::Disks;
use mdcc_node_log::StartFault;
use std::alloc::Global;

// A fault at a centre as a command has it.
fn of_dump(centre: Centre, fault: DumpFault) -> Failure
    ensures { result ≡ of_dump centre fault }
{
    match fault {
        DumpFault::Log(StartFault::Log(fault)) => Failure::Log(centre, fault),
        DumpFault::Log(StartFault::Boot(fault)) => Failure::Boot(centre, fault),
        DumpFault::Log(StartFault::Memory) => Failure::Memory,
        DumpFault::Output => Failure::Output,
        DumpFault::Memory => Failure::Memory,
    }
}

// What a dump of a centre did, as a command has it.
fn as_done(centre: Centre, dumped: Result<(), DumpFault>) -> Result<(), Failure>
    ensures { result ≡ as_done centre dumped }
{
    match dumped {
        Ok(()) => Ok(()),
        Err(fault) => Err(of_dump(centre, fault)),
    }
}

// Prints the facts of the log of the centre of a number.
fn dump_one<S: Source, D: Disks, O: Sink>(
    alloc: Global,
    number: u32,
    source: &mut S,
    disks: &mut D,
    out: &mut O,
) -> Result<(), Failure>
    ensures runs { IfSome (S.left source.old) (λ input. RunsDump D.disk O.held disks.old disks.new out.old out.new input number result) }
    ensures early { IfErr result (λ failure. IsEarly failure → UntouchedDisks disks.old disks.new out.old out.new) }
    ensures link { IsErrOf result AFailure.Link → ⊥ }
    ensures input { IsErrOf result (AFailure.Input AReadAllFault.Failed) → Rose (S.faults source.old) (S.faults source.new) }
    ensures disk { (a : ℕ) → IsErrOf result (AFailure.Log a ALogFault.DiskFault)
        → RoseAtOne (D.disk disks.old number) (D.disk disks.new number) (D.disk disks.old (number + 16)) (D.disk disks.new (number + 16)) }
    ensures output { IsErrOf result AFailure.Output → Rose (O.faults out.old) (O.faults out.new) }
    ensures any_moment { StaysAsLog D.disk D.may_leave D.moment D.left_since D.tears disks.old disks.new number }
    ensures opens { OnlyOpens D.disk D.may_leave D.moment D.left_since D.tears disks.old disks.new number result }
    ensures others { KeepsBut D.disk D.may_leave D.moment D.left_since disks.old disks.new number (number + 16) }
{
    let config = config_from(alloc, source)?;
    let Some(centre) = centre_of(&config, number) else {
        return Err(Failure::Centre);
    };
    as_done(centre, dump(alloc, &config.cluster, centre, disks, out))
}

/// Prints the facts of the log of the centre of a number, by the configuration that a source gives.
pub fn run_dump<S: Source, O: Sink, E: Sink, D: Disks>(
    alloc: Global,
    centre: u32,
    source: &mut S,
    out: &mut O,
    err: &mut E,
    disks: &mut D,
) -> u8
    ensures does { DoesDump D.disk D.may_leave D.moment D.left_since D.tears O.held disks.old disks.new out.old out.new
        (S.left source.old) centre result (E.held err.old) (E.held err.new) (E.faults err.old) (E.faults err.new) }
    ensures status { IsTrue (is_ending result) }
    ensures quiet { result ≡ 0 → Appends (E.held err.old) (E.held err.new) [] }
    ensures own { OnTrue (is_own_status result) (Tells (E.held err.old) (E.held err.new) (E.faults err.old) (E.faults err.new) (own_line result)) }
    ensures refused { result ≡ 3 → UntouchedDisks disks.old disks.new out.old out.new }
    ensures unread { result ≡ 5 → UntouchedDisks disks.old disks.new out.old out.new }
    ensures input { result ≡ 5 → Rose (S.faults source.old) (S.faults source.new) }
    ensures disk { result ≡ 7
        → RoseAtOne (D.disk disks.old centre) (D.disk disks.new centre) (D.disk disks.old (centre + 16)) (D.disk disks.new (centre + 16)) }
    ensures link { result ≡ 8 → ⊥ }
    ensures output { result ≡ 6 → Rose (O.faults out.old) (O.faults out.new) }

    // The log stands after a crash at any moment of it, and the disks of other centres are as they were, whatever the input is.
    ensures any_moment { StaysAsLog D.disk D.may_leave D.moment D.left_since D.tears disks.old disks.new centre }
    ensures others { KeepsBut D.disk D.may_leave D.moment D.left_since disks.old disks.new centre (centre + 16) }

    // Over an accepted configuration: the status by the log of the centre, and where nothing failed.
    ensures logs { DumpEndsByLog D.disk O.held disks.old disks.new out.old out.new (S.left source.old) centre result }
    ensures completes { IsStill (S.faults source.old) (S.faults source.new) → IsStill (O.faults out.old) (O.faults out.new) → ((p : ℕ) → IsStill (D.disk disks.old p).faults (D.disk disks.new p).faults)
        → DumpCompletes D.disk O.held disks.old disks.new out.old out.new (S.left source.old) centre result }
{
    let dumped = dump_one(alloc, centre, source, disks, out);
    finish(alloc, &dumped, err)
}
