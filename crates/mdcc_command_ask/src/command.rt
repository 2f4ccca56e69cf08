//! The command, with the statuses that it ends with.
ghost use Rattle.std.specs.Prelude.{◌≡◌, [], IfErr, IfSome, IsErrOf, IsTrue, ℕ};
ghost use Rattle.std.specs.Bool.{OnTrue};
ghost use Rattle.std.specs.Io.KnownBytes.{Appends};
ghost use Rattle.mdcc_log_file.specs.declared.fault.LogFault.{LogFault as ALogFault};
ghost use Rattle.mdcc_command_ask.specs.Commands.{AskCompletes, DoesAsk, RunsAsk, Untouched, as_done, of_ask};
ghost use Rattle.mdcc_base.specs.Causes.{Rose};
ghost use Rattle.mdcc_base.specs.declared.source.ReadAllFault.{ReadAllFault as AReadAllFault};
ghost use Rattle.mdcc_command_words.specs.Asks.{IsQuestion};
ghost use Rattle.mdcc_command_endings.specs.Completions.{IsStill};
ghost use Rattle.mdcc_command_endings.specs.Endings.{is_ending};
ghost use Rattle.mdcc_command_endings.specs.Readings.{IsEarly};
ghost use Rattle.mdcc_command_endings.specs.declared.fault.Failure.{Failure as AFailure};
ghost use Rattle.mdcc_command_replay.specs.Runs.{is_own_status, own_line};
ghost use Rattle.mdcc_command_replay.specs.Writing.{Tells};

use crate::{AskFault, Order, ask};
use mdcc_base::{Sink, Source};
use mdcc_command_endings::{Failure, centre_of, config_from, finish};
use mdcc_command_words::Question;
use mdcc_link::Link;
use std::alloc::Global;

// A fault as a command has it.
fn of_ask(fault: AskFault) -> Failure
    ensures { result ≡ of_ask fault }
{
    match fault {
        AskFault::Link => Failure::Link,
        AskFault::Output => Failure::Output,
        AskFault::Memory => Failure::Memory,
    }
}

// What a client did, as a command has it.
fn as_done(asked: Result<(), AskFault>) -> Result<(), Failure>
    ensures { result ≡ as_done asked }
{
    match asked {
        Ok(()) => Ok(()),
        Err(fault) => Err(of_ask(fault)),
    }
}

// Asks the centre of a number.
fn ask_one<S: Source, L: Link, O: Sink>(
    alloc: Global,
    question: Question,
    source: &mut S,
    link: &mut L,
    out: &mut O,
) -> Result<(), Failure>
    requires { IsQuestion question }
    ensures runs { IfSome (S.left source.old) (λ input. RunsAsk L.calls O.held link.old link.new out.old out.new input question result) }
    ensures early { IfErr result (λ failure. IsEarly failure → Untouched link.old link.new out.old out.new) }
    ensures disk { (a : ℕ) → IsErrOf result (AFailure.Log a ALogFault.DiskFault) → ⊥ }
    ensures input { IsErrOf result (AFailure.Input AReadAllFault.Failed) → Rose (S.faults source.old) (S.faults source.new) }
    ensures link { IsErrOf result AFailure.Link → Rose (L.faults link.old) (L.faults link.new) }
    ensures output { IsErrOf result AFailure.Output → Rose (O.faults out.old) (O.faults out.new) }
{
    let config = config_from(alloc, source)?;
    let Some(centre) = centre_of(&config, question.centre) else {
        return Err(Failure::Centre);
    };
    let order = Order {
        centre,
        serial: question.serial,
        keys: question.keys,
        updates: question.updates,
    };
    link.set_wait(config.wait);
    as_done(ask(alloc, &config, &order, question.turns, link, out))
}

/// Asks the centre of a number, by the configuration that a source gives, and prints the answers.
pub fn run_ask<S: Source, O: Sink, E: Sink, L: Link>(
    alloc: Global,
    question: Question,
    source: &mut S,
    out: &mut O,
    err: &mut E,
    link: &mut L,
) -> u8
    requires { IsQuestion question }
    ensures does { DoesAsk L.calls O.held link.old link.new out.old out.new
        (S.left source.old) question result (E.held err.old) (E.held err.new) (E.faults err.old) (E.faults err.new) }
    ensures status { IsTrue (is_ending result) }
    ensures quiet { result ≡ 0 → Appends (E.held err.old) (E.held err.new) [] }
    ensures own { OnTrue (is_own_status result) (Tells (E.held err.old) (E.held err.new) (E.faults err.old) (E.faults err.new) (own_line result)) }
    ensures refused { result ≡ 3 → Untouched link.old link.new out.old out.new }
    ensures unread { result ≡ 5 → Untouched link.old link.new out.old out.new }
    ensures input { result ≡ 5 → Rose (S.faults source.old) (S.faults source.new) }
    ensures disk { result ≡ 7 → ⊥ }
    ensures link { result ≡ 8 → Rose (L.faults link.old) (L.faults link.new) }
    ensures output { result ≡ 6 → Rose (O.faults out.old) (O.faults out.new) }

    // Over an accepted configuration, where nothing failed.
    ensures completes { IsStill (S.faults source.old) (S.faults source.new) → IsStill (O.faults out.old) (O.faults out.new) → IsStill (L.faults link.old) (L.faults link.new)
        → AskCompletes L.calls O.held link.old link.new out.old out.new (S.left source.old) question result }
{
    let done = ask_one(alloc, question, source, link, out);
    finish(alloc, &done, err)
}
