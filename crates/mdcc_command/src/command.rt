//! The top call.
ghost use Rattle.std.specs.Prelude.{◌≡◌, ◌↔◌, ◌+◌, [], false, map, true, IfSome, IsTrue, List, None, Some, ℕ};
ghost use Rattle.std.specs.Bool.{OnFalse, OnTrue};
ghost use Rattle.std.specs.Io.KnownBytes.{Appends, IsAtEnd};
ghost use Rattle.std.specs.String.{string_bytes};
ghost use Rattle.mdcc_log_file.specs.Both.{RoseAtOne};
ghost use Rattle.mdcc_command_audit.specs.Commands.{AuditEndsByLogs, DoesAudit};
ghost use Rattle.mdcc_base.specs.Causes.{Rose};
ghost use Rattle.mdcc_command_check.specs.Checks.{DoesCheck};
ghost use Rattle.mdcc_command_words.specs.Commands.{IsCommand, command_of};
ghost use Rattle.mdcc_command_ask.specs.Commands.{AskCompletes, DoesAsk};
ghost use Rattle.mdcc_command_words.specs.declared.question.Question.{Question as AQuestion};
ghost use Rattle.mdcc_command.specs.Commands.{AreUntouched, has_disks, has_link, output_for, reads, replays};
ghost use Rattle.mdcc_command_dump.specs.Commands.{DoesDump, DumpCompletes, DumpEndsByLog};
ghost use Rattle.mdcc_command_endings.specs.Completions.{IsStill};
ghost use Rattle.mdcc_command.specs.Prints.{PrintsTruth};
ghost use Rattle.mdcc_command.specs.Statuses.{is_program_status};
ghost use Rattle.mdcc_theorem_headline.specs.Headline.{ReplayTellsTruth};
ghost use Rattle.mdcc_command_replay.specs.Runs.{is_own_status, is_status, own_line};
ghost use Rattle.mdcc_command_replay.specs.Writing.{Front, Tells};
ghost use Rattle.mdcc_command_serve.specs.Commands.{AreToldAlike, DoesCluster, DoesNode};
ghost use Rattle.mdcc_command_serve.specs.Completions.{ClusterCompletes, ClusterEndsByLogs, NodeCompletes, NodeEndsByLog};

use crate::simulation::Replayed;
use mdcc_base::{Sink, Source};
use mdcc_command_ask::run_ask;
use mdcc_command_audit::run_audit;
use mdcc_command_check::run_check;
use mdcc_command_dump::run_dump;
use mdcc_command_replay::{end, refuse_words, run_replay, run_sample};
use mdcc_command_serve::{run_cluster, run_node};
use mdcc_command_words::{Command, command_of};
use mdcc_disks::Disks;
use mdcc_link::Link;
use mdcc_theorem_headline::headline;
use std::alloc::Global;

// Does what a command asks for.
fn run_command<S: Source, O: Sink, E: Sink, D: Disks, L: Link>(
    alloc: Global,
    command: Option<Command>,
    source: &mut S,
    out: &mut O,
    err: &mut E,
    disks: &mut D,
    link: &mut L,
) -> u8
    requires command { IfSome command IsCommand }
    requires alike { AreToldAlike D.disk disks.old }

    ensures prints { command ≡ Some Command.Replay
        → IfSome (S.left source.old) (λ input. PrintsTruth input result (O.held out.old) (O.held out.new)) }
    ensures node { (centre turns : ℕ) → command ≡ Some (Command.Node centre turns)
        → DoesNode D.disk D.may_leave D.tears L.calls L.lost O.held disks.old disks.new link.old link.new out.old out.new
        (S.left source.old) centre turns result (E.held err.old) (E.held err.new) (E.faults err.old) (E.faults err.new) }
    ensures cluster { (turns : ℕ) → command ≡ Some (Command.Cluster turns)
        → DoesCluster D.disk D.may_leave D.tears L.calls L.lost O.held disks.old disks.new link.old link.new out.old out.new
        (S.left source.old) turns result (E.held err.old) (E.held err.new) (E.faults err.old) (E.faults err.new) }

    ensures ask { (question : AQuestion) → command ≡ Some (Command.Ask question)
        → DoesAsk L.calls O.held link.old link.new out.old out.new
        (S.left source.old) question result (E.held err.old) (E.held err.new) (E.faults err.old) (E.faults err.new) }
    ensures dump { (centre : ℕ) → command ≡ Some (Command.Dump centre)
        → DoesDump D.disk D.may_leave D.moment D.left_since D.tears O.held disks.old disks.new out.old out.new
        (S.left source.old) centre result (E.held err.old) (E.held err.new) (E.faults err.old) (E.faults err.new) }

    ensures check { command ≡ Some Command.Check
        → IfSome (S.left source.old) (λ input. DoesCheck input result (O.held out.old) (O.held out.new)
        (E.held err.old) (E.held err.new) (E.faults err.old) (E.faults err.new)) }
    ensures check_end { command ≡ Some Command.Check → result ≡ 0 → IsAtEnd (S.left source.new) }
    ensures audit { command ≡ Some Command.Audit
        → DoesAudit D.disk D.may_leave D.moment D.left_since D.tears O.held disks.old disks.new out.old out.new
        (S.left source.old) result (E.held err.old) (E.held err.new) (E.faults err.old) (E.faults err.new) }

    ensures node_log { (centre turns : ℕ) → command ≡ Some (Command.Node centre turns) → NodeEndsByLog D.disk disks.old (S.left source.old) centre result }
    ensures cluster_logs { (turns : ℕ) → command ≡ Some (Command.Cluster turns) → ClusterEndsByLogs D.disk disks.old (S.left source.old) result }
    ensures dump_log { (centre : ℕ) → command ≡ Some (Command.Dump centre)
        → DumpEndsByLog D.disk O.held disks.old disks.new out.old out.new (S.left source.old) centre result }
    ensures audit_logs { command ≡ Some Command.Audit → AuditEndsByLogs D.disk disks.old (S.left source.old) result }

    ensures node_completes { (centre turns : ℕ) → command ≡ Some (Command.Node centre turns)
        → IsStill (S.faults source.old) (S.faults source.new) → IsStill (O.faults out.old) (O.faults out.new)
        → IsStill (L.faults link.old) (L.faults link.new) → ((p : ℕ) → IsStill (D.disk disks.old p).faults (D.disk disks.new p).faults)
        → NodeCompletes D.disk D.may_leave D.tears L.calls L.lost O.held disks.old disks.new link.old link.new out.old out.new (S.left source.old) centre turns result }
    ensures cluster_completes { (turns : ℕ) → command ≡ Some (Command.Cluster turns)
        → IsStill (S.faults source.old) (S.faults source.new) → IsStill (O.faults out.old) (O.faults out.new)
        → IsStill (L.faults link.old) (L.faults link.new) → ((p : ℕ) → IsStill (D.disk disks.old p).faults (D.disk disks.new p).faults)
        → ClusterCompletes D.disk D.may_leave D.tears L.calls L.lost O.held disks.old disks.new link.old link.new out.old out.new (S.left source.old) turns result }
    ensures ask_completes { (question : AQuestion) → command ≡ Some (Command.Ask question)
        → IsStill (S.faults source.old) (S.faults source.new) → IsStill (O.faults out.old) (O.faults out.new)
        → IsStill (L.faults link.old) (L.faults link.new)
        → AskCompletes L.calls O.held link.old link.new out.old out.new (S.left source.old) question result }
    ensures dump_completes { (centre : ℕ) → command ≡ Some (Command.Dump centre)
        → IsStill (S.faults source.old) (S.faults source.new) → IsStill (O.faults out.old) (O.faults out.new)
        → ((p : ℕ) → IsStill (D.disk disks.old p).faults (D.disk disks.new p).faults)
        → DumpCompletes D.disk O.held disks.old disks.new out.old out.new (S.left source.old) centre result }

    ensures status { IsTrue (is_program_status result) }
    ensures replayed { replays (command) ≡ true → IsTrue (is_status result) }
    ensures whole { IfSome (output_for (command) (S.left source.old)) (λ output.
        OnFalse (is_own_status result) ((result ≡ output.status) × Appends (O.held out.old) (O.held out.new) output.text)) }
    ensures end { command ≡ Some Command.Replay → result ≡ 0 → IsAtEnd (S.left source.new) }

    ensures front { IfSome (output_for (command) (S.left source.old)) (λ output.
        Front (O.held out.old) (O.held out.new) output.text) }
    ensures silent { result ≡ 2 → Appends (O.held out.old) (O.held out.new) [] }
    ensures refused { result ≡ 3 → Appends (O.held out.old) (O.held out.new) [] }
    ensures nothing { result ≡ 5 → Appends (O.held out.old) (O.held out.new) [] }
    ensures refused_untouched { result ≡ 3 → AreUntouched disks.old disks.new link.old link.new }
    ensures unread_untouched { result ≡ 5 → AreUntouched disks.old disks.new link.old link.new }

    ensures words { (result ≡ 2) ↔ (command ≡ None) }
    ensures read { result ≡ 5 → Rose (S.faults source.old) (S.faults source.new) }
    ensures write { result ≡ 6 → Rose (O.faults out.old) (O.faults out.new) }
    ensures disk { result ≡ 7 → (a : ℕ) × RoseAtOne (D.disk disks.old a) (D.disk disks.new a) (D.disk disks.old (a + 16)) (D.disk disks.new (a + 16)) }
    ensures link { result ≡ 8 → Rose (L.faults link.old) (L.faults link.new) }

    ensures quiet { result ≡ 0 → Appends (E.held err.old) (E.held err.new) [] }
    ensures own { OnTrue (is_own_status result) (Tells (E.held err.old) (E.held err.new) (E.faults err.old) (E.faults err.new) (own_line result)) }
    ensures line { IfSome (output_for (command) (S.left source.old)) (λ output. OnFalse (is_own_status result)
        (Tells (E.held err.old) (E.held err.new) (E.faults err.old) (E.faults err.new) output.error)) }

    ensures unread { reads (command) ≡ false → source.new ≡ source.old }
    ensures disks { has_disks (command) ≡ false → disks.new ≡ disks.old }
    ensures unsent { has_link (command) ≡ false → link.new ≡ link.old }
{
    headline();
    match command {
        Some(Command::Replay) => run_replay::<Replayed, S, O, E>(alloc, source, out, err),
        Some(Command::Sample(seed, items, orders)) => {
            run_sample::<Replayed, O, E>(alloc, seed, items, orders, out, err)
        }
        Some(Command::Node(centre, turns)) => {
            run_node(alloc, centre, turns, source, out, err, disks, link)
        }
        Some(Command::Cluster(turns)) => {
            run_cluster(alloc, turns, source, out, err, disks, link)
        }
        Some(Command::Ask(question)) => run_ask(alloc, question, source, out, err, link),
        Some(Command::Dump(centre)) => run_dump(alloc, centre, source, out, err, disks),
        Some(Command::Check) => run_check(alloc, source, out, err),
        Some(Command::Audit) => run_audit(alloc, source, out, err, disks),
        None => refuse_words(err),
    }
}

/// All that the program does, with its words behind its own name: the status that it ends with.
///
/// With `replay` it reads the whole input, a schedule, and writes the report to `out`. With
/// `sample SEED ITEMS ORDERS` it reads nothing, makes the schedule of a web shop by these numbers,
/// replays it, and writes two lines to `out`. The others read a configuration: `node K TURNS` serves
/// centre K of it for so many turns, with its log on the disks K and 16 + K; `cluster TURNS` serves all
/// centres; `ask K TURNS SERIAL WORD..` is a client of centre K; `dump K` writes the facts in its log;
/// `audit` writes what the logs of all centres decided. `check` reads a history, and writes whether it
/// is right.
///
/// Where it ends early it writes one line to `err`, that of the status. Status 3 is a header or a
/// configuration that is refused, 4 a line or its event, 9 a log that is none, 11 a limit, 12 the end
/// of the epochs, 13 a history that is not right or logs that contradict each other; 2 other words, 5 a read that failed, 6 a write to `out`, 7 a disk, 8 the link, 10 out
/// of memory. A write to `err` that fails changes no status.
pub fn run<S: Source, O: Sink, E: Sink, D: Disks, L: Link>(
    alloc: Global,
    words: &[String],
    source: &mut S,
    out: &mut O,
    err: &mut E,
    disks: &mut D,
    link: &mut L,
) -> u8
    requires { AreToldAlike D.disk disks.old }

    // What `replay` writes is the report of the input: all of it at statuses 0, 4 and 11, a front of it at 6 and 10, nothing at 3
    // and 5. It tells the truth of a run in which the committed transactions, each whole and in the order in which they were
    // chosen, are a run of the one-copy store; every reported commit is in it, no reported abort is, and every reported read is
    // what that store shows of an item version with some of its committed deltas.
    ensures prints { command_of (map string_bytes words.now) ≡ Some Command.Replay
        → IfSome (S.left source.old) (λ input. PrintsTruth input result (O.held out.old) (O.held out.new)) }
    ensures headline { (input : List ℕ) → ReplayTellsTruth input }

    // What `node` and `cluster` do is the run of nodes for what the link gave them: all of it at status 0, else a front of it, for the
    // turns that were made. At each status the disks of all other centres are as they were. Here and below a log is known where both of
    // its disks tell their bytes.
    ensures node { (centre turns : ℕ) → command_of (map string_bytes words.now) ≡ Some (Command.Node centre turns)
        → DoesNode D.disk D.may_leave D.tears L.calls L.lost O.held disks.old disks.new link.old link.new out.old out.new
        (S.left source.old) centre turns result (E.held err.old) (E.held err.new) (E.faults err.old) (E.faults err.new) }
    ensures cluster { (turns : ℕ) → command_of (map string_bytes words.now) ≡ Some (Command.Cluster turns)
        → DoesCluster D.disk D.may_leave D.tears L.calls L.lost O.held disks.old disks.new link.old link.new out.old out.new
        (S.left source.old) turns result (E.held err.old) (E.held err.new) (E.faults err.old) (E.faults err.new) }

    // What `ask` sends and prints is that of a client, and what `dump` prints the facts of the log. At each status `dump` makes calls
    // of an opening alone, at the disks of its centre, and its log stands after a crash at any moment of them.
    ensures ask { (question : AQuestion) → command_of (map string_bytes words.now) ≡ Some (Command.Ask question)
        → DoesAsk L.calls O.held link.old link.new out.old out.new
        (S.left source.old) question result (E.held err.old) (E.held err.new) (E.faults err.old) (E.faults err.new) }
    ensures dump { (centre : ℕ) → command_of (map string_bytes words.now) ≡ Some (Command.Dump centre)
        → DoesDump D.disk D.may_leave D.moment D.left_since D.tears O.held disks.old disks.new out.old out.new
        (S.left source.old) centre result (E.held err.old) (E.held err.new) (E.faults err.old) (E.faults err.new) }

    // What `check` prints is the verdict on the input: with status 0 it is a right history, with 13 a history that is not, and else it is
    // none. What `audit` prints is what the logs of all centres decided, and at 13 two facts contradict each other. At each status it makes
    // calls of an opening alone, at the disks of the centres.
    ensures check { command_of (map string_bytes words.now) ≡ Some Command.Check
        → IfSome (S.left source.old) (λ input. DoesCheck input result (O.held out.old) (O.held out.new)
        (E.held err.old) (E.held err.new) (E.faults err.old) (E.faults err.new)) }
    ensures check_end { command_of (map string_bytes words.now) ≡ Some Command.Check → result ≡ 0 → IsAtEnd (S.left source.new) }
    ensures audit { command_of (map string_bytes words.now) ≡ Some Command.Audit
        → DoesAudit D.disk D.may_leave D.moment D.left_since D.tears O.held disks.old disks.new out.old out.new
        (S.left source.old) result (E.held err.old) (E.held err.new) (E.faults err.old) (E.faults err.new) }

    // Over an accepted configuration and disks that tell their bytes the first log is refused from which no node boots, with status 9
    // where it is none or no node's, 11 where its node has too few cells, and 12 where its epoch is the last; and no other log is.
    // Only a failed call, want of memory or, in a cluster, a log before it that is full comes first.
    ensures node_log { (centre turns : ℕ) → command_of (map string_bytes words.now) ≡ Some (Command.Node centre turns) → NodeEndsByLog D.disk disks.old (S.left source.old) centre result }
    ensures cluster_logs { (turns : ℕ) → command_of (map string_bytes words.now) ≡ Some (Command.Cluster turns) → ClusterEndsByLogs D.disk disks.old (S.left source.old) result }
    ensures dump_log { (centre : ℕ) → command_of (map string_bytes words.now) ≡ Some (Command.Dump centre)
        → DumpEndsByLog D.disk O.held disks.old disks.new out.old out.new (S.left source.old) centre result }
    ensures audit_logs { command_of (map string_bytes words.now) ≡ Some Command.Audit → AuditEndsByLogs D.disk disks.old (S.left source.old) result }

    // Where no count of faults rose, over an accepted configuration and allowed logs with epochs below the last, the command does all
    // that it is to do, with status 0, or there was no memory, or it ended at a limit, which is said. A client prints `unanswered`
    // just where its turns are over before it has all answers.
    ensures node_completes { (centre turns : ℕ) → command_of (map string_bytes words.now) ≡ Some (Command.Node centre turns)
        → IsStill (S.faults source.old) (S.faults source.new) → IsStill (O.faults out.old) (O.faults out.new)
        → IsStill (L.faults link.old) (L.faults link.new) → ((p : ℕ) → IsStill (D.disk disks.old p).faults (D.disk disks.new p).faults)
        → NodeCompletes D.disk D.may_leave D.tears L.calls L.lost O.held disks.old disks.new link.old link.new out.old out.new (S.left source.old) centre turns result }
    ensures cluster_completes { (turns : ℕ) → command_of (map string_bytes words.now) ≡ Some (Command.Cluster turns)
        → IsStill (S.faults source.old) (S.faults source.new) → IsStill (O.faults out.old) (O.faults out.new)
        → IsStill (L.faults link.old) (L.faults link.new) → ((p : ℕ) → IsStill (D.disk disks.old p).faults (D.disk disks.new p).faults)
        → ClusterCompletes D.disk D.may_leave D.tears L.calls L.lost O.held disks.old disks.new link.old link.new out.old out.new (S.left source.old) turns result }
    ensures ask_completes { (question : AQuestion) → command_of (map string_bytes words.now) ≡ Some (Command.Ask question)
        → IsStill (S.faults source.old) (S.faults source.new) → IsStill (O.faults out.old) (O.faults out.new)
        → IsStill (L.faults link.old) (L.faults link.new)
        → AskCompletes L.calls O.held link.old link.new out.old out.new (S.left source.old) question result }
    ensures dump_completes { (centre : ℕ) → command_of (map string_bytes words.now) ≡ Some (Command.Dump centre)
        → IsStill (S.faults source.old) (S.faults source.new) → IsStill (O.faults out.old) (O.faults out.new)
        → ((p : ℕ) → IsStill (D.disk disks.old p).faults (D.disk disks.new p).faults)
        → DumpCompletes D.disk O.held disks.old disks.new out.old out.new (S.left source.old) centre result }

    // The status of `replay` and `sample` is one of 0, 3, 4, 5, 6, 10 and 11. At 0, 3, 4 and 11 the definition of the replay, that
    // of the input or that of the shop's schedule, gives the status and all that was written.
    ensures status { IsTrue (is_program_status result) }
    ensures replayed { replays (command_of (map string_bytes words.now)) ≡ true → IsTrue (is_status result) }
    ensures whole { IfSome (output_for (command_of (map string_bytes words.now)) (S.left source.old)) (λ output.
        OnFalse (is_own_status result) ((result ≡ output.status) × Appends (O.held out.old) (O.held out.new) output.text)) }
    ensures end { command_of (map string_bytes words.now) ≡ Some Command.Replay → result ≡ 0 → IsAtEnd (S.left source.new) }

    // At each status a front of it was written, and nothing at 2, 3 and 5.
    ensures front { IfSome (output_for (command_of (map string_bytes words.now)) (S.left source.old)) (λ output.
        Front (O.held out.old) (O.held out.new) output.text) }
    ensures silent { result ≡ 2 → Appends (O.held out.old) (O.held out.new) [] }
    ensures refused { result ≡ 3 → Appends (O.held out.old) (O.held out.new) [] }
    ensures nothing { result ≡ 5 → Appends (O.held out.old) (O.held out.new) [] }

    // Nothing was done at disks and link then.
    ensures refused_untouched { result ≡ 3 → AreUntouched disks.old disks.new link.old link.new }
    ensures unread_untouched { result ≡ 5 → AreUntouched disks.old disks.new link.old link.new }

    // The other statuses have their causes; 10 may come at any time.
    // Other words end with status 2 also where there is no memory.
    ensures words { (result ≡ 2) ↔ (command_of (map string_bytes words.now) ≡ None) }
    ensures read { result ≡ 5 → Rose (S.faults source.old) (S.faults source.new) }
    ensures write { result ≡ 6 → Rose (O.faults out.old) (O.faults out.new) }
    ensures disk { result ≡ 7 → (a : ℕ) × RoseAtOne (D.disk disks.old a) (D.disk disks.new a) (D.disk disks.old (a + 16)) (D.disk disks.new (a + 16)) }
    ensures link { result ≡ 8 → Rose (L.faults link.old) (L.faults link.new) }

    // The line on the error stream.
    ensures quiet { result ≡ 0 → Appends (E.held err.old) (E.held err.new) [] }
    ensures own { OnTrue (is_own_status result) (Tells (E.held err.old) (E.held err.new) (E.faults err.old) (E.faults err.new) (own_line result)) }
    ensures line { IfSome (output_for (command_of (map string_bytes words.now)) (S.left source.old)) (λ output. OnFalse (is_own_status result)
        (Tells (E.held err.old) (E.held err.new) (E.faults err.old) (E.faults err.new) output.error)) }

    // `sample` reads nothing; no command but those that serve, `dump` and `audit` uses disks, and none but those that serve and `ask` the link.
    ensures unread { reads (command_of (map string_bytes words.now)) ≡ false → source.new ≡ source.old }
    ensures disks { has_disks (command_of (map string_bytes words.now)) ≡ false → disks.new ≡ disks.old }
    ensures unsent { has_link (command_of (map string_bytes words.now)) ≡ false → link.new ≡ link.old }
{
    headline();
    match command_of(alloc, words) {
        Ok(command) => run_command(alloc, command, source, out, err, disks, link),
        Err(_) => end(10, err),
    }
}
