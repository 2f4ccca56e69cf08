//! The commands, with the statuses that they end with.
ghost use Rattle.std.specs.Prelude.{◌≡◌, ◌+◌, [], IsTrue, ℕ};
ghost use Rattle.std.specs.Bool.{OnTrue};
ghost use Rattle.std.specs.Io.KnownBytes.{Appends};
ghost use Rattle.mdcc_log_file.specs.Both.{RoseAtOne};
ghost use Rattle.mdcc_base.specs.Causes.{Rose};
ghost use Rattle.mdcc_command_replay.specs.Runs.{is_own_status, own_line};
ghost use Rattle.mdcc_command_replay.specs.Writing.{Tells};
ghost use Rattle.mdcc_command_serve.specs.Commands.{AreToldAlike, DoesCluster, DoesNode, UntouchedOutside};
ghost use Rattle.mdcc_command_serve.specs.Completions.{ClusterCompletes, ClusterEndsByLogs, NodeCompletes, NodeEndsByLog};
ghost use Rattle.mdcc_command_endings.specs.Completions.{IsStill};
ghost use Rattle.mdcc_command_endings.specs.Endings.{is_ending};

use crate::serving::{serve_all, serve_one};
use mdcc_base::{Sink, Source};
use mdcc_command_endings::finish;
use mdcc_disks::Disks;
use mdcc_link::Link;
use std::alloc::Global;

/// Serves the centre of a number for so many turns, by the configuration that a source gives.
pub fn run_node<S: Source, O: Sink, E: Sink, D: Disks, L: Link>(
    alloc: Global,
    centre: u32,
    turns: u32,
    source: &mut S,
    out: &mut O,
    err: &mut E,
    disks: &mut D,
    link: &mut L,
) -> u8
    requires { AreToldAlike D.disk disks.old }
    ensures does { DoesNode D.disk D.may_leave D.tears L.calls L.lost O.held disks.old disks.new link.old link.new out.old out.new
        (S.left source.old) centre turns result (E.held err.old) (E.held err.new) (E.faults err.old) (E.faults err.new) }
    ensures status { IsTrue (is_ending result) }
    ensures quiet { result ≡ 0 → Appends (E.held err.old) (E.held err.new) [] }
    ensures own { OnTrue (is_own_status result) (Tells (E.held err.old) (E.held err.new) (E.faults err.old) (E.faults err.new) (own_line result)) }
    ensures refused { result ≡ 3 → UntouchedOutside disks.old disks.new link.old link.new out.old out.new }
    ensures unread { result ≡ 5 → UntouchedOutside disks.old disks.new link.old link.new out.old out.new }
    ensures input { result ≡ 5 → Rose (S.faults source.old) (S.faults source.new) }
    ensures disk { result ≡ 7 → (a : ℕ) × RoseAtOne (D.disk disks.old a) (D.disk disks.new a) (D.disk disks.old (a + 16)) (D.disk disks.new (a + 16)) }
    ensures link { result ≡ 8 → Rose (L.faults link.old) (L.faults link.new) }
    ensures output { result ≡ 6 → Rose (O.faults out.old) (O.faults out.new) }

    // Over an accepted configuration: the status by the log of the centre, and where nothing failed.
    ensures logs { NodeEndsByLog D.disk disks.old (S.left source.old) centre result }
    ensures completes { IsStill (S.faults source.old) (S.faults source.new) → IsStill (O.faults out.old) (O.faults out.new)
        → IsStill (L.faults link.old) (L.faults link.new) → ((p : ℕ) → IsStill (D.disk disks.old p).faults (D.disk disks.new p).faults)
        → NodeCompletes D.disk D.may_leave D.tears L.calls L.lost O.held disks.old disks.new link.old link.new out.old out.new (S.left source.old) centre turns result }
{
    let served = serve_one(alloc, centre, turns, source, disks, link, out);
    finish(alloc, &served, err)
}

/// Serves all centres for so many turns each, by the configuration that a source gives.
pub fn run_cluster<S: Source, O: Sink, E: Sink, D: Disks, L: Link>(
    alloc: Global,
    turns: u32,
    source: &mut S,
    out: &mut O,
    err: &mut E,
    disks: &mut D,
    link: &mut L,
) -> u8
    requires { AreToldAlike D.disk disks.old }
    ensures does { DoesCluster D.disk D.may_leave D.tears L.calls L.lost O.held disks.old disks.new link.old link.new out.old out.new
        (S.left source.old) turns result (E.held err.old) (E.held err.new) (E.faults err.old) (E.faults err.new) }
    ensures status { IsTrue (is_ending result) }
    ensures quiet { result ≡ 0 → Appends (E.held err.old) (E.held err.new) [] }
    ensures own { OnTrue (is_own_status result) (Tells (E.held err.old) (E.held err.new) (E.faults err.old) (E.faults err.new) (own_line result)) }
    ensures refused { result ≡ 3 → UntouchedOutside disks.old disks.new link.old link.new out.old out.new }
    ensures unread { result ≡ 5 → UntouchedOutside disks.old disks.new link.old link.new out.old out.new }
    ensures input { result ≡ 5 → Rose (S.faults source.old) (S.faults source.new) }
    ensures disk { result ≡ 7 → (a : ℕ) × RoseAtOne (D.disk disks.old a) (D.disk disks.new a) (D.disk disks.old (a + 16)) (D.disk disks.new (a + 16)) }
    ensures link { result ≡ 8 → Rose (L.faults link.old) (L.faults link.new) }
    ensures output { result ≡ 6 → Rose (O.faults out.old) (O.faults out.new) }

    // Over an accepted configuration: the status by the logs, and where nothing failed.
    ensures logs { ClusterEndsByLogs D.disk disks.old (S.left source.old) result }
    ensures completes { IsStill (S.faults source.old) (S.faults source.new) → IsStill (O.faults out.old) (O.faults out.new)
        → IsStill (L.faults link.old) (L.faults link.new) → ((p : ℕ) → IsStill (D.disk disks.old p).faults (D.disk disks.new p).faults)
        → ClusterCompletes D.disk D.may_leave D.tears L.calls L.lost O.held disks.old disks.new link.old link.new out.old out.new (S.left source.old) turns result }
{
    let served = serve_all(alloc, turns, source, disks, link, out);
    finish(alloc, &served, err)
}
