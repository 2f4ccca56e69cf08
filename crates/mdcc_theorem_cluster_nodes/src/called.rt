//! The two calls that serve centres, and the one of a process that is killed, with their contracts in the words of lives.
ghost use Rattle.std.specs.List.{range_with_len};
ghost use Rattle.std.specs.Prelude.{◌≡◌, ◌≤◌, ◌+◌, List, map, ℕ};
ghost use Rattle.mdcc_config.specs.IsConfig.{IsConfig};
ghost use Rattle.mdcc_def_server_runs.specs.Servers.{Log};
ghost use Rattle.mdcc_killed_process.specs.Killed.{calls_of_killed, disk_of_killed, held_of_killed, lost_of_killed, may_leave_of_killed};
ghost use Rattle.mdcc_serve.specs.Serving.{AreLogsOf, IsServedLog};
ghost use Rattle.mdcc_theorem_cluster_nodes.specs.Calls.{Clause};
ghost use Rattle.mdcc_theorem_cluster_nodes.specs.Several.{ClauseOfAll};

use mdcc_base::{Centre, Sink};
use mdcc_config::Config;
use mdcc_disks::Disks;
use mdcc_killed_process::{KilledDisks, KilledLink, KilledOutput};
use mdcc_link::Link;
use mdcc_serve::{Served, serve_cluster, serve_node};
use mdcc_serve_site::ServeFault;
use std::alloc::Global;

/// `serve_node`, with its contract as the theorems have it: so they speak of just this call.
pub fn call_node<D: Disks, L: Link, O: Sink>(
    alloc: Global,
    config: &Config,
    centre: Centre,
    turns: u32,
    disks: &mut D,
    link: &mut L,
    out: &mut O,
) -> Result<Served, ServeFault>
    requires config { IsConfig config.now }
    requires among { centre ≤ config.now.cluster.quorums.centres }
    requires alike { (D.disk disks.old (centre + 16)).told ≡ (D.disk disks.old centre).told }
    ensures { (log : Log) → log.centre ≡ centre → IsServedLog D.disk config.now.cluster disks.old log
        → Clause D.disk D.may_leave D.tears L.calls L.lost O.held config.now log
        (record { turns = turns; disks_before = disks.old; disks_after = disks.new; link_before = link.old; link_after = link.new; out_before = out.old; out_after = out.new }) result }
{
    serve_node(alloc, config, centre, turns, disks, link, out)
}

/// The same of a process that is killed: so many calls of its disks, its link and its output are made, and none that would come later.
pub fn call_killed_node<D: Disks, L: Link, O: Sink>(
    alloc: Global,
    config: &Config,
    centre: Centre,
    turns: u32,
    disks: &mut KilledDisks<D>,
    link: &mut KilledLink<L>,
    out: &mut KilledOutput<O>,
) -> Result<Served, ServeFault>
    requires config { IsConfig config.now }
    requires among { centre ≤ config.now.cluster.quorums.centres }
    requires alike { (D.disk disks.old.disks (centre + 16)).told ≡ (D.disk disks.old.disks centre).told }
    ensures { (log : Log) → log.centre ≡ centre → IsServedLog (disk_of_killed D.disk) config.now.cluster disks.old log
        → Clause (disk_of_killed D.disk) (may_leave_of_killed D.may_leave) D.tears (calls_of_killed L.calls) (lost_of_killed L.lost) (held_of_killed O.held) config.now log
        (record { turns = turns; disks_before = disks.old; disks_after = disks.new; link_before = link.old; link_after = link.new; out_before = out.old; out_after = out.new }) result }
{
    call_node(alloc, config, centre, turns, disks, link, out)
}

/// `serve_cluster`, in the same way.
pub fn call_cluster<D: Disks, L: Link, O: Sink>(
    alloc: Global,
    config: &Config,
    turns: u32,
    disks: &mut D,
    link: &mut L,
    out: &mut O,
) -> Result<Served, ServeFault>
    requires config { IsConfig config.now }
    requires alike { (a : ℕ) → 1 ≤ a → a ≤ config.now.cluster.quorums.centres → (D.disk disks.old (a + 16)).told ≡ (D.disk disks.old a).told }
    ensures { (logs : List Log) → map (λ log. log.centre) logs ≡ range_with_len 1 config.now.cluster.quorums.centres
        → AreLogsOf D.disk config.now.cluster disks.old logs
        → ClauseOfAll D.disk D.may_leave D.tears L.calls L.lost O.held config.now logs
        (record { turns = turns; disks_before = disks.old; disks_after = disks.new; link_before = link.old; link_after = link.new; out_before = out.old; out_after = out.new }) result }
{
    serve_cluster(alloc, config, turns, disks, link, out)
}
