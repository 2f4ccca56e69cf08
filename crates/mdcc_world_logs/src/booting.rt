//! The first boot of all centres.
ghost use Rattle.std.specs.Prelude.{◌≡◌, ◌≤◌, ◌-◌, ◌∷◌, [], IfOk, OnOk, length, true, ℕ};
ghost use Rattle.mdcc_world_logs.specs.Nodes.{AreStarted};
ghost use Rattle.mdcc_node_log.specs.Nodes.{IsNodeOf};
ghost use Rattle.mdcc_world_logs.specs.Represents.{LogsRepresent};
ghost use Rattle.mdcc_world_logs.specs.Starting.{AreBegun, first_facts};
ghost use Rattle.mdcc_world_logs.specs.Tails.{tail_at};
ghost use Rattle.mdcc_def_protocol.specs.Belongs.{is_centre};
ghost use Rattle.mdcc_def_protocol.specs.IsCluster.{IsCluster};
ghost use Rattle.mdcc_def_protocol.specs.Volatile.{initial_volatile};

use crate::rooms::reserve_first;
use crate::starting::{Attempt, start};
use crate::{CentreFacts, Logs};
use mdcc_base::{Centre, Memory};
use mdcc_disks::MemoryDisks;
use mdcc_node::Node;
use mdcc_node_log::Running;
use mdcc_option::Cluster;
use std::alloc::Global;

// The next centre boots for the first time. Its log and its node have room for its boot.
fn boot(
    alloc: Global,
    cluster: &Cluster,
    centre: Centre,
    logs: &mut Logs,
) -> Result<Node<CentreFacts>, Memory>
    requires among { is_centre cluster.now centre ≡ true }
    requires most { cluster.now.quorums.centres ≤ 9 }
    requires begun { AreBegun logs.old cluster.now.quorums.centres (centre - 1) }
    ensures node { IfOk result (λ node. IsNodeOf node cluster.now centre (first_facts centre) initial_volatile) }
    ensures begun { OnOk result (AreBegun logs.new cluster.now.quorums.centres centre) }
{
    reserve_first(&mut logs.disks, centre)?;
    match start(alloc, cluster, centre, &mut logs.disks)? {
        Attempt::Runs(started) => {
            let Running { node, log, .. } = started;
            logs.open.push(log)?;
            Ok(node)
        }
        _ => Err(Memory),
    }
}

// Empty disks, and no centre has booted.
fn none_begun(alloc: Global, cluster: &Cluster) -> Result<Logs, Memory>
    ensures { IfOk result (λ logs. AreBegun logs cluster.now.quorums.centres 0) }
{
    let disks = MemoryDisks::new(alloc, cluster.quorums.centres() + 16, &[])?;
    Ok(Logs {
        disks,
        open: Vec::new(alloc),
    })
}

/// All centres boot for the first time, from empty disks: their nodes in order, and their logs.
pub fn boot_all(alloc: Global, cluster: &Cluster) -> Result<(Vec<Node<CentreFacts>>, Logs), Memory>
    requires { IsCluster cluster.now }
    ensures nodes { IfOk result (λ r. AreStarted r.0.items cluster.now cluster.now.quorums.centres) }
    ensures logs { IfOk result (λ r. LogsRepresent r.1 cluster.now.quorums.centres (λ a. true) first_facts) }
    ensures tails { IfOk result (λ r. (a : ℕ) → 1 ≤ a → a ≤ cluster.now.quorums.centres → tail_at r.1 a ≡ 1) }
{
    let mut logs = none_begun(alloc, cluster)?;
    let mut nodes = Vec::new(alloc);
    for number in 1..cluster.quorums.centres() + 1 {
        if let Some(centre) = Centre::new(number) {
            let node = boot(alloc, cluster, centre, &mut logs)?;
            nodes.push(node)?;
        }
    }
    Ok((nodes, logs))
}
