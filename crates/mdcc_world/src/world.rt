//! A world: the nodes of a cluster, their logs on disks in memory, the messages between them, and what happens to them.
ghost use Rattle.std.specs.Prelude.{◌≡◌, ◌≤◌, ◌<◌, ◌+◌, ◌-◌, IfErr, IfOk, OnOk, get_or, length, nat_le, true, false, ℕ};
ghost use Rattle.mdcc_def_protocol.specs.IsCluster.{IsCluster};
ghost use Rattle.mdcc_def_simulation.specs.State.{World as AWorld, first_world, is_up_at};
ghost use Rattle.mdcc_def_simulation.specs.Runs.{end_line};
ghost use Rattle.mdcc_world.specs.Disks.{DisksShow};
ghost use Rattle.mdcc_world.specs.Faults.{is_free};
ghost use Rattle.mdcc_world.specs.Represents.{IsLike, RepresentsWorld};
ghost use Rattle.mdcc_theorem_worlds.specs.EventEffects.{at_centre, at_limit};

use mdcc_base::{Centre, HeapList, Image, Memory};
use mdcc_def_language::{EventFault, LimitName, Line};
use mdcc_def_messages::Envelope;
use mdcc_disks::MemoryDisks;
use mdcc_node::Node;
use mdcc_option::{Cluster, Known};
use mdcc_world_decisions::Decisions;
use mdcc_world_logs::{CentreFacts, Logs, boot_all};
use mdcc_world_mail::{Network, empty_envelope};
use std::alloc::Global;

/// How many events there may be.
pub(crate) const MOST_EVENTS: u32 = 100_000;

/// The nodes of a cluster with their logs, all messages between them as bytes, and the reads that
/// were made. The node of a centre that is down counts for nothing; its log is what it starts from.
/// Where a stop is armed, the next append of its centre stops inside the device call of that number, or, from 5 on, the next
/// checkpoint behind an append.
#[derive(Drop)]
pub struct World {
    pub(crate) alloc: Global,
    pub(crate) cluster: Cluster,
    pub(crate) nodes: Vec<Node<CentreFacts>>,
    pub(crate) up: [bool; 9],
    pub(crate) stops: [Option<(u8, Image)>; 9],
    pub(crate) logs: Logs,
    pub(crate) network: Network,
    pub(crate) bytes: u64,
    pub(crate) decisions: Decisions,
    pub(crate) reads: HeapList<Option<Known>>,
    pub(crate) events: u32,
    // The message that is delivered, decoded in place.
    pub(crate) envelope: Envelope,
}

// The first so many centres are up.
fn first_ups(centres: u8) -> [bool; 9]
    ensures { (a : ℕ) → 1 ≤ a → a ≤ 9 → get_or result (a - 1) false ≡ nat_le a centres }
{
    [
        1 <= centres,
        2 <= centres,
        3 <= centres,
        4 <= centres,
        5 <= centres,
        6 <= centres,
        7 <= centres,
        8 <= centres,
        9 <= centres,
    ]
}

impl World {
    /// All centres are booted for the first time, from empty disks.
    pub fn new(alloc: Global, cluster: Cluster) -> Result<World, Memory>
        requires { IsCluster cluster }
        ensures { IfOk result (λ world. RepresentsWorld world (first_world cluster)) }
    {
        let (nodes, logs) = boot_all(alloc, &cluster)?;
        let network = Network::new(alloc)?;
        let decisions = Decisions::new(alloc, &cluster.quorums)?;
        let up = first_ups(cluster.quorums.centres());
        Ok(World {
            alloc,
            cluster,
            nodes,
            up,
            stops: [None; 9],
            logs,
            network,
            bytes: 0,
            decisions,
            reads: HeapList::new(alloc),
            events: 0,
            envelope: empty_envelope(),
        })
    }

    /// The disks of the centres: that of centre K is at place K, and its log has all that the centre
    /// added to the ledger.
    pub fn disks(&self) -> &MemoryDisks
        ensures { (w : AWorld) → RepresentsWorld self.now w → DisksShow result.now w }
    {
        self.logs.disks()
    }

    /// The last line of a report.
    pub fn end(&self) -> Line
        ensures { (w : AWorld) → RepresentsWorld self.now w → result ≡ end_line w }
    {
        let totals = self.decisions.totals();
        Line::End {
            events: self.events,
            messages: self.network.len() as u32,
            commits: totals.commits,
            aborts: totals.aborts,
            undecided: totals.undecided,
        }
    }

    /// How many reads were made.
    pub fn reads(&self) -> usize
        ensures { (w : AWorld) → RepresentsWorld self.now w → result ≡ length w.reads }
    {
        self.reads.len()
    }

    // The number of the next message.
    pub(crate) fn next_message(&self) -> u32
        ensures { result ≡ length self.now.network + 1 }
    {
        self.network.len() as u32 + 1
    }

    // Whether a centre is up.
    pub(crate) fn is_up(&self, centre: Centre) -> bool
        ensures value { result ≡ get_or self.now.up (centre - 1) false }
        ensures up { (w : AWorld) → IsLike self.now w → result ≡ is_up_at w centre }
    {
        self.up[usize::from(centre.number()) - 1]
    }

    // Why nothing happens any more.
    pub(crate) fn at_limit(&self) -> Result<(), EventFault>
        ensures limit { (w : AWorld) → IsLike self.now w → result ≡ at_limit w }
        ensures free { IfErr result (λ fault. is_free fault ≡ true) }
        ensures few { OnOk result (self.now.events < 100000) }
    {
        if self.events >= MOST_EVENTS {
            return Err(EventFault::Limit(LimitName::Events, u64::from(MOST_EVENTS)));
        }
        Ok(())
    }

    // Why nothing happens at a centre.
    pub(crate) fn at_centre(&self, centre: Centre) -> Result<(), EventFault>
        ensures centre { (w : AWorld) → IsLike self.now w → result ≡ at_centre w centre }
        ensures up { (w : AWorld) → IsLike self.now w → OnOk result (is_up_at w centre ≡ true) }
        ensures few { OnOk result (self.now.events < 100000) }
    {
        if !self.is_up(centre) {
            return Err(EventFault::Down(centre));
        }
        self.at_limit()
    }
}
