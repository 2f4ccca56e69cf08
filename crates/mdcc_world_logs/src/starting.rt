//! The start of one centre.
ghost use Rattle.std.specs.Prelude.{◌≡◌, ◌<◌, ◌-◌, ◌+◌, ◌^◌, IsTrue, List, Ok, length, true, ℕ};
ghost use Rattle.mdcc_log_file.specs.Area.{AreaLog, payloads, read_areas};
ghost use Rattle.mdcc_log_file.specs.Both.{KeepsBut};
ghost use Rattle.mdcc_log.specs.Crash.{ReadsAsEither};
ghost use Rattle.mdcc_disks.specs.Disks.{Only};
ghost use Rattle.mdcc_disks.specs.Memory.{disk_of, may_leave_of, moment_of, left_since_of};
ghost use Rattle.mdcc_world_logs.specs.Starting.{OnNone, RunsWithTail, StartsOver, lacking};
ghost use Rattle.mdcc_def_protocol.specs.Belongs.{is_centre};
ghost use Rattle.mdcc_def_protocol.specs.Facts.{epoch_of};
ghost use Rattle.mdcc_def_messages.specs.Spelling.{fact_bytes, encodings_of};
ghost use Rattle.mdcc_def_messages.specs.declared.facts.Fact.{Fact as AFact};
ghost use Rattle.mdcc_node_log.specs.Logged.{AreLogged};
ghost use Rattle.mdcc_node_log.specs.Starting.{HasLogRoom, IsLogOnDisks};
ghost use Rattle.mdcc_def_rules.specs.Boot.{next_boot};
ghost use Rattle.mdcc_theorem_node_steps.specs.NodeInvariant.{FitInTurn};
ghost use Rattle.mdcc_def_simulation.specs.Checkpoints.{checkpoint_every};

use mdcc_base::{Centre, Memory, Plain};
use mdcc_disks::MemoryDisks;
use mdcc_index::PoolFacts;
use mdcc_log::LogFault;
use mdcc_node::Node;
use mdcc_node_log::{BootFault, Running, StartFault};
use mdcc_option::Cluster;
use std::alloc::Global;

/// After so many frames a checkpoint is due.
pub const CHECKPOINT_EVERY: u32 = 1024;

/// The store of a centre's facts.
pub type CentreFacts = PoolFacts;

/// What comes of a restart.
#[derive(Drop)]
pub enum Started {
    /// The node of the centre, and the epoch that its boot began.
    Node(Node<CentreFacts>, u32),
    /// The log would pass 2^30 bytes with the new boot.
    Full,
    /// With the new boot the facts would need so many cells, more than the node has.
    NoRoom(u64),
}

/// What comes of a start.
#[derive(Drop)]
pub(crate) enum Attempt {
    Runs(Running<CentreFacts>),
    /// The log would pass 2^30 bytes with the new boot.
    Full,
    /// With the new boot the facts would need so many cells, more than the node has.
    NoRoom(u64),
}

// What comes of a start that is refused. That a call of the disk failed is for want of memory, and so is each refusal that
// cannot come over a log of what the centre added.
fn lacking(fault: StartFault) -> Result<Attempt, Memory>
    ensures { result ≡ lacking fault }
{
    match fault {
        StartFault::Log(LogFault::LogFull) => Ok(Attempt::Full),
        StartFault::Boot(BootFault::Room { needed, .. }) => Ok(Attempt::NoRoom(needed)),
        _ => Err(Memory),
    }
}

/// A centre that starts over its areas. None runs where the new boot would pass its node's cells or the limit of its log.
pub(crate) fn start(
    alloc: Global,
    cluster: &Cluster,
    centre: Centre,
    disks: &mut MemoryDisks,
) -> Result<Attempt, Memory>
    requires { is_centre cluster.now centre ≡ true }
    ensures starts { (facts : List AFact) → AreLogged cluster.now facts → FitInTurn cluster.now facts
        → IsLogOnDisks facts (disk_of disks.old centre) (disk_of disks.old (centre + 16))
        → HasLogRoom checkpoint_every (disk_of disks.old centre) (disk_of disks.old (centre + 16)) → epoch_of facts < 2 ^ 32 - 1
        → StartsOver result cluster.now centre facts disks.old disks.new }
    ensures tail { (area_log : AreaLog) → IsTrue (disk_of disks.old centre).told → IsTrue (disk_of disks.old (centre + 16)).told
        → read_areas (disk_of disks.old centre).bytes (disk_of disks.old (centre + 16)).bytes ≡ Ok area_log → RunsWithTail result (length area_log.tail) }
    ensures none { (all : List (List ℕ)) → IsTrue (disk_of disks.old centre).told → IsTrue (disk_of disks.old (centre + 16)).told
        → payloads (disk_of disks.old centre).bytes (disk_of disks.old (centre + 16)).bytes ≡ Ok all → OnNone result all centre disks.old disks.new }
    ensures any_moment { (facts : List AFact) (first second : List ℕ) → AreLogged cluster.now facts
        → IsLogOnDisks facts (disk_of disks.old centre) (disk_of disks.old (centre + 16))
        → Only (disk_of disks.old centre).bytes (may_leave_of disks.old centre)
        → Only (disk_of disks.old (centre + 16)).bytes (may_leave_of disks.old (centre + 16))
        → left_since_of disks.new centre (moment_of disks.old) first → left_since_of disks.new (centre + 16) (moment_of disks.old) second
        → ReadsAsEither (encodings_of facts) (fact_bytes (next_boot facts)) (payloads first second) }
    ensures others { KeepsBut disk_of may_leave_of moment_of left_since_of disks.old disks.new centre (centre + 16) }
{
    let store = CentreFacts::new(alloc, cluster.cells)?;
    match mdcc_node_log::start(
        alloc,
        cluster.copy(),
        centre,
        store,
        disks,
        CHECKPOINT_EVERY,
    ) {
        Ok(centre) => Ok(Attempt::Runs(centre)),
        Err(fault) => lacking(fault),
    }
}
