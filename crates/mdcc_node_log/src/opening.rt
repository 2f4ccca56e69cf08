//! A look into a log that gives a node.
ghost use Rattle.std.specs.Prelude.{◌≡◌, ◌+◌, Err, IfErr, IfOk, IsErrAnd, IsErrOf, IsTrue, List, Ok, OnOk, true, ℕ};
ghost use Rattle.mdcc_node_boot.specs.Loading.{AreWithinFrames};
ghost use Rattle.mdcc_log_file.specs.Area.{payloads};
ghost use Rattle.mdcc_log_file.specs.Both.{KeepsBut, RoseAtOne};
ghost use Rattle.mdcc_log_file.specs.declared.fault.LogFault.{LogFault as ALogFault};
ghost use Rattle.mdcc_node_log.specs.Opening.{AreFacts, HasBooted, IsOpeningFault, IsUnbooted, OnlyOpens, StandsUnlessDisk, StaysAsLog};
ghost use Rattle.mdcc_def_protocol.specs.Belongs.{is_centre};
ghost use Rattle.mdcc_node_log.specs.Starting.{IsUnread};
ghost use Rattle.mdcc_node_log.specs.declared.fault.StartFault.{StartFault as AStartFault};

use crate::StartFault;
use mdcc_base::{Centre, HeapList, Plain};
use mdcc_disks::Disks;
use mdcc_index::PoolFacts;
use mdcc_log::Frames;
use mdcc_node::Node;
use mdcc_option::Cluster;
use std::alloc::Global;

// Boots the node of a centre from payloads, and gives it up.
fn boot(
    alloc: Global,
    cluster: &Cluster,
    centre: Centre,
    payloads: &[HeapList<u8>],
) -> Result<(), StartFault>
    requires among { is_centre cluster.now centre ≡ true }
    requires short { AreWithinFrames payloads.now }
    ensures boots { OnOk result (HasBooted cluster.now payloads.now) }
    ensures refused { IfErr result (IsUnbooted cluster.now payloads.now) }
    ensures facts { OnOk result (AreFacts payloads.now) }
    ensures causes { IfErr result IsOpeningFault }
    ensures no_log { (fault : ALogFault) → IsErrOf result (AStartFault.Log fault) → ⊥ }
{
    let store = PoolFacts::new(alloc, cluster.cells)?;
    Node::boot(alloc, cluster.copy(), centre, store, payloads)?;
    Ok(())
}

/// The payloads of the log of a centre, from which its node boots. No checkpoint is made, and nothing is appended.
pub fn open<D: Disks>(
    alloc: Global,
    cluster: &Cluster,
    centre: Centre,
    disks: &mut D,
) -> Result<Vec<HeapList<u8>>, StartFault>
    requires { is_centre cluster.now centre ≡ true }

    ensures found { (all : List (List ℕ)) → IsTrue (D.disk disks.old centre).told → IsTrue (D.disk disks.old (centre + 16)).told
        → payloads (D.disk disks.old centre).bytes (D.disk disks.old (centre + 16)).bytes ≡ Ok all
        → IfOk result (λ found. (found.items ≡ all) × HasBooted cluster.now all) }
    ensures refused { (all : List (List ℕ)) → IsTrue (D.disk disks.old centre).told → IsTrue (D.disk disks.old (centre + 16)).told
        → payloads (D.disk disks.old centre).bytes (D.disk disks.old (centre + 16)).bytes ≡ Ok all
        → IfErr result (IsUnbooted cluster.now all) }
    ensures facts { IfOk result (λ found. AreFacts found.items) }
    ensures causes { IfErr result IsOpeningFault }
    ensures unread { (n : ℕ) → IsTrue (D.disk disks.old centre).told → IsTrue (D.disk disks.old (centre + 16)).told
        → payloads (D.disk disks.old centre).bytes (D.disk disks.old (centre + 16)).bytes ≡ Err n
        → IsErrAnd result (λ fault. IsUnread n fault centre D.disk disks.old disks.new) }
    ensures disk { IsErrOf result (AStartFault.Log ALogFault.DiskFault)
        → RoseAtOne (D.disk disks.old centre) (D.disk disks.new centre) (D.disk disks.old (centre + 16)) (D.disk disks.new (centre + 16)) }

    // The same payloads are read again, also after a crash at any moment of it where no byte is torn to 1.
    ensures keeps { (all : List (List ℕ)) → IsTrue (D.disk disks.old centre).told → IsTrue (D.disk disks.old (centre + 16)).told
        → payloads (D.disk disks.old centre).bytes (D.disk disks.old (centre + 16)).bytes ≡ Ok all
        → StandsUnlessDisk result (payloads (D.disk disks.new centre).bytes (D.disk disks.new (centre + 16)).bytes ≡ Ok all) }
    ensures any_moment { StaysAsLog D.disk D.may_leave D.moment D.left_since D.tears disks.old disks.new centre }
    // At its disks the calls of an opening are made and no others, and none at other disks.
    ensures opens { OnlyOpens D.disk D.may_leave D.moment D.left_since D.tears disks.old disks.new centre result }
    ensures others { KeepsBut D.disk D.may_leave D.moment D.left_since disks.old disks.new centre (centre + 16) }
{
    let (_log, payloads) = Frames::open(alloc, disks, centre, 1)?;
    boot(alloc, cluster, centre, payloads.as_slice())?;
    Ok(payloads)
}
