//! The boot of a node from the payloads of its log.
ghost use Rattle.std.specs.Prelude.{◌≡◌, [], IfOk, map, true, ℕ};
ghost use Rattle.mdcc_node_boot.specs.Loading.{AreWithinFrames, HoldsFacts, boot_by, fact_read};
ghost use Rattle.mdcc_node.specs.BootEffects.{Boots, IsBoot};
ghost use Rattle.mdcc_def_protocol.specs.Belongs.{is_centre};

use crate::node::Node;
use mdcc_base::{Centre, HeapList};
use mdcc_def_messages::Fact;
use mdcc_def_rules::BootFault;
use mdcc_facts::FactStore;
use mdcc_leader::Leader;
use mdcc_manager::Manager;
use mdcc_node_boot::boot_store;
use mdcc_option::Cluster;
use mdcc_recover::Recover;
use std::alloc::Global;

impl<S: FactStore + Drop> Node<S> {
    /// A node from the payloads of its log, the oldest first, over an empty store, with the fact of
    /// the boot, which the caller makes durable. `NotARun` is the number of the first payload, from 1,
    /// that spells no fact or one that may not stand after those before it; `Room` comes where an
    /// allowed fact needs more cells than are left, with the cells that are held and its own, up to
    /// 2^64 - 1, and all cells; after the payloads `Epochs` comes where the last epoch is 2^32 - 1, and
    /// last `Room` for the new boot. `mdcc_node_boot::loading::are_short` tests whether the payloads
    /// are short. The store is given up with a refusal. A boot without memory may be tried again.
    pub fn boot(
        alloc: Global,
        cluster: Cluster,
        centre: Centre,
        store: S,
        payloads: &[HeapList<u8>],
    ) -> Result<(Node<S>, Fact), BootFault>
        requires among { is_centre cluster centre ≡ true }
        requires empty { S.stands store [] }
        requires short { AreWithinFrames payloads.now }
        ensures boots { (total : ℕ) → HoldsFacts S.stands S.cells total store []
            → Boots S.stands S.cells total result cluster centre (boot_by total cluster (map fact_read payloads.now)) }
        ensures fact { IfOk result (λ r. IsBoot r.1) }
    {
        let mut store = store;
        match boot_store(alloc, &cluster, &mut store, payloads) {
            Ok(epoch) => {
                let manager = Manager::new(alloc, centre, epoch)?;
                let leader = Leader::new(alloc, centre, epoch)?;
                let recover = Recover::new(alloc)?;
                let node = Node {
                    alloc,
                    cluster,
                    centre,
                    store,
                    manager,
                    leader,
                    recover,
                };
                Ok((node, Fact::Booted(epoch)))
            }
            Err(fault) => Err(fault),
        }
    }
}
