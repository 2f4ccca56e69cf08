//! The audit of logs that are held as lists.
ghost use Rattle.std.specs.Prelude.{◌≡◌, ◌+◌, ◌<◌, ◌≤◌, fold, length, map, OnOk};
ghost use Rattle.mdcc_audit.specs.Auditing.{fact_taken};
ghost use Rattle.mdcc_audit.specs.Free.{is_audit_memory};
ghost use Rattle.mdcc_audit.specs.Logs.{audit_of, placed_log};
ghost use Rattle.mdcc_audit.specs.Represents.{state_of};
ghost use Rattle.mdcc_base.specs.Unless.{GivesUnless};

use crate::audited::{AuditFault, Audited};
use crate::taken::Audit;
use mdcc_base::{Centre, HeapList, Memory};
use mdcc_def_messages::Fact;
use mdcc_option::Cluster;
use std::alloc::Global;

// The centre of the log at an index.
fn centre_at(index: usize) -> Centre
    requires { index < 9 }
    ensures { result ≡ index + 1 }
{
    Centre::new(index as u8 + 1).unwrap()
}

// Takes all facts of the log of a centre.
fn take_log(audit: &mut Audit, centre: Centre, log: &[Fact]) -> Result<(), Memory>
    ensures state { OnOk result (state_of audit.new ≡ fold (fact_taken audit.old.quorums) (state_of audit.old) (placed_log centre 1 log.now)) }
    ensures quorums { audit.new.quorums ≡ audit.old.quorums }
{
    for i in 0..log.len() {
        audit.take(centre, i as u64 + 1, &log[i])?;
    }
    Ok(())
}

/// What the logs of a cluster decided, or which two facts of them contradict each other. There is a
/// log for each centre in order, with the oldest fact first.
pub fn audit(
    alloc: Global,
    cluster: &Cluster,
    logs: &[HeapList<Fact>],
) -> Result<Audited, AuditFault>
    requires { length logs.now ≡ cluster.now.quorums.centres }
    ensures { GivesUnless is_audit_memory result (audit_of cluster.now.quorums logs.now) }
{
    let mut audit = Audit::new(alloc, cluster);
    for i in 0..usize::from(cluster.quorums.centres()) {
        take_log(&mut audit, centre_at(i), logs[i].as_slice())?;
    }
    audit.end()
}
