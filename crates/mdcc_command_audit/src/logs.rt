//! The logs of all centres, opened and taken by an audit.
ghost use Rattle.std.specs.Prelude.{◌≡◌, ◌+◌, ◌<◌, ◌≤◌, ◌∷◌, [], IfErr, IfOk, IsErrOf, IsTrue, List, Ok, OnOk, Some, fold, is_some, length, slice_get, true, ℕ};
ghost use Rattle.mdcc_node_boot.specs.Loading.{fact_read};
ghost use Rattle.mdcc_audit.specs.Auditing.{audit_state_after, fact_taken, nothing_taken};
ghost use Rattle.mdcc_audit.specs.Logs.{placed_log, placed_of};
ghost use Rattle.mdcc_audit.specs.Represents.{state_of};
ghost use Rattle.mdcc_command_audit.specs.Audits.{AreTold, BootsAt, IsCentreUpTo, IsElsewhere, KeepsDisks, SaysAt, UnlessDisk, facts_in, log_on, logs_on, of_start};
ghost use Rattle.mdcc_base.specs.Causes.{Rose};
ghost use Rattle.mdcc_node_log.specs.Opening.{AreFacts, OnlyOpens};
ghost use Rattle.mdcc_command_endings.specs.Logs.{AreAreasTold, SaysLogs, node_booted_at};
ghost use Rattle.mdcc_command_endings.specs.declared.fault.Failure.{Failure as AFailure};
ghost use Rattle.mdcc_log_file.specs.Area.{payloads};
ghost use Rattle.mdcc_log_file.specs.Both.{KeepsBut, RoseAtOne};
ghost use Rattle.mdcc_log_file.specs.declared.fault.LogFault.{LogFault as ALogFault};
ghost use Rattle.mdcc_def_protocol.specs.Belongs.{is_centre};

use mdcc_audit::Audit;
use mdcc_base::{Centre, HeapList};
use mdcc_command_endings::Failure;
use mdcc_disks::Disks;
use mdcc_journal::decode_fact;
use mdcc_node_log::{StartFault, open};
use mdcc_option::Cluster;
use std::alloc::Global;

// Takes the fact of this number, which a payload is. Only memory may lack.
fn take_payload(
    alloc: Global,
    audit: &mut Audit,
    centre: Centre,
    number: u64,
    payload: &[u8],
) -> Result<(), Failure>
    requires { IsTrue (is_some (fact_read payload.now)) }
    ensures state { OnOk result (state_of audit.new ≡ fold (fact_taken audit.old.quorums) (state_of audit.old) (placed_log centre number (facts_in (payload.now ∷ [])))) }
    ensures quorums { audit.new.quorums ≡ audit.old.quorums }
    ensures fault { IfErr result (λ failure. failure ≡ AFailure.Memory) }
{
    let Ok(fact) = decode_fact(alloc, payload) else {
        return Err(Failure::Memory);
    };
    match audit.take(centre, number, &fact) {
        Ok(()) => Ok(()),
        Err(_) => Err(Failure::Memory),
    }
}

// The payload at an index.
fn payload_at(payloads: &[HeapList<u8>], index: usize) -> &[u8]
    requires { index < length payloads.now }
    ensures { slice_get payloads.now index ≡ Some result.now }
{
    payloads[index].as_slice()
}

// Takes the facts of the log of a centre, which these payloads are.
fn take_log(
    alloc: Global,
    audit: &mut Audit,
    centre: Centre,
    payloads: &[HeapList<u8>],
) -> Result<(), Failure>
    requires { AreFacts payloads.now }
    ensures state { OnOk result (state_of audit.new ≡ fold (fact_taken audit.old.quorums) (state_of audit.old) (placed_log centre 1 (facts_in payloads.now))) }
    ensures quorums { audit.new.quorums ≡ audit.old.quorums }
    ensures fault { IfErr result (λ failure. failure ≡ AFailure.Memory) }
{
    for index in 0..payloads.len() {
        let number = index as u64 + 1;
        take_payload(alloc, audit, centre, number, payload_at(payloads, index))?;
    }
    Ok(())
}

// Why a log was not opened, as a command has it.
fn start_failure(centre: Centre, fault: StartFault) -> Failure
    ensures { result ≡ of_start centre fault }
{
    match fault {
        StartFault::Log(fault) => Failure::Log(centre, fault),
        StartFault::Boot(fault) => Failure::Boot(centre, fault),
        StartFault::Memory => Failure::Memory,
    }
}

// The centre of a number.
fn centre_at(number: u8) -> Centre
    requires { (1 ≤ number) × (number ≤ 9) }
    ensures { result ≡ number }
{
    Centre::new(number).unwrap()
}

// Opens the log of a centre, and takes its facts.
fn take_next<D: Disks>(
    alloc: Global,
    cluster: &Cluster,
    centre: Centre,
    disks: &mut D,
    audit: &mut Audit,
) -> Result<(), Failure>
    requires { is_centre cluster.now centre ≡ true }
    ensures state { AreAreasTold D.disk disks.old centre
        → OnOk result (state_of audit.new ≡ fold (fact_taken audit.old.quorums) (state_of audit.old) (placed_log centre 1 (log_on D.disk disks.old centre))) }
    ensures quorums { audit.new.quorums ≡ audit.old.quorums }
    ensures node { OnOk result (BootsAt D.disk cluster.now disks.old centre) }
    ensures says { IfErr result (SaysAt D.disk cluster.now disks.old centre) }
    ensures disk { (a : ℕ) → IsErrOf result (AFailure.Log a ALogFault.DiskFault)
        → RoseAtOne (D.disk disks.old a) (D.disk disks.new a) (D.disk disks.old (a + 16)) (D.disk disks.new (a + 16)) }
    ensures keeps { (all : List (List ℕ)) → AreAreasTold D.disk disks.old centre
        → payloads (D.disk disks.old centre).bytes (D.disk disks.old (centre + 16)).bytes ≡ Ok all
        → UnlessDisk result (payloads (D.disk disks.new centre).bytes (D.disk disks.new (centre + 16)).bytes ≡ Ok all) }
    ensures opens { OnlyOpens D.disk D.may_leave D.moment D.left_since D.tears disks.old disks.new centre result }
    ensures others { KeepsBut D.disk D.may_leave D.moment D.left_since disks.old disks.new centre (centre + 16) }
{
    match open(alloc, cluster, centre, disks) {
        Ok(payloads) => take_log(alloc, audit, centre, payloads.as_slice()),
        Err(fault) => Err(start_failure(centre, fault)),
    }
}

/// Opens the logs of all centres in their order, and takes their facts. Nothing is appended, and no
/// more than one log is held.
pub(crate) fn take_logs<D: Disks>(
    alloc: Global,
    cluster: &Cluster,
    disks: &mut D,
) -> Result<Audit, Failure>
    requires { cluster.now.quorums.centres ≤ 9 }
    ensures state { AreTold D.disk disks.old cluster.now.quorums.centres
        → IfOk result (λ audit. state_of audit ≡ audit_state_after cluster.now.quorums (placed_of (logs_on D.disk disks.old cluster.now))) }
    ensures logs { AreTold D.disk disks.old cluster.now.quorums.centres
        → SaysLogs (node_booted_at D.disk cluster.now disks.old) 1 cluster.now.quorums.centres result }
    ensures fails { IfErr result (λ failure. (a : ℕ) × SaysAt D.disk cluster.now disks.old a failure) }
    ensures disk { (a : ℕ) → IsErrOf result (AFailure.Log a ALogFault.DiskFault)
        → RoseAtOne (D.disk disks.old a) (D.disk disks.new a) (D.disk disks.old (a + 16)) (D.disk disks.new (a + 16)) }
    ensures keeps { (a : ℕ) (all : List (List ℕ)) → IsCentreUpTo cluster.now.quorums.centres a → AreAreasTold D.disk disks.old a
        → payloads (D.disk disks.old a).bytes (D.disk disks.old (a + 16)).bytes ≡ Ok all
        → UnlessDisk result (payloads (D.disk disks.new a).bytes (D.disk disks.new (a + 16)).bytes ≡ Ok all) }
    ensures opens { (a : ℕ) → IsCentreUpTo cluster.now.quorums.centres a
        → OnlyOpens D.disk D.may_leave D.moment D.left_since D.tears disks.old disks.new a result }
    ensures others { KeepsDisks D.disk D.may_leave D.moment D.left_since (IsElsewhere cluster.now.quorums.centres) disks.old disks.new }
{
    let mut audit = Audit::new(alloc, cluster);
    for number in 1..cluster.quorums.centres() + 1 {
        take_next(alloc, cluster, centre_at(number), disks, &mut audit)?;
    }
    Ok(audit)
}
