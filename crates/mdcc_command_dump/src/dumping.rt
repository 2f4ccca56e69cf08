//! The facts of a log, printed.
ghost use Rattle.std.specs.Prelude.{◌≡◌, ◌≤◌, ◌<◌, ◌+◌, Err, IfErr, IfOk, IsErrOf, IsTrue, List, Ok, OnErr, OnOk, is_some, length, slice_get, Some, true, ℕ};
ghost use Rattle.std.specs.Io.KnownBytes.{Appends};
ghost use Rattle.std.specs.String.{string_bytes};
ghost use Rattle.mdcc_node_boot.specs.Loading.{fact_read};
ghost use Rattle.mdcc_log_file.specs.Area.{payloads};
ghost use Rattle.mdcc_log_file.specs.Both.{KeepsBut, RoseAtOne};
ghost use Rattle.mdcc_log_file.specs.declared.fault.LogFault.{LogFault as ALogFault};
ghost use Rattle.mdcc_base.specs.Causes.{Rose};
ghost use Rattle.mdcc_command_dump.specs.Dumps.{IsDumped, IsPrintFault, IsUnopened, KeepsUnlessDiskFault, MayFail, dump_text, payload_lines};
ghost use Rattle.mdcc_node_log.specs.Opening.{AreFacts, OnlyOpens, StaysAsLog};
ghost use Rattle.mdcc_command_dump.specs.declared.fault.DumpFault.{DumpFault as ADumpFault};
ghost use Rattle.mdcc_def_protocol.specs.Belongs.{is_centre};
ghost use Rattle.mdcc_command_replay.specs.Writing.{Front};
ghost use Rattle.mdcc_node_log.specs.declared.fault.StartFault.{StartFault as AStartFault};

use crate::DumpFault;
use crate::lines::write_fact;
use mdcc_base::{Centre, HeapList, Sink};
use mdcc_command_replay::write_text;
use mdcc_disks::Disks;
use mdcc_journal::decode_fact;
use mdcc_node_log::open;
use mdcc_option::Cluster;
use std::alloc::Global;

// The lines of the fact of this number that a payload is. Only memory may lack.
fn lines_of(alloc: Global, number: u64, payload: &[u8]) -> Result<String, DumpFault>
    requires { IsTrue (is_some (fact_read payload.now)) }
    ensures text { IfOk result (λ text. string_bytes text ≡ payload_lines number payload.now) }
    ensures fault { IfErr result (λ fault. fault ≡ ADumpFault.Memory) }
{
    let Ok(fact) = decode_fact(alloc, payload) else {
        return Err(DumpFault::Memory);
    };
    let mut text = String::new(alloc);
    write_fact(number, &fact, &mut text)?;
    Ok(text)
}

// Prints the lines of the fact of this number, or a prefix of them.
fn print_payload<O: Sink>(
    alloc: Global,
    number: u64,
    payload: &[u8],
    out: &mut O,
) -> Result<(), DumpFault>
    requires { IsTrue (is_some (fact_read payload.now)) }
    ensures all { OnOk result (Appends (O.held out.old) (O.held out.new) (payload_lines number payload.now)) }
    ensures front { OnErr result (Front (O.held out.old) (O.held out.new) (payload_lines number payload.now)) }
    ensures fault { IfErr result IsPrintFault }
    ensures output { IsErrOf result ADumpFault.Output → Rose (O.faults out.old) (O.faults out.new) }
    ensures later { O.faults out.old ≤ O.faults out.new }
{
    let text = lines_of(alloc, number, payload)?;
    write_text(out, text.as_bytes())?;
    Ok(())
}

// The payload at an index.
fn payload_at(payloads: &[HeapList<u8>], index: usize) -> &[u8]
    requires { index < length payloads.now }
    ensures { slice_get payloads.now index ≡ Some result.now }
{
    payloads[index].as_slice()
}

// Prints the lines of all facts, or a prefix of them.
fn print_payloads<O: Sink>(
    alloc: Global,
    payloads: &[HeapList<u8>],
    out: &mut O,
) -> Result<(), DumpFault>
    requires { AreFacts payloads.now }
    ensures all { OnOk result (Appends (O.held out.old) (O.held out.new) (dump_text payloads.now)) }
    ensures front { OnErr result (Front (O.held out.old) (O.held out.new) (dump_text payloads.now)) }
    ensures fault { IfErr result IsPrintFault }
    ensures output { IsErrOf result ADumpFault.Output → Rose (O.faults out.old) (O.faults out.new) }
{
    for index in 0..payloads.len() {
        let number = index as u64 + 1;
        print_payload(alloc, number, payload_at(payloads, index), out)?;
    }
    Ok(())
}

/// Prints the facts of the log of a centre, a line for each fact, and for a vote one for each mark, once its log was opened and its
/// node booted from it. Nothing is appended, and no checkpoint is made.
pub fn dump<D: Disks, O: Sink>(
    alloc: Global,
    cluster: &Cluster,
    centre: Centre,
    disks: &mut D,
    out: &mut O,
) -> Result<(), DumpFault>
    requires { is_centre cluster.now centre ≡ true }

    // Over a log of these payloads: its facts are printed where a node boots from them. So a checkpoint changes nothing of it.
    ensures dumps { (all : List (List ℕ)) → IsTrue (D.disk disks.old centre).told → IsTrue (D.disk disks.old (centre + 16)).told
        → payloads (D.disk disks.old centre).bytes (D.disk disks.old (centre + 16)).bytes ≡ Ok all
        → IsDumped cluster.now all result (O.held out.old) (O.held out.new) }
    // Areas that give no log are refused for what stands there, and stay as they are.
    ensures unread { (n : ℕ) → IsTrue (D.disk disks.old centre).told → IsTrue (D.disk disks.old (centre + 16)).told
        → payloads (D.disk disks.old centre).bytes (D.disk disks.old (centre + 16)).bytes ≡ Err n
        → IsUnopened n centre D.disk disks.old disks.new result (O.held out.old) (O.held out.new) }

    // The other faults have their causes; memory may lack at any time.
    ensures causes { IfErr result (MayFail (O.held out.old) (O.held out.new)) }
    ensures disk { IsErrOf result (ADumpFault.Log (AStartFault.Log ALogFault.DiskFault))
        → RoseAtOne (D.disk disks.old centre) (D.disk disks.new centre) (D.disk disks.old (centre + 16)) (D.disk disks.new (centre + 16)) }
    ensures output { IsErrOf result ADumpFault.Output → Rose (O.faults out.old) (O.faults out.new) }

    // It appends nothing: the same payloads are read again, also after a crash at any moment of it where no byte is torn to 1.
    ensures keeps { (all : List (List ℕ)) → IsTrue (D.disk disks.old centre).told → IsTrue (D.disk disks.old (centre + 16)).told
        → payloads (D.disk disks.old centre).bytes (D.disk disks.old (centre + 16)).bytes ≡ Ok all
        → KeepsUnlessDiskFault result (payloads (D.disk disks.new centre).bytes (D.disk disks.new (centre + 16)).bytes ≡ Ok all) }
    ensures any_moment { StaysAsLog D.disk D.may_leave D.moment D.left_since D.tears disks.old disks.new centre }
    // At its disks the calls of an opening are made and no others, and none at other disks.
    ensures opens { OnlyOpens D.disk D.may_leave D.moment D.left_since D.tears disks.old disks.new centre result }
    ensures others { KeepsBut D.disk D.may_leave D.moment D.left_since disks.old disks.new centre (centre + 16) }
{
    let payloads = open(alloc, cluster, centre, disks)?;
    print_payloads(alloc, payloads.as_slice(), out)
}
