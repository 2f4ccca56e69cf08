//! Facts go into the log of their centre.
ghost use Rattle.std.specs.Prelude.{◌≡◌, ◌≤◌, ◌<◌, ◌++◌, ◌⊎◌, [], List, Ok, ℕ, length, map, IfOk, IsErr, IsErrOf, IsTrue, OnOk};
ghost use Rattle.mdcc_node_log.specs.Logged.{with_facts};
ghost use Rattle.mdcc_disks.specs.Disks.{LeavesOnly};
ghost use Rattle.mdcc_journal.specs.Counts.{HasCounts};
ghost use Rattle.mdcc_log.specs.AtRest.{IsAtRest};
ghost use Rattle.mdcc_log.specs.Crash.{IsIdle, payloads_by};
ghost use Rattle.mdcc_log.specs.Frames.{IsInUse, IsSettled, IsSpare, other_of, place_of};
ghost use Rattle.mdcc_log.specs.Groups.{AreFull, MayHaveDueGroup, ReadsAsAllOrNone, with_payloads};
ghost use Rattle.mdcc_log.specs.Room.{HasGrown};
ghost use Rattle.mdcc_log.specs.Tails.{tail_with};
ghost use Rattle.mdcc_log_file.specs.Area.{AreaLog};
ghost use Rattle.mdcc_log_file.specs.Both.{KeepsBut, RoseAtOne};
ghost use Rattle.mdcc_log_file.specs.Crash.{AreShort};
ghost use Rattle.mdcc_def_messages.specs.Spelling.{fact_bytes, encodings_of};
ghost use Rattle.mdcc_def_messages.specs.declared.facts.Fact.{Fact as AFact};

use mdcc_base::{HeapList, Memory};
use mdcc_def_messages::Fact;
use mdcc_disks::Disks;
use mdcc_journal::encode_fact;
use mdcc_log::{Frames, LogFault};
use std::alloc::Global;

/// The bytes of a fact, as its log has them.
pub fn payload_of(alloc: Global, fact: &Fact) -> Result<Vec<u8>, Memory>
    requires { HasCounts fact.now }
    ensures { IfOk result (λ payload. payload.items ≡ fact_bytes fact.now) }
{
    let mut payload = Vec::new(alloc);
    encode_fact(fact, &mut payload)?;
    Ok(payload)
}

/// Makes facts durable behind those of an open log, by their payloads, the oldest first: all of them or none, as one group, and a
/// checkpoint that is due with them at once. Where there are none nothing is done. At `Ok` they are acknowledged: from then on each crash
/// leaves a log that has them. After `LogFull` and `Memory` all is as before; after a fault of the disk the log has to be opened
/// again, and may have all of them.
pub fn persist<D: Disks>(
    log: &mut Frames,
    disks: &mut D,
    payloads: &[HeapList<u8>],
) -> Result<(), LogFault>
    requires short { AreShort payloads.now }
    requires settled { let place = place_of log.old.centre log.old.area in IsTrue (D.disk disks.old place).told
        → IsSettled log.old (D.disk disks.old place).bytes (D.may_leave disks.old place) }
    requires spare { let place = place_of log.old.centre (other_of log.old.area) in IsTrue (D.disk disks.old place).told
        → IsSpare log.old (D.disk disks.old place).bytes (D.may_leave disks.old place) }

    // The log has the facts then; and so it is of any payloads.
    ensures logged { let place = place_of log.old.centre log.old.area in let other = place_of log.old.centre (other_of log.old.area) in
        (facts more : List AFact) → IsTrue (D.disk disks.old place).told → IsTrue (D.disk disks.old other).told
        → IsAtRest D.disk D.may_leave disks.old log.old (encodings_of facts) → payloads.now ≡ map fact_bytes more
        → OnOk result (IsAtRest D.disk D.may_leave disks.new log.new (encodings_of (with_facts facts more))) }
    ensures acknowledged { let place = place_of log.old.centre log.old.area in let other = place_of log.old.centre (other_of log.old.area) in
        (all : List (List ℕ)) → IsTrue (D.disk disks.old place).told → IsTrue (D.disk disks.old other).told
        → IsAtRest D.disk D.may_leave disks.old log.old all
        → OnOk result (IsAtRest D.disk D.may_leave disks.new log.new (all ++ payloads.now)) }
    ensures none { payloads.now ≡ [] → (result ≡ Ok (record {})) × ((log.new ≡ log.old) × (disks.new ≡ disks.old)) }
    ensures some { IsErr result → 1 ≤ length payloads.now }
    ensures few { (log.old.tail < log.old.every) ⊎ (1 ≤ length payloads.now) → OnOk result (log.new.tail < log.new.every) }
    ensures grown { OnOk result (HasGrown (length payloads.now) log.old log.new) }
    ensures tail { 1 ≤ length payloads.now → OnOk result (log.new.tail ≡ tail_with log.old.every log.old.tail (length payloads.now)) }
    ensures keeps { (log.new.centre ≡ log.old.centre) × (log.new.every ≡ log.old.every) }

    // What a crash at any moment of it leaves of each area.
    ensures any_moment { let place = place_of log.old.centre log.old.area in let other = place_of log.old.centre (other_of log.old.area) in
        (area_log : AreaLog) → IsTrue (D.disk disks.old place).told → IsTrue (D.disk disks.old other).told
        → IsInUse log.old area_log (D.disk disks.old place).bytes (D.may_leave disks.old place)
        → LeavesOnly D.moment D.left_since disks.old disks.new place (MayHaveDueGroup log.old.area area_log payloads.now) }
    ensures any_moment_other { let place = place_of log.old.centre log.old.area in let other = place_of log.old.centre (other_of log.old.area) in
        (area_log : AreaLog) → IsTrue (D.disk disks.old place).told → IsTrue (D.disk disks.old other).told
        → IsInUse log.old area_log (D.disk disks.old place).bytes (D.may_leave disks.old place)
        → IsSpare log.old (D.disk disks.old other).bytes (D.may_leave disks.old other)
        → LeavesOnly D.moment D.left_since disks.old disks.new other (IsIdle (with_payloads area_log payloads.now)) }

    // Opening after a crash at any moment of it gives the payloads from before it, or those and all of these.
    ensures any_moment_reads { let place = place_of log.old.centre log.old.area in let other = place_of log.old.centre (other_of log.old.area) in
        (all : List (List ℕ)) (current spare : List ℕ) → IsTrue (D.disk disks.old place).told → IsTrue (D.disk disks.old other).told
        → IsAtRest D.disk D.may_leave disks.old log.old all
        → D.left_since disks.new place (D.moment disks.old) current → D.left_since disks.new other (D.moment disks.old) spare
        → ReadsAsAllOrNone all payloads.now (payloads_by log.old.area current spare) }
    ensures others { KeepsBut D.disk D.may_leave D.moment D.left_since disks.old disks.new
        (place_of log.old.centre log.old.area) (place_of log.old.centre (other_of log.old.area)) }

    ensures disk_fault { let place = place_of log.old.centre log.old.area in let other = place_of log.old.centre (other_of log.old.area) in
        IsErrOf result LogFault.DiskFault
        → RoseAtOne (D.disk disks.old place) (D.disk disks.new place) (D.disk disks.old other) (D.disk disks.new other) }
    // It is full just where the log says so. One alone takes no memory.
    ensures full { IsErrOf result LogFault.LogFull → AreFull log.old payloads.now }
    ensures has_room { 1 ≤ length payloads.now → OnOk result (AreFull log.old payloads.now → ⊥) }
    ensures full_keeps { IsErrOf result LogFault.LogFull → disks.new ≡ disks.old }
    ensures full_keeps_log { IsErrOf result LogFault.LogFull → log.new ≡ log.old }
    ensures alone { length payloads.now ≡ 1 → IsErrOf result LogFault.Memory → ⊥ }
    ensures memory_keeps { IsErrOf result LogFault.Memory → disks.new ≡ disks.old }
    ensures memory_keeps_log { IsErrOf result LogFault.Memory → log.new ≡ log.old }
    ensures a_log { (n : ℕ) → IsErrOf result (LogFault.NotALog n) → IsTrue (D.disk disks.old (place_of log.old.centre log.old.area)).told → ⊥ }
{
    if payloads.is_empty() {
        return Ok(());
    }
    log.append_all(disks, payloads)
}
