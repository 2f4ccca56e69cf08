//! The start of a centre.
ghost use Rattle.std.specs.List.{AllByRecursion};
ghost use Rattle.std.specs.Prelude.{◌≡◌, ◌≤◌, ◌<◌, ◌+◌, ◌⊎◌, ◌∷◌, ◌++◌, [], List, Err, IfErr, IfOk, IsErrAnd, IsErrOf, IsTrue, OnOk, Ok, length, map, true, ℕ};
ghost use Rattle.mdcc_node_boot.specs.Loading.{AreWithinFrames, HoldsFacts};
ghost use Rattle.mdcc_log_file.specs.Area.{AreaLog, payloads, payloads_of, read_areas};
ghost use Rattle.mdcc_log.specs.AtRest.{IsAtRest, MayBeDue};
ghost use Rattle.mdcc_log_file.specs.Both.{KeepsBut, RoseAtOne};
ghost use Rattle.mdcc_log.specs.Crash.{IsIdle, ReadsAsEither, payloads_by};
ghost use Rattle.mdcc_log.specs.Frames.{IsInUse, IsSettled, IsSpare, appended, other_of, place_of};
ghost use Rattle.mdcc_log.specs.Groups.{ReadsAsAllOrNone};
ghost use Rattle.mdcc_log.specs.Room.{HasGrown, IsFull};
ghost use Rattle.mdcc_log.specs.Tails.{tail_after};
ghost use Rattle.mdcc_log_file.specs.Log.{payload_limit};
ghost use Rattle.mdcc_disks.specs.Disks.{LeavesOnly, Only};
ghost use Rattle.mdcc_journal.specs.Counts.{HasCounts};
ghost use Rattle.mdcc_node.specs.BootEffects.{IsBoot};
ghost use Rattle.mdcc_def_protocol.specs.Belongs.{is_centre};
ghost use Rattle.mdcc_def_messages.specs.Spelling.{fact_bytes, encodings_of};
ghost use Rattle.mdcc_def_messages.specs.declared.facts.Fact.{Fact as AFact};
ghost use Rattle.mdcc_node_log.specs.Logged.{AreLogged, with_facts};
ghost use Rattle.mdcc_node_log.specs.Payloads.{BootsFrom, StartsOrEnds};
ghost use Rattle.mdcc_node_log.specs.Starting.{BootsNode, IsLogOnDisks, IsUnread, KeepsLog, KeepsUnlessDisk, StartGives};
ghost use Rattle.mdcc_node_log.specs.Struck.{IsLeft, IsStruck, LeavesFactAndBoot, LeavesStruck};
ghost use Rattle.mdcc_def_rules.specs.Boot.{next_boot};
ghost use Rattle.mdcc_theorem_encoding.specs.Laws.{AreBytes};

use crate::{StartFault, payload_of, persist};
use mdcc_base::{Centre, HeapList};
use mdcc_def_messages::Fact;
use mdcc_def_rules::BootFault;
use mdcc_disks::Disks;
use mdcc_facts::FactStore;
use mdcc_log::{Frames, LogFault};
use mdcc_node::Node;
use mdcc_option::Cluster;
use std::alloc::Global;

/// A running centre: its node, its open log, and the epoch that its last boot began.
#[derive(Drop)]
pub struct Running<S> {
    pub node: Node<S>,
    pub log: Frames,
    pub epoch: u32,
}

// Bytes are below 256.
fn are_bytes(bytes: &[u8])
    ensures { AreBytes bytes.now }
{}

// So are those of payloads.
fn are_all_bytes(payloads: &[HeapList<u8>])
    ensures { AllByRecursion AreBytes payloads.now }
{
    for payload in payloads {
        are_bytes(payload.as_slice());
    }
}

// A node from the payloads of its log, with the fact of the boot.
fn boot_node<S: FactStore + Drop>(
    alloc: Global,
    cluster: Cluster,
    centre: Centre,
    store: S,
    payloads: &[HeapList<u8>],
) -> Result<(Node<S>, Fact), StartFault>
    requires among { is_centre cluster centre ≡ true }
    requires empty { S.stands store [] }
    requires short { AreWithinFrames payloads.now }
    ensures node { (total : ℕ) (facts : List AFact) → HoldsFacts S.stands S.cells total store [] → AreLogged cluster facts
        → payloads.now ≡ encodings_of facts → BootsNode S.stands S.cells total result cluster centre facts }
    ensures boots { (total : ℕ) → HoldsFacts S.stands S.cells total store []
        → BootsFrom S.stands S.cells total cluster centre payloads.now result }
    ensures bytes { AllByRecursion AreBytes payloads.now }
    ensures fact { IfOk result (λ r. IsBoot r.1) }
    ensures short { IfOk result (λ r. length (fact_bytes r.1) ≡ 5) }
    ensures no_log { (fault : LogFault) → IsErrOf result (StartFault.Log fault) → ⊥ }
    ensures memory { IsErrOf result (StartFault.Boot BootFault.Memory) → ⊥ }
{
    are_all_bytes(payloads);
    Ok(Node::boot(alloc, cluster, centre, store, payloads)?)
}

// Makes the fact of a boot durable, as a group of one.
fn persist_boot<D: Disks>(
    alloc: Global,
    log: &mut Frames,
    disks: &mut D,
    boot: &Fact,
) -> Result<(), LogFault>
    requires counts { HasCounts boot.now }
    requires short { length (fact_bytes boot.now) ≤ payload_limit }
    requires settled { let place = place_of log.old.centre log.old.area in IsTrue (D.disk disks.old place).told
        → IsSettled log.old (D.disk disks.old place).bytes (D.may_leave disks.old place) }
    requires spare { let place = place_of log.old.centre (other_of log.old.area) in IsTrue (D.disk disks.old place).told
        → IsSpare log.old (D.disk disks.old place).bytes (D.may_leave disks.old place) }

    ensures acknowledged { let place = place_of log.old.centre log.old.area in let other = place_of log.old.centre (other_of log.old.area) in
        (all : List (List ℕ)) → IsTrue (D.disk disks.old place).told → IsTrue (D.disk disks.old other).told
        → IsAtRest D.disk D.may_leave disks.old log.old all
        → OnOk result (IsAtRest D.disk D.may_leave disks.new log.new (all ++ fact_bytes boot.now ∷ [])) }
    ensures few { OnOk result (log.new.tail < log.new.every) }
    ensures grown { OnOk result (HasGrown 1 log.old log.new) }
    ensures tail { OnOk result (log.new.tail ≡ tail_after log.old.every log.old.tail) }
    ensures keeps { (log.new.centre ≡ log.old.centre) × (log.new.every ≡ log.old.every) }

    // What a crash at any moment of it leaves of each area.
    ensures any_moment { let place = place_of log.old.centre log.old.area in let other = place_of log.old.centre (other_of log.old.area) in
        (area_log : AreaLog) → IsTrue (D.disk disks.old place).told → IsTrue (D.disk disks.old other).told
        → IsInUse log.old area_log (D.disk disks.old place).bytes (D.may_leave disks.old place)
        → LeavesOnly D.moment D.left_since disks.old disks.new place (MayBeDue log.old.area area_log (fact_bytes boot.now)) }
    ensures any_moment_other { let place = place_of log.old.centre log.old.area in let other = place_of log.old.centre (other_of log.old.area) in
        (area_log : AreaLog) → IsTrue (D.disk disks.old place).told → IsTrue (D.disk disks.old other).told
        → IsInUse log.old area_log (D.disk disks.old place).bytes (D.may_leave disks.old place)
        → IsSpare log.old (D.disk disks.old other).bytes (D.may_leave disks.old other)
        → LeavesOnly D.moment D.left_since disks.old disks.new other (IsIdle (appended area_log (fact_bytes boot.now))) }

    // Opening after a crash at any moment of it gives the payloads from before it, or those and the new boot.
    ensures any_moment_reads { let place = place_of log.old.centre log.old.area in let other = place_of log.old.centre (other_of log.old.area) in
        (all : List (List ℕ)) (current spare : List ℕ) → IsTrue (D.disk disks.old place).told → IsTrue (D.disk disks.old other).told
        → IsAtRest D.disk D.may_leave disks.old log.old all
        → D.left_since disks.new place (D.moment disks.old) current → D.left_since disks.new other (D.moment disks.old) spare
        → ReadsAsEither all (fact_bytes boot.now) (payloads_by log.old.area current spare) }
    ensures others { KeepsBut D.disk D.may_leave D.moment D.left_since disks.old disks.new
        (place_of log.old.centre log.old.area) (place_of log.old.centre (other_of log.old.area)) }

    ensures disk_fault { let place = place_of log.old.centre log.old.area in let other = place_of log.old.centre (other_of log.old.area) in
        IsErrOf result LogFault.DiskFault
        → RoseAtOne (D.disk disks.old place) (D.disk disks.new place) (D.disk disks.old other) (D.disk disks.new other) }
    // It is full just where the log says so.
    ensures full { IsErrOf result LogFault.LogFull → IsFull log.old (length (fact_bytes boot.now)) }
    ensures has_room { OnOk result (IsFull log.old (length (fact_bytes boot.now)) → ⊥) }
    ensures full_keeps { IsErrOf result LogFault.LogFull → disks.new ≡ disks.old }
    ensures full_keeps_log { IsErrOf result LogFault.LogFull → log.new ≡ log.old }
    ensures memory_keeps { IsErrOf result LogFault.Memory → disks.new ≡ disks.old }
    ensures memory_keeps_log { IsErrOf result LogFault.Memory → log.new ≡ log.old }
    ensures a_log { (n : ℕ) → IsErrOf result (LogFault.NotALog n) → IsTrue (D.disk disks.old (place_of log.old.centre log.old.area)).told → ⊥ }
{
    let Ok(payload) = payload_of(alloc, boot) else {
        return Err(LogFault::Memory);
    };
    let group = [HeapList::from_vec(payload)];
    persist(log, disks, group.as_slice())
}

/// Starts a centre over an empty store: opens its log, boots its node from the payloads, and appends
/// the boot of the next epoch. So no two starts that succeed begin the same epoch, and at `Ok` each
/// later crash leaves a log that has the new boot. A checkpoint is due after so many frames, and one that is due with the boot is made.
/// After a refusal the log can be opened again: it has what it had, or where a
/// call of the disk failed perhaps the new boot too. Want of memory is always `Memory`. The store is given up with a refusal.
pub fn start<D: Disks, S: FactStore + Drop>(
    alloc: Global,
    cluster: Cluster,
    centre: Centre,
    store: S,
    disks: &mut D,
    every: u32,
) -> Result<Running<S>, StartFault>
    requires among { is_centre cluster centre ≡ true }
    requires empty { S.stands store [] }
    requires often { 1 ≤ every }

    // Over a log of facts that the centre may have added it has just these and the new boot. It is
    // refused where the epochs are used up, where the store has too few cells, with those that are needed,
    // and where the new boot would pass the limit of the log.
    ensures starts { (total : ℕ) (facts : List AFact) → HoldsFacts S.stands S.cells total store [] → AreLogged cluster facts
        → IsLogOnDisks facts (D.disk disks.old centre) (D.disk disks.old (centre + 16))
        → StartGives S.stands S.cells total result cluster centre every facts D.disk D.may_leave disks.old disks.new }

    // So too where a crash came at any moment of an append and of the checkpoint behind it: with the fact that was being added, or
    // without it.
    ensures after_crash { (total : ℕ) (facts : List AFact) (fact : AFact) → HoldsFacts S.stands S.cells total store [] → AreLogged cluster (fact ∷ facts)
        → IsTrue (D.disk disks.old centre).told → IsTrue (D.disk disks.old (centre + 16)).told
        → ReadsAsEither (encodings_of facts) (fact_bytes fact) (payloads (D.disk disks.old centre).bytes (D.disk disks.old (centre + 16)).bytes)
        → StartGives S.stands S.cells total result cluster centre every facts D.disk D.may_leave disks.old disks.new
        ⊎ StartGives S.stands S.cells total result cluster centre every (fact ∷ facts) D.disk D.may_leave disks.old disks.new }

    // And where it came at any moment of an append of several facts, the oldest first: with all of them, or without them.
    ensures after_group { (total : ℕ) (facts more : List AFact) → HoldsFacts S.stands S.cells total store [] → AreLogged cluster (with_facts facts more)
        → IsTrue (D.disk disks.old centre).told → IsTrue (D.disk disks.old (centre + 16)).told
        → ReadsAsAllOrNone (encodings_of facts) (map fact_bytes more) (payloads (D.disk disks.old centre).bytes (D.disk disks.old (centre + 16)).bytes)
        → StartGives S.stands S.cells total result cluster centre every facts D.disk D.may_leave disks.old disks.new
        ⊎ StartGives S.stands S.cells total result cluster centre every (with_facts facts more) D.disk D.may_leave disks.old disks.new }

    // Whatever its payloads are, at `Ok` a node has booted from those that were read, and the log has its boot behind them; where the
    // boot is refused they give no node, and where the log is full it has no room for the boot.
    ensures over_any { (total : ℕ) → HoldsFacts S.stands S.cells total store []
        → StartsOrEnds D.disk D.may_leave centre every disks.old disks.new S.stands S.cells total cluster result }

    // At `Ok` the log is open, and no checkpoint is due.
    ensures at_rest { IsTrue (D.disk disks.old centre).told → IsTrue (D.disk disks.old (centre + 16)).told
        → IfOk result (λ r. (all : List (List ℕ)) × IsAtRest D.disk D.may_leave disks.new r.log all) }
    ensures log { IfOk result (λ r. (r.log.centre ≡ centre) × ((r.log.every ≡ every) × (r.log.tail < every))) }

    // The new boot is one frame more behind the log that was read, where no checkpoint was due with it.
    ensures tail { (log : AreaLog) → IsTrue (D.disk disks.old centre).told → IsTrue (D.disk disks.old (centre + 16)).told
        → read_areas (D.disk disks.old centre).bytes (D.disk disks.old (centre + 16)).bytes ≡ Ok log
        → IfOk result (λ r. r.log.tail ≡ tail_after every (length log.tail)) }

    // A refusal leaves the log as it was: its payloads are read again.
    ensures refused { (all : List (List ℕ)) → IsTrue (D.disk disks.old centre).told → IsTrue (D.disk disks.old (centre + 16)).told
        → payloads (D.disk disks.old centre).bytes (D.disk disks.old (centre + 16)).bytes ≡ Ok all
        → IfErr result (λ fault. KeepsLog all fault centre every D.disk D.may_leave disks.old disks.new) }

    // Areas that give no log are refused as they are read, and stand as they were; only such areas are no log.
    ensures unread { (n : ℕ) → IsTrue (D.disk disks.old centre).told → IsTrue (D.disk disks.old (centre + 16)).told
        → payloads (D.disk disks.old centre).bytes (D.disk disks.old (centre + 16)).bytes ≡ Err n
        → IsErrAnd result (λ fault. IsUnread n fault centre D.disk disks.old disks.new) }
    ensures not_a_log { (n : ℕ) → IsErrOf result (StartFault.Log (LogFault.NotALog n))
        → IsTrue (D.disk disks.old centre).told → IsTrue (D.disk disks.old (centre + 16)).told
        → payloads (D.disk disks.old centre).bytes (D.disk disks.old (centre + 16)).bytes ≡ Err n }

    // A crash at any moment of it leaves a log of the facts, or of these and the new boot, whether it is answered or refused, with each
    // area as at a moment of its own: where the other area is dead or older; and, of whatever areas these facts are read, where no
    // byte is torn to 1.
    ensures any_moment { (total : ℕ) (facts : List AFact) (area : ℕ) (log : AreaLog) → HoldsFacts S.stands S.cells total store [] → AreLogged cluster facts
        → IsTrue (D.disk disks.old centre).told → IsTrue (D.disk disks.old (centre + 16)).told
        → IsLeft (D.may_leave disks.old) centre area log → payloads_of log ≡ encodings_of facts
        → LeavesStruck D.moment D.left_since disks.old disks.new centre area log (fact_bytes (next_boot facts)) }
    ensures any_moment_same { (total : ℕ) (facts : List AFact) (current other : List ℕ) → HoldsFacts S.stands S.cells total store [] → AreLogged cluster facts
        → IsLogOnDisks facts (D.disk disks.old centre) (D.disk disks.old (centre + 16)) → (D.tears 1 → ⊥)
        → Only (D.disk disks.old centre).bytes (D.may_leave disks.old centre)
        → Only (D.disk disks.old (centre + 16)).bytes (D.may_leave disks.old (centre + 16))
        → D.left_since disks.new centre (D.moment disks.old) current → D.left_since disks.new (centre + 16) (D.moment disks.old) other
        → ReadsAsEither (encodings_of facts) (fact_bytes (next_boot facts)) (payloads current other) }

    // Where it is refused and no call of a disk failed, such a crash leaves just the payloads, whatever they are.
    ensures any_moment_refused { (all : List (List ℕ)) (current other : List ℕ) → (D.tears 1 → ⊥)
        → IsTrue (D.disk disks.old centre).told → IsTrue (D.disk disks.old (centre + 16)).told
        → Only (D.disk disks.old centre).bytes (D.may_leave disks.old centre)
        → Only (D.disk disks.old (centre + 16)).bytes (D.may_leave disks.old (centre + 16))
        → payloads (D.disk disks.old centre).bytes (D.disk disks.old (centre + 16)).bytes ≡ Ok all
        → D.left_since disks.new centre (D.moment disks.old) current → D.left_since disks.new (centre + 16) (D.moment disks.old) other
        → IfErr result (λ fault. KeepsUnlessDisk fault (payloads current other ≡ Ok all)) }

    // So it is after a crash at any moment of an append and of the checkpoint behind it, with both areas struck at one moment: it
    // leaves what that crash did, or from some moment on a log of the facts, with the fact that was being added or without, and then the
    // new boot or not.
    ensures any_moment_between { (total : ℕ) (facts : List AFact) (fact : AFact) (area : ℕ) (log : AreaLog) → HoldsFacts S.stands S.cells total store [] → AreLogged cluster (fact ∷ facts)
        → IsTrue (D.disk disks.old centre).told → IsTrue (D.disk disks.old (centre + 16)).told
        → IsStruck (D.may_leave disks.old) centre area log (fact_bytes fact) → payloads_of log ≡ encodings_of facts
        → LeavesFactAndBoot D.moment D.left_since disks.old disks.new centre area log facts fact }
    ensures others { KeepsBut D.disk D.may_leave D.moment D.left_since disks.old disks.new centre (centre + 16) }
    ensures disk_fault { IsErrOf result (StartFault.Log LogFault.DiskFault)
        → RoseAtOne (D.disk disks.old centre) (D.disk disks.new centre) (D.disk disks.old (centre + 16)) (D.disk disks.new (centre + 16)) }
    ensures log_memory { IsErrOf result (StartFault.Log LogFault.Memory) → ⊥ }
    ensures boot_memory { IsErrOf result (StartFault.Boot BootFault.Memory) → ⊥ }
{
    let (log, payloads) = Frames::open(alloc, disks, centre, every)?;
    let mut log = log;
    let (node, boot) = boot_node(alloc, cluster, centre, store, payloads.as_slice())?;
    let epoch = node.epoch();
    persist_boot(alloc, &mut log, disks, &boot)?;
    Ok(Running { node, log, epoch })
}
