//! The logs of the centres.
ghost use Rattle.std.specs.Prelude.{◌≡◌, ◌≤◌, ◌<◌, ◌+◌, ◌-◌, ◌^◌, ◌∷◌, ◌++◌, [], Bool, List, ℕ, false, length, nat_lt, IfOk, IsTrue, OnErr, OnOk, true};
ghost use Rattle.mdcc_log_file.specs.Area.{AreaLog};
ghost use Rattle.mdcc_log.specs.AtRest.{IsAtRest};
ghost use Rattle.mdcc_log_file.specs.Both.{KeepsBut};
ghost use Rattle.mdcc_log.specs.Crash.{ReadsAsEither, payloads_by};
ghost use Rattle.mdcc_log.specs.Frames.{IsSettled, IsSpare, other_of, place_of};
ghost use Rattle.mdcc_log.specs.Room.{HasGrown};
ghost use Rattle.mdcc_disks.specs.Memory.{IsBut, at_place, crashed, disk_of, may_leave_of, moment_of, left_since_of};
ghost use Rattle.mdcc_log_file.specs.Log.{log_limit, payload_limit};
ghost use Rattle.mdcc_world_logs.specs.Represents.{IsOpenAt, LogsRepresent, MayHave, with_fact_at, with_up};
ghost use Rattle.mdcc_world_logs.specs.Starting.{OnLack, Starts};
ghost use Rattle.mdcc_def_protocol.specs.Belongs.{is_centre};
ghost use Rattle.mdcc_def_protocol.specs.Facts.{epoch_of};
ghost use Rattle.mdcc_theorem_node_steps.specs.NodeInvariant.{FitInTurn};
ghost use Rattle.mdcc_def_messages.specs.Lengths.{fact_length, log_length};
ghost use Rattle.mdcc_def_messages.specs.Spelling.{fact_bytes};
ghost use Rattle.mdcc_def_messages.specs.WellFormed.{IsWellFormedFact};
ghost use Rattle.mdcc_def_messages.specs.declared.facts.Fact.{Fact as AFact};
ghost use Rattle.mdcc_world_logs.specs.Tails.{HasTail, StartsWithTail, tail_at};
ghost use Rattle.mdcc_node_log.specs.Logged.{AreLogged};
ghost use Rattle.mdcc_def_rules.specs.Boot.{next_boot};
ghost use Rattle.mdcc_def_simulation.specs.Checkpoints.{is_due_after, tail_after_append};

use crate::rooms::{reserve_append, reserve_start};
use crate::starting::{Attempt, Started, start};
use mdcc_base::{Centre, HeapList, Image, Memory};
use mdcc_def_messages::Fact;
use mdcc_disks::{MemoryDisks, crash_leaves_the_image};
use mdcc_journal::counts::well_formed_facts_have_counts;
use mdcc_journal::fact_length;
use mdcc_log::Frames;
use mdcc_node_log::{Running, payload_of, persist};
use mdcc_option::Cluster;
use std::alloc::Global;

/// The logs of the centres, each in two areas on disks in memory, where only want of memory lets a call fail. The
/// log of a centre has all its facts, each of them durable.
#[derive(Drop)]
pub struct Logs {
    pub(crate) disks: MemoryDisks,
    pub(crate) open: Vec<Frames>,
}

// Makes a fact durable at the end of a log, with the checkpoint that is due then. No call of these disks fails but for want of memory.
fn append(
    alloc: Global,
    log: &mut Frames,
    disks: &mut MemoryDisks,
    fact: &Fact,
) -> Result<(), Memory>
    requires formed { IsWellFormedFact fact.now }
    requires short { length (fact_bytes fact.now) ≤ payload_limit }
    requires settled { let place = place_of log.old.centre log.old.area in IsTrue (disk_of disks.old place).told
        → IsSettled log.old (disk_of disks.old place).bytes (may_leave_of disks.old place) }
    requires spare { let place = place_of log.old.centre (other_of log.old.area) in IsTrue (disk_of disks.old place).told
        → IsSpare log.old (disk_of disks.old place).bytes (may_leave_of disks.old place) }
    ensures acknowledged { let place = place_of log.old.centre log.old.area in let other = place_of log.old.centre (other_of log.old.area) in
        (all : List (List ℕ)) → IsTrue (disk_of disks.old place).told → IsTrue (disk_of disks.old other).told
        → IsAtRest disk_of may_leave_of disks.old log.old all
        → OnOk result (IsAtRest disk_of may_leave_of disks.new log.new (all ++ fact_bytes fact.now ∷ [])) }
    ensures few { OnOk result (log.new.tail < log.new.every) }
    ensures grown { OnOk result (HasGrown 1 log.old log.new) }
    ensures keeps { (log.new.centre ≡ log.old.centre) × (log.new.every ≡ log.old.every) }
    ensures any_moment_reads { let place = place_of log.old.centre log.old.area in let other = place_of log.old.centre (other_of log.old.area) in
        (all : List (List ℕ)) (current spare : List ℕ) → IsTrue (disk_of disks.old place).told → IsTrue (disk_of disks.old other).told
        → IsAtRest disk_of may_leave_of disks.old log.old all
        → left_since_of disks.new place (moment_of disks.old) current → left_since_of disks.new other (moment_of disks.old) spare
        → ReadsAsEither all (fact_bytes fact.now) (payloads_by log.old.area current spare) }
    ensures others { KeepsBut disk_of may_leave_of moment_of left_since_of disks.old disks.new
        (place_of log.old.centre log.old.area) (place_of log.old.centre (other_of log.old.area)) }
{
    well_formed_facts_have_counts();
    let payload = payload_of(alloc, fact)?;
    let group = [HeapList::from_vec(payload)];
    match persist(log, disks, group.as_slice()) {
        Ok(()) => Ok(()),
        Err(_) => Err(Memory),
    }
}

impl Logs {
    /// The disks, as they stand.
    pub fn disks(&self) -> &MemoryDisks
        ensures { result.now ≡ self.now.disks }
    {
        &self.disks
    }

    /// Whether the log of a centre would pass 2^30 bytes with one fact more, as a log of version 1.
    pub fn is_full(&self, centre: Centre, fact: &Fact) -> bool
        requires within { centre ≤ length self.now.open.items }
        requires formed { IsWellFormedFact fact.now }
        ensures { (centres : ℕ) (up : ℕ → Bool) (facts : ℕ → List AFact) → LogsRepresent self.now centres up facts → up centre ≡ true → 1 ≤ centre → centre ≤ centres
            → result ≡ nat_lt log_limit (log_length (fact.now ∷ facts centre)) }
    {
        well_formed_facts_have_counts();
        self.open[usize::from(centre.number()) - 1].is_full(fact_length(fact) as u64)
    }

    /// Whether a checkpoint is due right after the next append to the log of a centre.
    pub fn is_due_next(&self, centre: Centre) -> bool
        requires within { centre ≤ length self.now.open.items }
        ensures { (centres : ℕ) (up : ℕ → Bool) (facts : ℕ → List AFact) → LogsRepresent self.now centres up facts → up centre ≡ true
            → result ≡ is_due_after (tail_at self.now centre) }
    {
        self.open[usize::from(centre.number()) - 1].is_due_next()
    }

    /// Makes a fact durable at the end of a centre's log, and then the checkpoint that is due. The log is asked first whether it is full: a
    /// full one is refused as well. After a refusal the log of the centre has the fact or not, and has to be opened again.
    pub fn append(&mut self, alloc: Global, centre: Centre, fact: &Fact) -> Result<(), Memory>
        requires within { centre ≤ length self.old.open.items }
        requires formed { IsWellFormedFact fact.now }
        requires short { fact_length fact.now ≤ 2097152 }
        requires stand { IsOpenAt self.old centre }
        ensures as_many { length self.new.open.items ≡ length self.old.open.items }
        ensures appended { (centres : ℕ) (up : ℕ → Bool) (facts : ℕ → List AFact) → LogsRepresent self.old centres up facts → up centre ≡ true
            → OnOk result (LogsRepresent self.new centres up (with_fact_at facts centre fact.now)) }
        ensures tail { (centres : ℕ) (up : ℕ → Bool) (facts : ℕ → List AFact) → LogsRepresent self.old centres up facts → up centre ≡ true
            → OnOk result (HasTail self.old self.new centre (tail_after_append (tail_at self.old centre))) }
        ensures refused { (centres : ℕ) (up : ℕ → Bool) (facts : ℕ → List AFact) → LogsRepresent self.old centres up facts → up centre ≡ true
            → OnErr result (MayHave self.new centres up centre facts fact.now) }
    {
        well_formed_facts_have_counts();
        let index = usize::from(centre.number()) - 1;
        let length = fact_length(fact) as u64;
        reserve_append(&mut self.disks, &self.open[index], centre, length)?;
        append(alloc, &mut self.open[index], &mut self.disks, fact)
    }

    /// A centre crashes: what was not synced is lost, which is nothing.
    pub fn crash(&mut self, centre: Centre)
        requires { centre ≤ length self.old.open.items }
        ensures as_many { length self.new.open.items ≡ length self.old.open.items }
        ensures crashed { IsBut (crashed Image.Lost (at_place self.old.disks centre)) (at_place self.new.disks centre) }
        ensures crashed_other { IsBut (crashed Image.Lost (at_place self.old.disks (centre + 16))) (at_place self.new.disks (centre + 16)) }
        ensures kept { (centres : ℕ) (up : ℕ → Bool) (facts : ℕ → List AFact) → LogsRepresent self.old centres up facts → up centre ≡ true
            → LogsRepresent self.new centres (with_up up centre false) facts }
        ensures tail { (centres : ℕ) (up : ℕ → Bool) (facts : ℕ → List AFact) → LogsRepresent self.old centres up facts → up centre ≡ true
            → HasTail self.old self.new centre (tail_at self.old centre) }
    {
        crash_leaves_the_image();
        let place = centre.number();
        self.disks.crash(place, Image::Lost);
        self.disks.crash(place + 16, Image::Lost);
    }

    /// A centre starts again from its log, also where a stop left something behind it: it has the facts of its log and the new
    /// boot. After `Full` and `NoRoom` the logs stand as before, but a centre that was up is down. Out of memory, the log of the
    /// centre has the new boot or not, and has to be opened again; where its last gate was torn it may be torn still.
    pub fn restart(
        &mut self,
        alloc: Global,
        cluster: &Cluster,
        centre: Centre,
    ) -> Result<Started, Memory>
        requires among { is_centre cluster.now centre ≡ true }
        requires within { centre ≤ length self.old.open.items }
        ensures as_many { length self.new.open.items ≡ length self.old.open.items }
        ensures started { (centres : ℕ) (up : ℕ → Bool) (facts : ℕ → List AFact) → LogsRepresent self.old centres up facts
            → AreLogged cluster.now (facts centre) → FitInTurn cluster.now (facts centre) → epoch_of (facts centre) < 2 ^ 32 - 1
            → Starts result self.new cluster.now centres (with_up up centre true) centre facts }
        ensures tail { (centres : ℕ) (up : ℕ → Bool) (facts : ℕ → List AFact) → LogsRepresent self.old centres up facts
            → AreLogged cluster.now (facts centre) → FitInTurn cluster.now (facts centre) → epoch_of (facts centre) < 2 ^ 32 - 1
            → StartsWithTail result self.old self.new centre }
        ensures lack { (centres : ℕ) (up : ℕ → Bool) (facts : ℕ → List AFact) → LogsRepresent self.old centres up facts → up centre ≡ false
            → OnLack result (LogsRepresent self.new centres up facts) }
        ensures lack_down { (centres : ℕ) (up : ℕ → Bool) (facts : ℕ → List AFact) → LogsRepresent self.old centres up facts
            → OnLack result (LogsRepresent self.new centres (with_up up centre false) facts) }
        ensures refused { (centres : ℕ) (up : ℕ → Bool) (facts : ℕ → List AFact) → LogsRepresent self.old centres up facts → AreLogged cluster.now (facts centre)
            → OnErr result (MayHave self.new centres up centre facts (next_boot (facts centre))) }
    {
        let index = usize::from(centre.number()) - 1;
        reserve_start(&mut self.disks, &self.open[index], centre)?;
        match start(alloc, cluster, centre, &mut self.disks)? {
            Attempt::Runs(started) => {
                let Running { node, log, epoch } = started;
                self.open[index] = log;
                Ok(Started::Node(node, epoch))
            }
            Attempt::Full => Ok(Started::Full),
            Attempt::NoRoom(needed) => Ok(Started::NoRoom(needed)),
        }
    }
}
