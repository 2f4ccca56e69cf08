//! Appends that stop inside a device call of their own, or of the checkpoint behind them.
ghost use Rattle.std.specs.Prelude.{◌≡◌, ◌≢◌, ◌≤◌, ◌-◌, ◌∷◌, ◌++◌, ◌⊎◌, [], Bool, IfOk, IsTrue, List, OnErr, OnOk, false, length, true, ℕ};
ghost use Rattle.mdcc_log_file.specs.Append.{MayAppend};
ghost use Rattle.mdcc_log.specs.Frames.{other_of, place_of};
ghost use Rattle.mdcc_disks.specs.Contents.{done, durable, image_of};
ghost use Rattle.mdcc_disks.specs.Disks.{Within};
ghost use Rattle.mdcc_disks.specs.Disks.DiskCall.{Sync, Write};
ghost use Rattle.mdcc_disks.specs.Memory.{KeepsPlaces, at_place, disk_of, may_leave_of, standing};
ghost use Rattle.mdcc_log_file.specs.Calls.{append_calls};
ghost use Rattle.mdcc_log_file.specs.Log.{frame_body};
ghost use Rattle.mdcc_world_logs.specs.Represents.{IsOpenAt, LogsRepresent, MayHave, log_at, with_up};
ghost use Rattle.mdcc_world_logs.specs.Stopping.{HoldBut, IsImageStruck, stopped_at, stopped_facts};
ghost use Rattle.mdcc_world_logs.specs.Tails.{HasTail, tail_at};
ghost use Rattle.mdcc_def_messages.specs.Lengths.{fact_length};
ghost use Rattle.mdcc_def_messages.specs.WellFormed.{IsWellFormedFact};
ghost use Rattle.mdcc_def_messages.specs.declared.facts.Fact.{Fact as AFact};
ghost use Rattle.mdcc_def_simulation.specs.Checkpoints.{is_due_after, tail_stopped};

use crate::Logs;
use crate::rooms::reserve_append;
use mdcc_base::{Centre, Failed, Image, Memory};
use mdcc_def_messages::Fact;
use mdcc_disks::{Disks, MemoryDisks, crash_leaves_the_image};
use mdcc_journal::counts::well_formed_facts_have_counts;
use mdcc_node_log::payload_of;
use std::alloc::Global;

// What an append writes behind the closed gate: the frame, and a closed gate.
fn frame_of(alloc: Global, payload: &[u8]) -> Result<Vec<u8>, Memory>
    requires short { length payload.now ≤ 2097152 }
    ensures { IfOk result (λ frame. frame.items ≡ frame_body payload.now ++ 0 ∷ []) }
{
    let mut frame = Vec::new(alloc);
    frame.extend_from_slice(&(payload.len() as u32).to_le_bytes())?;
    frame.extend_from_slice(payload)?;
    frame.push(0)?;
    Ok(frame)
}

// Makes what was written durable, and opens the last gate.
fn open_gate(disks: &mut MemoryDisks, place: u8, size: u64) -> Result<(), Failed>
    requires some { 1 ≤ size }
    requires within { IsTrue (disk_of disks.old place).told → size ≤ length (disk_of disks.old place).bytes }
    ensures made { OnOk result (standing (at_place disks.new place) ≡ done (Write (size - 1) (1 ∷ [])) false (done Sync false (standing (at_place disks.old place)))) }
    ensures left { OnErr result ((standing (at_place disks.new place) ≡ standing (at_place disks.old place))
        ⊎ ((standing (at_place disks.new place) ≡ done Sync false (standing (at_place disks.old place)))
        ⊎ (standing (at_place disks.new place) ≡ done (Write (size - 1) (1 ∷ [])) false (done Sync false (standing (at_place disks.old place)))))) }
    ensures others { KeepsPlaces place disks.old disks.new }
{
    disks.sync(place)?;
    disks.write_at(place, size - 1, &[1])
}

// Makes the calls of an append to a log of this size, up to the one that stops. What that one writes is written, and a sync that
// stops makes nothing durable, so it is not made.
fn write_until(
    disks: &mut MemoryDisks,
    place: u8,
    size: u64,
    payload: &[u8],
    frame: &[u8],
    call: u8,
) -> Result<(), Failed>
    requires first { 1 ≤ call }
    requires last { call ≤ 4 }
    requires some { 1 ≤ size }
    requires short { length payload.now ≤ 2097152 }
    requires frame { frame.now ≡ frame_body payload.now ++ 0 ∷ [] }
    requires within { IsTrue (disk_of disks.old place).told → size ≤ length (disk_of disks.old place).bytes }
    ensures made { OnOk result (standing (at_place disks.new place) ≡ stopped_at call (append_calls size payload.now) (standing (at_place disks.old place))) }
    ensures left { (front : List ℕ) → size ≡ length (front ++ 0 ∷ []) → standing (at_place disks.old place) ≡ durable (front ++ 0 ∷ [])
        → OnErr result (Within (MayAppend front payload.now) (may_leave_of disks.new place)) }
    ensures others { KeepsPlaces place disks.old disks.new }
{
    disks.write_at(place, size, frame)?;
    if call < 3 {
        return Ok(());
    }
    open_gate(disks, place, size)
}

// Makes these calls, and then both areas crash.
fn strike(
    disks: &mut MemoryDisks,
    place: u8,
    other: u8,
    size: u64,
    payload: &[u8],
    frame: &[u8],
    call: u8,
    image: Image,
) -> Result<(), Failed>
    requires apart { other ≢ place }
    requires first { 1 ≤ call }
    requires last { call ≤ 4 }
    requires some { 1 ≤ size }
    requires short { length payload.now ≤ 2097152 }
    requires frame { frame.now ≡ frame_body payload.now ++ 0 ∷ [] }
    requires within { IsTrue (disk_of disks.old place).told → size ≤ length (disk_of disks.old place).bytes }
    ensures struck { OnOk result (standing (at_place disks.new place)
        ≡ durable (image_of image (stopped_at call (append_calls size payload.now) (standing (at_place disks.old place))))) }
    ensures struck_other { OnOk result (standing (at_place disks.new other) ≡ durable (image_of image (standing (at_place disks.old other)))) }
    ensures left { (front : List ℕ) → size ≡ length (front ++ 0 ∷ []) → standing (at_place disks.old place) ≡ durable (front ++ 0 ∷ [])
        → OnErr result (Within (MayAppend front payload.now) (may_leave_of disks.new place)) }
    ensures left_other { OnErr result (standing (at_place disks.new other) ≡ standing (at_place disks.old other)) }
    ensures others { HoldBut place other disks.old disks.new }
{
    crash_leaves_the_image();
    write_until(disks, place, size, payload, frame, call)?;
    disks.crash(place, image);
    disks.crash(other, image);
    Ok(())
}

impl Logs {
    // A centre stops inside one of the four calls of the append of a fact.
    fn stop_frame(
        &mut self,
        alloc: Global,
        centre: Centre,
        fact: &Fact,
        call: u8,
        image: Image,
    ) -> Result<(), Memory>
        requires within { centre ≤ length self.old.open.items }
        requires formed { IsWellFormedFact fact.now }
        requires short { fact_length fact.now ≤ 2097152 }
        requires stand { IsOpenAt self.old centre }
        requires first { 1 ≤ call }
        requires last { call ≤ 4 }
        ensures as_many { length self.new.open.items ≡ length self.old.open.items }
        ensures stopped { (centres : ℕ) (up : ℕ → Bool) (facts : ℕ → List AFact) → LogsRepresent self.old centres up facts → up centre ≡ true
            → OnOk result (LogsRepresent self.new centres (with_up up centre false) (stopped_facts facts centre fact.now call image)) }
        ensures struck { let place = place_of centre (log_at self.old centre).area in
            (centres : ℕ) (up : ℕ → Bool) (facts : ℕ → List AFact) → LogsRepresent self.old centres up facts → up centre ≡ true
            → OnOk result (IsImageStruck fact.now call image (disk_of self.old.disks place).bytes (disk_of self.new.disks place).bytes) }
        ensures struck_other { let place = place_of centre (other_of (log_at self.old centre).area) in
            (centres : ℕ) (up : ℕ → Bool) (facts : ℕ → List AFact) → LogsRepresent self.old centres up facts → up centre ≡ true
            → OnOk result ((disk_of self.new.disks place).bytes ≡ (disk_of self.old.disks place).bytes) }
        ensures tail { (centres : ℕ) (up : ℕ → Bool) (facts : ℕ → List AFact) → LogsRepresent self.old centres up facts → up centre ≡ true
            → OnOk result (HasTail self.old self.new centre (tail_stopped (tail_at self.old centre) call image)) }
        ensures refused { (centres : ℕ) (up : ℕ → Bool) (facts : ℕ → List AFact) → LogsRepresent self.old centres up facts → up centre ≡ true
            → OnErr result (MayHave self.new centres up centre facts fact.now) }
    {
        well_formed_facts_have_counts();
        let payload = payload_of(alloc, fact)?;
        let frame = frame_of(alloc, &payload)?;
        let index = usize::from(centre.number()) - 1;
        let length = payload.len() as u64;
        reserve_append(&mut self.disks, &self.open[index], centre, length)?;
        let area = self.open[index].area();
        let size = self.open[index].size();
        let place = centre.number() + 16 * area;
        let other = centre.number() + 16 * (1 - area);
        match strike(
            &mut self.disks,
            place,
            other,
            size,
            &payload,
            &frame,
            call,
            image,
        ) {
            Ok(()) => Ok(()),
            Err(_) => Err(Memory),
        }
    }

    /// A centre stops inside a device call: of the append of a fact, 1 to 4, or of the checkpoint that is due right after it, 5 to 11.
    /// Its disks are left with this image of what was written since the last sync. In an append the fact counts where its gate was
    /// written, in call 3 or 4, and the image is kept; else what was written stands behind the last gate of the area in use, and a
    /// start cuts it off. In a checkpoint the fact counts, since its frame is durable, and the checkpoint counts as made where the gate
    /// of the copy was written, in call 10 or 11, and the image is kept. The log is asked first whether it is full, as before an append.
    /// After a refusal, for want of memory, the log of the centre has the fact or not, and has to be opened again.
    pub fn stop_append(
        &mut self,
        alloc: Global,
        centre: Centre,
        fact: &Fact,
        call: u8,
        image: Image,
    ) -> Result<(), Memory>
        requires within { centre ≤ length self.old.open.items }
        requires formed { IsWellFormedFact fact.now }
        requires short { fact_length fact.now ≤ 2097152 }
        requires stand { IsOpenAt self.old centre }
        requires first { 1 ≤ call }
        requires last { call ≤ 11 }
        requires due { 5 ≤ call → is_due_after (tail_at self.old centre) ≡ true }
        ensures as_many { length self.new.open.items ≡ length self.old.open.items }
        ensures stopped { (centres : ℕ) (up : ℕ → Bool) (facts : ℕ → List AFact) → LogsRepresent self.old centres up facts → up centre ≡ true
            → OnOk result (LogsRepresent self.new centres (with_up up centre false) (stopped_facts facts centre fact.now call image)) }
        ensures struck { let place = place_of centre (log_at self.old centre).area in
            (centres : ℕ) (up : ℕ → Bool) (facts : ℕ → List AFact) → LogsRepresent self.old centres up facts → up centre ≡ true → call ≤ 4
            → OnOk result (IsImageStruck fact.now call image (disk_of self.old.disks place).bytes (disk_of self.new.disks place).bytes) }
        ensures struck_other { let place = place_of centre (other_of (log_at self.old centre).area) in
            (centres : ℕ) (up : ℕ → Bool) (facts : ℕ → List AFact) → LogsRepresent self.old centres up facts → up centre ≡ true → call ≤ 4
            → OnOk result ((disk_of self.new.disks place).bytes ≡ (disk_of self.old.disks place).bytes) }
        ensures tail { (centres : ℕ) (up : ℕ → Bool) (facts : ℕ → List AFact) → LogsRepresent self.old centres up facts → up centre ≡ true
            → OnOk result (HasTail self.old self.new centre (tail_stopped (tail_at self.old centre) call image)) }
        ensures refused { (centres : ℕ) (up : ℕ → Bool) (facts : ℕ → List AFact) → LogsRepresent self.old centres up facts → up centre ≡ true
            → OnErr result (MayHave self.new centres up centre facts fact.now) }
    {
        if call > 4 {
            return self.stop_copy(alloc, centre, fact, call, image);
        }
        self.stop_frame(alloc, centre, fact, call, image)
    }
}
