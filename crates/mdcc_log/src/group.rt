//! Several payloads are appended together, and what is due then is copied at once.
ghost use Rattle.std.specs.Prelude.{◌≡◌, ◌≤◌, ◌<◌, ◌+◌, ◌-◌, ◌^◌, ◌∷◌, ◌++◌, [], ◌↔◌, List, ℕ, length, min, IsTrue, OnOk, OnErr, IsErrOf};
ghost use Rattle.mdcc_base.specs.Causes.{Rose};
ghost use Rattle.mdcc_disks.specs.Disks.{KeepsOthers, LeavesOnly};
ghost use Rattle.mdcc_log_file.specs.Append.{behind_calls, group_body};
ghost use Rattle.mdcc_log_file.specs.Calls.{MadeSome, with_calls};
ghost use Rattle.mdcc_log_file.specs.Crash.{AreShort};
ghost use Rattle.mdcc_log_file.specs.Log.{log_limit, payload_limit};
ghost use Rattle.mdcc_log_file.specs.Area.{AreaLog};
ghost use Rattle.mdcc_log.specs.AtRest.{IsAtRest};
ghost use Rattle.mdcc_log_file.specs.Both.{KeepsBut, RoseAtOne};
ghost use Rattle.mdcc_log.specs.Crash.{IsIdle, payloads_by};
ghost use Rattle.mdcc_log.specs.Frames.{IsInUse, IsSpare, IsSettled, place_of, other_of};
ghost use Rattle.mdcc_log.specs.Groups.{AreFull, MayHaveDueGroup, MayHaveGroup, ReadsAsAllOrNone, frames_size, records_size, with_payloads};
ghost use Rattle.mdcc_log.specs.Room.{HasGrown};
ghost use Rattle.mdcc_log.specs.Tails.{tail_with};

use crate::frames::{passes_limit, place_of};
use crate::{Frames, LogFault};
use mdcc_base::HeapList;
use mdcc_disks::Disks;
use mdcc_log_file::append::{append_behind, lay_out};

// How many bytes the frames of these payloads take, or u64::MAX where that is less.
fn size_of_frames(payloads: &[HeapList<u8>]) -> u64
    ensures { result ≡ min (frames_size payloads.now) (2 ^ 64 - 1) }
{
    let mut size: u64 = 0;
    for payload in payloads {
        size = size.saturating_add(payload.len() as u64).saturating_add(5);
    }
    size
}

// The first of these payloads, and the others.
fn split(payloads: &[HeapList<u8>]) -> (&[u8], &[HeapList<u8>])
    requires { 1 ≤ length payloads.now }
    ensures { payloads.now ≡ result.0.now ∷ result.1.now }
{
    match payloads {
        [first, others @ ..] => (first.as_slice(), others),
        [] => (&[], payloads),
    }
}

impl Frames {
    /// Whether the log has no room for these payloads: all payloads with them would pass 2^30 bytes in an area of version 1, or
    /// the area in use would, or a checkpoint would be due for which there is no room.
    pub fn are_full(&self, payloads: &[HeapList<u8>]) -> bool
        ensures { IsTrue result ↔ AreFull self.now payloads.now }
    {
        let frames = size_of_frames(payloads);
        let count = payloads.len() as u64;
        if passes_limit(self.body.saturating_add(self.count), frames, 9) {
            return true;
        }
        if passes_limit(self.size, frames, 0) {
            return true;
        }
        let is_due = self.tail.saturating_add(count) >= self.every as u64;
        is_due && (self.generation == u64::MAX || passes_limit(self.body, frames - count, 26))
    }

    // Adds payloads, of which this is the first, to the area in use. One alone takes no memory.
    pub(crate) fn append_group<D: Disks>(
        &mut self,
        disks: &mut D,
        first: &[u8],
        others: &[HeapList<u8>],
    ) -> Result<(), LogFault>
        requires short { length first.now ≤ payload_limit }
        requires others { AreShort others.now }
        requires room { self.old.size + frames_size (first.now ∷ others.now) ≤ log_limit }
        requires settled { let place = place_of self.old.centre self.old.area in IsTrue (D.disk disks.old place).told
            → IsSettled self.old (D.disk disks.old place).bytes (D.may_leave disks.old place) }
        ensures acknowledged { let place = place_of self.old.centre self.old.area in (log : AreaLog) → IsTrue (D.disk disks.old place).told
            → IsInUse self.old log (D.disk disks.old place).bytes (D.may_leave disks.old place)
            → OnOk result (IsInUse self.new (with_payloads log (first.now ∷ others.now)) (D.disk disks.new place).bytes (D.may_leave disks.new place)) }
        ensures any_moment { let place = place_of self.old.centre self.old.area in (log : AreaLog) → IsTrue (D.disk disks.old place).told
            → IsInUse self.old log (D.disk disks.old place).bytes (D.may_leave disks.old place)
            → LeavesOnly D.moment D.left_since disks.old disks.new place (MayHaveGroup self.old.area log (first.now ∷ others.now)) }
        ensures keeps { OnOk result (self.new ≡ record self.old {
          count = self.old.count + length (first.now ∷ others.now);
          tail = self.old.tail + length (first.now ∷ others.now);
          body = self.old.body + records_size (first.now ∷ others.now);
          size = self.old.size + frames_size (first.now ∷ others.now);
        }) }
        ensures fails { OnErr result (self.new ≡ self.old) }
        ensures others { KeepsOthers D.disk D.may_leave D.moment D.left_since disks.old disks.new (place_of self.old.centre self.old.area) }
        ensures calls { let place = place_of self.old.centre self.old.area in MadeSome (behind_calls self.old.size (group_body (first.now ∷ others.now) ++ 0 ∷ []))
            (D.disk disks.old place).calls (D.disk disks.new place).calls }
        ensures all_calls { let place = place_of self.old.centre self.old.area in OnOk result ((D.disk disks.new place).calls
            ≡ with_calls (behind_calls self.old.size (group_body (first.now ∷ others.now) ++ 0 ∷ [])) (D.disk disks.old place).calls) }
        ensures disk_fault { let place = place_of self.old.centre self.old.area in IsErrOf result LogFault.DiskFault
            → Rose (D.disk disks.old place).faults (D.disk disks.new place).faults }
        ensures later { let place = place_of self.old.centre self.old.area in (D.disk disks.old place).faults ≤ (D.disk disks.new place).faults }
        ensures not_full { IsErrOf result LogFault.LogFull → ⊥ }
        ensures a_log { (n : ℕ) → IsErrOf result (LogFault.NotALog n) → ⊥ }
        ensures memory_keeps { IsErrOf result LogFault.Memory → disks.new ≡ disks.old }
        ensures alone { others.now ≡ [] → IsErrOf result LogFault.Memory → ⊥ }
    {
        lay_out(&mut self.buffer, first, others)?;
        let place = place_of(self.centre, self.area);
        append_behind(disks, place, self.size, &self.buffer)?;
        let size = self.buffer.len() as u64;
        let count = others.len() as u64 + 1;
        self.count += count;
        self.tail += count;
        self.body += size - count;
        self.size += size;
        Ok(())
    }

    // Adds payloads, of which this is the first, for which there is room, and makes a checkpoint at once where one is due.
    fn append_group_due<D: Disks>(
        &mut self,
        disks: &mut D,
        first: &[u8],
        others: &[HeapList<u8>],
    ) -> Result<(), LogFault>
        requires short { length first.now ≤ payload_limit }
        requires others { AreShort others.now }
        requires room { AreFull self.old (first.now ∷ others.now) → ⊥ }
        requires settled { let place = place_of self.old.centre self.old.area in IsTrue (D.disk disks.old place).told
            → IsSettled self.old (D.disk disks.old place).bytes (D.may_leave disks.old place) }
        requires spare { let place = place_of self.old.centre (other_of self.old.area) in IsTrue (D.disk disks.old place).told
            → IsSpare self.old (D.disk disks.old place).bytes (D.may_leave disks.old place) }

        ensures acknowledged { let place = place_of self.old.centre self.old.area in let other = place_of self.old.centre (other_of self.old.area) in
            (all : List (List ℕ)) → IsTrue (D.disk disks.old place).told → IsTrue (D.disk disks.old other).told
            → IsAtRest D.disk D.may_leave disks.old self.old all
            → OnOk result (IsAtRest D.disk D.may_leave disks.new self.new (all ++ (first.now ∷ others.now))) }
        ensures few { OnOk result (self.new.tail < self.new.every) }
        ensures grown { OnOk result (HasGrown (length (first.now ∷ others.now)) self.old self.new) }
        ensures tail { OnOk result (self.new.tail ≡ tail_with self.old.every self.old.tail (length (first.now ∷ others.now))) }
        ensures keeps { (self.new.centre ≡ self.old.centre) × (self.new.every ≡ self.old.every) }

        ensures any_moment { let place = place_of self.old.centre self.old.area in let other = place_of self.old.centre (other_of self.old.area) in
            (log : AreaLog) → IsTrue (D.disk disks.old place).told → IsTrue (D.disk disks.old other).told
            → IsInUse self.old log (D.disk disks.old place).bytes (D.may_leave disks.old place)
            → LeavesOnly D.moment D.left_since disks.old disks.new place (MayHaveDueGroup self.old.area log (first.now ∷ others.now)) }
        ensures any_moment_other { let place = place_of self.old.centre self.old.area in let other = place_of self.old.centre (other_of self.old.area) in
            (log : AreaLog) → IsTrue (D.disk disks.old place).told → IsTrue (D.disk disks.old other).told
            → IsInUse self.old log (D.disk disks.old place).bytes (D.may_leave disks.old place)
            → IsSpare self.old (D.disk disks.old other).bytes (D.may_leave disks.old other)
            → LeavesOnly D.moment D.left_since disks.old disks.new other (IsIdle (with_payloads log (first.now ∷ others.now))) }
        ensures any_moment_reads { let place = place_of self.old.centre self.old.area in let other = place_of self.old.centre (other_of self.old.area) in
            (all : List (List ℕ)) (current spare : List ℕ) → IsTrue (D.disk disks.old place).told → IsTrue (D.disk disks.old other).told
            → IsAtRest D.disk D.may_leave disks.old self.old all
            → D.left_since disks.new place (D.moment disks.old) current → D.left_since disks.new other (D.moment disks.old) spare
            → ReadsAsAllOrNone all (first.now ∷ others.now) (payloads_by self.old.area current spare) }
        ensures others { KeepsBut D.disk D.may_leave D.moment D.left_since disks.old disks.new
            (place_of self.old.centre self.old.area) (place_of self.old.centre (other_of self.old.area)) }

        ensures disk_fault { let place = place_of self.old.centre self.old.area in let other = place_of self.old.centre (other_of self.old.area) in
            IsErrOf result LogFault.DiskFault
            → RoseAtOne (D.disk disks.old place) (D.disk disks.new place) (D.disk disks.old other) (D.disk disks.new other) }
        ensures not_full { IsErrOf result LogFault.LogFull → ⊥ }
        ensures memory_keeps { IsErrOf result LogFault.Memory → disks.new ≡ disks.old }
        ensures alone { others.now ≡ [] → IsErrOf result LogFault.Memory → ⊥ }
        ensures memory_keeps_log { IsErrOf result LogFault.Memory → self.new ≡ self.old }
        ensures a_log { (n : ℕ) → IsErrOf result (LogFault.NotALog n) → IsTrue (D.disk disks.old (place_of self.old.centre self.old.area)).told → ⊥ }
    {
        self.append_group(disks, first, others)?;
        if self.due() {
            return self.checkpoint(disks);
        }
        Ok(())
    }

    /// Adds payloads behind the others, all of them or none, and makes a checkpoint at once where one is due then. At `Ok` they
    /// are acknowledged, and no checkpoint is due. After `LogFull` and `Memory` all is as before; after a fault of the disk the
    /// log has to be opened again, and all of them may be there then. They are laid out in the log's own buffer, which grows
    /// where they need more than the longest payload; for one alone that is never so.
    pub fn append_all<D: Disks>(
        &mut self,
        disks: &mut D,
        payloads: &[HeapList<u8>],
    ) -> Result<(), LogFault>
        requires some { 1 ≤ length payloads.now }
        requires short { AreShort payloads.now }
        requires settled { let place = place_of self.old.centre self.old.area in IsTrue (D.disk disks.old place).told
            → IsSettled self.old (D.disk disks.old place).bytes (D.may_leave disks.old place) }
        requires spare { let place = place_of self.old.centre (other_of self.old.area) in IsTrue (D.disk disks.old place).told
            → IsSpare self.old (D.disk disks.old place).bytes (D.may_leave disks.old place) }

        ensures acknowledged { let place = place_of self.old.centre self.old.area in let other = place_of self.old.centre (other_of self.old.area) in
            (all : List (List ℕ)) → IsTrue (D.disk disks.old place).told → IsTrue (D.disk disks.old other).told
            → IsAtRest D.disk D.may_leave disks.old self.old all
            → OnOk result (IsAtRest D.disk D.may_leave disks.new self.new (all ++ payloads.now)) }
        ensures few { OnOk result (self.new.tail < self.new.every) }
        ensures grown { OnOk result (HasGrown (length payloads.now) self.old self.new) }
        ensures tail { OnOk result (self.new.tail ≡ tail_with self.old.every self.old.tail (length payloads.now)) }
        ensures keeps { (self.new.centre ≡ self.old.centre) × (self.new.every ≡ self.old.every) }

        // What a crash at any moment of it leaves of each area.
        ensures any_moment { let place = place_of self.old.centre self.old.area in let other = place_of self.old.centre (other_of self.old.area) in
            (log : AreaLog) → IsTrue (D.disk disks.old place).told → IsTrue (D.disk disks.old other).told
            → IsInUse self.old log (D.disk disks.old place).bytes (D.may_leave disks.old place)
            → LeavesOnly D.moment D.left_since disks.old disks.new place (MayHaveDueGroup self.old.area log payloads.now) }
        ensures any_moment_other { let place = place_of self.old.centre self.old.area in let other = place_of self.old.centre (other_of self.old.area) in
            (log : AreaLog) → IsTrue (D.disk disks.old place).told → IsTrue (D.disk disks.old other).told
            → IsInUse self.old log (D.disk disks.old place).bytes (D.may_leave disks.old place)
            → IsSpare self.old (D.disk disks.old other).bytes (D.may_leave disks.old other)
            → LeavesOnly D.moment D.left_since disks.old disks.new other (IsIdle (with_payloads log payloads.now)) }

        // Opening after a crash at any moment of it gives the payloads from before it, or those and all of these.
        ensures any_moment_reads { let place = place_of self.old.centre self.old.area in let other = place_of self.old.centre (other_of self.old.area) in
            (all : List (List ℕ)) (current spare : List ℕ) → IsTrue (D.disk disks.old place).told → IsTrue (D.disk disks.old other).told
            → IsAtRest D.disk D.may_leave disks.old self.old all
            → D.left_since disks.new place (D.moment disks.old) current → D.left_since disks.new other (D.moment disks.old) spare
            → ReadsAsAllOrNone all payloads.now (payloads_by self.old.area current spare) }
        ensures others { KeepsBut D.disk D.may_leave D.moment D.left_since disks.old disks.new
            (place_of self.old.centre self.old.area) (place_of self.old.centre (other_of self.old.area)) }

        ensures disk_fault { let place = place_of self.old.centre self.old.area in let other = place_of self.old.centre (other_of self.old.area) in
            IsErrOf result LogFault.DiskFault
            → RoseAtOne (D.disk disks.old place) (D.disk disks.new place) (D.disk disks.old other) (D.disk disks.new other) }
        // It is full just where the log says so.
        ensures full { IsErrOf result LogFault.LogFull → AreFull self.old payloads.now }
        ensures has_room { OnOk result (AreFull self.old payloads.now → ⊥) }
        ensures full_keeps { IsErrOf result LogFault.LogFull → disks.new ≡ disks.old }
        ensures full_keeps_log { IsErrOf result LogFault.LogFull → self.new ≡ self.old }
        ensures memory_keeps { IsErrOf result LogFault.Memory → disks.new ≡ disks.old }
        ensures alone { length payloads.now ≡ 1 → IsErrOf result LogFault.Memory → ⊥ }
        ensures memory_keeps_log { IsErrOf result LogFault.Memory → self.new ≡ self.old }
        ensures a_log { (n : ℕ) → IsErrOf result (LogFault.NotALog n) → IsTrue (D.disk disks.old (place_of self.old.centre self.old.area)).told → ⊥ }
    {
        if self.are_full(payloads) {
            return Err(LogFault::LogFull);
        }
        let (first, others) = split(payloads);
        self.append_group_due(disks, first, others)
    }
}
