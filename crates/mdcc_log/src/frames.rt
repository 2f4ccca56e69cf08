//! Logs in two areas.
ghost use Rattle.std.specs.Prelude.{◌≡◌, ◌≤◌, ◌<◌, ◌*◌, ◌+◌, ◌-◌, ◌^◌, ◌↔◌, ◌⊎◌, false, true, List, ℕ, length, IsTrue, IfOk, OnOk, OnErr, IsErrOf, Ok, Err};
ghost use Rattle.mdcc_base.specs.Causes.{Rose};
ghost use Rattle.mdcc_disks.specs.Disks.{Only, Within, KeepsOthers, LeavesOnly};
ghost use Rattle.mdcc_log_file.specs.Log.{log_limit, payload_limit};
ghost use Rattle.mdcc_log_file.specs.Calls.{MadeSome, with_calls, append_calls};
ghost use Rattle.mdcc_log_file.specs.Area.{AreaLog, generation_of, payloads_of, payloads, records_bytes};
ghost use Rattle.mdcc_log.specs.AtRest.{IsAtRest, MayBeDue};
ghost use Rattle.mdcc_log_file.specs.Crash.{AreShort};
ghost use Rattle.mdcc_log.specs.Crash.{IsCurrent, IsBetween, IsIdle, ReadsAsEither, payloads_by};
ghost use Rattle.mdcc_log.specs.Frames.{OpenAreas, IsInUse, IsSpare, IsSettled, appended, packed, place_of, other_of, checkpoint_calls, laid_calls};
ghost use Rattle.mdcc_log_file.specs.Copying.{IsShut};
ghost use Rattle.mdcc_log_file.specs.Both.{KeepsBut, IsOnlyRead, RoseAtOne};
ghost use Rattle.mdcc_log.specs.Room.{HasCopyRoom, IsFull};
ghost use Rattle.mdcc_log.specs.Opening.{IsOpened, OpensOne};
ghost use Rattle.mdcc_log.specs.Checkpoint.{MayBegin, copy_of, head_size, left_area};

use crate::LogFault;
use crate::checkpoint::{Whole, open_area, write_copy};
use crate::opening::{AreaRead, open_areas};
use mdcc_base::{Centre, HeapList};
use mdcc_disks::Disks;
use mdcc_log_file::{LOG_LIMIT, PAYLOAD_LIMIT, Spare};
use std::alloc::Global;
use std::marker::Model;

/// The open log of a centre.
#[derive(Drop)]
pub struct Frames {
    pub(crate) centre: u8,
    pub(crate) area: u8,
    pub(crate) every: u32,
    pub(crate) generation: u64,
    pub(crate) count: u64,
    pub(crate) start: u64,
    pub(crate) tail: u64,
    pub(crate) body: u64,
    pub(crate) size: u64,
    pub(crate) spare: Spare,
    pub(crate) buffer: Vec<u8>,
}

impl Model for Frames {
    ghost use Rattle.mdcc_log.specs.Frames.{OpenAreas};
    ghost use Rattle.mdcc_log.specs.Invariant.{AreOpen};

    ghost Value = { OpenAreas };

    ghost view = { λ log. record {
      centre = log.centre;
      area = log.area;
      every = log.every;
      generation = log.generation;
      count = log.count;
      start = log.start;
      tail = log.tail;
      body = log.body;
      size = log.size;
      spare = log.spare;
    } };

    ghost invariant = { AreOpen };
}

pub(crate) fn place_of(centre: u8, area: u8) -> u8
    requires centre { centre ≤ 9 }
    requires area { area ≤ 1 }
    ensures { result ≡ place_of centre area }
{
    centre + 16 * area
}

// Whether these bytes are more than a log has.
pub(crate) fn passes_limit(bytes: u64, length: u64, more: u64) -> bool
    ensures { IsTrue result ↔ (log_limit < bytes + length + more) }
{
    bytes.saturating_add(length).saturating_add(more) > LOG_LIMIT
}

impl Frames {
    /// The current area, 0 or 1.
    pub fn area(&self) -> u8
        ensures value { result ≡ self.now.area }
        ensures range { result ≤ 1 }
    {
        self.area
    }

    /// How many bytes the current area has.
    pub fn size(&self) -> u64
        ensures { result ≡ self.now.size }
    {
        self.size
    }

    /// How many payloads there are.
    pub fn count(&self) -> u64
        ensures { result ≡ self.now.count }
    {
        self.count
    }

    /// How many bytes all payloads take as records.
    pub fn body(&self) -> u64
        ensures { result ≡ self.now.body }
    {
        self.body
    }

    /// Whether a checkpoint is due after one more payload.
    pub fn is_due_next(&self) -> bool
        ensures { IsTrue result ↔ (self.now.every ≤ self.now.tail + 1) }
    {
        self.tail + 1 >= self.every as u64
    }

    /// Whether the log has no room for one more payload of this length: all payloads with it would pass 2^30 bytes in an area of
    /// version 1, or `append_all` would answer LogFull.
    pub fn is_full(&self, length: u64) -> bool
        ensures { IsTrue result ↔ IsFull self.now length }
    {
        if passes_limit(self.body.saturating_add(self.count), length, 14) {
            return true;
        }
        if passes_limit(self.size, length, 5) {
            return true;
        }
        self.is_due_next() && (self.generation == u64::MAX || passes_limit(self.body, length, 30))
    }

    /// Opens the log of a centre, whatever a crash left in its two areas, and gives its payloads in order. A checkpoint is due
    /// after so many frames. Where no area is whole, area 0 becomes a log without payloads.
    pub fn open<D: Disks>(
        alloc: Global,
        disks: &mut D,
        centre: Centre,
        every: u32,
    ) -> Result<(Frames, Vec<HeapList<u8>>), LogFault>
        requires { 1 ≤ every }

        ensures payloads { let first = D.disk disks.old centre in let second = D.disk disks.old (centre + 16) in
            IsTrue first.told → IsTrue second.told → IfOk result (λ r. payloads first.bytes second.bytes ≡ Ok r.1.items) }
        ensures short { IfOk result (λ r. AreShort r.1.items) }
        ensures opened { let first = D.disk disks.old centre in let second = D.disk disks.old (centre + 16) in
            IsTrue first.told → IsTrue second.told
            → IfOk result (λ r. IsOpened D.disk D.may_leave D.moment D.left_since disks.new r.0 r.1.items first.bytes second.bytes) }
        ensures settled { IfOk result (λ r. IsTrue (D.disk disks.new (place_of r.0.centre r.0.area)).told
            → IsSettled r.0 (D.disk disks.new (place_of r.0.centre r.0.area)).bytes (D.may_leave disks.new (place_of r.0.centre r.0.area))) }
        ensures spare { IfOk result (λ r. IsTrue (D.disk disks.new (place_of r.0.centre (other_of r.0.area))).told
            → IsSpare r.0 (D.disk disks.new (place_of r.0.centre (other_of r.0.area))).bytes (D.may_leave disks.new (place_of r.0.centre (other_of r.0.area)))) }
        ensures at_rest { IsTrue (D.disk disks.old centre).told → IsTrue (D.disk disks.old (centre + 16)).told
            → IfOk result (λ r. IsAtRest D.disk D.may_leave disks.new r.0 r.1.items) }
        ensures keeps { IfOk result (λ r. (r.0.centre ≡ centre) × (r.0.every ≡ every)) }
        ensures range { IfOk result (λ r. r.0.area ≤ 1) }

        // What a crash at any moment of it leaves of each area: what was left before, or the bytes while they are settled. A front
        // of the calls that the bytes call for is made, and all of them at `Ok`.
        ensures first { let first = D.disk disks.old centre in let second = D.disk disks.old (centre + 16) in
            IsTrue first.told → IsTrue second.told
            → OpensOne D.disk D.may_leave D.moment D.left_since D.tears disks.old disks.new centre 0 first.bytes second.bytes result }
        ensures second { let first = D.disk disks.old centre in let second = D.disk disks.old (centre + 16) in
            IsTrue first.told → IsTrue second.told
            → OpensOne D.disk D.may_leave D.moment D.left_since D.tears disks.old disks.new (centre + 16) 1 first.bytes second.bytes result }

        // However often it crashes, the area in use stays one of its log, and what a crash of an append left stays a log of the
        // payloads from before it, or of those and the new one; the other area stays what is not in use next to it.
        ensures any_moment { (area : ℕ) (log : AreaLog) → area ≤ 1
            → IsTrue (D.disk disks.old centre).told → IsTrue (D.disk disks.old (centre + 16)).told
            → Within (IsCurrent area log) (D.may_leave disks.old (place_of centre area))
            → LeavesOnly D.moment D.left_since disks.old disks.new (place_of centre area) (IsCurrent area log) }
        ensures any_moment_between { (area : ℕ) (log : AreaLog) (payload : List ℕ) → area ≤ 1
            → IsTrue (D.disk disks.old centre).told → IsTrue (D.disk disks.old (centre + 16)).told
            → Within (IsBetween area log payload) (D.may_leave disks.old (place_of centre area))
            → LeavesOnly D.moment D.left_since disks.old disks.new (place_of centre area) (IsBetween area log payload) }
        ensures any_moment_due { (area : ℕ) (log : AreaLog) (payload : List ℕ) → area ≤ 1
            → IsTrue (D.disk disks.old centre).told → IsTrue (D.disk disks.old (centre + 16)).told
            → Within (MayBeDue area log payload) (D.may_leave disks.old (place_of centre area))
            → LeavesOnly D.moment D.left_since disks.old disks.new (place_of centre area) (MayBeDue area log payload) }
        ensures any_moment_idle { (area : ℕ) (log idle : AreaLog) (payload : List ℕ) → area ≤ 1 → generation_of log.head ≡ generation_of idle.head
            → IsTrue (D.disk disks.old centre).told → IsTrue (D.disk disks.old (centre + 16)).told
            → Within (MayBeDue area log payload) (D.may_leave disks.old (place_of centre area))
            → Within (IsIdle idle) (D.may_leave disks.old (place_of centre (other_of area)))
            → LeavesOnly D.moment D.left_since disks.old disks.new (place_of centre (other_of area)) (IsIdle idle) }

        // Where no byte is torn to 1, opening gives the same payloads after a crash at any moment of it, whatever stood there.
        ensures any_moment_same { (all : List (List ℕ)) (current other : List ℕ) → (D.tears 1 → ⊥)
            → IsTrue (D.disk disks.old centre).told → IsTrue (D.disk disks.old (centre + 16)).told
            → Only (D.disk disks.old centre).bytes (D.may_leave disks.old centre)
            → Only (D.disk disks.old (centre + 16)).bytes (D.may_leave disks.old (centre + 16))
            → payloads (D.disk disks.old centre).bytes (D.disk disks.old (centre + 16)).bytes ≡ Ok all
            → D.left_since disks.new centre (D.moment disks.old) current → D.left_since disks.new (centre + 16) (D.moment disks.old) other
            → payloads current other ≡ Ok all }
        ensures others { KeepsBut D.disk D.may_leave D.moment D.left_since disks.old disks.new centre (centre + 16) }

        ensures disk_fault { IsErrOf result LogFault.DiskFault
            → RoseAtOne (D.disk disks.old centre) (D.disk disks.new centre) (D.disk disks.old (centre + 16)) (D.disk disks.new (centre + 16)) }
        ensures not_a_log { (n : ℕ) → IsErrOf result (LogFault.NotALog n)
            → IsTrue (D.disk disks.old centre).told → IsTrue (D.disk disks.old (centre + 16)).told
            → payloads (D.disk disks.old centre).bytes (D.disk disks.old (centre + 16)).bytes ≡ Err n }
        ensures not_a_log_keeps { (n : ℕ) → IsErrOf result (LogFault.NotALog n)
            → ((D.disk disks.new centre).bytes ≡ (D.disk disks.old centre).bytes)
            × ((D.disk disks.new (centre + 16)).bytes ≡ (D.disk disks.old (centre + 16)).bytes) }
        ensures memory { IsErrOf result LogFault.Memory
            → ((D.disk disks.new centre).bytes ≡ (D.disk disks.old centre).bytes)
            × ((D.disk disks.new (centre + 16)).bytes ≡ (D.disk disks.old (centre + 16)).bytes) }
        ensures not_full { IsErrOf result LogFault.LogFull → ⊥ }
    {
        let number = centre.number();
        let buffer = Vec::with_capacity(alloc, PAYLOAD_LIMIT + 5)?;
        let (area, read, spare) = open_areas(alloc, disks, number, number + 16)?;
        let AreaRead {
            generation,
            payloads,
            start,
            tail,
            gate,
        } = read;
        let frames = Frames {
            centre: number,
            area,
            every,
            generation,
            count: payloads.len() as u64,
            start: start as u64,
            tail,
            body: gate as u64 - head_size(generation) - tail,
            size: gate as u64 + 1,
            spare,
            buffer,
        };
        Ok((frames, payloads))
    }

    /// Adds a payload behind the others. At `Ok` it is acknowledged: from then on each crash leaves a log that has it. After
    /// a `DiskFault` the log has to be opened again. After `LogFull` all is as before.
    pub fn append<D: Disks>(&mut self, disks: &mut D, payload: &[u8]) -> Result<(), LogFault>
        requires short { length payload.now ≤ payload_limit }
        requires settled { let place = place_of self.old.centre self.old.area in IsTrue (D.disk disks.old place).told
            → IsSettled self.old (D.disk disks.old place).bytes (D.may_leave disks.old place) }

        ensures acknowledged { let place = place_of self.old.centre self.old.area in (log : AreaLog) → IsTrue (D.disk disks.old place).told
            → IsInUse self.old log (D.disk disks.old place).bytes (D.may_leave disks.old place)
            → OnOk result (IsInUse self.new (appended log payload.now) (D.disk disks.new place).bytes (D.may_leave disks.new place)) }

        // A crash at any moment of it leaves the payloads from before it, with the new one or without.
        ensures any_moment { let place = place_of self.old.centre self.old.area in (log : AreaLog) → IsTrue (D.disk disks.old place).told
            → IsInUse self.old log (D.disk disks.old place).bytes (D.may_leave disks.old place)
            → LeavesOnly D.moment D.left_since disks.old disks.new place (IsBetween self.old.area log payload.now) }

        // Opening then gives these or those, whatever a crash left of the other area.
        ensures any_moment_reads { let place = place_of self.old.centre self.old.area in (log : AreaLog) (current other : List ℕ)
            → IsTrue (D.disk disks.old place).told
            → IsInUse self.old log (D.disk disks.old place).bytes (D.may_leave disks.old place)
            → D.left_since disks.new place (D.moment disks.old) current → IsIdle log other
            → ReadsAsEither (payloads_of log) payload.now (payloads_by self.old.area current other) }

        ensures keeps { OnOk result (self.new ≡ record self.old {
          count = self.old.count + 1;
          tail = self.old.tail + 1;
          body = self.old.body + (length payload.now + 4);
          size = self.old.size + (length payload.now + 5);
        }) }
        ensures fails { OnErr result (self.new ≡ self.old) }
        ensures others { KeepsOthers D.disk D.may_leave D.moment D.left_since disks.old disks.new (place_of self.old.centre self.old.area) }
        ensures calls { let place = place_of self.old.centre self.old.area in MadeSome (append_calls self.old.size payload.now)
            (D.disk disks.old place).calls (D.disk disks.new place).calls }
        ensures all_calls { let place = place_of self.old.centre self.old.area in OnOk result ((D.disk disks.new place).calls
            ≡ with_calls (append_calls self.old.size payload.now) (D.disk disks.old place).calls) }

        ensures disk_fault { let place = place_of self.old.centre self.old.area in IsErrOf result LogFault.DiskFault
            → Rose (D.disk disks.old place).faults (D.disk disks.new place).faults }
        ensures later { let place = place_of self.old.centre self.old.area in (D.disk disks.old place).faults ≤ (D.disk disks.new place).faults }
        ensures full { IsErrOf result LogFault.LogFull ↔ (log_limit < self.old.size + (length payload.now + 5)) }
        ensures full_keeps { IsErrOf result LogFault.LogFull → disks.new ≡ disks.old }
        ensures a_log { (n : ℕ) → IsErrOf result (LogFault.NotALog n) → ⊥ }
        ensures memory { IsErrOf result LogFault.Memory → ⊥ }
    {
        let more = payload.len() as u64 + 5;
        if self.size > LOG_LIMIT - more {
            return Err(LogFault::LogFull);
        }
        self.append_group(disks, payload, &[])
    }

    /// Whether a checkpoint is due.
    pub fn due(&self) -> bool
        ensures due { IsTrue result ↔ (self.now.every ≤ self.now.tail) }
        ensures some { 1 ≤ self.now.every }
    {
        self.tail >= self.every as u64
    }

    /// Where the area is that is not the current one.
    pub fn spare_place(&self) -> u8
        ensures { result ≡ place_of self.now.centre (other_of self.now.area) }
    {
        place_of(self.centre, other_of(self.area))
    }

    /// What is known of the area that is not the current one.
    pub fn spare(&self) -> Spare
        ensures { result ≡ self.now.spare }
    {
        self.spare
    }

    /// Whether there is room for a checkpoint: the other area would not pass 2^30 bytes, and a generation follows.
    pub fn has_copy_room(&self) -> bool
        ensures room { result ≡ true → HasCopyRoom self.now }
        ensures none { result ≡ false → (log_limit < self.now.body + 26) ⊎ (self.now.generation ≡ 2 ^ 64 - 1) }
    {
        self.generation != u64::MAX && self.body <= LOG_LIMIT - 26
    }

    /// The first four calls of a checkpoint: a copy of all payloads is written to the other area, with its area gate closed. It is
    /// not durable yet, and the log is as it was. Answers where the last gate stands there. `checkpoint` makes these calls and the
    /// other three.
    pub fn lay_copy<D: Disks>(&mut self, disks: &mut D) -> Result<u64, LogFault>
        requires settled { let place = place_of self.old.centre self.old.area in IsTrue (D.disk disks.old place).told
            → IsSettled self.old (D.disk disks.old place).bytes (D.may_leave disks.old place) }
        requires spare { let place = place_of self.old.centre (other_of self.old.area) in IsTrue (D.disk disks.old place).told
            → IsSpare self.old (D.disk disks.old place).bytes (D.may_leave disks.old place) }

        ensures written { let place = place_of self.old.centre self.old.area in let other = place_of self.old.centre (other_of self.old.area) in
            (log : AreaLog) → IsTrue (D.disk disks.old place).told → IsTrue (D.disk disks.old other).told
            → IsInUse self.old log (D.disk disks.old place).bytes (D.may_leave disks.old place)
            → OnOk result ((D.disk disks.new other).bytes ≡ copy_of 0 (self.old.generation + 1) (payloads_of log)) }
        ensures size { let place = place_of self.old.centre self.old.area in
            (log : AreaLog) → IsTrue (D.disk disks.old place).told
            → IsInUse self.old log (D.disk disks.old place).bytes (D.may_leave disks.old place)
            → IfOk result (λ end. end ≡ 25 + length (records_bytes (payloads_of log))) }
        ensures bound { IfOk result (λ end. (25 + 4 * self.old.count ≤ end) × (end ≤ 25 + self.old.body)) }
        ensures long { let other = place_of self.old.centre (other_of self.old.area) in IsTrue (D.disk disks.old other).told
            → OnOk result (9 ≤ length (D.disk disks.new other).bytes) }
        ensures shut { let other = place_of self.old.centre (other_of self.old.area) in IsTrue (D.disk disks.old other).told
            → OnOk result (Within IsShut (D.may_leave disks.new other)) }
        ensures any_moment { let other = place_of self.old.centre (other_of self.old.area) in IsTrue (D.disk disks.old other).told
            → LeavesOnly D.moment D.left_since disks.old disks.new other (MayBegin (D.disk disks.old other).bytes) }
        ensures keeps { self.new ≡ self.old }
        ensures has_room { OnOk result (HasCopyRoom self.old) }

        ensures others { KeepsBut D.disk D.may_leave D.moment D.left_since disks.old disks.new
            (place_of self.old.centre self.old.area) (place_of self.old.centre (other_of self.old.area)) }
        ensures reads { let place = place_of self.old.centre self.old.area in
            IsOnlyRead D.disk D.may_leave D.moment D.left_since disks.old disks.new place }
        ensures calls { let place = place_of self.old.centre self.old.area in let other = place_of self.old.centre (other_of self.old.area) in
            (log : AreaLog) → IsTrue (D.disk disks.old place).told
            → IsInUse self.old log (D.disk disks.old place).bytes (D.may_leave disks.old place)
            → MadeSome (laid_calls self.old.spare (self.old.generation + 1) (payloads_of log)) (D.disk disks.old other).calls (D.disk disks.new other).calls }
        ensures all_calls { let place = place_of self.old.centre self.old.area in let other = place_of self.old.centre (other_of self.old.area) in
            (log : AreaLog) → IsTrue (D.disk disks.old place).told
            → IsInUse self.old log (D.disk disks.old place).bytes (D.may_leave disks.old place)
            → OnOk result ((D.disk disks.new other).calls
            ≡ with_calls (laid_calls self.old.spare (self.old.generation + 1) (payloads_of log)) (D.disk disks.old other).calls) }

        ensures disk_fault { let place = place_of self.old.centre self.old.area in let other = place_of self.old.centre (other_of self.old.area) in
            IsErrOf result LogFault.DiskFault
            → RoseAtOne (D.disk disks.old place) (D.disk disks.new place) (D.disk disks.old other) (D.disk disks.new other) }
        ensures full { IsErrOf result LogFault.LogFull ↔ ((log_limit < self.old.body + 26) ⊎ (self.old.generation ≡ 2 ^ 64 - 1)) }
        ensures full_keeps { IsErrOf result LogFault.LogFull → disks.new ≡ disks.old }
        ensures a_log { (n : ℕ) → IsErrOf result (LogFault.NotALog n) → IsTrue (D.disk disks.old (place_of self.old.centre self.old.area)).told → ⊥ }
        ensures memory { IsErrOf result LogFault.Memory → ⊥ }
    {
        if self.generation == u64::MAX || self.body > LOG_LIMIT - 26 {
            return Err(LogFault::LogFull);
        }
        let place = place_of(self.centre, self.area);
        let area = other_of(self.area);
        let other = place_of(self.centre, area);
        let head = head_size(self.generation);
        let whole = Whole {
            place,
            head,
            start: self.start,
            end: self.size - 1,
            count: self.count,
            tail: self.tail,
            body: self.body,
        };
        write_copy(
            disks,
            whole,
            self.generation + 1,
            other,
            self.spare,
            &mut self.buffer,
        )
    }

    /// Copies all payloads to the other area, packed, which is then the current one.
    pub fn checkpoint<D: Disks>(&mut self, disks: &mut D) -> Result<(), LogFault>
        requires settled { let place = place_of self.old.centre self.old.area in IsTrue (D.disk disks.old place).told
            → IsSettled self.old (D.disk disks.old place).bytes (D.may_leave disks.old place) }
        requires spare { let place = place_of self.old.centre (other_of self.old.area) in IsTrue (D.disk disks.old place).told
            → IsSpare self.old (D.disk disks.old place).bytes (D.may_leave disks.old place) }

        // At Ok the other area is the current one and has all payloads packed, and the one that was is as it was.
        ensures packed { let place = place_of self.old.centre self.old.area in let other = place_of self.old.centre (other_of self.old.area) in
            (log : AreaLog) → IsTrue (D.disk disks.old place).told → IsTrue (D.disk disks.old other).told
            → IsInUse self.old log (D.disk disks.old place).bytes (D.may_leave disks.old place)
            → OnOk result (IsInUse self.new (packed log) (D.disk disks.new other).bytes (D.may_leave disks.new other)) }
        ensures spare { let place = place_of self.old.centre self.old.area in
            (log : AreaLog) → IsTrue (D.disk disks.old place).told
            → IsInUse self.old log (D.disk disks.old place).bytes (D.may_leave disks.old place)
            → OnOk result (IsSpare self.new (D.disk disks.new place).bytes (D.may_leave disks.new place)) }
        ensures areas { (self.new.centre ≡ self.old.centre) × ((self.new.every ≡ self.old.every)
            × OnOk result ((self.new.area ≡ other_of self.old.area) × (self.new.tail ≡ 0))) }
        ensures counts { OnOk result ((self.new.generation ≡ self.old.generation + 1) × (self.new.count ≡ self.old.count)) }
        ensures fails { OnErr result (self.new ≡ self.old) }

        // A crash at any moment of it leaves one area with all payloads, whatever stands in the other.
        ensures any_moment { let place = place_of self.old.centre self.old.area in
            (log : AreaLog) → IsTrue (D.disk disks.old place).told
            → IsInUse self.old log (D.disk disks.old place).bytes (D.may_leave disks.old place)
            → LeavesOnly D.moment D.left_since disks.old disks.new place (IsCurrent self.old.area log) }
        ensures any_moment_other { let place = place_of self.old.centre self.old.area in let other = place_of self.old.centre (other_of self.old.area) in
            (log : AreaLog) → IsTrue (D.disk disks.old place).told → IsTrue (D.disk disks.old other).told
            → IsInUse self.old log (D.disk disks.old place).bytes (D.may_leave disks.old place)
            → LeavesOnly D.moment D.left_since disks.old disks.new other (IsIdle log) }

        // Opening then gives all payloads.
        ensures any_moment_reads { let place = place_of self.old.centre self.old.area in let other = place_of self.old.centre (other_of self.old.area) in
            (log : AreaLog) (current spare : List ℕ) → IsTrue (D.disk disks.old place).told → IsTrue (D.disk disks.old other).told
            → IsInUse self.old log (D.disk disks.old place).bytes (D.may_leave disks.old place)
            → D.left_since disks.new place (D.moment disks.old) current → D.left_since disks.new other (D.moment disks.old) spare
            → payloads_by self.old.area current spare ≡ Ok (payloads_of log) }

        ensures others { KeepsBut D.disk D.may_leave D.moment D.left_since disks.old disks.new
            (place_of self.old.centre self.old.area) (place_of self.old.centre (other_of self.old.area)) }
        ensures reads { let place = place_of self.old.centre self.old.area in
            IsOnlyRead D.disk D.may_leave D.moment D.left_since disks.old disks.new place }
        ensures calls { let place = place_of self.old.centre self.old.area in let other = place_of self.old.centre (other_of self.old.area) in
            (log : AreaLog) → IsTrue (D.disk disks.old place).told
            → IsInUse self.old log (D.disk disks.old place).bytes (D.may_leave disks.old place)
            → MadeSome (checkpoint_calls self.old.spare (self.old.generation + 1) (payloads_of log)) (D.disk disks.old other).calls (D.disk disks.new other).calls }
        ensures all_calls { let place = place_of self.old.centre self.old.area in let other = place_of self.old.centre (other_of self.old.area) in
            (log : AreaLog) → IsTrue (D.disk disks.old place).told
            → IsInUse self.old log (D.disk disks.old place).bytes (D.may_leave disks.old place)
            → OnOk result ((D.disk disks.new other).calls
            ≡ with_calls (checkpoint_calls self.old.spare (self.old.generation + 1) (payloads_of log)) (D.disk disks.old other).calls) }

        ensures disk_fault { let place = place_of self.old.centre self.old.area in let other = place_of self.old.centre (other_of self.old.area) in
            IsErrOf result LogFault.DiskFault
            → RoseAtOne (D.disk disks.old place) (D.disk disks.new place) (D.disk disks.old other) (D.disk disks.new other) }
        // It is full where the other area would pass 2^30 bytes; and behind the last generation there is none.
        ensures full { IsErrOf result LogFault.LogFull ↔ ((log_limit < self.old.body + 26) ⊎ (self.old.generation ≡ 2 ^ 64 - 1)) }
        ensures full_keeps { IsErrOf result LogFault.LogFull → disks.new ≡ disks.old }
        ensures a_log { (n : ℕ) → IsErrOf result (LogFault.NotALog n) → IsTrue (D.disk disks.old (place_of self.old.centre self.old.area)).told → ⊥ }
        ensures memory { IsErrOf result LogFault.Memory → ⊥ }
    {
        let other = self.spare_place();
        let end = self.lay_copy(disks)?;
        open_area(disks, other)?;
        self.spare = left_area(self.generation, self.size);
        self.area = other_of(self.area);
        self.generation += 1;
        self.start = end;
        self.tail = 0;
        self.body = end - 25;
        self.size = end + 1;
        Ok(())
    }
}

// The area that this one is not.
pub(crate) fn other_of(area: u8) -> u8
    ensures value { result ≡ other_of area }
    ensures range { result ≤ 1 }
{
    if area == 0 { 1 } else { 0 }
}

// How many bytes stand before the records.
pub(crate) fn head_size(generation: u64) -> u64
    ensures { result ≡ head_size generation }
{
    if generation == 0 { 8 } else { 25 }
}

// What is known of the area that was in use before a checkpoint.
fn left_area(generation: u64, size: u64) -> Spare
    ensures { result ≡ left_area generation size }
{
    if size <= 9 {
        Spare::Short
    } else {
        Spare::Long {
            closed: false,
            marked: generation != 0,
        }
    }
}
