//! Disks that a killed process does not reach any more.
ghost use Rattle.std.specs.Prelude.{◌≡◌, ◌<◌, ◌≤◌, true, false, drop, length, replicate, take, IfOk, IsTrue, OnOk};
ghost use Rattle.mdcc_disks.specs.Disks.{IsCall, IsCut, IsOverwritten, IsTorn, Only, OutcomesFollow, Within};
ghost use Rattle.mdcc_disks.specs.Disks.DiskCall.{Cut, Length, Read, Sync, Write};
ghost use Rattle.mdcc_killed_process.specs.Killed.{IsMissedAt, ReachesNoDisk, disk_of_killed, left_since_of_killed, may_leave_of_killed, moment_of_killed};

use mdcc_base::Failed;
use mdcc_disks::Disks;

/// The disks of a process that is killed after so many calls of them. These are made as by any process; of those that would come later
/// none is, and to the process it is as if each of them failed. A kill inside a call is one after it, at disks where this call
/// fails: such a call may have done any part of its work.
#[derive(Drop)]
pub struct KilledDisks<D> {
    /// The disks themselves, as the process leaves them.
    pub disks: D,
    /// How many calls are made until it is killed.
    pub left: u64,
    /// For each place, how many calls were not made. The counts stand still at 2^64 - 1.
    pub missed: [u64; 256],
}

impl<D: Disks> KilledDisks<D> {
    /// The disks of a process that is killed after so many calls.
    pub fn new(disks: D, left: u64) -> KilledDisks<D>
        ensures { result ≡ record { disks = disks; left = left; missed = replicate 256 0 } }
    {
        KilledDisks {
            disks,
            left,
            missed: [0; 256],
        }
    }

    // Whether one more call is made. One that is not made is counted.
    fn reaches(&mut self, place: u8) -> bool
        ensures once { self.old.left ≡ 0 → result ≡ false }
        ensures reached { result ≡ true → (self.new.disks ≡ self.old.disks) × (self.new.missed ≡ self.old.missed) }
        ensures killed { result ≡ false → (self.new.disks ≡ self.old.disks) × IsMissedAt place self.old.missed self.new.missed }
    {
        if self.left == 0 {
            self.missed[place as usize] = self.missed[place as usize].saturating_add(1);
            return false;
        }
        self.left -= 1;
        true
    }
}

impl<D: Disks> Disks for KilledDisks<D> {
    ghost disk = { disk_of_killed D.disk };

    ghost may_leave = { may_leave_of_killed D.may_leave };

    ghost tears = { D.tears };

    ghost moment = { moment_of_killed D.moment };

    ghost left_since = { left_since_of_killed D.left_since };

    ghost counts_now = { λ killed p t c. D.counts_now killed.disks p t c };

    ghost only_now = { λ killed p c. D.only_now killed.disks p c };

    ghost as_read = { λ killed p. D.as_read killed.disks p };

    fn length(&mut self, place: u8) -> Result<u64, Failed>
        ensures answer { IsTrue (disk_of_killed D.disk self.old place).told → IfOk result (λ n. n ≡ length (disk_of_killed D.disk self.old place).bytes) }
        ensures bytes { (disk_of_killed D.disk self.new place).bytes ≡ (disk_of_killed D.disk self.old place).bytes }
        ensures crash { Within (may_leave_of_killed D.may_leave self.old place) (may_leave_of_killed D.may_leave self.new place) }
        ensures call { IsCall (disk_of_killed D.disk) (may_leave_of_killed D.may_leave) (moment_of_killed D.moment) (left_since_of_killed D.left_since)
            self.old self.new place Length result }
        ensures killed { self.old.left ≡ 0 → ReachesNoDisk self.old self.new result }
    {
        if !self.reaches(place) {
            return Err(Failed);
        }
        self.disks.length(place)
    }

    fn read(&mut self, place: u8, offset: u64, into: &mut [u8]) -> Result<usize, Failed>
        requires { IsTrue (disk_of_killed D.disk self.old place).told → offset < length (disk_of_killed D.disk self.old place).bytes }
        ensures bound { IfOk result (λ n. n ≤ length into.new) }
        ensures some { 0 < length into.new → IfOk result (λ n. 0 < n) }
        ensures answer { IsTrue (disk_of_killed D.disk self.old place).told → IfOk result (λ n. take n into.new ≡ take n (drop offset (disk_of_killed D.disk self.old place).bytes)) }
        ensures bytes { (disk_of_killed D.disk self.new place).bytes ≡ (disk_of_killed D.disk self.old place).bytes }
        ensures crash { Within (may_leave_of_killed D.may_leave self.old place) (may_leave_of_killed D.may_leave self.new place) }
        ensures call { IsCall (disk_of_killed D.disk) (may_leave_of_killed D.may_leave) (moment_of_killed D.moment) (left_since_of_killed D.left_since)
            self.old self.new place (Read offset (length into.new)) result }
        ensures killed { self.old.left ≡ 0 → ReachesNoDisk self.old self.new result }
    {
        if !self.reaches(place) {
            return Err(Failed);
        }
        self.disks.read(place, offset, into)
    }

    fn write_at(&mut self, place: u8, offset: u64, bytes: &[u8]) -> Result<(), Failed>
        requires { IsTrue (disk_of_killed D.disk self.old place).told → offset ≤ length (disk_of_killed D.disk self.old place).bytes }
        ensures written { IsTrue (disk_of_killed D.disk self.old place).told
            → OnOk result (IsOverwritten (disk_of_killed D.disk self.old place).bytes offset bytes.now (disk_of_killed D.disk self.new place).bytes) }
        ensures crash { OutcomesFollow (IsTorn D.tears offset bytes.now) (may_leave_of_killed D.may_leave self.old place) (may_leave_of_killed D.may_leave self.new place) }
        ensures call { IsCall (disk_of_killed D.disk) (may_leave_of_killed D.may_leave) (moment_of_killed D.moment) (left_since_of_killed D.left_since)
            self.old self.new place (Write offset bytes.now) result }
        ensures killed { self.old.left ≡ 0 → ReachesNoDisk self.old self.new result }
    {
        if !self.reaches(place) {
            return Err(Failed);
        }
        self.disks.write_at(place, offset, bytes)
    }

    fn cut(&mut self, place: u8, size: u64) -> Result<(), Failed>
        requires { IsTrue (disk_of_killed D.disk self.old place).told → size ≤ length (disk_of_killed D.disk self.old place).bytes }
        ensures cut { IsTrue (disk_of_killed D.disk self.old place).told
            → OnOk result ((disk_of_killed D.disk self.new place).bytes ≡ take size (disk_of_killed D.disk self.old place).bytes) }
        ensures crash { OutcomesFollow (IsCut size) (may_leave_of_killed D.may_leave self.old place) (may_leave_of_killed D.may_leave self.new place) }
        ensures call { IsCall (disk_of_killed D.disk) (may_leave_of_killed D.may_leave) (moment_of_killed D.moment) (left_since_of_killed D.left_since)
            self.old self.new place (Cut size) result }
        ensures killed { self.old.left ≡ 0 → ReachesNoDisk self.old self.new result }
    {
        if !self.reaches(place) {
            return Err(Failed);
        }
        self.disks.cut(place, size)
    }

    fn sync(&mut self, place: u8) -> Result<(), Failed>
        ensures durable { IsTrue (disk_of_killed D.disk self.old place).told
            → OnOk result (Only (disk_of_killed D.disk self.old place).bytes (may_leave_of_killed D.may_leave self.new place)) }
        ensures bytes { (disk_of_killed D.disk self.new place).bytes ≡ (disk_of_killed D.disk self.old place).bytes }
        ensures crash { Within (may_leave_of_killed D.may_leave self.old place) (may_leave_of_killed D.may_leave self.new place) }
        ensures call { IsCall (disk_of_killed D.disk) (may_leave_of_killed D.may_leave) (moment_of_killed D.moment) (left_since_of_killed D.left_since)
            self.old self.new place Sync result }
        ensures killed { self.old.left ≡ 0 → ReachesNoDisk self.old self.new result }
    {
        if !self.reaches(place) {
            return Err(Failed);
        }
        self.disks.sync(place)
    }
}
