//! A link that a killed process does not reach any more.
ghost use Rattle.std.specs.Prelude.{◌≡◌, length, OnOk};
ghost use Rattle.mdcc_base.specs.Causes.{HasCause};
ghost use Rattle.mdcc_killed_process.specs.Killed.{ReachesNoLink, calls_of_killed, faults_of_killed, lost_of_killed};
ghost use Rattle.mdcc_link.specs.Link.{AddsLinkCall, ReceivesAtMost, brought};
ghost use Rattle.mdcc_link.specs.Link.LinkCall.{Bind, Receive, Send};

use mdcc_base::{Address, Failed};
use mdcc_link::{Link, Received};

/// The link of a process that is killed after so many calls of it: of those that would come later none is made, and to the process it is
/// as if each of them failed.
#[derive(Drop)]
pub struct KilledLink<L> {
    /// The link itself, as the process leaves it.
    pub link: L,
    /// How many calls are made until it is killed.
    pub left: u64,
    /// How many sends were not made. The counts stand still at 2^64 - 1.
    pub unsent: u64,
    /// How many binds and receives were not made.
    pub missed: u64,
}

impl<L: Link> KilledLink<L> {
    /// The link of a process that is killed after so many calls.
    pub fn new(link: L, left: u64) -> KilledLink<L>
        ensures { result ≡ record { link = link; left = left; unsent = 0; missed = 0 } }
    {
        KilledLink {
            link,
            left,
            unsent: 0,
            missed: 0,
        }
    }
}

impl<L: Link> Link for KilledLink<L> {
    ghost calls = { calls_of_killed L.calls };

    ghost lost = { lost_of_killed L.lost };

    ghost faults = { faults_of_killed L.faults };

    ghost waiting = { λ killed. L.waiting killed.link };

    fn bind(&mut self, at: u8, address: Address) -> Result<(), Failed>
        ensures call { AddsLinkCall (Bind at address result) (calls_of_killed L.calls self.old) (calls_of_killed L.calls self.new) result }
        ensures cause { HasCause (faults_of_killed L.faults self.old) (faults_of_killed L.faults self.new) result }
        ensures only { OnOk result (faults_of_killed L.faults self.new ≡ faults_of_killed L.faults self.old) }
        ensures sends { lost_of_killed L.lost self.new ≡ lost_of_killed L.lost self.old }
        ensures killed { self.old.left ≡ 0 → ReachesNoLink self.old self.new result }
    {
        if self.left == 0 {
            self.missed = self.missed.saturating_add(1);
            return Err(Failed);
        }
        self.left -= 1;
        self.link.bind(at, address)
    }

    fn send(&mut self, from: u8, to: Address, bytes: &[u8]) -> Result<(), Failed>
        ensures call { AddsLinkCall (Send from to bytes.now result) (calls_of_killed L.calls self.old) (calls_of_killed L.calls self.new) result }
        ensures cause { HasCause (lost_of_killed L.lost self.old) (lost_of_killed L.lost self.new) result }
        ensures only { OnOk result (lost_of_killed L.lost self.new ≡ lost_of_killed L.lost self.old) }
        ensures receives { faults_of_killed L.faults self.new ≡ faults_of_killed L.faults self.old }
        ensures killed { self.old.left ≡ 0 → ReachesNoLink self.old self.new result }
    {
        if self.left == 0 {
            self.unsent = self.unsent.saturating_add(1);
            return Err(Failed);
        }
        self.left -= 1;
        self.link.send(from, to, bytes)
    }

    fn receive(&mut self, at: u8, into: &mut [u8]) -> Result<Received, Failed>
        ensures bound { ReceivesAtMost result (length into.new) }
        ensures call { AddsLinkCall (Receive at (length into.new) result (brought result into.new)) (calls_of_killed L.calls self.old) (calls_of_killed L.calls self.new) result }
        ensures cause { HasCause (faults_of_killed L.faults self.old) (faults_of_killed L.faults self.new) result }
        ensures only { OnOk result (faults_of_killed L.faults self.new ≡ faults_of_killed L.faults self.old) }
        ensures sends { lost_of_killed L.lost self.new ≡ lost_of_killed L.lost self.old }
        ensures killed { self.old.left ≡ 0 → ReachesNoLink self.old self.new result }
    {
        if self.left == 0 {
            self.missed = self.missed.saturating_add(1);
            return Err(Failed);
        }
        self.left -= 1;
        self.link.receive(at, into)
    }

    fn waits(&self, at: u8) -> bool {
        self.link.waits(at)
    }

    fn set_wait(&mut self, milliseconds: u16) {
        if self.left > 0 {
            self.link.set_wait(milliseconds);
        }
    }
}
