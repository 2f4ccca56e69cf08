//! A link in memory.
ghost use Rattle.std.specs.Prelude.{◌≡◌, ◌≤◌, ◌+◌, length, slice_get, if◌then◌else◌, is_some, IsOk, IfOk, OnOk, OnErr};
ghost use Rattle.std.specs.Option.{option_map};
ghost use Rattle.mdcc_base.specs.Causes.{HasCause};
ghost use Rattle.mdcc_base.specs.Scripts.{one_more};
ghost use Rattle.mdcc_link.specs.Link.{AddsLinkCall, ReceivesAtMost, brought};
ghost use Rattle.mdcc_link.specs.Link.LinkCall.{Bind, Send, Receive};
ghost use Rattle.mdcc_link.specs.Memory.{IsLinkBut, MakesLinkCall, Brings, new_link, after_put, link_missed, missed_send, is_next_listed, answer_of, bind_call, first_waiting_at, send_call, receive_answer, receive_part, receive_call, told_link_calls, known_waiting};

use crate::stored::Stored;
use crate::{Link, Received};
use mdcc_base::scripts::is_listed;
use mdcc_base::{Address, Failed, Memory};
use std::alloc::Global;
use std::marker::Model;

/// A link whose datagrams wait in memory. A datagram that is sent waits at the endpoint that bound its address first; without
/// such an endpoint it is only recorded. A call fails whose number, counted from 1, is in the script, and one that finds no
/// memory. A call that fails has no effect but on the counts; from the first one on that finds no memory the calls are not
/// recorded any more.
#[derive(Drop)]
pub struct MemoryLink {
    stored: Stored,
    whole: bool,
    script: Vec<u32>,
    calls: u64,
    lost: u64,
    faults: u64,
}

impl Model for MemoryLink {
    ghost use Rattle.mdcc_link.specs.Memory.{LinkMemory};

    ghost Value = { LinkMemory };

    ghost view = { λ l. record {
      calls = l.stored.calls;
      bound = l.stored.bound;
      sent = l.stored.sent;
      waiting = l.stored.waiting;
      whole = l.whole;
      script = l.script.items;
      count = l.calls;
      lost = l.lost;
      faults = l.faults;
      call_room = l.stored.call_room;
      byte_room = l.stored.byte_room;
    } };
}

impl MemoryLink {
    /// A link with no endpoint, with a copy of this script.
    pub fn new(alloc: Global, script: &[u32]) -> Result<MemoryLink, Memory>
        ensures { IfOk result (λ link. IsLinkBut (new_link script.now) link) }
    {
        let script = Vec::from_slice(alloc, script)?;
        Ok(MemoryLink {
            stored: Stored::new(alloc),
            whole: true,
            script,
            calls: 0,
            lost: 0,
            faults: 0,
        })
    }

    /// Lets the next so many calls, with so many sent bytes in all, find memory. A `put` takes the room of one of them.
    pub fn reserve(&mut self, calls: u32, bytes: u64) -> Result<(), Memory>
        ensures same { IsLinkBut self.old self.new }
        ensures calls { OnOk result (calls ≤ self.new.call_room) }
        ensures bytes { OnOk result (bytes ≤ self.new.byte_room) }
        ensures calls_stay { self.old.call_room ≤ self.new.call_room }
        ensures bytes_stay { self.old.byte_room ≤ self.new.byte_room }
        ensures succeeds { calls ≤ self.old.call_room → bytes ≤ self.old.byte_room → IsOk result }
    {
        self.stored.reserve(calls as usize, bytes as usize)?;
        Ok(())
    }

    /// Lets a datagram wait at an endpoint, after all others. It is no call, and does not count as sent.
    pub fn put(&mut self, at: u8, bytes: &[u8]) -> Result<(), Memory>
        ensures ok { OnOk result (IsLinkBut (after_put at bytes.now self.old) self.new) }
        ensures err { OnErr result (IsLinkBut self.old self.new) }
        ensures calls_stay { self.old.call_room ≤ self.new.call_room + 1 }
        ensures bytes_stay { self.old.byte_room ≤ self.new.byte_room + length bytes.now }
        ensures succeeds { 1 ≤ self.old.call_room → length bytes.now ≤ self.old.byte_room → IsOk result }
    {
        self.stored.reserve(1, bytes.len())?;
        self.stored.put(at, bytes);
        Ok(())
    }

    /// The datagram that was sent after so many others: from which endpoint, to which address, and its bytes.
    pub fn sent(&self, index: usize) -> Option<(u8, Address, &[u8])>
        ensures { option_map (λ r. record { from = r.0; to = r.1; bytes = r.2.now }) result ≡ slice_get self.now.sent index }
    {
        self.stored.sent(index)
    }

    // Whether the script lists the next call.
    fn is_next_listed(&self) -> bool
        ensures { result ≡ is_next_listed self.now }
    {
        is_listed(self.script.as_slice(), self.calls.saturating_add(1))
    }

    // Counts a call, and whether it failed.
    fn count(&mut self, failed: bool)
        ensures later { self.old.faults ≤ self.new.faults }
        ensures link { self.new ≡ record self.old { count = one_more self.old.count; faults = if failed then one_more self.old.faults else self.old.faults } }
    {
        self.calls = self.calls.saturating_add(1);
        if failed {
            self.faults = self.faults.saturating_add(1);
        }
    }

    // Counts a send, and whether it failed.
    fn count_send(&mut self, failed: bool)
        ensures later { self.old.lost ≤ self.new.lost }
        ensures link { self.new ≡ record self.old { count = one_more self.old.count; lost = if failed then one_more self.old.lost else self.old.lost } }
    {
        self.calls = self.calls.saturating_add(1);
        if failed {
            self.lost = self.lost.saturating_add(1);
        }
    }
}

// What a bind or a send answers.
fn answer_of(listed: bool) -> Result<(), Failed>
    ensures { result ≡ answer_of listed }
{
    if listed {
        return Err(Failed);
    }
    Ok(())
}

impl Link for MemoryLink {
    ghost calls = { told_link_calls };

    ghost lost = { λ link. link.lost };

    ghost faults = { λ link. link.faults };

    ghost waiting = { known_waiting };

    fn bind(&mut self, at: u8, address: Address) -> Result<(), Failed>
        ensures call { AddsLinkCall (Bind at address result) (told_link_calls self.old) (told_link_calls self.new) result }
        ensures cause { HasCause self.old.faults self.new.faults result }
        ensures only { OnOk result (self.new.faults ≡ self.old.faults) }
        ensures sends { self.new.lost ≡ self.old.lost }

        // It fails by the script, and else only where there is no memory.
        ensures made { MakesLinkCall (answer_of (is_next_listed self.old)) (bind_call self.old at address) 0 (link_missed self.old) self.old self.new result }
    {
        if self.stored.reserve(1, 0).is_err() {
            self.whole = false;
            self.count(true);
            return Err(Failed);
        }
        let listed = self.is_next_listed();
        let answer = answer_of(listed);
        self.stored.bind(at, address, answer);
        self.count(listed);
        answer
    }

    fn send(&mut self, from: u8, to: Address, bytes: &[u8]) -> Result<(), Failed>
        ensures call { AddsLinkCall (Send from to bytes.now result) (told_link_calls self.old) (told_link_calls self.new) result }
        ensures cause { HasCause self.old.lost self.new.lost result }
        ensures only { OnOk result (self.new.lost ≡ self.old.lost) }
        ensures receives { self.new.faults ≡ self.old.faults }

        // It fails by the script, and else only where there is no memory.
        ensures made { MakesLinkCall (answer_of (is_next_listed self.old)) (send_call self.old from to bytes.now) (length bytes.now) (missed_send self.old) self.old self.new result }
    {
        if self.stored.reserve(1, bytes.len()).is_err() {
            self.whole = false;
            self.count_send(true);
            return Err(Failed);
        }
        let listed = self.is_next_listed();
        let answer = answer_of(listed);
        self.stored.send(from, to, bytes, answer);
        self.count_send(listed);
        answer
    }

    fn receive(&mut self, at: u8, into: &mut [u8]) -> Result<Received, Failed>
        ensures bound { ReceivesAtMost result (length into.new) }
        ensures call { AddsLinkCall (Receive at (length into.new) result (brought result into.new)) (told_link_calls self.old) (told_link_calls self.new) result }
        ensures cause { HasCause self.old.faults self.new.faults result }
        ensures only { OnOk result (self.new.faults ≡ self.old.faults) }
        ensures sends { self.new.lost ≡ self.old.lost }

        // It fails by the script, and else only where there is no memory. It gives the first datagram that waits, as far as it
        // fits, and leaves the rest of the buffer.
        ensures made { MakesLinkCall (receive_answer self.old at (length into.old)) (receive_call self.old at (length into.old)) 0 (link_missed self.old) self.old self.new result }
        ensures buffer { OnOk result (Brings (receive_part self.old at (length into.old)) into.old into.new) }
        ensures unread { OnErr result (into.new ≡ into.old) }
    {
        if self.stored.reserve(1, 0).is_err() {
            self.whole = false;
            self.count(true);
            return Err(Failed);
        }
        let listed = self.is_next_listed();
        self.count(listed);
        if listed {
            self.stored.fail_receive(at, into.len());
            return Err(Failed);
        }
        Ok(self.stored.receive(at, into))
    }

    fn waits(&self, at: u8) -> bool
        ensures { result ≡ is_some (first_waiting_at at self.now.waiting) }
    {
        self.stored.waits(at)
    }

    // Nothing waits for what may come: it comes by `put` alone.
    fn set_wait(&mut self, _milliseconds: u16)
        ensures calls { told_link_calls self.new ≡ told_link_calls self.old }
        ensures sends { self.new.lost ≡ self.old.lost }
        ensures receives { self.new.faults ≡ self.old.faults }
        ensures same { self.new ≡ self.old }
    {}
}
