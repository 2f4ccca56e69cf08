//! A link over UDP sockets.
ghost use Rattle.std.specs.Prelude.{List, Option, false, ◌≡◌, ◌++◌, ◌∷◌, ◌==◌, ◌≤◌, ◌+◌, ◌-◌, ◌^◌, [], length, find, map, min, None, Ok, Some, IfSome, OnOk, true};
ghost use Rattle.std.specs.Option.{option_map};
ghost use Rattle.mdcc_base.specs.Causes.{HasCause};
ghost use Rattle.mdcc_link.specs.Link.{AddsLinkCall, LinkCall, ReceivesAtMost, brought};
ghost use Rattle.mdcc_link.specs.Link.LinkCall.{Receive};
ghost use Rattle.mdcc_link.specs.Sockets.{served_by};
ghost use Rattle.mdcc_link.specs.Pauses.{IsNewPauses, busy_at, is_of_pause, limit_for};

use crate::pauses::Pauses;
use crate::sockets::{above_streams, found, is_second, served_by, socket_address};
use crate::{Link, Received};
use libc::net as system;
use libc::types::pollfd;
use mdcc_base::{Address, Failed};
use std::alloc::Global;
use std::net::{Net, UdpSocket};
use std::os::fd::AsRawFd;

/// How many milliseconds a receive waits at most, unless it is told otherwise.
const DEFAULT_WAIT: u16 = 20;

/// In so many parts a wait goes by at most, and the last of them has nothing left: of one millisecond, then each as long as all before it.
const PARTS: u32 = 18;

/// How many bytes of datagrams the system is asked to keep at a socket, as it counts them. It keeps at most what it allows
/// (net.core.rmem_max), and without this request mostly some hundred datagrams.
const KEPT_BYTES: u32 = 4 << 20;

/// A millisecond in which no datagram came counts as so many, so that a pause comes before long where datagrams are few but never a
/// whole wait apart.
const MILLISECOND_WEIGHT: u32 = 16;

#[derive(Drop)]
struct Endpoint {
    at: u8,
    socket: UdpSocket,
}

/// UDP sockets, one for each endpoint. A receive at an endpoint where nothing lies waits for what comes at it or at the other endpoint
/// of its centre, K and 16 + K, for 20 milliseconds at most, or for as long as `set_wait` says, and looks once more. Only one that is at
/// a client's endpoint just after one at its centre's own waits for nothing: the first of the two waited for both. So where both answer
/// that nothing came, nothing came at either for the whole wait, or the centre has a pause: after 4,096 datagrams, and more where the
/// wait is longer, the two receives of a turn answer so, though something may lie there. A centre to which datagrams come all the time
/// needs that, since time passes for it only where nothing comes, and what was lost on the way is asked for again only as time passes. A
/// datagram that finds no receiver is no fault of a later receive, nor is a moment in which the system has no memory for one.
#[derive(Drop)]
pub struct UdpLink<'a, R: Net> {
    net: &'a R,
    endpoints: Vec<Endpoint>,
    before: Option<u8>,
    wait: u16,
    was_silent: bool,
    pauses: Pauses,
    lost: u64,
    faults: u64,
}

impl<'a, R: Net> UdpLink<'a, R> {
    /// A link with no endpoint.
    pub fn new(alloc: Global, net: &'a R) -> Self
        ensures endpoints { result.endpoints.items ≡ [] }
        ensures before { result.before ≡ None }
        ensures wait { result.wait ≡ 20 }
        ensures silence { result.was_silent ≡ false }
        ensures pauses { IsNewPauses result.pauses }
        ensures lost { result.lost ≡ 0 }
        ensures faults { result.faults ≡ 0 }
    {
        UdpLink {
            net,
            endpoints: Vec::new(alloc),
            before: None,
            wait: DEFAULT_WAIT,
            was_silent: false,
            pauses: Pauses::new(),
            lost: 0,
            faults: 0,
        }
    }

    // The socket of an endpoint.
    fn socket(&self, at: u8) -> Option<&UdpSocket>
        ensures { option_map (λ socket. socket.now) result ≡ option_map (λ e. e.socket) (find (λ e. e.at == at) self.now.endpoints.items) }
    {
        let endpoint = self.endpoints.iter().find(|endpoint| endpoint.at == at)?;
        Some(&endpoint.socket)
    }

    // Asks for room for the datagrams that come while a centre waits for its disk. Where it is refused, the socket serves as it is.
    fn ask_for_room(socket: &UdpSocket) {
        let mut value = [0u8; 16];
        value[..4].copy_from_slice(&KEPT_BYTES.to_le_bytes());
        let fd = socket.as_raw_fd();
        let _status = unsafe {
            system::setsockopt(fd, system::SOL_SOCKET, system::SO_RCVBUF, &value, 4)
        };
    }

    // Binds a socket, where the endpoint has none.
    fn open(&mut self, at: u8, address: Address) -> Option<()>
        ensures opened { IfSome result (λ _. map (λ e. e.at) self.new.endpoints.items ≡ map (λ e. e.at) self.old.endpoints.items ++ at ∷ []) }
        ensures lost { self.new.lost ≡ self.old.lost }
        ensures faults { self.new.faults ≡ self.old.faults }
    {
        if self.socket(at).is_some() {
            return None;
        }
        let socket = UdpSocket::bind(self.net, socket_address(address)).ok()?;
        let socket = above_streams(socket).ok()?;
        socket.set_nonblocking(true).ok()?;
        Self::ask_for_room(&socket);
        self.endpoints.push(Endpoint { at, socket }).ok()
    }

    // Takes what waits at the endpoint, with no wait.
    fn take(&self, at: u8, into: &mut [u8]) -> Option<Received>
        ensures { IfSome result (λ r. ReceivesAtMost (Ok r) (length into.new)) }
    {
        let ended = self.socket(at)?.recv_from(into);
        found(ended)
    }

    // What the system is asked of an endpoint: whether it has something to read. It passes over -1.
    fn request(&self, at: u8) -> pollfd {
        let fd = match self.socket(at) {
            Some(socket) => socket.as_raw_fd(),
            None => -1,
        };
        pollfd {
            fd,
            events: system::POLLIN,
            revents: 0,
        }
    }

    // Whether the endpoint has a datagram to read now, with no wait. Without a socket, or after an error, it has none.
    fn has_datagram(&self, at: u8) -> bool {
        let mut requests = [self.request(at)];
        let ready = system::poll(&mut requests, 0);
        ready > 0 && requests[0].revents & system::POLLIN != 0
    }

    // Waits for a datagram at one of two endpoints, at most so many milliseconds. Answers whether one came.
    fn comes_in(&self, at: u8, other: u8, milliseconds: u16) -> bool {
        let mut requests = [self.request(at), self.request(other)];
        system::poll(&mut requests, i32::from(milliseconds)) > 0
    }

    // Waits for a datagram at an endpoint or at the other one of its centre. The part of the wait that went by before one came counts.
    fn wait_at(&mut self, at: u8)
        ensures busy { busy_at at self.old.pauses ≤ busy_at at self.new.pauses }
        ensures lost { self.new.lost ≡ self.old.lost }
        ensures faults { self.new.faults ≡ self.old.faults }
    {
        let other = if at > 16 { at - 16 } else { at + 16 };
        let mut over: u16 = 0;
        for _ in 0..PARTS {
            let part = self.wait.saturating_sub(over).min(over.max(1));
            self.was_silent = part == 0;
            if self.was_silent || self.comes_in(at, other, part) {
                return;
            }
            self.pauses.count(at, MILLISECOND_WEIGHT * u32::from(part));
            over = over.saturating_add(part);
        }
    }

    // Takes what waits at the endpoint, or what comes before the wait is over.
    fn take_in_time(&mut self, at: u8, into: &mut [u8]) -> Option<Received>
        ensures bound { IfSome result (λ r. ReceivesAtMost (Ok r) (length into.new)) }
        ensures busy { busy_at at self.old.pauses ≤ busy_at at self.new.pauses }
        ensures lost { self.new.lost ≡ self.old.lost }
        ensures faults { self.new.faults ≡ self.old.faults }
    {
        let first = self.take(at, into)?;
        if first != Received::Nothing || is_second(self.before, at) {
            return Some(first);
        }
        self.wait_at(at);
        self.take(at, into)
    }
}

impl<'a, R: Net> Link for UdpLink<'a, R> {
    ghost calls = { λ _. None };

    ghost lost = { λ link. link.lost };

    ghost faults = { λ link. link.faults };

    ghost waiting = { λ _ _. None };

    fn bind(&mut self, at: u8, address: Address) -> Result<(), Failed> {
        if self.open(at, address).is_none() {
            self.faults = self.faults.saturating_add(1);
            return Err(Failed);
        }
        Ok(())
    }

    fn send(&mut self, from: u8, to: Address, bytes: &[u8]) -> Result<(), Failed> {
        if let Some(socket) = self.socket(from) {
            if socket.send_to(bytes, socket_address(to)).is_ok() {
                return Ok(());
            }
        }
        self.lost = self.lost.saturating_add(1);
        Err(Failed)
    }

    fn receive(&mut self, at: u8, into: &mut [u8]) -> Result<Received, Failed>
        ensures bound { ReceivesAtMost result (length into.new) }
        ensures call { AddsLinkCall (Receive at (length into.new) result (brought result into.new)) None None result }
        ensures cause { HasCause self.old.faults self.new.faults result }
        ensures only { OnOk result (self.new.faults ≡ self.old.faults) }
        ensures sends { self.new.lost ≡ self.old.lost }

        // In a pause nothing comes.
        ensures pause { is_of_pause at self.old.pauses ≡ true → (result ≡ Ok Received.Nothing) × (into.new ≡ into.old) }
        // What comes is counted.
        ensures counts { served_by at result ≡ Some at → min (busy_at at self.old.pauses + 1) (2 ^ 32 - 1) ≤ busy_at at self.new.pauses }
    {
        if self.pauses.covers(at) {
            self.before = Some(at);
            return Ok(Received::Nothing);
        }
        self.was_silent = false;
        let answer = self.take_in_time(at, into).ok_or(Failed);
        self.before = Some(at);
        if served_by(at, &answer).is_some() {
            self.pauses.count(at, 1);
        } else if self.was_silent {
            self.pauses.restart(at);
        }
        if answer.is_err() {
            self.faults = self.faults.saturating_add(1);
        }
        answer
    }

    fn waits(&self, at: u8) -> bool {
        self.has_datagram(at)
    }

    fn set_wait(&mut self, milliseconds: u16)
        ensures calls { ◌≡◌ {A = Option (List LinkCall)} None None }
        ensures sends { self.new.lost ≡ self.old.lost }
        ensures receives { self.new.faults ≡ self.old.faults }
        ensures wait { self.new.wait ≡ milliseconds }
        ensures pauses { self.new.pauses ≡ record self.old.pauses { limit = limit_for milliseconds } }
    {
        self.wait = milliseconds;
        self.pauses.set_wait(milliseconds);
    }
}
