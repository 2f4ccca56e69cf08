//! Messages and runs for tests.
ghost use Rattle.std.specs.Prelude.{◌≡◌, ◌≤◌, ◌+◌, IfSome, ℕ};
ghost use Rattle.mdcc_config.specs.IsConfig.{IsConfig};
ghost use Rattle.mdcc_disks.specs.Memory.{disk_of};
ghost use Rattle.mdcc_wire.specs.Counts.{HasMessageCounts};

use mdcc_base::{BoundedList, Centre, Key, MemorySink};
use mdcc_config::{Config, read_config};
use mdcc_def_messages::{Envelope, Message};
use mdcc_disks::MemoryDisks;
use mdcc_frag::{FragHead, split};
use mdcc_link::MemoryLink;
use mdcc_option::{Item, Part, Update};
use mdcc_serve::{ServeFault, Served, serve_cluster, serve_node};
use mdcc_wire::encode;
use std::alloc::Global;

/// One centre.
pub(crate) const ONE: &[u8] =
    b"{\"centres\":1,\"classic\":1,\"fast\":1,\"gamma\":100,\"bounds\":[[0,1000]],\"hosts\":[\"127.0.0.1\"],\"port\":9000}";

// The same with few cells.
const SMALL: &[u8] =
    b"{\"centres\":1,\"classic\":1,\"fast\":1,\"gamma\":100,\"bounds\":[[0,1000]],\"hosts\":[\"127.0.0.1\"],\"port\":9000,\"cells\":100}";

/// A begin of the client of centre 1 that inserts `a` with value 10.
pub(crate) fn begin(serial: u32) -> Option<Envelope>
    ensures { IfSome result (λ envelope. HasMessageCounts envelope.message) }
{
    let mut values = BoundedList::new();
    values.push(10);
    let item = Item {
        body: BoundedList::new(),
        values,
    };
    let part = Part {
        key: Key::new(b"a")?,
        version: 0,
        update: Update::Write(item, BoundedList::new()),
    };
    let mut parts = BoundedList::new();
    parts.push(part);
    Some(Envelope {
        from: 17,
        to: 1,
        message: Message::ClientBegin { serial, parts },
    })
}

/// Lets the datagram of a short message wait at an endpoint.
pub(crate) fn put_bytes(
    link: &mut MemoryLink,
    at: u8,
    sender: u8,
    serial: u32,
    bytes: &[u8],
) -> bool {
    if bytes.len() > 1383 || bytes.is_empty() {
        return false;
    }
    let head = FragHead {
        sender,
        epoch: 7,
        serial,
    };
    let mut datagram = [0u8; 1400];
    let size = split(bytes, head, 0, &mut datagram);
    link.put(at, &datagram[..size]).is_ok()
}

/// Lets the datagram of a message wait at an endpoint.
pub(crate) fn put(
    alloc: Global,
    link: &mut MemoryLink,
    at: u8,
    serial: u32,
    envelope: &Envelope,
) -> bool
    requires { HasMessageCounts envelope.now.message }
{
    let mut bytes = Vec::new(alloc);
    if encode(envelope, &mut bytes).is_err() {
        return false;
    }
    put_bytes(link, at, envelope.from, serial, &bytes)
}

// A configuration.
fn new_config(alloc: Global, text: &[u8]) -> Option<Config>
    ensures { IfSome result IsConfig }
{
    match read_config(alloc, text) {
        Ok(config) => Some(config),
        Err(_) => None,
    }
}

// Disks of nine centres, where the calls of these numbers fail.
fn new_disks(alloc: Global, script: &[u32]) -> Option<MemoryDisks>
    ensures { IfSome result (λ disks. (a : ℕ) → 1 ≤ a → a ≤ 9 → (disk_of disks (a + 16)).told ≡ (disk_of disks a).told) }
{
    match MemoryDisks::new(alloc, 25, script) {
        Ok(disks) => Some(disks),
        Err(_) => None,
    }
}

/// Serves all centres of a configuration over new disks, where the calls of these numbers fail.
pub(crate) fn serve_all(
    alloc: Global,
    text: &[u8],
    turns: u32,
    script: &[u32],
    link: &mut MemoryLink,
    out: &mut MemorySink,
) -> Option<Result<Served, ServeFault>> {
    let config = new_config(alloc, text)?;
    let mut disks = new_disks(alloc, script)?;
    Some(serve_cluster(alloc, &config, turns, &mut disks, link, out))
}

/// Serves its first centre so.
pub(crate) fn serve_first(
    alloc: Global,
    text: &[u8],
    turns: u32,
    link: &mut MemoryLink,
    out: &mut MemorySink,
) -> Option<Result<Served, ServeFault>> {
    let config = new_config(alloc, text)?;
    let mut disks = new_disks(alloc, &[])?;
    let centre = Centre::new(1)?;
    Some(serve_node(alloc, &config, centre, turns, &mut disks, link, out))
}

/// Eight turns of one centre whose client begins, where the calls of these numbers fail.
pub(crate) fn run_begin(
    alloc: Global,
    disks: &[u32],
    link: &[u32],
    out: &[u32],
) -> Option<(Result<Served, ServeFault>, MemorySink)> {
    let mut link = MemoryLink::new(alloc, link).ok()?;
    let mut out = MemorySink::new(alloc, out).ok()?;
    if !put(alloc, &mut link, 17, 1, &begin(7)?) {
        return None;
    }
    let served = serve_all(alloc, SMALL, 8, disks, &mut link, &mut out)?;
    Some((served, out))
}
