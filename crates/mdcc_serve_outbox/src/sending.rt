//! How a centre sends its messages.
ghost use Rattle.std.specs.Prelude.{◌≡◌, ◌≤◌, ◌+◌, ◌∷◌, [], if◌then◌else◌, length, List, None, Ok, OnErr, OnOk, Some, ◌-◌, ◌^◌};
ghost use Rattle.std.specs.List.{AllByRecursion};
ghost use Rattle.mdcc_config.specs.IsConfig.{IsConfig};
ghost use Rattle.mdcc_frag.specs.Datagrams.{message_limit};
ghost use Rattle.mdcc_serve_outbox.specs.Outgoing.{CanGo, all_sent, outgoing_sent};
ghost use Rattle.mdcc_serve_outbox.specs.Sends.{Hands, IsPast, IsSenderOf, IsSending, Sends};
ghost use Rattle.mdcc_serve_outbox.specs.Shows.{count_limited};
ghost use Rattle.mdcc_def_protocol.specs.Belongs.{is_centre};
ghost use Rattle.mdcc_def_server_runs.specs.Acts.{Act};
ghost use Rattle.mdcc_def_server_runs.specs.Sending.{address_to, answer_to, datagrams_sent, next_head};
ghost use Rattle.mdcc_def_server_runs.specs.Sites.{Site};

use crate::{OutOfSerials, Outgoing};
use mdcc_base::{Address, Centre};
use mdcc_config::Config;
use mdcc_def_messages::{ClientAnswer, Envelope, Message};
use mdcc_frag::{FragHead, count, split};
use mdcc_link::Link;

/// What a centre has sent in its epoch, and how much of it was lost. The count of what was lost stands still at its end.
#[derive(Drop)]
pub struct Sender {
    pub centre: Centre,
    pub epoch: u32,
    pub sent: u32,
    pub lost: u64,
}

/// The centre of a number, where it is of the cluster.
pub fn centre_of(config: &Config, number: u8) -> Option<Centre>
    requires { IsConfig config.now }
    ensures { result ≡ if is_centre config.now.cluster number then Some number else None }
{
    let centre = Centre::new(number)?;
    if number <= config.cluster.quorums.centres() {
        Some(centre)
    } else {
        None
    }
}

// Where messages to an endpoint are sent.
fn address_to(config: &Config, to: u8) -> Option<Address>
    requires { IsConfig config.now }
    ensures { result ≡ address_to config.now to }
{
    if let Some(centre) = centre_of(config, to) {
        return Some(config.centre_address(centre));
    }
    match centre_of(config, to.saturating_sub(16)) {
        Some(centre) => Some(config.answer_address(centre)),
        None => None,
    }
}

// Hands a datagram to the link, and answers how many sends failed: one or none.
fn send_one<L: Link>(link: &mut L, from: u8, to: Address, bytes: &[u8]) -> u64
    ensures handed { Hands L.calls L.lost L.faults (Act.Send from to bytes.now (Ok tt) ∷ []) link.old link.new result }
    ensures one { result ≤ 1 }
{
    match link.send(from, to, bytes) {
        Ok(()) => 0,
        Err(_) => 1,
    }
}

/// Hands the datagrams of a message to the link, and answers how many sends failed. Such a datagram is lost.
pub fn send_datagrams<L: Link>(link: &mut L, head: FragHead, to: Address, message: &[u8]) -> u64
    requires { length message.now ≤ message_limit }
    ensures { Hands L.calls L.lost L.faults (datagrams_sent head to message.now) link.old link.new result }
{
    let mut failed = 0;
    let mut datagram = [0u8; 1400];
    for index in 0..count(message.len()) {
        let size = split(message, head, index, &mut datagram);
        failed += send_one(link, head.sender, to, &datagram[..size]);
    }
    failed
}

/// An answer to the client of a centre.
pub fn answer_to(centre: Centre, serial: u32, answer: ClientAnswer) -> Envelope
    ensures { result ≡ answer_to centre serial answer }
{
    Envelope {
        from: centre.number(),
        to: centre.number() + 16,
        message: Message::ClientAnswer { serial, answer },
    }
}

impl Sender {
    // Sends the bytes of a message under the next serial.
    fn send_bytes<L: Link>(
        &mut self,
        link: &mut L,
        to: Address,
        message: &[u8],
    ) -> Result<(), OutOfSerials>
        requires { length message.now ≤ message_limit }
        ensures sent { (site : Site) → IsSenderOf self.old site
            → OnOk result (Sends L.calls L.lost L.faults (datagrams_sent (next_head site) to message.now) [] link.old link.new self.old.lost self.new.lost) }
        ensures next { (site : Site) → IsSenderOf self.old site → OnOk result (IsSenderOf self.new (record site { sent = site.sent + 1 })) }
        ensures last { OnErr result (self.old.sent ≡ 2 ^ 32 - 1) }
        ensures unsent { OnErr result (link.new ≡ link.old) }
        ensures same { OnErr result (self.new ≡ self.old) }
    {
        if self.sent == u32::MAX {
            return Err(OutOfSerials);
        }
        self.sent += 1;
        let head = FragHead {
            sender: self.centre.number(),
            epoch: self.epoch,
            serial: self.sent,
        };
        let failed = send_datagrams(link, head, to, message);
        self.lost = self.lost.saturating_add(failed);
        Ok(())
    }

    // A message cannot be sent.
    fn lose(&mut self)
        ensures { self.new ≡ record self.old { lost = count_limited (self.old.lost + 1) } }
    {
        self.lost = self.lost.saturating_add(1);
    }

    /// Sends a message: its datagrams under the next serial, whatever the link answers. One that is too long, or goes to no centre
    /// of the cluster, counts as lost. Nothing is sent of one for which no serial is left.
    pub fn send<L: Link>(
        &mut self,
        config: &Config,
        link: &mut L,
        message: &Outgoing,
    ) -> Result<(), OutOfSerials>
        requires config { IsConfig config.now }
        requires few { CanGo message.now }
        ensures sent { (site : Site) → IsSenderOf self.old site
            → OnOk result (Sends L.calls L.lost L.faults (outgoing_sent config.now site message.now).acts [] link.old link.new self.old.lost self.new.lost) }
        ensures next { (site : Site) → IsSenderOf self.old site → OnOk result (IsSenderOf self.new (outgoing_sent config.now site message.now).site) }
        ensures last { OnErr result (self.old.sent ≡ 2 ^ 32 - 1) }
        ensures first { (site : Site) → IsSenderOf self.old site → OnErr result (IsSending (outgoing_sent config.now site message.now).acts) }
        ensures past { (site : Site) → IsSenderOf self.old site → OnErr result (IsPast (outgoing_sent config.now site message.now).site) }
        ensures unsent { OnErr result (link.new ≡ link.old) }
        ensures same { OnErr result (self.new ≡ self.old) }
    {
        let Some(to) = address_to(config, message.to) else {
            self.lose();
            return Ok(());
        };
        match &message.bytes {
            Some(bytes) => self.send_bytes(link, to, bytes.as_slice()),
            None => {
                self.lose();
                Ok(())
            }
        }
    }

    /// Sends messages in order, up to the first for which no serial is left.
    pub fn send_all<L: Link>(
        &mut self,
        config: &Config,
        link: &mut L,
        messages: &[Outgoing],
    ) -> Result<(), OutOfSerials>
        requires config { IsConfig config.now }
        requires few { AllByRecursion CanGo messages.now }
        ensures sent { (site : Site) → IsSenderOf self.old site
            → OnOk result (Sends L.calls L.lost L.faults (all_sent config.now site messages.now).acts [] link.old link.new self.old.lost self.new.lost) }
        ensures next { (site : Site) → IsSenderOf self.old site → OnOk result (IsSenderOf self.new (all_sent config.now site messages.now).site) }
        ensures last { OnErr result (self.new.sent ≡ 2 ^ 32 - 1) }
        ensures serial { (site : Site) → IsSenderOf self.old site → OnErr result
            ((rest : List Act) × IsSending rest × Sends L.calls L.lost L.faults (all_sent config.now site messages.now).acts rest link.old link.new self.old.lost self.new.lost) }
        ensures past { (site : Site) → IsSenderOf self.old site → OnErr result (IsPast (all_sent config.now site messages.now).site) }
    {
        for message in messages {
            self.send(config, link, message)?;
        }
        Ok(())
    }
}
