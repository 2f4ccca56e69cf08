//! The turns of a client.
ghost use Rattle.std.specs.Prelude.{◌≡◌, ◌≤◌, [], IfErr, IfOk, IfSome, List, OnErr, OnOk, Option, length, true, ℕ};
ghost use Rattle.mdcc_command_ask.specs.Acts.{at_link};
ghost use Rattle.mdcc_command_ask.specs.Asking.{arrival_taken, bound_for, bytes_taken, came, client_starts, client_turn, client_turns, end_text, new_client, reaction_made, whole_asking};
ghost use Rattle.mdcc_command_ask.specs.Effects.{AskFaultComesAt, Asks, Does, HasCauses, Prints, Turned, client_failed_next};
ghost use Rattle.mdcc_command_ask.specs.Orders.{IsOrder};
ghost use Rattle.mdcc_command_ask.specs.Requests.{reaction_of};
ghost use Rattle.mdcc_command_ask.specs.declared.fault.AskFault.{AskFault as AAskFault};
ghost use Rattle.mdcc_base.specs.Causes.{HasCause};
ghost use Rattle.mdcc_config.specs.IsConfig.{IsConfig};
ghost use Rattle.mdcc_serve_inbox.specs.Finds.{arrival_of_found, bytes_given};
ghost use Rattle.mdcc_serve_outbox.specs.Shows.{Records, calls_of};

use crate::client::Client;
use crate::reply::Reply;
use crate::{AskFault, Order};
use mdcc_base::{Memory, Sink, write_all};
use mdcc_config::Config;
use mdcc_def_messages::Envelope;
use mdcc_link::Link;
use mdcc_option::Schema;
use mdcc_serve_inbox::{Datagram, Found, receive, take_datagram};
use mdcc_wire::empty_envelope;
use std::alloc::Global;

// Binds the endpoint at which the answers come.
fn bind<L: Link>(config: &Config, order: &Order, link: &mut L) -> Result<(), AskFault>
    requires config { IsConfig config.now }
    requires among { order.now.centre ≤ config.now.cluster.quorums.centres }
    ensures bound { OnOk result (Records (calls_of (bound_for config.now order.now)) (L.calls link.old) (L.calls link.new)) }
    ensures failed { OnErr result (Records (client_failed_next (at_link (bound_for config.now order.now))) (L.calls link.old) (L.calls link.new)) }
    ensures fault { IfErr result (λ fault. fault ≡ AAskFault.Link) }
    ensures comes { AskFaultComesAt AAskFault.Link (at_link (bound_for config.now order.now)) }
    ensures cause { HasCause (L.faults link.old) (L.faults link.new) result }
{
    let address = config.answer_address(order.centre);
    match link.bind(order.centre.number() + 16, address) {
        Ok(()) => Ok(()),
        Err(_) => Err(AskFault::Link),
    }
}

// Prints a text.
fn print<O: Sink>(out: &mut O, text: &[u8]) -> Result<(), AskFault>
    ensures { Prints O.held O.faults text.now result out.old out.new }
{
    match write_all(out, text) {
        Ok(()) => Ok(()),
        Err(_) => Err(AskFault::Output),
    }
}

impl Client {
    // Prints what a reply says, and sends the request where it is new.
    fn make<L: Link, O: Sink>(
        &self,
        config: &Config,
        order: &Order,
        reply: &Reply,
        link: &mut L,
        out: &mut O,
    ) -> Result<(), AskFault>
        requires config { IsConfig config.now }
        requires among { order.now.centre ≤ config.now.cluster.quorums.centres }
        requires few { length self.now.known ≤ 16 }
        ensures does { Does L.calls O.held (reaction_made config.now order.now (reaction_of reply.now self.now)) result link.old link.new out.old out.new self.now }
        ensures causes { HasCauses L.faults O.faults result link.old link.new out.old out.new }
    {
        print(out, reply.text.as_slice())?;
        self.send_if(config, order, reply.sends, link);
        Ok(())
    }

    // What comes of what is found in a datagram.
    fn take_found(
        &mut self,
        alloc: Global,
        schema: &Schema,
        order: &Order,
        found: Found,
        envelope: &Envelope,
    ) -> Result<Reply, Memory>
        requires { length self.old.known ≤ 16 }
        ensures { IfOk result (λ reply. reaction_of reply self.new ≡ arrival_taken schema.now order.now self.old (arrival_of_found found envelope.now)) }
    {
        match found {
            Found::Message => self.take_message(alloc, schema, order, envelope),
            Found::Piece => Ok(Reply::idle(alloc)),
            Found::Refused => Ok(Reply::idle(alloc)),
        }
    }

    // What comes of a datagram.
    fn take_bytes(
        &mut self,
        alloc: Global,
        schema: &Schema,
        order: &Order,
        bytes: &[u8],
    ) -> Result<Reply, Memory>
        requires { length self.old.known ≤ 16 }
        ensures { IfOk result (λ reply. reaction_of reply self.new ≡ bytes_taken schema.now order.now self.old bytes.now) }
    {
        let mut envelope = empty_envelope();
        let found = take_datagram(alloc, &mut self.joiner, bytes, &mut envelope)?;
        self.take_found(alloc, schema, order, found, &envelope)
    }

    // What comes of a receive. Where it brought nothing, the open request is sent again.
    fn take_received<L: Link, O: Sink>(
        &mut self,
        alloc: Global,
        config: &Config,
        order: &Order,
        count: Option<usize>,
        datagram: &Datagram,
        link: &mut L,
        out: &mut O,
    ) -> Result<(), AskFault>
        requires config { IsConfig config.now }
        requires among { order.now.centre ≤ config.now.cluster.quorums.centres }
        requires order { IsOrder order.now }
        requires few { length self.old.known ≤ length order.now.keys }
        requires bound { IfSome count (λ n. n ≤ 1401) }
        ensures does { Does L.calls O.held (came config.now order.now (bytes_given count datagram.now) self.old) result link.old link.new out.old out.new self.new }
        ensures causes { HasCauses L.faults O.faults result link.old link.new out.old out.new }
        ensures few { OnOk result (length self.new.known ≤ length order.now.keys) }
    {
        let Some(count) = count else {
            self.send_again(config, order, link);
            return Ok(());
        };
        let reply = self.take_bytes(alloc, &config.cluster.schema, order, &datagram[..count])?;
        self.make(config, order, &reply, link, out)
    }

    // One turn.
    fn turn<L: Link, O: Sink>(
        &mut self,
        alloc: Global,
        config: &Config,
        order: &Order,
        link: &mut L,
        out: &mut O,
    ) -> Result<(), AskFault>
        requires config { IsConfig config.now }
        requires among { order.now.centre ≤ config.now.cluster.quorums.centres }
        requires order { IsOrder order.now }
        requires few { length self.old.known ≤ length order.now.keys }
        ensures does { (gave : Option (List ℕ)) × Does L.calls O.held (client_turn config.now order.now self.old gave) result link.old link.new out.old out.new self.new }
        ensures causes { HasCauses L.faults O.faults result link.old link.new out.old out.new }
        ensures few { OnOk result (length self.new.known ≤ length order.now.keys) }
    {
        let mut datagram: Datagram = [0; 1401];
        match receive(link, order.centre.number() + 16, &mut datagram) {
            Ok(count) => self.take_received(alloc, config, order, count, &datagram, link, out),
            Err(_) => Err(AskFault::Link),
        }
    }

    // So many turns, or fewer where all is answered before.
    fn turns<L: Link, O: Sink>(
        &mut self,
        alloc: Global,
        config: &Config,
        order: &Order,
        turns: u32,
        link: &mut L,
        out: &mut O,
    ) -> Result<(), AskFault>
        requires config { IsConfig config.now }
        requires among { order.now.centre ≤ config.now.cluster.quorums.centres }
        requires order { IsOrder order.now }
        requires few { length self.old.known ≤ length order.now.keys }
        ensures does { Turned L.calls O.held (λ given. client_turns config.now order.now given self.old) turns result link.old link.new out.old out.new self.new }
        ensures causes { HasCauses L.faults O.faults result link.old link.new out.old out.new }
    {
        for index in 0..turns {
            if self.is_answered() {
                return Ok(());
            }
            self.turn(alloc, config, order, link, out)?;
        }
        Ok(())
    }

    // The first request, once the endpoint is bound.
    fn start<L: Link, O: Sink>(
        &mut self,
        alloc: Global,
        config: &Config,
        order: &Order,
        link: &mut L,
        out: &mut O,
    ) -> Result<(), AskFault>
        requires config { IsConfig config.now }
        requires among { order.now.centre ≤ config.now.cluster.quorums.centres }
        requires new { self.old ≡ new_client }
        ensures does { Does L.calls O.held (client_starts config.now order.now) result link.old link.new out.old out.new self.new }
        ensures causes { HasCauses L.faults O.faults result link.old link.new out.old out.new }
        ensures none { OnOk result (self.new.known ≡ []) }
    {
        bind(config, order, link)?;
        let reply = self.go_on(alloc, &config.cluster.schema, order)?;
        self.make(config, order, &reply, link, out)
    }

    // What it prints at the end: that the turns are over first.
    fn end_text(&self) -> &'static str
        ensures { result.now ≡ end_text true self.now.phase }
    {
        if self.is_answered() {
            ""
        } else {
            "unanswered\n"
        }
    }

    // Prints that.
    fn end<O: Sink>(&self, out: &mut O) -> Result<(), AskFault>
        ensures { Prints O.held O.faults (end_text true self.now.phase) result out.old out.new }
    {
        print(out, self.end_text().as_bytes())
    }
}

/// Asks a centre for what an order wants, in so many turns, and prints the answers, or `unanswered` where the turns are over
/// first. What was sent and printed before a fault stands.
pub fn ask<L: Link, O: Sink>(
    alloc: Global,
    config: &Config,
    order: &Order,
    turns: u32,
    link: &mut L,
    out: &mut O,
) -> Result<(), AskFault>
    requires config { IsConfig config.now }
    requires among { order.now.centre ≤ config.now.cluster.quorums.centres }
    requires order { IsOrder order.now }
    ensures asks { Asks L.calls O.held (whole_asking config.now order.now turns) turns result link.old link.new out.old out.new }
    ensures causes { HasCauses L.faults O.faults result link.old link.new out.old out.new }
{
    let mut client = Client::new(alloc)?;
    client.start(alloc, config, order, link, out)?;
    client.turns(alloc, config, order, turns, link, out)?;
    client.end(out)
}
