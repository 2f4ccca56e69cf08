//! How a client sends its request.
ghost use Rattle.std.specs.Prelude.{◌≡◌, ◌≤◌, length};
ghost use Rattle.mdcc_command_ask.specs.Requests.{is_open, sends, sends_again, sends_if};
ghost use Rattle.mdcc_config.specs.IsConfig.{IsConfig};
ghost use Rattle.mdcc_serve_outbox.specs.Sends.{Hands};

use crate::Order;
use crate::client::{Client, Phase};
use mdcc_config::Config;
use mdcc_frag::FragHead;
use mdcc_link::Link;
use mdcc_serve_outbox::send_datagrams;

impl Client {
    // Whether its request is open.
    fn is_open(&self) -> bool
        ensures { result ≡ is_open self.now.phase }
    {
        matches!(self.phase, Phase::Reading | Phase::Beginning)
    }

    // Sends its request, and answers how many sends failed. Such a datagram is lost.
    fn send<L: Link>(&self, config: &Config, order: &Order, link: &mut L) -> u64
        requires config { IsConfig config.now }
        requires among { order.now.centre ≤ config.now.cluster.quorums.centres }
        requires few { length self.now.known ≤ 16 }
        ensures { Hands L.calls L.lost L.faults (sends config.now order.now self.now) link.old link.new result }
    {
        let head = FragHead {
            sender: order.centre.number() + 16,
            epoch: order.serial,
            serial: self.known.len() as u32 + 1,
        };
        let to = config.client_address(order.centre);
        send_datagrams(link, head, to, self.request.bytes())
    }

    /// Sends its request where that is wanted.
    pub(crate) fn send_if<L: Link>(
        &self,
        config: &Config,
        order: &Order,
        wanted: bool,
        link: &mut L,
    ) -> u64
        requires config { IsConfig config.now }
        requires among { order.now.centre ≤ config.now.cluster.quorums.centres }
        requires few { length self.now.known ≤ 16 }
        ensures { Hands L.calls L.lost L.faults (sends_if config.now order.now wanted self.now) link.old link.new result }
    {
        if !wanted {
            return 0;
        }
        self.send(config, order, link)
    }

    /// Sends its request again, where it is open.
    pub(crate) fn send_again<L: Link>(&self, config: &Config, order: &Order, link: &mut L) -> u64
        requires config { IsConfig config.now }
        requires among { order.now.centre ≤ config.now.cluster.quorums.centres }
        requires few { length self.now.known ≤ 16 }
        ensures { Hands L.calls L.lost L.faults (sends_again config.now order.now self.now) link.old link.new result }
    {
        self.send_if(config, order, self.is_open(), link)
    }
}
