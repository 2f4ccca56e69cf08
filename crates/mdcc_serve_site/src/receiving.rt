//! What a centre receives.
ghost use Rattle.std.specs.Prelude.{◌≡◌, ◌+◌, Some};
ghost use Rattle.mdcc_config.specs.declared.config.Config.{Config as AConfig};
ghost use Rattle.mdcc_def_messages.specs.WellFormed.{IsWellFormedMessage};
ghost use Rattle.mdcc_node.specs.StepAnswers.{IsInputGiven};
ghost use Rattle.mdcc_option.specs.declared.cluster.Cluster.{Cluster as ACluster};
ghost use Rattle.mdcc_def_rules.specs.declared.node.Input.{Input as AInput};
ghost use Rattle.mdcc_def_server_runs.specs.Arrivals.{is_not_taken};
ghost use Rattle.mdcc_def_server_runs.specs.Sites.{Site as ASite};
ghost use Rattle.mdcc_def_server_runs.specs.Turns.{asked_message, asked_taken, own_message, own_taken};
ghost use Rattle.mdcc_serve_site.specs.SiteState.{Becomes, IsSite, Receives};

use crate::ServeFault;
use crate::site::Site;
use mdcc_config::Config;
use mdcc_def_messages::{Envelope, Message};
use mdcc_link::Link;
use mdcc_serve_inbox::{Datagram, Found, receive, take_datagram};
use mdcc_wire::empty_envelope;
use std::alloc::Global;

// Whether a centre takes no such message: it goes between a node and its client, or its rule is not
// built.
fn is_not_taken(message: &Message) -> bool
    ensures { result ≡ is_not_taken message.now }
{
    matches!(
        message,
        Message::ClientRead { .. }
            | Message::ClientBegin { .. }
            | Message::ClientAnswer { .. }
            | Message::Mark { .. }
            | Message::Finished(_)
    )
}

impl Site {
    // A message came at the own endpoint.
    fn own_message(&mut self, alloc: Global, envelope: &Envelope) -> Result<(), ServeFault>
        requires served { (cluster : ACluster) × (site : ASite) × IsSite cluster self.old site }
        requires input { IsInputGiven (AInput.Message envelope.now) }
        ensures { (config : AConfig) (site : ASite) → IsSite config.cluster self.old site
            → Becomes config.cluster site (own_message config site envelope.now) result self.old self.new }
    {
        if is_not_taken(&envelope.message) {
            self.drop_one();
            return Ok(());
        }
        self.take_message(alloc, envelope)
    }

    // A datagram came at the own endpoint.
    fn take_own(&mut self, alloc: Global, bytes: &[u8]) -> Result<(), ServeFault>
        requires served { (cluster : ACluster) × (site : ASite) × IsSite cluster self.old site }
        ensures { (config : AConfig) (site : ASite) → IsSite config.cluster self.old site
            → Becomes config.cluster site (own_taken config site (Some bytes.now)) result self.old self.new }
    {
        let mut envelope = empty_envelope();
        let Ok(found) = take_datagram(alloc, &mut self.own, bytes, &mut envelope) else {
            return Err(ServeFault::Memory);
        };
        match found {
            Found::Piece => Ok(()),
            Found::Refused => {
                self.drop_one();
                Ok(())
            }
            Found::Message => self.own_message(alloc, &envelope),
        }
    }

    // A message came at the client's endpoint.
    fn asked_message(
        &mut self,
        alloc: Global,
        config: &Config,
        message: &Message,
    ) -> Result<(), ServeFault>
        requires served { (site : ASite) × IsSite config.now.cluster self.old site }
        requires message { IsWellFormedMessage message.now }
        ensures { (site : ASite) → IsSite config.now.cluster self.old site
            → Becomes config.now.cluster site (asked_message config.now site message.now) result self.old self.new }
    {
        match message {
            Message::ClientRead { serial, key } => self.take_read(alloc, *serial, *key),
            Message::ClientBegin { serial, parts } => {
                self.take_begin(alloc, config, *serial, parts.as_slice())
            }
            _ => {
                self.drop_one();
                Ok(())
            }
        }
    }

    // A datagram came at the client's endpoint.
    fn take_asked(&mut self, alloc: Global, config: &Config, bytes: &[u8]) -> Result<(), ServeFault>
        requires served { (site : ASite) × IsSite config.now.cluster self.old site }
        ensures { (site : ASite) → IsSite config.now.cluster self.old site
            → Becomes config.now.cluster site (asked_taken config.now site (Some bytes.now)) result self.old self.new }
    {
        let mut envelope = empty_envelope();
        let Ok(found) = take_datagram(alloc, &mut self.asked, bytes, &mut envelope) else {
            return Err(ServeFault::Memory);
        };
        match found {
            Found::Piece => Ok(()),
            Found::Refused => {
                self.drop_one();
                Ok(())
            }
            Found::Message => self.asked_message(alloc, config, &envelope.message),
        }
    }

    /// Receives at the own endpoint, and takes what came. Answers whether anything did.
    pub(crate) fn receive_own<L: Link>(
        &mut self,
        alloc: Global,
        link: &mut L,
        datagram: &mut Datagram,
    ) -> Result<bool, ServeFault>
        requires served { (cluster : ACluster) × (site : ASite) × IsSite cluster self.old site }
        ensures { (config : AConfig) (site : ASite) → IsSite config.cluster self.old site
            → Receives L.calls L.lost L.faults config.cluster site site.centre (own_taken config site) result link.old link.new self.old self.new }
    {
        match receive(link, self.centre.number(), datagram) {
            Ok(Some(count)) => {
                self.take_own(alloc, &datagram[..count])?;
                Ok(true)
            }
            Ok(None) => Ok(false),
            Err(_) => Err(ServeFault::Link),
        }
    }

    /// The same at its client's.
    pub(crate) fn receive_asked<L: Link>(
        &mut self,
        alloc: Global,
        config: &Config,
        link: &mut L,
        datagram: &mut Datagram,
    ) -> Result<bool, ServeFault>
        requires served { (site : ASite) × IsSite config.now.cluster self.old site }
        ensures { (site : ASite) → IsSite config.now.cluster self.old site
            → Receives L.calls L.lost L.faults config.now.cluster site (site.centre + 16) (asked_taken config.now site) result link.old link.new self.old self.new }
    {
        match receive(link, self.centre.number() + 16, datagram) {
            Ok(Some(count)) => {
                self.take_asked(alloc, config, &datagram[..count])?;
                Ok(true)
            }
            Ok(None) => Ok(false),
            Err(_) => Err(ServeFault::Link),
        }
    }
}
