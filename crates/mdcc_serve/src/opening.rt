//! Endpoints are bound and boots told, once the centres run.
ghost use Rattle.std.specs.List.{AllByRecursion};
ghost use Rattle.std.specs.Prelude.{◌≡◌, ◌≤◌, ◌+◌, ◌∷◌, [], IfErr, IfOk, IsErrAnd, ℕ};
ghost use Rattle.mdcc_config.specs.IsConfig.{IsConfig};
ghost use Rattle.mdcc_def_server_runs.specs.Acts.{Act};
ghost use Rattle.mdcc_serve.specs.Centres.{places};
ghost use Rattle.mdcc_serve.specs.Openings.{Binds, FailsToOpen, HasOpened, Lines, binds_of, binds_of_all, boots_told};
ghost use Rattle.mdcc_serve.specs.Refusals.{LacksNode, SaysOfLogs};
ghost use Rattle.mdcc_serve.specs.Stays.{HasRefused, IsLogRefused, NeverServed};
ghost use Rattle.mdcc_serve_site.specs.Moments.{outside};

use crate::starting::start_all;
use mdcc_base::{Address, Centre, Sink};
use mdcc_config::Config;
use mdcc_def_server_runs::ServerLine;
use mdcc_disks::Disks;
use mdcc_link::Link;
use mdcc_serve_site::{ServeFault, Site, print_line};
use std::alloc::Global;

// Binds an endpoint.
fn bind_at<L: Link>(link: &mut L, at: u8, address: Address) -> Result<(), ServeFault>
    ensures { Binds L.calls L.lost L.faults (Act.Bind at address ∷ []) result link.old link.new }
{
    match link.bind(at, address) {
        Ok(()) => Ok(()),
        Err(_) => Err(ServeFault::Link),
    }
}

// Binds the endpoints of a centre: its own, and then its client's.
fn bind<L: Link>(config: &Config, centre: Centre, link: &mut L) -> Result<(), ServeFault>
    requires config { IsConfig config.now }
    requires among { centre ≤ config.now.cluster.quorums.centres }
    ensures { Binds L.calls L.lost L.faults (binds_of config.now centre) result link.old link.new }
{
    bind_at(link, centre.number(), config.centre_address(centre))?;
    bind_at(link, centre.number() + 16, config.client_address(centre))
}

// The same for each centre.
fn bind_all<L: Link>(config: &Config, sites: &[Site], link: &mut L) -> Result<(), ServeFault>
    requires config { IsConfig config.now }
    requires among { AllByRecursion (λ site. site.centre ≤ config.now.cluster.quorums.centres) sites.now }
    ensures { Binds L.calls L.lost L.faults (binds_of_all config.now sites.now) result link.old link.new }
{
    for site in sites {
        bind(config, site.centre, link)?;
    }
    Ok(())
}

// Tells the boots.
fn tell_boots<O: Sink>(alloc: Global, sites: &[Site], out: &mut O) -> Result<(), ServeFault>
    ensures { Lines O.held O.faults (boots_told sites.now) result out.old out.new }
{
    for site in sites {
        let line = ServerLine::Booted(site.centre, site.sender.epoch);
        print_line(alloc, &line, out)?;
    }
    Ok(())
}

/// Starts the centres from one number to another: all logs are opened and all nodes booted before the first endpoint is bound, and
/// the boots are told once all are bound.
pub(crate) fn open<D: Disks, L: Link, O: Sink>(
    alloc: Global,
    config: &Config,
    first: u8,
    last: u8,
    disks: &mut D,
    link: &mut L,
    out: &mut O,
) -> Result<Vec<Site>, ServeFault>
    requires config { IsConfig config.now }
    requires some { 1 ≤ first }
    requires order { first ≤ last }
    requires among { last ≤ config.now.cluster.quorums.centres }
    requires alike { (a : ℕ) → first ≤ a → a ≤ last → (D.disk disks.old (a + 16)).told ≡ (D.disk disks.old a).told }
    ensures opens { IfOk result (λ held. HasOpened (outside config.now.checkpoint D.disk D.may_leave L.calls L.lost L.faults O.held O.faults) config.now first last
        (places disks.old [] link.old out.old) (places disks.new held.items link.new out.new)) }
    ensures fails { IfErr result (λ fault. FailsToOpen (outside config.now.checkpoint D.disk D.may_leave L.calls L.lost L.faults O.held O.faults) D.tears config.now first last fault
        (places disks.old [] link.old out.old) (places disks.new [] link.new out.new)) }
    ensures logs { SaysOfLogs D.disk config.now.cluster disks.old first (last + 1) result }
    ensures refused { IfErr result (λ fault. IsLogRefused fault
        → HasRefused D.disk D.may_leave D.tears L.calls L.lost config.now.cluster first (last + 1) disks.old disks.new link.old link.new out.old out.new) }
    ensures unserved { LacksNode D.disk config.now.cluster disks.old first (last + 1)
        → IsErrAnd result (NeverServed D.disk D.may_leave D.tears config.now.checkpoint L.calls L.lost config.now.cluster first (last + 1) disks.old disks.new link.old link.new out.old out.new) }
{
    let sites = start_all(alloc, config, first, last, disks)?;
    bind_all(config, sites.as_slice(), link)?;
    tell_boots(alloc, sites.as_slice(), out)?;
    Ok(sites)
}
