//! The turns of a server.
ghost use Rattle.std.specs.Prelude.{◌≡◌, ◌<◌, length, List, slice_index_or};
ghost use Rattle.mdcc_config.specs.IsConfig.{IsConfig};
ghost use Rattle.mdcc_def_server_runs.specs.Sites.{Site as ASite};
ghost use Rattle.mdcc_serve.specs.Centres.{AllServed, Ascend, HaveTurn, HaveTurns, HoldSites, IsServedAt, TurnsAt, places};
ghost use Rattle.mdcc_serve_site.specs.Moments.{outside};
ghost use Rattle.mdcc_serve_site.specs.SiteState.{HoldsSite};
ghost use Rattle.mdcc_serve_site.specs.declared.site.Site.{Site as HeldSite};

use mdcc_base::Sink;
use mdcc_config::Config;
use mdcc_disks::Disks;
use mdcc_link::Link;
use mdcc_serve_inbox::Datagram;
use mdcc_serve_site::{ServeFault, Site};
use std::alloc::Global;

// One turn of the centre at an index.
fn turn_at<D: Disks, L: Link, O: Sink>(
    alloc: Global,
    config: &Config,
    sites: &mut [Site],
    index: usize,
    disks: &mut D,
    link: &mut L,
    out: &mut O,
    datagram: &mut Datagram,
) -> Result<(), ServeFault>
    requires config { IsConfig config.now }
    requires within { index < length sites.old }
    requires served { IsServedAt (outside config.now.checkpoint D.disk D.may_leave L.calls L.lost L.faults O.held O.faults) config.now.cluster disks.old sites.old index }
    ensures { (one : HeldSite) (site : ASite) → ((d : HeldSite) → slice_index_or sites.old index d ≡ one)
        → HoldsSite (outside config.now.checkpoint D.disk D.may_leave L.calls L.lost L.faults O.held O.faults) config.now.cluster disks.old one site
        → TurnsAt (outside config.now.checkpoint D.disk D.may_leave L.calls L.lost L.faults O.held O.faults) L.waiting config.now one site index result
        (places disks.old sites.old link.old out.old) (places disks.new sites.new link.new out.new) }
{
    sites[index].turn(alloc, config, disks, link, out, datagram)
}

// One turn of each centre.
fn turn_of_all<D: Disks, L: Link, O: Sink>(
    alloc: Global,
    config: &Config,
    sites: &mut [Site],
    disks: &mut D,
    link: &mut L,
    out: &mut O,
    datagram: &mut Datagram,
) -> Result<(), ServeFault>
    requires config { IsConfig config.now }
    requires served { AllServed (outside config.now.checkpoint D.disk D.may_leave L.calls L.lost L.faults O.held O.faults) config.now.cluster disks.old sites.old }
    ensures { (served : List ASite) → HoldSites (outside config.now.checkpoint D.disk D.may_leave L.calls L.lost L.faults O.held O.faults) config.now.cluster disks.old sites.old served → Ascend 0 served
        → HaveTurn (outside config.now.checkpoint D.disk D.may_leave L.calls L.lost L.faults O.held O.faults) config.now served result
        (places disks.old sites.old link.old out.old) (places disks.new sites.new link.new out.new) }
{
    for index in 0..sites.len() {
        turn_at(alloc, config, sites, index, disks, link, out, datagram)?;
    }
    Ok(())
}

/// So many turns of each centre.
pub(crate) fn make_turns<D: Disks, L: Link, O: Sink>(
    alloc: Global,
    config: &Config,
    sites: &mut [Site],
    turns: u32,
    disks: &mut D,
    link: &mut L,
    out: &mut O,
) -> Result<(), ServeFault>
    requires config { IsConfig config.now }
    requires served { AllServed (outside config.now.checkpoint D.disk D.may_leave L.calls L.lost L.faults O.held O.faults) config.now.cluster disks.old sites.old }
    ensures { (served : List ASite) → HoldSites (outside config.now.checkpoint D.disk D.may_leave L.calls L.lost L.faults O.held O.faults) config.now.cluster disks.old sites.old served → Ascend 0 served
        → HaveTurns (outside config.now.checkpoint D.disk D.may_leave L.calls L.lost L.faults O.held O.faults) config.now served turns result
        (places disks.old sites.old link.old out.old) (places disks.new sites.new link.new out.new) }
{
    let mut datagram: Datagram = [0; 1401];
    for _turn in 0..turns {
        turn_of_all(alloc, config, sites, disks, link, out, &mut datagram)?;
    }
    Ok(())
}
