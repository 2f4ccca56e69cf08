//! The end of a server: what is pending after its last turn goes out.
ghost use Rattle.std.specs.Prelude.{◌≡◌, ◌<◌, length, List, slice_index_or};
ghost use Rattle.mdcc_config.specs.IsConfig.{IsConfig};
ghost use Rattle.mdcc_def_server_runs.specs.Sites.{Site as ASite};
ghost use Rattle.mdcc_serve.specs.Centres.{AllServed, Ascend, HaveEnded, HoldSites, IsServedAt, PersistsAt, places};
ghost use Rattle.mdcc_serve_site.specs.Moments.{outside};
ghost use Rattle.mdcc_serve_site.specs.SiteState.{HoldsSite};
ghost use Rattle.mdcc_serve_site.specs.declared.site.Site.{Site as HeldSite};

use mdcc_base::Sink;
use mdcc_config::Config;
use mdcc_disks::Disks;
use mdcc_link::Link;
use mdcc_serve_site::{ServeFault, Site};
use std::alloc::Global;

// What is pending at the centre at an index goes out.
fn persist_at<D: Disks, L: Link, O: Sink>(
    alloc: Global,
    config: &Config,
    sites: &mut [Site],
    index: usize,
    disks: &mut D,
    link: &mut L,
    out: &mut O,
) -> Result<(), ServeFault>
    requires config { IsConfig config.now }
    requires within { index < length sites.old }
    requires served { IsServedAt (outside config.now.checkpoint D.disk D.may_leave L.calls L.lost L.faults O.held O.faults) config.now.cluster disks.old sites.old index }
    ensures { (one : HeldSite) (site : ASite) → ((d : HeldSite) → slice_index_or sites.old index d ≡ one)
        → HoldsSite (outside config.now.checkpoint D.disk D.may_leave L.calls L.lost L.faults O.held O.faults) config.now.cluster disks.old one site
        → PersistsAt (outside config.now.checkpoint D.disk D.may_leave L.calls L.lost L.faults O.held O.faults) config.now one site index result
        (places disks.old sites.old link.old out.old) (places disks.new sites.new link.new out.new) }
{
    sites[index].persist_then_send(alloc, config, disks, link, out)
}

/// What is pending at each centre goes out.
pub(crate) fn persist_all_then_send<D: Disks, L: Link, O: Sink>(
    alloc: Global,
    config: &Config,
    sites: &mut [Site],
    disks: &mut D,
    link: &mut L,
    out: &mut O,
) -> Result<(), ServeFault>
    requires config { IsConfig config.now }
    requires served { AllServed (outside config.now.checkpoint D.disk D.may_leave L.calls L.lost L.faults O.held O.faults) config.now.cluster disks.old sites.old }
    ensures { (served : List ASite) → HoldSites (outside config.now.checkpoint D.disk D.may_leave L.calls L.lost L.faults O.held O.faults) config.now.cluster disks.old sites.old served → Ascend 0 served
        → HaveEnded (outside config.now.checkpoint D.disk D.may_leave L.calls L.lost L.faults O.held O.faults) config.now served result
        (places disks.old sites.old link.old out.old) (places disks.new sites.new link.new out.new) }
{
    for index in 0..sites.len() {
        persist_at(alloc, config, sites, index, disks, link, out)?;
    }
    Ok(())
}
