//! A turn of a centre.
ghost use Rattle.std.specs.Prelude.{◌≡◌, ◌≢◌, ◌&&◌, false, not, true};
ghost use Rattle.mdcc_config.specs.IsConfig.{IsConfig};
ghost use Rattle.mdcc_config.specs.declared.config.Config.{Config as AConfig};
ghost use Rattle.mdcc_option.specs.declared.cluster.Cluster.{Cluster as ACluster};
ghost use Rattle.mdcc_def_server_runs.specs.Sites.{Pending as APending, Site as ASite};
ghost use Rattle.mdcc_def_server_runs.specs.Turns.{Given, is_full, released, turn_of};
ghost use Rattle.mdcc_serve_outbox.specs.Shows.{count_limited};
ghost use Rattle.mdcc_serve_site.specs.AnyMoment.{LeavesEither};
ghost use Rattle.mdcc_serve_site.specs.Moments.{outside};
ghost use Rattle.mdcc_serve_site.specs.PendingBytes.{pending_bytes};
ghost use Rattle.mdcc_serve_site.specs.SiteState.{Becomes, Goes, HoldsSite, IsServed, IsSite, place};
ghost use Rattle.mdcc_serve_site.specs.Silence.{ticked_if};
ghost use Rattle.mdcc_serve_site.specs.Waiting.{MayWait};

use crate::ServeFault;
use crate::pending::PendingBytes;
use crate::site::Site;
use mdcc_base::{Centre, Sink};
use mdcc_config::Config;
use mdcc_disks::Disks;
use mdcc_link::Link;
use mdcc_serve_inbox::Datagram;
use std::alloc::Global;

/// With so many bytes of pending facts and messages no more inputs are taken before they go out.
const PENDING_LIMIT: u64 = 262_144;

// Whether they go out at once, whatever waits.
fn is_full(pending: &PendingBytes) -> bool
    ensures { (made : APending) → pending.now ≡ pending_bytes made → result ≡ is_full made }
{
    pending.size() >= PENDING_LIMIT
}

// Whether nothing came at either endpoint.
fn is_silent(own: bool, asked: bool) -> bool
    ensures { result ≡ (not own && not asked) }
{
    !own && !asked
}

// Whether a datagram waits at one of the endpoints of a centre.
fn more_waits<L: Link>(link: &L, centre: Centre) -> bool
    ensures { MayWait (L.waiting link.now) centre result }
{
    let own = centre.number();
    link.waits(own) || link.waits(own + 16)
}

impl Site {
    // Time passes where nothing came.
    fn tick_if(&mut self, alloc: Global, silent: bool) -> Result<(), ServeFault>
        requires served { (cluster : ACluster) × (site : ASite) × IsSite cluster self.old site }
        ensures { (config : AConfig) (site : ASite) → IsSite config.cluster self.old site
            → Becomes config.cluster site (ticked_if config silent site) result self.old self.new }
    {
        if silent { self.tick(alloc) } else { Ok(()) }
    }

    // Whether what came made a step, since there were so many.
    fn made_step(&self, silent: bool, steps: u64) -> bool
        ensures { result ≡ true → (silent ≡ false) × (count_limited self.now.steps ≢ count_limited steps) }
    {
        !silent && self.steps != steps
    }

    // Whether what is pending stays so: what came made a step, more waits, and not much is pending. Where nothing is, it asks for nothing.
    fn is_held<L: Link>(&self, link: &L, made_step: bool) -> bool
        ensures waits { MayWait (L.waiting link.now) self.now.centre result }
        ensures made_step { result ≡ true → made_step ≡ true }
        ensures few { (made : APending) → self.now.pending ≡ pending_bytes made → result ≡ true → is_full made ≡ false }
    {
        made_step
            && !self.pending.is_empty()
            && !is_full(&self.pending)
            && more_waits(link, self.centre)
    }

    // What is pending goes out, unless it is held back.
    fn release<D: Disks, L: Link, O: Sink>(
        &mut self,
        alloc: Global,
        config: &Config,
        disks: &mut D,
        link: &mut L,
        out: &mut O,
        held: bool,
    ) -> Result<(), ServeFault>
        requires config { IsConfig config.now }
        requires served { IsServed (outside config.now.checkpoint D.disk D.may_leave L.calls L.lost L.faults O.held O.faults) config.now.cluster disks.old self.old }
        ensures goes { (site : ASite) → HoldsSite (outside config.now.checkpoint D.disk D.may_leave L.calls L.lost L.faults O.held O.faults) config.now.cluster disks.old self.old site
            → Goes (outside config.now.checkpoint D.disk D.may_leave L.calls L.lost L.faults O.held O.faults) config.now.cluster site (released config.now held site) result
            (place disks.old self.old link.old out.old) (place disks.new self.new link.new out.new) }
        ensures any_moment { (site : ASite) → HoldsSite (outside config.now.checkpoint D.disk D.may_leave L.calls L.lost L.faults O.held O.faults) config.now.cluster disks.old self.old site
            → LeavesEither D.disk D.moment D.left_since site.centre site.logged (released config.now held site).site.logged disks.old disks.new }
        ensures untouched { held ≡ true → link.new ≡ link.old }
    {
        if held {
            return Ok(());
        }
        self.persist_then_send(alloc, config, disks, link, out)
    }

    /// One turn: it receives at both endpoints, and where neither gave anything time passes. What came at the own one is taken before
    /// it receives at its client's. Then what is pending goes out, unless what came made a step, the facts and messages that are pending
    /// have less than 262,144 bytes, and a datagram waits at one of the endpoints: so many facts become durable together. Where nothing came, or what came
    /// made no step, nothing is held back; nor is it where the link knows that nothing waits. A crash at any moment of the turn leaves
    /// the log from before it, or that from after it.
    pub fn turn<D: Disks, L: Link, O: Sink>(
        &mut self,
        alloc: Global,
        config: &Config,
        disks: &mut D,
        link: &mut L,
        out: &mut O,
        datagram: &mut Datagram,
    ) -> Result<(), ServeFault>
        requires config { IsConfig config.now }
        requires served { IsServed (outside config.now.checkpoint D.disk D.may_leave L.calls L.lost L.faults O.held O.faults) config.now.cluster disks.old self.old }
        ensures { (site : ASite) → HoldsSite (outside config.now.checkpoint D.disk D.may_leave L.calls L.lost L.faults O.held O.faults) config.now.cluster disks.old self.old site
            → (given : Given) × Goes (outside config.now.checkpoint D.disk D.may_leave L.calls L.lost L.faults O.held O.faults) config.now.cluster site (turn_of config.now site given) result
            (place disks.old self.old link.old out.old) (place disks.new self.new link.new out.new) × MayWait (L.waiting link.new) site.centre given.waits
            × LeavesEither D.disk D.moment D.left_since site.centre site.logged (turn_of config.now site given).site.logged disks.old disks.new }
    {
        let steps = self.steps;
        let own = self.receive_own(alloc, link, datagram)?;
        let asked = self.receive_asked(alloc, config, link, datagram)?;
        let silent = is_silent(own, asked);
        self.tick_if(alloc, silent)?;
        let made_step = self.made_step(silent, steps);
        let held = self.is_held(link, made_step);
        self.release(alloc, config, disks, link, out, held)
    }
}
