//! The calls that serve one centre or all.
ghost use Rattle.std.specs.List.{range_with_len};
ghost use Rattle.std.specs.Prelude.{◌≡◌, ◌≤◌, ◌<◌, ◌+◌, ◌^◌, ◌∷◌, [], IfErr, IsErrAnd, IsErrOf, List, length, map, ℕ};
ghost use Rattle.mdcc_log_file.specs.Both.{RoseAtOne};
ghost use Rattle.mdcc_base.specs.Causes.{Rose};
ghost use Rattle.mdcc_config.specs.IsConfig.{IsConfig};
ghost use Rattle.mdcc_command_endings.specs.Logs.{AreAreasTold};
ghost use Rattle.mdcc_def_server_runs.specs.Acts.{Act};
ghost use Rattle.mdcc_def_server_runs.specs.Servers.{Log};
ghost use Rattle.mdcc_def_server_runs.specs.Sites.{Site as ASite};
ghost use Rattle.mdcc_serve.specs.Centres.{AllServed, Ascend, HoldSites, all_seen, places};
ghost use Rattle.mdcc_serve.specs.Ends.{AllEnd, SerialsFit};
ghost use Rattle.mdcc_serve.specs.Others.{KeepsUnserved};
ghost use Rattle.mdcc_serve.specs.Refusals.{AreTold, LacksNode, MayServe, SaysOfLogs};
ghost use Rattle.mdcc_serve.specs.Serving.{AreLogsOf, IsServedLog, ServesOrBreaksOff};
ghost use Rattle.mdcc_serve.specs.Starts.{Follow};
ghost use Rattle.mdcc_serve.specs.Stays.{HasRefused, IsLogRefused, NeverServed};
ghost use Rattle.mdcc_serve.specs.Totals.{counts_of, done_of, with_counts};
ghost use Rattle.mdcc_serve_site.specs.Moments.{Caused, KeepsOthers, outside};
ghost use Rattle.mdcc_serve_site.specs.SiteState.{PrintsOut};
ghost use Rattle.mdcc_serve_site.specs.declared.fault.ServeFault.{ServeFault as AServeFault};

use crate::Served;
use crate::ending::persist_all_then_send;
use crate::opening::open;
use crate::turns::make_turns;
use mdcc_base::{Centre, Sink};
use mdcc_config::Config;
use mdcc_def_server_runs::ServerLine;
use mdcc_disks::Disks;
use mdcc_link::Link;
use mdcc_serve_site::{ServeFault, Site, print_line};
use std::alloc::Global;

// The counts with those of one centre more.
fn with_counts(served: Served, site: &Site) -> Served
    ensures { result ≡ with_counts served site.now }
{
    Served {
        turns: served.turns,
        steps: served.steps.saturating_add(site.steps),
        dropped: served.dropped.saturating_add(site.dropped),
        lost: served.lost.saturating_add(site.sender.lost),
    }
}

// The counts of all centres.
fn counts_of(sites: &[Site], turns: u32) -> Served
    ensures { result ≡ counts_of turns sites.now }
{
    let mut served = Served {
        turns,
        steps: 0,
        dropped: 0,
        lost: 0,
    };
    for site in sites {
        served = with_counts(served, site);
    }
    served
}

// The serial of the last message of a centre fits into 32 bits.
fn serial_fits(site: &Site)
    ensures { site.now.sender.sent < 2 ^ 32 }
{
    let _sent = site.sender.sent;
}

// So it is of each.
fn serials_fit(sites: &[Site])
    ensures { SerialsFit sites.now }
{
    for site in sites {
        serial_fits(site);
    }
}

// Prints the last line.
fn print_done<O: Sink>(alloc: Global, served: Served, out: &mut O) -> Result<(), ServeFault>
    ensures { PrintsOut O.held O.faults (Act.Print (done_of served) ∷ []) result out.old out.new }
{
    let line = ServerLine::Done {
        turns: served.turns,
        steps: served.steps,
        dropped: served.dropped,
        lost: served.lost,
    };
    print_line(alloc, &line, out)
}

// Makes so many turns of centres that run; what is pending then goes out, and the last line tells what they did.
fn serve_sites<D: Disks, L: Link, O: Sink>(
    alloc: Global,
    config: &Config,
    sites: &mut [Site],
    turns: u32,
    disks: &mut D,
    link: &mut L,
    out: &mut O,
) -> Result<Served, ServeFault>
    requires config { IsConfig config.now }
    requires served { AllServed (outside config.now.checkpoint D.disk D.may_leave L.calls L.lost L.faults O.held O.faults) config.now.cluster disks.old sites.old }
    ensures { (served : List ASite) → HoldSites (outside config.now.checkpoint D.disk D.may_leave L.calls L.lost L.faults O.held O.faults) config.now.cluster disks.old sites.old served → Ascend 0 served
        → AllEnd (outside config.now.checkpoint D.disk D.may_leave L.calls L.lost L.faults O.held O.faults) config.now served turns result
        (places disks.old sites.old link.old out.old) (places disks.new sites.new link.new out.new) }
{
    make_turns(alloc, config, sites, turns, disks, link, out)?;
    persist_all_then_send(alloc, config, sites, disks, link, out)?;
    serials_fit(sites);
    let served = counts_of(sites, turns);
    print_done(alloc, served, out)?;
    Ok(served)
}

// Serves the centres from one number to another.
fn serve<D: Disks, L: Link, O: Sink>(
    alloc: Global,
    config: &Config,
    first: u8,
    last: u8,
    turns: u32,
    disks: &mut D,
    link: &mut L,
    out: &mut O,
) -> Result<Served, ServeFault>
    requires config { IsConfig config.now }
    requires some { 1 ≤ first }
    requires order { first ≤ last }
    requires among { last ≤ config.now.cluster.quorums.centres }
    requires alike { (a : ℕ) → first ≤ a → a ≤ last → (D.disk disks.old (a + 16)).told ≡ (D.disk disks.old a).told }
    ensures serves { (logs : List Log) → Follow first logs → length logs + first ≡ last + 1 → AreLogsOf D.disk config.now.cluster disks.old logs
        → ServesOrBreaksOff D.disk D.may_leave D.tears L.calls L.lost O.held config.now logs turns result disks.old disks.new link.old link.new out.old out.new }
    ensures causes { IfErr result (λ fault. Caused (outside config.now.checkpoint D.disk D.may_leave L.calls L.lost L.faults O.held O.faults) fault
        (all_seen (places disks.old [] link.old out.old)) (all_seen (places disks.new [] link.new out.new))) }
    ensures logs { SaysOfLogs D.disk config.now.cluster disks.old first (last + 1) result }
    ensures others { KeepsUnserved D.disk D.may_leave first (last + 1) disks.old disks.new }
    ensures refused { IfErr result (λ fault. IsLogRefused fault → AreTold D.disk config.now.cluster disks.old first (last + 1)
        → HasRefused D.disk D.may_leave D.tears L.calls L.lost config.now.cluster first (last + 1) disks.old disks.new link.old link.new out.old out.new) }
    ensures unserved { LacksNode D.disk config.now.cluster disks.old first (last + 1)
        → IsErrAnd result (NeverServed D.disk D.may_leave D.tears config.now.checkpoint L.calls L.lost config.now.cluster first (last + 1) disks.old disks.new link.old link.new out.old out.new) }
{
    let mut sites = open(alloc, config, first, last, disks, link, out)?;
    serve_sites(alloc, config, &mut sites, turns, disks, link, out)
}

/// Serves one centre for so many turns: it starts the centre, binds its two endpoints, and makes the turns. Nothing is sent or
/// printed of a step before its fact is durable. What was appended, sent and printed before a fault stands.
pub fn serve_node<D: Disks, L: Link, O: Sink>(
    alloc: Global,
    config: &Config,
    centre: Centre,
    turns: u32,
    disks: &mut D,
    link: &mut L,
    out: &mut O,
) -> Result<Served, ServeFault>
    requires config { IsConfig config.now }
    requires among { centre ≤ config.now.cluster.quorums.centres }
    requires alike { (D.disk disks.old (centre + 16)).told ≡ (D.disk disks.old centre).told }

    // Over a log that tells its bytes, what is appended, sent and printed is the run's for what the receives gave, all of it after
    // so many turns and else a prefix.
    ensures serves { (log : Log) → log.centre ≡ centre → IsServedLog D.disk config.now.cluster disks.old log
        → ServesOrBreaksOff D.disk D.may_leave D.tears L.calls L.lost O.held config.now (log ∷ []) turns result disks.old disks.new link.old link.new out.old out.new }

    // A log is refused just where no node boots from it, unless something else comes before.
    ensures logs { SaysOfLogs D.disk config.now.cluster disks.old centre (centre + 1) result }
    ensures may { IfErr result MayServe }

    // A log that is refused stands as it was, perhaps with its own new boot, after a crash too where it was durable, and nothing was
    // bound, sent or printed.
    ensures refused { IfErr result (λ fault. IsLogRefused fault → AreAreasTold D.disk disks.old centre
        → HasRefused D.disk D.may_leave D.tears L.calls L.lost config.now.cluster centre (centre + 1) disks.old disks.new link.old link.new out.old out.new) }

    // Where no node boots from its log nothing is bound, sent or printed, however it ends, and the log stands but where a disk fails.
    ensures unserved { LacksNode D.disk config.now.cluster disks.old centre (centre + 1)
        → IsErrAnd result (NeverServed D.disk D.may_leave D.tears config.now.checkpoint L.calls L.lost config.now.cluster centre (centre + 1) disks.old disks.new link.old link.new out.old out.new) }

    // Whatever the logs are, and however it ends, the disks of other centres are as they were.
    ensures others { KeepsOthers D.disk D.may_leave centre disks.old disks.new }

    // A fault of a disk, the link or the output comes only where its count rose.
    ensures disk { (a : ℕ) → IsErrOf result (AServeFault.Disk a)
        → RoseAtOne (D.disk disks.old a) (D.disk disks.new a) (D.disk disks.old (a + 16)) (D.disk disks.new (a + 16)) }
    ensures link { IsErrOf result AServeFault.Link → Rose (L.faults link.old) (L.faults link.new) }
    ensures output { IsErrOf result AServeFault.Output → Rose (O.faults out.old) (O.faults out.new) }
{
    let first = centre.number();
    serve(alloc, config, first, first, turns, disks, link, out)
}

/// Serves all centres for so many turns each. In a turn each has its own, in ascending order.
pub fn serve_cluster<D: Disks, L: Link, O: Sink>(
    alloc: Global,
    config: &Config,
    turns: u32,
    disks: &mut D,
    link: &mut L,
    out: &mut O,
) -> Result<Served, ServeFault>
    requires config { IsConfig config.now }
    requires alike { (a : ℕ) → 1 ≤ a → a ≤ config.now.cluster.quorums.centres → (D.disk disks.old (a + 16)).told ≡ (D.disk disks.old a).told }

    // Over logs that tell their bytes, what is appended, sent and printed is the run's for what the receives gave, all of it after
    // so many turns and else a prefix.
    ensures serves { (logs : List Log) → map (λ log. log.centre) logs ≡ range_with_len 1 config.now.cluster.quorums.centres
        → AreLogsOf D.disk config.now.cluster disks.old logs
        → ServesOrBreaksOff D.disk D.may_leave D.tears L.calls L.lost O.held config.now logs turns result disks.old disks.new link.old link.new out.old out.new }

    // The first log is refused from which no node boots, and no other, unless something else comes before.
    ensures logs { SaysOfLogs D.disk config.now.cluster disks.old 1 (config.now.cluster.quorums.centres + 1) result }
    ensures may { IfErr result MayServe }

    // Where a log is refused all logs stand as they were, each perhaps with its own new boot, after a crash too where they were durable,
    // and nothing was bound, sent or printed.
    ensures refused { IfErr result (λ fault. IsLogRefused fault → AreTold D.disk config.now.cluster disks.old 1 (config.now.cluster.quorums.centres + 1)
        → HasRefused D.disk D.may_leave D.tears L.calls L.lost config.now.cluster 1 (config.now.cluster.quorums.centres + 1) disks.old disks.new link.old link.new out.old out.new) }

    // Where no node boots from a log nothing is bound, sent or printed, however it ends, and all logs stand but where a disk fails.
    ensures unserved { LacksNode D.disk config.now.cluster disks.old 1 (config.now.cluster.quorums.centres + 1)
        → IsErrAnd result (NeverServed D.disk D.may_leave D.tears config.now.checkpoint L.calls L.lost config.now.cluster 1 (config.now.cluster.quorums.centres + 1) disks.old disks.new link.old link.new out.old out.new) }

    // Whatever the logs are, and however it ends, the disks of other centres are as they were.
    ensures others { KeepsUnserved D.disk D.may_leave 1 (config.now.cluster.quorums.centres + 1) disks.old disks.new }

    // A fault of a disk, the link or the output comes only where its count rose.
    ensures disk { (a : ℕ) → IsErrOf result (AServeFault.Disk a)
        → RoseAtOne (D.disk disks.old a) (D.disk disks.new a) (D.disk disks.old (a + 16)) (D.disk disks.new (a + 16)) }
    ensures link { IsErrOf result AServeFault.Link → Rose (L.faults link.old) (L.faults link.new) }
    ensures output { IsErrOf result AServeFault.Output → Rose (O.faults out.old) (O.faults out.new) }
{
    let last = config.cluster.quorums.centres();
    serve(alloc, config, 1, last, turns, disks, link, out)
}
