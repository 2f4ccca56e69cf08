//! The start of a centre, and of several.
ghost use Rattle.std.specs.Prelude.{◌≡◌, ◌≤◌, ◌+◌, ◌++◌, ◌-◌, ◌∷◌, ◌⊎◌, [], IfErr, IfOk, OnOk, length, ℕ};
ghost use Rattle.mdcc_config.specs.IsConfig.{IsConfig};
ghost use Rattle.mdcc_serve.specs.Refusals.{AllBoot, BootsAt, SaysAt, StartEnds};
ghost use Rattle.mdcc_serve.specs.Starts.{FailToStart, FailsToStart, HasStarted, HaveStarted, IsRunning, boot_fault_of, start_fault_of};
ghost use Rattle.mdcc_serve.specs.Stays.{AllStay, OnFullBoot, UnlessDiskFault};
ghost use Rattle.mdcc_serve_site.specs.declared.fault.ServeFault.{ServeFault as AServeFault};
ghost use Rattle.mdcc_serve_site.specs.declared.site.Site.{Site as ASite};

use mdcc_base::{Centre, Plain};
use mdcc_config::Config;
use mdcc_def_rules::BootFault;
use mdcc_disks::Disks;
use mdcc_frag::Joiner;
use mdcc_index::PoolFacts;
use mdcc_log::current_is_read;
use mdcc_node_boot::laws::boots_within_cells;
use mdcc_node_log::{Running, StartFault};
use mdcc_serve_outbox::{Clients, Sender};
use mdcc_serve_site::{ServeFault, Site, log_fault, nothing_pending};
use mdcc_theorem_encoding::facts::{facts_have_one_spelling, facts_read_are_well_formed};
use mdcc_theorem_node_steps::boots_give_nodes;
use std::alloc::Global;

// A fault of a boot as a server's.
fn boot_fault(centre: Centre, fault: BootFault) -> ServeFault
    ensures { result ≡ boot_fault_of centre fault }
{
    match fault {
        BootFault::Memory => ServeFault::Memory,
        fault => ServeFault::Boot(centre, fault),
    }
}

// A fault of a start as a server's.
fn start_fault(centre: Centre, fault: StartFault) -> ServeFault
    ensures { result ≡ start_fault_of centre fault }
{
    match fault {
        StartFault::Log(fault) => log_fault(centre, fault),
        StartFault::Boot(fault) => boot_fault(centre, fault),
        StartFault::Memory => ServeFault::Memory,
    }
}

// Opens the log of a centre, boots its node, and appends the boot.
fn start_over_log<D: Disks>(
    alloc: Global,
    config: &Config,
    centre: Centre,
    disks: &mut D,
) -> Result<Running<PoolFacts>, ServeFault>
    requires config { IsConfig config.now }
    requires among { centre ≤ config.now.cluster.quorums.centres }
    requires alike { (D.disk disks.old (centre + 16)).told ≡ (D.disk disks.old centre).told }
    ensures runs { IfOk result (λ running. IsRunning D.disk D.may_leave config.now.checkpoint D.tears config.now.cluster centre running disks.old disks.new) }
    ensures fails { IfErr result (λ fault. FailsToStart D.disk D.may_leave config.now.checkpoint D.tears config.now.cluster centre fault disks.old disks.new) }
    ensures node { OnOk result (BootsAt D.disk config.now.cluster disks.old centre) }
    ensures says { IfErr result (SaysAt D.disk config.now.cluster disks.old centre) }
{
    boots_give_nodes();
    boots_within_cells();
    facts_have_one_spelling();
    facts_read_are_well_formed();
    current_is_read();
    let store = PoolFacts::new(alloc, config.cluster.cells)?;
    let cluster = config.cluster.copy();
    match mdcc_node_log::start(alloc, cluster, centre, store, disks, config.checkpoint) {
        Ok(running) => Ok(running),
        Err(fault) => Err(start_fault(centre, fault)),
    }
}

// Starts a centre: nothing was received, and nothing is pending.
fn start<D: Disks>(
    alloc: Global,
    config: &Config,
    centre: Centre,
    disks: &mut D,
) -> Result<Site, ServeFault>
    requires config { IsConfig config.now }
    requires among { centre ≤ config.now.cluster.quorums.centres }
    requires alike { (D.disk disks.old (centre + 16)).told ≡ (D.disk disks.old centre).told }
    ensures starts { IfOk result (λ held. HasStarted D.disk D.may_leave config.now.checkpoint D.tears config.now.cluster centre held disks.old disks.new) }
    ensures fails { IfErr result (λ fault. FailsToStart D.disk D.may_leave config.now.checkpoint D.tears config.now.cluster centre fault disks.old disks.new) }
    ensures node { OnOk result (BootsAt D.disk config.now.cluster disks.old centre) }
    ensures says { IfErr result (SaysAt D.disk config.now.cluster disks.old centre) }
{
    let own = Joiner::new(alloc)?;
    let asked = Joiner::new(alloc)?;
    let Running { node, log, epoch } = start_over_log(alloc, config, centre, disks)?;
    Ok(Site {
        centre,
        node,
        log,
        sender: Sender {
            centre,
            epoch,
            sent: 0,
            lost: 0,
        },
        clients: Clients::new(alloc),
        own,
        asked,
        steps: 0,
        dropped: 0,
        pending: nothing_pending(alloc),
    })
}

// Starts one centre more.
fn start_next<D: Disks>(
    alloc: Global,
    config: &Config,
    number: u8,
    disks: &mut D,
    sites: &mut Vec<Site>,
) -> Result<(), ServeFault>
    requires config { IsConfig config.now }
    requires some { 1 ≤ number }
    requires among { number ≤ config.now.cluster.quorums.centres }
    requires alike { (D.disk disks.old (number + 16)).told ≡ (D.disk disks.old number).told }
    ensures starts { OnOk result ((held : ASite) × (sites.new.items ≡ sites.old.items ++ held ∷ []) × HasStarted D.disk D.may_leave config.now.checkpoint D.tears config.now.cluster number held disks.old disks.new) }
    ensures fails { IfErr result (λ fault. FailsToStart D.disk D.may_leave config.now.checkpoint D.tears config.now.cluster number fault disks.old disks.new
        ⊎ ((fault ≡ AServeFault.Memory) × (held : ASite) × HasStarted D.disk D.may_leave config.now.checkpoint D.tears config.now.cluster number held disks.old disks.new)) }
    ensures node { OnOk result (BootsAt D.disk config.now.cluster disks.old number) }
    ensures says { IfErr result (SaysAt D.disk config.now.cluster disks.old number) }
{
    let centre = Centre::new(number).unwrap();
    let site = start(alloc, config, centre, disks)?;
    sites.push(site)?;
    Ok(())
}

/// Starts the centres from one number to another.
pub(crate) fn start_all<D: Disks>(
    alloc: Global,
    config: &Config,
    first: u8,
    last: u8,
    disks: &mut D,
) -> Result<Vec<Site>, ServeFault>
    requires config { IsConfig config.now }
    requires some { 1 ≤ first }
    requires order { first ≤ last }
    requires among { last ≤ config.now.cluster.quorums.centres }
    requires alike { (a : ℕ) → first ≤ a → a ≤ last → (D.disk disks.old (a + 16)).told ≡ (D.disk disks.old a).told }
    ensures starts { IfOk result (λ held. HaveStarted D.disk D.may_leave config.now.checkpoint config.now.cluster first held.items disks.old disks.new) }
    ensures as_many { IfOk result (λ held. length held.items + first ≡ last + 1) }
    ensures fails { IfErr result (λ fault. FailToStart D.disk D.may_leave config.now.checkpoint D.tears config.now.cluster first (last + 1 - first) fault disks.old disks.new) }
    ensures nodes { OnOk result (AllBoot D.disk config.now.cluster disks.old first (last + 1)) }
    ensures ends { IfErr result (StartEnds D.disk config.now.cluster disks.old first (last + 1)) }
    ensures stay { IfErr result (λ fault. UnlessDiskFault fault (AllStay D.disk D.may_leave D.tears config.now.cluster disks.old disks.new first (last + 1))) }
    ensures full { IfErr result (OnFullBoot D.disk D.may_leave config.now.checkpoint config.now.cluster disks.old disks.new) }
{
    let mut sites = Vec::new(alloc);
    for number in first..last + 1 {
        start_next(alloc, config, number, disks, &mut sites)?;
    }
    Ok(sites)
}
