//! A configuration is read, and its centres are served.
ghost use Rattle.std.specs.Prelude.{◌≡◌, ◌+◌, IfErr, IfSome, IsErrOf, Ok, ℕ};
ghost use Rattle.mdcc_log_file.specs.Both.{RoseAtOne};
ghost use Rattle.mdcc_base.specs.Causes.{Rose};
ghost use Rattle.mdcc_base.specs.declared.source.ReadAllFault.{ReadAllFault as AReadAllFault};
ghost use Rattle.mdcc_log_file.specs.declared.fault.LogFault.{LogFault as ALogFault};
ghost use Rattle.mdcc_config.specs.IsConfig.{IsConfig};
ghost use Rattle.mdcc_command_endings.specs.Readings.{IsEarly};
ghost use Rattle.mdcc_serve.specs.Others.{KeepsUnserved};
ghost use Rattle.mdcc_command_serve.specs.Commands.{AreToldAlike, RunsCluster, RunsNode, ServesCluster, ServesNode, UntouchedOutside, as_served, failure_of};
ghost use Rattle.mdcc_command_endings.specs.declared.fault.Failure.{Failure as AFailure};
ghost use Rattle.mdcc_serve_site.specs.Moments.{KeepsOthers};

use mdcc_base::{Sink, Source};
use mdcc_command_endings::{Failure, centre_of, config_from};
use mdcc_config::Config;
use mdcc_disks::Disks;
use mdcc_link::Link;
use mdcc_log::LogFault;
use mdcc_serve::{ServeFault, Served, serve_cluster, serve_node};
use std::alloc::Global;

// A fault as a command has it.
fn failure_of(fault: &ServeFault) -> Failure
    ensures { result ≡ failure_of fault.now }
{
    match fault {
        ServeFault::Disk(centre) => Failure::Log(*centre, LogFault::DiskFault),
        ServeFault::Link => Failure::Link,
        ServeFault::Output => Failure::Output,
        ServeFault::Log(centre, fault) => Failure::Log(*centre, *fault),
        ServeFault::Boot(centre, fault) => Failure::Boot(*centre, *fault),
        ServeFault::Serial => Failure::Serial,
        ServeFault::Memory => Failure::Memory,
    }
}

// What a server did, as a command has it.
fn as_served(served: Result<Served, ServeFault>) -> Result<Served, Failure>
    ensures { result ≡ as_served served }
{
    match served {
        Ok(served) => Ok(served),
        Err(fault) => Err(failure_of(&fault)),
    }
}

// Serves the centre of a number for so many turns.
fn serve_number<D: Disks, L: Link, O: Sink>(
    alloc: Global,
    config: &Config,
    number: u32,
    turns: u32,
    disks: &mut D,
    link: &mut L,
    out: &mut O,
) -> Result<Served, Failure>
    requires config { IsConfig config.now }
    requires alike { AreToldAlike D.disk disks.old }
    ensures serves { ServesNode D.disk D.may_leave D.tears L.calls L.lost O.held disks.old disks.new link.old link.new out.old out.new (Ok config.now) number turns result }
    ensures early { IfErr result (λ failure. IsEarly failure → UntouchedOutside disks.old disks.new link.old link.new out.old out.new) }
    ensures others { KeepsOthers D.disk D.may_leave number disks.old disks.new }
    ensures read { IsErrOf result (AFailure.Input AReadAllFault.Failed) → ⊥ }
    ensures disk { (a : ℕ) → IsErrOf result (AFailure.Log a ALogFault.DiskFault)
        → RoseAtOne (D.disk disks.old a) (D.disk disks.new a) (D.disk disks.old (a + 16)) (D.disk disks.new (a + 16)) }
    ensures link { IsErrOf result (AFailure.Link) → Rose (L.faults link.old) (L.faults link.new) }
    ensures output { IsErrOf result (AFailure.Output) → Rose (O.faults out.old) (O.faults out.new) }
{
    let Some(centre) = centre_of(config, number) else {
        return Err(Failure::Centre);
    };
    link.set_wait(config.wait);
    as_served(serve_node(alloc, config, centre, turns, disks, link, out))
}

/// Serves the centre of a number for so many turns, by the configuration that a source gives.
pub(crate) fn serve_one<S: Source, D: Disks, L: Link, O: Sink>(
    alloc: Global,
    number: u32,
    turns: u32,
    source: &mut S,
    disks: &mut D,
    link: &mut L,
    out: &mut O,
) -> Result<Served, Failure>
    requires { AreToldAlike D.disk disks.old }
    ensures runs { IfSome (S.left source.old) (λ input. RunsNode D.disk D.may_leave D.tears L.calls L.lost O.held disks.old disks.new link.old link.new out.old out.new input number turns result) }
    ensures early { IfErr result (λ failure. IsEarly failure → UntouchedOutside disks.old disks.new link.old link.new out.old out.new) }
    ensures others { KeepsOthers D.disk D.may_leave number disks.old disks.new }
    ensures input { IsErrOf result (AFailure.Input AReadAllFault.Failed) → Rose (S.faults source.old) (S.faults source.new) }
    ensures disk { (a : ℕ) → IsErrOf result (AFailure.Log a ALogFault.DiskFault)
        → RoseAtOne (D.disk disks.old a) (D.disk disks.new a) (D.disk disks.old (a + 16)) (D.disk disks.new (a + 16)) }
    ensures link { IsErrOf result (AFailure.Link) → Rose (L.faults link.old) (L.faults link.new) }
    ensures output { IsErrOf result (AFailure.Output) → Rose (O.faults out.old) (O.faults out.new) }
{
    match config_from(alloc, source) {
        Ok(config) => serve_number(alloc, &config, number, turns, disks, link, out),
        Err(failure) => Err(failure),
    }
}

// Serves all centres for so many turns.
fn serve_centres<D: Disks, L: Link, O: Sink>(
    alloc: Global,
    config: &Config,
    turns: u32,
    disks: &mut D,
    link: &mut L,
    out: &mut O,
) -> Result<Served, Failure>
    requires config { IsConfig config.now }
    requires alike { AreToldAlike D.disk disks.old }
    ensures serves { ServesCluster D.disk D.may_leave D.tears L.calls L.lost O.held disks.old disks.new link.old link.new out.old out.new (Ok config.now) turns result }
    ensures early { IfErr result (λ failure. IsEarly failure → UntouchedOutside disks.old disks.new link.old link.new out.old out.new) }
    ensures others { KeepsUnserved D.disk D.may_leave 1 10 disks.old disks.new }
    ensures read { IsErrOf result (AFailure.Input AReadAllFault.Failed) → ⊥ }
    ensures disk { (a : ℕ) → IsErrOf result (AFailure.Log a ALogFault.DiskFault)
        → RoseAtOne (D.disk disks.old a) (D.disk disks.new a) (D.disk disks.old (a + 16)) (D.disk disks.new (a + 16)) }
    ensures link { IsErrOf result (AFailure.Link) → Rose (L.faults link.old) (L.faults link.new) }
    ensures output { IsErrOf result (AFailure.Output) → Rose (O.faults out.old) (O.faults out.new) }
{
    link.set_wait(config.wait);
    as_served(serve_cluster(alloc, config, turns, disks, link, out))
}

/// Serves all centres for so many turns, by the configuration that a source gives.
pub(crate) fn serve_all<S: Source, D: Disks, L: Link, O: Sink>(
    alloc: Global,
    turns: u32,
    source: &mut S,
    disks: &mut D,
    link: &mut L,
    out: &mut O,
) -> Result<Served, Failure>
    requires { AreToldAlike D.disk disks.old }
    ensures runs { IfSome (S.left source.old) (λ input. RunsCluster D.disk D.may_leave D.tears L.calls L.lost O.held disks.old disks.new link.old link.new out.old out.new input turns result) }
    ensures early { IfErr result (λ failure. IsEarly failure → UntouchedOutside disks.old disks.new link.old link.new out.old out.new) }
    ensures others { KeepsUnserved D.disk D.may_leave 1 10 disks.old disks.new }
    ensures input { IsErrOf result (AFailure.Input AReadAllFault.Failed) → Rose (S.faults source.old) (S.faults source.new) }
    ensures disk { (a : ℕ) → IsErrOf result (AFailure.Log a ALogFault.DiskFault)
        → RoseAtOne (D.disk disks.old a) (D.disk disks.new a) (D.disk disks.old (a + 16)) (D.disk disks.new (a + 16)) }
    ensures link { IsErrOf result (AFailure.Link) → Rose (L.faults link.old) (L.faults link.new) }
    ensures output { IsErrOf result (AFailure.Output) → Rose (O.faults out.old) (O.faults out.new) }
{
    match config_from(alloc, source) {
        Ok(config) => serve_centres(alloc, &config, turns, disks, link, out),
        Err(failure) => Err(failure),
    }
}
