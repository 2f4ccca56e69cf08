//! What the events of a schedule happen to.
ghost use Rattle.std.specs.Prelude.{◌≡◌, ◌++◌, IfErr, IfOk, IsOkAnd, OnOk, length};
ghost use Rattle.std.specs.Bool.{OnFalse};
ghost use Rattle.mdcc_def_protocol.specs.IsCluster.{IsCluster};
ghost use Rattle.mdcc_def_simulation.specs.State.{World as AWorld, first_world};
ghost use Rattle.mdcc_def_simulation.specs.Runs.{end_line};
ghost use Rattle.mdcc_def_simulation.specs.Events.{after_event};
ghost use Rattle.mdcc_def_simulation.specs.Limits.{is_out_of_memory};

use mdcc_base::{HeapList, Memory};
use mdcc_def_language::{Event, EventFault, Line};
use mdcc_option::Cluster;
use std::alloc::Global;

/// Nodes of a cluster and the messages between them, to which the events of a schedule happen.
pub trait Simulation {
    /// The worlds of the definitions that it stands for.
    ghost stands: { Self → AWorld → Type 0 };

    /// All centres are booted for the first time.
    fn start(alloc: Global, cluster: Cluster) -> Result<Self, Memory>
        requires { IsCluster cluster }
        ensures { IfOk result (λ world. stands world (first_world cluster)) };

    /// An event happens, and its lines are put behind the others.
    fn take(&mut self, event: &Event, lines: &mut HeapList<Line>) -> Result<(), EventFault>
        requires known { (w : AWorld) × stands self.old w }
        ensures ok { (w : AWorld) → stands self.old w → OnOk result (IsOkAnd (after_event w event.now)
            (λ h. (lines.new ≡ lines.old ++ h.lines) × stands self.new h.world)) }
        ensures err { (w : AWorld) → stands self.old w → IfErr result (λ fault.
            OnFalse (is_out_of_memory fault) (after_event w event.now ≡ Err fault)) };

    /// The last line of a report.
    fn last_line(&self) -> Line
        ensures { (w : AWorld) → stands self.now w → result ≡ end_line w };

    /// How many reads were made.
    fn reads(&self) -> usize
        ensures { (w : AWorld) → stands self.now w → result ≡ length w.reads };
}
