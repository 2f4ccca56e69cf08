//! What holds of every world of a trace, and how each event keeps it.
#![tactic(auto)]

ghost use Rattle.std.specs.Prelude.{List};
ghost use Rattle.mdcc_option.specs.declared.cluster.Cluster.{Cluster};
ghost use Rattle.mdcc_def_protocol.specs.IsCluster.{IsCluster};
ghost use Rattle.mdcc_def_simulation.specs.State.{first_world};
ghost use Rattle.mdcc_def_simulation.specs.Runs.{run_of};
ghost use Rattle.mdcc_def_language.specs.declared.events.Event.{Event};
ghost use Rattle.mdcc_theorem_trace_states.specs.Invariant.{Holds};
ghost use Rattle.mdcc_theorem_trace_states.specs.Sound.{IsSound};
ghost use Rattle.mdcc_theorem_trace_states.specs.Steps.{AreGood};

/// Where each step of a node is good, every world of a trace is sound, whatever the events are: they may
/// also name centres, messages or reads that do not exist.
pub fn good_steps_suffice()
    ensures world { AreGood IsSound → (cluster : Cluster) → IsCluster cluster →
        (events : List Event) → Holds IsSound cluster (run_of (first_world cluster) events).world }
{}
