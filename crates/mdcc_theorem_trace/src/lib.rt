//! The ledger of every trace is allowed, and every message that was sent is backed by it.
#![tactic(auto)]

ghost use Rattle.std.specs.Prelude.{◌≡◌, List, ℕ};
ghost use Rattle.mdcc_option.specs.declared.cluster.Cluster.{Cluster};
ghost use Rattle.mdcc_def_ledger.specs.AllowedLedgers.{IsAllowed};
ghost use Rattle.mdcc_def_protocol.specs.IsCluster.{IsCluster};
ghost use Rattle.mdcc_def_messages.specs.Mailbox.{Sent};
ghost use Rattle.mdcc_def_simulation.specs.State.{first_world};
ghost use Rattle.mdcc_def_simulation.specs.Runs.{run_of};
ghost use Rattle.mdcc_def_language.specs.declared.events.Event.{Event};
ghost use Rattle.mdcc_theorem_trace_states.specs.Invariant.{Holds};
ghost use Rattle.mdcc_theorem_trace_states.specs.Sound.{IsSound};
ghost use Rattle.mdcc_theorem_trace_states.specs.MessageMeaning.{IsBackedMessage};
ghost use Rattle.mdcc_theorem_trace_states.specs.Words.{Each};

/// For every cluster and every list of events, also of such as name centres, messages or reads that do
/// not exist: the ledger of the trace is allowed; each message that was sent told the truth of the
/// ledger, and still does where that lasts; and the world at the end is sound, with all that its centres
/// keep.
pub fn every_trace()
    ensures allowed { (cluster : Cluster) → IsCluster cluster → (events : List Event) →
        IsAllowed cluster (run_of (first_world cluster) events).world.ledger }
    ensures sent { (cluster : Cluster) → IsCluster cluster → (events : List Event) →
        Each (λ (s : Sent). IsBackedMessage cluster (run_of (first_world cluster) events).world.ledger s.envelope)
        (run_of (first_world cluster) events).world.sent }
    ensures world { (cluster : Cluster) → IsCluster cluster → (events : List Event) →
        Holds IsSound cluster (run_of (first_world cluster) events).world }
{}
