//! How far the world of a trace can grow within the limit on events.
#![tactic(auto)]

ghost use Rattle.std.specs.Prelude.{◌≡◌, ◌<◌, ◌≤◌, ◌-◌, ◌^◌, List, length, true, ℕ};
ghost use Rattle.mdcc_base.specs.declared.key.Key.{Key};
ghost use Rattle.mdcc_option.specs.declared.cluster.Cluster.{Cluster};
ghost use Rattle.mdcc_def_protocol.specs.Belongs.{is_centre};
ghost use Rattle.mdcc_def_protocol.specs.IsCluster.{IsCluster};
ghost use Rattle.mdcc_def_protocol.specs.Leader.{next_round};
ghost use Rattle.mdcc_def_ledger.specs.Ledger.{facts_of};
ghost use Rattle.mdcc_def_simulation.specs.State.{centre_at, first_world};
ghost use Rattle.mdcc_def_simulation.specs.Runs.{run_of};
ghost use Rattle.mdcc_def_language.specs.declared.events.Event.{Event};

/// The ledger of a trace is shorter than 2^64, as the laws of allowed ledgers ask.
pub fn ledgers_stay_short()
    ensures { (cluster : Cluster) → IsCluster cluster → (events : List Event) →
        length (run_of (first_world cluster) events).world.ledger ≤ 2 ^ 64 - 1 }
{}

/// No leader of a trace comes to a round of 2^32, which would be past the last one: the next ballot of
/// a key has a lower one at each centre.
pub fn rounds_stay_low()
    ensures { (cluster : Cluster) → IsCluster cluster → (events : List Event) →
        (a : ℕ) → is_centre (run_of (first_world cluster) events).world.cluster a ≡ true → (key : Key) (version : ℕ) →
        next_round (facts_of (run_of (first_world cluster) events).world.ledger a)
        (centre_at (run_of (first_world cluster) events).world a).volatile.leader key version < 2 ^ 32 }
{}
