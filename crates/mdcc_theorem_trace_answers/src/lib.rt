//! What the nodes answer in a trace.
#![tactic(auto)]

ghost use Rattle.std.specs.Prelude.{◌≡◌, ◌≤◌, List, Ok, false, length, nat_le, true, ℕ};
ghost use Rattle.mdcc_base.specs.declared.key.Key.{Key};
ghost use Rattle.mdcc_option.specs.declared.cluster.Cluster.{Cluster};
ghost use Rattle.mdcc_option.specs.declared.cluster.FastLimit.{FastLimit};
ghost use Rattle.mdcc_struct.specs.declared.report.Report.{Report};
ghost use Rattle.mdcc_def_messages.specs.declared.facts.Fact.{Fact};
ghost use Rattle.mdcc_def_protocol.specs.Fit.{parts_of};
ghost use Rattle.mdcc_def_protocol.specs.Leader.{on_promise, with_promise};
ghost use Rattle.mdcc_def_protocol.specs.Structures.{first_structure, is_crowded, is_enough};
ghost use Rattle.mdcc_def_protocol.specs.Volatile.{Lead, Leading};
ghost use Rattle.mdcc_def_protocol.specs.declared.leader.Promise.{Promise};
ghost use Rattle.mdcc_def_protocol.specs.declared.leader.PromiseAnswer.{PromiseAnswer};
ghost use Rattle.mdcc_def_protocol.specs.IsCluster.{IsCluster};
ghost use Rattle.mdcc_def_ledger.specs.Ledger.{facts_of};
ghost use Rattle.mdcc_def_simulation.specs.State.{centre_at, first_world, is_up_at};
ghost use Rattle.mdcc_def_simulation.specs.Runs.{run_of};
ghost use Rattle.mdcc_def_language.specs.declared.events.Event.{Event};
ghost use Rattle.mdcc_theorem_trace_answers.specs.Answered.{AreAnswered};
ghost use Rattle.mdcc_theorem_trace_answers.specs.Lengths.{MessagesAreShort, WellFormedAreShort};
ghost use Rattle.mdcc_theorem_trace_answers.specs.Ticks.{AreClaimsLed};
ghost use Rattle.mdcc_theorem_trace_answers.specs.Proposing.{DoNotWait, IsCountedBefore, reports_with_promise};

/// In a trace a node refuses a message that was sent only for want of cells. No message is foreign
/// where it arrives; no fact puts more than 64 deltas on a version; no structure gets too many marks;
/// and no leader runs out of rounds. A tick, a begin and a read are never refused by the definition of
/// a step; of a tick's claims `no_claim_is_refused_at_a_tick` speaks.
pub fn only_room_is_wanting()
    ensures { (cluster : Cluster) → IsCluster cluster → (events : List Event) →
        AreAnswered (run_of (first_world cluster) events).world }
{}

/// A leader that has not proposed proposes at the first counted promise with which they are enough: it
/// answers with the structure that they give, unless that is crowded. Before, it answers how many they
/// are. As many promises as an acceptor's room has parts are enough; under the safe limit it takes just
/// a classic quorum.
pub fn leaders_propose_at_once()
    ensures proposes { (cluster : Cluster) (facts : List Fact) (leader : Leading) (lead : Lead) (from : ℕ) (promise : Promise) → IsCountedBefore leader lead from promise →
        is_enough cluster facts lead.key lead.version (reports_with_promise lead from promise) ≡ true →
        is_crowded (first_structure cluster facts lead.key lead.version lead.claims (reports_with_promise lead from promise)) ≡ false →
        (after : Leading) × (on_promise cluster facts leader from promise ≡ Ok (PromiseAnswer.Accept lead.version lead.ballot (first_structure cluster facts lead.key lead.version lead.claims (reports_with_promise lead from promise)), after)) }
    ensures waits { (cluster : Cluster) (facts : List Fact) (leader : Leading) (lead : Lead) (from : ℕ) (promise : Promise) → IsCountedBefore leader lead from promise →
        is_enough cluster facts lead.key lead.version (reports_with_promise lead from promise) ≡ false →
        (after : Leading) × (on_promise cluster facts leader from promise ≡ Ok (PromiseAnswer.Waiting (length (with_promise lead from promise).promises), after)) }
    ensures latest { (cluster : Cluster) (facts : List Fact) (key : Key) (version : ℕ) (reports : List Report) → parts_of cluster.limit cluster.quorums ≤ length reports →
        is_enough cluster facts key version reports ≡ true }
    ensures safe { (cluster : Cluster) (facts : List Fact) (key : Key) (version : ℕ) (reports : List Report) → cluster.limit ≡ FastLimit.Safe →
        is_enough cluster facts key version reports ≡ nat_le cluster.quorums.classic (length reports) }
{}

/// In a trace no leader waits with the promises of as many centres as an acceptor's room has parts: of a
/// classic quorum under the safe limit, of all centres under the wider one.
pub fn no_leader_waits_with_enough()
    ensures { (cluster : Cluster) → IsCluster cluster → (events : List Event) → (a : ℕ) → DoNotWait (run_of (first_world cluster) events).world a }
{}

/// In a trace a message whose parts are well-formed has at most 1,473,505 bytes. Where events have keys
/// and bodies that are such, each message has.
pub fn messages_are_short()
    ensures well_formed { WellFormedAreShort }
    ensures all { MessagesAreShort }
{}

/// In a trace the leader refuses no claim of a tick, neither of an open transaction nor of a dangling
/// one. So nothing is left out there, though a step would leave it
/// out.
pub fn no_claim_is_refused_at_a_tick()
    ensures { (cluster : Cluster) → IsCluster cluster → (events : List Event) → (a : ℕ) →
        is_up_at (run_of (first_world cluster) events).world a ≡ true →
        AreClaimsLed (run_of (first_world cluster) events).world.cluster a (facts_of (run_of (first_world cluster) events).world.ledger a)
        (centre_at (run_of (first_world cluster) events).world a).volatile }
{}
