//! Calls of `serve_node` as lives of centres: what a cluster of them makes durable, sends and prints.
#![tactic(auto)]

ghost use Rattle.std.specs.Prelude.{◌≡◌, ◌∷◌, [], true, ⊤};
ghost use Rattle.mdcc_def_server_runs.specs.declared.lines.ServerLine.{ServerLine};
ghost use Rattle.mdcc_theorem_clusters.specs.Crash.{three_centres};
ghost use Rattle.mdcc_theorem_clusters.specs.Example.{asked_tx};
ghost use Rattle.mdcc_theorem_cluster_nodes.specs.Calls.{CallsAreLives};
ghost use Rattle.mdcc_theorem_cluster_nodes.specs.Clusters.{AreCalls, FrontsAreCalls, HeadlineOfCalls, KilledCallsAreLives, after_cluster_steps};
ghost use Rattle.mdcc_theorem_cluster_nodes.specs.Example.{at_first_empty, disk_of_areas, just_these, kill_steps, lines_printed_in, no_byte, none_lost, none_recorded_of};
ghost use Rattle.mdcc_theorem_cluster_nodes.specs.Refused.{RefusedCallsDoNothing};
ghost use Rattle.mdcc_theorem_cluster_nodes.specs.Several.{AllCentresLive};

mod called;

pub use called::{call_cluster, call_killed_node, call_node};
use mdcc_base::Sink;
use mdcc_disks::Disks;
use mdcc_link::Link;

/// Over whatever disks, link and output: by its contract a call of `serve_node` is a life of its centre, whole, or broken off at some
/// act with the last group in the log whole or not at all; and what is read of its areas later is the log that this life left.
pub fn calls_are_lives<D: Disks, L: Link, O: Sink>()
    ensures { CallsAreLives D.disk D.may_leave D.tears L.calls L.lost O.held }
{}

/// So it is of a call that is killed, and then whatever a crash leaves: it did the first acts of a life, and its areas have the log of that life,
/// with the group that was being appended or without it.
pub fn killed_calls_are_lives<D: Disks, L: Link, O: Sink>()
    ensures { KilledCallsAreLives D.disk D.may_leave D.tears L.calls L.lost O.held }
{}

/// A call that refuses its log, since no node boots from it, is a life without an act, whatever a crash leaves of the log then.
pub fn refused_calls_do_nothing<D: Disks, L: Link, O: Sink>()
    ensures { RefusedCallsDoNothing O D.disk D.may_leave D.tears L.calls L.lost }
{}

/// So a call of `serve_cluster` is a life of each of its centres: each of its acts is done by one of them, and those of each are a life
/// over its own log.
pub fn all_centres_live<D: Disks, L: Link, O: Sink>()
    ensures { AllCentresLive D.disk D.may_leave D.tears L.calls L.lost O.held }
{}

/// The headline for programs: of all that calls of `serve_node` did, one at a time for each centre, whole or killed, each over the areas that
/// the one before left, in whatever order their acts came, where a centre's own endpoint got only what a centre of the cluster had sent.
pub fn headline_of_calls<D: Disks, L: Link, O: Sink>()
    ensures { HeadlineOfCalls D.disk D.may_leave D.tears L.calls L.lost O.held }
{}

/// What was so far of such calls is of such calls. So the headline holds at every moment, with just the facts that were appended until
/// then: nothing is sent or printed that follows from facts which become durable only later.
pub fn fronts_are_calls<D: Disks, L: Link, O: Sink>()
    ensures { FrontsAreCalls D.disk D.may_leave D.tears L.calls L.lost O.held }
{}

/// There are such calls, so that the headline does not speak of nothing: three nodes commit what a client began, though one of them is
/// killed while its vote is on the way to its log, and started again over what it left. Before, the client sent what is no message.
pub fn three_nodes_commit_over_a_kill()
    ensures calls { AreCalls {L = ⊤} {O = ⊤} disk_of_areas just_these no_byte none_recorded_of none_lost none_recorded_of three_centres at_first_empty kill_steps }
    ensures lines { lines_printed_in (after_cluster_steps at_first_empty kill_steps)
        ≡ ServerLine.Heard 1 asked_tx true ∷ ServerLine.Booted 3 1 ∷ ServerLine.Booted 2 2 ∷ ServerLine.Booted 2 1 ∷ ServerLine.Booted 1 1 ∷ [] }
{}
