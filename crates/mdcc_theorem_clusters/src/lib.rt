//! Clusters of nodes that are served: what holds of all that they make durable, send and print.
#![tactic(auto)]

ghost use Rattle.std.specs.Prelude.{Bool, ◌≡◌, ◌∷◌, [], false, true};
ghost use Rattle.mdcc_def_messages.specs.declared.facts.Fact.{Fact};
ghost use Rattle.mdcc_def_messages.specs.declared.messages.ClientAnswer.{ClientAnswer};
ghost use Rattle.mdcc_def_server_runs.specs.declared.lines.ServerLine.{ServerLine};
ghost use Rattle.mdcc_theorem_clusters.specs.Clusters.{after_moves, log_of, not_started};
ghost use Rattle.mdcc_theorem_clusters.specs.Crash.{crash, crash_by, three_centres, too_early, voted};
ghost use Rattle.mdcc_theorem_clusters.specs.Discharged.{HeadlineOfClusters, TellsTruthOf};
ghost use Rattle.mdcc_theorem_clusters.specs.Example.{answer_datagram, asked_tx, config, datagrams_sent_in, lines_of, moves, proposal_datagram, vote_datagram};
ghost use Rattle.mdcc_theorem_clusters.specs.ExecutionTest.{is_execution};
ghost use Rattle.mdcc_theorem_clusters.specs.Executions.{FrontsAreExecutions, IsExecution, TruthFromLaws};
ghost use Rattle.mdcc_theorem_clusters.specs.Formed.{RunsAreFormed};
ghost use Rattle.mdcc_theorem_clusters.specs.Headline.{HeadlineFromLaws};
ghost use Rattle.mdcc_theorem_clusters.specs.Mail.{OwnInputsAreOfLast, WholeIsOfLast};
ghost use Rattle.mdcc_theorem_clusters.specs.Pending.{PendingGoesOut, TurnsAnswer, TurnsPend};
ghost use Rattle.mdcc_theorem_clusters.specs.Posted.{SendingPosts};
ghost use Rattle.mdcc_theorem_clusters.specs.Several.{CentresDoTheirActs, ServersDoAllActs, TracesDoThese};
ghost use Rattle.mdcc_theorem_clusters.specs.Traces.{HeadlineOfServers, TracesAreExecutions};
ghost use Rattle.mdcc_theorem_trace_states.specs.Sound.{IsSound};
ghost use Rattle.mdcc_theorem_trace_states.specs.Steps.{AreGood};

/// Pieces of messages of which no two have one head make whole only the message of the last piece, whichever came before, in whatever
/// order and number. So at a centre's own endpoint nothing comes but messages that were sent.
pub fn whole_messages_were_sent()
    ensures whole { WholeIsOfLast }
    ensures inputs { OwnInputsAreOfLast }
{}

/// What goes out when messages are sent are pieces of these messages, under the next serials of the centre's epoch, each message once.
pub fn sending_posts()
    ensures { SendingPosts }
{}

/// What is pending at a centre that is served is what its group made, turn by turn; and when it goes out, with the group in the ledger, its
/// messages and the outcomes that it prints are true.
pub fn turns_make_groups()
    ensures turns { TurnsPend }
    ensures answers { TurnsAnswer }
    ensures out { AreGood IsSound → PendingGoesOut IsSound }
{}

/// Whatever a cluster of served centres does, there is one allowed ledger that has the facts of all logs in the order in which they became
/// durable, and all that any centre ever sent or printed is true of it.
pub fn truth_from_laws()
    ensures { TruthFromLaws }
{}

/// From well-formed inputs a node's run sends well-formed messages.
pub fn runs_are_formed()
    ensures { RunsAreFormed }
{}

/// What an execution has done so far is an execution: so all that is said of executions holds at every moment.
pub fn fronts_are_executions()
    ensures { FrontsAreExecutions }
{}

/// In every execution of a cluster of served centres the committed transactions are a run of the one-copy store, each a whole one; every
/// outcome that any centre prints, or answers a client, in any of its lives is that of the run, and each read that it answers an item version
/// of it with some committed adds; whatever a client joins of datagrams that centres sent is one message that tells so; no two centres print
/// different outcomes of a transaction; and each transaction that was begun was asked for, in datagrams that its centre received.
pub fn headline_from_laws()
    ensures { HeadlineFromLaws }
{}

/// There are such executions, so that the theorem does not speak of nothing: here a centre alone commits what its client began, and prints so.
/// The datagrams that come at its own endpoint are two of those that it sent.
pub fn a_cluster_commits()
    ensures executed { IsExecution config not_started moves }
    ensures lines { lines_of (after_moves config not_started moves) ≡ ServerLine.Heard 1 asked_tx true ∷ ServerLine.Booted 1 1 ∷ [] }
    ensures sent { datagrams_sent_in (after_moves config not_started moves) ≡ answer_datagram 4 (ClientAnswer.Heard asked_tx true) ∷ vote_datagram ∷ answer_datagram 2 (ClientAnswer.Begun asked_tx) ∷ proposal_datagram ∷ [] }
{}

/// Three centres commit what a client began, though one of them is killed while its vote is on the way to its log, whether the vote is in
/// the log then or lost: it is started again, and the proposal comes to it once more, in its next life. Before, the client sent what is no
/// message. The headline speaks of it.
pub fn three_centres_commit_over_a_crash()
    ensures executed { (logged : Bool) → IsExecution three_centres not_started (crash logged) }
    ensures lines { (logged : Bool) → lines_of (after_moves three_centres not_started (crash logged)) ≡ ServerLine.Heard 1 asked_tx true ∷ ServerLine.Booted 2 2 ∷ ServerLine.Booted 3 1 ∷ ServerLine.Booted 2 1 ∷ ServerLine.Booted 1 1 ∷ [] }
    ensures kept { log_of (after_moves three_centres not_started (crash true)).durable 2 ≡ Fact.Booted 2 ∷ voted ∷ Fact.Booted 1 ∷ [] }
    ensures truth { (logged : Bool) → TellsTruthOf three_centres (crash logged) }
    ensures lost { log_of (after_moves three_centres not_started (crash false)).durable 2 ≡ voted ∷ Fact.Booted 2 ∷ Fact.Booted 1 ∷ [] }
{}

/// The test of executions refuses moves in which a vote comes before its fact is in the log, and so before it was sent, and moves in which a
/// vote comes under the head of an epoch in which it was never sent.
pub fn no_vote_comes_unsent()
    ensures early { is_execution three_centres not_started too_early ≡ false }
    ensures forged { is_execution three_centres not_started (crash_by 1 true) ≡ false }
{}

/// The headline for served nodes: so it is in every execution in which a centre's own endpoint gets nothing but what centres of the cluster
/// sent in it, each centre is one process at a time over its one log, which is empty at first and loses nothing that was durable, all run
/// with one configuration, and no centre comes past the last serial of an epoch, before which its turn is cut, or to facts of 2^32 bytes.
pub fn headline_of_clusters()
    ensures { HeadlineOfClusters }
{}

/// Where each process does the acts that the contract of a server promises, up to some act, in whatever order the processes take turns, all
/// acts and durable facts are those of an execution.
pub fn traces_are_executions()
    ensures { TracesAreExecutions }
{}

/// So the headline holds of all clusters of such servers, each of one centre, by the acts that their contracts name.
pub fn headline_of_servers()
    ensures { HeadlineOfServers }
{}

/// A server of several centres does just the acts that servers of each of its centres alone do, in some order: those of each centre are the
/// acts of its own server, by what its own receives gave. So a trace in which its centres start, do these acts in their order, and end
/// together is one of that server.
pub fn a_server_of_several_centres_is_traced()
    ensures all { ServersDoAllActs }
    ensures own { CentresDoTheirActs }
    ensures traced { TracesDoThese }
{}
