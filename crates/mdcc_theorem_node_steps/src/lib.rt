//! Laws of a node's step, for any input: what it adds may stand in the node's log, and all that it adds, keeps and sends is well-formed.
#![tactic(auto)]

ghost use Rattle.mdcc_theorem_node_steps.specs.AddedFacts.{AddedFactIsAllowed, FactsStayAllowed, NoVotesAtBoot, NodeStaysBooted, VotesStayOf};
ghost use Rattle.mdcc_theorem_node_steps.specs.StepAnswers.{AnswerIsWellFormed};
ghost use Rattle.mdcc_theorem_node_steps.specs.NodeInvariant.{AddedFactIsShort, AddedFactIsWellFormed, BootGivesNode, BootKeepsRoom, BootReadsFacts, BroughtFactFits, CellsGiveRoom, LogsGiveRoom, NodeStays, RoomStays, SendsAreWellFormed, StructuresHaveRoom};

/// A fact that a step adds is allowed after the node's facts, so that a boot over the log accepts it.
pub fn added_facts_are_allowed()
    ensures allowed { AddedFactIsAllowed }
    ensures in_turn { FactsStayAllowed }
    ensures booted { NodeStaysBooted }
{}

/// The counted votes of a node are of its cluster at every moment, on which the other law rests.
pub fn votes_stay_of_the_cluster()
    ensures at_boot { NoVotesAtBoot }
    ensures stays { VotesStayOf }
{}

/// From well-formed input a step adds a well-formed fact (one that fits a frame of a log) and sends well-formed messages, and the node stays what it is to be.
pub fn steps_are_well_formed()
    ensures fact { AddedFactIsWellFormed }
    ensures short { AddedFactIsShort }
    ensures brought { BroughtFactFits }
    ensures sends { SendsAreWellFormed }
    ensures roomy { StructuresHaveRoom }
    ensures answer { AnswerIsWellFormed }
    ensures stays { NodeStays }
    ensures room { RoomStays }
{}

/// Facts within a node's cells, or within a log, are few enough for the votes that a promise reports.
pub fn facts_have_room()
    ensures cells { CellsGiveRoom }
    ensures logs { LogsGiveRoom }
{}

/// A boot gives a node, and reads what its log holds where that was allowed in turn.
pub fn boots_give_nodes()
    ensures node { BootGivesNode }
    ensures room { BootKeepsRoom }
    ensures reads { BootReadsFacts }
{}
