//! Runs of nodes that are served: what inputs make a node do one after another, by its step alone, and what a server of one or more
//! centres makes of the datagrams that come: facts appended, datagrams sent, lines printed, answers to clients, and what is dropped.
#![tactic(auto)]

ghost use Rattle.mdcc_def_server_runs.specs.Laws.{RefusedInputsChangeNothing};

pub mod clients;
pub mod lines;

pub use clients::Begun;
pub use lines::ServerLine;

/// A refused input is as good as none: without those the run of a node is the same.
pub fn refused_inputs_change_nothing()
    ensures { RefusedInputsChangeNothing }
{}
