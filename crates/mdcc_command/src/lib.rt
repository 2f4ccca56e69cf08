//! What the program does: the top call, which replays a schedule on nodes in memory, serves nodes, asks them, looks into their logs and audits them, and checks histories.
#![tactic(auto)]

mod command;
mod simulation;

pub use command::run;
