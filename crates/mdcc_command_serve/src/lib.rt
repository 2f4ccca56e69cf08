//! The commands that serve nodes: a configuration is read from a source, and one centre or all of them are served.
#![tactic(auto)]

mod commands;
mod serving;

pub use commands::{run_cluster, run_node};
