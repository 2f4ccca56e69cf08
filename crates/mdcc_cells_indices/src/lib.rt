//! Indices of facts in cells: what a fact concerns, and the numbers of the facts that concern it.
#![tactic(auto)]

pub mod active;
mod commits;
pub mod instance_chains;
pub mod outcomes;
pub mod promises;
pub mod rooms;
pub mod tallies;

pub use active::is_active;
pub use instance_chains::InstanceChains;
pub use outcomes::OutcomeIndex;
pub use promises::{Promise, Promises, ballot_max};
pub use rooms::instances_in_cells;
pub use tallies::{Tallies, Tally};
