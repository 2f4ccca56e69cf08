//! A world: the nodes of a cluster over stores in memory, their logs on disks in memory, every message that was sent,
//! and what the events of a schedule do to them.
#![tactic(auto)]

mod begins;
mod commits;
mod crashes;
mod deliveries;
mod events;
mod given;
mod node_runs;
mod nodes;
mod reads;
mod report;
mod settles;
mod steps;
mod stops;
mod ticks;
pub mod world;

pub use mdcc_def_language::{EventFault, LimitName};
pub use mdcc_disks::MemoryDisks;
pub use world::World;
