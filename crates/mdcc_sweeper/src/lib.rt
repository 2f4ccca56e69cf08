//! How far all centres have heard: what each of them told, and when a centre sets a floor.
#![tactic(auto)]

pub mod floor_store;
pub mod sweeper;
mod told;

pub use floor_store::FloorStore;
pub use sweeper::Sweeper;
