//! Checkpoints of a log that stop inside a device call, on disks in memory, for a simulation.
#![tactic(auto)]

pub mod stops;

pub use stops::{append_due_until, checkpoint_until, stopped_is_read, stopped_is_roomy};
