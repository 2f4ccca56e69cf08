//! The log of a centre in two areas, of which one is in use, on disks that may crash at any moment.
#![tactic(auto)]

pub mod checkpoint;
pub mod frames;
pub mod group;
pub mod laws;
mod opening;
mod repair;

pub use frames::Frames;
pub use laws::{
    between_is_read, between_stays, checkpoint_is_read, copy_is_read, current_is_read,
    current_stays, due_is_read, examples_are_read, idle_stays, log_is_read, no_gate_is_torn_open,
    other_is_spare, roomy_grows,
};
pub use mdcc_disks::{Disks, MemoryDisks};
pub use mdcc_log_file::{LOG_LIMIT, LogFault, PAYLOAD_LIMIT, Spare};
