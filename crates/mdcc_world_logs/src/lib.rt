//! The logs of the centres of a world, on disks in memory.
#![tactic(auto)]

pub mod booting;
mod copying;
pub mod logs;
mod rooms;
pub mod starting;
pub mod stopping;

pub use booting::boot_all;
pub use logs::Logs;
pub use starting::{CHECKPOINT_EVERY, CentreFacts, Started};
