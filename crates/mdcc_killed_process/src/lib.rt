//! The disks, the link and the output of a process that is killed: up to the kill its calls are made, and none that would come later.
#![tactic(auto)]

pub mod disks;
pub mod link;
pub mod output;

pub use disks::KilledDisks;
pub use link::KilledLink;
pub use output::KilledOutput;
