//! What an audit says of the logs of the centres of a trace, and of logs on disks.
#![tactic(auto)]

pub mod disks;
pub mod traces;

pub use disks::disks_are_audited;
pub use traces::{disks_of_traces_are_audited, traces_are_audited};
