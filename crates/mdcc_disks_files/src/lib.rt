//! The logs of centres as files, each locked for one process.
#![tactic(auto)]

pub mod file_disks;
mod log_file;

pub use file_disks::FileDisks;
