//! Structures: the marks of an instance, and what promises force of them.
#![tactic(auto)]

pub mod laws;
pub mod options;
pub mod report;

pub use options::{JoinFault, Options};
pub use report::{Report, forced};
