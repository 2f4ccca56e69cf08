//! The command that audits the logs of all centres: it opens them, and prints what they decided.
#![tactic(auto)]

mod command;
mod found;
mod logs;
mod texts;

pub use command::run_audit;
pub use found::Found;
