//! A replay from bytes to bytes: it reads a schedule, runs it on the nodes of a cluster in memory,
//! and writes the report.
#![tactic(auto)]

mod command;
mod error_lines;
mod lines;
mod refusals;
mod reports;
mod samples;
pub mod simulation;
mod writing;

pub use command::{end, refuse_words, run_replay};
pub use error_lines::draft_fault_text;
pub use refusals::Refusal;
pub use reports::replay;
pub use samples::run_sample;
pub use simulation::Simulation;
pub use writing::{Failure, tell, write_text};
