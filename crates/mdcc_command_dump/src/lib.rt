//! A look into the log of a centre: its facts as lines.
#![tactic(auto)]

pub mod command;
pub mod dumping;
pub mod fault;
mod lines;

pub use command::run_dump;
pub use dumping::dump;
pub use fault::DumpFault;
