//! The command that checks a history: it reads one, and prints the verdict on it.
#![tactic(auto)]

mod command;
mod texts;

pub use command::run_check;
