//! The words of the program: which command they are, with its numbers.
#![tactic(auto)]

mod asks;
mod grammar;
pub mod question;
pub mod words;

pub use question::Question;
pub use words::{Command, command_of};
