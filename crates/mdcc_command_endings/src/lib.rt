//! What the commands that read a configuration have in common: how they read it, and how they end.
#![tactic(auto)]

pub mod ending;
pub mod fault;
mod lines;
pub mod reading;

pub use ending::finish;
pub use fault::Failure;
pub use reading::{centre_of, config_from};
