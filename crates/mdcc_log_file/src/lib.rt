//! The bytes of a log in one file and in an area of two, and changes of such a file that are durable when they are answered.
#![tactic(auto)]

pub mod append;
pub mod area;
pub mod copying;
pub mod fault;
pub mod frames;
pub mod reading;
pub mod repair;
pub mod steps;

pub use area::Spare;
pub use fault::LogFault;
pub use frames::{LOG_LIMIT, PAYLOAD_LIMIT};
