//! Laws of allowed ledgers: a transaction gets one mark in an instance and one outcome, and the
//! accepted options of one instance agree.
#![tactic(auto)]

pub mod accepted;
pub mod example;
pub mod forgotten;
pub mod marks;
