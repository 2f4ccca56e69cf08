//! The law that allowed ledgers are for: their committed transactions are a run of the one-copy
//! store.
#![tactic(auto)]

pub mod run;
