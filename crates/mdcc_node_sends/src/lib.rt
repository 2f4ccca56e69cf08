//! The messages of a node: which are its own, and how those of each rule are written.
#![tactic(auto)]

pub mod belongs;
pub mod sends;

pub use belongs::sender_of;
pub use sends::{ask_votes, propose, propose_each, send, send_lead, send_promised, tell_others};
