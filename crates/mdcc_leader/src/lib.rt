//! The leader: the classic ballots of one centre, one for each key. (Fast Paxos; Generalized Paxos;
//! MDCC.)
#![tactic(auto)]

mod lead;
pub mod leader;
mod led;

pub use leader::Leader;
pub use mdcc_def_protocol::{LeadAnswer, LeadFault, Promise, PromiseAnswer};
pub use mdcc_option::Claim;
