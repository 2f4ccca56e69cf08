//! The node of one centre: it takes one input at a time, and gives at most one fact, its messages and
//! its answer.
#![tactic(auto)]

mod acceptor_rules;
pub mod boot;
pub mod laws;
mod leader_rules;
mod manager_rules;
pub mod node;
mod recovery_rules;
mod steps;
mod sync_rules;
mod votes;

pub use mdcc_def_rules::{Answer, BootFault, Input, Step, StepFault};
pub use node::Node;
pub use steps::blank;
