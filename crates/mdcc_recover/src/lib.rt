//! The recovery: any centre finishes a transaction whose manager is silent. (After MDCC.)
#![tactic(auto)]

mod counters;
mod dangling;
mod marks;
pub mod recover;

pub use mdcc_def_protocol::{RecoverAct, Vote};
pub use recover::Recover;
