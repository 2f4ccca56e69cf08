//! Which facts may stand in the log of a centre after those before them, and what a boot reads from
//! its payloads.
#![tactic(auto)]

pub mod admitted;
mod facts_belong;
pub mod laws;
pub mod loading;
mod news;
pub mod parts_belong;
mod promises;
mod votes;

pub use admitted::is_admitted;
pub use loading::boot_store;
pub use mdcc_def_messages::Fact;
pub use mdcc_def_rules::BootFault;
