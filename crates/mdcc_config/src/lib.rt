//! The configuration of a cluster of nodes: what its JSON text says, or why it is refused.
#![tactic(auto)]

mod addresses;
pub mod config;
pub mod faults;
mod fields;
pub mod laws;
mod lists;
mod names;
pub mod reading;
mod settings;
mod values;

pub use config::Config;
pub use faults::{ConfigFault, MemberName, Name};
pub use mdcc_base::Address;
pub use reading::read_config;
