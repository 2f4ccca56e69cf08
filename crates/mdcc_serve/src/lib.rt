//! Nodes over datagrams: one centre or more, each with its log on disks, at the endpoints of a link, with its lines at an output.
#![tactic(auto)]

mod ending;
mod opening;
pub mod serve;
pub mod served;
mod starting;
mod turns;

pub use mdcc_config::Config;
pub use mdcc_def_rules::BootFault;
pub use mdcc_log::LogFault;
pub use mdcc_serve_site::ServeFault;
pub use serve::{serve_cluster, serve_node};
pub use served::Served;
