//! The manager: it begins the transactions of its centre, counts the votes on them, and decides them.
#![tactic(auto)]

mod begin;
pub mod manager;
mod marks;
mod opened;
mod ticks;

pub use begin::key_refused;
pub use manager::Manager;
pub use mdcc_def_protocol::ManagerAct;
pub use mdcc_option::BeginFault;
