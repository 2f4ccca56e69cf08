//! One centre that is served: its node over datagrams, with its log on disks and its lines at an output.
#![tactic(auto)]

mod asking;
pub mod fault;
pub mod logging;
pub mod pending;
pub mod persist;
mod queuing;
mod receiving;
pub mod site;
pub mod turning;

pub use fault::ServeFault;
pub use logging::log_fault;
pub use pending::{PendingBytes, nothing_pending};
pub use persist::print_line;
pub use site::Site;
