//! What a centre does with its log: it starts over it, where its node boots from the payloads and the new boot is made durable,
//! it adds facts to it, and it opens it for a look.
#![tactic(auto)]

pub mod append;
pub mod fault;
pub mod laws;
pub mod opening;
pub mod starting;

pub use append::{payload_of, persist};
pub use fault::StartFault;
pub use mdcc_log::{Frames, LogFault};
pub use mdcc_node::{BootFault, Node};
pub use opening::open;
pub use starting::{Running, start};
