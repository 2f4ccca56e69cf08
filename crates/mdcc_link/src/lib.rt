//! Links for datagrams that may fail: over UDP sockets, and in memory, which fail by a script.
#![tactic(auto)]

pub mod link;
pub mod memory_link;
mod pauses;
mod sockets;
mod stored;
pub mod udp_link;

pub use link::{Link, Received};
pub use memory_link::MemoryLink;
pub use udp_link::UdpLink;
