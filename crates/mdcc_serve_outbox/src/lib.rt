//! What a server sends and prints, and what it keeps of its client.
#![tactic(auto)]

pub mod clients;
pub mod fault;
pub mod lines;
pub mod outgoing;
pub mod sending;

pub use clients::Clients;
pub use fault::{OutOfSerials, PrintFault};
pub use lines::print;
pub use outgoing::Outgoing;
pub use sending::{Sender, answer_to, send_datagrams};
