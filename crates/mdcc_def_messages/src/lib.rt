//! What centres write down and send to each other: the types of facts and of messages, and in
//! specs/ their bytes, which of them are well-formed, and how bytes are read again.
#![tactic(auto)]

pub mod facts;
pub mod messages;
pub mod wire;

pub use facts::Fact;
pub use messages::{ClientAnswer, Envelope, Message};
pub use wire::WireFault;
