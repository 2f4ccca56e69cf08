//! The messages of a world, kept as bytes: what was sent, what was delivered, and which message is to be delivered next.
#![tactic(auto)]

pub mod batch;
pub mod network;
pub mod stored;

pub use batch::MessageBatch;
pub use mdcc_def_messages::Envelope;
pub use mdcc_wire::empty_envelope;
pub use network::Network;
