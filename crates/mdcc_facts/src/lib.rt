//! What a store of facts promises.
#![tactic(auto)]

pub mod store;

pub use mdcc_def_messages::Fact;
pub use mdcc_def_protocol::StoreFault;
pub use store::FactStore;
