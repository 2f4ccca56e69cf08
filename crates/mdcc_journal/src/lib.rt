//! Facts as bytes, as they stand in a log.
#![tactic(auto)]

pub mod counts;
pub mod decoding;
pub mod encoding;

pub use decoding::decode_fact;
pub use encoding::{encode_fact, fact_length};
pub use mdcc_def_messages::{Fact, WireFault};
