//! Messages as bytes, between centres and between a node and its client.
#![tactic(auto)]

pub mod answer_bytes;
pub mod answers;
pub mod bodies;
pub mod body_lengths;
pub mod counts;
pub mod encoding;
pub mod marks;
pub mod memory_bodies;
pub mod viewing;

pub use body_lengths::{kind_of, message_length};
pub use encoding::{EncodeFault, encode, write_message};
pub use marks::MarkViews;
pub use mdcc_def_messages::{ClientAnswer, Envelope, Message, WireFault};
pub use viewing::{Viewed, empty_envelope, read_envelope, view, view_written};
