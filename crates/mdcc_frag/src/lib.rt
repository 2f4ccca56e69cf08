//! Messages cut into datagrams, and joined again from those that arrive.
#![tactic(auto)]

pub mod datagrams;
pub mod joined;
pub mod joiner;
pub mod partial;
pub mod reading;

pub use datagrams::{FragHead, MESSAGE_LIMIT, count, split};
pub use joined::{Joined, NextStep};
pub use joiner::Joiner;
pub use partial::Partial;
pub use reading::{DropCause, Piece, piece_in};
