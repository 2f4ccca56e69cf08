//! The marks of votes, found by their transactions.
#![tactic(auto)]

pub mod marked;
pub mod rooms;

pub use marked::Marked;
pub use rooms::marks_in_cells;
