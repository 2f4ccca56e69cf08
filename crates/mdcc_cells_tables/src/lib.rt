//! Tables that a store keeps beside its facts: what is held of each key, and which transactions are not resolved. They take no
//! memory once they are made.
//!
//! Facts are added one after the other. The number of a fact is the number of the older ones, and a table has numbers in the
//! place of what a reader of that one fact can tell.
#![tactic(auto)]

pub mod held_table;
pub mod rooms;
pub mod theorems;
pub mod unresolved_table;

pub use held_table::{HeldTable, HeldVersion};
pub use rooms::entries_in_cells;
pub use theorems::write_sets_are_read;
pub use unresolved_table::{HeardTest, UnresolvedTable};
