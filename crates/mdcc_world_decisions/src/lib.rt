//! How transactions end: the votes of all centres, counted as they are cast.
#![tactic(auto)]

mod ballots;
pub mod casts;
mod chosen;
mod decided;
pub mod decisions;

pub use decisions::{Decisions, Totals};
