//! Facts in cells, each under its number, and steps that a walk takes at each of them.
#![tactic(auto)]

pub mod fact_cells;
pub mod steps;

pub use fact_cells::FactCells;
pub use steps::FactStep;
