//! What a walk takes of the votes among facts in cells. Only marks that are gathered take memory.
#![tactic(auto)]

pub mod ballots;
pub mod gathered;
mod heads;
mod marks;
pub mod older;
mod passing;
mod tags;
pub mod tallies;
pub mod walks;
pub mod write_sets;

pub use ballots::WithBallot;
pub use gathered::{GatheredMarks, gathered_marks_are_votes};
pub use older::{OlderChoice, OlderMark, OlderVote};
pub use tallies::{LeastAbove, WithCount};
pub use walks::steps_are_folds;
pub use write_sets::write_set_at;
