//! The learner: votes as they are received, counted by transaction and key, and what they decide.
#![tactic(auto)]

mod accepted;
mod counting;
mod decided;
pub mod learner;
pub mod outcome;
mod places;

pub use learner::Learner;
pub use mdcc_def_protocol::Vote;
pub use outcome::{LearnedMarks, outcome_of_marks};
