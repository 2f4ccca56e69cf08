//! What holds of the worlds that schedules make, and what events do to them.
#![tactic(auto)]

pub mod laws;
