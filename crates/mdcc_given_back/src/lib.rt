//! What is left of the facts of a centre once those of which nothing is asked any more are given back.
//!
//! A store may drop them, or keep of a vote at a classic ballot its ballot alone, and answers as before.
#![tactic(auto)]

pub mod cells;
pub mod endings;
pub mod finished;
pub mod later_facts;
pub mod loads;
pub mod marks;
pub mod rests;
pub mod unsettled;
pub mod versions;
