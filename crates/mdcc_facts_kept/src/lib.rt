//! What is left of the facts of a centre, with what is asked of all of them.
//!
//! Nothing is asked any more of the marks of finished transactions below the version held, nor of outcomes that are idle.
//! Facts of which nothing is asked may be left out, and each answer stays what it was.
#![tactic(auto)]

pub mod forgotten;
mod held;
pub mod kept_facts;
mod next;
mod unresolved;
mod void;
mod votes;

pub use forgotten::Left;
pub use kept_facts::KeptFacts;
