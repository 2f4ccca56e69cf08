//! A store of facts that gives cells back.
//!
//! Where the cells are short, what is left of the facts is written anew without those of which nothing is asked any more,
//! and each answer stays what it was.
#![tactic(auto)]

mod half;
mod sweeping;
pub mod swept_facts;

pub use swept_facts::SweptFacts;
