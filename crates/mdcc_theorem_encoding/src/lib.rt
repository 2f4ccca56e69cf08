//! What the bytes of messages and facts are for: what is written is read back, only well-formed values
//! are read, each has one spelling, and no spelling begins another.
#![tactic(auto)]

pub mod facts;
pub mod messages;
pub mod parts;
pub mod sizes;
pub mod well_formed;
