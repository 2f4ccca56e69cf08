//! Computed examples of the definitions: each is a law that the prover finds by computing it.
#![tactic(auto, unfolding(crate::specs::Computing::decimals))]

pub mod adds;
pub mod bytes;
pub mod checkpoints;
pub mod collisions;
pub mod crashes;
pub mod dangling;
pub mod errors;
pub mod fast_limits;
pub mod headers;
pub mod inserts;
pub mod lines;
pub mod parts;
pub mod refusals;
pub mod reports;
pub mod versions;
