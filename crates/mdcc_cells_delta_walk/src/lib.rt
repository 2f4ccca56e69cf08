//! What a walk over facts in cells takes of those that commit or adopt something: deltas, bases and live updates.
#![tactic(auto)]

pub mod bases;
pub mod chain;
pub mod crowding;
mod entries;
mod live_walk;
pub mod loads;
mod parts;
mod passing;
pub mod steps;
pub mod theorems;

pub use bases::item_at;
pub use chain::InstanceWalk;
pub use crowding::is_crowded;
pub use loads::{VoidTest, load};
pub use steps::{OlderAmounts, WithDeltas, amounts_at};
