//! What facts say of the version that a centre holds of a record: its base, its deltas, and whether
//! they are too many.
#![tactic(auto)]

pub mod deltas;
pub mod held;

pub use deltas::{Deltas, delta_given, delta_of, executed_if_few, is_crowding, txs_of};
pub use held::{base_of, current_of};
