//! The structures of a leader: which marks its claims get, and from how many promises it makes the
//! first one of a ballot. (Fast Paxos; Generalized Paxos.)
#![tactic(auto)]

pub mod claims;
mod fit;
mod live;
mod marked;
pub mod marking;
pub mod promises;
mod reported;

pub use claims::Claims;
pub use marking::{is_crowded, is_left_out, mark_of_choice};
pub use promises::first_structure;
