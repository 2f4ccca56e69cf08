//! What the live options of an instance weigh, and whether a further one fits beside them: within an
//! acceptor's share of the room at the fast ballot, and exactly at a leader.
#![tactic(auto)]

mod attributes;
mod declared;
pub mod fits;
pub mod laws;
pub mod load;
mod quantity;
pub mod room;
pub mod taken;

pub use fits::{exact_fit, fast_fit};
pub use load::{NO_LOAD, with_live};
pub use mdcc_def_protocol::{Fit, Load};
pub use quantity::parts_of;
pub use room::{accept_room, reject_room};
pub use taken::are_within_room;
