//! What a server receives: the datagrams that come to an endpoint, and the messages that they make whole.
#![tactic(auto)]

pub mod arrivals;
pub mod receiving;

pub use arrivals::{Found, arrival_of, take_datagram};
pub use receiving::{Datagram, receive};
