//! Laws of allowed ledgers: what centres hold comes from committed transactions, and accepted options
//! stay within the room that there is.
#![tactic(auto)]

pub mod held;
pub mod rooms;
