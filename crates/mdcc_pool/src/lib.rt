//! Bytes held in cells of one region, each under a ticket.
#![tactic(auto)]

mod cells;
mod chain;
pub mod cursor;
mod lengths;
pub mod pool;
mod region;

pub use cursor::Cursor;
pub use pool::{CellPool, PoolFull, Ticket};
