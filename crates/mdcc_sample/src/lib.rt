//! The schedule of a web shop of any size, made from one number: its items are inserted, orders take three items each while a
//! centre is down for a third of them, and all comes to rest.
#![tactic(auto)]

mod draws;
pub mod laws;
mod orders;
mod sample;
mod shop;
mod writing;

pub use sample::{LONGEST, sample_text};
pub use shop::is_shop;
