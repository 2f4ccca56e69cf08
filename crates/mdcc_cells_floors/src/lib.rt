//! The floors of a centre: through which number of each epoch all centres have heard how transactions ended.
#![tactic(auto)]

pub mod floors;

pub use floors::{Epoch, Floors};
