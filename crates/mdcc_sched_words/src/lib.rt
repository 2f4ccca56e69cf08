//! Words of a schedule: how numbers, keys, bodies, lists of values and update words are read.
#![tactic(auto)]

pub mod amounts;
pub mod bodies;
pub mod faults;
pub mod keys;
pub mod laws;
pub mod numbers;
pub mod places;
pub mod updates;
pub mod values;

pub use bodies::parse_body;
pub use faults::TextFault;
pub use keys::parse_key;
pub use laws::updates_are_spelled;
pub use numbers::parse_number;
pub use updates::parse_update;
pub use values::parse_values;
