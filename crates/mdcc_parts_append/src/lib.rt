//! The bytes of the parts that messages and facts are made of, appended to a vector, and how many they are.
#![tactic(auto)]

pub mod appending;
pub mod lengths;
pub mod marks;
pub mod writing;

pub use writing::{
    write_amounts, write_ballot, write_choice, write_delta, write_entry, write_item, write_key,
    write_options, write_seen, write_tx, write_update, write_write_set,
};
