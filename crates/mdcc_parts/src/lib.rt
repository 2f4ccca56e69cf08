//! The bytes of the parts that messages and facts are made of, read and written.
#![tactic(auto)]

pub mod choices;
pub mod given;
pub mod identifiers;
pub mod items;
pub mod marks;
pub mod numbers;

pub use choices::{read_choice, read_write_set};
pub use identifiers::{read_ballot, read_key, read_numbers, read_tx};
pub use items::{read_amounts, read_delta, read_item, read_seen, read_update};
pub use marks::{check_options, read_entry, read_options};
pub use mdcc_def_messages::WireFault;
pub use mdcc_parts_append::{
    write_amounts, write_ballot, write_choice, write_delta, write_entry, write_item, write_key,
    write_options, write_seen, write_tx, write_update, write_write_set,
};
