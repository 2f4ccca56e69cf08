//! The text of a history as it is written, and that what is written is read back.
#![tactic(auto)]

mod laws;
mod print;

pub use laws::{printed_history_is_read, printed_is_read};
pub use print::{print_header, print_line};
