//! The text of a history as it is read, and the verdict on a whole text.
#![tactic(auto)]

pub mod header;
mod laws;
pub mod lines;
pub mod parts;
mod places;
mod texts;
mod unread;
pub mod words;

pub use header::parse_header;
pub use laws::{read_is_line, right_text_is_yes, text_yes_is_right};
pub use lines::{LineFault, Spelled, line_in};
pub use texts::{HistoryFault, TextVerdict, check_text};
pub use unread::Unread;
