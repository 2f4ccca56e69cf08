//! Schedules and reports as text: how a header and a line are read, how a line of a report is
//! printed, and which parts update words stand for.
#![tactic(auto)]

pub mod header;
mod header_lines;
pub mod laws;
mod left;
mod lines;
mod lists;
pub mod parts;
pub mod print;
pub mod schedule;
mod words;

pub use header::{parse_header, parse_numbered_header};
pub use laws::events_are_spelled;
pub use mdcc_def_language::{
    Event, HeaderCause, HeaderFault, Line, ResolveFault, SchedCause, SchedFault, UpdateWord,
};
pub use mdcc_option::Known;
pub use mdcc_sched_words::{parse_body, parse_key, parse_number, parse_update, parse_values};
pub use parts::resolve;
pub use print::print_line;
pub use schedule::parse_line;
