//! The language of schedules and reports: the types of events, of report lines and of their faults,
//! and in specs/ how a text is read into events, and how a report and an error are written.
#![tactic(auto)]

pub mod events;
pub mod lines;
pub mod schedule;
pub mod world;

pub use events::{Event, UpdateWord};
pub use lines::Line;
pub use schedule::{HeaderCause, HeaderFault, ResolveFault, SchedCause, SchedFault};
pub use world::{EventFault, LimitName};
