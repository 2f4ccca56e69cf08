//! An audit of logs: what the facts of all centres decided, and whether they contradict each other.
#![tactic(auto)]

pub mod audited;
pub mod firsts;
mod laws;
mod logs;
mod sayings;
pub mod subjects;
pub mod taken;
pub mod values;
mod verdicts;
pub mod votes;

pub use audited::{AuditCause, AuditFault, Audited, Place, Verdict3};
pub use laws::{logs_are_in_order, pairs_are_contradictions, pairs_are_first};
pub use logs::audit;
pub use taken::Audit;
