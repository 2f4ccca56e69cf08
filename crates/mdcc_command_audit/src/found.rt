//! What an audit of logs found.
use mdcc_audit::{AuditCause, Place};

/// What an audit of logs found.
#[derive(Clone, Copy, Debug, PartialEq, Eq)]
pub enum Found {
    /// A verdict on each transaction.
    Verdicts,
    /// These two facts contradict each other. Where one fact is wrong, both are that one.
    Contradiction(AuditCause, Place, Place),
}
