//! The lines that a server prints.
use mdcc_base::{Centre, TxId};

/// A line of a server.
#[derive(Clone, Copy, Debug, PartialEq, Eq)]
pub enum ServerLine {
    /// A centre was booted, and began this epoch.
    Booted(Centre, u32),
    /// A centre heard how a transaction ended: true is commit.
    Heard(Centre, TxId, bool),
    /// All turns were made.
    Done {
        turns: u32,
        /// How many steps there were, ticks among them.
        steps: u64,
        /// Datagrams and messages that were dropped.
        dropped: u64,
        /// Datagrams whose send failed, and messages that were not sent.
        lost: u64,
    },
}
