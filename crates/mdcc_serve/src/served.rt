//! What a server did.

/// The turns of a server, and what it counted in them. The counts stand still at 2^64 - 1.
#[derive(Clone, Copy, Debug, PartialEq, Eq)]
pub struct Served {
    pub turns: u32,
    /// Inputs that a node took, ticks among them.
    pub steps: u64,
    /// Datagrams that no message can have, messages that are not of the format or come to the wrong endpoint, and inputs that a
    /// node refused.
    pub dropped: u64,
    /// Datagrams whose send failed, and messages that were not sent.
    pub lost: u64,
}
