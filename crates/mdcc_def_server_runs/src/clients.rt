//! What is kept of a transaction that a client began.

/// Under which serial a transaction was begun, and how it ended: true is commit.
#[derive(Clone, Copy, Debug, PartialEq, Eq)]
pub struct Begun {
    pub serial: u32,
    pub ended: Option<bool>,
}
