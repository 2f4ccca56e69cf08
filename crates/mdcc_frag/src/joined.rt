//! What comes of a datagram.
use crate::DropCause;
use mdcc_base::HeapList;

/// What a joiner answers to a datagram.
#[derive(Debug, Drop)]
pub enum Joined {
    /// All pieces of its message came. These are its bytes.
    Whole(HeapList<u8>),
    /// Its piece is kept, and others are missing.
    Kept,
    /// Its piece came before.
    Repeated,
    /// It changed nothing.
    Dropped(DropCause),
}

/// What a piece does to the messages of which some pieces came.
#[derive(Clone, Copy, Debug, PartialEq, Eq)]
pub enum NextStep {
    /// It is the first of its message.
    Begin,
    /// Its message has another length there.
    Disagree,
    /// It came before.
    Repeat,
    /// It was missing.
    Advance,
}
