//! Whether an option fits beside the live options of its instance.

/// What the live options of an instance weigh.
#[derive(Clone, Copy, Debug, PartialEq, Eq)]
pub struct Load {
    /// How many of them are writes.
    pub writes: u32,
    /// How many of their transactions are outside a seen set.
    pub unseen: u32,
    /// How many of them are adds.
    pub count: u32,
    /// For each attribute the sum of the decreases, without their sign.
    pub down: [i128; 4],
    /// For each attribute the sum of the increases.
    pub up: [i128; 4],
}

/// How an option fits. Quantity 0 is the number of adds on one version, quantity n attribute n.
#[derive(Clone, Copy, Debug, PartialEq, Eq)]
pub enum Fit {
    /// It may be accepted.
    Fits,
    /// It is a write that has not seen a live option, an add beside a live write, or an add
    /// without an item.
    Conflict,
    /// It passes the share of this quantity's room that one acceptor may fill at the fast ballot.
    Limit(u8),
    /// It passes the room of this quantity.
    Breaks(u8),
}
