//! The events of a schedule.
use mdcc_base::{Centre, HeapList, Image, Key};
use mdcc_option::{Amounts, Item};

/// What a transaction of a schedule does to one key. Reads are named by their numbers, from 1.
#[derive(Debug, Drop)]
pub enum UpdateWord {
    /// A first item is written under the key.
    New(Key, Item),
    /// An item is written on what the read saw.
    Set(u32, Item),
    /// Amounts are added to the version that the read saw.
    Add(u32, Amounts),
    /// The item that the read showed is written again.
    Keep(u32),
}

/// What happens next.
#[derive(Debug, Drop)]
pub enum Event {
    /// A key is read at a centre.
    Read(Centre, Key),
    /// A transaction is begun at a centre.
    Begin(Centre, HeapList<UpdateWord>),
    /// The messages of these numbers are delivered in turn, also where they were before.
    Deliver(HeapList<u32>),
    /// All waiting messages for these centres, or where none is named for all, are delivered, and
    /// those that come of them.
    Settle(HeapList<Centre>),
    /// Time passes at a centre.
    Tick(Centre),
    /// A centre tells all how far it has heard.
    Sweep(Centre),
    /// A centre goes down, and loses all but its log.
    Crash(Centre),
    /// A centre is booted from its log.
    Restart(Centre),
    /// The next append at a centre stops inside the device call of this number, and leaves this
    /// image.
    Stop(Centre, u8, Image),
}
