//! The lines of a report.
use mdcc_base::{Centre, HeapList, Image, Key, TxId};
use mdcc_option::{BeginFault, Known};

/// One line of a report, behind its header. Of `next` numbers each is that of the next message.
#[derive(Debug, Drop)]
pub enum Line {
    /// The read of this number at a centre showed this.
    Read(u32, Centre, Known),
    /// A transaction was begun; the next message.
    Begun(TxId, u32),
    /// A transaction was not begun, because of this key.
    Refused(Key, BeginFault),
    /// The message of this number was delivered; the next message.
    Deliver(u32, u32),
    /// Messages for these centres are delivered now.
    Settle(HeapList<Centre>),
    /// So many were; the next message.
    Settled(u32, u32),
    /// Time passed at a centre; the next message.
    Tick(Centre, u32),
    /// A centre told all how far it has heard; the next message.
    Sweep(Centre, u32),
    /// A centre went down.
    Crash(Centre),
    /// The next append at a centre will stop.
    Stop(Centre, u8, Image),
    /// A centre was booted in this epoch.
    Restart(Centre, u32),
    /// An append at a centre stopped, and the centre is down.
    Stopped(Centre),
    /// A centre had no room for a fact: the cells that it needs, and those that are spare.
    Dropped(Centre, u64, u64),
    /// The outcome of a transaction came to be: true is commit.
    Chosen(TxId, bool),
    /// A centre heard an outcome: true is commit.
    Heard(Centre, TxId, bool),
    /// The end of the schedule.
    End {
        events: u32,
        messages: u32,
        commits: u32,
        aborts: u32,
        undecided: u32,
    },
}
