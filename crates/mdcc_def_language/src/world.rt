//! Why an event of a schedule is refused.
use mdcc_base::{Centre, Memory};
use mdcc_option::DraftFault;
use std::alloc::AllocError;

/// Which limit of a replay is reached.
#[derive(Clone, Copy, Debug, PartialEq, Eq)]
pub enum LimitName {
    /// The number of events.
    Events,
    /// The cells of a node.
    Cells,
    /// The bytes of a log.
    Log,
    /// The bytes of all messages sent.
    Bytes,
}

/// Why a world refuses an event.
#[derive(Debug, Drop)]
pub enum EventFault {
    /// The message of this number was not sent.
    NoMessage(u32),
    /// The centre is down.
    Down(Centre),
    /// The centre is up.
    Up(Centre),
    /// The read of this number was not made.
    NoRead(u32),
    /// The parts make no transaction.
    Begin(DraftFault),
    /// A limit is reached: its number, for cells the number that is needed.
    Limit(LimitName, u64),
    /// There was no memory.
    Memory,
}

impl From<Memory> for EventFault {
    ghost use Rattle.std.specs.Prelude.{◌≡◌};
    ghost use Rattle.mdcc_def_language.specs.declared.world.EventFault.TheVariants.{Memory};

    ghost from_gives = { λ _ fault. fault ≡ Memory };

    fn from(_: Memory) -> EventFault {
        EventFault::Memory
    }
}

impl From<AllocError> for EventFault {
    ghost use Rattle.std.specs.Prelude.{◌≡◌};
    ghost use Rattle.mdcc_def_language.specs.declared.world.EventFault.TheVariants.{Memory};

    ghost from_gives = { λ _ fault. fault ≡ Memory };

    fn from(_: AllocError) -> EventFault {
        EventFault::Memory
    }
}
