//! Why a server ended before its last turn.
ghost use Rattle.std.specs.Prelude.{◌≡◌};
ghost use Rattle.mdcc_serve_site.specs.declared.fault.ServeFault.TheVariants.{Memory, Serial};

use mdcc_base::{Centre, Memory as NoMemory};
use mdcc_def_rules::BootFault;
use mdcc_log::LogFault;
use mdcc_serve_outbox::OutOfSerials;
use std::alloc::{AllocError, AllocFailed};
use thiserror::Error;

#[derive(Clone, Copy, Debug, PartialEq, Eq, Error)]
pub enum ServeFault {
    /// A call of one of the two disks of a centre failed.
    #[error("a call of a disk of a centre failed")]
    Disk(Centre),
    /// A bind or a receive failed.
    #[error("a bind or a receive failed")]
    Link,
    /// A write to the output failed.
    #[error("a write to the output failed")]
    Output,
    /// The log of a centre is none, or full.
    #[error("the log of a centre is none, or full")]
    Log(Centre, LogFault),
    /// The log of a centre gives no node.
    #[error("the log of a centre gives no node")]
    Boot(Centre, BootFault),
    /// A centre would send more messages in one epoch than there are serials.
    #[error("the serials of an epoch are used up")]
    Serial,
    /// There was no memory.
    #[error("out of memory")]
    Memory,
}

impl From<NoMemory> for ServeFault {
    ghost from_gives = { λ _ e. e ≡ Memory };

    fn from(_: NoMemory) -> ServeFault {
        ServeFault::Memory
    }
}

impl From<AllocError> for ServeFault {
    ghost from_gives = { λ _ e. e ≡ Memory };

    fn from(_: AllocError) -> ServeFault {
        ServeFault::Memory
    }
}

impl<T: Drop> From<AllocFailed<T>> for ServeFault {
    ghost from_gives = { λ _ e. e ≡ Memory };

    fn from(_: AllocFailed<T>) -> ServeFault {
        ServeFault::Memory
    }
}

impl From<OutOfSerials> for ServeFault {
    ghost from_gives = { λ _ e. e ≡ Serial };

    fn from(_: OutOfSerials) -> ServeFault {
        ServeFault::Serial
    }
}
