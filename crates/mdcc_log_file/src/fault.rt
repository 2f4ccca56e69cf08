//! Why a log was not opened, a payload not appended, or a checkpoint not made.
ghost use Rattle.std.specs.Prelude.{◌≡◌};
ghost use Rattle.mdcc_log_file.specs.declared.fault.LogFault.TheVariants.{DiskFault, Memory};

use mdcc_base::Failed;
use std::alloc::{AllocError, AllocFailed};
use thiserror::Error;

#[derive(Clone, Copy, Debug, PartialEq, Eq, Error)]
pub enum LogFault {
    /// A call of the disk failed. What a crash may leave is known, and the log has to be opened again.
    #[error("a call of the disk failed")]
    DiskFault,
    /// The areas are no log: at this offset of one of them something else stands.
    #[error("no log from byte {0} on")]
    NotALog(u64),
    /// An area would pass 2^30 bytes.
    #[error("the log is full")]
    LogFull,
    /// There was no memory.
    #[error("out of memory")]
    Memory,
}

impl From<Failed> for LogFault {
    ghost from_gives = { λ _ e. e ≡ DiskFault };

    fn from(_: Failed) -> LogFault {
        LogFault::DiskFault
    }
}

impl From<AllocError> for LogFault {
    ghost from_gives = { λ _ e. e ≡ Memory };

    fn from(_: AllocError) -> LogFault {
        LogFault::Memory
    }
}

impl<T: Drop> From<AllocFailed<T>> for LogFault {
    ghost from_gives = { λ _ e. e ≡ Memory };

    fn from(_: AllocFailed<T>) -> LogFault {
        LogFault::Memory
    }
}
