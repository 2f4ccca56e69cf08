//! Why the facts of a log were not printed.
ghost use Rattle.std.specs.Prelude.{◌≡◌};
ghost use Rattle.mdcc_command_dump.specs.Dumps.{of_restart, of_writing};
ghost use Rattle.mdcc_command_dump.specs.declared.fault.DumpFault.TheVariants as faults;

use mdcc_command_replay::Failure;
use mdcc_node_log::StartFault;
use std::alloc::AllocError;

#[derive(Clone, Copy, Debug, PartialEq, Eq)]
pub enum DumpFault {
    /// The log was not opened, or gives no node.
    Log(StartFault),
    /// A write to the output failed.
    Output,
    /// There was no memory.
    Memory,
}

impl From<StartFault> for DumpFault {
    ghost from_gives = { λ fault e. e ≡ of_restart fault };

    fn from(fault: StartFault) -> DumpFault {
        match fault {
            StartFault::Memory => DumpFault::Memory,
            fault => DumpFault::Log(fault),
        }
    }
}

impl From<Failure> for DumpFault {
    ghost from_gives = { λ failure e. e ≡ of_writing failure };

    fn from(failure: Failure) -> DumpFault {
        match failure {
            Failure::Output => DumpFault::Output,
            Failure::Memory => DumpFault::Memory,
        }
    }
}

impl From<AllocError> for DumpFault {
    ghost from_gives = { λ _ e. e ≡ faults.Memory };

    fn from(_: AllocError) -> DumpFault {
        DumpFault::Memory
    }
}
