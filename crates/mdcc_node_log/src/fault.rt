//! Why a centre did not start.
use mdcc_base::Memory;
use mdcc_def_rules::BootFault;
use mdcc_log::LogFault;

#[derive(Clone, Copy, Debug, PartialEq, Eq)]
pub enum StartFault {
    /// The log was not opened, or the new boot not appended.
    Log(LogFault),
    /// The payloads of the log give no node.
    Boot(BootFault),
    /// There was no memory.
    Memory,
}

impl From<LogFault> for StartFault {
    ghost use Rattle.std.specs.Prelude.{◌≡◌};
    ghost use Rattle.mdcc_node_log.specs.Faults.{of_log};

    ghost from_gives = { λ fault e. e ≡ of_log fault };

    fn from(fault: LogFault) -> StartFault {
        match fault {
            LogFault::Memory => StartFault::Memory,
            fault => StartFault::Log(fault),
        }
    }
}

impl From<BootFault> for StartFault {
    ghost use Rattle.std.specs.Prelude.{◌≡◌};
    ghost use Rattle.mdcc_node_log.specs.Faults.{of_boot};

    ghost from_gives = { λ fault e. e ≡ of_boot fault };

    fn from(fault: BootFault) -> StartFault {
        match fault {
            BootFault::Memory => StartFault::Memory,
            fault => StartFault::Boot(fault),
        }
    }
}

impl From<Memory> for StartFault {
    ghost use Rattle.std.specs.Prelude.{◌≡◌};
    ghost use Rattle.mdcc_node_log.specs.declared.fault.StartFault.TheVariants.{Memory};

    ghost from_gives = { λ _ e. e ≡ Memory };

    fn from(_: Memory) -> StartFault {
        StartFault::Memory
    }
}
