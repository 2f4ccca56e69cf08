//! Why a question ended early.
ghost use Rattle.std.specs.Prelude.{◌≡◌};
ghost use Rattle.mdcc_command_ask.specs.declared.fault.AskFault.TheVariants as faults;

use mdcc_base::Memory as NoMemory;

#[derive(Clone, Copy, Debug, PartialEq, Eq)]
pub enum AskFault {
    /// The bind or a receive of the link failed.
    Link,
    /// A write to the output failed.
    Output,
    /// There was no memory.
    Memory,
}

impl From<NoMemory> for AskFault {
    ghost from_gives = { λ _ e. e ≡ faults.Memory };

    fn from(_: NoMemory) -> AskFault {
        AskFault::Memory
    }
}
