//! Why a message is not sent, or a line not printed.
ghost use Rattle.std.specs.Prelude.{◌≡◌};
ghost use Rattle.mdcc_serve_outbox.specs.declared.fault.PrintFault.TheVariants as prints;

use std::alloc::AllocError;

/// A centre has sent as many messages in its epoch as there are serials. Nothing of the next one is sent.
#[derive(Clone, Copy, Debug, PartialEq, Eq)]
pub struct OutOfSerials;

/// Why a line is not printed.
#[derive(Clone, Copy, Debug, PartialEq, Eq)]
pub enum PrintFault {
    /// A write failed. A front of the line may be printed.
    Output,
    /// There was no memory. Nothing is printed.
    Memory,
}

impl From<AllocError> for PrintFault {
    ghost from_gives = { λ _ e. e ≡ prints.Memory };

    fn from(_: AllocError) -> PrintFault {
        PrintFault::Memory
    }
}
