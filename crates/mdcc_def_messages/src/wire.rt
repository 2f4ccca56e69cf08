//! Why bytes are no message, or no fact.
use mdcc_base::Memory;
use std::alloc::AllocError;

/// Why bytes are refused, at the first place that is not of the grammar. Each number is an offset.
#[derive(Clone, Copy, Debug, PartialEq, Eq)]
pub enum WireFault {
    /// The bytes end inside a part, here.
    Truncated(u64),
    /// The message or fact ends here, and bytes follow.
    Trailing(u64),
    /// The bytes are of no format and kind that is known.
    Kind,
    /// A number is outside its range, in the part that begins here.
    Range(u64),
    /// The part that begins here is out of order, or does not fit the part round it.
    NotCanonical(u64),
    /// There was no memory.
    Memory,
}

impl From<Memory> for WireFault {
    ghost use Rattle.std.specs.Prelude.{◌≡◌};
    ghost use Rattle.mdcc_def_messages.specs.declared.wire.WireFault.TheVariants.{Memory};

    ghost from_gives = { λ _ fault. fault ≡ Memory };

    fn from(_: Memory) -> WireFault {
        WireFault::Memory
    }
}

impl From<AllocError> for WireFault {
    ghost use Rattle.std.specs.Prelude.{◌≡◌};
    ghost use Rattle.mdcc_def_messages.specs.declared.wire.WireFault.TheVariants.{Memory};

    ghost from_gives = { λ _ fault. fault ≡ Memory };

    fn from(_: AllocError) -> WireFault {
        WireFault::Memory
    }
}
