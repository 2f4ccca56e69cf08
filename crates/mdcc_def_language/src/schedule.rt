//! Why the text of a schedule is refused.
use mdcc_base::{Key, Memory, QuorumFault};
use mdcc_option::SchemaFault;
use std::alloc::AllocError;

/// Why a word of a schedule is refused.
#[derive(Clone, Copy, Debug, PartialEq, Eq)]
pub enum SchedCause {
    /// A word, a separator or a line end is unknown, missing or too much.
    Word,
    /// It is no number.
    Number,
    /// It is no key.
    Key,
    /// A number, a body or a list of values is outside its range.
    Range,
    /// Centres do not ascend, or a header line is out of its place.
    Order,
    /// There was no memory.
    Memory,
}

/// Why a line is refused, at the byte of this number in the line, from 1.
#[derive(Clone, Copy, Debug, PartialEq, Eq)]
pub struct SchedFault {
    pub column: u32,
    pub cause: SchedCause,
}

/// Want of memory has no place; it stands at column 1, where no word gives it.
impl From<Memory> for SchedFault {
    ghost use Rattle.std.specs.Prelude.{◌≡◌};
    ghost use Rattle.mdcc_def_language.specs.declared.schedule.SchedCause.TheVariants.{Memory};

    ghost from_gives = { λ _ fault. fault ≡ record { column = 1; cause = Memory } };

    fn from(_: Memory) -> SchedFault {
        SchedFault {
            column: 1,
            cause: SchedCause::Memory,
        }
    }
}

impl From<AllocError> for SchedFault {
    ghost use Rattle.std.specs.Prelude.{◌≡◌};
    ghost use Rattle.mdcc_def_language.specs.declared.schedule.SchedCause.TheVariants.{Memory};

    ghost from_gives = { λ _ fault. fault ≡ record { column = 1; cause = Memory } };

    fn from(_: AllocError) -> SchedFault {
        SchedFault::from(Memory)
    }
}

/// Why a header line is refused.
#[derive(Clone, Copy, Debug, PartialEq, Eq)]
pub enum HeaderCause {
    /// It is not of the grammar.
    Sched(SchedCause),
    /// The sizes are no quorums.
    Quorums(QuorumFault),
    /// The bounds are no schema.
    Schema(SchemaFault),
}

/// Why a header is refused, at the line of this number, from 1.
#[derive(Clone, Copy, Debug, PartialEq, Eq)]
pub struct HeaderFault {
    pub line: u32,
    pub cause: HeaderCause,
}

/// Why update words make no parts.
#[derive(Debug, Drop)]
pub enum ResolveFault {
    /// The read of this number was not made.
    NoRead(u32),
    /// The read showed no item of this key.
    NoItem(Key),
    /// There was no memory.
    Memory,
}

impl From<Memory> for ResolveFault {
    ghost use Rattle.std.specs.Prelude.{◌≡◌};
    ghost use Rattle.mdcc_def_language.specs.declared.schedule.ResolveFault.TheVariants.{Memory};

    ghost from_gives = { λ _ fault. fault ≡ Memory };

    fn from(_: Memory) -> ResolveFault {
        ResolveFault::Memory
    }
}

impl From<AllocError> for ResolveFault {
    ghost use Rattle.std.specs.Prelude.{◌≡◌};
    ghost use Rattle.mdcc_def_language.specs.declared.schedule.ResolveFault.TheVariants.{Memory};

    ghost from_gives = { λ _ fault. fault ≡ Memory };

    fn from(_: AllocError) -> ResolveFault {
        ResolveFault::Memory
    }
}
