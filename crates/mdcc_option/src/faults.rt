//! Why a transaction is refused before it is proposed.
use crate::Token;
use mdcc_base::{Memory, Plain};
use std::alloc::AllocError;

/// Why parts make no transaction. The parts are looked at in key order.
#[derive(Clone, Copy, Debug, PartialEq, Eq)]
pub enum DraftFault {
    /// There is no part.
    Empty,
    /// There are more than 8 parts.
    TooMany,
    /// Two parts have one key.
    RepeatedKey,
    /// Another number of values than attributes, no attribute named, or an attribute that is
    /// outside the schema or does not ascend.
    BadAttribute,
    /// An amount is 0.
    ZeroAmount,
    /// A written value is outside its bounds, or an amount is larger than what lies between them.
    OutOfBounds,
}

/// Why a manager begins no transaction.
#[derive(Debug, Drop, PartialEq, Eq)]
pub enum BeginFault {
    /// A write saw something else than this, which its key has now.
    Stale(Token),
    /// An add stands at another version than this, which its key has now.
    Unseen(u64),
    /// An add names a key without an item.
    NoItem,
    /// The numbers of this epoch are used up.
    Sequence,
    /// 256 transactions are open.
    Busy,
    /// There was no memory, and nothing was begun.
    Memory,
}

impl From<AllocError> for BeginFault {
    ghost use Rattle.std.specs.Prelude.{◌≡◌};
    ghost use Rattle.mdcc_option.specs.declared.faults.BeginFault.TheVariants.{Memory};

    ghost from_gives = { λ _ e. e ≡ Memory };

    fn from(_: AllocError) -> BeginFault {
        BeginFault::Memory
    }
}

impl From<Memory> for BeginFault {
    ghost use Rattle.std.specs.Prelude.{◌≡◌};
    ghost use Rattle.mdcc_option.specs.declared.faults.BeginFault.TheVariants.{Memory};

    ghost from_gives = { λ _ e. e ≡ Memory };

    fn from(_: Memory) -> BeginFault {
        BeginFault::Memory
    }
}

impl Plain for BeginFault {
    fn copy(&self) -> BeginFault {
        match self {
            BeginFault::Stale(token) => BeginFault::Stale(token.copy()),
            BeginFault::Unseen(version) => BeginFault::Unseen(*version),
            BeginFault::NoItem => BeginFault::NoItem,
            BeginFault::Sequence => BeginFault::Sequence,
            BeginFault::Busy => BeginFault::Busy,
            BeginFault::Memory => BeginFault::Memory,
        }
    }

    fn same(&self, other: &BeginFault) -> bool {
        match (self, other) {
            (BeginFault::Stale(a), BeginFault::Stale(b)) => a.same(b),
            (BeginFault::Unseen(a), BeginFault::Unseen(b)) => *a == *b,
            (BeginFault::NoItem, BeginFault::NoItem) => true,
            (BeginFault::Sequence, BeginFault::Sequence) => true,
            (BeginFault::Busy, BeginFault::Busy) => true,
            (BeginFault::Memory, BeginFault::Memory) => true,
            _ => false,
        }
    }
}
