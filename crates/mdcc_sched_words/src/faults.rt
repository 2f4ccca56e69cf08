//! Why a text is refused, whatever its length.
ghost use Rattle.std.specs.Prelude.{◌≡◌, ◌<◌, ◌-◌, ◌^◌, IfErr, min};
ghost use Rattle.mdcc_def_language.specs.Words.{refused};
ghost use Rattle.mdcc_sched_words.specs.Columns.{with_column_within};

use mdcc_def_language::{SchedCause, SchedFault};
use std::alloc::AllocError;
use std::marker::Model;

/// A fault of a schedule whose column may have more than 32 bits.
#[derive(Drop)]
pub struct TextFault {
    column: usize,
    cause: SchedCause,
}

impl Model for TextFault {
    ghost use Rattle.mdcc_def_language.specs.declared.schedule.SchedFault.{SchedFault};

    ghost Value = { SchedFault };

    ghost view = { λ fault. record { column = fault.column; cause = fault.cause } };
}

impl From<AllocError> for TextFault {
    ghost use Rattle.std.specs.Prelude.{◌≡◌};
    ghost use Rattle.mdcc_def_language.specs.declared.schedule.SchedCause.TheVariants.{Memory};

    ghost from_gives = { λ _ fault. fault ≡ record { column = 1; cause = Memory } };

    fn from(_: AllocError) -> TextFault {
        TextFault {
            column: 1,
            cause: SchedCause::Memory,
        }
    }
}

impl TextFault {
    /// The byte that is refused, from 1.
    pub fn column(&self) -> usize
        ensures { result ≡ self.now.column }
    {
        self.column
    }

    /// Why it is refused.
    pub fn cause(&self) -> SchedCause
        ensures { result ≡ self.now.cause }
    {
        self.cause
    }
}

/// A refusal of what stands at a column.
pub fn refused<A>(column: usize, cause: SchedCause) -> Result<A, TextFault>
    ensures { result ≡ refused column cause }
{
    Err(TextFault { column, cause })
}

/// The same, with a fault of a schedule.
pub fn narrowed<A>(read: Result<A, TextFault>) -> Result<A, SchedFault>
    requires { IfErr read (λ fault. fault.column < 2 ^ 32) }
    ensures { result ≡ read }
{
    match read {
        Ok(value) => Ok(value),
        Err(fault) => Err(SchedFault {
            column: fault.column as u32,
            cause: fault.cause,
        }),
    }
}

// A column in 32 bits, or the last one that there is.
fn column_within(column: usize) -> u32
    ensures { result ≡ min column (2 ^ 32 - 1) }
{
    u32::try_from(column).unwrap_or(u32::MAX)
}

/// The same, whatever its column.
pub fn capped<A>(read: Result<A, TextFault>) -> Result<A, SchedFault>
    ensures value { result ≡ with_column_within read }
    ensures narrow { IfErr read (λ fault. fault.column < 2 ^ 32) → result ≡ read }
{
    match read {
        Ok(value) => Ok(value),
        Err(fault) => Err(SchedFault {
            column: column_within(fault.column),
            cause: fault.cause,
        }),
    }
}
