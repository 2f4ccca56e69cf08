//! Why a replay ends early.
ghost use Rattle.std.specs.Prelude.{◌≡◌, ◌≢◌, Some};
ghost use Rattle.mdcc_def_language.specs.Errors.{status_of, status_at_line, status_at_event};
ghost use Rattle.mdcc_command_replay.specs.Refusals.{fault_of};

use mdcc_def_language::{EventFault, HeaderFault, SchedCause, SchedFault};

/// Why a replay ended before the end of its input. Lines are numbered from 1.
#[derive(Debug, Drop)]
pub enum Refusal {
    /// The input has more bytes than an input may have.
    TooLong,
    /// The header is refused.
    Header(HeaderFault),
    /// The line of this number is not of the grammar.
    Line(u32, SchedFault),
    /// The event of the line of this number is refused.
    Event(u32, EventFault),
}

// The status of a line that is refused.
fn status_at_line(cause: &SchedCause) -> u8
    ensures value { result ≡ status_at_line cause.now }
    ensures early { result ≢ 0 }
{
    match cause {
        SchedCause::Memory => 10,
        _ => 4,
    }
}

// The status of an event that is refused.
fn status_at_event(fault: &EventFault) -> u8
    ensures value { result ≡ status_at_event fault.now }
    ensures early { result ≢ 0 }
{
    match fault {
        EventFault::Limit(_, _) => 11,
        EventFault::Memory => 10,
        _ => 4,
    }
}

impl Refusal {
    /// The status that the program ends with.
    pub fn status(&self) -> u8
        ensures value { result ≡ status_of (Some (fault_of self.now)) }
        ensures early { result ≢ 0 }
    {
        match self {
            Refusal::TooLong => 11,
            Refusal::Header(_) => 3,
            Refusal::Line(_, fault) => status_at_line(&fault.cause),
            Refusal::Event(_, fault) => status_at_event(fault),
        }
    }
}
