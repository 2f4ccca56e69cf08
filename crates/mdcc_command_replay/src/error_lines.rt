//! Lines on the error stream.
ghost use Rattle.std.specs.Prelude.{◌≡◌, ◌++◌, IfOk, OnOk, Some};
ghost use Rattle.std.specs.String.{string_bytes};
ghost use Rattle.mdcc_def_language.specs.Errors.{cause_text, quorum_fault_text, schema_fault_text, header_cause_text, draft_fault_text, limit_text, sched_fault_text, event_fault_text, fault_text, error_text};
ghost use Rattle.mdcc_command_replay.specs.Refusals.{fault_of};

use crate::Refusal;
use mdcc_base::{LIMIT, QuorumFault};
use mdcc_def_language::{EventFault, HeaderCause, LimitName, SchedCause, SchedFault};
use mdcc_option::{DraftFault, SchemaFault};
use std::alloc::{AllocError, Global};

// The name of a cause.
fn cause_text(cause: &SchedCause) -> &'static str
    ensures { result.now ≡ cause_text cause.now }
{
    match cause {
        SchedCause::Word => "Word",
        SchedCause::Number => "Number",
        SchedCause::Key => "Key",
        SchedCause::Range => "Range",
        SchedCause::Order => "Order",
        SchedCause::Memory => "Memory",
    }
}

// The name of a cause.
fn quorum_fault_text(fault: &QuorumFault) -> &'static str
    ensures { result.now ≡ quorum_fault_text fault.now }
{
    match fault {
        QuorumFault::Centres => "Centres",
        QuorumFault::ClassicRange => "ClassicRange",
        QuorumFault::FastRange => "FastRange",
        QuorumFault::ClassicMeet => "ClassicMeet",
        QuorumFault::FastMeet => "FastMeet",
    }
}

// The name of a cause.
fn schema_fault_text(fault: &SchemaFault) -> &'static str
    ensures { result.now ≡ schema_fault_text fault.now }
{
    match fault {
        SchemaFault::Count => "Count",
        SchemaFault::Bound(_) => "Bound",
    }
}

// The name of the cause within.
fn header_cause_text(cause: &HeaderCause) -> &'static str
    ensures { result.now ≡ header_cause_text cause.now }
{
    match cause {
        HeaderCause::Sched(cause) => cause_text(cause),
        HeaderCause::Quorums(fault) => quorum_fault_text(fault),
        HeaderCause::Schema(fault) => schema_fault_text(fault),
    }
}

/// The name of a cause.
pub fn draft_fault_text(fault: &DraftFault) -> &'static str
    ensures { result.now ≡ draft_fault_text fault.now }
{
    match fault {
        DraftFault::Empty => "Empty",
        DraftFault::TooMany => "TooMany",
        DraftFault::RepeatedKey => "RepeatedKey",
        DraftFault::BadAttribute => "BadAttribute",
        DraftFault::ZeroAmount => "ZeroAmount",
        DraftFault::OutOfBounds => "OutOfBounds",
    }
}

// The name of a limit.
fn limit_text(name: &LimitName) -> &'static str
    ensures { result.now ≡ limit_text name.now }
{
    match name {
        LimitName::Events => "events",
        LimitName::Cells => "cells",
        LimitName::Log => "log",
        LimitName::Bytes => "bytes",
    }
}

// Adds why a line is refused.
fn write_sched_fault(line: u32, fault: &SchedFault, text: &mut String) -> Result<(), AllocError>
    ensures { OnOk result (string_bytes text.new
        ≡ string_bytes text.old ++ sched_fault_text line fault.now.column fault.now.cause) }
{
    let column = fault.column;
    match fault.cause {
        SchedCause::Memory => write!(text, "memory"),
        SchedCause::Word => write!(text, "line {line} column {column}: Word"),
        SchedCause::Number => write!(text, "line {line} column {column}: Number"),
        SchedCause::Key => write!(text, "line {line} column {column}: Key"),
        SchedCause::Range => write!(text, "line {line} column {column}: Range"),
        SchedCause::Order => write!(text, "line {line} column {column}: Order"),
    }
}

// Adds why an event is refused.
fn write_event_fault(line: u32, fault: &EventFault, text: &mut String) -> Result<(), AllocError>
    ensures { OnOk result (string_bytes text.new
        ≡ string_bytes text.old ++ event_fault_text line fault.now) }
{
    match fault {
        EventFault::NoMessage(number) => write!(text, "line {line}: NoMessage {number}"),
        EventFault::Down(centre) => write!(text, "line {line}: Down {centre}"),
        EventFault::Up(centre) => write!(text, "line {line}: Up {centre}"),
        EventFault::NoRead(number) => write!(text, "line {line}: NoRead {number}"),
        EventFault::Begin(fault) => {
            let cause = draft_fault_text(fault);
            write!(text, "line {line}: Begin {cause}")
        }
        EventFault::Limit(name, value) => {
            let name = limit_text(name);
            write!(text, "limit {name} {value}")
        }
        EventFault::Memory => write!(text, "memory"),
    }
}

// Adds why a replay ended early.
fn write_fault(refusal: &Refusal, text: &mut String) -> Result<(), AllocError>
    ensures { OnOk result (string_bytes text.new
        ≡ string_bytes text.old ++ fault_text (fault_of refusal.now)) }
{
    match refusal {
        Refusal::TooLong => write!(text, "limit input {LIMIT}"),
        Refusal::Header(fault) => {
            let line = fault.line;
            let cause = header_cause_text(&fault.cause);
            write!(text, "header line {line}: {cause}")
        }
        Refusal::Line(line, fault) => write_sched_fault(*line, fault, text),
        Refusal::Event(line, fault) => write_event_fault(*line, fault, text),
    }
}

impl Refusal {
    /// The line on the error stream, with its line end.
    pub fn line(&self, alloc: Global) -> Result<String, AllocError>
        ensures { IfOk result (λ text. string_bytes text ≡ error_text (Some (fault_of self.now))) }
    {
        let mut text = String::new(alloc);
        write!(text, "mdcc: ")?;
        write_fault(self, &mut text)?;
        write!(text, "\n")?;
        Ok(text)
    }
}
