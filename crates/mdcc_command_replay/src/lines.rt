//! Parts of an input.
ghost use Rattle.std.specs.Prelude.{◌≡◌, ◌++◌, ◌+◌, ◌∷◌, ◌<◌, ◌≤◌, codes, drop, length, take, IfOk};
ghost use Rattle.mdcc_def_language.specs.Lines.{lines_in};
ghost use Rattle.mdcc_def_language.specs.Report.{header_text};
ghost use Rattle.mdcc_sched.specs.Free.{is_sched_memory};

use mdcc_base::Memory;
use mdcc_def_language::{SchedCause, SchedFault};
use mdcc_sched_words::places::part_at;
use std::alloc::Global;

// The length of the first line of a schedule, with its line end.
const FIRST_LINE: usize = 16;

/// The bytes before a place.
fn before(place: usize, bytes: &[u8]) -> &[u8]
    ensures { result.now ≡ take place bytes.now }
{
    if place < bytes.len() {
        &bytes[..place]
    } else {
        bytes
    }
}

/// The bytes from a place on.
pub(crate) fn behind(place: usize, bytes: &[u8]) -> &[u8]
    ensures value { result.now ≡ drop place bytes.now }
    ensures within { length result.now ≤ length bytes.now }
{
    if place < bytes.len() {
        bytes.split_at(place).1
    } else {
        &[]
    }
}

/// The first line, with its line end where it has one, and the others.
pub(crate) fn split_line(text: &[u8]) -> (&[u8], &[u8])
    requires { 0 < length text.now }
    ensures lines { lines_in text.now ≡ result.0.now ∷ lines_in result.1.now }
    ensures shorter { length result.1.now < length text.now }
{
    let len = part_at(b'\n', 0, text).len();
    if len < text.len() {
        text.split_at(len + 1)
    } else {
        (text, &[])
    }
}

/// The header of a report.
pub(crate) fn header_text(alloc: Global, end: usize, input: &[u8]) -> Result<Vec<u8>, Memory>
    ensures { IfOk result (λ text. text.items ≡ header_text end input.now) }
{
    let mut text = Vec::from_slice(alloc, b"mdcc-report 1\n")?;
    text.extend_from_slice(behind(FIRST_LINE, before(end, input)))?;
    Ok(text)
}

/// Whether it is want of memory, as it comes from reading a line.
pub(crate) fn is_sched_memory(fault: &SchedFault) -> bool
    ensures { result ≡ is_sched_memory fault.now }
{
    let is_cause = match fault.cause {
        SchedCause::Memory => true,
        _ => false,
    };
    fault.column == 1 && is_cause
}
