//! The lines of a client.
ghost use Rattle.std.specs.Prelude.{◌≡◌, ◌++◌, IfOk, OnOk};
ghost use Rattle.std.specs.String.{string_bytes};
ghost use Rattle.mdcc_command_ask.specs.Texts.{begin_line, draft_line};
ghost use Rattle.mdcc_def_language.specs.Report.{line_text};

use mdcc_base::{HeapList, Memory, TxId};
use mdcc_command_replay::draft_fault_text;
use mdcc_def_language::Line;
use mdcc_option::DraftFault;
use mdcc_sched::print_line;
use std::alloc::{AllocError, Global};

/// The text of a line as in a report.
pub(crate) fn line_of(alloc: Global, line: &Line) -> Result<HeapList<u8>, Memory>
    ensures { IfOk result (λ text. text ≡ line_text line.now) }
{
    let mut text = Vec::new(alloc);
    print_line(line, &mut text)?;
    Ok(HeapList::from_vec(text))
}

// Adds that a transaction was begun.
fn write_begun(tx: &TxId, text: &mut String) -> Result<(), AllocError>
    ensures { OnOk result (string_bytes text.new ≡ string_bytes text.old ++ begin_line tx.now) }
{
    write!(text, "begin {tx}\n")
}

/// The text that a transaction was begun.
pub(crate) fn begin_line(alloc: Global, tx: &TxId) -> Result<HeapList<u8>, Memory>
    ensures { IfOk result (λ text. text ≡ begin_line tx.now) }
{
    let mut text = String::new(alloc);
    write_begun(tx, &mut text)?;
    Ok(HeapList::from_vec(text.into_bytes()))
}

// Adds that parts make no transaction.
fn write_draft(fault: &DraftFault, text: &mut String) -> Result<(), AllocError>
    ensures { OnOk result (string_bytes text.new ≡ string_bytes text.old ++ draft_line fault.now) }
{
    let cause = draft_fault_text(fault);
    write!(text, "begin refused {cause}\n")
}

/// The text that parts make no transaction.
pub(crate) fn draft_line(alloc: Global, fault: &DraftFault) -> Result<HeapList<u8>, Memory>
    ensures { IfOk result (λ text. text ≡ draft_line fault.now) }
{
    let mut text = String::new(alloc);
    write_draft(fault, &mut text)?;
    Ok(HeapList::from_vec(text.into_bytes()))
}

/// A text behind another.
pub(crate) fn joined(
    alloc: Global,
    first: &HeapList<u8>,
    second: &HeapList<u8>,
) -> Result<HeapList<u8>, AllocError>
    ensures { IfOk result (λ text. text ≡ first.now ++ second.now) }
{
    let mut text = Vec::new(alloc);
    text.extend_from_slice(first.as_slice())?;
    text.extend_from_slice(second.as_slice())?;
    Ok(HeapList::from_vec(text))
}
