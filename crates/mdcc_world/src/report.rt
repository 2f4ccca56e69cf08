//! Lines of the report, one behind the other.
ghost use Rattle.std.specs.Prelude.{◌≡◌, ◌++◌, ◌∷◌, IfErr, OnErr, OnOk};
ghost use Rattle.mdcc_def_language.specs.declared.world.EventFault.{EventFault as AFault};
ghost use Rattle.mdcc_world.specs.Report.{lines_begun};

use mdcc_base::{HeapList, Memory, Plain};
use mdcc_def_language::{EventFault, Line};
use mdcc_def_rules::Answer;
use std::alloc::Global;
use std::mem;

// Puts lines after others: all of them, or none where there is no memory.
fn extend(lines: &mut Vec<Line>, more: Vec<Line>) -> Result<(), Memory>
    ensures ok { OnOk result (lines.new.items ≡ lines.old.items ++ more.items) }
    ensures err { OnErr result (lines.new.items ≡ lines.old.items) }
{
    lines.try_reserve(more.len())?;
    for line in more {
        let _put = lines.push(line).is_ok();
    }
    Ok(())
}

/// Puts lines after others: all of them, or none where there is no memory.
pub(crate) fn append(
    alloc: Global,
    lines: &mut HeapList<Line>,
    more: HeapList<Line>,
) -> Result<(), Memory>
    ensures ok { OnOk result (lines.new ≡ lines.old ++ more) }
    ensures err { OnErr result (lines.new ≡ lines.old) }
{
    let mut all = mem::replace(lines, HeapList::new(alloc)).into_vec();
    let extended = extend(&mut all, more.into_vec());
    *lines = HeapList::from_vec(all);
    extended
}

/// A line and those that come after it: all of them, or none where there is no memory.
pub(crate) fn report_event(
    alloc: Global,
    lines: &mut HeapList<Line>,
    first: Line,
    reported: HeapList<Line>,
) -> Result<(), EventFault>
    ensures ok { OnOk result (lines.new ≡ lines.old ++ first ∷ reported) }
    ensures memory { IfErr result (λ fault. fault ≡ AFault.Memory) }
    ensures err { OnErr result (lines.new ≡ lines.old) }
{
    let mut all = HeapList::new(alloc);
    all.push(first)?;
    append(alloc, &mut all, reported)?;
    append(alloc, lines, all)?;
    Ok(())
}

// The line of a begin, before the next message.
fn push_begun(lines: &mut HeapList<Line>, answer: &Option<Answer>, next: u32) -> Result<(), Memory>
    ensures { OnOk result (lines.new ≡ lines.old ++ lines_begun answer.now next) }
{
    match answer {
        Some(Answer::Begun(tx)) => lines.push(Line::Begun(*tx, next))?,
        Some(Answer::Refused(key, fault)) => lines.push(Line::Refused(*key, fault.copy()))?,
        _ => {}
    }
    Ok(())
}

/// The line of a begin, before the next message, and those that come after it: all of them, or none
/// where there is no memory.
pub(crate) fn report_begun(
    alloc: Global,
    lines: &mut HeapList<Line>,
    answer: &Option<Answer>,
    next: u32,
    reported: HeapList<Line>,
) -> Result<(), EventFault>
    ensures ok { OnOk result (lines.new ≡ lines.old ++ (lines_begun answer.now next ++ reported)) }
    ensures memory { IfErr result (λ fault. fault ≡ AFault.Memory) }
    ensures err { OnErr result (lines.new ≡ lines.old) }
{
    let mut all = HeapList::new(alloc);
    push_begun(&mut all, answer, next)?;
    append(alloc, &mut all, reported)?;
    append(alloc, lines, all)?;
    Ok(())
}
