//! The header of a history.
ghost use Rattle.std.specs.Prelude.{◌≡◌, ◌++◌, ◌∷◌, [], ◌+◌, ◌≤◌, ◌<◌, codes, length, true, IfOk, OnOk};
ghost use Rattle.mdcc_option.specs.Bounds.{IsSchema, is_bound};
ghost use Rattle.mdcc_def_language.specs.Header.{all_of, bound_line, bound_of, bounds_lines, header_line, in_order, is_version, whole_line};
ghost use Rattle.mdcc_def_language.specs.Words.{end_at};
ghost use Rattle.mdcc_check_histories.specs.Grammar.{history_header, version_of};

use crate::places::{begins_with, bytes_of_line, line_end_of, word_after, word_at, word_end};
use crate::unread::Unread;
use mdcc_base::BoundedList;
use mdcc_def_language::{HeaderCause, HeaderFault, SchedCause};
use mdcc_option::{Schema, SchemaFault};
use mdcc_sched_words::TextFault;
use mdcc_sched_words::faults::refused;
use mdcc_sched_words::numbers::value_of;
use mdcc_sched_words::places::{end_at, text_eq};

// Lower and upper bounds, one pair for each attribute.
type Bounds = BoundedList<(i64, i64), 4>;

// Whether a line begins with the word that the order allows there.
fn in_order(word: &[u8], line: &[u8]) -> Result<(), TextFault>
    ensures value { result ≡ in_order word.now line.now }
    ensures within { OnOk result (length word.now ≤ length line.now) }
{
    if begins_with(word, line) {
        return Ok(());
    }
    refused(1, SchedCause::Order)
}

// The version of the form.
fn is_version(word: &[u8], column: usize) -> Result<(), TextFault>
    ensures { result ≡ is_version word.now column }
{
    if text_eq(word, b"1") {
        return Ok(());
    }
    refused(column, SchedCause::Word)
}

fn version_of(line: &[u8]) -> Result<(), TextFault>
    requires { 12 ≤ length line.now }
    ensures { result ≡ version_of line.now }
{
    let start = word_after(12, line)?;
    is_version(word_at(start, line), start + 1)?;
    end_at(word_end(start, line), line, 1)
}

fn bound_of(line: &[u8]) -> Result<(i64, i64), TextFault>
    requires { 5 ≤ length line.now }
    ensures { result ≡ bound_of line.now }
{
    let start = word_after(5, line)?;
    let lower = value_of(word_at(start, line), start + 1)?;
    let next = word_after(word_end(start, line), line)?;
    let upper = value_of(word_at(next, line), next + 1)?;
    end_at(word_end(next, line), line, 1)?;
    Ok((lower, upper))
}

// `mdcc-history 1`, with its line end.
fn whole_version(line: &[u8]) -> Result<(), TextFault>
    ensures { result ≡ whole_line (codes "mdcc-history") version_of line.now }
{
    let text = bytes_of_line(line);
    in_order(b"mdcc-history", text)?;
    version_of(text)?;
    line_end_of(text, line)
}

// `bound LOWER UPPER`, with its line end.
fn whole_bound(line: &[u8]) -> Result<(i64, i64), TextFault>
    ensures { result ≡ whole_line (codes "bound") bound_of line.now }
{
    let text = bytes_of_line(line);
    in_order(b"bound", text)?;
    let bounds = bound_of(text)?;
    line_end_of(text, line)?;
    Ok(bounds)
}

// `start`, with its line end.
fn whole_start(line: &[u8]) -> Result<(), TextFault>
    ensures { result ≡ whole_line (codes "start") (λ text. end_at 5 text 1) line.now }
{
    let text = bytes_of_line(line);
    in_order(b"start", text)?;
    end_at(5, text, 1)?;
    line_end_of(text, line)
}

// `mdcc-history 1`
fn version_line<'a>(unread: &Unread<'a>) -> Result<((), Unread<'a>), HeaderFault>
    requires { unread.now.number ≤ 100 }
    ensures value { result ≡ header_line (codes "mdcc-history") version_of unread.now }
    ensures next { IfOk result (λ line. line.1.number ≡ unread.now.number + 1) }
{
    unread.read_line(whole_version(unread.next_line()))?;
    Ok(((), unread.without_next()))
}

// Whether bounds are those of an attribute.
fn is_bound(bounds: (i64, i64)) -> bool
    ensures { result ≡ is_bound bounds }
{
    Schema::new(&[bounds]).is_ok()
}

// `bound LOWER UPPER`, the n-th.
fn bound_line<'a>(n: u8, unread: &Unread<'a>) -> Result<((i64, i64), Unread<'a>), HeaderFault>
    requires { unread.now.number ≤ 100 }
    ensures value { result ≡ bound_line n unread.now }
    ensures good { IfOk result (λ bounds. is_bound bounds.0 ≡ true) }
    ensures next { IfOk result (λ bounds. bounds.1.number ≡ unread.now.number + 1) }
{
    let bounds = unread.read_line(whole_bound(unread.next_line()))?;
    if !is_bound(bounds) {
        return unread.refused(HeaderCause::Schema(SchemaFault::Bound(n)));
    }
    Ok((bounds, unread.without_next()))
}

// Adds bounds behind the others.
fn push_bound(bounds: &mut Bounds, next: &(i64, i64))
    requires { length bounds.old < 4 }
    ensures { bounds.new ≡ bounds.old ++ next.now ∷ [] }
{
    bounds.push(*next);
}

// One to four lines `bound`.
fn bounds_lines<'a>(left: &Unread<'a>) -> Result<(Bounds, Unread<'a>), HeaderFault>
    requires { left.now.number ≤ 90 }
    ensures value { result ≡ bounds_lines left.now }
    ensures schema { IfOk result (λ bounds. IsSchema bounds.0) }
    ensures number { IfOk result (λ bounds. bounds.1.number ≤ left.now.number + 4) }
{
    let (first, mut rest) = bound_line(1, left)?;
    let mut bounds: Bounds = BoundedList::new();
    push_bound(&mut bounds, &first);
    while bounds.len() < 4 && rest.is_next(b"bound") {
        let (next, behind) = bound_line(bounds.len() as u8 + 1, &rest)?;
        push_bound(&mut bounds, &next);
        rest = behind;
    }
    Ok((bounds, rest))
}

// `start`
fn start_line<'a>(unread: &Unread<'a>) -> Result<((), Unread<'a>), HeaderFault>
    requires { unread.now.number ≤ 100 }
    ensures value { result ≡ header_line (codes "start") (λ line. end_at 5 line 1) unread.now }
    ensures next { IfOk result (λ line. line.1.number ≡ unread.now.number + 1) }
{
    unread.read_line(whole_start(unread.next_line()))?;
    Ok(((), unread.without_next()))
}

// The schema of bounds that make one.
fn schema_of(bounds: &Bounds) -> Schema
    requires { IsSchema bounds.now }
    ensures { result ≡ bounds.now }
{
    Schema::new(bounds.as_slice()).unwrap()
}

// The lines of a header in their order, and what is left behind them.
fn read_lines<'a>(unread: &Unread<'a>) -> Result<(Schema, Unread<'a>), HeaderFault>
    requires { unread.now.number ≤ 1 }
    ensures value { result ≡ history_header unread.now }
    ensures few { IfOk result (λ header. header.1.number ≤ 7) }
{
    let (_, unread) = version_line(unread)?;
    let (bounds, unread) = bounds_lines(&unread)?;
    let (_, unread) = start_line(&unread)?;
    Ok((schema_of(&bounds), unread))
}

/// Reads the header at the front of a history: the schema, and what is left behind it. A refusal names the first line that is refused,
/// from 1; where a line is missing it is the one behind the last.
pub fn parse_header<'a>(text: &'a [u8]) -> Result<(Schema, Unread<'a>), HeaderFault>
    requires { length text.now ≤ 67108864 }
    ensures value { result ≡ history_header (all_of text.now) }
    ensures few { IfOk result (λ header. header.1.number ≤ 7) }
{
    read_lines(&Unread::new(text))
}
