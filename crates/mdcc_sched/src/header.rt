//! The header of a schedule.
ghost use Rattle.std.specs.Prelude.{◌≡◌, ◌++◌, ◌∷◌, [], ◌+◌, ◌≤◌, ◌<◌, codes, length, true, IfOk};
ghost use Rattle.mdcc_option.specs.Bounds.{IsSchema, is_bound};
ghost use Rattle.mdcc_def_language.specs.Header.{header_line, version_of, quorums_line, last_number, cells_line, limit_line, bound_line, bounds_lines, header_lines, header_of};
ghost use Rattle.mdcc_def_language.specs.Words.{end_at};
ghost use Rattle.mdcc_sched.specs.Headers.{numbered_header};

use crate::header_lines;
use crate::left::Left;
use mdcc_base::{BoundedList, Quorums};
use mdcc_def_language::{HeaderCause, HeaderFault};
use mdcc_option::{Cluster, FastLimit, Schema, SchemaFault};

// How many cells a node has where no line says them.
const DEFAULT_CELLS: u32 = 1_048_576;

// Lower and upper bounds, one pair for each attribute.
type Bounds = BoundedList<(i64, i64), 4>;

// `mdcc-schedule 1`
fn version_line<'a>(left: &Left<'a>) -> Result<((), Left<'a>), HeaderFault>
    requires { left.now.number ≤ 100 }
    ensures value { result ≡ header_line (codes "mdcc-schedule") version_of left.now }
    ensures next { IfOk result (λ line. line.1.number ≡ left.now.number + 1) }
{
    left.read_line(header_lines::version_line(left.next_line()))?;
    Ok(((), left.without_next()))
}

// `quorums N C F`
fn quorums_line<'a>(left: &Left<'a>) -> Result<(Quorums, Left<'a>), HeaderFault>
    requires { left.now.number ≤ 100 }
    ensures value { result ≡ quorums_line left.now }
    ensures next { IfOk result (λ line. line.1.number ≡ left.now.number + 1) }
{
    let (n, c, f) = left.read_line(header_lines::quorums_line(left.next_line()))?;
    match Quorums::new(n, c, f) {
        Ok(quorums) => Ok((quorums, left.without_next())),
        Err(fault) => left.refused(HeaderCause::Quorums(fault)),
    }
}

// `gamma G`
fn gamma_line<'a>(left: &Left<'a>) -> Result<(u64, Left<'a>), HeaderFault>
    requires { left.now.number ≤ 100 }
    ensures value { result ≡ header_line (codes "gamma") (last_number 0 1000 5) left.now }
    ensures next { IfOk result (λ line. line.1.number ≡ left.now.number + 1) }
{
    let gamma = left.read_line(header_lines::gamma_line(left.next_line()))?;
    Ok((gamma, left.without_next()))
}

// `cells C`, which may be left out.
fn cells_line<'a>(left: Left<'a>) -> Result<(u32, Left<'a>), HeaderFault>
    requires { left.number ≤ 50 }
    ensures value { result ≡ cells_line left.entry }
    ensures next { IfOk result (λ line. line.1.number ≤ left.entry.number + 1) }
{
    if !left.is_next(b"cells") {
        return Ok((DEFAULT_CELLS, left));
    }
    let cells = left.read_line(header_lines::cells_line(left.next_line()))?;
    Ok((cells as u32, left.without_next()))
}

// `limit safe` or `limit paper`, which may be left out.
fn limit_line<'a>(left: Left<'a>) -> Result<(FastLimit, Left<'a>), HeaderFault>
    requires { left.number ≤ 50 }
    ensures value { result ≡ limit_line left.entry }
    ensures next { IfOk result (λ line. line.1.number ≤ left.entry.number + 1) }
{
    if !left.is_next(b"limit") {
        return Ok((FastLimit::Safe, left));
    }
    let limit = left.read_line(header_lines::limit_line(left.next_line()))?;
    Ok((limit, left.without_next()))
}

// Whether bounds are those of an attribute.
fn is_bound(bounds: (i64, i64)) -> bool
    ensures { result ≡ is_bound bounds }
{
    Schema::new(&[bounds]).is_ok()
}

// `bound LOWER UPPER`, the n-th.
fn bound_line<'a>(n: u8, left: &Left<'a>) -> Result<((i64, i64), Left<'a>), HeaderFault>
    requires { left.now.number ≤ 100 }
    ensures value { result ≡ bound_line n left.now }
    ensures good { IfOk result (λ bounds. is_bound bounds.0 ≡ true) }
    ensures next { IfOk result (λ bounds. bounds.1.number ≡ left.now.number + 1) }
{
    let bounds = left.read_line(header_lines::bound_line(left.next_line()))?;
    if !is_bound(bounds) {
        return left.refused(HeaderCause::Schema(SchemaFault::Bound(n)));
    }
    Ok((bounds, left.without_next()))
}

// Adds bounds behind the others.
fn push_bound(bounds: &mut Bounds, next: &(i64, i64))
    requires { length bounds.old < 4 }
    ensures { bounds.new ≡ bounds.old ++ next.now ∷ [] }
{
    bounds.push(*next);
}

// One to four lines `bound`.
fn bounds_lines<'a>(left: &Left<'a>) -> Result<(Bounds, Left<'a>), HeaderFault>
    requires { left.now.number ≤ 90 }
    ensures value { result ≡ bounds_lines left.now }
    ensures schema { IfOk result (λ bounds. IsSchema bounds.0) }
    ensures number { IfOk result (λ bounds. bounds.1.number ≤ left.now.number + 4) }
{
    let (first, mut rest) = bound_line(1, left)?;
    let mut bounds: Bounds = BoundedList::new();
    push_bound(&mut bounds, &first);
    while bounds.len() < 4 && rest.is_next(b"bound") {
        let (next, behind) = bound_line(bounds.len() as u8 + 1, &rest)?;
        push_bound(&mut bounds, &next);
        rest = behind;
    }
    Ok((bounds, rest))
}

// `start`
fn start_line<'a>(left: &Left<'a>) -> Result<((), Left<'a>), HeaderFault>
    requires { left.now.number ≤ 100 }
    ensures value { result ≡ header_line (codes "start") (λ line. end_at 5 line 1) left.now }
    ensures next { IfOk result (λ line. line.1.number ≡ left.now.number + 1) }
{
    left.read_line(header_lines::start_line(left.next_line()))?;
    Ok(((), left.without_next()))
}

// The schema of bounds that make one.
fn schema_of(bounds: &Bounds) -> Schema
    requires { IsSchema bounds.now }
    ensures { result ≡ bounds.now }
{
    Schema::new(bounds.as_slice()).unwrap()
}

// The lines of a header in their order, and what is left behind them.
fn read_lines<'a>(left: &Left<'a>) -> Result<(Cluster, Left<'a>), HeaderFault>
    requires { left.now.number ≤ 1 }
    ensures value { result ≡ header_lines left.now }
    ensures few { IfOk result (λ header. header.1.number ≤ 11) }
{
    let (_, left) = version_line(left)?;
    let (quorums, left) = quorums_line(&left)?;
    let (gamma, left) = gamma_line(&left)?;
    let (cells, left) = cells_line(left)?;
    let (limit, left) = limit_line(left)?;
    let (bounds, left) = bounds_lines(&left)?;
    let (_, left) = start_line(&left)?;
    let cluster = Cluster {
        quorums,
        schema: schema_of(&bounds),
        gamma,
        cells,
        limit,
    };
    Ok((cluster, left))
}

/// Reads the header at the front of a text: the cluster, and how many bytes the header has. A
/// refusal names the first line that is refused, from 1; where a line is missing it is the one
/// behind the last.
pub fn parse_header(text: &[u8]) -> Result<(Cluster, usize), HeaderFault>
    ensures { result ≡ header_of text.now }
{
    let (cluster, left) = read_lines(&Left::new(text))?;
    Ok((cluster, left.place()))
}

/// Reads the header as `parse_header` does, and gives also the number of the first line behind it. How
/// many lines a header has is not said by its cluster, since the lines of the cells and of the safe limit may be left out.
pub fn parse_numbered_header(text: &[u8]) -> Result<(Cluster, usize, u32), HeaderFault>
    ensures value { result ≡ numbered_header text.now }
    ensures few { IfOk result (λ header. header.2 ≤ 11) }
{
    let (cluster, left) = read_lines(&Left::new(text))?;
    Ok((cluster, left.place(), left.number()))
}
