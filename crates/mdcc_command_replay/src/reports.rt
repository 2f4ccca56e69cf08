//! Replays an input, line by line.
ghost use Rattle.std.specs.Prelude.{◌≡◌, ◌+◌, ◌<◌, ◌≤◌, ◌^◌, ◌∷◌, [], List, ℕ, length, IfErr, IfOk, IsErrOf, IsOkAnd, None, Ok, Some};
ghost use Rattle.std.specs.Bool.{OnFalse};
ghost use Rattle.mdcc_base.specs.AreQuorums.{AreQuorums};
ghost use Rattle.mdcc_base.specs.Causes.{Rose};
ghost use Rattle.mdcc_option.specs.Bounds.{IsSchema};
ghost use Rattle.mdcc_option.specs.declared.cluster.Cluster.{Cluster as ACluster};
ghost use Rattle.mdcc_sched.specs.Headers.{numbered_header};
ghost use Rattle.mdcc_def_language.specs.Lines.{lines_in};
ghost use Rattle.mdcc_def_simulation.specs.Replay.{lines_replayed, replay_of};
ghost use Rattle.mdcc_def_language.specs.Report.{lines_text};
ghost use Rattle.mdcc_def_simulation.specs.State.{World as AWorld};
ghost use Rattle.mdcc_def_simulation.specs.Events.{after_event};
ghost use Rattle.mdcc_command_replay.specs.Runs.{event_reported};
ghost use Rattle.mdcc_command_replay.specs.Writing.{IsLeftBy, LeavesLast, Replayed, ReplayedTo, StandsLast, refusal_in};
ghost use Rattle.mdcc_def_simulation.specs.Limits.{is_out_of_memory};

use crate::lines::{behind, header_text, is_sched_memory, split_line};
use crate::writing::{line_text, lines_text, write_text};
use crate::{Failure, Refusal, Simulation};
use mdcc_base::{HeapList, LIMIT, Plain, Sink};
use mdcc_def_language::{Event, EventFault};
use mdcc_option::Cluster;
use mdcc_sched::{parse_line, parse_numbered_header};
use std::alloc::Global;

/// How a replay ended.
#[derive(Drop)]
pub enum Ended<W: Drop> {
    /// The input was read to its end, and this is what it left.
    Whole(W),
    /// It ended before, and this is why.
    Early(Refusal),
}

// Whether it is want of memory.
fn is_event_memory(fault: &EventFault) -> bool
    ensures { result ≡ is_out_of_memory fault.now }
{
    match fault {
        EventFault::Memory => true,
        _ => false,
    }
}

// The text that an event adds.
fn event_text<W: Simulation>(
    alloc: Global,
    world: &mut W,
    event: &Event,
) -> Result<Vec<u8>, EventFault>
    requires known { (w : AWorld) × W.stands world.old w }
    ensures ok { (w : AWorld) → W.stands world.old w → IfOk result (λ text.
        IsOkAnd (after_event w event.now) (λ h. (text.items ≡ lines_text h.lines) × W.stands world.new h.world)) }
    ensures err { (w : AWorld) → W.stands world.old w → IfErr result (λ fault.
        OnFalse (is_out_of_memory fault) (after_event w event.now ≡ Err fault)) }
{
    let mut lines = HeapList::new(alloc);
    world.take(event, &mut lines)?;
    let text = lines_text(alloc, lines.as_slice())?;
    Ok(text)
}

// Takes an event, and writes its lines where it is not refused.
fn replay_event<W: Simulation, O: Sink>(
    alloc: Global,
    world: &mut W,
    number: u32,
    event: &Event,
    out: &mut O,
) -> Result<Option<Refusal>, Failure>
    requires known { (w : AWorld) × W.stands world.old w }
    ensures written { (w : AWorld) (cluster : ACluster) (lines : List (List ℕ)) → W.stands world.old w
        → ReplayedTo (λ next. W.stands world.new next) (O.held out.old) (O.held out.new) (event_reported cluster number w lines (after_event w event.now))
        (λ next. lines_replayed cluster (number + 1) next lines) result }
    ensures later { O.faults out.old ≤ O.faults out.new }
    ensures failed { IsErrOf result Failure.Output → Rose (O.faults out.old) (O.faults out.new) }
{
    match event_text(alloc, world, event) {
        Ok(text) => {
            write_text(out, text.as_slice())?;
            Ok(None)
        }
        Err(fault) => {
            if is_event_memory(&fault) {
                return Err(Failure::Memory);
            }
            Ok(Some(Refusal::Event(number, fault)))
        }
    }
}

// Takes a line.
fn replay_line<W: Simulation, O: Sink>(
    alloc: Global,
    cluster: &Cluster,
    world: &mut W,
    number: u32,
    line: &[u8],
    out: &mut O,
) -> Result<Option<Refusal>, Failure>
    requires { (w : AWorld) × W.stands world.old w }
    ensures written { (w : AWorld) (lines : List (List ℕ)) → W.stands world.old w
        → ReplayedTo (λ next. W.stands world.new next) (O.held out.old) (O.held out.new) (lines_replayed cluster.now number w (line.now ∷ lines))
        (λ next. lines_replayed cluster.now (number + 1) next lines) result }
    ensures later { O.faults out.old ≤ O.faults out.new }
    ensures failed { IsErrOf result Failure.Output → Rose (O.faults out.old) (O.faults out.new) }
{
    match parse_line(alloc, line, cluster) {
        Ok(None) => Ok(None),
        Ok(Some(event)) => replay_event(alloc, world, number, &event, out),
        Err(fault) => {
            if is_sched_memory(&fault) {
                return Err(Failure::Memory);
            }
            Ok(Some(Refusal::Line(number, fault)))
        }
    }
}

// Writes the last line.
fn write_end<W: Simulation, O: Sink>(
    alloc: Global,
    world: &W,
    out: &mut O,
) -> Result<Option<Refusal>, Failure>
    ensures written { (w : AWorld) (cluster : ACluster) (number : ℕ) → W.stands world.now w
        → Replayed (O.held out.old) (O.held out.new) (lines_replayed cluster number w []) result }
    ensures later { O.faults out.old ≤ O.faults out.new }
    ensures failed { IsErrOf result Failure.Output → Rose (O.faults out.old) (O.faults out.new) }
{
    let line = world.last_line();
    let text = line_text(alloc, &line)?;
    write_text(out, text.as_slice())?;
    Ok(None)
}

// Takes the lines of a text, up to the first that is refused. The first has this number.
fn replay_lines<W: Simulation, O: Sink>(
    alloc: Global,
    cluster: &Cluster,
    world: &mut W,
    first: u32,
    text: &[u8],
    out: &mut O,
) -> Result<Option<Refusal>, Failure>
    requires few { first + length text.now < 2 ^ 32 }
    requires known { (w : AWorld) × W.stands world.old w }
    ensures written { (w : AWorld) → W.stands world.old w
        → Replayed (O.held out.old) (O.held out.new) (lines_replayed cluster.now first w (lines_in text.now)) result }
    ensures last { (w : AWorld) → W.stands world.old w → result ≡ Ok None
        → StandsLast (λ next. W.stands world.new next) (lines_replayed cluster.now first w (lines_in text.now)) }
    ensures later { O.faults out.old ≤ O.faults out.new }
    ensures failed { IsErrOf result Failure.Output → Rose (O.faults out.old) (O.faults out.new) }
{
    let mut number = first;
    let mut rest = text;
    while !rest.is_empty() {
        let (line, others) = split_line(rest);
        if let Some(refusal) = replay_line(alloc, cluster, world, number, line, out)? {
            return Ok(Some(refusal));
        }
        number += 1;
        rest = others;
    }
    write_end(alloc, world, out)
}

// Quorums meet and bounds are good, by their types.
fn types_hold(cluster: &Cluster)
    ensures quorums { AreQuorums cluster.now.quorums }
    ensures schema { IsSchema cluster.now.schema }
{
    let _ = cluster.quorums.centres();
    let _ = cluster.schema.bounds();
}

// What a replay leaves, where it came to the end of the lines.
fn left_by<W: Drop>(
    replayed: Result<Option<Refusal>, Failure>,
    world: W,
) -> Result<Ended<W>, Failure>
    ensures { IsLeftBy replayed world result }
{
    match replayed? {
        Some(refusal) => Ok(Ended::Early(refusal)),
        None => Ok(Ended::Whole(world)),
    }
}

// Replays an input behind its header, which ends before this place. The line there has this number.
fn replay_after_header<W: Simulation + Drop, O: Sink>(
    alloc: Global,
    cluster: &Cluster,
    end: usize,
    first: u32,
    input: &[u8],
    out: &mut O,
) -> Result<Ended<W>, Failure>
    requires short { length input.now ≤ LIMIT }
    requires few { first ≤ 11 }
    requires header { numbered_header input.now ≡ Ok (cluster.now, end, first) }
    ensures written { Replayed (O.held out.old) (O.held out.new) (replay_of input.now) (refusal_in result) }
    ensures last { LeavesLast W.stands (replay_of input.now) result }
    ensures later { O.faults out.old ≤ O.faults out.new }
    ensures failed { IsErrOf result Failure.Output → Rose (O.faults out.old) (O.faults out.new) }
{
    let header = header_text(alloc, end, input)?;
    types_hold(cluster);
    let mut world = W::start(alloc, cluster.copy())?;
    write_text(out, header.as_slice())?;
    let replayed = replay_lines(alloc, cluster, &mut world, first, behind(end, input), out);
    left_by(replayed, world)
}

/// Replays an input: it writes the report, and answers what is left at the end of the input or why it
/// ended before. At want of memory or a write that failed a front of the report was written; nothing
/// is written of a line whose event is refused.
pub fn replay_to_end<W: Simulation + Drop, O: Sink>(
    alloc: Global,
    input: &[u8],
    out: &mut O,
) -> Result<Ended<W>, Failure>
    ensures written { Replayed (O.held out.old) (O.held out.new) (replay_of input.now) (refusal_in result) }
    ensures last { LeavesLast W.stands (replay_of input.now) result }
    ensures later { O.faults out.old ≤ O.faults out.new }
    ensures failed { IsErrOf result Failure.Output → Rose (O.faults out.old) (O.faults out.new) }
{
    if input.len() > LIMIT {
        return Ok(Ended::Early(Refusal::TooLong));
    }
    match parse_numbered_header(input) {
        Ok((cluster, end, first)) => {
            replay_after_header::<W, O>(alloc, &cluster, end, first, input, out)
        }
        Err(fault) => Ok(Ended::Early(Refusal::Header(fault))),
    }
}

/// The same, without what is left.
pub fn replay<W: Simulation + Drop, O: Sink>(
    alloc: Global,
    input: &[u8],
    out: &mut O,
) -> Result<Option<Refusal>, Failure>
    ensures written { Replayed (O.held out.old) (O.held out.new) (replay_of input.now) result }
    ensures later { O.faults out.old ≤ O.faults out.new }
    ensures failed { IsErrOf result Failure.Output → Rose (O.faults out.old) (O.faults out.new) }
{
    match replay_to_end::<W, O>(alloc, input, out)? {
        Ended::Whole(world) => {
            drop(world);
            Ok(None)
        }
        Ended::Early(refusal) => Ok(Some(refusal)),
    }
}
