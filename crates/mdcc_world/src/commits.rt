//! What a step lets out: its fact, once it is durable, then its messages, and lines of the report.
ghost use Rattle.std.specs.Prelude.{◌≡◌, ◌≤◌, ◌++◌, ◌∷◌, Bool, List, OnErr, OnOk, false, length, map, true, ℕ};
ghost use Rattle.mdcc_base.specs.Sizes.{Sizes};
ghost use Rattle.mdcc_world_logs.specs.Represents.{LogsRepresent};
ghost use Rattle.mdcc_world_logs.specs.Tails.{HasTail, tail_at};
ghost use Rattle.mdcc_world_decisions.specs.Represents.{RepresentsLedger};
ghost use Rattle.mdcc_def_ledger.specs.Ledger.{Added, Entry};
ghost use Rattle.mdcc_def_protocol.specs.Marks.{is_commit};
ghost use Rattle.mdcc_def_simulation.specs.AppliedSteps.{chosen_lines, heard_lines};
ghost use Rattle.mdcc_def_messages.specs.Mailbox.{unsent};
ghost use Rattle.mdcc_def_messages.specs.declared.facts.Fact.{Fact as AFact};
ghost use Rattle.mdcc_world.specs.StepOutputs.{IsFramed, facts_with, tail_with_new_fact};
ghost use Rattle.mdcc_world.specs.StoppedAppend.{kept_entries, kept_lines};
ghost use Rattle.mdcc_world.specs.Report.{dropped_lines};
ghost use Rattle.mdcc_theorem_worlds.specs.StepEffects.{chosen_line, fact_lines, step_lines, ledger_with_fact};
ghost use Rattle.mdcc_def_simulation.specs.Checkpoints.{is_frame_kept};

use mdcc_base::{Centre, HeapList, Image, Memory, TxId};
use mdcc_def_language::Line;
use mdcc_def_messages::Fact;
use mdcc_def_rules::StepFault;
use mdcc_option::Outcome;
use mdcc_world_decisions::Decisions;
use mdcc_world_logs::Logs;
use mdcc_world_mail::{MessageBatch, Network};
use std::alloc::Global;

// Whether a transaction committed.
fn is_commit(outcome: &Outcome) -> bool
    ensures { result ≡ is_commit outcome.now }
{
    matches!(outcome, Outcome::Commit(_))
}

// The lines of transactions that ended: true is commit.
fn push_chosen(lines: &mut HeapList<Line>, endings: &[(TxId, bool)]) -> Result<(), Memory>
    ensures { OnOk result (lines.new ≡ lines.old ++ map chosen_line endings.now) }
{
    for ending in endings {
        lines.push(Line::Chosen(ending.0, ending.1))?;
    }
    Ok(())
}

// The line of an outcome that a fact tells.
fn push_heard(lines: &mut HeapList<Line>, centre: Centre, fact: &Fact) -> Result<(), Memory>
    ensures { OnOk result (lines.new ≡ lines.old ++ heard_lines centre fact.now) }
{
    if let Fact::Heard { tx, outcome } = fact {
        lines.push(Line::Heard(centre, *tx, is_commit(outcome)))?;
    }
    Ok(())
}

/// The line of a refusal for want of room.
pub(crate) fn push_dropped(
    lines: &mut HeapList<Line>,
    centre: Centre,
    fault: &StepFault,
) -> Result<(), Memory>
    ensures { OnOk result (lines.new ≡ lines.old ++ dropped_lines centre fault.now) }
{
    if let StepFault::NoRoom { needed, spare } = fault {
        lines.push(Line::Dropped(centre, *needed, *spare))?;
    }
    Ok(())
}

// A fact counts at a centre: the transactions that it decides.
fn count_fact(
    decisions: &mut Decisions,
    centre: Centre,
    fact: &Fact,
    lines: &mut HeapList<Line>,
) -> Result<(), Memory>
    ensures ledger { (quorums : Sizes) (entries : List Entry) → RepresentsLedger decisions.old quorums entries
        → OnOk result (RepresentsLedger decisions.new quorums (Added centre fact.now ∷ entries)) }
    ensures lines { (quorums : Sizes) (entries : List Entry) → RepresentsLedger decisions.old quorums entries
        → OnOk result (lines.new ≡ lines.old ++ chosen_lines quorums (Added centre fact.now) entries) }
{
    let endings = decisions.add(centre.number(), fact)?;
    push_chosen(lines, endings.as_slice())?;
    Ok(())
}

// Whether the frame of a fact is there after a stop: from the third call on where it is kept, and in the checkpoint behind it always.
fn is_frame_kept(call: u8, image: Image) -> bool
    ensures { result ≡ is_frame_kept call image }
{
    match image {
        Image::Kept => call >= 3,
        _ => call >= 5,
    }
}

/// The fact of a step that was struck counts where its frame is in the image.
pub(crate) fn count_kept(
    decisions: &mut Decisions,
    centre: Centre,
    fact: &Fact,
    call: u8,
    image: Image,
    lines: &mut HeapList<Line>,
) -> Result<(), Memory>
    ensures ledger { (quorums : Sizes) (entries : List Entry) → RepresentsLedger decisions.old quorums entries
        → OnOk result (RepresentsLedger decisions.new quorums (kept_entries centre fact.now call image entries)) }
    ensures lines { (quorums : Sizes) (entries : List Entry) → RepresentsLedger decisions.old quorums entries
        → OnOk result (lines.new ≡ lines.old ++ kept_lines quorums centre fact.now call image entries) }
{
    if is_frame_kept(call, image) {
        count_fact(decisions, centre, fact, lines)
    } else {
        Ok(())
    }
}

// A fact is added at a centre.
fn add_fact(
    decisions: &mut Decisions,
    centre: Centre,
    fact: &Fact,
    lines: &mut HeapList<Line>,
) -> Result<(), Memory>
    ensures ledger { (quorums : Sizes) (entries : List Entry) → RepresentsLedger decisions.old quorums entries
        → OnOk result (RepresentsLedger decisions.new quorums (Added centre fact.now ∷ entries)) }
    ensures lines { (quorums : Sizes) (entries : List Entry) → RepresentsLedger decisions.old quorums entries
        → OnOk result (lines.new ≡ lines.old ++ fact_lines quorums centre fact.now entries) }
{
    count_fact(decisions, centre, fact, lines)?;
    push_heard(lines, centre, fact)?;
    Ok(())
}

/// The fact of a step counts, where it has one.
pub(crate) fn report_fact(
    decisions: &mut Decisions,
    centre: Centre,
    fact: &Option<Fact>,
    lines: &mut HeapList<Line>,
) -> Result<(), Memory>
    ensures ledger { (quorums : Sizes) (entries : List Entry) → RepresentsLedger decisions.old quorums entries
        → OnOk result (RepresentsLedger decisions.new quorums (ledger_with_fact centre fact.now entries)) }
    ensures lines { (quorums : Sizes) (entries : List Entry) → RepresentsLedger decisions.old quorums entries
        → OnOk result (lines.new ≡ lines.old ++ step_lines quorums centre fact.now entries) }
{
    match fact {
        Some(fact) => {
            add_fact(decisions, centre, fact, lines)?;
            Ok(())
        }
        None => Ok(()),
    }
}

// The fact of a step is made durable, where it has one.
fn append_fact(
    alloc: Global,
    logs: &mut Logs,
    centre: Centre,
    fact: &Option<Fact>,
) -> Result<(), Memory>
    requires within { centre ≤ length logs.old.open.items }
    requires framed { IsFramed logs.old centre fact.now }
    ensures logs { (centres : ℕ) (up : ℕ → Bool) (facts : ℕ → List AFact) → LogsRepresent logs.old centres up facts → up centre ≡ true
        → OnOk result (LogsRepresent logs.new centres up (facts_with facts centre fact.now)) }
    ensures tail { (centres : ℕ) (up : ℕ → Bool) (facts : ℕ → List AFact) → LogsRepresent logs.old centres up facts → up centre ≡ true
        → OnOk result (HasTail logs.old logs.new centre (tail_with_new_fact (tail_at logs.old centre) fact.now)) }
{
    match fact {
        Some(fact) => logs.append(alloc, centre, fact),
        None => Ok(()),
    }
}

/// The fact of a step is made durable, and only then its messages count as sent. After a refusal
/// what was sent is as it was.
pub(crate) fn persist_then_send(
    alloc: Global,
    logs: &mut Logs,
    network: &mut Network,
    centre: Centre,
    fact: &Option<Fact>,
    batch: MessageBatch,
) -> Result<(), Memory>
    requires within { centre ≤ length logs.old.open.items }
    requires framed { IsFramed logs.old centre fact.now }
    ensures logs { (centres : ℕ) (up : ℕ → Bool) (facts : ℕ → List AFact) → LogsRepresent logs.old centres up facts → up centre ≡ true
        → OnOk result (LogsRepresent logs.new centres up (facts_with facts centre fact.now)) }
    ensures tail { (centres : ℕ) (up : ℕ → Bool) (facts : ℕ → List AFact) → LogsRepresent logs.old centres up facts → up centre ≡ true
        → OnOk result (HasTail logs.old logs.new centre (tail_with_new_fact (tail_at logs.old centre) fact.now)) }
    ensures sent { OnOk result (network.new ≡ network.old ++ map unsent batch) }
    ensures unsent { OnErr result (network.new ≡ network.old) }
{
    append_fact(alloc, logs, centre, fact)?;
    network.send(batch)?;
    Ok(())
}
