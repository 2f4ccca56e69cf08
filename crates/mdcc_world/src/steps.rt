//! A step is taken: what it lets out, or the limit that it would pass.
ghost use Rattle.std.specs.Prelude.{◌≡◌, ◌≤◌, ◌<◌, ◌+◌, ◌-◌, ◌^◌, ◌++◌, ◌∷◌, [], Bool, Err, IfErr, List, None, Ok, OnOk, Some, get_or, length, map, set, false, true, ℕ};
ghost use Rattle.mdcc_base.specs.Sizes.{Sizes};
ghost use Rattle.mdcc_base.specs.declared.outside.Image.{Image as AnImage};
ghost use Rattle.mdcc_def_language.specs.declared.lines.Line.{Line as ALine};
ghost use Rattle.mdcc_world_logs.specs.Represents.{LogsRepresent, with_up};
ghost use Rattle.mdcc_world_logs.specs.Tails.{HasTail, tail_at};
ghost use Rattle.mdcc_world_decisions.specs.Represents.{RepresentsLedger};
ghost use Rattle.mdcc_def_ledger.specs.Ledger.{Entry};
ghost use Rattle.mdcc_def_messages.specs.Lengths.{messages_length};
ghost use Rattle.mdcc_def_messages.specs.WellFormed.{IsWellFormedFact};
ghost use Rattle.mdcc_def_simulation.specs.State.{World as AWorld};
ghost use Rattle.mdcc_def_simulation.specs.Limits.{passed_bytes_limit, input_limited, passed_log_limit, unless_limit};
ghost use Rattle.mdcc_def_simulation.specs.AppliedSteps.{step_at};
ghost use Rattle.mdcc_def_messages.specs.Mailbox.{unsent};
ghost use Rattle.mdcc_def_messages.specs.declared.facts.Fact.{Fact as AFact};
ghost use Rattle.mdcc_def_rules.specs.declared.node.Input.{Input as AInput};
ghost use Rattle.mdcc_world.specs.Faults.{is_free};
ghost use Rattle.mdcc_world.specs.StepOutputs.{Measures, IsFormed, IsFramed, MayAppendFact, facts_with, tail_with_new_fact};
ghost use Rattle.mdcc_node.specs.StepPlans.{unless_refused};
ghost use Rattle.mdcc_world.specs.NodeRuns.{HasRun, HasRunSome};
ghost use Rattle.mdcc_world.specs.Represents.{Happens};
ghost use Rattle.mdcc_world.specs.StoppedAppend.{IsWholeStep, kept_entries, kept_lines};
ghost use Rattle.mdcc_theorem_worlds.specs.StepEffects.{limit_passed, step_lines, ledger_with_fact};
ghost use Rattle.mdcc_world_logs.specs.Stopping.{stopped_facts};
ghost use Rattle.mdcc_def_simulation.specs.Checkpoints.{is_checkpoint_kept, is_due_after, is_frame_kept, striking_at, tail_stopped};

use crate::commits::{count_kept, persist_then_send, push_dropped, report_fact};
use crate::world::World;
use mdcc_base::{Centre, HeapList, Image, Memory};
use mdcc_def_language::{EventFault, LimitName, Line};
use mdcc_def_messages::Fact;
use mdcc_def_rules::{Step, StepFault};
use mdcc_log::LOG_LIMIT;
use mdcc_world_mail::MessageBatch;

// The device call in which a stop of this number falls: an append has four, and the checkpoint behind it seven.
fn in_append(call: u8) -> u8
    ensures within { (1 ≤ result) × (result ≤ 11) }
    ensures late { 5 ≤ result → 5 ≤ call }
    ensures kept { (image : AnImage) → is_frame_kept result image ≡ is_frame_kept call image }
    ensures copied { (image : AnImage) → is_checkpoint_kept result image ≡ is_checkpoint_kept call image }
{
    call.clamp(1, 11)
}

// How many bytes of messages there may be.
const MOST_BYTES: u64 = 536_870_912;

impl World {
    // Why a fact is not appended to the log of a centre.
    fn at_log_limit(&self, centre: Centre, fact: &Fact) -> Result<(), EventFault>
        requires within { centre ≤ length self.now.logs.open.items }
        requires formed { IsWellFormedFact fact.now }
        ensures limit { (w : AWorld) → Measures self.now w centre → result ≡ unless_limit (passed_log_limit w centre fact.now) tt }
        ensures free { IfErr result (λ fault. is_free fault ≡ true) }
    {
        if self.logs.is_full(centre, fact) {
            return Err(EventFault::Limit(LimitName::Log, LOG_LIMIT));
        }
        Ok(())
    }

    // Why messages are not sent.
    fn at_bytes_limit(&self, batch: &MessageBatch) -> Result<(), EventFault>
        ensures limit { (w : AWorld) (a : ℕ) → Measures self.now w a → result ≡ unless_limit (passed_bytes_limit w batch.now) tt }
        ensures free { IfErr result (λ fault. is_free fault ≡ true) }
        ensures few { OnOk result (self.now.bytes + messages_length batch.now < 2 ^ 64) }
    {
        if self.bytes.saturating_add(batch.length()) > MOST_BYTES {
            return Err(EventFault::Limit(LimitName::Bytes, MOST_BYTES));
        }
        Ok(())
    }

    // Why neither is let out: the limit of the log is asked before that of all messages.
    fn at_limits(
        &self,
        centre: Centre,
        fact: &Option<Fact>,
        batch: &MessageBatch,
    ) -> Result<(), EventFault>
        requires within { centre ≤ length self.now.logs.open.items }
        requires formed { IsFormed fact.now }
        ensures limit { (w : AWorld) → Measures self.now w centre → result ≡ unless_limit (limit_passed w centre fact.now batch.now) tt }
        ensures free { IfErr result (λ fault. is_free fault ≡ true) }
        ensures few { OnOk result (self.now.bytes + messages_length batch.now < 2 ^ 64) }
    {
        if let Some(fact) = fact {
            self.at_log_limit(centre, fact)?;
        }
        self.at_bytes_limit(batch)
    }

    // A fact is made durable, then messages are sent and the fact counts.
    fn commit_outputs(
        &mut self,
        centre: Centre,
        fact: &Option<Fact>,
        batch: MessageBatch,
        lines: &mut HeapList<Line>,
    ) -> Result<(), Memory>
        requires within { centre ≤ length self.old.logs.open.items }
        requires framed { IsFramed self.old.logs centre fact.now }
        requires few { self.old.bytes + messages_length batch < 2 ^ 64 }
        ensures rest { self.new ≡ record self.old { logs = self.new.logs; network = self.new.network; bytes = self.new.bytes; decisions = self.new.decisions } }
        ensures logs { (centres : ℕ) (up : ℕ → Bool) (facts : ℕ → List AFact) → LogsRepresent self.old.logs centres up facts → up centre ≡ true
            → OnOk result (LogsRepresent self.new.logs centres up (facts_with facts centre fact.now)) }
        ensures tail { (centres : ℕ) (up : ℕ → Bool) (facts : ℕ → List AFact) → LogsRepresent self.old.logs centres up facts → up centre ≡ true
            → OnOk result (HasTail self.old.logs self.new.logs centre (tail_with_new_fact (tail_at self.old.logs centre) fact.now)) }
        ensures sent { OnOk result (self.new.network ≡ self.old.network ++ map unsent batch) }
        ensures bytes { OnOk result (self.new.bytes ≡ self.old.bytes + messages_length batch) }
        ensures ledger { (quorums : Sizes) (entries : List Entry) → RepresentsLedger self.old.decisions quorums entries
            → OnOk result (RepresentsLedger self.new.decisions quorums (ledger_with_fact centre fact.now entries)) }
        ensures lines { (quorums : Sizes) (entries : List Entry) → RepresentsLedger self.old.decisions quorums entries
            → OnOk result (lines.new ≡ lines.old ++ step_lines quorums centre fact.now entries) }
    {
        let length = batch.length();
        let (logs, network) = (&mut self.logs, &mut self.network);
        persist_then_send(self.alloc, logs, network, centre, fact, batch)?;
        self.bytes += length;
        report_fact(&mut self.decisions, centre, fact, lines)?;
        Ok(())
    }

    // The fact and the messages of a step are let out, unless they would pass a limit.
    fn commit_checked(
        &mut self,
        centre: Centre,
        step: &Step,
        batch: MessageBatch,
        lines: &mut HeapList<Line>,
    ) -> Result<(), EventFault>
        requires some { HasRunSome self.old centre (Ok step.now) }
        requires written { batch ≡ step.now.sends }
        ensures happens { (w : AWorld) (input : AInput) → HasRun self.old w centre input (Ok step.now) → IsWholeStep w centre step.now.fact
            → Happens self.new lines.old lines.new result (input_limited w centre (step_at w centre input)) }
        ensures free { IfErr result (λ fault. is_free fault ≡ true) }
        ensures events { self.new.events ≡ self.old.events }
    {
        self.at_limits(centre, &step.fact, &batch)?;
        self.commit_outputs(centre, &step.fact, batch, lines)?;
        Ok(())
    }

    // A step of a centre is taken whole.
    fn commit_step(
        &mut self,
        centre: Centre,
        step: &Step,
        lines: &mut HeapList<Line>,
    ) -> Result<(), EventFault>
        requires some { HasRunSome self.old centre (Ok step.now) }
        ensures happens { (w : AWorld) (input : AInput) → HasRun self.old w centre input (Ok step.now) → IsWholeStep w centre step.now.fact
            → Happens self.new lines.old lines.new result (input_limited w centre (step_at w centre input)) }
        ensures free { IfErr result (λ fault. is_free fault ≡ true) }
        ensures events { self.new.events ≡ self.old.events }
    {
        let batch = MessageBatch::write(self.alloc, step.sends.as_slice())?;
        self.commit_checked(centre, step, batch, lines)
    }

    // The append of a fact stops, or the checkpoint behind it, and its centre goes down with nothing sent.
    fn stop_append(
        &mut self,
        centre: Centre,
        fact: &Fact,
        call: u8,
        image: Image,
        lines: &mut HeapList<Line>,
    ) -> Result<(), Memory>
        requires within { centre ≤ length self.old.logs.open.items }
        requires framed { MayAppendFact self.old.logs centre fact.now }
        requires due { 5 ≤ call → is_due_after (tail_at self.old.logs centre) ≡ true }
        ensures rest { self.new ≡ record self.old { up = self.new.up; stops = self.new.stops; logs = self.new.logs; decisions = self.new.decisions } }
        ensures down { self.new.up ≡ set self.old.up (centre - 1) false }
        ensures stops { self.new.stops ≡ set self.old.stops (centre - 1) None }
        ensures logs { (centres : ℕ) (up : ℕ → Bool) (facts : ℕ → List AFact) → LogsRepresent self.old.logs centres up facts → up centre ≡ true
            → OnOk result (LogsRepresent self.new.logs centres (with_up up centre false) (stopped_facts facts centre fact.now call image)) }
        ensures tail { (centres : ℕ) (up : ℕ → Bool) (facts : ℕ → List AFact) → LogsRepresent self.old.logs centres up facts → up centre ≡ true
            → OnOk result (HasTail self.old.logs self.new.logs centre (tail_stopped (tail_at self.old.logs centre) call image)) }
        ensures ledger { (quorums : Sizes) (entries : List Entry) → RepresentsLedger self.old.decisions quorums entries
            → OnOk result (RepresentsLedger self.new.decisions quorums (kept_entries centre fact.now call image entries)) }
        ensures lines { (quorums : Sizes) (entries : List Entry) → RepresentsLedger self.old.decisions quorums entries
            → OnOk result (lines.new ≡ (lines.old ++ ALine.Stopped centre ∷ []) ++ kept_lines quorums centre fact.now call image entries) }
    {
        self.fall(centre);
        lines.push(Line::Stopped(centre))?;
        self.logs
            .stop_append(self.alloc, centre, fact, in_append(call), image)?;
        count_kept(&mut self.decisions, centre, fact, call, image, lines)
    }

    // A step stops at its fact, unless that would pass the limit of the log.
    fn stop_step(
        &mut self,
        centre: Centre,
        step: &Step,
        fact: &Fact,
        stop: (u8, Image),
        lines: &mut HeapList<Line>,
    ) -> Result<(), EventFault>
        requires some { HasRunSome self.old centre (Ok step.now) }
        requires fact { step.now.fact ≡ Some fact.now }
        requires strikes { (w : AWorld) (input : AInput) → HasRun self.old w centre input (Ok step.now) → striking_at w centre ≡ Some stop }
        ensures happens { (w : AWorld) (input : AInput) → HasRun self.old w centre input (Ok step.now)
            → Happens self.new lines.old lines.new result (input_limited w centre (step_at w centre input)) }
        ensures free { IfErr result (λ fault. is_free fault ≡ true) }
        ensures events { self.new.events ≡ self.old.events }
    {
        self.at_log_limit(centre, fact)?;
        self.stop_append(centre, fact, stop.0, stop.1, lines)?;
        Ok(())
    }

    // A step of a centre with this fact is taken.
    fn apply_with_fact(
        &mut self,
        centre: Centre,
        step: &Step,
        fact: &Fact,
        lines: &mut HeapList<Line>,
    ) -> Result<(), EventFault>
        requires some { HasRunSome self.old centre (Ok step.now) }
        requires fact { step.now.fact ≡ Some fact.now }
        ensures happens { (w : AWorld) (input : AInput) → HasRun self.old w centre input (Ok step.now)
            → Happens self.new lines.old lines.new result (input_limited w centre (step_at w centre input)) }
        ensures free { IfErr result (λ fault. is_free fault ≡ true) }
        ensures events { self.new.events ≡ self.old.events }
    {
        match self.striking_at(centre) {
            Some(stop) => self.stop_step(centre, step, fact, stop, lines),
            None => self.commit_step(centre, step, lines),
        }
    }

    // A step of a centre is taken.
    pub(crate) fn apply_step(
        &mut self,
        centre: Centre,
        step: &Step,
        lines: &mut HeapList<Line>,
    ) -> Result<(), EventFault>
        requires some { HasRunSome self.old centre (Ok step.now) }
        ensures happens { (w : AWorld) (input : AInput) → HasRun self.old w centre input (Ok step.now)
            → Happens self.new lines.old lines.new result (input_limited w centre (step_at w centre input)) }
        ensures free { IfErr result (λ fault. is_free fault ≡ true) }
        ensures events { self.new.events ≡ self.old.events }
    {
        match &step.fact {
            Some(fact) => self.apply_with_fact(centre, step, fact, lines),
            None => self.commit_step(centre, step, lines),
        }
    }

    // The step that a centre refused changes nothing.
    fn refuse_step(
        &mut self,
        centre: Centre,
        fault: &StepFault,
        lines: &mut HeapList<Line>,
    ) -> Result<(), EventFault>
        ensures happens { (w : AWorld) (input : AInput) → HasRun self.old w centre input (Err fault.now)
            → Happens self.new lines.old lines.new result (input_limited w centre (step_at w centre input)) }
        ensures free { IfErr result (λ fault. is_free fault ≡ true) }
        ensures events { self.new.events ≡ self.old.events }
    {
        push_dropped(lines, centre, fault)?;
        Ok(())
    }

    // What a centre made of an input is taken.
    pub(crate) fn apply_run(
        &mut self,
        centre: Centre,
        made: &Result<(), StepFault>,
        step: &Step,
        lines: &mut HeapList<Line>,
    ) -> Result<(), EventFault>
        requires some { HasRunSome self.old centre (unless_refused made.now step.now) }
        ensures happens { (w : AWorld) (input : AInput) → HasRun self.old w centre input (unless_refused made.now step.now)
            → Happens self.new lines.old lines.new result (input_limited w centre (step_at w centre input)) }
        ensures free { IfErr result (λ fault. is_free fault ≡ true) }
        ensures events { self.new.events ≡ self.old.events }
    {
        match made {
            Ok(()) => self.apply_step(centre, step, lines),
            Err(fault) => self.refuse_step(centre, fault, lines),
        }
    }
}
