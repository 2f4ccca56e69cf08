//! Begin lines.
ghost use Rattle.std.specs.Prelude.{◌≡◌, ◌≤◌, ◌<◌, Err, IfErr, List, Ok, OnErr, OnOk, true, ℕ};
ghost use Rattle.mdcc_option.specs.Transaction.{transaction_of};
ghost use Rattle.mdcc_option.specs.declared.items.Part.{Part as APart};
ghost use Rattle.mdcc_def_simulation.specs.State.{World as AWorld, counted_event, is_up_at};
ghost use Rattle.mdcc_def_simulation.specs.Clients.{after_begin_step, refused_without_item};
ghost use Rattle.mdcc_def_simulation.specs.Events.{after_event};
ghost use Rattle.mdcc_def_simulation.specs.AppliedSteps.{step_at};
ghost use Rattle.mdcc_def_language.specs.declared.events.Event.{Event as AEvent};
ghost use Rattle.mdcc_def_rules.specs.declared.node.Input.{Input as AInput};
ghost use Rattle.mdcc_theorem_node_steps.specs.Inputs.{AreWellFormedParts};
ghost use Rattle.mdcc_world.specs.Faults.{OnRefusal, is_free};
ghost use Rattle.mdcc_world.specs.NodeRuns.{HasRun, HasRunSome};
ghost use Rattle.mdcc_world.specs.Represents.{Happens, IsLike, IsLikeSome};
ghost use Rattle.mdcc_theorem_worlds.specs.BeginEffects.{after_begin_resolved, after_begin_parts, after_begin_draft};
ghost use Rattle.mdcc_theorem_worlds.specs.EventEffects.{at_limit, if_open};

use crate::given::words_given;
use crate::report::report_begun;
use crate::world::World;
use mdcc_base::{Centre, HeapList, Key};
use mdcc_def_language::{EventFault, Line, ResolveFault, UpdateWord};
use mdcc_def_rules::Step;
use mdcc_node::blank;
use mdcc_option::{BeginFault, Part, Transaction};
use mdcc_sched::resolve;

impl World {
    // What a centre made of a begin is taken, behind the line of the begin. A begin adds no fact.
    fn apply_begin(
        &mut self,
        centre: Centre,
        step: &Step,
        lines: &mut HeapList<Line>,
    ) -> Result<(), EventFault>
        requires some { HasRunSome self.old centre (Ok step.now) }
        ensures happens { (w : AWorld) (input : AInput) → HasRun self.old w centre input (Ok step.now)
            → Happens self.new lines.old lines.new result (after_begin_step w centre (step_at w centre input)) }
        ensures free { IfErr result (λ fault. is_free fault ≡ true) }
        ensures events { self.new.events ≡ self.old.events }
        ensures untold { OnErr result (lines.new ≡ lines.old) }
    {
        let mut reported = HeapList::new(self.alloc);
        self.apply_step(centre, step, &mut reported)?;
        report_begun(
            self.alloc,
            lines,
            &step.answer,
            self.next_message(),
            reported,
        )
    }

    // A transaction is begun at a centre or refused by it, where there may be one more event.
    fn begin_transaction(
        &mut self,
        centre: Centre,
        transaction: Transaction,
        lines: &mut HeapList<Line>,
    ) -> Result<(), EventFault>
        requires formed { AreWellFormedParts transaction }
        requires like { IsLikeSome self.old }
        requires up { (w : AWorld) → IsLike self.old w → is_up_at w centre ≡ true }
        ensures happens { (w : AWorld) → IsLike self.old w
            → Happens self.new lines.old lines.new result (if_open (at_limit w) (after_begin_parts w centre transaction)) }
        ensures few { OnOk result (self.new.events ≤ 100000) }
        ensures kept { OnRefusal result ((self.new ≡ self.old) × (lines.new ≡ lines.old)) }
        ensures untold { OnErr result (lines.new ≡ lines.old) }
    {
        self.at_limit()?;
        let mut step = blank(self.alloc);
        self.run_begin(centre, transaction, &mut step)?;
        self.apply_begin(centre, &step, lines)
    }

    // The transaction of these parts is begun, where they make one.
    fn begin_parts(
        &mut self,
        centre: Centre,
        parts: &[Part],
        lines: &mut HeapList<Line>,
    ) -> Result<(), EventFault>
        requires formed { (made : List APart) → transaction_of self.old.cluster.schema parts.now ≡ Ok made → AreWellFormedParts made }
        requires like { IsLikeSome self.old }
        requires up { (w : AWorld) → IsLike self.old w → is_up_at w centre ≡ true }
        ensures happens { (w : AWorld) → IsLike self.old w
            → Happens self.new lines.old lines.new result (after_begin_draft w centre (transaction_of w.cluster.schema parts.now)) }
        ensures few { OnOk result (self.new.events ≤ 100000) }
        ensures kept { OnRefusal result ((self.new ≡ self.old) × (lines.new ≡ lines.old)) }
        ensures untold { OnErr result (lines.new ≡ lines.old) }
    {
        match Transaction::new(&self.cluster.schema, parts) {
            Ok(transaction) => self.begin_transaction(centre, transaction, lines),
            Err(fault) => Err(EventFault::Begin(fault)),
        }
    }

    // A read without an item is told, which is an event.
    fn refuse(&mut self, key: &Key, lines: &mut HeapList<Line>) -> Result<(), EventFault>
        requires { IsLikeSome self.old }
        ensures happens { (w : AWorld) → IsLike self.old w
            → Happens self.new lines.old lines.new result (if_open (at_limit w) (Ok (refused_without_item (counted_event w) key.now))) }
        ensures few { OnOk result (self.new.events ≤ 100000) }
        ensures kept { OnRefusal result ((self.new ≡ self.old) × (lines.new ≡ lines.old)) }
        ensures untold { OnErr result (lines.new ≡ lines.old) }
    {
        self.at_limit()?;
        lines.push(Line::Refused(*key, BeginFault::NoItem))?;
        self.events += 1;
        Ok(())
    }

    // Why words stand for no parts: a read without an item is told, and the others are refused.
    fn unresolved(
        &mut self,
        fault: &ResolveFault,
        lines: &mut HeapList<Line>,
    ) -> Result<(), EventFault>
        requires { IsLikeSome self.old }
        ensures happens { (w : AWorld) (a : ℕ) → IsLike self.old w
            → Happens self.new lines.old lines.new result (after_begin_resolved w a (Err fault.now)) }
        ensures few { OnOk result (self.new.events ≤ 100000) }
        ensures kept { OnRefusal result ((self.new ≡ self.old) × (lines.new ≡ lines.old)) }
        ensures untold { OnErr result (lines.new ≡ lines.old) }
    {
        match fault {
            ResolveFault::NoRead(number) => Err(EventFault::NoRead(*number)),
            ResolveFault::NoItem(key) => self.refuse(key, lines),
            ResolveFault::Memory => Err(EventFault::Memory),
        }
    }

    // A begin line: reads that were not made are refused first, then what the parts lack, then the
    // limit of events.
    pub(crate) fn begin(
        &mut self,
        centre: Centre,
        words: &[UpdateWord],
        lines: &mut HeapList<Line>,
    ) -> Result<(), EventFault>
        requires { IsLikeSome self.old }
        ensures happens { (w : AWorld) → IsLike self.old w
            → Happens self.new lines.old lines.new result (after_event w (AEvent.Begin centre words.now)) }
        ensures few { OnOk result (self.new.events ≤ 100000) }
        ensures kept { OnRefusal result ((self.new ≡ self.old) × (lines.new ≡ lines.old)) }
        ensures untold { OnErr result (lines.new ≡ lines.old) }
    {
        if !self.is_up(centre) {
            return Err(EventFault::Down(centre));
        }
        words_given(words);
        match &resolve(self.alloc, words, self.reads.as_slice()) {
            Ok(parts) => self.begin_parts(centre, parts.as_slice(), lines),
            Err(fault) => self.unresolved(fault, lines),
        }
    }
}
