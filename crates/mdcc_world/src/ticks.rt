//! Ticks and sweeps.
ghost use Rattle.std.specs.Prelude.{◌≡◌, ◌≤◌, ◌<◌, IfErr, OnErr, OnOk, true};
ghost use Rattle.mdcc_def_simulation.specs.State.{World as AWorld};
ghost use Rattle.mdcc_def_simulation.specs.Events.{after_event};
ghost use Rattle.mdcc_def_simulation.specs.Limits.{input_limited, with_lines};
ghost use Rattle.mdcc_def_simulation.specs.AppliedSteps.{step_at};
ghost use Rattle.mdcc_def_language.specs.declared.events.Event.{Event as AEvent};
ghost use Rattle.mdcc_def_rules.specs.declared.node.Input.{Input as AInput};
ghost use Rattle.mdcc_world.specs.Faults.{OnRefusal, is_free};
ghost use Rattle.mdcc_node.specs.StepPlans.{unless_refused};
ghost use Rattle.mdcc_world.specs.NodeRuns.{HasRun, HasRunSome};
ghost use Rattle.mdcc_world.specs.Represents.{Happens, IsLike, IsLikeSome};
ghost use Rattle.mdcc_world.specs.Timed.{timed_line, timed_lines};

use crate::report::report_event;
use crate::world::World;
use mdcc_base::{Centre, HeapList};
use mdcc_def_language::{EventFault, Line};
use mdcc_def_rules::{Input, Step, StepFault};
use mdcc_node::blank;

// The line of a tick or a sweep.
fn timed_line(sweeps: bool, centre: Centre, next: u32) -> Line
    ensures { result ≡ timed_line sweeps centre next }
{
    if sweeps {
        Line::Sweep(centre, next)
    } else {
        Line::Tick(centre, next)
    }
}

impl World {
    // What a centre made of a tick or a sweep is taken, behind its line.
    fn apply_timed(
        &mut self,
        centre: Centre,
        sweeps: bool,
        made: &Result<(), StepFault>,
        step: &Step,
        lines: &mut HeapList<Line>,
    ) -> Result<(), EventFault>
        requires some { HasRunSome self.old centre (unless_refused made.now step.now) }
        ensures happens { (w : AWorld) (input : AInput) → HasRun self.old w centre input (unless_refused made.now step.now)
            → Happens self.new lines.old lines.new result (with_lines (timed_lines sweeps centre) (input_limited w centre (step_at w centre input))) }
        ensures free { IfErr result (λ fault. is_free fault ≡ true) }
        ensures events { self.new.events ≡ self.old.events }
        ensures untold { OnErr result (lines.new ≡ lines.old) }
    {
        let mut reported = HeapList::new(self.alloc);
        self.apply_run(centre, made, step, &mut reported)?;
        report_event(
            self.alloc,
            lines,
            timed_line(sweeps, centre, self.next_message()),
            reported,
        )
    }

    // A tick line.
    pub(crate) fn tick(
        &mut self,
        centre: Centre,
        lines: &mut HeapList<Line>,
    ) -> Result<(), EventFault>
        requires { IsLikeSome self.old }
        ensures happens { (w : AWorld) → IsLike self.old w
            → Happens self.new lines.old lines.new result (after_event w (AEvent.Tick centre)) }
        ensures few { OnOk result (self.new.events ≤ 100000) }
        ensures kept { OnRefusal result ((self.new ≡ self.old) × (lines.new ≡ lines.old)) }
        ensures untold { OnErr result (lines.new ≡ lines.old) }
    {
        self.at_centre(centre)?;
        let mut step = blank(self.alloc);
        let made = self.run_timed(centre, &Input::Tick, &mut step)?;
        self.apply_timed(centre, false, &made, &step, lines)
    }

    // A sweep line.
    pub(crate) fn sweep(
        &mut self,
        centre: Centre,
        lines: &mut HeapList<Line>,
    ) -> Result<(), EventFault>
        requires { IsLikeSome self.old }
        ensures happens { (w : AWorld) → IsLike self.old w
            → Happens self.new lines.old lines.new result (after_event w (AEvent.Sweep centre)) }
        ensures few { OnOk result (self.new.events ≤ 100000) }
        ensures kept { OnRefusal result ((self.new ≡ self.old) × (lines.new ≡ lines.old)) }
        ensures untold { OnErr result (lines.new ≡ lines.old) }
    {
        self.at_centre(centre)?;
        let mut step = blank(self.alloc);
        let made = self.run_timed(centre, &Input::Sweep, &mut step)?;
        self.apply_timed(centre, true, &made, &step, lines)
    }
}
