//! Appends and checkpoints that stop: the stop is armed, and a later step that brings a fact takes its centre down.
ghost use Rattle.std.specs.Prelude.{◌≡◌, ◌≤◌, ◌<◌, ◌+◌, ◌-◌, IfErr, OnErr, OnOk, Result as AResult, length, true};
ghost use Rattle.mdcc_def_language.specs.declared.events.Event.{Event as AEvent};
ghost use Rattle.mdcc_def_simulation.specs.Centres.{stop_happened};
ghost use Rattle.mdcc_def_simulation.specs.Events.{after_event};
ghost use Rattle.mdcc_def_simulation.specs.State.{World as AWorld, counted_event, is_up_at};
ghost use Rattle.mdcc_def_rules.specs.declared.node.Input.{Input as AInput};
ghost use Rattle.mdcc_def_rules.specs.declared.node.Step.{Step as AStep};
ghost use Rattle.mdcc_def_rules.specs.declared.node.StepFault.{StepFault as AStepFault};
ghost use Rattle.mdcc_def_simulation.specs.Checkpoints.{striking_at};
ghost use Rattle.mdcc_world.specs.Faults.{OnRefusal};
ghost use Rattle.mdcc_world.specs.NodeRuns.{HasRun};
ghost use Rattle.mdcc_world.specs.Represents.{Happens, HasHappened, IsLike, IsLikeSome};

use crate::world::World;
use mdcc_base::{Centre, HeapList, Image, Memory};
use mdcc_def_language::{EventFault, Line};

impl World {
    // The stop that is armed at a centre, where it strikes in the next append: inside that, or inside the checkpoint that is due then.
    pub(crate) fn striking_at(&self, centre: Centre) -> Option<(u8, Image)>
        requires within { centre ≤ length self.now.logs.open.items }
        ensures { (w : AWorld) (input : AInput) (made : AResult AStep AStepFault) → HasRun self.now w centre input made → result ≡ striking_at w centre }
    {
        let Some(stop) = self.stops[usize::from(centre.number()) - 1] else {
            return None;
        };
        if stop.0 <= 4 {
            return Some(stop);
        }
        if self.logs.is_due_next(centre) {
            return Some(stop);
        }
        None
    }

    // A stop is armed at a centre, in place of an earlier one, which is an event.
    fn arm(
        &mut self,
        centre: Centre,
        call: u8,
        image: Image,
        lines: &mut HeapList<Line>,
    ) -> Result<(), Memory>
        requires few { self.old.events < 100000 }
        requires like { IsLikeSome self.old }
        requires up { (w : AWorld) → IsLike self.old w → is_up_at w centre ≡ true }
        ensures happened { (w : AWorld) → IsLike self.old w
            → OnOk result (HasHappened self.new lines.old lines.new (stop_happened (counted_event w) centre call image)) }
        ensures untold { OnErr result (lines.new ≡ lines.old) }
        ensures few { OnOk result (self.new.events ≤ 100000) }
    {
        lines.push(Line::Stop(centre, call, image))?;
        self.events += 1;
        self.stops[usize::from(centre.number()) - 1] = Some((call, image));
        Ok(())
    }

    // A stop line.
    pub(crate) fn stop(
        &mut self,
        centre: Centre,
        call: u8,
        image: Image,
        lines: &mut HeapList<Line>,
    ) -> Result<(), EventFault>
        requires { IsLikeSome self.old }
        ensures happens { (w : AWorld) → IsLike self.old w
            → Happens self.new lines.old lines.new result (after_event w (AEvent.Stop centre call image)) }
        ensures few { OnOk result (self.new.events ≤ 100000) }
        ensures kept { OnRefusal result ((self.new ≡ self.old) × (lines.new ≡ lines.old)) }
        ensures untold { OnErr result (lines.new ≡ lines.old) }
    {
        self.at_centre(centre)?;
        self.arm(centre, call, image, lines)?;
        Ok(())
    }
}
