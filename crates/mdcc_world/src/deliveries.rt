//! Messages come to their centres.
ghost use Rattle.std.specs.Prelude.{◌≡◌, ◌≤◌, ◌<◌, ◌+◌, ◌++◌, IfErr, Ok, OnErr, OnOk, true};
ghost use Rattle.mdcc_def_simulation.specs.State.{World as AWorld};
ghost use Rattle.mdcc_def_simulation.specs.Left.{deliveries_before};
ghost use Rattle.mdcc_def_simulation.specs.Deliveries.{after_deliveries, after_delivery};
ghost use Rattle.mdcc_def_language.specs.declared.events.Event.{Event as AEvent};
ghost use Rattle.mdcc_world.specs.Limited.{OnLimit};
ghost use Rattle.mdcc_world.specs.CutShort.{IsCutShort};
ghost use Rattle.mdcc_world.specs.Faults.{OnEventMemory, OnRefusal, is_free};
ghost use Rattle.mdcc_world.specs.Represents.{Happens, HasHappened, IsLike, IsLikeSome};
ghost use Rattle.mdcc_theorem_worlds.specs.DeliveryProgress.{at_message, after_numbered_message, delivery_reported, unmoved};
ghost use Rattle.mdcc_theorem_worlds.specs.EventEffects.{at_centre};

use crate::report::report_event;
use crate::world::World;
use mdcc_base::{Centre, HeapList};
use mdcc_def_language::{EventFault, Line};
use mdcc_node::blank;

impl World {
    // The message of a number comes to its centre, which is an event.
    pub(crate) fn apply_message(
        &mut self,
        number: u32,
        lines: &mut HeapList<Line>,
    ) -> Result<(), EventFault>
        requires few { self.old.events < 100000 }
        requires like { IsLikeSome self.old }
        requires clear { (w : AWorld) → IsLike self.old w → at_message w number ≡ Ok tt }
        ensures happens { (w : AWorld) → IsLike self.old w
            → Happens self.new lines.old lines.new result (after_numbered_message w number) }
        ensures free { IfErr result (λ fault. is_free fault ≡ true) }
        ensures few { self.new.events ≤ self.old.events + 1 }
    {
        let mut step = blank(self.alloc);
        let (centre, made) = self.run_message(number, &mut step)?;
        self.apply_run(centre, &made, &step, lines)
    }

    // Why no message is delivered to a centre.
    fn at_addressee(&self, centre: u8) -> Result<(), EventFault>
        requires some { 1 ≤ centre }
        requires few { centre ≤ 9 }
        ensures centre { (w : AWorld) → IsLike self.now w → result ≡ at_centre w centre }
        ensures few { OnOk result (self.now.events < 100000) }
    {
        match Centre::new(centre) {
            Some(centre) => self.at_centre(centre),
            None => self.at_limit(),
        }
    }

    // Why the message of a number is not delivered.
    fn at_message(&self, number: u32) -> Result<(), EventFault>
        requires { IsLikeSome self.now }
        ensures message { (w : AWorld) → IsLike self.now w → result ≡ at_message w number }
        ensures few { OnOk result (self.now.events < 100000) }
    {
        match self.network.addressee(number) {
            Some(centre) => self.at_addressee(centre),
            None => Err(EventFault::NoMessage(number)),
        }
    }

    // The message of a number is delivered, behind its line.
    fn report_delivery(&mut self, number: u32, lines: &mut HeapList<Line>) -> Result<(), EventFault>
        requires few { self.old.events < 100000 }
        requires like { IsLikeSome self.old }
        requires clear { (w : AWorld) → IsLike self.old w → at_message w number ≡ Ok tt }
        ensures happens { (w : AWorld) → IsLike self.old w
            → Happens self.new lines.old lines.new result (delivery_reported w number) }
        ensures free { IfErr result (λ fault. is_free fault ≡ true) }
        ensures few { self.new.events ≤ self.old.events + 1 }
        ensures untold { OnErr result (lines.new ≡ lines.old) }
    {
        let mut reported = HeapList::new(self.alloc);
        self.apply_message(number, &mut reported)?;
        report_event(
            self.alloc,
            lines,
            Line::Deliver(number, self.next_message()),
            reported,
        )
    }

    // One number of a deliver line.
    fn deliver_at(&mut self, number: u32, lines: &mut HeapList<Line>) -> Result<(), EventFault>
        requires few { self.old.events ≤ 100000 }
        requires like { IsLikeSome self.old }
        ensures happens { (w : AWorld) → IsLike self.old w
            → Happens self.new lines.old lines.new result (after_delivery w number) }
        ensures kept { OnRefusal result ((self.new ≡ self.old) × (lines.new ≡ lines.old)) }
        ensures few { OnOk result (self.new.events ≤ 100000) }
        ensures counted { self.new.events ≤ self.old.events + 1 }
        ensures untold { OnErr result (lines.new ≡ lines.old) }
    {
        self.at_message(number)?;
        self.report_delivery(number, lines)
    }

    // A deliver line: the numbers in turn, up to the first that is refused. Those before it stand.
    pub(crate) fn deliver(
        &mut self,
        numbers: &[u32],
        lines: &mut HeapList<Line>,
    ) -> Result<(), EventFault>
        requires few { self.old.events ≤ 100000 }
        requires like { IsLikeSome self.old }
        ensures happens { (w : AWorld) → IsLike self.old w
            → Happens self.new lines.old lines.new result (after_deliveries numbers.now (unmoved w)) }
        ensures few { OnOk result (self.new.events ≤ 100000) }
        ensures left { (w : AWorld) → IsLike self.old w
            → OnRefusal result (HasHappened self.new lines.old lines.new (deliveries_before numbers.now (unmoved w))) }
        ensures few_left { OnRefusal result (self.new.events ≤ 100000) }
        ensures limited { (w : AWorld) → IsLike self.old w
            → OnLimit result (lines.new ≡ lines.old ++ (deliveries_before numbers.now (unmoved w)).lines) }
        ensures cut { (w : AWorld) → IsLike self.old w
            → OnEventMemory result (IsCutShort self.new lines.old lines.new w (AEvent.Deliver numbers.now)) }
    {
        for number in numbers {
            self.deliver_at(*number, lines)?;
        }
        Ok(())
    }
}
