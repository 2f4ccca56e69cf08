//! Settle lines: messages are delivered until none waits.
ghost use Rattle.std.specs.List.{list_any};
ghost use Rattle.std.specs.Prelude.{◌≡◌, ◌≤◌, ◌<◌, ◌==◌, ◌&&◌, ◌-◌, ◌+◌, ◌++◌, IfErr, IfOk, IfSome, List, Ok, OnErr, OnOk, false, get_or, true};
ghost use Rattle.mdcc_def_simulation.specs.State.{World as AWorld};
ghost use Rattle.mdcc_def_simulation.specs.Events.{after_event};
ghost use Rattle.mdcc_def_language.specs.declared.events.Event.{Event as AEvent};
ghost use Rattle.mdcc_def_language.specs.declared.lines.Line.{Line as ALine};
ghost use Rattle.mdcc_def_simulation.specs.Left.{left_of};
ghost use Rattle.mdcc_world.specs.Limited.{OnLimit, lines_reported};
ghost use Rattle.mdcc_world.specs.CutShort.{IsCutShort};
ghost use Rattle.mdcc_world.specs.Faults.{OnEventMemory, is_free};
ghost use Rattle.mdcc_world.specs.SettleEnd.{AreAsked, IsNext, SettlesTo, is_listed_centre};
ghost use Rattle.mdcc_world.specs.Represents.{Happens, HasHappened, IsLike, IsLikeSome};
ghost use Rattle.mdcc_theorem_worlds.specs.DeliveryProgress.{at_message, after_numbered_message};
ghost use Rattle.mdcc_theorem_worlds.specs.SettleProgress.{settle_reported};

use crate::report::append;
use crate::world::{MOST_EVENTS, World};
use mdcc_base::{Centre, HeapList, Memory};
use mdcc_def_language::{EventFault, LimitName, Line};

// Whether a centre is listed.
fn is_listed(listed: &[Centre], centre: Centre) -> bool
    ensures { result ≡ list_any (λ other. other == centre) listed.now }
{
    listed.iter().any(|other| other.number() == centre.number())
}

// The same, where some are.
fn is_named(listed: &[Centre], centre: Centre) -> bool
    ensures { result ≡ is_listed_centre listed.now centre }
{
    listed.is_empty() || is_listed(listed, centre)
}

impl World {
    // Whether a settle delivers for a centre.
    fn is_asked(&self, listed: &[Centre], centre: Centre) -> bool
        ensures { result ≡ (get_or self.now.up (centre - 1) false && is_listed_centre listed.now centre) }
    {
        self.is_up(centre) && is_named(listed, centre)
    }

    // The centres for which a settle delivers.
    fn asked(&self, listed: &[Centre]) -> Result<HeapList<Centre>, Memory>
        ensures { (w : AWorld) → IsLike self.now w → IfOk result (AreAsked w listed.now) }
    {
        let mut centres = HeapList::new(self.alloc);
        for number in 1..10 {
            if let Some(centre) = Centre::new(number) {
                if self.is_asked(listed, centre) {
                    centres.push(centre)?;
                }
            }
        }
        Ok(centres)
    }

    // The message that a settle delivers next, where one waits.
    fn next_asked(&mut self, listed: &[Centre]) -> Result<Option<u32>, Memory>
        ensures next { (w : AWorld) → IsLike self.old w → IfOk result (IsNext w listed.now) }
        ensures clear { (w : AWorld) → IsLike self.old w → self.old.events < 100000
            → IfOk result (λ next. IfSome next (λ number. at_message w number ≡ Ok tt)) }
        ensures kept { self.new ≡ self.old }
    {
        let centres = self.asked(listed)?;
        Ok(self.network.first_waiting(centres.as_slice()))
    }

    // The message of a number is delivered: all of its lines are put, or none.
    fn deliver_waiting(&mut self, number: u32, lines: &mut HeapList<Line>) -> Result<(), EventFault>
        requires few { self.old.events < 100000 }
        requires like { IsLikeSome self.old }
        requires clear { (w : AWorld) → IsLike self.old w → at_message w number ≡ Ok tt }
        ensures happens { (w : AWorld) → IsLike self.old w
            → Happens self.new lines.old lines.new result (after_numbered_message w number) }
        ensures free { IfErr result (λ fault. is_free fault ≡ true) }
        ensures few { self.new.events ≤ self.old.events + 1 }
        ensures untold { OnErr result (lines.new ≡ lines.old) }
    {
        let mut reported = HeapList::new(self.alloc);
        self.apply_message(number, &mut reported)?;
        append(self.alloc, lines, reported)?;
        Ok(())
    }

    // Messages are delivered until none waits for a centre that is asked: how many were. It is refused
    // where there are as many events as there may be, and one waits.
    fn settle_for(
        &mut self,
        listed: &[Centre],
        lines: &mut HeapList<Line>,
    ) -> Result<u32, EventFault>
        requires few { self.old.events ≤ 100000 }
        requires like { IsLikeSome self.old }
        ensures ends { (w : AWorld) (before : List ALine)
            → w.events < 100000 → HasHappened self.old before lines.old (settle_reported w listed.now)
            → SettlesTo self.new before lines.new w listed.now result }
        ensures free { IfErr result (λ fault. is_free fault ≡ true) }
        ensures few { OnOk result (self.new.events ≤ 100000) }
        ensures limited { (w : AWorld) (before : List ALine)
            → w.events < 100000 → HasHappened self.old before lines.old (settle_reported w listed.now)
            → OnLimit result (lines.new ≡ before ++ (left_of w (AEvent.Settle listed.now)).lines) }
        ensures cut { (w : AWorld) (before : List ALine)
            → w.events < 100000 → HasHappened self.old before lines.old (settle_reported w listed.now)
            → OnEventMemory result (IsCutShort self.new before lines.new w (AEvent.Settle listed.now)) }
    {
        let left = MOST_EVENTS - self.events;
        for deliveries in 0..left {
            match self.next_asked(listed)? {
                Some(number) => self.deliver_waiting(number, lines)?,
                None => return Ok(deliveries),
            }
        }
        match self.next_asked(listed)? {
            Some(_) => Err(EventFault::Limit(LimitName::Events, u64::from(MOST_EVENTS))),
            None => Ok(left),
        }
    }

    // A settle line is an event.
    fn settle_begun(
        &mut self,
        listed: &HeapList<Centre>,
        lines: &mut HeapList<Line>,
    ) -> Result<(), Memory>
        requires few { self.old.events < 100000 }
        requires like { IsLikeSome self.old }
        ensures reported { (w : AWorld) → IsLike self.old w
            → OnOk result (HasHappened self.new lines.old lines.new (settle_reported w listed.now)) }
        ensures few { self.new.events ≡ self.old.events + 1 }
        ensures untold { OnErr result (lines.new ≡ lines.old) }
    {
        self.events += 1;
        lines.push(Line::Settle(listed.copy(self.alloc)?))?;
        Ok(())
    }

    // Messages are delivered, and it is told how many were.
    fn settle_at(&mut self, listed: &[Centre], lines: &mut HeapList<Line>) -> Result<(), EventFault>
        requires few { self.old.events ≤ 100000 }
        requires like { IsLikeSome self.old }
        ensures settled { (w : AWorld) (before : List ALine)
            → w.events < 100000 → HasHappened self.old before lines.old (settle_reported w listed.now)
            → Happens self.new before lines.new result (after_event w (AEvent.Settle listed.now)) }
        ensures free { IfErr result (λ fault. is_free fault ≡ true) }
        ensures few { OnOk result (self.new.events ≤ 100000) }
        ensures limited { (w : AWorld) (before : List ALine)
            → w.events < 100000 → HasHappened self.old before lines.old (settle_reported w listed.now)
            → OnLimit result (lines.new ≡ before ++ (left_of w (AEvent.Settle listed.now)).lines) }
        ensures cut { (w : AWorld) (before : List ALine)
            → w.events < 100000 → HasHappened self.old before lines.old (settle_reported w listed.now)
            → OnEventMemory result (IsCutShort self.new before lines.new w (AEvent.Settle listed.now)) }
    {
        let deliveries = self.settle_for(listed, lines)?;
        lines.push(Line::Settled(deliveries, self.next_message()))?;
        Ok(())
    }

    // A settle line.
    pub(crate) fn settle(
        &mut self,
        listed: &HeapList<Centre>,
        lines: &mut HeapList<Line>,
    ) -> Result<(), EventFault>
        requires { IsLikeSome self.old }
        ensures happens { (w : AWorld) → IsLike self.old w
            → Happens self.new lines.old lines.new result (after_event w (AEvent.Settle listed.now)) }
        ensures few { OnOk result (self.new.events ≤ 100000) }
        ensures free { IfErr result (λ fault. is_free fault ≡ true) }
        ensures limited { (w : AWorld) → IsLike self.old w
            → OnLimit result (lines.new ≡ lines.old ++ lines_reported w (AEvent.Settle listed.now)) }
        ensures cut { (w : AWorld) → IsLike self.old w
            → OnEventMemory result (IsCutShort self.new lines.old lines.new w (AEvent.Settle listed.now)) }
    {
        self.at_limit()?;
        self.settle_begun(listed, lines)?;
        self.settle_at(listed.as_slice(), lines)
    }
}
