//! Crashes and restarts.
ghost use Rattle.std.specs.Prelude.{◌≡◌, ◌≤◌, ◌<◌, ◌+◌, ◌-◌, IfErr, None, OnErr, OnOk, length, set, false, true};
ghost use Rattle.mdcc_def_protocol.specs.Belongs.{is_centre};
ghost use Rattle.mdcc_def_simulation.specs.State.{World as AWorld, counted_event, is_up_at};
ghost use Rattle.mdcc_def_simulation.specs.Centres.{crash_happened};
ghost use Rattle.mdcc_def_simulation.specs.Events.{after_event};
ghost use Rattle.mdcc_def_language.specs.declared.events.Event.{Event as AEvent};
ghost use Rattle.mdcc_world.specs.Faults.{OnRefusal, is_free};
ghost use Rattle.mdcc_world.specs.Represents.{Happens, HasHappened, IsLike, IsLikeSome};
ghost use Rattle.mdcc_theorem_worlds.specs.EventEffects.{at_restart, restarted};

use crate::world::World;
use mdcc_base::{Centre, HeapList, Memory};
use mdcc_def_language::{EventFault, LimitName, Line};
use mdcc_log::LOG_LIMIT;
use mdcc_node::Node;
use mdcc_world_logs::{CentreFacts, Started};

impl World {
    // A centre goes down. A stop that was armed there is armed no more.
    pub(crate) fn fall(&mut self, centre: Centre)
        ensures rest { self.new ≡ record self.old { up = self.new.up; stops = self.new.stops } }
        ensures up { self.new.up ≡ set self.old.up (centre - 1) false }
        ensures stops { self.new.stops ≡ set self.old.stops (centre - 1) None }
    {
        let place = usize::from(centre.number()) - 1;
        self.up[place] = false;
        self.stops[place] = None;
    }

    // A centre loses all but its log, which is an event.
    fn crash_at(&mut self, centre: Centre, lines: &mut HeapList<Line>) -> Result<(), Memory>
        requires few { self.old.events < 100000 }
        requires like { IsLikeSome self.old }
        requires up { (w : AWorld) → IsLike self.old w → is_up_at w centre ≡ true }
        ensures happened { (w : AWorld) → IsLike self.old w
            → OnOk result (HasHappened self.new lines.old lines.new (crash_happened (counted_event w) centre)) }
        ensures untold { OnErr result (lines.new ≡ lines.old) }
        ensures few { OnOk result (self.new.events ≤ 100000) }
    {
        lines.push(Line::Crash(centre))?;
        self.events += 1;
        self.fall(centre);
        self.logs.crash(centre);
        Ok(())
    }

    // A crash line.
    pub(crate) fn crash(
        &mut self,
        centre: Centre,
        lines: &mut HeapList<Line>,
    ) -> Result<(), EventFault>
        requires { IsLikeSome self.old }
        ensures happens { (w : AWorld) → IsLike self.old w
            → Happens self.new lines.old lines.new result (after_event w (AEvent.Crash centre)) }
        ensures few { OnOk result (self.new.events ≤ 100000) }
        ensures kept { OnRefusal result ((self.new ≡ self.old) × (lines.new ≡ lines.old)) }
        ensures untold { OnErr result (lines.new ≡ lines.old) }
    {
        self.at_centre(centre)?;
        self.crash_at(centre, lines)?;
        Ok(())
    }

    // Why a centre is not restarted.
    fn at_restart(&self, centre: Centre) -> Result<(), EventFault>
        ensures centre { (w : AWorld) → IsLike self.now w → result ≡ at_restart w centre }
        ensures among { (w : AWorld) → IsLike self.now w → OnOk result (is_centre w.cluster centre ≡ true) }
        ensures few { OnOk result (self.now.events < 100000) }
    {
        if self.is_up(centre) {
            return Err(EventFault::Up(centre));
        }
        if centre.number() > self.cluster.quorums.centres() {
            return Err(EventFault::Down(centre));
        }
        self.at_limit()
    }

    // A centre is up again with the node of its log, which is an event.
    fn rise(&mut self, centre: Centre, node: Node<CentreFacts>)
        requires few { self.old.events < 100000 }
        requires within { centre ≤ length self.old.nodes.items }
        ensures rest { self.new ≡ record self.old { nodes = self.new.nodes; up = self.new.up; stops = self.new.stops; events = self.old.events + 1 } }
        ensures nodes { self.new.nodes.items ≡ set self.old.nodes.items (centre - 1) node }
        ensures up { self.new.up ≡ set self.old.up (centre - 1) true }
        ensures stops { self.new.stops ≡ set self.old.stops (centre - 1) None }
    {
        let place = usize::from(centre.number()) - 1;
        self.nodes[place] = node;
        self.stops[place] = None;
        self.up[place] = true;
        self.events += 1;
    }

    // A centre starts again from its log.
    fn restart_at(&mut self, centre: Centre, lines: &mut HeapList<Line>) -> Result<(), EventFault>
        requires few { self.old.events < 100000 }
        requires like { IsLikeSome self.old }
        requires among { (w : AWorld) → IsLike self.old w → is_centre w.cluster centre ≡ true }
        ensures happens { (w : AWorld) → IsLike self.old w
            → Happens self.new lines.old lines.new result (restarted w centre) }
        ensures free { IfErr result (λ fault. is_free fault ≡ true) }
        ensures few { OnOk result (self.new.events ≤ 100000) }
        ensures untold { OnErr result (lines.new ≡ lines.old) }
    {
        match self.logs.restart(self.alloc, &self.cluster, centre)? {
            Started::Node(node, epoch) => {
                self.rise(centre, node);
                lines.push(Line::Restart(centre, epoch))?;
                Ok(())
            }
            Started::Full => Err(EventFault::Limit(LimitName::Log, LOG_LIMIT)),
            Started::NoRoom(needed) => Err(EventFault::Limit(LimitName::Cells, needed)),
        }
    }

    // A restart line.
    pub(crate) fn restart(
        &mut self,
        centre: Centre,
        lines: &mut HeapList<Line>,
    ) -> Result<(), EventFault>
        requires { IsLikeSome self.old }
        ensures happens { (w : AWorld) → IsLike self.old w
            → Happens self.new lines.old lines.new result (after_event w (AEvent.Restart centre)) }
        ensures few { OnOk result (self.new.events ≤ 100000) }
        ensures kept { OnRefusal result ((self.new ≡ self.old) × (lines.new ≡ lines.old)) }
        ensures untold { OnErr result (lines.new ≡ lines.old) }
    {
        self.at_restart(centre)?;
        self.restart_at(centre, lines)
    }
}
