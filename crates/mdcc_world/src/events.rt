//! One event of each kind.
ghost use Rattle.std.specs.Bool.{OnFalse};
ghost use Rattle.std.specs.Prelude.{◌≡◌, ◌≤◌, ◌++◌, Err, IfErr, IsOkAnd, OnOk};
ghost use Rattle.mdcc_def_simulation.specs.State.{World as AWorld};
ghost use Rattle.mdcc_def_simulation.specs.Events.{after_event};
ghost use Rattle.mdcc_def_simulation.specs.Left.{left_of};
ghost use Rattle.mdcc_world.specs.Limited.{OnLimit, lines_reported};
ghost use Rattle.mdcc_world.specs.CutShort.{IsCutShort};
ghost use Rattle.mdcc_world.specs.Faults.{OnEventMemory, OnRefusal};
ghost use Rattle.mdcc_world.specs.Represents.{Happens, HasHappened, IsLike, IsLikeSome, RepresentsWorld};
ghost use Rattle.mdcc_def_simulation.specs.Limits.{is_out_of_memory};

use crate::world::World;
use mdcc_base::HeapList;
use mdcc_def_language::{Event, EventFault, Line};

impl World {
    // An event of each kind.
    fn happen(&mut self, event: &Event, lines: &mut HeapList<Line>) -> Result<(), EventFault>
        requires few { self.old.events ≤ 100000 }
        requires like { IsLikeSome self.old }
        ensures happens { (w : AWorld) → IsLike self.old w
            → Happens self.new lines.old lines.new result (after_event w event.now) }
        ensures few { OnOk result (self.new.events ≤ 100000) }
        ensures left { (w : AWorld) → IsLike self.old w
            → OnRefusal result (HasHappened self.new lines.old lines.new (left_of w event.now)) }
        ensures few_left { OnRefusal result (self.new.events ≤ 100000) }
        ensures limited { (w : AWorld) → IsLike self.old w
            → OnLimit result (lines.new ≡ lines.old ++ lines_reported w event.now) }
        ensures cut { (w : AWorld) → IsLike self.old w
            → OnEventMemory result (IsCutShort self.new lines.old lines.new w event.now) }
    {
        match event {
            Event::Read(centre, key) => self.read(*centre, key, lines),
            Event::Begin(centre, words) => self.begin(*centre, words.as_slice(), lines),
            Event::Deliver(numbers) => self.deliver(numbers.as_slice(), lines),
            Event::Settle(listed) => self.settle(listed, lines),
            Event::Tick(centre) => self.tick(*centre, lines),
            Event::Sweep(centre) => self.sweep(*centre, lines),
            Event::Crash(centre) => self.crash(*centre, lines),
            Event::Restart(centre) => self.restart(*centre, lines),
            Event::Stop(centre, call, image) => self.stop(*centre, *call, *image, lines),
        }
    }

    /// One event: its lines stand after the others. Where it is refused nothing has changed, but of
    /// a deliver line the deliveries before the refused one stand, and so do their lines. Where
    /// there was no memory, or a limit was reached, the world must be dropped; the lines of earlier
    /// events stand, and so do those of the earlier deliveries of this one.
    pub fn event(&mut self, event: &Event, lines: &mut HeapList<Line>) -> Result<(), EventFault>
        requires known { (w : AWorld) × RepresentsWorld self.old w }
        ensures ok { (w : AWorld) → RepresentsWorld self.old w
            → OnOk result (IsOkAnd (after_event w event.now) (λ h. (lines.new ≡ lines.old ++ h.lines) × RepresentsWorld self.new h.world)) }
        ensures err { (w : AWorld) → RepresentsWorld self.old w
            → IfErr result (λ fault. OnFalse (is_out_of_memory fault) (after_event w event.now ≡ Err fault)) }
        ensures left { (w : AWorld) → RepresentsWorld self.old w
            → OnRefusal result (HasHappened self.new lines.old lines.new (left_of w event.now)) }
        ensures stands { (w : AWorld) → RepresentsWorld self.old w
            → OnRefusal result (RepresentsWorld self.new (left_of w event.now).world) }
        ensures limited { (w : AWorld) → RepresentsWorld self.old w
            → OnLimit result (lines.new ≡ lines.old ++ lines_reported w event.now) }
        ensures cut { (w : AWorld) → RepresentsWorld self.old w
            → OnEventMemory result (IsCutShort self.new lines.old lines.new w event.now) }
    {
        self.happen(event, lines)
    }
}
