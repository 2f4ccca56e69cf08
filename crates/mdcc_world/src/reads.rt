//! Reads.
ghost use Rattle.std.specs.Prelude.{◌≡◌, ◌≤◌, ◌<◌, OnErr, OnOk, true};
ghost use Rattle.mdcc_base.specs.Key.{IsKey};
ghost use Rattle.mdcc_def_simulation.specs.State.{World as AWorld, counted_event, is_up_at};
ghost use Rattle.mdcc_def_simulation.specs.Events.{after_event};
ghost use Rattle.mdcc_def_simulation.specs.Clients.{known_of_reading, read_happened};
ghost use Rattle.mdcc_def_language.specs.declared.events.Event.{Event as AEvent};
ghost use Rattle.mdcc_world.specs.Faults.{OnRefusal};
ghost use Rattle.mdcc_world.specs.Represents.{Happens, HasHappened, IsLike, IsLikeSome};

use crate::nodes::read;
use crate::world::World;
use mdcc_base::{Centre, HeapList, Key, Memory, Plain};
use mdcc_def_language::{EventFault, Line};
use mdcc_def_protocol::Reading;
use mdcc_option::Known;

// What a read shows of a key.
fn known_of(key: &Key, reading: Reading) -> Known
    ensures known { result ≡ known_of_reading key.now reading }
    ensures key { IsKey key.now }
{
    let _bytes = key.bytes();
    Known {
        key: *key,
        token: reading.token,
        item: reading.item,
    }
}

impl World {
    // A key is read at a centre.
    fn read_at(
        &mut self,
        centre: Centre,
        key: &Key,
        lines: &mut HeapList<Line>,
    ) -> Result<(), Memory>
        requires few { self.old.events < 100000 }
        requires like { IsLikeSome self.old }
        requires up { (w : AWorld) → IsLike self.old w → is_up_at w centre ≡ true }
        ensures happened { (w : AWorld) → IsLike self.old w
            → OnOk result (HasHappened self.new lines.old lines.new (read_happened (counted_event w) centre key.now)) }
        ensures untold { OnErr result (lines.new ≡ lines.old) }
        ensures few { OnOk result (self.new.events ≤ 100000) }
    {
        let reading = read(self.alloc, &mut self.nodes, centre, key)?;
        let known = known_of(key, reading);
        self.events += 1;
        self.reads.push(Some(known.copy()))?;
        lines.push(Line::Read(self.reads.len() as u32, centre, known))?;
        Ok(())
    }

    // A read line.
    pub(crate) fn read(
        &mut self,
        centre: Centre,
        key: &Key,
        lines: &mut HeapList<Line>,
    ) -> Result<(), EventFault>
        requires { IsLikeSome self.old }
        ensures happens { (w : AWorld) → IsLike self.old w
            → Happens self.new lines.old lines.new result (after_event w (AEvent.Read centre key.now)) }
        ensures few { OnOk result (self.new.events ≤ 100000) }
        ensures kept { OnRefusal result ((self.new ≡ self.old) × (lines.new ≡ lines.old)) }
        ensures untold { OnErr result (lines.new ≡ lines.old) }
    {
        self.at_centre(centre)?;
        self.read_at(centre, key, lines)?;
        Ok(())
    }
}
