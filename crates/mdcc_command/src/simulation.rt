//! The world of nodes, as what the events of a schedule happen to.
use mdcc_base::{HeapList, Memory};
use mdcc_command_replay::Simulation;
use mdcc_def_language::{Event, EventFault, Line};
use mdcc_option::Cluster;
use mdcc_world::World;
use std::alloc::Global;

/// A world of nodes that a schedule runs.
#[derive(Drop)]
pub(crate) struct Replayed {
    world: World,
}

impl Simulation for Replayed {
    ghost use Rattle.mdcc_world.specs.Represents.{RepresentsWorld};

    ghost stands = { λ replayed w. RepresentsWorld replayed.world w };

    fn start(alloc: Global, cluster: Cluster) -> Result<Replayed, Memory> {
        let world = World::new(alloc, cluster)?;
        Ok(Replayed { world })
    }

    fn take(&mut self, event: &Event, lines: &mut HeapList<Line>) -> Result<(), EventFault> {
        self.world.event(event, lines)
    }

    fn last_line(&self) -> Line {
        self.world.end()
    }

    fn reads(&self) -> usize {
        self.world.reads()
    }
}
