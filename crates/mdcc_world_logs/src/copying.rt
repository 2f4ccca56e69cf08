//! Checkpoints that stop inside a device call.
ghost use Rattle.std.specs.Prelude.{◌≡◌, ◌≤◌, ◌∷◌, Bool, List, OnErr, OnOk, false, length, true, ℕ};
ghost use Rattle.mdcc_world_logs.specs.Represents.{IsOpenAt, LogsRepresent, MayHave, with_up};
ghost use Rattle.mdcc_world_logs.specs.Stopping.{stopped_facts};
ghost use Rattle.mdcc_world_logs.specs.Tails.{HasTail, tail_at};
ghost use Rattle.mdcc_def_messages.specs.Lengths.{fact_length};
ghost use Rattle.mdcc_def_messages.specs.WellFormed.{IsWellFormedFact};
ghost use Rattle.mdcc_def_messages.specs.declared.facts.Fact.{Fact as AFact};
ghost use Rattle.mdcc_def_simulation.specs.Checkpoints.{is_due_after, tail_stopped};

use crate::Logs;
use crate::rooms::reserve_append;
use mdcc_base::{Centre, Image, Memory};
use mdcc_def_messages::Fact;
use mdcc_disks::crash_leaves_the_image;
use mdcc_journal::counts::well_formed_facts_have_counts;
use mdcc_node_log::payload_of;
use mdcc_world_log_stops::{append_due_until, stopped_is_read, stopped_is_roomy};
use std::alloc::Global;

impl Logs {
    // A centre stops inside a call of the checkpoint that is due right after the append of a fact, 5 to 11. The append is made whole, and
    // so are the calls before that one; then both areas crash.
    pub(crate) fn stop_copy(
        &mut self,
        alloc: Global,
        centre: Centre,
        fact: &Fact,
        call: u8,
        image: Image,
    ) -> Result<(), Memory>
        requires within { centre ≤ length self.old.open.items }
        requires formed { IsWellFormedFact fact.now }
        requires short { fact_length fact.now ≤ 2097152 }
        requires stand { IsOpenAt self.old centre }
        requires first { 5 ≤ call }
        requires due { is_due_after (tail_at self.old centre) ≡ true }
        ensures as_many { length self.new.open.items ≡ length self.old.open.items }
        ensures stopped { (centres : ℕ) (up : ℕ → Bool) (facts : ℕ → List AFact) → LogsRepresent self.old centres up facts → up centre ≡ true
            → OnOk result (LogsRepresent self.new centres (with_up up centre false) (stopped_facts facts centre fact.now call image)) }
        ensures tail { (centres : ℕ) (up : ℕ → Bool) (facts : ℕ → List AFact) → LogsRepresent self.old centres up facts → up centre ≡ true
            → OnOk result (HasTail self.old self.new centre (tail_stopped (tail_at self.old centre) call image)) }
        ensures refused { (centres : ℕ) (up : ℕ → Bool) (facts : ℕ → List AFact) → LogsRepresent self.old centres up facts → up centre ≡ true
            → OnErr result (MayHave self.new centres up centre facts fact.now) }
    {
        well_formed_facts_have_counts();
        crash_leaves_the_image();
        stopped_is_read();
        stopped_is_roomy();
        let payload = payload_of(alloc, fact)?;
        let place = centre.number();
        let index = usize::from(place) - 1;
        reserve_append(
            &mut self.disks,
            &self.open[index],
            centre,
            payload.len() as u64,
        )?;
        match append_due_until(&mut self.open[index], &mut self.disks, &payload, call - 4) {
            Ok(()) => {
                self.disks.crash(place, image);
                self.disks.crash(place + 16, image);
                Ok(())
            }
            Err(_) => Err(Memory),
        }
    }
}
