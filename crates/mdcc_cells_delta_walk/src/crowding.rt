//! Whether one more fact would bring too many deltas into a version of a key.
ghost use Rattle.std.specs.List.{fold};
ghost use Rattle.std.specs.Prelude.{◌≡◌, ◌∷◌, List, filter_map, length, map, nat_lt, true};
ghost use Rattle.mdcc_def_messages.specs.declared.facts.Fact.{Fact as AFact};
ghost use Rattle.mdcc_def_protocol.specs.Facts.{delta_given};
ghost use Rattle.mdcc_struct.specs.Maps.{txs_of};
ghost use Rattle.mdcc_theorem_fact_folds.specs.Held.{deltas_steps, next_executed};
ghost use Rattle.mdcc_theorem_fact_folds.specs.Live.{is_ordered};
ghost use Rattle.mdcc_cells_delta_walk.specs.Chains.{AreOf};
ghost use Rattle.mdcc_cells_delta_walk.specs.Steps.{deltas_step, no_deltas, noted, encoding_noted};

use crate::entries::read_deltas;
use crate::{InstanceWalk, WithDeltas};
use mdcc_base::Key;
use mdcc_def_messages::Fact;
use mdcc_facts_held::delta_given;
use mdcc_option::{Choice, Delta, Outcome};

// Puts the transactions of the deltas that committed choices bring.
fn note_given(deltas: &mut WithDeltas, choices: &[Choice])
    ensures { deltas.new ≡ fold noted deltas.old (txs_of (filter_map (delta_given deltas.old.key deltas.old.version) choices.now)) }
{
    let key = deltas.key;
    let version = deltas.version;
    for choice in choices {
        if let Some(delta) = delta_given(choice, &key, version) {
            deltas.note(delta.0);
        }
    }
}

// Puts those of adopted deltas.
fn note_adopted(deltas: &mut WithDeltas, adds: &[Delta])
    ensures { deltas.new ≡ fold noted deltas.old (txs_of (map (λ delta. (delta.tx, delta.amounts)) adds.now)) }
{
    for delta in adds {
        deltas.note(delta.tx);
    }
}

impl WithDeltas {
    /// Puts the deltas of a fact.
    pub fn note_fact(&mut self, fact: &Fact)
        ensures { self.new ≡ deltas_step self.old fact.now }
    {
        match fact {
            Fact::Heard {
                tx: _,
                outcome: Outcome::Commit(choices),
            } => note_given(self, choices.as_slice()),
            Fact::Adopted {
                key,
                version,
                item: _,
                adds,
            } => {
                if *version == self.version && key.is(&self.key) {
                    note_adopted(self, adds.as_slice());
                }
            }
            _ => {}
        }
    }
}

// Puts those of the facts of a walk, until they are crowded.
fn note_walk<'a>(deltas: &mut WithDeltas, walk: InstanceWalk<'a>)
    ensures { deltas.new ≡ fold encoding_noted deltas.old walk.entry }
{
    let mut walk = walk;
    while let Some(cursor) = walk.read() {
        if deltas.crowded {
            return;
        }
        let entries = read_deltas(cursor, &deltas.key, deltas.version);
        deltas.note_all(entries);
    }
}

/// Whether a version of a key has more than 64 deltas with one more fact, where the walk comes by all
/// others of the instance.
pub fn is_crowded<'a>(walk: InstanceWalk<'a>, instance: &(Key, u64), fact: &Fact) -> bool
    ensures chain { (facts : List AFact) → AreOf walk.entry facts → result ≡ nat_lt 64 (length (next_executed facts instance.now.0 instance.now.1 fact.now)) }
    ensures steps { (facts : List AFact) → AreOf walk.entry facts → is_ordered fact.now ≡ true → result ≡ nat_lt 64 (deltas_steps instance.now.0 instance.now.1 0 (fact.now ∷ facts)) }
{
    let mut deltas = WithDeltas::new(instance.0, instance.1);
    deltas.note_fact(fact);
    note_walk(&mut deltas, walk);
    deltas.crowded
}
