//! What is left of facts is written anew.
ghost use Rattle.std.specs.Prelude.{◌≡◌, ◌+◌, ◌<◌, [], IfOk, List, OnOk, length};
ghost use Rattle.mdcc_cells_chains.specs.Walks.{older};
ghost use Rattle.mdcc_def_messages.specs.declared.facts.Fact.{Fact as AFact};
ghost use Rattle.mdcc_given_back.specs.Compact.{compacted};
ghost use Rattle.mdcc_given_back.specs.Counted.{without_floors};
ghost use Rattle.mdcc_given_back.specs.Rest.{bare};
ghost use Rattle.mdcc_index.specs.Stores.{cells_in_all};
ghost use Rattle.mdcc_facts_kept.specs.Kept.{IsKept, IsKeptStore};
ghost use Rattle.mdcc_facts_swept.specs.Swept.{HasHalf};

use crate::half::Half;
use mdcc_base::Memory;
use mdcc_def_messages::Fact;
use mdcc_facts_kept::{KeptFacts, Left};
use mdcc_struct::Options;
use std::alloc::Global;

// A vote without its marks; any other fact as it is.
fn bared(alloc: Global, fact: Fact) -> Result<Fact, Memory>
    ensures { IfOk result (λ left. left ≡ bare fact) }
{
    match fact {
        Fact::Voted {
            key,
            version,
            ballot,
            ..
        } => Ok(Fact::Voted {
            key,
            version,
            ballot,
            options: Options::new(alloc)?,
            offered: None,
        }),
        other => Ok(other),
    }
}

// Writes what is left of the fact of a number behind what was left of the older ones.
fn sweep_one(
    kept: &mut KeptFacts,
    next: &mut Half,
    alloc: Global,
    number: u32,
) -> Result<(), Memory>
    requires number { number < length kept.old.inner.cells.encodings }
    requires store { IsKeptStore kept.old }
    requires size { cells_in_all next.old.pool ≡ kept.old.cells }
    requires written { (facts : List AFact) (is : IsKept kept.old facts) → HasHalf next.old (compacted facts (older number (without_floors is.rest))) }
    ensures same { kept.new ≡ kept.old }
    ensures size { cells_in_all next.new.pool ≡ cells_in_all next.old.pool }
    ensures written { (facts : List AFact) (is : IsKept kept.old facts) → OnOk result (HasHalf next.new (compacted facts (older (number + 1) (without_floors is.rest)))) }
{
    let fact = kept.fact_at(alloc, number)?;
    match kept.left_of(&fact) {
        Left::Dropped => {}
        Left::Bared => next.put(&bared(alloc, fact)?),
        Left::Whole => next.put(&fact),
    }
    Ok(())
}

/// Writes what is left of all facts.
pub(crate) fn sweep_all(kept: &mut KeptFacts, next: &mut Half, alloc: Global) -> Result<(), Memory>
    requires size { cells_in_all next.old.pool ≡ kept.old.cells }
    ensures same { kept.new ≡ kept.old }
    ensures size { cells_in_all next.new.pool ≡ cells_in_all next.old.pool }
    ensures written { (facts : List AFact) (is : IsKept kept.old facts) → OnOk result (HasHalf next.new (compacted facts (without_floors is.rest))) }
{
    next.clear();
    for number in 0..kept.len() {
        sweep_one(kept, next, alloc, number)?;
    }
    Ok(())
}
