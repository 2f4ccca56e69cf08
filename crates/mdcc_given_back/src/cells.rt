//! The cells of what is left.
ghost use Rattle.mdcc_given_back.specs.Counted.{HeldApart, HeldByNeeded, HeldWithinNeeded, LeftFalls, TopFloorsRise};
ghost use Rattle.mdcc_given_back.specs.Compact.{CompactedIsHeld, CompactedIsRest, CompactedOnce, HeldByRest, HeldWithinRest, LeftOfRest};

/// A store may give back all that it can from what it has left, and again, and has the same left.
#[tactic(auto, using(crate::proofs::Compacting::compacted_is_rest, crate::proofs::Compacting::compacted_is_once))]
pub fn compacted_rests()
    ensures rest { CompactedIsRest }
    ensures once { CompactedOnce }
{}

/// The cells that a centre holds can be counted in any rest of its facts; a rest in which all was
/// given back needs exactly these, and any other no fewer.
#[tactic(auto, using(crate::proofs::Compacting::left_is_left, crate::proofs::Compacting::held_by_rest, crate::proofs::Compacting::held_within_rest, crate::proofs::Compacting::compacted_is_held))]
pub fn cells_of_rests()
    ensures left { LeftOfRest }
    ensures held { HeldByRest }
    ensures within { HeldWithinRest }
    ensures exact { CompactedIsHeld }
{}

/// A further fact, which tells nothing of a finished transaction, takes at most the cells that it
/// needs; a boot, a promise and a vote with a mark take exactly these.
#[tactic(auto, using(crate::proofs::Counting::left_falls, crate::proofs::Counting::held_within_needed, crate::proofs::Counting::held_by_needed))]
pub fn cells_of_later_facts()
    ensures falls { LeftFalls }
    ensures within { HeldWithinNeeded }
    ensures exact { HeldByNeeded }
{}

/// A store that has the floors apart counts one cell for each that none raised; there is one for each
/// epoch that has a floor.
#[tactic(auto, using(crate::proofs::Apart::held_apart, crate::proofs::Tops::top_floors_rise))]
pub fn cells_with_floors_apart()
    ensures held { HeldApart }
    ensures rise { TopFloorsRise }
{}
