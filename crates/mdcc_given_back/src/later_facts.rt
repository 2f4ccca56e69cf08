//! What is given back stays so.
ghost use Rattle.mdcc_given_back.specs.Growth.{BaredStays, DroppedStays, RestsGrow, RestsGrowByAdded, RestsStay};

/// Of what was given back nothing is asked when further facts come, so that the rest with a further
/// fact is a rest of all facts with it. The further fact may be any, a floor too, that tells nothing
/// of a transaction which all centres have heard.
#[tactic(auto, using(crate::proofs::Growing::dropped_stays, crate::proofs::Growing::bared_stays, crate::proofs::Growing::rests_stay, crate::proofs::Growing::rests_grow, crate::proofs::Growing::rests_grow_by_added))]
pub fn rests_grow()
    ensures dropped { DroppedStays }
    ensures bared { BaredStays }
    ensures stay { RestsStay }
    ensures grow { RestsGrow }
    ensures added { RestsGrowByAdded }
{}
