//! Transactions that are not settled, by the facts that are left.
ghost use Rattle.mdcc_given_back.specs.Unsettled.{UnresolvedAtStays, UnresolvedByRest, UnresolvedStays, WriteSetByRest};

/// The transactions that are not settled are those of all facts, with their write sets.
pub fn unsettled_rests()
    ensures unresolved { UnresolvedStays }
    ensures by_rest { UnresolvedByRest }
    ensures at_place { UnresolvedAtStays }
    ensures write_set { WriteSetByRest }
{}
