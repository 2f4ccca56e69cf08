//! What all centres have heard, by the facts that are left.
ghost use Rattle.mdcc_given_back.specs.Finished.{FinishedStays, FloorStays, HasFloorStays, HeardThroughByRest, HeardThroughEnds, HeardThroughStays, SettledByRest, SettledStays, UnfinishedHeardStays};
ghost use Rattle.mdcc_given_back.specs.Origins.{OriginsStay, SweepStays};

/// Floors, which transactions are finished or settled, and how far all of an epoch are, are those
/// of all facts.
pub fn finished_rests()
    ensures floor { FloorStays }
    ensures has_floor { HasFloorStays }
    ensures finished { FinishedStays }
    ensures unfinished { UnfinishedHeardStays }
    ensures settled { SettledStays }
    ensures by_rest { SettledByRest }
{}

/// How far all transactions of an epoch are settled is counted up from the floor, by as many facts
/// as are left, or until one is not.
pub fn through_rests()
    ensures through { HeardThroughStays }
    ensures by_rest { HeardThroughByRest }
    ensures ends { HeardThroughEnds }
{}

/// The epochs of which something was heard, and what a sweep tells of them, are those of all facts.
pub fn origin_rests()
    ensures origins { OriginsStay }
    ensures sweep { SweepStays }
{}
