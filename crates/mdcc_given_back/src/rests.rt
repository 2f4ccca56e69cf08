//! What is asked of the facts that are left.
ghost use Rattle.mdcc_given_back.specs.Rest.{BallotStays, CellsAreLeft, EpochStays, PromiseStays, RangeStays};

/// The cells that are left to a fact are those of what a store has to keep of it.
pub fn cells_left()
    ensures { CellsAreLeft }
{}

/// Promises, the ballots of votes and the epoch are those of all facts.
pub fn asked_of_rests()
    ensures promise { PromiseStays }
    ensures range { RangeStays }
    ensures ballot { BallotStays }
    ensures epoch { EpochStays }
{}
