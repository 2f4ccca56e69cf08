//! What is live in an instance, by the facts that are left.
ghost use Rattle.mdcc_given_back.specs.Loads.{DeltasAreLive, LiveAndVoidStay, LiveByRest, LoadByRest, WellFormedAreOwn};

/// At the version held, and at later ones, what is live and what it weighs is answered by plain
/// questions of the facts that are left.
pub fn load_rests()
    ensures all { LiveAndVoidStay }
    ensures live { LiveByRest }
    ensures load { LoadByRest }
{}

/// The condition of it holds where no adopted delta of the version held is of an idle transaction.
pub fn live_deltas()
    ensures deltas { DeltasAreLive }
    ensures own { WellFormedAreOwn }
{}
