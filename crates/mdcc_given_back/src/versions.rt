//! What a centre holds of a key, by the facts that are left.
ghost use Rattle.mdcc_given_back.specs.Versions.{BaseStays, CrowdingStays, CurrentStays, DeltaStays, DeltasStay, ExecutedStays, ForgottenStays, TokenStays};

/// The version held of a key, its base and its deltas are those of all facts, and so is whether a
/// further fact would crowd them.
pub fn version_rests()
    ensures current { CurrentStays }
    ensures forgotten { ForgottenStays }
    ensures base { BaseStays }
    ensures deltas { DeltasStay }
    ensures executed { ExecutedStays }
    ensures delta { DeltaStays }
    ensures token { TokenStays }
    ensures crowding { CrowdingStays }
{}
