//! What it means that a fact is admitted.
ghost use Rattle.mdcc_node_boot.specs.Boots.{BootsWithinCells};
ghost use Rattle.mdcc_node_boot.specs.Laws.{AdmissionIsExact, AdmittedMayBeAdded, AllowedEpochsAreCounted, EpochsStayCounted};

/// After facts whose epochs are counted, a fact is allowed exactly where it is admitted and leaves at
/// most 64 deltas on each version.
#[tactic(auto, using(crate::proofs::Exact::admission_exact))]
pub fn admission_is_exact()
    ensures { AdmissionIsExact }
{}

/// The last epoch is the number of boots among facts of which each was admitted, or allowed, after
/// those before it.
#[tactic(auto, using(crate::proofs::Exact::stay_counted, crate::proofs::Exact::allowed_counted))]
pub fn epochs_are_counted()
    ensures admitted { EpochsStayCounted }
    ensures allowed { AllowedEpochsAreCounted }
{}

/// A store may be given each fact that is admitted.
#[tactic(auto, using(crate::proofs::Addable::admitted_addable))]
pub fn admitted_may_be_added()
    ensures { AdmittedMayBeAdded }
{}

/// A boot over a store that has the cells of the cluster is the protocol's.
#[tactic(auto, using(crate::proofs::Alike::boots_alike))]
pub fn boots_within_cells()
    ensures { BootsWithinCells }
{}
