//! What the two fits have to do with one another, and with the loads that stores answer.
ghost use Rattle.mdcc_escrow.specs.Capped.{ExactFitsOfCappedLoads, FastFitsOfCappedLoads};
ghost use Rattle.mdcc_escrow.specs.Laws.{CappedLoadsAreBounded, ExactFitHasNoLimit, FastFitsFitExactly, LimitsFitExactly, LoadsAreSummed, MisfitsAreTheSame};

/// The exact fit never answers a limit.
pub fn exact_fit_has_no_limit()
    ensures { ExactFitHasNoLimit }
{}

/// The fast fit is the exact fit, but for the limit, which it answers to some of what fits exactly.
pub fn fast_fit_is_exact_but_for_the_limit()
    ensures fits { FastFitsFitExactly }
    ensures limits { LimitsFitExactly }
    ensures misfits { MisfitsAreTheSame }
{}

/// The load that a store answers meets the condition of the fits.
pub fn capped_loads_are_bounded()
    ensures { CappedLoadsAreBounded }
{}

/// Live choices that are taken into the load of nothing, one after the other, make the load that a
/// store answers.
#[tactic(auto, using(crate::proofs::Weighing::load_summed))]
pub fn loads_are_summed()
    ensures { LoadsAreSummed }
{}

/// No answer depends on where the counts and sums of a load stop.
#[tactic(auto, using(crate::proofs::Capped::capped_fits))]
pub fn fits_of_capped_loads()
    ensures exact { ExactFitsOfCappedLoads }
    ensures fast { FastFitsOfCappedLoads }
{}
