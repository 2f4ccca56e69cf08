//! Loads whose sums are from 0 to 2^96, as the fits want them.
ghost use Rattle.std.specs.Prelude.{◌↔◌, IsTrue};
ghost use Rattle.mdcc_escrow.specs.Sums.{AreBoundedSums, IsBoundedLoad, IsBoundedSum};

use mdcc_escrow::Load;

/// The greatest sum, 2^96.
const GREATEST_SUM: i128 = 79_228_162_514_264_337_593_543_950_336;

fn is_bounded_sum(sum: i128) -> bool
    ensures { IsTrue result ↔ IsBoundedSum sum }
{
    0 <= sum && sum <= GREATEST_SUM
}

fn are_bounded_sums(sums: &[i128; 4]) -> bool
    ensures { IsTrue result ↔ AreBoundedSums sums.now }
{
    sums.iter().all(|sum| is_bounded_sum(*sum))
}

/// Whether it is such a load.
pub(crate) fn is_bounded(load: &Load) -> bool
    ensures { IsTrue result ↔ IsBoundedLoad load.now }
{
    are_bounded_sums(&load.down) && are_bounded_sums(&load.up)
}
