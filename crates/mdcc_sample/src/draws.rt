//! Numbers that are drawn.
ghost use Rattle.std.specs.Prelude.{◌≡◌, ◌<◌};
ghost use Rattle.mdcc_sample.specs.Draws.{drawn, generator_of};

use rand_core::SeedableRng;
use rand_core::utils::NextWord;
use rand_pcg::Lcg64Xsh32;

/// The generator of a seed.
#[tactic(auto, unfolding(crate::specs::Draws::generator_of))]
pub(crate) fn generator(seed: u64) -> Lcg64Xsh32
    ensures { result ≡ generator_of seed }
{
    Lcg64Xsh32::seed_from_u64(seed)
}

/// The next number below a bound.
#[tactic(auto, unfolding(crate::specs::Draws::drawn))]
pub(crate) fn draw(generator: &mut Lcg64Xsh32, bound: u32) -> u32
    requires { 0 < bound }
    ensures value { result ≡ (drawn bound generator.old).0 }
    ensures moved { generator.new ≡ (drawn bound generator.old).1 }
    ensures below { result < bound }
{
    generator.next_word() % bound
}
