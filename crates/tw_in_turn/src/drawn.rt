//! The order of steps that a seed decides.

ghost use Rattle.std.specs.Prelude.{◌≡◌, ◌<◌};
ghost use Rattle.tw_in_turn.specs.Drawn.{place_for, word_for};

use rand_core::{Rng, SeedableRng};
use rand_xoshiro::SplitMix64;

/// The distance of a state of SplitMix64 from the one before it.
const PHI: u64 = 0x9e37_79b9_7f4a_7c15;

/// Returns the random word that a seed draws for a step of a run in one thread.
#[tactic(auto, unfolding(crate::specs::Drawn::word_for))]
fn word_for(seed: u64, step: u64) -> u64
    ensures { result ≡ word_for seed step }
{
    let draws = step / (seed % 8 + 1);
    let state = seed.wrapping_add(draws.wrapping_mul(PHI));
    SplitMix64::seed_from_u64(state).next_u64()
}

/// Returns the index of the actor with which the search for a step's actor begins, as a seed draws it.
pub(crate) fn place_for(seed: u64, step: u64, count: usize) -> usize
    requires { 0 < count }
    ensures place { result ≡ place_for seed step count }
    ensures inside { result < count }
{
    (word_for(seed, step) % count as u64) as usize
}
