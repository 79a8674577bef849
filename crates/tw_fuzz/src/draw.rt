//! Random numbers from a seed.

ghost use Rattle.std.specs.Prelude.{◌<◌};

/// Returns the next number of the random sequence, below the bound.
pub fn draw(seed: &mut u64, bound: u64) -> u8
    requires { 0 < bound }
{
    *seed = seed
        .wrapping_mul(6_364_136_223_846_793_005)
        .wrapping_add(1_442_695_040_888_963_407);
    u8::try_from((*seed >> 33) % bound).unwrap_or(0)
}

/// Returns the seed of the random program of a number.
pub fn seed_of(number: u64) -> u64 {
    number
        .wrapping_add(1)
        .wrapping_mul(11_400_714_819_323_198_485)
}
