//! Sets of indices below 64, as the bits of a number.

ghost use Rattle.std.specs.Prelude.{◌≡◌, ◌<◌, ◌^◌, ◌↔◌, ℕ, IsTrue, false, true};
ghost use Rattle.tw_host.specs.Sleeping.{Is, IsCleared, IsMarked, IsRange, Isnt};

/// Returns the bit of an actor's index in a set of actors.
pub(crate) fn bit(index: usize) -> u64
    requires { index < 64 }
    ensures is { result ≡ 2 ^ index }
    ensures positive { 0 < result }
{
    1u64.wrapping_shl(index as u32)
}

/// Returns whether the bit of an actor's index is set.
pub(crate) fn has(bits: u64, index: usize) -> bool
    requires { index < 64 }
    ensures { IsTrue result ↔ Is bits index }
{
    bits & bit(index) != 0
}

/// Returns a set of actors with the bit of an index.
pub(crate) fn with(bits: u64, index: usize) -> u64
    requires { index < 64 }
    ensures { IsMarked index true bits result }
{
    bits | bit(index)
}

/// Returns a set of actors without the bit of an index.
pub(crate) fn without(bits: u64, index: usize) -> u64
    requires { index < 64 }
    ensures marked { IsMarked index false bits result }
    ensures none { bits ≡ 0 → result ≡ 0 }
{
    bits & !bit(index)
}

/// Returns the bits of the actors at the indices from `from` on, before `to`.
pub(crate) fn bits(from: usize, to: usize) -> u64
    requires from { from < 64 }
    requires to { to < 64 }
    ensures { IsRange from to result }
{
    (bit(to) - 1) & !(bit(from) - 1)
}

/// Returns a set of sleeping actors without those that are to be woken.
pub(crate) fn without_all(bits: u64, due: u64) -> u64
    ensures { IsCleared due bits result }
{
    bits & !due
}

/// Returns whether each actor of a kind sleeps or runs a job.
pub(crate) fn nobody_looks(of_kind: u64, asleep: u64, out: u64) -> bool
    ensures { result ≡ false → (i : ℕ) × (i < 64) × Is of_kind i × Isnt asleep i × Isnt out i }
{
    of_kind & !asleep & !out == 0
}
