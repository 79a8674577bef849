//! The longest chain of events that wait for one another.

ghost use Rattle.std.specs.Prelude.{◌+◌, ◌-◌, ◌<◌, ◌^◌, ℕ, min, OnOk};
ghost use Rattle.tw_stats.specs.Sums.{AreChains};

use crate::dependencies::Dependencies;
use crate::depths::Depths;
use std::alloc::{AllocError, Global};

/// The lengths of chains so far, in steps.
#[derive(Drop)]
pub struct Chains {
    /// The length of the longest chain.
    pub longest: u64,
    /// The lengths of the longest chains that provide each dependency.
    pub depths: Depths,
}

impl Chains {
    /// Makes chains without events.
    pub fn new(alloc: Global) -> Chains
        ensures { (most : ℕ) → AreChains result most }
    {
        Chains {
            longest: 0,
            depths: Depths::new(alloc),
        }
    }

    /// Adds an event of so many steps, with what it needs and what it provides.
    pub fn add(
        &mut self,
        steps: u64,
        needed: &Dependencies,
        brought: &Dependencies,
    ) -> Result<(), AllocError>
        ensures { OnOk result ((most : ℕ) → most < 2 ^ 64 → AreChains self.old most → AreChains self.new (min (most + steps) (2 ^ 64 - 1))) }
    {
        let depth = self.depths.deepest(needed).saturating_add(steps);
        self.longest = self.longest.max(depth);
        self.depths.deepen(brought, depth)
    }
}
