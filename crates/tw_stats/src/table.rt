//! Tables of numbers.

ghost use Rattle.std.specs.Prelude.{◌≡◌, ◌+◌, ◌<◌, ◌≤◌, ◌^◌, [], ℕ, OnOk, length, slice_index};
ghost use Rattle.tw_stats.specs.Tables.{IsAdded, IsSet, IsWithin, number_at, sum_of, total};

use std::alloc::{AllocError, Global};

/// A number for each key; 0 if none was set.
#[derive(Drop)]
pub struct Table {
    items: Vec<u64>,
}

/// Appends zeros until there is an item at the index.
#[tactic(auto, using(crate::proofs::Tables::zero_more))]
fn reach(items: &mut Vec<u64>, index: usize) -> Result<(), AllocError>
    ensures there { OnOk result (index + 1 ≤ length items.new.items) }
    ensures same { OnOk result ((k : ℕ) → slice_index items.new.items k ≡ slice_index items.old.items k) }
    ensures total { OnOk result (total items.new.items ≡ total items.old.items) }
{
    for _ in items.len()..=index {
        items.push(0)?;
    }
    Ok(())
}

impl Table {
    /// Makes a table without entries.
    pub fn new(alloc: Global) -> Table
        ensures { result.items.items ≡ [] }
    {
        Table {
            items: Vec::new(alloc),
        }
    }

    /// Returns the number at a key, or zero.
    pub fn at(&self, key: u64) -> u64
        ensures { result ≡ number_at self.now key }
    {
        self.items.get(key as usize).copied().unwrap_or(0)
    }

    /// Sets the number at a key.
    #[tactic(auto, using(crate::proofs::Tables::set_total))]
    fn set(&mut self, key: u64, number: u64) -> Result<(), AllocError>
        ensures each { OnOk result (IsSet self.old key number self.new) }
        ensures sum { OnOk result (sum_of self.new + number_at self.old key ≡ sum_of self.old + number) }
    {
        let index = key as usize;
        reach(&mut self.items, index)?;
        self.items[index] = number;
        Ok(())
    }

    /// Adds an amount to the number of a key.
    pub fn add(&mut self, key: u64, amount: u64) -> Result<(), AllocError>
        ensures { OnOk result (sum_of self.old + amount < 2 ^ 64 → IsAdded self.old key amount self.new) }
    {
        let number = self.at(key).saturating_add(amount);
        self.set(key, number)
    }

    /// Raises the number of a key to at least this one.
    pub fn raise(&mut self, key: u64, number: u64) -> Result<(), AllocError>
        ensures { OnOk result ((most : ℕ) → number ≤ most → IsWithin self.old most → IsWithin self.new most) }
    {
        let number = self.at(key).max(number);
        self.set(key, number)
    }
}
