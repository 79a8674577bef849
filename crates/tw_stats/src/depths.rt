//! The length of the longest chain that provides a dependency.

ghost use Rattle.std.specs.Prelude.{◌≤◌, ℕ, OnOk};
ghost use Rattle.tw_stats.specs.Sums.{AreWithin};

use crate::dependencies::Dependencies;
use crate::dependency::Dependency;
use crate::table::Table;
use std::alloc::{AllocError, Global};

/// A number of steps for each dependency.
#[derive(Drop)]
pub struct Depths {
    tasks: Table,
    rules: Table,
    answers: Table,
    written: Table,
}

impl Depths {
    /// Makes depths of nothing.
    pub fn new(alloc: Global) -> Depths
        ensures { (most : ℕ) → AreWithin result most }
    {
        Depths {
            tasks: Table::new(alloc),
            rules: Table::new(alloc),
            answers: Table::new(alloc),
            written: Table::new(alloc),
        }
    }

    /// Returns the depth of a dependency.
    fn at(&self, dependency: Dependency) -> u64
        ensures { (most : ℕ) → AreWithin self.now most → result ≤ most }
    {
        match dependency {
            Dependency::Task(task) => self.tasks.at(task.number()),
            Dependency::Rule(rule) => self.rules.at(rule.number()),
            Dependency::Answer(rule) => self.answers.at(rule.number()),
            Dependency::Datum(datum) => self.written.at(datum.number()),
        }
    }

    /// Returns the depth of a dependency, or 0 if there is none.
    fn at_most_one(&self, dependency: &Option<Dependency>) -> u64
        ensures { (most : ℕ) → AreWithin self.now most → result ≤ most }
    {
        match dependency {
            Some(dependency) => self.at(*dependency),
            None => 0,
        }
    }

    /// Returns the greatest depth of these dependencies, 0 if there are none.
    pub fn deepest(&self, dependencies: &Dependencies) -> u64
        ensures { (most : ℕ) → AreWithin self.now most → result ≤ most }
    {
        self.at_most_one(&dependencies.first)
            .max(self.at_most_one(&dependencies.second))
    }

    /// Raises the depth of a dependency to at least this one.
    fn deepen_at(&mut self, dependency: Dependency, depth: u64) -> Result<(), AllocError>
        ensures { OnOk result ((most : ℕ) → depth ≤ most → AreWithin self.old most → AreWithin self.new most) }
    {
        match dependency {
            Dependency::Task(task) => self.tasks.raise(task.number(), depth),
            Dependency::Rule(rule) => self.rules.raise(rule.number(), depth),
            Dependency::Answer(rule) => self.answers.raise(rule.number(), depth),
            Dependency::Datum(datum) => self.written.raise(datum.number(), depth),
        }
    }

    /// Raises the depth of a dependency to at least this one, if there is a dependency.
    fn deepen_one(&mut self, dependency: &Option<Dependency>, depth: u64) -> Result<(), AllocError>
        ensures { OnOk result ((most : ℕ) → depth ≤ most → AreWithin self.old most → AreWithin self.new most) }
    {
        match dependency {
            Some(dependency) => self.deepen_at(*dependency, depth),
            None => Ok(()),
        }
    }

    /// Raises the depth of each of these dependencies to at least this one.
    pub fn deepen(&mut self, dependencies: &Dependencies, depth: u64) -> Result<(), AllocError>
        ensures { OnOk result ((most : ℕ) → depth ≤ most → AreWithin self.old most → AreWithin self.new most) }
    {
        self.deepen_one(&dependencies.first, depth)?;
        self.deepen_one(&dependencies.second, depth)
    }
}
