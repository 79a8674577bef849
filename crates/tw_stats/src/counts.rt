//! Counts of events, tasks and instructions.

ghost use Rattle.std.specs.Prelude.{◌≡◌, ◌+◌, ◌-◌, ◌^◌, min, OnOk};
ghost use Rattle.tw_stats.specs.Sums.{AddUp, IsShare};

use crate::share::Share;
use crate::table::Table;
use std::alloc::{AllocError, Global};

/// The counts of all events of a trace.
#[derive(Drop)]
pub struct Counts {
    pub events: u64,
    /// The number of steps: one for each local instruction, and one for each other event.
    pub steps: u64,
    pub kinds: Table,
    /// The number of tasks of each procedure, by its number.
    pub tasks: Table,
    /// The number of instructions that the tasks of each procedure execute.
    pub instructions: Table,
}

impl Counts {
    /// Makes counts of zero.
    pub fn new(alloc: Global) -> Counts
        ensures none { result.steps ≡ 0 }
        ensures sums { AddUp result }
    {
        Counts {
            events: 0,
            steps: 0,
            kinds: Table::new(alloc),
            tasks: Table::new(alloc),
            instructions: Table::new(alloc),
        }
    }

    /// Counts an event of a task of this procedure; the number of an event that no task executes has no effect.
    pub fn add(&mut self, share: Share, procedure: u64) -> Result<(), AllocError>
        ensures steps { OnOk result (self.new.steps ≡ min (self.old.steps + share.steps) (2 ^ 64 - 1)) }
        ensures sums { OnOk result (IsShare share → AddUp self.old → AddUp self.new) }
    {
        self.events = self.events.saturating_add(1);
        self.steps = self.steps.saturating_add(share.steps);
        self.kinds.add(share.kind, 1)?;
        self.tasks.add(procedure, share.tasks)?;
        self.instructions.add(procedure, share.instructions)
    }
}
