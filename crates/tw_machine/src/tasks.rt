//! The table of waiting tasks.

ghost use Rattle.std.specs.Prelude.{◌≡◌, ◌<◌, ◌^◌, ◌==◌, option_map, OnErr, OnOk};
ghost use Rattle.std.specs.FinMap.{empty, len};
ghost use Rattle.tw_types.specs.Task.{best};
ghost use Rattle.tw_machine.specs.Parts.{tasks_of};
ghost use Rattle.tw_machine.specs.Waiting.{task_put, task_taken};

use crate::rank::{Rank, kind_of};
use crate::ranks::Ranks;
use std::alloc::{AllocError, Global};
use std::collections::BTreeMap;
use std::marker::Model;
use tw_instr::Task;
use tw_types::Actor;

/// The waiting tasks by their numbers, their ranks, and the number of the next one. No number is reused.
#[derive(Drop)]
pub struct Tasks {
    waiting: BTreeMap<u64, Task>,
    ranks: Ranks,
    next: u64,
}

impl Model for Tasks {
    ghost use Rattle.tw_types.specs.Task.{Task as TaskMeaning};
    ghost use Rattle.std.specs.FinMap.{code};
    ghost use Rattle.std.specs.Ordering.{nat_cmp};
    ghost use Rattle.std.specs.Coded.{codes, coded_ℕ};
    ghost use Rattle.tw_machine.specs.Parts.{tasks_of};
    ghost use Rattle.tw_machine.specs.Waiting.{TaskTable};

    ghost Value = { TaskTable };

    ghost coded = { Prim.hlevel (codes, code {X = TaskMeaning} {R = nat_cmp} coded_ℕ (Prim.hlevel codes)) };

    ghost view = { λ t. record { waiting = tasks_of t.waiting.entries; next = t.next } };

    ghost use Rattle.tw_machine.specs.Ranking.{AreRanked};

    ghost invariant = { λ t. AreRanked (tasks_of t.waiting.entries) t.next t.ranks };
}

impl Tasks {
    /// Makes the reference machine's table without waiting tasks; the first will be task 1.
    pub fn new(alloc: Global) -> Tasks
        ensures { result ≡ record { waiting = empty; next = 1 } }
    {
        Tasks {
            waiting: BTreeMap::new(alloc),
            ranks: Ranks::new(alloc),
            next: 1,
        }
    }

    /// Returns the reference machine's waiting tasks, by their numbers.
    pub fn waiting(&self) -> &BTreeMap<u64, Task>
        ensures { tasks_of result.now.entries ≡ self.now.waiting }
    {
        &self.waiting
    }

    /// Returns whether no task waits in the reference machine's table.
    pub fn is_empty(&self) -> bool
        ensures { result ≡ (len self.now.waiting == 0) }
    {
        self.waiting.is_empty()
    }

    /// Adds a waiting task to the reference machine's table, with the next number.
    pub fn put(&mut self, alloc: Global, task: Task) -> Result<(), AllocError>
        requires { self.old.next < 2 ^ 63 }
        ensures put { OnOk result (self.new ≡ task_put self.old task) }
        ensures refused { OnErr result (self.new ≡ self.old) }
    {
        let kind = kind_of(&task);
        let target = task.target();
        let rank = Rank::of(self.next, &task);
        self.ranks.add(alloc, kind, target, rank)?;
        if self.waiting.insert(self.next, task).is_err() {
            self.ranks.remove(kind, target, rank);
            return Err(AllocError);
        }
        self.next += 1;
        Ok(())
    }

    /// Removes a waiting task from the reference machine's table.
    pub fn remove(&mut self, number: u64)
        ensures { self.new ≡ task_taken self.old number }
    {
        let Some(task) = self.waiting.remove(&number) else {
            return;
        };
        let rank = Rank::of(number, &task);
        self.ranks.remove(kind_of(&task), task.target(), rank);
    }

    /// Returns the reference machine's task that the actor takes, with its number: among those that it may take, the one with the
    /// greatest priority, and among several of these the one with the least number.
    pub fn best(&self, actor: Actor) -> Option<(u64, &Task)>
        ensures { option_map (λ e. (e.0, e.1.now)) result ≡ best actor self.now.waiting }
    {
        let rank = self.ranks.first(actor)?;
        let task = self.waiting.get(&rank.number)?;
        Some((rank.number, task))
    }
}
