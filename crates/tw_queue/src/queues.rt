//! The task queues.

ghost use Rattle.std.specs.Prelude.{◌≡◌, IsOk, IfOk, IfErr, OnOk, OnErr, None, false, true, option_map};
ghost use Rattle.std.specs.FinMap as map;
ghost use Rattle.std.specs.FinMap.{get};
ghost use Rattle.std.specs.Option.{option_copied};
ghost use Rattle.tw_types.specs.Task.{best};
ghost use Rattle.tw_queue.specs.Queues.{IsRoomKept, IsTarget, taken_task, room_for, waiting, without};
ghost use Rattle.tw_queue.specs.Targets.{HaveTargets, IsNoTarget};

use crate::index::RankIndex;
use crate::rank::Rank;
use crate::slots::Slots;
use crate::waiting::Waiting;
use std::alloc::{AllocError, Global};
use std::marker::Model;
use tw_rights::Task;
use tw_types::{Actor, Kind};

/// The waiting tasks, each in a slot, and an index of them by kind, target and rank.
pub struct TaskQueues {
    tasks: Slots,
    index: RankIndex,
}

impl Model for TaskQueues {
    ghost use Rattle.tw_queue.specs.Queues.{Queues};
    ghost use Rattle.std.specs.Coded.{codes, coded_ℕ};
    ghost use Rattle.std.specs.FinMap.{code};
    ghost use Rattle.std.specs.Ordering.{nat_cmp};
    ghost use Rattle.tw_rights.specs.declared.arg.Arg.{Arg};
    ghost use Rattle.tw_types.specs.Task.{TaskOf};

    ghost Value = { Queues };

    ghost coded = { Prim.hlevel (codes, code {X = TaskOf Arg} {R = nat_cmp} coded_ℕ (Prim.hlevel codes)) };

    ghost use Rattle.tw_queue.specs.RankIndex.{ranks_of, rooms_with};
    ghost use Rattle.tw_queue.specs.Slots.{slot_at};
    ghost use Rattle.tw_queue.specs.Indexed.{tasks_in, IsIndex};

    ghost view = { λ q. record {
      tasks = tasks_in q.tasks.slots;
      control_rooms = rooms_with q.tasks.has_room q.index.control.rooms;
      leaf_rooms = rooms_with q.tasks.has_room q.index.leaf.rooms;
    } };

    ghost invariant = { λ q. IsIndex (slot_at q.tasks.slots) (ranks_of q.index) };
}

impl TaskQueues {
    /// Makes the pool's queues without tasks.
    pub fn new(alloc: Global) -> Result<TaskQueues, AllocError>
        ensures { IfOk result (λ queues. queues.tasks ≡ map.empty) }
    {
        let index = RankIndex::new(alloc)?;
        Ok(TaskQueues {
            tasks: Slots::new(alloc),
            index,
        })
    }

    /// Returns the number of tasks in the pool's queues.
    pub fn len(&self) -> usize
        ensures { result ≡ map.len self.now.tasks }
    {
        self.tasks.len()
    }

    /// Reserves memory in the pool's queues for one task of this kind and target.
    #[inline(always)]
    pub fn reserve(&mut self, kind: Kind, target: Option<u8>) -> Result<(), AllocError>
        requires { IsTarget target }
        ensures same { self.new.tasks ≡ self.old.tasks }
        ensures room { OnOk result (room_for kind target self.new ≡ true) }
        ensures kept { IsRoomKept self.old self.new }
        ensures reserved { room_for kind target self.old ≡ true → IsOk result }
    {
        self.tasks.reserve()?;
        self.index.reserve(kind, target)
    }

    /// Adds a task to the pool's queues. Returns it if an allocation fails.
    #[inline(always)]
    pub fn put(
        &mut self,
        kind: Kind,
        priority: i64,
        target: Option<u8>,
        task: Task,
    ) -> Result<(), Task>
        requires new { get self.old.tasks task.no ≡ None }
        requires target { IsTarget target }
        ensures put { OnOk result (self.new.tasks ≡ map.insert self.old.tasks task.no (waiting kind priority target task)) }
        ensures refused { OnErr result (self.new.tasks ≡ self.old.tasks) }
        ensures room { OnErr result (IsRoomKept self.old self.new) }
        ensures back { IfErr result (λ back. back ≡ task) }
        ensures reserved { room_for kind target self.old ≡ true → IsOk result }
    {
        let number = task.no.number();
        let Ok(()) = self.tasks.reserve() else {
            return Err(task);
        };
        let slot = self.tasks.next();
        let rank = Rank {
            priority,
            number,
            slot,
        };
        let Ok(()) = self.index.push(kind, target, rank) else {
            return Err(task);
        };
        self.tasks.fill(Waiting {
            kind,
            priority,
            target,
            task,
        });
        Ok(())
    }

    /// Returns the queued task that the actor takes next, if there is one.
    pub fn best(&self, actor: Actor) -> Option<&Task>
        ensures { option_copied result ≡ option_map taken_task (best actor self.now.tasks) }
    {
        let rank = self.index.best(actor)?;
        let Some(waiting) = self.tasks.get(rank.slot) else {
            unreachable!();
        };
        Some(&waiting.task)
    }

    /// Takes the task that `best` returns out of the pool's queues.
    pub fn take(&mut self, actor: Actor) -> Option<Task>
        ensures taken { result ≡ option_map taken_task (best actor self.old.tasks) }
        ensures rest { self.new.tasks ≡ without (best actor self.old.tasks) self.old.tasks }
        ensures room { IsRoomKept self.old self.new }
    {
        let rank = self.index.take(actor)?;
        let Waiting {
            kind: _,
            priority: _,
            target: _,
            task,
        } = self.tasks.take(rank.slot);
        Some(task)
    }

    /// Returns whether a task is in the pool's queues that the actor may take.
    #[inline(always)]
    pub fn has_any(&self, actor: Actor) -> bool
        ensures { result ≡ false → best actor self.now.tasks ≡ None }
    {
        self.index.has_any(actor)
    }

    /// Returns whether a task waits that only this actor may take.
    pub fn has_targeted(&self, actor: Actor) -> bool
        ensures { result ≡ false → IsNoTarget actor self.now.tasks }
    {
        self.index.has_targeted(actor)
    }

    /// Returns whether a task of this kind without a target is in the pool's queues.
    pub fn has_untargeted(&self, kind: Kind) -> bool
        ensures { result ≡ false → HaveTargets kind self.now.tasks }
    {
        self.index.has_untargeted(kind)
    }

    /// Spends every right of every queued task.
    pub fn shut(self) {
        let TaskQueues { tasks, index: _ } = self;
        tasks.shut();
    }
}
