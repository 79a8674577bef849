//! The ranks of the tasks of one kind.

ghost use Rattle.std.specs.Prelude.{◌≡◌, ◌<◌, ◌≤◌, [], IsOk, IfOk, IfSome, IfNone, None, OnOk, OnErr, replicate, false, true};
ghost use Rattle.tw_queue.specs.QueuesByTarget.{ranks_at, AreRoomsKept, IsPushed, IsFirstAt, IsBestQueue, IsBest, IsTaken};
ghost use Rattle.tw_queue.specs.Queues.{queue_of, room_at};

use crate::rank::Rank;
use crate::run_queue::RunQueue;
use std::alloc::{AllocError, Global};
use std::marker::Model;

/// A run queue for each target, and a last one for tasks that any actor may take.
#[derive(Drop)]
pub struct QueuesByTarget {
    queues: Vec<RunQueue>,
}

impl Model for QueuesByTarget {
    ghost use Rattle.std.specs.Prelude.{◌≡◌, length};
    ghost use Rattle.tw_queue.specs.QueuesByTarget.{Listed, seen};

    ghost Value = { Listed };

    ghost view = { λ by_target. seen by_target.queues.items };

    ghost invariant = { λ by_target. length by_target.queues.items ≡ 17 };
}

impl QueuesByTarget {
    /// The index of the run queue for any actor.
    const ANY: usize = 16;

    const COUNT: usize = 17;

    /// Makes seventeen run queues without ranks: one for each target, and one for tasks without.
    pub fn new(alloc: Global) -> Result<QueuesByTarget, AllocError>
        ensures { IfOk result (λ by_target. by_target.queues ≡ replicate 17 []) }
    {
        let mut queues = Vec::new(alloc);
        for _ in 0..QueuesByTarget::COUNT {
            queues.push(RunQueue::new(alloc))?;
        }
        Ok(QueuesByTarget { queues })
    }

    /// Reserves memory in the run queue of this target for the rank of one task.
    #[inline(always)]
    pub fn reserve(&mut self, target: Option<u8>) -> Result<(), AllocError>
        requires { queue_of target < 17 }
        ensures same { self.new.queues ≡ self.old.queues }
        ensures room { OnOk result (room_at self.new.rooms (queue_of target) ≡ true) }
        ensures kept { AreRoomsKept self.old.rooms self.new.rooms }
        ensures reserved { room_at self.old.rooms (queue_of target) ≡ true → IsOk result }
    {
        let queue = &mut self.queues[queue_of(target)];
        queue.reserve()
    }

    /// Adds the rank of a task to the run queue of this target.
    #[inline(always)]
    pub fn push(&mut self, target: Option<u8>, rank: Rank) -> Result<(), AllocError>
        requires { queue_of target < 17 }
        ensures pushed { OnOk result (IsPushed (queue_of target) rank (ranks_at self.old.queues) (ranks_at self.new.queues)) }
        ensures refused { OnErr result (self.new.queues ≡ self.old.queues) }
        ensures kept { OnErr result (AreRoomsKept self.old.rooms self.new.rooms) }
        ensures reserved { room_at self.old.rooms (queue_of target) ≡ true → IsOk result }
    {
        let queue = &mut self.queues[queue_of(target)];
        queue.push(rank)
    }

    /// Returns the first rank of the two run queues from which an actor of this number takes.
    pub fn best(&self, number: u8) -> Option<Rank>
        ensures { IsBest number (ranks_at self.now.queues) result }
    {
        let (_, rank) = self.best_queue(number)?;
        Some(rank)
    }

    /// Takes the first rank of the two run queues from which an actor of this number takes.
    pub fn take(&mut self, number: u8) -> Option<Rank>
        ensures best { IsBest number (ranks_at self.old.queues) result }
        ensures taken { IfSome result (λ rank. IsTaken rank (ranks_at self.old.queues) (ranks_at self.new.queues)) }
        ensures none { IfNone result (self.new.queues ≡ self.old.queues) }
        ensures kept { AreRoomsKept self.old.rooms self.new.rooms }
    {
        let (index, _) = self.best_queue(number)?;
        let queue = &mut self.queues[index];
        queue.pop()
    }

    /// Returns whether one of the two run queues from which an actor of this number takes has a rank.
    #[inline(always)]
    pub fn has_any(&self, number: u8) -> bool
        ensures { result ≡ false → IsBest number (ranks_at self.now.queues) None }
    {
        self.has_at(QueuesByTarget::ANY) || self.has_at(usize::from(number))
    }

    /// Returns whether the run queue at an index has a rank.
    #[inline(always)]
    fn has_at(&self, index: usize) -> bool
        ensures { result ≡ false → ranks_at self.now.queues index ≡ [] }
    {
        if index < self.queues.len() {
            let queue = &self.queues[index];
            !queue.is_empty()
        } else {
            false
        }
    }

    /// Returns whether the run queue of this target has a rank.
    pub fn has_targeted(&self, number: u8) -> bool
        ensures { result ≡ false → ranks_at self.now.queues number ≡ [] }
    {
        self.first(usize::from(number)).is_some()
    }

    /// Returns whether the run queue of tasks without a target has a rank.
    pub fn has_untargeted(&self) -> bool
        ensures { result ≡ false → ranks_at self.now.queues 16 ≡ [] }
    {
        self.first(QueuesByTarget::ANY).is_some()
    }

    /// Returns the index of the run queue with the best rank for the actor, and the rank.
    #[inline(always)]
    fn best_queue(&self, number: u8) -> Option<(usize, Rank)>
        ensures { IsBestQueue number self.now.queues result }
    {
        let own = usize::from(number);
        if !self.has_at(own) {
            let rank = self.first(QueuesByTarget::ANY)?;
            return Some((QueuesByTarget::ANY, rank));
        }
        match (self.first(QueuesByTarget::ANY), self.first(own)) {
            (None, None) => None,
            (Some(rank), None) => Some((QueuesByTarget::ANY, rank)),
            (None, Some(rank)) => Some((own, rank)),
            (Some(any), Some(rank)) => {
                if any < rank {
                    Some((own, rank))
                } else {
                    Some((QueuesByTarget::ANY, any))
                }
            }
        }
    }

    /// Returns the first rank of the run queue at an index.
    fn first(&self, index: usize) -> Option<Rank>
        ensures { IsFirstAt index self.now.queues result }
    {
        if index < self.queues.len() {
            let queue = &self.queues[index];
            queue.first()
        } else {
            None
        }
    }
}

/// Returns the index of the run queue for a target: its number, or the last one without a target.
fn queue_of(target: Option<u8>) -> usize
    ensures { result ≡ queue_of target }
{
    match target {
        Some(number) => usize::from(number),
        None => QueuesByTarget::ANY,
    }
}
