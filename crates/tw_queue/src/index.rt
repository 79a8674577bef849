//! The order of waiting tasks: a rank (priority, number, slot) for each.

ghost use Rattle.std.specs.Prelude.{◌≡◌, ℕ, [], IfNone, IfOk, IfSome, IsOk, None, OnErr, OnOk, false, true};
ghost use Rattle.tw_types.specs.declared.actor.Kind.{Kind};
ghost use Rattle.tw_queue.specs.RankIndex.{ranks_of, has_room_for, IsRankBest, IsRankAdded, IsRankRemoved, KeepsRoom};
ghost use Rattle.tw_queue.specs.Queues.{IsTarget, queue_of};
ghost use Rattle.tw_queue.specs.Targets.{HasNoRank};

use crate::queues_by_target::QueuesByTarget;
use crate::rank::Rank;
use std::alloc::{AllocError, Global};
use tw_types::{Actor, Kind};

/// The ranks of the tasks of each kind.
#[derive(Drop)]
pub struct RankIndex {
    pub control: QueuesByTarget,
    pub leaf: QueuesByTarget,
}

impl RankIndex {
    /// Makes an index of queued tasks' ranks, by kind, without any.
    pub fn new(alloc: Global) -> Result<RankIndex, AllocError>
        ensures { IfOk result (λ index. (kind : Kind) (queue : ℕ) → ranks_of index kind queue ≡ []) }
    {
        let control = QueuesByTarget::new(alloc)?;
        let leaf = QueuesByTarget::new(alloc)?;
        Ok(RankIndex { control, leaf })
    }

    /// Reserves memory in the index for the rank of one task of this kind and target.
    pub fn reserve(&mut self, kind: Kind, target: Option<u8>) -> Result<(), AllocError>
        requires { IsTarget target }
        ensures same { ranks_of self.new ≡ ranks_of self.old }
        ensures room { OnOk result (has_room_for kind (queue_of target) self.new ≡ true) }
        ensures kept { KeepsRoom self.old self.new }
        ensures reserved { has_room_for kind (queue_of target) self.old ≡ true → IsOk result }
    {
        match kind {
            Kind::Control => self.control.reserve(target),
            Kind::Leaf => self.leaf.reserve(target),
        }
    }

    /// Adds the rank of a queued task to the index of its kind.
    pub fn push(&mut self, kind: Kind, target: Option<u8>, rank: Rank) -> Result<(), AllocError>
        requires { IsTarget target }
        ensures pushed { OnOk result (IsRankAdded kind (queue_of target) rank (ranks_of self.old) (ranks_of self.new)) }
        ensures refused { OnErr result (ranks_of self.new ≡ ranks_of self.old) }
        ensures kept { OnErr result (KeepsRoom self.old self.new) }
        ensures reserved { has_room_for kind (queue_of target) self.old ≡ true → IsOk result }
    {
        match kind {
            Kind::Control => self.control.push(target, rank),
            Kind::Leaf => self.leaf.push(target, rank),
        }
    }

    /// Returns the best rank in the index among tasks that the actor may take.
    pub fn best(&self, actor: Actor) -> Option<Rank>
        ensures { IsRankBest actor (ranks_of self.now) result }
    {
        match actor {
            Actor::Engine(number) => self.control.best(number),
            Actor::Worker(number) => self.leaf.best(number),
            Actor::Server(_) => None,
        }
    }

    /// Removes from the index and returns the best rank among tasks that the actor may take.
    pub fn take(&mut self, actor: Actor) -> Option<Rank>
        ensures best { IsRankBest actor (ranks_of self.old) result }
        ensures taken { IfSome result (λ rank. IsRankRemoved rank (ranks_of self.old) (ranks_of self.new)) }
        ensures none { IfNone result (ranks_of self.new ≡ ranks_of self.old) }
        ensures kept { KeepsRoom self.old self.new }
    {
        match actor {
            Actor::Engine(number) => self.control.take(number),
            Actor::Worker(number) => self.leaf.take(number),
            Actor::Server(_) => None,
        }
    }

    /// Returns whether the index has a rank for this actor alone.
    pub fn has_targeted(&self, actor: Actor) -> bool
        ensures { result ≡ false → HasNoRank actor (ranks_of self.now) }
    {
        match actor {
            Actor::Engine(number) => self.control.has_targeted(number),
            Actor::Worker(number) => self.leaf.has_targeted(number),
            Actor::Server(_) => false,
        }
    }

    /// Returns whether the index has a rank of this kind without a target.
    pub fn has_untargeted(&self, kind: Kind) -> bool
        ensures { result ≡ false → ranks_of self.now kind 16 ≡ [] }
    {
        match kind {
            Kind::Control => self.control.has_untargeted(),
            Kind::Leaf => self.leaf.has_untargeted(),
        }
    }

    /// Returns whether the index has a rank among tasks that the actor may take.
    #[inline(always)]
    pub fn has_any(&self, actor: Actor) -> bool
        ensures { result ≡ false → IsRankBest actor (ranks_of self.now) None }
    {
        match actor {
            Actor::Engine(number) => self.control.has_any(number),
            Actor::Worker(number) => self.leaf.has_any(number),
            Actor::Server(_) => false,
        }
    }
}
