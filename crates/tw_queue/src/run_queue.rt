//! The ranks of the tasks of one kind and one target.

ghost use Rattle.std.specs.Prelude.{◌≡◌, ◌++◌, ◌∷◌, [], true, false, IfNone, IfSome, IsOk, OnErr, OnOk};
ghost use Rattle.std.specs.BinaryHeap.{IsHeap, heap_items};
ghost use Rattle.std.specs.List.Sorted.{IsPermutation};
ghost use Rattle.tw_queue.specs.RunQueues.{IsFirst, IsInFront, IsInOrder};
ghost use Rattle.tw_queue.specs.Ranks.{rank_cmp};

use crate::rank::Rank;
use std::alloc::{AllocError, Global};
use std::collections::{BinaryHeap, VecDeque};
use std::marker::Model;

/// The ranks of one run queue. If tasks of one priority come in order, all ranks are in `run`, and each is added and taken in
/// constant time.
#[derive(Drop)]
pub struct RunQueue {
    /// Sorted: the first rank is the greatest.
    run: VecDeque<Rank>,
    /// The ranks that were greater than the last of `run` when they were added.
    rest: BinaryHeap<Rank>,
}

impl Model for RunQueue {
    ghost use Rattle.std.specs.Prelude.{◌&&◌, ◌++◌, nat_lt};
    ghost use Rattle.std.specs.BinaryHeap.{IsHeap, heap_items, heap_len, heap_capacity};
    ghost use Rattle.std.specs.VecDeque.{deque_len, deque_capacity};
    ghost use Rattle.tw_queue.specs.RunQueues.{RunQueueView, IsInOrder};
    ghost use Rattle.tw_queue.specs.Ranks.{rank_cmp};

    ghost Value = { RunQueueView };

    ghost view = { λ p. record {
      ranks = p.run.items ++ heap_items p.rest;
      has_room = nat_lt (deque_len p.run) (deque_capacity p.run) && nat_lt (heap_len p.rest) (heap_capacity p.rest);
    } };

    ghost invariant = { λ p. IsInOrder p.run.items × IsHeap rank_cmp (heap_items p.rest) };
}

impl RunQueue {
    /// Makes a run queue without ranks.
    pub fn new(alloc: Global) -> RunQueue
        ensures { result.ranks ≡ [] }
    {
        RunQueue {
            run: VecDeque::new(alloc),
            rest: BinaryHeap::new(alloc),
        }
    }

    /// Reserves memory for one rank in a run queue.
    pub fn reserve(&mut self) -> Result<(), AllocError>
        ensures same { self.new.ranks ≡ self.old.ranks }
        ensures room { OnOk result (self.new.has_room ≡ true) }
        ensures kept { self.old.has_room ≡ true → self.new.has_room ≡ true }
        ensures reserved { self.old.has_room ≡ true → IsOk result }
    {
        self.run.reserve(1)?;
        self.rest.reserve(1)
    }

    /// Adds a rank to a run queue.
    pub fn push(&mut self, rank: Rank) -> Result<(), AllocError>
        ensures pushed { OnOk result (IsPermutation (rank ∷ self.old.ranks) self.new.ranks) }
        ensures refused { OnErr result (self.new.ranks ≡ self.old.ranks) }
        ensures kept { OnErr result (self.old.has_room ≡ true → self.new.has_room ≡ true) }
        ensures reserved { self.old.has_room ≡ true → IsOk result }
    {
        if is_next(&self.run, rank) {
            self.run.push_back(rank)?;
        } else {
            self.rest.push(rank)?;
        }
        Ok(())
    }

    /// Returns whether a run queue has no rank.
    #[inline(always)]
    pub fn is_empty(&self) -> bool
        ensures { result ≡ true → self.now.ranks ≡ [] }
    {
        self.run.is_empty() && self.rest.is_empty()
    }

    /// Returns the first rank of a run queue: the greatest.
    pub fn first(&self) -> Option<Rank>
        ensures { IsFirst self.now.ranks result }
    {
        if is_in_front(&self.run, &self.rest) {
            self.run.front().copied()
        } else {
            self.rest.peek().copied()
        }
    }

    /// Takes the first rank out of a run queue.
    pub fn pop(&mut self) -> Option<Rank>
        ensures first { IsFirst self.old.ranks result }
        ensures popped { IfSome result (λ rank. IsPermutation self.old.ranks (rank ∷ self.new.ranks)) }
        ensures none { IfNone result (self.new.ranks ≡ self.old.ranks) }
        ensures kept { self.old.has_room ≡ true → self.new.has_room ≡ true }
    {
        if is_in_front(&self.run, &self.rest) {
            self.run.pop_front()
        } else {
            self.rest.pop()
        }
    }
}

/// Returns whether a rank comes after all ranks of a sorted run of a run queue.
fn is_next(run: &VecDeque<Rank>, rank: Rank) -> bool
    requires { IsInOrder run.now.items }
    ensures { result ≡ true → IsInOrder (run.now.items ++ rank ∷ []) }
{
    match run.back() {
        Some(last) => rank < *last,
        None => true,
    }
}

/// Returns whether the first rank of a run queue's sorted run is greater than all of the rest.
fn is_in_front(run: &VecDeque<Rank>, rest: &BinaryHeap<Rank>) -> bool
    requires run { IsInOrder run.now.items }
    requires rest { IsHeap rank_cmp (heap_items rest.now) }
    ensures yes { result ≡ true → IsInFront run.now.items (heap_items rest.now) }
    ensures no { result ≡ false → IsInFront (heap_items rest.now) run.now.items }
{
    match (run.front(), rest.peek()) {
        (Some(first), Some(top)) => *top < *first,
        (Some(_), None) => true,
        (None, _) => false,
    }
}
