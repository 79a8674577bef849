//! A heap of the numbers of rules that can be released.

ghost use Rattle.std.specs.Prelude.{◌≡◌, ◌<◌, ◌+◌, ◌∷◌, [], IsOk, OnOk, MatchOption, true};
ghost use Rattle.std.specs.List.Sorted.{IsPermutation};
ghost use Rattle.tw_rules.specs.Numbers.{IsLeast, IsWithoutLeast};

use std::alloc::{AllocError, Global};
use std::cmp::Reverse;
use std::collections::BinaryHeap;
use std::marker::Model;

/// The numbers of an engine's rules that can be released, with reserved memory for `promised` more.
#[derive(Drop)]
pub struct Releases {
    heap: BinaryHeap<Reverse<u64>>,
    promised: usize,
}

impl Model for Releases {
    ghost use Rattle.std.specs.Prelude.{nat_lt, ◌+◌};
    ghost use Rattle.std.specs.BinaryHeap.{heap_len, heap_capacity};
    ghost use Rattle.tw_rules.specs.Numbers.{Released, numbers_in, IsRoomy};

    ghost Value = { Released };

    ghost view = { λ r. record {
      numbers = numbers_in r.heap;
      promised = r.promised;
      has_room = nat_lt (heap_len r.heap + r.promised) (heap_capacity r.heap);
    } };

    ghost invariant = { λ r. IsRoomy r.heap r.promised };
}

impl Releases {
    /// Makes a heap of releasable rules without any.
    pub fn new(alloc: Global) -> Releases
        ensures numbers { result.numbers ≡ [] }
        ensures promised { result.promised ≡ 0 }
    {
        Releases {
            heap: BinaryHeap::new(alloc),
            promised: 0,
        }
    }

    /// Reserves memory in the heap of releasable rules for one number more than are promised.
    pub fn reserve(&mut self) -> Result<(), AllocError>
        ensures numbers { self.new.numbers ≡ self.old.numbers }
        ensures promised { self.new.promised ≡ self.old.promised }
        ensures room { OnOk result (self.new.has_room ≡ true) }
        ensures kept { self.old.has_room ≡ true → self.new.has_room ≡ true }
        ensures reserved { self.old.has_room ≡ true → IsOk result }
    {
        if self.heap.len() + self.promised < self.heap.capacity() {
            return Ok(());
        }
        let Some(wanted) = self.promised.checked_add(1) else {
            return Err(AllocError);
        };
        self.heap.reserve(wanted)
    }

    /// Promises the memory in the heap of releasable rules that was reserved.
    pub fn promise(&mut self)
        requires { self.old.has_room ≡ true }
        ensures numbers { self.new.numbers ≡ self.old.numbers }
        ensures promised { self.new.promised ≡ self.old.promised + 1 }
    {
        let _capacity = self.heap.capacity();
        self.promised += 1;
    }

    /// Adds a number to the heap of releasable rules, for which memory was reserved.
    pub fn push(&mut self, number: u64)
        requires { self.old.has_room ≡ true }
        ensures numbers { IsPermutation (number ∷ self.old.numbers) self.new.numbers }
        ensures promised { self.new.promised ≡ self.old.promised }
    {
        match self.heap.push(Reverse(number)) {
            Ok(()) => {}
            Err(_refused) => unreachable!(),
        }
    }

    /// Adds a number to the heap of releasable rules, for which memory was promised.
    pub fn push_promised(&mut self, number: u64)
        requires { 0 < self.old.promised }
        ensures numbers { IsPermutation (number ∷ self.old.numbers) self.new.numbers }
        ensures promised { self.new.promised + 1 ≡ self.old.promised }
        ensures room { self.old.has_room ≡ true → self.new.has_room ≡ true }
    {
        self.promised -= 1;
        match self.heap.push(Reverse(number)) {
            Ok(()) => {}
            Err(_refused) => unreachable!(),
        }
    }

    /// Returns the least number in the heap of releasable rules.
    pub fn first(&self) -> Option<u64>
        ensures { MatchOption result (self.now.numbers ≡ []) (IsLeast self.now.numbers) }
    {
        let Reverse(least) = self.heap.peek().copied()?;
        Some(least)
    }

    /// Drops the least number in the heap of releasable rules.
    pub fn drop_first(&mut self)
        ensures rest { IsWithoutLeast self.old.numbers self.new.numbers }
        ensures none { self.old.numbers ≡ [] → self.new.numbers ≡ [] }
        ensures promised { self.new.promised ≡ self.old.promised }
        ensures room { self.old.has_room ≡ true → self.new.has_room ≡ true }
    {
        let _least = self.heap.pop();
    }
}
