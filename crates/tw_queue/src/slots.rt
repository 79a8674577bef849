//! Slots of waiting tasks.

ghost use Rattle.std.specs.Prelude.{◌≡◌, [], IsOk, IsSome, OnOk, Some, None, count_by, is_some, true, slice_set};
ghost use Rattle.std.specs.Option.{option_copied};
ghost use Rattle.tw_queue.specs.Slots.{IsChangedAt, slot_at};

use crate::waiting::Waiting;
use std::alloc::{AllocError, Global};
use std::marker::Model;
use std::mem;

/// A slot: a waiting task, or the index of the next free slot, which is the number of slots if there is none.
pub enum Slot {
    Free(usize),
    Full(Waiting),
}

/// Tasks, each of which stays in its slot until it is taken. The slot that was emptied last is filled first.
pub struct Slots {
    slots: Vec<Slot>,
    len: usize,
    free: usize,
}

impl Model for Slots {
    ghost use Rattle.std.specs.Prelude.{map, nat_lt, vec_capacity};
    ghost use Rattle.tw_queue.specs.Slots.{Slotted, AreSlots, waiting_in};

    ghost Value = { Slotted };

    ghost view = { λ s. record {
      slots = map waiting_in s.slots.items;
      next = s.free;
      has_room = nat_lt s.len (vec_capacity s.slots);
    } };

    ghost invariant = { λ s. AreSlots s.slots.items s.len s.free };
}

impl Slots {
    /// Makes slots for queued tasks without any.
    pub fn new(alloc: Global) -> Slots
        ensures { result.slots ≡ [] }
    {
        Slots {
            slots: Vec::new(alloc),
            len: 0,
            free: 0,
        }
    }

    /// Returns the number of queued tasks in slots.
    pub fn len(&self) -> usize
        ensures { result ≡ count_by is_some self.now.slots }
    {
        self.len
    }

    /// Reserves memory for one queued task in a slot.
    pub fn reserve(&mut self) -> Result<(), AllocError>
        ensures same { self.new.slots ≡ self.old.slots }
        ensures next { self.new.next ≡ self.old.next }
        ensures room { OnOk result (self.new.has_room ≡ true) }
        ensures kept { self.old.has_room ≡ true → self.new.has_room ≡ true }
        ensures reserved { self.old.has_room ≡ true → IsOk result }
    {
        if self.len < self.slots.capacity() {
            Ok(())
        } else {
            self.slots.reserve(1)
        }
    }

    /// Returns the index of the slot into which the next queued task is put.
    pub fn next(&self) -> usize
        ensures next { result ≡ self.now.next }
        ensures free { slot_at self.now.slots result ≡ None }
    {
        self.free
    }

    /// Puts a queued task into the slot that `next` returns.
    pub fn fill(&mut self, waiting: Waiting)
        requires { self.old.has_room ≡ true }
        ensures { IsChangedAt self.old.next (Some waiting) self.old.slots self.new.slots }
    {
        let slot = self.free;
        self.len += 1;
        if slot == self.slots.len() {
            self.slots.push_reserved(Slot::Full(waiting));
            self.free = slot + 1;
        } else {
            match mem::replace(&mut self.slots[slot], Slot::Full(waiting)) {
                Slot::Free(next) => self.free = next,
                Slot::Full(_waiting) => unreachable!(),
            }
        }
    }

    /// Returns the queued task in a slot, if there is one.
    pub fn get(&self, slot: usize) -> Option<&Waiting>
        ensures { option_copied result ≡ slot_at self.now.slots slot }
    {
        match self.slots.get(slot) {
            Some(Slot::Full(waiting)) => Some(waiting),
            _ => None,
        }
    }

    /// Takes the queued task out of a slot, which is then the next to be filled.
    pub fn take(&mut self, slot: usize) -> Waiting
        requires { IsSome (slot_at self.old.slots slot) }
        ensures taken { slot_at self.old.slots slot ≡ Some result }
        ensures rest { IsChangedAt slot None self.old.slots self.new.slots }
        ensures room { self.new.has_room ≡ true }
    {
        match mem::replace(&mut self.slots[slot], Slot::Free(self.free)) {
            Slot::Full(waiting) => {
                self.len -= 1;
                self.free = slot;
                waiting
            }
            Slot::Free(_) => unreachable!(),
        }
    }

    /// Spends every right of every task in slots.
    pub fn shut(self) {
        let Slots {
            mut slots,
            len: _,
            free: _,
        } = self;
        while let Some(slot) = slots.pop() {
            match slot {
                Slot::Free(_) => {}
                Slot::Full(waiting) => waiting.spend(),
            }
        }
        slots.destroy_empty();
    }
}
