//! The loops that a task has begun.

ghost use Rattle.std.specs.Prelude.{◌≡◌, ◌<◌, ◌^◌, ◌∷◌, ◌+◌, [], length, Some, None, IsTrue, ◌↔◌};
ghost use Rattle.tw_code.specs.machine.Position.{after_end, with_last};
ghost use Rattle.tw_frame.specs.Innermost.{with_innermost};

use std::marker::Model;

/// A loop: its first place, and the iterations that are left, this one included.
#[derive(Clone, Copy)]
pub(crate) struct LoopState {
    first: u32,
    left: u32,
}

impl Model for LoopState {
    ghost use Rattle.tw_code.specs.machine.Position.{Loop as Meaning};

    ghost Value = { Meaning };

    ghost view = { λ l. record { first = l.first; left = l.left } };

    ghost inverse = { λ l. record { first = l.first; left = l.left } };
}

/// Returns whether two begun loops of a task have the same first place and iterations left.
fn same_loop(left: LoopState, right: LoopState) -> bool
    ensures { IsTrue result ↔ (left ≡ right) }
{
    if left.first == right.first {
        left.left == right.left
    } else {
        false
    }
}

/// At most four nested loops; the innermost is the last.
#[derive(Drop)]
pub(crate) struct Loops {
    begun: [LoopState; 4],
    depth: usize,
}

impl Model for Loops {
    ghost use Rattle.std.specs.Prelude.{◌≡◌, List, ◌≤◌, length, reverse, take};
    ghost use Rattle.tw_code.specs.machine.Position.{Loop as Meaning};

    ghost Value = { List Meaning };

    ghost view = { λ l. reverse (take l.depth l.begun) };

    ghost invariant = { λ l. (l.depth ≤ 4) × (length l.begun ≡ 4) };
}

impl Loops {
    /// Returns the loops of a running task that has begun none.
    pub(crate) fn new() -> Loops
        ensures { result ≡ [] }
    {
        Loops {
            begun: [LoopState { first: 0, left: 0 }; 4],
            depth: 0,
        }
    }

    /// Returns the innermost loop that a running task has begun, if any.
    #[inline(always)]
    pub(crate) fn innermost(&self) -> LoopState
        ensures { with_innermost result self.now ≡ self.now }
    {
        if self.depth > 0 {
            self.begun[self.depth - 1]
        } else {
            LoopState { first: 0, left: 0 }
        }
    }

    /// Changes the innermost loop that a running task has begun, if any.
    #[inline(always)]
    pub(crate) fn set_innermost(&mut self, innermost: LoopState)
        ensures set { self.new ≡ with_innermost innermost self.old }
        ensures len { length self.new ≡ length self.old }
    {
        if self.depth > 0 {
            self.begun[self.depth - 1] = innermost;
        }
    }

    /// Adds a loop inside those that a running task has begun.
    fn push(&mut self, first: u32, iterations: u16)
        requires { length self.old < 4 }
        ensures { self.new ≡ record { first = first; left = iterations } ∷ self.old }
    {
        self.begun[self.depth] = LoopState {
            first,
            left: u32::from(iterations),
        };
        self.depth += 1;
    }

    /// Removes and returns the innermost loop that a running task has begun.
    fn pop(&mut self) -> LoopState
        requires { 0 < length self.old }
        ensures { self.old ≡ result ∷ self.new }
    {
        let innermost = self.begun[self.depth - 1];
        self.depth -= 1;
        innermost
    }

    /// Begins a loop of a running task inside the others. `innermost` is the innermost one before and after.
    #[inline(always)]
    pub(crate) fn begin(&mut self, innermost: &mut LoopState, first: u32, iterations: u16)
        requires { length (with_innermost innermost.old self.old) < 4 }
        ensures { with_innermost innermost.new self.new ≡ record { first = first; left = iterations } ∷ with_innermost innermost.old self.old }
    {
        self.set_innermost(*innermost);
        self.push(first, iterations);
        *innermost = self.innermost();
    }

    /// Ends an iteration of a running task's innermost loop. Returns the next place.
    #[inline(always)]
    pub(crate) fn end_iteration(&mut self, innermost: &mut LoopState, place: usize) -> usize
        requires begun { 0 < length (with_innermost innermost.old self.old) }
        requires inside { place < 2 ^ 63 }
        ensures { after_end place (with_innermost innermost.old self.old) ≡ Some (record { place = result; loops = with_innermost innermost.new self.new }) }
    {
        if innermost.left > 1 {
            innermost.left -= 1;
            innermost.first as usize
        } else {
            let _ended = self.pop();
            *innermost = self.innermost();
            place + 1
        }
    }

    /// Makes this iteration the last one of a running task's innermost loop, if one is begun.
    pub(crate) fn last_iteration(&self, innermost: &mut LoopState)
        ensures { with_innermost innermost.new self.now ≡ with_last (with_innermost innermost.old self.now) }
    {
        innermost.left = 1;
    }

    /// Returns whether two tasks have begun the same loops, with the same iterations left.
    pub(crate) fn same(&self, other: &Loops) -> bool
        ensures { IsTrue result ↔ (self.now ≡ other.now) }
    {
        if self.depth != other.depth {
            return false;
        }
        for index in 0..self.depth {
            if !same_loop(self.begun[index], other.begun[index]) {
                return false;
            }
        }
        true
    }

    /// Copies the loops that a running task has begun.
    pub(crate) fn copy(&self) -> Loops
        ensures { result ≡ self.now }
    {
        Loops {
            begun: self.begun,
            depth: self.depth,
        }
    }
}
