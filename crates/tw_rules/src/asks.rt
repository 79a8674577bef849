//! Rules by rising number.

ghost use Rattle.std.specs.Prelude.{◌≡◌, ◌++◌, ◌∷◌, [], IsOk, OnOk, true, slice_get, drop};

use std::alloc::{AllocError, Global};
use std::collections::VecDeque;
use std::marker::Model;

/// The numbers of an engine's rules that had an unasked parameter when they were added, in the order of adding.
#[derive(Drop)]
pub struct Asks {
    numbers: VecDeque<u64>,
}

impl Model for Asks {
    ghost use Rattle.std.specs.Prelude.{nat_lt};
    ghost use Rattle.std.specs.VecDeque.{deque_len, deque_capacity};
    ghost use Rattle.tw_rules.specs.Numbers.{Asked};

    ghost Value = { Asked };

    ghost view = { λ asks. record {
      numbers = asks.numbers.items;
      has_room = nat_lt (deque_len asks.numbers) (deque_capacity asks.numbers);
    } };
}

impl Asks {
    /// Makes an engine's list of rules to ask for, without any.
    pub fn new(alloc: Global) -> Asks
        ensures { result.numbers ≡ [] }
    {
        Asks {
            numbers: VecDeque::new(alloc),
        }
    }

    /// Reserves memory for the number of one more rule to ask for.
    pub fn reserve(&mut self) -> Result<(), AllocError>
        ensures same { self.new.numbers ≡ self.old.numbers }
        ensures room { OnOk result (self.new.has_room ≡ true) }
        ensures kept { self.old.has_room ≡ true → self.new.has_room ≡ true }
        ensures reserved { self.old.has_room ≡ true → IsOk result }
    {
        self.numbers.reserve(1)
    }

    /// Appends the number of a rule to ask for.
    pub fn push(&mut self, number: u64)
        requires { self.old.has_room ≡ true }
        ensures { self.new.numbers ≡ self.old.numbers ++ number ∷ [] }
    {
        match self.numbers.push_back(number) {
            Ok(()) => {}
            Err(_refused) => unreachable!(),
        }
    }

    /// Returns the first number of an engine's rules to ask for.
    pub fn first(&self) -> Option<u64>
        ensures { result ≡ slice_get self.now.numbers 0 }
    {
        self.numbers.front().copied()
    }

    /// Drops the first number of an engine's rules to ask for.
    pub fn drop_first(&mut self)
        ensures rest { self.new.numbers ≡ drop 1 self.old.numbers }
        ensures room { self.old.has_room ≡ true → self.new.has_room ≡ true }
    {
        let _first = self.numbers.pop_front();
    }
}
