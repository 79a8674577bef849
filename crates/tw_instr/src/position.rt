//! Positions of tasks.

ghost use Rattle.std.specs.Prelude.{◌≡◌, ◌<◌, ◌^◌, ◌∷◌, ◌+◌, [], length, reverse, slice_get, slice_set, IfOk, OnOk, None, Some, true, false, OnErr};
ghost use Rattle.std.specs.Option.{option_copied, option_map};
ghost use Rattle.tw_code.specs.machine.Position.{at_next_place, at_goal, with_value, after_end, with_last};

use std::alloc::{AllocError, Global};
use std::marker::Model;
use tw_types::{Value, keep};

/// A loop that is begun: its first place, and the iterations that are left, this one included.
#[derive(Clone, Copy)]
struct Loop {
    first: usize,
    left: u16,
}

impl Model for Loop {
    ghost use Rattle.tw_code.specs.machine.Position.{Loop as Meaning};

    ghost Value = { Meaning };

    ghost view = { λ l. record { first = l.first; left = l.left } };

    ghost inverse = { λ l. record { first = l.first; left = l.left } };
}

/// A place in the code, the values of the declared registers, and the loops that are begun.
#[derive(Drop)]
pub struct Position {
    place: usize,
    values: Vec<Value>,
    /// The innermost one is the last.
    loops: Vec<Loop>,
}

impl Model for Position {
    ghost use Rattle.std.specs.Prelude.{reverse};
    ghost use Rattle.tw_code.specs.machine.Position.{Position as Meaning};

    ghost Value = { Meaning };

    ghost view = { λ p. record { place = p.place; values = p.values.items; loops = reverse p.loops.items } };
}

impl Position {
    /// Returns a task's position at the start of its procedure's code, with these values.
    pub fn first(alloc: Global, values: Vec<Value>) -> Position
        ensures { result ≡ record { place = 0; values = values.items; loops = [] } }
    {
        Position {
            place: 0,
            values,
            loops: Vec::new(alloc),
        }
    }

    /// Returns the place of the next instruction of a position, counted from 0.
    pub fn place(&self) -> usize
        ensures { result ≡ self.now.place }
    {
        self.place
    }

    /// Returns the value of a register at a position, if the register is declared.
    pub fn value(&self, register: u8) -> Option<&Value>
        ensures { option_copied result ≡ slice_get self.now.values register }
    {
        self.values.get(usize::from(register))
    }

    /// Sets a value register of a position, and moves to the next place.
    pub fn put(&mut self, register: u8, value: Value)
        requires declared { register < length self.old.values }
        requires inside { self.old.place < 2 ^ 63 }
        ensures { self.new ≡ at_next_place (with_value self.old register value) }
    {
        set_in(&mut self.values, register, value);
        self.place += 1;
    }

    /// Moves a position to the next place.
    pub fn to_next_place(&mut self)
        requires { self.old.place < 2 ^ 63 }
        ensures { self.new ≡ at_next_place self.old }
    {
        self.place += 1;
    }

    /// Moves a position `skip` instructions beyond the next place.
    pub fn skip(&mut self, skip: u16)
        requires { self.old.place < 2 ^ 63 }
        ensures { self.new ≡ at_goal self.old skip }
    {
        self.place += 1 + usize::from(skip);
    }

    /// Begins a loop of `iterations` iterations at the next place of a position.
    pub fn begin_loop(&mut self, iterations: u16) -> Result<(), AllocError>
        requires { self.old.place < 2 ^ 63 }
        ensures begun { OnOk result (self.new ≡ record self.old { place = self.old.place + 1; loops = record { first = self.old.place + 1; left = iterations } ∷ self.old.loops }) }
        ensures kept { OnErr result (self.new ≡ self.old) }
    {
        let first = self.place + 1;
        self.loops.push(Loop {
            first,
            left: iterations,
        })?;
        self.place = first;
        Ok(())
    }

    /// Ends an iteration of a position's innermost loop. Returns whether a loop was begun.
    pub fn end_turn(&mut self) -> bool
        requires { self.old.place < 2 ^ 63 }
        ensures ended { result ≡ true → after_end self.old.place self.old.loops ≡ Some (record { place = self.new.place; loops = self.new.loops }) }
        ensures values { self.new.values ≡ self.old.values }
        ensures none { result ≡ false → (after_end self.old.place self.old.loops ≡ None) × (self.new ≡ self.old) }
    {
        match end_turn_in(&mut self.loops, self.place) {
            Some(place) => {
                self.place = place;
                true
            }
            None => false,
        }
    }

    /// Makes this iteration the last one of a position's innermost loop, if one is begun, and moves to the next place.
    pub fn last_turn(&mut self)
        requires { self.old.place < 2 ^ 63 }
        ensures { self.new ≡ record self.old { place = self.old.place + 1; loops = with_last self.old.loops } }
    {
        last_turn_in(&mut self.loops);
        self.place += 1;
    }

    /// Copies a position: its place, values and loops.
    pub fn try_clone(&self, alloc: Global) -> Result<Position, AllocError>
        ensures { IfOk result (λ copy. copy ≡ self.now) }
    {
        Ok(Position {
            place: self.place,
            values: copies_of(alloc, &self.values)?,
            loops: self.loops.clone()?,
        })
    }
}

/// Returns the place after the END at this one, if a loop is begun.
fn end_turn_in(loops: &mut Vec<Loop>, place: usize) -> Option<usize>
    requires { place < 2 ^ 63 }
    ensures next { option_map (λ next. record { place = next; loops = reverse loops.new.items }) result ≡ after_end place (reverse loops.old.items) }
    ensures kept { result ≡ None → loops.new.items ≡ loops.old.items }
{
    let inner = loops.last_mut()?;
    if inner.left > 1 {
        inner.left -= 1;
        Some(inner.first)
    } else {
        let _ended = loops.pop();
        Some(place + 1)
    }
}

/// Makes this iteration the last one of the innermost loop, if one is begun.
fn last_turn_in(loops: &mut Vec<Loop>)
    ensures { reverse loops.new.items ≡ with_last (reverse loops.old.items) }
{
    let Some(inner) = loops.last_mut() else {
        return;
    };
    inner.left = 1;
}

/// Sets one of the value registers of a position.
fn set_in(values: &mut Vec<Value>, register: u8, value: Value)
    requires { register < length values.old.items }
    ensures { values.new.items ≡ slice_set values.old.items register value }
{
    values[usize::from(register)] = value;
}

/// Copies the values of a position's registers.
fn copies_of(alloc: Global, values: &[Value]) -> Result<Vec<Value>, AllocError>
    ensures { IfOk result (λ copies. copies.items ≡ values.now) }
{
    let mut copies = Vec::new(alloc);
    for value in values {
        keep(&mut copies, value.try_clone(alloc)?)?;
    }
    Ok(copies)
}
