//! Positions of tasks, in memory that is allocated before a run.

ghost use Rattle.std.specs.Prelude.{◌≡◌, OnOk, OnErr};
ghost use Rattle.tw_frame.specs.Banks.{HasText};

use crate::loops::Loops;
use crate::registers::Registers;
use std::alloc::{AllocError, Global};

/// A task's context: its place, registers and loops.
#[derive(Drop)]
pub(crate) struct Context<'a> {
    pub(crate) place: usize,
    pub(crate) registers: Registers<'a>,
    pub(crate) loops: Loops,
}

impl<'a> Context<'a> {
    /// Makes a task's context without a task, in its own memory.
    pub(crate) fn boxed(alloc: Global) -> Result<Box<Context<'a>>, AllocError> {
        let context = Context {
            place: 0,
            registers: Registers::none(alloc),
            loops: Loops::new(),
        };
        Ok(Box::new(alloc, context)?)
    }

    /// Changes the place and the loops of a context, and keeps the values.
    pub(crate) fn set_position(&mut self, place: usize, loops: Loops)
        ensures { self.new ≡ record self.old { place = place; loops = loops } }
    {
        self.place = place;
        self.loops = loops;
    }

    /// Makes the context a copy of another. Allocates only if that has texts.
    pub(crate) fn copy_from(&mut self, alloc: Global, other: &Context<'a>) -> Result<(), AllocError>
        ensures copy { OnOk result (self.new ≡ other.now) }
        ensures texts { OnErr result (HasText other.now.registers.types) }
    {
        self.registers.copy_from(alloc, &other.registers)?;
        self.place = other.place;
        self.loops = other.loops.copy();
        Ok(())
    }
}
