//! The rights of a frame.

ghost use Rattle.std.specs.Prelude.{◌≡◌, ◌<◌, ◌≤◌, ◌+◌, ◌^◌, IsSome, Some, None, true, false, length, slice_set, slice_index_or};
ghost use Rattle.tw_code.specs.machine.Position.{at_next_place};
ghost use Rattle.tw_rights.specs.Bundled.{bundled};
ghost use Rattle.tw_rights.specs.Kinds.{kind_at};
ghost use Rattle.tw_rights.specs.Roomy.{IsRoom};
ghost use Rattle.tw_rights.specs.declared.held.Held.TheVariants.{Read as ReadOf, Write as WriteOf};

use crate::frame::Frame;
use tw_rights::{Arg, Bundle, Held, ReadRight, WriteRight};
use tw_types::{Param, Value};

impl<'a> Frame<'a> {
    /// Returns the read right in a register of a running task, where it stays.
    pub fn peek_read(&self, register: u8) -> &ReadRight
        requires { kind_at self.now.held register ≡ Some false }
        ensures { slice_index_or self.now.held register None ≡ Some (ReadOf result.now) }
    {
        self.rights.peek_read(register)
    }

    /// Returns the write right in a register of a running task, where it stays.
    pub fn peek_write(&self, register: u8) -> &WriteRight
        requires { kind_at self.now.held register ≡ Some true }
        ensures { slice_index_or self.now.held register None ≡ Some (WriteOf result.now) }
    {
        self.rights.peek_write(register)
    }

    /// Takes the read right out of a register of a running task.
    pub fn take_read(&mut self, register: u8) -> ReadRight
        requires { kind_at self.old.held register ≡ Some false }
        ensures taken { slice_index_or self.old.held register None ≡ Some (ReadOf result) }
        ensures rest { self.new ≡ record self.old { held = slice_set self.old.held register None } }
    {
        self.rights.take_read(register)
    }

    /// Takes the write right out of a register of a running task.
    pub fn take_write(&mut self, register: u8) -> WriteRight
        requires { kind_at self.old.held register ≡ Some true }
        ensures taken { slice_index_or self.old.held register None ≡ Some (WriteOf result) }
        ensures rest { self.new ≡ record self.old { held = slice_set self.old.held register None } }
    {
        self.rights.take_write(register)
    }

    /// Puts a right into an empty register of a running task.
    pub fn fill(&mut self, register: u8, right: Held)
        requires in_file { register < 16 }
        requires empty { slice_index_or self.old.held register None ≡ None }
        ensures { self.new ≡ record self.old { held = slice_set self.old.held register (Some right) } }
    {
        self.rights.place(register, right);
    }

    /// Moves the arguments out of a running task's registers, into memory with capacity for them, and moves to the next place.
    #[inline(always)]
    pub fn take_args(
        &mut self,
        params: &[Param],
        args: &[u8],
        vals: Vec<Value>,
        room: Vec<Arg>,
    ) -> Bundle
        requires few { length params.now ≤ 8 }
        requires room { IsRoom (length params.now) room }
        requires fit { IsSome (bundled self.old.held params.now args.now vals.items) }
        requires place { self.old.position.place < 2 ^ 63 }
        requires spent { self.old.spent < 2 ^ 63 }
        ensures handed { bundled self.old.held params.now args.now vals.items ≡ Some (record { args = result; file = self.new.held }) }
        ensures rest { self.new ≡ record self.old { held = self.new.held; position = at_next_place self.old.position; spent = self.old.spent + 1 } }
    {
        let bundle = self.rights.bundle(params, args, vals, room);
        self.to_next_place();
        bundle
    }
}
