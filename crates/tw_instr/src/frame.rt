//! Running tasks.

ghost use Rattle.std.specs.Prelude.{◌≡◌, ◌<◌, ◌^◌, ◌+◌, IfOk, None, Some, is_none, length, slice_set, []};
ghost use Rattle.std.specs.List.{list_all};
ghost use Rattle.tw_code.specs.machine.Rights.{right_at};
ghost use Rattle.tw_code.specs.machine.Position.{at_goal, at_next_place, with_value};
ghost use Rattle.tw_code.specs.machine.State.{frame_after_call};
ghost use Rattle.tw_instr.specs.Stretch.{IsStretch};

use crate::local::count_local;
use crate::position::Position;
use std::alloc::{AllocError, Global};
use std::marker::Model;
use tw_code::Procedure;
use tw_types::{DatumId, TaskNo, Value};

/// A running task: its position, its right registers, and how many instructions it has executed.
#[derive(Drop)]
pub struct Frame {
    task: TaskNo,
    procedure: u8,
    position: Position,
    rights: [Option<DatumId>; 16],
    spent: u64,
}

impl Model for Frame {
    ghost use Rattle.tw_code.specs.machine.State.{Frame as Meaning};

    ghost Value = { Meaning };

    ghost view = { λ f. record { task = f.task; procedure = f.procedure; position = f.position; rights = f.rights; spent = f.spent } };
}

impl Frame {
    /// Makes the reference machine's frame of a task, at the start of its procedure's code, with these registers.
    pub fn first(
        alloc: Global,
        task: TaskNo,
        procedure: u8,
        values: Vec<Value>,
        rights: [Option<DatumId>; 16],
    ) -> Frame
        ensures { result ≡ record { task = task; procedure = procedure; position = record { place = 0; values = values.items; loops = [] }; rights = rights; spent = 0 } }
    {
        Frame {
            task,
            procedure,
            position: Position::first(alloc, values),
            rights,
            spent: 0,
        }
    }

    /// Returns the number of the task whose frame it is, in the reference machine.
    pub fn task(&self) -> TaskNo
        ensures { result ≡ self.now.task }
    {
        self.task
    }

    /// Returns the number of the procedure that a frame of the reference machine executes.
    pub fn procedure(&self) -> u8
        ensures { result ≡ self.now.procedure }
    {
        self.procedure
    }

    /// Returns the place of the next instruction of a frame of the reference machine.
    pub fn place(&self) -> usize
        ensures { result ≡ self.now.position.place }
    {
        self.position.place()
    }

    /// Returns how many instructions a frame of the reference machine has executed.
    pub fn spent(&self) -> u64
        ensures { result ≡ self.now.spent }
    {
        self.spent
    }

    /// Returns how many local instructions a frame of the reference machine can execute from its place, at most `most`. The
    /// instruction after them isn't local, or traps, unless there are `most`.
    pub fn local_steps(
        &self,
        alloc: Global,
        program: &[Procedure],
        most: u64,
    ) -> Result<u64, AllocError>
        ensures { IfOk result (IsStretch program.now self.now most) }
    {
        let Some(procedure) = program.get(usize::from(self.procedure)) else {
            return Ok(0);
        };
        let mut position = self.position.try_clone(alloc)?;
        count_local(alloc, procedure.code.as_slice(), &mut position, most)
    }

    /// Returns the position of a frame of the reference machine: place, values and loops.
    pub fn position(&self) -> &Position
        ensures { result.now ≡ self.now.position }
    {
        &self.position
    }

    /// Copies the right registers of a frame of the reference machine.
    pub(crate) fn rights(&self) -> [Option<DatumId>; 16]
        ensures { result ≡ self.now.rights }
    {
        let mut copy = [None; 16];
        copy.copy_from_slice(&self.rights);
        copy
    }

    /// Returns the id in a right register of a frame of the reference machine, if it has one.
    pub fn right(&self, register: u8) -> Option<DatumId>
        ensures { result ≡ right_at self.now.rights register }
    {
        self.rights.get(usize::from(register)).copied().flatten()
    }

    /// Returns whether every right register of a frame of the reference machine is empty.
    pub fn is_clear(&self) -> bool
        ensures { result ≡ list_all is_none self.now.rights }
    {
        self.rights.iter().all(|right| right.is_none())
    }

    /// Empties a right register of a frame of the reference machine.
    pub(crate) fn empty(&mut self, register: u8)
        ensures { self.new ≡ record self.old { rights = slice_set self.old.rights register None } }
    {
        set_in(&mut self.rights, register, None);
    }

    /// Puts an id into a right register of a frame of the reference machine.
    pub(crate) fn fill(&mut self, register: u8, id: DatumId)
        ensures { self.new ≡ record self.old { rights = slice_set self.old.rights register (Some id) } }
    {
        set_in(&mut self.rights, register, Some(id));
    }

    /// Sets a value register of a frame of the reference machine, and moves to the next place.
    pub(crate) fn put(&mut self, register: u8, value: Value)
        requires declared { register < length self.old.position.values }
        requires inside { self.old.position.place < 2 ^ 63 }
        ensures { self.new ≡ record self.old { position = at_next_place (with_value self.old.position register value) } }
    {
        self.position.put(register, value);
    }

    /// Moves a frame of the reference machine `skip` instructions beyond the next place.
    pub(crate) fn skip(&mut self, skip: u16)
        requires { self.old.position.place < 2 ^ 63 }
        ensures { self.new ≡ record self.old { position = at_goal self.old.position skip } }
    {
        self.position.skip(skip);
    }

    /// Moves a frame of the reference machine to the next place.
    pub(crate) fn to_next_place(&mut self)
        requires { self.old.position.place < 2 ^ 63 }
        ensures { self.new ≡ record self.old { position = at_next_place self.old.position } }
    {
        self.position.to_next_place();
    }

    /// Moves to the place after a RULE or PUT, which is counted, with these right registers.
    pub fn finish_action(&mut self, rights: [Option<DatumId>; 16])
        requires place { self.old.position.place < 2 ^ 63 }
        requires spent { self.old.spent < 2 ^ 63 }
        ensures { self.new ≡ frame_after_call self.old rights }
    {
        self.position.to_next_place();
        self.rights = rights;
        self.spent += 1;
    }

    /// Counts one more instruction that a frame of the reference machine has executed.
    pub fn count(&mut self)
        requires { self.old.spent < 2 ^ 63 }
        ensures { self.new ≡ record self.old { spent = self.old.spent + 1 } }
    {
        self.spent += 1;
    }

    /// Moves a frame of the reference machine to the position, and counts `steps` instructions.
    pub fn move_to(&mut self, position: Position, steps: u64)
        requires steps { steps < 2 ^ 63 }
        requires spent { self.old.spent < 2 ^ 63 }
        ensures { self.new ≡ record self.old { position = position; spent = self.old.spent + steps } }
    {
        self.position = position;
        self.spent += steps;
    }
}

/// Sets one of the right registers of a frame of the reference machine, if there is one of this number.
fn set_in(rights: &mut [Option<DatumId>], register: u8, right: Option<DatumId>)
    ensures { rights.new ≡ slice_set rights.old register right }
{
    let register = usize::from(register);
    if register < rights.len() {
        rights[register] = right;
    }
}
