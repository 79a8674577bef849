//! Instructions on data.

ghost use Rattle.std.specs.Prelude.{◌≡◌};
ghost use Rattle.tw_frame.specs.Jobs.{job_of};
ghost use Rattle.tw_pool_state.specs.Coming.{frame_after};
ghost use Rattle.tw_pool_state.specs.Data.{IsAnswer, MayDo};

mod containers;
mod maps;
pub(crate) mod results;
mod rights;
mod scalars;

use crate::data::containers::{exec_insert, exec_look, exec_size, exec_subscript_at};
use crate::data::maps::{exec_add_value, exec_get_value, exec_insert_value};
use crate::data::rights::{
    exec_copy_read, exec_copy_write, exec_drop_read, exec_drop_write, exec_new,
};
use crate::data::scalars::{exec_get, exec_store};
use std::alloc::Global;
use tw_code::DataInstr;
use tw_frame::{Done, Draft, Frame};
use tw_store::Store;

/// Completes a task's job, executes an instruction on data, and returns a draft of the values then. Returns the `Done` if an
/// allocation fails. Has one row for each instruction.
#[rattlefmt::skip]
pub(crate) fn run_data<'a>(store: &mut Store, frame: &mut Frame<'a>, alloc: Global, done: Done<'a>, instr: &DataInstr) -> Result<Draft<'a>, Done<'a>>
    requires own { done.before ≡ job_of frame.old }
    requires may { MayDo instr.now store.old (frame_after frame.old done) }
    ensures { IsAnswer instr.now store.old store.new frame.old frame.new done.entry result }
{
    match instr {
        DataInstr::New { write, read, ty } => exec_new(store, frame, alloc, done, *write, *read, *ty),
        DataInstr::Store { datum, from } => exec_store(store, frame, alloc, done, *datum, *from),
        DataInstr::Get { to, datum } => exec_get(store, frame, alloc, done, *to, *datum),
        DataInstr::Insert { by, container, subscript, member, skip } => exec_insert(store, frame, alloc, done, *by, *container, *subscript, *member, *skip),
        DataInstr::Look { by, member, container, subscript, skip } => Ok(exec_look(store, frame, done, *by, *member, *container, *subscript, *skip)),
        DataInstr::Size { to, container } => Ok(exec_size(store, frame, done, *to, *container)),
        DataInstr::SubscriptAt { by, to, container, index, skip } => exec_subscript_at(store, frame, alloc, done, *by, *to, *container, *index, *skip),
        DataInstr::InsertValue { map, subscript, from, skip } => exec_insert_value(store, frame, alloc, done, *map, *subscript, *from, *skip),
        DataInstr::AddValue { map, subscript, from } => exec_add_value(store, frame, alloc, done, *map, *subscript, *from),
        DataInstr::GetValue { to, map, subscript, skip } => exec_get_value(store, frame, alloc, done, *to, *map, *subscript, *skip),
        DataInstr::CopyRead { to, from } => Ok(exec_copy_read(store, frame, done, *to, *from)),
        DataInstr::CopyWrite { to, from } => Ok(exec_copy_write(store, frame, done, *to, *from)),
        DataInstr::DropRead { right } => Ok(exec_drop_read(store, frame, done, *right)),
        DataInstr::DropWrite { right } => exec_drop_write(store, frame, done, *right),
    }
}
