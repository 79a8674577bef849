//! The instructions on data.

ghost use Rattle.std.specs.Prelude.{◌≡◌, ◌<◌, ◌^◌, Err, true};
ghost use Rattle.tw_instr.specs.Contexts.{Does};
ghost use Rattle.tw_instr.specs.Memory.{takes_memory};
ghost use Rattle.tw_instr.specs.Room.{HasRoom};

use crate::data::Data;
use crate::failure::Failure;
use crate::frame::Frame;
use crate::notices::Notices;
use crate::{containers, maps, rights, scalars};
use std::alloc::Global;
use tw_code::DataInstr;

/// Executes one instruction on data in the reference machine.
pub fn data_instr(
    alloc: Global,
    instr: DataInstr,
    store: &mut Data,
    notices: &mut Notices,
    frame: &mut Frame,
) -> Result<(), Failure>
    requires place { frame.old.position.place < 2 ^ 63 }
    requires room { HasRoom store.old }
    ensures does { Does instr store.old notices.old frame.old result store.new notices.new frame.new }
    ensures memory { result ≡ Err Failure.NoMemory → takes_memory instr ≡ true }
{
    match instr {
        DataInstr::New { write, read, ty } => {
            rights::create(alloc, store, frame, write, read, ty)
        }
        DataInstr::Store { datum, from } => {
            scalars::store(alloc, store, notices, frame, datum, from)
        }
        DataInstr::Get { to, datum } => scalars::get(alloc, store, frame, to, datum),
        DataInstr::Insert {
            by,
            container,
            subscript,
            member,
            skip,
        } => containers::insert(alloc, store, frame, by, container, subscript, member, skip),
        DataInstr::Look {
            by,
            member,
            container,
            subscript,
            skip,
        } => Ok(containers::look(store, frame, by, member, container, subscript, skip)?),
        DataInstr::Size { to, container } => { Ok(containers::size(store, frame, to, container)?) }
        DataInstr::SubscriptAt {
            by,
            to,
            container,
            index,
            skip,
        } => containers::subscript_at(alloc, store, frame, by, to, container, index, skip),
        DataInstr::InsertValue {
            map,
            subscript,
            from,
            skip,
        } => maps::insert_value(alloc, store, frame, map, subscript, from, skip),
        DataInstr::AddValue {
            map,
            subscript,
            from,
        } => maps::add_value(alloc, store, frame, map, subscript, from),
        DataInstr::GetValue {
            to,
            map,
            subscript,
            skip,
        } => maps::get_value(alloc, store, frame, to, map, subscript, skip),
        DataInstr::CopyRead { to, from } => Ok(rights::copy_read(store, frame, to, from)?),
        DataInstr::CopyWrite { to, from } => Ok(rights::copy_write(store, frame, to, from)?),
        DataInstr::DropRead { right } => Ok(rights::drop_read(store, frame, right)?),
        DataInstr::DropWrite { right } => rights::drop_write(alloc, store, notices, frame, right),
    }
}
