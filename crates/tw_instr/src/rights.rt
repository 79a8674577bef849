//! The instructions on rights alone: NEW, DUPR, DUPW, DROPR and DROPW.

ghost use Rattle.std.specs.Prelude.{◌≡◌, ◌<◌, ◌^◌, Ok, OnErr, OnOk};
ghost use Rattle.std.specs.FinMap.{get};
ghost use Rattle.tw_code.specs.declared.instr.DataInstr.TheVariants.{New as NEW, CopyRead as DUPR, CopyWrite as DUPW, DropRead as DROPR, DropWrite as DROPW};
ghost use Rattle.tw_types.specs.Notices.{with_notices};
ghost use Rattle.tw_types.specs.StoreCalls.{notices_of_write_dropped, write_dropped};
ghost use Rattle.tw_types.specs.StoreChecks.{may_drop_write};
ghost use Rattle.tw_instr.specs.Attempts.{failing};
ghost use Rattle.tw_instr.specs.Contexts.{Does, DoesQuietly};
ghost use Rattle.tw_instr.specs.Room.{HasRoom};

use crate::data::Data;
use crate::failure::{Failure, must};
use crate::frame::Frame;
use crate::notices::Notices;
use crate::right_registers::{held, must_be_empty};
use std::alloc::{AllocError, Global};
use tw_types::{Cause, DataType, DatumId};

/// Executes NEW in the reference machine.
pub fn create(
    alloc: Global,
    store: &mut Data,
    frame: &mut Frame,
    write: u8,
    read: u8,
    ty: DataType,
) -> Result<(), Failure>
    requires place { frame.old.position.place < 2 ^ 63 }
    requires room { HasRoom store.old }
    ensures { DoesQuietly (NEW write read ty) store.old frame.old result store.new frame.new }
{
    must_be_empty(frame, write)?;
    must_be_empty(frame, read)?;
    must(write != read, Cause::WrongRegister)?;
    let id = store.create(alloc, ty)?;
    frame.fill(write, id);
    frame.fill(read, id);
    frame.to_next_place();
    Ok(())
}

/// Executes DUPR in the reference machine.
pub fn copy_read(store: &mut Data, frame: &mut Frame, to: u8, from: u8) -> Result<(), Cause>
    requires place { frame.old.position.place < 2 ^ 63 }
    requires room { HasRoom store.old }
    ensures { DoesQuietly (DUPR to from) store.old frame.old (failing result) store.new frame.new }
{
    must_be_empty(frame, to)?;
    let id = held(frame, from)?;
    store.may_be_read(id)?;
    store.add_read(id);
    frame.fill(to, id);
    frame.to_next_place();
    Ok(())
}

/// Executes DUPW in the reference machine.
pub fn copy_write(store: &mut Data, frame: &mut Frame, to: u8, from: u8) -> Result<(), Cause>
    requires place { frame.old.position.place < 2 ^ 63 }
    requires room { HasRoom store.old }
    ensures { DoesQuietly (DUPW to from) store.old frame.old (failing result) store.new frame.new }
{
    must_be_empty(frame, to)?;
    let id = held(frame, from)?;
    store.may_copy_write(id)?;
    store.add_write(id);
    frame.fill(to, id);
    frame.to_next_place();
    Ok(())
}

/// Executes DROPR in the reference machine.
pub fn drop_read(store: &mut Data, frame: &mut Frame, right: u8) -> Result<(), Cause>
    requires { frame.old.position.place < 2 ^ 63 }
    ensures { DoesQuietly (DROPR right) store.old frame.old (failing result) store.new frame.new }
{
    let id = held(frame, right)?;
    store.may_drop_read(id)?;
    store.drop_read(id);
    frame.empty(right);
    frame.to_next_place();
    Ok(())
}

/// Takes a write of a container for DROPW, and adds the notices of its subscribers if it closes. Changes nothing if an allocation
/// fails.
fn take_write(
    alloc: Global,
    store: &mut Data,
    notices: &mut Notices,
    id: DatumId,
) -> Result<(), AllocError>
    requires { may_drop_write (get store.old.live id) ≡ Ok tt }
    ensures dropped { OnOk result (store.new ≡ write_dropped store.old id) }
    ensures notified { OnOk result (notices.new ≡ with_notices notices.old (notices_of_write_dropped store.old id)) }
    ensures refused { OnErr result ((store.new ≡ store.old) × (notices.new ≡ notices.old)) }
{
    notices.add_for(alloc, id, store.heard_by_drop_write(id))?;
    store.drop_write(id);
    Ok(())
}

/// Executes DROPW in the reference machine.
pub fn drop_write(
    alloc: Global,
    store: &mut Data,
    notices: &mut Notices,
    frame: &mut Frame,
    right: u8,
) -> Result<(), Failure>
    requires { frame.old.position.place < 2 ^ 63 }
    ensures { Does (DROPW right) store.old notices.old frame.old result store.new notices.new frame.new }
{
    let id = held(frame, right)?;
    store.may_drop_write(id)?;
    take_write(alloc, store, notices, id)?;
    frame.empty(right);
    frame.to_next_place();
    Ok(())
}
