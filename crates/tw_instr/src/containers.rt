//! The instructions on containers: INS, LOOK, SIZE and SUBAT. SIZE and SUBAT also read maps.

ghost use Rattle.std.specs.Prelude.{◌≡◌, ◌<◌, ◌^◌, Err};
ghost use Rattle.tw_types.specs.declared.data_type.Scalar.TheVariants as scalar;
ghost use Rattle.tw_code.specs.declared.instr.DataInstr.TheVariants.{Insert as INS, Look as LOOK, Size as SIZE, SubscriptAt as SUBAT};
ghost use Rattle.tw_instr.specs.Attempts.{failing};
ghost use Rattle.tw_instr.specs.Contexts.{DoesQuietly};
ghost use Rattle.tw_instr.specs.Room.{HasRoom};

use crate::data::Data;
use crate::failure::Failure;
use crate::frame::Frame;
use crate::right_registers::{held, must_be_empty};
use crate::value_registers::{int_at, must_have_type, of_type_at};
use std::alloc::Global;
use tw_types::{Cause, Scalar, Value};

/// Executes INS in the reference machine, or TINS if `by` is text.
pub fn insert(
    alloc: Global,
    store: &mut Data,
    frame: &mut Frame,
    by: Scalar,
    container: u8,
    subscript: u8,
    member: u8,
    skip: u16,
) -> Result<(), Failure>
    requires { frame.old.position.place < 2 ^ 63 }
    ensures { DoesQuietly (INS by container subscript member skip) store.old frame.old result store.new frame.new }
{
    let at = of_type_at(frame.position(), subscript, by)?;
    let id = held(frame, container)?;
    let inner = held(frame, member)?;
    store.may_insert(by, id, inner)?;
    if store.member(id, at.borrowed()).is_some() {
        frame.skip(skip);
    } else {
        let own = at.try_clone(alloc)?;
        store.insert(id, own, inner)?;
        frame.empty(member);
        frame.to_next_place();
    }
    Ok(())
}

/// Executes LOOK in the reference machine, or TLOOK if `by` is text.
pub fn look(
    store: &mut Data,
    frame: &mut Frame,
    by: Scalar,
    member: u8,
    container: u8,
    subscript: u8,
    skip: u16,
) -> Result<(), Cause>
    requires place { frame.old.position.place < 2 ^ 63 }
    requires room { HasRoom store.old }
    ensures { DoesQuietly (LOOK by member container subscript skip) store.old frame.old (failing result) store.new frame.new }
{
    let at = of_type_at(frame.position(), subscript, by)?;
    must_be_empty(frame, member)?;
    let id = held(frame, container)?;
    store.may_look(id, at)?;
    match store.member(id, at.borrowed()) {
        Some(inner) => {
            store.add_read(inner);
            frame.fill(member, inner);
            frame.to_next_place();
        }
        None => frame.skip(skip),
    }
    Ok(())
}

/// Executes SIZE in the reference machine.
pub fn size(store: &Data, frame: &mut Frame, to: u8, container: u8) -> Result<(), Cause>
    requires place { frame.old.position.place < 2 ^ 63 }
    requires room { HasRoom store.now }
    ensures { DoesQuietly (SIZE to container) store.now frame.old (failing result) store.now frame.new }
{
    must_have_type(frame.position(), to, Scalar::Int)?;
    let id = held(frame, container)?;
    store.may_read_members(id)?;
    let size = store.size(id) as i64;
    frame.put(to, Value::Int(size));
    Ok(())
}

/// Executes SUBAT in the reference machine, or TSUBAT if `by` is text.
pub fn subscript_at(
    alloc: Global,
    store: &Data,
    frame: &mut Frame,
    by: Scalar,
    to: u8,
    container: u8,
    index: u8,
    skip: u16,
) -> Result<(), Failure>
    requires { frame.old.position.place < 2 ^ 63 }
    ensures does { DoesQuietly (SUBAT by to container index skip) store.now frame.old result store.now frame.new }
    ensures memory { result ≡ Err Failure.NoMemory → by ≡ scalar.Text }
{
    must_have_type(frame.position(), to, by)?;
    let count = int_at(frame.position(), index)?;
    let id = held(frame, container)?;
    store.may_read_subscripts_by(by, id)?;
    match store.subscript_at(id, count) {
        Some(subscript) => {
            let own = subscript.try_clone(alloc)?;
            frame.put(to, own);
        }
        None => frame.skip(skip),
    }
    Ok(())
}
