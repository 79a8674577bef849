//! The instructions on maps: MINS, MADD and MGET.

ghost use Rattle.std.specs.Prelude.{◌≡◌, ◌<◌, ◌^◌, OnErr, OnOk};
ghost use Rattle.std.specs.FinMap.{get};
ghost use Rattle.std.specs.Option.{option_copied};
ghost use Rattle.tw_types.specs.StoreCalls.{entry_at, value_put};
ghost use Rattle.tw_types.specs.StoreChecks.{may_add, may_put};
ghost use Rattle.tw_code.specs.declared.instr.DataInstr.TheVariants.{InsertValue as MINS, AddValue as MADD, GetValue as MGET};
ghost use Rattle.tw_code.specs.machine.Data.{suits_entry, suits_subscript, sum_with};
ghost use Rattle.tw_datum.specs.Kept.{datum_if};
ghost use Rattle.tw_instr.specs.Contexts.{DoesQuietly};

use crate::data::Data;
use crate::datum::Datum;
use crate::failure::{Failure, must};
use crate::frame::Frame;
use crate::right_registers::held;
use crate::scalars::datum_at;
use crate::value_registers::{int_at, value_at};
use std::alloc::{AllocError, Global};
use tw_code::compute::sum_with;
use tw_types::{Cause, DatumId, Value};

/// Returns whether a subscript and a value are of the types of the datum, if that is a live map.
fn suits_entry(subscript: &Value, value: &Value, datum: Option<&Datum>) -> bool
    ensures { result ≡ suits_entry subscript.now value.now (datum_if (option_copied datum.entry)) }
{
    match datum {
        Some(datum) => {
            let ty = datum.ty();
            !ty.is_map() || ty.is_map_of(subscript.scalar(), value.scalar())
        }
        None => true,
    }
}

/// Returns whether a subscript is of the type of the datum's, if that is a live map.
fn suits_subscript(subscript: &Value, datum: Option<&Datum>) -> bool
    ensures { result ≡ suits_subscript subscript.now (datum_if (option_copied datum.entry)) }
{
    match datum {
        Some(datum) => {
            let ty = datum.ty();
            !ty.is_map() || ty.is_map_by(subscript.scalar())
        }
        None => true,
    }
}

/// Puts copies of a subscript and a value into a map. Changes nothing if an allocation fails.
fn put_copies(
    alloc: Global,
    store: &mut Data,
    id: DatumId,
    subscript: &Value,
    value: &Value,
) -> Result<(), AllocError>
    requires { may_put subscript.now value.now (get store.old.live id) ≡ Ok tt }
    ensures put { OnOk result (store.new ≡ value_put store.old id subscript.now value.now) }
    ensures refused { OnErr result (store.new ≡ store.old) }
{
    let subscript = subscript.try_clone(alloc)?;
    let value = value.try_clone(alloc)?;
    store.put(id, subscript, value)
}

/// Executes MINS in the reference machine: puts a value, or skips if the subscript is taken.
pub fn insert_value(
    alloc: Global,
    store: &mut Data,
    frame: &mut Frame,
    map: u8,
    subscript: u8,
    from: u8,
    skip: u16,
) -> Result<(), Failure>
    requires { frame.old.position.place < 2 ^ 63 }
    ensures { DoesQuietly (MINS map subscript from skip) store.old frame.old result store.new frame.new }
{
    let at = value_at(frame.position(), subscript)?;
    let value = value_at(frame.position(), from)?;
    must(
        suits_entry(at, value, datum_at(store, frame, map)),
        Cause::WrongRegister,
    )?;
    let id = held(frame, map)?;
    store.may_put(id, at, value)?;
    if store.entry(id, at.borrowed()).is_some() {
        frame.skip(skip);
    } else {
        put_copies(alloc, store, id, at, value)?;
        frame.to_next_place();
    }
    Ok(())
}

/// Puts an integer into a map of sums, or the sum with the one that is there. Changes nothing if an allocation fails.
fn add_to(
    alloc: Global,
    store: &mut Data,
    id: DatumId,
    subscript: &Value,
    number: i64,
) -> Result<(), AllocError>
    requires { may_add subscript.now (get store.old.live id) ≡ Ok tt }
    ensures added { OnOk result (store.new ≡ value_put store.old id subscript.now (sum_with (entry_at store.old id subscript.now) number)) }
    ensures refused { OnErr result (store.new ≡ store.old) }
{
    let sum = sum_with(store.entry(id, subscript.borrowed()), number);
    let own = subscript.try_clone(alloc)?;
    store.put(id, own, sum)
}

/// Executes MADD in the reference machine.
pub fn add_value(
    alloc: Global,
    store: &mut Data,
    frame: &mut Frame,
    map: u8,
    subscript: u8,
    from: u8,
) -> Result<(), Failure>
    requires { frame.old.position.place < 2 ^ 63 }
    ensures { DoesQuietly (MADD map subscript from) store.old frame.old result store.new frame.new }
{
    let at = value_at(frame.position(), subscript)?;
    let number = int_at(frame.position(), from)?;
    must(
        suits_subscript(at, datum_at(store, frame, map)),
        Cause::WrongRegister,
    )?;
    let id = held(frame, map)?;
    store.may_add(id, at)?;
    add_to(alloc, store, id, at, number)?;
    frame.to_next_place();
    Ok(())
}

/// Executes MGET in the reference machine: sets a register, or skips if nothing is at the subscript.
pub fn get_value(
    alloc: Global,
    store: &Data,
    frame: &mut Frame,
    to: u8,
    map: u8,
    subscript: u8,
    skip: u16,
) -> Result<(), Failure>
    requires { frame.old.position.place < 2 ^ 63 }
    ensures { DoesQuietly (MGET to map subscript skip) store.now frame.old result store.now frame.new }
{
    let old = value_at(frame.position(), to)?;
    let at = value_at(frame.position(), subscript)?;
    must(
        suits_entry(at, old, datum_at(store, frame, map)),
        Cause::WrongRegister,
    )?;
    let id = held(frame, map)?;
    store.may_read_entry(id, at, old.scalar())?;
    match store.entry(id, at.borrowed()) {
        Some(value) => {
            let copy = value.try_clone(alloc)?;
            frame.put(to, copy);
        }
        None => frame.skip(skip),
    }
    Ok(())
}
