//! The instructions on scalars: STORE and GET.

ghost use Rattle.std.specs.Prelude.{◌≡◌, ◌<◌, ◌^◌, Ok, OnErr, OnOk};
ghost use Rattle.std.specs.FinMap.{get};
ghost use Rattle.std.specs.Option.{ok_or, option_and_then, option_copied};
ghost use Rattle.tw_code.specs.declared.instr.DataInstr.TheVariants.{Store as STORE, Get as GET};
ghost use Rattle.tw_code.specs.machine.Data.{suits};
ghost use Rattle.tw_code.specs.machine.Rights.{right_at};
ghost use Rattle.tw_types.specs.Notices.{with_notices};
ghost use Rattle.tw_types.specs.declared.cause.Cause.TheVariants.{UnsetDatum};
ghost use Rattle.tw_types.specs.StoreCalls.{notices_of_stored, stored, value_at as stored_at};
ghost use Rattle.tw_types.specs.StoreChecks.{may_store};
ghost use Rattle.tw_datum.specs.Kept.{datum_if};
ghost use Rattle.tw_instr.specs.Attempts.{Gives};
ghost use Rattle.tw_instr.specs.Contexts.{Does, DoesQuietly};

use crate::data::Data;
use crate::datum::Datum;
use crate::failure::{Failure, must};
use crate::frame::Frame;
use crate::notices::Notices;
use crate::right_registers::held;
use crate::value_registers::value_at;
use std::alloc::{AllocError, Global};
use tw_types::{Cause, DatumId, Value};

/// Returns whether a value is of the type of the datum for STORE or GET, if that is a live scalar.
fn suits(value: &Value, datum: Option<&Datum>) -> bool
    ensures { result ≡ suits value.now (datum_if (option_copied datum.entry)) }
{
    match datum {
        Some(datum) => !datum.ty().is_scalar() || value.scalar() == datum.ty().scalar(),
        None => true,
    }
}

/// Returns the datum of a right register of the reference machine's frame, if it is live.
pub(crate) fn datum_at<'a>(store: &'a Data, frame: &Frame, register: u8) -> Option<&'a Datum>
    ensures { datum_if (option_copied result) ≡ option_and_then (get store.now.live) (right_at frame.now.rights register) }
{
    store.datum(frame.right(register)?)
}

/// Sets a scalar for STORE, and adds the notices of its subscribers. Changes nothing if an allocation fails.
fn set(
    alloc: Global,
    store: &mut Data,
    notices: &mut Notices,
    id: DatumId,
    value: Value,
) -> Result<(), AllocError>
    requires { may_store value (get store.old.live id) ≡ Ok tt }
    ensures set { OnOk result (store.new ≡ stored store.old id value) }
    ensures notified { OnOk result (notices.new ≡ with_notices notices.old (notices_of_stored store.old id value)) }
    ensures refused { OnErr result ((store.new ≡ store.old) × (notices.new ≡ notices.old)) }
{
    notices.add_for(alloc, id, store.heard_by_set(id))?;
    store.set(id, value);
    Ok(())
}

/// Executes STORE in the reference machine.
pub fn store(
    alloc: Global,
    store: &mut Data,
    notices: &mut Notices,
    frame: &mut Frame,
    datum: u8,
    from: u8,
) -> Result<(), Failure>
    requires { frame.old.position.place < 2 ^ 63 }
    ensures { Does (STORE datum from) store.old notices.old frame.old result store.new notices.new frame.new }
{
    let value = value_at(frame.position(), from)?;
    if !suits(value, datum_at(store, frame, datum)) {
        return Err(Failure::Trap(Cause::WrongRegister));
    }
    let id = held(frame, datum)?;
    store.may_store(id, value)?;
    let value = value.try_clone(alloc)?;
    set(alloc, store, notices, id, value)?;
    frame.empty(datum);
    frame.to_next_place();
    Ok(())
}

/// Copies the value of a scalar for GET. Fails with `UnsetDatum` if it isn't set.
fn copy_of(alloc: Global, store: &Data, id: DatumId) -> Result<Value, Failure>
    ensures { Gives (ok_or (stored_at store.now id) UnsetDatum) result }
{
    let value = store.value(id).ok_or(Failure::Trap(Cause::UnsetDatum))?;
    Ok(value.try_clone(alloc)?)
}

/// Executes GET in the reference machine.
pub fn get(alloc: Global, store: &Data, frame: &mut Frame, to: u8, datum: u8) -> Result<(), Failure>
    requires { frame.old.position.place < 2 ^ 63 }
    ensures { DoesQuietly (GET to datum) store.now frame.old result store.now frame.new }
{
    let old = value_at(frame.position(), to)?;
    must(
        suits(old, datum_at(store, frame, datum)),
        Cause::WrongRegister,
    )?;
    let id = held(frame, datum)?;
    store.may_retrieve(id)?;
    let copy = copy_of(alloc, store, id)?;
    frame.put(to, copy);
    Ok(())
}
