//! Instructions on the value of a scalar.

ghost use Rattle.std.specs.Prelude.{◌≡◌, ℕ, List, Some, Ok, IfOk, OnErr};
ghost use Rattle.std.specs.FinMap.{get};
ghost use Rattle.tw_types.specs.StoreCalls.{value_at};
ghost use Rattle.tw_types.specs.StoreChecks.{may_retrieve};
ghost use Rattle.tw_types.specs.declared.value.Value.TheVariants as value;
ghost use Rattle.tw_store.specs.Served.{IsHere};
ghost use Rattle.tw_code.specs.declared.instr.DataInstr.TheVariants as on_data;
ghost use Rattle.tw_frame.specs.Jobs.{job_of};
ghost use Rattle.tw_pool_state.specs.Coming.{frame_after};
ghost use Rattle.tw_pool_state.specs.Data.{IsAnswer, MayDo};

use crate::data::results::set_result;
use std::alloc::{AllocError, Global};
use tw_frame::{Done, Draft, Frame};
use tw_rights::{Held, ReadRight};
use tw_store::Store;
use tw_types::Value;

/// Executes STORE by the pool's store: the subscribers of the datum get notices.
pub(crate) fn exec_store<'a>(
    store: &mut Store,
    frame: &mut Frame<'a>,
    alloc: Global,
    done: Done<'a>,
    datum: u8,
    from: u8,
) -> Result<Draft<'a>, Done<'a>>
    requires own { done.before ≡ job_of frame.old }
    requires may { MayDo (on_data.Store datum from) store.old (frame_after frame.old done) }
    ensures { IsAnswer (on_data.Store datum from) store.old store.new frame.old frame.new done.entry result }
{
    let Ok(value) = done.value(alloc, from) else {
        return Err(done);
    };
    let right = frame.take_write(datum);
    match store.store(right, value) {
        Ok(()) => {
            let draft = frame.complete_job(done);
            frame.to_next_place();
            Ok(draft)
        }
        Err(back) => {
            let (right, _value) = back;
            frame.fill(datum, Held::Write(right));
            Err(done)
        }
    }
}

/// Copies the value of a set scalar of the pool's store twice, for GET. Allocates only for a text.
fn two_copies(store: &Store, alloc: Global, right: &ReadRight) -> Result<(Value, Value), AllocError>
    requires here { IsHere store.now right.now }
    requires allowed { may_retrieve (get store.now.store.live right.now.id) ≡ Ok tt }
    ensures first { IfOk result (λ copies. value_at store.now.store right.now.id ≡ Some copies.0) }
    ensures second { IfOk result (λ copies. copies.1 ≡ copies.0) }
    ensures texts { OnErr result ((text : List ℕ) × (value_at store.now.store right.now.id ≡ Some (value.Text text))) }
{
    let Some(value) = store.view_at(right).value() else {
        unreachable!();
    };
    match value {
        Value::Int(number) => Ok((Value::Int(*number), Value::Int(*number))),
        Value::Text(text) => {
            let first = text.try_clone(alloc)?;
            let second = text.try_clone(alloc)?;
            Ok((Value::Text(first), Value::Text(second)))
        }
    }
}

/// Executes GET by the pool's store: sets a register of the frame, and of its draft.
pub(crate) fn exec_get<'a>(
    store: &Store,
    frame: &mut Frame<'a>,
    alloc: Global,
    done: Done<'a>,
    to: u8,
    datum: u8,
) -> Result<Draft<'a>, Done<'a>>
    requires own { done.before ≡ job_of frame.old }
    requires may { MayDo (on_data.Get to datum) store.now (frame_after frame.old done) }
    ensures { IsAnswer (on_data.Get to datum) store.now store.now frame.old frame.new done.entry result }
{
    let Ok(copies) = two_copies(store, alloc, frame.peek_read(datum)) else {
        return Err(done);
    };
    let (value, copy) = copies;
    let mut draft = frame.complete_job(done);
    set_result(frame, &mut draft, to, value, copy);
    Ok(draft)
}
