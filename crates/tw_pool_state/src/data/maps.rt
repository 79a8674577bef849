//! Instructions on maps.

ghost use Rattle.std.specs.Prelude.{◌≡◌};
ghost use Rattle.tw_code.specs.declared.instr.DataInstr.TheVariants as on_data;
ghost use Rattle.tw_frame.specs.Jobs.{job_of};
ghost use Rattle.tw_pool_state.specs.Coming.{frame_after};
ghost use Rattle.tw_pool_state.specs.Data.{IsAnswer, MayDo};

use crate::data::results::{copied_twice, number_at, set_result};
use std::alloc::Global;
use tw_code::compute::sum_with;
use tw_frame::{Done, Draft, Frame};
use tw_store::Store;

/// Executes MINS by the pool's store: it is refused, and skips, if the subscript is taken.
pub(crate) fn exec_insert_value<'a>(
    store: &mut Store,
    frame: &mut Frame<'a>,
    alloc: Global,
    done: Done<'a>,
    map: u8,
    subscript: u8,
    from: u8,
    skip: u16,
) -> Result<Draft<'a>, Done<'a>>
    requires own { done.before ≡ job_of frame.old }
    requires may { MayDo (on_data.InsertValue map subscript from skip) store.old (frame_after frame.old done) }
    ensures { IsAnswer (on_data.InsertValue map subscript from skip) store.old store.new frame.old frame.new done.entry result }
{
    let at = done.look(subscript);
    let right = frame.peek_write(map);
    if store.written_entry(right, at).is_some() {
        let draft = frame.complete_job(done);
        frame.skip(skip);
        return Ok(draft);
    }
    let Ok(value) = done.value(alloc, from) else {
        return Err(done);
    };
    match store.put(alloc, right, at, value) {
        Ok(()) => {
            let draft = frame.complete_job(done);
            frame.to_next_place();
            Ok(draft)
        }
        Err(_) => Err(done),
    }
}

/// Executes MADD by the pool's store: puts an integer, or the sum with the one that is there.
pub(crate) fn exec_add_value<'a>(
    store: &mut Store,
    frame: &mut Frame<'a>,
    alloc: Global,
    done: Done<'a>,
    map: u8,
    subscript: u8,
    from: u8,
) -> Result<Draft<'a>, Done<'a>>
    requires own { done.before ≡ job_of frame.old }
    requires may { MayDo (on_data.AddValue map subscript from) store.old (frame_after frame.old done) }
    ensures { IsAnswer (on_data.AddValue map subscript from) store.old store.new frame.old frame.new done.entry result }
{
    let number = number_at(&done, from);
    let at = done.look(subscript);
    let right = frame.peek_write(map);
    let sum = sum_with(store.written_entry(right, at), number);
    match store.put(alloc, right, at, sum) {
        Ok(()) => {
            let draft = frame.complete_job(done);
            frame.to_next_place();
            Ok(draft)
        }
        Err(_) => Err(done),
    }
}

/// Executes MGET by the pool's store: it is refused, and skips, if there is no value at the subscript.
pub(crate) fn exec_get_value<'a>(
    store: &Store,
    frame: &mut Frame<'a>,
    alloc: Global,
    done: Done<'a>,
    to: u8,
    map: u8,
    subscript: u8,
    skip: u16,
) -> Result<Draft<'a>, Done<'a>>
    requires own { done.before ≡ job_of frame.old }
    requires may { MayDo (on_data.GetValue to map subscript skip) store.now (frame_after frame.old done) }
    ensures { IsAnswer (on_data.GetValue to map subscript skip) store.now store.now frame.old frame.new done.entry result }
{
    let at = done.look(subscript);
    match store.entry(frame.peek_read(map), at) {
        Some(found) => {
            let Ok(copies) = copied_twice(alloc, found) else {
                return Err(done);
            };
            let (value, copy) = copies;
            let mut draft = frame.complete_job(done);
            set_result(frame, &mut draft, to, value, copy);
            Ok(draft)
        }
        None => {
            let draft = frame.complete_job(done);
            frame.skip(skip);
            Ok(draft)
        }
    }
}
