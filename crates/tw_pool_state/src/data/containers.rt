//! Instructions on members of containers.

ghost use Rattle.std.specs.Prelude.{◌≡◌};
ghost use Rattle.tw_code.specs.declared.instr.DataInstr.TheVariants as on_data;
ghost use Rattle.tw_frame.specs.Jobs.{job_of};
ghost use Rattle.tw_pool_state.specs.Coming.{frame_after};
ghost use Rattle.tw_pool_state.specs.Data.{IsAnswer, IsDoneAfter, MayDo};

use crate::data::results::{copied_twice, number_at, set_result};
use std::alloc::Global;
use tw_frame::{Done, Draft, Frame};
use tw_rights::Held;
use tw_store::{Inserted, Store};
use tw_types::{Scalar, Value};

/// Executes INS by the pool's store: it is refused, and skips, if the subscript is taken.
pub(crate) fn exec_insert<'a>(
    store: &mut Store,
    frame: &mut Frame<'a>,
    alloc: Global,
    done: Done<'a>,
    by: Scalar,
    container: u8,
    subscript: u8,
    member: u8,
    skip: u16,
) -> Result<Draft<'a>, Done<'a>>
    requires own { done.before ≡ job_of frame.old }
    requires may { MayDo (on_data.Insert by container subscript member skip) store.old (frame_after frame.old done) }
    ensures { IsAnswer (on_data.Insert by container subscript member skip) store.old store.new frame.old frame.new done.entry result }
{
    let right = frame.take_read(member);
    let at = done.look(subscript);
    match store.insert_under(alloc, frame.peek_write(container), at, right) {
        Ok(Inserted::Done) => {
            let draft = frame.complete_job(done);
            frame.to_next_place();
            Ok(draft)
        }
        Ok(Inserted::Present(back)) => {
            frame.fill(member, Held::Read(back));
            let draft = frame.complete_job(done);
            frame.skip(skip);
            Ok(draft)
        }
        Err(back) => {
            frame.fill(member, Held::Read(back));
            Err(done)
        }
    }
}

/// Executes LOOK by the pool's store: it is refused, and skips, if there is no member at the subscript.
pub(crate) fn exec_look<'a>(
    store: &mut Store,
    frame: &mut Frame<'a>,
    done: Done<'a>,
    by: Scalar,
    member: u8,
    container: u8,
    subscript: u8,
    skip: u16,
) -> Draft<'a>
    requires own { done.before ≡ job_of frame.old }
    requires may { MayDo (on_data.Look by member container subscript skip) store.old (frame_after frame.old done) }
    ensures { IsDoneAfter (on_data.Look by member container subscript skip) store.old store.new frame.old frame.new done.entry result }
{
    let at = done.look(subscript);
    match store.look_under(frame.peek_read(container), at) {
        None => {
            let draft = frame.complete_job(done);
            frame.skip(skip);
            draft
        }
        Some(right) => {
            let draft = frame.complete_job(done);
            frame.fill(member, Held::Read(right));
            frame.to_next_place();
            draft
        }
    }
}

/// Executes SIZE by the pool's store.
pub(crate) fn exec_size<'a>(
    store: &Store,
    frame: &mut Frame<'a>,
    done: Done<'a>,
    to: u8,
    container: u8,
) -> Draft<'a>
    requires own { done.before ≡ job_of frame.old }
    requires may { MayDo (on_data.Size to container) store.now (frame_after frame.old done) }
    ensures { IsDoneAfter (on_data.Size to container) store.now store.now frame.old frame.new done.entry result }
{
    let size = store.size(frame.peek_read(container)) as i64;
    let mut draft = frame.complete_job(done);
    set_result(frame, &mut draft, to, Value::Int(size), Value::Int(size));
    draft
}

/// Executes SUBAT by the pool's store: it is refused, and skips, if there is no subscript with that many smaller ones.
pub(crate) fn exec_subscript_at<'a>(
    store: &Store,
    frame: &mut Frame<'a>,
    alloc: Global,
    done: Done<'a>,
    by: Scalar,
    to: u8,
    container: u8,
    index: u8,
    skip: u16,
) -> Result<Draft<'a>, Done<'a>>
    requires own { done.before ≡ job_of frame.old }
    requires may { MayDo (on_data.SubscriptAt by to container index skip) store.now (frame_after frame.old done) }
    ensures { IsAnswer (on_data.SubscriptAt by to container index skip) store.now store.now frame.old frame.new done.entry result }
{
    let count = number_at(&done, index);
    match store.nth_subscript(frame.peek_read(container), count) {
        Some(subscript) => {
            let Ok(copies) = copied_twice(alloc, subscript) else {
                return Err(done);
            };
            let (value, copy) = copies;
            let mut draft = frame.complete_job(done);
            set_result(frame, &mut draft, to, value, copy);
            Ok(draft)
        }
        None => {
            let draft = frame.complete_job(done);
            frame.skip(skip);
            Ok(draft)
        }
    }
}
