//! Instructions that make data, and that copy and drop rights.

ghost use Rattle.std.specs.Prelude.{◌≡◌};
ghost use Rattle.tw_code.specs.declared.instr.DataInstr.TheVariants as on_data;
ghost use Rattle.tw_frame.specs.Jobs.{job_of};
ghost use Rattle.tw_pool_state.specs.Coming.{frame_after};
ghost use Rattle.tw_pool_state.specs.Data.{IsAnswer, IsDoneAfter, MayDo};

use std::alloc::Global;
use tw_frame::{Done, Draft, Frame};
use tw_rights::Held;
use tw_store::Store;
use tw_types::DataType;

/// Executes NEW by the pool's store.
pub(crate) fn exec_new<'a>(
    store: &mut Store,
    frame: &mut Frame<'a>,
    alloc: Global,
    done: Done<'a>,
    write: u8,
    read: u8,
    ty: DataType,
) -> Result<Draft<'a>, Done<'a>>
    requires own { done.before ≡ job_of frame.old }
    requires may { MayDo (on_data.New write read ty) store.old (frame_after frame.old done) }
    ensures { IsAnswer (on_data.New write read ty) store.old store.new frame.old frame.new done.entry result }
{
    let Ok(rights) = store.create(alloc, ty) else {
        return Err(done);
    };
    let (writes, reads) = rights;
    let draft = frame.complete_job(done);
    frame.fill(write, Held::Write(writes));
    frame.fill(read, Held::Read(reads));
    frame.to_next_place();
    Ok(draft)
}

/// Executes DUPR by the pool's store.
pub(crate) fn exec_copy_read<'a>(
    store: &mut Store,
    frame: &mut Frame<'a>,
    done: Done<'a>,
    to: u8,
    from: u8,
) -> Draft<'a>
    requires own { done.before ≡ job_of frame.old }
    requires may { MayDo (on_data.CopyRead to from) store.old (frame_after frame.old done) }
    ensures { IsDoneAfter (on_data.CopyRead to from) store.old store.new frame.old frame.new done.entry result }
{
    let right = store.copy_read(frame.peek_read(from));
    let draft = frame.complete_job(done);
    frame.fill(to, Held::Read(right));
    frame.to_next_place();
    draft
}

/// Executes DUPW by the pool's store.
pub(crate) fn exec_copy_write<'a>(
    store: &mut Store,
    frame: &mut Frame<'a>,
    done: Done<'a>,
    to: u8,
    from: u8,
) -> Draft<'a>
    requires own { done.before ≡ job_of frame.old }
    requires may { MayDo (on_data.CopyWrite to from) store.old (frame_after frame.old done) }
    ensures { IsDoneAfter (on_data.CopyWrite to from) store.old store.new frame.old frame.new done.entry result }
{
    let right = store.copy_write(frame.peek_write(from));
    let draft = frame.complete_job(done);
    frame.fill(to, Held::Write(right));
    frame.to_next_place();
    draft
}

/// Executes DROPR by the pool's store.
pub(crate) fn exec_drop_read<'a>(
    store: &mut Store,
    frame: &mut Frame<'a>,
    done: Done<'a>,
    datum: u8,
) -> Draft<'a>
    requires own { done.before ≡ job_of frame.old }
    requires may { MayDo (on_data.DropRead datum) store.old (frame_after frame.old done) }
    ensures { IsDoneAfter (on_data.DropRead datum) store.old store.new frame.old frame.new done.entry result }
{
    let right = frame.take_read(datum);
    store.drop_read(right);
    let draft = frame.complete_job(done);
    frame.to_next_place();
    draft
}

/// Executes DROPW by the pool's store: if the container closes, its subscribers get notices.
pub(crate) fn exec_drop_write<'a>(
    store: &mut Store,
    frame: &mut Frame<'a>,
    done: Done<'a>,
    datum: u8,
) -> Result<Draft<'a>, Done<'a>>
    requires own { done.before ≡ job_of frame.old }
    requires may { MayDo (on_data.DropWrite datum) store.old (frame_after frame.old done) }
    ensures { IsAnswer (on_data.DropWrite datum) store.old store.new frame.old frame.new done.entry result }
{
    let right = frame.take_write(datum);
    match store.drop_write(right) {
        Ok(()) => {
            let draft = frame.complete_job(done);
            frame.to_next_place();
            Ok(draft)
        }
        Err(right) => {
            frame.fill(datum, Held::Write(right));
            Err(done)
        }
    }
}
