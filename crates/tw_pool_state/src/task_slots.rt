//! The slots of running tasks: a task or none in each, and memory for one.

ghost use Rattle.std.specs.Prelude.{◌≡◌, ◌<◌, IfOk, IsSome, None, Some, is_some, length, replicate, slice_index_or, slice_set};
ghost use Rattle.tw_pool_state.specs.RunningTasks.{HasBuffers, actor_of, takes_tasks};

use std::alloc::{AllocError, Global};
use tw_frame::{Frame, FrameBuffers};
use tw_types::Layout;

/// The number of slots.
const COUNT: usize = 24;

/// Makes slots for running tasks, all empty.
pub(crate) fn empty_slots<'a>(alloc: Global) -> Result<Vec<Option<Frame<'a>>>, AllocError>
    ensures { IfOk result (λ frames. frames.items ≡ replicate 24 None) }
{
    let mut frames = Vec::with_capacity(alloc, COUNT)?;
    for _index in 0..COUNT {
        frames.push_reserved(None);
    }
    Ok(frames)
}

/// Takes the running task out of an actor's slot.
pub(crate) fn take_task<'a>(
    frames: &mut Vec<Option<Frame<'a>>>,
    task_slot: usize,
) -> Option<Frame<'a>>
    requires { task_slot < length frames.old.items }
    ensures taken { result ≡ slice_index_or frames.old.items task_slot None }
    ensures rest { frames.new.items ≡ slice_set frames.old.items task_slot None }
{
    let place = &mut frames[task_slot];
    place.take()
}

/// Puts a running task into an actor's empty slot.
pub(crate) fn put_task<'a>(frames: &mut Vec<Option<Frame<'a>>>, task_slot: usize, frame: Frame<'a>)
    requires inside { task_slot < length frames.old.items }
    requires empty { slice_index_or frames.old.items task_slot None ≡ None }
    ensures { frames.new.items ≡ slice_set frames.old.items task_slot (Some frame.entry) }
{
    let place = &mut frames[task_slot];
    match std::mem::replace(place, Some(frame)) {
        None => {}
        Some(_frame) => unreachable!(),
    }
}

/// Spends every right of every task in the actors' slots.
pub(crate) fn shut_tasks<'a>(mut frames: Vec<Option<Frame<'a>>>) {
    while let Some(task_slot) = frames.pop() {
        if let Some(frame) = task_slot {
            frame.shut();
        }
    }
    frames.destroy_empty();
}

/// Takes the memory for a task out of an actor's slot.
pub(crate) fn take_buffers<'a>(
    frame_buffers: &mut Vec<Option<FrameBuffers<'a>>>,
    task_slot: usize,
) -> FrameBuffers<'a>
    requires inside { task_slot < length frame_buffers.old.items }
    requires there { IsSome (slice_index_or frame_buffers.old.items task_slot None) }
    ensures { frame_buffers.new.items ≡ slice_set frame_buffers.old.items task_slot None }
{
    let place = &mut frame_buffers[task_slot];
    match place.take() {
        Some(frame_buffers) => frame_buffers,
        None => unreachable!(),
    }
}

/// Puts the memory for a task into an actor's slot, and frees what was there.
pub(crate) fn put_buffers<'a>(
    frame_buffers: &mut Vec<Option<FrameBuffers<'a>>>,
    task_slot: usize,
    room: FrameBuffers<'a>,
)
    requires { task_slot < length frame_buffers.old.items }
    ensures { frame_buffers.new.items ≡ slice_set frame_buffers.old.items task_slot (Some tt) }
{
    let place = &mut frame_buffers[task_slot];
    match std::mem::replace(place, Some(room)) {
        None => {}
        Some(before) => before.shut(),
    }
}

/// Returns whether a slot is that of an engine or a worker of the layout.
fn takes_tasks(layout: Layout, task_slot: usize) -> bool
    requires { task_slot < 24 }
    ensures { result ≡ takes_tasks layout (actor_of task_slot) }
{
    if task_slot < 4 {
        task_slot < usize::from(layout.engines())
    } else if task_slot < 8 {
        false
    } else {
        task_slot - 8 < usize::from(layout.workers())
    }
}

/// Allocates memory for a task in the slot, if its actor is one of the layout that takes tasks.
fn slot_buffers<'a>(
    alloc: Global,
    layout: Layout,
    task_slot: usize,
) -> Result<Option<FrameBuffers<'a>>, AllocError>
    requires { task_slot < 24 }
    ensures { IfOk result (λ room. is_some room ≡ takes_tasks layout (actor_of task_slot)) }
{
    if takes_tasks(layout, task_slot) {
        Ok(Some(FrameBuffers::new(alloc)?))
    } else {
        Ok(None)
    }
}

/// Allocates memory for the slots of the layout's engines and workers.
pub(crate) fn all_frame_buffers<'a>(
    alloc: Global,
    layout: Layout,
) -> Result<Vec<Option<FrameBuffers<'a>>>, AllocError>
    ensures { IfOk result (λ frame_buffers. HasBuffers layout 24 frame_buffers.items) }
{
    let mut frame_buffers = Vec::with_capacity(alloc, COUNT)?;
    for task_slot in 0..COUNT {
        let Ok(room) = slot_buffers(alloc, layout, task_slot) else {
            drop_frame_buffers(frame_buffers);
            return Err(AllocError);
        };
        frame_buffers.push_reserved(room);
    }
    Ok(frame_buffers)
}

/// Frees the memory for tasks in the actors' slots.
pub(crate) fn drop_frame_buffers<'a>(mut frame_buffers: Vec<Option<FrameBuffers<'a>>>) {
    while let Some(room) = frame_buffers.pop() {
        if let Some(room) = room {
            room.shut();
        }
    }
    frame_buffers.destroy_empty();
}
