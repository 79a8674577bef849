//! Jobs, compared with the reference machine's local steps.

ghost use Rattle.std.specs.Prelude.{◌≡◌, ◌<◌, IfSome, length};
ghost use Rattle.tw_frame.specs.Jobs.{job_of};

use crate::stretches::next_program;
use std::alloc::{AllocError, Global};
use tw_binary::decode;
use tw_code::Procedure;
use tw_frame::{Done, Frame, FrameBuffers, Job};
use tw_instr::{Position, count_local};
use tw_queue::Task;
use tw_rights::Bundle;
use tw_types::{Actor, TaskNo, Value, ValueRef};
use tw_verify::{Verified, verify};

/// The result of main, in one job, or in two if the first was short.
#[derive(Drop)]
pub struct Stretch<'a> {
    done: Done<'a>,
    pub steps: u64,
}

/// Runs the job of a random program, and the next one if it is short.
fn run_on<'a>(alloc: Global, frame: &mut Frame<'a>, job: Job<'a>) -> Option<Stretch<'a>>
    requires lent { job ≡ job_of frame.old }
    requires spent { frame.old.spent ≡ 0 }
{
    let done = job.run(alloc);
    let steps = done.steps();
    if !done.short() {
        return Some(Stretch { done, steps });
    }
    let Ok(draft) = frame.exchange(done) else {
        return None;
    };
    let done = frame.lend(1, draft).run(alloc);
    if done.short() {
        return None;
    }
    let steps = steps.saturating_add(done.steps());
    Some(Stretch { done, steps })
}

/// Spends the rights of a random program's task after its job was run.
fn spend(task: Task) {
    let Task {
        no: _,
        procedure: _,
        args,
    } = task;
    args.shut();
}

/// Runs main from its first place on.
pub fn stretch_of(alloc: Global, verified: &Verified) -> Result<Option<Stretch<'_>>, AllocError> {
    let _procedures = verified.program().procedures();
    let task = Task {
        no: TaskNo::new(1),
        procedure: 0,
        args: Bundle::new(alloc),
    };
    let Ok(frame_buffers) = FrameBuffers::new(alloc) else {
        spend(task);
        return Err(AllocError);
    };
    let start = match frame_buffers.start(alloc, &task, verified) {
        Ok(start) => start,
        Err(frame_buffers) => {
            frame_buffers.shut();
            spend(task);
            return Err(AllocError);
        }
    };
    let (mut frame, draft) = Frame::start(task, Actor::Engine(0), verified, start);
    let job = frame.lend(0, draft);
    let stretch = run_on(alloc, &mut frame, job);
    frame.shut();
    Ok(stretch)
}

/// Returns whether a value of the reference machine is that of a job's register.
fn is_same(value: &Value, other: ValueRef<'_>) -> bool {
    match (value, other) {
        (Value::Int(number), ValueRef::Int(other)) => *number == other,
        (Value::Text(text), ValueRef::Text(other)) => text.as_str() == other,
        (Value::Int(_), ValueRef::Text(_)) | (Value::Text(_), ValueRef::Int(_)) => false,
    }
}

/// Returns whether the `Done` of a random program has this position after the job.
fn came_to(done: &Done<'_>, position: &Position) -> bool {
    if done.after_place() != position.place() {
        return false;
    }
    let count = done.count();
    for register in 0..16_u8 {
        if usize::from(register) < count {
            let Some(value) = position.value(register) else {
                return false;
            };
            if !is_same(value, done.look(register)) {
                return false;
            }
        }
    }
    true
}

/// Returns the position at the start of a random procedure, with all registers blank.
fn beginning(alloc: Global, procedure: &Procedure) -> Result<Position, AllocError> {
    let mut values = Vec::new(alloc);
    for ty in procedure.registers.as_slice() {
        values.push(Value::blank(alloc, *ty))?;
    }
    Ok(Position::first(alloc, values))
}

/// Runs the reference machine in a procedure, for at most `most` steps. Returns the position and the number of steps.
fn walked(alloc: Global, main: &Procedure, most: u64) -> Result<(Position, u64), AllocError> {
    let mut position = beginning(alloc, main)?;
    let steps = count_local(alloc, main.code.as_slice(), &mut position, most)?;
    Ok((position, steps))
}

/// Returns whether main's job reaches the reference machine's position, after as many steps.
fn agrees_of(alloc: Global, verified: &Verified, most: u64) -> Result<Option<bool>, AllocError> {
    let Some(main) = verified.program().procedures().first() else {
        return Ok(None);
    };
    let (position, steps) = walked(alloc, main, most)?;
    match stretch_of(alloc, verified)? {
        Some(stretch) => Ok(Some(stretch.steps == steps && came_to(&stretch.done, &position))),
        None => Ok(Some(false)),
    }
}

/// Returns whether main's job, and the reference machine with at most `most` steps, reach the same position after as many steps.
/// Returns `None` if the program isn't accepted.
fn agrees(alloc: Global, bytes: &[u8], most: u64) -> Result<Option<bool>, AllocError> {
    let Ok(program) = decode(alloc, bytes) else {
        return Ok(None);
    };
    match verify(alloc, program) {
        Ok(verified) => agrees_of(alloc, &verified, most),
        Err(_) => Ok(None),
    }
}

/// Like `agrees`, but tries a random program's job again if an allocation may have failed.
fn agrees_again(alloc: Global, bytes: &[u8], most: u64) -> Result<Option<bool>, AllocError> {
    match agrees(alloc, bytes, most) {
        Ok(Some(agrees)) => Ok(Some(agrees)),
        Ok(None) | Err(_) => agrees(alloc, bytes, most),
    }
}

/// Compares jobs of `count` random accepted programs with the reference machine, which makes at most `most` steps. Returns the first
/// one that differs, or for which memory ran out.
pub fn first_stretch(alloc: Global, count: u64, most: u64) -> Option<(&'static str, u64)> {
    let mut seed = 29;
    let mut agreeing: u64 = 0;
    for number in 0..100_000_u64 {
        if agreeing == count {
            return None;
        }
        let Some(bytes) = next_program(alloc, &mut seed) else {
            continue;
        };
        match agrees_again(alloc, &bytes, most) {
            Ok(None) => {}
            Ok(Some(true)) => agreeing = agreeing.wrapping_add(1),
            Ok(Some(false)) | Err(_) => return Some(("stretch", number)),
        }
    }
    Some(("number of programs that are accepted", agreeing))
}
