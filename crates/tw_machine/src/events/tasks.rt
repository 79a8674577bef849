//! The events of tasks: Take, Local and End.

ghost use Rattle.std.specs.Prelude.{◌≡◌, ◌<◌, ◌^◌, IfSome, MatchResult, Ok, Err, OnOk, Some};
ghost use Rattle.std.specs.FinMap.{get, remove};
ghost use Rattle.tw_types.specs.declared.actor.Actor.{Actor as AnActor};
ghost use Rattle.tw_types.specs.Outcome.{Went};
ghost use Rattle.tw_code.specs.machine.Machine.{end_event, local_event, local_step, running_instr_of, take_event};
ghost use Rattle.tw_code.specs.machine.State.{State as Meaning};
ghost use Rattle.tw_instr.specs.Attempts.{Changes, IsStopped, barred_by, unless_barred};
ghost use Rattle.tw_machine.specs.Events.{LeavesFrame, LeavesFrames, IsLocalAt, instr_of, with_frames, with_tasks};
ghost use Rattle.tw_machine.specs.Memory.{NextIs, IsEnabled, IsLocal};
ghost use Rattle.tw_machine.specs.Parts.{frames_of};

use crate::tasks::Tasks;
use std::alloc::Global;
use std::collections::BTreeMap;
use tw_code::{Instr, Procedure};
use tw_instr::{Barred, Frame, Position, Stopped, instr_at, local_steps, procedure_of};
use tw_types::{Actor, Cause, Layout};

/// Makes the reference machine's event Take: the actor takes a waiting task, which gets a frame.
pub fn take(
    alloc: Global,
    program: &[Procedure],
    layout: Layout,
    tasks: &mut Tasks,
    frames: &mut BTreeMap<Actor, Frame>,
    actor: Actor,
) -> Result<(), Stopped>
    ensures takes { (s : Meaning) → let old = with_frames (with_tasks s tasks.old) (frames_of frames.old.entries) in Changes (take_event program.now layout actor old) old result (with_frames (with_tasks s tasks.new) (frames_of frames.new.entries)) }
    ensures memory { result ≡ Err Stopped.NoMemory → (s : Meaning) → IsEnabled (take_event program.now layout actor (with_frames (with_tasks s tasks.old) (frames_of frames.old.entries))) }
{
    if !layout.has(actor) || frames.contains_key(&actor) {
        return Err(Stopped::NotEnabled);
    }
    let Some((number, task)) = tasks.best(actor) else {
        return Err(Stopped::NotEnabled);
    };
    let frame = task.begin(alloc, program, number)?;
    frames.insert(actor, frame)?;
    tasks.remove(number);
    Ok(())
}

/// Makes the reference machine's event Local: this many local instructions of the actor's task.
pub fn local(
    alloc: Global,
    program: &[Procedure],
    frames: &mut BTreeMap<Actor, Frame>,
    actor: Actor,
    steps: u64,
) -> Result<(), Stopped>
    requires steps { steps < 2 ^ 63 }
    requires spent { IfSome (get (frames_of frames.old.entries) actor) (λ frame. frame.spent < 2 ^ 63) }
    ensures goes { LeavesFrames (local_event program.now actor steps) (frames_of frames.old.entries) result (frames_of frames.new.entries) }
    ensures memory { result ≡ Err Stopped.NoMemory → (s : Meaning) → NextIs IsLocal (running_instr_of program.now actor (with_frames s (frames_of frames.old.entries))) }
{
    let Some(frame) = frames.get_mut(&actor) else {
        return Err(Stopped::NotEnabled);
    };
    local_of(alloc, program, frame, steps)
}

/// Executes this many local instructions of a frame in the reference machine, at least one.
fn local_of(
    alloc: Global,
    program: &[Procedure],
    frame: &mut Frame,
    steps: u64,
) -> Result<(), Stopped>
    requires steps { steps < 2 ^ 63 }
    requires spent { frame.old.spent < 2 ^ 63 }
    ensures goes { LeavesFrame (λ actor. local_event program.now actor steps) frame.old result frame.new }
    ensures memory { result ≡ Err Stopped.NoMemory → (s : Meaning) (actor : AnActor) → get s.frames actor ≡ Some frame.old → NextIs IsLocal (running_instr_of program.now actor s) }
{
    if steps == 0 {
        return Err(Stopped::NotEnabled);
    }
    let procedure = procedure_of(program, frame.procedure())?;
    let code = procedure.code.as_slice();
    must_be_local(code, frame.position())?;
    let mut position = frame.position().try_clone(alloc)?;
    local_steps(alloc, code, &mut position, steps)?;
    frame.move_to(position, steps);
    Ok(())
}

/// Fails unless there is a local instruction at the place, so that an event Local is enabled.
fn must_be_local(code: &[Instr], position: &Position) -> Result<(), Barred>
    ensures { MatchResult result (λ _. IsLocalAt code.now position.now.place) (λ why. IsStopped (local_step code.now position.now) (barred_by why)) }
{
    let Instr::Local(_) = instr_at(code, position.place())? else {
        return Err(Barred::NotEnabled);
    };
    Ok(())
}

/// Returns the instruction at the place of a frame of the reference machine.
fn instr_of<'a>(program: &'a [Procedure], frame: &Frame) -> Result<&'a Instr, Cause>
    ensures gives { MatchResult result (λ instr. instr_of program.now frame.now ≡ Ok instr.now) (λ cause. instr_of program.now frame.now ≡ Err cause) }
    ensures inside { OnOk result (frame.now.position.place < 2 ^ 63) }
{
    let procedure = procedure_of(program, frame.procedure())?;
    instr_at(procedure.code.as_slice(), frame.place())
}

/// Fails unless the actor's task is at RET in the reference machine, and without rights.
fn may_end(program: &[Procedure], frame: &Frame) -> Result<(), Barred>
    ensures { (s : Meaning) (actor : AnActor) → get s.frames actor ≡ Some frame.now → MatchResult result (λ _. end_event program.now actor s ≡ Went (with_frames s (remove s.frames actor))) (λ why. IsStopped (end_event program.now actor s) (barred_by why)) }
{
    let instr = instr_of(program, frame)?;
    let Instr::Ret = instr else {
        return Err(Barred::NotEnabled);
    };
    if !frame.is_clear() {
        return Err(Barred::Trap(Cause::RightLeft));
    }
    Ok(())
}

/// Makes the reference machine's event End: the actor's task ends.
pub fn end(
    program: &[Procedure],
    frames: &mut BTreeMap<Actor, Frame>,
    actor: Actor,
) -> Result<(), Barred>
    ensures { LeavesFrames (end_event program.now actor) (frames_of frames.old.entries) (unless_barred result) (frames_of frames.new.entries) }
{
    let Some(frame) = frames.get(&actor) else {
        return Err(Barred::NotEnabled);
    };
    may_end(program, frame)?;
    let _frame = frames.remove(&actor);
    Ok(())
}
