//! The instructions that are neither local nor RET: those on data, RULE and PUT.

ghost use Rattle.std.specs.Prelude.{◌≡◌, ◌<◌, ◌^◌, Err, IfSome, IsOk, List, Some, true};
ghost use Rattle.std.specs.FinMap.{get};
ghost use Rattle.tw_types.specs.declared.actor.Actor.{Actor as AnActor};
ghost use Rattle.tw_code.specs.declared.instr.Instr.TheVariants.{Data as DATA, Put as PUT, Rule as RULE};
ghost use Rattle.tw_code.specs.declared.procedure.Procedure.{Procedure as AProcedure};
ghost use Rattle.tw_code.specs.format.Program.{IsProgram};
ghost use Rattle.tw_code.specs.machine.Data.{data_instr};
ghost use Rattle.tw_code.specs.machine.Machine.{call_event};
ghost use Rattle.tw_code.specs.machine.State.{State as Meaning};
ghost use Rattle.tw_instr.specs.Attempts.{Changes};
ghost use Rattle.tw_instr.specs.Contexts.{context};
ghost use Rattle.tw_instr.specs.Memory.{takes_memory};
ghost use Rattle.tw_instr.specs.Room.{HasRoom};
ghost use Rattle.tw_machine.specs.Events.{CallLeaves, HaveRoom, LeavesTables, with_frames, with_tables};
ghost use Rattle.tw_machine.specs.Memory.{MayAllocate};
ghost use Rattle.tw_machine.specs.Parts.{frames_of};

use crate::rule::Rule;
use crate::tables::Tables;
use std::alloc::Global;
use std::collections::BTreeMap;
use tw_code::{Action, DataInstr, Instr, Procedure};
use tw_instr::{Frame, Named, Stopped, called, data_instr, instr_at, procedure_of, put_called};
use tw_types::{Actor, Kind};

/// The executor of an instruction: an actor, in a procedure of this kind of the program.
#[derive(Clone, Copy)]
struct Caller<'a> {
    program: &'a [Procedure],
    kind: Kind,
    actor: Actor,
}

/// Executes a RULE of the frame's task: adds it to the reference machine's rules.
fn make_rule(
    alloc: Global,
    caller: Caller,
    tables: &mut Tables,
    frame: &mut Frame,
    action: &Action,
) -> Result<(), Stopped>
    requires program { IsProgram caller.program.now }
    requires place { frame.old.position.place < 2 ^ 63 }
    requires spent { frame.old.spent < 2 ^ 63 }
    requires room { HaveRoom tables.old }
    ensures { (procedure : AProcedure) → procedure.kind ≡ caller.entry.kind → CallLeaves caller.entry.program.now caller.entry.actor procedure (RULE action.now) tables.old frame.old result tables.new frame.new }
{
    let Named {
        task,
        params,
        rights,
    } = called(
        alloc,
        caller.program,
        caller.kind,
        &tables.store,
        frame,
        action,
    )?;
    let rule = Rule::new(alloc, caller.actor.number(), params, task)?;
    tables.rules.add(rule)?;
    frame.finish_action(rights);
    Ok(())
}

/// Executes a PUT of the frame's task: adds a waiting task to the reference machine's.
fn put_task(
    alloc: Global,
    caller: Caller,
    tables: &mut Tables,
    frame: &mut Frame,
    action: &Action,
) -> Result<(), Stopped>
    requires program { IsProgram caller.program.now }
    requires place { frame.old.position.place < 2 ^ 63 }
    requires spent { frame.old.spent < 2 ^ 63 }
    requires room { HaveRoom tables.old }
    ensures { (procedure : AProcedure) → procedure.kind ≡ caller.entry.kind → CallLeaves caller.entry.program.now caller.entry.actor procedure (PUT action.now) tables.old frame.old result tables.new frame.new }
{
    let Named {
        task,
        params: _,
        rights,
    } = put_called(
        alloc,
        caller.program,
        caller.kind,
        &tables.store,
        frame,
        action,
    )?;
    tables.tasks.put(alloc, task)?;
    frame.finish_action(rights);
    Ok(())
}

/// Executes an instruction on data of the frame's task, in the reference machine.
fn do_data(
    alloc: Global,
    on_data: DataInstr,
    tables: &mut Tables,
    frame: &mut Frame,
) -> Result<(), Stopped>
    requires place { frame.old.position.place < 2 ^ 63 }
    requires spent { frame.old.spent < 2 ^ 63 }
    requires room { HasRoom tables.old.store }
    ensures comes { (program : List AProcedure) (actor : AnActor) (procedure : AProcedure) → CallLeaves program actor procedure (DATA on_data) tables.old frame.old result tables.new frame.new }
    ensures memory { result ≡ Err Stopped.NoMemory → (takes_memory on_data ≡ true) × IsOk (data_instr on_data (context tables.old.store tables.old.notices frame.old)) }
{
    data_instr(
        alloc,
        on_data,
        &mut tables.store,
        &mut tables.notices,
        frame,
    )?;
    frame.count();
    Ok(())
}

/// Executes the instruction at a frame's place in the reference machine, if it is on data, RULE or PUT.
fn call_of(
    alloc: Global,
    program: &[Procedure],
    actor: Actor,
    tables: &mut Tables,
    frame: &mut Frame,
) -> Result<(), Stopped>
    requires program { IsProgram program.now }
    requires spent { frame.old.spent < 2 ^ 63 }
    requires room { HaveRoom tables.old }
    ensures comes { LeavesTables (call_event program.now actor) actor tables.old frame.old result tables.new frame.new }
    ensures memory { result ≡ Err Stopped.NoMemory → (s : Meaning) → get s.frames actor ≡ Some frame.old → MayAllocate program.now actor (with_tables s tables.old) }
{
    let procedure = procedure_of(program, frame.procedure())?;
    let caller = Caller {
        program,
        kind: procedure.kind,
        actor,
    };
    match instr_at(procedure.code.as_slice(), frame.place())? {
        Instr::Data(on_data) => do_data(alloc, *on_data, tables, frame),
        Instr::Rule(action) => make_rule(alloc, caller, tables, frame, action),
        Instr::Put(action) => put_task(alloc, caller, tables, frame, action),
        Instr::Local(_) | Instr::Ret => Err(Stopped::NotEnabled),
    }
}

/// Executes in the reference machine one instruction of the actor's task that is neither local nor RET.
pub fn call(
    alloc: Global,
    program: &[Procedure],
    tables: &mut Tables,
    frames: &mut BTreeMap<Actor, Frame>,
    actor: Actor,
) -> Result<(), Stopped>
    requires program { IsProgram program.now }
    requires spent { IfSome (get (frames_of frames.old.entries) actor) (λ frame. frame.spent < 2 ^ 63) }
    requires room { HaveRoom tables.old }
    ensures comes { (s : Meaning) → let old = with_frames (with_tables s tables.old) (frames_of frames.old.entries) in Changes (call_event program.now actor old) old result (with_frames (with_tables s tables.new) (frames_of frames.new.entries)) }
    ensures memory { result ≡ Err Stopped.NoMemory → (s : Meaning) → MayAllocate program.now actor (with_frames (with_tables s tables.old) (frames_of frames.old.entries)) }
{
    let Some(frame) = frames.get_mut(&actor) else {
        return Err(Stopped::NotEnabled);
    };
    call_of(alloc, program, actor, tables, frame)
}
