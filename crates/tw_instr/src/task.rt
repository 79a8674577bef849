//! Waiting tasks, and how they start.

ghost use Rattle.std.specs.Prelude.{◌≡◌, ◌<◌, ◌≤◌, ◌++◌, length, drop, map, MatchResult, Ok, IfOk, OnOk};
ghost use Rattle.tw_types.specs.Task.{is_eligible, is_for};
ghost use Rattle.tw_code.specs.machine.State.{filled, frame_of, ids_in, values_in};
ghost use Rattle.tw_code.specs.machine.Rights.{first_rights};
ghost use Rattle.tw_code.specs.machine.Opening.{main_task};
ghost use Rattle.tw_types.specs.Value.{blank_of};
ghost use Rattle.tw_instr.specs.Attempts.{MayFail, MayGive};
ghost use Rattle.tw_instr.specs.Arguments.{arg_of};

use crate::arguments::Arg;
use crate::code::procedure_of;
use crate::failure::Failure;
use crate::frame::Frame;
use std::alloc::{AllocError, Global};
use std::marker::Model;
use tw_code::{Action, Procedure};
use tw_types::{Actor, Cause, DatumId, Kind, Scalar, TaskNo, Value, keep};

/// A waiting task: its procedure, the kind of that, its priority, its target if it has one, and at most eight arguments.
#[derive(Drop)]
pub struct Task {
    kind: Kind,
    procedure: u8,
    priority: i64,
    target: Option<u8>,
    args: Vec<Arg>,
}

impl Model for Task {
    ghost use Rattle.std.specs.Prelude.{◌≤◌, map, length};
    ghost use Rattle.tw_types.specs.Task.{Task as TaskView};

    ghost Value = { TaskView };

    ghost use Rattle.tw_instr.specs.Arguments.{arg_of};

    ghost view = { λ t. record { kind = t.kind; procedure = t.procedure; priority = t.priority; target = t.target; args = map arg_of t.args.items } };

    ghost invariant = { λ t. length t.args.items ≤ 8 };
}

impl Task {
    /// Makes main's task, for any engine, with the ids of the data on which it gets rights.
    pub fn main(alloc: Global, rights: &[DatumId]) -> Result<Task, AllocError>
        requires { length rights.now ≤ 8 }
        ensures { IfOk result (λ task. task ≡ main_task rights.now) }
    {
        let mut args = Vec::new(alloc);
        for id in rights {
            keep(&mut args, Arg::Right(*id))?;
        }
        Ok(Task {
            kind: Kind::Control,
            procedure: 0,
            priority: 0,
            target: None,
            args,
        })
    }

    /// Makes the task that RULE or PUT names in the reference machine. `kind` is its procedure's; `priority` is the action's, read
    /// from its register if it is computed.
    pub fn of(kind: Kind, action: &Action, priority: i64, args: Vec<Arg>) -> Task
        requires { length args.items ≤ 8 }
        ensures { result ≡ record { kind = kind; procedure = action.now.procedure; priority = priority; target = action.now.target; args = map arg_of args.items } }
    {
        Task {
            kind,
            procedure: action.procedure,
            priority,
            target: action.target,
            args,
        }
    }

    /// Copies a waiting task of the reference machine, but with this kind.
    pub fn try_clone(&self, alloc: Global, kind: Kind) -> Result<Task, AllocError>
        ensures { IfOk result (λ copy. copy ≡ record self.now { kind = kind }) }
    {
        Ok(Task {
            kind,
            procedure: self.procedure,
            priority: self.priority,
            target: self.target,
            args: copies_of(alloc, &self.args)?,
        })
    }

    /// Returns the number of a waiting task's procedure in the program.
    pub fn procedure(&self) -> u8
        ensures { result ≡ self.now.procedure }
    {
        self.procedure
    }

    /// Returns the priority of a waiting task.
    pub fn priority(&self) -> i64
        ensures { result ≡ self.now.priority }
    {
        self.priority
    }

    /// Returns the number of the one actor that may take a waiting task, or `None` for any.
    pub fn target(&self) -> Option<u8>
        ensures { result ≡ self.now.target }
    {
        self.target
    }

    /// Returns the arguments of a waiting task: values, and ids of the data of its rights.
    pub fn args(&self) -> &[Arg]
        ensures { map arg_of result.now ≡ self.now.args }
    {
        &self.args
    }

    /// Returns whether the task may be taken by the actor: whether it is for its number, and the kind fits.
    pub fn is_eligible(&self, actor: Actor) -> bool
        ensures { result ≡ is_eligible actor self.now }
    {
        actor.may_take(self.kind) && is_for(self.target, actor.number())
    }

    /// Makes the reference machine's frame of the task at its start. Its values, in order, fill the first value registers, which
    /// must be of their types, or it traps with `WrongRegister`; the others are blank. The ids of its rights fill the first right
    /// registers.
    pub fn begin(
        &self,
        alloc: Global,
        procedures: &[Procedure],
        task: u64,
    ) -> Result<Frame, Failure>
        ensures { MayGive (frame_of procedures.now task self.now) result }
    {
        let procedure = procedure_of(procedures, self.procedure)?;
        let values = values_at_start(alloc, &self.args, procedure.registers.as_slice())?;
        let rights = first_rights(&self.args);
        let task = TaskNo::new(task);
        Ok(Frame::first(alloc, task, self.procedure, values, rights))
    }
}

/// Copies the arguments of a task of the reference machine.
fn copies_of(alloc: Global, args: &[Arg]) -> Result<Vec<Arg>, AllocError>
    ensures { IfOk result (λ copies. copies.items ≡ args.now) }
{
    let mut copies = Vec::new(alloc);
    for arg in args {
        keep(&mut copies, arg.try_clone(alloc)?)?;
    }
    Ok(copies)
}

/// Returns the value registers with which a task starts: its arguments' values, and blanks.
fn values_at_start(alloc: Global, args: &[Arg], types: &[Scalar]) -> Result<Vec<Value>, Failure>
    ensures { MatchResult result (λ values. filled (values_in (map arg_of args.now)) types.now ≡ Ok values.items) (MayFail (filled (values_in (map arg_of args.now)) types.now)) }
{
    let mut values = given_values(alloc, args, types)?;
    let others = &types[values.len()..];
    add_blanks(alloc, &mut values, others)?;
    Ok(values)
}

/// Returns the first value registers of a task: the values among its arguments. Fails with `WrongRegister` if a type differs.
fn given_values(alloc: Global, args: &[Arg], types: &[Scalar]) -> Result<Vec<Value>, Failure>
    ensures begins { MatchResult result (λ values. filled (values_in (map arg_of args.now)) types.now ≡ Ok (values.items ++ map blank_of (drop (length values.items) types.now))) (MayFail (filled (values_in (map arg_of args.now)) types.now)) }
    ensures fits { IfOk result (λ values. length values.items ≤ length types.now) }
{
    let mut values = Vec::new(alloc);
    for arg in args {
        if let Arg::Value(value) = arg {
            let declared = types.get(values.len()).copied();
            if declared != Some(value.scalar()) {
                return Err(Failure::Trap(Cause::WrongRegister));
            }
            keep(&mut values, value.try_clone(alloc)?)?;
        }
    }
    Ok(values)
}

/// Adds a blank value for each further register of a task that starts.
fn add_blanks(alloc: Global, values: &mut Vec<Value>, types: &[Scalar]) -> Result<(), AllocError>
    ensures { OnOk result (values.new.items ≡ values.old.items ++ map blank_of types.now) }
{
    for ty in types {
        keep(values, Value::blank(alloc, *ty))?;
    }
    Ok(())
}

/// Returns the right registers of a task that starts: the ids among its arguments, then empty ones.
fn first_rights(args: &[Arg]) -> [Option<DatumId>; 16]
    requires { length args.now ≤ 8 }
    ensures { result ≡ first_rights (ids_in (map arg_of args.now)) }
{
    let mut rights = [None; 16];
    let mut count = 0;
    for arg in args {
        if let Arg::Right(id) = arg {
            rights[count] = Some(*id);
            count += 1;
        }
    }
    rights
}

/// Returns whether a task with this target may be taken by the actor of this number, if the kind fits.
fn is_for(target: Option<u8>, number: u8) -> bool
    ensures { result ≡ is_for target number }
{
    match target {
        Some(target) => target == number,
        None => true,
    }
}
