//! RULE and PUT: the task that they name, and the rights that leave the registers for it.

ghost use Rattle.std.specs.Prelude.{◌≡◌, ◌≤◌, length, map, slice_get, slice_set, IfOk, MatchResult, None, Ok, OnOk};
ghost use Rattle.std.specs.Option.{option_copied};
ghost use Rattle.tw_types.specs.Notices.{Notices};
ghost use Rattle.tw_code.specs.format.Program.{IsProgram};
ghost use Rattle.tw_code.specs.machine.Arguments.{all_pass, called, moved_args, has_type, priority_at, put_called, values_suit};
ghost use Rattle.tw_code.specs.machine.Rights.{held};
ghost use Rattle.tw_datum.specs.Kept.{datum_if};
ghost use Rattle.tw_instr.specs.Arguments.{arg_of, test_of};
ghost use Rattle.tw_instr.specs.Attempts.{MayFail, MayGive};
ghost use Rattle.tw_instr.specs.Contexts.{context};

use crate::code::procedure_of;
use crate::data::Data;
use crate::datum::Datum;
use crate::failure::{Failure, must};
use crate::frame::Frame;
use crate::position::Position;
use crate::task::Task;
use crate::value_registers::{copy_at, int_at};
use std::alloc::{AllocError, Global};
use std::marker::Model;
use tw_code::{Action, Priority, Procedure};
use tw_types::{Cause, DatumId, Kind, Mode, Param, Value, keep};

/// An argument: a value, or a right on a datum.
#[derive(Drop)]
pub enum Arg {
    Value(Value),
    Right(DatumId),
}

impl Arg {
    /// Copies an argument of a task: its value, or the id of the right's datum.
    pub fn try_clone(&self, alloc: Global) -> Result<Arg, AllocError>
        ensures { IfOk result (λ copy. copy ≡ self.now) }
    {
        match self {
            Arg::Value(value) => Ok(Arg::Value(value.try_clone(alloc)?)),
            Arg::Right(id) => Ok(Arg::Right(*id)),
        }
    }
}

/// The task that RULE or PUT names, the parameters of its arguments, and the right registers that are left.
#[derive(Drop)]
pub struct Named<'a> {
    pub task: Task,
    pub params: &'a [Param],
    pub rights: [Option<DatumId>; 16],
}

impl<'a> Model for Named<'a> {
    ghost use Rattle.std.specs.Prelude.{◌≤◌, length};
    ghost use Rattle.tw_code.specs.machine.Arguments.{Called};

    ghost Value = { Called };

    ghost view = { λ n. record { task = n.task; params = n.params.now; rights = n.rights } };

    ghost invariant = { λ n. length n.params.now ≤ 8 };
}

/// Returns the priority that an action names: the constant, or the integer in the task's register.
fn priority_of(position: &Position, priority: Priority) -> Result<i64, Cause>
    ensures { result ≡ priority_at position.now priority }
{
    match priority {
        Priority::Constant(number) => Ok(number),
        Priority::Computed(register) => int_at(position, register),
    }
}

/// Returns the task that a RULE names, its parameters, and the rights that stay. It is executed in a procedure of this kind. The
/// frame doesn't change.
pub fn called<'a>(
    alloc: Global,
    program: &'a [Procedure],
    kind: Kind,
    store: &Data,
    frame: &Frame,
    action: &Action,
) -> Result<Named<'a>, Failure>
    requires { IsProgram program.now }
    ensures { (n : Notices) → MayGive (called program.now kind (context store.now n frame.now) action.now) result }
{
    let procedure = procedure_of(program, action.procedure)?;
    let params = procedure.params.as_slice();
    let registers = action.args.as_slice();
    must(registers.len() == params.len(), Cause::WrongCall)?;
    must(kind == Kind::Control, Cause::WrongCall)?;
    must(
        values_suit(frame.position(), params, registers),
        Cause::WrongRegister,
    )?;
    let priority = priority_of(frame.position(), action.priority)?;
    let mut rights = frame.rights();
    let args = take_args(alloc, frame.position(), &mut rights, params, registers)?;
    must(
        all_pass(Need::Live, store, params, &args),
        Cause::FreedDatum,
    )?;
    must(
        all_pass(Need::OfType, store, params, &args),
        Cause::WrongType,
    )?;
    Ok(Named {
        task: Task::of(procedure.kind, action, priority, args),
        params,
        rights,
    })
}

/// Like `called`, for PUT: also checks that the arguments of `closed` parameters are closed.
pub fn put_called<'a>(
    alloc: Global,
    program: &'a [Procedure],
    kind: Kind,
    store: &Data,
    frame: &Frame,
    action: &Action,
) -> Result<Named<'a>, Failure>
    requires { IsProgram program.now }
    ensures { (n : Notices) → MayGive (put_called program.now kind (context store.now n frame.now) action.now) result }
{
    let named = called(alloc, program, kind, store, frame, action)?;
    must(
        all_pass(Need::ClosedIfAsked, store, named.params, named.task.args()),
        Cause::ArgumentNotClosed,
    )?;
    Ok(named)
}

/// Returns whether a value register of the task is declared and its value is of the type of a parameter.
fn has_type(position: &Position, register: u8, param: Param) -> bool
    ensures { result ≡ has_type (slice_get position.now.values register) param }
{
    match position.value(register) {
        Some(value) => value.scalar() == param.ty.scalar(),
        None => false,
    }
}

/// Returns whether the registers that a RULE or PUT names for `val` parameters have values of their types.
fn values_suit(position: &Position, params: &[Param], registers: &[u8]) -> bool
    ensures { result ≡ values_suit position.now.values params.now registers.now }
{
    for (param, register) in params.iter().zip(registers) {
        if param.mode.is_val() && !has_type(position, *register, *param) {
            return false;
        }
    }
    true
}

/// Takes the id out of one of the task's right registers. Fails if it is empty.
fn take_right(rights: &mut [Option<DatumId>; 16], register: u8) -> Result<DatumId, Cause>
    ensures gives { result ≡ held rights.old register }
    ensures left { OnOk result (rights.new ≡ slice_set rights.old register None) }
{
    let register = usize::from(register);
    let Some(Some(id)) = rights.get(register).copied() else {
        return Err(Cause::EmptyRegister);
    };
    rights[register] = None;
    Ok(id)
}

/// Returns the arguments: copies values, and takes rights out of their registers. On an error the earlier rights have been taken.
fn take_args(
    alloc: Global,
    position: &Position,
    rights: &mut [Option<DatumId>; 16],
    params: &[Param],
    registers: &[u8],
) -> Result<Vec<Arg>, Failure>
    ensures given { MatchResult result (λ args. moved_args position.now.values rights.old params.now registers.now ≡ Ok (record { args = map arg_of args.items; rights = rights.new })) (MayFail (moved_args position.now.values rights.old params.now registers.now)) }
    ensures few { IfOk result (λ args. length args.items ≤ length params.now) }
{
    let mut args = Vec::new(alloc);
    for (param, register) in params.iter().zip(registers) {
        let arg = if param.mode.is_val() {
            Arg::Value(copy_at(alloc, position, *register)?)
        } else {
            Arg::Right(take_right(rights, *register)?)
        };
        keep(&mut args, arg)?;
    }
    Ok(args)
}

/// The requirement on the datum of a right that is an argument.
#[derive(Clone, Copy)]
enum Need {
    Live,
    OfType,
    ClosedIfAsked,
}

/// Returns whether the datum of an argument meets a requirement of RULE or PUT for its parameter.
fn passes(need: Need, param: Param, datum: Option<&Datum>) -> bool
    ensures { result ≡ test_of need param (datum_if (option_copied datum.entry)) }
{
    match (need, datum) {
        (Need::Live, datum) => datum.is_some(),
        (_, None) => true,
        (Need::OfType, Some(datum)) => datum.ty() == param.ty,
        (Need::ClosedIfAsked, Some(datum)) => param.mode != Mode::Closed || datum.closed(),
    }
}

/// Returns whether the datum of each right among the arguments meets the requirement.
fn all_pass(need: Need, store: &Data, params: &[Param], args: &[Arg]) -> bool
    ensures { result ≡ all_pass (test_of need) store.now.live params.now (map arg_of args.now) }
{
    for (param, arg) in params.iter().zip(args) {
        if let Arg::Right(id) = arg {
            if !passes(need, *param, store.datum(*id)) {
                return false;
            }
        }
    }
    true
}
