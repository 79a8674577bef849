//! The local instructions.

ghost use Rattle.std.specs.Prelude.{◌≡◌, ◌<◌, ◌≤◌, ◌^◌, IfOk, MatchResult, if◌then◌else◌};
ghost use Rattle.tw_types.specs.Outcome.{Went};
ghost use Rattle.tw_code.specs.declared.instr.LocalInstr.TheVariants.{Int as INT, Copy as COPY, Compute as COMPUTE, MultiplyDivide as MULDIV, JumpEqual as JEQ, JumpLess as JLT, End as END};
ghost use Rattle.tw_code.specs.machine.Local.{local_instr, same_value};
ghost use Rattle.tw_code.specs.machine.Machine.{local_step, local_steps};
ghost use Rattle.tw_code.specs.machine.Position.{at_goal, at_next_place, Position as Where};
ghost use Rattle.tw_instr.specs.Attempts.{Changes, IsStopped, Leaves, failing};

use crate::code::instr_at;
use crate::failure::Failure;
use crate::on_texts;
use crate::position::Position;
use crate::stopped::Stopped;
use crate::value_registers::{int_at, must_have_type, value_at};
use std::alloc::{AllocError, Global};
use tw_code::compute::{result_of, scaled};
use tw_code::{Arithmetic, Instr, LocalInstr};
use tw_types::{Cause, Scalar, Value};

/// Returns for JEQ whether two values are equal. Fails if their types differ.
fn same_value(left: &Value, right: &Value) -> Result<bool, Cause>
    ensures { result ≡ same_value left.now right.now }
{
    match (left, right) {
        (Value::Int(left), Value::Int(right)) => Ok(left == right),
        (Value::Text(left), Value::Text(right)) => Ok(left.as_str() == right.as_str()),
        (Value::Int(_), Value::Text(_)) | (Value::Text(_), Value::Int(_)) => {
            Err(Cause::WrongRegister)
        }
    }
}

/// Executes INT at a position of the reference machine.
fn int(position: &mut Position, to: u8, value: i64) -> Result<(), Cause>
    requires { position.old.place < 2 ^ 63 }
    ensures { Leaves (local_instr (INT to value) position.old) position.old (failing result) position.new }
{
    must_have_type(position, to, Scalar::Int)?;
    position.put(to, Value::Int(value));
    Ok(())
}

/// Executes COPY at a position of the reference machine.
fn copy(alloc: Global, position: &mut Position, to: u8, from: u8) -> Result<(), Failure>
    requires { position.old.place < 2 ^ 63 }
    ensures { Leaves (local_instr (COPY to from) position.old) position.old result position.new }
{
    let value = value_at(position, from)?;
    must_have_type(position, to, value.scalar())?;
    let copy = value.try_clone(alloc)?;
    position.put(to, copy);
    Ok(())
}

/// Executes ADD, SUB, MUL, DIV or REM at a position of the reference machine.
fn compute_position(
    position: &mut Position,
    operation: Arithmetic,
    to: u8,
    left: u8,
    right: u8,
    skip: u16,
) -> Result<(), Cause>
    requires { position.old.place < 2 ^ 63 }
    ensures { Leaves (local_instr (COMPUTE operation to left right skip) position.old) position.old (failing result) position.new }
{
    must_have_type(position, to, Scalar::Int)?;
    let left = int_at(position, left)?;
    let right = int_at(position, right)?;
    match result_of(operation, left, right) {
        Some(number) => position.put(to, Value::Int(number)),
        None => position.skip(skip),
    }
    Ok(())
}

/// Executes MULDIV at a position of the reference machine.
fn multiply_divide(
    position: &mut Position,
    to: u8,
    left: u8,
    right: u8,
    divisor: u8,
    skip: u16,
) -> Result<(), Cause>
    requires { position.old.place < 2 ^ 63 }
    ensures { Leaves (local_instr (MULDIV to left right divisor skip) position.old) position.old (failing result) position.new }
{
    must_have_type(position, to, Scalar::Int)?;
    let left = int_at(position, left)?;
    let right = int_at(position, right)?;
    let divisor = int_at(position, divisor)?;
    match scaled(left, right, divisor) {
        Some(number) => position.put(to, Value::Int(number)),
        None => position.skip(skip),
    }
    Ok(())
}

/// Moves a position of the reference machine beyond the next place if the condition holds, else to the next place.
pub(crate) fn skip_if(position: &mut Position, condition: bool, skip: u16)
    requires { position.old.place < 2 ^ 63 }
    ensures { position.new ≡ (if condition then at_goal position.old skip else at_next_place position.old) }
{
    if condition {
        position.skip(skip);
    } else {
        position.to_next_place();
    }
}

/// Executes JEQ at a position of the reference machine.
fn jump_equal(position: &mut Position, left: u8, right: u8, skip: u16) -> Result<(), Cause>
    requires { position.old.place < 2 ^ 63 }
    ensures { Leaves (local_instr (JEQ left right skip) position.old) position.old (failing result) position.new }
{
    let same = same_value(value_at(position, left)?, value_at(position, right)?)?;
    skip_if(position, same, skip);
    Ok(())
}

/// Executes JLT at a position of the reference machine.
fn jump_less(position: &mut Position, left: u8, right: u8, skip: u16) -> Result<(), Cause>
    requires { position.old.place < 2 ^ 63 }
    ensures { Leaves (local_instr (JLT left right skip) position.old) position.old (failing result) position.new }
{
    let less = int_at(position, left)? < int_at(position, right)?;
    skip_if(position, less, skip);
    Ok(())
}

/// Executes END at a position of the reference machine. Fails with `NoLoop` if no loop is begun.
fn end(position: &mut Position) -> Result<(), Cause>
    requires { position.old.place < 2 ^ 63 }
    ensures { Leaves (local_instr END position.old) position.old (failing result) position.new }
{
    if position.end_turn() {
        Ok(())
    } else {
        Err(Cause::NoLoop)
    }
}

/// Executes any local instruction at a position of the reference machine, with one row for each.
#[rattlefmt::skip]
fn local_instr(alloc: Global, instr: &LocalInstr, position: &mut Position) -> Result<(), Failure>
    requires { position.old.place < 2 ^ 63 }
    ensures { Leaves (local_instr instr.now position.old) position.old result position.new }
{
    match instr {
        LocalInstr::Int { to, value } => Ok(int(position, *to, *value)?),
        LocalInstr::Text { to, text } => on_texts::text(alloc, position, *to, text),
        LocalInstr::Copy { to, from } => copy(alloc, position, *to, *from),
        LocalInstr::Compute { operation, to, left, right, skip } => Ok(compute_position(position, *operation, *to, *left, *right, *skip)?),
        LocalInstr::MultiplyDivide { to, left, right, divisor, skip } => Ok(multiply_divide(position, *to, *left, *right, *divisor, *skip)?),
        LocalInstr::Concatenate { to, left, right, skip } => on_texts::concatenate(alloc, position, *to, *left, *right, *skip),
        LocalInstr::Length { to, from } => Ok(on_texts::length(position, *to, *from)?),
        LocalInstr::Show { to, from } => on_texts::show(alloc, position, *to, *from),
        LocalInstr::ReadInt { to, from, skip } => on_texts::read_int(alloc, position, *to, *from, *skip),
        LocalInstr::ByteAt { to, from, place, skip } => Ok(on_texts::byte_at(position, *to, *from, *place, *skip)?),
        LocalInstr::Slice { to, from, start, end, skip } => on_texts::slice(alloc, position, *to, *from, *start, *end, *skip),
        LocalInstr::Seek { sought, to, text, pattern, start, skip } => Ok(on_texts::seek(position, *sought, *to, *text, *pattern, *start, *skip)?),
        LocalInstr::Jump { skip } => {
            position.skip(*skip);
            Ok(())
        }
        LocalInstr::JumpEqual { left, right, skip } => Ok(jump_equal(position, *left, *right, *skip)?),
        LocalInstr::JumpLess { left, right, skip } => Ok(jump_less(position, *left, *right, *skip)?),
        LocalInstr::JumpTextLess { left, right, skip } => Ok(on_texts::jump_text_less(position, *left, *right, *skip)?),
        LocalInstr::Repeat { iterations } => Ok(position.begin_loop(*iterations)?),
        LocalInstr::End => Ok(end(position)?),
        LocalInstr::Last => {
            position.last_turn();
            Ok(())
        }
    }
}

/// Executes the instruction at a position of the reference machine, if it is local.
fn local_step(alloc: Global, code: &[Instr], position: &mut Position) -> Result<(), Stopped>
    ensures { Changes (local_step code.now position.old) position.old result position.new }
{
    let Instr::Local(instr) = instr_at(code, position.place())? else {
        return Err(Stopped::NotEnabled);
    };
    local_instr(alloc, instr, position)?;
    Ok(())
}

/// Executes `steps` local instructions at a position of the reference machine. If one fails, the position is unspecified.
pub fn local_steps(
    alloc: Global,
    code: &[Instr],
    position: &mut Position,
    steps: u64,
) -> Result<(), Stopped>
    ensures { MatchResult result (λ _. local_steps steps code.now position.old ≡ Went position.new) (IsStopped (local_steps steps code.now position.old)) }
{
    for _ in 0..steps {
        local_step(alloc, code, position)?;
    }
    Ok(())
}

/// Executes local instructions as long as they succeed, at most `most`, and returns how many. The position is the one after them.
pub fn count_local(
    alloc: Global,
    code: &[Instr],
    position: &mut Position,
    most: u64,
) -> Result<u64, AllocError>
    ensures few { IfOk result (λ n. n ≤ most) }
    ensures go { IfOk result (λ n. local_steps n code.now position.old ≡ Went position.new) }
    ensures whole { IfOk result (λ n. n < most → (at : Where) → local_step code.now position.new ≡ Went at → ⊥) }
{
    for steps in 0..most {
        match local_step(alloc, code, position) {
            Ok(()) => {}
            Err(Stopped::NoMemory) => return Err(AllocError),
            Err(Stopped::NotEnabled | Stopped::Trap(_)) => return Ok(steps),
        }
    }
    Ok(most)
}
