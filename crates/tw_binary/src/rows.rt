//! Decodes instructions.

ghost use Rattle.std.specs.Prelude.{[], ◌∷◌};
ghost use Rattle.tw_code.specs.declared.form.Form.TheVariants.{Args, Callee, Number, Target, Value};
ghost use Rattle.tw_code.specs.declared.instr.Priority.TheVariants.{Computed, Constant};
ghost use Rattle.tw_code.specs.declared.version.Version.{Version};
ghost use Rattle.tw_code.specs.declared.version.Version.TheVariants.{One};
ghost use Rattle.tw_binary.specs.Reading.{Gives, args_at, as_is, byte_at, contents_at, gathers, instr_at, made_at, number_at, operand_at, register_at, skip_at, target_at, text_at, type_at, wide_at};
ghost use Rattle.tw_code.specs.format.Operands.{ArePlain, IsPlain, plain};
ghost use Rattle.tw_code.specs.format.Table.{action_of, forms_of, row_of};

use crate::actions::{args_of, target_of};
use crate::fault::{FaultNo, Stop};
use crate::items::*;
use crate::texts::text_of;
use std::alloc::Global;
use tw_code::{
    Action, Form, Instr, LocalInstr, Opcode, Operands, PlainOperand, Priority, Version, make,
    opcode_at,
};
use tw_types::{DataType, Items, Text};

/// Decodes the number of a register.
fn register<'a>(bytes: &mut &'a [u8]) -> Result<u8, Stop>
    ensures { Gives (λ x. (x, bytes.new.now)) result (register_at bytes.old.now) }
{
    let (register, rest) = register_of(bytes)?;
    *bytes = rest;
    Ok(register)
}

/// Decodes an integer of 8 bytes.
fn number<'a>(bytes: &mut &'a [u8]) -> Result<i64, Stop>
    ensures { Gives (λ x. (x, bytes.new.now)) result (number_at bytes.old.now) }
{
    let (number, rest) = number_of(bytes)?;
    *bytes = rest;
    Ok(number)
}

/// Decodes the number of instructions to skip.
fn skip<'a>(bytes: &mut &'a [u8]) -> Result<u16, Stop>
    ensures { Gives (λ x. (x, bytes.new.now)) result (skip_at bytes.old.now) }
{
    let (skip, rest) = wide_of(0, u16::MAX, bytes)?;
    *bytes = rest;
    Ok(skip)
}

/// Decodes the number of iterations of a loop.
fn iterations<'a>(bytes: &mut &'a [u8]) -> Result<u16, Stop>
    ensures { Gives (λ x. (x, bytes.new.now)) result (wide_at 1 1000 bytes.old.now) }
{
    let (iterations, rest) = wide_of(1, LocalInstr::MAX_ITERATIONS, bytes)?;
    *bytes = rest;
    Ok(iterations)
}

/// Decodes a type.
fn data_type<'a>(version: Version, bytes: &mut &'a [u8]) -> Result<DataType, Stop>
    ensures { Gives (λ x. (x, bytes.new.now)) result (type_at version 3 bytes.old.now) }
{
    match type_of(version, DataType::MAX_DEPTH, bytes) {
        Ok((ty, rest)) => {
            *bytes = rest;
            Ok(ty)
        }
        Err(e) => Err(e),
    }
}

/// Decodes a text: its length and its bytes.
fn text<'a>(alloc: Global, bytes: &mut &'a [u8]) -> Result<Text, Stop>
    ensures { Gives (λ x. (x, bytes.new.now)) result (text_at bytes.old.now) }
{
    let (text, rest) = text_of(alloc, bytes)?;
    *bytes = rest;
    Ok(text)
}

/// Decodes the number of a procedure.
fn callee<'a>(bytes: &mut &'a [u8]) -> Result<u8, Stop>
    ensures { Gives (λ x. (x, bytes.new.now)) result (byte_at 0 255 bytes.old.now) }
{
    let (callee, rest) = byte_of(0, u8::MAX, bytes)?;
    *bytes = rest;
    Ok(callee)
}

/// Decodes a target: an actor, or any.
fn target<'a>(bytes: &mut &'a [u8]) -> Result<Option<u8>, Stop>
    ensures { Gives (λ x. (x, bytes.new.now)) result (target_at bytes.old.now) }
{
    let (target, rest) = target_of(bytes)?;
    *bytes = rest;
    Ok(target)
}

/// Decodes the arguments of a call: their count and their registers.
fn args<'a>(alloc: Global, bytes: &mut &'a [u8]) -> Result<Items<u8>, Stop>
    ensures { Gives (λ x. (x, bytes.new.now)) result (args_at bytes.old.now) }
{
    match args_of(alloc, bytes) {
        Ok((args, rest)) => {
            *bytes = rest;
            Ok(args)
        }
        Err(e) => Err(e),
    }
}

// ---- operands by their forms

/// Decodes an operand of a form.
fn operand<'a>(version: Version, form: Form, bytes: &mut &'a [u8]) -> Result<PlainOperand, Stop>
    requires { IsPlain form }
    ensures { Gives (λ x. (plain x, bytes.new.now)) result (operand_at version form bytes.old.now) }
{
    match form {
        Form::Value => Ok(PlainOperand::Value(register(bytes)?)),
        Form::Right => Ok(PlainOperand::Right(register(bytes)?)),
        Form::Number => Ok(PlainOperand::Number(number(bytes)?)),
        Form::Iterations => Ok(PlainOperand::Iterations(iterations(bytes)?)),
        Form::Skip => Ok(PlainOperand::Skip(skip(bytes)?)),
        Form::TypeOf => Ok(PlainOperand::TypeOf(data_type(version, bytes)?)),
        Form::Literal | Form::Callee | Form::Target | Form::Args => unreachable!(),
    }
}

/// Decodes operands of these forms.
fn operands<'a>(version: Version, forms: &[Form], bytes: &mut &'a [u8]) -> Result<Operands, Stop>
    requires { ArePlain forms.now }
    ensures { Gives (λ x. (x, bytes.new.now)) result (gathers version forms.now bytes.old.now) }
{
    match forms {
        [] => Ok(Operands::none()),
        [form, others @ ..] => {
            let first = operand(version, *form, bytes)?;
            let others = operands(version, others, bytes)?;
            Ok(others.after(first))
        }
    }
}

/// Decodes the operands of an instruction without text and arguments.
fn plain_instr<'a>(version: Version, opcode: Opcode, bytes: &mut &'a [u8]) -> Result<Instr, Stop>
    requires { ArePlain (forms_of opcode) }
    ensures { Gives (λ x. (x, bytes.new.now)) result (made_at version (row_of opcode) bytes.old.now) }
{
    let operands = operands(version, opcode.forms(), bytes)?;
    Ok(make(opcode, operands))
}

// ---- all instructions

/// Decodes the operands of RULE or PUT.
fn constant_action<'a>(alloc: Global, bytes: &mut &'a [u8]) -> Result<Action, Stop>
    ensures { Gives (λ x. (x, bytes.new.now)) result (as_is (action_of Constant) (contents_at One (Callee ∷ Number ∷ Target ∷ Args ∷ [])) bytes.old.now) }
{
    Ok(Action {
        procedure: callee(bytes)?,
        priority: Priority::Constant(number(bytes)?),
        target: target(bytes)?,
        args: args(alloc, bytes)?,
    })
}

/// Decodes the operands of RULEV or PUTV, whose priority is in a value register.
fn computed_action<'a>(alloc: Global, bytes: &mut &'a [u8]) -> Result<Action, Stop>
    ensures { Gives (λ x. (x, bytes.new.now)) result (as_is (action_of Computed) (contents_at One (Callee ∷ Value ∷ Target ∷ Args ∷ [])) bytes.old.now) }
{
    Ok(Action {
        procedure: callee(bytes)?,
        priority: Priority::Computed(register(bytes)?),
        target: target(bytes)?,
        args: args(alloc, bytes)?,
    })
}

/// Decodes the operands of an instruction.
#[rattlefmt::skip]
fn operands_of<'a>(alloc: Global, version: Version, opcode: Opcode, bytes: &mut &'a [u8]) -> Result<Instr, Stop>
    ensures { Gives (λ x. (x, bytes.new.now)) result (made_at version (row_of opcode) bytes.old.now) }
{
    match opcode {
        Opcode::Text => Ok(Instr::Local(LocalInstr::Text { to: register(bytes)?, text: text(alloc, bytes)? })),
        Opcode::Rule => Ok(Instr::Rule(constant_action(alloc, bytes)?)),
        Opcode::Put => Ok(Instr::Put(constant_action(alloc, bytes)?)),
        Opcode::RuleComputed => Ok(Instr::Rule(computed_action(alloc, bytes)?)),
        Opcode::PutComputed => Ok(Instr::Put(computed_action(alloc, bytes)?)),
        _ => plain_instr(version, opcode, bytes),
    }
}

/// Decodes an instruction: its code, and its operands after it. Allocates only for a text and for a list of arguments.
#[tactic(auto, unfolding(crate::specs::Reading::instr_at))]
pub fn instr_of(alloc: Global, version: Version, bytes: &[u8]) -> Result<(Instr, &[u8]), Stop>
    ensures { Gives (λ x. (x.0, x.1.now)) result (instr_at version bytes.now) }
{
    match bytes {
        [] => Err(Stop::missing()),
        [code, rest @ ..] => match opcode_at(version, *code) {
            Some(opcode) => {
                let mut left = rest;
                let instr = operands_of(alloc, version, opcode, &mut left)?;
                Ok((instr, left))
            }
            None => Err(Stop::wrong(FaultNo::Unknown, bytes)),
        },
    }
}
