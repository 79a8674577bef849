//! Checks of value registers. Each fails with `WrongRegister`.

ghost use Rattle.std.specs.Prelude.{◌≡◌, ◌<◌, length, MatchResult, IfOk, Ok, Err, OnOk};
ghost use Rattle.tw_types.specs.Value.{scalar_of};
ghost use Rattle.tw_code.specs.machine.Position.{must_have_type, value_at, int_at, of_type_at, text_at};
ghost use Rattle.tw_instr.specs.Attempts.{Gives};

use crate::failure::{Failure, must};
use crate::position::Position;
use std::alloc::Global;
use tw_types::{Cause, Scalar, Text, Value};

/// Returns the value of a register at a position. Fails if it isn't declared.
pub fn value_at(position: &Position, register: u8) -> Result<&Value, Cause>
    ensures gives { MatchResult result (λ value. value_at position.now register ≡ Ok value.now) (λ cause. value_at position.now register ≡ Err cause) }
    ensures declared { OnOk result (register < length position.now.values) }
{
    position.value(register).ok_or(Cause::WrongRegister)
}

/// Copies the value of a register at a position. Fails if it isn't declared.
pub fn copy_at(alloc: Global, position: &Position, register: u8) -> Result<Value, Failure>
    ensures { Gives (value_at position.now register) result }
{
    Ok(value_at(position, register)?.try_clone(alloc)?)
}

/// Returns the integer in a register at a position. Fails if it isn't declared or of type text.
pub fn int_at(position: &Position, register: u8) -> Result<i64, Cause>
    ensures { result ≡ int_at position.now register }
{
    match value_at(position, register)? {
        Value::Int(number) => Ok(*number),
        Value::Text(_) => Err(Cause::WrongRegister),
    }
}

/// Returns the value of a register of this type at a position. Fails if it isn't declared or of another type.
pub fn of_type_at(position: &Position, register: u8, ty: Scalar) -> Result<&Value, Cause>
    ensures gives { MatchResult result (λ value. of_type_at position.now register ty ≡ Ok value.now) (λ cause. of_type_at position.now register ty ≡ Err cause) }
    ensures kind { IfOk result (λ value. scalar_of value.now ≡ ty) }
{
    let value = value_at(position, register)?;
    must(value.scalar() == ty, Cause::WrongRegister)?;
    Ok(value)
}

/// Returns the text in a register at a position. Fails if it isn't declared or of type int.
pub fn text_at(position: &Position, register: u8) -> Result<&Text, Cause>
    ensures { MatchResult result (λ text. text_at position.now register ≡ Ok text.now) (λ cause. text_at position.now register ≡ Err cause) }
{
    match value_at(position, register)? {
        Value::Int(_) => Err(Cause::WrongRegister),
        Value::Text(text) => Ok(text),
    }
}

/// Fails unless the register at a position is declared and of this type.
pub fn must_have_type(position: &Position, register: u8, ty: Scalar) -> Result<(), Cause>
    ensures gives { result ≡ must_have_type position.now register ty }
    ensures declared { OnOk result (register < length position.now.values) }
{
    let value = value_at(position, register)?;
    must(value.scalar() == ty, Cause::WrongRegister)
}
