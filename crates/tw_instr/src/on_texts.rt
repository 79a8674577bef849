//! The local instructions on texts.

ghost use Rattle.std.specs.Prelude.{◌<◌, ◌^◌};
ghost use Rattle.tw_code.specs.declared.instr.LocalInstr.TheVariants.{Text as TEXT, Concatenate as CAT, Length as LEN, Show as SHOW, ReadInt as READI, ByteAt as BYTE, Slice as SLICE, Seek as SEEK, JumpTextLess as JTLT};
ghost use Rattle.tw_code.specs.machine.Local.{local_instr};
ghost use Rattle.tw_instr.specs.Attempts.{Leaves, failing};

use crate::failure::Failure;
use crate::local::skip_if;
use crate::position::Position;
use crate::value_registers::{int_at, must_have_type, text_at};
use std::alloc::Global;
use tw_code::Sought;
use tw_code::compute::{int_shown_as, is_before, joined, shown};
use tw_code::searching::{byte_of, found, part};
use tw_types::{Cause, Scalar, Text, Value};

/// Executes TEXT at a position of the reference machine.
pub(crate) fn text(
    alloc: Global,
    position: &mut Position,
    to: u8,
    text: &Text,
) -> Result<(), Failure>
    requires { position.old.place < 2 ^ 63 }
    ensures { Leaves (local_instr (TEXT to text.now) position.old) position.old result position.new }
{
    must_have_type(position, to, Scalar::Text)?;
    let copy = text.try_clone(alloc)?;
    position.put(to, Value::Text(copy));
    Ok(())
}

/// Executes CAT at a position of the reference machine.
pub(crate) fn concatenate(
    alloc: Global,
    position: &mut Position,
    to: u8,
    left: u8,
    right: u8,
    skip: u16,
) -> Result<(), Failure>
    requires { position.old.place < 2 ^ 63 }
    ensures { Leaves (local_instr (CAT to left right skip) position.old) position.old result position.new }
{
    must_have_type(position, to, Scalar::Text)?;
    let joined = joined(alloc, text_at(position, left)?, text_at(position, right)?)?;
    match joined {
        Some(text) => position.put(to, Value::Text(text)),
        None => position.skip(skip),
    }
    Ok(())
}

/// Executes LEN at a position of the reference machine.
pub(crate) fn length(position: &mut Position, to: u8, from: u8) -> Result<(), Cause>
    requires { position.old.place < 2 ^ 63 }
    ensures { Leaves (local_instr (LEN to from) position.old) position.old (failing result) position.new }
{
    must_have_type(position, to, Scalar::Int)?;
    let length = text_at(position, from)?.as_str().len() as i64;
    position.put(to, Value::Int(length));
    Ok(())
}

/// Executes SHOW at a position of the reference machine.
pub(crate) fn show(alloc: Global, position: &mut Position, to: u8, from: u8) -> Result<(), Failure>
    requires { position.old.place < 2 ^ 63 }
    ensures { Leaves (local_instr (SHOW to from) position.old) position.old result position.new }
{
    must_have_type(position, to, Scalar::Text)?;
    let number = int_at(position, from)?;
    let text = shown(alloc, number)?;
    position.put(to, Value::Text(text));
    Ok(())
}

/// Executes READI at a position of the reference machine.
pub(crate) fn read_int(
    alloc: Global,
    position: &mut Position,
    to: u8,
    from: u8,
    skip: u16,
) -> Result<(), Failure>
    requires { position.old.place < 2 ^ 63 }
    ensures { Leaves (local_instr (READI to from skip) position.old) position.old result position.new }
{
    must_have_type(position, to, Scalar::Int)?;
    let number = int_shown_as(alloc, text_at(position, from)?)?;
    match number {
        Some(number) => position.put(to, Value::Int(number)),
        None => position.skip(skip),
    }
    Ok(())
}

/// Executes BYTE at a position of the reference machine.
pub(crate) fn byte_at(
    position: &mut Position,
    to: u8,
    from: u8,
    place: u8,
    skip: u16,
) -> Result<(), Cause>
    requires { position.old.place < 2 ^ 63 }
    ensures { Leaves (local_instr (BYTE to from place skip) position.old) position.old (failing result) position.new }
{
    must_have_type(position, to, Scalar::Int)?;
    let text = text_at(position, from)?;
    let place = int_at(position, place)?;
    match byte_of(text.as_str().as_bytes(), place) {
        Some(byte) => position.put(to, Value::Int(byte)),
        None => position.skip(skip),
    }
    Ok(())
}

/// Executes SLICE at a position of the reference machine.
pub(crate) fn slice(
    alloc: Global,
    position: &mut Position,
    to: u8,
    from: u8,
    start: u8,
    end: u8,
    skip: u16,
) -> Result<(), Failure>
    requires { position.old.place < 2 ^ 63 }
    ensures { Leaves (local_instr (SLICE to from start end skip) position.old) position.old result position.new }
{
    must_have_type(position, to, Scalar::Text)?;
    let text = text_at(position, from)?;
    let start = int_at(position, start)?;
    let end = int_at(position, end)?;
    let part = part(alloc, text.as_str(), start, end)?;
    match part {
        Some(text) => position.put(to, Value::Text(text)),
        None => position.skip(skip),
    }
    Ok(())
}

/// Executes FIND, SPAN or UNTIL at a position of the reference machine.
pub(crate) fn seek(
    position: &mut Position,
    sought: Sought,
    to: u8,
    text: u8,
    pattern: u8,
    start: u8,
    skip: u16,
) -> Result<(), Cause>
    requires { position.old.place < 2 ^ 63 }
    ensures { Leaves (local_instr (SEEK sought to text pattern start skip) position.old) position.old (failing result) position.new }
{
    must_have_type(position, to, Scalar::Int)?;
    let text = text_at(position, text)?;
    let pattern = text_at(position, pattern)?;
    let start = int_at(position, start)?;
    match found(
        sought,
        text.as_str().as_bytes(),
        pattern.as_str().as_bytes(),
        start,
    ) {
        Some(place) => position.put(to, Value::Int(place)),
        None => position.skip(skip),
    }
    Ok(())
}

/// Executes JTLT at a position of the reference machine.
pub(crate) fn jump_text_less(
    position: &mut Position,
    left: u8,
    right: u8,
    skip: u16,
) -> Result<(), Cause>
    requires { position.old.place < 2 ^ 63 }
    ensures { Leaves (local_instr (JTLT left right skip) position.old) position.old (failing result) position.new }
{
    let left = text_at(position, left)?.as_str();
    let less = is_before(left, text_at(position, right)?.as_str());
    skip_if(position, less, skip);
    Ok(())
}
