//! Decodes the parts of a procedure.

ghost use Rattle.tw_binary.specs.Reading.{Gives, param_at, instr_at, scalar_at, type_under, counted, byte_at, wide_at};

use crate::fault::Stop;
use crate::items::*;
use crate::many::many;
use crate::rows::instr_of;
use std::alloc::Global;
use tw_code::{Instr, Procedure, Version};
use tw_types::{DataType, Items, Mode, Param, Scalar};

/// Decodes the type of a parameter of this mode. Under `val` it is a scalar type.
fn type_under_mode(version: Version, mode: Mode, bytes: &[u8]) -> Result<(DataType, &[u8]), Stop>
    ensures { Gives (λ x. (x.0, x.1.now)) result (type_under version mode bytes.now) }
{
    match mode {
        Mode::Val => scalar_type_of(bytes),
        Mode::Closed | Mode::Ref | Mode::Write => type_of(version, DataType::MAX_DEPTH, bytes),
    }
}

/// Decodes a parameter: its mode and its type.
#[tactic(auto, unfolding(crate::specs::Reading::param_at))]
fn param_of(version: Version, bytes: &[u8]) -> Result<(Param, &[u8]), Stop>
    ensures { Gives (λ x. (x.0, x.1.now)) result (param_at version bytes.now) }
{
    let (mode, rest) = mode_of(bytes)?;
    match type_under_mode(version, mode, rest) {
        Ok((ty, rest)) => Ok((Param { mode, ty }, rest)),
        Err(e) => Err(e),
    }
}

/// Decodes a count of at most 8, and this many parameters.
pub fn params_of(
    alloc: Global,
    version: Version,
    bytes: &[u8],
) -> Result<(Items<Param>, &[u8]), Stop>
    ensures { Gives (λ x. (x.0, x.1.now)) result (counted (byte_at 0 8) (param_at version) bytes.now) }
{
    let (count, rest) = byte_of(0, Procedure::MAX_PARAMS, bytes)?;
    match many(
        alloc,
        u16::from(count),
        rest,
        |bytes| param_of(version, bytes),
    ) {
        Ok((params, rest)) => Ok((Items::from(params), rest)),
        Err(e) => Err(e),
    }
}

/// Decodes a count of at most 16, and the types of this many value registers.
pub fn registers_of(alloc: Global, bytes: &[u8]) -> Result<(Items<Scalar>, &[u8]), Stop>
    ensures { Gives (λ x. (x.0, x.1.now)) result (counted (byte_at 0 16) scalar_at bytes.now) }
{
    let (count, rest) = byte_of(0, Procedure::VALUE_REGISTERS, bytes)?;
    match many(alloc, u16::from(count), rest, scalar_of) {
        Ok((registers, rest)) => Ok((Items::from(registers), rest)),
        Err(e) => Err(e),
    }
}

/// Decodes a count from 1 to 4,096, and this many instructions.
pub fn code_of(alloc: Global, version: Version, bytes: &[u8]) -> Result<(Items<Instr>, &[u8]), Stop>
    ensures { Gives (λ x. (x.0, x.1.now)) result (counted (wide_at 1 4096) (instr_at version) bytes.now) }
{
    let (count, rest) = wide_of(1, Procedure::MAX_CODE, bytes)?;
    match many(alloc, count, rest, |bytes| instr_of(alloc, version, bytes)) {
        Ok((code, rest)) => Ok((Items::from(code), rest)),
        Err(e) => Err(e),
    }
}
