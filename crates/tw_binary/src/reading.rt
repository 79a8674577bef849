//! Decodes procedures and whole programs.

ghost use Rattle.std.specs.Prelude.{◌≡◌, IfOk, IfErr, Ok};
ghost use Rattle.tw_binary.specs.Fault.{IsFirstFault};
ghost use Rattle.tw_code.specs.format.Program.{IsVersioned, Versioned};
ghost use Rattle.tw_binary.specs.Reading.{Gives, procedure_at, header_at, counted, byte_at, whole, program_of, Answers};
ghost use Rattle.tw_binary.specs.Spelling.{encoding};

use crate::fault::{Fault, FaultNo, Stop};
use crate::items::*;
use crate::many::many;
use crate::parts::*;
use std::alloc::Global;
use tw_code::{Procedure, Program, Version};

/// Decodes a procedure: its kind, parameters, registers and code.
#[tactic(auto, unfolding(crate::specs::Reading::procedure_at))]
fn procedure_of(alloc: Global, version: Version, bytes: &[u8]) -> Result<(Procedure, &[u8]), Stop>
    ensures { Gives (λ x. (x.0, x.1.now)) result (procedure_at version bytes.now) }
{
    let (kind, rest) = kind_of(bytes)?;
    let (params, rest) = match params_of(alloc, version, rest) {
        Ok(read) => read,
        Err(e) => return Err(e),
    };
    let (registers, rest) = registers_of(alloc, rest)?;
    let (code, rest) = code_of(alloc, version, rest)?;
    Ok((
        Procedure {
            kind,
            params,
            registers,
            code,
        },
        rest,
    ))
}

/// Decodes a count from 1 to 64, and this many procedures.
fn procedures_of(
    alloc: Global,
    version: Version,
    bytes: &[u8],
) -> Result<(Vec<Procedure>, &[u8]), Stop>
    ensures { Gives (λ x. (x.0.items, x.1.now)) result (counted (byte_at 1 64) (procedure_at version) bytes.now) }
{
    let (count, rest) = byte_of(1, Program::MAX_PROCEDURES, bytes)?;
    many(
        alloc,
        u16::from(count),
        rest,
        |bytes| procedure_of(alloc, version, bytes),
    )
}

/// Decodes the magic bytes and the version.
#[tactic(auto, unfolding(crate::specs::Reading::header_at))]
fn header_of(bytes: &[u8]) -> Result<(Version, &[u8]), Stop>
    ensures { Gives (λ x. (x.0, x.1.now)) result (header_at bytes.now) }
{
    let (_, rest) = exactly(0x54, FaultNo::Magic, bytes)?;
    let (_, rest) = exactly(0x57, FaultNo::Magic, rest)?;
    let (_, rest) = exactly(0x42, FaultNo::Magic, rest)?;
    version_of(rest)
}

/// Decodes a program, after which no byte may follow.
#[tactic(auto, unfolding(crate::specs::Reading::whole))]
fn whole_of(alloc: Global, bytes: &[u8]) -> Result<(Version, Vec<Procedure>), Stop>
    ensures { Gives (λ x. record { version = x.0; procedures = x.1.items }) result (whole bytes.now) }
{
    let (version, rest) = header_of(bytes)?;
    match procedures_of(alloc, version, rest) {
        Ok((procedures, rest)) => {
            if rest.is_empty() {
                Ok((version, procedures))
            } else {
                Err(Stop::wrong(FaultNo::Trailing, rest))
            }
        }
        Err(e) => Err(e),
    }
}

/// Decodes a program from all of the bytes. Returns the first fault from the left if they encode none, or if an allocation fails.
pub fn decode(alloc: Global, bytes: &[u8]) -> Result<Program, Fault>
    // A program that is returned has these bytes as its encoding.
    ensures found { IfOk result (λ p. IsVersioned p × (bytes.now ≡ encoding p)) }
    // A program with this encoding is returned, unless an allocation fails.
    ensures only { (p : Versioned)
        → IsVersioned p → bytes.now ≡ encoding p → Answers result (Ok p) }
    // An error is the first fault, defined by the encodings of programs alone: the item that is due
    // is wrong or cut off, or bytes follow a whole program.
    ensures first { IfErr result (λ f. IsFirstFault f.no bytes.now f.offset) }
    // It is the program or the fault that parsing from left to right returns.
    ensures exact { Answers result (program_of bytes.now) }
{
    match whole_of(alloc, bytes) {
        Ok((version, procedures)) => Ok(Program::new(version, procedures)),
        Err(Stop::NoMemory) => Err(Fault {
            no: FaultNo::NoMemory,
            offset: 0,
        }),
        Err(Stop::At(broken)) => Err(Fault {
            no: broken.no,
            offset: bytes.len().saturating_sub(broken.left),
        }),
    }
}
