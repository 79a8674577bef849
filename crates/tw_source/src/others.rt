//! Errors of the verifier in the procedures after a rejected one. That is replaced by one of the same parameters that is accepted.

ghost use Rattle.std.specs.Prelude.{◌≡◌, IfOk};
ghost use Rattle.tw_source.specs.Failure.{coded};
ghost use Rattle.tw_source.specs.declared.failure.Position.TheVariants as position;
ghost use Rattle.tw_verify.specs.Rejection.{verify_error_code};
ghost use Rattle.tw_visible.specs.Visible.{HidesNothing};

use crate::details::Details;
use crate::failure::{Failure, Position};
use crate::mended::LONGEST;
use crate::source::{SourceText, rejection_details, rejection_line};
use std::alloc::{AllocError, Global};
use tw_asm::{FaultNo, assemble, disassemble, put_param, put_type};
use tw_code::Program;
use tw_lexer::{put, put_numbered};
use tw_types::Param;
use tw_verify::{Refused, VerifyError, verify};

/// Returns the error of the verifier, at this line of its text.
pub fn rejection_failure(refused: &Refused, line: Option<usize>) -> Failure
    ensures { result ≡ coded 86 (verify_error_code refused.now.no) (position.Place refused.now.procedure refused.now.place line) }
{
    let position = Position::Place {
        procedure: refused.procedure,
        place: refused.place,
        line,
    };
    Failure::coded(b'V', refused.no.number(), position)
}

/// Adds the registers in which these parameters are.
fn put_arguments(out: &mut Vec<u8>, params: &[Param]) -> Result<(), AllocError> {
    let mut values = 0usize;
    let mut rights = 0usize;
    for param in params {
        if param.mode.is_val() {
            put_numbered(out, " ", values)?;
            values = values.saturating_add(1);
        } else {
            put_numbered(out, " ", rights)?;
            rights = rights.saturating_add(1);
        }
    }
    Ok(())
}

/// Adds the lines of a procedure that hands its parameters on to itself, which the verifier accepts.
fn put_accepted(out: &mut Vec<u8>, number: usize, params: &[Param]) -> Result<(), AllocError> {
    put(out, "proc control")?;
    for param in params {
        put_param(out, *param)?;
    }
    put(out, "\nregs")?;
    for param in params {
        if param.mode.is_val() {
            put_type(out, param.ty)?;
        }
    }
    put_numbered(out, "\nPUT ", number)?;
    put(out, " 0 any")?;
    put_arguments(out, params)?;
    put(out, "\nRET\n")
}

/// Returns the parameters of the rejected procedure; none if main's shape is wrong.
fn kept_params(refused: &Refused) -> &[Param] {
    match refused.program.procedures().get(refused.procedure) {
        Some(procedure) if !matches!(refused.no, VerifyError::MainShape) => {
            procedure.params.as_slice()
        }
        _ => &[],
    }
}

/// Returns the text of a program with another procedure in place of the rejected one.
fn text_without(alloc: Global, text: &str, refused: &Refused) -> Result<String, AllocError> {
    let mut out = Vec::new(alloc);
    let mut heads = 0usize;
    for line in text.lines() {
        if line.starts_with("proc ") || line == "proc" {
            heads = heads.saturating_add(1);
            if heads == refused.procedure.saturating_add(1) {
                put_accepted(&mut out, refused.procedure, kept_params(refused))?;
            }
        }
        if heads != refused.procedure.saturating_add(1) {
            put(&mut out, line)?;
            put(&mut out, "\n")?;
        }
    }
    String::from_utf8_lossy(alloc, &out)
}

/// Returns the program with another procedure in place of the rejected one.
fn program_without(alloc: Global, refused: &Refused) -> Result<Option<Program>, AllocError> {
    let Ok(text) = disassemble(alloc, &refused.program) else {
        return Err(AllocError);
    };
    let text = text_without(alloc, text.as_str(), refused)?;
    match assemble(alloc, text.as_str()) {
        Ok(program) => Ok(Some(program)),
        Err(fault) => match fault.no {
            FaultNo::NoMemory => Err(AllocError),
            _ => Ok(None),
        },
    }
}

/// Returns why a program is rejected, unless it is accepted.
pub(crate) fn rejection_of(alloc: Global, program: Program) -> Result<Option<Refused>, AllocError> {
    match verify(alloc, program) {
        Ok(_) => Ok(None),
        Err(refused) => match refused.no {
            VerifyError::NoMemory => Err(AllocError),
            _ => Ok(Some(refused)),
        },
    }
}

/// Returns the next rejection, in a later procedure.
fn rejection_after(alloc: Global, refused: &Refused) -> Result<Option<Refused>, AllocError> {
    let Some(program) = program_without(alloc, refused)? else {
        return Ok(None);
    };
    match rejection_of(alloc, program)? {
        Some(next) if refused.procedure < next.procedure => Ok(Some(next)),
        _ => Ok(None),
    }
}

/// Adds the error of a rejected procedure, unless the procedure is one of these.
pub(crate) fn put_rejection(
    alloc: Global,
    details: &mut Details,
    source: &Option<SourceText<'_>>,
    changed: &[usize],
    refused: &Refused,
) -> Result<(), AllocError> {
    if changed.contains(&refused.procedure) {
        return Ok(());
    }
    let line = rejection_line(alloc, source, refused)?;
    let lines = rejection_details(alloc, source, refused, line)?;
    details.add(alloc, rejection_failure(refused, line), &lines)
}

/// Adds the errors of the procedures after the rejected one, apart from these.
pub(crate) fn put_others(
    alloc: Global,
    details: &mut Details,
    source: &Option<SourceText<'_>>,
    changed: &[usize],
    first: &Refused,
) -> Result<(), AllocError> {
    let mut next = rejection_after(alloc, first)?;
    for _ in 0..Program::MAX_PROCEDURES {
        let Some(refused) = next else {
            return Ok(());
        };
        put_rejection(alloc, details, source, changed, &refused)?;
        if details.is_full() {
            return Ok(());
        }
        next = rejection_after(alloc, &refused)?;
    }
    Ok(())
}

/// Returns the lines after the first of the verifier's error, and those of later procedures if the program was read from a text.
pub fn rejection_errors(
    alloc: Global,
    source: &Option<SourceText<'_>>,
    refused: &Refused,
    line: Option<usize>,
) -> Result<Details, AllocError>
    ensures { IfOk result (λ details. HidesNothing details.lines.items) }
{
    let lines = rejection_details(alloc, source, refused, line)?;
    let mut details = Details::new(alloc, lines);
    if let Some(text) = source {
        if text.text.len() <= LONGEST {
            put_others(alloc, &mut details, source, &[], refused)?;
        }
    }
    details.visible(alloc)
}
