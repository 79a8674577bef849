//! Diagnostics of a program that the verifier rejects.

ghost use Rattle.std.specs.Prelude.{◌<◌, length};
ghost use Rattle.tw_code.specs.format.Program.{IsProcedure};

use crate::loops::{put_changed, put_goal};
use crate::meeting::put_meeting;
use crate::place::Place;
use crate::requirement::{put_held, put_required};
use crate::since::last_held;
use std::alloc::{AllocError, Global};
use tw_asm::LineNumbers;
use tw_code::{Flow, Instr, Procedure};
use tw_verify::{Held, Refused, Unmet, VerifyError};
use tw_writer::{Piece, Writer};

/// Adds what a register holds, since when if it is an empty right register, and what is required of it.
fn put_unmet(out: &mut Writer, at: &Place<'_>, unmet: &Unmet)
    requires { IsProcedure at.now.procedure.now }
{
    put_held(out, unmet.register, unmet.held);
    if matches!(unmet.held, Held::Right(None)) && unmet.register < 16 {
        if let Some(place) = last_held(at, unmet.register) {
            out.put(" after ");
            at.put_other(out, place);
        }
    }
    put_required(out, unmet)
}

/// Returns how many instructions an instruction may skip, or 0.
fn skip_of(flow: Flow) -> usize {
    match flow {
        Flow::Branch(skip) | Flow::Jump(skip) => usize::from(skip),
        Flow::Straight | Flow::Begin(_) | Flow::Close | Flow::Stop => 0,
    }
}

/// Returns what an END or a REPEAT lacks: its REPEAT, or its END within four loops.
fn unmatched_text(flow: Flow) -> &'static str {
    match flow {
        Flow::Close => "it has no REPEAT\n",
        _ => "it has no END, or is in four loops already\n",
    }
}

/// Returns why RET may not be here, or that the last instruction must be RET.
fn misplaced_text(flow: Flow) -> &'static str {
    match flow {
        Flow::Stop => "it is in a loop\n",
        _ => "the last instruction must be RET\n",
    }
}

/// Returns the procedure that an instruction names, and how many arguments it passes.
fn named_by(instr: &Instr) -> (usize, usize) {
    match instr {
        Instr::Rule(action) | Instr::Put(action) => {
            (usize::from(action.procedure), action.args.as_slice().len())
        }
        Instr::Local(_) | Instr::Data(_) | Instr::Ret => (0, 0),
    }
}

/// Adds which unknown procedure is called, and which is the last.
fn put_unknown(out: &mut Writer, at: &Place<'_>) {
    out.put_all(&[
        Piece::Text("procedure "),
        Piece::Number(named_by(at.instr).0),
        Piece::Text(" doesn't exist, the last one is "),
        Piece::Number(at.procedures.len().saturating_sub(1)),
        Piece::Text("\n"),
    ])
}

/// Adds how many arguments are passed, and how many parameters there are.
fn put_count(out: &mut Writer, at: &Place<'_>) {
    let (procedure, args) = named_by(at.instr);
    let params = match at.procedures.get(procedure) {
        Some(callee) => callee.params.as_slice().len(),
        None => 0,
    };
    out.put_all(&[
        Piece::Number(args),
        Piece::Text(if args == 1 { " argument" } else { " arguments" }),
        Piece::Text(", required: "),
        Piece::Number(params),
        Piece::Text("\n"),
    ])
}

/// Adds the diagnostic of the verifier's error at a place; each row is an error.
fn put_at(out: &mut Writer, at: &Place<'_>, no: VerifyError)
    requires { IsProcedure at.now.procedure.now }
{
    let flow = at.instr.flow();
    match no {
        VerifyError::UndeclaredValue(unmet)
        | VerifyError::WrongValueType(unmet)
        | VerifyError::RightNotEmpty(unmet)
        | VerifyError::WrongRight(unmet)
        | VerifyError::RightLeft(unmet)
        | VerifyError::ScalarWrite(unmet) => put_unmet(out, at, &unmet),
        VerifyError::SkipLeavesBlock => put_goal(out, at, skip_of(flow)),
        VerifyError::Unmatched => out.put(unmatched_text(flow)),
        VerifyError::TypingsDiffer => put_meeting(out, at),
        VerifyError::TypingChanged => put_changed(out, at),
        VerifyError::Unreached => out.put("no path leads here\n"),
        VerifyError::MisplacedRet => out.put(misplaced_text(flow)),
        VerifyError::UnknownProcedure => put_unknown(out, at),
        VerifyError::ArgumentCount => put_count(out, at),
        VerifyError::ActionInLeaf => out.put("the procedure is a leaf, required: control\n"),
        VerifyError::BudgetTooLarge => {
            out.put("some walk is longer than 1000000000 instructions\n")
        }
        VerifyError::MainShape | VerifyError::NoMemory => {}
    }
}

/// Adds what is wrong in a procedure, with the typings that were found.
fn put_in(
    alloc: Global,
    out: &mut Writer,
    lines: &LineNumbers,
    written: &[usize],
    refused: &Refused,
    procedure: &Procedure,
) -> Result<(), AllocError>
    requires within { refused.now.procedure < length refused.now.program.procedures }
    requires is { IsProcedure procedure.now }
{
    if let Some(instr) = procedure.code.as_slice().get(refused.place) {
        let typings = refused.typings(alloc, refused.procedure)?;
        let at = Place {
            lines,
            written,
            procedures: refused.program.procedures(),
            number: refused.procedure,
            procedure,
            place: refused.place,
            instr,
            typings: typings.as_slice(),
        };
        put_at(out, &at, refused.no);
    }
    Ok(())
}

/// Returns what is wrong at the place of an error, to be printed after the line of the instruction there. Lines are those of the text from which the
/// program was assembled; if that is an expanded one, each has a number in `written`.
pub fn rejection_text(
    alloc: Global,
    lines: &LineNumbers,
    written: &[usize],
    refused: &Refused,
) -> Result<Vec<u8>, AllocError> {
    let mut out = Writer::new(alloc);
    if let Some(procedure) = refused.program.procedures().get(refused.procedure) {
        put_in(alloc, &mut out, lines, written, refused, procedure)?;
    }
    out.finish()
}
