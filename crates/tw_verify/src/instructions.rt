//! The checks of each instruction, on a typing and on the declared value registers.

ghost use Rattle.std.specs.Prelude.{◌≡◌, true, slice_get};
ghost use Rattle.std.specs.Option.{option_map, option_map_or};
ghost use Rattle.tw_types.specs.DataType.{same_scalar};
ghost use Rattle.tw_code.specs.format.Program.{IsInstr};
ghost use Rattle.tw_code.specs.accepting.Question.{rejection_in};
ghost use Rattle.tw_code.specs.accepting.Typing.{requires_local, requires_by_instr, requires_params, requires_at};
ghost use Rattle.tw_verify.specs.Rejection.{verify_error_code};

use crate::arguments::action_rejection;
use crate::on_data::data_rejection;
use crate::questions::{
    alike_rejection, both_rejection, byte_rejection, first_rejection, lowest, part_rejection,
    search_rejection, value_rejection, values_rejection,
};
use crate::rejection::{Unmet, VerifyError};
use crate::typing::Typing;
use tw_code::{Instr, LocalInstr, Procedure};
use tw_types::Scalar;

/// Checks the registers of MULDIV: four integers.
fn scaling_rejection(
    registers: &[Scalar],
    to: u8,
    left: u8,
    right: u8,
    divisor: u8,
) -> Option<VerifyError>
    ensures { option_map verify_error_code result
        ≡ rejection_in (requires_local registers.now (LocalInstr.MultiplyDivide to left right divisor 0)) }
{
    let others = values_rejection(registers, left, right, divisor, Scalar::Int);
    first_rejection(registers, to, Scalar::Int, others)
}

/// Checks a local instruction, with one line for each.
fn local_rejection(registers: &[Scalar], instr: &LocalInstr) -> Option<VerifyError>
    ensures { option_map verify_error_code result ≡ rejection_in (requires_local registers.now instr.now) }
{
    match instr {
        LocalInstr::Int { to, .. } => value_rejection(registers, *to, Scalar::Int),
        LocalInstr::Text { to, .. } => value_rejection(registers, *to, Scalar::Text),
        LocalInstr::Copy { to, from } => alike_rejection(registers, *to, *from),
        LocalInstr::Compute {
            to,
            left,
            right,
            ..
        } => values_rejection(registers, *to, *left, *right, Scalar::Int),
        LocalInstr::MultiplyDivide {
            to,
            left,
            right,
            divisor,
            ..
        } => scaling_rejection(registers, *to, *left, *right, *divisor),
        LocalInstr::Concatenate {
            to,
            left,
            right,
            ..
        } => values_rejection(registers, *to, *left, *right, Scalar::Text),
        LocalInstr::Length { to, from } | LocalInstr::ReadInt { to, from, .. } => both_rejection(
            registers,
            *to,
            Scalar::Int,
            *from,
            Scalar::Text,
        ),
        LocalInstr::Show { to, from } => both_rejection(
            registers,
            *to,
            Scalar::Text,
            *from,
            Scalar::Int,
        ),
        LocalInstr::ByteAt {
            to,
            from,
            place,
            ..
        } => byte_rejection(registers, *to, *from, *place),
        LocalInstr::Slice {
            to,
            from,
            start,
            end,
            ..
        } => part_rejection(registers, *to, *from, *start, *end),
        LocalInstr::Seek {
            to,
            text,
            pattern,
            start,
            ..
        } => search_rejection(registers, *to, *text, *pattern, *start),
        LocalInstr::JumpEqual { left, right, .. } => alike_rejection(registers, *left, *right),
        LocalInstr::JumpLess { left, right, .. } => both_rejection(
            registers,
            *left,
            Scalar::Int,
            *right,
            Scalar::Int,
        ),
        LocalInstr::JumpTextLess { left, right, .. } => both_rejection(
            registers,
            *left,
            Scalar::Text,
            *right,
            Scalar::Text,
        ),
        LocalInstr::Jump { .. } | LocalInstr::Repeat { .. } | LocalInstr::End | LocalInstr::Last =>
            { None }
    }
}

/// Checks an instruction at a typing. Returns the lowest error.
fn instr_rejection(
    procedures: &[Procedure],
    procedure: &Procedure,
    instr: &Instr,
    typing: &Typing,
) -> Option<VerifyError>
    requires { IsInstr instr.now }
    ensures { option_map verify_error_code result
        ≡ rejection_in (requires_by_instr procedures.now procedure.now instr.now typing.now) }
{
    let registers = procedure.registers.as_slice();
    match instr {
        Instr::Local(instr) => local_rejection(registers, instr),
        Instr::Data(instr) => data_rejection(registers, *instr, typing),
        Instr::Rule(action) => action_rejection(true, procedures, procedure, action, typing),
        Instr::Put(action) => action_rejection(false, procedures, procedure, action, typing),
        Instr::Ret => {
            let unmet = Unmet::filled(typing, typing.first_filled());
            (!typing.is_empty()).then_some(VerifyError::RightLeft(unmet))
        }
    }
}

/// Returns whether the register of a value parameter is of its type, or isn't declared.
fn is_open_or_of(registers: &[Scalar], register: usize, ty: Scalar) -> bool
    ensures { result ≡ option_map_or (λ declared. same_scalar declared ty)
        (slice_get registers.now register) true }
{
    match registers.get(register) {
        None => true,
        Some(declared) => *declared == ty,
    }
}

/// Checks that the value parameters have registers, of their types.
fn params_rejection(procedure: &Procedure) -> Option<VerifyError>
    ensures { option_map verify_error_code result ≡ rejection_in (requires_params procedure.now) }
{
    let registers = procedure.registers.as_slice();
    let mut given = 0;
    let mut fits = true;
    for param in procedure.params.as_slice() {
        if param.mode.is_val() {
            fits &= is_open_or_of(registers, given, param.ty.scalar());
            given += 1;
        }
    }
    if given > registers.len() {
        Some(VerifyError::UndeclaredValue(Unmet::param(procedure, true)))
    } else {
        (!fits).then_some(VerifyError::WrongValueType(Unmet::param(procedure, false)))
    }
}

/// Checks an instruction at a place and its typing, and at place 0 also the registers of the parameters. Returns the lowest error.
pub fn place_rejection(
    procedures: &[Procedure],
    procedure: &Procedure,
    place: usize,
    instr: &Instr,
    typing: &Typing,
) -> Option<VerifyError>
    requires { IsInstr instr.now }
    ensures { option_map verify_error_code result
        ≡ rejection_in (requires_at procedures.now procedure.now place instr.now typing.now) }
{
    let own = instr_rejection(procedures, procedure, instr, typing);
    if place == 0 {
        lowest(params_rejection(procedure), own)
    } else {
        own
    }
}
