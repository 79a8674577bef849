//! Encodes programs.

ghost use Rattle.std.specs.Prelude.{◌≡◌, ◌++◌, ◌∷◌, ◌≤◌, if◌then◌else◌, length, map, OnOk, IfOk};
ghost use Rattle.std.specs.List.{concat, flat_map};
ghost use Rattle.tw_code.specs.format.Program.{IsInstr, IsList, IsOperand, IsProcedure, IsTarget};
ghost use Rattle.tw_code.specs.format.Sink.{AreOperands, seen};
ghost use Rattle.tw_code.specs.format.Table.{code_of};
ghost use Rattle.tw_binary.specs.Spelling.{kind_code, mode_code, scalar_code, container_code, leaf_items, map_code, target_code, byte, wide, text_items, type_items, param_items, scalar_items, register_items, operand_items, instr_items, counted_items, procedure_items, encoding};
ghost use Rattle.tw_types.specs.DataType.{has_sums, is_container_by};
ghost use Rattle.tw_types.specs.declared.data_type.Scalar.TheVariants.{Int, Text};

use std::alloc::{AllocError, Global};
use tw_code::{Instr, NoMemory, Opcode, Operand, Procedure, Program, Sink, Version, put_instr};
use tw_types::{DataType, Kind, Mode, Param, Scalar};

/// Returns the byte of a kind of procedures.
fn code_of_kind(kind: Kind) -> u8
    ensures { result ≡ kind_code kind }
{
    match kind {
        Kind::Control => 0,
        Kind::Leaf => 1,
    }
}

/// Returns the byte of a mode.
fn code_of_mode(mode: Mode) -> u8
    ensures { result ≡ mode_code mode }
{
    match mode {
        Mode::Val => 1,
        Mode::Closed => 2,
        Mode::Ref => 3,
        Mode::Write => 4,
    }
}

/// Returns the byte of a scalar type.
fn code_of_scalar(scalar: Scalar) -> u8
    ensures { result ≡ scalar_code scalar }
{
    match scalar {
        Scalar::Int => 1,
        Scalar::Text => 2,
    }
}

/// Returns the byte with which a container's encoding begins.
fn code_of_container(ty: DataType) -> u8
    ensures { result ≡ (if is_container_by Text ty then container_code Text else container_code Int) }
{
    if ty.is_container_by(Scalar::Text) {
        4
    } else {
        3
    }
}

/// Encodes a target: 0 for any actor, else one more than its number.
fn code_of_target(target: Option<u8>) -> u8
    requires { IsTarget target }
    ensures { result ≡ target_code target }
{
    match target {
        Some(number) => number + 1,
        None => 0,
    }
}

/// Encodes a type: its containers from the outermost on, then its leaf.
fn put_type(out: &mut Vec<u8>, ty: DataType) -> Result<(), AllocError>
    ensures { OnOk result (out.new.items ≡ out.old.items ++ concat (type_items ty)) }
{
    match ty.element() {
        Some(element) => {
            out.push(code_of_container(ty))?;
            put_type(out, element)
        }
        None => put_leaf(out, ty),
    }
}

/// Returns the byte with which a map's encoding begins.
fn code_of_map(by: Scalar) -> u8
    ensures { result ≡ map_code by }
{
    match by {
        Scalar::Int => 5,
        Scalar::Text => 6,
    }
}

/// Returns the byte of a map's values, or of its sums.
fn code_of_values(ty: DataType) -> u8
    ensures { result ≡ (if has_sums ty.map then 3 else scalar_code ty.scalar) }
{
    if ty.has_sums() {
        3
    } else {
        code_of_scalar(ty.scalar())
    }
}

/// Encodes a type without containers: a scalar, or a map.
fn put_leaf(out: &mut Vec<u8>, ty: DataType) -> Result<(), AllocError>
    ensures { OnOk result (out.new.items ≡ out.old.items ++ concat (leaf_items ty.map ty.scalar)) }
{
    match ty.map_by() {
        Some(by) => out.extend_from_slice(&[code_of_map(by), code_of_values(ty)]),
        None => out.extend_from_slice(&[code_of_scalar(ty.scalar())]),
    }
}

/// Encodes a parameter: its mode and its type.
fn put_param(out: &mut Vec<u8>, param: Param) -> Result<(), AllocError>
    ensures { OnOk result (out.new.items ≡ out.old.items ++ concat (param_items param)) }
{
    out.push(code_of_mode(param.mode))?;
    put_type(out, param.ty)
}

/// Encodes a text: its length and its bytes.
fn put_literal(out: &mut Vec<u8>, text: &str) -> Result<(), AllocError>
    requires { length text.now ≤ 4096 }
    ensures { OnOk result (out.new.items ≡ out.old.items ++ concat (text_items text.now)) }
{
    let bytes = text.as_bytes();
    out.extend_from_slice(&(bytes.len() as u16).to_be_bytes())?;
    out.extend_from_slice(bytes)
}

/// Encodes the arguments of a call: their count and their registers.
fn put_args(out: &mut Vec<u8>, args: &[u8]) -> Result<(), AllocError>
    requires { length args.now ≤ 8 }
    ensures { OnOk result (out.new.items
        ≡ out.old.items ++ concat (counted_items byte register_items args.now)) }
{
    out.push(args.len() as u8)?;
    out.extend_from_slice(args)?;
    Ok(())
}

/// Encodes an operand by its form.
fn put_operand(out: &mut Vec<u8>, operand: &Operand<'_>) -> Result<(), AllocError>
    requires { IsOperand (seen operand.now) }
    ensures { OnOk result (out.new.items
        ≡ out.old.items ++ concat (operand_items (seen operand.now))) }
{
    match operand {
        Operand::Value(byte) | Operand::Right(byte) | Operand::Callee(byte) => {
            out.extend_from_slice(&[*byte])
        }
        Operand::Number(number) => out.extend_from_slice(&number.to_be_bytes()),
        Operand::Iterations(number) | Operand::Skip(number) => {
            out.extend_from_slice(&number.to_be_bytes())
        }
        Operand::Literal(text) => put_literal(out, text),
        Operand::TypeOf(ty) => put_type(out, *ty),
        Operand::Target(target) => out.extend_from_slice(&[code_of_target(*target)]),
        Operand::Args(args) => put_args(out, args),
    }
}

/// Appends the opcode's code and the operands.
fn put_row(out: &mut Vec<u8>, opcode: Opcode, operands: &[Operand<'_>]) -> Result<(), AllocError>
    requires { AreOperands operands.now }
    ensures { OnOk result (out.new.items
        ≡ out.old.items ++ concat (byte (code_of opcode) ∷ flat_map operand_items (map seen operands.now))) }
{
    out.push(opcode.code())?;
    for operand in operands {
        put_operand(out, operand)?;
    }
    Ok(())
}

/// The encoding as it grows.
#[derive(Drop)]
struct Bytes {
    out: Vec<u8>,
}

impl Sink for Bytes {
    ghost use Rattle.std.specs.Prelude.{◌≡◌, ◌++◌, ◌∷◌};
    ghost use Rattle.std.specs.List.{concat, flat_map};
    ghost use Rattle.tw_binary.specs.Spelling.{byte, operand_items};
    ghost use Rattle.tw_code.specs.format.Table.{code_of};

    ghost puts = { λ s o operands t. t.out.items ≡ s.out.items ++ concat (byte (code_of o) ∷ flat_map operand_items operands) };

    /// Appends the bytes of an instruction.
    fn put(&mut self, opcode: Opcode, operands: &[Operand<'_>]) -> Result<(), AllocError> {
        put_row(&mut self.out, opcode, operands)
    }
}

/// Encodes parameters after their count.
fn put_params(out: &mut Vec<u8>, params: &[Param]) -> Result<(), AllocError>
    requires { length params.now ≤ 8 }
    ensures { OnOk result (out.new.items
        ≡ out.old.items ++ concat (counted_items byte param_items params.now)) }
{
    out.push(params.len() as u8)?;
    for param in params {
        put_param(out, *param)?;
    }
    Ok(())
}

/// Encodes the types of value registers after their count.
fn put_registers(out: &mut Vec<u8>, registers: &[Scalar]) -> Result<(), AllocError>
    requires { length registers.now ≤ 16 }
    ensures { OnOk result (out.new.items
        ≡ out.old.items ++ concat (counted_items byte scalar_items registers.now)) }
{
    out.push(registers.len() as u8)?;
    for register in registers {
        out.push(code_of_scalar(*register))?;
    }
    Ok(())
}

/// Encodes instructions after their count.
fn put_code(bytes: &mut Bytes, code: &[Instr]) -> Result<(), AllocError>
    requires { IsList 1 4096 IsInstr code.now }
    ensures { OnOk result (bytes.new.out.items
        ≡ bytes.old.out.items ++ concat (counted_items wide instr_items code.now)) }
{
    bytes
        .out
        .extend_from_slice(&(code.len() as u16).to_be_bytes())?;
    for instr in code {
        put_instr(bytes, instr)?;
    }
    Ok(())
}

/// Encodes a procedure: its kind, parameters, registers and code.
fn put_procedure(bytes: &mut Bytes, procedure: &Procedure) -> Result<(), AllocError>
    requires { IsProcedure procedure.now }
    ensures { OnOk result (bytes.new.out.items
        ≡ bytes.old.out.items ++ concat (procedure_items procedure.now)) }
{
    bytes.out.push(code_of_kind(procedure.kind))?;
    put_params(&mut bytes.out, procedure.params.as_slice())?;
    put_registers(&mut bytes.out, procedure.registers.as_slice())?;
    put_code(bytes, procedure.code.as_slice())?;
    Ok(())
}

/// Returns the encoding of a program. Fails only if an allocation fails.
pub fn encode(alloc: Global, program: &Program) -> Result<Vec<u8>, NoMemory>
    ensures { IfOk result (λ bytes. bytes.items ≡ encoding program.now) }
{
    let procedures = program.procedures();
    let mut bytes = Bytes {
        out: Vec::new(alloc),
    };
    let version = program.version().number();
    bytes
        .out
        .extend_from_slice(&[0x54, 0x57, 0x42, version, procedures.len() as u8])?;
    for procedure in procedures {
        put_procedure(&mut bytes, procedure)?;
    }
    Ok(bytes.out)
}
