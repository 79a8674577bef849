//! The instruction table for readers: the instruction of an opcode and its operands.

ghost use Rattle.std.specs.Prelude.{◌≡◌};
ghost use Rattle.tw_code.specs.format.Operands.{ArePlain, made_of, none, plain, with_operand};
ghost use Rattle.tw_code.specs.format.Table.{forms_of};

use crate::instr::{Arithmetic, DataInstr, Instr, LocalInstr, Sought};
use crate::opcode::Opcode;
use tw_types::{DataType, Scalar};

/// An operand of an instruction without text and arguments, by its form.
#[derive(Clone, Copy)]
pub enum PlainOperand {
    Value(u8),
    Right(u8),
    Number(i64),
    Iterations(u16),
    Skip(u16),
    TypeOf(DataType),
}

/// The operands of an instruction without text and arguments, by their forms. Those that it hasn't are as in `none`.
#[derive(Clone, Copy)]
pub struct Operands {
    /// The first register.
    pub first: u8,
    pub second: u8,
    pub third: u8,
    pub fourth: u8,
    pub number: i64,
    pub iterations: u16,
    pub skip: u16,
    pub ty: DataType,
}

impl Operands {
    /// Returns those of an instruction that has no operands.
    pub fn none() -> Operands
        ensures { result ≡ none }
    {
        Operands {
            first: 0,
            second: 0,
            third: 0,
            fourth: 0,
            number: 0,
            iterations: 0,
            skip: 0,
            ty: DataType::from(Scalar::Int),
        }
    }

    /// Returns these with one more before them.
    pub fn after(self, operand: PlainOperand) -> Operands
        ensures { result ≡ with_operand (plain operand) self }
    {
        match operand {
            PlainOperand::Value(first) | PlainOperand::Right(first) => Operands {
                first,
                second: self.first,
                third: self.second,
                fourth: self.third,
                ..self
            },
            PlainOperand::Number(number) => Operands { number, ..self },
            PlainOperand::Iterations(iterations) => Operands { iterations, ..self },
            PlainOperand::Skip(skip) => Operands { skip, ..self },
            PlainOperand::TypeOf(ty) => Operands { ty, ..self },
        }
    }
}

/// Makes the instruction of an opcode and its operands: the inverse of what `put_instr` writes, in one row each.
#[rattlefmt::skip]
pub fn make(opcode: Opcode, operands: Operands) -> Instr
    requires { ArePlain (forms_of opcode) }
    ensures { result ≡ made_of opcode operands }
{
    let Operands { first, second, third, fourth, number, iterations, skip, ty } = operands;
    match opcode {
        Opcode::Int => Instr::Local(LocalInstr::Int { to: first, value: number }),
        Opcode::Copy => Instr::Local(LocalInstr::Copy { to: first, from: second }),
        Opcode::Add => Instr::Local(LocalInstr::Compute { operation: Arithmetic::Add, to: first, left: second, right: third, skip }),
        Opcode::Subtract => Instr::Local(LocalInstr::Compute { operation: Arithmetic::Subtract, to: first, left: second, right: third, skip }),
        Opcode::Multiply => Instr::Local(LocalInstr::Compute { operation: Arithmetic::Multiply, to: first, left: second, right: third, skip }),
        Opcode::Divide => Instr::Local(LocalInstr::Compute { operation: Arithmetic::Divide, to: first, left: second, right: third, skip }),
        Opcode::Remainder => Instr::Local(LocalInstr::Compute { operation: Arithmetic::Remainder, to: first, left: second, right: third, skip }),
        Opcode::Concatenate => Instr::Local(LocalInstr::Concatenate { to: first, left: second, right: third, skip }),
        Opcode::Length => Instr::Local(LocalInstr::Length { to: first, from: second }),
        Opcode::Show => Instr::Local(LocalInstr::Show { to: first, from: second }),
        Opcode::ReadInt => Instr::Local(LocalInstr::ReadInt { to: first, from: second, skip }),
        Opcode::Jump => Instr::Local(LocalInstr::Jump { skip }),
        Opcode::JumpEqual => Instr::Local(LocalInstr::JumpEqual { left: first, right: second, skip }),
        Opcode::JumpLess => Instr::Local(LocalInstr::JumpLess { left: first, right: second, skip }),
        Opcode::Repeat => Instr::Local(LocalInstr::Repeat { iterations }),
        Opcode::End => Instr::Local(LocalInstr::End),
        Opcode::Last => Instr::Local(LocalInstr::Last),
        Opcode::New => Instr::Data(DataInstr::New { write: first, read: second, ty }),
        Opcode::Store => Instr::Data(DataInstr::Store { datum: first, from: second }),
        Opcode::Get => Instr::Data(DataInstr::Get { to: first, datum: second }),
        Opcode::Insert => Instr::Data(DataInstr::Insert { by: Scalar::Int, container: first, subscript: second, member: third, skip }),
        Opcode::Look => Instr::Data(DataInstr::Look { by: Scalar::Int, member: first, container: second, subscript: third, skip }),
        Opcode::Size => Instr::Data(DataInstr::Size { to: first, container: second }),
        Opcode::SubscriptAt => Instr::Data(DataInstr::SubscriptAt { by: Scalar::Int, to: first, container: second, index: third, skip }),
        Opcode::CopyRead => Instr::Data(DataInstr::CopyRead { to: first, from: second }),
        Opcode::CopyWrite => Instr::Data(DataInstr::CopyWrite { to: first, from: second }),
        Opcode::DropRead => Instr::Data(DataInstr::DropRead { right: first }),
        Opcode::DropWrite => Instr::Data(DataInstr::DropWrite { right: first }),
        Opcode::Ret => Instr::Ret,
        Opcode::InsertByText => Instr::Data(DataInstr::Insert { by: Scalar::Text, container: first, subscript: second, member: third, skip }),
        Opcode::LookByText => Instr::Data(DataInstr::Look { by: Scalar::Text, member: first, container: second, subscript: third, skip }),
        Opcode::SubscriptAtByText => Instr::Data(DataInstr::SubscriptAt { by: Scalar::Text, to: first, container: second, index: third, skip }),
        Opcode::InsertValue => Instr::Data(DataInstr::InsertValue { map: first, subscript: second, from: third, skip }),
        Opcode::GetValue => Instr::Data(DataInstr::GetValue { to: first, map: second, subscript: third, skip }),
        Opcode::AddValue => Instr::Data(DataInstr::AddValue { map: first, subscript: second, from: third }),
        Opcode::ByteAt => Instr::Local(LocalInstr::ByteAt { to: first, from: second, place: third, skip }),
        Opcode::Slice => Instr::Local(LocalInstr::Slice { to: first, from: second, start: third, end: fourth, skip }),
        Opcode::Find => Instr::Local(LocalInstr::Seek { sought: Sought::Find, to: first, text: second, pattern: third, start: fourth, skip }),
        Opcode::Span => Instr::Local(LocalInstr::Seek { sought: Sought::Span, to: first, text: second, pattern: third, start: fourth, skip }),
        Opcode::Until => Instr::Local(LocalInstr::Seek { sought: Sought::Until, to: first, text: second, pattern: third, start: fourth, skip }),
        Opcode::MultiplyDivide => Instr::Local(LocalInstr::MultiplyDivide { to: first, left: second, right: third, divisor: fourth, skip }),
        Opcode::And => Instr::Local(LocalInstr::Compute { operation: Arithmetic::And, to: first, left: second, right: third, skip }),
        Opcode::Or => Instr::Local(LocalInstr::Compute { operation: Arithmetic::Or, to: first, left: second, right: third, skip }),
        Opcode::Xor => Instr::Local(LocalInstr::Compute { operation: Arithmetic::Xor, to: first, left: second, right: third, skip }),
        Opcode::ShiftLeft => Instr::Local(LocalInstr::Compute { operation: Arithmetic::ShiftLeft, to: first, left: second, right: third, skip }),
        Opcode::ShiftRight => Instr::Local(LocalInstr::Compute { operation: Arithmetic::ShiftRight, to: first, left: second, right: third, skip }),
        Opcode::WrappingMultiply => Instr::Local(LocalInstr::Compute { operation: Arithmetic::WrappingMultiply, to: first, left: second, right: third, skip }),
        Opcode::WrappingAdd => Instr::Local(LocalInstr::Compute { operation: Arithmetic::WrappingAdd, to: first, left: second, right: third, skip }),
        Opcode::JumpTextLess => Instr::Local(LocalInstr::JumpTextLess { left: first, right: second, skip }),
        _ => unreachable!(),
    }
}
