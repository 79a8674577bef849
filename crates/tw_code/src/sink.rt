//! The instruction table for writers: the opcode and the operands of each instruction, passed to a sink.

ghost use Rattle.std.specs.Prelude.{◌≡◌, List, OnOk, map};
ghost use Rattle.tw_code.specs.declared.opcode.Opcode.{Opcode};
ghost use Rattle.tw_code.specs.declared.instr.Instr.TheVariants.{Local};
ghost use Rattle.tw_code.specs.format.Program.{IsAction, IsDataInstr, IsInstr};
ghost use Rattle.tw_code.specs.format.Sink.{AreOperands, seen};
ghost use Rattle.tw_code.specs.format.Table.{Operand, action_operands, data_row, local_row, opcode_by, opcode_of_operation, opcode_of_priority, opcode_of_search, priority_operand, row};

use crate::instr::{Action, Arithmetic, DataInstr, Instr, LocalInstr, Priority, Sought};
use crate::opcode::Opcode;
use std::alloc::AllocError;
use tw_types::{DataType, Scalar};

/// An operand of an instruction, by its form.
#[derive(Drop)]
pub enum Operand<'a> {
    /// A value register.
    Value(u8),
    /// A right register.
    Right(u8),
    Number(i64),
    Iterations(u16),
    Literal(&'a str),
    TypeOf(DataType),
    Skip(u16),
    /// The number of a procedure.
    Callee(u8),
    /// The number of an actor, or any.
    Target(Option<u8>),
    Args(&'a [u8]),
}

use Operand::{Args, Callee, Iterations, Literal, Number, Right, Skip, Target, TypeOf, Value};

/// A format, which appends instructions to its output.
pub trait Sink {
    ghost puts: { Self → Opcode → List Operand → Self → Type 0 };

    /// Appends an instruction with this opcode and these operands.
    fn put(&mut self, opcode: Opcode, operands: &[Operand<'_>]) -> Result<(), AllocError>
        requires { AreOperands operands.now }
        ensures { OnOk result (puts self.old opcode (map seen operands.now) self.new) };
}

/// Returns the opcode of an operation on integers.
fn opcode_of_operation(operation: Arithmetic) -> Opcode
    ensures { result ≡ opcode_of_operation operation }
{
    match operation {
        Arithmetic::Add => Opcode::Add,
        Arithmetic::Subtract => Opcode::Subtract,
        Arithmetic::Multiply => Opcode::Multiply,
        Arithmetic::Divide => Opcode::Divide,
        Arithmetic::Remainder => Opcode::Remainder,
        Arithmetic::And => Opcode::And,
        Arithmetic::Or => Opcode::Or,
        Arithmetic::Xor => Opcode::Xor,
        Arithmetic::ShiftLeft => Opcode::ShiftLeft,
        Arithmetic::ShiftRight => Opcode::ShiftRight,
        Arithmetic::WrappingMultiply => Opcode::WrappingMultiply,
        Arithmetic::WrappingAdd => Opcode::WrappingAdd,
    }
}

/// Returns the opcode of a search in a text.
fn opcode_of_search(sought: Sought) -> Opcode
    ensures { result ≡ opcode_of_search sought }
{
    match sought {
        Sought::Find => Opcode::Find,
        Sought::Span => Opcode::Span,
        Sought::Until => Opcode::Until,
    }
}

/// Puts a local instruction: its opcode and its operands, in one row each.
#[rattlefmt::skip]
fn put_local<S: Sink>(sink: &mut S, instr: &LocalInstr) -> Result<(), AllocError>
    requires { IsInstr (Local instr.now) }
    ensures { OnOk result (S.puts sink.old (local_row instr.now).0 (local_row instr.now).1 sink.new) }
{
    match instr {
        LocalInstr::Int { to, value } => sink.put(Opcode::Int, &[Value(*to), Number(*value)]),
        LocalInstr::Text { to, text } => sink.put(Opcode::Text, &[Value(*to), Literal(text.as_str())]),
        LocalInstr::Copy { to, from } => sink.put(Opcode::Copy, &[Value(*to), Value(*from)]),
        LocalInstr::Compute { operation, to, left, right, skip } => sink.put(opcode_of_operation(*operation), &[Value(*to), Value(*left), Value(*right), Skip(*skip)]),
        LocalInstr::Concatenate { to, left, right, skip } => sink.put(Opcode::Concatenate, &[Value(*to), Value(*left), Value(*right), Skip(*skip)]),
        LocalInstr::Length { to, from } => sink.put(Opcode::Length, &[Value(*to), Value(*from)]),
        LocalInstr::Show { to, from } => sink.put(Opcode::Show, &[Value(*to), Value(*from)]),
        LocalInstr::ReadInt { to, from, skip } => sink.put(Opcode::ReadInt, &[Value(*to), Value(*from), Skip(*skip)]),
        LocalInstr::Jump { skip } => sink.put(Opcode::Jump, &[Skip(*skip)]),
        LocalInstr::JumpEqual { left, right, skip } => sink.put(Opcode::JumpEqual, &[Value(*left), Value(*right), Skip(*skip)]),
        LocalInstr::JumpLess { left, right, skip } => sink.put(Opcode::JumpLess, &[Value(*left), Value(*right), Skip(*skip)]),
        LocalInstr::Repeat { iterations } => sink.put(Opcode::Repeat, &[Iterations(*iterations)]),
        LocalInstr::End => sink.put(Opcode::End, &[]),
        LocalInstr::Last => sink.put(Opcode::Last, &[]),
        LocalInstr::ByteAt { to, from, place, skip } => sink.put(Opcode::ByteAt, &[Value(*to), Value(*from), Value(*place), Skip(*skip)]),
        LocalInstr::Slice { to, from, start, end, skip } => sink.put(Opcode::Slice, &[Value(*to), Value(*from), Value(*start), Value(*end), Skip(*skip)]),
        LocalInstr::Seek { sought, to, text, pattern, start, skip } => sink.put(opcode_of_search(*sought), &[Value(*to), Value(*text), Value(*pattern), Value(*start), Skip(*skip)]),
        LocalInstr::MultiplyDivide { to, left, right, divisor, skip } => sink.put(Opcode::MultiplyDivide, &[Value(*to), Value(*left), Value(*right), Value(*divisor), Skip(*skip)]),
        LocalInstr::JumpTextLess { left, right, skip } => sink.put(Opcode::JumpTextLess, &[Value(*left), Value(*right), Skip(*skip)]),
    }
}

/// Returns the first opcode if subscripts are integers, the second if they are texts.
fn opcode_by(for_integers: Opcode, for_texts: Opcode, by: Scalar) -> Opcode
    ensures { result ≡ opcode_by for_integers for_texts by }
{
    match by {
        Scalar::Int => for_integers,
        Scalar::Text => for_texts,
    }
}

/// Puts an instruction on data: its opcode and its operands, in one row each.
#[rattlefmt::skip]
fn put_data<S: Sink>(sink: &mut S, instr: DataInstr) -> Result<(), AllocError>
    requires { IsDataInstr instr }
    ensures { OnOk result (S.puts sink.old (data_row instr).0 (data_row instr).1 sink.new) }
{
    match instr {
        DataInstr::New { write, read, ty } => sink.put(Opcode::New, &[Right(write), Right(read), TypeOf(ty)]),
        DataInstr::Store { datum, from } => sink.put(Opcode::Store, &[Right(datum), Value(from)]),
        DataInstr::Get { to, datum } => sink.put(Opcode::Get, &[Value(to), Right(datum)]),
        DataInstr::Insert { by, container, subscript, member, skip } => sink.put(opcode_by(Opcode::Insert, Opcode::InsertByText, by), &[Right(container), Value(subscript), Right(member), Skip(skip)]),
        DataInstr::Look { by, member, container, subscript, skip } => sink.put(opcode_by(Opcode::Look, Opcode::LookByText, by), &[Right(member), Right(container), Value(subscript), Skip(skip)]),
        DataInstr::Size { to, container } => sink.put(Opcode::Size, &[Value(to), Right(container)]),
        DataInstr::SubscriptAt { by, to, container, index, skip } => sink.put(opcode_by(Opcode::SubscriptAt, Opcode::SubscriptAtByText, by), &[Value(to), Right(container), Value(index), Skip(skip)]),
        DataInstr::CopyRead { to, from } => sink.put(Opcode::CopyRead, &[Right(to), Right(from)]),
        DataInstr::CopyWrite { to, from } => sink.put(Opcode::CopyWrite, &[Right(to), Right(from)]),
        DataInstr::DropRead { right } => sink.put(Opcode::DropRead, &[Right(right)]),
        DataInstr::DropWrite { right } => sink.put(Opcode::DropWrite, &[Right(right)]),
        DataInstr::InsertValue { map, subscript, from, skip } => sink.put(Opcode::InsertValue, &[Right(map), Value(subscript), Value(from), Skip(skip)]),
        DataInstr::GetValue { to, map, subscript, skip } => sink.put(Opcode::GetValue, &[Value(to), Right(map), Value(subscript), Skip(skip)]),
        DataInstr::AddValue { map, subscript, from } => sink.put(Opcode::AddValue, &[Right(map), Value(subscript), Value(from)]),
    }
}

/// Returns the first opcode if the priority is a constant, the second if it is computed.
fn opcode_of_priority(constant: Opcode, computed: Opcode, priority: Priority) -> Opcode
    ensures { result ≡ opcode_of_priority constant computed priority }
{
    match priority {
        Priority::Constant(_) => constant,
        Priority::Computed(_) => computed,
    }
}

/// Returns the operand of a priority: a number, or the register that holds it.
fn operand_of_priority<'a>(priority: Priority) -> Operand<'a>
    ensures { seen result ≡ priority_operand priority }
{
    match priority {
        Priority::Constant(number) => Number(number),
        Priority::Computed(register) => Value(register),
    }
}

/// Puts an action: its opcode, by its priority, and its operands.
#[rattlefmt::skip]
fn put_action<S: Sink>(sink: &mut S, constant: Opcode, computed: Opcode, action: &Action) -> Result<(), AllocError>
    requires { IsAction action.now }
    ensures { OnOk result (S.puts sink.old (opcode_of_priority constant computed action.now.priority) (action_operands action.now) sink.new) }
{
    let opcode = opcode_of_priority(constant, computed, action.priority);
    sink.put(opcode, &[Callee(action.procedure), operand_of_priority(action.priority), Target(action.target), Args(action.args.as_slice())])
}

/// Puts an instruction: its opcode and its operands.
pub fn put_instr<S: Sink>(sink: &mut S, instr: &Instr) -> Result<(), AllocError>
    requires { IsInstr instr.now }
    ensures { OnOk result (S.puts sink.old (row instr.now).0 (row instr.now).1 sink.new) }
{
    match instr {
        Instr::Local(instr) => put_local(sink, instr),
        Instr::Data(instr) => put_data(sink, *instr),
        Instr::Rule(action) => put_action(sink, Opcode::Rule, Opcode::RuleComputed, action),
        Instr::Put(action) => put_action(sink, Opcode::Put, Opcode::PutComputed, action),
        Instr::Ret => sink.put(Opcode::Ret, &[]),
    }
}
