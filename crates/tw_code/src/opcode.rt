//! The instruction set: of each instruction its code, the versions that have it, the forms of its operands, and its name in assembly.

ghost use Rattle.std.specs.Prelude.{◌≡◌, ◌==◌};
ghost use Rattle.std.specs.List.{find};
ghost use Rattle.tw_code.specs.format.Table.{code_of, forms_of, has_opcode, opcode_at, opcode_in, opcode_of, since, word_of};

use crate::form::Form;
use crate::version::Version;
use Form::{Args, Callee, Iterations, Literal, Number, Right, Skip, Target, TypeOf, Value};

/// An instruction without its operands, by its code.
#[derive(Clone, Copy)]
pub enum Opcode {
    Int = 0x01,
    Text = 0x02,
    Copy = 0x03,
    Add = 0x10,
    Subtract = 0x11,
    Multiply = 0x12,
    Divide = 0x13,
    Remainder = 0x14,
    Concatenate = 0x18,
    Length = 0x19,
    Show = 0x1a,
    ReadInt = 0x1b,
    Jump = 0x20,
    JumpEqual = 0x21,
    JumpLess = 0x22,
    Repeat = 0x23,
    End = 0x24,
    Last = 0x2b,
    New = 0x30,
    Store = 0x31,
    Get = 0x32,
    Insert = 0x33,
    Look = 0x34,
    Size = 0x35,
    SubscriptAt = 0x36,
    CopyRead = 0x37,
    CopyWrite = 0x38,
    DropRead = 0x39,
    DropWrite = 0x3a,
    Rule = 0x40,
    Put = 0x41,
    Ret = 0x42,
    InsertByText = 0x50,
    LookByText = 0x51,
    SubscriptAtByText = 0x52,
    RuleComputed = 0x53,
    PutComputed = 0x54,
    InsertValue = 0x60,
    GetValue = 0x61,
    AddValue = 0x62,
    ByteAt = 0x70,
    Slice = 0x71,
    Find = 0x72,
    Span = 0x73,
    Until = 0x74,
    MultiplyDivide = 0x75,
    And = 0x76,
    Or = 0x77,
    Xor = 0x78,
    ShiftLeft = 0x79,
    ShiftRight = 0x7a,
    WrappingMultiply = 0x7b,
    WrappingAdd = 0x7c,
    JumpTextLess = 0x7d,
}

/// All opcodes.
#[rattlefmt::skip]
pub const OPCODES: [Opcode; 54] = [
    Opcode::Int, Opcode::Text, Opcode::Copy, Opcode::Add, Opcode::Subtract, Opcode::Multiply, Opcode::Divide,
    Opcode::Remainder, Opcode::Concatenate, Opcode::Length, Opcode::Show, Opcode::ReadInt, Opcode::Jump,
    Opcode::JumpEqual, Opcode::JumpLess, Opcode::Repeat, Opcode::End, Opcode::Last, Opcode::New, Opcode::Store,
    Opcode::Get, Opcode::Insert, Opcode::Look, Opcode::Size, Opcode::SubscriptAt, Opcode::CopyRead,
    Opcode::CopyWrite, Opcode::DropRead, Opcode::DropWrite, Opcode::Rule, Opcode::Put, Opcode::Ret,
    Opcode::InsertByText, Opcode::LookByText, Opcode::SubscriptAtByText, Opcode::RuleComputed,
    Opcode::PutComputed, Opcode::InsertValue, Opcode::GetValue, Opcode::AddValue, Opcode::ByteAt, Opcode::Slice,
    Opcode::Find, Opcode::Span, Opcode::Until, Opcode::MultiplyDivide, Opcode::And, Opcode::Or, Opcode::Xor,
    Opcode::ShiftLeft, Opcode::ShiftRight, Opcode::WrappingMultiply, Opcode::WrappingAdd, Opcode::JumpTextLess,
];

impl Opcode {
    /// Returns the first byte of the instruction's encoding.
    pub fn code(self) -> u8
        ensures { result ≡ code_of self }
    {
        self as u8
    }

    /// Returns the first version that has it.
    #[rattlefmt::skip]
    fn since(self) -> Version
        ensures { result ≡ since self }
    {
        match self {
            Opcode::InsertByText | Opcode::LookByText | Opcode::SubscriptAtByText | Opcode::RuleComputed | Opcode::PutComputed => Version::Two,
            Opcode::InsertValue | Opcode::GetValue | Opcode::AddValue => Version::Four,
            Opcode::Last | Opcode::ByteAt | Opcode::Slice | Opcode::Find | Opcode::Span | Opcode::Until | Opcode::MultiplyDivide | Opcode::And | Opcode::Or | Opcode::Xor | Opcode::ShiftLeft | Opcode::ShiftRight | Opcode::WrappingMultiply | Opcode::WrappingAdd | Opcode::JumpTextLess => Version::Five,
            _ => Version::One,
        }
    }

    /// Returns whether a version has it.
    pub fn is_in(self, version: Version) -> bool
        ensures { result ≡ has_opcode version self }
    {
        version.has_since(self.since())
    }

    /// Returns the forms of its operands, in the order of bytes and of assembly.
    #[rattlefmt::skip]
    pub fn forms(self) -> &'static [Form]
        ensures { result.now ≡ forms_of self }
    {
        match self {
            Opcode::Int => &[Value, Number],
            Opcode::Text => &[Value, Literal],
            Opcode::Copy | Opcode::Length | Opcode::Show => &[Value, Value],
            Opcode::Add | Opcode::Subtract | Opcode::Multiply | Opcode::Divide | Opcode::Remainder | Opcode::Concatenate | Opcode::ByteAt | Opcode::And | Opcode::Or | Opcode::Xor | Opcode::ShiftLeft | Opcode::ShiftRight | Opcode::WrappingMultiply | Opcode::WrappingAdd => &[Value, Value, Value, Skip],
            Opcode::ReadInt | Opcode::JumpEqual | Opcode::JumpLess | Opcode::JumpTextLess => &[Value, Value, Skip],
            Opcode::Jump => &[Skip],
            Opcode::Repeat => &[Iterations],
            Opcode::End | Opcode::Last | Opcode::Ret => &[],
            Opcode::New => &[Right, Right, TypeOf],
            Opcode::Store => &[Right, Value],
            Opcode::Get | Opcode::Size => &[Value, Right],
            Opcode::Insert | Opcode::InsertByText => &[Right, Value, Right, Skip],
            Opcode::Look | Opcode::LookByText => &[Right, Right, Value, Skip],
            Opcode::SubscriptAt | Opcode::SubscriptAtByText | Opcode::GetValue => &[Value, Right, Value, Skip],
            Opcode::CopyRead | Opcode::CopyWrite => &[Right, Right],
            Opcode::DropRead | Opcode::DropWrite => &[Right],
            Opcode::Rule | Opcode::Put => &[Callee, Number, Target, Args],
            Opcode::RuleComputed | Opcode::PutComputed => &[Callee, Value, Target, Args],
            Opcode::InsertValue => &[Right, Value, Value, Skip],
            Opcode::AddValue => &[Right, Value, Value],
            Opcode::Slice | Opcode::Find | Opcode::Span | Opcode::Until | Opcode::MultiplyDivide => &[Value, Value, Value, Value, Skip],
        }
    }
}

/// Returns the opcode of this code, whatever the version.
fn opcode_of_code(code: u8) -> Option<Opcode>
    ensures { result ≡ find (λ o. code_of o == code) OPCODES }
{
    OPCODES.iter().copied().find(|opcode| opcode.code() == code)
}

/// Returns the opcode of this code, if the version has one.
pub fn opcode_at(version: Version, code: u8) -> Option<Opcode>
    ensures { result ≡ opcode_at version code }
{
    match opcode_of_code(code) {
        Some(opcode) if opcode.is_in(version) => Some(opcode),
        _ => None,
    }
}

/// Returns its name in assembly.
pub fn word_of(opcode: Opcode) -> &'static str
    ensures { result.now ≡ word_of opcode }
{
    match opcode {
        Opcode::Int => "INT",
        Opcode::Text => "TEXT",
        Opcode::Copy => "COPY",
        Opcode::Add => "ADD",
        Opcode::Subtract => "SUB",
        Opcode::Multiply => "MUL",
        Opcode::Divide => "DIV",
        Opcode::Remainder => "REM",
        Opcode::Concatenate => "CAT",
        Opcode::Length => "LEN",
        Opcode::Show => "SHOW",
        Opcode::ReadInt => "READI",
        Opcode::Jump => "JMP",
        Opcode::JumpEqual => "JEQ",
        Opcode::JumpLess => "JLT",
        Opcode::Repeat => "REPEAT",
        Opcode::End => "END",
        Opcode::Last => "LAST",
        Opcode::New => "NEW",
        Opcode::Store => "STORE",
        Opcode::Get => "GET",
        Opcode::Insert => "INS",
        Opcode::Look => "LOOK",
        Opcode::Size => "SIZE",
        Opcode::SubscriptAt => "SUBAT",
        Opcode::CopyRead => "DUPR",
        Opcode::CopyWrite => "DUPW",
        Opcode::DropRead => "DROPR",
        Opcode::DropWrite => "DROPW",
        Opcode::Rule => "RULE",
        Opcode::Put => "PUT",
        Opcode::Ret => "RET",
        Opcode::InsertByText => "TINS",
        Opcode::LookByText => "TLOOK",
        Opcode::SubscriptAtByText => "TSUBAT",
        Opcode::RuleComputed => "RULEV",
        Opcode::PutComputed => "PUTV",
        Opcode::InsertValue => "MINS",
        Opcode::GetValue => "MGET",
        Opcode::AddValue => "MADD",
        Opcode::ByteAt => "BYTE",
        Opcode::Slice => "SLICE",
        Opcode::Find => "FIND",
        Opcode::Span => "SPAN",
        Opcode::Until => "UNTIL",
        Opcode::MultiplyDivide => "MULDIV",
        Opcode::And => "AND",
        Opcode::Or => "OR",
        Opcode::Xor => "XOR",
        Opcode::ShiftLeft => "SHL",
        Opcode::ShiftRight => "SHR",
        Opcode::WrappingMultiply => "WMUL",
        Opcode::WrappingAdd => "WADD",
        Opcode::JumpTextLess => "JTLT",
    }
}

/// Returns the opcode of this name, whatever the version.
#[tactic(auto, unfolding(crate::specs::format::Table::opcode_of))]
fn opcode_named(name: &[u8]) -> Option<Opcode>
    ensures { result ≡ opcode_of name.now }
{
    OPCODES
        .iter()
        .copied()
        .find(|opcode| word_of(*opcode).as_bytes() == name)
}

/// Returns the opcode of this name, if the version has one.
pub fn opcode_in(version: Version, name: &[u8]) -> Option<Opcode>
    ensures { result ≡ opcode_in version name.now }
{
    match opcode_named(name) {
        Some(opcode) if opcode.is_in(version) => Some(opcode),
        _ => None,
    }
}
