//! Errors of the verifier, and what is unmet by a register.

ghost use Rattle.std.specs.Prelude.{◌≡◌, ◌==◌, ◌<◌};
ghost use Rattle.tw_verify.specs.Rejection.{is_memory, verify_error_code};

use crate::typing::{RightType, Typing};
use tw_code::Procedure;
use tw_types::{DataType, Param, Scalar};

/// The content of a register.
#[derive(Clone, Copy)]
pub enum Held {
    /// A value register with its type; an undeclared one has none.
    Value(Option<Scalar>),
    /// A right register with the right that it holds, if any.
    Right(Option<RightType>),
    /// A register that is named a second time.
    Twice,
}

/// A requirement on a register.
#[derive(Clone, Copy)]
pub enum Requirement {
    /// A type of a value register; any, if the instruction takes both or the right that decides it is missing.
    Value(Option<Scalar>),
    Empty,
    TwoRegisters,
    /// A right to write a scalar; of this type, if it is known.
    WriteScalar(Option<Scalar>),
    /// A right on a closed scalar; of this type, if it is known.
    ClosedScalar(Option<Scalar>),
    /// A right to write a container with such subscripts.
    WriteContainer(Scalar),
    /// A right on a closed container with such subscripts.
    ClosedContainer(Scalar),
    /// A right on a closed container or map with such subscripts.
    ClosedSubscripts(Scalar),
    /// A right to write a map from such subscripts to such values, but none of sums; of these types, if they are known.
    WriteMap(Option<Scalar>, Option<Scalar>),
    /// A right to write a map of sums; with such subscripts, if they are known.
    WriteSums(Option<Scalar>),
    /// A right on a closed map; of these types, if they are known.
    ClosedMap(Option<Scalar>, Option<Scalar>),
    AnyClosedContainer,
    AnyWrite,
    AnyContainerWrite,
    AnyRead,
    /// A right to read data of this type; of any type, if it isn't known.
    ReadOf(Option<DataType>),
    /// A right that a parameter accepts; the flag says whether the task waits for its data.
    Param(bool, Param),
}

/// A register that isn't as an instruction requires.
#[derive(Clone, Copy)]
pub struct Unmet {
    pub register: u8,
    pub held: Held,
    pub wanted: Requirement,
}

/// The error of a program that isn't accepted, by rising codes; with the register, if one isn't as it is required.
#[derive(Clone, Copy)]
pub enum VerifyError {
    /// V01: a value register isn't declared.
    UndeclaredValue(Unmet),
    /// V02: a value register is of another type than required.
    WrongValueType(Unmet),
    /// V03: a right register that is filled isn't empty, or NEW names one register twice.
    RightNotEmpty(Unmet),
    /// V04: a right register doesn't have the required right.
    WrongRight(Unmet),
    /// V05: a skip leaves the code or its block.
    SkipLeavesBlock,
    /// V06: a REPEAT or an END has no partner, or loops are nested more than four deep.
    Unmatched,
    /// V07: a place is reached with different typings.
    TypingsDiffer,
    /// V08: the typing at an END isn't that of its loop's first place.
    TypingChanged,
    /// V09: no earlier place leads to the place.
    Unreached,
    /// V10: a right is left at a RET.
    RightLeft(Unmet),
    /// V11: a RET is in a loop, or the code doesn't end with one.
    MisplacedRet,
    /// V12: there is no such procedure.
    UnknownProcedure,
    /// V13: the number of arguments isn't that of the parameters.
    ArgumentCount,
    /// V14: a leaf has a RULE or PUT.
    ActionInLeaf,
    /// V15: the write right of a scalar is copied or dropped.
    ScalarWrite(Unmet),
    /// V16: main doesn't have its shape.
    MainShape,
    /// V17: some walk is longer than the greatest budget.
    BudgetTooLarge,
    /// V18: an allocation failed.
    NoMemory,
}

impl VerifyError {
    /// Returns whether an error of the verifier is a failed allocation, which says nothing of the program.
    pub(crate) fn is_memory(self) -> bool
        ensures { result ≡ is_memory self }
    {
        matches!(self, VerifyError::NoMemory)
    }

    /// Returns whether an error of the verifier is V16, which is checked before any procedure.
    pub(crate) fn is_main_shape(self) -> bool
        ensures { result ≡ (verify_error_code self == 16) }
    {
        matches!(self, VerifyError::MainShape)
    }

    /// Returns the code of the verifier's error without the letter V.
    pub fn number(self) -> u8
        ensures { result ≡ verify_error_code self }
    {
        match self {
            VerifyError::UndeclaredValue(_) => 1,
            VerifyError::WrongValueType(_) => 2,
            VerifyError::RightNotEmpty(_) => 3,
            VerifyError::WrongRight(_) => 4,
            VerifyError::SkipLeavesBlock => 5,
            VerifyError::Unmatched => 6,
            VerifyError::TypingsDiffer => 7,
            VerifyError::TypingChanged => 8,
            VerifyError::Unreached => 9,
            VerifyError::RightLeft(_) => 10,
            VerifyError::MisplacedRet => 11,
            VerifyError::UnknownProcedure => 12,
            VerifyError::ArgumentCount => 13,
            VerifyError::ActionInLeaf => 14,
            VerifyError::ScalarWrite(_) => 15,
            VerifyError::MainShape => 16,
            VerifyError::BudgetTooLarge => 17,
            VerifyError::NoMemory => 18,
        }
    }
}

// ---- what is unmet

/// Returns the type with which a value register is declared, if it is.
pub(crate) fn declared(registers: &[Scalar], register: u8) -> Option<Scalar> {
    registers.get(register as usize).copied()
}

/// Returns the type of the members of a right's container, if it has members.
fn members_of(right: Option<RightType>) -> Option<DataType> {
    match right {
        Some(right) => right.ty().element(),
        None => None,
    }
}

impl Unmet {
    /// Makes what is unmet by a value register that is declared with a type, or isn't.
    pub(crate) fn value(register: u8, held: Option<Scalar>, wanted: Option<Scalar>) -> Unmet {
        Unmet {
            register,
            held: Held::Value(held),
            wanted: Requirement::Value(wanted),
        }
    }

    /// Makes what is unmet by a right register of a typing.
    pub(crate) fn right(typing: &Typing, register: u8, wanted: Requirement) -> Unmet
        requires { register < 16 }
    {
        Unmet {
            register,
            held: Held::Right(typing.right_at(register)),
            wanted,
        }
    }

    /// Makes what is unmet by a right register that isn't empty.
    pub(crate) fn filled(typing: &Typing, register: u8) -> Unmet
        requires { register < 16 }
    {
        Unmet::right(typing, register, Requirement::Empty)
    }

    /// Makes what is unmet by two right registers that aren't both empty, or are the same.
    pub(crate) fn pair(typing: &Typing, first: u8, second: u8) -> Unmet
        requires first { first < 16 }
        requires second { second < 16 }
    {
        if !typing.is_free(first) {
            Unmet::filled(typing, first)
        } else if !typing.is_free(second) {
            Unmet::filled(typing, second)
        } else {
            Unmet {
                register: first,
                held: Held::Twice,
                wanted: Requirement::TwoRegisters,
            }
        }
    }

    /// Makes what is unmet by a register without a read right on a member of another one's container.
    pub(crate) fn member(typing: &Typing, container: u8, member: u8) -> Unmet
        requires container { container < 16 }
        requires member { member < 16 }
    {
        let members = members_of(typing.right_at(container));
        Unmet::right(typing, member, Requirement::ReadOf(members))
    }

    /// Makes what is unmet by an argument that is a right, if those before it have left the rights `left` of a typing.
    pub(crate) fn argument(
        waits: bool,
        param: Param,
        arg: u8,
        typing: &Typing,
        left: &Typing,
    ) -> Unmet
        requires { arg < 16 }
    {
        let unmet = Unmet::right(left, arg, Requirement::Param(waits, param));
        if left.is_free(arg) && !typing.is_free(arg) {
            Unmet {
                held: Held::Twice,
                ..unmet
            }
        } else {
            unmet
        }
    }

    /// Makes what is unmet by the first register of a value parameter that is missing, or else has another type.
    pub(crate) fn param(procedure: &Procedure, is_missing: bool) -> Unmet {
        let registers = procedure.registers.as_slice();
        let mut given = 0u8;
        for param in procedure.params.as_slice() {
            if param.mode.is_val() {
                let held = declared(registers, given);
                let wanted = param.ty.scalar();
                if held.is_none() == is_missing && held != Some(wanted) {
                    return Unmet::value(given, held, Some(wanted));
                }
                given = given.saturating_add(1);
            }
        }
        Unmet::value(given, None, None)
    }
}
