//! Faults of assembly texts.

ghost use Rattle.std.specs.Prelude.{◌≡◌, None};
ghost use Rattle.tw_asm.specs.Fault.{fault_number};
ghost use Rattle.tw_asm.specs.declared.fault.FaultNo.TheVariants.{NoMemory};

use crate::flaw::Due;
use std::alloc::{AllocError, AllocFailed};
use thiserror::Error;

/// The kind of a fault in an assembly text.
#[derive(Clone, Copy, Debug, PartialEq, Eq)]
pub enum FaultNo {
    /// A01: the first word of the line is unknown, or isn't allowed there.
    Word,
    /// A02: an operand has the wrong form, or there are too few or too many.
    Operand,
    /// A03: the procedure has no label of this name.
    UnknownLabel,
    /// A04: the procedure has a label of this name already.
    LabelTwice,
    /// A05: the label isn't after the instruction that names it.
    LabelNotForward,
    /// A06: a number, a count, a nesting, a name or a text exceeds its limit, or a procedure has no instruction.
    Limit,
    /// A07: an allocation failed.
    NoMemory,
}

impl FaultNo {
    /// Returns the number after the letter A, from 1.
    pub fn number(self) -> u8
        ensures { result ≡ fault_number self }
    {
        self as u8 + 1
    }
}

/// The first fault of a text, and the number of its line, from 1.
///
/// If an allocation failed, the line is 0.
#[derive(Clone, Copy, Debug, Error)]
#[error("A{:02} at line {line}", .no.number())]
pub struct AsmFault {
    pub no: FaultNo,
    pub line: usize,
    /// The number of the word at which the line stops, from 1, or 0 if it is at none.
    pub word: usize,
    pub due: Due,
    /// The number of the line that was read last when the fault was found, or `None` if all were.
    pub found: Option<usize>,
}

impl AsmFault {
    /// Makes a fault of a line, found after all lines.
    pub(crate) fn new(no: FaultNo, line: usize, word: usize, due: Due) -> AsmFault
        ensures no { result.no ≡ no }
        ensures line { result.line ≡ line }
        ensures found { result.found ≡ None }
    {
        AsmFault {
            no,
            line,
            word,
            due,
            found: None,
        }
    }

    /// Makes the fault of an allocation that failed.
    pub(crate) fn memory() -> AsmFault
        ensures no { result.no ≡ NoMemory }
        ensures line { result.line ≡ 0 }
    {
        AsmFault {
            no: FaultNo::NoMemory,
            line: 0,
            word: 0,
            due: Due::Nothing,
            found: None,
        }
    }
}

impl From<AllocError> for AsmFault {
    ghost use Rattle.tw_asm.specs.declared.fault.FaultNo.TheVariants.{NoMemory};

    ghost from_gives = { λ _ f. (f.no ≡ NoMemory) × (f.line ≡ 0) };

    /// Returns the fault of a text for a failed allocation.
    fn from(_e: AllocError) -> AsmFault {
        AsmFault::memory()
    }
}

impl<T: Drop> From<AllocFailed<T>> for AsmFault {
    ghost use Rattle.tw_asm.specs.declared.fault.FaultNo.TheVariants.{NoMemory};

    ghost from_gives = { λ _ f. (f.no ≡ NoMemory) × (f.line ≡ 0) };

    /// Drops what wasn't added, and returns the fault of a text for a failed allocation.
    fn from(_e: AllocFailed<T>) -> AsmFault {
        AsmFault::memory()
    }
}
