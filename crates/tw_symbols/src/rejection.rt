//! Errors of symbolic assembly.

ghost use Rattle.std.specs.Prelude.{◌≡◌, IfOk, IsTrue, Ok};
ghost use Rattle.tw_symbols.specs.Answers.{name_number};
ghost use Rattle.tw_symbols.specs.declared.rejection.NameNo.TheVariants as no;
ghost use Rattle.tw_symbols.specs.declared.rejection.Rejection.TheVariants.{NoMemory};

use crate::meaning::{Binding, Expected};
use std::alloc::{AllocError, AllocFailed};

/// The kind of an error in a symbolic assembly text.
#[derive(Clone, Copy, Debug, PartialEq, Eq)]
pub enum NameNo {
    /// N01: a line that defines names is malformed.
    Form,
    /// N02: the word to be defined isn't a name.
    NoName,
    /// N03: an earlier procedure has the name.
    Twice,
    /// N03: the name has this meaning already.
    Taken(Binding),
    /// N03: the register has been listed by another name.
    Listed,
    /// N03: the register is one of the hidden ones after so many that are listed.
    Hidden(usize),
    /// N04: the name has no meaning here, where this is required.
    Unknown(Expected),
    /// N04: in a list of registers, a name that `:` doesn't follow.
    Unlisted,
    /// N05: the name has this meaning, but another kind of operand is required.
    Kind(Binding, Expected),
    /// N06: a name would mean a register past the last.
    Limit,
    /// N06: after so many listed registers none is left for the number or text.
    Spent(usize),
    /// N06: the number or text would be in a register that was used before, after so many that are listed.
    Used(usize),
    /// N07: out of memory.
    NoMemory,
    /// N08: the expansion isn't the text with its names replaced, by an error of `tw`.
    Internal,
}

impl NameNo {
    /// Returns the code of an error of symbolic names, without the letter N.
    pub fn number(self) -> u8
        ensures { result ≡ name_number self }
    {
        match self {
            NameNo::Form => 1,
            NameNo::NoName => 2,
            NameNo::Twice | NameNo::Taken(_) | NameNo::Listed | NameNo::Hidden(_) => 3,
            NameNo::Unknown(_) | NameNo::Unlisted => 4,
            NameNo::Kind(_, _) => 5,
            NameNo::Limit | NameNo::Spent(_) | NameNo::Used(_) => 6,
            NameNo::NoMemory => 7,
            NameNo::Internal => 8,
        }
    }
}

/// The reason why a line isn't expanded.
#[derive(Clone, Copy, Debug)]
pub enum Rejection<'a> {
    NoMemory,
    /// An error, and the word that it is about.
    Flawed(NameNo, &'a [u8]),
}

impl From<AllocError> for Rejection<'_> {
    ghost from_gives = { λ _ rejection. rejection ≡ NoMemory };

    /// Returns the rejection of a line of symbolic assembly for which an allocation failed.
    fn from(_refused: AllocError) -> Self {
        Rejection::NoMemory
    }
}

impl<T: Drop> From<AllocFailed<T>> for Rejection<'_> {
    ghost from_gives = { λ _ rejection. rejection ≡ NoMemory };

    /// Drops what wasn't added, and returns the rejection of a symbolic line for a failed allocation.
    fn from(_refused: AllocFailed<T>) -> Self {
        Rejection::NoMemory
    }
}

/// Returns whether a step has no error of names.
pub fn taken(went: Result<(), Rejection<'_>>) -> Result<bool, AllocError>
    ensures { IfOk result (λ is. IsTrue is → went.entry ≡ Ok tt) }
{
    match went {
        Ok(()) => Ok(true),
        Err(Rejection::NoMemory) => Err(AllocError),
        Err(Rejection::Flawed(_, _)) => Ok(false),
    }
}

/// The first error of a text: its kind, its line (from 1) and its word.
///
/// If memory runs out, the line is 0 and the word is empty.
#[derive(Clone, Copy, Debug)]
pub struct NameError<'a> {
    pub no: NameNo,
    pub line: usize,
    pub word: &'a [u8],
}

impl<'a> NameError<'a> {
    /// Makes the error of symbolic names for a failed allocation, without a line or a word.
    pub(crate) fn memory() -> NameError<'a>
        ensures { result.no ≡ no.NoMemory }
    {
        NameError {
            no: NameNo::NoMemory,
            line: 0,
            word: b"",
        }
    }

    /// Makes the error of an expansion that is wrong at this line.
    pub fn internal(line: usize) -> NameError<'a> {
        NameError {
            no: NameNo::Internal,
            line,
            word: b"",
        }
    }
}

impl From<AllocError> for NameError<'_> {
    ghost from_gives = { λ _ f. f.no ≡ no.NoMemory };

    /// Returns the error of symbolic names for a failed allocation.
    fn from(_refused: AllocError) -> Self {
        NameError::memory()
    }
}
