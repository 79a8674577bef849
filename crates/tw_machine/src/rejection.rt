//! Errors of openings.

ghost use Rattle.std.specs.Prelude.{◌≡◌};
ghost use Rattle.tw_machine.specs.Opening.{open_error_code};

use std::fmt;
use thiserror::Error;
use tw_code::Program;

/// The error of a program that isn't opened.
#[derive(Clone, Copy)]
pub enum OpenError {
    /// O01: the number of inputs isn't the number that main takes.
    InputCount,
    /// O02: an input is of another type than its parameter, has a text that is too long, or has members that are too
    /// many or don't rise.
    InputType,
    /// O05: an allocation failed.
    NoMemory,
    /// O06: main doesn't have its shape.
    MainShape,
}

impl OpenError {
    /// Returns the code of the reference machine's error of opening without the letter O.
    pub fn number(self) -> u8
        ensures { result ≡ open_error_code self }
    {
        match self {
            OpenError::InputCount => 1,
            OpenError::InputType => 2,
            OpenError::NoMemory => 5,
            OpenError::MainShape => 6,
        }
    }
}

/// A program that wasn't opened, with the error.
#[derive(Drop, Error)]
#[error("refused O{:02}", .no.number())]
pub struct OpenRefused {
    pub program: Program,
    pub no: OpenError,
}

/// Displays the error, without the program.
impl fmt::Debug for OpenRefused {
    /// Writes why the reference machine wasn't opened for `Debug`, without the program.
    fn fmt<W: fmt::Write>(&self, f: &mut fmt::Formatter<W>) -> fmt::Result {
        write!(f, "{self}")
    }
}
