//! Errors as values: a code and a position, from which the first line of the text and the JSON object are made.

ghost use Rattle.std.specs.Prelude.{◌≡◌, ◌++◌, OnOk};
ghost use Rattle.tw_source.specs.Failure.{code_text, coded, failure_line, position_text, uncoded};
ghost use Rattle.tw_source.specs.declared.failure.Position.TheVariants as position;

use std::alloc::AllocError;
use tw_lexer::{put, put_numbered};

/// The code of an error or of a trap, as `V04`.
#[derive(Clone, Copy, PartialEq, Eq)]
pub struct ErrorCode {
    pub letter: u8,
    pub number: u8,
}

/// Where an error is.
#[derive(Clone, Copy, PartialEq, Eq)]
pub enum Position {
    /// At no place in particular.
    Nowhere,
    /// At a byte of a program, from 0.
    Byte(usize),
    /// In a line of a text or of a trace, from 1; at a word of it, from 1, and at the character at which that begins, or at none if these are 0.
    Line {
        line: usize,
        word: usize,
        column: usize,
    },
    /// At an instruction of a program.
    Place {
        procedure: usize,
        place: usize,
        /// The line of the text that is reported, if the program was read from a text.
        line: Option<usize>,
    },
    /// In an input, from 1.
    Input(usize),
    /// At an event of a trace, from 1.
    Event(usize),
}

/// An error: what it is, where it is, and where its lines begin in the reply's text.
#[derive(Clone, Copy, PartialEq, Eq)]
pub struct Failure {
    /// Inputs that can't be read have no code, nor has an event that isn't enabled.
    pub code: Option<ErrorCode>,
    pub position: Position,
    /// The number of bytes before the error's lines: those of a listing.
    pub before: usize,
}

impl Position {
    /// Returns the position in this line, and at no word of it.
    pub fn in_line(line: usize) -> Position
        ensures { result ≡ position.Line line 0 0 }
    {
        Position::Line {
            line,
            word: 0,
            column: 0,
        }
    }
}

impl Failure {
    /// Returns the error with this code.
    pub fn coded(letter: u8, number: u8, position: Position) -> Failure
        ensures { result ≡ coded letter number position }
    {
        Failure {
            code: Some(ErrorCode { letter, number }),
            position,
            before: 0,
        }
    }

    /// Returns the error that has no code.
    pub fn uncoded(position: Position) -> Failure
        ensures { result ≡ uncoded position }
    {
        Failure {
            code: None,
            position,
            before: 0,
        }
    }
}

/// Adds a code. Those of traps have as many digits as they need, others two.
pub fn put_code(out: &mut Vec<u8>, code: ErrorCode) -> Result<(), AllocError>
    ensures { OnOk result (out.new.items ≡ out.old.items ++ code_text code) }
{
    if code.letter == b'C' {
        return put_numbered(out, "C", usize::from(code.number));
    }
    out.extend_from_slice(&[
        code.letter,
        b'0' + code.number / 10,
        b'0' + code.number % 10,
    ])
}

/// Adds where an error is, if its first line says so.
fn put_position(out: &mut Vec<u8>, position: Position) -> Result<(), AllocError>
    ensures { OnOk result (out.new.items ≡ out.old.items ++ position_text position) }
{
    match position {
        Position::Nowhere | Position::Input(_) => Ok(()),
        Position::Byte(offset) => put_numbered(out, " at byte ", offset),
        Position::Line { line, .. } => put_numbered(out, " at line ", line),
        Position::Event(event) => put_numbered(out, " at event ", event),
        Position::Place {
            procedure,
            place,
            ..
        } => {
            put_numbered(out, " in procedure ", procedure)?;
            put_numbered(out, " at place ", place)
        }
    }
}

/// Adds the first line of an error that isn't a text's first.
pub(crate) fn put_further_line(out: &mut Vec<u8>, failure: Failure) -> Result<(), AllocError> {
    if let Some(code) = failure.code {
        put(out, "also ")?;
        put_code(out, code)?;
        put_position(out, failure.position)?;
    }
    put(out, "\n")
}

/// Adds the first line of an error that has a code.
pub fn put_failure_line(out: &mut Vec<u8>, failure: Failure) -> Result<(), AllocError>
    ensures { OnOk result (out.new.items ≡ out.old.items ++ failure_line failure) }
{
    let Some(code) = failure.code else {
        return Ok(());
    };
    put(out, "refused ")?;
    put_code(out, code)?;
    put_position(out, failure.position)?;
    put(out, "\n")
}
