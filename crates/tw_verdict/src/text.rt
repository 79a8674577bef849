//! Verdicts on texts that encode no program.

ghost use Rattle.std.specs.Prelude.{◌≡◌, ◌⊎◌};
ghost use Rattle.tw_verdict.specs.Source.{IsUnreadable, failure_in_numbers, in_numbers, without_line as without_line_is};
ghost use Rattle.tw_verdict.specs.Verdict.{no_memory as no_memory_is};

use crate::verdict::{Verdict, refused_at};
use std::alloc::Global;
use tw_source::{ErrorCode, Failure, NoProgram, Position, parse_failure};

/// A verdict on a source, with the position of an error in a text.
#[repr(C)]
#[derive(Clone, Copy)]
pub struct SourceVerdict {
    pub verdict: Verdict,
    /// The line of an error, from 1; 0 if it has none.
    pub line: usize,
    /// The word of the line, from 1; 0 if the error isn't at one.
    pub word: usize,
    /// The character of the line at which the word begins, from 1; 0 if there is no word.
    pub column: usize,
}

impl SourceVerdict {
    /// Returns the verdict on a source if an allocation failed.
    pub fn no_memory() -> SourceVerdict
        ensures { result ≡ without_line_is no_memory_is }
    {
        without_line(Verdict::no_memory())
    }
}

/// Returns a verdict without a position in a text.
pub fn without_line(verdict: Verdict) -> SourceVerdict
    ensures { result ≡ without_line_is verdict }
{
    SourceVerdict {
        verdict,
        line: 0,
        word: 0,
        column: 0,
    }
}

/// Returns an error in numbers.
fn in_numbers(code: ErrorCode, position: Position) -> SourceVerdict
    ensures { result ≡ in_numbers code position }
{
    let (letter, number) = (code.letter, code.number);
    match position {
        Position::Nowhere | Position::Input(_) | Position::Event(_) => {
            without_line(refused_at(letter, number, 0, 0))
        }
        Position::Byte(offset) => without_line(refused_at(letter, number, 0, offset)),
        Position::Line { line, word, column } => SourceVerdict {
            verdict: refused_at(letter, number, 0, 0),
            line,
            word,
            column,
        },
        Position::Place {
            procedure,
            place,
            ..
        } => without_line(refused_at(letter, number, procedure, place)),
    }
}

/// Returns an error in numbers; one without a code has none.
fn failure_verdict(failure: Failure) -> SourceVerdict
    ensures { result ≡ failure_in_numbers failure }
{
    match failure.code {
        Some(code) => in_numbers(code, failure.position),
        None => SourceVerdict::no_memory(),
    }
}

/// Returns the verdict on a source that encodes no program.
pub(crate) fn no_program_verdict(alloc: Global, why: &NoProgram<'_>) -> SourceVerdict
    ensures { IsUnreadable why.now result ⊎ (result ≡ without_line_is no_memory_is) }
{
    match parse_failure(alloc, why) {
        Ok(failure) => failure_verdict(failure),
        Err(_) => SourceVerdict::no_memory(),
    }
}
