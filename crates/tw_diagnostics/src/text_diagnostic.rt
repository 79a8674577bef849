//! Diagnostics of a text that isn't assembled.

ghost use Rattle.std.specs.Prelude.{IsUtf8};

use crate::diagnostic::{Diagnostic, Reason, reason_line};
use crate::due::{due_text, limit_of, whole_limit};
use crate::error_position::{position_of, word_of};
use crate::hints::{Hint, end_hint, first_hint, instruction_hint, word_hint};
use crate::labels::{label_before, twin_before};
use std::alloc::{AllocError, Global};
use tw_asm::{AsmFault, Due, FaultNo};
use tw_lexer::{line_numbered, put, put_shortened};

/// Returns whether a line is an assignment in other languages: its second word is `=`, and its first one, which is given, has no quotes.
fn is_assignment(alloc: Global, line: &[u8], first: &[u8]) -> Result<bool, AllocError>
    requires { IsUtf8 line.now }
{
    let second = word_of(alloc, line, 2)?;
    Ok(second == b"=".as_slice() && !first.starts_with(b"\""))
}

/// Returns the hint for the word of a line at which this was due.
fn hint_of(alloc: Global, line: &[u8], due: Due, word: &[u8]) -> Result<Hint, AllocError>
    requires { IsUtf8 line.now }
{
    match due {
        Due::Start | Due::Head | Due::Registers => Ok(first_hint(word, Hint::Nothing)),
        Due::Body(version) => {
            let own = if is_assignment(alloc, line, word)? {
                Hint::Note("INT puts a number into a register, and COPY a value")
            } else {
                instruction_hint(alloc, version, word)?
            };
            Ok(first_hint(word, own))
        }
        _ => word_hint(alloc, due, word),
    }
}

/// Returns what is to be said about a word at which this was due, in the line with this number.
fn said_of(
    alloc: Global,
    text: &str,
    fault: AsmFault,
    line: &[u8],
    word: &[u8],
) -> Result<Diagnostic, AllocError>
    requires { IsUtf8 line.now }
{
    let expected = due_text(fault.due);
    match fault.due {
        Due::End => Ok(Diagnostic::TooMany(end_hint(word_of(alloc, line, 1)?))),
        Due::NewLabel => {
            let twin = twin_before(alloc, text, fault.line, word)?;
            Ok(Diagnostic::Expected(expected, twin, Hint::Nothing))
        }
        Due::LaterLabel => {
            let label = label_before(alloc, text, fault.line, word)?;
            Ok(Diagnostic::Expected(expected, label, Hint::Nothing))
        }
        due => Ok(Diagnostic::Expected(expected, None, hint_of(alloc, line, due, word)?)),
    }
}

/// Returns why a line is rejected with this fault.
fn reason_of<'a>(
    alloc: Global,
    text: &str,
    fault: AsmFault,
    line: &'a [u8],
) -> Result<Reason<'a>, AllocError>
    requires { IsUtf8 line.now }
{
    match position_of(alloc, line, fault.word)? {
        Some(stop) => {
            let said = match fault.no {
                FaultNo::Limit => Diagnostic::Limit(limit_of(fault.due)),
                _ => said_of(alloc, text, fault, line, stop.found.word())?,
            };
            Ok(Reason::At(stop, said))
        }
        None => match whole_limit(fault.due) {
            Some(limit) => Ok(Reason::Whole(limit)),
            None => Ok(Reason::Nothing),
        },
    }
}

/// Adds the line with this number, shortened if it is long, if the text has one.
pub fn put_shown_line(out: &mut Vec<u8>, text: &str, number: usize) -> Result<(), AllocError> {
    match line_numbered(text, number) {
        Some(line) => {
            put_shortened(out, line.as_bytes())?;
            put(out, "\n")
        }
        None => Ok(()),
    }
}

/// Returns why a line of a text is rejected.
pub fn text_reason<'a>(
    alloc: Global,
    text: &'a str,
    fault: AsmFault,
) -> Result<Reason<'a>, AllocError> {
    match line_numbered(text, fault.line) {
        Some(line) => reason_of(alloc, text, fault, line.as_bytes()),
        None => reason_of(alloc, text, fault, "".as_bytes()),
    }
}

/// Adds the line that is rejected for this reason, shortened if it is long, and the reason.
pub fn put_text_diagnostic(
    alloc: Global,
    out: &mut Vec<u8>,
    text: &str,
    line: usize,
    reason: &Reason<'_>,
) -> Result<(), AllocError> {
    put_shown_line(out, text, line)?;
    let said = reason_line(alloc, reason)?;
    out.extend_from_slice(&said)
}

/// Returns the word of a line at which it is rejected, and the column of this word, both from 1; zeros if it is at none.
pub fn error_word(reason: &Reason<'_>) -> (usize, usize) {
    match reason {
        Reason::At(stop, _) => (stop.word, stop.column),
        Reason::Whole(_) | Reason::Nothing => (0, 0),
    }
}
