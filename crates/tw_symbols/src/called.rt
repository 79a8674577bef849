//! The procedure that a line calls, for messages about its arguments.

use crate::instruction::callee_of;
use crate::line::take_line;
use crate::names::meaning;
use crate::procedures::{Procedures, procedures_of};
use crate::unread::call_operands;
use std::alloc::{AllocError, Global};
use tw_lexer::line_numbered;

/// Returns the number of the procedure that the first operand of a call means, by its name or number.
fn first_called(procedures: &Procedures<'_>, words: &[&[u8]]) -> Option<usize> {
    match words {
        [word, ..] => callee_of(meaning(&procedures.table, word), word),
        [] => None,
    }
}

/// Returns the number of the procedure that a line of text calls.
fn called_in_line(
    alloc: Global,
    procedures: &Procedures<'_>,
    line: &str,
) -> Result<Option<usize>, AllocError> {
    let taken = take_line(alloc, line)?;
    let operands = call_operands(alloc, &taken.words)?;
    Ok(first_called(procedures, &operands))
}

/// Returns the number of the line with the head of a procedure, from the symbols' list of heads.
fn head_line(procedures: &Procedures<'_>, number: Option<usize>) -> Option<usize> {
    let head = procedures.heads.get(number?)?;
    Some(head.line)
}

/// Returns the number of the line with the head of the procedure that the line of this number calls, if it calls one.
pub fn called_head(alloc: Global, text: &str, number: usize) -> Result<Option<usize>, AllocError> {
    let procedures = procedures_of(alloc, text)?;
    match line_numbered(text, number) {
        Some(line) => {
            let called = called_in_line(alloc, &procedures, line)?;
            Ok(head_line(&procedures, called))
        }
        None => Ok(None),
    }
}
