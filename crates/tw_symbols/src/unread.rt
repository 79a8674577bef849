//! Lines that aren't read: a text with a 65th head is rejected at that line at the latest.

use crate::line::{is_plainly_blank, take_line};
use crate::line_kind::{LineKind, kind_of};
use crate::names::{Names, is_name, known};
use crate::operand_text::put_ended;
use crate::pieces::pieces_of;
use crate::procedures::{Procedures, reads_heads};
use std::alloc::{AllocError, Global};
use tw_code::{Form, Program};

/// Returns whether the line of this number isn't read, since it is after the first head past the limit.
fn is_past(procedures: &Procedures<'_>, number: usize) -> bool {
    match procedures.heads.get(usize::from(Program::MAX_PROCEDURES)) {
        Some(head) => head.line < number,
        None => false,
    }
}

/// Returns whether the first operand of a call is a name without a meaning.
fn begins_unknown(procedures: &Procedures<'_>, names: &Names<'_>, words: &[&[u8]]) -> bool {
    match words {
        [word, ..] => is_name(word) && known(procedures, names, word).is_none(),
        [] => false,
    }
}

/// Returns whether operands of these forms are those of a call: the first is a procedure.
fn is_call(forms: &[Form]) -> bool {
    match forms {
        [Form::Callee, ..] => true,
        _ => false,
    }
}

/// Returns the operands of a line with these words if it calls a procedure; none of another line.
pub fn call_operands<'a>(alloc: Global, words: &[&'a [u8]]) -> Result<Vec<&'a [u8]>, AllocError> {
    let [first, others @ ..] = words else {
        return Ok(Vec::new(alloc));
    };
    match kind_of(first, others) {
        LineKind::Instruction(opcode) if is_call(opcode.forms()) => pieces_of(alloc, others),
        _ => Ok(Vec::new(alloc)),
    }
}

/// Returns whether a line calls a procedure whose name has no meaning.
fn is_open_call(
    alloc: Global,
    procedures: &Procedures<'_>,
    names: &Names<'_>,
    line: &str,
) -> Result<bool, AllocError> {
    let taken = take_line(alloc, line)?;
    let operands = call_operands(alloc, &taken.words)?;
    Ok(begins_unknown(procedures, names, &operands))
}

/// Returns the expansion of the line of this number if its words aren't read: nothing, RET, or the line itself if it has none.
fn unread<'a>(
    alloc: Global,
    procedures: &Procedures<'_>,
    number: usize,
    names: &Names<'_>,
    line: &'a str,
) -> Result<Option<&'a [u8]>, AllocError> {
    if is_past(procedures, number) {
        Ok(Some(b""))
    } else if is_plainly_blank(line) {
        Ok(Some(line.as_bytes()))
    } else if !reads_heads(procedures) && is_open_call(alloc, procedures, names, line)? {
        Ok(Some(b"RET"))
    } else {
        Ok(None)
    }
}

/// Adds the expansion of a line whose words aren't read. Returns whether it is such a line.
pub fn put_unread(
    alloc: Global,
    procedures: &Procedures<'_>,
    number: usize,
    names: &Names<'_>,
    out: &mut Vec<u8>,
    line: &str,
) -> Result<bool, AllocError> {
    match unread(alloc, procedures, number, names, line)? {
        Some(text) => {
            put_ended(out, text)?;
            Ok(true)
        }
        None => Ok(false),
    }
}
