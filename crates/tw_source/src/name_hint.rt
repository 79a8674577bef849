//! The end of a name error: the name that was meant, and the head of the procedure that the line calls.

use crate::source::put_text_line;
use std::alloc::{AllocError, Global};
use tw_diagnostics::is_near;
use tw_lexer::{line_numbered, put};
use tw_symbols::{Expected, NameNo, Symbols, called_head};

/// The words of modes and types.
const LISTED_WORDS: [&str; 11] = [
    "int", "text", "cont", "tcont", "map", "tmap", "sum", "val", "closed", "ref", "write",
];

/// Returns whether there is a name, and the word is it with at most one mistake.
fn is_meant(word: &[u8], name: &[u8]) -> bool {
    match name {
        [] => false,
        [_, ..] => is_near(name, word),
    }
}

/// Adds the name that was meant, as a question.
fn put_meant(out: &mut Vec<u8>, name: &[u8]) -> Result<(), AllocError> {
    put(out, "; did you mean ")?;
    out.extend_from_slice(name)?;
    put(out, "?")
}

/// Adds the name of a procedure that was meant, if one was. A text whose calls are read has few.
fn put_procedure_meant(
    alloc: Global,
    out: &mut Vec<u8>,
    text: &str,
    word: &[u8],
) -> Result<(), AllocError> {
    let symbols = Symbols::of(alloc, text)?;
    for name in symbols.names() {
        if is_meant(word, name.as_slice()) {
            return put_meant(out, name.as_slice());
        }
    }
    Ok(())
}

/// Adds the word of modes and types that was meant, if one was.
fn put_listed_meant(out: &mut Vec<u8>, word: &[u8]) -> Result<(), AllocError> {
    for name in &LISTED_WORDS {
        if is_meant(word, name.as_bytes()) {
            return put_meant(out, name.as_bytes());
        }
    }
    Ok(())
}

/// Adds the name that was meant by a word, if one was.
pub fn put_name_hint(
    alloc: Global,
    out: &mut Vec<u8>,
    text: &str,
    no: NameNo,
    word: &[u8],
) -> Result<(), AllocError> {
    match no {
        NameNo::Unlisted => put_listed_meant(out, word),
        NameNo::Unknown(Expected::Procedure) => put_procedure_meant(alloc, out, text, word),
        _ => Ok(()),
    }
}

/// Adds the line with the head of the procedure that a line calls, with its number, if it calls one.
pub fn put_head(
    alloc: Global,
    out: &mut Vec<u8>,
    text: &str,
    line: usize,
) -> Result<(), AllocError> {
    let Some(number) = called_head(alloc, text, line)? else {
        return Ok(());
    };
    match line_numbered(text, number) {
        Some(line) => put_text_line(alloc, out, number, line),
        None => Ok(()),
    }
}

/// Returns whether an argument has another meaning than required.
pub fn is_argument(no: NameNo) -> bool {
    match no {
        NameNo::Kind(_, Expected::ValueArgument | Expected::RightArgument) => true,
        _ => false,
    }
}
