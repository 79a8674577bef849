//! Says why a word encodes no input. What a line says after the number and the word is advice.

ghost use Rattle.tw_inputs.specs.WordErrors.{IsRejection};

use crate::words::WordError;
use std::alloc::{AllocError, Global};
use tw_lexer::{TokenError, number, put, put_both, put_numbered, put_shortened_quoted};

/// Says what is wrong with the number after `int:`.
fn number_diagnostic(text: &[u8]) -> &'static str {
    match number(text) {
        Err(TokenError::Limit) => "the number isn't within 64 bits",
        _ => "expected a number in decimal digits after int:",
    }
}

/// Says what is wrong with the members of a container. `texts` is set if subscripts or values are texts.
fn list_diagnostic(texts: bool, list: &[u8]) -> &'static str {
    if list.ends_with(b",") {
        "nothing follows the last comma, and a list has no blanks outside of quotes; expected "
    } else if !list.contains(&b'=') {
        "a member has no =; expected "
    } else if texts && !list.contains(&b'"') {
        "a text is between quotes; expected "
    } else {
        "expected "
    }
}

/// Appends what is wrong with members, and the expected form.
fn put_members(out: &mut Vec<u8>, texts: bool, list: &[u8], form: &str) -> Result<(), AllocError> {
    put_both(out, list_diagnostic(texts, list), form)
}

/// Appends what is wrong with a word that begins with none of `int:`, `ints:` and `texts:`.
fn put_text_diagnostic(out: &mut Vec<u8>, word: &[u8]) -> Result<(), AllocError> {
    if word.starts_with(b"tints:") {
        let form = "\"TEXT\"=NUMBER,\"TEXT\"=NUMBER with \\\", \\\\, \\n or \\xHH in a text";
        put_members(out, true, &word[6..], form)
    } else if word.starts_with(b"ttexts:") {
        let form = "\"TEXT\"=\"TEXT\",\"TEXT\"=\"TEXT\" with \\\", \\\\, \\n or \\xHH in a text";
        put_members(out, true, &word[7..], form)
    } else {
        put(
            out,
            "expected int:, ints:, text:, texts:, tints: or ttexts: before it",
        )
    }
}

/// Appends what is wrong with a word.
fn put_diagnostic(out: &mut Vec<u8>, word: &[u8]) -> Result<(), AllocError> {
    if word.starts_with(b"int:") {
        put(out, number_diagnostic(&word[4..]))
    } else if word.starts_with(b"ints:") {
        let form = "NUMBER=NUMBER,NUMBER=NUMBER with numbers within 64 bits";
        put_members(out, false, &word[5..], form)
    } else if word.starts_with(b"texts:") {
        let form = "NUMBER=\"TEXT\",NUMBER=\"TEXT\" with \\\", \\\\, \\n or \\xHH in a text";
        put_members(out, true, &word[6..], form)
    } else {
        put_text_diagnostic(out, word)
    }
}

/// Returns the line on a word that encodes no input.
fn diagnostic_line(alloc: Global, number: usize, word: &[u8]) -> Result<Vec<u8>, AllocError> {
    let mut line = Vec::new(alloc);
    put_numbered(&mut line, "input ", number)?;
    put(&mut line, ": ")?;
    put_shortened_quoted(&mut line, word)?;
    put(&mut line, ": ")?;
    put_diagnostic(&mut line, word)?;
    put(&mut line, "\n")?;
    Ok(line)
}

/// Returns the error for an input word with this number. Input words count from 1.
pub(crate) fn refused_word(alloc: Global, number: usize, word: &str) -> WordError
    ensures { IsRejection number result }
{
    match diagnostic_line(alloc, number, word.as_bytes()) {
        Ok(line) => WordError::Refused(number, line),
        Err(_) => WordError::NoMemory,
    }
}
