//! Hints: which word was meant by one that can't be where it is.

use crate::usual_words::is_usual;
use std::alloc::{AllocError, Global};
use tw_asm::Due;
use tw_code::{Form, OPCODES, Opcode, Version, opcode_in, word_of};
use tw_lexer::before_colon;
use tw_writer::{Piece, Writer};

/// A hint at the word that was meant.
#[derive(Clone, Copy)]
pub enum Hint {
    Nothing,
    /// This is to be known about the word.
    Note(&'static str),
    /// The word is nearly this one.
    Meant(&'static str),
}

// ---- words that are near

/// Returns the letters of a word after the first.
fn later_letters(word: &[u8]) -> &[u8] {
    match word {
        [] => word,
        [_, others @ ..] => others,
    }
}

/// Returns whether the first two letters are swapped, and nothing else is wrong.
fn is_swapped(name: &[u8], word: &[u8]) -> bool {
    match name {
        [a, b, others @ ..] => match word {
            [c, d, more @ ..] => a == d && b == c && others == more,
            _ => false,
        },
        _ => false,
    }
}

/// Returns whether the first letter alone is wrong, missing, one too many, or swapped with the next.
fn is_one_edit(name: &[u8], word: &[u8]) -> bool {
    let name_rest = later_letters(name);
    let word_rest = later_letters(word);
    name_rest == word_rest || name_rest == word || name == word_rest || is_swapped(name, word)
}

/// Returns whether a word is this name with at most one mistake, so that a hint names it.
pub fn is_near(name: &[u8], word: &[u8]) -> bool {
    match name {
        [] => word.len() < 2,
        [a, others @ ..] => match word {
            [] => is_one_edit(name, word),
            [b, more @ ..] => {
                if a == b {
                    is_near(others, more)
                } else {
                    is_one_edit(name, word)
                }
            }
        },
    }
}

/// Returns the hint that the first of these names to which a word is near was meant.
fn near_hint(names: &[&'static str], word: &[u8]) -> Hint {
    for name in names {
        if is_near(name.as_bytes(), word) {
            return Hint::Meant(*name);
        }
    }
    Hint::Nothing
}

// ---- the first word of a line

/// Returns the instruction of the version that is a word in upper case, or else the first one near it.
fn opcode_near(version: Version, word: &[u8]) -> Option<Opcode> {
    let near = OPCODES.iter().copied().find(|opcode| opcode.is_in(version)
        && is_near(word_of(*opcode).as_bytes(), word));
    opcode_in(version, word).or(near)
}

/// Returns the hint with the instruction that was meant by a word.
pub(crate) fn instruction_hint(
    alloc: Global,
    version: Version,
    word: &[u8],
) -> Result<Hint, AllocError> {
    if opcode_in(Version::Two, word).is_some() {
        return Ok(Hint::Note("version 2 has it"));
    }
    if opcode_in(Version::Four, word).is_some() {
        return Ok(Hint::Note("version 4 has it"));
    }
    if opcode_in(Version::Five, word).is_some() {
        return Ok(Hint::Note("version 5 has it"));
    }
    let capitals = word.to_ascii_uppercase(alloc)?;
    if capitals.as_slice() == b"JGT".as_slice() {
        return Ok(Hint::Note("JLT with its operands exchanged is this"));
    }
    match opcode_near(version, &capitals) {
        Some(opcode) if !is_usual(&capitals) => Ok(Hint::Meant(word_of(opcode))),
        _ => Ok(Hint::Nothing),
    }
}

/// Returns the hint for the first word of a line, whatever was due there, else the other hint.
pub(crate) fn first_hint(word: &[u8], other: Hint) -> Hint {
    if word.starts_with(b"#") || word.starts_with(b"//") {
        Hint::Note("a comment begins with ;")
    } else if word == b"names".as_slice() {
        Hint::Note("names is alone in the first line of a text")
    } else {
        other
    }
}

// ---- a later word

/// Returns the hint for a word in the place of a type: the version that has it, or one near.
fn type_hint(word: &[u8]) -> Hint {
    if word == b"tcont".as_slice() {
        Hint::Note("version 2 has it")
    } else if word == b"map".as_slice() || word == b"tmap".as_slice() || word == b"sum".as_slice() {
        Hint::Note("version 4 has it")
    } else {
        near_hint(&["int", "text", "cont", "tcont"], word)
    }
}

/// Returns whether a word begins like a number.
fn begins_number(word: &[u8]) -> bool {
    match word {
        [first, ..] => first.is_ascii_digit() || *first == b'-',
        [] => false,
    }
}

/// Returns the hint for a word in the place of an operand of this form.
fn operand_hint(form: Form, word: &[u8]) -> Hint {
    match form {
        Form::TypeOf => type_hint(word),
        Form::Value if begins_number(word) => Hint::Note("INT puts a number into a register"),
        Form::Iterations if word.starts_with(b"v") => {
            Hint::Note("REPEAT takes a constant; a skip to END ends an iteration")
        }
        _ => Hint::Nothing,
    }
}

/// Returns the hint for a word of a line at which this was due.
pub(crate) fn word_hint(alloc: Global, due: Due, word: &[u8]) -> Result<Hint, AllocError> {
    let small = word.to_ascii_lowercase(alloc)?;
    Ok(match due {
        Due::Operand(form) => operand_hint(form, &small),
        Due::Kind => near_hint(&["control", "leaf"], &small),
        Due::Param => near_hint(&["val", "closed", "ref", "write"], &small),
        Due::ParamType => type_hint(&small),
        Due::Values => near_hint(&["int", "text", "sum"], &small),
        Due::ParamScalar | Due::Register => near_hint(&["int", "text"], &small),
        _ => Hint::Nothing,
    })
}

/// Returns the hint where a line with this first word may only end.
pub(crate) fn end_hint(first: &[u8]) -> Hint {
    match before_colon(first) {
        Some(_) => Hint::Note("a label is alone in its line"),
        None => Hint::Nothing,
    }
}

// ---- as text

/// Adds the text of a hint to a diagnostic.
pub(crate) fn put_hint(out: &mut Writer, hint: Hint) {
    match hint {
        Hint::Nothing => {}
        Hint::Note(note) => out.put_all(&[Piece::Text("; "), Piece::Text(note)]),
        Hint::Meant(name) => out.put_all(&[
            Piece::Text("; did you mean "),
            Piece::Text(name),
            Piece::Text("?"),
        ]),
    }
}
