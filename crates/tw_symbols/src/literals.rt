//! Numbers and texts as operands, which are expanded to hidden registers.

ghost use Rattle.std.specs.Prelude.{◌≡◌, ◌==◌, ◌&&◌, ◌↔◌, IfOk, IsTrue, None, length, nat_le};
ghost use Rattle.tw_symbols.specs.Renamed.{IsLiteral, IsQuotedText, NeedsNoRegister};
ghost use Rattle.tw_symbols.specs.Seen.{seen_names};

use crate::assigned::{LAST_REGISTER, register_of};
use crate::hidden::{is_same, opcode_for, type_for};
use crate::meaning::{Bank, Binding, Expected};
use crate::names::{Names, REGISTERS, known};
use crate::numbers::{natural, signed};
use crate::operand_text::put_plain;
use crate::procedures::Procedures;
use crate::rejection::{NameNo, Rejection};
use std::alloc::{AllocError, Global};
use tw_lexer::{put, put_numbered, quoted_text};
use tw_types::Text;

/// Returns whether a register may hold a text, and nothing follows it.
fn is_whole(text: &str, rest: &[u8]) -> bool
    ensures { result ≡ (length rest.now == 0) && nat_le (length text.now) 4096 }
{
    rest.is_empty() && text.len() <= Text::MAX_LEN
}

/// Returns whether a word is a quoted text that a register may hold.
fn is_text(alloc: Global, word: &[u8]) -> Result<bool, AllocError>
    ensures { IfOk result (λ is. IsTrue is ↔ IsQuotedText word.now) }
{
    let Ok(quoted) = str::from_utf8(word) else {
        return Ok(false);
    };
    match quoted_text(alloc, quoted.as_bytes())? {
        Some((text, rest)) => Ok(is_whole(text.as_str(), rest)),
        None => Ok(false),
    }
}

/// Returns whether a word is a number or a text that a register may hold.
pub fn is_literal(alloc: Global, word: &[u8]) -> Result<bool, AllocError>
    ensures { IfOk result (λ is. IsTrue is ↔ IsLiteral word.now) }
{
    match signed(word) {
        Some(_) => Ok(true),
        None => is_text(alloc, word),
    }
}

/// Returns the first hidden register of the procedure, if a word is a literal in the place of a register that is read.
pub fn first_for(
    alloc: Global,
    names: &Names<'_>,
    asked: Expected,
    word: &[u8],
) -> Result<Option<usize>, AllocError>
    ensures { IfOk result (λ first. first ≡ None → NeedsNoRegister (seen_names names.now) asked word.now) }
{
    match asked {
        Expected::Read if is_literal(alloc, word)? => Ok(names.first),
        _ => Ok(None),
    }
}

// ---- registers past those that are listed

/// Returns the value register that a word is in such a place, without a name.
fn value_of(asked: Expected, word: &[u8]) -> Option<usize> {
    if matches!(asked, Expected::ValueArgument) {
        return natural(word, LAST_REGISTER);
    }
    match register_of(word) {
        Some((Bank::Value, number)) => Some(number),
        _ => None,
    }
}

/// Returns the value register that a word means in such a place, if it means one.
fn value_at(
    procedures: &Procedures<'_>,
    names: &Names<'_>,
    asked: Expected,
    word: &[u8],
) -> Option<usize> {
    match asked {
        Expected::Value | Expected::Read | Expected::ValueArgument => {
            match known(procedures, names, word) {
                Some(Binding::Register(Bank::Value, number, _)) => Some(number),
                _ => value_of(asked, word),
            }
        }
        _ => None,
    }
}

/// Checks that a word means no hidden register, and notes whether it means one that the procedure doesn't list.
pub fn check_listed<'a>(
    procedures: &Procedures<'_>,
    names: &mut Names<'a>,
    asked: Expected,
    word: &'a [u8],
) -> Result<(), Rejection<'a>> {
    let (Some(first), Some(number)) = (names.first, value_at(procedures, names, asked, word)) else {
        return Ok(());
    };
    if number < first {
        return Ok(());
    }
    if !names.literals.is_empty() {
        return Err(Rejection::Flawed(NameNo::Hidden(first), word));
    }
    names.has_unlisted = true;
    Ok(())
}

// ---- hidden registers

/// Returns which literal of the procedure a word is, counted from 0.
fn place_of(literals: &[&[u8]], word: &[u8]) -> Option<usize> {
    literals.iter().position(|literal| is_same(word, literal))
}

/// Adds a literal to those of the procedure, and returns its place among them.
fn add_literal<'a>(
    names: &mut Names<'a>,
    first: usize,
    word: &'a [u8],
) -> Result<usize, Rejection<'a>> {
    let place = names.literals.len();
    if names.has_unlisted {
        return Err(Rejection::Flawed(NameNo::Used(first), word));
    }
    if REGISTERS <= first.saturating_add(place) {
        return Err(Rejection::Flawed(NameNo::Spent(first), word));
    }
    names.literals.push(word)?;
    Ok(place)
}

/// Adds a space and the hidden register of a literal, the first or a later one.
pub fn put_literal<'a>(
    names: &mut Names<'a>,
    out: &mut Vec<u8>,
    first: usize,
    word: &'a [u8],
) -> Result<(), Rejection<'a>> {
    let place = match place_of(&names.literals, word) {
        Some(place) => place,
        None => add_literal(names, first, word)?,
    };
    put_numbered(out, " v", first.saturating_add(place))?;
    Ok(())
}

/// Adds the types of the hidden registers.
pub fn put_types(out: &mut Vec<u8>, literals: &[&[u8]]) -> Result<(), AllocError> {
    for literal in literals {
        put_plain(out, type_for(literal))?;
    }
    Ok(())
}

/// Adds the lines that fill the hidden registers. Each begins with a blank.
pub fn put_fillings(out: &mut Vec<u8>, first: usize, literals: &[&[u8]]) -> Result<(), AllocError> {
    for (place, literal) in literals.iter().enumerate() {
        put_plain(out, opcode_for(literal))?;
        put_numbered(out, " v", first.saturating_add(place))?;
        put_plain(out, literal)?;
        put(out, "\n")?;
    }
    Ok(())
}
