//! Hidden registers, which hold the numbers and texts among the operands of a procedure.

ghost use Rattle.std.specs.Prelude.{◌≡◌, IfOk, IsTrue, Some, filter, length, option_map, slice_get, take};
ghost use Rattle.std.specs.List.{list_all, list_any};
ghost use Rattle.std.specs.Str.Lines.{lines};
ghost use Rattle.tw_symbols.specs.Expansion.{written_line};
ghost use Rattle.tw_symbols.specs.Lines.{IsTaken, Line, line_words};
ghost use Rattle.tw_symbols.specs.Meanings.{literal_at, literal_from, names_after_reading, with_read};
ghost use Rattle.tw_symbols.specs.Renamed.{AreHidden, IsFilled, IsFilling, IsNextRegister, begins_quoted, is_same, is_type, is_written, opcode_for, same_number, type_for};
ghost use Rattle.tw_symbols.specs.Seen.{now, seen_names, texts};

use crate::assigned::register_of;
use crate::line::take_line;
use crate::literals::is_literal;
use crate::meaning::Bank;
use crate::names::{Names, REGISTERS};
use crate::numbers::signed;
use std::alloc::{AllocError, Global};

/// Returns whether a word begins with a quote.
pub fn begins_quoted(word: &[u8]) -> bool
    ensures { result ≡ begins_quoted word.now }
{
    match word {
        [byte, ..] => *byte == b'"',
        [] => false,
    }
}

/// Returns whether there are two numbers, and they are one.
fn same_number(number: Option<i64>, other: Option<i64>) -> bool
    ensures { result ≡ same_number number other }
{
    match (number, other) {
        (Some(number), Some(other)) => number == other,
        _ => false,
    }
}

/// Returns whether two words are the same literal: one number, or the same quoted text.
pub fn is_same(word: &[u8], other: &[u8]) -> bool
    ensures { result ≡ is_same word.now other.now }
{
    if begins_quoted(word) {
        other == word
    } else {
        same_number(signed(word), signed(other))
    }
}

/// Returns whether a literal is among these.
fn is_among(literal: &[u8], literals: &[&[u8]]) -> bool
    ensures { result ≡ list_any (is_same literal.now) (texts literals.now) }
{
    match literals {
        [other, others @ ..] => is_same(literal, other) || is_among(literal, others),
        [] => false,
    }
}

/// Returns the literal that fills a value register, if it is a hidden one after this first one.
fn literal_from<'a>(first: Option<usize>, literals: &[&'a [u8]], number: usize) -> Option<&'a [u8]>
    ensures { option_map now result ≡ literal_from first (texts literals.now) number }
{
    let first = first?;
    if number < first {
        None
    } else {
        literals.get(number - first).copied()
    }
}

/// Returns the literal that fills a value register, if it is a hidden one.
pub fn literal_at<'a>(names: &Names<'a>, number: usize) -> Option<&'a [u8]>
    ensures { option_map now result ≡ literal_at (seen_names names.now) number }
{
    literal_from(names.first, &names.literals, number)
}

/// Notes that the hidden register of this index is read. Returns whether all before it are.
fn read_index(names: &mut Names<'_>, index: usize) -> bool
    ensures { IsTrue result → with_read (seen_names names.old) index ≡ Some (seen_names names.new) }
{
    if index < names.read {
        return true;
    }
    if index == names.read && index < REGISTERS {
        names.read = index + 1;
        return true;
    }
    false
}

/// Notes that a hidden register is read. Returns whether it is one, and all before it are read.
pub fn read_hidden(names: &mut Names<'_>, number: Option<usize>) -> bool
    ensures { IsTrue result → names_after_reading (seen_names names.old) (seen_names names.old).first number ≡ Some (seen_names names.new) }
{
    match (names.first, number) {
        (Some(first), Some(number)) => read_index(names, number.saturating_sub(first)),
        _ => false,
    }
}

/// Returns whether a line of an expanded text is that of a written line: one that is hidden begins with a blank.
pub fn is_written(line: &str) -> bool
    ensures { result ≡ is_written line.now }
{
    match line.as_bytes() {
        [byte, ..] => *byte != b' ',
        [] => true,
    }
}

/// Returns the number of the line whose expansion has the line of this number of an expanded text, both from 1.
pub fn written_line(plain: &str, number: usize) -> usize
    ensures { result ≡ written_line plain.now number }
{
    let lines = plain.lines().take(number);
    lines.filter(|line| is_written(line)).count()
}

/// Returns the name of the instruction that fills a register with a literal.
pub fn opcode_for(literal: &[u8]) -> &'static [u8]
    ensures { result.now ≡ opcode_for literal.now }
{
    if begins_quoted(literal) {
        b"TEXT"
    } else {
        b"INT"
    }
}

/// Returns the type of a register that may hold a literal.
pub fn type_for(literal: &[u8]) -> &'static [u8]
    ensures { result.now ≡ type_for literal.now }
{
    if begins_quoted(literal) {
        b"text"
    } else {
        b"int"
    }
}

/// Returns the type of the next hidden register, if there is one.
fn next_type<'a>(names: &Names<'a>) -> Option<&'a [u8]>
    ensures { option_map now result ≡ slice_get (seen_names names.now).hidden (length (seen_names names.now).literals) }
{
    names.hidden.get(names.literals.len()).copied()
}

/// Returns whether the next hidden register has the type of a literal.
fn has_type(names: &Names<'_>, literal: &[u8]) -> bool
    ensures { IsTrue result → slice_get (seen_names names.now).hidden (length (seen_names names.now).literals) ≡ Some (type_for literal.now) }
{
    match next_type(names) {
        Some(word) => word == type_for(literal),
        None => false,
    }
}

/// Returns whether a word is the type of a hidden register.
fn is_type(word: &[u8]) -> bool
    ensures { result ≡ is_type word.now }
{
    word == b"int".as_slice() || word == b"text".as_slice()
}

/// Returns whether each word is the type of a hidden register.
fn are_types(words: &[&[u8]]) -> bool
    ensures { result ≡ list_all is_type (texts words.now) }
{
    match words {
        [word, others @ ..] => is_type(word) && are_types(others),
        [] => true,
    }
}

/// Returns whether the last of so many types may be those of hidden registers.
pub fn are_hidden(count: usize, words: &[&[u8]]) -> bool
    ensures { IsTrue result → AreHidden count (texts words.now) }
{
    match words {
        [] => true,
        _ => count <= REGISTERS && are_types(words),
    }
}

/// Returns whether a word is the next hidden register.
fn is_next(names: &Names<'_>, register: &[u8]) -> bool
    ensures { IsTrue result → IsNextRegister (seen_names names.now) register.now }
{
    match (names.first, register_of(register)) {
        (Some(first), Some((Bank::Value, number))) => {
            first <= number && number - first == names.literals.len()
        }
        _ => false,
    }
}

/// Returns whether an instruction of these words fills the next hidden register with a literal, and adds that.
fn is_filling<'a>(
    alloc: Global,
    names: &mut Names<'a>,
    opcode: &[u8],
    register: &[u8],
    literal: &'a [u8],
) -> Result<bool, AllocError>
    ensures { IfOk result (λ is. IsTrue is → IsFilling (seen_names names.old) opcode.now register.now literal.now (seen_names names.new)) }
{
    let is_one = is_literal(alloc, literal)?;
    let is_new = !is_among(literal, &names.literals);
    if is_one
        && is_new
        && has_type(names, literal)
        && opcode == opcode_for(literal)
        && is_next(names, register)
    {
        names.literals.push(literal)?;
        Ok(true)
    } else {
        Ok(false)
    }
}

/// Returns whether these words of a hidden line fill the next hidden register with a literal, and adds that.
fn are_filled<'a>(
    alloc: Global,
    names: &mut Names<'a>,
    words: &[&'a [u8]],
) -> Result<bool, AllocError>
    ensures { IfOk result (λ is. IsTrue is → IsFilled (seen_names names.old) (texts words.now) (seen_names names.new)) }
{
    match words {
        [opcode, register, literal] => is_filling(alloc, names, opcode, register, literal),
        _ => Ok(false),
    }
}

/// Returns whether a hidden line fills the next hidden register with a literal, and adds that.
pub fn is_filled<'a>(
    alloc: Global,
    names: &mut Names<'a>,
    plain: &'a str,
) -> Result<bool, AllocError>
    ensures { IfOk result (λ is. IsTrue is → (taken : Line) × IsTaken taken plain.now × IsFilled (seen_names names.old) (line_words taken) (seen_names names.new)) }
{
    let taken = take_line(alloc, plain)?;
    are_filled(alloc, names, &taken.words)
}
