//! Compares the words of an instruction with those of its expansion.

ghost use Rattle.std.specs.Prelude.{◌≡◌, IfOk, IsTrue, Some, option_map};
ghost use Rattle.std.specs.Fmt.{signed_decimal};
ghost use Rattle.std.specs.Result.{result_ok};
ghost use Rattle.tw_lexer.specs.Digits.{digits_in};
ghost use Rattle.tw_symbols.specs.LineNames.{register_of};
ghost use Rattle.tw_symbols.specs.Renamed.{AreMade, AreOperands, IsAt, IsMade, IsOperand, IsWord, value_at, value_of};
ghost use Rattle.tw_symbols.specs.Meanings.{and_then, literal_at};
ghost use Rattle.tw_symbols.specs.Seen.{now, seen_names, seen_procedures, texts};

use crate::assigned::register_of;
use crate::hidden::{is_same, literal_at, read_hidden};
use crate::literals::first_for;
use crate::meaning::{Bank, Binding, Expected, is_bank};
use crate::names::{Names, add_listed, is_name, known};
use crate::numbers::natural;
use crate::procedures::Procedures;
use crate::rejection::taken;
use itoa::Buffer;
use std::alloc::{AllocError, Global};

/// Returns whether a word of assembly text is this register.
fn is_register(plain: &[u8], bank: Bank, number: usize) -> bool
    ensures { IsTrue result → register_of plain.now ≡ Some (bank, number) }
{
    match register_of(plain) {
        Some((found, place)) => is_bank(bank, found) && number == place,
        None => false,
    }
}

/// Returns whether a word of assembly text is this number, of digits and at most `most`.
fn is_natural(plain: &[u8], most: u64, number: usize) -> bool
    ensures { IsTrue result → result_ok (digits_in 0 most plain.now) ≡ Some number }
{
    match natural(plain, most) {
        Some(found) => found == number,
        None => false,
    }
}

/// Returns whether a word of assembly text is this signed number in decimal.
fn is_signed(plain: &[u8], number: i64) -> bool
    ensures { IsTrue result → plain.now ≡ signed_decimal number }
{
    let mut digits = Buffer::new();
    plain == digits.format(number).as_bytes()
}

/// Returns whether a word, read in such a place, is what a name means.
fn is_at(place: Expected, binding: Binding, plain: &[u8]) -> bool
    ensures { IsTrue result → IsAt place binding plain.now }
{
    match binding {
        Binding::Constant(number) => match place {
            Expected::Number => is_signed(plain, number),
            _ => false,
        },
        Binding::Register(Bank::Value, number, _) => match place {
            Expected::Value | Expected::Read => is_register(plain, Bank::Value, number),
            Expected::ValueArgument => is_natural(plain, 15, number),
            _ => false,
        },
        Binding::Register(Bank::Right, number, _) => match place {
            Expected::Right => is_register(plain, Bank::Right, number),
            Expected::RightArgument => is_natural(plain, 15, number),
            _ => false,
        },
        Binding::Procedure(number) => match place {
            Expected::Procedure => is_natural(plain, 255, number),
            _ => false,
        },
    }
}

/// Returns the number of a register, if it is a value register.
fn value_of(register: Option<(Bank, usize)>) -> Option<usize>
    ensures { result ≡ value_of register }
{
    match register {
        Some((Bank::Value, number)) => Some(number),
        _ => None,
    }
}

/// Returns the value register that a word of assembly text is in such a place, if it is one.
fn value_at(place: Expected, plain: &[u8]) -> Option<usize>
    ensures { result ≡ value_at place plain.now }
{
    match place {
        Expected::Value | Expected::Read => value_of(register_of(plain)),
        Expected::ValueArgument => natural(plain, 15),
        _ => None,
    }
}

/// Returns the literal that fills a value register, if there is one and it is hidden.
fn literal_in<'a>(names: &Names<'a>, number: Option<usize>) -> Option<&'a [u8]>
    ensures { option_map now result ≡ and_then number (literal_at (seen_names names.now)) }
{
    literal_at(names, number?)
}

/// Returns whether a word stays, or is a name and replaced by what it means.
fn is_word(
    procedures: &Procedures<'_>,
    names: &Names<'_>,
    place: Expected,
    word: &[u8],
    plain: &[u8],
) -> bool
    ensures { IsTrue result → IsWord (seen_procedures procedures.now) (seen_names names.now) place word.now plain.now }
{
    if matches!(place, Expected::Nothing) || !is_name(word) {
        return plain == word;
    }
    match known(procedures, names, word) {
        Some(binding) => is_at(place, binding, plain),
        None => false,
    }
}

/// Returns whether an operand is in its place: as it was, a name's meaning, or the hidden register of a literal; and notes that this is read.
#[tactic(auto, unfolding(crate::specs::Renamed::IsOperand))]
fn is_operand(
    alloc: Global,
    procedures: &Procedures<'_>,
    names: &mut Names<'_>,
    place: Expected,
    word: &[u8],
    plain: &[u8],
) -> Result<bool, AllocError>
    ensures { IfOk result (λ is. IsTrue is → IsOperand (seen_procedures procedures.now) (seen_names names.old) place word.now plain.now (seen_names names.new)) }
{
    let number = value_at(place, plain);
    match literal_in(names, number) {
        Some(literal) => {
            let read = matches!(place, Expected::Read) && is_same(word, literal);
            Ok(read && read_hidden(names, number))
        }
        None => {
            let first = first_for(alloc, names, place, word)?;
            Ok(first.is_none() && is_word(procedures, names, place, word, plain))
        }
    }
}

/// Returns whether the words are the same.
pub fn are_same(words: &[&[u8]], plains: &[&[u8]]) -> bool
    ensures { IsTrue result → texts plains.now ≡ texts words.now }
{
    match words {
        [] => plains.is_empty(),
        [word, others @ ..] => match plains {
            [plain, more @ ..] => plain == word && are_same(others, more),
            [] => false,
        },
    }
}

/// Returns whether words are in their places, and notes which hidden registers are read.
pub fn are_operands(
    alloc: Global,
    procedures: &Procedures<'_>,
    names: &mut Names<'_>,
    places: &[Expected],
    words: &[&[u8]],
    plains: &[&[u8]],
) -> Result<bool, AllocError>
    ensures { IfOk result (λ is. IsTrue is → AreOperands (seen_procedures procedures.now) (seen_names names.old) places.now (texts words.now) (texts plains.now) (seen_names names.new)) }
{
    match (places, words, plains) {
        ([], _, _) => Ok(are_same(words, plains)),
        (_, [], []) => Ok(true),
        ([place, left @ ..], [word, others @ ..], [plain, more @ ..]) => {
            Ok(
                is_operand(alloc, procedures, names, *place, word, plain)?
                    && are_operands(alloc, procedures, names, left, others, more)?,
            )
        }
        _ => Ok(false),
    }
}

/// Names the register that a word of the expansion is. Returns whether it is a right register that may have the name.
fn add_made<'a>(
    procedures: &Procedures<'_>,
    names: &mut Names<'a>,
    word: &'a [u8],
    plain: &[u8],
) -> Result<bool, AllocError>
    ensures { IfOk result (λ is. IsTrue is → IsMade (seen_procedures procedures.now) (seen_names names.old) word.now plain.now (seen_names names.new)) }
{
    match register_of(plain) {
        Some((Bank::Right, number)) if names.rights <= number => {
            taken(add_listed(procedures, names, word, Bank::Right, number))
        }
        _ => Ok(false),
    }
}

/// Returns whether a word is a right register that an instruction fills, and adds its name if it has no meaning yet.
fn is_made<'a>(
    procedures: &Procedures<'_>,
    names: &mut Names<'a>,
    word: &'a [u8],
    plain: &[u8],
) -> Result<bool, AllocError>
    ensures { IfOk result (λ is. IsTrue is → IsMade (seen_procedures procedures.now) (seen_names names.old) word.now plain.now (seen_names names.new)) }
{
    if is_name(word) && known(procedures, names, word).is_none() {
        add_made(procedures, names, word, plain)
    } else {
        Ok(is_word(procedures, names, Expected::Right, word, plain))
    }
}

/// Returns whether these words are right registers that an instruction fills, and adds the names that have no meaning yet.
pub fn are_made<'a>(
    procedures: &Procedures<'_>,
    names: &mut Names<'a>,
    words: &[&'a [u8]],
    plains: &[&[u8]],
) -> Result<bool, AllocError>
    ensures { IfOk result (λ is. IsTrue is → AreMade (seen_procedures procedures.now) (seen_names names.old) (texts words.now) (texts plains.now) (seen_names names.new)) }
{
    match (words, plains) {
        ([], []) => Ok(true),
        ([word, others @ ..], [plain, more @ ..]) => {
            Ok(
                is_made(procedures, names, word, plain)?
                    && are_made(procedures, names, others, more)?,
            )
        }
        _ => Ok(false),
    }
}
