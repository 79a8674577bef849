//! Expansion of lines `const` and `let`.

ghost use Rattle.std.specs.Prelude.{◌≡◌, [], IfOk, OnOk, Some, drop};
ghost use Rattle.tw_symbols.specs.Answers.{IsAssigned};
ghost use Rattle.tw_symbols.specs.LineNames.{bank_of_letter, names_after_constant, names_after_let, number_of, register_in, register_of, value_after};
ghost use Rattle.tw_symbols.specs.Seen.{now, seen_names, seen_procedures, texts};

use crate::meaning::{Bank, Origin};
use crate::names::{Names, add_constant, add_register, may_name};
use crate::numbers::{natural, signed};
use crate::procedures::Procedures;
use crate::rejection::{NameNo, Rejection};

/// The number of a bank's last register.
pub const LAST_REGISTER: u64 = 15;

/// Returns the word after `=`, from the words after a name.
///
/// If a word is missing, the error names the line's first word.
fn assigned<'a>(first: &'a [u8], words: &[&'a [u8]]) -> Result<&'a [u8], Rejection<'a>>
    ensures { IfOk result (λ word. IsAssigned (texts words.now) word.now) }
{
    match words {
        [] => Err(Rejection::Flawed(NameNo::Form, first)),
        [sign, ..] if *sign != b"=".as_slice() => Err(Rejection::Flawed(NameNo::Form, *sign)),
        [_, word, ..] => Ok(*word),
        [_] => Err(Rejection::Flawed(NameNo::Form, first)),
    }
}

/// Returns an error if a line `const` or `let` has a word after `=` and the value.
fn nothing_after<'a>(words: &[&'a [u8]]) -> Result<(), Rejection<'a>>
    ensures { OnOk result (drop 2 (texts words.now) ≡ []) }
{
    match words {
        [_, _, word, ..] => Err(Rejection::Flawed(NameNo::Form, *word)),
        _ => Ok(()),
    }
}

/// Returns the number after `=`, from the words after a constant's name.
#[tactic(auto, using(crate::proofs::Naming::assigned_value))]
fn number_after<'a>(first: &'a [u8], words: &[&'a [u8]]) -> Result<i64, Rejection<'a>>
    ensures { IfOk result (λ number. value_after number_of (texts words.now) ≡ Some number) }
{
    let word = assigned(first, words)?;
    let Some(number) = signed(word) else {
        return Err(Rejection::Flawed(NameNo::Form, word));
    };
    nothing_after(words)?;
    Ok(number)
}

/// Returns the register after `=`, from the words after its name.
#[tactic(auto, using(crate::proofs::Naming::assigned_value))]
fn register_after<'a>(first: &'a [u8], words: &[&'a [u8]]) -> Result<(Bank, usize), Rejection<'a>>
    ensures { IfOk result (λ register. value_after register_of (texts words.now) ≡ Some register) }
{
    let word = assigned(first, words)?;
    let Some(register) = register_of(word) else {
        return Err(Rejection::Flawed(NameNo::Form, word));
    };
    nothing_after(words)?;
    Ok(register)
}

/// Returns the bank of the letter of a register's word: `v` for values, `d` for rights.
fn bank_of_letter(byte: u8) -> Option<Bank>
    ensures { result ≡ bank_of_letter byte }
{
    match byte {
        b'v' => Some(Bank::Value),
        b'd' => Some(Bank::Right),
        _ => None,
    }
}

/// Returns the register of a word such as `v3`, if both its bank and its number could be read.
fn register_in(bank: Option<Bank>, number: Option<usize>) -> Option<(Bank, usize)>
    ensures { result ≡ register_in bank number }
{
    Some((bank?, number?))
}

/// Returns the register that a word such as `v3` of symbolic assembly means, without names.
pub fn register_of(word: &[u8]) -> Option<(Bank, usize)>
    ensures { result ≡ register_of word.now }
{
    match word {
        [letter, digits @ ..] => register_in(
            bank_of_letter(*letter),
            natural(digits, LAST_REGISTER),
        ),
        [] => None,
    }
}

/// Adds the name that a line `const` gives to a number.
pub fn add_const<'a>(
    procedures: &Procedures<'_>,
    names: &mut Names<'a>,
    first: &'a [u8],
    words: &[&'a [u8]],
) -> Result<(), Rejection<'a>>
    ensures { OnOk result (names_after_constant (seen_procedures procedures.now) (seen_names names.old) (texts words.now) ≡ Some (seen_names names.new)) }
{
    let [name, others @ ..] = words else {
        return Err(Rejection::Flawed(NameNo::Form, first));
    };
    may_name(procedures, names, name)?;
    let number = number_after(first, others)?;
    add_constant(procedures, names, name, number)
}

/// Adds the name that a line `let` gives to a register.
pub fn add_let<'a>(
    procedures: &Procedures<'_>,
    names: &mut Names<'a>,
    first: &'a [u8],
    words: &[&'a [u8]],
) -> Result<(), Rejection<'a>>
    ensures { OnOk result (names_after_let (seen_procedures procedures.now) (seen_names names.old) (texts words.now) ≡ Some (seen_names names.new)) }
{
    let [name, others @ ..] = words else {
        return Err(Rejection::Flawed(NameNo::Form, first));
    };
    may_name(procedures, names, name)?;
    let (bank, number) = register_after(first, others)?;
    add_register(procedures, names, name, bank, number, Origin::Chosen)
}
