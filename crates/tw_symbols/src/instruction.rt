//! Expansion of lines of instructions.

ghost use Rattle.std.specs.Prelude.{◌≡◌, ◌++◌, IfOk, OnOk, take};
ghost use Rattle.std.specs.List.{flat_map};
ghost use Rattle.std.specs.Result.{result_ok};
ghost use Rattle.tw_lexer.specs.Digits.{digits_in};
ghost use Rattle.tw_symbols.specs.Meanings.{known};
ghost use Rattle.tw_symbols.specs.LineNames.{argument_of, compares, expected_in, expected_of, banks_at, banks_of, callee, makes};
ghost use Rattle.tw_symbols.specs.Seen.{seen_names, seen_procedures, texts};

use crate::meaning::{Bank, Binding, Expected, Origin};
use crate::names::{Names, add_register, is_name, known};
use crate::numbers::natural;
use crate::operand_text::{count, expected_after, first_words, put_word, put_words, words_after};
use crate::procedures::Procedures;
use crate::rejection::Rejection;
use std::alloc::{AllocError, Global};
use tw_code::{Form, Opcode};

/// The greatest number of a procedure in a line.
const LAST_PROCEDURE: u64 = 255;

/// Returns what an argument for a register of this bank has to be.
fn argument_of(bank: Bank) -> Expected
    ensures { result ≡ argument_of bank }
{
    match bank {
        Bank::Value => Expected::ValueArgument,
        Bank::Right => Expected::RightArgument,
    }
}

/// Adds what an operand of a form has to be, if the procedure's parameters are of these banks.
fn push_expected(asked: &mut Vec<Expected>, banks: &[Bank], form: Form) -> Result<(), AllocError>
    ensures { OnOk result (asked.new.items ≡ asked.old.items ++ expected_of banks.now form) }
{
    match form {
        Form::Value => asked.push(Expected::Read)?,
        Form::Right => asked.push(Expected::Right)?,
        Form::Number | Form::Iterations | Form::Target => asked.push(Expected::Number)?,
        Form::Callee => asked.push(Expected::Procedure)?,
        Form::Literal | Form::TypeOf | Form::Skip => asked.push(Expected::Nothing)?,
        Form::Args => {
            for bank in banks {
                asked.push(argument_of(*bank))?;
            }
        }
    }
    Ok(())
}

/// Returns whether an instruction of this opcode compares its first operand, a value register, and fills none.
pub fn compares(opcode: Opcode) -> bool
    ensures { result ≡ compares opcode }
{
    match opcode {
        Opcode::JumpEqual | Opcode::JumpLess | Opcode::JumpTextLess => true,
        _ => false,
    }
}

/// Adds what the operands of these forms have to be, if no value register is filled.
fn push_all(asked: &mut Vec<Expected>, banks: &[Bank], forms: &[Form]) -> Result<(), AllocError>
    ensures { OnOk result (asked.new.items ≡ asked.old.items ++ flat_map (expected_of banks.now) forms.now) }
{
    for form in forms {
        push_expected(asked, banks, *form)?;
    }
    Ok(())
}

/// Returns what the operands of these forms have to be. A first one that is a value register is filled, unless it is compared.
pub fn expected_in(
    alloc: Global,
    compared: bool,
    banks: &[Bank],
    forms: &[Form],
) -> Result<Vec<Expected>, AllocError>
    ensures { IfOk result (λ asked. asked.items ≡ expected_in compared banks.now forms.now) }
{
    let mut asked = Vec::new(alloc);
    match forms {
        [Form::Value, others @ ..] if !compared => {
            asked.push(Expected::Value)?;
            push_all(&mut asked, banks, others)?;
        }
        _ => push_all(&mut asked, banks, forms)?,
    }
    Ok(asked)
}

/// Returns the number of the called procedure: that of the name's meaning, or else the word's digits.
pub fn callee_of(binding: Option<Binding>, word: &[u8]) -> Option<usize>
    ensures { result ≡ callee binding (result_ok (digits_in 0 255 word.now)) }
{
    match binding {
        Some(Binding::Procedure(number)) => Some(number),
        _ => natural(word, LAST_PROCEDURE),
    }
}

/// Returns the number of a procedure that is named or numbered by a word.
fn callee(procedures: &Procedures<'_>, names: &Names<'_>, word: &[u8]) -> Option<usize>
    ensures { result ≡ callee (known (seen_procedures procedures.now) (seen_names names.now) word.now) (result_ok (digits_in 0 255 word.now)) }
{
    callee_of(known(procedures, names, word), word)
}

/// Returns the banks of the parameters of a procedure; none if there is no such procedure.
fn banks_at<'p>(procedures: &'p Procedures<'_>, number: Option<usize>) -> &'p [Bank]
    ensures { result.now ≡ banks_at (seen_procedures procedures.entry.now) number }
{
    let Some(number) = number else {
        return &[];
    };
    match procedures.heads.get(number) {
        Some(head) => head.banks.as_slice(),
        None => &[],
    }
}

/// Returns the first `count` banks of a procedure's parameters, or all.
#[tactic(auto, using(std::proofs::lemmas::List::take_all))]
fn first_banks(banks: &[Bank], count: usize) -> &[Bank]
    ensures { result.now ≡ take count banks.now }
{
    if count < banks.len() {
        &banks[..count]
    } else {
        banks
    }
}

/// Returns the banks of the procedure that the first word names, at most as many as there are words.
pub fn banks_of<'p>(
    procedures: &'p Procedures<'_>,
    names: &Names<'_>,
    words: &[&[u8]],
) -> &'p [Bank]
    ensures { result.now ≡ banks_of (seen_procedures procedures.entry.now) (seen_names names.now) (texts words.now) }
{
    match words {
        [word, ..] => first_banks(
            banks_at(procedures, callee(procedures, names, word)),
            count(words),
        ),
        [] => &[],
    }
}

/// Returns how many right registers an instruction of this opcode fills, its first operands.
pub fn makes(opcode: Opcode) -> usize
    ensures { result ≡ makes opcode }
{
    match opcode {
        Opcode::New => 2,
        Opcode::Look | Opcode::LookByText | Opcode::CopyRead | Opcode::CopyWrite => 1,
        _ => 0,
    }
}

/// Adds the name of the next right register, if the word is a name without a meaning.
fn name_made<'a>(
    procedures: &Procedures<'_>,
    names: &mut Names<'a>,
    word: &'a [u8],
) -> Result<(), Rejection<'a>> {
    if is_name(word) && known(procedures, names, word).is_none() {
        let number = names.rights;
        add_register(procedures, names, word, Bank::Right, number, Origin::Listed)
    } else {
        Ok(())
    }
}

/// Adds the register that a word means, after naming the next one if the word has no meaning.
fn put_made<'a>(
    procedures: &Procedures<'_>,
    names: &mut Names<'a>,
    out: &mut Vec<u8>,
    word: &'a [u8],
) -> Result<(), Rejection<'a>> {
    name_made(procedures, names, word)?;
    put_word(procedures, names, out, Expected::Right, word)
}

/// Adds the right registers that these words fill, after naming those whose word has no meaning.
fn put_all_made<'a>(
    procedures: &Procedures<'_>,
    names: &mut Names<'a>,
    out: &mut Vec<u8>,
    words: &[&'a [u8]],
) -> Result<(), Rejection<'a>> {
    for word in words {
        put_made(procedures, names, out, word)?;
    }
    Ok(())
}

/// Adds the expansion of the operands after those that the instruction fills.
fn put_others<'a>(
    alloc: Global,
    procedures: &Procedures<'_>,
    names: &mut Names<'a>,
    out: &mut Vec<u8>,
    opcode: Opcode,
    words: &[&'a [u8]],
) -> Result<(), Rejection<'a>> {
    let banks = banks_of(procedures, names, words);
    let asked = expected_in(alloc, compares(opcode), banks, opcode.forms())?;
    let made = makes(opcode);
    put_words(
        alloc,
        procedures,
        names,
        out,
        expected_after(&asked, made),
        words_after(words, made),
    )
}

/// Adds the expansion of an instruction's operands, and the names of the registers that it fills.
pub fn put_instruction<'a>(
    alloc: Global,
    procedures: &Procedures<'_>,
    names: &mut Names<'a>,
    out: &mut Vec<u8>,
    opcode: Opcode,
    words: &[&'a [u8]],
) -> Result<(), Rejection<'a>> {
    put_all_made(procedures, names, out, first_words(words, makes(opcode)))?;
    put_others(alloc, procedures, names, out, opcode, words)?;
    Ok(())
}
