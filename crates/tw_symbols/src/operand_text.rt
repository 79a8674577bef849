//! The expansion of operands.

ghost use Rattle.std.specs.Prelude.{◌≡◌, drop, length, take};
ghost use Rattle.tw_symbols.specs.Seen.{texts};

use crate::literals::{check_listed, first_for, put_literal};
use crate::meaning::{Bank, Binding, Expected};
use crate::names::{Names, is_name, known};
use crate::procedures::Procedures;
use crate::rejection::{NameNo, Rejection};
use std::alloc::{AllocError, Global};
use tw_lexer::{put_numbered, put_signed};

/// The replacement of a name.
#[derive(Clone, Copy)]
pub enum OperandText {
    /// A letter and the number of a register or a procedure.
    Numbered(&'static str, usize),
    /// The value of a constant.
    Number(i64),
}

/// Returns the replacement of a name with this meaning, if the meaning is of the required kind.
fn operand_text_of(asked: Expected, binding: Binding) -> Option<OperandText> {
    match binding {
        Binding::Constant(number) => match asked {
            Expected::Number => Some(OperandText::Number(number)),
            _ => None,
        },
        Binding::Register(Bank::Value, number, _) => match asked {
            Expected::Value | Expected::Read => Some(OperandText::Numbered("v", number)),
            Expected::ValueArgument => Some(OperandText::Numbered("", number)),
            _ => None,
        },
        Binding::Register(Bank::Right, number, _) => match asked {
            Expected::Right => Some(OperandText::Numbered("d", number)),
            Expected::RightArgument => Some(OperandText::Numbered("", number)),
            _ => None,
        },
        Binding::Procedure(number) => match asked {
            Expected::Procedure => Some(OperandText::Numbered("", number)),
            _ => None,
        },
    }
}

/// Adds the replacement of a name to the expansion: a letter and a number, or a constant's value.
fn put_operand_text(out: &mut Vec<u8>, operand: OperandText) -> Result<(), AllocError> {
    match operand {
        OperandText::Numbered(front, number) => put_numbered(out, front, number),
        OperandText::Number(number) => put_signed(out, number),
    }
}

/// Adds a space and a word to the expansion, as it is.
pub fn put_plain(out: &mut Vec<u8>, word: &[u8]) -> Result<(), AllocError> {
    out.extend_from_slice(b" ")?;
    out.extend_from_slice(word)
}

/// Returns the number of words in a part of a line of symbolic assembly.
pub fn count(words: &[&[u8]]) -> usize
    ensures { result ≡ length (texts words.now) }
{
    words.len()
}

/// Returns the first `count` of a line's words, or all.
#[tactic(auto, using(crate::proofs::Cutting::first_taken, crate::proofs::Cutting::all_taken))]
pub fn first_words<'b, 'a>(words: &'b [&'a [u8]], count: usize) -> &'b [&'a [u8]]
    ensures { texts result.now ≡ take count (texts words.now) }
{
    if count < words.len() {
        &words[..count]
    } else {
        words
    }
}

/// Returns the words of a line after the first `count`.
#[tactic(auto, using(crate::proofs::Cutting::left_after, crate::proofs::Cutting::none_after))]
pub fn words_after<'b, 'a>(words: &'b [&'a [u8]], count: usize) -> &'b [&'a [u8]]
    ensures { texts result.now ≡ drop count (texts words.now) }
{
    if count < words.len() {
        &words[count..]
    } else {
        &[]
    }
}

/// Returns what the operands after the first `count` have to be.
#[tactic(auto, using(std::proofs::lemmas::List::drop_all))]
pub fn expected_after(asked: &[Expected], count: usize) -> &[Expected]
    ensures { result.now ≡ drop count asked.now }
{
    if count < asked.len() {
        &asked[count..]
    } else {
        &[]
    }
}

/// Adds the end of a line to the expansion, and a line feed.
pub fn put_ended(out: &mut Vec<u8>, line: &[u8]) -> Result<(), AllocError> {
    out.extend_from_slice(line)?;
    out.extend_from_slice(b"\n")
}

/// Adds words to the expansion as they are, a space before each.
pub fn put_all(out: &mut Vec<u8>, words: &[&[u8]]) -> Result<(), AllocError> {
    for word in words {
        put_plain(out, word)?;
    }
    Ok(())
}

/// Adds a space and the replacement of a name by what it means.
fn put_named<'a>(
    out: &mut Vec<u8>,
    asked: Expected,
    word: &'a [u8],
    binding: Option<Binding>,
) -> Result<(), Rejection<'a>> {
    let Some(binding) = binding else {
        return Err(Rejection::Flawed(NameNo::Unknown(asked), word));
    };
    let Some(operand) = operand_text_of(asked, binding) else {
        return Err(Rejection::Flawed(NameNo::Kind(binding, asked), word));
    };
    out.extend_from_slice(b" ")?;
    put_operand_text(out, operand)?;
    Ok(())
}

/// Adds a space and the expansion of an operand that is no literal: a name's replacement, or the word itself.
pub fn put_word<'a>(
    procedures: &Procedures<'_>,
    names: &Names<'_>,
    out: &mut Vec<u8>,
    asked: Expected,
    word: &'a [u8],
) -> Result<(), Rejection<'a>> {
    if matches!(asked, Expected::Nothing) || !is_name(word) {
        put_plain(out, word)?;
        return Ok(());
    }
    put_named(out, asked, word, known(procedures, names, word))
}

/// Adds a space and the expansion of an operand: the hidden register of a literal, or else like `put_word`.
fn put_operand<'a>(
    alloc: Global,
    procedures: &Procedures<'_>,
    names: &mut Names<'a>,
    out: &mut Vec<u8>,
    asked: Expected,
    word: &'a [u8],
) -> Result<(), Rejection<'a>> {
    match first_for(alloc, names, asked, word)? {
        Some(first) => put_literal(names, out, first, word),
        None => {
            check_listed(procedures, names, asked, word)?;
            put_word(procedures, names, out, asked, word)
        }
    }
}

/// Returns what the first of these operands has to be.
pub fn first_expected(asked: &[Expected]) -> Expected {
    match asked {
        [first, ..] => *first,
        [] => Expected::Nothing,
    }
}

/// Returns what the operands after the first have to be.
pub fn after_first(asked: &[Expected]) -> &[Expected] {
    match asked {
        [_, others @ ..] => others,
        [] => asked,
    }
}

/// Adds the expansion of operands. Each word after the last expected one is added as it is.
pub fn put_words<'a>(
    alloc: Global,
    procedures: &Procedures<'_>,
    names: &mut Names<'a>,
    out: &mut Vec<u8>,
    asked: &[Expected],
    words: &[&'a [u8]],
) -> Result<(), Rejection<'a>> {
    let mut left = asked;
    for word in words {
        put_operand(alloc, procedures, names, out, first_expected(left), word)?;
        left = after_first(left);
    }
    Ok(())
}
