//! Statements from words.

ghost use Rattle.std.specs.Prelude.{◌≡◌, ◌∷◌, map};
ghost use Rattle.tw_lexer.specs.Seen.{seen as seen_word};
ghost use Rattle.tw_lexer.specs.Words.{Bare};
ghost use Rattle.tw_asm.specs.Seen.{seen};
ghost use Rattle.tw_asm.specs.LineAnswers.{Answers};
ghost use Rattle.tw_asm.specs.reading.Operands.{natural_in};
ghost use Rattle.tw_asm.specs.reading.Lines.{Gives, body_in, head_in, label_line, registers_in, statement_in, version_in, version_known};
ghost use Rattle.tw_code.specs.format.Table.{opcode_in};

use crate::flaw::{Due, Flaw, at, both_at};
use crate::gathering::scalars_of;
use crate::heads::{kind_of, params_of};
use crate::instructions::draft_of;
use crate::operands::{byte_of, name_of};
use crate::rejection::Rejection;
use crate::statement::Statement;
use crate::stops::{registers_stop, stop_of};
use std::alloc::Global;
use tw_code::{Opcode, Version, opcode_in};
use tw_lexer::{TokenError, Word, before_colon};
use tw_types::{Items, Param};

/// Reads the number of a version. There is no version 3.
fn version_number(word: &Word<'_>) -> Result<u8, TokenError>
    ensures { result ≡ version_known (natural_in 1 5 (seen_word word.now)) }
{
    match byte_of(1, 5, word) {
        Ok(3) => Err(TokenError::Limit),
        read => read,
    }
}

/// Reads the words after `version`.
fn version_of<'a>(words: &[Word<'_>]) -> Result<Statement<'a>, Rejection>
    ensures { Gives seen result (version_in (map seen_word words.now)) }
{
    match words {
        [word] => {
            let number = at(version_number(word), 2, Due::Version)?;
            Ok(Statement::Version(Version::by(u64::from(number))))
        }
        [] => Err(Rejection::Flawed(Flaw::form(2, Due::Version))),
        [word, ..] => match version_number(word) {
            Err(TokenError::Form) => Err(Rejection::Flawed(Flaw::form(2, Due::Version))),
            _ => Err(Rejection::Flawed(Flaw::form(3, Due::End))),
        },
    }
}

/// Adds to the error of parameters its place.
fn located(
    params: Result<Items<Param>, TokenError>,
    version: Version,
    words: &[Word<'_>],
) -> Result<Items<Param>, Flaw>
    ensures { result ≡ params }
{
    match params {
        Ok(params) => Ok(params),
        Err(error) => Err(stop_of(version, words, error, 3, Due::Param, Due::Param)),
    }
}

/// Reads the words after `proc`.
fn head_of<'a>(
    alloc: Global,
    version: Version,
    words: &[Word<'_>],
) -> Result<Statement<'a>, Rejection>
    ensures { Gives seen result (head_in version (map seen_word words.now)) }
{
    match words {
        [] => Err(Rejection::Flawed(Flaw::form(2, Due::Kind))),
        [kind, words @ ..] => {
            let params = located(params_of(alloc, version, words)?, version, words);
            let (kind, params) = both_at(at(kind_of(kind), 2, Due::Kind), params)?;
            Ok(Statement::Head { kind, params })
        }
    }
}

/// Reads the words after `regs`.
fn registers_of<'a>(alloc: Global, words: &[Word<'_>]) -> Result<Statement<'a>, Rejection>
    ensures { Gives seen result (registers_in (map seen_word words.now)) }
{
    match scalars_of(alloc, words)? {
        Ok(registers) => Ok(Statement::Registers(registers)),
        Err(error) => Err(Rejection::Flawed(registers_stop(words, error, 2))),
    }
}

/// Reads a label, which is a line of one word.
fn label_of<'a>(word: &'a [u8], others: &[Word<'_>]) -> Result<Statement<'a>, Rejection>
    ensures { Gives seen result (label_line word.entry.now (map seen_word others.now)) }
{
    if !others.is_empty() {
        return Err(Rejection::Flawed(Flaw::form(2, Due::End)));
    }
    match before_colon(word) {
        Some(name) => Ok(Statement::Label(at(name_of(name), 1, Due::Name)?)),
        None => Err(Rejection::Flawed(Flaw::form(1, Due::Nothing))),
    }
}

/// Like `opcode_in`, but no names are compared with a label. A long text may have millions of them.
fn opcode_of(version: Version, word: &[u8]) -> Option<Opcode>
    ensures { result ≡ opcode_in version word.now }
{
    match before_colon(word) {
        Some(_) => None,
        None => opcode_in(version, word),
    }
}

/// Reads an instruction or a label.
fn body_of<'a>(
    alloc: Global,
    version: Version,
    word: &'a [u8],
    others: &[Word<'a>],
) -> Result<Statement<'a>, Rejection>
    ensures { Gives seen result (body_in version (opcode_in version word.entry.now) word.entry.now (map seen_word others.now)) }
{
    match opcode_of(version, word) {
        Some(opcode) => Ok(Statement::Code(draft_of(alloc, version, opcode, others)?)),
        None => label_of(word, others),
    }
}

/// Reads a line from its first word and the others.
#[tactic(auto, unfolding(crate::specs::reading::Lines::statement_in))]
fn words_read<'a>(
    alloc: Global,
    version: Version,
    first: &'a [u8],
    others: &[Word<'a>],
) -> Result<Statement<'a>, Rejection>
    ensures { Gives seen result (statement_in version (Bare first.entry.now ∷ map seen_word others.now)) }
{
    if first == b"proc".as_slice() {
        head_of(alloc, version, others)
    } else if first == b"regs".as_slice() {
        registers_of(alloc, others)
    } else if first == b"version".as_slice() {
        version_of(others)
    } else {
        body_of(alloc, version, first, others)
    }
}

/// Reads a statement from all of its words.
#[tactic(auto, unfolding(crate::specs::reading::Lines::statement_in))]
fn read_of<'a>(
    alloc: Global,
    version: Version,
    words: &[Word<'a>],
) -> Result<Statement<'a>, Rejection>
    ensures { Gives seen result (statement_in version (map seen_word words.now)) }
{
    match words {
        [] => Err(Rejection::Flawed(Flaw::form(1, Due::Nothing))),
        [first, others @ ..] => match first {
            Word::Bare(word) => words_read(alloc, version, word, others),
            Word::Quoted(_) => Err(Rejection::Flawed(Flaw::form(1, Due::Nothing))),
        },
    }
}

/// Reads the statement of these words in this version, or returns their error. A wrong form is reported before a limit.
pub fn statement_of<'a>(
    alloc: Global,
    version: Version,
    words: &[Word<'a>],
) -> Result<Statement<'a>, Rejection>
    ensures { Answers version result (map seen_word words.now) }
{
    read_of(alloc, version, words)
}
