//! Operands of one word. A word of another form is the error `Form`; a number or a length past its limit is `Limit`.

ghost use Rattle.std.specs.Prelude.{◌≡◌, ◌≤◌, IfOk};
ghost use Rattle.tw_lexer.specs.Words.{Bare};
ghost use Rattle.tw_lexer.specs.Seen.{seen as seen_word};
ghost use Rattle.tw_lexer.specs.Digits.{as_is, digits_in, signed_in};
ghost use Rattle.tw_asm.specs.reading.Operands.{both, natural_in, register_in, number_in, literal_in, name_in, target_in, goal_in, scalar_in, text_container, container_in, is_sum, map_in, map_word_in, mode_in};

use std::alloc::{AllocError, Global};
use std::marker::Model;
use tw_code::{LocalInstr, Procedure, Version};
use tw_lexer::{TokenError, Word, digits, is_name, number};
use tw_types::{Layout, Mode, Scalar, Text};

/// The maximal length of a label's name, in bytes.
const MAX_NAME: usize = 64;

/// Where execution continues after a branch: after `skip` instructions, or at a label; then `skip` is 0.
#[derive(Drop)]
pub struct Goal<'a> {
    pub skip: u16,
    pub label: Option<&'a [u8]>,
}

impl<'a> Model for Goal<'a> {
    ghost use Rattle.tw_asm.specs.Seen.{bytes_of};
    ghost use Rattle.tw_asm.specs.reading.Operands as reading;

    ghost Value = { reading.Goal };

    ghost view = { λ goal. record { skip = goal.skip; label = bytes_of goal.label } };
}

/// Pairs two operands. If both have an error, a wrong form is reported before a limit.
pub fn both_of<A: Drop, B: Drop>(
    first: Result<A, TokenError>,
    second: Result<B, TokenError>,
) -> Result<(A, B), TokenError>
    ensures { result ≡ both first second }
{
    match second {
        Err(TokenError::Form) => Err(TokenError::Form),
        Ok(second) => match first {
            Ok(first) => Ok((first, second)),
            Err(flaw) => Err(flaw),
        },
        Err(TokenError::Limit) => match first {
            Ok(_) => Err(TokenError::Limit),
            Err(flaw) => Err(flaw),
        },
    }
}

/// Reads a number from its digits. Returns `Form` if a byte is no digit, `Limit` if the number isn't from `low` to `high`.
pub fn digits_of(text: &[u8], low: u64, high: u64) -> Result<u64, TokenError>
    ensures is { result ≡ digits_in low high text.now }
    ensures within { IfOk result (λ n. n ≤ high) }
{
    digits(text, low, high)
}

/// Reads a signed 64-bit number.
fn signed_of(text: &[u8]) -> Result<i64, TokenError>
    ensures { result ≡ signed_in text.now }
{
    number(text)
}

/// Reads a number of one byte, from `low` to `high`, from its digits.
fn byte_in(low: u8, high: u8, text: &[u8]) -> Result<u8, TokenError>
    ensures { result ≡ digits_in low high text.now }
{
    match digits_of(text, u64::from(low), u64::from(high)) {
        Ok(number) => Ok(number as u8),
        Err(flaw) => Err(flaw),
    }
}

/// Reads an unsigned number of one byte, from `low` to `high`.
pub fn byte_of(low: u8, high: u8, word: &Word<'_>) -> Result<u8, TokenError>
    ensures { result ≡ natural_in low high (seen_word word.now) }
{
    match word {
        Word::Bare(text) => byte_in(low, high, text),
        Word::Quoted(_) => Err(TokenError::Form),
    }
}

/// Reads the number of iterations of a loop, 1 to 1,000.
pub fn iterations_of(word: &Word<'_>) -> Result<u16, TokenError>
    ensures { result ≡ natural_in 1 1000 (seen_word word.now) }
{
    match word {
        Word::Bare(text) => match digits_of(text, 1, u64::from(LocalInstr::MAX_ITERATIONS)) {
            Ok(number) => Ok(number as u16),
            Err(flaw) => Err(flaw),
        },
        Word::Quoted(_) => Err(TokenError::Form),
    }
}

/// Reads the number of a register after its letter.
fn number_after(letter: u8, text: &[u8]) -> Result<u8, TokenError>
    ensures { result ≡ register_in letter (Bare text.now) }
{
    match text {
        [first, rest @ ..] if *first == letter => byte_in(0, Procedure::LAST_REGISTER, rest),
        _ => Err(TokenError::Form),
    }
}

/// Reads a register: its letter and its number.
fn register_of(letter: u8, word: &Word<'_>) -> Result<u8, TokenError>
    ensures { result ≡ register_in letter (seen_word word.now) }
{
    match word {
        Word::Bare(text) => number_after(letter, text),
        Word::Quoted(_) => Err(TokenError::Form),
    }
}

/// Reads a value register, `v0` to `v15`.
pub fn value_of(word: &Word<'_>) -> Result<u8, TokenError>
    ensures { result ≡ register_in 118 (seen_word word.now) }
{
    register_of(b'v', word)
}

/// Reads a right register, `d0` to `d15`.
pub fn right_of(word: &Word<'_>) -> Result<u8, TokenError>
    ensures { result ≡ register_in 100 (seen_word word.now) }
{
    register_of(b'd', word)
}

/// Reads a signed 64-bit number.
pub fn number_of(word: &Word<'_>) -> Result<i64, TokenError>
    ensures { result ≡ number_in (seen_word word.now) }
{
    match word {
        Word::Bare(text) => signed_of(text),
        Word::Quoted(_) => Err(TokenError::Form),
    }
}

/// Reads a quoted text of at most 4,096 bytes.
pub fn literal_of(alloc: Global, word: &Word<'_>) -> Result<Result<Text, TokenError>, AllocError>
    ensures { IfOk result (λ read. read ≡ literal_in (seen_word word.now)) }
{
    match word {
        Word::Bare(_) => Ok(Err(TokenError::Form)),
        Word::Quoted(text) => {
            let text = text.as_str();
            if text.len() > Text::MAX_LEN {
                return Ok(Err(TokenError::Limit));
            }
            let string = String::from_str(alloc, text)?;
            Ok(Ok(Text::new(string).ok().unwrap()))
        }
    }
}

/// Reads the number of an actor, or returns `None` for `any`.
pub fn target_of(word: &Word<'_>) -> Result<Option<u8>, TokenError>
    ensures { result ≡ target_in (seen_word word.now) }
{
    match word {
        Word::Bare(text) => {
            if *text == b"any".as_slice() {
                return Ok(None);
            }
            match byte_in(0, Layout::MAX_WORKERS - 1, text) {
                Ok(number) => Ok(Some(number)),
                Err(flaw) => Err(flaw),
            }
        }
        Word::Quoted(_) => Err(TokenError::Form),
    }
}

/// Checks the name of a label. Returns `Form` if it isn't a name, `Limit` if it has more than 64 bytes.
#[tactic(auto, unfolding(crate::specs::reading::Operands::name_in))]
pub fn name_of(text: &[u8]) -> Result<&[u8], TokenError>
    ensures { as_is (λ name. name.now) result ≡ name_in text.now }
{
    if !is_name(text) {
        Err(TokenError::Form)
    } else if text.len() > MAX_NAME {
        Err(TokenError::Limit)
    } else {
        Ok(text)
    }
}

/// Reads a goal from a word that isn't quoted.
fn goal_in(text: &[u8]) -> Result<Goal<'_>, TokenError>
    ensures { result ≡ goal_in (Bare text.now) }
{
    match text {
        [] => Err(TokenError::Form),
        [b'+', rest @ ..] => match digits_of(rest, 0, 65535) {
            Ok(number) => Ok(Goal {
                skip: number as u16,
                label: None,
            }),
            Err(flaw) => Err(flaw),
        },
        _ => match name_of(text) {
            Ok(name) => Ok(Goal {
                skip: 0,
                label: Some(name),
            }),
            Err(flaw) => Err(flaw),
        },
    }
}

/// Reads a goal: `+` and a number of instructions, or a label.
pub fn goal_of<'a>(word: &Word<'a>) -> Result<Goal<'a>, TokenError>
    ensures { result ≡ goal_in (seen_word word.now) }
{
    match word {
        Word::Bare(text) => goal_in(text),
        Word::Quoted(_) => Err(TokenError::Form),
    }
}

/// Reads a scalar type from a word that isn't quoted.
fn scalar_in(text: &[u8]) -> Result<Scalar, TokenError>
    ensures { result ≡ scalar_in (Bare text.now) }
{
    if text == b"int".as_slice() {
        Ok(Scalar::Int)
    } else if text == b"text".as_slice() {
        Ok(Scalar::Text)
    } else {
        Err(TokenError::Form)
    }
}

/// Reads the type of a value register, `int` or `text`.
pub fn scalar_of(word: &Word<'_>) -> Result<Scalar, TokenError>
    ensures { result ≡ scalar_in (seen_word word.now) }
{
    match word {
        Word::Bare(text) => scalar_in(text),
        Word::Quoted(_) => Err(TokenError::Form),
    }
}

/// Returns the type of subscripts of a container with text subscripts. Version 1 has none.
fn text_container(version: Version) -> Result<Scalar, TokenError>
    ensures { result ≡ text_container version }
{
    match version {
        Version::One => Err(TokenError::Form),
        _ => Ok(Scalar::Text),
    }
}

/// Reads a container's word that isn't quoted.
fn container_in(version: Version, text: &[u8]) -> Result<Scalar, TokenError>
    ensures { result ≡ container_in version (Bare text.now) }
{
    if text == b"cont".as_slice() {
        Ok(Scalar::Int)
    } else if text == b"tcont".as_slice() {
        text_container(version)
    } else {
        Err(TokenError::Form)
    }
}

/// Reads a container's word, `cont` or `tcont`, and returns the type of its subscripts.
pub fn container_of(version: Version, word: &Word<'_>) -> Result<Scalar, TokenError>
    ensures { result ≡ container_in version (seen_word word.now) }
{
    match word {
        Word::Bare(text) => container_in(version, text),
        Word::Quoted(_) => Err(TokenError::Form),
    }
}

/// Reads a map's word that isn't quoted.
fn map_word_in(text: &[u8]) -> Result<Scalar, TokenError>
    ensures { result ≡ map_word_in (Bare text.now) }
{
    if text == b"map".as_slice() {
        Ok(Scalar::Int)
    } else if text == b"tmap".as_slice() {
        Ok(Scalar::Text)
    } else {
        Err(TokenError::Form)
    }
}

/// Reads a map's word, `map` or `tmap`, and returns the type of its subscripts. Version 4 and later ones have maps.
pub fn map_of(version: Version, word: &Word<'_>) -> Result<Scalar, TokenError>
    ensures { result ≡ map_in version (seen_word word.now) }
{
    match version {
        Version::One | Version::Two => Err(TokenError::Form),
        _ => match word {
            Word::Bare(text) => map_word_in(text),
            Word::Quoted(_) => Err(TokenError::Form),
        },
    }
}

/// Returns whether it is the word of a map's sums.
pub fn is_sum(word: &Word<'_>) -> bool
    ensures { result ≡ is_sum (seen_word word.now) }
{
    match word {
        Word::Bare(text) => *text == b"sum".as_slice(),
        Word::Quoted(_) => false,
    }
}

/// Reads a mode from a word that isn't quoted.
fn mode_in(text: &[u8]) -> Result<Mode, TokenError>
    ensures { result ≡ mode_in (Bare text.now) }
{
    if text == b"val".as_slice() {
        Ok(Mode::Val)
    } else if text == b"closed".as_slice() {
        Ok(Mode::Closed)
    } else if text == b"ref".as_slice() {
        Ok(Mode::Ref)
    } else if text == b"write".as_slice() {
        Ok(Mode::Write)
    } else {
        Err(TokenError::Form)
    }
}

/// Reads the mode of a parameter, `val`, `closed`, `ref` or `write`.
pub fn mode_of(word: &Word<'_>) -> Result<Mode, TokenError>
    ensures { result ≡ mode_in (seen_word word.now) }
{
    match word {
        Word::Bare(text) => mode_in(text),
        Word::Quoted(_) => Err(TokenError::Form),
    }
}
