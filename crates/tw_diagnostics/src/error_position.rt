//! Positions at which a line stops being a statement.

ghost use Rattle.std.specs.Prelude.{IfOk, IsUtf8};

use crate::breaks::{Break, break_of};
use std::alloc::{AllocError, Global};
use tw_lexer::{Next, begins_character, next_word, without_gap};

/// A token at which a line stops.
#[derive(Clone, Copy)]
pub enum Token<'a> {
    /// The line's end, or a comment.
    End,
    /// A word, as it is written in the line.
    Word(&'a [u8]),
    /// Something that is no word.
    Broken(Break),
}

impl<'a> Token<'a> {
    /// Returns the bytes of the word.
    pub(crate) fn word(&self) -> &'a [u8] {
        match self {
            Token::Word(word) => *word,
            Token::End | Token::Broken(_) => &[],
        }
    }
}

/// A position at which a line stops.
#[derive(Clone, Copy)]
pub struct ErrorPosition<'a> {
    /// The number of the word at this position, from 1.
    pub(crate) word: usize,
    /// The column, counted in characters from 1.
    pub(crate) column: usize,
    pub(crate) found: Token<'a>,
}

/// Returns the column of an error after these bytes of its line, counted in characters from 1.
fn column_after(front: &[u8]) -> usize {
    let mut column = 1usize;
    for byte in front {
        if begins_character(*byte) {
            column = column.saturating_add(1);
        }
    }
    column
}

/// Returns the first bytes, without those at the end that are in `after` too.
fn before<'a>(bytes: &'a [u8], after: &[u8]) -> &'a [u8] {
    &bytes[..bytes.len().saturating_sub(after.len())]
}

/// Returns what is at the start of bytes, and the bytes after it.
fn token_of(alloc: Global, here: &[u8]) -> Result<(Token<'_>, &[u8]), AllocError>
    requires { IsUtf8 here.now }
    ensures { IfOk result (λ read. IsUtf8 read.1.now) }
{
    match next_word(alloc, here)? {
        Next::Found(_, after) => Ok((Token::Word(before(here, after)), after)),
        Next::End => Ok((Token::End, here)),
        Next::Broken => Ok((Token::Broken(break_of(alloc, here)?), here)),
    }
}

/// Returns the position of the word with this number, from 1, or of the line's end, if it has fewer words.
pub(crate) fn position_of(
    alloc: Global,
    line: &[u8],
    number: usize,
) -> Result<Option<ErrorPosition<'_>>, AllocError>
    requires { IsUtf8 line.now }
{
    let mut rest = line;
    for count in 0..number {
        let here = without_gap(rest);
        let (found, after) = token_of(alloc, here)?;
        let word = count.saturating_add(1);
        if word == number || !matches!(found, Token::Word(_)) {
            let column = column_after(before(line, here));
            return Ok(Some(ErrorPosition {
                word,
                column,
                found,
            }));
        }
        rest = after;
    }
    Ok(None)
}

/// Returns the word with this number of a line, from 1, as it is written; it is empty if there is none.
pub fn word_of(alloc: Global, line: &[u8], number: usize) -> Result<&[u8], AllocError>
    requires { IsUtf8 line.now }
{
    match position_of(alloc, line, number)? {
        Some(stop) => Ok(stop.found.word()),
        None => Ok(&[]),
    }
}
