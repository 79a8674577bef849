//! Splits lines into words.

ghost use Rattle.std.specs.Prelude.{◌≡◌, ℕ, IfOk, IsUtf8, get_or, map};
ghost use Rattle.tw_lexer.specs.Words.{IsAtWord, is_edge, is_parting};
ghost use Rattle.tw_lexer.specs.Seen.{IsRead, seen};
ghost use Rattle.tw_lexer.specs.reading.Next.{IsAfterGap, IsNext, bare_length, is_at_edge};

use crate::quoted::quoted_text;
use std::alloc::{AllocError, Global};

/// A word of a line.
#[derive(Drop)]
pub enum Word<'a> {
    /// The bytes of the word, as in the line.
    Bare(&'a [u8]),
    /// The text of a quoted word.
    Quoted(String),
}

/// The words of a line.
#[derive(Drop)]
pub struct Line<'a> {
    pub words: Vec<Word<'a>>,
    /// Whether these are all words of the line. If not, what follows them isn't a word.
    pub whole: bool,
}

/// The result of reading one word of a line.
#[derive(Drop)]
pub enum Next<'a> {
    /// There is only a comment, or nothing.
    End,
    /// There is something that isn't a word.
    Broken,
    /// A word, and the bytes after it.
    Found(Word<'a>, &'a [u8]),
}

/// Returns whether a byte is a space, a tab or a carriage return, which separate words of a line.
fn parts_words(byte: u8) -> bool
    ensures { result ≡ is_parting byte }
{
    byte == b' ' || byte == b'\t' || byte == b'\r'
}

/// Returns whether a byte ends a word of a line: one that separates words, or `;`.
fn ends_word(byte: u8) -> bool
    ensures { result ≡ is_edge byte }
{
    parts_words(byte) || byte == b';'
}

/// Returns the bytes after the gap at the start: spaces, tabs and carriage returns.
pub fn without_gap(bytes: &[u8]) -> &[u8]
    requires { IsUtf8 bytes.now }
    ensures after { IsAfterGap bytes.now result.now }
    ensures utf8 { IsUtf8 result.now }
{
    let mut rest = bytes;
    while let [byte, after @ ..] = rest {
        if !parts_words(*byte) {
            return rest;
        }
        rest = after;
    }
    rest
}

/// Returns how many bytes a word without quotes has, up to the first byte that ends one.
fn length_of_bare(bytes: &[u8]) -> usize
    ensures { result ≡ bare_length bytes.now }
{
    let mut count = 0;
    for byte in bytes {
        if ends_word(*byte) {
            return count;
        }
        count += 1;
    }
    count
}

/// Returns whether a quoted word may end before these bytes: nothing, or a byte that ends a word.
fn is_at_edge(bytes: &[u8]) -> bool
    ensures { result ≡ is_at_edge bytes.now }
{
    match bytes {
        [] => true,
        [byte, ..] => ends_word(*byte),
    }
}

/// Reads the quoted word at the start. It is broken if no word can end after its closing quote.
fn next_quoted(alloc: Global, bytes: &[u8]) -> Result<Next<'_>, AllocError>
    requires utf8 { IsUtf8 bytes.now }
    requires quote { get_or bytes.now 0 0 ≡ 34 }
    ensures { IfOk result (λ next. IsNext next bytes.now) }
{
    match quoted_text(alloc, bytes)? {
        None => Ok(Next::Broken),
        Some((text, rest)) => {
            if is_at_edge(rest) {
                Ok(Next::Found(Word::Quoted(text), rest))
            } else {
                Ok(Next::Broken)
            }
        }
    }
}

/// Reads the word at the start, when no gap is there.
fn next_here(alloc: Global, bytes: &[u8]) -> Result<Next<'_>, AllocError>
    requires utf8 { IsUtf8 bytes.now }
    requires here { IsAtWord bytes.now }
    ensures { IfOk result (λ next. IsNext next bytes.now) }
{
    match bytes {
        [] => Ok(Next::End),
        [byte, ..] => {
            if *byte == b';' {
                Ok(Next::End)
            } else if *byte == b'"' {
                next_quoted(alloc, bytes)
            } else {
                let (word, rest) = bytes.split_at(length_of_bare(bytes));
                Ok(Next::Found(Word::Bare(word), rest))
            }
        }
    }
}

/// Reads the first word, after a gap or none.
pub fn next_word(alloc: Global, bytes: &[u8]) -> Result<Next<'_>, AllocError>
    requires { IsUtf8 bytes.now }
    ensures { IfOk result (λ next. IsNext next bytes.now) }
{
    next_here(alloc, without_gap(bytes))
}

/// Splits a line into its words, up to the first broken one.
pub fn words_of(alloc: Global, line: &[u8]) -> Result<Line<'_>, AllocError>
    requires { IsUtf8 line.now }
    ensures { IfOk result (λ read. IsRead (map seen read.words.items) read.whole line.now) }
{
    let mut words = Vec::new(alloc);
    let mut rest = line;
    loop {
        match next_word(alloc, rest)? {
            Next::End => return Ok(Line { words, whole: true }),
            Next::Broken => {
                return Ok(Line {
                    words,
                    whole: false,
                });
            }
            Next::Found(word, after) => {
                words.push(word)?;
                rest = after;
            }
        }
    }
}
