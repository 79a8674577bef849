//! The place of an error's name in its line. The error has the name alone.

ghost use Rattle.std.specs.Prelude.{◌≡◌, ◌==◌, ◌≤◌, ℕ, IfOk, IsUtf8, List, MatchOption, length, take};
ghost use Rattle.std.specs.List.{before_first, list_any};
ghost use Rattle.tw_lexer.specs.Words.{IsFirstWord, Word as AWord};
ghost use Rattle.tw_source.specs.NamePlace.{IsNamePlace, IsOnly, IsPlaceIn, IsWordAt, begins_at, column_after, ends_at, ends_name, is_at, parts_names, without_comment};

use std::alloc::{AllocError, Global};
use tw_lexer::{Next, begins_character, line_numbered, next_word};

// ---- where a name is

/// Returns whether a byte separates names: white space, a bracket or a comma.
fn parts_names(byte: u8) -> bool
    ensures { result ≡ parts_names byte }
{
    byte == b' ' || byte == b'\t' || byte == b'\r' || byte == b'(' || byte == b')' || byte == b','
}

/// Returns whether a name ends before a byte: at a separator, a colon or a semicolon.
fn ends_name(byte: u8) -> bool
    ensures { result ≡ ends_name byte }
{
    parts_names(byte) || byte == b':' || byte == b';'
}

/// Returns whether a name may begin at an index of a line.
fn begins_at(line: &[u8], index: usize) -> bool
    requires { index ≤ length line.now }
    ensures { result ≡ begins_at line.now index }
{
    index == 0 || parts_names(line[index - 1])
}

/// Returns whether a name may end before an index of a line.
fn ends_at(line: &[u8], index: usize) -> bool
    ensures { result ≡ ends_at line.now index }
{
    line.len() <= index || ends_name(line[index])
}

/// Returns whether a word is at an index of a line, and not as a part of a longer one.
fn is_at(line: &[u8], word: &[u8], index: usize) -> bool
    requires { index ≤ length line.now }
    ensures { result ≡ is_at line.now word.now index }
{
    begins_at(line, index) && line[index..].starts_with(word) && ends_at(line, index + word.len())
}

/// Returns whether a word has a byte that separates names.
fn is_parted(word: &[u8]) -> bool
    ensures { result ≡ list_any parts_names word.now }
{
    word.iter().any(|byte| parts_names(*byte))
}

/// Returns the index at which a line has a word, if there is just one.
///
/// It takes time linear in the line: a word that nothing parts is compared where names begin, up to their ends.
fn only_index(line: &[u8], word: &[u8]) -> Option<usize>
    ensures { MatchOption result ((index : ℕ) → IsOnly line.now word.now index → ⊥) (IsOnly line.now word.now) }
{
    if is_parted(word) {
        return None;
    }
    let mut found = None;
    for index in 0..line.len() {
        if is_at(line, word, index) {
            if found.is_some() {
                return None;
            }
            found = Some(index);
        }
    }
    found
}

/// Returns whether a line has a word, and not only as a part of a longer one.
pub(crate) fn has_name(line: &[u8], word: &[u8]) -> bool {
    for index in 0..line.len() {
        if is_at(line, word, index) {
            return true;
        }
    }
    false
}

/// Returns what precedes the first `;`.
fn before_semicolon(line: &str) -> &str
    ensures { result.now ≡ before_first (λ b. b == 59) line.now }
{
    match line.split_once(';') {
        Some((front, _)) => front,
        None => line,
    }
}

/// Returns a line without its comment, if it has no quote.
fn without_comment(line: &str) -> &[u8]
    ensures { result.now ≡ without_comment line.now }
{
    let bytes = line.as_bytes();
    if bytes.contains(&b'"') {
        bytes
    } else {
        before_semicolon(line).as_bytes()
    }
}

// ---- its word and its column

/// Returns what follows the first word, if there is one.
fn after_word(alloc: Global, bytes: &[u8]) -> Result<Option<&[u8]>, AllocError>
    requires { IsUtf8 bytes.now }
    ensures { IfOk result (λ found. MatchOption found
        ((word : AWord) (rest : List ℕ) → IsFirstWord word bytes.now rest → ⊥)
        (λ after. (word : AWord) × IsFirstWord word bytes.now after.now)) }
{
    match next_word(alloc, bytes)? {
        Next::Found(_word, after) => Ok(Some(after)),
        Next::End => Ok(None),
        Next::Broken => Ok(None),
    }
}

/// Returns the number of the word at an index of a line, from 1.
fn word_at(alloc: Global, line: &str, index: usize) -> Result<usize, AllocError>
    ensures { IfOk result (IsWordAt line.now index) }
{
    let mut count = 0;
    let mut rest = line.as_bytes();
    loop {
        match after_word(alloc, rest)? {
            None => return Ok(count + 1),
            Some(after) => {
                if index < line.len() - after.len() {
                    return Ok(count + 1);
                }
                rest = after;
                count += 1;
            }
        }
    }
}

/// Returns the column of an index, counted in characters from 1.
fn column_at(line: &[u8], index: usize) -> usize
    requires { index ≤ length line.now }
    ensures { result ≡ column_after (take index line.now) }
{
    let front = &line[..index];
    front.iter().filter(|byte| begins_character(**byte)).count() + 1
}

/// Returns the word of a line in which a name of its code is, and the name's column; zeros if the code doesn't have just one such name.
fn place_in(
    alloc: Global,
    line: &str,
    code: &[u8],
    name: &[u8],
) -> Result<(usize, usize), AllocError>
    ensures { IfOk result (IsPlaceIn line.now code.now name.now) }
{
    let Some(index) = only_index(code, name) else {
        return Ok((0, 0));
    };
    let word = word_at(alloc, line, index)?;
    Ok((word, column_at(code, index)))
}

/// Returns the place of an error's name in the line of this number, as `place_in` does.
pub(crate) fn text_place(
    alloc: Global,
    text: &str,
    number: usize,
    name: &[u8],
) -> Result<(usize, usize), AllocError>
    ensures { IfOk result (IsNamePlace text.now number name.now) }
{
    match line_numbered(text, number) {
        Some(line) => place_in(alloc, line, without_comment(line), name),
        None => Ok((0, 0)),
    }
}
